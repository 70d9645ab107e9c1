// What the definitions determine. The bodies are empty: each law is a contract.
ghost use Rattle.std.specs.Prelude.{◌≡◌, ℕ, Bool, List};
ghost use Rattle.event_frames.specs.declared.frame.Edit.{Edit};
ghost use Rattle.event_frames.specs.declared.frame.Frame.{Frame};
ghost use Rattle.event_frames.specs.Edits.{AreEdits};
ghost use Rattle.event_frames.specs.Frames.{AreFrames};

/// A row has only one list of frames.
pub fn frames_are_one_list()
    ensures { (truths : List Bool) (least : ℕ) (fs gs : List Frame) → AreFrames truths least fs → AreFrames truths least gs
        → fs ≡ gs }
{}

/// A change has only one list of edits.
pub fn edits_are_one_list()
    ensures { (old new : List Bool) (least : ℕ) (es ds : List Edit) → AreEdits old new least es → AreEdits old new least ds
        → es ≡ ds }
{}
