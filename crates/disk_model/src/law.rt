// What the disk model implies for every trace of calls.
ghost use Rattle.std.specs.Prelude.{◌++◌, ◌∷◌, ℕ, List};
ghost use Rattle.disk_model.specs.Traces.{DeviceCall, Synced, Trace, content, seen, noted};
ghost use Rattle.disk_model.specs.Images.{IsImage, MayLeave, IsSettled, KeepsUntouched};

/// What a read returns is one of the images that a crash now may leave.
pub fn a_read_gives_an_image()
    ensures { (t : Trace) → MayLeave t (seen t) }
{}

/// After a sync that answered Ok there is one image: what a read returns.
pub fn a_sync_leaves_one_image()
    ensures { (t : Trace) → IsSettled (noted Synced t) }
{}

/// An image of a longer trace is one of a shorter trace, except at the places that were written or cut off since.
pub fn a_later_image_keeps_what_no_call_touched()
    ensures { (first : List ℕ) (since before : List DeviceCall) (c : List ℕ) → IsImage first (since ++ before) c →
        (d : List ℕ) × IsImage first before d × KeepsUntouched since d c }
{}

/// Bytes outside of the ranges that were written or cut off since the last sync are the same in every image.
pub fn bytes_outside_are_the_same()
    ensures { (first : List ℕ) (since before : List DeviceCall) (c : List ℕ) → IsImage first (since ++ Synced ∷ before) c →
        KeepsUntouched since (content first before) c }
{}
