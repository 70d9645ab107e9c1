// What a replayed tape says of its tag's archive.
ghost use Rattle.std.specs.Prelude.{◌≡◌, ℕ, List, map};
ghost use Rattle.trend_num.specs.{TagDef};
ghost use Rattle.trend_model.specs.{Event, Origin, Raw, IsBounded};
ghost use Rattle.trend_model.specs.State.{State, Stands, followed};
ghost use Rattle.tag_cell.specs.declared.entry.Entry.{Entry};
ghost use Rattle.tag_cell.specs.declared.history.TagOpening.{TagOpening};
ghost use Rattle.tag_cell.specs.Tapes.{opened, taken};
ghost use Rattle.tag_cell.specs.Replays.{IsLegal, IsTapeReplayed};

/// A tape that replays from its opening is legal for every history for which the opening stands. Each entry agrees with
/// the archive of that history followed by the takes before the entry, by the definitions over histories. The state at
/// the end stands for the history followed by all takes.
pub fn a_replayed_history_is_legal()
    ensures { (org : Origin) (h : List Event) (def : TagDef) (o : TagOpening) (tape : List Entry) (s : State) (acked : ℕ)
        → org.step ≡ def.step → Stands org h (opened o) → IsTapeReplayed def o tape s acked → IsLegal org h def o tape s acked }
{}

/// The end of such a tape stands for that history followed by the takes. The promise of the archive holds for it.
pub fn a_replayed_history_is_bounded()
    ensures { (org : Origin) (h : List Event) (def : TagDef) (o : TagOpening) (tape : List Entry) (s : State) (acked : ℕ)
        → org.step ≡ def.step → Stands org h (opened o) → IsTapeReplayed def o tape s acked
        → Stands org (followed h (map Raw (taken tape))) s × IsBounded org (followed h (map Raw (taken tape))) }
{}
