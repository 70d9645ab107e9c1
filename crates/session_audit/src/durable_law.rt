// What the history of a tag says of the records that groups pulled of it.
ghost use Rattle.std.specs.Prelude.{◌≡◌, ℕ, ◌≤◌, List};
ghost use Rattle.trend_num.specs.{TagDef};
ghost use Rattle.trend_model.specs.State.{State};
ghost use Rattle.tag_cell.specs.{Entry, TagOpening, IsTapeReplayed};
ghost use Rattle.session_audit.specs.Durable.{ArePullsDurable, durable_in};

/// After all events of a tag are acknowledged, no crash takes away any of its records.
pub fn all_records_are_durable()
    ensures { (def : TagDef) (o : TagOpening) (tape : List Entry) (s : State) (acked : ℕ) → IsTapeReplayed def o tape s acked
        → s.summary.taken ≤ acked → durable_in def o tape ≡ s.records }
{}

/// Each pull of a group ended at the end of the records that the tag had for good then: those of its opening, and of
/// the takes that the commits before the pull acknowledge.
pub fn what_was_pulled_is_durable()
    ensures { (def : TagDef) (o : TagOpening) (tape : List Entry) (s : State) (acked : ℕ) → IsTapeReplayed def o tape s acked
        → ArePullsDurable def o tape }
{}
