// Laws about one more event, and about records and summaries.
ghost use Rattle.std.specs.Prelude.{◌≡◌, ◌+◌, ◌^◌, ◌<◌, ◌≤◌, Bool, Some, [], ◌∷◌, List, length};
ghost use Rattle.trend_num.specs.{most_records, Tuning, InRange};
ghost use Rattle.trend_model.specs.History.{Event, Origin, in_force};
ghost use Rattle.trend_model.specs.Parts.{ArePartsOk};
ghost use Rattle.trend_model.specs.State.{Stands, StandsAsStored, State, after, followed, nothing_taken, replay};
ghost use Rattle.trend_model.specs.Orders.{AllPoints, tuned_by};

/// If a state stands for a history, the state after one more event stands for the history with that event. The same
/// holds of any list of events. The state before any event stands for the empty history.
pub fn after_stands()
    ensures one { (o : Origin) (h : List Event) (e : Event) (s : State) →
        Stands o h s → Stands o (e ∷ h) (after o.step s e) }
    ensures all { (o : Origin) (h events : List Event) (s : State) →
        Stands o h s → Stands o (followed h events) (replay o.step s events) }
    ensures start { (o : Origin) → Stands o [] (nothing_taken o.tuning) }
{}

/// One more event keeps the rules of records and summaries, while there are not too many records or events. The law
/// holds of any records and summary that meet the rules, whether or not they stand for a history.
pub fn after_keeps_parts()
    ensures { (u : Tuning) (step : Bool) (s : State) (e : Event) → s.summary.tuning ≡ Some u
        → ArePartsOk u step s.records s.summary → AllPoints InRange (e ∷ [])
        → length (after step s e).records ≤ most_records → s.summary.taken + 1 < 10 ^ 18
        → ArePartsOk (tuned_by u e) step (after step s e).records (after step s e).summary }
{}

/// Records and a summary that stand for a history of values in range meet the rules, if there are not too many records
/// or events. If nothing was retuned, so does a summary without a tuning.
pub fn history_parts_are_ok()
    ensures { (o : Origin) (h : List Event) (s : State) → AllPoints InRange h → length h < 10 ^ 18
        → length s.records ≤ most_records → StandsAsStored o h s
        → ArePartsOk (in_force o h) o.step s.records s.summary }
{}
