// Small histories and what is kept of them.
ghost use Rattle.std.specs.Prelude.{◌≡◌, ◌+◌, ◌*◌, pos, negsuc, [], ◌∷◌, None, Some};
ghost use Rattle.trend_model.specs.Lists.{IsAmong};
ghost use Rattle.trend_model.specs.History.{InOrder, IsInOrder, in_force, pending, sent, tuning_of_value};
ghost use Rattle.trend_num.specs.{Within};
ghost use Rattle.trend_model.specs.Walk.{held, kept, late, passed, records};
ghost use Rattle.trend_model.specs.Content.{IsCleanSpan, content_at, late_at};
ghost use Rattle.trend_model.specs.Bound.{IsBoundedBy};
ghost use Rattle.trend_model.specs.Examples.{at, climbing, doubled, hasty, late_about, lines, long, loosened, overtaken, shallow, spiked, stairs, steep, sharpened, tightened, tuned, untested, wide};

/// Small histories of values with their records.
pub fn worked_histories()
    ensures steep { records (lines (tuned 0 1 0 1000000)) steep
        ≡ kept (at 0 (pos 0)) ∷ kept (at 1 (pos 0)) ∷ kept (at 2 (pos 3)) ∷ [] }
    ensures shallow { records (lines (tuned 0 1 0 1000000)) shallow ≡ kept (at 0 (pos 0)) ∷ [] }
    ensures wide { records (lines (tuned 2 0 0 1000000)) wide ≡ kept (at 0 (pos 0)) ∷ kept (at 2 (negsuc 1)) ∷ [] }
    ensures spiked { records (lines (tuned 0 0 5 1000000)) spiked ≡ kept (at 0 (pos 0)) ∷ [] }
    ensures spiked_held { held (lines (tuned 0 0 5 1000000)) spiked ≡ Some (at 2 (pos 0)) }
    ensures long { records (lines (tuned 0 0 0 10)) long ≡ kept (at 0 (pos 0)) ∷ kept (at 6 (pos 6)) ∷ [] }
    ensures overtaken { records (lines (tuned 5 0 0 1000000)) overtaken ≡ kept (at 0 (pos 0)) ∷ late (at 15 (pos 9)) ∷ [] }
    ensures overtaken_held { held (lines (tuned 5 0 0 1000000)) overtaken ≡ Some (at 20 (pos 1)) }
{}

/// Small histories with a retuning, which sends the pending value and keeps the held point.
pub fn worked_retunings()
    ensures loosened { records (lines (tuned 0 0 0 1000000)) loosened ≡ kept (at 0 (pos 0)) ∷ kept (at 20 (pos 20)) ∷ [] }
    ensures loosened_held { held (lines (tuned 0 0 0 1000000)) loosened ≡ Some (at 40 (pos 40)) }
    ensures tightened { records (lines (tuned 5 0 0 1000000)) tightened ≡ kept (at 0 (pos 0)) ∷ kept (at 10 (pos 1)) ∷ [] }
    ensures tightened_held { held (lines (tuned 5 0 0 1000000)) tightened ≡ Some (at 10 (pos 1)) }
    ensures late_about { records (lines (tuned 5 0 0 1000000)) late_about
        ≡ kept (at 0 (pos 0)) ∷ late (at 15 (pos 9)) ∷ kept (at 20 (pos 1)) ∷ late (at 10 (pos 4)) ∷ [] }
    ensures late_about_waits { pending (lines (tuned 5 0 0 1000000)) late_about ≡ Some (at 30 (pos 1)) }
{}

/// Small histories of step tags, which keep the new value and not the held one.
pub fn worked_stairs()
    ensures climbing { records (stairs (tuned 0 2 0 1000000)) climbing ≡ kept (at 0 (pos 10)) ∷ kept (at 20 (pos 15)) ∷ [] }
    ensures climbing_held { held (stairs (tuned 0 2 0 1000000)) climbing ≡ Some (at 30 (pos 14)) }
    ensures hasty { records (stairs (tuned 0 2 15 1000000)) hasty ≡ kept (at 0 (pos 10)) ∷ kept (at 20 (pos 21)) ∷ [] }
    ensures hasty_held { held (stairs (tuned 0 2 15 1000000)) hasty ≡ Some (at 20 (pos 21)) }
    ensures hasty_passed { passed (stairs (tuned 0 2 15 1000000)) hasty ≡ at 10 (pos 20) ∷ [] }
{}

/// A time with several records reads as the last late value there.
pub fn worked_contents()
    ensures over_kept { content_at doubled 0 ≡ Some (pos 4) }
    ensures last_late { content_at doubled 5 ≡ Some (pos 2) }
    ensures kept { content_at doubled 10 ≡ Some (pos 8) }
    ensures kept_in_order { late_at doubled 10 ≡ None }
    ensures nothing { content_at doubled 7 ≡ None }
{}

/// There are spans to which the promise applies. A value that was passed over exempts a span from it.
pub fn spans_exist()
    ensures clean { IsCleanSpan (records (lines (tuned 0 1 0 1000000)) shallow) (held (lines (tuned 0 1 0 1000000)) shallow)
        (passed (lines (tuned 0 1 0 1000000)) shallow) (at 0 (pos 0)) (at 20 (pos 0)) }
    ensures stair { IsCleanSpan (records (stairs (tuned 0 2 0 1000000)) climbing) (held (stairs (tuned 0 2 0 1000000)) climbing)
        (passed (stairs (tuned 0 2 0 1000000)) climbing) (at 0 (pos 10)) (at 20 (pos 15)) }
    ensures passed { passed (lines (tuned 0 0 5 1000000)) spiked ≡ at 1 (pos 10) ∷ [] }
    ensures not_clean { ¬ IsCleanSpan (records (lines (tuned 0 0 5 1000000)) spiked) (held (lines (tuned 0 0 5 1000000)) spiked)
        (passed (lines (tuned 0 0 5 1000000)) spiked) (at 0 (pos 0)) (at 2 (pos 0)) }
{}

/// A compressor might end a span only after its doors have opened past parallel, and then keep the value before without
/// a test. The promise does not hold for its records.
pub fn untested_value_is_refused()
    ensures { ¬ IsBoundedBy untested (Some (at 3 (pos 0))) [] (sent (lines (tuned 0 1 0 1000000)) steep)
        (lines (tuned 0 1 0 1000000)) steep }
{}

/// CompDev plus once ExcDev is not enough for a raw value: on a clean span one raw value is farther than that from the
/// line.
pub fn twice_is_needed()
    ensures span { IsCleanSpan (records (lines (tuned 2 0 0 1000000)) wide) (held (lines (tuned 2 0 0 1000000)) wide)
        (passed (lines (tuned 2 0 0 1000000)) wide) (at 0 (pos 0)) (at 2 (negsuc 1)) }
    ensures raw { IsInOrder (at 1 (pos 2)) wide }
    ensures far { ¬ Within (at 0 (pos 0)) (at 2 (negsuc 1)) (at 1 (pos 2)) (0 + 1 * 2) }
    ensures near { Within (at 0 (pos 0)) (at 2 (negsuc 1)) (at 1 (pos 2)) (0 + 2 * 2) }
{}

/// A span needs the tuning of its own time. By the tuning at the end of the history, a value that was sent is too far
/// from the line.
pub fn own_tuning_is_needed()
    ensures span { IsCleanSpan (records (lines (tuned 0 5 0 1000000)) sharpened) (held (lines (tuned 0 5 0 1000000)) sharpened)
        (passed (lines (tuned 0 5 0 1000000)) sharpened) (at 0 (pos 0)) (at 20 (pos 0)) }
    ensures sent { IsAmong (InOrder (at 10 (pos 3))) (sent (lines (tuned 0 5 0 1000000)) sharpened) }
    ensures own { tuning_of_value (lines (tuned 0 5 0 1000000)) sharpened 20 ≡ tuned 0 5 0 1000000 }
    ensures end { in_force (lines (tuned 0 5 0 1000000)) sharpened ≡ tuned 0 0 0 1000000 }
    ensures far { ¬ Within (at 0 (pos 0)) (at 20 (pos 0)) (at 10 (pos 3)) 0 }
{}
