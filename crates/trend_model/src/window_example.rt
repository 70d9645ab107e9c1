// Small windows and what they give.
ghost use Rattle.std.specs.Prelude.{◌≡◌, pos, negsuc, true, false, [], ◌∷◌, None, Some};
ghost use Rattle.trend_num.specs.declared.measure.Measure.TheVariants.{Area, Avg, Total, Low, High, Count, First, Last};
ghost use Rattle.trend_num.specs.declared.reading.Reading.TheVariants.{Exact, Line, Flat, Nothing};
ghost use Rattle.trend_model.specs.Examples.{at};
ghost use Rattle.trend_model.specs.Reads.{read_at, value_read};
ghost use Rattle.trend_model.specs.Windows.{window_value};

/// Reads: exact at a point, on the line between two points, flat after the last, nothing before the first. A read of a
/// stair is flat between two points. A half is rounded up.
pub fn worked_reads()
    ensures line { read_at false (at 0 (pos 4) ∷ at 10 (pos 8) ∷ []) 5 ≡ Line (record { num = pos 60; den = 10 }) }
    ensures half_up { value_read (read_at false (at 0 (pos 0) ∷ at 2 (pos 1) ∷ []) 1) ≡ Some (pos 1) }
    ensures half_below_zero { value_read (read_at false (at 0 (pos 0) ∷ at 2 (negsuc 0) ∷ []) 1) ≡ Some (pos 0) }
    ensures exact { read_at false (at 0 (pos 4) ∷ at 10 (pos 8) ∷ []) 10 ≡ Exact (pos 8) }
    ensures flat { read_at false (at 0 (pos 4) ∷ at 10 (pos 8) ∷ []) 11 ≡ Flat (pos 8) }
    ensures before { read_at false (at 5 (pos 4) ∷ []) 4 ≡ Nothing }
    ensures stair { read_at true (at 0 (pos 10) ∷ at 20 (pos 15) ∷ at 30 (pos 14) ∷ []) 15 ≡ Flat (pos 10) }
{}

/// Measures of the window from 5 to 15, over the line through (0,0), (10,10), (20,0).
pub fn worked_windows()
    ensures area { window_value false Area (at 0 (pos 0) ∷ at 10 (pos 10) ∷ at 20 (pos 0) ∷ []) 5 15 ≡ Some (pos 150) }
    ensures avg { window_value false Avg (at 0 (pos 0) ∷ at 10 (pos 10) ∷ at 20 (pos 0) ∷ []) 5 15 ≡ Some (pos 8) }
    ensures total { window_value false Total (at 0 (pos 0) ∷ at 10 (pos 10) ∷ at 20 (pos 0) ∷ []) 5 15 ≡ Some (pos 0) }
    ensures low { window_value false Low (at 0 (pos 0) ∷ at 10 (pos 10) ∷ at 20 (pos 0) ∷ []) 5 15 ≡ Some (pos 5) }
    ensures high { window_value false High (at 0 (pos 0) ∷ at 10 (pos 10) ∷ at 20 (pos 0) ∷ []) 5 15 ≡ Some (pos 10) }
    ensures count { window_value false Count (at 0 (pos 0) ∷ at 10 (pos 10) ∷ at 20 (pos 0) ∷ []) 5 15 ≡ Some (pos 1) }
    ensures first { window_value false First (at 0 (pos 0) ∷ at 10 (pos 10) ∷ at 20 (pos 0) ∷ []) 5 15 ≡ Some (pos 5) }
    ensures last { window_value false Last (at 0 (pos 0) ∷ at 10 (pos 10) ∷ at 20 (pos 0) ∷ []) 5 15 ≡ Some (pos 5) }
    ensures outside { window_value false Area (at 0 (pos 0) ∷ at 10 (pos 10) ∷ at 20 (pos 0) ∷ []) 15 25 ≡ None }
{}

/// Measures of the window from 0 to 30, over the stair (0,10), (20,15), (30,14).
pub fn worked_stair_windows()
    ensures area { window_value true Area (at 0 (pos 10) ∷ at 20 (pos 15) ∷ at 30 (pos 14) ∷ []) 0 30 ≡ Some (pos 700) }
    ensures avg { window_value true Avg (at 0 (pos 10) ∷ at 20 (pos 15) ∷ at 30 (pos 14) ∷ []) 0 30 ≡ Some (pos 12) }
    ensures low { window_value true Low (at 0 (pos 10) ∷ at 20 (pos 15) ∷ at 30 (pos 14) ∷ []) 0 30 ≡ Some (pos 10) }
    ensures high { window_value true High (at 0 (pos 10) ∷ at 20 (pos 15) ∷ at 30 (pos 14) ∷ []) 0 30 ≡ Some (pos 15) }
    ensures last { window_value true Last (at 0 (pos 10) ∷ at 20 (pos 15) ∷ at 30 (pos 14) ∷ []) 0 30 ≡ Some (pos 14) }
{}
