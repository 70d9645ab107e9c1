// Which windows keep their values when records come. The bodies are empty: each law is a contract.
ghost use Rattle.std.specs.Prelude.{◌≡◌, ◌↔◌, ℕ, ◌<◌, Bool, true, false, List, [], ◌∷◌, ◌++◌};
ghost use Rattle.trend_num.specs.{Rec, Measure};
ghost use Rattle.trend_model.specs.{is_late_record, listed, points_of, window_value};
ghost use Rattle.calc_check.specs.Group.{Group};
ghost use Rattle.sheet_law.specs.declared.grid.Grid.{Grid};
ghost use Rattle.sheet_law.specs.Windows.{complete_windows, is_complete, reaches, window_from, window_to};
ghost use Rattle.sheet_law.specs.Touched.{any_touched, is_newest, is_touched, longer, meets};
ghost use Rattle.sheet_law.specs.Scratch.{values_at};

/// The complete windows are the first ones, as many as `complete_windows` counts, if there is an input and windows have
/// a length.
pub fn reached_windows_are_complete()
    ensures { (w : Grid) (rs : List Rec) (rss : List (List Rec)) (k : ℕ) → 0 < w.period
        → (k < complete_windows w (rs ∷ rss)) ↔ (is_complete w (rs ∷ rss) k ≡ true) }
{}

/// Take a window that does not meet the closed stretch of a late record, in the content before the record. The record
/// does not change what the window measures: any measure, of a line or a stair, wherever the record lies.
pub fn late_records_touch_their_stretch()
    ensures { (step : Bool) (m : Measure) (rs : List Rec) (r : Rec) (from to : ℕ) → from < to
        → is_late_record r.kind ≡ true → meets (listed rs) r.point.t from to ≡ false
        → window_value step m (points_of (listed (rs ++ r ∷ []))) from to
        ≡ window_value step m (points_of (listed rs)) from to }
{}

/// A record after every Kept one changes nothing in a window whose end the Kept records had already reached.
pub fn kept_records_touch_no_complete_window()
    ensures { (step : Bool) (m : Measure) (rs : List Rec) (r : Rec) (from to : ℕ) → from < to
        → is_newest r rs ≡ true → reaches to rs ≡ true
        → window_value step m (points_of (listed (rs ++ r ∷ []))) from to
        ≡ window_value step m (points_of (listed rs)) from to }
{}

/// Take a window whose end the Kept records have reached, and that no record of a list touches in its turn. What the
/// window measures does not change.
pub fn untouched_windows_stay()
    ensures { (step : Bool) (m : Measure) (rs more : List Rec) (from to : ℕ) → from < to
        → reaches to rs ≡ true → is_touched rs more from to ≡ false
        → window_value step m (points_of (listed (rs ++ more))) from to
        ≡ window_value step m (points_of (listed rs)) from to }
{}

/// So the values of all calculations in such a window do not change either.
pub fn formulas_stay()
    ensures { (g : Group) (w : Grid) (rss mores : List (List Rec)) (k : ℕ) → 0 < w.period
        → is_complete w rss k ≡ true → any_touched rss mores (window_from w k) (window_to w k) ≡ false
        → values_at g w (longer rss mores) k ≡ values_at g w rss k }
{}
