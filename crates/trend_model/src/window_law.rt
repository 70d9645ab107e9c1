// Laws about windows of every list of points. The bodies are empty: each law is a contract.
ghost use Rattle.std.specs.Prelude.{◌≡◌, ℕ, ◌<◌, ◌≤◌, ℤ, ◌+ℤ◌, ◌↔◌, Bool, false, List, None, Some};
ghost use Rattle.trend_num.specs.{Measure, Point};
ghost use Rattle.trend_num.specs.declared.measure.Measure.TheVariants.{Area, Count};
ghost use Rattle.trend_model.specs.Lists.{IsAmong};
ghost use Rattle.trend_model.specs.Parts.{PointsRise};
ghost use Rattle.trend_model.specs.Windows.{is_covered, window_value};

/// If two windows meet at a point, their areas add up to the area of both together.
pub fn areas_add_up()
    ensures { (step : Bool) (ps : List Point) (p : Point) (from to : ℕ) (a b : ℤ) → PointsRise ps → IsAmong p ps
        → from < p.t → p.t < to → window_value step Area ps from p.t ≡ Some a → window_value step Area ps p.t to ≡ Some b
        → window_value step Area ps from to ≡ Some (a +ℤ b) }
{}

/// If two windows adjoin, their counts add up to the count of both together.
pub fn counts_add_up()
    ensures { (step : Bool) (ps : List Point) (from middle to : ℕ) (a b : ℤ) → from ≤ middle → middle ≤ to
        → window_value step Count ps from middle ≡ Some a → window_value step Count ps middle to ≡ Some b
        → window_value step Count ps from to ≡ Some (a +ℤ b) }
{}

/// A window has no value exactly if it starts before the first point, ends after the last, or there is no point.
pub fn uncovered_windows_have_no_value()
    ensures { (step : Bool) (m : Measure) (ps : List Point) (from to : ℕ) → from ≤ to
        → (window_value step m ps from to ≡ None) ↔ (is_covered ps from to ≡ false) }
{}
