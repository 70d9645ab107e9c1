// What holds of every division, and of all values. The bodies are empty: each law is a contract.
ghost use Rattle.std.specs.Prelude.{◌≡◌, ◌≢◌, ℕ, ℤ, pos, List, All};
ghost use Rattle.sheet_law.specs.{floor_div, floor_rem, IsFloorDivision, IsInRange, Scope, measure_of, value, values};
ghost use Rattle.trend_num.specs.{Measure, Point};
ghost use Rattle.calc_parser.specs.{text_of, IsFormula, IsTree};
ghost use Rattle.calc_parser.specs.Tree.{Tree};
ghost use Rattle.calc_check.specs.Group.{Group};

/// The divisor times the quotient, plus the remainder, is the dividend. The remainder is 0 or has the divisor's sign,
/// and is nearer to 0 than the divisor.
pub fn division()
    ensures { (a b : ℤ) → b ≢ pos 0 → IsFloorDivision a b (floor_div a b) (floor_rem a b) }
{}

/// Each value of a group's calculations is at most 10^18 from 0, or Bad.
pub fn values_are_in_range()
    ensures { (g : Group) (points : List (List Point)) (from to : ℕ) → All IsInRange (values g points from to) }
{}

/// What the inputs measure in a window decides a group's values there: no other window is used.
pub fn one_window_decides()
    ensures { (g : Group) (points others : List (List Point)) (from to : ℕ)
        → ((m : Measure) (name : List ℕ) → measure_of g points from to m name ≡ measure_of g others from to m name)
        → values g points from to ≡ values g others from to }
{}

/// A formula keeps its value when it is printed and read again.
pub fn printing_keeps_values()
    ensures { (text : List ℕ) (t u : Tree) (s : Scope) (from to : ℕ) → IsFormula text t → IsTree (text_of t) u
        → value s from to u ≡ value s from to t }
{}
