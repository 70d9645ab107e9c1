// Laws about reads of every list of points. The bodies are empty: each law is a contract.
ghost use Rattle.std.specs.Prelude.{◌≡◌, ℕ, ◌<◌, ℤ, ◌↔◌, Bool, true, false, List, ◌∷◌, ◌++◌, Option, Some};
ghost use Rattle.trend_num.specs.{Rec, Point, IsRounded, line_value};
ghost use Rattle.trend_num.specs.declared.reading.Reading.TheVariants.{Exact, Flat, Line};
ghost use Rattle.trend_model.specs.Content.{closed_at, content_at, late_at};
ghost use Rattle.trend_model.specs.Contents.{IsClosedContentOf, IsContentOf, points_of};
ghost use Rattle.trend_model.specs.Lists.{IsAmong};
ghost use Rattle.trend_model.specs.Parts.{PointsRise};
ghost use Rattle.trend_model.specs.ReadFacts.{IsBetween, IsFracBetween};
ghost use Rattle.trend_model.specs.Reads.{read_at, rounded, value_read};

/// A fraction is rounded to the nearest whole number, the upper one of two that are equally near, and to no other.
pub fn rounded_is_next()
    ensures next { (num : ℤ) (den : ℕ) → 0 < den → IsRounded num den (rounded num den) }
    ensures only { (num n : ℤ) (den : ℕ) → 0 < den → IsRounded num den n → n ≡ rounded num den }
{}

/// A read at a point is exact.
pub fn read_at_a_point_is_exact()
    ensures { (step : Bool) (ps : List Point) (p : Point) → PointsRise ps → IsAmong p ps → read_at step ps p.t ≡ Exact p.v }
{}

/// A read of a tag of lines strictly between two neighbours is that of the line between them. It lies between their
/// values, and so does its rounded value.
pub fn read_of_a_line_lies_between()
    ensures line { (before after : List Point) (l r : Point) (t : ℕ) → PointsRise (before ++ l ∷ r ∷ after) → l.t < t → t < r.t
        → read_at false (before ++ l ∷ r ∷ after) t ≡ Line (line_value l r t) }
    ensures between { (l r : Point) (t : ℕ) → l.t < t → t < r.t → IsFracBetween l.v r.v (line_value l r t) }
    ensures rounded { (l r : Point) (t : ℕ) (n : ℤ) → l.t < t → t < r.t → value_read (Line (line_value l r t)) ≡ Some n
        → IsBetween l.v r.v n }
{}

/// A read of a step tag strictly between two neighbours has the value of the first.
pub fn read_of_a_stair_is_flat()
    ensures { (before after : List Point) (l r : Point) (t : ℕ) → PointsRise (before ++ l ∷ r ∷ after) → l.t < t → t < r.t
        → read_at true (before ++ l ∷ r ∷ after) t ≡ Flat l.v }
{}

/// A read of a content's list is exact at just those times at which the records have a value, and it has that value.
/// The same holds of a closed content.
pub fn exact_reads_are_the_content()
    ensures content { (rs l : List Rec) (step : Bool) (t : ℕ) (v : ℤ) → IsContentOf rs l
        → (read_at step (points_of l) t ≡ Exact v) ↔ (content_at rs t ≡ Some v) }
    ensures closed { (rs l : List Rec) (q : Option Point) (step : Bool) (t : ℕ) (v : ℤ) → IsClosedContentOf rs q l
        → (read_at step (points_of l) t ≡ Exact v) ↔ (closed_at rs q t ≡ Some v) }
    ensures late { (rs l : List Rec) (q : Option Point) (step : Bool) (t : ℕ) (v : ℤ) → IsClosedContentOf rs q l
        → late_at rs t ≡ Some v → read_at step (points_of l) t ≡ Exact v }
{}
