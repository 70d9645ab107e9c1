// Laws that tie the definitions to plain words.
ghost use Rattle.std.specs.Prelude.{◌≡◌, ◌≤◌, ◌++◌, Bool, List, map};
ghost use Rattle.trend_num.specs.{Point, Rec, Summary, Tuning};
ghost use Rattle.trend_model.specs.Lists.{Each, IfThere};
ghost use Rattle.trend_model.specs.History.{Event, Origin, IsInOrder, last_in_order, prior, sent, tuning_of_value};
ghost use Rattle.trend_model.specs.Walk.{held, hinge, passed, records};
ghost use Rattle.trend_model.specs.Content.{IsCleanSpan};
ghost use Rattle.trend_model.specs.Contents.{IsNotBefore, listed};
ghost use Rattle.trend_model.specs.Bound.{IsNear};
ghost use Rattle.trend_model.specs.Parts.{ArePartsOk, PointsRise, kept_points, last_point};
ghost use Rattle.trend_model.specs.Orders.{AllInOrder, RisesInTime, sent_plainly, tunings};

/// The value with which the exception test compares is the last value sent in order.
pub fn prior_is_sent()
    ensures { (o : Origin) (h : List Event) → prior o h ≡ last_in_order (sent o h) }
{}

/// The held point, which closes the line, is the last value sent in order.
pub fn held_is_sent()
    ensures { (o : Origin) (h : List Event) → held o h ≡ last_in_order (sent o h) }
{}

/// Values sent in order rise strictly in time.
pub fn sent_in_order_rises()
    ensures { (o : Origin) (h : List Event) → RisesInTime (sent o h) }
{}

/// Kept points rise strictly in time, and the hinge is the last of them.
pub fn kept_points_rise()
    ensures rise { (o : Origin) (h : List Event) → PointsRise (kept_points (records o h)) }
    ensures last { (o : Origin) (h : List Event) → hinge o h ≡ last_point (kept_points (records o h)) }
{}

/// No record is after the held point. This holds for a history, and for any parts that can be a tag's.
pub fn held_is_last()
    ensures of_history { (o : Origin) (h : List Event) → IfThere (IsNotBefore (listed (records o h))) (held o h) }
    ensures of_parts { (u : Tuning) (step : Bool) (rs : List Rec) (s : Summary) → ArePartsOk u step rs s
        → IfThere (IsNotBefore (listed rs)) s.held }
{}

/// Later events only add records, after those that were there.
pub fn records_only_grow()
    ensures { (o : Origin) (later h : List Event) →
        (more : List Rec) × (records o (later ++ h) ≡ records o h ++ more) }
{}

/// If ExcMax is 0 in every tuning, the exception test sends every value of a history that rises in time. This holds for
/// any ExcDev.
pub fn no_wait_sends_all()
    ensures { (o : Origin) (h : List Event) → Each (λ (u : Tuning). u.exc_max ≡ 0) (tunings o h) → AllInOrder h
        → sent o h ≡ map sent_plainly h }
{}

/// On a clean span whose tuning has ExcDev 0 and CompDev 0, every value in order lies exactly on the line or the stair.
pub fn no_deviation_is_exact()
    ensures { (o : Origin) (h : List Event) (l r y : Point) → (tuning_of_value o h r.t).exc_dev ≡ 0
        → (tuning_of_value o h r.t).comp_dev ≡ 0 → IsCleanSpan (records o h) (held o h) (passed o h) l r
        → IsInOrder y h → l.t ≤ y.t → y.t ≤ r.t → IsNear o.step l r y 0 }
{}
