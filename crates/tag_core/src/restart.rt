// The test of records and a summary from which a tag is to continue.
ghost use Rattle.std.specs.Prelude.{◌≡◌, ◌↔◌, ◌*◌, ◌^◌, ◌<◌, ◌≤◌, ◌∷◌, IsTrue, Some, false, length, pos};
ghost use Rattle.trend_model.specs.{is_late_record, IsNotSteeper, down, Each, IfThere, AreDoorsAt, ArePartsOk, BeginsKept, DoorsFit, IsTagBegun, IsBegunOrBlank, IsBlank, IsLateBefore, PendingFits, PointsRise, kept_points, last_point};
ghost use Rattle.trend_num.specs.{Rec, Tuning, InRange, TuningInRange, largest_value, Point, most_records};

use door_slopes::{Doors, same_doors};
use std::marker::Brand;
use std::sync::ledger::{Blank, Ledger};
use trend_num::{Kind, MAX_RECORDS, Point, Rec, Steps, Summary, Tuning, in_range};

/// Returns whether these records and this summary can be those of a tag with this tuning and of this kind. It allocates
/// no memory.
pub fn parts_ok(tuning: &Tuning, step: bool, recs: &[Rec], summary: &Summary) -> bool
    requires { TuningInRange tuning.now }
    ensures { IsTrue result ↔ ArePartsOk tuning.now step recs.now summary.now }
{
    counts_ok(recs, summary)
        && is_of_tuning(tuning, summary.tuning)
        && places_in_range(summary)
        && whole_ok(tuning.comp_dev, step, recs, summary)
        && pending_fits(tuning, summary.held, summary.pending)
}

// A tag has taken fewer events than this number.
const TAKEN_END: u64 = 1_000_000_000_000_000_000;

// Whether the summary counts the records correctly, they are not too many, and there are at most two for each event.
fn counts_ok(recs: &[Rec], summary: &Summary) -> bool
    ensures { IsTrue result ↔ ((summary.now.records ≡ length recs.now)
        × (length recs.now ≤ 2 * summary.now.taken)
        × (length recs.now ≤ most_records)
        × (summary.now.taken < 10 ^ 18)) }
{
    recs.len() <= MAX_RECORDS as usize
        && summary.records == recs.len() as u32
        && summary.taken < TAKEN_END
        && u64::from(summary.records) <= 2 * summary.taken
}

// Whether the tuning is this one, if there is one.
fn is_of_tuning(tuning: &Tuning, other: Option<Tuning>) -> bool
    ensures { IsTrue result ↔ IfThere (λ (t : Tuning). t ≡ tuning.now) other }
{
    match other {
        None => true,
        Some(other) => other == *tuning,
    }
}

// Whether each point of the summary is in range.
fn places_in_range(summary: &Summary) -> bool
    ensures { IsTrue result ↔ (IfThere InRange summary.now.held
        × IfThere InRange summary.now.pending
        × IfThere InRange summary.now.hinge
        × IfThere InRange summary.now.upper
        × IfThere InRange summary.now.lower) }
{
    place_in_range(summary.held)
        && place_in_range(summary.pending)
        && place_in_range(summary.hinge)
        && place_in_range(summary.upper)
        && place_in_range(summary.lower)
}

// Whether a point is in range, if there is one.
fn place_in_range(place: Option<Point>) -> bool
    ensures { IsTrue result ↔ IfThere InRange place }
{
    match place {
        None => true,
        Some(p) => in_range(p),
    }
}

// Whether the parts of a tag that has begun fit together, or those of one that has not begun are blank. Each record is
// in range.
fn whole_ok(dev: u64, step: bool, recs: &[Rec], summary: &Summary) -> bool
    requires deviation { dev ≤ largest_value }
    requires held { IfThere InRange summary.now.held }
    requires hinge { IfThere InRange summary.now.hinge }
    requires upper { IfThere InRange summary.now.upper }
    requires lower { IfThere InRange summary.now.lower }
    ensures { IsTrue result
        ↔ (IsBegunOrBlank step dev recs.now summary.now.held summary.now.hinge summary.now.upper summary.now.lower
        × Each (λ (r : Rec). InRange r.point) recs.now) }
{
    match (summary.held, summary.hinge) {
        (None, None) => is_blank(recs, summary),
        (Some(held), Some(hinge)) => is_begun(dev, step, recs, summary, held, hinge),
        _ => false,
    }
}

// Whether there are no records and no doors.
fn is_blank(recs: &[Rec], summary: &Summary) -> bool
    ensures { IsTrue result ↔ IsBlank recs.now summary.now.upper summary.now.lower }
{
    recs.is_empty() && summary.upper.is_none() && summary.lower.is_none()
}

// Whether the parts of a tag with this held point and this hinge fit together, and each record is in range.
fn is_begun(
    dev: u64,
    step: bool,
    recs: &[Rec],
    summary: &Summary,
    held: Point,
    hinge: Point,
) -> bool
    requires deviation { dev ≤ largest_value }
    requires held { InRange held }
    requires hinge { InRange hinge }
    requires upper { IfThere InRange summary.now.upper }
    requires lower { IfThere InRange summary.now.lower }
    ensures { IsTrue result ↔ (IsTagBegun step dev recs.now held hinge summary.now.upper summary.now.lower
        × Each (λ (r : Rec). InRange r.point) recs.now) }
{
    records_fit(recs, hinge, held)
        && doors_fit(dev, step, hinge, held, summary.upper, summary.lower)
}

// Whether the first record is Kept, the Kept ones rise to the hinge, no Late one is after the held point, and each is
// in range.
fn records_fit(recs: &[Rec], hinge: Point, held: Point) -> bool
    ensures { IsTrue result ↔ (BeginsKept recs.now
        × PointsRise (kept_points recs.now)
        × (last_point (kept_points recs.now) ≡ Some hinge)
        × Each (IsLateBefore held) recs.now
        × Each (λ (r : Rec). InRange r.point) recs.now) }
{
    match recs.split_first() {
        None => false,
        Some((first, rest)) => {
            first.kind == Kind::Kept
                && in_range(first.point)
                && rest_fits(first.point, rest, hinge, held)
        }
    }
}

// Whether the records after the kept point `from` fit: the Kept ones rise from it to the hinge, no Late one is after
// the held point, and each is in range. It is a function of its own, so that all that its loop reads stays in
// registers.
#[inline(never)]
fn rest_fits(from: Point, recs: &[Rec], hinge: Point, held: Point) -> bool
    ensures { IsTrue result ↔ (PointsRise (from ∷ kept_points recs.now)
        × (last_point (from ∷ kept_points recs.now) ≡ Some hinge)
        × Each (IsLateBefore held) recs.now
        × Each (λ (r : Rec). InRange r.point) recs.now) }
{
    let mut last = from;
    for rec in recs {
        if !may_follow(last, rec, held) {
            return false;
        }
        if let Kind::Kept = rec.kind {
            last = rec.point;
        }
    }
    last == hinge
}

// Whether a record is in range and may follow. A Kept one must be after the last kept point; a Late one must not be
// after the held point.
#[inline]
fn may_follow(last: Point, rec: &Rec, held: Point) -> bool
    ensures { IsTrue result ↔ (InRange rec.now.point
        × (is_late_record rec.now.kind ≡ false → last.t < rec.now.point.t)
        × IsLateBefore held rec.now) }
{
    in_range(rec.point)
        && match rec.kind {
            Kind::Kept => last.t < rec.point.t,
            Kind::Late => rec.point.t <= held.t,
        }
}

// Whether the exception test would have left the pending value unsent, if there is one.
fn pending_fits(tuning: &Tuning, held: Option<Point>, pending: Option<Point>) -> bool
    ensures { IsTrue result ↔ PendingFits tuning.now held pending }
{
    match (held, pending) {
        (_, None) => true,
        (None, Some(_)) => false,
        (Some(held), Some(p)) => {
            held.t < p.t && p.v.abs_diff(held.v) <= tuning.exc_dev && p.t - held.t < tuning.exc_max
        }
    }
}

// Whether the doors fit. There are none if the held point is the hinge. Otherwise there are two, and they fit the held
// point.
fn doors_fit(
    dev: u64,
    step: bool,
    hinge: Point,
    held: Point,
    upper: Option<Point>,
    lower: Option<Point>,
) -> bool
    requires deviation { dev ≤ largest_value }
    requires hinge { InRange hinge }
    requires held { InRange held }
    requires upper { IfThere InRange upper }
    requires lower { IfThere InRange lower }
    ensures { IsTrue result ↔ DoorsFit step dev hinge held upper lower }
{
    match (upper, lower) {
        (None, None) => held == hinge,
        (Some(upper), Some(lower)) if step => { hinge.t < held.t && upper == held && lower == held }
        (Some(upper), Some(lower)) => {
            is_between(hinge, upper, held)
                && is_between(hinge, lower, held)
                && slopes_fit::<Brand>(dev, hinge, held, upper, lower, Blank::new(1))
        }
        _ => false,
    }
}

// Whether x is later than the hinge and not later than the held point.
fn is_between(hinge: Point, x: Point, held: Point) -> bool
    ensures { IsTrue result ↔ ((hinge.t < x.t) × (x.t ≤ held.t)) }
{
    hinge.t < x.t && x.t <= held.t
}

// Whether these doors admit the line to the held point, and neither of them is further open than at that point. It
// counts steps on the ledger of `blank`.
fn slopes_fit<L: Ledger>(
    dev: u64,
    hinge: Point,
    held: Point,
    upper: Point,
    lower: Point,
    blank: Blank,
) -> bool
    requires deviation { dev ≤ largest_value }
    requires hinge { InRange hinge }
    requires held { InRange held }
    requires upper { InRange upper }
    requires upper_after { hinge.t < upper.t }
    requires upper_before { upper.t ≤ held.t }
    requires lower { InRange lower }
    requires lower_after { hinge.t < lower.t }
    requires lower_before { lower.t ≤ held.t }
    requires name { blank.name ≡ L.name }
    requires parts { blank.parts ≡ L.parts }
    requires some { 0 < L.parts }
    ensures { IsTrue result ↔ AreDoorsAt dev hinge held upper lower }
{
    let mut steps = Steps::<L>::new(blank);
    let doors = Doors::from_points(hinge, dev, upper, lower);
    doors.admits(held, &mut steps) && are_left(doors, held, &mut steps)
}

// Whether p leaves both doors where they are: neither of them is further open than at p.
fn are_left<L: Ledger>(doors: Doors, p: Point, steps: &mut Steps<L>) -> bool
    requires range { InRange p }
    requires after { doors.hinge.t < p.t }
    ensures { IsTrue result ↔ (IsNotSteeper doors.hinge doors.upper (pos doors.deviation) p (pos doors.deviation)
        × IsNotSteeper doors.hinge p (down doors.deviation) doors.lower (down doors.deviation)) }
{
    let mut swung = doors;
    swung.swing(p, steps);
    same_doors(&swung, &doors)
}
