// Totals over points of a content that follow one another.
ghost use Rattle.std.specs.Prelude.{◌≡◌, ◌+◌, ◌*◌, ◌≤◌, ◌+ℤ◌, ◌∷◌, length, slice_range, unsigned_abs};
ghost use Rattle.trend_num.specs.{InRange, largest_value, last_time};
ghost use Rattle.trend_model.specs.{points_of, PointsRise, area, greater, greatest_from, last_from, least_from, lesser, piece};

use late_insert::{Content, piece};
use trend_num::Point;

// Points that follow one another: the first, the last, and twice the area under them.
#[derive(Clone, Copy)]
pub(crate) struct Part {
    pub first: Point,
    pub last: Point,
    pub area: i128,
}

// Twice the area under a start and the points after it, and the last of these points.
#[derive(Clone, Copy)]
pub(crate) struct Area {
    pub twice: i128,
    pub last: Point,
}

// Twice the area under the start and the points at the places from `first` to `behind`, the latter excluded.
pub(crate) fn area_inside(
    content: &Content,
    step: bool,
    start: Point,
    first: u32,
    behind: u32,
) -> Area
    requires order { first ≤ behind }
    requires within { behind ≤ length content.now.records }
    requires start { InRange start }
    requires rises { PointsRise (start ∷ slice_range (points_of content.now.records) first behind) }
    ensures area { result.twice ≡ area step (start ∷ slice_range (points_of content.now.records) first behind) }
    ensures last { result.last ≡ last_from start (slice_range (points_of content.now.records) first behind) }
    ensures range { InRange result.last }
{
    // Called for its clauses: the points rise and are in range.
    let _len = content.len();
    let mut area = Area {
        twice: 0,
        last: start,
    };
    let mut runs = content.runs(first, behind);
    while let Some(run) = runs.next() {
        let part = Part {
            first: run.first(),
            last: run.last(),
            area: run.area(step),
        };
        area = joined(step, area, part);
    }
    area
}

// The area with one more part.
fn joined(step: bool, area: Area, part: Part) -> Area
    requires last { InRange area.last }
    requires first { InRange part.first }
    requires order { area.last.t ≤ part.first.t }
    requires small { unsigned_abs area.twice ≤ last_time * (2 * largest_value) }
    requires small_part { unsigned_abs part.area ≤ last_time * (2 * largest_value) }
    ensures twice { result.twice ≡ (area.twice +ℤ piece step area.last part.first) +ℤ part.area }
    ensures last { result.last ≡ part.last }
{
    Area {
        twice: sum(
            sum(area.twice, piece(step, area.last, part.first)),
            part.area,
        ),
        last: part.last,
    }
}

// The sum of two areas.
pub(crate) fn sum(a: i128, b: i128) -> i128
    requires first { unsigned_abs a ≤ 2 * last_time * (2 * largest_value) }
    requires second { unsigned_abs b ≤ last_time * (2 * largest_value) }
    ensures { result ≡ a +ℤ b }
{
    a + b
}

// The least value and the greatest.
#[derive(Clone, Copy)]
pub(crate) struct Extremes {
    pub low: i64,
    pub high: i64,
}

// The least value and the greatest of a start and of the points at the places from `first` to `behind`, the latter
// excluded.
pub(crate) fn extremes_inside(content: &Content, start: Point, first: u32, behind: u32) -> Extremes
    requires order { first ≤ behind }
    requires within { behind ≤ length content.now.records }
    requires start { InRange start }
    ensures low { result.low ≡ least_from start (slice_range (points_of content.now.records) first behind) }
    ensures high { result.high ≡ greatest_from start (slice_range (points_of content.now.records) first behind) }
{
    let mut extremes = Extremes {
        low: start.v,
        high: start.v,
    };
    let mut runs = content.runs(first, behind);
    while let Some(run) = runs.next() {
        extremes = widened(extremes, run.low(), run.high());
    }
    extremes
}

// The least value and the greatest, of these and two more values.
pub(crate) fn widened(extremes: Extremes, low: i64, high: i64) -> Extremes
    ensures low { result.low ≡ lesser extremes.low low }
    ensures high { result.high ≡ greater extremes.high high }
{
    Extremes {
        low: extremes.low.min(low),
        high: extremes.high.max(high),
    }
}
