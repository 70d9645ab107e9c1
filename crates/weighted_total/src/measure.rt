// The measures of a window.
ghost use Rattle.std.specs.Prelude.{◌≡◌, ◌^◌, ◌<◌, ◌≤◌, Some, true, false, length, unsigned_abs};
ghost use Rattle.trend_num.specs.{InRange, last_time};
ghost use Rattle.trend_model.specs.{points_of, IfThere, area, greatest_from, least_from, measured, of_first, taken_values, window_value, IsNotBefore};
ghost use Rattle.interp_read.specs.{points_closed_by};
ghost use Rattle.weighted_total.specs.Shapes.{AreEnds, counted, outline};

use crate::inside::{Extremes, area_inside, extremes_inside, sum, widened};
use crate::shape::{Ends, ends_of};
use late_insert::{Content, piece};
use trend_num::{Measure, Point, round_half_up};

/// Returns a measure of a tag's window from one time to a later one. The measure is by the tag's line or, of a step
/// tag, by its stair. Returns `None` exactly if the window starts before the first point, ends after the last, or there
/// is no point. The caller ensures that no point of the content is after the held point.
pub fn window_value(
    content: &Content,
    held: Option<Point>,
    step: bool,
    measure: Measure,
    from: u64,
    to: u64,
) -> Option<i128>
    requires range { IfThere InRange held }
    requires last { IfThere (IsNotBefore content.now.records) held }
    requires order { from < to }
    requires reach { to ≤ last_time }
    ensures { result ≡ window_value step measure (points_closed_by held content.now.records) from to }
{
    let ends = ends_of(content, held, step, from, to)?;
    Some(value_between(content, step, measure, from, to, ends))
}

/// Returns [`window_value`] of a tag of lines.
pub fn window(
    content: &Content,
    held: Option<Point>,
    measure: Measure,
    from: u64,
    to: u64,
) -> Option<i128>
    requires range { IfThere InRange held }
    requires last { IfThere (IsNotBefore content.now.records) held }
    requires order { from < to }
    requires reach { to ≤ last_time }
    ensures { result ≡ window_value false measure (points_closed_by held content.now.records) from to }
{
    window_value(content, held, false, measure, from, to)
}

/// Returns [`window_value`] of a step tag.
pub fn window_step(
    content: &Content,
    held: Option<Point>,
    measure: Measure,
    from: u64,
    to: u64,
) -> Option<i128>
    requires range { IfThere InRange held }
    requires last { IfThere (IsNotBefore content.now.records) held }
    requires order { from < to }
    requires reach { to ≤ last_time }
    ensures { result ≡ window_value true measure (points_closed_by held content.now.records) from to }
{
    window_value(content, held, true, measure, from, to)
}

// A measure of a window, from its ends and the points between them.
fn value_between(
    content: &Content,
    step: bool,
    measure: Measure,
    from: u64,
    to: u64,
    ends: Ends,
) -> i128
    requires order { from < to }
    requires reach { to ≤ last_time }
    requires ends { AreEnds (points_of content.now.records) ends }
    ensures { measured step measure (points_of content.now.records) (outline (points_of content.now.records) ends) from to
        ≡ Some result }
{
    match measure {
        Measure::Area => twice_area(content, step, ends),
        Measure::Avg => round_half_up(twice_area(content, step, ends), 2 * (to - from)),
        Measure::Total => round_half_up(twice_area(content, step, ends), 2000),
        Measure::Low => i128::from(extremes(content, step, ends).low),
        Measure::High => i128::from(extremes(content, step, ends).high),
        Measure::Count => i128::from(counted(content, from, to)),
        Measure::First => i128::from(ends.start.v),
        Measure::Last => i128::from(ends.end.v),
    }
}

// Twice the area under the ends of a window and the points between them.
fn twice_area(content: &Content, step: bool, ends: Ends) -> i128
    requires ends { AreEnds (points_of content.now.records) ends }
    ensures value { result ≡ area step (outline (points_of content.now.records) ends) }
    ensures small { unsigned_abs result ≤ 10 ^ 30 }
{
    let inside = area_inside(content, step, ends.start, ends.first, ends.behind);
    sum(inside.twice, piece(step, inside.last, ends.end))
}

// The least value and the greatest that a window takes. A stair does not take the value at the window's end.
fn extremes(content: &Content, step: bool, ends: Ends) -> Extremes
    requires ends { AreEnds (points_of content.now.records) ends }
    ensures low { of_first least_from (taken_values step (outline (points_of content.now.records) ends)) ≡ Some result.low }
    ensures high { of_first greatest_from (taken_values step (outline (points_of content.now.records) ends)) ≡ Some result.high }
{
    let inside = extremes_inside(content, ends.start, ends.first, ends.behind);
    if step {
        return inside;
    }
    widened(inside, ends.end.v, ends.end.v)
}

// How many points of a content are at the time `from` or later, and before the time `to`.
fn counted(content: &Content, from: u64, to: u64) -> u32
    requires { from ≤ to }
    ensures { result ≡ length (counted (points_of content.now.records) from to) }
{
    // Called for its clauses: the points rise and are in range.
    let _len = content.len();
    content.below(to) - content.below(from)
}
