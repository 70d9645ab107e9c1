// Totals over the records of a page.
ghost use Rattle.std.specs.Prelude.{◌≡◌, ◌<◌, ◌≤◌, pos, true, false, slice_range, length, ◌*◌, ◌*ℤ◌, unsigned_abs};
ghost use Rattle.trend_num.specs.{InRange, largest_value, last_time};
ghost use Rattle.trend_model.specs.{points_of, area, piece};
ghost use Rattle.late_insert.specs.Pages.{IsPage, IsRecorded, rec_in, frame_records_in};
ghost use Rattle.late_insert.specs.Totals.{extreme_of, greatest_of, least_of, joined, outer, page_most, pages_most, summary_of, IsSmall};

use page_pool::Frame;
use trend_num::Point;

// The point at a place of a page.
pub(crate) fn point_at(frame: &Frame, i: usize) -> Point
    requires recorded { IsRecorded frame.now }
    requires within { i < frame.now.len }
    ensures value { result ≡ (rec_in frame.now i).point }
    ensures range { InRange result }
{
    Point {
        t: frame.times[i],
        v: frame.values[i],
    }
}

// A length of time times the sum of two values.
fn product(length: u64, sum: i64) -> i128
    requires length { length ≤ last_time }
    requires sum { unsigned_abs sum ≤ 2 * largest_value }
    ensures { result ≡ pos length *ℤ sum }
{
    // Signed words, because then one multiplication of them is enough.
    i128::from(length as i64) * i128::from(sum)
}

/// Returns twice the area between two neighbours, in value units times milliseconds. A line goes from the one value to
/// the other. A stair (`step`) keeps the first value.
pub fn piece(step: bool, p: Point, q: Point) -> i128
    requires first { InRange p }
    requires second { InRange q }
    ensures { result ≡ piece step p q }
{
    let length = q.t.saturating_sub(p.t);
    if step {
        return product(length, p.v + p.v);
    }
    product(length, p.v + q.v)
}

// Twice the area under the line or the stair through the points at the places from `start` to `end`, the latter
// excluded.
pub(crate) fn area_between(frame: &Frame, step: bool, start: usize, end: usize) -> i128
    requires recorded { IsRecorded frame.now }
    requires some { start < end }
    requires within { end ≤ frame.now.len }
    ensures { result ≡ area step (slice_range (points_of (frame_records_in frame.now)) start end) }
{
    let mut before = point_at(frame, start);
    let mut area = 0i128;
    for i in start + 1..end {
        let p = point_at(frame, i);
        area += piece(step, before, p);
        before = p;
    }
    area
}

// Which of the two extremes of values.
#[derive(Clone, Copy)]
pub(crate) enum Extreme {
    Least,
    Greatest,
}

// The lesser or the greater of two values.
fn outer(extreme: Extreme, a: i64, b: i64) -> i64
    ensures { result ≡ outer extreme a b }
{
    match extreme {
        Extreme::Least => a.min(b),
        Extreme::Greatest => a.max(b),
    }
}

// The least or the greatest value of the points at the places from `start` to `end`, the latter excluded.
pub(crate) fn extreme_between(frame: &Frame, extreme: Extreme, start: usize, end: usize) -> i64
    requires recorded { IsRecorded frame.now }
    requires some { start < end }
    requires within { end ≤ frame.now.len }
    ensures { result ≡ extreme_of extreme (slice_range (points_of (frame_records_in frame.now)) start end) }
{
    let mut value = point_at(frame, start).v;
    for i in start + 1..end {
        value = outer(extreme, value, point_at(frame, i).v);
    }
    value
}

// What points in order of time come to: their ends and their totals.
#[derive(Clone, Copy)]
pub(crate) struct Summary {
    pub first: Point,
    pub last: Point,
    /// Twice the areas under their line and under their stair.
    pub line: i128,
    pub stair: i128,
    /// The least and the greatest value.
    pub low: i64,
    pub high: i64,
}

// The summary of no points.
pub(crate) const NO_SUMMARY: Summary = Summary {
    first: Point { t: 0, v: 0 },
    last: Point { t: 0, v: 0 },
    line: 0,
    stair: 0,
    low: 0,
    high: 0,
};

// The summary of points and of those after them.
pub(crate) fn joined(a: Summary, b: Summary) -> Summary
    requires first { IsSmall (pages_most 63) a }
    requires second { IsSmall page_most b }
    ensures { result ≡ joined a b }
{
    Summary {
        first: a.first,
        last: b.last,
        line: a.line + b.line + piece(false, a.last, b.first),
        stair: a.stair + b.stair + piece(true, a.last, b.first),
        low: a.low.min(b.low),
        high: a.high.max(b.high),
    }
}

// The summary of all points of a page. `stair` is twice the area under their stair. The other totals are in the frame.
pub(crate) fn summary_in(frame: &Frame, stair: i128) -> Summary
    requires page { IsPage frame.now }
    requires some { 0 < frame.now.len }
    requires stair { stair ≡ area true (points_of (frame_records_in frame.now)) }
    ensures value { result ≡ summary_of (points_of (frame_records_in frame.now)) }
    ensures small { IsSmall page_most result }
{
    Summary {
        first: point_at(frame, 0),
        last: point_at(frame, frame.len as usize - 1),
        line: frame.area,
        stair,
        low: frame.low,
        high: frame.high,
    }
}

// The summary of the points at the places from `start` to `end`, the latter excluded.
pub(crate) fn summary_between(frame: &Frame, start: usize, end: usize) -> Summary
    requires recorded { IsRecorded frame.now }
    requires some { start < end }
    requires within { end ≤ frame.now.len }
    ensures { result ≡ summary_of (slice_range (points_of (frame_records_in frame.now)) start end) }
{
    Summary {
        first: point_at(frame, start),
        last: point_at(frame, end - 1),
        line: area_between(frame, false, start, end),
        stair: area_between(frame, true, start, end),
        low: extreme_between(frame, Extreme::Least, start, end),
        high: extreme_between(frame, Extreme::Greatest, start, end),
    }
}

// Totals of all points of a page.
#[derive(Clone, Copy)]
struct Totals {
    line: i128,
    stair: i128,
    low: i64,
    high: i64,
}

// The totals of all points of a page, by one pass over them.
fn totals_of(frame: &Frame) -> Totals
    requires recorded { IsRecorded frame.now }
    requires some { 0 < frame.now.len }
    ensures line { result.line ≡ area false (points_of (frame_records_in frame.now)) }
    ensures stair { result.stair ≡ area true (points_of (frame_records_in frame.now)) }
    ensures low { result.low ≡ least_of (points_of (frame_records_in frame.now)) }
    ensures high { result.high ≡ greatest_of (points_of (frame_records_in frame.now)) }
{
    let mut before = point_at(frame, 0);
    let mut all = Totals {
        line: 0,
        stair: 0,
        low: before.v,
        high: before.v,
    };
    for i in 1..frame.len as usize {
        let p = point_at(frame, i);
        all.line += piece(false, before, p);
        all.stair += piece(true, before, p);
        all.low = all.low.min(p.v);
        all.high = all.high.max(p.v);
        before = p;
    }
    all
}

// Computes the totals of a page anew. Returns twice the area under its stair.
pub(crate) fn refresh(frame: &mut Frame) -> i128
    requires recorded { IsRecorded frame.old }
    requires some { 0 < frame.old.len }
    ensures records { frame_records_in frame.new ≡ frame_records_in frame.old }
    ensures page { IsPage frame.new }
    ensures stair { result ≡ area true (points_of (frame_records_in frame.old)) }
    ensures len { frame.new.len ≡ frame.old.len }
{
    let all = totals_of(frame);
    frame.area = all.line;
    frame.low = all.low;
    frame.high = all.high;
    all.stair
}
