// What a tag reads at a time.
ghost use Rattle.std.specs.Prelude.{◌≡◌, ◌<◌, ◌≤◌, true, false, IfSome, List};
ghost use Rattle.trend_num.specs.{Point, InRange};
ghost use Rattle.trend_model.specs.{IfThere, between, read_at, IsNotBefore};
ghost use Rattle.interp_read.specs.Closing.{points_closed_by};
ghost use Rattle.interp_read.specs.NextTo.{AreNeighbours};
ghost use Rattle.interp_read.specs.Readable.{IsReadable};

use crate::closing::{Neighbours, neighbours_at};
use late_insert::Content;
use trend_num::{Point, Reading, line_at};

/// Returns what a tag reads at the time t. At a point that is the point's value. Between two points it is the value of
/// the line between them, or of a step tag the value of the first. After the last point it is that point's value.
/// Before the first point it is nothing. The caller ensures that no point of the content is after the held point.
pub fn read_at(content: &Content, held: Option<Point>, step: bool, t: u64) -> Reading
    requires range { IfThere InRange held }
    requires last { IfThere (IsNotBefore content.now.records) held }
    ensures value { result ≡ read_at step (points_closed_by held content.now.records) t }
    ensures readable { IsReadable result }
{
    // Called for its clauses: the points rise and are in range.
    let _len = content.len();
    reading_of(neighbours_at(content, held, t), step, t)
}

/// Returns [`read_at`] of a tag of lines.
pub fn at(content: &Content, held: Option<Point>, t: u64) -> Reading
    requires range { IfThere InRange held }
    requires last { IfThere (IsNotBefore content.now.records) held }
    ensures value { result ≡ read_at false (points_closed_by held content.now.records) t }
    ensures readable { IsReadable result }
{
    read_at(content, held, false, t)
}

/// Returns [`read_at`] of a step tag.
pub fn at_step(content: &Content, held: Option<Point>, t: u64) -> Reading
    requires range { IfThere InRange held }
    requires last { IfThere (IsNotBefore content.now.records) held }
    ensures value { result ≡ read_at true (points_closed_by held content.now.records) t }
    ensures readable { IsReadable result }
{
    read_at(content, held, true, t)
}

/// Returns what a line or a stair (`step`) reads at the time t, given the points next to t.
pub fn reading_of(next: Neighbours, step: bool, t: u64) -> Reading
    requires near { (points : List Point) × AreNeighbours points t next.before next.after }
    requires before_range { IfSome next.before InRange }
    requires after_range { IfSome next.after InRange }
    ensures { (points : List Point) → AreNeighbours points t next.before next.after → result ≡ read_at step points t }
{
    match (next.before, next.after) {
        (_, Some(q)) if q.t == t => Reading::Exact(q.v),
        (None, _) => Reading::Nothing,
        (Some(p), None) => Reading::Flat(p.v),
        (Some(p), Some(q)) => reading_between(p, q, step, t),
    }
}

// What a line or a stair reads after p, and at q or before it.
fn reading_between(p: Point, q: Point, step: bool, t: u64) -> Reading
    requires first { InRange p }
    requires second { InRange q }
    requires after { p.t < t }
    requires before { t ≤ q.t }
    ensures { result ≡ between step p q t }
{
    if step {
        Reading::Flat(p.v)
    } else {
        Reading::Line(line_at(p, q, t))
    }
}
