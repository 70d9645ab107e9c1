// The shape of a window.
ghost use Rattle.std.specs.Prelude.{◌≡◌, ◌<◌, ◌≤◌, IfNone, IfSome, false};
ghost use Rattle.trend_num.specs.{InRange, last_time};
ghost use Rattle.trend_model.specs.{points_of, IfThere, read_at, value_read, is_covered, IsNotBefore};
ghost use Rattle.interp_read.specs.{points_closed_by, AreNeighbours, IsReadable};
ghost use Rattle.weighted_total.specs.Shapes.{IsShape};

use interp_read::{Neighbours, Reading, neighbours_at, reading_of};
use late_insert::Content;
use trend_num::{Point, round_half_up};

// The ends of a shape, and the places of the points between them.
#[derive(Clone, Copy)]
pub(crate) struct Ends {
    /// The start, as it reads.
    pub start: Point,
    /// The place of the first point inside, and the place after the last.
    pub first: u32,
    pub behind: u32,
    /// The end, as it reads.
    pub end: Point,
}

// The shape of a window, if the window is covered.
pub(crate) fn ends_of(
    content: &Content,
    held: Option<Point>,
    step: bool,
    from: u64,
    to: u64,
) -> Option<Ends>
    requires range { IfThere InRange held }
    requires last { IfThere (IsNotBefore content.now.records) held }
    requires order { from < to }
    requires reach { to ≤ last_time }
    ensures shape { IfSome result
        (IsShape step (points_closed_by held content.now.records) (points_of content.now.records) from to) }
    ensures uncovered { IfNone result (is_covered (points_closed_by held content.now.records) from to ≡ false) }
{
    // Called for its clauses: the points rise and are in range.
    let _len = content.len();
    let begin = neighbours_at(content, held, from);
    let stop = neighbours_at(content, held, to);
    let _later = stop.after?;
    let start = value_at(content, held, step, from, begin)?;
    let end = value_at(content, held, step, to, stop)?;
    Some(Ends {
        start: Point { t: from, v: start },
        first: begin.upto,
        behind: stop.below,
        end: Point { t: to, v: end },
    })
}

// The rounded value of a line or a stair at the time t, from the points next to t.
fn value_at(
    content: &Content,
    held: Option<Point>,
    step: bool,
    t: u64,
    next: Neighbours,
) -> Option<i64>
    requires range { IfThere InRange held }
    requires last { IfThere (IsNotBefore content.now.records) held }
    requires near { AreNeighbours (points_closed_by held content.now.records) t next.before next.after }
    requires before_range { IfSome next.before InRange }
    requires after_range { IfSome next.after InRange }
    ensures { result ≡ value_read (read_at step (points_closed_by held content.now.records) t) }
{
    // Called for its clauses: the points rise and are in range.
    let _len = content.len();
    value_of(reading_of(next, step, t))
}

// The value of a read, rounded.
fn value_of(reading: Reading) -> Option<i64>
    requires { IsReadable reading }
    ensures { result ≡ value_read reading }
{
    match reading {
        Reading::Exact(v) | Reading::Flat(v) => Some(v),
        Reading::Line(f) => Some(round_half_up(f.num, f.den) as i64),
        Reading::Nothing => None,
    }
}
