// The points of a content that is closed by a held point.
ghost use Rattle.std.specs.Prelude.{◌≡◌, ◌++◌, ◌+◌, ◌≤◌, IfSome, count_by, nat_lt, length, take};
ghost use Rattle.std.specs.Option.{option_to_list};
ghost use Rattle.trend_num.specs.{InRange};
ghost use Rattle.trend_model.specs.{points_of, IfThere, last_point, IsNotBefore};
ghost use Rattle.interp_read.specs.NextTo.{AreNeighbours};
ghost use Rattle.interp_read.specs.Closing.{IsAfterAll, points_closed_by};

use late_insert::Content;
use trend_num::Point;

// The last of the first n points of a content.
fn last_of(content: &Content, n: u32) -> Option<Point>
    requires { n ≤ length content.now.records }
    ensures value { result ≡ last_point (take n (points_of content.now.records)) }
    ensures range { IfSome result InRange }
{
    if n == 0 {
        None
    } else {
        Some(content.point(n - 1))
    }
}

// The held point, if the content has no point at its time.
pub(crate) fn added(content: &Content, held: Option<Point>) -> Option<Point>
    requires range { IfThere InRange held }
    requires last { IfThere (IsNotBefore content.now.records) held }
    ensures closed { points_closed_by held content.now.records ≡ points_of content.now.records ++ option_to_list result }
    ensures later { IfSome result (IsAfterAll (points_of content.now.records)) }
    ensures range { IfSome result InRange }
{
    let q = held?;
    match last_of(content, content.len()) {
        Some(p) if p.t == q.t => None,
        _ => Some(q),
    }
}

/// The points of a closed content next to a time.
#[derive(Clone, Copy, Debug, PartialEq, Eq)]
pub struct Neighbours {
    /// How many points of the content are before the time.
    pub below: u32,
    /// How many points of the content are at the time or before it.
    pub upto: u32,
    /// The last point of the closed content before the time.
    pub before: Option<Point>,
    /// The first point of the closed content at the time or after it.
    pub after: Option<Point>,
}

/// Returns the points of the closed content next to the time t, found by one search. The caller ensures that no point
/// of the content is after the held point.
pub fn neighbours_at(content: &Content, held: Option<Point>, t: u64) -> Neighbours
    requires range { IfThere InRange held }
    requires last { IfThere (IsNotBefore content.now.records) held }
    ensures below { result.below ≡ count_by (λ r. nat_lt r.point.t t) content.now.records }
    ensures upto { result.upto ≡ count_by (λ r. nat_lt r.point.t (t + 1)) content.now.records }
    ensures neighbours { AreNeighbours (points_closed_by held content.now.records) t result.before result.after }
    ensures before_range { IfSome result.before InRange }
    ensures after_range { IfSome result.after InRange }
{
    // Called for its clauses: the points rise and are in range.
    let _len = content.len();
    let around = content.around(t);
    let next = Neighbours {
        below: around.below,
        upto: around.upto,
        before: around.before,
        after: around.after,
    };
    if let Some(_) = around.after {
        return next;
    }
    match added(content, held) {
        Some(q) if q.t < t => Neighbours {
            before: Some(q),
            ..next
        },
        Some(q) => Neighbours {
            after: Some(q),
            ..next
        },
        None => next,
    }
}
