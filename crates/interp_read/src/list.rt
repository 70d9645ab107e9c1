// The points from one time to another.
ghost use Rattle.std.specs.Prelude.{◌≡◌, ◌↔◌, ◌<◌, ◌≤◌, ◌++◌, [], ◌∷◌, IfOk, IsTrue, OnOk, List, length, slice_range, take};
ghost use Rattle.std.specs.Option.{option_to_list};
ghost use Rattle.trend_num.specs.{Point, InRange, most_listed};
ghost use Rattle.trend_model.specs.{points_of, IfThere, points_from_to, IsNotBefore};
ghost use Rattle.interp_read.specs.Closing.{points_closed_by};

use crate::closing::added;
use late_insert::Content;
use std::alloc::Global;
use trend_num::{Point, WantOfMemory};

/// The most points that a list has.
pub const MOST_LISTED: u32 = 256;

/// The reply to a question for points.
#[derive(Drop)]
pub struct PointList {
    /// The points from the one time to the other. If there are more than 256, it has the first 256.
    pub list: Vec<Point>,
    /// Whether there are more.
    pub more: bool,
}

/// Returns the first points of the closed content from one time to another, both times included, at most
/// [`MOST_LISTED`] of them. The caller ensures that no point of the content is after the held point. Returns
/// `WantOfMemory` if the memory cannot be allocated.
pub fn points(
    alloc: Global,
    content: &Content,
    held: Option<Point>,
    from: u64,
    to: u64,
) -> Result<PointList, WantOfMemory>
    requires range { IfThere InRange held }
    requires last { IfThere (IsNotBefore content.now.records) held }
    ensures list { IfOk result (λ p. p.list.items
        ≡ take most_listed (points_from_to (points_closed_by held content.now.records) from to)) }
    ensures more { IfOk result (λ p. IsTrue p.more
        ↔ (most_listed < length (points_from_to (points_closed_by held content.now.records) from to))) }
{
    let places = places_from_to(content, from, to);
    let stop = places.end.min(places.start.saturating_add(MOST_LISTED));
    let list = copied(alloc, content, places.start, stop)?;
    completed(
        list,
        stop < places.end,
        held_from_to(content, held, from, to),
    )
}

// Places of a content that follow one another: from `start` to `end`, the latter excluded.
#[derive(Clone, Copy)]
struct Places {
    start: u32,
    end: u32,
}

// The places of the content's points from one time to another, both times included.
fn places_from_to(content: &Content, from: u64, to: u64) -> Places
    ensures points { points_from_to (points_of content.now.records) from to
        ≡ slice_range (points_of content.now.records) result.start result.end }
    ensures within { result.end ≤ length content.now.records }
{
    // Called for its clauses: the points rise and are in range.
    let _len = content.len();
    Places {
        start: content.below(from),
        end: content.below(to.saturating_add(1)),
    }
}

// The points at the places from `start` to `stop`, the latter excluded.
fn copied(
    alloc: Global,
    content: &Content,
    start: u32,
    stop: u32,
) -> Result<Vec<Point>, WantOfMemory>
    requires { stop ≤ length content.now.records }
    ensures { IfOk result (λ v. v.items ≡ slice_range (points_of content.now.records) start stop) }
{
    let mut list = Vec::new(alloc);
    for i in start..stop {
        push_point(&mut list, content.point(i))?;
    }
    Ok(list)
}

// The held point, if it is added to the content and lies from one time to the other.
fn held_from_to(content: &Content, held: Option<Point>, from: u64, to: u64) -> Option<Point>
    requires range { IfThere InRange held }
    requires last { IfThere (IsNotBefore content.now.records) held }
    ensures { points_from_to (points_closed_by held content.now.records) from to
        ≡ points_from_to (points_of content.now.records) from to ++ option_to_list result }
{
    match added(content, held) {
        Some(q) if from <= q.t && q.t <= to => Some(q),
        _ => None,
    }
}

// The list of some points and a last one after them. `first` has the first of those points, as many as a list may have.
// `more` says whether there are others.
fn completed(first: Vec<Point>, more: bool, last: Option<Point>) -> Result<PointList, WantOfMemory>
    ensures list { (all : List Point) → first.items ≡ take most_listed all → (IsTrue more ↔ (most_listed < length all))
        → IfOk result (λ p. p.list.items ≡ take most_listed (all ++ option_to_list last)) }
    ensures more { (all : List Point) → first.items ≡ take most_listed all → (IsTrue more ↔ (most_listed < length all))
        → IfOk result (λ p. IsTrue p.more ↔ (most_listed < length (all ++ option_to_list last))) }
{
    let mut list = first;
    match last {
        None => Ok(PointList { list, more }),
        Some(q) if list.len() < MOST_LISTED as usize => {
            push_point(&mut list, q)?;
            Ok(PointList { list, more: false })
        }
        Some(_) => Ok(PointList { list, more: true }),
    }
}

// Adds a point to a list.
fn push_point(list: &mut Vec<Point>, p: Point) -> Result<(), WantOfMemory>
    ensures { OnOk result (list.new.items ≡ list.old.items ++ p ∷ []) }
{
    Ok(list.push(p)?)
}
