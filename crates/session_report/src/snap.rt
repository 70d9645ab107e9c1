// The snapshots in the replies to readers.
ghost use Rattle.std.specs.Prelude.{◌≡◌, ◌<◌, ◌^◌, [], IfOk, if◌then◌else◌, length, slice_index_or};
ghost use Rattle.std.specs.List.{list_any};
ghost use Rattle.calc_refresh.specs.{lists_of};
ghost use Rattle.session_report.specs.Places.{AreMarked, AreSnapped, held_lists, is_snap, is_snapped};
ghost use Rattle.session_report.specs.Report.{tag_tape};
ghost use Rattle.session_report.specs.Snaps.{checked, had, held_after, held_points, same_held, snap_of, told_at};

use collector_pool::WorkerNote;
use std::alloc::Global;
use tag_cell::{Entry, TagHistory};
use trend_num::{Point, Snap, WantOfMemory};
use value_rows::Query;

// Returns, for each tag whose snapshot a reader asks for, the points that closed its line after its takes, in order.
// The list of any other tag is empty.
pub(crate) fn held_lists(
    alloc: Global,
    readers: &[Vec<Query>],
    tags: &[TagHistory],
) -> Result<Vec<Vec<Point>>, WantOfMemory>
    requires { length tags.now < 2 ^ 32 }
    ensures { IfOk result (λ lists. lists_of lists.items ≡ held_lists (lists_of readers.now) tags.now) }
{
    let wanted = snapped(alloc, readers, tags.len())?;
    let mut lists = Vec::new(alloc);
    for place in 0..tags.len() {
        let points = held_if(alloc, tags[place].tape.as_slice(), wanted[place])?;
        lists.push(points)?;
    }
    Ok(lists)
}

// Returns, for each of so many tags, whether a reader asks for its snapshot.
fn snapped(alloc: Global, readers: &[Vec<Query>], tags: usize) -> Result<Vec<bool>, WantOfMemory>
    ensures { IfOk result (λ marks. AreSnapped (lists_of readers.now) tags marks.items) }
{
    let mut marks = vec![in alloc; false; tags]?;
    mark_all(&mut marks, readers);
    Ok(marks)
}

// Marks the tags whose snapshots readers ask for.
fn mark_all(marks: &mut [bool], readers: &[Vec<Query>])
    ensures { AreMarked (is_snapped (lists_of readers.now)) marks.old marks.new }
{
    for queries in readers {
        mark_snaps(marks, queries.as_slice());
    }
}

// Marks the tags whose snapshots the queries of a reader ask for.
fn mark_snaps(marks: &mut [bool], queries: &[Query])
    ensures { AreMarked (λ tag. list_any (is_snap tag) queries.now) marks.old marks.new }
{
    for query in queries {
        mark_snap(marks, *query);
    }
}

// Marks the tag whose snapshot a query asks for, if it asks for one.
fn mark_snap(marks: &mut [bool], query: Query)
    ensures { AreMarked (λ tag. is_snap tag query) marks.old marks.new }
{
    let Query::Snap { tag } = query else {
        return;
    };
    let place = tag as usize;
    if place < marks.len() {
        marks[place] = true;
    }
}

// Returns the points of a tape if they are wanted, and otherwise none.
fn held_if(alloc: Global, tape: &[Entry], wanted: bool) -> Result<Vec<Point>, WantOfMemory>
    ensures { IfOk result (λ points. points.items ≡ (if wanted then held_points tape.now else [])) }
{
    if wanted {
        held_points(alloc, tape)
    } else {
        Ok(Vec::new(alloc))
    }
}

// Returns the points that closed the line of a tag after its takes, in order.
fn held_points(alloc: Global, tape: &[Entry]) -> Result<Vec<Point>, WantOfMemory>
    ensures { IfOk result (λ points. points.items ≡ held_points tape.now) }
{
    let mut points = Vec::new(alloc);
    for entry in tape {
        if let Some(point) = held_after(entry) {
            points.push(point)?;
        }
    }
    Ok(points)
}

// Returns the point that closes the line after an entry, if the entry is a take.
fn held_after(entry: &Entry) -> Option<Point>
    ensures { result ≡ held_after entry.now }
{
    match entry {
        Entry::Take { held, .. } => Some(*held),
        _ => None,
    }
}

// Returns the snapshot that the note of a worker has at a place, if it has one.
pub(crate) fn told_at(notes: &[WorkerNote], worker: usize, place: usize) -> Option<Snap>
    ensures { result ≡ told_at notes.now worker place }
{
    *notes.get(worker)?.snaps.get(place)?
}

// Returns the snapshot in the reply about a tag: the one in the reader's note, if the tag had it, and otherwise that of
// the tag's end.
pub(crate) fn snap_of(
    tags: &[TagHistory],
    held: &[Vec<Point>],
    tag: u32,
    told: Option<Snap>,
) -> Snap
    requires as_many { length held.now ≡ length tags.now }
    requires held { slice_index_or (lists_of held.now) tag [] ≡ held_points (tag_tape tags.now tag) }
    ensures { result ≡ snap_of tags.now tag told }
{
    let place = tag as usize;
    if place < tags.len() {
        checked(&tags[place], held[place].as_slice(), told)
    } else {
        Snap {
            taken: 0,
            held: None,
        }
    }
}

// Returns the same for one tag.
fn checked(tag: &TagHistory, held: &[Point], told: Option<Snap>) -> Snap
    requires { held.now ≡ held_points tag.now.tape.items }
    ensures { result ≡ checked tag.now told }
{
    match told {
        Some(snap) if had(tag, held, snap) => snap,
        _ => Snap {
            taken: tag.summary.taken,
            held: tag.summary.held,
        },
    }
}

// Whether a tag had this snapshot.
fn had(tag: &TagHistory, held: &[Point], snap: Snap) -> bool
    requires { held.now ≡ held_points tag.now.tape.items }
    ensures { result ≡ had tag.now snap }
{
    let first = tag.opening.summary.taken;
    if snap.taken < first {
        return false;
    }
    let since = snap.taken - first;
    if since == 0 {
        return same_held(snap.held, tag.opening.summary.held);
    }
    if since - 1 < held.len() as u64 {
        same_held(snap.held, Some(held[(since - 1) as usize]))
    } else {
        false
    }
}

// Whether two points are the same, or both are missing.
fn same_held(a: Option<Point>, b: Option<Point>) -> bool
    ensures { result ≡ same_held a b }
{
    match (a, b) {
        (None, None) => true,
        (Some(p), Some(q)) => p.t == q.t && p.v == q.v,
        _ => false,
    }
}
