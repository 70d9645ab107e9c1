// The progress of workers before any row is found.
ghost use Rattle.std.specs.Prelude.{◌≡◌, ◌↔◌, ℕ, ◌+◌, ◌^◌, ◌<◌, All, IfOk, IsTrue, OnOk, length, nat_eq, slice_index};
ghost use Rattle.std.specs.List.{count_by};
ghost use Rattle.calc_refresh.specs.{lists_of};
ghost use Rattle.session_audit.specs.Agendas.{ask_item, phase_item, row_item};
ghost use Rattle.collector_pool.specs.{IsRowOf};
ghost use Rattle.session_audit.specs.Books.{IsKnownRowAsk};
ghost use Rattle.session_audit.specs.Cells.{IsKnownAsk};
ghost use Rattle.session_audit.specs.Workers.{AreOver};
ghost use Rattle.session_audit.specs.CellRefusals.{tag_rows};
ghost use Rattle.session_audit.specs.Starting.{AreUnfound, IsDueWithin};

use crate::agenda::Agenda;
use crate::kind::{Asks, Kind, RowAsks, Takes};
use crate::progress::Progress;
use std::alloc::Global;
use trend_num::WantOfMemory;
use value_rows::{Query, RawRow};

/// Returns the progress of each collector over its rows, for so many tags. The first `earlier` rows of each were taken
/// in an earlier phase. If there are more than 2^32 - 1 files or rows, it answers want of memory.
#[tactic(auto, using(crate::proofs::Starts::takes_due))]
pub fn collectors_of<'a>(
    alloc: Global,
    files: &'a [Vec<RawRow>],
    earlier: u32,
    tags: u32,
) -> Result<Vec<Progress<'a>>, WantOfMemory>
    requires { All (λ rows. All (IsRowOf tags) rows.items) files.now }
    ensures over { IfOk result (λ works. AreOver (phase_item earlier) tags (lists_of files.now) works.items) }
    ensures unfound { IfOk result (λ works. AreUnfound tags works.items) }
{
    start::<Takes>(alloc, files, earlier, tags)
}

/// Returns the progress of each reader over the questions of its file, for so many tags. If there are more than
/// 2^32 - 1 files or questions, it answers want of memory.
#[tactic(auto, using(crate::proofs::Starts::asks_due))]
pub fn readers_of<'a>(
    alloc: Global,
    files: &'a [Vec<Query>],
    tags: u32,
) -> Result<Vec<Progress<'a>>, WantOfMemory>
    requires { All (λ queries. All (IsKnownAsk tags) queries.items) files.now }
    ensures over { IfOk result (λ works. AreOver ask_item tags (lists_of files.now) works.items) }
    ensures unfound { IfOk result (λ works. AreUnfound tags works.items) }
{
    start::<Asks>(alloc, files, 0, tags)
}

/// Returns the progress of each reader over the questions of its file for values of calculations, for so many groups.
/// If there are more than 2^32 - 1 files or questions, it answers want of memory.
#[tactic(auto, using(crate::proofs::Starts::row_asks_due))]
pub fn row_askers_of<'a>(
    alloc: Global,
    files: &'a [Vec<Query>],
    groups: u32,
) -> Result<Vec<Progress<'a>>, WantOfMemory>
    requires { All (λ queries. All (IsKnownRowAsk groups) queries.items) files.now }
    ensures over { IfOk result (λ works. AreOver row_item groups (lists_of files.now) works.items) }
    ensures unfound { IfOk result (λ works. AreUnfound groups works.items) }
{
    start::<RowAsks>(alloc, files, 0, groups)
}

/// Returns the progress of each worker over the rows of its file that are of one kind, at so many units, which are tags
/// or groups. The first `earlier` rows of each were its work in an earlier phase. If there are more than 2^32 - 1 files
/// or rows, it answers want of memory.
pub fn start<'a, K: Kind>(
    alloc: Global,
    files: &'a [Vec<K::Row>],
    earlier: u32,
    units: u32,
) -> Result<Vec<Progress<'a>>, WantOfMemory>
    requires { All (λ rows. All (IsDueWithin (K.item_of earlier) units) rows.items) files.now }
    ensures over { IfOk result (λ works. AreOver (K.item_of earlier) units (lists_of files.now) works.items) }
    ensures unfound { IfOk result (λ works. AreUnfound units works.items) }
{
    if !is_small(files.len()) {
        return Err(WantOfMemory);
    }
    let mut works = Vec::with_capacity(alloc, files.len())?;
    for (worker, rows) in files.iter().enumerate() {
        if !is_small(rows.len()) {
            return Err(WantOfMemory);
        }
        let agenda = Agenda {
            worker: worker as u32,
            rows: K::rows(rows, earlier),
        };
        let work = Progress::new(alloc, agenda, units)?;
        works.push_reserved(work);
    }
    Ok(works)
}

/// Returns how many rows of the files each of so many tags has. If a tag has more than 2^32 - 1 rows, it answers want
/// of memory.
pub fn rooms_of(alloc: Global, files: &[Vec<RawRow>], tags: u32) -> Result<Vec<u32>, WantOfMemory>
    requires { All (λ rows. All (IsRowOf tags) rows.items) files.now }
    ensures tags { IfOk result (λ rooms. length rooms.items ≡ tags) }
    ensures counted { IfOk result (λ rooms. (tag : ℕ) → tag < tags
        → slice_index rooms.items tag ≡ tag_rows tag (lists_of files.now)) }
{
    let mut rooms = vec![in alloc; 0u32; tags as usize]?;
    for rows in files {
        count_rows(&mut rooms, rows)?;
    }
    Ok(rooms)
}

// Counts the rows of a file, each for its tag.
fn count_rows(rooms: &mut Vec<u32>, rows: &[RawRow]) -> Result<(), WantOfMemory>
    requires { All (IsRowOf (length rooms.old.items)) rows.now }
    ensures tags { length rooms.new.items ≡ length rooms.old.items }
    ensures counted { OnOk result ((tag : ℕ) → tag < length rooms.old.items
        → slice_index rooms.new.items tag ≡ slice_index rooms.old.items tag + count_by (λ r. nat_eq r.tag tag) rows.now) }
{
    for row in rows {
        let tag = row.tag as usize;
        rooms[tag] = rooms[tag].checked_add(1).ok_or(WantOfMemory)?;
    }
    Ok(())
}

// Returns whether a count is below 2^32.
fn is_small(count: usize) -> bool
    ensures { IsTrue result ↔ (count < 2 ^ 32) }
{
    count <= u32::MAX as usize
}
