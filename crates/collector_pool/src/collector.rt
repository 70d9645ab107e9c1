// A collector: it takes its rows in order, and commits them.
ghost use Rattle.std.specs.Prelude.{◌≡◌, ◌==◌, ◌||◌, ◌%◌, ◌+◌, ◌<◌, All, IfErr, IsErrOf, OnErr, OnOk, Some, MatchResult, None, length, true};
ghost use Rattle.std.specs.Option.{option_map};
ghost use Rattle.trend_num.specs.{InRange};
ghost use Rattle.tag_cell.specs.declared.entry.CommitNo.TheVariants.{Broken, DeviceFault};
ghost use Rattle.tag_cell.specs.{IsTakenBy, take_refusal, takes_waiting};
ghost use Rattle.collector_pool.specs.Notes.{EndsAtCommit, EndsCollector, IsCollectorNote, IsRefusedCommit, RefusesRow, halts};
ghost use Rattle.collector_pool.specs.Refusals.{refusal_of_take};
ghost use Rattle.collector_pool.specs.Work.{IsRowOf};

use crate::note::{CellNo, Ending, WorkerNote, ending_of_commit};
use disk_model::Disk;
use plant_status::Pass;
use std::alloc::Global;
use std::sync::{Mutex, Wait};
use tag_cell::{Cell, CommitNo};
use trend_num::Point;
use value_rows::RawRow;

// A collector commits after this many rows.
const ROWS_OF_COMMIT: usize = 64;

// Does the work of a collector, and returns its note.
pub(crate) fn collect<R: Wait, D: Disk, O: Pass>(
    rt: &R,
    alloc: Global,
    cells: &[Mutex<Cell<D>>],
    worker: u32,
    collector: u32,
    rows: &[RawRow],
    pass: &mut O,
) -> WorkerNote
    requires rows { All (IsRowOf (length cells.now)) rows.now }
    requires fresh { O.stops pass.old ≡ 0 }
    ensures worker { result.worker ≡ worker }
    ensures note { IsCollectorNote rows.now result }
    ensures stops { O.stops pass.new ≡ halts result.ending }
{
    let mut note = WorkerNote::new(alloc, worker);
    (note.steps, note.ending) = take_rows(rt, cells, collector, rows, pass);
    note
}

// Takes the rows in order, and returns how many it took and how the collector ends.
fn take_rows<R: Wait, D: Disk, O: Pass>(
    rt: &R,
    cells: &[Mutex<Cell<D>>],
    collector: u32,
    rows: &[RawRow],
    pass: &mut O,
) -> (u64, Ending)
    requires rows { All (IsRowOf (length cells.now)) rows.now }
    requires fresh { O.stops pass.old ≡ 0 }
    ensures ending { EndsCollector rows.now result.0 result.1 }
    ensures stops { O.stops pass.new ≡ halts result.1 }
{
    let mut committed = 0;
    for (i, row) in rows.iter().enumerate() {
        if !pass.pass(i as u64) {
            return (i as u64, Ending::Halted);
        }
        if let Err(why) = take_row(rt, cells, collector, i as u64 + 1, *row) {
            return (i as u64, Ending::Tag { tag: row.tag, why });
        }
        let taken = i + 1;
        if is_due(taken, rows.len()) {
            if let Err(ending) = commit_tags(rt, cells, &rows[committed..taken]) {
                return (taken as u64, ending);
            }
            committed = taken;
        }
    }
    (rows.len() as u64, Ending::Ended)
}

// Returns whether a collector with so many rows commits after this one: its number is a multiple of 64, or it is the
// last.
fn is_due(number: usize, rows: usize) -> bool
    ensures { result ≡ ((number % 64 == 0) || (number == rows)) }
{
    number % ROWS_OF_COMMIT == 0 || number == rows
}

// Takes a row under the lock of its tag.
fn take_row<R: Wait, D: Disk>(
    rt: &R,
    cells: &[Mutex<Cell<D>>],
    collector: u32,
    number: u64,
    row: RawRow,
) -> Result<(), CellNo>
    requires { IsRowOf (length cells.now) row }
    ensures { IfErr result (RefusesRow row row.tag) }
{
    let mut cell = cells[row.tag as usize].lock(rt);
    take_into(rt, &mut cell, collector, number, row.point)
}

// Takes a point into the cell of its tag.
fn take_into<R: Wait, D: Disk>(
    rt: &R,
    cell: &mut Cell<D>,
    collector: u32,
    number: u64,
    point: Point,
) -> Result<(), CellNo>
    requires { InRange point }
    ensures taken { OnOk result (IsTakenBy collector number point cell.old cell.new) }
    ensures refused { MatchResult result (λ _. take_refusal cell.old ≡ None) (λ why. option_map refusal_of_take (take_refusal cell.old) ≡ Some why) }
    ensures unchanged { OnErr result (cell.new ≡ cell.old) }
{
    cell.take(rt, collector, number, point)?;
    Ok(())
}

// Commits each tag of these rows, one after the other. If a commit is refused, it returns how the collector ends.
fn commit_tags<R: Wait, D: Disk>(
    rt: &R,
    cells: &[Mutex<Cell<D>>],
    rows: &[RawRow],
) -> Result<(), Ending>
    requires { All (IsRowOf (length cells.now)) rows.now }
    ensures { IfErr result (EndsAtCommit rows.now) }
{
    for (i, row) in rows.iter().enumerate() {
        if rows[..i].iter().all(|earlier| earlier.tag != row.tag) {
            commit_tag(rt, cells, row.tag)?;
        }
    }
    Ok(())
}

// Commits a tag under its lock, until nothing waits there.
fn commit_tag<R: Wait, D: Disk>(rt: &R, cells: &[Mutex<Cell<D>>], tag: u32) -> Result<(), Ending>
    requires { tag < length cells.now }
    ensures { IfErr result (IsRefusedCommit tag) }
{
    let mut cell = cells[tag as usize].lock(rt);
    match commit_all(&mut cell) {
        Ok(()) => Ok(()),
        Err(no) => Err(ending_of_commit(tag, no)),
    }
}

// Commits until nothing waits.
fn commit_all<D: Disk>(cell: &mut Cell<D>) -> Result<(), CommitNo>
    ensures committed { OnOk result (takes_waiting cell.new ≡ 0) }
    ensures same_state { cell.new.state ≡ cell.old.state }
    ensures broken { IsErrOf result Broken → cell.new.journal.failed ≡ true }
    ensures faulted { IsErrOf result DeviceFault → cell.new.journal.failed ≡ true }
{
    loop {
        let done = cell.commit()?;
        if done.waiting == 0 {
            return Ok(());
        }
    }
}
