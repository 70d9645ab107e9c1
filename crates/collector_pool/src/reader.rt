// A reader: it answers its queries in order.
ghost use Rattle.std.specs.Prelude.{◌≡◌, ◌+◌, ◌<◌, ◌≤◌, [], All, IfErr, IfOk, length};
ghost use Rattle.snapshot_table.specs.{LooksAt};
ghost use Rattle.collector_pool.specs.Notes.{AreSnapsOf, DoSnapsRise, EndsAtQuery, EndsReader, IsReaderNote, IsSeenNext, halts};
ghost use Rattle.collector_pool.specs.Work.{IsQueryOf};

use crate::group_turns::GroupTurns;
use crate::note::{Ending, WorkerNote, ending_of_turn, make_room};
use disk_model::Disk;
use plant_status::Pass;
use snapshot_table::{Board, Looker};
use std::alloc::Global;
use std::sync::{Mutex, Wait};
use tag_cell::Cell;
use trend_num::Snap;
use value_rows::Query;

// Does the work of a reader, and returns its note.
pub(crate) fn read<R: Wait, D: Disk, G: GroupTurns<D>, O: Pass>(
    rt: &R,
    alloc: Global,
    cells: &[Mutex<Cell<D>>],
    board: &Board,
    groups: &G,
    worker: u32,
    reader: u32,
    queries: &[Query],
    looker: &mut Looker,
    pass: &mut O,
) -> WorkerNote
    requires queries { All (IsQueryOf (length cells.now) (G.groups groups.now)) queries.now }
    requires board { length cells.now ≤ length board.now }
    requires looks { LooksAt board.now looker.old }
    requires fresh { O.stops pass.old ≡ 0 }
    ensures worker { result.worker ≡ worker }
    ensures note { IsReaderNote (G.Refuses groups.now) queries.now result }
    ensures stops { O.stops pass.new ≡ halts result.ending }
{
    let mut note = WorkerNote::new(alloc, worker);
    note.ending = answer_all(
        rt,
        cells,
        board,
        groups,
        reader,
        queries,
        looker,
        pass,
        &mut note.snaps,
    );
    note.steps = note.snaps.len() as u64;
    note
}

// Answers the queries in order, adds to `snaps` what it saw for each, and returns how the reader ends.
fn answer_all<R: Wait, D: Disk, G: GroupTurns<D>, O: Pass>(
    rt: &R,
    cells: &[Mutex<Cell<D>>],
    board: &Board,
    groups: &G,
    reader: u32,
    queries: &[Query],
    looker: &mut Looker,
    pass: &mut O,
    snaps: &mut Vec<Option<Snap>>,
) -> Ending
    requires queries { All (IsQueryOf (length cells.now) (G.groups groups.now)) queries.now }
    requires board { length cells.now ≤ length board.now }
    requires looks { LooksAt board.now looker.old }
    requires fresh { O.stops pass.old ≡ 0 }
    requires none { snaps.old.items ≡ [] }
    ensures snaps { AreSnapsOf queries.now snaps.new.items }
    ensures rise { DoSnapsRise queries.now snaps.new.items }
    ensures ending { EndsReader (G.Refuses groups.now) queries.now (length snaps.new.items) result }
    ensures stops { O.stops pass.new ≡ halts result }
{
    if make_room(snaps, queries.len()).is_err() {
        return Ending::WantOfMemory;
    }
    for (i, query) in queries.iter().enumerate() {
        if !pass.pass(i as u64) {
            return Ending::Halted;
        }
        match answer(
            rt,
            cells,
            board,
            groups,
            reader,
            i as u64 + 1,
            *query,
            looker,
        ) {
            Ok(snap) => snaps.push_reserved(snap),
            Err(ending) => return ending,
        }
    }
    Ending::Ended
}

// Answers a query: about a tag under the tag's lock, about a snapshot by a look at the board, about a group through
// `groups`. Returns the snapshot that it saw, if the query asks for one.
fn answer<R: Wait, D: Disk, G: GroupTurns<D>>(
    rt: &R,
    cells: &[Mutex<Cell<D>>],
    board: &Board,
    groups: &G,
    reader: u32,
    number: u64,
    query: Query,
    looker: &mut Looker,
) -> Result<Option<Snap>, Ending>
    requires query { IsQueryOf (length cells.now) (G.groups groups.now) query }
    requires board { length cells.now ≤ length board.now }
    requires looks { LooksAt board.now looker.old }
    ensures looks { LooksAt board.now looker.new }
    ensures seen { IfOk result (IsSeenNext query looker.old.seen looker.new.seen) }
    ensures ending { IfErr result (EndsAtQuery (G.Refuses groups.now) query) }
{
    match query {
        Query::Tag { tag, query } => {
            let mut cell = cells[tag as usize].lock(rt);
            match cell.ask(reader, number, query) {
                Ok(_) => Ok(None),
                Err(_) => Err(Ending::WantOfMemory),
            }
        }
        Query::Snap { tag } => Ok(Some(board.look(rt, looker, tag))),
        Query::Row { group, calc, k } => match groups.ask(rt, reader, number, group, calc, k) {
            Ok(_) => Ok(None),
            Err(no) => Err(ending_of_turn(group, no)),
        },
    }
}
