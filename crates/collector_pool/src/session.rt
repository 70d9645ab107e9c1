// A session: all workers, running at the same time.
ghost use Rattle.std.specs.Prelude.{◌≡◌, ℕ, ◌+◌, ◌^◌, ◌<◌, ◌≤◌, List, [], All, IfOk, OnErr, length, slice_index_or, vec_capacity, vec_len};
ghost use Rattle.snapshot_table.specs.{Looking, LooksAt};
ghost use Rattle.collector_pool.specs.Notes.{AreNotesOf, halts, stops_with};
ghost use Rattle.collector_pool.specs.SeatedWorkers.{AreDone, AreSeated, IsDone, IsNoteAs, IsReady, IsRoleOf, IsSeatedAs};
ghost use Rattle.collector_pool.specs.Work.{IsWorkOf, worker_count};

use crate::collector::collect;
use crate::group_turns::GroupTurns;
use crate::note::{WorkerNote, with_room};
use crate::reader::read;
use crate::refresher::refresh;
use crate::session_worker::{Role, SessionWorker};
use crate::work::Work;
use disk_model::Disk;
use plant_status::{Pass, Passes, gather};
use snapshot_table::{Board, Looker};
use std::alloc::Global;
use std::sync::{Mutex, Wait};
use std::thread;
use std::thread::Threads;
use tag_cell::Cell;
use trend_num::WantOfMemory;

/// Runs the workers of a session, all at the same time: one for each collector, each reader and each refresher. It
/// returns their notes in this order, once every worker has ended and every pass is given back. `lookers` has one
/// looker of this board for each reader.
///
/// WantOfMemory: there was no memory; no worker began, and no pass was handed out.
pub fn run_session<D: Disk + Send, G: GroupTurns<D>, P: Passes, R: Threads + Wait + Sync>(
    rt: &R,
    alloc: Global,
    cells: &[Mutex<Cell<D>>],
    board: &Board,
    lookers: Vec<Looker>,
    groups: &G,
    work: &Work,
    passes: &mut P,
) -> Result<Vec<WorkerNote>, WantOfMemory>
    requires work { IsWorkOf (length cells.now) (G.groups groups.now) work.now }
    requires board { length cells.now ≤ length board.now }
    requires lookers { vec_len lookers ≡ vec_len work.now.readers }
    requires looks { All (LooksAt board.now) lookers.items }
    ensures notes { IfOk result (λ notes. AreNotesOf (G.Refuses groups.now) work.now notes.items) }
    ensures stops { IfOk result (λ notes. P.stops passes.new ≡ stops_with (P.stops passes.old) notes.items) }
    ensures unbegun { OnErr result (P.stops passes.new ≡ P.stops passes.old) }
{
    let workers = work.collectors.len() + work.readers.len() + work.refreshers.len();
    let mut seats = with_room(alloc, workers)?;
    let mut notes = match with_room(alloc, workers) {
        Ok(notes) => notes,
        Err(WantOfMemory) => {
            seats.destroy_empty();
            return Err(WantOfMemory);
        }
    };
    seat_all(alloc, work, lookers, passes, &mut seats);
    work_all(rt, alloc, cells, board, groups, work, &mut seats);
    gather(seats, passes, &mut notes);
    Ok(notes)
}

// Gives each worker its seat: the collectors, then the readers, each with its looker, then the refreshers.
fn seat_all<P: Passes>(
    alloc: Global,
    work: &Work,
    lookers: Vec<Looker>,
    passes: &mut P,
    seats: &mut Vec<SessionWorker<P::One>>,
)
    requires few { worker_count work.now < 2 ^ 32 }
    requires lookers { vec_len lookers ≡ vec_len work.now.readers }
    requires none { seats.old.items ≡ [] }
    requires room { worker_count work.now ≤ vec_capacity seats.old }
    ensures count { vec_len seats.new ≡ worker_count work.now }
    ensures seated { AreSeated P.One.stops work.now lookers.items seats.new.items }
    ensures stops { P.stops passes.new ≡ P.stops passes.old }
{
    seat_collectors(alloc, work, passes, seats);
    seat_readers(alloc, work, lookers, passes, seats);
    seat_refreshers(alloc, work, passes, seats);
}

// Gives each collector its seat.
fn seat_collectors<P: Passes>(
    alloc: Global,
    work: &Work,
    passes: &mut P,
    seats: &mut Vec<SessionWorker<P::One>>,
)
    requires few { worker_count work.now < 2 ^ 32 }
    requires before { seats.old.items ≡ [] }
    requires room { worker_count work.now ≤ vec_capacity seats.old }
    ensures room { vec_capacity seats.new ≡ vec_capacity seats.old }
    ensures count { vec_len seats.new ≡ vec_len work.now.collectors }
    ensures seated { (lookers : List Looking) → AreSeated P.One.stops work.now lookers seats.new.items }
    ensures stops { P.stops passes.new ≡ P.stops passes.old }
{
    for collector in 0..work.collectors.len() {
        seat(alloc, passes, seats, Role::Collector(collector as u32));
    }
}

// Gives each reader its seat, with its looker.
fn seat_readers<P: Passes>(
    alloc: Global,
    work: &Work,
    lookers: Vec<Looker>,
    passes: &mut P,
    seats: &mut Vec<SessionWorker<P::One>>,
)
    requires few { worker_count work.now < 2 ^ 32 }
    requires lookers { vec_len lookers ≡ vec_len work.now.readers }
    requires before { vec_len seats.old ≡ vec_len work.now.collectors }
    requires room { worker_count work.now ≤ vec_capacity seats.old }
    requires seated { AreSeated P.One.stops work.now lookers.items seats.old.items }
    ensures room { vec_capacity seats.new ≡ vec_capacity seats.old }
    ensures count { vec_len seats.new ≡ vec_len work.now.collectors + vec_len work.now.readers }
    ensures seated { AreSeated P.One.stops work.now lookers.items seats.new.items }
    ensures stops { P.stops passes.new ≡ P.stops passes.old }
{
    let mut rest = lookers.into_iter();
    for reader in 0..work.readers.len() {
        let Some(looker) = rest.next() else {
            unreachable!()
        };
        seat(alloc, passes, seats, Role::Reader(reader as u32, looker));
    }
}

// Gives each refresher its seat.
fn seat_refreshers<P: Passes>(
    alloc: Global,
    work: &Work,
    passes: &mut P,
    seats: &mut Vec<SessionWorker<P::One>>,
)
    requires few { worker_count work.now < 2 ^ 32 }
    requires before { vec_len seats.old ≡ vec_len work.now.collectors + vec_len work.now.readers }
    requires room { worker_count work.now ≤ vec_capacity seats.old }
    ensures count { vec_len seats.new ≡ worker_count work.now }
    ensures seated { (lookers : List Looking) → AreSeated P.One.stops work.now lookers seats.old.items
        → AreSeated P.One.stops work.now lookers seats.new.items }
    ensures stops { P.stops passes.new ≡ P.stops passes.old }
{
    for refresher in 0..work.refreshers.len() {
        seat(alloc, passes, seats, Role::Refresher(refresher as u32));
    }
}

// Gives the next worker its seat, in this role.
fn seat<P: Passes>(
    alloc: Global,
    passes: &mut P,
    seats: &mut Vec<SessionWorker<P::One>>,
    role: Role,
)
    requires few { vec_len seats.old < 2 ^ 32 }
    requires room { vec_len seats.old < vec_capacity seats.old }
    ensures same_stops { P.stops passes.new ≡ P.stops passes.old }
    ensures room { vec_capacity seats.new ≡ vec_capacity seats.old }
    ensures count { vec_len seats.new ≡ vec_len seats.old + 1 }
    ensures seated { IsSeatedAs P.One.stops role seats.old.items seats.new.items }
{
    let worker = seats.len() as u32;
    seats.push_reserved(SessionWorker {
        role,
        pass: passes.hand(worker),
        note: WorkerNote::new(alloc, worker),
    });
}

// Runs all workers at the same time.
fn work_all<D: Disk + Send, G: GroupTurns<D>, O: Pass + Send, R: Threads + Wait + Sync>(
    rt: &R,
    alloc: Global,
    cells: &[Mutex<Cell<D>>],
    board: &Board,
    groups: &G,
    work: &Work,
    seats: &mut Vec<SessionWorker<O>>,
)
    requires work { IsWorkOf (length cells.now) (G.groups groups.now) work.now }
    requires board { length cells.now ≤ length board.now }
    requires ready { All (IsReady O.stops work.now board.now) seats.old.items }
    ensures count { vec_len seats.new ≡ vec_len seats.old }
    ensures done { AreDone (G.Refuses groups.now) O.stops work.now seats.old.items seats.new.items }
{
    work_each(rt, alloc, cells, board, groups, work, seats.as_mut_slice());
}

// Runs each worker of these seats in a thread of its own, and returns once all have ended.
fn work_each<D: Disk + Send, G: GroupTurns<D>, O: Pass + Send, R: Threads + Wait + Sync>(
    rt: &R,
    alloc: Global,
    cells: &[Mutex<Cell<D>>],
    board: &Board,
    groups: &G,
    work: &Work,
    seats: &mut [SessionWorker<O>],
)
    requires work { IsWorkOf (length cells.now) (G.groups groups.now) work.now }
    requires board { length cells.now ≤ length board.now }
    requires ready { All (IsReady O.stops work.now board.now) seats.old }
    ensures { (i : ℕ) (d : _) → i < length seats.old
        → IsDone (G.Refuses groups.now) O.stops work.now (slice_index_or seats.old i d) (slice_index_or seats.new i d) }
{
    if seats.is_empty() {
        return;
    }
    let threads = seats.len();
    thread::for_each_mut(
        rt,
        seats,
        threads,
        &|_, seat: &mut SessionWorker<O>|
            requires { IsWorkOf (length cells.now) (G.groups groups.now) work.now × (length cells.now ≤ length board.now)
                × IsReady O.stops work.now board.now seat.now }
            ensures { IsDone (G.Refuses groups.entry.now) O.stops work.entry.now seat.entry.now seat.exit.now }
        { work_in(rt, alloc, cells, board, groups, work, seat) },
    );
}

// Does the work of the worker on this seat.
fn work_in<D: Disk, G: GroupTurns<D>, O: Pass, R: Wait>(
    rt: &R,
    alloc: Global,
    cells: &[Mutex<Cell<D>>],
    board: &Board,
    groups: &G,
    work: &Work,
    seat: &mut SessionWorker<O>,
)
    requires work { IsWorkOf (length cells.now) (G.groups groups.now) work.now }
    requires board { length cells.now ≤ length board.now }
    requires ready { IsReady O.stops work.now board.now seat.old }
    ensures { IsDone (G.Refuses groups.now) O.stops work.now seat.old seat.new }
{
    seat.note = work_as(
        rt,
        alloc,
        cells,
        board,
        groups,
        work,
        seat.note.worker,
        &mut seat.role,
        &mut seat.pass,
    );
}

// Does the work of a worker with this role, and returns its note.
fn work_as<D: Disk, G: GroupTurns<D>, O: Pass, R: Wait>(
    rt: &R,
    alloc: Global,
    cells: &[Mutex<Cell<D>>],
    board: &Board,
    groups: &G,
    work: &Work,
    worker: u32,
    role: &mut Role,
    pass: &mut O,
) -> WorkerNote
    requires work { IsWorkOf (length cells.now) (G.groups groups.now) work.now }
    requires board { length cells.now ≤ length board.now }
    requires role { IsRoleOf work.now board.now role.old }
    requires fresh { O.stops pass.old ≡ 0 }
    ensures worker { result.worker ≡ worker }
    ensures note { IsNoteAs (G.Refuses groups.now) work.now role.old result }
    ensures stops { O.stops pass.new ≡ halts result.ending }
{
    match role {
        Role::Collector(collector) => {
            let rows = work.rows_of(*collector);
            collect(rt, alloc, cells, worker, *collector, rows, pass)
        }
        Role::Reader(reader, looker) => {
            let queries = &work.readers[*reader as usize];
            read(
                rt, alloc, cells, board, groups, worker, *reader, queries, looker, pass,
            )
        }
        Role::Refresher(refresher) => {
            let turns = work.refreshers[*refresher as usize];
            refresh(rt, alloc, cells, groups, worker, turns, pass)
        }
    }
}
