// Running all workers of a log at the same time.
ghost use Rattle.std.specs.Prelude.{◌≡◌, ℕ, ◌^◌, ◌<◌, ◌≤◌, [], All, IfErr, IfOk, OnErr, length, slice_index_or, vec_capacity, vec_len};
ghost use Rattle.trend_num.specs.{InRange};
ghost use Rattle.plant_more.specs.LogNotes.{AreLogNotesOf, row_lists_of, log_stops_with};
ghost use Rattle.plant_more.specs.LogCrew.{AreDone, AreSeated, IsDone, IsReady};

use crate::log_collector::collect;
use crate::log_note::LogNote;
use crate::log_worker::LogWorker;
use commit_log::Log;
use disk_model::Disk;
use plant_status::{Pass, Passes, gather};
use std::alloc::Global;
use std::sync::{Mutex, Wait};
use std::thread;
use std::thread::Threads;
use trend_num::WantOfMemory;
use value_rows::RawRow;

// A log after all its workers have ended, and their notes in order.
pub(crate) struct CollectedLog<D: Disk> {
    pub(crate) log: Log<D>,
    pub(crate) notes: Vec<LogNote>,
}

// Runs one worker for each collector, all at the same time, on the log of a plant. It returns the log and their notes
// once every worker has ended and every pass is given back. If there is no memory for the workers, none begins, no pass
// is handed out, and the log is returned unchanged. The points of the rows are in range.
pub(crate) fn run_collectors<D: Disk + Send, P: Passes, R: Threads + Wait + Sync>(
    rt: &R,
    alloc: Global,
    log: Log<D>,
    collectors: &[Vec<RawRow>],
    passes: &mut P,
) -> Result<CollectedLog<D>, Log<D>>
    requires few { length collectors.now < 2 ^ 32 }
    requires rows { All (λ rows. All (λ row. InRange row.point) rows.items) collectors.now }
    ensures notes { IfOk result (λ done. AreLogNotesOf D (row_lists_of collectors.now) done.notes.items) }
    ensures stops { IfOk result (λ done. P.stops passes.new ≡ log_stops_with (P.stops passes.old) done.notes.items) }
    ensures unbegun { OnErr result (P.stops passes.new ≡ P.stops passes.old) }
    ensures unchanged { IfErr result (λ back. back ≡ log) }
{
    let workers = collectors.len();
    let Ok(mut crew) = with_room(alloc, workers) else {
        return Err(log);
    };
    let Ok(mut notes) = with_room(alloc, workers) else {
        crew.destroy_empty();
        return Err(log);
    };
    seat_all(workers, passes, &mut crew);
    let lock = Mutex::new(log);
    collect_all(rt, &lock, collectors, &mut crew);
    gather(crew, passes, &mut notes);
    Ok(CollectedLog {
        log: lock.into_inner(),
        notes,
    })
}

// Returns an empty list with room for so many items.
fn with_room<T>(alloc: Global, count: usize) -> Result<Vec<T>, WantOfMemory>
    ensures none { IfOk result (λ list. list.items ≡ []) }
    ensures room { IfOk result (λ list. count ≤ vec_capacity list) }
{
    Ok(Vec::with_capacity(alloc, count)?)
}

// Adds a worker to the crew for each collector.
fn seat_all<P: Passes>(workers: usize, passes: &mut P, crew: &mut Vec<LogWorker<P::One>>)
    requires few { workers < 2 ^ 32 }
    requires none { crew.old.items ≡ [] }
    requires room { workers ≤ vec_capacity crew.old }
    ensures count { vec_len crew.new ≡ workers }
    ensures seated { AreSeated P.One.stops crew.new.items }
    ensures stops { P.stops passes.new ≡ P.stops passes.old }
{
    for worker in 0..workers {
        crew.push_reserved(LogWorker {
            pass: passes.hand(worker as u32),
            note: LogNote::new(worker as u32),
        });
    }
}

// Runs the whole crew. It is a function of its own for the proof only, which needs the crew as a slice.
fn collect_all<D: Disk + Send, O: Pass + Send, R: Threads + Wait + Sync>(
    rt: &R,
    log: &Mutex<Log<D>>,
    collectors: &[Vec<RawRow>],
    crew: &mut Vec<LogWorker<O>>,
)
    requires rows { All (λ rows. All (λ row. InRange row.point) rows.items) collectors.now }
    requires ready { All (IsReady O.stops (length collectors.now)) crew.old.items }
    ensures count { vec_len crew.new ≡ vec_len crew.old }
    ensures done { AreDone D O.stops (row_lists_of collectors.now) crew.old.items crew.new.items }
{
    collect_each(rt, log, collectors, crew.as_mut_slice());
}

// Runs each worker of the crew in a thread of its own, and returns once all have ended.
fn collect_each<D: Disk + Send, O: Pass + Send, R: Threads + Wait + Sync>(
    rt: &R,
    log: &Mutex<Log<D>>,
    collectors: &[Vec<RawRow>],
    crew: &mut [LogWorker<O>],
)
    requires rows { All (λ rows. All (λ row. InRange row.point) rows.items) collectors.now }
    requires ready { All (IsReady O.stops (length collectors.now)) crew.old }
    ensures { (i : ℕ) (d : _) → i < length crew.old
        → IsDone D O.stops (row_lists_of collectors.now) (slice_index_or crew.old i d) (slice_index_or crew.new i d) }
{
    if crew.is_empty() {
        return;
    }
    let threads = crew.len();
    thread::for_each_mut(
        rt,
        crew,
        threads,
        &|_, member: &mut LogWorker<O>|
            requires { All (λ rows. All (λ row. InRange row.point) rows.items) collectors.now
                × IsReady O.stops (length collectors.now) member.now }
            ensures { IsDone D O.stops (row_lists_of collectors.entry.now) member.entry.now member.exit.now }
        { collect_one(rt, log, collectors, member) },
    );
}

// Does the work of one worker of the crew.
fn collect_one<D: Disk, O: Pass, R: Wait>(
    rt: &R,
    log: &Mutex<Log<D>>,
    collectors: &[Vec<RawRow>],
    member: &mut LogWorker<O>,
)
    requires rows { All (λ rows. All (λ row. InRange row.point) rows.items) collectors.now }
    requires ready { IsReady O.stops (length collectors.now) member.old }
    ensures { IsDone D O.stops (row_lists_of collectors.now) member.old member.new }
{
    let worker = member.note.worker;
    let rows = &collectors[worker as usize];
    member.note = collect(rt, log, worker, rows, &mut member.pass);
}
