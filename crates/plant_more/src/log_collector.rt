// A worker: it puts the rows of its collector into the log, in order, and commits.
ghost use Rattle.std.specs.Prelude.{◌≡◌, ◌<◌, All, IfErr, OnOk, length};
ghost use Rattle.trend_num.specs.{InRange};
ghost use Rattle.plant_more.specs.LogNotes.{EndsAt, IsNoteOf, ending_of_commit, halts};
ghost use Rattle.plant_more.specs.LogTurns.{IsPutAt, is_commit_due};

use crate::log_commit::commit_waiting;
use crate::log_note::{LogEnding, LogNote};
use commit_log::{Log, LogCommitNo, LogRow};
use disk_model::Disk;
use plant_status::Pass;
use std::sync::{Mutex, Wait};
use value_rows::RawRow;

// A worker commits after this many rows.
const ROWS_OF_COMMIT: usize = 64;

// Does the work of a worker until it ends.
pub(crate) fn collect<R: Wait, D: Disk, O: Pass>(
    rt: &R,
    log: &Mutex<Log<D>>,
    worker: u32,
    rows: &[RawRow],
    pass: &mut O,
) -> LogNote
    requires rows { All (λ row. InRange row.point) rows.now }
    requires fresh { O.stops pass.old ≡ 0 }
    ensures worker { result.worker ≡ worker }
    ensures note { IsNoteOf D worker rows.now result }
    ensures stops { O.stops pass.new ≡ halts result.ending }
{
    for place in 0..rows.len() {
        let done = place as u64;
        if !pass.pass(done) {
            return LogNote {
                worker,
                done,
                ending: LogEnding::Halted,
            };
        }
        if let Err(ending) = put_row(rt, log, worker, rows, place) {
            return LogNote {
                worker,
                done,
                ending,
            };
        }
    }
    LogNote {
        worker,
        done: rows.len() as u64,
        ending: LogEnding::Ended,
    }
}

// Puts the row at this place under the lock of the log, and commits if a commit is due.
fn put_row<R: Wait, D: Disk>(
    rt: &R,
    log: &Mutex<Log<D>>,
    collector: u32,
    rows: &[RawRow],
    place: usize,
) -> Result<(), LogEnding>
    requires rows { All (λ row. InRange row.point) rows.now }
    requires within { place < length rows.now }
    ensures refused { IfErr result (EndsAt D collector rows.now place) }
    ensures unhalted { IfErr result (λ ending. halts ending ≡ 0) }
{
    let mut log = log.lock(rt);
    put_into(&mut log, collector, rows, place)
}

// Does the same to a log whose lock is held.
fn put_into<D: Disk>(
    log: &mut Log<D>,
    collector: u32,
    rows: &[RawRow],
    place: usize,
) -> Result<(), LogEnding>
    requires rows { All (λ row. InRange row.point) rows.now }
    requires within { place < length rows.now }
    ensures put { OnOk result (IsPutAt collector rows.now place log.old log.new) }
    ensures refused { IfErr result (EndsAt D collector rows.now place) }
    ensures unhalted { IfErr result (λ ending. halts ending ≡ 0) }
{
    let RawRow { tag, point } = rows[place];
    let row = LogRow {
        tag,
        collector,
        row: place as u64 + 1,
        point,
    };
    if let Err(why) = log.put(row) {
        return Err(LogEnding::Put(why));
    }
    if !is_due(place + 1, rows.len()) {
        return Ok(());
    }
    match commit_waiting(log) {
        Ok(()) => Ok(()),
        Err(why) => Err(ending_of_commit(why)),
    }
}

// Returns whether a worker with so many rows commits after this one: its number is a multiple of 64, or it is the last.
fn is_due(number: usize, rows: usize) -> bool
    ensures { result ≡ is_commit_due number rows }
{
    number % ROWS_OF_COMMIT == 0 || number == rows
}

// Returns how a worker ends after this refusal of its commit.
fn ending_of_commit(why: LogCommitNo) -> LogEnding
    ensures { result ≡ ending_of_commit why }
{
    match why {
        LogCommitNo::WantOfMemory => LogEnding::WantOfMemory,
        LogCommitNo::Broken | LogCommitNo::DeviceFault => LogEnding::Commit(why),
    }
}
