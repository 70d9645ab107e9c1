// Doing what the workers of a log left undone: rows are put, and acknowledged.
ghost use Rattle.std.specs.Prelude.{◌≡◌, ◌+◌, ◌^◌, ◌<◌, IfErr, OnErr, OnOk, false, length, slice_index, slice_set};
ghost use Rattle.trend_num.specs.{InRange};
ghost use Rattle.commit_log.specs.{puts, rows_waiting};
ghost use Rattle.plant_more.specs.LogNotes.{row_lists_of};
ghost use Rattle.plant_more.specs.LogTurns.{IsCommitted, IsSameLog};
ghost use Rattle.plant_more.specs.LogFinding.{AreFound, AreOthersSame, AreWhole, rows_in};
ghost use Rattle.plant_more.specs.LogMaking.{AreRowsFor, IsCommitRefusal, IsPutRefusal, IsRowPut, total_rows};

use crate::log_commit::commit_waiting;
use crate::log_finding::row_at;
use commit_log::{Log, LogCommitNo, LogRow, PutRowNo};
use disk_model::Disk;
use plant_status::{Place, Seen, Status, Unit};
use value_rows::RawRow;

// Puts each row of the collectors' files that the tape of a log lacks, file after file. `next` counts, for each
// collector, how many of its rows were found, also after a refusal.
pub(crate) fn put_missing<D: Disk>(
    log: &mut Log<D>,
    files: &[Vec<RawRow>],
    next: &mut [usize],
) -> Result<(), Status>
    requires few { length files.now < 2 ^ 32 }
    requires rows { AreRowsFor log.old.tags (row_lists_of files.now) }
    requires small { total_rows (row_lists_of files.now) < 2 ^ 64 }
    requires found { AreFound (row_lists_of files.now) log.old.tape next.old }
    ensures found { AreFound (row_lists_of files.now) log.new.tape next.new }
    ensures whole { OnOk result (AreWhole (row_lists_of files.now) log.new.tape) }
    ensures same { IsSameLog log.old log.new }
    ensures refused { IfErr result (IsPutRefusal (D.device log.new.dev).faults (total_rows (row_lists_of files.now)) log.new) }
{
    let total = row_total(files);
    for collector in 0..files.len() {
        put_file(log, files, next, collector, total)?;
    }
    Ok(())
}

// Returns how many rows the files have together.
pub(crate) fn row_total(files: &[Vec<RawRow>]) -> u64
    requires small { total_rows (row_lists_of files.now) < 2 ^ 64 }
    ensures { result ≡ total_rows (row_lists_of files.now) }
{
    let mut total = 0;
    for file in files {
        total += file.len() as u64;
    }
    total
}

// Puts the rows of a collector that the tape of a log lacks. `total` is the number of rows of all files.
fn put_file<D: Disk>(
    log: &mut Log<D>,
    files: &[Vec<RawRow>],
    next: &mut [usize],
    collector: usize,
    total: u64,
) -> Result<(), Status>
    requires few { length files.now < 2 ^ 32 }
    requires rows { AreRowsFor log.old.tags (row_lists_of files.now) }
    requires total { total ≡ total_rows (row_lists_of files.now) }
    requires found { AreFound (row_lists_of files.now) log.old.tape next.old }
    requires known { collector < length files.now }
    ensures found { AreFound (row_lists_of files.now) log.new.tape next.new }
    ensures all { OnOk result (slice_index next.new collector ≡ length (rows_in (row_lists_of files.now) collector)) }
    ensures others { AreOthersSame collector next.old next.new }
    ensures same { IsSameLog log.old log.new }
    ensures refused { IfErr result (IsPutRefusal (D.device log.new.dev).faults (total_rows (row_lists_of files.now)) log.new) }
{
    for place in next[collector]..files[collector].len() {
        put_next(log, files, next, collector, total)?;
    }
    Ok(())
}

// Puts the next row of a collector. `total` is the number of rows of all files.
fn put_next<D: Disk>(
    log: &mut Log<D>,
    files: &[Vec<RawRow>],
    next: &mut [usize],
    collector: usize,
    total: u64,
) -> Result<(), Status>
    requires few { length files.now < 2 ^ 32 }
    requires rows { AreRowsFor log.old.tags (row_lists_of files.now) }
    requires total { total ≡ total_rows (row_lists_of files.now) }
    requires found { AreFound (row_lists_of files.now) log.old.tape next.old }
    requires known { collector < length files.now }
    requires lacks { slice_index next.old collector < length (rows_in (row_lists_of files.now) collector) }
    ensures found { AreFound (row_lists_of files.now) log.new.tape next.new }
    ensures advanced { OnOk result (next.new ≡ slice_set next.old collector (slice_index next.old collector + 1)) }
    ensures unchanged { OnErr result (next.new ≡ next.old) }
    ensures same { IsSameLog log.old log.new }
    ensures refused { IfErr result (IsPutRefusal (D.device log.new.dev).faults (total_rows (row_lists_of files.now)) log.new) }
{
    let Some(row) = row_at(&files[collector], collector as u32, next[collector]) else {
        unreachable!()
    };
    put_row(log, row, total)?;
    next[collector] += 1;
    Ok(())
}

// Puts a row. `total` is the number of rows of all files; fewer were put so far.
fn put_row<D: Disk>(log: &mut Log<D>, row: LogRow, total: u64) -> Result<(), Status>
    requires point { InRange row.point }
    requires tag { row.tag < log.old.tags }
    requires fewer { length (puts log.old.tape) < total }
    ensures put { OnOk result (IsRowPut row log.old log.new) }
    ensures unchanged { OnErr result (log.new ≡ log.old) }
    ensures refused { IfErr result (IsPutRefusal (D.device log.new.dev).faults total log.new) }
{
    let place = log.tape().len() as u64;
    match log.put(row) {
        Ok(_) => Ok(()),
        Err(PutRowNo::RoomFull { room }) => Err(Status::Mismatch {
            place: Place::Log { place },
            kept: Seen::Number(u64::from(room)),
            told: Seen::Number(total),
        }),
        Err(PutRowNo::Broken) => Err(Status::DeviceFault { unit: Unit::Log }),
        Err(PutRowNo::NoTag { .. }) => unreachable!(),
    }
}

// Acknowledges all rows that wait, and returns a refusal as a status.
pub(crate) fn commit_rest<D: Disk>(log: &mut Log<D>) -> Result<(), Status>
    ensures none_waits { OnOk result (rows_waiting log.new ≡ 0) }
    ensures usable { OnOk result (log.new.failed ≡ false) }
    ensures committed { IsCommitted log.old log.new }
    ensures refused { IfErr result (IsCommitRefusal (D.device log.new.dev).faults) }
{
    match commit_waiting(log) {
        Ok(()) => Ok(()),
        Err(LogCommitNo::WantOfMemory) => Err(Status::WantOfMemory),
        Err(LogCommitNo::Broken | LogCommitNo::DeviceFault) => {
            Err(Status::DeviceFault { unit: Unit::Log })
        }
    }
}
