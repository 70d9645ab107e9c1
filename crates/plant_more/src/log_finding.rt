// Finding the rows of collectors on the tape of a log.
ghost use Rattle.std.specs.Prelude.{◌≡◌, ◌+◌, ◌^◌, ◌<◌, IfErr, IfOk, OnErr, OnOk, OnSome, length, replicate, slice_get};
ghost use Rattle.plant_more.specs.LogNotes.{row_lists_of};
ghost use Rattle.plant_more.specs.LogFinding.{AreFound, IsFollowed, IsOtherDue, IsPutMismatch, rows_from, seen_of};

use commit_log::{LogRow, LogTurn};
use plant_status::{Place, Seen, Status};
use std::alloc::Global;
use trend_num::WantOfMemory;
use value_rows::RawRow;

// Returns the numbers of found rows, all 0, for so many collectors.
pub(crate) fn none_found(alloc: Global, collectors: usize) -> Result<Vec<usize>, WantOfMemory>
    ensures { IfOk result (λ next. next.items ≡ replicate collectors 0) }
{
    Ok(vec![in alloc; 0usize; collectors]?)
}

// Finds the puts of a tape among the rows of the collectors' files. `next` counts, for each collector, how many of its
// rows were found. The first put that is not its collector's next row is returned as a mismatch.
pub(crate) fn find_puts(
    tape: &[LogTurn],
    files: &[Vec<RawRow>],
    next: &mut [usize],
) -> Result<(), Status>
    requires few { length files.now < 2 ^ 32 }
    requires none { next.old ≡ replicate (length files.now) 0 }
    ensures found { OnOk result (AreFound (row_lists_of files.now) tape.now next.new) }
    ensures differs { IfErr result (IsPutMismatch (row_lists_of files.now) tape.now) }
{
    for place in 0..tape.len() {
        if let LogTurn::Put(row) = tape[place] {
            if let Err(told) = follow(files, next, row) {
                return Err(Status::Mismatch {
                    place: Place::Log {
                        place: place as u64,
                    },
                    kept: seen_of(row),
                    told,
                });
            }
        }
    }
    Ok(())
}

// Counts a row as the next one of its collector. If it is another one, it returns the row that was due, or Nothing if
// none was.
fn follow(files: &[Vec<RawRow>], next: &mut [usize], row: LogRow) -> Result<(), Seen>
    requires few { length files.now < 2 ^ 32 }
    requires as_many { length next.old ≡ length files.now }
    ensures followed { OnOk result (IsFollowed (row_lists_of files.now) row next.old next.new) }
    ensures unchanged { OnErr result (next.new ≡ next.old) }
    ensures told { IfErr result (IsOtherDue (row_lists_of files.now) row next.old) }
{
    let collector = row.collector as usize;
    if collector >= files.len() {
        return Err(Seen::Nothing);
    }
    match row_at(&files[collector], row.collector, next[collector]) {
        Some(due) => {
            if due != row {
                return Err(seen_of(due));
            }
            next[collector] += 1;
            Ok(())
        }
        None => Err(Seen::Nothing),
    }
}

// Returns the row at this place of a collector's file, as a log has it.
pub(crate) fn row_at(rows: &[RawRow], collector: u32, place: usize) -> Option<LogRow>
    ensures row { result ≡ slice_get (rows_from collector 1 rows.now) place }
    ensures within { OnSome result (place < length rows.now) }
{
    if place >= rows.len() {
        return None;
    }
    let RawRow { tag, point } = rows[place];
    Some(LogRow {
        tag,
        collector,
        row: place as u64 + 1,
        point,
    })
}

// Returns a row of a log as a status reports it.
fn seen_of(row: LogRow) -> Seen
    ensures { result ≡ seen_of row }
{
    let LogRow {
        tag,
        collector,
        row,
        point,
    } = row;
    Seen::Put {
        tag,
        collector,
        row,
        point,
    }
}
