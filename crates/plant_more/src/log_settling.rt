// Bringing a log to its end after its workers have ended.
ghost use Rattle.std.specs.Prelude.{◌≡◌, ◌^◌, ◌<◌, IfErr, OnOk, false, length};
ghost use Rattle.plant_more.specs.LogNotes.{row_lists_of};
ghost use Rattle.plant_more.specs.LogTurns.{IsSameLog};
ghost use Rattle.plant_more.specs.LogFinding.{AreFound, ArePutsBegun};
ghost use Rattle.plant_more.specs.LogKnown.{IsAsKnown};
ghost use Rattle.plant_more.specs.LogMaking.{AreRowsFor, total_rows};
ghost use Rattle.plant_more.specs.LogRefusals.{AdmitsForeignPut, ArePutsMade, AreUnstopped, IsOfOpening, IsRestRefusal, IsSettlingRefusal};

use crate::log_endings::check_endings;
use crate::log_finding::{find_puts, none_found};
use crate::log_known::{KnownLog, compare_log};
use crate::log_made::{commit_rest, put_missing};
use crate::log_note::LogNote;
use commit_log::Log;
use disk_model::Disk;
use plant_status::Status;
use std::alloc::Global;
use value_rows::RawRow;

// Compares a log with the copy of its opening, and its tape with the rows of the collectors' files. Then it puts and
// commits what the tape lacks. It believes only two things of the notes: that a pass stopped a worker, and that a
// worker found no memory.
pub(crate) fn settle<D: Disk>(
    alloc: Global,
    log: &mut Log<D>,
    known: &KnownLog,
    files: &[Vec<RawRow>],
    notes: &[LogNote],
) -> Result<(), Status>
    requires few { length files.now < 2 ^ 32 }
    requires rows { AreRowsFor known.now.tags (row_lists_of files.now) }
    requires small { total_rows (row_lists_of files.now) < 2 ^ 64 }
    ensures ended { OnOk result (AreUnstopped notes.now) }
    ensures made { OnOk result (ArePutsMade (row_lists_of files.now) log.new) }
    ensures usable { OnOk result (log.new.failed ≡ false) }
    ensures begun { (AdmitsForeignPut result → ⊥) → ArePutsBegun (row_lists_of files.now) log.new.tape }
    ensures known { (IsOfOpening result → ⊥) → IsAsKnown log.new known.now }
    ensures refused { IfErr result (IsSettlingRefusal (D.device log.new.dev).faults (row_lists_of files.now) notes.now known.now log.new) }
{
    compare_log(log, known)?;
    let Ok(mut next) = none_found(alloc, files.len()) else {
        return Err(Status::WantOfMemory);
    };
    find_puts(log.tape(), files, &mut next)?;
    complete(log, files, &mut next, notes)
}

// Puts and commits what the tape of a log lacks, unless a worker was stopped or found no memory.
fn complete<D: Disk>(
    log: &mut Log<D>,
    files: &[Vec<RawRow>],
    next: &mut [usize],
    notes: &[LogNote],
) -> Result<(), Status>
    requires few { length files.now < 2 ^ 32 }
    requires rows { AreRowsFor log.old.tags (row_lists_of files.now) }
    requires small { total_rows (row_lists_of files.now) < 2 ^ 64 }
    requires found { AreFound (row_lists_of files.now) log.old.tape next.old }
    ensures ended { OnOk result (AreUnstopped notes.now) }
    ensures made { OnOk result (ArePutsMade (row_lists_of files.now) log.new) }
    ensures usable { OnOk result (log.new.failed ≡ false) }
    ensures begun { ArePutsBegun (row_lists_of files.now) log.new.tape }
    ensures same { IsSameLog log.old log.new }
    ensures refused { IfErr result (IsRestRefusal (D.device log.new.dev).faults (row_lists_of files.now) notes.now log.new) }
{
    check_endings(notes)?;
    put_missing(log, files, next)?;
    commit_rest(log)
}
