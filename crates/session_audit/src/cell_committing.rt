// Commits the values that wait on cells.
ghost use Rattle.std.specs.Prelude.{ℕ, ◌≡◌, ◌⊎◌, ◌^◌, ◌<◌, List, All, IfErr, OnOk, length, true};
ghost use Rattle.value_rows.specs.{Query, RawRow};
ghost use Rattle.session_audit.specs.Agendas.{ask_item, phase_item};
ghost use Rattle.session_audit.specs.Tapes.{ask_of, take_of};
ghost use Rattle.tag_cell.specs.declared.entry.CommitNo.TheVariants.{WantOfMemory as NoMemory};
ghost use Rattle.session_audit.specs.Cells.{AreAllShown, AreLonger, IsCommitEntry, IsLonger};
ghost use Rattle.session_audit.specs.CellRefusals.{IsCellRefusal, IsCommittedCell, commit_status};

use disk_model::Disk;
use plant_status::{Status, Unit};
use tag_cell::{Cell, CommitNo};

/// Commits on each cell until no value waits. It stops at the first tag whose device has failed, or when memory is
/// wanting.
pub fn commit_cells<D: Disk>(cells: &mut [Cell<D>]) -> Result<(), Status>
    requires few { length cells.old < 2 ^ 32 }
    ensures committed { OnOk result (All IsCommittedCell cells.new) }
    ensures takes { (earlier : ℕ) (taken : List (List RawRow)) → AreAllShown take_of (phase_item earlier) taken cells.old
        → AreAllShown take_of (phase_item earlier) taken cells.new }
    ensures asks { (asked : List (List Query)) → AreAllShown ask_of ask_item asked cells.old
        → AreAllShown ask_of ask_item asked cells.new }
    ensures longer { AreLonger IsCommitEntry cells.old cells.new }
    ensures refused { IfErr result (IsCellRefusal cells.new) }
{
    for tag in 0..cells.len() {
        if let Err(no) = commit_cell(&mut cells[tag]) {
            return Err(commit_status(tag as u32, no));
        }
    }
    Ok(())
}

// Commits on a cell until no value waits.
fn commit_cell<D: Disk>(cell: &mut Cell<D>) -> Result<(), CommitNo>
    ensures committed { OnOk result (IsCommittedCell cell.new) }
    ensures longer { IsLonger IsCommitEntry cell.old cell.new }
    ensures failed { IfErr result (λ no. (no ≡ NoMemory) ⊎ (cell.new.journal.failed ≡ true)) }
{
    loop {
        let acked = cell.commit()?;
        if acked.waiting == 0 {
            return Ok(());
        }
    }
}

// Returns the status of a refused commit.
fn commit_status(tag: u32, no: CommitNo) -> Status
    ensures { result ≡ commit_status tag no }
{
    match no {
        CommitNo::Broken | CommitNo::DeviceFault => Status::DeviceFault {
            unit: Unit::Tag(tag),
        },
        CommitNo::WantOfMemory => Status::WantOfMemory,
    }
}
