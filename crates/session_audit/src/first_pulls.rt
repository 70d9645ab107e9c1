// How many values tags had acknowledged when a group first pulled from them.
ghost use Rattle.std.specs.Prelude.{◌≡◌, ◌<◌, ◌^◌, IfErr, OnOk, length};
ghost use Rattle.session_audit.specs.FirstPulls.{HaveFirstPulls, IsFirstPullMismatch, acked_at_pull, takes_at_pull};

use crate::taking::takes_mismatch;
use disk_model::Disk;
use plant_status::Status;
use tag_cell::{Cell, Entry};

/// Compares two numbers for each tag: how many takes it had acknowledged when a group first pulled from it, and its number
/// in `rows`. A drill gives the rows of its first phase, so what a group first pulled is that phase. Stops at the first
/// tag of which they differ.
pub fn compare_first_pulls<D: Disk>(cells: &[Cell<D>], rows: &[u32]) -> Result<(), Status>
    requires rows { length rows.now ≡ length cells.now }
    requires few { length cells.now < 2 ^ 32 }
    ensures same { OnOk result (HaveFirstPulls rows.now cells.now) }
    ensures differs { IfErr result (IsFirstPullMismatch rows.now cells.now) }
{
    for tag in 0..cells.len() {
        let takes = takes_at_pull(&cells[tag]);
        if takes != u64::from(rows[tag]) {
            return Err(takes_mismatch(tag as u32, takes, rows[tag]));
        }
    }
    Ok(())
}

// Returns how many takes of a tag were acknowledged when a group first pulled from it.
fn takes_at_pull<D: Disk>(cell: &Cell<D>) -> u64
    ensures { result ≡ takes_at_pull cell.now.opening cell.now.tape }
{
    let taken = cell.opening().summary.taken;
    acked_at_pull(cell.tape(), taken).saturating_sub(taken)
}

// Returns how many events the last commit before the first pull acknowledges, or `taken` if there is none.
fn acked_at_pull(tape: &[Entry], taken: u64) -> u64
    ensures { result ≡ acked_at_pull taken tape.now }
{
    let mut last = taken;
    for entry in tape {
        match entry {
            Entry::Commit { acked, .. } => last = *acked,
            Entry::Pull { .. } => return last,
            _ => {}
        }
    }
    last
}
