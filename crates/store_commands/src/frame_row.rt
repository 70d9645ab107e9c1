// What changes in the row of a calculation.
ghost use Rattle.std.specs.Prelude.{◌≡◌, ◌<◌, ◌≤◌, IfOk, IsTrue, Some, length, slice_get, ◌↔◌};
ghost use Rattle.event_frames.specs.{IsChangeList, row_with};

use calc_refresh::CalcValue;
use event_frames::Change;
use std::alloc::{AllocError, Global};

// The changes from one row to another that is no shorter: each window with another value, and each new window.
pub(crate) fn changes(
    alloc: Global,
    old: &[CalcValue],
    new: &[CalcValue],
) -> Result<Vec<Change>, AllocError>
    requires { length old.now ≤ length new.now }
    ensures changes { IfOk result (λ changes. IsChangeList (length old.now) changes.items) }
    ensures row { IfOk result (λ changes. row_with old.now changes.items ≡ new.now) }
{
    let mut changes = Vec::new(alloc);
    for (k, value) in new.iter().enumerate() {
        if !is_at(old, k, *value) {
            changes.push(Change {
                k: k as u64,
                value: *value,
            })?;
        }
    }
    Ok(changes)
}

// Whether a row has this value in window `k`.
fn is_at(row: &[CalcValue], k: usize, value: CalcValue) -> bool
    ensures { IsTrue result ↔ (slice_get row.now k ≡ Some value) }
{
    k < row.len() && row[k] == value
}
