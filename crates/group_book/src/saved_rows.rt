// The saved rows of a book, as a save brings them up to those of the sheet.
ghost use Rattle.std.specs.Prelude.{◌≡◌, ◌⊎◌, ℕ, ◌<◌, ◌≤◌, All, Contains, OnOk, length, slice_get, vec_capacity, vec_len};
ghost use Rattle.calc_refresh.specs.{lists_of};
ghost use Rattle.group_book.specs.Saves.{HasAllChanges};

use crate::unsaved::room_for_flags;
use calc_refresh::{CalcValue, room_in_rows};
use trend_num::WantOfMemory;

// Makes room for so many windows in each row, and for their flags.
pub(crate) fn make_room(
    rows: &mut [Vec<CalcValue>],
    flags: &mut Vec<bool>,
    windows: usize,
) -> Result<(), WantOfMemory>
    ensures same_rows { lists_of rows.new ≡ lists_of rows.old }
    ensures same_flags { flags.new.items ≡ flags.old.items }
    ensures room { OnOk result (All (λ row. windows ≤ vec_capacity row) rows.new) }
    ensures room_for_flags { OnOk result (windows ≤ vec_capacity flags.new) }
{
    room_in_rows(rows, windows)?;
    room_for_flags(flags, windows)
}

// Makes saved rows equal to the rows of the sheet, by writing the values of the windows that may have changed.
pub(crate) fn bring_rows(
    saved: &mut [Vec<CalcValue>],
    rows: &[Vec<CalcValue>],
    changed: &[u32],
    windows: usize,
)
    requires calcs { length saved.old ≡ length rows.now }
    requires windows { All (λ row. vec_len row ≡ windows) rows.now }
    requires room { All (λ row. windows ≤ vec_capacity row) saved.old }
    requires changed { HasAllChanges (lists_of saved.old) (lists_of rows.now) 0 windows changed.now }
    ensures { lists_of saved.new ≡ lists_of rows.now }
{
    for i in 0..saved.len() {
        bring_row(&mut saved[i], &rows[i], changed);
    }
}

// The same for one row.
fn bring_row(saved: &mut Vec<CalcValue>, row: &[CalcValue], changed: &[u32])
    requires room { length row.now ≤ vec_capacity saved.old }
    requires within { All (λ k. k < length row.now) changed.now }
    requires others { (k : ℕ) → k < length row.now
        → Contains changed.now k ⊎ (slice_get saved.old.items k ≡ slice_get row.now k) }
    ensures { saved.new.items ≡ row.now }
{
    let _ = saved.resize(row.len(), CalcValue::Num(0));
    for k in changed {
        let k = *k as usize;
        saved[k] = row[k];
    }
}
