// Reading the rows of a block.
ghost use Rattle.std.specs.Prelude.{◌≡◌, ℕ, ◌+◌, ◌*◌, ◌≤◌, true, ◌&&◌, All, Option, None, IfOk, IsErrOf, OnOk, length, nat_le, nat_lt};
ghost use Rattle.archive_file.specs.declared.failure.ScanNo.TheVariants.{Damaged, DeviceFault, WantOfMemory};
ghost use Rattle.group_layout.specs.declared.block.BlockRow.{BlockRow};
ghost use Rattle.archive_file.specs.{BreaksFirst, Keeps, Spells, IsWindow};
ghost use Rattle.group_layout.specs.Blocks.{AreRows, IsRow, is_calc_in_order, is_in_order, is_value_ok, row_at, row_fields, row_image, rows_fields, rows_image};

use crate::block::BlockRow;
use crate::writer::ROW_LEN;
use archive_file::{Field, Rest, ScanNo, Window};
use std::alloc::Global;

// The largest kind of a row.
const LAST_KIND: u8 = 3;

// The greatest amount of a row's number: how far it may be from 0.
const MOST_NUMBER: u64 = 1_000_000_000_000_000_000;

// Reads so many rows that begin at a place of a block. Each belongs to one of so many calculations and to one of so many windows.
pub(crate) fn read_rows<C: Rest>(
    alloc: Global,
    block: &Window,
    at: usize,
    count: u32,
    calcs: u32,
    windows: u32,
) -> Result<Vec<BlockRow>, ScanNo>
    requires window { IsWindow C.rest block.now }
    requires asked { at + 17 * count ≤ block.now.asked }
    requires there { at ≤ length C.rest }
    ensures len { IfOk result (λ v. length v.items ≡ count) }
    ensures rows { IfOk result (λ v. AreRows calcs windows v.items) }
    ensures spelled { IfOk result (λ v. Spells C.rest at (rows_image v.items) (at + 17 * count)) }
    ensures kept { OnOk result (All (Keeps C.rest) (rows_fields C.rest calcs windows None at count)) }
    ensures damaged { (a : ℕ) (byte : Option ℕ) → IsErrOf result (Damaged a byte)
        → BreaksFirst C.rest (rows_fields C.rest calcs windows None at count) a byte }
    ensures no_fault { IsErrOf result DeviceFault → ⊥ }
{
    let mut rows = Vec::new(alloc);
    let mut next = at;
    let mut last = None;
    for _ in 0..count {
        let row = read_row::<C>(block, next, calcs, windows, last)?;
        let Ok(()) = rows.push(row) else {
            return Err(ScanNo::WantOfMemory);
        };
        last = Some(row);
        next += ROW_LEN;
    }
    Ok(rows)
}

// Reads the row at a place, after the last one.
fn read_row<C: Rest>(
    block: &Window,
    at: usize,
    calcs: u32,
    windows: u32,
    last: Option<BlockRow>,
) -> Result<BlockRow, ScanNo>
    requires window { IsWindow C.rest block.now }
    requires asked { at + 17 ≤ block.now.asked }
    ensures value { IfOk result (λ r. r ≡ row_at C.rest at) }
    ensures row { IfOk result (IsRow calcs windows) }
    ensures order { IfOk result (λ r. is_in_order last r ≡ true) }
    ensures spelled { IfOk result (λ r. Spells C.rest at (row_image r) (at + 17)) }
    ensures kept { OnOk result (All (Keeps C.rest) (row_fields calcs windows last (row_at C.rest at) at)) }
    ensures damaged { (a : ℕ) (byte : Option ℕ) → IsErrOf result (Damaged a byte)
        → BreaksFirst C.rest (row_fields calcs windows last (row_at C.rest at) at) a byte }
    ensures no_fault { IsErrOf result DeviceFault → ⊥ }
{
    let row = row_at::<C>(block, at);
    check_row::<C>(block, at, calcs, windows, last, row)?;
    Ok(row)
}

// Reads the row at a place.
fn row_at<C: Rest>(block: &Window, at: usize) -> BlockRow
    requires window { IsWindow C.rest block.now }
    requires asked { at + 17 ≤ block.now.asked }
    ensures value { result ≡ row_at C.rest at }
    ensures spelled { at + 17 ≤ length C.rest → Spells C.rest at (row_image (row_at C.rest at)) (at + 17) }
{
    BlockRow {
        calc: block.short_at::<C>(at),
        window: block.short_at::<C>(at + 4),
        kind: block.byte_at::<C>(at + 8),
        value: block.long_at::<C>(at + 9).cast_signed(),
    }
}

// Checks the row at a place, after the last one. Refuses it at the first of its fields that is not there or breaks its
// rule.
fn check_row<C: Rest>(
    block: &Window,
    at: usize,
    calcs: u32,
    windows: u32,
    last: Option<BlockRow>,
    row: BlockRow,
) -> Result<(), ScanNo>
    requires window { IsWindow C.rest block.now }
    requires asked { at + 17 ≤ block.now.asked }
    ensures kept { OnOk result (All (Keeps C.rest) (row_fields calcs windows last row at)) }
    ensures damaged { (a : ℕ) (byte : Option ℕ) → IsErrOf result (Damaged a byte)
        → BreaksFirst C.rest (row_fields calcs windows last row at) a byte }
    ensures no_fault { IsErrOf result DeviceFault → ⊥ }
    ensures no_want { IsErrOf result WantOfMemory → ⊥ }
{
    block.check::<C>(&[
        Field::new(at, 4, is_calc_ok(calcs, last, row)),
        Field::new(at + 4, 4, is_window_ok(windows, last, row)),
        Field::new(at + 8, 1, is_kind(row.kind)),
        Field::new(at + 9, 8, is_value_ok(row)),
    ])
}

// Whether a row's calculation is one of so many, and is not before that of the last row.
fn is_calc_ok(calcs: u32, last: Option<BlockRow>, row: BlockRow) -> bool
    ensures { result ≡ (nat_lt row.calc calcs && is_calc_in_order last row) }
{
    row.calc < calcs && is_calc_in_order(last, row)
}

// Whether a row's window is one of so many, and the row may come after the last one.
fn is_window_ok(windows: u32, last: Option<BlockRow>, row: BlockRow) -> bool
    ensures { result ≡ (nat_lt row.window windows && is_in_order last row) }
{
    row.window < windows && is_in_order(last, row)
}

// Whether a row may have this kind.
fn is_kind(kind: u8) -> bool
    ensures { result ≡ nat_le kind 3 }
{
    kind <= LAST_KIND
}

// Whether a row may come after the last one, by its calculation.
fn is_calc_in_order(last: Option<BlockRow>, row: BlockRow) -> bool
    ensures { result ≡ is_calc_in_order last row }
{
    match last {
        None => true,
        Some(last) => last.calc <= row.calc,
    }
}

// Whether a row may come after the last one, by its calculation and its window.
fn is_in_order(last: Option<BlockRow>, row: BlockRow) -> bool
    ensures { result ≡ is_in_order last row }
{
    match last {
        None => true,
        Some(last) => last.calc < row.calc || last.calc == row.calc && last.window < row.window,
    }
}

// Whether a row of this kind may have this value.
fn is_value_ok(row: BlockRow) -> bool
    ensures { result ≡ is_value_ok row.kind row.value }
{
    if row.kind == 0 {
        row.value.unsigned_abs() <= MOST_NUMBER
    } else {
        row.value == 0
    }
}
