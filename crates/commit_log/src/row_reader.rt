// Reading the rows of a block.
ghost use Rattle.std.specs.Prelude.{◌≡◌, ℕ, ◌+◌, ◌*◌, ◌≤◌, All, Option, IfOk, IsErrOf, OnOk, length, nat_le, unsigned_abs};
ghost use Rattle.trend_num.specs.{largest_value};
ghost use Rattle.archive_file.specs.declared.failure.ScanNo.TheVariants.{Damaged, DeviceFault, WantOfMemory};
ghost use Rattle.archive_file.specs.{BreaksFirst, Keeps, Spells, IsWindow};
ghost use Rattle.commit_log.specs.Blocks.{IsLogRow, row_at, row_fields, row_image, rows_fields};
ghost use Rattle.commit_log.specs.Openings.{AddsRows};

use crate::row::LogRow;
use crate::writer::ROW_LEN;
use archive_file::{Field, Rest, ScanNo, Window};
use trend_num::{MAX_DEV, MAX_T, Point};

// Adds so many rows, whose bytes lie from this place on in a block. Each is of a plant with so many tags.
pub(crate) fn read_rows<C: Rest>(
    block: &Window,
    at: usize,
    count: u32,
    tags: u32,
    rows: &mut Vec<LogRow>,
) -> Result<(), ScanNo>
    requires window { IsWindow C.rest block.now }
    requires asked { at + 32 * count ≤ block.now.asked }
    requires there { at ≤ length C.rest }
    ensures added { OnOk result (AddsRows C.rest tags at count rows.old.items rows.new.items) }
    ensures kept { OnOk result (All (Keeps C.rest) (rows_fields C.rest tags at count)) }
    ensures damaged { (a : ℕ) (byte : Option ℕ) → IsErrOf result (Damaged a byte)
        → BreaksFirst C.rest (rows_fields C.rest tags at count) a byte }
    ensures no_fault { IsErrOf result DeviceFault → ⊥ }
{
    let mut next = at;
    for _ in 0..count {
        let row = read_row::<C>(block, next, tags)?;
        let Ok(()) = rows.push(row) else {
            return Err(ScanNo::WantOfMemory);
        };
        next += ROW_LEN;
    }
    Ok(())
}

// Reads the row at this place.
fn read_row<C: Rest>(block: &Window, at: usize, tags: u32) -> Result<LogRow, ScanNo>
    requires window { IsWindow C.rest block.now }
    requires asked { at + 32 ≤ block.now.asked }
    ensures value { IfOk result (λ r. r ≡ row_at C.rest at) }
    ensures row { IfOk result (IsLogRow tags) }
    ensures spelled { IfOk result (λ r. Spells C.rest at (row_image r) (at + 32)) }
    ensures kept { OnOk result (All (Keeps C.rest) (row_fields tags (row_at C.rest at) at)) }
    ensures damaged { (a : ℕ) (byte : Option ℕ) → IsErrOf result (Damaged a byte)
        → BreaksFirst C.rest (row_fields tags (row_at C.rest at) at) a byte }
    ensures no_fault { IsErrOf result DeviceFault → ⊥ }
{
    let row = row_at::<C>(block, at);
    check_row::<C>(block, at, tags, row)?;
    Ok(row)
}

// Returns the bytes at this place, read as a row.
fn row_at<C: Rest>(block: &Window, at: usize) -> LogRow
    requires window { IsWindow C.rest block.now }
    requires asked { at + 32 ≤ block.now.asked }
    ensures value { result ≡ row_at C.rest at }
    ensures spelled { at + 32 ≤ length C.rest → Spells C.rest at (row_image (row_at C.rest at)) (at + 32) }
{
    LogRow {
        tag: block.short_at::<C>(at),
        collector: block.short_at::<C>(at + 4),
        row: block.long_at::<C>(at + 8),
        point: Point {
            t: block.long_at::<C>(at + 16),
            v: block.long_at::<C>(at + 24).cast_signed(),
        },
    }
}

// Refuses a row at the first of its fields that is not there or breaks its rule.
fn check_row<C: Rest>(block: &Window, at: usize, tags: u32, row: LogRow) -> Result<(), ScanNo>
    requires window { IsWindow C.rest block.now }
    requires asked { at + 32 ≤ block.now.asked }
    ensures kept { OnOk result (All (Keeps C.rest) (row_fields tags row at)) }
    ensures damaged { (a : ℕ) (byte : Option ℕ) → IsErrOf result (Damaged a byte)
        → BreaksFirst C.rest (row_fields tags row at) a byte }
    ensures no_fault { IsErrOf result DeviceFault → ⊥ }
    ensures no_want { IsErrOf result WantOfMemory → ⊥ }
{
    block.check::<C>(&[
        Field::new(at, 4, row.tag < tags),
        Field::new(at + 4, 4, true),
        Field::new(at + 8, 8, true),
        Field::new(at + 16, 8, row.point.t <= MAX_T),
        Field::new(at + 24, 8, is_value_ok(row.point)),
    ])
}

// Whether the value of a point is in range.
fn is_value_ok(p: Point) -> bool
    ensures { result ≡ nat_le (unsigned_abs p.v) largest_value }
{
    p.v.unsigned_abs() <= MAX_DEV
}
