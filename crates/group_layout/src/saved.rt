// The rows that blocks give.
ghost use Rattle.std.specs.Prelude.{◌≡◌, ℕ, ◌-◌, ◌^◌, ◌<◌, [], Option, Some, None, IfSome, IfNone, IfOk, fold, length, map, min, replicate, slice_index_or};
ghost use Rattle.trend_num.specs.{CalcValue};
ghost use Rattle.group_layout.specs.Blocks.{parts_of};
ghost use Rattle.group_layout.specs.Rows.{AreRowsOf, block_lists_of, rows_of_blocks, saved_value, value_of, with_row};

use crate::block::{Block, BlockRow};
use std::alloc::{AllocError, Global};
use trend_num::{Bad, CalcValue};

// The value of a row.
pub(crate) fn value_of(row: BlockRow) -> CalcValue
    ensures { result ≡ value_of row }
{
    match row.kind {
        0 => CalcValue::Num(row.value),
        1 => CalcValue::Bad(Bad::NoData),
        2 => CalcValue::Bad(Bad::DivZero),
        _ => CalcValue::Bad(Bad::Range),
    }
}

// Puts the value of a row into the cell of its calculation and window, if there is one.
fn put_row(cells: &mut [Vec<Option<CalcValue>>], row: BlockRow)
    ensures { block_lists_of cells.new ≡ with_row (block_lists_of cells.old) row }
{
    let calc = row.calc as usize;
    let k = row.window as usize;
    if calc < cells.len() && k < cells[calc].len() {
        cells[calc][k] = Some(value_of(row));
    }
}

// Puts the values that rows list into the cells of their calculations and windows.
fn put_rows(cells: &mut [Vec<Option<CalcValue>>], rows: &[BlockRow])
    ensures { block_lists_of cells.new ≡ fold with_row (block_lists_of cells.old) rows.now }
{
    for row in rows {
        put_row(cells, *row);
    }
}

// Returns the cells of so many calculations in so many windows, without a value.
fn no_cells(
    alloc: Global,
    calcs: u32,
    windows: u32,
) -> Result<Vec<Vec<Option<CalcValue>>>, AllocError>
    ensures { IfOk result (λ v. block_lists_of v.items ≡ replicate calcs (replicate windows None)) }
{
    let mut cells = Vec::with_capacity(alloc, calcs as usize)?;
    for _ in 0..calcs {
        cells.push_reserved(vec![in alloc; None; windows as usize]?);
    }
    Ok(cells)
}

// Returns what blocks give for each of so many calculations in each of so many windows.
fn cells_of(
    alloc: Global,
    blocks: &[Block],
    calcs: u32,
    windows: u32,
) -> Result<Vec<Vec<Option<CalcValue>>>, AllocError>
    ensures lengths { IfOk result (λ v. map length (block_lists_of v.items) ≡ replicate calcs windows) }
    ensures cells { IfOk result (λ v. (calc k : ℕ) → calc < calcs → k < windows
        → slice_index_or (slice_index_or (block_lists_of v.items) calc []) k None ≡ saved_value (map parts_of blocks.now) calc k) }
{
    let mut cells = no_cells(alloc, calcs, windows)?;
    for block in blocks {
        put_rows(&mut cells, &block.rows);
    }
    Ok(cells)
}

// Returns the values of a row, or `None` if one is missing.
fn whole_row(
    alloc: Global,
    cells: &[Option<CalcValue>],
) -> Result<Option<Vec<CalcValue>>, AllocError>
    ensures whole { IfOk result (λ o. IfSome o (λ v. map Some v.items ≡ cells.now)) }
    ensures missing { IfOk result (λ o. IfNone o ((k : ℕ) × (k < length cells.now) × ((d : Option CalcValue) → slice_index_or cells.now k d ≡ None))) }
{
    let mut row = Vec::with_capacity(alloc, cells.len())?;
    for cell in cells {
        let Some(value) = cell else {
            return Ok(None);
        };
        row.push_reserved(*value);
    }
    Ok(Some(row))
}

// Returns how many rows blocks have, or the greatest u64 if they have more.
fn row_count(blocks: &[Block]) -> u64
    ensures { result ≡ min (length (rows_of_blocks (map parts_of blocks.now))) (2 ^ 64 - 1) }
{
    let mut rows: u64 = 0;
    for block in blocks {
        rows = rows.saturating_add(block.rows.len() as u64);
    }
    rows
}

// Returns the rows that blocks give for so many calculations in so many windows, or `None` if a value is missing.
pub(crate) fn rows_of(
    alloc: Global,
    blocks: &[Block],
    calcs: u32,
    windows: u32,
) -> Result<Option<Vec<Vec<CalcValue>>>, AllocError>
    ensures rows { IfOk result (λ o. IfSome o (λ rows. AreRowsOf calcs windows (map parts_of blocks.now) (block_lists_of rows.items))) }
    ensures missing { IfOk result (λ o. IfNone o ((calc : ℕ) × (k : ℕ) × (calc < calcs) × (k < windows)
        × (saved_value (map parts_of blocks.now) calc k ≡ None))) }
{
    // Counted before any cell is made: a damaged device can name far more windows than it has rows for.
    if row_count(blocks) < u64::from(calcs) * u64::from(windows) {
        return Ok(None);
    }
    let cells = cells_of(alloc, blocks, calcs, windows)?;
    let mut rows = Vec::with_capacity(alloc, cells.len())?;
    for calc_cells in cells {
        let Some(row) = whole_row(alloc, &calc_cells)? else {
            return Ok(None);
        };
        rows.push_reserved(row);
    }
    Ok(Some(rows))
}
