// The cells of a sheet that changed since the last save.
ghost use Rattle.std.specs.Prelude.{◌≡◌, ◌≢◌, ◌⊎◌, ◌+◌, ◌<◌, ◌∷◌, ◌++◌, [], IfOk, IfSome, OnOk, length};
ghost use Rattle.sheet_law.specs.{complete_windows};
ghost use Rattle.calc_refresh.specs.{lists_of};
ghost use Rattle.group_layout.specs.{cell_of};
ghost use Rattle.group_book.specs.Saves.{HasAllChanges, ListedUpTo, ListsChanges, row_of};

use calc_refresh::{Bad, CalcValue, Sheet};
use group_layout::BlockRow;
use std::alloc::{AllocError, Global};

// Returns the rows that list the cells that changed since the last save. These are cells of the windows `unsaved`.
pub(crate) fn changes(
    alloc: Global,
    sheet: &Sheet,
    saved: &[Vec<CalcValue>],
    unsaved: &[u32],
) -> Result<Vec<BlockRow>, AllocError>
    requires { HasAllChanges (lists_of saved.now) sheet.now.rows 0 (complete_windows sheet.now.grid sheet.now.copies) unsaved.now }
    ensures { IfOk result (λ v. ListsChanges (length sheet.now.group.calcs) (complete_windows sheet.now.grid sheet.now.copies)
        (lists_of saved.now) sheet.now.rows v.items) }
{
    let mut rows = Vec::new(alloc);
    let calcs = sheet.rows().len() as u32;
    for calc in 0..calcs {
        add_changes(&mut rows, sheet, saved, calc, unsaved)?;
    }
    Ok(rows)
}

// Adds the rows of one calculation.
fn add_changes(
    rows: &mut Vec<BlockRow>,
    sheet: &Sheet,
    saved: &[Vec<CalcValue>],
    calc: u32,
    unsaved: &[u32],
) -> Result<(), AllocError>
    requires calc { calc < length sheet.now.group.calcs }
    requires unsaved { HasAllChanges (lists_of saved.now) sheet.now.rows 0 (complete_windows sheet.now.grid sheet.now.copies) unsaved.now }
    requires listed { ListedUpTo (lists_of saved.now) sheet.now.rows (length sheet.now.group.calcs) (complete_windows sheet.now.grid sheet.now.copies) calc 0 rows.old.items }
    ensures { OnOk result (ListedUpTo (lists_of saved.now) sheet.now.rows (length sheet.now.group.calcs) (complete_windows sheet.now.grid sheet.now.copies) (calc + 1) 0 rows.new.items) }
{
    for k in unsaved {
        let new = sheet.row(calc, u64::from(*k));
        add_change(rows, calc, *k, new, saved_cell(saved, calc, *k))?;
    }
    Ok(())
}

// Adds the row of one cell, if its value has changed.
fn add_change(
    rows: &mut Vec<BlockRow>,
    calc: u32,
    k: u32,
    new: Option<CalcValue>,
    old: Option<CalcValue>,
) -> Result<(), AllocError>
    ensures { OnOk result (((new ≡ old) × (rows.new.items ≡ rows.old.items))
        ⊎ ((new ≢ old) × IfSome new (λ v. rows.new.items ≡ rows.old.items ++ row_of calc k v ∷ []))) }
{
    if new == old {
        return Ok(());
    }
    if let Some(value) = new {
        rows.push(row_of(calc, k, value))?;
    }
    Ok(())
}

// Returns the saved value of a calculation in a window.
fn saved_cell(saved: &[Vec<CalcValue>], calc: u32, k: u32) -> Option<CalcValue>
    ensures { result ≡ cell_of (lists_of saved.now) calc k }
{
    let row = saved.get(calc as usize)?;
    row.get(k as usize).copied()
}

// Returns the row with this value.
fn row_of(calc: u32, window: u32, value: CalcValue) -> BlockRow
    ensures { result ≡ row_of calc window value }
{
    let (kind, value) = match value {
        CalcValue::Num(n) => (0, n),
        CalcValue::Bad(Bad::NoData) => (1, 0),
        CalcValue::Bad(Bad::DivZero) => (2, 0),
        CalcValue::Bad(Bad::Range) => (3, 0),
    };
    BlockRow {
        calc,
        window,
        kind,
        value,
    }
}
