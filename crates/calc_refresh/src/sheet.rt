// A group's sheet.
ghost use Rattle.std.specs.Prelude.{◌≡◌, ◌↔◌, ◌+◌, ◌*◌, ◌<◌, ◌≤◌, [], List, length, replicate, All, Err, Some, IsSome, IfErr, IfOk, OnErr, OnOk, option_and_then, slice_get, slice_index_or};
ghost use Rattle.sheet_law.specs.{complete_windows, IsScratch};
ghost use Rattle.calc_refresh.specs.declared.refusal.SheetNo.{SheetNo};
ghost use Rattle.calc_refresh.specs.Lists.{lists_of};
ghost use Rattle.calc_refresh.specs.Refreshed.{IsRefreshed, IsRefreshToldOf, evaluated, fault_after, fresh};
ghost use Rattle.calc_refresh.specs.Sheet.{AreRowsWhole, IsCopy, IsGrid, IsGroup, grid_of};

use crate::definition::GroupDefParts;
use crate::limit::{records_after, windows_after, within_limits};
use crate::refresh::bring;
use crate::refusal::SheetNo;
use crate::saved::restored;
use calc_eval::{CalcValue, Checked};
use late_insert::Content;
use sheet_law::Grid;
use std::alloc::Global;
use std::marker::Model;
use std::sync::ledger::Ledger;
use trend_num::{Rec, Steps, WantOfMemory};

/// The calculated rows of a group, and the records of its inputs that they were made of.
#[derive(Drop)]
pub struct Sheet {
    pub(crate) alloc: Global,
    pub(crate) calcs: Checked,
    pub(crate) grid: Grid,
    // The records of each input that were taken into account.
    pub(crate) copies: Vec<Vec<Rec>>,
    // The content that these records give, for each input.
    pub(crate) contents: Vec<Content>,
    // The time after the last Kept record of each input.
    pub(crate) ends: Vec<u64>,
    // The values of each calculation, window by window.
    pub(crate) rows: Vec<Vec<CalcValue>>,
    pub(crate) evals: u64,
    // The windows that the last `apply` evaluated.
    pub(crate) due: Vec<u32>,
}

impl Model for Sheet {
    ghost use Rattle.calc_refresh.specs.Code.{sheet_code};
    ghost use Rattle.calc_refresh.specs.Lists.{lists_of};
    ghost use Rattle.calc_refresh.specs.Sheet.{IsSheet, SheetState};

    ghost Value = { SheetState };

    ghost coded = { sheet_code };

    ghost view = { λ s. record {
      group = s.calcs;
      grid = s.grid;
      copies = lists_of s.copies.items;
      rows = lists_of s.rows.items;
      evals = s.evals;
      due = s.due.items;
    } };

    ghost invariant = { λ s. IsSheet s.calcs s.grid (lists_of s.copies.items) s.contents.items s.ends.items (lists_of s.rows.items) };
}

/// The copies and the rows of a sheet.
#[derive(Drop)]
pub struct SheetParts {
    /// The records of each input that were taken into account, the oldest first.
    pub copies: Vec<Vec<Rec>>,
    /// The values of each calculation in the windows 0, 1 and so on.
    pub rows: Vec<Vec<CalcValue>>,
}

/// Makes the sheet of a group at version 0, with no records and no rows. The only error is want of memory.
pub fn new_sheet(alloc: Global, def: &GroupDefParts) -> Result<Sheet, WantOfMemory>
    requires group { IsGroup def.now.inputs def.now.calcs }
    requires grid { IsGrid (grid_of def.now.start def.now.period) }
    ensures empty { IfOk result (λ s. s ≡ fresh def.now.calcs (grid_of def.now.start def.now.period)
        (replicate def.now.inputs []) (replicate (length def.now.calcs.calcs) [])) }
    ensures scratch { IfOk result (λ s. IsScratch s.group s.grid s.copies s.rows) }
    ensures whole { IfOk result AreRowsWhole }
{
    let copies = empty_copies(alloc, def.inputs as usize)?;
    let rows = empty_rows(alloc, def.calcs.defs().len())?;
    match restored(alloc, def, copies, rows) {
        Ok(sheet) => Ok(sheet),
        Err(_) => Err(WantOfMemory),
    }
}

// Makes so many copies without records.
fn empty_copies(alloc: Global, inputs: usize) -> Result<Vec<Vec<Rec>>, WantOfMemory>
    ensures { IfOk result (λ copies. lists_of copies.items ≡ replicate inputs []) }
{
    let mut copies = Vec::new(alloc);
    for _ in 0..inputs {
        let copy = Vec::new(alloc);
        copies.push(copy)?;
    }
    Ok(copies)
}

// Makes so many rows without values.
fn empty_rows(alloc: Global, calcs: usize) -> Result<Vec<Vec<CalcValue>>, WantOfMemory>
    ensures { IfOk result (λ rows. lists_of rows.items ≡ replicate calcs []) }
{
    let mut rows = Vec::new(alloc);
    for _ in 0..calcs {
        let row = Vec::new(alloc);
        rows.push(row)?;
    }
    Ok(rows)
}

// Returns the value at a place of a row, if there is such a row and such a place.
fn value_at(rows: &[Vec<CalcValue>], calc: usize, k: usize) -> Option<CalcValue>
    ensures { result ≡ option_and_then (λ row. slice_get row k) (slice_get (lists_of rows.now) calc) }
{
    let row = rows.get(calc)?;
    row.get(k).copied()
}

impl Sheet {
    /// Takes more records of each input, and evaluates the windows that are newly complete or touched. Returns
    /// `CellLimit` if the sheet would have more than 1,048,576 cells. Otherwise returns `CopyLimit` if it would have
    /// more than 2,097,152 records. Returns `WantOfMemory` if no memory is found. After an error the sheet is
    /// unchanged.
    pub fn apply<L: Ledger>(
        &mut self,
        deltas: &[Vec<Rec>],
        steps: &mut Steps<L>,
    ) -> Result<(), SheetNo>
        requires inputs { length deltas.now ≡ length self.old.copies }
        requires copied { All IsCopy (lists_of deltas.now) }
        ensures refreshed { OnOk result (IsRefreshed self.old self.new (lists_of deltas.now)) }
        ensures steps { OnOk result (steps.new ≡ steps.old + evaluated self.old (lists_of deltas.now)) }
        ensures unchanged { OnErr result (self.new ≡ self.old) }
        ensures no_steps { OnErr result (steps.new ≡ steps.old) }

        // A limit is reported whether there is memory or not.
        ensures limit { (why : SheetNo) → fault_after self.old (lists_of deltas.now) ≡ Some why → result ≡ Err why }
        ensures fault { IfErr result (IsRefreshToldOf (fault_after self.old (lists_of deltas.now))) }
    {
        let windows = windows_after(self.grid, &self.ends, deltas);
        let calcs = self.rows.len() as u64;
        within_limits(windows * calcs, records_after(&self.copies, deltas))?;
        bring(
            self.alloc,
            &self.calcs,
            self.grid,
            self.copies.as_mut_slice(),
            self.contents.as_mut_slice(),
            self.ends.as_mut_slice(),
            self.rows.as_mut_slice(),
            deltas,
            windows as usize,
            &mut self.due,
            steps,
        )?;
        let due = self.due.len() as u64;
        self.evals = self.evals.saturating_add(due * calcs);
        Ok(())
    }

    /// Returns how many records of an input were taken into account.
    pub fn versions(&self, i: u32) -> u32
        requires { i < length self.now.copies }
        ensures { (d : List Rec) → result ≡ length (slice_index_or self.now.copies i d) }
    {
        self.copies[i as usize].len() as u32
    }

    /// Returns the records of an input that were taken into account, the oldest first.
    pub fn copied(&self, i: u32) -> &[Rec]
        requires { i < length self.now.copies }
        ensures { (d : List Rec) → result.now ≡ slice_index_or self.now.copies i d }
    {
        &self.copies[i as usize]
    }

    /// Returns how many windows are complete.
    pub fn windows(&self) -> u32
        ensures { result ≡ complete_windows self.now.grid self.now.copies }
    {
        self.rows[0].len() as u32
    }

    /// Returns the value of a calculation in a window, or `None` if there is no such calculation or the window is not
    /// complete.
    pub fn row(&self, calc: u32, k: u64) -> Option<CalcValue>
        ensures value { result ≡ option_and_then (λ row. slice_get row k) (slice_get self.now.rows calc) }
        ensures there { IsSome result ↔ ((calc < length self.now.group.calcs) × (k < complete_windows self.now.grid self.now.copies)) }
    {
        value_at(&self.rows, calc as usize, k as usize)
    }

    /// Returns the values of each calculation in the windows 0, 1 and so on.
    pub fn rows(&self) -> &[Vec<CalcValue>]
        ensures rows { lists_of result.now ≡ self.now.rows }
        ensures calcs { length result.now ≡ length self.now.group.calcs }
        ensures few { length result.now ≤ 64 }
    {
        &self.rows
    }

    /// Returns how many values `apply` has evaluated since the sheet was made. The count stays at 2^64 - 1.
    pub fn evals(&self) -> u64
        ensures { result ≡ self.now.evals }
    {
        self.evals
    }

    /// Returns the windows whose values the last `apply` evaluated, in rising order. There are none before the first
    /// one.
    pub fn due(&self) -> &[u32]
        ensures { result.now ≡ self.now.due }
    {
        &self.due
    }

    /// Returns the copies and the rows.
    pub fn into_parts(self) -> SheetParts
        ensures copies { lists_of result.copies.items ≡ self.copies }
        ensures rows { lists_of result.rows.items ≡ self.rows }
    {
        SheetParts {
            copies: self.copies,
            rows: self.rows,
        }
    }
}
