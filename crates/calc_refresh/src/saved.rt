// A sheet from copies and rows that were saved.
ghost use Rattle.std.specs.Prelude.{◌≡◌, ◌^◌, ◌<◌, ◌≤◌, length, map, All, Err, Some, None, IfErr, IfOk, vec_len};
ghost use Rattle.trend_model.specs.{listed};
ghost use Rattle.sheet_law.specs.{complete_windows, kept_end};
ghost use Rattle.calc_refresh.specs.declared.refusal.SheetNo.{SheetNo};
ghost use Rattle.calc_refresh.specs.Lists.{lists_of};
ghost use Rattle.calc_refresh.specs.Refreshed.{IsRefreshToldOf, fresh, shape_fault};
ghost use Rattle.calc_refresh.specs.Sheet.{AreRowsWhole, IsCopy, IsGrid, IsGroup, grid_of};

use crate::definition::GroupDefParts;
use crate::limit::kept_end_after;
use crate::refusal::SheetNo;
use crate::room::roomy;
use crate::sheet::Sheet;
use crate::window::windows_before;
use calc_eval::CalcValue;
use late_insert::Content;
use sheet_law::Grid;
use std::alloc::{AllocError, Global};
use trend_num::Rec;

/// Makes the sheet of a group with copies and rows as they were saved. Returns `Shape` if a row does not have exactly
/// one value for each complete window of the copies; it gives the length of the first such row. Otherwise returns
/// `WantOfMemory` if no memory is found. The values themselves are taken as they are.
pub fn from_saved(
    alloc: Global,
    def: &GroupDefParts,
    copies: Vec<Vec<Rec>>,
    rows: Vec<Vec<CalcValue>>,
) -> Result<Sheet, SheetNo>
    requires group { IsGroup def.now.inputs def.now.calcs }
    requires grid { IsGrid (grid_of def.now.start def.now.period) }
    requires inputs { vec_len copies ≡ def.now.inputs }
    requires calcs { vec_len rows ≡ length def.now.calcs.calcs }
    requires copied { All IsCopy (lists_of copies.items) }
    requires short { All (λ row. vec_len row < 2 ^ 32) rows.items }
    ensures saved { IfOk result (λ s. s ≡ fresh def.now.calcs (grid_of def.now.start def.now.period)
        (lists_of copies.items) (lists_of rows.items)) }
    ensures whole { IfOk result AreRowsWhole }

    // A row of another length is reported whether there is memory or not.
    ensures shape { let grid = grid_of def.now.start def.now.period in (why : SheetNo)
        → shape_fault (complete_windows grid (lists_of copies.items)) (lists_of rows.items) ≡ Some why → result ≡ Err why }
    ensures fault { let grid = grid_of def.now.start def.now.period in
        IfErr result (IsRefreshToldOf (shape_fault (complete_windows grid (lists_of copies.items)) (lists_of rows.items))) }
{
    match shape_fault(windows_of(def.grid(), &copies), &rows) {
        Some(fault) => Err(fault),
        None => match restored(alloc, def, copies, rows) {
            Ok(sheet) => Ok(sheet),
            Err(_) => Err(SheetNo::WantOfMemory),
        },
    }
}

// Makes the sheet of copies and rows that fit together.
pub(crate) fn restored(
    alloc: Global,
    def: &GroupDefParts,
    copies: Vec<Vec<Rec>>,
    rows: Vec<Vec<CalcValue>>,
) -> Result<Sheet, AllocError>
    requires group { IsGroup def.now.inputs def.now.calcs }
    requires grid { IsGrid (grid_of def.now.start def.now.period) }
    requires inputs { length (lists_of copies.items) ≡ def.now.inputs }
    requires calcs { length (lists_of rows.items) ≡ length def.now.calcs.calcs }
    requires copied { All IsCopy (lists_of copies.items) }
    requires shape { let grid = grid_of def.now.start def.now.period in
        All (λ row. length row ≡ complete_windows grid (lists_of copies.items)) (lists_of rows.items) }
    requires few { complete_windows (grid_of def.now.start def.now.period) (lists_of copies.items) < 2 ^ 32 }
    ensures restored { IfOk result (λ s. s ≡ fresh def.now.calcs (grid_of def.now.start def.now.period)
        (lists_of copies.items) (lists_of rows.items)) }
    ensures whole { IfOk result AreRowsWhole }
{
    let contents = contents_of(alloc, &copies)?;
    let ends = ends_of(alloc, &copies)?;
    match def.calcs.copy() {
        Err(_) => Err(AllocError),
        Ok(calcs) => Ok(Sheet {
            alloc,
            calcs,
            grid: def.grid(),
            copies,
            contents,
            ends,
            rows,
            evals: 0,
            due: Vec::new(alloc),
        }),
    }
}

// Returns how many windows of these records are complete.
fn windows_of(grid: Grid, copies: &[Vec<Rec>]) -> u64
    requires grid { IsGrid grid }
    requires some { 1 ≤ length copies.now }
    requires copied { All IsCopy (lists_of copies.now) }
    ensures { result ≡ complete_windows grid (lists_of copies.now) }
{
    let mut least = windows_before(grid, kept_end_after(0, &copies[0]));
    for i in 1..copies.len() {
        least = least.min(windows_before(grid, kept_end_after(0, &copies[i])));
    }
    least
}

// Returns the fault of the first row that has not `windows` values, if there is one.
fn shape_fault(windows: u64, rows: &[Vec<CalcValue>]) -> Option<SheetNo>
    ensures { result ≡ shape_fault windows (lists_of rows.now) }
{
    for row in rows {
        if row.len() as u64 != windows {
            return Some(SheetNo::Shape {
                windows,
                rows: row.len() as u64,
            });
        }
    }
    None
}

// Makes the contents of the copies, each with room to grow.
fn contents_of(alloc: Global, copies: &[Vec<Rec>]) -> Result<Vec<Content>, AllocError>
    requires { All IsCopy (lists_of copies.now) }
    ensures { IfOk result (λ v. map (λ c. c.records) v.items ≡ map listed (lists_of copies.now)) }
{
    let mut contents = Vec::with_capacity(alloc, copies.len())?;
    for copy in copies {
        let content = roomy(alloc, copy, 0)?;
        contents.push_reserved(content);
    }
    Ok(contents)
}

// Returns the time after the last Kept record of each copy.
fn ends_of(alloc: Global, copies: &[Vec<Rec>]) -> Result<Vec<u64>, AllocError>
    requires { All IsCopy (lists_of copies.now) }
    ensures { IfOk result (λ v. v.items ≡ map kept_end (lists_of copies.now)) }
{
    let mut ends = Vec::with_capacity(alloc, copies.len())?;
    for copy in copies {
        ends.push_reserved(kept_end_after(0, copy));
    }
    Ok(ends)
}
