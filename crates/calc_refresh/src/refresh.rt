// A sheet with more records, once there is memory for all of them.
ghost use Rattle.std.specs.Prelude.{◌≡◌, ◌+◌, ◌*◌, ◌^◌, ◌<◌, ◌≤◌, length, All, replicate, OnErr, OnOk, vec_capacity};
ghost use Rattle.sheet_law.specs.{complete_windows, longer};
ghost use Rattle.calc_refresh.specs.Lists.{lists_of};
ghost use Rattle.calc_refresh.specs.Sheet.{IsCopy, IsSheet};
ghost use Rattle.calc_refresh.specs.Refreshed.{HasRoomForRecords, IsSheetAfter};

use crate::evaluation::{evaluate, lengthen};
use crate::mark::{list_marked, mark};
use crate::room::make_room;
use crate::taking::take_all;
use crate::window::Span;
use calc_eval::{CalcValue, Checked};
use late_insert::Content;
use sheet_law::Grid;
use std::alloc::{AllocError, Global};
use std::sync::ledger::Ledger;
use trend_num::{Rec, Steps};

// Takes more records, and lists and evaluates the windows that they make due. `marks` has a place for each window that
// is then complete, and no window is marked yet.
pub(crate) fn refreshed<L: Ledger>(
    calcs: &Checked,
    grid: Grid,
    copies: &mut [Vec<Rec>],
    contents: &mut [Content],
    ends: &mut [u64],
    rows: &mut [Vec<CalcValue>],
    deltas: &[Vec<Rec>],
    marks: &mut [u32],
    due: &mut Vec<u32>,
    steps: &mut Steps<L>,
)
    requires sheet { IsSheet calcs.now grid (lists_of copies.old) contents.old ends.old (lists_of rows.old) }
    requires inputs { length deltas.now ≡ length copies.old }
    requires copied { All IsCopy (lists_of deltas.now) }
    requires short { All IsCopy (longer (lists_of copies.old) (lists_of deltas.now)) }
    requires room { HasRoomForRecords copies.old contents.old rows.old deltas.now (length marks.old) }
    requires windows { length marks.old ≡ complete_windows grid (longer (lists_of copies.old) (lists_of deltas.now)) }
    requires unmarked { marks.old ≡ replicate (length marks.old) 0 }
    requires few { length marks.old < 2 ^ 32 }
    requires listable { length marks.old ≤ vec_capacity due.old }
    ensures sheet { IsSheet calcs.now grid (lists_of copies.new) contents.new ends.new (lists_of rows.new) }
    ensures after { IsSheetAfter calcs.now grid (lists_of copies.old) (lists_of rows.old) (lists_of copies.new) (lists_of rows.new) (lists_of deltas.now) due.new.items }
    ensures steps { steps.new ≡ steps.old + length due.new.items * length calcs.now.calcs }
{
    let known = rows[0].len();
    take_all(grid, copies, contents, ends, deltas, marks);
    let windows = marks.len();
    mark(
        marks,
        Span {
            first: known as u64,
            behind: windows as u64,
        },
    );
    lengthen(rows, windows);
    list_marked(marks, due);
    evaluate(calcs, grid, contents, rows, due, steps);
}

// Takes more records, with which so many windows are complete, and lists and evaluates the windows that they make due.
// It takes all memory before it changes anything.
pub(crate) fn bring<L: Ledger>(
    alloc: Global,
    calcs: &Checked,
    grid: Grid,
    copies: &mut [Vec<Rec>],
    contents: &mut [Content],
    ends: &mut [u64],
    rows: &mut [Vec<CalcValue>],
    deltas: &[Vec<Rec>],
    windows: usize,
    due: &mut Vec<u32>,
    steps: &mut Steps<L>,
) -> Result<(), AllocError>
    requires sheet { IsSheet calcs.now grid (lists_of copies.old) contents.old ends.old (lists_of rows.old) }
    requires inputs { length deltas.now ≡ length copies.old }
    requires copied { All IsCopy (lists_of deltas.now) }
    requires short { All IsCopy (longer (lists_of copies.old) (lists_of deltas.now)) }
    requires windows { windows ≡ complete_windows grid (longer (lists_of copies.old) (lists_of deltas.now)) }
    requires few { windows < 2 ^ 32 }
    ensures sheet { IsSheet calcs.now grid (lists_of copies.new) contents.new ends.new (lists_of rows.new) }
    ensures after { OnOk result (IsSheetAfter calcs.now grid (lists_of copies.old) (lists_of rows.old) (lists_of copies.new) (lists_of rows.new) (lists_of deltas.now) due.new.items) }
    ensures steps { OnOk result (steps.new ≡ steps.old + length due.new.items * length calcs.now.calcs) }
    ensures same_copies { OnErr result (lists_of copies.new ≡ lists_of copies.old) }
    ensures same_rows { OnErr result (lists_of rows.new ≡ lists_of rows.old) }
    ensures same_due { OnErr result (due.new.items ≡ due.old.items) }
    ensures no_steps { OnErr result (steps.new ≡ steps.old) }
{
    let mut marks = vec![in alloc; 0u32; windows]?;
    make_room(alloc, copies, contents, rows, deltas, windows)?;
    due.reserve(windows.saturating_sub(due.len()))?;
    refreshed(
        calcs,
        grid,
        copies,
        contents,
        ends,
        rows,
        deltas,
        marks.as_mut_slice(),
        due,
        steps,
    );
    Ok(())
}
