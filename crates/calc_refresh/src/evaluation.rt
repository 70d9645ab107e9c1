// Rows: making them longer, and evaluating windows.
ghost use Rattle.std.specs.Prelude.{◌≡◌, ◌≢◌, ℕ, ◌+◌, ◌*◌, ◌<◌, ◌≤◌, length, map, All, Contains, Some, vec_len, vec_capacity};
ghost use Rattle.trend_num.specs.{last_time};
ghost use Rattle.sheet_law.specs.{points_in, values, window_from, window_to, column};
ghost use Rattle.calc_refresh.specs.Lists.{lists_of};
ghost use Rattle.calc_refresh.specs.Sheet.{IsGrid};

use calc_eval::{CalcValue, Checked, eval};
use late_insert::Content;
use sheet_law::Grid;
use std::sync::ledger::Ledger;
use trend_num::Steps;

// Makes each row `windows` values long. The values that it adds are 0.
pub(crate) fn lengthen(rows: &mut [Vec<CalcValue>], windows: usize)
    requires { All (λ row. windows ≤ vec_capacity row) rows.old }
    ensures windows { All (λ row. vec_len row ≡ windows) rows.new }
    ensures columns { (k : ℕ) → All (λ row. k < vec_len row) rows.old → k < windows
        → column k (lists_of rows.new) ≡ column k (lists_of rows.old) }
{
    for i in 0..rows.len() {
        let _ = rows[i].resize(windows, CalcValue::Num(0));
    }
}

// Evaluates all calculations in the window from one time to another, each with the values of the ones before it. Writes
// their values into the rows at place `k`.
fn evaluate_window<L: Ledger>(
    calcs: &Checked,
    contents: &[Content],
    from: u64,
    to: u64,
    rows: &mut [Vec<CalcValue>],
    k: usize,
    steps: &mut Steps<L>,
)
    requires inputs { length contents.now ≡ length calcs.now.inputs }
    requires rises { from < to }
    requires times { to ≤ last_time }
    requires calcs { length rows.old ≡ length calcs.now.calcs }
    requires few { length rows.old ≤ 64 }
    requires within { All (λ row. k < vec_len row) rows.old }
    ensures values { column k (lists_of rows.new) ≡ map Some (values calcs.now (points_in contents.now) from to) }
    ensures others { (j : ℕ) → j ≢ k → column j (lists_of rows.new) ≡ column j (lists_of rows.old) }
    ensures lengths { map (λ row. vec_len row) rows.new ≡ map (λ row. vec_len row) rows.old }
    ensures steps { steps.new ≡ steps.old + length rows.old }
{
    let mut lower = [CalcValue::Num(0); 64];
    for i in 0..rows.len() {
        let value = eval(calcs, i as u32, from, to, contents, &lower[..i], steps);
        lower[i] = value;
        let row = &mut rows[i];
        row[k] = value;
    }
}

// Evaluates the windows of a list.
pub(crate) fn evaluate<L: Ledger>(
    calcs: &Checked,
    grid: Grid,
    contents: &[Content],
    rows: &mut [Vec<CalcValue>],
    due: &[u32],
    steps: &mut Steps<L>,
)
    requires grid { IsGrid grid }
    requires complete { All (λ k. window_to grid k ≤ last_time) due.now }
    requires inputs { length contents.now ≡ length calcs.now.inputs }
    requires calcs { length rows.old ≡ length calcs.now.calcs }
    requires few { length rows.old ≤ 64 }
    requires within { All (λ k. All (λ row. k < vec_len row) rows.old) due.now }
    ensures values { (k : ℕ) → Contains due.now k
        → column k (lists_of rows.new)
        ≡ map Some (values calcs.now (points_in contents.now) (window_from grid k) (window_to grid k)) }
    ensures others { (k : ℕ) → (Contains due.now k → ⊥) → column k (lists_of rows.new) ≡ column k (lists_of rows.old) }
    ensures lengths { map (λ row. vec_len row) rows.new ≡ map (λ row. vec_len row) rows.old }
    ensures steps { steps.new ≡ steps.old + length due.now * length rows.old }
{
    for k in due {
        let k = *k as usize;
        let from = grid.start + k as u64 * grid.period;
        let to = grid.start + (k as u64 + 1) * grid.period;
        evaluate_window(calcs, contents, from, to, rows, k, steps);
    }
}
