//! The calculation language: the values of checked formulas.
//!
//! The model is the value of a tree in a window. `sheet_law` defines it over the points of the inputs and the values of
//! earlier calculations. The values of a group are those of its calculations in order, each with the values of the ones
//! before it. `eval` returns the value of one calculation of a checked group. It takes one step and no memory.
#![tactic(auto)]

mod arithmetic;
mod evaluation;
mod law;

pub use calc_check::{CalcDef, CheckNo, Checked, check};
pub use evaluation::eval;
pub use law::{division, one_window_decides, printing_keeps_values, values_are_in_range};
pub use trend_num::{Bad, CalcValue};
