//! The calculation language: the check of the names in a group's formulas.
//!
//! The model is a group: the names of its inputs, and its calculations in order. A calculation is a name and the tree
//! of its formula. `check` accepts calculations in which every name stands for an input or an earlier calculation.
//! Otherwise it reports the first name that does not: the leftmost one of the first calculation that has such a name.
//! The check knows no values, contents or windows. Only the copies take memory.
#![tactic(auto)]

mod checked;
mod definition;
mod naming;
mod refusal;
mod tree;

pub use checked::{Checked, check};
pub use definition::CalcDef;
pub use naming::{calc_place, input_place};
pub use refusal::CheckNo;
pub use trend_num::{Name, WantOfMemory};
