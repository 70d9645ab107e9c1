//! What a group's rows are, and which windows a record can change.
//!
//! The definitions are in `specs/`, over whole lists of records. Read them in this order:
//!
//! * `Number`: the values of the calculation language, and the results of its operations.
//! * `Value`: the value of a formula in a window.
//! * `Windows`: the windows of a grid, and which of them are complete.
//! * `Scratch`: the values of all calculations in all complete windows, from the records alone.
//! * `Touched`: the stretch of a late record, and the windows that records touch when they come one after the other.
//!
//! The law: a window that is not touched keeps every value. It is stated for measures of lines and of stairs, and for
//! the values of calculations. Each law is the contract of a public function without parameters, whose body is empty.
//! Layers above cite the lemmas that prove the laws.
#![tactic(auto)]

mod grid;
mod law;

pub use grid::Grid;
pub use law::{
    formulas_stay, kept_records_touch_no_complete_window, late_records_touch_their_stretch,
    reached_windows_are_complete, untouched_windows_stay,
};
