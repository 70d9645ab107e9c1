//! The exception test: which raw values of a tag are sent on.
//!
//! A gate keeps two places: the last value sent in order, and the newest value after it that was not sent. This pair is
//! its model. Every offer follows the rules of `offered`. If a gate stands for a history, it stands after the offer for
//! the history with the new value. What the gate then hands on is exactly what the longer history sends in addition. At
//! a retuning `flush` hands on the pending value and empties its place. The gate keeps no tuning; each offer brings
//! one. The gate accepts a value of any time, and takes no memory.
#![tactic(auto)]

mod gate;

pub use gate::{Gate, Sent};
pub use trend_num::{Point, Sending, Tuning};
