//! A device that a command took from a store, with what the store had when the command began.
#![tactic(auto)]

mod begun;
mod branded;
mod handing;

pub use begun::{Begun, Untold};
pub use branded::Branded;
pub use handing::{give_back, take};
