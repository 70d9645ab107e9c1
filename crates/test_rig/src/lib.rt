//! What tests of sessions share: passes that hold or stop workers, and the board of a single tag.
#![tactic(auto)]

mod gates;
mod lone;
mod shut;

pub use gates::{Gate, Gates, PATIENT, comes};
pub use lone::lone_board;
pub use shut::{Shut, ShutPass};
