//! The top call: a command line of the plant, from its words to its exit code.
//!
//! **Layer.** Only the program uses this crate. It hands over the real arguments, input, files, output and devices.
//! This crate reads the words once (`Form`) and calls the command that they ask for. It prints the command's answer,
//! unless the command prints it itself, and returns a status.
//!
//! **Model.** `form_of` reads the words as one of nine forms. A [`World`](specs/Run.antt) is what a command finds
//! outside: what the input still has, what the output got, what is known of files and devices, and how many calls on
//! them have failed.
//!
//! **Promise.** `ComesOf` states for each form what its command did, from the world before and the world now.
//! - `run`, `log` and `drill`: the session (`IsRunSo`, `IsLogHandedOn`, `IsDrillSo`).
//! - All others: what was read and printed in each status, and what a crash at any moment leaves of the devices
//!   (`IsAnswered`).
//!
//! Words that ask for nothing are refused with a status of their own, and nothing but the output changes then.
//! [`run_args`] takes the words from the arguments of the process, and returns the exit code of the status.
#![tactic(auto)]

mod argument;
mod command_line;
mod program;

pub use argument::run_args;
pub use plant_status::{FileId, OpenPasses, Pass, Passes, Reason, Status, What};
pub use program::{Outcome, run};
pub use session_report::Session;
