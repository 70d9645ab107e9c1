//! The answers of the top call, their exit codes, and the line that each prints.
//!
//! A run ends in one `Status`. `code` returns its exit code. `line` returns the line that tells a person what was
//! wrong: which row of which file, which file could not be read, or what is over its limit. A run that ended well
//! prints no line, and neither does one that could not write. A line lies in an array of its own, so the program can
//! print it when there is no memory. Nothing here takes memory, and every status has its code and its line.
//!
//! If two accounts of a session differ, the status carries both values and the `Place` at which they differ. A worker
//! asks its `Pass` whether it may continue; `Passes` has a pass for each worker. `OpenPasses` never stop a worker. Once
//! all workers have ended, `gather` gives their passes back and keeps their notes.
#![tactic(auto)]

mod fault_line;
mod file;
mod mismatch;
mod pass;
mod status;
mod unit;
mod word;
mod worker;

pub use fault_line::Line;
pub use file::FileId;
pub use mismatch::{Place, Seen};
pub use pass::{OpenPass, OpenPasses, Pass, Passes};
pub use status::{Status, code, line};
pub use trend_num::{Point, Reason, Summary, TagDef, TagQuery, What};
pub use unit::Unit;
pub use worker::{Worker, gather};
