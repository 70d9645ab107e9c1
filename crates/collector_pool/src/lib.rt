//! The workers of a session: collectors, readers and refreshers, all running at the same time.
//!
//! `run_session` runs one worker for each collector, each reader and each refresher, and returns once all of them have
//! ended. A worker asks its pass before each step, and ends at its first refusal. A collector takes its rows in order,
//! and commits after every 64 rows and after its last one. A reader answers its queries in order. It reads a snapshot
//! from the board, without the tag's lock. A refresher makes its turns, through the trait `GroupTurns`.
//!
//! The model of a session is the list of its notes (`specs/Notes.antt`). Each note has a number of steps, the snapshots
//! that a reader saw, and how the worker ended. If that is `Ended`, the number is that of all its work. Any other ending
//! is what its pass, or the call of its next step, answered. So the number of stops that the passes count rises by
//! exactly the number of halted workers. No clause says that a worker made the steps that its note counts, nor what
//! happened to a tag or a group under its lock, nor which worker came first. The tapes of tags and groups show all that.
#![tactic(auto)]

mod collector;
mod group_turns;
mod note;
mod reader;
mod refresher;
mod session;
mod session_worker;
mod work;

pub use group_turns::{GroupTurns, TurnNo};
pub use note::{CellNo, Ending, WorkerNote};
pub use session::run_session;
pub use snapshot_table::{Board, Looker};
pub use tag_cell::Cell;
pub use trend_num::{CalcValue, Point, Snap, TagQuery, WantOfMemory};
pub use value_rows::{Query, RawRow};
pub use work::{Refresh, Work};
