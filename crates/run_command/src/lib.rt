//! The commands `run` and `drill`: a session of a plant, from its files to its report.
//!
//! **Layer.** This crate builds on the devices of a base (`plant_store`), the workers (`collector_pool`), the checks
//! after the workers (`session_audit`) and the report (`session_report`). Only the top call uses it.
//!
//! **A session** has one phase or more:
//!
//! 1. [`run_plan`] reads a base and a plan, and makes the work of the workers from them (`work`).
//! 2. The session opens the devices of the base's tags and groups (`opening`).
//! 3. In a phase (`phase`) collectors, readers and refreshers work at the same time.
//! 4. Once they have ended, the session settles (`settle`). It compares the cells and books with their openings,
//!    compares their tapes with the rows of the files, and does what the tapes lack.
//! 5. The session gives the devices back, and makes the report from the histories (`close`). Before it reports a refusal that
//!    is no mismatch and not want of memory, it compares what each group has with the records of its tags (`copies`).
//!
//! Of a worker's notes only three facts count: that its pass stopped it, that it found no memory, and which snapshot it
//! was shown.
//!
//! **A drill** is a session of two phases over new devices in memory. [`drill`] generates its plant (`drill_plant`):
//! some tags, one group over all of them, and the rows of one collector for each tag. In the first phase the collectors
//! take the first half of their rows, and in the second the rest, over the same cells and the same book. At the end of
//! each phase the session commits all values and refreshes the group once. At last it compares what each tag had
//! acknowledged when the group first pulled from it with its rows in the first phase. The same numbers make the same
//! plant and the same report each time.
//!
//! **Promise.** `IsPromised` says what a user may rely on, and why a session has no report (`IsSessionCause`). `IsUnheld`
//! says why no session was held, and `IsDrilled` what a drill promises. Any call may report want of memory.
#![tactic(auto)]

mod close;
mod copies;
mod drill_command;
mod drill_phases;
mod drill_plant;
mod groups;
mod opening;
mod phase;
mod run;
mod settle;
mod work;

pub use drill_command::drill;
pub use plant_status::Status;
pub use run::{Ran, run_plan};
pub use session_report::Session;
