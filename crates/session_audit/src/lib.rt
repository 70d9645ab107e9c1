//! What a session does once its workers have ended: it compares the cells and books with the workers' files, and adds
//! what is missing.
//!
//! **Layer.** This crate builds on cells (`tag_cell`), books (`group_book`) and the workers (`collector_pool`);
//! `run_command` uses it. It has the cells and books to itself, and takes no lock. It relies only on what their types
//! guarantee, not on what a worker noted.
//!
//! **Model.** The rows of a worker are an agenda. Each row is due at one tag or group, and leaves one entry on the tape
//! there; only a question for a snapshot is due nowhere. [`Progress`] records, for each tag or group, which rows of one
//! worker were found on its tape, and which row is due next. It has two tables, which are made before the search: one
//! by unit, and one by row. Four traits state what tags and groups have in common:
//!
//! - [`Opened`]: its opening can be compared with a copy.
//! - [`Taped`]: it has a tape.
//! - [`Kind`]: a kind of work (takes, questions about tags, or questions for values of calculations).
//! - `Adding`: a missing row can be added.
//!
//! **Steps**, in the order in which a session makes them:
//!
//! 1. Before the workers begin, [`copies_of`] copies the openings. Once they have ended, [`compare_all`] compares each
//!    opening with its copy.
//! 2. [`collectors_of`], [`readers_of`] and [`row_askers_of`] make the progress of the workers (by [`start`]); no row
//!    is found yet. [`rooms_of`] counts the rows of each tag, and [`turns_of`] the turns of each group.
//! 3. [`find_all_takes`], [`find_all_asks`] and [`find_all_row_asks`] go over each tape once (by [`find`]). They stop
//!    at the first entry that is not its worker's next row there. [`compare_turns`] stops at the first group that was
//!    refreshed more often than the plan says.
//! 4. [`take_missing`], [`ask_missing`] and [`ask_rows_missing`] do what the tapes lack. Then [`commit_cells`] commits
//!    until no value waits.
//! 5. [`refresh_missing`] makes the missing refreshes of each group, then one more and a save.
//! 6. [`compare_pulls`] compares what each group has of its inputs with what it pulled of their tags. After a drill,
//!    [`compare_first_pulls`] compares what each tag had acknowledged at its first pull with its rows of the first phase.
//!
//! **Promise.** What is found is `AreFound`: the entries of each worker on a tape are the first of its rows there, in
//! the file's order, and no other worker has an entry. Each step appends entries of its own kind to the tapes, and
//! removes none. At the end each tape shows exactly the rows of each worker that are due there, in the order of its
//! file. A law ([`what_was_pulled_is_durable`]) says that no crash takes away a record that a group has pulled. Each
//! refusal comes with its cause.
#![tactic(auto)]

mod adding;
mod agenda;
mod asking;
mod book_opening;
mod cell_committing;
mod cell_opening;
mod durable_law;
mod finding;
mod first_pulls;
mod group_pulls;
mod group_refreshing;
mod group_turns;
mod kind;
mod opening;
mod progress;
mod starting;
mod taking;
mod walk;

pub use agenda::{Agenda, Item, Rows, number_in};
pub use asking::{ask_missing, ask_rows_missing};
pub use book_opening::KeptGroup;
pub use cell_committing::commit_cells;
pub use cell_opening::{Kept, compare_records};
pub use durable_law::{all_records_are_durable, what_was_pulled_is_durable};
pub use finding::{find_all_asks, find_all_row_asks, find_all_takes};
pub use first_pulls::compare_first_pulls;
pub use group_pulls::compare_pulls;
pub use group_refreshing::refresh_missing;
pub use group_turns::{compare_turns, turns_of};
pub use kind::{Asks, Kind, RowAsks, Shown, Takes, Taped};
pub use opening::{Difference, Opened, compare_all, copies_of};
pub use plant_status::{Seen, Status};
pub use progress::Progress;
pub use starting::{collectors_of, readers_of, rooms_of, row_askers_of, start};
pub use taking::take_missing;
pub use trend_num::WantOfMemory;
pub use walk::{Differs, find};
