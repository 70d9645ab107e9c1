//! The commands `log` and `shifts`: from the words of the command line to the printed text.
//!
//! **Layer.** [`log`] and [`shifts`] take a whole command line. Their caller has looked at the verb already. If the
//! words do not fit the command, it refuses them and reads nothing. Otherwise it reads the files that the words name
//! and opens the devices that it needs. Then it prints its text, or one line that states its refusal.
//!
//! **`log BASE PLAN`** puts the rows of a plan's collectors into the one log of a plant. `log_plan` opens the log on
//! its one device. `run_collectors` puts the log under a lock and runs one worker for each collector. A worker takes
//! the rows of its file in order. It asks its pass before each row, and then puts the row. After every 64 rows, and
//! after its last row, it commits until nothing waits. It ends at its first refusal.
//!
//! Once all workers have ended, the command believes only two things of their notes: that a pass stopped a worker, and
//! that a worker found no memory. It compares the log with a copy of its opening, and the log's tape with the rows of
//! the files. It puts the rows that the tape lacks, and commits them. Then it gives the device back. It prints one line
//! for each tag, computed from the values that the log has of it. It opens no tag's device and no group, and reads no
//! reader's file.
//!
//! The model of the run is the list of the workers' notes (`specs/LogNotes.antt`). A note has the worker's number, how
//! many of its rows are done, and how it ended. So the number of stops that the passes count is exactly the number of
//! workers that were halted. Notes do not record what happened to the log under its lock, nor which worker came first:
//! the log's own tape does. `EndsOfLog` states what was read and printed. It also states that the command returns the
//! log's history exactly if collectors were started. If the command has its lines to print, no pass stopped a worker,
//! each worker found memory, the store counted no fault, and no row could bring a tag too many records. After most
//! refusals, the log has of each collector only its first rows, in order, and no other put. Three refusals are
//! exceptions: the opening has changed; a put is not its collector's next row; and want of memory.
//!
//! A device that is not new gains one sync by the opening, and nothing else. So the moment of the opening is the number
//! of the device's calls before, and one more. If the command is refused before collectors were started, that sync is
//! all that such a device gains, unless a call of it failed.
//!
//! **`shifts BASE CALENDAR DAY DAYS`** prints one figure for each shift of a range of days and each tag of a calendar.
//! The figure is the measure of the shift's window over the stored records of the tag, closed by its held point. If the
//! window has no measure, it prints `none`. The command builds the content of a tag once for all windows, and only if
//! the calendar names the tag. It starts no worker and waits for nothing.
//!
//! The command reports its first refusal, in the order base, calendar, tags. No device has changed before a refusal of
//! a tag. `EndsOfShifts` states what was read and printed in each status. `KeepsForShifts` states which images a crash
//! at any moment leaves of each device: one that a crash might have left before, or one that recovers the same state,
//! or that state as it is opened. `KeepsForShifts` covers devices with a known trace of calls, and fewer than 10^18
//! events.
#![tactic(auto)]

mod calendar_file;
mod log_collector;
mod log_command;
mod log_commit;
mod log_endings;
mod log_finding;
mod log_known;
mod log_made;
mod log_note;
mod log_opening;
mod log_pool;
mod log_report;
mod log_session;
mod log_settling;
mod log_worker;
mod logging;
mod plant_text;
mod shift_command;
mod shift_contents;
mod shift_figures;
mod shift_line;
mod shift_tag;
mod shift_value;
mod words;

pub use commit_log::LogHistory;
pub use log_command::{LogOutcome, log};
pub use plant_status::Status;
pub use shift_command::shifts;
