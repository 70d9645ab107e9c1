//! The commands over stored archives: `check`, `trend` and `frames`. They open the devices and return a text. They store
//! no value and save no row; but opening makes a missing device, and retunes a tag.
//!
//! **Layer.** The crate uses the files of a plant (`plant_files`), its devices (`plant_store`), reads, frames and the
//! lines of a report. The top call uses the crate, and prints. The commands start no worker, and wait for nothing.
//!
//! **`check`** reads the base of a plant. It opens the tags over a store of devices, one after the other, and returns a
//! line for each ([`check`]).
//!
//! **`trend`** reads a plan and the files of its readers too. It opens the tags, and then the groups over their
//! devices. It refreshes each group once from all records of its tags ([`trend`]). The answer to each query is one line
//! ([`trend_text`]):
//! - A query of a tag reads the tag's content: its records, closed by its held point. It reads the line or, of a step
//!   tag, the stair.
//! - A query of a group reads the rows that the group's history ends with. For a window that has no value there it
//!   prints `none`.
//!
//! Readers are answered in their order, and so are the queries of each. Both are numbered from 1. All memory for the
//! contents is taken before the first answer.
//!
//! **`frames`** finds a group and a calculation by their names. It opens the tags, and then that one group over its
//! device ([`frames`]). One refresh, as in `trend`, brings what was saved there up to all records of its tags. The model
//! is two rows of the calculation: the one for which the device stood, and the one after the refresh. The text first
//! lists what became of the frames of the first row, and then the frames of the second.
//!
//! **Promise.** `IsChecked`, `IsTrend` and `IsFrames` state what the text is, from the files and devices alone. The
//! refusal is the first in this order: base, plan, readers' files (or names), tags, groups. A refusal before the tags
//! changes no device. A crash at any moment leaves of each device one of these:
//! - what a crash before the command might have left;
//! - what recovers the same, or stands for the same;
//! - what recovers the tag as it is opened.
//!
//! For a tag, the promise about crashes is for fewer than 10^18 events.
//!
//! A group's device that has a finished layout of its group, or a damaged one, gains one sync and nothing else. So it does
//! not grow with each question. This holds if `trend` or `frames` returns a text, or if a group has too many cells or
//! records. It also holds if `frames` refuses what the device has saved.
#![tactic(auto)]

mod frame_command;
mod frame_lines;
mod frame_names;
mod frame_refreshing;
mod frame_row;
mod frame_telling;
mod groups;
mod query_answer;
mod replies;
mod tag_contents;
mod tag_lines;
mod trend_lines;

pub use frame_command::frames;
pub use group_book::GroupHistory;
pub use plant_status::Status;
pub use replies::trend;
pub use tag_core::TagCore;
pub use tag_lines::check;
pub use trend_lines::trend_text;
pub use trend_num::WantOfMemory;
pub use value_rows::Query;
