//! The files of a plant, read by their names; and the two ends of a command: the numbers among its words, and what it
//! prints.
//!
//! **Layer.** It uses the texts of a base, a plan and rows (`tag_base`, `value_rows`), and each command uses it. It
//! opens no device.
//!
//! **Model.** A proof knows one of three things of a file (`FileTold`): nothing, that it is missing, or its bytes.
//! `IsReadWhole` says that these are its bytes, within the limit. [`base_of`], [`plan_of`], [`rows_of`] and
//! [`queries_of`] return what the bytes spell. The last two return one list for each file, in plan order.
//! [`read_session`] returns all four. [`read_collected`] returns all but the queries, for a command whose readers do
//! not ask.
//!
//! **Promise.** What is returned is what the files hold, whole and in form. Otherwise the first cause is returned as a
//! [`Status`], in the order of base, plan, collectors, readers, number of rows:
//!
//! - `ReadFault` names the file.
//! - `BadText` and `BadRow` name the file, and the first place or row at which it breaks a rule.
//! - `Limit` names the quantity that is over its limit, and no file.
//!
//! Want of memory may come at any time. No other status comes. The files stay as they are. If a read failed, one fault
//! is counted, and it is known of which file (`IsFaultOfPlanned`).
//!
//! [`number_upto`] and [`count_upto`] read a word as a number within a limit. [`finish`] prints the text that a command
//! answers. If the command refuses, [`finish`] prints the one line of the refusal, by [`refuse`]. It returns the status
//! of the whole. `IsPrintedSo` and `IsTold` say what the output gained then. `PrintsSo` says the same of a whole
//! command, whose texts and refusals are known.
#![tactic(auto)]

mod answer_text;
mod base_file;
mod names;
mod number_word;
mod plan_file;
mod plan_rows;
mod queries;
mod row_file;
mod row_files;
mod rows;
mod text;
mod whole;

pub use answer_text::{finish, printed, refuse};
pub use base_file::base_of;
pub use byte_io::Files;
pub use number_word::{count_upto, number_upto};
pub use plan_file::plan_of;
pub use plan_rows::{CollectedFiles, SessionFiles, read_collected, read_session};
pub use plant_status::{FileId, Status, What};
pub use queries::queries_of;
pub use rows::{check_row_count, rows_of};
pub use tag_base::{Base, Plan};
pub use value_rows::{Query, RawRow};
