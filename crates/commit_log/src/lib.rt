//! The log of a plant: the raw values of all its tags, in one order, on one device.
//!
//! The device begins with the plant's text, which is the names of its tags. Blocks follow, one for each commit, each
//! after its gate. A block has the number of its first row, and some rows.
//!
//! An image stands for rows (`specs/Images.antt`). A new device stands for none. An image of the plant's log that
//! breaks no rule stands for the rows that its blocks list, in order. A damaged device breaks the format at the first
//! field that does not keep its rule. The specs define this over the list of its fields (`archive_file`).
//!
//! A log is modelled by its opening and its tape. The opening is the rows that the device had when it was opened. Each
//! put leaves its row on the tape, and each commit leaves how many rows are acknowledged from then on. Behind a lock
//! only the type of a log is known, so the type itself keeps these two promises:
//!
//! - The history is legal (`specs/Histories.antt`).
//! - A crash at any moment since the opening leaves an image that stands for the opening followed by the oldest puts.
//!   All rows that were acknowledged by that moment are among them.
//!
//! So after a crash each tag keeps the first of its own values, and all acknowledged ones among them
//! ([`each_tag_keeps_a_prefix`]).
//!
//! [`open_log`] syncs a device, and then reads it, or begins it if it is new. A device that is not new gains that sync
//! alone. Its blocks are read one after the other: at no time are the bytes of more than one block in memory.
//! [`Log::put`] appends one row and takes no memory. [`Log::commit`] writes the oldest rows that wait as one block, after
//! a closed gate, and then opens the gate. If a call of the device fails in a commit, the log is broken.
//! [`Log::into_history`] returns all that the type keeps.
#![tactic(auto)]

mod block_reader;
mod commit;
mod difference;
mod history;
mod law;
mod layout_reader;
mod log;
mod opening;
mod put;
mod refusal;
mod row;
mod row_reader;
mod writer;

pub use history::{LogAcked, LogHistory, LogTurn};
pub use law::each_tag_keeps_a_prefix;
pub use log::Log;
pub use opening::open_log;
pub use refusal::{LogCommitNo, LogFail, LogNo, PutRowNo};
pub use row::LogRow;
pub use trend_num::Point;
