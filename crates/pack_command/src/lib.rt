//! The command `pack`, without a runtime, so that it is proved to return.
//!
//! `pack` reads points from a source to its end, and takes them into the core of one tag. It returns the text of the
//! records and the held point of their history. Otherwise it returns the status of what it refuses:
//!
//! - a read that failed,
//! - more bytes or lines than there may be,
//! - the first bad line,
//! - a take that finds no room.
//!
//! Once nothing can be refused any more, the text is printed a piece at a time.
#![tactic(auto)]

mod archive;
mod input;
mod intake;
mod packer;

pub use archive::ArchiveText;
pub use packer::pack;
pub use plant_status::{FileId, Reason, Status, What};
