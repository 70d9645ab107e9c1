//! The report of a session: what the session has made of each tag and of each group, and the replies to its readers.
//!
//! A session ([`Session`]) is all that is left once its workers have ended: the histories of its tags and groups in
//! base order, and the notes of its workers. A session may have the history of the plant's log in place of the tags'
//! archives. This crate makes no report of a log.
//!
//! One definition over whole lists states the report (`specs/Report.antt`). First comes a line of each tag, as it is at
//! the end. Then come the readers in plan order, each with the reply to each of its queries. Last come the lines of
//! each group.
//!
//! * The reply to a query of a tag's archive or of a group's rows is that of the first entry of the unit's tape that
//!   answers this row of this reader. If no entry answers the query, the report prints `none`. A session that is done
//!   has no such query.
//! * The reply about a snapshot is the one in the reader's note, if the tag had it: at its opening, or after a take.
//!   Otherwise it is the snapshot of the tag's end.
//!
//! The code goes over each tape once for the answers. It goes once more over the tape of a tag whose snapshot a reader
//! asks for, for its points. It goes once more over the tape of a group, to count its refreshes. The only error is want
//! of memory.
#![tactic(auto)]

mod answer;
mod asker;
mod group_lines;
mod lines;
mod places;
mod replies;
mod reported;
mod session;
mod snap;
mod tag_lines;

pub use collector_pool::WorkerNote;
pub use group_book::GroupHistory;
pub use lines::report;
pub use session::Session;
pub use tag_base::Base;
pub use tag_cell::TagHistory;
pub use trend_num::WantOfMemory;
pub use value_rows::Query;
