//! Reads the rows of files: raw values of collectors, and queries of readers.
//!
//! The crate `csv` splits a text into records. Its defaults apply, with two exceptions: there is no header row, and
//! records may have any number of fields. So these rules hold:
//! - A field may be in double quotes. Inside them, two double quotes mean one.
//! - A line feed, a carriage return or both end a record. The last record needs no end.
//! - Blank lines are no records.
//! - A byte order mark at the beginning of a text is left out.
//! - Blanks are kept, so `T1, 5` has a field that is no numeral.
//!
//! No row has more than four fields. So before `csv` reads a text, the text is cut where a record's fifth field begins.
//! If that record is reached, it is refused for its fields either way. What follows it is never read. So a record of
//! many fields takes no memory for each of them.
//!
//! [`raw_rows`] reads records `TAG,T,V`. [`query_rows`] reads one query from each record, which begins with its verb.
//! Their models are the definitions of the same names. These return the rows of all records, or one of two refusals:
//! - The first bad record, counted from 1, with its first reason in the order of [`Reason`].
//! - There are more records than allowed, and none of those allowed is bad.
//!
//! The code has one more refusal, want of memory. No contract rules out that a reader over bytes fails. The code
//! reports such a failure as want of memory.
//!
//! Most rows of collectors are plain: a known name, a comma, and a line that [`plain_point`](point_text::plain_point)
//! reads. One pass reads the plain rows that a text begins with. Only what follows them goes through `csv`. No answer
//! depends on where one way ends and the other begins.
#![tactic(auto)]

mod asked;
mod fields;
mod narrow;
mod numbers;
mod places;
mod plain;
mod raw;
mod reading;
mod verb;

pub use asked::{GroupNames, Query, query_rows};
pub use point_text::RowNo;
pub use raw::{RawRow, raw_rows};
pub use trend_num::{Measure, Name, Point, Reason, TagQuery};
