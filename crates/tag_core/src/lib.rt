//! Compression of one tag, by two doors or by steps.
//!
//! A core keeps a tag's records, the last kept point (the hinge) and the gate of the exception test. For a tag of lines
//! it also keeps the two doors at the hinge, which decide in place of all values since. A step tag compares no lines,
//! and both its doors are the held point.
//!
//! The model of a core is the state that `after` changes, the kind of the tag, and how many more records there is
//! memory for. A raw value taken is one event for that state, and so is a retuning. So a core that stands for a history
//! stands for the longer history afterwards. A value costs at most eight comparisons, a retuning at most four.
//!
//! `into_parts` takes a core apart into its records and a summary. `from_parts` copies such parts into a new core, and
//! `from_records` takes them over. Both accept any parts that pass `parts_ok`, and leave the doors as they were. The
//! parts that a core returns pass `parts_ok`, if it has taken fewer than 10^18 events.
//!
//! A core allocates memory only when it is made. It refuses an event only if two more records could be too many.
#![tactic(auto)]

mod compressor;
mod restart;
mod span;
mod tag;

pub use restart::parts_ok;
pub use tag::{Full, TagCore, Took};
pub use trend_num::{Point, Rec, Steps, Summary, Tuning, WantOfMemory};
