//! Reads of a tag's content: what the tag reads at a time, and its points from one time to another.
//!
//! If the caller gives the tag's held point, it closes the content: it counts as one more point, unless the content has
//! a point at its time. `Reads` in `trend_model` defines what a list of points reads as, for lines and for the stairs
//! of a step tag. Each call here returns what the closed content reads as. Only a list of points and the copy of a
//! reply allocate memory.
#![tactic(auto)]

mod closing;
mod list;
mod query;
mod read;

pub use closing::{Neighbours, neighbours_at};
pub use list::{MOST_LISTED, PointList, points};
pub use query::Reply;
pub use read::{at, at_step, read_at, reading_of};
pub use trend_num::{Reading, TagQuery};
