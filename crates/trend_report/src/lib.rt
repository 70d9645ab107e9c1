//! The lines of a report: what a session has made of each tag and each group, and the replies to its readers' queries.
//!
//! `tag_text`, `group_text` and `reply_text` return the text of a tag, a group and a reply. `group_text` has a line for
//! the group and one for each calculation. `check_text` returns the lines of all tags of a plant. The bytes of each
//! text are those of the definition of the same name (`group_line_text` for a group). A fraction on a line between two
//! points is rounded to the nearest whole number. Of two that are equally near the upper one is taken. The only error
//! is want of memory.
//!
//! `drill_rows` returns the points that a drill generates for a tag, which are those of `drill_points`. However many
//! there are, they are in range.
#![tactic(auto)]

mod check_lines;
mod drill;
mod group_line;
mod point_text;
mod reply_line;
mod tag_line;

pub use check_lines::check_text;
pub use drill::drill_rows;
pub use group_line::{GroupLine, LastRow, group_text};
pub use interp_read::{PointList, Reading, Reply};
pub use reply_line::{ReplyText, answer_line, reply_text};
pub use tag_line::{TagLine, line_of, tag_text};
pub use trend_num::{Bad, CalcValue, Frac, Name, Point, Snap, WantOfMemory};
