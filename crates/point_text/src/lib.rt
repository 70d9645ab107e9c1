//! The lines of `pack`: the points that a text spells, and the text of an archive.
//!
//! The model of reading is `line_points_of`. It reads a whole text of lines `TIME,VALUE`, or finds the first bad line
//! with its first reason, or more lines than there may be. `first_point` reads one line of a text of which more may
//! come.
//!
//! Most lines are plain: `plain_point` reads them in one pass, eight digits at a time (`plain_line`). For any other
//! line `line_reader` finds its end, splits it at its comma, and reads and tests its numerals. Both are proved to read
//! the same. `short_line` returns a short text that reads the same as the front of a line that is too long to have a
//! point.
//!
//! `write_archive` prints records and the held point, a piece of fixed size at a time (`printer`). It takes no memory.
#![tactic(auto)]

mod failure;
mod line_reader;
mod plain_line;
mod printer;

pub use failure::RowNo;
pub use line_reader::{first_point, point_of_line, short_line};
pub use plain_line::{Front, plain_point};
pub use printer::write_archive;
pub use trend_num::{Kind, Point, Reason, Rec, WantOfMemory};
