//! The content of an archive's records: what they read as, one point for each time.
//!
//! A content is modelled as three things: a list of records, the room for more points, and how many of the records are
//! on each page. The list rises in time. At each time it has the last Late record, if there is one, else the last Kept
//! one. `trend_model` defines this list, and a law there says that it reads as the records do. The contract of each
//! call says what it finds in the list, or how it changes the list. A put takes room only for a new time. `page`
//! returns the totals of the page that has a place, and `runs` returns all points of a range in order.
//!
//! A page has up to 128 records, as many as a frame has room for (`specs/PageLengths.antt`). A record after all others
//! goes on the last page, or on a fresh page if the last one is full. So records in order fill page after page. Any
//! other record goes on the page of its place. If that page is full, it is first split into two halves.
//!
//! No contract says how a content is kept. Each page is a frame of a pool. A put tries the last page first: a record
//! after all others moves nothing there. Any other put moves the records of one page, and the places of the pages after
//! it: four bytes a page. A split also moves their numbers: four more bytes a page. A run of records after all others is
//! written into a fresh page at once. The list of pages keeps the place and the time of each page's first record, so a
//! look-up is a search in it. It also keeps a summary of each page's points: their ends, the areas under their line and
//! under their stair, the least value and the greatest. A run that is a whole page answers with this summary, so a walk
//! over many pages reads the list and not the frames. Blocks of 64 pages have summaries too, and a run may be a whole
//! block. A page that is put among the others drops the summaries of its block and of the later ones. Each put of a
//! page, and each put among the others, sums one more block.
#![tactic(auto)]

mod array;
mod content;
mod directory;
mod gap;
mod mark;
mod page;
mod shelf;
mod total;
mod walk;

pub use content::{Content, PageTotals};
pub use gap::Around;
pub use total::piece;
pub use trend_num::{Kind, Point, Rec, WantOfMemory};
pub use walk::{Run, Runs};
