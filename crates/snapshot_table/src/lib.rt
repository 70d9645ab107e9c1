//! The board of snapshots: what each tag shows of itself, read without the tag's lock.
//!
//! A board has one cell for each tag. A cell holds the tag's last snapshot in four words, which each step reads or
//! writes as a whole. Only the poster of a tag writes its cell, and no snapshot that it posts counts fewer events than
//! the one before. A looker reads every cell. The snapshots that it sees of a tag never count fewer events than the
//! last one that it saw.
//!
//! The model of a board is the list of its cells' names, so an equation says whether a poster or a looker is one of
//! this board. The model of a poster is its tag, its cell and its last snapshot. The model of a looker is the cells and
//! the last snapshot that it saw of each. A rule ties them (`specs/Rules.antt`): the words of a cell are the last
//! snapshot of the one view that posts, and no view has seen more events than the words count.
//!
//! `new_board` takes all memory. A post and a look take none; they wait only for another step on the same cell.
#![tactic(auto)]

mod board;
mod look;
mod post;
mod rule;
mod words;

pub use board::{Board, new_board};
pub use look::Looker;
pub use post::Poster;
pub use trend_num::{Point, Snap, WantOfMemory};
