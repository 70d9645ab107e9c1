//! The tags and groups of a plant: opening them over a store of devices, and giving the devices back.
//!
//! **Layer.** This crate uses the devices of tags and of groups (`crash_recovery`, `group_layout`), and cells and books
//! (`tag_cell`, `group_book`). The commands use this crate. Its caller passes in a base; the crate reads no file.
//!
//! **One after the other.** [`open_base`] opens the tags in the order of the base. It takes the device of a tag by the
//! tag's name, and recovers what the device holds. It gives the device back at once, even if the tag is refused.
//!
//! **All at once.** A session holds the devices of all tags and groups together. [`shelf_for`] makes what giving them
//! back needs: the names of the devices ([`device_names`] has them too), and room for the histories. [`open_plant`] opens the tags as cells
//! ([`open_cells`]), and then the groups as books over the records of those cells ([`open_books`]). While a device is
//! out, the store's model says nothing about it. [`close_plant`] gives every device back, and returns what happened to
//! each tag and group ([`close_cells`], [`close_books`]). It takes no memory, so it cannot be refused.
//!
//! **One group.** [`open_book`] opens one group as a book, over its device and over the records of its tags.
//! [`book_status`] returns the status for a group that it refuses. [`close_book`] gives the device back, and returns what
//! happened to the group.
//!
//! **Promise.** It holds if no two tags have the same name.
//!
//! - Each opened tag is what its device recovers. Each book has what its group's device stands for.
//! - An opening stops at the first tag or group that is refused, or at the tag with which the tags together have too
//!   many records. It returns that refusal, and no device is out then.
//! - A crash at any moment leaves of each device an image that a crash might have left before, or one that recovers or
//!   stands for the same, or, of a tag, one that recovers that state as it is opened. For a tag this covers fewer
//!   than 10^18 events.
//! - Once the tags are open, a crash leaves what recovers them.
//! - The device of a group that had a finished layout gains one sync as its book is opened, and nothing else. If
//!   [`open_book`] refuses a group for damage, a version or its rows, the device gains the same one sync.
//! - A device that was given back is as its cell or book left it, and its faults are added to the store's.
//! - No device is both a tag's and a group's.
#![tactic(auto)]

mod base_opening;
mod book_closing;
mod book_opening;
mod book_refusal;
mod cell_closing;
mod cell_naming;
mod cell_opening;
mod cell_turns;
mod closing;
mod group_parts;
mod opening;
mod shelf;
mod single_book;
mod tag_device;
mod tag_refusal;

pub use base_opening::open_base;
pub use book_closing::close_books;
pub use book_opening::open_books;
pub use book_refusal::book_status;
pub use cell_closing::close_cells;
pub use cell_opening::open_cells;
pub use closing::close_plant;
pub use group_parts::group_device_names;
pub use opening::{OpenPlant, open_plant};
pub use shelf::{Shelf, device_names, shelf_for};
pub use single_book::{close_book, open_book};
