//! The device of a group: its layout, its blocks, and what an image of it stands for.
//!
//! A device begins with the definition text of its group. After the text come blocks, one for each save, each after a
//! gate. A block lists the versions of the inputs, how many windows are complete, and the rows that changed.
//!
//! An image stands for versions and rows (`specs/Images.antt`). If it is new or holds another text, it stands for
//! version 0 and no rows. Otherwise it stands for what its blocks give, taken in order. Damage is defined over the list
//! of the device's fields: it is the first field that does not keep its rule (`archive_file`).
//!
//! * [`read_group`] distinguishes three cases: a new device, a device with another text, and a device with the wanted
//!   text, whose rows it gathers.
//! * [`make_group`] begins a device anew. A crash at any moment leaves a device that has nothing saved for this text.
//! * [`open_group`] syncs and reads a device, and begins it anew if nothing is saved for this text. Any other device
//!   gains one sync and nothing else. A crash at any moment leaves what stands for the same versions and rows.
//! * [`put_block`] adds a block. A crash at any moment leaves the block whole after its open gate, or leaves the gate
//!   closed.
//! * [`block_bytes`] returns the bytes of one block, and [`read_blocks`] reads blocks alone, without the layout before
//!   them.
//!
//! `archive_file` goes over the blocks. It has the bytes of one block at a time in memory: it reads the front of a block,
//! which tells how many rows the block has, and then the rest of it with the next gate.
#![tactic(auto)]

mod block;
mod block_reader;
mod definition;
mod layout_reader;
mod making;
mod opening;
mod reader;
mod row_reader;
mod saved;
mod writer;

pub use block::{Block, BlockRow, Blocks};
pub use block_reader::read_blocks;
pub use definition::definition_text;
pub use layout_reader::{Found, SavedGroup, read_group};
pub use making::{make_group, put_block};
pub use opening::open_group;
pub use writer::block_bytes;
