//! Devices, what a crash may leave of them, and the one way to write what must be there whole or not at all.
//!
//! A [`Disk`] holds bytes, and a [`Store`] hands out disks by name. A proof sees the calls on a device as plain data, a
//! trace: the bytes at first and the calls since. Three things are defined from the trace alone: what a read returns,
//! what a crash now may leave, and what a crash at any moment since some call might have left. A device keeps the name
//! under which it was handed out. What a store then has at a name is known only if that device was given back there.
//!
//! A crash between two syncs may leave any bytes in each written range and past the old end. It may leave any length
//! between the least and the greatest. A crash after a sync that answered Ok leaves exactly what a read returns. That a
//! real disk keeps to this is a premise: it is not proved.
//!
//! [`write_guarded`] writes bytes while their gate is closed, and then opens the gate. A crash at any moment, within
//! its calls too, leaves the bytes whole and the gate open, or the gate closed. [`close_gates`] closes gates, and never
//! touches one that reads closed. [`is_new`] returns whether no layout was finished on a device. [`read_part`] reads a
//! given number of bytes of it.
//!
//! [`MemDisk`] and [`MemStore`] are in memory. They fail at the calls that a test chooses, and give the images that a
//! crash may leave.
#![tactic(auto)]

mod device;
mod device_store;
mod failure;
mod gate;
mod law;
mod memory_disk;
mod memory_log;
mod memory_store;
mod reading;
mod share;

pub use device::Disk;
pub use device_store::Store;
pub use failure::{Failed, WantOfMemory};
pub use gate::{OPEN, close_gates, write_guarded};
pub use law::{
    a_later_image_keeps_what_no_call_touched, a_read_gives_an_image, a_sync_leaves_one_image,
    bytes_outside_are_the_same,
};
pub use memory_disk::{MemDisk, Pick};
pub use memory_store::MemStore;
pub use reading::{is_new, read_part};
