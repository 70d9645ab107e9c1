//! A tag's device as a whole: opening it, and the journal that keeps what its tag takes.
//!
//! `device_layout` defines over the bytes of an image what it recovers, and where it is damaged.
//!
//! [`open_tag`] makes the layout of a new device, or reads what the device recovers into a core. If the layout is
//! broken, its error names the first byte of the first field that breaks it. If another tuning than the wanted one is
//! in force, it retunes the tag.
//!
//! [`Journal::commit`] acknowledges a batch of values. [`Journal::checkpoint`] writes the new records and a new
//! summary, and begins the lane anew.
//!
//! What a crash leaves:
//!
//! - at any moment of a commit: what was acknowledged, or that and the whole batch;
//! - at any moment of a checkpoint: the same state as before, or that of the core;
//! - while a device is opened: what a crash before might have left, or what recovers the same.
#![tactic(auto)]

mod checkpoint;
mod failure;
mod journal;
mod law;
mod opening;
mod parts;
mod replay;
mod seat;

pub use device_layout::{
    OpenNo, Slot, one_damage_is_told, one_state_is_recovered, what_recovers_is_not_damaged,
};
pub use failure::OpenFail;
pub use journal::Journal;
pub use law::an_opened_tag_stands;
pub use opening::{Opened, open_tag};
