//! The layout of a tag's device, what an image of it recovers, and where it is damaged.
//!
//! A device begins with a header and two places for a summary. Then come the lane, which is the durable queue of raw
//! values, and the log of records. What an image of it recovers is defined over its bytes (`specs/Recovery.antt`). It
//! is the summary that counts, the records that this summary counts, and the lane's values that it does not count,
//! taken one after the other. A device on which no layout was finished recovers a tag before its first event. Eight
//! kinds of damage define where a device breaks the layout. Each is looked for only if there is none of those before it
//! (`specs/Damages.antt`).
//!
//! [`make_layout`] makes the layout of a new device. A crash at any moment leaves a new device or the whole layout.
//! [`read_layout`] and [`read_stored`] read the header, the summary that counts and the records. If the layout is
//! broken, the error names the first byte of the first field that breaks it. The crates above test whether records and
//! summary can be those of a tag, and whether the lane keeps its layout.
#![tactic(auto)]

mod failure;
mod header;
mod law;
mod layout;
mod layout_reader;
mod slot;
mod slot_field;

pub use failure::OpenNo;
pub use header::Header;
pub use law::{one_damage_is_told, one_state_is_recovered, what_recovers_is_not_damaged};
pub use layout::make_layout;
pub use layout_reader::{LANE, Stored, damaged, log_start, read_layout, read_stored, refusal_of};
pub use slot::Slot;
