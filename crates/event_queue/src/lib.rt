//! The durable queue of a tag, called its lane. It keeps raw values in batches, so that a crash does not lose them.
//!
//! A lane lies at a fixed place of the tag's device. First come the gates, one for each lane slot, and then the lane
//! slots. A slot holds one batch of 1 to 64 raw values. The number of a raw value is its place among the tag's events,
//! counted from 0; retunings are events too.
//!
//! [`Lane::append_batch`] writes the next lane slot, and then opens its gate. So a crash at any moment leaves the
//! earlier batches, and this one whole or not at all. Once a summary counts all batches, [`Lane::restart`] closes the
//! gates, and the lane starts anew. [`scan`] reads a lane for a summary that counts the first `taken` events. It
//! returns the points after these, or the first byte of the first field that breaks the layout.
//!
//! What a lane holds is defined over bytes alone (`specs/Lanes.antt`), so the definition applies to each image that a
//! crash may leave. Four laws state what these images hold during an append and during a restart, and which kinds of
//! lanes there are.
#![tactic(auto)]

mod failure;
mod lane;
mod law;
mod reader;
mod slot;

pub use archive_file::{DeviceFault, ScanNo};
pub use failure::LaneNo;
pub use lane::Lane;
pub use law::{
    a_lane_is_filled_or_overtaken, a_restart_leaves_an_overtaken_lane, a_scan_tells_which_it_is,
    an_append_is_whole_or_absent,
};
pub use reader::{Scanned, scan};
pub use slot::{BATCH_MOST, SLOT_LEN};
pub use trend_num::Point;
