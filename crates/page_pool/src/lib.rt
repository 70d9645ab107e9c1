//! A region of frames, each with room for a page of points.
//!
//! The model of a pool is a list of places: a place holds a frame that was taken, or is spare (None). `reserve` takes
//! all memory; to take a frame, give it back or write into it takes none. A frame can be taken exactly if a place is
//! spare. A call with an id changes only the frame at its place.
#![tactic(auto)]

mod frame;
mod pool;

pub use frame::{Frame, PAGE};
pub use pool::{FrameId, NoFrame, Pool, WantOfMemory};
