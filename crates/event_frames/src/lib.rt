//! Frames of a calculation: the times in which it stays true, such as a pump alarm that lasts.
//!
//! The model has two parts: for each window of a row, whether the calculation is true in it, and how many windows a
//! frame has at least. A frame is a longest run of true windows. `list` returns all frames.
//!
//! `apply` takes changes of the row. A change is of an existing window, or of a new one after the last. The call
//! returns exactly the frames that went and the frames that came. It looks only at the neighbours of changed windows.
//! Over the row lie two levels of flags, which say of whole blocks of windows whether all of them are true. So `apply`
//! finds the ends of a run without going over it. It takes all memory before it changes anything.
#![tactic(auto)]

mod difference;
mod frame;
mod frames;
mod gap;
mod law;
mod levels;
mod near;

pub use frame::{Change, Edit, Frame};
pub use frames::{Frames, new_frames};
pub use law::{edits_are_one_list, frames_are_one_list};
pub use trend_num::{Bad, CalcValue, WantOfMemory};
