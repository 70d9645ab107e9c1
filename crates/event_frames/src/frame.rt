// Frames, changes of a row, and edits of its frames.
use trend_num::CalcValue;

/// A longest run of windows in which a calculation is true. Windows are numbered from 0.
#[derive(Clone, Copy, Debug, PartialEq, Eq)]
pub struct Frame {
    /// The first window.
    pub from: u64,
    /// The last window.
    pub upto: u64,
    /// Whether `upto` is the last window of the row.
    pub last: bool,
}

/// A window of a row, and the calculation's new value in it.
#[derive(Clone, Copy, Debug, PartialEq, Eq)]
pub struct Change {
    /// The window, counted from 0.
    pub k: u64,
    /// The value.
    pub value: CalcValue,
}

/// What became of a frame.
#[derive(Clone, Copy, Debug, PartialEq, Eq)]
pub enum Edit {
    /// The frame went: it is no frame any more.
    Gone(Frame),
    /// The frame came: it was no frame before.
    New(Frame),
}
