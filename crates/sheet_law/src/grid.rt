// The grid of a group's windows.

/// Windows of one length, one after another. The window k begins at `start + k * period` and ends at
/// `start + (k + 1) * period`.
#[derive(Clone, Copy, Debug, PartialEq, Eq)]
pub struct Grid {
    /// Where the first window starts, in milliseconds from 1970.
    pub start: u64,
    /// How long a window is, in milliseconds.
    pub period: u64,
}
