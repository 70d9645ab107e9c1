// The measures of a window.

/// A measure of a window.
#[derive(Clone, Copy, Debug, PartialEq, Eq)]
pub enum Measure {
    /// Twice the area under the line or the stair, in value units times milliseconds.
    Area,
    /// The time-weighted mean, in value units, rounded.
    Avg,
    /// The area, in value units times seconds, rounded.
    Total,
    /// The least value. For a step tag the value at the window's end does not count.
    Low,
    /// The greatest value. For a step tag the value at the window's end does not count.
    High,
    /// The number of points from the window's start (included) to its end (excluded).
    Count,
    /// The value at the window's start.
    First,
    /// The value at the window's end.
    Last,
}
