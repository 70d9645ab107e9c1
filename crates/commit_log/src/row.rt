// A row of a log.
use trend_num::Point;

/// A raw value of a tag, and where it came from.
#[derive(Clone, Copy, Debug, PartialEq, Eq)]
pub struct LogRow {
    /// The tag, counted from 0.
    pub tag: u32,
    /// The collector, counted from 0.
    pub collector: u32,
    /// The row of the collector's file, counted from 1.
    pub row: u64,
    /// The raw value.
    pub point: Point,
}
