// Questions about a tag.
use crate::measure::Measure;

/// A question about a tag's closed content. Times are milliseconds from 1970.
#[derive(Clone, Copy, Debug, PartialEq, Eq)]
pub enum TagQuery {
    /// What the tag reads at a time.
    At {
        t: u64,
    },
    /// The points from one time to another, both times included.
    Points {
        from: u64,
        to: u64,
    },
    /// A measure of the window from one time to a later one.
    Window {
        measure: Measure,
        from: u64,
        to: u64,
    },
}
