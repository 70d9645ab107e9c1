// What a read of an archive returns.
use crate::fraction::Frac;

/// What an archive reads at a time.
#[derive(Clone, Copy, Debug, PartialEq, Eq)]
pub enum Reading {
    /// There is a point at the time. This is its value.
    Exact(i64),
    /// The time is between two points of a tag of lines. This is the value there of the line between them.
    Line(Frac),
    /// No point follows, or the tag is a step tag. This is the value of the last point before the time.
    Flat(i64),
    /// There is no point at the time or before it.
    Nothing,
}
