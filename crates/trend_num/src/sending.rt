// What an exception test sends on.
use crate::point::Point;

/// A value that the exception test sends on, and how it is marked.
#[derive(Clone, Copy, Debug, PartialEq, Eq)]
pub enum Sending {
    /// The value is later than every value sent in order before it.
    InOrder(Point),
    /// A value that came earlier has the same time or a later one.
    Late(Point),
}
