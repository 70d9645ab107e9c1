// A tag of a calendar, as it was opened.
ghost use Rattle.trend_num.specs.{InRange};
ghost use Rattle.trend_model.specs.{IsNotBefore};
ghost use Rattle.std.specs.Option.{ForSome};

use late_insert::Content;
use trend_num::{Name, Point};

// A tag of a calendar, with all that its measure of a window is computed from.
#[derive(Drop)]
pub(crate) struct ShiftTag {
    pub(crate) name: Name,
    /// Whether it is a step tag, which keeps its value from point to point.
    pub(crate) step: bool,
    /// The point that closes the content.
    pub(crate) held: Option<Point>,
    pub(crate) content: Content,
    ghost range: { ForSome held InRange },
    ghost last: { ForSome held (IsNotBefore content.records) },
}
