// Points as text.
ghost use Rattle.std.specs.Prelude.{◌≡◌, ◌++◌, OnOk, string_bytes};
ghost use Rattle.trend_report.specs.Lines.{held_text, point_text};

use std::alloc::AllocError;
use trend_num::Point;

// Adds `T,V`.
pub(crate) fn put_point(text: &mut String, p: Point) -> Result<(), AllocError>
    ensures { OnOk result (string_bytes text.new ≡ string_bytes text.old ++ point_text p) }
{
    let Point { t, v } = p;
    write!(text, "{t},{v}")
}

// Adds `T,V`, or `none` if there is no point.
pub(crate) fn put_held(text: &mut String, held: Option<Point>) -> Result<(), AllocError>
    ensures { OnOk result (string_bytes text.new ≡ string_bytes text.old ++ held_text held) }
{
    match held {
        Some(q) => put_point(text, q),
        None => text.push_str("none"),
    }
}
