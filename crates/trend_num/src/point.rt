// Points and their ranges.
ghost use Rattle.std.specs.Prelude.{◌↔◌, IsTrue};

/// The greatest time, the last millisecond of the year 9999, in milliseconds from 1970.
pub const MAX_T: u64 = 253_402_300_799_999;

/// The greatest distance of a value from zero, in value units.
pub const MAX_V: i64 = 1_000_000_000_000_000;

/// A value at a time.
#[derive(Clone, Copy, Debug, PartialEq, Eq)]
pub struct Point {
    /// Milliseconds from 1970.
    pub t: u64,
    /// Value units, which the instrument's engineer chooses.
    pub v: i64,
}

ghost use Rattle.trend_num.specs.Ranges.{InRange};

/// Returns whether the time is at most `MAX_T` and the value is at most `MAX_V` away from zero.
pub fn in_range(p: Point) -> bool
    ensures { IsTrue result ↔ InRange p }
{
    p.t <= MAX_T && -MAX_V <= p.v && p.v <= MAX_V
}
