// The tuning of a tag.
ghost use Rattle.std.specs.Prelude.{◌↔◌, IsTrue};
ghost use Rattle.trend_num.specs.Ranges.{TuningInRange};

use crate::point::{MAX_T, MAX_V};

/// The tuning of a tag. The fields have the attribute names of the PI manuals on exception and compression reporting.
#[derive(Clone, Copy, Debug, PartialEq, Eq)]
pub struct Tuning {
    /// ExcDev, in value units. A value is sent if it differs by more than this from the last value sent.
    pub exc_dev: u64,
    /// ExcMax, in milliseconds. A value is sent if it comes this long after the last value sent, or longer.
    pub exc_max: u64,
    /// CompDev, in value units. How far the kept line may be from a value sent.
    pub comp_dev: u64,
    /// CompMin, in milliseconds. It applies to a value that comes within CompMax but does not fit. If the held point is
    /// less than CompMin after the hinge, all values since the hinge are passed over, and none of them is kept. Of a
    /// step tag only the value itself is passed over, if it is less than CompMin after the hinge.
    pub comp_min: u64,
    /// CompMax, in milliseconds. If a value comes more than this after the hinge, the held point is kept. Of a step tag
    /// the value itself is kept.
    pub comp_max: u64,
}

/// The greatest deviation, in value units: how far a value may be from zero.
pub const MAX_DEV: u64 = MAX_V as u64;

/// Returns whether both deviations are at most 10^15 and all three times are at most `MAX_T`.
pub fn tuning_ok(t: &Tuning) -> bool
    ensures { IsTrue result ↔ TuningInRange t.now }
{
    t.exc_dev <= MAX_DEV
        && t.exc_max <= MAX_T
        && t.comp_dev <= MAX_DEV
        && t.comp_min <= MAX_T
        && t.comp_max <= MAX_T
}
