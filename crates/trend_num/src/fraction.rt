// Fractions on a line, and their rounding.
ghost use Rattle.std.specs.Prelude.{◌≡◌, ◌*◌, ◌^◌, ◌<◌, ◌≤◌, ◌+ℤ◌, ◌*ℤ◌, ◌<ℤ◌, ◌≤ℤ◌, pos, unsigned_abs};
ghost use Rattle.trend_num.specs.Ranges.{InRange, last_time, largest_value};
ghost use Rattle.trend_num.specs.Lines.{IsRounded, line_value};

use crate::point::Point;
use crate::slope::{product, rise};

/// A fraction that is not reduced. Its value is `num / den`.
#[derive(Clone, Copy, Debug, PartialEq, Eq)]
pub struct Frac {
    pub num: i128,
    /// Above 0 in every fraction that `line_at` returns.
    pub den: u64,
}

/// Returns the exact value at time `t` of the line from `a` to `b`, in value units.
pub fn line_at(a: Point, b: Point, t: u64) -> Frac
    requires first { InRange a }
    requires last { InRange b }
    requires rises { a.t < b.t }
    requires after { a.t ≤ t }
    requires before { t ≤ b.t }
    ensures { result ≡ line_value a b t }
{
    let start = product(a.v, b.t - a.t);
    let climb = product(rise(a.v, b.v), t - a.t);
    Frac {
        num: sum(start, climb),
        den: b.t - a.t,
    }
}

// The sum of a start and a climb from it.
fn sum(start: i128, climb: i128) -> i128
    requires start { unsigned_abs start ≤ 3 * largest_value * last_time }
    requires climb { unsigned_abs climb ≤ 3 * largest_value * last_time }
    ensures { result ≡ start +ℤ climb }
{
    start + climb
}

/// Returns the whole number nearest to `num / den`. Of two that are equally near it returns the upper one.
pub fn round_half_up(num: i128, den: u64) -> i128
    requires some { 0 < den }
    requires bounded { den ≤ 2 * last_time }
    requires small { unsigned_abs num ≤ 10 ^ 30 }
    ensures { IsRounded num den result }
{
    floor(twice(num, den), 2 * den)
}

// The numerator of `num / den + 1/2`, as a fraction over `2 * den`.
fn twice(num: i128, den: u64) -> i128
    requires bounded { den ≤ 2 * last_time }
    requires small { unsigned_abs num ≤ 10 ^ 30 }
    ensures { result ≡ (pos 2 *ℤ num) +ℤ pos den }
{
    2 * num + i128::from(den)
}

// The greatest whole number that is at most `num / den`.
fn floor(num: i128, den: u64) -> i128
    requires some { 0 < den }
    ensures not_above { (result *ℤ pos den) ≤ℤ num }
    ensures not_below { num <ℤ ((result +ℤ pos 1) *ℤ pos den) }
{
    num.div_euclid(i128::from(den))
}
