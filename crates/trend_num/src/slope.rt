// Exact comparisons of lines and slopes.
ghost use Rattle.std.specs.Prelude.{◌≡◌, ◌+◌, ◌*◌, ◌<◌, ◌≤◌, ◌+ℤ◌, ◌-ℤ◌, ◌*ℤ◌, pos, not, unsigned_abs};
ghost use Rattle.trend_num.specs.Ranges.{InRange, largest_value, last_time};
ghost use Rattle.trend_num.specs.Lines.{is_within, compare_slopes, cross};

use crate::counter::Steps;
use crate::point::Point;
use std::cmp::Ordering;
use std::sync::ledger::Ledger;

/// Returns whether x is more than `d` value units above or below the line from `a` to `b`. It counts one step.
pub fn deviates<L: Ledger>(a: Point, b: Point, x: Point, d: u64, steps: &mut Steps<L>) -> bool
    requires first { InRange a }
    requires last { InRange b }
    requires between { InRange x }
    requires after { a.t < x.t }
    requires before { x.t ≤ b.t }
    requires deviation { d ≤ largest_value }
    ensures value { result ≡ not (is_within a b x d) }
    ensures step { steps.new ≡ steps.old + 1 }
{
    steps.tick();
    let allowed = u128::from(d) * u128::from(b.t - a.t);
    above(a, b, x).unsigned_abs() > allowed
}

/// Compares two slopes exactly: from `a` to x raised by `dx`, and from `a` to y raised by `dy`. It counts one step.
pub fn slope_cmp<L: Ledger>(
    a: Point,
    x: Point,
    dx: i64,
    y: Point,
    dy: i64,
    steps: &mut Steps<L>,
) -> Ordering
    requires hinge { InRange a }
    requires first { InRange x }
    requires second { InRange y }
    requires first_after { a.t < x.t }
    requires second_after { a.t < y.t }
    requires first_raise { unsigned_abs dx ≤ largest_value }
    requires second_raise { unsigned_abs dy ≤ largest_value }
    ensures value { result ≡ compare_slopes a x dx y dy }
    ensures step { steps.new ≡ steps.old + 1 }
{
    steps.tick();
    let left = raised_product(a, x, dx, y.t - a.t);
    let right = raised_product(a, y, dy, x.t - a.t);
    left.cmp(&right)
}

// How far `to` is above `from`.
pub(crate) fn rise(from: i64, to: i64) -> i64
    requires from { unsigned_abs from ≤ largest_value }
    requires to { unsigned_abs to ≤ 2 * largest_value }
    ensures value { result ≡ to -ℤ from }
    ensures bound { unsigned_abs result ≤ 3 * largest_value }
{
    to - from
}

// A rise times a length of time.
pub(crate) fn product(rise: i64, length: u64) -> i128
    requires rise { unsigned_abs rise ≤ 3 * largest_value }
    requires length { length ≤ last_time }
    ensures value { result ≡ rise *ℤ pos length }
    ensures bound { unsigned_abs result ≤ 3 * largest_value * last_time }
{
    // A signed length, because then one multiplication of signed words is enough.
    i128::from(rise) * i128::from(length as i64)
}

// How far x, raised by `raise`, is above `a`, times a length of time.
fn raised_product(a: Point, x: Point, raise: i64, length: u64) -> i128
    requires hinge { InRange a }
    requires point { InRange x }
    requires raise { unsigned_abs raise ≤ largest_value }
    requires length { length ≤ last_time }
    ensures { result ≡ ((x.v +ℤ raise) -ℤ a.v) *ℤ pos length }
{
    product(rise(a.v, x.v + raise), length)
}

// How far one product is above another.
fn gap(upper: i128, lower: i128) -> i128
    requires upper { unsigned_abs upper ≤ 3 * largest_value * last_time }
    requires lower { unsigned_abs lower ≤ 3 * largest_value * last_time }
    ensures value { result ≡ upper -ℤ lower }
{
    upper - lower
}

// How far x is above the line from `a` to `b`, times the line's length in time.
fn above(a: Point, b: Point, x: Point) -> i128
    requires first { InRange a }
    requires last { InRange b }
    requires between { InRange x }
    requires after { a.t < x.t }
    requires before { x.t ≤ b.t }
    ensures { result ≡ cross a b x }
{
    let reached = product(rise(a.v, x.v), b.t - a.t);
    let expected = product(rise(a.v, b.v), x.t - a.t);
    gap(reached, expected)
}
