// The two doors at a hinge.
ghost use Rattle.std.specs.Prelude.{◌≡◌, ◌↔◌, IsTrue, ◌+◌, ◌<◌, ◌≤◌, List, [], ◌∷◌, pos, unsigned_abs, if◌then◌else◌};
ghost use Rattle.std.specs.List.{list_all};
ghost use Rattle.trend_num.specs.{Point, is_within, InRange, largest_value};
ghost use Rattle.trend_model.specs.{AreAfter, AreDoors, down, is_admitted, is_not_steeper, lower_after, upper_after};

use std::marker::Model;
use std::sync::ledger::Ledger;
use trend_num::{Point, Steps, slope_cmp};

/// The two doors at a hinge (after Bristol): those two values since the hinge that decide which lines from it fit.
///
/// Times are milliseconds from 1970; values and the deviation are value units.
#[derive(Clone, Copy, Debug, PartialEq, Eq)]
pub struct Doors {
    hinge: Point,
    dev: u64,
    upper: Point,
    lower: Point,
}

impl Model for Doors {
    ghost use Rattle.door_slopes.specs.Hung.{AreHung, Hung};

    ghost Value = { Hung };

    ghost view = { λ d. record { hinge = d.hinge; deviation = d.dev; upper = d.upper; lower = d.lower } };

    ghost invariant = { λ d. AreHung d.hinge d.dev d.upper d.lower };

    ghost inverse = { λ h. record { hinge = h.hinge; dev = h.deviation; upper = h.upper; lower = h.lower } };
}

impl Doors {
    /// Returns the doors at the first value after the hinge: both are that value.
    pub fn hang(hinge: Point, dev: u64, p: Point) -> Doors
        requires hinge { InRange hinge }
        requires deviation { dev ≤ largest_value }
        requires point { InRange p }
        requires after { hinge.t < p.t }
        ensures value { result ≡ record { hinge = hinge; deviation = dev; upper = p; lower = p } }
        ensures doors { AreDoors hinge dev (p ∷ []) result.upper result.lower }
    {
        Doors::from_points(hinge, dev, p, p)
    }

    /// Returns the doors at these points, which were read from elsewhere.
    pub fn from_points(hinge: Point, dev: u64, upper: Point, lower: Point) -> Doors
        requires hinge { InRange hinge }
        requires deviation { dev ≤ largest_value }
        requires upper { InRange upper }
        requires lower { InRange lower }
        requires upper_after { hinge.t < upper.t }
        requires lower_after { hinge.t < lower.t }
        ensures value { result ≡ record { hinge = hinge; deviation = dev; upper = upper; lower = lower } }
    {
        Doors {
            hinge,
            dev,
            upper,
            lower,
        }
    }

    /// Returns the point from which each line starts, the last one kept.
    pub fn hinge(&self) -> Point
        ensures value { result ≡ self.now.hinge }
        ensures range { InRange result }
    {
        self.hinge
    }

    /// Returns how far a line may be from a value, in value units (CompDev).
    pub fn deviation(&self) -> u64
        ensures value { result ≡ self.now.deviation }
        ensures range { result ≤ largest_value }
    {
        self.dev
    }

    /// Returns the value whose slope from the hinge, raised by the deviation, is least.
    pub fn upper(&self) -> Point
        ensures value { result ≡ self.now.upper }
        ensures range { InRange result }
        ensures after { self.now.hinge.t < result.t }
    {
        self.upper
    }

    /// Returns the value whose slope from the hinge, lowered by the deviation, is greatest.
    pub fn lower(&self) -> Point
        ensures value { result ≡ self.now.lower }
        ensures range { InRange result }
        ensures after { self.now.hinge.t < result.t }
    {
        self.lower
    }

    /// Returns whether the line from the hinge to p lies between the doors, so that each value since the hinge is
    /// within the deviation of it. A line that just touches a door is admitted. It counts at most two steps.
    pub fn admits<L: Ledger>(&self, p: Point, steps: &mut Steps<L>) -> bool
        requires point { InRange p }
        requires after { self.now.hinge.t < p.t }

        // In terms of the doors.
        ensures value { result ≡ is_admitted self.now.hinge self.now.deviation self.now.upper self.now.lower p }

        // In terms of all values whose doors these are.
        ensures fits { (values : List Point)
            → AreDoors self.now.hinge self.now.deviation values self.now.upper self.now.lower
            → AreAfter self.now.hinge values
            → result ≡ list_all (λ x. is_within self.now.hinge p x self.now.deviation) values }

        // One step if the upper door refuses, else two.
        ensures cost { steps.new ≡ steps.old
            + (if is_not_steeper self.now.hinge p (pos 0) self.now.upper (pos self.now.deviation) then 2 else 1) }
    {
        self.is_under_upper(p, steps) && self.is_over_lower(p, steps)
    }

    /// Takes one more value. A door moves to p if p's slope is beyond the door's. If the two slopes are equal, the door
    /// stays. It counts two steps.
    pub fn swing<L: Ledger>(&mut self, p: Point, steps: &mut Steps<L>)
        requires point { InRange p }
        requires after { self.old.hinge.t < p.t }
        ensures hinge { self.new.hinge ≡ self.old.hinge }
        ensures deviation { self.new.deviation ≡ self.old.deviation }
        ensures upper { self.new.upper ≡ upper_after self.old.hinge self.old.deviation self.old.upper p }
        ensures lower { self.new.lower ≡ lower_after self.old.hinge self.old.deviation self.old.lower p }

        // If they were the doors of some values, they are then the doors of those values and p.
        ensures doors { (values : List Point)
            → AreDoors self.old.hinge self.old.deviation values self.old.upper self.old.lower
            → AreAfter self.old.hinge values
            → AreDoors self.new.hinge self.new.deviation (p ∷ values) self.new.upper self.new.lower }
        ensures cost { steps.new ≡ steps.old + 2 }
    {
        let upper = self.upper_with(p, steps);
        let lower = self.lower_with(p, steps);
        self.upper = upper;
        self.lower = lower;
    }

    // Whether the line to p is under the raised upper door or touches it. One step.
    fn is_under_upper<L: Ledger>(&self, p: Point, steps: &mut Steps<L>) -> bool
        requires point { InRange p }
        requires after { self.now.hinge.t < p.t }
        ensures value { result ≡ is_not_steeper self.now.hinge p (pos 0) self.now.upper (pos self.now.deviation) }
        ensures step { steps.new ≡ steps.old + 1 }
    {
        is_not_steeper(self.hinge, p, 0, self.upper, raised(self.dev), steps)
    }

    // Whether the line to p is over the lowered lower door or touches it. One step.
    fn is_over_lower<L: Ledger>(&self, p: Point, steps: &mut Steps<L>) -> bool
        requires point { InRange p }
        requires after { self.now.hinge.t < p.t }
        ensures value { result ≡ is_not_steeper self.now.hinge self.now.lower (down self.now.deviation) p (pos 0) }
        ensures step { steps.new ≡ steps.old + 1 }
    {
        is_not_steeper(self.hinge, self.lower, lowered(self.dev), p, 0, steps)
    }

    // The upper door of the values so far and p. One step.
    fn upper_with<L: Ledger>(&self, p: Point, steps: &mut Steps<L>) -> Point
        requires point { InRange p }
        requires after { self.now.hinge.t < p.t }
        ensures value { result ≡ upper_after self.now.hinge self.now.deviation self.now.upper p }
        ensures range { InRange result }
        ensures after { self.now.hinge.t < result.t }
        ensures step { steps.new ≡ steps.old + 1 }
    {
        let raise = raised(self.dev);
        if is_not_steeper(self.hinge, self.upper, raise, p, raise, steps) {
            self.upper
        } else {
            p
        }
    }

    // The lower door of the values so far and p. One step.
    fn lower_with<L: Ledger>(&self, p: Point, steps: &mut Steps<L>) -> Point
        requires point { InRange p }
        requires after { self.now.hinge.t < p.t }
        ensures value { result ≡ lower_after self.now.hinge self.now.deviation self.now.lower p }
        ensures range { InRange result }
        ensures after { self.now.hinge.t < result.t }
        ensures step { steps.new ≡ steps.old + 1 }
    {
        let lowering = lowered(self.dev);
        if is_not_steeper(self.hinge, p, lowering, self.lower, lowering, steps) {
            self.lower
        } else {
            p
        }
    }
}

/// Returns whether two pairs of doors are the same, with the same hinge and the same deviation, compared with `==`.
pub fn same_doors(a: &Doors, b: &Doors) -> bool
    ensures { IsTrue result ↔ (a.now ≡ b.now) }
{
    a == b
}

// The deviation upwards, as a signed number.
fn raised(dev: u64) -> i64
    requires { dev ≤ largest_value }
    ensures value { result ≡ pos dev }
    ensures range { unsigned_abs result ≤ largest_value }
{
    dev as i64
}

// The deviation downwards, as a signed number.
fn lowered(dev: u64) -> i64
    requires { dev ≤ largest_value }
    ensures value { result ≡ down dev }
    ensures range { unsigned_abs result ≤ largest_value }
{
    -(dev as i64)
}

// Whether the slope from `a` to x raised by `raise` is at most the slope from `a` to y raised by `lift`. One step.
fn is_not_steeper<L: Ledger>(
    a: Point,
    x: Point,
    raise: i64,
    y: Point,
    lift: i64,
    steps: &mut Steps<L>,
) -> bool
    requires hinge { InRange a }
    requires first { InRange x }
    requires second { InRange y }
    requires first_after { a.t < x.t }
    requires second_after { a.t < y.t }
    requires first_raise { unsigned_abs raise ≤ largest_value }
    requires second_raise { unsigned_abs lift ≤ largest_value }
    ensures value { result ≡ is_not_steeper a x raise y lift }
    ensures step { steps.new ≡ steps.old + 1 }
{
    slope_cmp(a, x, raise, y, lift, steps).is_le()
}
