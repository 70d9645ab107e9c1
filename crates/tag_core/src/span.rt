// Whether a value joins the span since the hinge.
ghost use Rattle.std.specs.Prelude.{◌≡◌, ◌+◌, ◌<◌, ◌&&◌, ◌||◌, pos, if◌then◌else◌};
ghost use Rattle.trend_num.specs.{InRange, TuningInRange};
ghost use Rattle.trend_model.specs.{is_not_steeper};
ghost use Rattle.trend_model.specs.State.{joins};
ghost use Rattle.trend_model.specs.Walk.{is_early, is_near, is_short};

use door_slopes::Doors;
use std::sync::ledger::Ledger;
use trend_num::{Point, Steps, Tuning};

// Whether p joins the values since the hinge: the line to it is not too long, and the doors admit it.
#[inline]
pub(crate) fn joins<L: Ledger>(
    tuning: &Tuning,
    doors: &Doors,
    p: Point,
    steps: &mut Steps<L>,
) -> bool
    requires tuned { TuningInRange tuning.now }
    requires deviation { doors.now.deviation ≡ tuning.now.comp_dev }
    requires range { InRange p }
    requires after { doors.now.hinge.t < p.t }
    ensures value { result ≡ joins tuning.now doors.now.hinge doors.now.upper doors.now.lower p }
    ensures cost { steps.new ≡ steps.old + (if is_short tuning.now doors.now.hinge p
        then (if is_not_steeper doors.now.hinge p (pos 0) doors.now.upper (pos tuning.now.comp_dev) then 2 else 1) else 0) }
{
    is_short(tuning, doors.hinge(), p) && doors.admits(p, steps)
}

// Whether p, a value of a step tag, is not kept. It is not if it comes within CompMax and is near the hinge in value or
// too near it in time.
#[inline]
pub(crate) fn stays(tuning: &Tuning, hinge: Point, p: Point) -> bool
    requires tuned { TuningInRange tuning.now }
    requires hinge { InRange hinge }
    ensures { result ≡ (is_short tuning.now hinge p && (is_near tuning.now hinge p || is_early tuning.now hinge p)) }
{
    is_short(tuning, hinge, p) && (is_near(tuning, hinge, p) || is_early(tuning, hinge, p))
}

// Whether p comes at most CompMax after the hinge.
#[inline]
pub(crate) fn is_short(tuning: &Tuning, hinge: Point, p: Point) -> bool
    requires tuned { TuningInRange tuning.now }
    requires hinge { InRange hinge }
    ensures { result ≡ is_short tuning.now hinge p }
{
    p.t <= hinge.t + tuning.comp_max
}

// Whether p comes less than CompMin after the hinge, which is too early to be kept.
#[inline]
pub(crate) fn is_early(tuning: &Tuning, hinge: Point, p: Point) -> bool
    requires tuned { TuningInRange tuning.now }
    requires hinge { InRange hinge }
    ensures { result ≡ is_early tuning.now hinge p }
{
    p.t < hinge.t + tuning.comp_min
}

// Whether the value of p is within CompDev of the hinge's value.
fn is_near(tuning: &Tuning, hinge: Point, p: Point) -> bool
    ensures { result ≡ is_near tuning.now hinge p }
{
    p.v.abs_diff(hinge.v) <= tuning.comp_dev
}
