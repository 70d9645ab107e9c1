// Doors of values that come one after the other.
ghost use Rattle.std.specs.Prelude.{◌≡◌, ◌<◌, ◌↔◌, IsTrue};
ghost use Rattle.trend_num.specs.{InRange};

use crate::spelled::{point, rows_tell};
use door_slopes::{Doors, Point, Steps};
use std::alloc::Global;
use std::marker::Brand;
use std::process::Abort;
use std::sync::ledger::{Blank, Ledger};
use std::test::Fail;
use trend_num::in_range;

const HINGE: Point = Point { t: 0, v: 0 };

// Values that come after (10,1), from the hinge (0,0) with deviation 1. For each: whether the doors admit it, and the
// upper and the lower door after the swing. At first the doors have the slopes 1/5 and 0. The slopes of each value,
// raised and lowered by 1:
// - (20,2) has 3/20 and 1/20, so both doors move.
// - (40,5) has 3/20 and 1/10, so the upper door stays.
// - (60,6) has 7/60 and 1/12, so the lower door stays.
// - (120,12) has 13/120 and 11/120, so the lower door stays.
// - (110,12) has 13/110, which is steeper than 13/120, and 1/10, which the lower door has too. So both doors stay.
const SWINGS: &str = "\
20,2 => true 20,2 20,2
40,5 => true 20,2 40,5
60,6 => true 60,6 40,5
120,12 => true 120,12 40,5
110,12 => false 120,12 40,5";

// What the last doors admit: slopes from 1/10 to 13/120.
const ADMITTED: &str = "\
240,24 => true
240,26 => true
240,23 => false
240,27 => false";

// Whether p is in range and after the hinge.
fn is_after(doors: &Doors, p: Point) -> bool
    ensures { IsTrue result ↔ (InRange p × (doors.now.hinge.t < p.t)) }
{
    in_range(p) && doors.hinge().t < p.t
}

// Whether the doors admit the point of a field.
fn admitted<L: Ledger>(
    rt: &impl Abort,
    alloc: Global,
    doors: &Doors,
    given: &str,
    steps: &mut Steps<L>,
) -> Result<String, Fail> {
    let p = point(rt, given);
    assert!(rt; is_after(doors, p));
    Ok(format!(in alloc; "{}", doors.admits(p, steps))?)
}

// Whether the doors admit the point of a field, and the upper and the lower door after the swing.
fn swung<L: Ledger>(
    rt: &impl Abort,
    alloc: Global,
    doors: &mut Doors,
    given: &str,
    steps: &mut Steps<L>,
) -> Result<String, Fail> {
    let told = admitted(rt, alloc, doors, given, steps)?;
    let p = point(rt, given);
    assert!(rt; is_after(doors, p));
    doors.swing(p, steps);
    let (upper, lower) = (doors.upper(), doors.lower());
    Ok(format!(in alloc; "{told} {},{} {},{}", upper.t, upper.v, lower.t, lower.v)?)
}

// Passes all rows to the doors. Counts on the ledger of the blank.
fn walked<L: Ledger>(rt: &impl Abort, alloc: Global, blank: Blank) -> Result<(), Fail>
    requires name { blank.name ≡ L.name }
    requires parts { blank.parts ≡ L.parts }
    requires some { 0 < L.parts }
{
    let mut steps = Steps::<L>::new(blank);
    let mut doors = Doors::hang(HINGE, 1, Point { t: 10, v: 1 });
    rows_tell(rt, SWINGS, " => ", |given| {
        swung(rt, alloc, &mut doors, given, &mut steps)
    })?;
    rows_tell(rt, ADMITTED, " => ", |given| {
        admitted(rt, alloc, &doors, given, &mut steps)
    })
}

#[test]
fn doors_are_as_listed(rt: HostRuntime) -> Result<(), Fail> {
    walked::<Brand>(&rt, rt.alloc(), Blank::new(1))
}
