// Offers to an exception test, one after the other.
use crate::spelled::{point, rows_tell};
use exception_test::{Gate, Tuning};
use std::alloc::Global;
use std::process::Abort;
use std::test::Fail;

const TUNING: Tuning = Tuning {
    exc_dev: 5,
    exc_max: 100,
    comp_dev: 0,
    comp_min: 0,
    comp_max: 0,
};

// In this order: the first value; a value exactly ExcDev away, which is not sent; one farther away, which is sent after
// the pending value; a late one with nothing pending; two values, of which the newer replaces the pending one; a late
// one with a value pending; one sooner than ExcMax; and one exactly ExcMax later, which is sent.
const OFFERS: &str = "\
10,0 => None Some(InOrder(Point { t: 10, v: 0 }))
20,5 => None None
30,-6 => Some(Point { t: 20, v: 5 }) Some(InOrder(Point { t: 30, v: -6 }))
30,9 => None Some(Late(Point { t: 30, v: 9 }))
40,-8 => None None
50,-9 => None None
45,9 => Some(Point { t: 50, v: -9 }) Some(Late(Point { t: 45, v: 9 }))
149,-9 => None None
150,-9 => Some(Point { t: 149, v: -9 }) Some(InOrder(Point { t: 150, v: -9 }))";

// What a gate sends at the offer of a point, as a text.
fn sent_told(rt: &impl Abort, alloc: Global, gate: &mut Gate, given: &str) -> Result<String, Fail> {
    let sent = gate.offer(&TUNING, point(rt, given));
    Ok(format!(in alloc; "{:?} {:?}", sent.first, sent.second)?)
}

#[test]
fn a_gate_answers_offers_in_turn(rt: HostRuntime) -> Result<(), Fail> {
    let mut gate = Gate::new();
    rows_tell(&rt, OFFERS, " => ", |given| {
        sent_told(&rt, rt.alloc(), &mut gate, given)
    })
}
