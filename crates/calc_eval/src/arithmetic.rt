// Operations on values.
ghost use Rattle.std.specs.Prelude.{◌≡◌, ◌≢◌, pos};
ghost use Rattle.sheet_law.specs.{bounded, measured_value, floor_div, floor_rem, divided, operated, holds, compared};

use calc_parser::{Cmp, Op};
use trend_num::{Bad, CalcValue};

// How far from 0 a value may be.
const LARGEST: u128 = 1_000_000_000_000_000_000;

// Returns a number as a value, or `Range` if it is too far from 0.
pub(crate) fn bounded(n: i128) -> CalcValue
    ensures { result ≡ bounded n }
{
    if n.unsigned_abs() <= LARGEST {
        CalcValue::Num(n as i64)
    } else {
        CalcValue::Bad(Bad::Range)
    }
}

// Returns the value of a measure, or `NoData` if it has no number.
pub(crate) fn measured_value(measure: Option<i128>) -> CalcValue
    ensures { result ≡ measured_value measure }
{
    match measure {
        Some(n) => bounded(n),
        None => CalcValue::Bad(Bad::NoData),
    }
}

// Returns the floor of a quotient.
fn floor_div(a: i64, b: i64) -> i128
    requires { b ≢ pos 0 }
    ensures { result ≡ floor_div a b }
{
    let dividend = i128::from(a);
    let divisor = i128::from(b);
    if 0 < divisor {
        dividend.div_euclid(divisor)
    } else {
        (-dividend).div_euclid(-divisor)
    }
}

// Returns the remainder that the floor of a quotient leaves.
fn floor_rem(a: i64, b: i64) -> i128
    requires { b ≢ pos 0 }
    ensures { result ≡ floor_rem a b }
{
    i128::from(a) - i128::from(b) * floor_div(a, b)
}

// Returns the floor of a quotient as a value, or `DivZero`.
fn quotient(a: i64, b: i64) -> CalcValue
    ensures { result ≡ divided b (floor_div a b) }
{
    if b == 0 {
        CalcValue::Bad(Bad::DivZero)
    } else {
        bounded(floor_div(a, b))
    }
}

// Returns the remainder as a value, or `DivZero`.
fn remainder(a: i64, b: i64) -> CalcValue
    ensures { result ≡ divided b (floor_rem a b) }
{
    if b == 0 {
        CalcValue::Bad(Bad::DivZero)
    } else {
        bounded(floor_rem(a, b))
    }
}

// Returns the value of an operation on two numbers.
pub(crate) fn operated(op: Op, a: i64, b: i64) -> CalcValue
    ensures { result ≡ operated op a b }
{
    match op {
        Op::Add => bounded(i128::from(a) + i128::from(b)),
        Op::Sub => bounded(i128::from(a) - i128::from(b)),
        Op::Mul => bounded(i128::from(a) * i128::from(b)),
        Op::Div => quotient(a, b),
        Op::Rem => remainder(a, b),
        Op::Min => bounded(i128::from(if a <= b { a } else { b })),
        Op::Max => bounded(i128::from(if a <= b { b } else { a })),
    }
}

// Whether a comparison holds.
fn holds(cmp: Cmp, a: i64, b: i64) -> bool
    ensures { result ≡ holds cmp a b }
{
    match cmp {
        Cmp::Le => a <= b,
        Cmp::Ge => a >= b,
        Cmp::Ne => a != b,
        Cmp::Lt => a < b,
        Cmp::Gt => a > b,
        Cmp::Eq => a == b,
    }
}

// Returns the value of a comparison of two numbers: 1 if it holds, else 0.
pub(crate) fn compared(cmp: Cmp, a: i64, b: i64) -> CalcValue
    ensures { result ≡ compared cmp a b }
{
    if holds(cmp, a, b) {
        CalcValue::Num(1)
    } else {
        CalcValue::Num(0)
    }
}
