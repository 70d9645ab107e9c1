// The value of a calculation.
ghost use Rattle.std.specs.Prelude.{◌≡◌, ◌+◌, ◌<◌, ◌≤◌, length, slice_get, take, Some};
ghost use Rattle.trend_num.specs.{last_time};
ghost use Rattle.calc_parser.specs.Tree.{tree_of, window, calc};
ghost use Rattle.calc_check.specs.Group.{group_of};
ghost use Rattle.sheet_law.specs.{points_in, scope, value, values};

use crate::arithmetic::{bounded, compared, measured_value, operated};
use calc_check::{CalcDef, Checked, calc_place, input_place};
use calc_parser::Expr;
use late_insert::Content;
use std::sync::ledger::Ledger;
use trend_num::{Bad, CalcValue, Measure, Name, Steps};
use weighted_total::window;

// The meaning of the names of a group in a window.
#[derive(Clone, Copy)]
struct Scope<'a> {
    inputs: &'a [Name],
    contents: &'a [Content],
    calcs: &'a [CalcDef],
    lower: &'a [CalcValue],
    from: u64,
    to: u64,
}

/// Returns the value of a calculation in the window from one time to another, in milliseconds from 1970. `lower` has
/// the values of the calculations before it in the same window. The call takes one step and no memory.
#[tactic(auto, using(crate::proofs::Growth::within_defs))]
pub fn eval<'a, L: Ledger>(
    checked: &'a Checked,
    index: u32,
    from: u64,
    to: u64,
    contents: &'a [Content],
    lower: &'a [CalcValue],
    steps: &mut Steps<L>,
) -> CalcValue
    requires contents { length contents.now ≡ length checked.now.inputs }
    requires index { index < length checked.now.calcs }
    requires lower { lower.now ≡ take index (values checked.now (points_in contents.now) from to) }
    requires rises { from < to }
    requires times { to ≤ last_time }
    ensures value { slice_get (values checked.now (points_in contents.now) from to) index ≡ Some result }
    ensures step { steps.new ≡ steps.old + 1 }
{
    steps.tick();
    let inputs = checked.inputs();
    let calcs = checked.defs();
    let names = Scope {
        inputs,
        contents,
        calcs,
        lower,
        from,
        to,
    };
    value(&names, &calcs[index as usize].expr)
}

// Returns the value of a measure.
fn measured(names: &Scope<'_>, measure: Measure, name: &Name) -> CalcValue
    requires rises { names.now.from < names.now.to }
    requires times { names.now.to ≤ last_time }
    ensures { let group = group_of names.now.inputs.now names.now.calcs.now in
        let points = points_in names.now.contents.now in
        result ≡ value (scope group points names.now.lower.now) names.now.from names.now.to (window measure name.now) }
{
    match input_place(names.inputs, name) {
        Some(place) => match names.contents.get(place) {
            Some(content) => measured_value(window(content, None, measure, names.from, names.to)),
            None => CalcValue::Bad(Bad::NoData),
        },
        None => CalcValue::Bad(Bad::NoData),
    }
}

// Returns the value of an earlier calculation.
fn earlier(names: &Scope<'_>, name: &Name) -> CalcValue
    ensures { let group = group_of names.now.inputs.now names.now.calcs.now in
        let points = points_in names.now.contents.now in
        result ≡ value (scope group points names.now.lower.now) names.now.from names.now.to (calc name.now) }
{
    match calc_place(names.calcs, name) {
        Some(place) => match names.lower.get(place) {
            Some(value) => *value,
            None => CalcValue::Bad(Bad::NoData),
        },
        None => CalcValue::Bad(Bad::NoData),
    }
}

// Returns the value of a tree.
fn value(names: &Scope<'_>, e: &Expr) -> CalcValue
    requires rises { names.now.from < names.now.to }
    requires times { names.now.to ≤ last_time }
    ensures { let group = group_of names.now.inputs.now names.now.calcs.now in
        let points = points_in names.now.contents.now in
        result ≡ value (scope group points names.now.lower.now) names.now.from names.now.to (tree_of e.now) }
{
    match e {
        Expr::Num(n) => bounded(i128::from(*n)),
        Expr::Window(measure, name) => measured(names, *measure, name),
        Expr::Calc(name) => earlier(names, name),
        Expr::Neg(a) => match value(names, a) {
            CalcValue::Num(n) => bounded(-i128::from(n)),
            bad => bad,
        },
        Expr::Abs(a) => match value(names, a) {
            CalcValue::Num(n) => bounded(i128::from(n).abs()),
            bad => bad,
        },
        Expr::Two(op, a, b) => match value(names, a) {
            CalcValue::Num(m) => match value(names, b) {
                CalcValue::Num(n) => operated(*op, m, n),
                bad => bad,
            },
            bad => bad,
        },
        Expr::Compare(cmp, a, b) => match value(names, a) {
            CalcValue::Num(m) => match value(names, b) {
                CalcValue::Num(n) => compared(*cmp, m, n),
                bad => bad,
            },
            bad => bad,
        },
        Expr::If(c, a, b) => match value(names, c) {
            CalcValue::Num(0) => value(names, b),
            CalcValue::Num(_) => value(names, a),
            bad => bad,
        },
    }
}
