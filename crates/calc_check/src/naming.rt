// Names in formulas, and what they stand for.
ghost use Rattle.std.specs.Prelude.{◌≡◌, ◌^◌, ◌<◌, [], map, length, position};
ghost use Rattle.std.specs.List.{list_any};
ghost use Rattle.std.specs.Str.{bytes_eq};
ghost use Rattle.calc_parser.specs.Tree.{tree_of};
ghost use Rattle.calc_check.specs.Group.{calculation, names_of, is_among, first_unknown, first_fault, told};

use crate::definition::CalcDef;
use crate::refusal::CheckNo;
use calc_parser::Expr;
use trend_num::Name;

// Returns whether two names are the same.
pub(crate) fn is_same_name(a: &Name, b: &Name) -> bool
    ensures { result ≡ bytes_eq a.now b.now }
{
    a.bytes() == b.bytes()
}

/// Returns the place of a name among the inputs, or None if it is none of them.
pub fn input_place(inputs: &[Name], name: &Name) -> Option<usize>
    ensures { result ≡ position (bytes_eq name.now) inputs.now }
{
    inputs.iter().position(|input| is_same_name(name, input))
}

// Returns the place of the definition that has this name.
fn def_place(defs: &[CalcDef], name: &Name) -> Option<usize>
    ensures { result ≡ position (λ d. bytes_eq name.now d.name) defs.now }
{
    defs.iter().position(|def| is_same_name(name, &def.name))
}

/// Returns the place of the first calculation with this name, or None if there is none.
pub fn calc_place(calcs: &[CalcDef], name: &Name) -> Option<usize>
    ensures { result ≡ position (bytes_eq name.now) (names_of (map calculation calcs.now)) }
{
    def_place(calcs, name)
}

// Returns whether a name is that of an input.
fn is_input(inputs: &[Name], name: &Name) -> bool
    ensures { result ≡ is_among name.now inputs.now }
{
    inputs.iter().any(|input| is_same_name(name, input))
}

// Returns whether a definition has this name.
fn is_defined(defs: &[CalcDef], name: &Name) -> bool
    ensures { result ≡ list_any (λ d. bytes_eq name.now d.name) defs.now }
{
    defs.iter().any(|def| is_same_name(name, &def.name))
}

// Returns whether a name is that of a calculation.
fn is_calc(calcs: &[CalcDef], name: &Name) -> bool
    ensures { result ≡ is_among name.now (names_of (map calculation calcs.now)) }
{
    is_defined(calcs, name)
}

// Returns the first name in a formula that stands for nothing.
#[tactic(auto, using(crate::proofs::Mentions::first_in_front, crate::proofs::Mentions::first_behind))]
fn first_unknown(inputs: &[Name], before: &[CalcDef], e: &Expr) -> Option<Name>
    ensures { result ≡ first_unknown inputs.now (names_of (map calculation before.now)) (tree_of e.now) }
{
    match e {
        Expr::Num(_) => None,
        Expr::Window(_, name) => {
            if is_input(inputs, name) {
                None
            } else {
                Some(*name)
            }
        }
        Expr::Calc(name) => {
            if is_calc(before, name) {
                None
            } else {
                Some(*name)
            }
        }
        Expr::Neg(a) => first_unknown(inputs, before, a),
        Expr::Abs(a) => first_unknown(inputs, before, a),
        Expr::Two(_, a, b) => match first_unknown(inputs, before, a) {
            Some(name) => Some(name),
            None => first_unknown(inputs, before, b),
        },
        Expr::Compare(_, a, b) => match first_unknown(inputs, before, a) {
            Some(name) => Some(name),
            None => first_unknown(inputs, before, b),
        },
        Expr::If(c, a, b) => match first_unknown(inputs, before, c) {
            Some(name) => Some(name),
            None => match first_unknown(inputs, before, a) {
                Some(name) => Some(name),
                None => first_unknown(inputs, before, b),
            },
        },
    }
}

// Returns the refusal of a name that stands for nothing in the first of these calculations, which is at this place.
fn told(place: u32, coming: &[CalcDef], name: Name) -> CheckNo
    ensures { result ≡ told place (names_of (map calculation coming.now)) name }
{
    if is_calc(coming, &name) {
        CheckNo::Forward { calc: place, name }
    } else {
        CheckNo::UnknownName { calc: place, name }
    }
}

// Returns the refusal of the first name that stands for nothing, or None if there is none.
#[tactic(auto, using(crate::proofs::Mentions::fault_after))]
pub(crate) fn first_fault(inputs: &[Name], calcs: &[CalcDef]) -> Option<CheckNo>
    requires { length calcs.now < 2 ^ 32 }
    ensures { result ≡ first_fault inputs.now [] (map calculation calcs.now) }
{
    for i in 0..calcs.len() {
        if let Some(name) = first_unknown(inputs, &calcs[..i], &calcs[i].expr) {
            return Some(told(i as u32, &calcs[i..], name));
        }
    }
    None
}
