// From a tree to its canonical text.

ghost use Rattle.std.specs.Prelude.{◌≡◌, ℕ, List, ◌++◌, codes, string_bytes, IfOk, OnOk};
ghost use Rattle.trend_num.specs.{IsName};
ghost use Rattle.calc_parser.specs.Canonical.{binds, op_binds, is_call, op_token, fit, canonical, measure_word, cmp_sign, spelling, spelled, text_of};
ghost use Rattle.calc_parser.specs.Formulas.{IsFormula};
ghost use Rattle.calc_parser.specs.Tree.{tree_of};

use crate::{Cmp, Expr, Op};
use std::alloc::{AllocError, Global};
use trend_num::{Measure, Name, WantOfMemory};

/// Returns the canonical text of a tree: no spaces, and brackets only where the reading needs them. The only error is
/// want of memory.
pub fn print(alloc: Global, e: &Expr) -> Result<String, WantOfMemory>
    ensures canonical { IfOk result (λ s. string_bytes s ≡ text_of (tree_of e.now)) }
    // If the tree is that of a formula, as each tree that `parse` returns, what is printed is a formula with the same
    // tree.
    ensures again { IfOk result (λ s. (text : List ℕ) → IsFormula text (tree_of e.now)
        → IsFormula (string_bytes s) (tree_of e.now)) }
{
    let mut text = String::new(alloc);
    put(&mut text, e)?;
    Ok(text)
}

// Appends a tree's text.
#[cycle(printer)]
fn put(text: &mut String, e: &Expr) -> Result<(), AllocError>
    ensures { OnOk result (string_bytes text.new ≡ string_bytes text.old ++ text_of (tree_of e.now)) }
{
    match e {
        Expr::Num(n) => write!(text, "{n}"),
        Expr::Window(measure, tag) => put_name(text, measure_word(*measure), tag),
        Expr::Calc(name) => put_name(text, "calc", name),
        Expr::Neg(a) => {
            text.push_str("-")?;
            put_fit(text, 4, a)
        }
        Expr::Abs(a) => {
            put_after(text, "abs(", a)?;
            text.push_str(")")
        }
        Expr::Two(op, a, b) => {
            if is_call(*op) {
                text.push_str(op_word(*op))?;
                put_after(text, "(", a)?;
                put_after(text, ",", b)?;
                text.push_str(")")
            } else {
                put_fit(text, op_binds(*op), a)?;
                text.push_str(op_word(*op))?;
                put_fit(text, op_binds(*op) + 1, b)
            }
        }
        Expr::Compare(cmp, a, b) => {
            put_fit(text, 2, a)?;
            text.push_str(cmp_sign(*cmp))?;
            put_fit(text, 2, b)
        }
        Expr::If(c, a, b) => {
            put_after(text, "if(", c)?;
            put_after(text, ",", a)?;
            put_after(text, ",", b)?;
            text.push_str(")")
        }
    }
}

// Appends the same, in brackets if the tree holds together less tightly than is needed.
#[cycle(printer)]
fn put_fit(text: &mut String, need: u8, e: &Expr) -> Result<(), AllocError>
    ensures { OnOk result (string_bytes text.new
        ≡ string_bytes text.old ++ spelled (fit need (tree_of e.now) (canonical (tree_of e.now)))) }
{
    if binds(e) < need {
        text.push_str("(")?;
        put(text, e)?;
        text.push_str(")")
    } else {
        put(text, e)
    }
}

// Appends `before`, and then the tree's text.
#[cycle(printer)]
fn put_after(text: &mut String, before: &str, e: &Expr) -> Result<(), AllocError>
    ensures { OnOk result (string_bytes text.new ≡ string_bytes text.old ++ (before.now ++ text_of (tree_of e.now))) }
{
    text.push_str(before)?;
    put(text, e)
}

// Appends a word, and a quoted name in brackets.
fn put_name(text: &mut String, word: &str, name: &Name) -> Result<(), AllocError>
    ensures { OnOk result (string_bytes text.new
        ≡ string_bytes text.old ++ (word.now ++ (codes "('" ++ (name.now ++ codes "')")))) }
{
    text.push_str(word)?;
    text.push_str("('")?;
    put_bytes(text, name.bytes())?;
    text.push_str("')")
}

// Appends the bytes of a name.
fn put_bytes(text: &mut String, name: &[u8]) -> Result<(), AllocError>
    requires { IsName name.now }
    ensures { OnOk result (string_bytes text.new ≡ string_bytes text.old ++ name.now) }
{
    for b in name {
        text.push(char::from(*b))?;
    }
    Ok(())
}

// Returns how tightly a tree's outermost part holds together: a comparison 1, a sum 2, a term 3, a sign before an
// operand 4, and all else 5.
fn binds(e: &Expr) -> u8
    ensures { result ≡ binds (tree_of e.now) }
{
    match e {
        Expr::Compare(_, _, _) => 1,
        Expr::Two(op, _, _) => op_binds(*op),
        Expr::Neg(_) => 4,
        _ => 5,
    }
}

// How tightly an operation holds its operands together.
fn op_binds(op: Op) -> u8
    ensures { result ≡ op_binds op }
{
    match op {
        Op::Add | Op::Sub => 2,
        Op::Mul | Op::Div | Op::Rem => 3,
        Op::Min | Op::Max => 5,
    }
}

// Whether an operation is written as a word before its operands.
fn is_call(op: Op) -> bool
    ensures { result ≡ is_call op }
{
    matches!(op, Op::Min | Op::Max)
}

fn measure_word(measure: Measure) -> &'static str
    ensures { result.now ≡ measure_word measure }
{
    match measure {
        Measure::Area => "area",
        Measure::Avg => "avg",
        Measure::Total => "total",
        Measure::Low => "low",
        Measure::High => "high",
        Measure::Count => "count",
        Measure::First => "first",
        Measure::Last => "last",
    }
}

fn op_word(op: Op) -> &'static str
    ensures { result.now ≡ spelling (op_token op) }
{
    match op {
        Op::Add => "+",
        Op::Sub => "-",
        Op::Mul => "*",
        Op::Div => "/",
        Op::Rem => "%",
        Op::Min => "min",
        Op::Max => "max",
    }
}

fn cmp_sign(cmp: Cmp) -> &'static str
    ensures { result.now ≡ cmp_sign cmp }
{
    match cmp {
        Cmp::Le => "<=",
        Cmp::Ge => ">=",
        Cmp::Ne => "<>",
        Cmp::Lt => "<",
        Cmp::Gt => ">",
        Cmp::Eq => "=",
    }
}
