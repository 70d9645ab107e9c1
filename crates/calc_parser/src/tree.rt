// The tree of a formula.

use trend_num::{Measure, Name};

/// A comparison, whose value is 1 or 0.
#[derive(Clone, Copy, Debug, PartialEq, Eq)]
pub enum Cmp {
    Le,
    Ge,
    Ne,
    Lt,
    Gt,
    Eq,
}

/// An operation on two values.
#[derive(Clone, Copy, Debug, PartialEq, Eq)]
pub enum Op {
    Add,
    Sub,
    Mul,
    /// The floor of the quotient.
    Div,
    /// The dividend less the divisor times the floor of the quotient.
    Rem,
    Min,
    Max,
}

/// A formula's tree. Brackets leave no mark in it.
#[derive(Debug, Drop)]
pub enum Expr {
    /// A whole number.
    Num(i64),
    /// The measure of a tag's content over the window.
    Window(Measure, Name),
    /// The value of an earlier calculation of the group in the same window.
    Calc(Name),
    Neg(Box<Expr>),
    Abs(Box<Expr>),
    Two(Op, Box<Expr>, Box<Expr>),
    Compare(Cmp, Box<Expr>, Box<Expr>),
    /// The value of the second formula if that of the first is not 0, and otherwise the value of the third.
    If(Box<Expr>, Box<Expr>, Box<Expr>),
}
