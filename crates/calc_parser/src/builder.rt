// Building the trees of larger formulas from those of smaller ones.

ghost use Rattle.std.specs.Prelude.{◌≡◌, IfOk, IfErr};
ghost use Rattle.calc_parser.specs.Grammar.{sum_op, product_op, pick_op};
ghost use Rattle.calc_parser.specs.Tree.{tree_of, neg, abs, two, compare, choose};
ghost use Rattle.calc_parser.specs.declared.parser.Stop.TheVariants.{WantOfMemory};

use crate::parser::Stop;
use crate::token::{Pick, Product, Sum};
use crate::{Cmp, Expr, Op};
use std::alloc::Global;
use trend_num::WantOfMemory;

// Puts a tree into a box.
fn boxed(alloc: Global, e: Expr) -> Result<Box<Expr>, WantOfMemory>
    ensures { IfOk result (λ b. b.value ≡ e) }
{
    Ok(Box::new(alloc, e)?)
}

pub(crate) fn negated(alloc: Global, a: Expr) -> Result<Expr, Stop>
    ensures tree { IfOk result (λ e. tree_of e ≡ neg (tree_of a)) }
    ensures refused { IfErr result (λ why. why ≡ Stop.WantOfMemory) }
{
    Ok(Expr::Neg(boxed(alloc, a)?))
}

pub(crate) fn absolute(alloc: Global, a: Expr) -> Result<Expr, Stop>
    ensures tree { IfOk result (λ e. tree_of e ≡ abs (tree_of a)) }
    ensures refused { IfErr result (λ why. why ≡ Stop.WantOfMemory) }
{
    Ok(Expr::Abs(boxed(alloc, a)?))
}

pub(crate) fn two(alloc: Global, op: Op, a: Expr, b: Expr) -> Result<Expr, Stop>
    ensures tree { IfOk result (λ e. tree_of e ≡ two op (tree_of a) (tree_of b)) }
    ensures refused { IfErr result (λ why. why ≡ Stop.WantOfMemory) }
{
    Ok(Expr::Two(op, boxed(alloc, a)?, boxed(alloc, b)?))
}

pub(crate) fn compared(alloc: Global, cmp: Cmp, a: Expr, b: Expr) -> Result<Expr, Stop>
    ensures tree { IfOk result (λ e. tree_of e ≡ compare cmp (tree_of a) (tree_of b)) }
    ensures refused { IfErr result (λ why. why ≡ Stop.WantOfMemory) }
{
    Ok(Expr::Compare(cmp, boxed(alloc, a)?, boxed(alloc, b)?))
}

pub(crate) fn chosen(alloc: Global, condition: Expr, a: Expr, b: Expr) -> Result<Expr, Stop>
    ensures tree { IfOk result (λ e. tree_of e ≡ choose (tree_of condition) (tree_of a) (tree_of b)) }
    ensures refused { IfErr result (λ why. why ≡ Stop.WantOfMemory) }
{
    Ok(Expr::If(boxed(alloc, condition)?, boxed(alloc, a)?, boxed(alloc, b)?))
}

pub(crate) fn sum_op(sign: Sum) -> Op
    ensures { result ≡ sum_op sign }
{
    match sign {
        Sum::Plus => Op::Add,
        Sum::Minus => Op::Sub,
    }
}

pub(crate) fn product_op(sign: Product) -> Op
    ensures { result ≡ product_op sign }
{
    match sign {
        Product::Times => Op::Mul,
        Product::Over => Op::Div,
        Product::Modulo => Op::Rem,
    }
}

pub(crate) fn pick_op(pick: Pick) -> Op
    ensures { result ≡ pick_op pick }
{
    match pick {
        Pick::Least => Op::Min,
        Pick::Greatest => Op::Max,
    }
}
