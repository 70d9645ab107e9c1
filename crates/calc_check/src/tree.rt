// Trees, copied and compared.
ghost use Rattle.std.specs.Prelude.{◌≡◌, ◌↔◌, IfOk, IsTrue};
ghost use Rattle.calc_parser.specs.Tree.{tree_of};

use calc_parser::Expr;
use std::alloc::Global;
use trend_num::{WantOfMemory, same_name};

// Puts a tree into a box.
fn boxed(alloc: Global, e: Expr) -> Result<Box<Expr>, WantOfMemory>
    ensures { IfOk result (λ b. b.value ≡ e) }
{
    Ok(Box::new(alloc, e)?)
}

// Returns a copy of a tree.
pub(crate) fn copied(alloc: Global, e: &Expr) -> Result<Expr, WantOfMemory>
    ensures { IfOk result (λ copy. tree_of copy ≡ tree_of e.now) }
{
    match e {
        Expr::Num(n) => Ok(Expr::Num(*n)),
        Expr::Window(measure, name) => Ok(Expr::Window(*measure, *name)),
        Expr::Calc(name) => Ok(Expr::Calc(*name)),
        Expr::Neg(a) => {
            let a = copied(alloc, a)?;
            Ok(Expr::Neg(boxed(alloc, a)?))
        }
        Expr::Abs(a) => {
            let a = copied(alloc, a)?;
            Ok(Expr::Abs(boxed(alloc, a)?))
        }
        Expr::Two(op, a, b) => {
            let a = copied(alloc, a)?;
            let b = copied(alloc, b)?;
            Ok(Expr::Two(*op, boxed(alloc, a)?, boxed(alloc, b)?))
        }
        Expr::Compare(cmp, a, b) => {
            let a = copied(alloc, a)?;
            let b = copied(alloc, b)?;
            Ok(Expr::Compare(*cmp, boxed(alloc, a)?, boxed(alloc, b)?))
        }
        Expr::If(c, a, b) => {
            let c = copied(alloc, c)?;
            let a = copied(alloc, a)?;
            let b = copied(alloc, b)?;
            Ok(Expr::If(boxed(alloc, c)?, boxed(alloc, a)?, boxed(alloc, b)?))
        }
    }
}

// Returns whether two trees are the same.
pub(crate) fn is_same(a: &Expr, b: &Expr) -> bool
    ensures { IsTrue result ↔ (tree_of a.now ≡ tree_of b.now) }
{
    match (a, b) {
        (Expr::Num(m), Expr::Num(n)) => m == n,
        (Expr::Window(m, s), Expr::Window(n, t)) => m == n && same_name(s, t),
        (Expr::Calc(s), Expr::Calc(t)) => same_name(s, t),
        (Expr::Neg(a), Expr::Neg(b)) => is_same(a, b),
        (Expr::Abs(a), Expr::Abs(b)) => is_same(a, b),
        (Expr::Two(p, a, b), Expr::Two(q, c, d)) => p == q && is_same(a, c) && is_same(b, d),
        (Expr::Compare(p, a, b), Expr::Compare(q, c, d)) => {
            p == q && is_same(a, c) && is_same(b, d)
        }
        (Expr::If(a, b, c), Expr::If(d, e, f)) => is_same(a, d) && is_same(b, e) && is_same(c, f),
        _ => false,
    }
}
