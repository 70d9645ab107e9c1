// The definition of a calculation.
ghost use Rattle.std.specs.Prelude.{◌≡◌, ◌↔◌, map, IfOk, IsTrue};
ghost use Rattle.calc_check.specs.Group.{calculation};

use crate::tree::{copied, is_same};
use calc_parser::Expr;
use std::alloc::Global;
use trend_num::{Name, WantOfMemory, same_name};

/// A calculation of a group: its name, and its formula.
#[derive(Debug, Drop)]
pub struct CalcDef {
    pub name: Name,
    pub expr: Expr,
}

// Returns a copy of definitions.
pub(crate) fn copied_defs(alloc: Global, defs: &[CalcDef]) -> Result<Vec<CalcDef>, WantOfMemory>
    ensures { IfOk result (λ copy. map calculation copy.items ≡ map calculation defs.now) }
{
    let mut copy = Vec::with_capacity(alloc, defs.len())?;
    for def in defs {
        let expr = copied(alloc, &def.expr)?;
        let name = def.name;
        copy.push(CalcDef { name, expr })?;
    }
    Ok(copy)
}

// Returns whether two definitions have the same name and the same tree.
fn is_same_def(a: &CalcDef, b: &CalcDef) -> bool
    ensures { IsTrue result ↔ (calculation a.now ≡ calculation b.now) }
{
    same_name(&a.name, &b.name) && is_same(&a.expr, &b.expr)
}

// Returns whether two lists have the same definitions, in the same order.
#[tactic(auto, using(crate::proofs::Mentions::same_at))]
pub(crate) fn is_same_defs(a: &[CalcDef], b: &[CalcDef]) -> bool
    ensures { IsTrue result ↔ (map calculation a.now ≡ map calculation b.now) }
{
    if a.len() != b.len() {
        return false;
    }
    for i in 0..a.len() {
        if !is_same_def(&a[i], &b[i]) {
            return false;
        }
    }
    true
}

// Returns whether two lists have the same names, in the same order.
pub(crate) fn is_same_names(a: &[Name], b: &[Name]) -> bool
    ensures { IsTrue result ↔ (a.now ≡ b.now) }
{
    if a.len() != b.len() {
        return false;
    }
    for i in 0..a.len() {
        if !same_name(&a[i], &b[i]) {
            return false;
        }
    }
    true
}
