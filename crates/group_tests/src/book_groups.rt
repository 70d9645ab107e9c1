// A group of one tag and one calculation: the mean of each second.
ghost use Rattle.std.specs.Prelude.{◌≡◌, IfSome};
ghost use Rattle.calc_refresh.specs.{IsGrid, IsGroup, grid_of};

use calc_parser::parse;
use calc_refresh::{CalcDef, GroupDefParts, check};
use std::alloc::Global;
use trend_num::name_from;

/// Returns the definition of that group.
pub fn means(alloc: Global) -> Option<GroupDefParts>
    ensures group { IfSome result (λ def. IsGroup def.inputs def.calcs) }
    ensures grid { IfSome result (λ def. IsGrid (grid_of def.start def.period)) }
    ensures inputs { IfSome result (λ def. def.inputs ≡ 1) }
{
    let tag = name_from(b"T1")?;
    let name = name_from(b"m")?;
    let expr = parse(alloc, "avg('T1')").ok()?;
    let mut defs = Vec::new(alloc);
    defs.push(CalcDef { name, expr }).ok()?;
    let calcs = check(alloc, &[tag], defs).ok()?;
    Some(GroupDefParts {
        inputs: 1,
        start: 0,
        period: 1000,
        calcs,
    })
}
