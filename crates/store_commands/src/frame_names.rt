// Finds a group and a calculation by their names.
ghost use Rattle.std.specs.Prelude.{◌≡◌, ◌≢◌, ◌<◌, All, IfErr, IfNone, IfOk, IfSome, length, slice_index_or};
ghost use Rattle.calc_check.specs.{CalcDef};
ghost use Rattle.tag_base.specs.{GroupDef};
ghost use Rattle.store_commands.specs.FrameNames.{IsNameRefusal, IsPlaced};

use calc_check::CalcDef;
use plant_status::Status;
use tag_base::{Base, GroupDef};

// Where a calculation is.
#[derive(Clone, Copy)]
pub(crate) struct CalcPlace {
    /// The place of its group in the base.
    pub group: usize,
    /// Its place in the group.
    pub calc: usize,
}

// Finds the calculation with this name in the group with this name. If a name is unknown, the error is `BadName` with
// the number of its word in the command, counted from 1. The group is word 3, and the calculation is word 4.
pub(crate) fn place_of(base: &Base, group: &str, calc: &str) -> Result<CalcPlace, Status>
    ensures placed { IfOk result (λ place. IsPlaced base.now.groups.items group.now calc.now place.group place.calc) }
    ensures refused { IfErr result (IsNameRefusal base.now.groups.items group.now calc.now) }
{
    place_in(&base.groups, group, calc)
}

// The same, in these groups.
fn place_in(groups: &[GroupDef], group: &str, calc: &str) -> Result<CalcPlace, Status>
    ensures placed { IfOk result (λ place. IsPlaced groups.now group.now calc.now place.group place.calc) }
    ensures refused { IfErr result (IsNameRefusal groups.now group.now calc.now) }
{
    let Some(group) = group_place(groups, group.as_bytes()) else {
        return Err(Status::BadName { word: 3 });
    };
    match calc_place(groups[group].calcs.defs(), calc.as_bytes()) {
        Some(calc) => Ok(CalcPlace { group, calc }),
        None => Err(Status::BadName { word: 4 }),
    }
}

// The place of the first group with this name.
fn group_place(groups: &[GroupDef], name: &[u8]) -> Option<usize>
    ensures there { IfSome result (λ i. i < length groups.now) }
    ensures named { IfSome result (λ i. (g : GroupDef) → (slice_index_or groups.now i g).name ≡ name.now) }
    ensures none { IfNone result (All (λ g. g.name ≢ name.now) groups.now) }
{
    groups.iter().position(|group| group.name.bytes() == name)
}

// The place of the first calculation with this name.
fn calc_place(calcs: &[CalcDef], name: &[u8]) -> Option<usize>
    ensures there { IfSome result (λ i. i < length calcs.now) }
    ensures named { IfSome result (λ i. (c : CalcDef) → (slice_index_or calcs.now i c).name ≡ name.now) }
    ensures none { IfNone result (All (λ c. c.name ≢ name.now) calcs.now) }
{
    calcs.iter().position(|calc| calc.name.bytes() == name)
}
