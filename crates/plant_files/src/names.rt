// The names that a base has.
ghost use Rattle.std.specs.Prelude.{◌≡◌, ◌<◌, ◌^◌, All, length, vec_len, IfOk};
ghost use Rattle.plant_files.specs.Texts.{tag_names};
ghost use Rattle.plant_files.specs.Asked.{IsNamed, AreNamed};

use std::alloc::Global;
use tag_base::GroupDef;
use trend_num::{Name, TagDef, WantOfMemory};
use value_rows::GroupNames;

// The names of tags.
pub(crate) fn names_of_tags(alloc: Global, tags: &[TagDef]) -> Result<Vec<Name>, WantOfMemory>
    ensures names { IfOk result (λ names. names.items ≡ tag_names tags.now) }
    ensures as_many { IfOk result (λ names. vec_len names ≡ length tags.now) }
{
    let mut names = Vec::new(alloc);
    for tag in tags {
        names.push(tag.name)?;
    }
    Ok(names)
}

// The names of a group and of its calculations.
fn names_of_group(alloc: Global, group: &GroupDef) -> Result<GroupNames, WantOfMemory>
    ensures named { IfOk result (IsNamed group.now) }
    ensures as_many { IfOk result (λ names. vec_len names.calcs ≡ length group.now.calcs.calcs) }
{
    let defs = group.calcs.defs();
    let mut calcs = Vec::new(alloc);
    for def in defs {
        calcs.push(def.name)?;
    }
    Ok(GroupNames {
        name: group.name,
        calcs,
    })
}

// The names of groups and of their calculations.
pub(crate) fn names_of_groups(
    alloc: Global,
    groups: &[GroupDef],
) -> Result<Vec<GroupNames>, WantOfMemory>
    requires { All (λ g. length g.calcs.calcs < 2 ^ 32) groups.now }
    ensures named { IfOk result (λ names. AreNamed groups.now names.items) }
    ensures as_many { IfOk result (λ names. vec_len names ≡ length groups.now) }
    ensures few_calcs { IfOk result (λ names. All (λ g. vec_len g.calcs < 2 ^ 32) names.items) }
{
    let mut names = Vec::new(alloc);
    for group in groups {
        let named = names_of_group(alloc, group)?;
        names.push(named)?;
    }
    Ok(names)
}
