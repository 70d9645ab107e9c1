// The name of a group's device, and what its book is made with.
ghost use Rattle.std.specs.Prelude.{◌≡◌, ◌^◌, ◌<◌, [], All, IfOk, OnOk, length, map, slice_index_or, string_bytes, vec_len};
ghost use Rattle.calc_refresh.specs.{lists_of, IsCopy, IsGrid, IsGroup, grid_of};
ghost use Rattle.tag_base.specs.{IsSoundGroup};
ghost use Rattle.trend_num.specs.{IsName};
ghost use Rattle.plant_store.specs.Groups.{AreNamesOf, device_name, group_parts_of, input_records_of, group_definition_text};

use calc_refresh::GroupDefParts;
use group_layout::definition_text;
use std::alloc::Global;
use tag_base::GroupDef;
use trend_num::{Name, Rec, WantOfMemory};

/// Returns the names of the devices of these groups, in order: the name of each, and `.grp`.
pub fn group_device_names(alloc: Global, groups: &[GroupDef]) -> Result<Vec<String>, WantOfMemory>
    ensures names { IfOk result (λ names. AreNamesOf groups.now names.items) }
    ensures named { OnOk result (All (λ g. IsName g.name) groups.now) }
{
    let mut names = Vec::new(alloc);
    for group in groups {
        let name = group_device_name(alloc, &group.name)?;
        names.push(name)?;
    }
    Ok(names)
}

// Returns the name of a group's device.
pub(crate) fn group_device_name(alloc: Global, name: &Name) -> Result<String, WantOfMemory>
    ensures text { IfOk result (λ text. string_bytes text ≡ device_name name.now) }
    ensures name { OnOk result (IsName name.now) }
{
    // This call is made for its contract alone: the name keeps the rule of names.
    let _ = name.bytes();
    let name = name.text();
    Ok(format!(in alloc; "{name}.grp")?)
}

// Returns the definition of a group that its book is made with.
fn parts_of(group: &GroupDef) -> Result<GroupDefParts, WantOfMemory>
    requires few { vec_len group.now.inputs < 2 ^ 32 }
    ensures parts { IfOk result (λ parts. parts ≡ group_parts_of group.now) }
{
    Ok(GroupDefParts {
        inputs: group.inputs.len() as u32,
        start: group.start,
        period: group.period,
        calcs: group.calcs.copy()?,
    })
}

// What a book is opened with besides its device: its definition, the definition's text, its tags, and the records of
// each tag.
#[derive(Drop)]
pub(crate) struct Prepared {
    pub def: GroupDefParts,
    pub text: Vec<u8>,
    pub tags: Vec<u32>,
    pub recovered: Vec<Vec<Rec>>,
}

// Returns what the book of a group is opened with; `records` has the records of each tag of the base.
pub(crate) fn prepare(
    alloc: Global,
    group: &GroupDef,
    records: &[&[Rec]],
) -> Result<Prepared, WantOfMemory>
    requires sound { IsSoundGroup (length records.now) group.now }
    requires copied { All (λ r. IsCopy r.now) records.now }
    ensures def { IfOk result (λ p. p.def ≡ group_parts_of group.now) }
    ensures text { IfOk result (λ p. p.text.items ≡ group_definition_text group.now) }
    ensures tags { IfOk result (λ p. p.tags.items ≡ group.now.inputs.items) }
    ensures recovered { IfOk result (λ p. lists_of p.recovered.items ≡ input_records_of (map (λ r. r.now) records.now) group.now) }
    ensures copied { IfOk result (λ p. All IsCopy (lists_of p.recovered.items)) }
    ensures group { IfOk result (λ p. IsGroup p.def.inputs p.def.calcs) }
    ensures grid { IfOk result (λ p. IsGrid (grid_of p.def.start p.def.period)) }
    ensures named { OnOk result (IsName group.now.name) }
{
    // This call is made for its contract alone: the name keeps the rule of names.
    let _ = group.name.bytes();
    Ok(Prepared {
        def: parts_of(group)?,
        text: definition_text(alloc, &group.name, group.start, group.period, &group.calcs)?,
        tags: Vec::from_slice(alloc, &group.inputs)?,
        recovered: records_of(alloc, &group.inputs, records)?,
    })
}

// Returns the records of each of these tags.
fn records_of(
    alloc: Global,
    tags: &[u32],
    records: &[&[Rec]],
) -> Result<Vec<Vec<Rec>>, WantOfMemory>
    requires known { All (λ tag. tag < length records.now) tags.now }
    requires copied { All (λ r. IsCopy r.now) records.now }
    ensures lists { IfOk result (λ v. lists_of v.items ≡ map (λ tag. slice_index_or (map (λ r. r.now) records.now) tag []) tags.now) }
    ensures copied { IfOk result (λ v. All IsCopy (lists_of v.items)) }
{
    let mut lists = Vec::new(alloc);
    for tag in tags {
        let list = Vec::from_slice(alloc, records[*tag as usize])?;
        lists.push(list)?;
    }
    Ok(lists)
}
