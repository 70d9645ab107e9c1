// The groups of a base.
ghost use Rattle.std.specs.Prelude.{◌≡◌, ◌≤◌, ◌<◌, [], map, length, vec_len, IfOk, IfSome, All};
ghost use Rattle.toml.specs.View.{table_view};
ghost use Rattle.tag_base.specs.Answers.{AnswersDue, AnswersOneDue};
ghost use Rattle.tag_base.specs.Groups.{group_place, new_group_name, formula_form_of, group_text, IsSoundText, IsSoundGroup, GroupRead, GroupsRead};

use crate::access::{name_at, number_at};
use crate::calculation::{CalcText, calcs_at, checked};
use crate::definition::GroupDef;
use crate::input::{Input, InputTags};
use crate::refusal::{TextNo, broken, limited};
use std::alloc::Global;
use toml::Table;
use toml_tables::{has_keys, places_at};
use trend_num::{MAX_T, Name, TagDef, WantOfMemory, What};

// The most inputs of a group.
const MAX_INPUTS: usize = 64;

// The most calculations of a group.
const MAX_CALCS: usize = 64;

// The longest period, in milliseconds.
const MAX_PERIOD: u64 = 1_000_000_000_000;

// A group whose formulas are not parsed yet.
#[derive(Debug, Drop)]
struct GroupText {
    name: Name,
    inputs: Vec<Input>,
    start: u64,
    period: u64,
    calcs: Vec<CalcText>,
}

// The place of the first group with this name.
pub(crate) fn group_place(groups: &[GroupDef], name: &[u8]) -> Option<usize>
    ensures place { result ≡ group_place groups.now name.now }
    ensures there { IfSome result (λ i. i < length groups.now) }
{
    groups.iter().position(|group| group.name.bytes() == name)
}

// The name of a group's table. `None` if it is no name, or if an earlier group has it.
fn new_group_name(earlier: &[GroupDef], table: &Table) -> Option<Name>
    ensures { result ≡ new_group_name earlier.now (table_view table.now) }
{
    let name = name_at(table, "name")?;
    if group_place(earlier, name.bytes()).is_some() {
        return None;
    }
    Some(name)
}

// The group of a table that comes after some groups, with its formulas as texts. Refuses the first rule that the table
// breaks, other than those of formulas, or too many calculations.
fn group_text(
    alloc: Global,
    tags: &[TagDef],
    earlier: &[GroupDef],
    table: &Table,
) -> Result<GroupText, TextNo>
    requires { length tags.now ≤ 1024 }
    ensures text { AnswersDue formula_form_of result (group_text tags.now earlier.now (table_view table.now)) }
    ensures sound { IfOk result (IsSoundText (length tags.now)) }
{
    if !has_keys(table, &["name", "tags", "start", "period", "calc"], &[]) {
        return Err(broken(6, earlier.len()));
    }
    let Some(name) = new_group_name(earlier, table) else {
        return Err(broken(7, earlier.len()));
    };
    let Some(inputs) = places_at(alloc, &InputTags { tags }, table, "tags", MAX_INPUTS)? else {
        return Err(broken(8, earlier.len()));
    };
    let Some(start) = number_at(table, "start", 0, MAX_T) else {
        return Err(broken(9, earlier.len()));
    };
    let Some(period) = number_at(table, "period", 1, MAX_PERIOD) else {
        return Err(broken(9, earlier.len()));
    };
    let Some(calcs) = calcs_at(alloc, table)? else {
        return Err(broken(10, earlier.len()));
    };
    limited(What::Calcs, MAX_CALCS, calcs.len())?;
    Ok(GroupText {
        name,
        inputs,
        start,
        period,
        calcs,
    })
}

// The places of inputs.
fn places_of(alloc: Global, inputs: &[Input]) -> Result<Vec<u32>, WantOfMemory>
    ensures { IfOk result (λ places. places.items ≡ map (λ i. i.place) inputs.now) }
{
    Ok(inputs.iter().map(|input| input.place).collect(alloc)?)
}

// The names of inputs.
fn names_of(alloc: Global, inputs: &[Input]) -> Result<Vec<Name>, WantOfMemory>
    ensures { IfOk result (λ names. names.items ≡ map (λ i. i.name) inputs.now) }
{
    let mut names = Vec::new(alloc);
    for input in inputs {
        names.push(input.name)?;
    }
    Ok(names)
}

// The group of a table that comes after some groups, or the first rule that the table breaks.
fn group_of(
    alloc: Global,
    tags: &[TagDef],
    earlier: &[GroupDef],
    table: &Table,
) -> Result<GroupDef, TextNo>
    requires few_tags { length tags.now ≤ 1024 }
    requires few_groups { length earlier.now ≤ 16 }
    ensures group { AnswersOneDue (λ group. group) result (GroupRead tags.now earlier.now (table_view table.now)) }
    ensures sound { IfOk result (IsSoundGroup (length tags.now)) }
{
    let text = group_text(alloc, tags, earlier, table)?;
    let inputs = places_of(alloc, &text.inputs)?;
    let names = names_of(alloc, &text.inputs)?;
    match checked(alloc, earlier.len() as u32, &names, &text.calcs) {
        Ok(calcs) => Ok(GroupDef {
            name: text.name,
            inputs,
            start: text.start,
            period: text.period,
            calcs,
        }),
        Err(why) => Err(why),
    }
}

// The groups of tables, or the first rule that one breaks.
pub(crate) fn groups_of(
    alloc: Global,
    tags: &[TagDef],
    tables: &[&Table],
) -> Result<Vec<GroupDef>, TextNo>
    requires few_tags { length tags.now ≤ 1024 }
    requires few_groups { length tables.now ≤ 16 }
    ensures groups { AnswersOneDue (λ groups. groups.items) result
        (GroupsRead tags.now [] (map (λ t. table_view t.now) tables.now)) }
    ensures as_many { IfOk result (λ groups. vec_len groups ≡ length tables.now) }
    ensures sound { IfOk result (λ groups. All (IsSoundGroup (length tags.now)) groups.items) }
{
    let mut groups = Vec::new(alloc);
    for table in tables {
        let group = group_of(alloc, tags, &groups, table)?;
        groups.push(group)?;
    }
    Ok(groups)
}
