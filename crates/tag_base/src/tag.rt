// The tags of a base.
ghost use Rattle.std.specs.Prelude.{◌≡◌, ◌<◌, [], map, length, vec_len, All, IfOk, IfSome, option_map};
ghost use Rattle.toml.specs.View.{view, table_view};
ghost use Rattle.trend_num.specs.{TuningInRange};
ghost use Rattle.tag_base.specs.Answers.{AnswersDue};
ghost use Rattle.tag_base.specs.Tags.{is_text_if_there, has_tag_form, tuning_at, step_of, tag_place, new_tag_name, tag_of, tags_after};

use crate::access::{name_at, number_at};
use crate::refusal::{TextNo, broken};
use std::alloc::Global;
use toml::{Table, Value};
use toml_tables::{has_keys, value_at};
use trend_num::{MAX_DEV, MAX_T, Name, TagDef, Tuning};

// Whether a value is missing, or is a text.
fn is_text_if_there(value: Option<&Value>) -> bool
    ensures { result ≡ is_text_if_there (option_map (λ v. view v.now) value.entry) }
{
    match value {
        Some(value) => value.is_str(),
        None => true,
    }
}

// Whether a table has the keys of a tag. Its description and its units, if it has them, are texts.
fn has_tag_form(table: &Table) -> bool
    ensures { result ≡ has_tag_form (table_view table.now) }
{
    has_keys(
        table,
        &[
            "name", "exc_dev", "exc_max", "comp_dev", "comp_min", "comp_max",
        ],
        &["descriptor", "engunits", "step"],
    ) && is_text_if_there(value_at(table, "descriptor"))
        && is_text_if_there(value_at(table, "engunits"))
}

// The tuning of a table. `None` if one of its five numbers is no whole number in its range.
fn tuning_at(table: &Table) -> Option<Tuning>
    ensures tuning { result ≡ tuning_at (table_view table.now) }
    ensures tuned { IfSome result TuningInRange }
{
    Some(Tuning {
        exc_dev: number_at(table, "exc_dev", 0, MAX_DEV)?,
        exc_max: number_at(table, "exc_max", 0, MAX_T)?,
        comp_dev: number_at(table, "comp_dev", 0, MAX_DEV)?,
        comp_min: number_at(table, "comp_min", 0, MAX_T)?,
        comp_max: number_at(table, "comp_max", 0, MAX_T)?,
    })
}

// Whether a tag is a step tag, from the value of its key `step`. A missing value means no. `None` if the value is no
// boolean.
fn step_of(value: Option<&Value>) -> Option<bool>
    ensures { result ≡ step_of (option_map (λ v. view v.now) value.entry) }
{
    match value {
        Some(value) => value.as_bool(),
        None => Some(false),
    }
}

// The place of the first tag with this name.
pub(crate) fn tag_place(tags: &[TagDef], name: &[u8]) -> Option<usize>
    ensures place { result ≡ tag_place tags.now name.now }
    ensures there { IfSome result (λ i. i < length tags.now) }
{
    tags.iter().position(|tag| tag.name.bytes() == name)
}

// The name of a tag's table. `None` if it is no name, or if an earlier tag has it.
fn new_tag_name(earlier: &[TagDef], table: &Table) -> Option<Name>
    ensures { result ≡ new_tag_name earlier.now (table_view table.now) }
{
    let name = name_at(table, "name")?;
    if tag_place(earlier, name.bytes()).is_some() {
        return None;
    }
    Some(name)
}

// The tag of a table that comes after some tags, or the first rule that the table breaks.
fn tag_of(earlier: &[TagDef], table: &Table) -> Result<TagDef, TextNo>
    ensures tag { result ≡ tag_of earlier.now (table_view table.now) }
    ensures tuned { IfOk result (λ tag. TuningInRange tag.tuning) }
{
    if !has_tag_form(table) {
        return Err(broken(3, earlier.len()));
    }
    let Some(name) = new_tag_name(earlier, table) else {
        return Err(broken(4, earlier.len()));
    };
    let Some(tuning) = tuning_at(table) else {
        return Err(broken(5, earlier.len()));
    };
    let Some(step) = step_of(value_at(table, "step")) else {
        return Err(broken(5, earlier.len()));
    };
    Ok(TagDef { name, tuning, step })
}

// The tags of tables, or the first rule that one breaks.
pub(crate) fn tags_of(alloc: Global, tables: &[&Table]) -> Result<Vec<TagDef>, TextNo>
    ensures tags { AnswersDue (λ tags. tags.items) result
        (tags_after [] (map (λ t. table_view t.now) tables.now)) }
    ensures as_many { IfOk result (λ tags. vec_len tags ≡ length tables.now) }
    ensures tuned { IfOk result (λ tags. All (λ tag. TuningInRange tag.tuning) tags.items) }
{
    let mut tags = Vec::new(alloc);
    for table in tables {
        let tag = tag_of(&tags, table)?;
        tags.push(tag)?;
    }
    Ok(tags)
}
