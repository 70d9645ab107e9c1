// Reads a base from bytes.
ghost use Rattle.std.specs.Prelude.{◌≡◌, ◌≤◌, false, vec_len, All, Err, IfOk, None, option_map, length};
ghost use Rattle.std.specs.Str.{is_utf8};
ghost use Rattle.toml.specs.View.{table_view};
ghost use Rattle.trend_num.specs.{TuningInRange};
ghost use Rattle.tag_base.specs.Answers.{AnswersDue, AnswersOneDue, broken};
ghost use Rattle.tag_base.specs.Bases.{tables_of, base_arrays, base_tables, BaseRead};
ghost use Rattle.tag_base.specs.Groups.{IsSoundGroup};

use crate::access::{tables_at, tables_if_there};
use crate::definition::Base;
use crate::group::groups_of;
use crate::refusal::{TextNo, broken, limited};
use crate::tag::tags_of;
use std::alloc::Global;
use toml::Table;
use toml_tables::{document, has_keys};
use trend_num::{WantOfMemory, What};

// The most tags of a base.
const MAX_TAGS: usize = 1024;

// The most groups of a base.
const MAX_GROUPS: usize = 16;

// The tables of the tags and of the groups of a base.
#[derive(Drop)]
struct BaseTables<'t> {
    tags: Vec<&'t Table>,
    groups: Vec<&'t Table>,
}

// The tables at the keys `tag` and `group` of a document. Each is an array of tables. `tag` has at least one table, and
// `group` is optional. `None` if the document has another form or another key.
fn base_arrays<'t>(alloc: Global, table: &'t Table) -> Result<Option<BaseTables<'t>>, WantOfMemory>
    ensures { IfOk result (λ found. option_map tables_of found ≡ base_arrays (table_view table.now)) }
{
    if !has_keys(table, &["tag"], &["group"]) {
        return Ok(None);
    }
    let Some(tags) = tables_at(alloc, table, "tag")? else {
        return Ok(None);
    };
    if tags.is_empty() {
        return Ok(None);
    }
    let Some(groups) = tables_if_there(alloc, table, "group")? else {
        return Ok(None);
    };
    Ok(Some(BaseTables { tags, groups }))
}

// The tables of the tags and of the groups. Refuses bytes that are no document, a document of another form, and too
// many tags or groups, in this order.
fn base_tables<'t>(alloc: Global, document: &'t Option<Table>) -> Result<BaseTables<'t>, TextNo>
    ensures none { document.now ≡ None → result ≡ Err (broken 1 0) }
    ensures tables { AnswersDue tables_of result (base_tables (option_map table_view document.now)) }
    ensures few_tags { IfOk result (λ tables. vec_len tables.tags ≤ 1024) }
    ensures few_groups { IfOk result (λ tables. vec_len tables.groups ≤ 16) }
{
    let Some(table) = document else {
        return Err(broken(1, 0));
    };
    let Some(tables) = base_arrays(alloc, table)? else {
        return Err(broken(2, 0));
    };
    limited(What::Tags, MAX_TAGS, tables.tags.len())?;
    limited(What::Groups, MAX_GROUPS, tables.groups.len())?;
    Ok(tables)
}

/// Reads a base from the bytes of a TOML text. The checks are in this order: the whole text, the counts of tags and of
/// groups, each tag in turn, each group in turn. The first check that fails decides the error: `BadText` names the
/// broken rule, and `Limit` the count above its limit. `WantOfMemory` comes if there is not enough memory.
pub fn read_base(alloc: Global, bytes: &[u8]) -> Result<Base, TextNo>
    ensures base { AnswersOneDue (λ base. base) result (BaseRead bytes.now) }

    // Bytes that are not UTF-8 break the first rule, however little memory there is.
    ensures no_text { is_utf8 bytes.now ≡ false → result ≡ Err (broken 1 0) }
    ensures sound { IfOk result (λ base. All (IsSoundGroup (length base.tags.items)) base.groups.items) }
    ensures tuned { IfOk result (λ base. All (λ tag. TuningInRange tag.tuning) base.tags.items) }
{
    let document = document(alloc, bytes)?;
    let tables = base_tables(alloc, &document)?;
    let tags = tags_of(alloc, &tables.tags)?;
    let groups = groups_of(alloc, &tags, &tables.groups)?;
    Ok(Base { tags, groups })
}
