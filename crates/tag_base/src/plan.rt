// Reads a plan from bytes.
ghost use Rattle.std.specs.Prelude.{◌≡◌, ◌≤◌, ◌<◌, [], false, map, length, Err, IfOk, None, option_map, All, vec_len, IfSome};
ghost use Rattle.std.specs.Str.{is_utf8};
ghost use Rattle.toml.specs.View.{table_view};
ghost use Rattle.tag_base.specs.Answers.{AnswersDue, broken};
ghost use Rattle.tag_base.specs.Plans.{most_files, tables_of, plan_arrays, plan_tables, file_of, files_after, is_refreshed, new_group, refresher_of, refreshers_after, plan_parts, plan};

use crate::access::{number_at, tables_if_there};
use crate::definition::{Base, GroupDef};
use crate::file_name::FileName;
use crate::group::group_place;
use crate::refusal::{TextNo, broken, limited};
use crate::schedule::{Plan, Refresher};
use std::alloc::Global;
use toml::Table;
use toml_tables::{document, has_keys, string_at};
use trend_num::{WantOfMemory, What};

// The most collectors of a plan, and the most readers.
const MAX_FILES: usize = 16;

// The most bytes of a file's name.
const MAX_NAME: usize = 255;

// The most turns of a refresher.
const MAX_TURNS: u64 = 1000;

// The tables of the collectors, the readers and the refreshers of a plan.
#[derive(Drop)]
struct PlanTables<'t> {
    collectors: Vec<&'t Table>,
    readers: Vec<&'t Table>,
    refreshers: Vec<&'t Table>,
}

// The tables of a document at `collector`, `reader` and `refresher`. Each key is optional, and holds an array of
// tables. `None` if the document has another form or another key.
fn plan_arrays<'t>(alloc: Global, table: &'t Table) -> Result<Option<PlanTables<'t>>, WantOfMemory>
    ensures { IfOk result (λ found. option_map tables_of found ≡ plan_arrays (table_view table.now)) }
{
    if !has_keys(table, &[], &["collector", "reader", "refresher"]) {
        return Ok(None);
    }
    let Some(collectors) = tables_if_there(alloc, table, "collector")? else {
        return Ok(None);
    };
    let Some(readers) = tables_if_there(alloc, table, "reader")? else {
        return Ok(None);
    };
    let Some(refreshers) = tables_if_there(alloc, table, "refresher")? else {
        return Ok(None);
    };
    Ok(Some(PlanTables {
        collectors,
        readers,
        refreshers,
    }))
}

// The tables of the collectors, the readers and the refreshers. Refuses bytes that are no document, a document of
// another form, and too many collectors or readers, in this order.
fn plan_tables<'t>(alloc: Global, document: &'t Option<Table>) -> Result<PlanTables<'t>, TextNo>
    ensures none { document.now ≡ None → result ≡ Err (broken 1 0) }
    ensures tables { AnswersDue tables_of result (plan_tables (option_map table_view document.now)) }
    ensures few_collectors { IfOk result (λ tables. vec_len tables.collectors ≤ most_files) }
    ensures few_readers { IfOk result (λ tables. vec_len tables.readers ≤ most_files) }
{
    let Some(table) = document else {
        return Err(broken(1, 0));
    };
    let Some(tables) = plan_arrays(alloc, table)? else {
        return Err(broken(2, 0));
    };
    limited(What::Collectors, MAX_FILES, tables.collectors.len())?;
    limited(What::Readers, MAX_FILES, tables.readers.len())?;
    Ok(tables)
}

// The file name of a table that has the key `file` alone. `None` if the table has another form, or the name is empty or
// longer than 255 bytes.
fn file_of(alloc: Global, table: &Table) -> Result<Option<FileName>, WantOfMemory>
    ensures { IfOk result (λ found. found ≡ file_of (table_view table.now)) }
{
    if !has_keys(table, &["file"], &[]) {
        return Ok(None);
    }
    let Some(text) = string_at(table, "file") else {
        return Ok(None);
    };
    if text.is_empty() || text.len() > MAX_NAME {
        return Ok(None);
    }
    let text = String::from_str(alloc, text)?;
    Ok(Some(FileName::new(text)))
}

// The files of tables. Refuses the first table that breaks this rule.
fn files_of(alloc: Global, rule: u8, tables: &[&Table]) -> Result<Vec<FileName>, TextNo>
    ensures files { AnswersDue (λ files. files.items) result
        (files_after rule [] (map (λ t. table_view t.now) tables.now)) }
    ensures few { IfOk result (λ files. vec_len files ≤ length tables.now) }
{
    let mut files = Vec::new(alloc);
    for table in tables {
        let Some(file) = file_of(alloc, table)? else {
            return Err(broken(rule, files.len()));
        };
        files.push(file)?;
    }
    Ok(files)
}

// Whether one of these refreshers has the group at a place.
fn is_refreshed(refreshers: &[Refresher], group: u32) -> bool
    ensures { result ≡ is_refreshed refreshers.now group }
{
    refreshers.iter().any(|refresher| refresher.group == group)
}

// The place of the group that a table names. `None` if there is no such group, or an earlier refresher has it.
fn new_group(groups: &[GroupDef], earlier: &[Refresher], table: &Table) -> Option<u32>
    requires { length groups.now ≤ 16 }
    ensures group { result ≡ new_group groups.now earlier.now (table_view table.now) }
    ensures is_group { IfSome result (λ place. place < length groups.now) }
{
    let Some(name) = string_at(table, "group") else {
        return None;
    };
    let Some(place) = group_place(groups, name.as_bytes()) else {
        return None;
    };
    let place = place as u32;
    if is_refreshed(earlier, place) {
        return None;
    }
    Some(place)
}

// The refresher of a table that names a group and 0 to 1,000 turns. `None` if the table has another form, or an earlier
// refresher has the group.
fn refresher_of(groups: &[GroupDef], earlier: &[Refresher], table: &Table) -> Option<Refresher>
    requires { length groups.now ≤ 16 }
    ensures refresher { result ≡ refresher_of groups.now earlier.now (table_view table.now) }
    ensures is_group { IfSome result (λ r. r.group < length groups.now) }
{
    if !has_keys(table, &["group", "turns"], &[]) {
        return None;
    }
    let group = new_group(groups, earlier, table)?;
    let turns = number_at(table, "turns", 0, MAX_TURNS)? as u32;
    Some(Refresher { group, turns })
}

// The refreshers of tables. Refuses the first table that is none.
fn refreshers_of(
    alloc: Global,
    groups: &[GroupDef],
    tables: &[&Table],
) -> Result<Vec<Refresher>, TextNo>
    requires { length groups.now ≤ 16 }
    ensures groups { IfOk result (λ rs. All (λ r. r.group < length groups.now) rs.items) }
    ensures refreshers { AnswersDue (λ rs. rs.items) result
        (refreshers_after groups.now [] (map (λ t. table_view t.now) tables.now)) }
{
    let mut refreshers = Vec::new(alloc);
    for table in tables {
        let Some(refresher) = refresher_of(groups, &refreshers, table) else {
            return Err(broken(5, refreshers.len()));
        };
        refreshers.push(refresher)?;
    }
    Ok(refreshers)
}

/// Reads a plan over the groups of a base from the bytes of a TOML text. The checks are in this order: the whole text,
/// the counts of collectors and of readers, each collector, each reader, each refresher in turn. The first check that
/// fails decides the error: `BadText` names the broken rule, and `Limit` the count above its limit. `WantOfMemory`
/// comes if there is not enough memory.
pub fn read_plan(alloc: Global, bytes: &[u8], base: &Base) -> Result<Plan, TextNo>
    ensures plan { AnswersDue plan_parts result (plan base.now.groups.items bytes.now) }

    // Bytes that are not UTF-8 break the first rule, however little memory there is.
    ensures no_text { is_utf8 bytes.now ≡ false → result ≡ Err (broken 1 0) }
    ensures groups { IfOk result (λ plan.
        All (λ r. r.group < vec_len base.now.groups) plan.refreshers.items) }
{
    let document = document(alloc, bytes)?;
    let tables = plan_tables(alloc, &document)?;
    let collectors = files_of(alloc, 3, &tables.collectors)?;
    let readers = files_of(alloc, 4, &tables.readers)?;
    let refreshers = refreshers_of(alloc, &base.groups, &tables.refreshers)?;
    Ok(Plan {
        collectors,
        readers,
        refreshers,
    })
}
