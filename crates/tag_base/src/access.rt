// The names, the numbers and the tables at the keys of a table.
ghost use Rattle.std.specs.Prelude.{◌≡◌, ◌≤◌, [], map, IfOk, IfSome, option_map};
ghost use Rattle.toml.specs.View.{table_view, items_view};
ghost use Rattle.tag_base.specs.Tables.{name_at, number_at, within, tables_at, tables_if_there, tables_after};

use std::alloc::Global;
use toml::{Table, Value};
use toml_tables::{items_at, string_at, value_at};
use trend_num::{Name, WantOfMemory, name_from};

// The name at a key. `None` if there is no text at the key, or the text is no name.
pub(crate) fn name_at(table: &Table, key: &str) -> Option<Name>
    ensures { result ≡ name_at key.now (table_view table.now) }
{
    match string_at(table, key) {
        Some(text) => name_from(text.as_bytes()),
        None => None,
    }
}

// The whole number at a key. `None` if there is none, or if it is not from `least` to `most`, both included.
pub(crate) fn number_at(table: &Table, key: &str, least: u64, most: u64) -> Option<u64>
    ensures number { result ≡ number_at key.now least most (table_view table.now) }
    ensures not_below { IfSome result (λ n. least ≤ n) }
    ensures not_above { IfSome result (λ n. n ≤ most) }
{
    match value_at(table, key) {
        Some(value) => match value.as_integer() {
            Some(number) => within(number, least, most),
            None => None,
        },
        None => None,
    }
}

// The number, or `None` if it is below `least` or above `most`.
fn within(number: i64, least: u64, most: u64) -> Option<u64>
    ensures number { result ≡ within least most number }
    ensures not_below { IfSome result (λ n. least ≤ n) }
    ensures not_above { IfSome result (λ n. n ≤ most) }
{
    let Ok(number) = u64::try_from(number) else {
        return None;
    };
    if number < least || number > most {
        return None;
    }
    Some(number)
}

// The tables of the array at a key. `None` if there is no array, or if an item is no table.
pub(crate) fn tables_at<'t>(
    alloc: Global,
    table: &'t Table,
    key: &str,
) -> Result<Option<Vec<&'t Table>>, WantOfMemory>
    ensures { IfOk result (λ found.
        option_map (λ ts. map (λ t. table_view t.now) ts.items) found
        ≡ tables_at key.now (table_view table.now)) }
{
    match items_at(table, key) {
        Some(items) => tables_of(alloc, items),
        None => Ok(None),
    }
}

// The same for an optional key: an empty list if the key is missing.
pub(crate) fn tables_if_there<'t>(
    alloc: Global,
    table: &'t Table,
    key: &str,
) -> Result<Option<Vec<&'t Table>>, WantOfMemory>
    ensures { IfOk result (λ found.
        option_map (λ ts. map (λ t. table_view t.now) ts.items) found
        ≡ tables_if_there key.now (table_view table.now)) }
{
    if value_at(table, key).is_none() {
        return Ok(Some(Vec::new(alloc)));
    }
    tables_at(alloc, table, key)
}

// The items as tables. `None` if an item is no table.
fn tables_of<'t>(alloc: Global, items: &'t [Value]) -> Result<Option<Vec<&'t Table>>, WantOfMemory>
    ensures { IfOk result (λ found.
        option_map (λ ts. map (λ t. table_view t.now) ts.items) found
        ≡ tables_after [] (items_view items.now)) }
{
    let mut tables = Vec::new(alloc);
    for item in items {
        let Some(table) = item.as_table() else {
            return Ok(None);
        };
        tables.push(table)?;
    }
    Ok(Some(tables))
}
