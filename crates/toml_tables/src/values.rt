// The values at the keys of a table.
ghost use Rattle.std.specs.Prelude.{◌≡◌, ◌↔◌, ◌≤◌, IsTrue, length, option_map};
ghost use Rattle.toml.specs.Data.{get_member};
ghost use Rattle.toml.specs.View.{view, table_view, items_view};
ghost use Rattle.toml_tables.specs.Tables.{string_at, array_at, is_count};

use toml::{Table, Value};

/// Returns the value at a key, if there is one.
pub fn value_at<'t>(table: &'t Table, key: &str) -> Option<&'t Value>
    ensures { option_map (λ v. view v.now) result ≡ get_member key.now (table_view table.now) }
{
    table.get(key)
}

/// Returns the text at a key, if the value there is a text.
pub fn string_at<'t>(table: &'t Table, key: &str) -> Option<&'t str>
    ensures { option_map (λ s. s.now) result ≡ string_at key.now (table_view table.now) }
{
    match value_at(table, key) {
        Some(value) => value.as_str(),
        None => None,
    }
}

/// Returns the items of the array at a key, if the value there is an array.
pub fn items_at<'t>(table: &'t Table, key: &str) -> Option<&'t [Value]>
    ensures { option_map (λ items. items_view items.now) result ≡ array_at key.now (table_view table.now) }
{
    let Some(value) = value_at(table, key) else {
        return None;
    };
    match value.as_array() {
        Some(items) => Some(items.as_slice()),
        None => None,
    }
}

/// Returns whether there is at least one item, and at most `most`.
#[tactic(auto, using(crate::proofs::Items::count_of_items))]
pub fn has_count(items: &[Value], most: usize) -> bool
    ensures told { result ≡ is_count most (items_view items.now) }
    ensures counted { IsTrue result ↔ ((1 ≤ length items.now) × (length items.now ≤ most)) }
{
    let count = items.len();
    1 <= count && count <= most
}
