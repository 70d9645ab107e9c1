// Which keys a table has.
ghost use Rattle.std.specs.Prelude.{◌≡◌, ◌||◌, map};
ghost use Rattle.std.specs.List.{list_all};
ghost use Rattle.toml.specs.View.{table_view};
ghost use Rattle.toml_tables.specs.Tables.{is_key_among, has_key, all_keys, has_keys};

use crate::values::value_at;
use toml::Table;

// Returns whether a key is one of these.
fn is_among(keys: &[&str], key: &str) -> bool
    ensures { result ≡ is_key_among (map (λ k. k.now) keys.now) key.now }
{
    for k in keys {
        if *k == key {
            return true;
        }
    }
    false
}

/// Returns whether a table has each of the needed keys, and besides them only keys among the others.
pub fn has_keys(table: &Table, needed: &[&str], others: &[&str]) -> bool
    ensures { result ≡ has_keys (map (λ k. k.now) needed.now) (map (λ k. k.now) others.now)
        (table_view table.now) }
{
    has_each(table, needed) && has_only(table, needed, others)
}

// Returns whether a table has each of these keys.
fn has_each(table: &Table, keys: &[&str]) -> bool
    ensures { result ≡ list_all (has_key (table_view table.now)) (map (λ k. k.now) keys.now) }
{
    for key in keys {
        if value_at(table, key).is_none() {
            return false;
        }
    }
    true
}

// Returns whether each key of a table is a needed one or one of the others.
fn has_only(table: &Table, needed: &[&str], others: &[&str]) -> bool
    ensures { result ≡ all_keys
        (λ key. is_key_among (map (λ k. k.now) needed.now) key || is_key_among (map (λ k. k.now) others.now) key)
        (table_view table.now) }
{
    for key in table.keys() {
        if !is_among(&*needed, key.as_str()) && !is_among(&*others, key.as_str()) {
            return false;
        }
    }
    true
}
