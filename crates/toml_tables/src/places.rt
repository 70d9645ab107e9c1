// The places that the texts of an array name.
ghost use Rattle.std.specs.Prelude.{◌≡◌, ◌≤◌, [], ℕ, All, IfOk, IfSome, List, Option, length, option_map, vec_len};
ghost use Rattle.toml.specs.View.{items_view, table_view};
ghost use Rattle.toml_tables.specs.Tables.{places_after, places_at};

use crate::values::{has_count, items_at};
use std::alloc::Global;
use toml::{Table, Value};
use trend_num::WantOfMemory;

/// A meaning of names: for example, the name of a tag stands for the tag's place.
pub trait Places {
    type Place: Copy + Drop;

    ghost place_of: { Self → List Self.Place → List ℕ → Option Self.Place };

    ghost is_place: { Self → Self.Place → Type 0 };

    /// Returns the place that a name stands for, after these earlier ones. It returns `None` if the name stands for
    /// none.
    fn place_of(&self, earlier: &[Self::Place], name: &str) -> Option<Self::Place>
        ensures place { result ≡ place_of self.now earlier.now name.now }
        ensures is_place { IfSome result (is_place self.now) };
}

// The places that items name. Each item has to be a text.
fn places_of<P: Places>(
    alloc: Global,
    places: &P,
    items: &[Value],
) -> Result<Option<Vec<P::Place>>, WantOfMemory>
    ensures places { IfOk result (λ found. option_map (λ found. found.items) found
        ≡ places_after (P.place_of places.now) [] (items_view items.now)) }
    ensures are_places { IfOk result (λ found. IfSome found (λ found. All (P.is_place places.now) found.items)) }
    ensures as_many { IfOk result (λ found. IfSome found (λ found. vec_len found ≡ length items.now)) }
{
    let mut found = Vec::new(alloc);
    for item in items {
        let Some(name) = item.as_str() else {
            return Ok(None);
        };
        let Some(place) = places.place_of(&found, name) else {
            return Ok(None);
        };
        found.push(place)?;
    }
    Ok(Some(found))
}

/// Returns the places that the array at a key of a table names: at least one, and at most `most`.
pub fn places_at<P: Places>(
    alloc: Global,
    places: &P,
    table: &Table,
    key: &str,
    most: usize,
) -> Result<Option<Vec<P::Place>>, WantOfMemory>
    ensures places { IfOk result (λ found. option_map (λ found. found.items) found
        ≡ places_at (P.place_of places.now) most key.now (table_view table.now)) }
    ensures are_places { IfOk result (λ found. IfSome found (λ found. All (P.is_place places.now) found.items)) }
    ensures some { IfOk result (λ found. IfSome found (λ found. 1 ≤ vec_len found)) }
    ensures few { IfOk result (λ found. IfSome found (λ found. vec_len found ≤ most)) }
{
    let Some(items) = items_at(table, key) else {
        return Ok(None);
    };
    if !has_count(items, most) {
        return Ok(None);
    }
    places_of(alloc, places, items)
}
