// The places on tapes of the answers to queries.
ghost use Rattle.std.specs.Prelude.{◌≡◌, ℕ, ◌+◌, ◌<◌, ◌^◌, List, [], IfOk, IfSome, None, Some, if◌then◌else◌, length, slice_index_or, slice_set};
ghost use Rattle.std.specs.Option.{option_or};
ghost use Rattle.calc_refresh.specs.{lists_of};
ghost use Rattle.plant_status.specs.declared.unit.Unit.TheVariants.{Group, Tag};
ghost use Rattle.tag_cell.specs.{TagHistory};
ghost use Rattle.session_report.specs.Askers.{is_by};
ghost use Rattle.session_report.specs.Places.{ArePlaces, HasPlaceOfEach, IsAboutOther, ArePlacesFilled, IsQueryAbout, is_about, kept_first, place_in, query_in};

use crate::asker::{Answers, Asker};
use group_book::GroupHistory;
use plant_status::Unit;
use std::alloc::Global;
use tag_cell::TagHistory;
use trend_num::WantOfMemory;
use value_rows::Query;

// Returns, for each query of each reader about a tag or a group, the place of its first answer on that unit's tape.
pub(crate) fn places_of(
    alloc: Global,
    readers: &[Vec<Query>],
    tags: &[TagHistory],
    groups: &[GroupHistory],
) -> Result<Vec<Vec<Option<usize>>>, WantOfMemory>
    requires few_tags { length tags.now < 2 ^ 32 }
    requires few_groups { length groups.now < 2 ^ 32 }
    ensures places { IfOk result (λ table. ArePlaces (lists_of readers.now) tags.now groups.now (lists_of table.items)) }
    ensures shape { IfOk result (λ table. HasPlaceOfEach (lists_of readers.now) (lists_of table.items)) }
{
    let mut table = empty_table(alloc, readers)?;
    // Without readers no tape need be read.
    if readers.is_empty() {
        return Ok(table);
    }
    fill_tags(&mut table, readers, tags);
    fill_groups(&mut table, readers, groups);
    Ok(table)
}

// Makes a table that has no places yet.
fn empty_table(
    alloc: Global,
    readers: &[Vec<Query>],
) -> Result<Vec<Vec<Option<usize>>>, WantOfMemory>
    ensures shape { IfOk result (λ table. HasPlaceOfEach (lists_of readers.now) (lists_of table.items)) }
    ensures none { IfOk result (λ table. (reader k : ℕ) → place_in (lists_of table.items) reader k ≡ None) }
{
    let mut table = Vec::new(alloc);
    for queries in readers {
        let places = vec![in alloc; None; queries.len()]?;
        table.push(places)?;
    }
    Ok(table)
}

// Adds the places on the tapes of tags to a table without places.
fn fill_tags(table: &mut Vec<Vec<Option<usize>>>, readers: &[Vec<Query>], tags: &[TagHistory])
    requires few { length tags.now < 2 ^ 32 }
    requires shape { HasPlaceOfEach (lists_of readers.now) (lists_of table.old.items) }
    requires none { ArePlaces (lists_of readers.now) [] [] (lists_of table.old.items) }
    ensures places { ArePlaces (lists_of readers.now) tags.now [] (lists_of table.new.items) }
    ensures shape { HasPlaceOfEach (lists_of readers.now) (lists_of table.new.items) }
{
    for tag in 0..tags.len() {
        let unit = Unit::Tag(tag as u32);
        fill(table, readers, unit, tags[tag].tape.as_slice());
    }
}

// Adds the places on the tapes of groups to a table without any of these.
fn fill_groups(table: &mut Vec<Vec<Option<usize>>>, readers: &[Vec<Query>], groups: &[GroupHistory])
    requires few { length groups.now < 2 ^ 32 }
    requires shape { HasPlaceOfEach (lists_of readers.now) (lists_of table.old.items) }
    ensures places { (tags : List TagHistory) → ArePlaces (lists_of readers.now) tags [] (lists_of table.old.items)
        → ArePlaces (lists_of readers.now) tags groups.now (lists_of table.new.items) }
    ensures shape { HasPlaceOfEach (lists_of readers.now) (lists_of table.new.items) }
{
    for group in 0..groups.len() {
        let unit = Unit::Group(group as u32);
        fill(table, readers, unit, groups[group].tape.as_slice());
    }
}

// Records where a tape first answers each query about its tag or group.
fn fill<E: Answers>(
    table: &mut Vec<Vec<Option<usize>>>,
    readers: &[Vec<Query>],
    unit: Unit,
    tape: &[E],
)
    requires shape { HasPlaceOfEach (lists_of readers.now) (lists_of table.old.items) }
    ensures filled { ArePlacesFilled E.asker (lists_of readers.now) unit tape.now (lists_of table.old.items) (lists_of table.new.items) }
    ensures shape { HasPlaceOfEach (lists_of readers.now) (lists_of table.new.items) }
{
    for place in 0..tape.len() {
        if let Some(by) = tape[place].asked_by() {
            keep(table, readers, unit, by, place);
        }
    }
}

// Records the place of an answer, if it is the first one to a query about this tag or group.
fn keep(
    table: &mut Vec<Vec<Option<usize>>>,
    readers: &[Vec<Query>],
    unit: Unit,
    by: Asker,
    place: usize,
)
    requires shape { HasPlaceOfEach (lists_of readers.now) (lists_of table.old.items) }
    ensures kept { (reader k : ℕ) → place_in (lists_of table.new.items) reader k
        ≡ kept_first unit (query_in (lists_of readers.now) reader k) (place_in (lists_of table.old.items) reader k)
        (if is_by reader (k + 1) (Some by) then Some place else None) }
    ensures shape { HasPlaceOfEach (lists_of readers.now) (lists_of table.new.items) }
{
    if let Some(k) = query_about(readers, unit, by) {
        keep_first(&mut table[by.reader as usize], k, place);
    }
}

// Returns the place of the query that an entry answers, if the query is about this tag or group.
fn query_about(readers: &[Vec<Query>], unit: Unit, by: Asker) -> Option<usize>
    ensures about { IfSome result (IsQueryAbout (lists_of readers.now) unit by) }
    ensures none { result ≡ None → IsAboutOther (lists_of readers.now) unit by }
{
    let reader = by.reader as usize;
    if reader >= readers.len() || by.row == 0 {
        return None;
    }
    let queries = readers[reader].as_slice();
    let place = by.row - 1;
    if place >= queries.len() as u64 {
        return None;
    }
    if is_about(unit, queries[place as usize]) {
        Some(place as usize)
    } else {
        None
    }
}

// Writes a place where there is none yet.
fn keep_first(places: &mut Vec<Option<usize>>, k: usize, place: usize)
    requires { k < length places.old.items }
    ensures { places.new.items ≡ slice_set places.old.items k (option_or (slice_index_or places.old.items k None) (Some place)) }
{
    if places[k].is_none() {
        places[k] = Some(place);
    }
}

// Whether a query is about a tag or a group.
fn is_about(unit: Unit, query: Query) -> bool
    ensures { result ≡ is_about unit (Some query) }
{
    match (unit, query) {
        (Unit::Tag(tag), Query::Tag { tag: its, .. }) => its == tag,
        (Unit::Group(group), Query::Row { group: its, .. }) => its == group,
        _ => false,
    }
}
