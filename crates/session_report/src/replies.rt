// The lines of replies.
ghost use Rattle.std.specs.Prelude.{◌≡◌, ℕ, ◌++◌, ◌+◌, ◌<◌, ◌^◌, All, IfOk, OnOk, Some, None, length, slice_get, slice_index_or, string_bytes};
ghost use Rattle.calc_refresh.specs.{lists_of};
ghost use Rattle.trend_report.specs.{reply_text};
ghost use Rattle.session_report.specs.Places.{IsHeldFor, answer_place_of};
ghost use Rattle.session_report.specs.Report.{replies_to, reply_lines, reply_to};

use crate::answer::{group_answer, group_tape, tag_answer, tag_tape};
use crate::places::places_of;
use crate::session::Session;
use crate::snap::{held_lists, snap_of, told_at};
use std::alloc::Global;
use trend_num::{Point, WantOfMemory};
use trend_report::{ReplyText, reply_text};
use value_rows::Query;

// Adds a line of the reply to each query of each reader. `notes` is the place of the first reader's note.
pub(crate) fn put_replies(
    alloc: Global,
    text: &mut String,
    session: &Session,
    notes: usize,
    readers: &[Vec<Query>],
) -> Result<(), WantOfMemory>
    requires few_workers { notes + length readers.now < 2 ^ 32 }
    requires few_tags { length session.now.tags.items < 2 ^ 32 }
    requires few_groups { length session.now.groups.items < 2 ^ 32 }
    ensures { OnOk result (string_bytes text.new
        ≡ string_bytes text.old ++ reply_lines session.now notes (lists_of readers.now)) }
{
    let places = places_of(alloc, readers, &session.tags, &session.groups)?;
    let held = held_lists(alloc, readers, &session.tags)?;
    let table = places.as_slice();
    for reader in 0..readers.len() {
        let queries = readers[reader].as_slice();
        let found = table[reader].as_slice();
        put_reader(alloc, text, session, &held, notes, reader, queries, found)?;
    }
    Ok(())
}

// Adds the replies to one reader.
fn put_reader(
    alloc: Global,
    text: &mut String,
    session: &Session,
    held: &[Vec<Point>],
    notes: usize,
    reader: usize,
    queries: &[Query],
    found: &[Option<usize>],
) -> Result<(), WantOfMemory>
    requires few { notes + reader + 1 < 2 ^ 32 }
    requires as_many_tags { length held.now ≡ length session.now.tags.items }
    requires held { All (λ asked. IsHeldFor asked session.now.tags.items (lists_of held.now)) queries.now }
    requires as_many { length found.now ≡ length queries.now }
    requires found { (k : ℕ) → slice_index_or found.now k None
        ≡ answer_place_of session.now.tags.items session.now.groups.items reader k (slice_get queries.now k) }
    ensures { OnOk result (string_bytes text.new
        ≡ string_bytes text.old ++ replies_to session.now notes reader queries.now) }
{
    for place in 0..queries.len() {
        let query = queries[place];
        let at = found[place];
        put_reply(alloc, text, session, held, notes, reader, place, query, at)?;
    }
    Ok(())
}

// Adds the line of the reply to a query.
fn put_reply(
    alloc: Global,
    text: &mut String,
    session: &Session,
    held: &[Vec<Point>],
    notes: usize,
    reader: usize,
    place: usize,
    query: Query,
    found: Option<usize>,
) -> Result<(), WantOfMemory>
    requires few { notes + reader + 1 < 2 ^ 32 }
    requires rows { place + 1 < 2 ^ 64 }
    requires as_many { length held.now ≡ length session.now.tags.items }
    requires held { IsHeldFor query session.now.tags.items (lists_of held.now) }
    requires found { found ≡ answer_place_of session.now.tags.items session.now.groups.items reader place (Some query) }
    ensures { OnOk result (string_bytes text.new
        ≡ string_bytes text.old ++ reply_text (reader + 1) (place + 1) (reply_to session.now notes reader place query)) }
{
    let line = reply_line(alloc, session, held, notes, reader, place, query, found)?;
    Ok(text.push_str(line.as_str())?)
}

// Returns the line of the reply to a query.
fn reply_line(
    alloc: Global,
    session: &Session,
    held: &[Vec<Point>],
    notes: usize,
    reader: usize,
    place: usize,
    query: Query,
    found: Option<usize>,
) -> Result<String, WantOfMemory>
    requires few { notes + reader + 1 < 2 ^ 32 }
    requires rows { place + 1 < 2 ^ 64 }
    requires as_many { length held.now ≡ length session.now.tags.items }
    requires held { IsHeldFor query session.now.tags.items (lists_of held.now) }
    requires found { found ≡ answer_place_of session.now.tags.items session.now.groups.items reader place (Some query) }
    ensures { IfOk result (λ text. string_bytes text
        ≡ reply_text (reader + 1) (place + 1) (reply_to session.now notes reader place query)) }
{
    let (number, row) = (reader as u32, place as u64 + 1);
    let reply = match query {
        Query::Tag { tag, .. } => {
            let tape = tag_tape(&session.tags, tag);
            return tag_answer(alloc, tape, found, number, row);
        }
        Query::Row { group, .. } => {
            let tape = group_tape(&session.groups, group);
            ReplyText::Row(group_answer(tape, found, number, row))
        }
        Query::Snap { tag } => {
            let told = told_at(&session.workers, notes + reader, place);
            ReplyText::Snap(snap_of(&session.tags, held, tag, told))
        }
    };
    reply_text(alloc, number + 1, row, &reply)
}
