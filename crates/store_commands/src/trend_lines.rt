// All replies, in one text.
ghost use Rattle.std.specs.Prelude.{◌≡◌, ◌++◌, ◌<◌, ◌^◌, All, IfOk, OnOk, length, map, string_bytes};
ghost use Rattle.store_commands.specs.TagContents.{AreContentsOf};
ghost use Rattle.store_commands.specs.Replies.{IsAsked, replies_from, rows_in, trend_text};

use crate::query_answer::reply_to;
use crate::tag_contents::contents_of;
use group_book::GroupHistory;
use late_insert::Content;
use std::alloc::Global;
use tag_core::TagCore;
use trend_num::WantOfMemory;
use trend_report::reply_text;
use value_rows::Query;

/// Returns what `trend` prints: the answers to the queries of the readers, in order. The answers come from the tags as
/// they were opened, and from the rows of the groups. Each query is of one of these tags or groups. The error comes if
/// there is not enough memory.
pub fn trend_text(
    alloc: Global,
    cores: &[TagCore],
    groups: &[GroupHistory],
    readers: &[Vec<Query>],
) -> Result<String, WantOfMemory>
    requires few_readers { length readers.now < 2 ^ 32 }
    requires asked { All (λ queries. All (IsAsked (length cores.now) (length groups.now)) queries.items) readers.now }
    ensures { IfOk result (λ text. string_bytes text
        ≡ trend_text cores.now (rows_in groups.now) (map (λ queries. queries.items) readers.now)) }
{
    let contents = contents_of(alloc, cores)?;
    let mut text = String::new(alloc);
    for (place, queries) in readers.iter().enumerate() {
        let reader = place as u32 + 1;
        put_replies(
            alloc,
            &mut text,
            cores,
            contents.as_slice(),
            groups,
            reader,
            queries.as_slice(),
        )?;
    }
    Ok(text)
}

// Appends the replies to the queries of a reader.
fn put_replies(
    alloc: Global,
    text: &mut String,
    cores: &[TagCore],
    contents: &[Content],
    groups: &[GroupHistory],
    reader: u32,
    queries: &[Query],
) -> Result<(), WantOfMemory>
    requires contents { AreContentsOf cores.now contents.now }
    requires asked { All (IsAsked (length cores.now) (length groups.now)) queries.now }
    ensures { OnOk result (string_bytes text.new
        ≡ string_bytes text.old ++ replies_from cores.now (rows_in groups.now) reader 1 queries.now) }
{
    for (place, query) in queries.iter().enumerate() {
        let reply = reply_to(alloc, cores, contents, groups, *query)?;
        let line = reply_text(alloc, reader, place as u64 + 1, &reply)?;
        put_text(text, line.as_str())?;
    }
    Ok(())
}

// Appends a text.
fn put_text(text: &mut String, more: &str) -> Result<(), WantOfMemory>
    ensures { OnOk result (string_bytes text.new ≡ string_bytes text.old ++ more.now) }
{
    Ok(text.push_str(more)?)
}
