// The lines of answers about tags and groups.
ghost use Rattle.std.specs.Prelude.{◌≡◌, ◌+◌, ◌<◌, ◌^◌, IfOk, string_bytes};
ghost use Rattle.trend_report.specs.declared.reply_line.ReplyText.TheVariants.{Row};
ghost use Rattle.trend_report.specs.{reply_text};
ghost use Rattle.session_report.specs.Askers.{first_by, group_asker, tag_asker};
ghost use Rattle.session_report.specs.Places.{place_by};
ghost use Rattle.session_report.specs.Report.{answer_of_group, answer_of_tag, group_tape, tag_tape};

use group_book::{GroupHistory, Turn};
use std::alloc::Global;
use tag_cell::{Entry, TagHistory};
use trend_num::{CalcValue, WantOfMemory};
use trend_report::{ReplyText, answer_line, reply_text};

// Returns the tape of the tag at a place, or an empty tape if there is no such tag.
pub(crate) fn tag_tape(tags: &[TagHistory], tag: u32) -> &[Entry]
    ensures { result.now ≡ tag_tape tags.now tag }
{
    match tags.get(tag as usize) {
        Some(tag) => tag.tape.as_slice(),
        None => &[],
    }
}

// Returns the tape of the group at a place, or an empty tape if there is no such group.
pub(crate) fn group_tape(groups: &[GroupHistory], group: u32) -> &[Turn]
    ensures { result.now ≡ group_tape groups.now group }
{
    match groups.get(group as usize) {
        Some(group) => group.tape.as_slice(),
        None => &[],
    }
}

// Returns the line of the answer to a question about a tag. `found` is the answer's place on the tag's tape.
pub(crate) fn tag_answer(
    alloc: Global,
    tape: &[Entry],
    found: Option<usize>,
    reader: u32,
    row: u64,
) -> Result<String, WantOfMemory>
    requires few { reader + 1 < 2 ^ 32 }
    requires found { found ≡ place_by tag_asker reader row tape.now }
    ensures { IfOk result (λ text. string_bytes text
        ≡ reply_text (reader + 1) row (answer_of_tag (first_by tag_asker reader row tape.now))) }
{
    if let Some(place) = found {
        if let Entry::Ask { reply, .. } = &tape[place] {
            return answer_line(alloc, reader + 1, row, reply);
        }
    }
    reply_text(alloc, reader + 1, row, &ReplyText::Row(None))
}

// Returns the answer to a question for a value of a group. `found` is the answer's place on the group's tape.
pub(crate) fn group_answer(
    tape: &[Turn],
    found: Option<usize>,
    reader: u32,
    row: u64,
) -> Option<CalcValue>
    requires found { found ≡ place_by group_asker reader row tape.now }
    ensures { Row result ≡ answer_of_group (first_by group_asker reader row tape.now) }
{
    if let Some(place) = found {
        if let Turn::Ask { reply, .. } = &tape[place] {
            return *reply;
        }
    }
    None
}
