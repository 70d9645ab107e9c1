// The answers of the top call, with their codes and lines.
ghost use Rattle.std.specs.Prelude.{◌≡◌, []};
ghost use Rattle.plant_status.specs.Line.{IsLine};
ghost use Rattle.plant_status.specs.Status.{code_of, status_line_of, IsSilent};

use crate::fault_line::Line;
use crate::file::FileId;
use crate::mismatch::{Place, Seen};
use crate::unit::Unit;
use crate::word::{reason_word, what_word};
use trend_num::{Reason, TagDef, What};

/// The answer of the top call.
#[derive(Clone, Copy, Debug, PartialEq, Eq)]
pub enum Status {
    /// All went well.
    Done,
    /// The words of the command line are not understood.
    BadWords,
    /// A base, a plan or a calendar first breaks this rule. `place` is the number of the table, from 0, and `at` the
    /// byte of a formula's text. Both are 0 if the rule concerns the whole text. The line prints all three as they are.
    BadText {
        file: FileId,
        rule: u8,
        place: u32,
        at: u32,
    },
    /// A row of a file, counted from 1, is refused; this is the first reason. The line prints `row` as it is.
    BadRow {
        file: FileId,
        row: u64,
        reason: Reason,
    },
    /// A file cannot be read.
    ReadFault {
        file: FileId,
    },
    /// The output cannot be written.
    WriteFault,
    /// A device failed.
    DeviceFault {
        unit: Unit,
    },
    /// A device's bytes first break its layout at this place. `byte` is the byte there, or none if the device ends
    /// there.
    Damaged {
        unit: Unit,
        at: u64,
        byte: Option<u8>,
    },
    /// The device is that of another tag, or of a tag of another kind.
    OtherTag {
        tag: u32,
        found: TagDef,
        wanted: TagDef,
    },
    /// A quantity is over its limit, or would be. `number` is how many there are or would be, or the first number that
    /// is too many. The line names the quantity and the number.
    Limit {
        what: What,
        number: u64,
    },
    /// What a session or a device's bytes have (`kept`) differs from what was expected there (`told`).
    Mismatch {
        place: Place,
        kept: Seen,
        told: Seen,
    },
    /// A worker was stopped by its pass. The line prints its number from 0.
    Halted {
        worker: u32,
    },
    /// There was not enough memory.
    WantOfMemory,
    /// The log is that of another plant. The names of its tags, a line each, first differ at this byte, from 0, or end
    /// there.
    OtherPlant {
        at: u32,
    },
    /// A word of the command line, counted from 1, names no group of the base, or no calculation of the group.
    BadName {
        word: u8,
    },
}

/// Returns the exit code of a status.
pub fn code(status: &Status) -> u8
    ensures { result ≡ code_of status.now }
{
    match status {
        Status::Done => 0,
        Status::BadWords => 2,
        Status::BadText { .. } => 3,
        Status::BadRow { .. } => 4,
        Status::ReadFault { .. } => 5,
        Status::WriteFault => 6,
        Status::DeviceFault { .. } => 7,
        Status::Damaged { .. } => 8,
        Status::OtherTag { .. } => 9,
        Status::Limit { .. } => 10,
        Status::Mismatch { .. } => 11,
        Status::Halted { .. } => 12,
        Status::WantOfMemory => 13,
        Status::OtherPlant { .. } => 15,
        Status::BadName { .. } => 16,
    }
}

/// Returns the line that a status prints. It is empty for `Done` and `WriteFault`.
pub fn line(status: &Status) -> Line
    ensures text { result ≡ status_line_of status.now }
    ensures silent { IsSilent status.now → result ≡ [] }
    ensures one_line { ¬ IsSilent status.now → IsLine result }
{
    match *status {
        Status::Done | Status::WriteFault => Line::empty(),
        Status::BadWords => Line::fault("words").end(),
        Status::BadText {
            file,
            rule,
            place,
            at,
        } => bad_text(file, rule, place, at),
        Status::BadRow { file, row, reason } => {
            Line::fault("row")
                .file(file)
                .number(row)
                .word(reason_word(reason))
                .end()
        }
        Status::ReadFault { file } => Line::fault("read").file(file).end(),
        Status::Limit { what, number } => Line::fault("limit")
            .word(what_word(what))
            .number(number)
            .end(),
        Status::DeviceFault { unit } => Line::fault("device").unit(unit).end(),
        Status::Damaged { unit, at, byte } => {
            Line::fault("damaged")
                .unit(unit)
                .number(at)
                .byte(byte)
                .end()
        }
        Status::OtherTag { tag, .. } => Line::fault("other").unit(Unit::Tag(tag)).end(),
        Status::Mismatch { .. } => Line::fault("mismatch").end(),
        Status::Halted { worker } => Line::fault("halted").number(u64::from(worker)).end(),
        Status::WantOfMemory => Line::fault("memory").end(),
        Status::OtherPlant { at } => Line::fault("other plant").small(at).end(),
        Status::BadName { word } => Line::fault("name").small(u32::from(word)).end(),
    }
}

// Returns the line for a text that breaks a rule.
fn bad_text(file: FileId, rule: u8, place: u32, at: u32) -> Line
    ensures text { result ≡ status_line_of (Status.BadText file rule place at) }
    ensures one_line { IsLine result }
{
    Line::fault("text")
        .file(file)
        .named("rule", u32::from(rule))
        .named("place", place)
        .named("at", at)
        .end()
}
