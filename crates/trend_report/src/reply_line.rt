// The line of a reply.
ghost use Rattle.std.specs.Prelude.{◌≡◌, ◌++◌, IfOk, OnOk, string_bytes};
ghost use Rattle.trend_report.specs.declared.reply_line.ReplyText.TheVariants.{Tag};
ghost use Rattle.trend_report.specs.Lines.{answer_text, asker_text, cause_text, number_text, points_text, reading_text, reply_text, told_text, value_text, whole_of};

use crate::point_text::{put_held, put_point};
use interp_read::{PointList, Reading, Reply};
use std::alloc::{AllocError, Global};
use trend_num::{Bad, CalcValue, Frac, Point, Snap, WantOfMemory};

/// The answer to a query.
#[derive(Drop)]
pub enum ReplyText {
    /// The reply to a question about a tag.
    Tag(Reply),
    /// The snapshot of a tag.
    Snap(Snap),
    /// The value of a calculation in a window, or `None` if there is no such window.
    Row(Option<CalcValue>),
}

/// Returns the line `reply READER ROW TEXT`, with its line feed. Readers and rows are counted from 1. Returns
/// `WantOfMemory` if the memory cannot be allocated.
pub fn reply_text(
    alloc: Global,
    reader: u32,
    row: u64,
    reply: &ReplyText,
) -> Result<String, WantOfMemory>
    ensures { IfOk result (λ text. string_bytes text ≡ reply_text reader row reply.now) }
{
    Ok(reply_line(alloc, reader, row, reply)?)
}

/// Returns the line of [`reply_text`] for a reply to a question about a tag, without taking the reply.
pub fn answer_line(
    alloc: Global,
    reader: u32,
    row: u64,
    reply: &Reply,
) -> Result<String, WantOfMemory>
    ensures { IfOk result (λ text. string_bytes text ≡ reply_text reader row (Tag reply.now)) }
{
    Ok(line_of_answer(alloc, reader, row, reply)?)
}

// Like `answer_line`, with the allocator's own error.
fn line_of_answer(alloc: Global, reader: u32, row: u64, reply: &Reply) -> Result<String, AllocError>
    ensures { IfOk result (λ text. string_bytes text ≡ reply_text reader row (Tag reply.now)) }
{
    let mut text = String::new(alloc);
    put_asker(&mut text, reader, row)?;
    put_answer(&mut text, reply)?;
    text.push_str("\n")?;
    Ok(text)
}

// Like `reply_text`, with the allocator's own error.
fn reply_line(alloc: Global, reader: u32, row: u64, reply: &ReplyText) -> Result<String, AllocError>
    ensures { IfOk result (λ text. string_bytes text ≡ reply_text reader row reply.now) }
{
    let mut text = String::new(alloc);
    put_asker(&mut text, reader, row)?;
    put_told(&mut text, reply)?;
    text.push_str("\n")?;
    Ok(text)
}

// Adds `reply`, the reader and the row.
fn put_asker(text: &mut String, reader: u32, row: u64) -> Result<(), AllocError>
    ensures { OnOk result (string_bytes text.new ≡ string_bytes text.old ++ asker_text reader row) }
{
    write!(text, "reply {reader} {row} ")
}

// Adds the text of a reply.
fn put_told(text: &mut String, reply: &ReplyText) -> Result<(), AllocError>
    ensures { OnOk result (string_bytes text.new ≡ string_bytes text.old ++ told_text reply.now) }
{
    match reply {
        ReplyText::Tag(reply) => put_answer(text, reply),
        ReplyText::Snap(Snap { taken, held }) => {
            write!(text, "snap {taken} ")?;
            put_held(text, *held)
        }
        ReplyText::Row(value) => put_value(text, *value),
    }
}

// Adds the text of a reply to a question about a tag.
fn put_answer(text: &mut String, reply: &Reply) -> Result<(), AllocError>
    ensures { OnOk result (string_bytes text.new ≡ string_bytes text.old ++ answer_text reply.now) }
{
    match reply {
        Reply::At(reading) => put_reading(text, *reading),
        Reply::Points(points) => put_points(text, points),
        Reply::Window(number) => put_number(text, *number),
    }
}

// Adds what a tag reads at a time.
fn put_reading(text: &mut String, reading: Reading) -> Result<(), AllocError>
    ensures { OnOk result (string_bytes text.new ≡ string_bytes text.old ++ reading_text reading) }
{
    match reading {
        Reading::Exact(v) => write!(text, "exact {v}"),
        Reading::Line(f) => {
            let v = rounded(f);
            write!(text, "line {v}")
        }
        Reading::Flat(v) => write!(text, "flat {v}"),
        Reading::Nothing => text.push_str("none"),
    }
}

// The whole number nearest to a fraction, the upper one of two that are equally near. A fraction over 0 gives 0.
fn rounded(f: Frac) -> i128
    ensures { result ≡ whole_of f.num f.den }
{
    if f.den == 0 {
        return 0;
    }
    let den = i128::from(f.den);
    let whole = f.num.div_euclid(den);
    let rest = f.num.rem_euclid(den);
    if 2 * rest < den { whole } else { whole + 1 }
}

// Adds each point and a space, and then `more` or `end`.
fn put_points(text: &mut String, points: &PointList) -> Result<(), AllocError>
    ensures { OnOk result (string_bytes text.new
        ≡ string_bytes text.old ++ points_text points.now.list.items points.now.more) }
{
    for p in points.list.as_slice() {
        put_point(text, *p)?;
        text.push_str(" ")?;
    }
    text.push_str(if points.more { "more" } else { "end" })
}

// Adds a number, or `none` if there is none.
fn put_number(text: &mut String, number: Option<i128>) -> Result<(), AllocError>
    ensures { OnOk result (string_bytes text.new ≡ string_bytes text.old ++ number_text number) }
{
    match number {
        Some(n) => write!(text, "{n}"),
        None => text.push_str("none"),
    }
}

// Adds the value of a calculation, or `none` if there is none.
pub(crate) fn put_value(text: &mut String, value: Option<CalcValue>) -> Result<(), AllocError>
    ensures { OnOk result (string_bytes text.new ≡ string_bytes text.old ++ value_text value) }
{
    match value {
        Some(CalcValue::Num(n)) => write!(text, "{n}"),
        Some(CalcValue::Bad(why)) => text.push_str(cause_text(why)),
        None => text.push_str("none"),
    }
}

// The text for the reason why a value is no number.
fn cause_text(why: Bad) -> &'static str
    ensures { result.now ≡ cause_text why }
{
    match why {
        Bad::NoData => "bad nodata",
        Bad::DivZero => "bad divzero",
        Bad::Range => "bad range",
    }
}
