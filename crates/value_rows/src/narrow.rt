// Cuts a text where a record's fifth field begins. So a record of many fields takes no memory for each of them.
ghost use Rattle.std.specs.Prelude.{◌≡◌, ◌<◌, ◌≤◌, All, length, take};
ghost use Rattle.csv.specs.declared.parser.State.TheVariants.{StartRecord};
ghost use Rattle.value_rows.specs.Narrow.{AgreeUpToWide, IsNarrow, ended_after, part_after, part_after_other};
ghost use Rattle.value_rows.specs.Reading.{text_records_of};
ghost use Rattle.value_rows.specs.RowReader.{records_left};

use crate::plain::has_mark;

// How many fields the longest row has.
const MOST_FIELDS: usize = 4;

// Where in a field a scan is.
#[derive(Clone, Copy)]
enum FieldPart {
    // The field begins here. Perhaps its record does too.
    Begin,
    // The field has no quotes.
    Unquoted,
    // The scan is between the quotes of the field.
    Quoted,
    // The scan is behind a quote. The quote ends the quoted part of the field, unless another one follows.
    BehindQuote,
}

// Returns the text, or the part of it before the first fifth field of a record. No row has so many fields. The part
// ends with a comma, so its last record has an empty fifth field, and is refused as the whole one is. No record of the
// part has more than five fields.
pub(crate) fn narrow(bytes: &[u8]) -> &[u8]
    ensures agree { AgreeUpToWide (text_records_of bytes.now) (text_records_of result.now) }
    ensures narrow { All IsNarrow (text_records_of result.now) }
{
    // A reader leaves out a mark at the beginning of its text. So the first record begins behind the mark.
    if has_mark(bytes) {
        &bytes[..3 + narrow_len(&bytes[3..])]
    } else {
        &bytes[..narrow_len(bytes)]
    }
}

// Returns the length of that part of a text that has no mark.
fn narrow_len(text: &[u8]) -> usize
    ensures within { result ≤ length text.now }
    ensures agree { AgreeUpToWide (records_left StartRecord text.now) (records_left StartRecord (take result text.now)) }
    ensures narrow { All IsNarrow (records_left StartRecord (take result text.now)) }
{
    let mut part = FieldPart::Begin;
    let mut ended = 0;
    for (i, byte) in text.iter().enumerate() {
        (part, ended) = step(part, ended, *byte);
        if ended == MOST_FIELDS {
            return i + 1;
        }
    }
    text.len()
}

// Returns where in a field a scan is, and how many fields of the record at hand have ended, after one more byte.
#[inline(always)]
fn step(part: FieldPart, ended: usize, byte: u8) -> (FieldPart, usize)
    requires { ended < MOST_FIELDS }
    ensures part { result.0 ≡ part_after part byte }
    ensures ended { result.1 ≡ ended_after part ended byte }
{
    // Most bytes of rows are above the comma. No such byte is a quote, nor ends a field or a record.
    if byte > b',' {
        return (part_after_other(part), ended);
    }
    (part_after(part, byte), ended_after(part, ended, byte))
}

// Returns the part after a byte that is no quote, no comma and no line end.
#[inline(always)]
fn part_after_other(part: FieldPart) -> FieldPart
    ensures { result ≡ part_after_other part }
{
    match part {
        FieldPart::Quoted => FieldPart::Quoted,
        _ => FieldPart::Unquoted,
    }
}

// Returns how many fields of the record at hand have ended, after one more byte.
#[inline(always)]
fn ended_after(part: FieldPart, ended: usize, byte: u8) -> usize
    requires { ended < MOST_FIELDS }
    ensures { result ≡ ended_after part ended byte }
{
    match (part, byte) {
        (FieldPart::Quoted, _) => ended,
        (_, b',') => ended + 1,
        (_, b'\r' | b'\n') => 0,
        _ => ended,
    }
}

// Returns where in a field a scan is, after one more byte.
#[inline(always)]
fn part_after(part: FieldPart, byte: u8) -> FieldPart
    ensures { result ≡ part_after part byte }
{
    match (part, byte) {
        (FieldPart::Quoted, b'"') => FieldPart::BehindQuote,
        (FieldPart::Quoted, _) => FieldPart::Quoted,
        (FieldPart::Begin | FieldPart::BehindQuote, b'"') => FieldPart::Quoted,
        (_, b',' | b'\r' | b'\n') => FieldPart::Begin,
        _ => FieldPart::Unquoted,
    }
}
