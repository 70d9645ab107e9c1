// Reads the plain rows that a collector's text begins with, in one pass.
ghost use Rattle.std.specs.Prelude.{◌≡◌, ◌<◌, ◌≤◌, ◌++◌, ◌∷◌, All, length, map, IfOk, IfErr, IfSome};
ghost use Rattle.point_text.specs.declared.failure.RowNo.TheVariants.{WantOfMemory};
ghost use Rattle.value_rows.specs.Raw.{IsRawRow, raw_row};
ghost use Rattle.value_rows.specs.Reading.{text_records_of};
ghost use Rattle.value_rows.specs.RowReader.{AreFirstRows, IsFirstRow, has_mark, reads_behind};

use crate::places::Places;
use crate::raw::RawRow;
use crate::reading::push;
use point_text::{Front, RowNo, plain_point};
use std::alloc::Global;

// Returns rows that a text begins with, at most `most`, and the text after them. How many rows it returns is not
// promised: there may be none, and more such rows may follow. The reader of records reads the rest.
pub(crate) fn front_rows<'b>(
    alloc: Global,
    tags: &Places<'_>,
    bytes: &'b [u8],
    most: u64,
) -> Result<(Vec<RawRow>, &'b [u8]), RowNo>
    ensures reads { IfOk result (λ front. map (raw_row tags.now) (text_records_of bytes.now)
        ≡ reads_behind (raw_row tags.now) front.0.items front.1.now) }
    ensures are_rows { IfOk result (λ front. All (IsRawRow tags.now) front.0.items) }
    ensures few { IfOk result (λ front. length front.0.items ≤ most) }
    ensures refused { IfErr result (λ why. why ≡ WantOfMemory) }
{
    let (rows, rest) = plain_rows(alloc, tags, bytes, most)?;
    // A reader leaves out a mark at the beginning of its text. In the middle of a text these bytes are no mark.
    if has_mark(bytes) || has_mark(rest) {
        return Ok((Vec::new(alloc), bytes));
    }
    Ok((rows, rest))
}

// Whether a text begins with a byte order mark.
pub(crate) fn has_mark(text: &[u8]) -> bool
    ensures { result ≡ has_mark text.now }
{
    text.len() >= 3 && text[0] == 0xef && text[1] == 0xbb && text[2] == 0xbf
}

// Returns the plain rows that a text begins with, at most `most`, and the text after them.
fn plain_rows<'b>(
    alloc: Global,
    tags: &Places<'_>,
    bytes: &'b [u8],
    most: u64,
) -> Result<(Vec<RawRow>, &'b [u8]), RowNo>
    ensures first { IfOk result (λ p. AreFirstRows (raw_row tags.now) bytes.now p.1.now p.0.items) }
    ensures are_rows { IfOk result (λ p. All (IsRawRow tags.now) p.0.items) }
    ensures few { IfOk result (λ p. length p.0.items ≤ most) }
    ensures refused { IfErr result (λ why. why ≡ WantOfMemory) }
{
    let mut rows = Vec::new(alloc);
    let mut rest = bytes;
    let mut front = Front::new();
    while (rows.len() as u64) < most
        && let Some((row, after)) = plain_row(tags, rest, &mut front)
    {
        push(&mut rows, row)?;
        rest = after;
    }
    Ok((rows, rest))
}

// Returns the row of the plain line that a text begins with, and the text after the line. A plain line is a known name,
// a comma, and a plain line of a point. `None` does not mean that the text is bad.
#[inline(always)]
fn plain_row<'b>(tags: &Places<'_>, text: &'b [u8], front: &mut Front) -> Option<(RawRow, &'b [u8])>
    ensures first { IfSome result (λ p. IsFirstRow (raw_row tags.now) text.now p.1.now p.0) }
    ensures is_row { IfSome result (λ p. IsRawRow tags.now p.0) }
    ensures shorter { IfSome result (λ p. length p.1.now < length text.now) }
{
    let (name, rest) = at_comma(text)?;
    let tag = tags.place(name)?;
    let (point, after) = plain_point(rest, front)?;
    Some((RawRow { tag, point }, after))
}

// Returns the bytes before the first comma, and those after it.
#[inline(always)]
fn at_comma(text: &[u8]) -> Option<(&[u8], &[u8])>
    ensures { IfSome result (λ p. text.now ≡ p.0.now ++ 44 ∷ p.1.now) }
{
    let comma = text.iter().position(|b| *b == b',')?;
    Some((&text[..comma], &text[comma + 1..]))
}
