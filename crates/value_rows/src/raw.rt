// The rows of a collector.
ghost use Rattle.std.specs.Prelude.{◌≡◌, ◌<◌, ◌^◌, All, length, Ok, IfOk, IfErr};
ghost use Rattle.trend_num.specs.{numeral, InRange};
ghost use Rattle.point_text.specs.{point_read};
ghost use Rattle.value_rows.specs.Raw.{IsRawRow, raw_row, raw_rows};
ghost use Rattle.value_rows.specs.Reading.{AreRefusedFor};

use crate::fields::{Fields, fields_in};
use crate::numbers::time_of;
use crate::places::Places;
use crate::plain::front_rows;
use crate::reading::{Form, rows_behind};
use csv::ByteRecord;
use point_text::RowNo;
use std::alloc::Global;
use trend_num::{MAX_V, Name, Point, Reason, numeral};

/// A raw value, and the tag that it is of.
#[derive(Clone, Copy, Debug, PartialEq, Eq)]
pub struct RawRow {
    /// The place of the tag among the tags, counted from 0.
    pub tag: u32,
    /// The raw value.
    pub point: Point,
}

/// Reads the raw values of a text of at most `most` records `TAG,T,V`. T is in milliseconds from 1970, V in value
/// units. If tags share a name, the row is of the first. `BadRow` comes with the first bad record, counted from 1.
/// `TooMany` comes if there are more records and none of the first `most` is bad. `WantOfMemory` comes if there is not
/// enough memory.
pub fn raw_rows(alloc: Global, bytes: &[u8], tags: &[Name], most: u64) -> Result<Vec<RawRow>, RowNo>
    requires { length tags.now < 2 ^ 32 }
    ensures rows { IfOk result (λ rows. raw_rows tags.now most bytes.now ≡ Ok rows.items) }
    ensures in_range { IfOk result (λ rows. All (IsRawRow tags.now) rows.items) }
    ensures refused { IfErr result (AreRefusedFor (raw_rows tags.now most bytes.now)) }
{
    match Places::new(alloc, tags) {
        Ok(tags) => rows_of_form(alloc, &RawForm { tags }, bytes, most),
        Err(_) => Err(RowNo::WantOfMemory),
    }
}

// Records `TAG,T,V`.
#[derive(Drop)]
struct RawForm<'n> {
    tags: Places<'n>,
}

impl<'n> Form for RawForm<'n> {
    ghost use Rattle.std.specs.Prelude.{refl};

    type Row = RawRow;

    ghost row_of = { λ form. raw_row form.tags };

    ghost is_row = { λ form. IsRawRow form.tags };

    fn read(&self, row: &ByteRecord) -> Result<RawRow, Reason> {
        match fields_in(row) {
            Fields::Three(tag, t, v) => {
                let tag = self.tags.place(tag).ok_or(Reason::Name)?;
                let point = point_of(t, v)?;
                Ok(RawRow { tag, point })
            }
            _ => Err(Reason::Fields),
        }
    }

    ghost refuses_wide = { λ form a b c d e more. refl };
}

// Reads the raw values of a text: first those of the plain rows that it begins with, then those of the records after
// them.
fn rows_of_form(
    alloc: Global,
    form: &RawForm<'_>,
    bytes: &[u8],
    most: u64,
) -> Result<Vec<RawRow>, RowNo>
    ensures rows { IfOk result (λ rows. raw_rows form.now.tags most bytes.now ≡ Ok rows.items) }
    ensures in_range { IfOk result (λ rows. All (IsRawRow form.now.tags) rows.items) }
    ensures refused { IfErr result (AreRefusedFor (raw_rows form.now.tags most bytes.now)) }
{
    let (front, rest) = front_rows(alloc, &form.tags, bytes, most)?;
    rows_behind(alloc, form, front, rest, most)
}

// Reads a time and a value as a point. The error is `Number` if one is no numeral, otherwise `Range` if one is out of
// range.
fn point_of(t: &[u8], v: &[u8]) -> Result<Point, Reason>
    ensures point { result ≡ point_read (numeral t.now) (numeral v.now) }
    ensures in_range { IfOk result InRange }
{
    let t = numeral(t).ok_or(Reason::Number)?;
    let v = numeral(v).ok_or(Reason::Number)?;
    let t = time_of(t).ok_or(Reason::Range)?;
    let largest = i128::from(MAX_V);
    if -largest <= v && v <= largest {
        Ok(Point { t, v: v as i64 })
    } else {
        Err(Reason::Range)
    }
}
