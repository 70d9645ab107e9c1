// The rows of a text of records, of any kind.
ghost use Rattle.std.specs.Prelude.{◌≡◌, ◌≤◌, ◌∷◌, ◌++◌, [], ℕ, All, List, Result, length, IfOk, IfErr};
ghost use Rattle.csv.specs.Records.{fields_of};
ghost use Rattle.point_text.specs.declared.failure.RowNo.TheVariants.{WantOfMemory};
ghost use Rattle.trend_num.specs.{Reason};
ghost use Rattle.value_rows.specs.Narrow.{RefusesWide};
ghost use Rattle.value_rows.specs.Reading.{AreRefusedFor, text_records_of, rows_of_text, rows_read};
ghost use Rattle.value_rows.specs.RowReader.{HasLeft, IsNext, reads_behind};

use crate::narrow::narrow;
use csv::{ByteRecord, ErrorKind, Reader, ReaderBuilder};
use point_text::RowNo;
use std::alloc::Global;
use trend_num::Reason;

// How the records of one kind of file are read.
pub(crate) trait Form {
    /// What a good record reads as.
    type Row: Copy + Drop;

    ghost row_of: { Self → List (List ℕ) → Result Self.Row Reason };

    ghost is_row: { Self → Self.Row → Type 0 };

    /// Reads a record as a row. The error is the first reason why it is none.
    fn read(&self, row: &ByteRecord) -> Result<Self::Row, Reason>
        ensures row { result ≡ row_of self.now (fields_of row.now) }
        ensures is_row { IfOk result (is_row self.now) };

    /// A record with more fields than any row is refused for their number.
    ghost refuses_wide: { (form : Self) → RefusesWide (row_of form) };
}

// Reads the rows of a text of at most `most` records.
pub(crate) fn rows_of_text<F: Form>(
    alloc: Global,
    form: &F,
    bytes: &[u8],
    most: u64,
) -> Result<Vec<F::Row>, RowNo>
    ensures rows { IfOk result (λ rows. rows_of_text (F.row_of form.now) most bytes.now ≡ Ok rows.items) }
    ensures are_rows { IfOk result (λ rows. All (F.is_row form.now) rows.items) }
    ensures refused { IfErr result (AreRefusedFor (rows_of_text (F.row_of form.now) most bytes.now)) }
{
    rows_behind(alloc, form, Vec::new(alloc), bytes, most)
}

// Appends the rows of a text's records to `front`, the rows that were read before. At most `most` in all. Records are
// counted from the first row of `front`. A record with more fields than any row ends the text.
pub(crate) fn rows_behind<F: Form>(
    alloc: Global,
    form: &F,
    front: Vec<F::Row>,
    bytes: &[u8],
    most: u64,
) -> Result<Vec<F::Row>, RowNo>
    requires few { length front.items ≤ most }
    requires are_rows { All (F.is_row form.now) front.items }
    ensures rows { IfOk result (λ rows. rows_read most (reads_behind (F.row_of form.now) front.items bytes.now) ≡ Ok rows.items) }
    ensures are_rows { IfOk result (λ rows. All (F.is_row form.now) rows.items) }
    ensures refused { IfErr result (AreRefusedFor (rows_read most (reads_behind (F.row_of form.now) front.items bytes.now))) }
{
    whole_rows_behind(alloc, form, front, narrow(bytes), most)
}

// The same, of a text that is read to its end.
fn whole_rows_behind<F: Form>(
    alloc: Global,
    form: &F,
    front: Vec<F::Row>,
    bytes: &[u8],
    most: u64,
) -> Result<Vec<F::Row>, RowNo>
    requires few { length front.items ≤ most }
    requires are_rows { All (F.is_row form.now) front.items }
    ensures rows { IfOk result (λ rows. rows_read most (reads_behind (F.row_of form.now) front.items bytes.now) ≡ Ok rows.items) }
    ensures are_rows { IfOk result (λ rows. All (F.is_row form.now) rows.items) }
    ensures refused { IfErr result (AreRefusedFor (rows_read most (reads_behind (F.row_of form.now) front.items bytes.now))) }
{
    let mut reader = records(alloc, bytes);
    let mut row = ByteRecord::new(alloc);
    let mut rows = front;
    for count in rows.len() as u64..u64::MAX {
        if !read_next(&mut reader, &mut row)? {
            return Ok(rows);
        }
        if count == most {
            return Err(RowNo::TooMany { rows: count + 1 });
        }
        match form.read(&row) {
            Ok(read) => push(&mut rows, read)?,
            Err(reason) => {
                return Err(RowNo::BadRow {
                    row: count + 1,
                    reason,
                });
            }
        }
    }
    // Not reached: no memory holds so many rows.
    Err(RowNo::WantOfMemory)
}

// A reader of the records of a text: no header row, and records of any length.
fn records(alloc: Global, bytes: &[u8]) -> Reader<&[u8]>
    ensures { HasLeft result (text_records_of bytes.now) }
{
    ReaderBuilder::new()
        .has_headers(false)
        .flexible(true)
        .from_reader(alloc, bytes)
}

// Reads the next record into `row`. Returns whether there was one.
fn read_next(reader: &mut Reader<&[u8]>, row: &mut ByteRecord) -> Result<bool, RowNo>
    requires { (left : List (List (List ℕ))) × HasLeft reader.old left }
    ensures next { IfOk result (λ found. (left : List (List (List ℕ))) → HasLeft reader.old left
        → IsNext reader.new (fields_of row.new) left found) }
    ensures refused { IfErr result (λ why. why ≡ WantOfMemory) }
{
    match reader.read_byte_record(row) {
        Ok(found) => Ok(found),
        Err(e) => {
            if let ErrorKind::UnequalLengths { .. } = e.kind() {
                unreachable!();
            }
            // No contract rules out that a reader over bytes fails. It is reported as want of memory.
            Err(RowNo::WantOfMemory)
        }
    }
}

// Appends a row.
#[inline(always)]
pub(crate) fn push<R: Copy + Drop>(rows: &mut Vec<R>, row: R) -> Result<(), RowNo>
    ensures rows { IfOk result (λ _. rows.new.items ≡ rows.old.items ++ row ∷ []) }
    ensures refused { IfErr result (λ why. why ≡ WantOfMemory) }
{
    Ok(rows.push(row)?)
}
