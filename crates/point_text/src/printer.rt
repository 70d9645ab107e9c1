// The text of an archive, printed a piece at a time.
ghost use Rattle.std.specs.Prelude.{◌≡◌, ◌+◌, ◌*◌, ◌≤◌, ◌++◌, length, drop, OnOk, OnErr};
ghost use Rattle.std.specs.Fmt.{signed_decimal};
ghost use Rattle.std.specs.List.{flat_map};
ghost use Rattle.byte_io.specs.Outside.{IsWritten, IsCutShort};
ghost use Rattle.point_text.specs.Text.{archive_text, held_line, point_line, record_line};

use byte_io::{Sink, WriteFault, write_all};
use itoa::write_digits;
use trend_num::{Kind, Point, Rec};

// Room for a line of at most 47 bytes: a word and a comma, a time of at most 20 digits and a comma, a value of at most
// 20 bytes, and a line feed.
const LINE_BYTES: usize = 48;

// The most lines of a piece.
const LINES: usize = 1024;

/// Writes the lines of the records, then that of the held point, a piece of fixed size at a time. It takes no memory.
/// If a write fails, it returns an error; some of the bytes, from the first on, are then written, and never all.
pub fn write_archive<O: Sink>(
    out: &mut O,
    recs: &[Rec],
    held: Option<Point>,
) -> Result<(), WriteFault>
    ensures whole { OnOk result
        (IsWritten (O.meaning out.old) (O.meaning out.new) (archive_text recs.now held)) }
    ensures cut_short { OnErr result
        (IsCutShort (O.meaning out.old) (O.meaning out.new) (archive_text recs.now held)) }
{
    let mut piece = [0; LINES * LINE_BYTES];
    let mut done = 0;
    while done < recs.len() {
        let next = recs.len().min(done + LINES);
        write_records(out, &mut piece, &recs[done..next])?;
        done = next;
    }
    write_held(out, &mut piece, held)
}

// Writes the lines of records, through a piece that has room for them.
fn write_records<O: Sink>(out: &mut O, piece: &mut [u8], recs: &[Rec]) -> Result<(), WriteFault>
    requires { LINE_BYTES * length recs.now ≤ length piece.old }
    ensures whole { OnOk result
        (IsWritten (O.meaning out.old) (O.meaning out.new) (flat_map record_line recs.now)) }
    ensures cut_short { OnErr result
        (IsCutShort (O.meaning out.old) (O.meaning out.new) (flat_map record_line recs.now)) }
{
    let start = print_records(piece, recs);
    write_all(out, &piece[start..])
}

// Writes the line of the held point, if there is one, through a piece that has room for it.
fn write_held<O: Sink>(out: &mut O, piece: &mut [u8], held: Option<Point>) -> Result<(), WriteFault>
    requires { LINE_BYTES ≤ length piece.old }
    ensures whole { OnOk result (IsWritten (O.meaning out.old) (O.meaning out.new) (held_line held)) }
    ensures cut_short { OnErr result (IsCutShort (O.meaning out.old) (O.meaning out.new) (held_line held)) }
{
    let start = print_held(piece, held);
    write_all(out, &piece[start..])
}

// Prints the lines of records to the end of a piece, and returns where they start.
fn print_records(piece: &mut [u8], recs: &[Rec]) -> usize
    requires { LINE_BYTES * length recs.now ≤ length piece.old }
    ensures within { result ≤ length piece.old }
    ensures lines { drop result piece.new ≡ flat_map record_line recs.now }
{
    let mut start = piece.len();
    for rec in recs.iter().rev() {
        start = print_record(piece, start, *rec);
    }
    start
}

// Prints the line of the held point, if there is one, to the end of a piece. It returns where the line starts.
fn print_held(piece: &mut [u8], held: Option<Point>) -> usize
    requires { LINE_BYTES ≤ length piece.old }
    ensures within { result ≤ length piece.old }
    ensures line { drop result piece.new ≡ held_line held }
{
    let end = piece.len();
    match held {
        Some(point) => {
            let start = print_point(piece, end, point);
            print_bytes(piece, start, b"held,")
        }
        None => end,
    }
}

// Prints the line of a record so that it ends before index `end` of a piece, and returns where it starts.
fn print_record(piece: &mut [u8], end: usize, rec: Rec) -> usize
    requires room { LINE_BYTES ≤ end }
    requires within { end ≤ length piece.old }
    ensures few { end ≤ result + LINE_BYTES }
    ensures start { result + length (record_line rec) ≡ end }
    ensures line { drop result piece.new ≡ record_line rec ++ drop end piece.old }
{
    let start = print_point(piece, end, rec.point);
    match rec.kind {
        Kind::Kept => print_bytes(piece, start, b"kept,"),
        Kind::Late => print_bytes(piece, start, b"late,"),
    }
}

// Prints `T,V` and a line feed so that they end before index `end` of a piece, and returns where they start.
fn print_point(piece: &mut [u8], end: usize, p: Point) -> usize
    requires room { LINE_BYTES ≤ end }
    requires within { end ≤ length piece.old }
    ensures few { end ≤ result + 42 }
    ensures start { result + length (point_line p) ≡ end }
    ensures line { drop result piece.new ≡ point_line p ++ drop end piece.old }
{
    let feed = print_bytes(piece, end, b"\n");
    let value = print_value(piece, feed, p.v);
    let comma = print_bytes(piece, value, b",");
    write_digits(p.t, piece, comma)
}

// Prints a value so that it ends before index `end` of a piece, and returns where it starts.
fn print_value(piece: &mut [u8], end: usize, v: i64) -> usize
    requires room { 20 ≤ end }
    requires within { end ≤ length piece.old }
    ensures few { end ≤ result + 20 }
    ensures start { result + length (signed_decimal v) ≡ end }
    ensures text { drop result piece.new ≡ signed_decimal v ++ drop end piece.old }
{
    let start = write_digits(v.unsigned_abs(), piece, end);
    if v < 0 {
        return print_bytes(piece, start, b"-");
    }
    start
}

// Prints bytes so that they end before index `end` of a piece, and returns where they start.
fn print_bytes(piece: &mut [u8], end: usize, bytes: &[u8]) -> usize
    requires room { length bytes.now ≤ end }
    requires within { end ≤ length piece.old }
    ensures start { result + length bytes.now ≡ end }
    ensures text { drop result piece.new ≡ bytes.now ++ drop end piece.old }
{
    let start = end - bytes.len();
    piece[start..end].copy_from_slice(bytes);
    start
}
