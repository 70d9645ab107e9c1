// The bytes of a summary.
ghost use Rattle.std.specs.Prelude.{◌≡◌, ◌↔◌, ◌+◌, ◌≤◌, ◌<◌, ◌++◌, length, drop, None, Option, Some, IfSome, is_some, IsTrue, if◌then◌else◌};
ghost use Rattle.archive_file.specs.Fields.{point_at};
ghost use Rattle.arrayvec.specs.ArrayVec.{array_vec_len};
ghost use Rattle.trend_num.specs.{Summary, Tuning, InRange, TuningInRange};
ghost use Rattle.archive_file.specs.Summaries.{flag, flags, places_image, tuning_bytes, summary_image, IsSummary};

use crate::field::{
    put, put_deviation, put_place, put_time, take_deviation, take_flags, take_number, take_point,
    take_records, take_time,
};
use arrayvec::ArrayVec;
use trend_num::{Point, Summary, Tuning, in_range, tuning_ok};

/// The number of bytes of a summary.
pub const SUMMARY_LEN: usize = 128;

/// Returns the bytes of a summary: the number of events, the number of records, which parts are there, the five points,
/// and the tuning.
pub fn summary_bytes(s: &Summary) -> [u8; SUMMARY_LEN]
    ensures { result ≡ summary_image s.now }
{
    let mut out = ArrayVec::<u8, SUMMARY_LEN>::new();
    put(&mut out, &s.taken.to_be_bytes());
    put(&mut out, &s.records.to_be_bytes());
    put(&mut out, &[flags_of(s), 0, 0, 0]);
    put_places(&mut out, s);
    put_tuning(&mut out, s.tuning);
    let Ok(bytes) = out.into_inner() else {
        unreachable!();
    };
    bytes
}

// Adds the five points at the end.
fn put_places(out: &mut ArrayVec<u8, SUMMARY_LEN>, s: &Summary)
    requires { array_vec_len out.old + 80 ≤ 128 }
    ensures items { out.new.items ≡ out.old.items ++ places_image s.now }
    ensures len { array_vec_len out.new ≡ array_vec_len out.old + 80 }
{
    put_place(out, s.held);
    put_place(out, s.pending);
    put_place(out, s.hinge);
    put_place(out, s.upper);
    put_place(out, s.lower);
}

// Adds a tuning at the end, or zeros if there is none.
fn put_tuning(out: &mut ArrayVec<u8, SUMMARY_LEN>, tuning: Option<Tuning>)
    requires { array_vec_len out.old + 32 ≤ 128 }
    ensures items { out.new.items ≡ out.old.items ++ tuning_bytes tuning }
    ensures len { array_vec_len out.new ≡ array_vec_len out.old + 32 }
{
    let Some(t) = tuning else {
        put(out, &[0; 32]);
        return;
    };
    put_deviation(out, t.exc_dev);
    put_time(out, t.exc_max);
    put_deviation(out, t.comp_dev);
    put_time(out, t.comp_min);
    put_time(out, t.comp_max);
}

// One bit of the flags.
fn bit_of(there: bool, bit: u8) -> u8
    ensures value { result ≡ flag there bit }
    ensures bound { result ≤ bit }
{
    if there { bit } else { 0 }
}

// The flags, which say which parts are there.
fn flags_of(s: &Summary) -> u8
    ensures { result ≡ flags s.now }
{
    bit_of(s.held.is_some(), 1)
        + bit_of(s.pending.is_some(), 2)
        + bit_of(s.hinge.is_some(), 4)
        + bit_of(s.upper.is_some(), 8)
        + bit_of(s.tuning.is_some(), 16)
}

/// Returns the summary that the bytes spell. Returns `None` exactly if they spell none. In a summary, held and hinge
/// are both there or both absent. So are the two doors. The doors and a pending value are there only if held is. All
/// that is there is in range. No summary has two spellings.
pub fn summary_of(b: &[u8; SUMMARY_LEN]) -> Option<Summary>
    ensures { (s : Summary) → (result ≡ Some s) ↔ (IsSummary s × (b.now ≡ summary_image s)) }
{
    let s = read(b);
    if is_whole(&s) && summary_bytes(&s) == *b {
        Some(s)
    } else {
        None
    }
}

// The summary that the bytes spell. If they spell none, it is any summary.
fn read(b: &[u8; SUMMARY_LEN]) -> Summary
    ensures { (s : Summary) → IsSummary s → b.now ≡ summary_image s → result ≡ s }
{
    let (taken, rest) = take_number(b);
    let (records, rest) = take_records(rest);
    let (there, rest) = take_flags(rest);
    let (held, rest) = take_place(rest, there % 2 == 1);
    let (pending, rest) = take_place(rest, there / 2 % 2 == 1);
    let (hinge, rest) = take_place(rest, there / 4 % 2 == 1);
    let (upper, rest) = take_place(rest, there / 8 % 2 == 1);
    let (lower, rest) = take_place(rest, there / 8 % 2 == 1);
    let tuning = tuning_if(rest, there / 16 % 2 == 1);
    Summary {
        taken,
        records,
        held,
        pending,
        hinge,
        upper,
        lower,
        tuning,
    }
}

// The point in the first 16 bytes, if it is there, and the bytes after its place.
fn take_place(bytes: &[u8], there: bool) -> (Option<Point>, &[u8])
    requires { 16 ≤ length bytes.now }
    ensures place { result.0 ≡ (if there then Some (point_at bytes.now) else None) }
    ensures rest { result.1.now ≡ drop 16 bytes.now }
    ensures len { length result.1.now + 16 ≡ length bytes.now }
{
    let (p, rest) = take_point(bytes);
    (if there { Some(p) } else { None }, rest)
}

// The tuning in the first 32 bytes, if it is there.
fn tuning_if(bytes: &[u8], there: bool) -> Option<Tuning>
    requires { 32 ≤ length bytes.now }
    ensures { (o : Option Tuning) → there ≡ is_some o → IfSome o TuningInRange → bytes.now ≡ tuning_bytes o → result ≡ o }
{
    if there { Some(tuning_at(bytes)) } else { None }
}

// The tuning in the first 32 bytes.
fn tuning_at(bytes: &[u8]) -> Tuning
    requires { 32 ≤ length bytes.now }
    ensures { (t : Tuning) → TuningInRange t → bytes.now ≡ tuning_bytes (Some t) → result ≡ t }
{
    let (exc_dev, rest) = take_deviation(bytes);
    let (exc_max, rest) = take_time(rest);
    let (comp_dev, rest) = take_deviation(rest);
    let (comp_min, rest) = take_time(rest);
    let (comp_max, _) = take_time(rest);
    Tuning {
        exc_dev,
        exc_max,
        comp_dev,
        comp_min,
        comp_max,
    }
}

// Whether the parts that are there may occur together, and all is in range.
fn is_whole(s: &Summary) -> bool
    ensures { IsTrue result ↔ IsSummary s.now }
{
    let (_taken, _records, held) = (s.taken, s.records, s.held.is_some());
    let together = held == s.hinge.is_some() && s.upper.is_some() == s.lower.is_some();
    together
        && (held || s.pending.is_none() && s.upper.is_none())
        && are_in_range(s)
        && is_tuned(s.tuning)
}

// Whether the points that are there are in range.
fn are_in_range(s: &Summary) -> bool
    ensures { IsTrue result ↔ (IfSome s.now.held InRange × IfSome s.now.pending InRange × IfSome s.now.hinge InRange
        × IfSome s.now.upper InRange × IfSome s.now.lower InRange) }
{
    is_in_range(s.held)
        && is_in_range(s.pending)
        && is_in_range(s.hinge)
        && is_in_range(s.upper)
        && is_in_range(s.lower)
}

// Whether a point is in range, if it is there.
fn is_in_range(p: Option<Point>) -> bool
    ensures { IsTrue result ↔ IfSome p InRange }
{
    match p {
        Some(p) => in_range(p),
        None => true,
    }
}

// Whether a tuning is in range, if it is there.
fn is_tuned(tuning: Option<Tuning>) -> bool
    ensures { IsTrue result ↔ IfSome tuning TuningInRange }
{
    match tuning {
        Some(t) => tuning_ok(&t),
        None => true,
    }
}
