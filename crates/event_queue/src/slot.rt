// The bytes of a slot, and where it lies.
ghost use Rattle.std.specs.Prelude.{◌≡◌, ◌+◌, ◌*◌, ◌<◌, ◌≤◌, ◌++◌, length, take, drop, IfSome, IfNone, OnOk};
ghost use Rattle.std.specs.Int.{w16, from_be_bytes};
ghost use Rattle.std.specs.List.{All};
ghost use Rattle.trend_num.specs.{InRange};
ghost use Rattle.archive_file.specs.{point_at};
ghost use Rattle.event_queue.specs.Slots.{place_of, batch_bytes, slot_points};

use archive_file::{put, put_point, take_point};
use arrayvec::ArrayVec;
use std::alloc::AllocError;
use trend_num::{Point, in_range};

/// How many bytes a lane slot has.
pub const SLOT_LEN: usize = 1034;

/// How many raw values a batch has at most.
pub const BATCH_MOST: u16 = 64;

// Where the gates begin.
pub(crate) const FIRST_GATE: u64 = 400;

// How many bytes a point has.
pub(crate) const POINT_LEN: usize = 16;

// Returns where slot k begins, if there are so many slots.
pub(crate) fn slot_place(slots: u32, k: u32) -> u64
    ensures { result ≡ place_of slots k }
{
    FIRST_GATE + u64::from(slots) + SLOT_LEN as u64 * u64::from(k)
}

// Returns the bytes of a batch: the number of its first raw value, how many there are, and their points.
pub(crate) fn slot_bytes(first: u64, points: &[Point]) -> ArrayVec<u8, SLOT_LEN>
    requires { length points.now ≤ 64 }
    ensures { result.items ≡ batch_bytes first points.now }
{
    let mut bytes = ArrayVec::new();
    put(&mut bytes, &first.to_be_bytes());
    put(&mut bytes, &(points.len() as u16).to_be_bytes());
    for p in points {
        put_point(&mut bytes, *p);
    }
    bytes
}

// Returns the count in the first 2 bytes, and the bytes after them.
pub(crate) fn take_count(bytes: &[u8]) -> (u16, &[u8])
    requires { 2 ≤ length bytes.now }
    ensures number { result.0 ≡ from_be_bytes w16 (take 2 bytes.now) }
    ensures rest { result.1.now ≡ drop 2 bytes.now }
    ensures len { length result.1.now + 2 ≡ length bytes.now }
{
    let Some((count, rest)) = bytes.split_first_chunk::<2>() else {
        unreachable!();
    };
    (u16::from_be_bytes(*count), rest)
}

// Returns which of the first `count` points is the first out of range. The bytes of the points lie one after the other.
pub(crate) fn first_out_of_range(bytes: &[u8], count: usize) -> Option<usize>
    requires { 16 * count ≤ length bytes.now }
    ensures there { IfSome result (λ i. i < count) }
    ensures before { IfSome result (λ i. All InRange (slot_points i bytes.now)) }
    ensures broken { IfSome result (λ i. InRange (point_at (drop (16 * i) bytes.now)) → ⊥) }
    ensures none { IfNone result (All InRange (slot_points count bytes.now)) }
{
    let mut rest = bytes;
    for i in 0..count {
        let (p, behind) = take_point(rest);
        if !in_range(p) {
            return Some(i);
        }
        rest = behind;
    }
    None
}

// Appends the first `count` points, whose bytes lie one after the other.
pub(crate) fn add_points(
    points: &mut Vec<Point>,
    bytes: &[u8],
    count: usize,
) -> Result<(), AllocError>
    requires { 16 * count ≤ length bytes.now }
    ensures { OnOk result (points.new.items ≡ points.old.items ++ slot_points count bytes.now) }
{
    let mut rest = bytes;
    for _i in 0..count {
        let (p, behind) = take_point(rest);
        points.push(p)?;
        rest = behind;
    }
    Ok(())
}
