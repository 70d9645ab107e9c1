// The bytes of numbers and points.
ghost use Rattle.std.specs.Prelude.{◌≡◌, ◌+◌, ◌≤◌, ◌++◌, ◌∷◌, length, slice_index, take, drop};
ghost use Rattle.std.specs.Int.{w32, w64, from_be_bytes};
ghost use Rattle.arrayvec.specs.ArrayVec.{array_vec_len};
ghost use Rattle.archive_file.specs.Fields.{number_bytes, point_bytes, place_bytes, point_at};

use arrayvec::ArrayVec;
use trend_num::Point;

/// Adds bytes at the end. The caller ensures that there is room for them.
pub fn put<const N: usize>(out: &mut ArrayVec<u8, N>, bytes: &[u8])
    requires { array_vec_len out.old + length bytes.now ≤ N }
    ensures items { out.new.items ≡ out.old.items ++ bytes.now }
    ensures len { array_vec_len out.new ≡ array_vec_len out.old + length bytes.now }
{
    let Ok(()) = out.try_extend_from_slice(bytes) else {
        unreachable!();
    };
}

/// Adds a point at the end, in 16 bytes: its time and then its value. The caller ensures that there is room.
pub fn put_point<const N: usize>(out: &mut ArrayVec<u8, N>, p: Point)
    requires { array_vec_len out.old + 16 ≤ N }
    ensures items { out.new.items ≡ out.old.items ++ point_bytes p }
    ensures len { array_vec_len out.new ≡ array_vec_len out.old + 16 }
{
    put(out, &p.t.to_be_bytes());
    put(out, &p.v.to_be_bytes());
}

// Adds a point at the end, or 16 zeros if there is none. There is room for them.
pub(crate) fn put_place<const N: usize>(out: &mut ArrayVec<u8, N>, p: Option<Point>)
    requires { array_vec_len out.old + 16 ≤ N }
    ensures items { out.new.items ≡ out.old.items ++ place_bytes p }
    ensures len { array_vec_len out.new ≡ array_vec_len out.old + 16 }
{
    match p {
        Some(p) => put_point(out, p),
        None => put(out, &[0; 16]),
    }
}

// Adds a number in 7 bytes at the end. There is room for it.
pub(crate) fn put_deviation<const N: usize>(out: &mut ArrayVec<u8, N>, n: u64)
    requires { array_vec_len out.old + 7 ≤ N }
    ensures items { out.new.items ≡ out.old.items ++ number_bytes 7 n }
    ensures len { array_vec_len out.new ≡ array_vec_len out.old + 7 }
{
    put(out, &n.to_be_bytes()[1..]);
}

// Adds a number in 6 bytes at the end. There is room for it.
pub(crate) fn put_time<const N: usize>(out: &mut ArrayVec<u8, N>, n: u64)
    requires { array_vec_len out.old + 6 ≤ N }
    ensures items { out.new.items ≡ out.old.items ++ number_bytes 6 n }
    ensures len { array_vec_len out.new ≡ array_vec_len out.old + 6 }
{
    put(out, &n.to_be_bytes()[2..]);
}

/// Returns the point in the first 16 bytes, in range or not, and the bytes after it.
pub fn take_point(bytes: &[u8]) -> (Point, &[u8])
    requires { 16 ≤ length bytes.now }
    ensures point { result.0 ≡ point_at bytes.now }
    ensures rest { result.1.now ≡ drop 16 bytes.now }
    ensures len { length result.1.now + 16 ≡ length bytes.now }
{
    let (t, bytes) = take_number(bytes);
    let (v, bytes) = take_number(bytes);
    (
        Point {
            t,
            v: v.cast_signed(),
        },
        bytes,
    )
}

/// Returns the number in the first 8 bytes, and the bytes after it.
pub fn take_number(bytes: &[u8]) -> (u64, &[u8])
    requires { 8 ≤ length bytes.now }
    ensures number { result.0 ≡ from_be_bytes w64 (take 8 bytes.now) }
    ensures rest { result.1.now ≡ drop 8 bytes.now }
    ensures len { length result.1.now + 8 ≡ length bytes.now }
{
    let Some((number, rest)) = bytes.split_first_chunk::<8>() else {
        unreachable!();
    };
    (u64::from_be_bytes(*number), rest)
}

// The number in the first 7 bytes, and the bytes after it.
pub(crate) fn take_deviation(bytes: &[u8]) -> (u64, &[u8])
    requires { 7 ≤ length bytes.now }
    ensures number { result.0 ≡ from_be_bytes w64 (0 ∷ take 7 bytes.now) }
    ensures rest { result.1.now ≡ drop 7 bytes.now }
    ensures len { length result.1.now + 7 ≡ length bytes.now }
{
    let Some((n, rest)) = bytes.split_first_chunk::<7>() else {
        unreachable!();
    };
    let number = u64::from_be_bytes([0, n[0], n[1], n[2], n[3], n[4], n[5], n[6]]);
    (number, rest)
}

// The number in the first 6 bytes, and the bytes after it.
pub(crate) fn take_time(bytes: &[u8]) -> (u64, &[u8])
    requires { 6 ≤ length bytes.now }
    ensures number { result.0 ≡ from_be_bytes w64 (0 ∷ 0 ∷ take 6 bytes.now) }
    ensures rest { result.1.now ≡ drop 6 bytes.now }
    ensures len { length result.1.now + 6 ≡ length bytes.now }
{
    let Some((n, rest)) = bytes.split_first_chunk::<6>() else {
        unreachable!();
    };
    let number = u64::from_be_bytes([0, 0, n[0], n[1], n[2], n[3], n[4], n[5]]);
    (number, rest)
}

// The number in the first 4 bytes, and the bytes after it.
pub(crate) fn take_records(bytes: &[u8]) -> (u32, &[u8])
    requires { 4 ≤ length bytes.now }
    ensures number { result.0 ≡ from_be_bytes w32 (take 4 bytes.now) }
    ensures rest { result.1.now ≡ drop 4 bytes.now }
    ensures len { length result.1.now + 4 ≡ length bytes.now }
{
    let Some((number, rest)) = bytes.split_first_chunk::<4>() else {
        unreachable!();
    };
    (u32::from_be_bytes(*number), rest)
}

// The first of the first 4 bytes, and the bytes after all four.
pub(crate) fn take_flags(bytes: &[u8]) -> (u8, &[u8])
    requires { 4 ≤ length bytes.now }
    ensures flags { result.0 ≡ slice_index bytes.now 0 }
    ensures rest { result.1.now ≡ drop 4 bytes.now }
    ensures len { length result.1.now + 4 ≡ length bytes.now }
{
    let (flags, rest) = bytes.split_at(4);
    (flags[0], rest)
}
