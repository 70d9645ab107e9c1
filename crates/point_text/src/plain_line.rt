// Reads a plain line, as most lines are, in one pass, eight digits at a time.
ghost use Rattle.std.specs.Prelude.{◌≡◌, ℕ, ◌+◌, ◌-◌, ◌*◌, ◌%◌, ◌^◌, ◌<◌, ◌≤◌, true, length, get_or, take, nat_le, slice_range, List, IfSome};
ghost use Rattle.std.specs.Char.{is_ascii_digit};
ghost use Rattle.std.specs.List.{list_all};
ghost use Rattle.std.specs.Float.Numeral.{digits_len};
ghost use Rattle.core.specs.Dec2flt.Digits.{IsEightBytes, IsEightDigits};
ghost use Rattle.core.specs.Int.Digits.{number_from_digits};
ghost use Rattle.core.specs.Slice.Scan.{digits_from, flag_word, little_endian};
ghost use Rattle.core.specs.Str.Parse.{digits_value as ascii_value};
ghost use lib.Lanes.{number_l};
ghost use Rattle.trend_num.specs.{digits_value, InRange, largest_value, last_time};
ghost use Rattle.point_text.specs.FirstPoint.{EndsAt, IsField, IsFirstPoint};

use trend_num::{MAX_T, MAX_V, Point};

// The most digits of a number in a plain line.
const PLAIN_DIGITS: usize = 16;

// The most bytes of a plain line: two numbers, a comma, a sign, a carriage return and a line feed.
const PLAIN_BYTES: usize = 2 * PLAIN_DIGITS + 4;

/// Eight digits with which a line began, as a word, and their number. Lines that follow one another mostly begin alike.
#[derive(Clone, Copy)]
pub struct Front {
    word: u64,
    number: u64,
    ghost spelled: { (bytes : List ℕ) → IsEightBytes bytes → word ≡ number_l 256 bytes
        → (8 ≡ digits_len bytes) × (number ≡ ascii_value 10 (take 8 bytes)) },
}

impl Front {
    /// Returns a front of eight zeros.
    pub fn new() -> Front {
        Front {
            word: 0x3030_3030_3030_3030,
            number: 0,
        }
    }

    // The number of a word of eight digits. It replaces the last one that was kept.
    #[inline(always)]
    fn number_of(&mut self, word: u64) -> Option<u64>
        ensures { IfSome result (λ n. (bytes : List ℕ) → IsEightBytes bytes → word ≡ number_l 256 bytes
            → (8 ≡ digits_len bytes) × (n ≡ ascii_value 10 (take 8 bytes))) }
    {
        if word == self.word {
            return Some(self.number);
        }
        let (count, number) = digits_of_word(word);
        if count < 8 {
            return None;
        }
        *self = Front { word, number };
        Some(number)
    }
}

/// Returns the point of a plain line that a text begins with, and what follows the line. In a plain line both numbers
/// are in range and have 1 to 16 digits. One `-` may come before the value. After the value comes a line feed, or `\r`
/// and a line feed. `None` says nothing of the text.
#[inline(always)]
pub fn plain_point<'t>(text: &'t [u8], front: &mut Front) -> Option<(Point, &'t [u8])>
    ensures point { IfSome result (λ p. IsFirstPoint text.now p.1.now (Ok p.0)) }
    ensures in_range { IfSome result (λ p. InRange p.0) }
    ensures shorter { IfSome result (λ p. length p.1.now < length text.now) }
{
    if text.len() < PLAIN_BYTES {
        return None;
    }
    let (t, comma) = time(text, front)?;
    if text[comma] != b',' {
        return None;
    }
    point_after(text, t, comma)
}

// The time that a text begins with, and the index after its digits.
#[inline(always)]
fn time(text: &[u8], front: &mut Front) -> Option<(u64, usize)>
    requires { PLAIN_DIGITS < length text.now }
    ensures time { IfSome result (λ p. IsField text.now 0 p.1 (get_or text.now p.1 0) p.0) }
    ensures in_range { IfSome result (λ p. p.0 ≤ last_time) }
{
    if let Some(t) = usual_time(text, front) {
        return Some((t, 13));
    }
    let (t, end) = digits(text, 0);
    if end == 0 || t > MAX_T {
        return None;
    }
    Some((t, end))
}

// The time of thirteen digits that a text begins with. All times from 2002 to 2285 have thirteen.
#[inline(always)]
fn usual_time(text: &[u8], front: &mut Front) -> Option<u64>
    requires { PLAIN_DIGITS < length text.now }
    ensures time { IfSome result (IsField text.now 0 13 (get_or text.now 13 0)) }
    ensures in_range { IfSome result (λ t. t ≤ last_time) }
{
    let high = front.number_of(word_at(text, 0))?;
    let (more, low) = more_digits(word_at(text, 8));
    if more != 5 {
        return None;
    }
    Some(high.wrapping_mul(100_000).wrapping_add(low))
}

// The point of a plain line, from its time and the place of its comma, and what follows the line.
#[inline(always)]
fn point_after(text: &[u8], t: u64, comma: usize) -> Option<(Point, &[u8])>
    requires time { IsField text.now 0 comma 44 t }
    requires in_range { t ≤ last_time }
    requires long { PLAIN_BYTES ≤ length text.now }
    ensures point { IfSome result (λ p. IsFirstPoint text.now p.1.now (Ok p.0)) }
    ensures in_range { IfSome result (λ p. InRange p.0) }
    ensures shorter { IfSome result (λ p. length p.1.now < length text.now) }
{
    let sign = comma + 1;
    let negative = text[sign] == b'-';
    let from = sign + usize::from(negative);
    let (size, end) = amount(text, from)?;
    let feed = feed_at(text, end)?;
    let value = size as i64;
    let v = if negative { -value } else { value };
    Some((Point { t, v }, &text[feed + 1..]))
}

// The amount of a value that the digits from an index on spell, and the index after them.
#[inline(always)]
fn amount(text: &[u8], from: usize) -> Option<(u64, usize)>
    requires { from + PLAIN_DIGITS < length text.now }
    ensures amount { IfSome result (λ p. IsField text.now from p.1 (get_or text.now p.1 0) p.0) }
    ensures in_range { IfSome result (λ p. p.0 ≤ largest_value) }
{
    let (count, size) = digits_of_word(word_at(text, from));
    if count == 0 {
        return None;
    }
    if count < 8 {
        return Some((size, from + count));
    }
    let (size, end) = digits(text, from);
    if end == from || size > MAX_V as u64 {
        return None;
    }
    Some((size, end))
}

// The index of the line feed that ends a line whose digits end at `end`. A `\r` may come before the line feed.
#[inline(always)]
fn feed_at(text: &[u8], end: usize) -> Option<usize>
    requires { end + 1 < length text.now }
    ensures { IfSome result (EndsAt text.now end) }
{
    if text[end] == b'\n' {
        return Some(end);
    }
    let feed = end + 1;
    if text[end] == b'\r' && text[feed] == b'\n' {
        return Some(feed);
    }
    None
}

// The number that the digits from an index on spell, and the index after them. Digits past the sixteenth are left.
#[inline(always)]
fn digits(bytes: &[u8], at: usize) -> (u64, usize)
    requires { at + PLAIN_DIGITS ≤ length bytes.now }
    ensures end { result.1 ≡ at + digits_len (slice_range bytes.now at (at + PLAIN_DIGITS)) }
    ensures within { result.1 ≤ at + PLAIN_DIGITS }
    ensures digits { list_all is_ascii_digit (slice_range bytes.now at result.1) ≡ true }
    ensures value { result.0 ≡ digits_value (slice_range bytes.now at result.1) }
{
    let (count, high) = digits_of_word(word_at(bytes, at));
    if count < 8 {
        return (high, at + count);
    }
    let (more, low) = digits_of_word(word_at(bytes, at + 8));
    (
        high.wrapping_mul(ten_to(more)).wrapping_add(low),
        at + 8 + more,
    )
}

// The powers of ten that shift a number by up to eight digits.
const TENS: [u64; 9] = [
    1,
    10,
    100,
    1_000,
    10_000,
    100_000,
    1_000_000,
    10_000_000,
    100_000_000,
];

#[inline(always)]
fn ten_to(n: usize) -> u64
    requires { n ≤ 8 }
    ensures { result ≡ 10 ^ n }
{
    TENS[n]
}

// How many digits a word's bytes begin with, and the number that they spell.
#[inline(always)]
fn digits_of_word(word: u64) -> (usize, u64)
    ensures most { result.0 ≤ 8 }
    ensures read { (bytes : List ℕ) → IsEightBytes bytes → word ≡ number_l 256 bytes
        → (result.0 ≡ digits_len bytes) × (result.1 ≡ ascii_value 10 (take result.0 bytes)) }
{
    let lanes = word ^ 0x3030_3030_3030_3030;
    let others = flags_from_ten(lanes);
    if others == 0 {
        return (8, value_of_eight(lanes));
    }
    let count = others.trailing_zeros() / 8;
    (count as usize, value_of_eight(keep_first(lanes, count)))
}

// The same for the word after eight digits. Mostly five of its bytes are digits, because a time mostly has thirteen.
#[inline(always)]
fn more_digits(word: u64) -> (usize, u64)
    ensures most { result.0 ≤ 8 }
    ensures read { (bytes : List ℕ) → IsEightBytes bytes → word ≡ number_l 256 bytes
        → (result.0 ≡ digits_len bytes) × (result.1 ≡ ascii_value 10 (take result.0 bytes)) }
{
    let lanes = word ^ 0x3030_3030_3030_3030;
    let others = flags_from_ten(lanes);
    if others != 0 && others.trailing_zeros() / 8 == 5 {
        return (5, value_of_eight(keep_first(lanes, 5)));
    }
    digits_of_word(word)
}

// The eight bytes from an index on as a word, with the first byte lowest.
#[inline(always)]
fn word_at(bytes: &[u8], at: usize) -> u64
    requires { at + 8 ≤ length bytes.now }
    ensures { result ≡ little_endian bytes.now at }
{
    u64::from_le_bytes([
        bytes[at],
        bytes[at + 1],
        bytes[at + 2],
        bytes[at + 3],
        bytes[at + 4],
        bytes[at + 5],
        bytes[at + 6],
        bytes[at + 7],
    ])
}

// The high bit of each byte that is 10 or more.
#[inline(always)]
fn flags_from_ten(word: u64) -> u64
    ensures { (byte : ℕ → ℕ) → ((k : ℕ) → byte k < 256) → word ≡ digits_from byte 0 8
        → result ≡ flag_word (λ k. nat_le 10 (byte k)) }
{
    // No sum carries into the next byte.
    ((word & 0x7f7f_7f7f_7f7f_7f7f) + 0x7676_7676_7676_7676 | word) & 0x8080_8080_8080_8080
}

// The word with its first `count` bytes moved up to the end, and zeros below them.
#[inline(always)]
fn keep_first(word: u64, count: u32) -> u64
    requires { count < 8 }
    ensures { result ≡ word * 256 ^ (8 - count) % 2 ^ 64 }
{
    // Two shifts, because a shift by 64 is not defined.
    word << (56 - 8 * count) << 8
}

// The number that eight digits spell, with the first digit in the lowest byte. It joins the digits by twos, and then
// the four results.
#[inline(always)]
fn value_of_eight(word: u64) -> u64
    ensures { (ds : List ℕ) → IsEightDigits ds → word ≡ number_l 256 ds
        → result ≡ number_from_digits 10 ds }
{
    let pairs = word.wrapping_mul(10).wrapping_add(word >> 8);
    let first = (pairs & 0x0000_00ff_0000_00ff).wrapping_mul(100 + (1_000_000 << 32));
    let second = ((pairs >> 16) & 0x0000_00ff_0000_00ff).wrapping_mul(1 + (10_000 << 32));
    first.wrapping_add(second) >> 32
}
