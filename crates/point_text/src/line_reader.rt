// The point of a text's first line.
ghost use Rattle.std.specs.Prelude.{◌≡◌, ◌≢◌, ◌+◌, ◌<◌, ◌≤◌, [], ◌∷◌, length, position, nat_eq, IfOk, IfSome, IfNone};
ghost use Rattle.std.specs.List.{count_by, slice_split};
ghost use Rattle.std.specs.Str.Lines.{strip_carriage_return};
ghost use Rattle.trend_num.specs.{natural_upto, InRange, last_time};
ghost use Rattle.point_text.specs.Row.{point_of, point_of_line};
ghost use Rattle.point_text.specs.FirstPoint.{HasNoFeed, IsFirstPoint, ReadSame};

use crate::plain_line::{Front, plain_point};
use trend_num::{MAX_T, MAX_V, Point, Reason, numeral};

// The byte between the fields of a line.
const COMMA: u8 = b',';

// The byte that ends a line.
const FEED: u8 = b'\n';

// The most bytes of a line that has a point: two numerals of at most 20 digits and a sign, and a comma.
const POINT_BYTES: usize = 43;

/// Returns the point of the first line of a text, or the first reason why it has none, and what follows its line feed.
/// It returns `None` if the text has no line feed.
#[inline(always)]
pub fn first_point(text: &[u8]) -> Option<(Result<Point, Reason>, &[u8])>
    ensures point { IfSome result (λ p. IsFirstPoint text.now p.1.now p.0) }
    ensures in_range { IfSome result (λ p. IfOk p.0 InRange) }
    ensures shorter { IfSome result (λ p. length p.1.now < length text.now) }
    ensures none { IfNone result (HasNoFeed text.now) }
{
    match plain_point(text, &mut Front::new()) {
        Some((point, after)) => Some((Ok(point), after)),
        None => point_of_any_line(text),
    }
}

// The same for any line.
#[cold]
fn point_of_any_line(text: &[u8]) -> Option<(Result<Point, Reason>, &[u8])>
    ensures point { IfSome result (λ p. IsFirstPoint text.now p.1.now p.0) }
    ensures shorter { IfSome result (λ p. length p.1.now < length text.now) }
    ensures none { IfNone result (HasNoFeed text.now) }
{
    match find_byte(text, FEED) {
        Some(end) => {
            let line = without_carriage_return(&text[..end]);
            Some((point_of_line(line), &text[end + 1..]))
        }
        None => None,
    }
}

/// Returns a short line that reads the same as this one, whatever follows. This one is too long to have a point, so the
/// short one is refused for the same reason.
pub fn short_line(line: &[u8]) -> &'static [u8]
    requires long { POINT_BYTES + 1 < length line.now }
    requires begun { HasNoFeed line.now }
    ensures same { ReadSame line.now result.now }
    ensures begun { HasNoFeed result.now }
    ensures short { length result.now ≤ 3 }
{
    let count = commas(line);
    if count == 0 {
        return b"x";
    }
    if count == 1 {
        return b"x,";
    }
    b"x,,"
}

fn commas(line: &[u8]) -> usize
    ensures { result ≡ count_by (λ b. nat_eq b COMMA) line.now }
{
    line.iter().filter(|b| **b == COMMA).count()
}

// The first index of a byte.
fn find_byte(bytes: &[u8], byte: u8) -> Option<usize>
    ensures { result ≡ position (λ b. nat_eq b byte) bytes.now }
{
    bytes.iter().position(|b| *b == byte)
}

// The line without the one carriage return at its end, if it has one.
fn without_carriage_return(line: &[u8]) -> &[u8]
    ensures { result.now ≡ strip_carriage_return line.now }
{
    match line {
        [front @ .., b'\r'] => front,
        _ => line,
    }
}

/// Returns the point of a line, or the first reason why it has none.
pub fn point_of_line(line: &[u8]) -> Result<Point, Reason>
    ensures { result ≡ point_of_line line.now }
{
    let (time, value) = two_fields(line).ok_or(Reason::Fields)?;
    let t = numeral(time).ok_or(Reason::Number)?;
    let v = numeral(value).ok_or(Reason::Number)?;
    point_of(t, v)
}

// The two fields of a line, if it has exactly one comma.
fn two_fields(line: &[u8]) -> Option<(&[u8], &[u8])>
    ensures two { IfSome result (λ p. slice_split (λ b. nat_eq b COMMA) line.now ≡ p.0.now ∷ p.1.now ∷ []) }
    ensures none { IfNone result (length (slice_split (λ b. nat_eq b COMMA) line.now) ≢ 2) }
{
    let at = find_byte(line, COMMA)?;
    let value = &line[at + 1..];
    match find_byte(value, COMMA) {
        Some(_) => None,
        None => Some((&line[..at], value)),
    }
}

// The point of a time and a value, if both are in range.
fn point_of(t: i128, v: i128) -> Result<Point, Reason>
    ensures { result ≡ point_of (natural_upto last_time t) v }
{
    let largest = i128::from(MAX_V);
    if 0 <= t && t <= i128::from(MAX_T) && -largest <= v && v <= largest {
        Ok(Point {
            t: t as u64,
            v: v as i64,
        })
    } else {
        Err(Reason::Range)
    }
}
