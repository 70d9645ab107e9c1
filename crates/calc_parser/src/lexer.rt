// From a text to its tokens.

ghost use Rattle.std.specs.Prelude.{◌≡◌, ◌<◌, ◌≤◌, ◌+◌, true, min, length, drop, position, nat_eq, IfOk, IfSome};
ghost use Rattle.std.specs.Char.{is_ascii_digit};
ghost use Rattle.std.specs.List.{list_all, prefix_len};
ghost use Rattle.trend_num.specs.{digits_value};
ghost use Rattle.calc_parser.specs.Tokens.{numeral_of, is_letter, measure_word_of, other_word, word_of, word_at, name_of, quoted_of, less_of, greater_of, sign_of, token_at, tokens_of, places_of};

use crate::token::{Lexed, Pick, Product, Sum, Token};
use crate::{Cmp, SyntaxKind};
use std::alloc::Global;
use trend_num::{Measure, WantOfMemory, name_from};

// The greatest number of a numeral.
const MAX_NUMBER: u64 = 1_000_000_000_000_000_000;

// Returns the tokens of a text, up to its end, or up to and with the first ill-formed one.
pub(crate) fn lexed(alloc: Global, text: &[u8]) -> Result<Lexed, WantOfMemory>
    requires { length text.now ≤ 1024 }
    ensures tokens { IfOk result (λ l. l.tokens.items ≡ tokens_of text.now) }
    ensures places { IfOk result (λ l. l.places.items ≡ places_of text.now) }
{
    let mut lexed = Lexed::new(alloc);
    let mut at = 0;
    while at < text.len() {
        if text[at] == b' ' {
            at += 1;
            continue;
        }
        let (token, len) = token_at(&text[at..]);
        lexed.push(token, at as u32)?;
        at += len;
    }
    Ok(lexed)
}

// Returns the token that a text begins with, and how many bytes it takes.
fn token_at(text: &[u8]) -> (Token, usize)
    requires { 0 < length text.now }
    ensures piece { result ≡ token_at text.now }
    ensures some { 0 < result.1 }
    ensures within { result.1 ≤ length text.now }
{
    let next = text.get(1).copied().unwrap_or(0);
    match text[0] {
        b'0'..=b'9' => numeral_at(text),
        b'a'..=b'z' => word_at(text),
        b'\'' => quoted_at(text),
        b'<' => less_of(next),
        b'>' => greater_of(next),
        b => sign_of(b).map_or(
            (Token::Ill(SyntaxKind::Char), text.len()),
            |token| (token, 1),
        ),
    }
}

// Returns the numeral that a text begins with, with all of its digits.
fn numeral_at(text: &[u8]) -> (Token, usize)
    requires { 0 < prefix_len is_ascii_digit text.now }
    ensures piece { result ≡ numeral_of (prefix_len is_ascii_digit text.now) text.now }
    ensures some { 0 < result.1 }
    ensures within { result.1 ≤ length text.now }
{
    let len = digits_len(text);
    let n = capped_value(&text[..len]);
    if n <= MAX_NUMBER {
        (Token::Number(n as i64), len)
    } else {
        (Token::Ill(SyntaxKind::Number), text.len())
    }
}

// How many digits a text begins with.
fn digits_len(text: &[u8]) -> usize
    ensures len { result ≡ prefix_len is_ascii_digit text.now }
    ensures within { result ≤ length text.now }
{
    text.iter().take_while(|b| b.is_ascii_digit()).count()
}

// Returns the number that digits spell. A number above the greatest one counts as one above it.
fn capped_value(digits: &[u8]) -> u64
    requires { list_all is_ascii_digit digits.now ≡ true }
    ensures { result ≡ min (digits_value digits.now) (MAX_NUMBER + 1) }
{
    let mut n = 0u64;
    for b in digits {
        n = (n * 10 + u64::from(*b - b'0')).min(MAX_NUMBER + 1);
    }
    n
}

// Returns the word that a text begins with, with all of its letters.
fn word_at(text: &[u8]) -> (Token, usize)
    requires { 0 < prefix_len is_letter text.now }
    ensures piece { result ≡ word_at (prefix_len is_letter text.now) text.now }
    ensures some { 0 < result.1 }
    ensures within { result.1 ≤ length text.now }
{
    let len = letters_len(text);
    match word_of(&text[..len]) {
        Some(token) => (token, len),
        None => (Token::Ill(SyntaxKind::Word), text.len()),
    }
}

// How many letters a text begins with.
fn letters_len(text: &[u8]) -> usize
    ensures len { result ≡ prefix_len is_letter text.now }
    ensures within { result ≤ length text.now }
{
    text.iter().take_while(|b| b.is_ascii_lowercase()).count()
}

// Returns the token of a word of the language, or `None` for any other word.
fn word_of(word: &[u8]) -> Option<Token>
    ensures { result ≡ word_of word.now }
{
    match measure_of(word) {
        Some(measure) => Some(Token::Measuring(measure)),
        None => other_word(word),
    }
}

// Returns the measure that a word names, if it names one.
fn measure_of(word: &[u8]) -> Option<Measure>
    ensures { result ≡ measure_word_of word.now }
{
    if word == b"avg".as_slice() {
        Some(Measure::Avg)
    } else if word == b"total".as_slice() {
        Some(Measure::Total)
    } else if word == b"low".as_slice() {
        Some(Measure::Low)
    } else if word == b"high".as_slice() {
        Some(Measure::High)
    } else if word == b"count".as_slice() {
        Some(Measure::Count)
    } else if word == b"first".as_slice() {
        Some(Measure::First)
    } else if word == b"last".as_slice() {
        Some(Measure::Last)
    } else {
        None
    }
}

// Returns the token of a word that names no measure, if the language has the word.
fn other_word(word: &[u8]) -> Option<Token>
    ensures { result ≡ other_word word.now }
{
    if word == b"calc".as_slice() {
        Some(Token::Calculation)
    } else if word == b"abs".as_slice() {
        Some(Token::Absolute)
    } else if word == b"min".as_slice() {
        Some(Token::Picking(Pick::Least))
    } else if word == b"max".as_slice() {
        Some(Token::Picking(Pick::Greatest))
    } else if word == b"if".as_slice() {
        Some(Token::Choice)
    } else {
        None
    }
}

// Returns the quoted name that a text begins with.
fn quoted_at(text: &[u8]) -> (Token, usize)
    requires { 0 < length text.now }
    ensures piece { result ≡ quoted_of (position (λ c. nat_eq c 39) (drop 1 text.now)) text.now }
    ensures some { 0 < result.1 }
    ensures within { result.1 ≤ length text.now }
{
    let after = &text[1..];
    match find_quote(after) {
        Some(end) => match name_of(&after[..end]) {
            Some(token) => (token, end + 2),
            None => (Token::Ill(SyntaxKind::Name), text.len()),
        },
        None => (Token::Ill(SyntaxKind::Name), text.len()),
    }
}

// Returns the place of the next quote.
fn find_quote(text: &[u8]) -> Option<usize>
    ensures place { result ≡ position (λ c. nat_eq c 39) text.now }
    ensures within { IfSome result (λ end. end < length text.now) }
{
    text.iter().position(|b| *b == b'\'')
}

// Returns the token of a name, or `None` if the bytes are no name.
fn name_of(bytes: &[u8]) -> Option<Token>
    ensures { result ≡ name_of bytes.now }
{
    match name_from(bytes) {
        Some(name) => Some(Token::Quoted(name)),
        None => None,
    }
}

// Returns the comparison that `<` begins, by the byte after it, and how many bytes it takes.
fn less_of(next: u8) -> (Token, usize)
    ensures { result ≡ less_of next }
{
    match next {
        b'=' => (Token::Comparing(Cmp::Le), 2),
        b'>' => (Token::Comparing(Cmp::Ne), 2),
        _ => (Token::Comparing(Cmp::Lt), 1),
    }
}

// Returns the comparison that `>` begins, by the byte after it, and how many bytes it takes.
fn greater_of(next: u8) -> (Token, usize)
    ensures { result ≡ greater_of next }
{
    match next {
        b'=' => (Token::Comparing(Cmp::Ge), 2),
        _ => (Token::Comparing(Cmp::Gt), 1),
    }
}

// Returns the token of any other sign.
fn sign_of(b: u8) -> Option<Token>
    ensures { result ≡ sign_of b }
{
    match b {
        b'(' => Some(Token::Open),
        b')' => Some(Token::Close),
        b',' => Some(Token::Comma),
        b'+' => Some(Token::Summing(Sum::Plus)),
        b'-' => Some(Token::Summing(Sum::Minus)),
        b'*' => Some(Token::Multiplying(Product::Times)),
        b'/' => Some(Token::Multiplying(Product::Over)),
        b'%' => Some(Token::Multiplying(Product::Modulo)),
        b'=' => Some(Token::Comparing(Cmp::Eq)),
        _ => None,
    }
}
