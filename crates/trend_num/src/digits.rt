// Numerals in text.
ghost use Rattle.std.specs.Prelude.{◌≡◌, ◌≤◌, ◌<◌, ◌^◌, ◌≤ℤ◌, ◌<ℤ◌, pos, true, length, IfSome};
ghost use Rattle.std.specs.List.{list_all};
ghost use Rattle.std.specs.Char.{is_ascii_digit};
ghost use Rattle.trend_num.specs.Numerals.{numeral, signed_by, unsigned_numeral, are_digits, digits_value};

// The most digits of a numeral.
const MAX_DIGITS: usize = 20;

/// Returns the number that a numeral spells: an optional `-` and 1 to 20 digits. Returns `None` if the bytes are no
/// numeral.
pub fn numeral(bytes: &[u8]) -> Option<i128>
    ensures { result ≡ numeral bytes.now }
{
    match bytes {
        [b'-', digits @ ..] => {
            let n = unsigned_numeral(digits)?;
            Some(-n)
        }
        _ => unsigned_numeral(bytes),
    }
}

// The number that 1 to 20 digits spell.
fn unsigned_numeral(bytes: &[u8]) -> Option<i128>
    ensures value { result ≡ signed_by pos (unsigned_numeral bytes.now) }
    ensures small { IfSome result (λ n. (pos 0 ≤ℤ n) × (n <ℤ pos (10 ^ 20))) }
{
    if are_digits(bytes) {
        Some(digits_value(bytes) as i128)
    } else {
        None
    }
}

// Whether these are 1 to 20 digits.
fn are_digits(bytes: &[u8]) -> bool
    ensures { result ≡ are_digits bytes.now }
{
    !bytes.is_empty() && bytes.len() <= MAX_DIGITS && all_digits(bytes)
}

// Whether each byte is a digit.
fn all_digits(bytes: &[u8]) -> bool
    ensures { result ≡ list_all is_ascii_digit bytes.now }
{
    bytes.iter().all(|b| b.is_ascii_digit())
}

// The number that digits spell.
fn digits_value(digits: &[u8]) -> u128
    requires digits { list_all is_ascii_digit digits.now ≡ true }
    requires few { length digits.now ≤ 20 }
    ensures value { result ≡ digits_value digits.now }
    ensures small { result < 10 ^ 20 }
{
    let mut n = 0u128;
    for b in digits {
        n = n * 10 + u128::from(*b - b'0');
    }
    n
}
