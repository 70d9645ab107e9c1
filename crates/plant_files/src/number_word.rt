// The numbers among the words of a command line.
ghost use Rattle.std.specs.Prelude.{◌≡◌, ◌≤◌, IfSome};
ghost use Rattle.plant_files.specs.NumberWords.{count_upto, number_upto};

use trend_num::numeral;

/// Returns the number that a numeral spells, if it is from 0 up to `most`.
pub fn number_upto(most: u64, word: &[u8]) -> Option<u64>
    ensures value { result ≡ number_upto most word.now }
    ensures small { IfSome result (λ n. n ≤ most) }
{
    let n = numeral(word)?;
    if 0 <= n && n <= i128::from(most) {
        Some(n as u64)
    } else {
        None
    }
}

/// Returns the number that a numeral spells, if it is from 1 up to `most`.
pub fn count_upto(most: u32, word: &[u8]) -> Option<u32>
    ensures value { result ≡ count_upto most word.now }
    ensures range { IfSome result (λ n. (1 ≤ n) × (n ≤ most)) }
{
    match number_upto(u64::from(most), word)? {
        0 => None,
        n => Some(n as u32),
    }
}
