// Numbers within a range.
ghost use Rattle.std.specs.Prelude.{◌≡◌, ◌≤◌, IfSome};
ghost use Rattle.trend_num.specs.{natural_upto, last_time};

use trend_num::MAX_T;

// The number, or `None` if it is not from 0 to `most`, both included.
pub(crate) fn natural_upto(most: u64, n: i128) -> Option<u64>
    ensures value { result ≡ natural_upto most n }
    ensures small { IfSome result (λ n. n ≤ most) }
{
    if 0 <= n && n <= i128::from(most) {
        Some(n as u64)
    } else {
        None
    }
}

// The number as a time in milliseconds from 1970, or `None` if it is out of range.
pub(crate) fn time_of(n: i128) -> Option<u64>
    ensures value { result ≡ natural_upto last_time n }
    ensures time { IfSome result (λ t. t ≤ last_time) }
{
    natural_upto(MAX_T, n)
}
