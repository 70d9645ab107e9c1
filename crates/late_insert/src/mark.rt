// The marks of a page's records: one bit a record, set if the record is Late.
ghost use Rattle.std.specs.Prelude.{◌≡◌, ℕ, ◌+◌, ◌-◌, ◌^◌, ◌<◌, ◌≤◌};
ghost use Rattle.std.specs.Int.{bit_at};
ghost use Rattle.page_pool.specs.{full_page};
ghost use Rattle.late_insert.specs.Pages.{kind_of};

use trend_num::Kind;

// The kind of the record at a place.
pub(crate) fn kind_at(marks: u128, i: usize) -> Kind
    requires { i < full_page }
    ensures { result ≡ kind_of (bit_at marks i) }
{
    if (marks >> i) & 1 == 0 {
        Kind::Kept
    } else {
        Kind::Late
    }
}

// The bit of a kind.
fn bit_of(kind: Kind) -> u128
    ensures bit { kind_of result ≡ kind }
    ensures small { result < 2 }
{
    match kind {
        Kind::Kept => 0,
        Kind::Late => 1,
    }
}

// The marks of `n` records, after a record of this kind is inserted at the place `i`.
pub(crate) fn mark_inserted(marks: u128, n: usize, i: usize, kind: Kind) -> u128
    requires few { n < full_page }
    requires within { i ≤ n }
    requires marks { marks < 2 ^ n }
    ensures marks { result < 2 ^ (n + 1) }
    ensures before { (k : ℕ) → k < i → bit_at result k ≡ bit_at marks k }
    ensures there { kind_of (bit_at result i) ≡ kind }
    ensures after { (k : ℕ) → i ≤ k → bit_at result (k + 1) ≡ bit_at marks k }
{
    let high = marks >> i;
    let low = marks & ((1 << i) - 1);
    (high * 2 + bit_of(kind)) * (1 << i) + low
}

// The marks of `n` records, after the record at the place `i` becomes one of this kind. A Late one stays Late.
pub(crate) fn mark_put(marks: u128, n: usize, i: usize, kind: Kind) -> u128
    requires few { n ≤ full_page }
    requires within { i < n }
    requires marks { marks < 2 ^ n }
    requires stays { kind ≡ Kind.Kept → kind_of (bit_at marks i) ≡ Kind.Kept }
    ensures marks { result < 2 ^ n }
    ensures there { kind_of (bit_at result i) ≡ kind }
    ensures others { (k : ℕ) → (k ≡ i → ⊥) → bit_at result k ≡ bit_at marks k }
{
    match kind {
        Kind::Kept => marks,
        Kind::Late => marks | (1 << i),
    }
}
