// The bytes of records.
ghost use Rattle.std.specs.Prelude.{◌≡◌, ◌≢◌, ◌↔◌, length, Some, IfSome, IfNone};
ghost use Rattle.trend_num.specs.{Rec, Kind, InRange};
ghost use Rattle.archive_file.specs.Records.{kind_byte, rec_image};

use crate::field::{put, put_point, take_point};
use arrayvec::ArrayVec;
use trend_num::{Kind, Rec, in_range};

// The bytes of the kinds: the letters K and L.
const KEPT: u8 = b'K';

const LATE: u8 = b'L';

/// The number of bytes of a record.
pub const REC_LEN: usize = 17;

/// Returns the bytes of a record: its kind, its time and its value.
pub fn rec_bytes(r: Rec) -> [u8; REC_LEN]
    ensures { result ≡ rec_image r }
{
    let kind = match r.kind {
        Kind::Kept => KEPT,
        Kind::Late => LATE,
    };
    let mut out = ArrayVec::<u8, REC_LEN>::new();
    put(&mut out, &[kind]);
    put_point(&mut out, r.point);
    let Ok(bytes) = out.into_inner() else {
        unreachable!();
    };
    bytes
}

/// Returns the record in range that the bytes spell. Returns `None` exactly if they spell none. No record has two
/// spellings.
pub fn rec_of(b: &[u8; REC_LEN]) -> Option<Rec>
    ensures { (r : Rec) → (result ≡ Some r) ↔ (InRange r.point × (b.now ≡ rec_image r)) }
{
    read_rec(b)
}

// The record that 17 bytes spell.
pub(crate) fn read_rec(b: &[u8]) -> Option<Rec>
    requires { length b.now ≡ 17 }
    ensures { (r : Rec) → (result ≡ Some r) ↔ (InRange r.point × (b.now ≡ rec_image r)) }
{
    let kind = kind_of(b[0])?;
    let (point, _) = take_point(&b[1..]);
    if in_range(point) {
        Some(Rec { kind, point })
    } else {
        None
    }
}

// The kind that a byte spells.
pub(crate) fn kind_of(byte: u8) -> Option<Kind>
    ensures some { IfSome result (λ kind. byte ≡ kind_byte kind) }
    ensures none { IfNone result ((kind : Kind) → byte ≢ kind_byte kind) }
{
    match byte {
        KEPT => Some(Kind::Kept),
        LATE => Some(Kind::Late),
        _ => None,
    }
}
