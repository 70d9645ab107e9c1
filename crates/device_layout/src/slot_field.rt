// The fields of a summary slot, and the summary that they spell.
ghost use Rattle.std.specs.Prelude.{◌≡◌, ◌+◌, ◌<◌, ◌≤◌, ℕ, Option, drop, IfOk, IsErrOf};
ghost use Rattle.trend_num.specs.{last_time, largest_value};
ghost use Rattle.archive_file.specs.{point_at, summary_image, IsSummary};
ghost use Rattle.archive_file.specs.declared.failure.ScanNo.TheVariants.{Damaged, DeviceFault};
ghost use Rattle.device_layout.specs.SlotFields.{has_flag, are_flags_ok, are_zeros, short_number, form_field, point_field, tuning_field, summary_fields, IsSlotBroken};

use archive_file::{Field, SUMMARY_LEN, ScanNo, Summary, check, summary_of, take_point};
use trend_num::{MAX_DEV, MAX_T, Point, in_range};

// Where the flags are.
const FLAGS: usize = 12;

// The bits of the flags: which parts are there.
const HELD: u8 = 1;

const PENDING: u8 = 2;

const HINGE: u8 = 4;

const DOORS: u8 = 8;

const TUNING: u8 = 16;

// Reads the summary that the bytes of a slot spell. If a field breaks the layout, the error has the place of the first
// such field and the byte there.
pub(crate) fn read_summary(b: &[u8; SUMMARY_LEN]) -> Result<Summary, ScanNo>
    ensures summary { IfOk result (λ s. IsSummary s × (b.now ≡ summary_image s)) }
    ensures broken { (at : ℕ) (byte : Option ℕ) → IsErrOf result (Damaged at byte) → IsSlotBroken b.now at byte }
    ensures within { (at : ℕ) (byte : Option ℕ) → IsErrOf result (Damaged at byte) → at ≤ 128 }
    ensures no_fault { IsErrOf result DeviceFault → ⊥ }
{
    check(b, &summary_fields(b))?;
    let Some(summary) = summary_of(b) else {
        unreachable!();
    };
    Ok(summary)
}

// The fields of a summary: all forms, then the points, then the numbers of the tuning.
fn summary_fields(b: &[u8; SUMMARY_LEN]) -> [Field; 18]
    ensures { result ≡ summary_fields b.now }
{
    [
        Field::new(12, 1, are_flags_ok(b)),
        Field::new(13, 3, are_zeros(b, 13, 3)),
        form_field(b, HELD, 16, 16),
        form_field(b, PENDING, 32, 16),
        form_field(b, HINGE, 48, 16),
        form_field(b, DOORS, 64, 16),
        form_field(b, DOORS, 80, 16),
        form_field(b, TUNING, 96, 32),
        point_field(b, HELD, 16),
        point_field(b, PENDING, 32),
        point_field(b, HINGE, 48),
        point_field(b, DOORS, 64),
        point_field(b, DOORS, 80),
        deviation_field(b, 96),
        time_field(b, 103),
        deviation_field(b, 109),
        time_field(b, 116),
        time_field(b, 122),
    ]
}

// The field of a part with this flag: its `len` bytes from a place on are zeros if it is absent.
fn form_field(b: &[u8; SUMMARY_LEN], bit: u8, at: usize, len: usize) -> Field
    requires flag { 0 < bit }
    requires within { at + len ≤ 128 }
    ensures { result ≡ form_field b.now bit at len }
{
    Field::new(at, len, has_flag(b, bit) || are_zeros(b, at, len))
}

// The field of the point with this flag at a place: it is in range if it is there.
fn point_field(b: &[u8; SUMMARY_LEN], bit: u8, at: usize) -> Field
    requires flag { 0 < bit }
    requires within { at + 16 ≤ 128 }
    ensures { result ≡ point_field b.now bit at }
{
    Field::new(at, 16, !has_flag(b, bit) || in_range(point_in(b, at)))
}

// The field of the 7 bytes at a place: their number is a deviation if the tuning is there.
fn deviation_field(b: &[u8; SUMMARY_LEN], at: usize) -> Field
    requires { at + 7 ≤ 128 }
    ensures { result ≡ tuning_field b.now at 7 largest_value }
{
    Field::new(
        at,
        7,
        !has_flag(b, TUNING) || deviation_in(b, at) <= MAX_DEV,
    )
}

// The field of the 6 bytes at a place: their number is a time if the tuning is there.
fn time_field(b: &[u8; SUMMARY_LEN], at: usize) -> Field
    requires { at + 6 ≤ 128 }
    ensures { result ≡ tuning_field b.now at 6 last_time }
{
    Field::new(at, 6, !has_flag(b, TUNING) || time_in(b, at) <= MAX_T)
}

// Returns whether one of the flags is set.
fn has_flag(b: &[u8; SUMMARY_LEN], bit: u8) -> bool
    requires { 0 < bit }
    ensures { result ≡ has_flag b.now bit }
{
    b[FLAGS] / bit % 2 == 1
}

// Returns whether the flags may occur together.
fn are_flags_ok(b: &[u8; SUMMARY_LEN]) -> bool
    ensures { result ≡ are_flags_ok b.now }
{
    let hinge = has_flag(b, HINGE);
    let together = if has_flag(b, HELD) {
        hinge
    } else {
        !(hinge || has_flag(b, PENDING) || has_flag(b, DOORS))
    };
    b[FLAGS] <= 31 && together
}

// Returns whether `len` bytes from a place on are zeros.
fn are_zeros(b: &[u8; SUMMARY_LEN], at: usize, len: usize) -> bool
    requires { at + len ≤ 128 }
    ensures { result ≡ are_zeros b.now at len }
{
    b[at..at + len].iter().all(|x| *x == 0)
}

// The point at a place.
fn point_in(b: &[u8; SUMMARY_LEN], at: usize) -> Point
    requires { at + 16 ≤ 128 }
    ensures { result ≡ point_at (drop at b.now) }
{
    let (point, _) = take_point(&b[at..]);
    point
}

// The number of the 7 bytes at a place.
fn deviation_in(b: &[u8; SUMMARY_LEN], at: usize) -> u64
    requires { at + 7 ≤ 128 }
    ensures { result ≡ short_number b.now at 7 }
{
    let Some((n, _)) = b[at..].split_first_chunk::<7>() else {
        unreachable!();
    };
    u64::from_be_bytes([0, n[0], n[1], n[2], n[3], n[4], n[5], n[6]])
}

// The number of the 6 bytes at a place.
fn time_in(b: &[u8; SUMMARY_LEN], at: usize) -> u64
    requires { at + 6 ≤ 128 }
    ensures { result ≡ short_number b.now at 6 }
{
    let Some((n, _)) = b[at..].split_first_chunk::<6>() else {
        unreachable!();
    };
    u64::from_be_bytes([0, 0, n[0], n[1], n[2], n[3], n[4], n[5]])
}
