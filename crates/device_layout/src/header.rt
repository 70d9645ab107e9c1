// The header of a tag's device: its first 128 bytes.
ghost use Rattle.std.specs.Prelude.{◌≡◌, ◌+◌, ◌-◌, ◌<◌, ◌≤◌, ◌&&◌, ◌∷◌, ◌++◌, nat_le, IfOk, IsErrOf, ℕ, Option, All, OnOk, length, replicate};
ghost use Rattle.arrayvec.specs.ArrayVec.{array_vec_len};
ghost use Rattle.trend_num.specs.{is_name_byte, IsName, TuningInRange};
ghost use Rattle.archive_file.specs.{Keeps};
ghost use Rattle.archive_file.specs.declared.failure.ScanNo.TheVariants.{Damaged, DeviceFault};
ghost use Rattle.device_layout.specs.Headers.{most_slots, name_in, tuning_in, slots_in, def_in, front_fields, is_name_at, name_fields, number_fields, zero_fields, byte_field, number_field, header_fields, IsHeader, IsHeaderBroken};
ghost use Rattle.device_layout.specs.Headers.{tuning_image, header_image};

use archive_file::{Field, ScanNo, check, long_at, put, short_at};
use arrayvec::ArrayVec;
use trend_num::{MAX_DEV, MAX_T, Name, TagDef, Tuning, name_from};

/// How many bytes a header has, the gate among them.
pub const HEADER_LEN: usize = 128;

// How many of them follow the gate.
const BEHIND_GATE: usize = 127;

// The letters after the gate.
const LETTERS: [u8; 4] = *b"PHT1";

// The most bytes of a name.
const NAME_MOST: u8 = 64;

// The most lane slots.
const SLOTS_MOST: u32 = 65_536;

/// The content of a device's header.
#[derive(Clone, Copy, Debug, PartialEq, Eq)]
pub struct Header {
    /// The definition of the tag, with the tuning with which it was made.
    pub def: TagDef,
    /// How many lane slots there are.
    pub slots: u32,
}

/// Reads the 128 bytes at a device's beginning, except for the gate. If a field breaks the layout, the error has the
/// place of the first such field and the byte there.
pub fn read_header(h: &[u8; HEADER_LEN]) -> Result<Header, ScanNo>
    ensures header { IfOk result (λ x. IsHeader h.now × (x.def ≡ def_in h.now) × (x.slots ≡ slots_in h.now)) }
    ensures tuned { IfOk result (λ x. TuningInRange x.def.tuning) }
    ensures slots { IfOk result (λ x. (1 ≤ x.slots) × (x.slots ≤ 65536)) }
    ensures broken { (a : ℕ) (byte : Option ℕ) → IsErrOf result (Damaged a byte) → IsHeaderBroken h.now a byte }
    ensures no_fault { IsErrOf result DeviceFault → ⊥ }
{
    check_fields(h)?;
    Ok(header_in(h))
}

// Refuses the first field that breaks the layout.
fn check_fields(h: &[u8; HEADER_LEN]) -> Result<(), ScanNo>
    ensures kept { OnOk result (All (Keeps h.now) (header_fields h.now)) }
    ensures broken { (a : ℕ) (byte : Option ℕ) → IsErrOf result (Damaged a byte) → IsHeaderBroken h.now a byte }
    ensures no_fault { IsErrOf result DeviceFault → ⊥ }
{
    check(h, &front_fields(h))?;
    check(h, &name_fields(h))?;
    check(h, &rest_fields(h))
}

// The fields of the letters, and of the length of the name.
fn front_fields(h: &[u8; HEADER_LEN]) -> [Field; 5]
    ensures { result ≡ front_fields h.now }
{
    [
        byte_field(1, h[1] == LETTERS[0]),
        byte_field(2, h[2] == LETTERS[1]),
        byte_field(3, h[3] == LETTERS[2]),
        byte_field(4, h[4] == LETTERS[3]),
        byte_field(5, 1 <= h[5] && h[5] <= NAME_MOST),
    ]
}

// The fields of the name's bytes, and of the zeros after them.
fn name_fields(h: &[u8; HEADER_LEN]) -> [Field; 64]
    ensures { result ≡ name_fields h.now }
{
    let mut fields = [byte_field(6, true); 64];
    for i in 0..64 {
        fields[i] = byte_field(6 + i, is_name_at(h, 6 + i));
    }
    fields
}

// The fields of the tuning, the number of lane slots, the step flag, and the zeros.
fn rest_fields(h: &[u8; HEADER_LEN]) -> [Field; 20]
    ensures { result ≡ number_fields h.now ++ zero_fields h.now }
{
    [
        number_field(h, 70, MAX_DEV),
        number_field(h, 78, MAX_T),
        number_field(h, 86, MAX_DEV),
        number_field(h, 94, MAX_T),
        number_field(h, 102, MAX_T),
        Field::new(110, 4, are_slots(short_at(h, 110))),
        byte_field(114, h[114] <= 1),
        byte_field(115, h[115] == 0),
        byte_field(116, h[116] == 0),
        byte_field(117, h[117] == 0),
        byte_field(118, h[118] == 0),
        byte_field(119, h[119] == 0),
        byte_field(120, h[120] == 0),
        byte_field(121, h[121] == 0),
        byte_field(122, h[122] == 0),
        byte_field(123, h[123] == 0),
        byte_field(124, h[124] == 0),
        byte_field(125, h[125] == 0),
        byte_field(126, h[126] == 0),
        byte_field(127, h[127] == 0),
    ]
}

// The field of one byte at a place.
fn byte_field(at: usize, is_kept: bool) -> Field
    ensures { result ≡ byte_field at is_kept }
{
    Field::new(at, 1, is_kept)
}

// The field of the 8 bytes at a place, whose number is at most this.
fn number_field(h: &[u8; HEADER_LEN], at: usize, most: u64) -> Field
    ensures { result ≡ number_field h.now at most }
{
    Field::new(at, 8, long_at(h, at) <= most)
}

// Returns whether the byte at a place may be of the name, or is zero after the name.
fn is_name_at(h: &[u8; HEADER_LEN], at: usize) -> bool
    requires { at < 128 }
    ensures { result ≡ is_name_at h.now at }
{
    if at < 6 + usize::from(h[5]) {
        is_name_byte(h[at])
    } else {
        h[at] == 0
    }
}

// Returns whether a name may have this byte: the byte alone has to be a name.
fn is_name_byte(byte: u8) -> bool
    ensures { result ≡ is_name_byte byte }
{
    name_from(&[byte]).is_some()
}

// Returns whether there may be so many lane slots.
fn are_slots(slots: u32) -> bool
    ensures { result ≡ (nat_le 1 slots && nat_le slots most_slots) }
{
    1 <= slots && slots <= SLOTS_MOST
}

// Returns the content of a whole header.
fn header_in(h: &[u8; HEADER_LEN]) -> Header
    requires { IsHeader h.now }
    ensures def { result.def ≡ def_in h.now }
    ensures slots { result.slots ≡ slots_in h.now }
{
    Header {
        def: TagDef {
            name: name_in(h),
            tuning: tuning_in(h),
            step: h[114] == 1,
        },
        slots: short_at(h, 110),
    }
}

// The name of the tag.
fn name_in(h: &[u8; HEADER_LEN]) -> Name
    requires { IsHeader h.now }
    ensures { result ≡ name_in h.now }
{
    let Some(name) = name_from(&h[6..6 + usize::from(h[5])]) else {
        unreachable!();
    };
    name
}

// The tuning with which the tag was made.
fn tuning_in(h: &[u8; HEADER_LEN]) -> Tuning
    ensures { result ≡ tuning_in h.now }
{
    Tuning {
        exc_dev: long_at(h, 70),
        exc_max: long_at(h, 78),
        comp_dev: long_at(h, 86),
        comp_min: long_at(h, 94),
        comp_max: long_at(h, 102),
    }
}

/// Returns the bytes of the header after the gate.
pub fn header_bytes(def: &TagDef, slots: u32) -> [u8; BEHIND_GATE]
    requires { slots ≤ 65536 }
    ensures image { result ≡ header_image def.now slots }
    ensures name { IsName def.now.name }
{
    let mut out = ArrayVec::<u8, BEHIND_GATE>::new();
    put(&mut out, &LETTERS);
    put_name(&mut out, &def.name);
    put_tuning(&mut out, &def.tuning);
    put(&mut out, &slots.to_be_bytes());
    put(&mut out, &[u8::from(def.step)]);
    put(&mut out, &[0; 13]);
    let Ok(bytes) = out.into_inner() else {
        unreachable!();
    };
    bytes
}

// Adds a name at the end: its length, its bytes, and zeros. There is room for it.
fn put_name(out: &mut ArrayVec<u8, BEHIND_GATE>, name: &Name)
    requires { array_vec_len out.old + 65 ≤ 127 }
    ensures items { out.new.items ≡ out.old.items
        ++ (length name.now ∷ (name.now ++ replicate (64 - length name.now) 0)) }
    ensures len { array_vec_len out.new ≡ array_vec_len out.old + 65 }
    ensures name { IsName name.now }
{
    let bytes = name.bytes();
    put(out, &[bytes.len() as u8]);
    put(out, bytes);
    let zeros = [0; NAME_MOST as usize];
    let (_, padding) = zeros.split_at(bytes.len());
    put(out, padding);
}

// Adds the five numbers of a tuning at the end. There is room for them.
fn put_tuning(out: &mut ArrayVec<u8, BEHIND_GATE>, t: &Tuning)
    requires { array_vec_len out.old + 40 ≤ 127 }
    ensures items { out.new.items ≡ out.old.items ++ tuning_image t.now }
    ensures len { array_vec_len out.new ≡ array_vec_len out.old + 40 }
{
    put(out, &t.exc_dev.to_be_bytes());
    put(out, &t.exc_max.to_be_bytes());
    put(out, &t.comp_dev.to_be_bytes());
    put(out, &t.comp_min.to_be_bytes());
    put(out, &t.comp_max.to_be_bytes());
}
