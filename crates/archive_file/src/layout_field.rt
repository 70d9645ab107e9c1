// Fields of an image that is in memory.
ghost use Rattle.std.specs.Prelude.{◌≡◌, ℕ, ◌+◌, All, Option, IsErrOf, OnOk, slice_index};
ghost use Rattle.archive_file.specs.declared.failure.ScanNo.TheVariants.{Damaged, DeviceFault, WantOfMemory};
ghost use Rattle.archive_file.specs.LayoutFields.{Breaks, BreaksFirst, Keeps, long_at, short_at};

use crate::failure::ScanNo;

/// A field of a layout: its place, its number of bytes, and whether these bytes keep its rule.
#[derive(Clone, Copy)]
pub struct Field {
    /// Where it begins, in bytes from the start of the image.
    pub place: usize,
    /// How many bytes it has.
    pub size: usize,
    /// Whether these bytes keep the field's rule. It means nothing if they are not there.
    pub is_kept: bool,
}

impl Field {
    /// Returns the field of `size` bytes at the place `place`.
    pub fn new(place: usize, size: usize, is_kept: bool) -> Field
        ensures { result ≡ record { place = place; size = size; is_kept = is_kept } }
    {
        Field {
            place,
            size,
            is_kept,
        }
    }

    // Refuses a field that is not there or that breaks its rule.
    fn check(self, c: &[u8]) -> Result<(), ScanNo>
        ensures kept { OnOk result (Keeps c.now self) }
        ensures damaged { (a : ℕ) (byte : Option ℕ) → IsErrOf result (Damaged a byte) → Breaks c.now self a byte }
        ensures no_fault { IsErrOf result DeviceFault → ⊥ }
        ensures no_want { IsErrOf result WantOfMemory → ⊥ }
    {
        if self.place > c.len() || self.size > c.len() - self.place {
            return Err(ScanNo::Damaged {
                at: c.len() as u64,
                byte: None,
            });
        }
        if self.is_kept {
            return Ok(());
        }
        Err(ScanNo::Damaged {
            at: self.place as u64,
            byte: Some(byte_at(c, self.place)),
        })
    }
}

/// Returns `Damaged` for the first of these fields that is not there or that breaks its rule. Its place is the image's
/// length if the image ends before the field does, else that of the field's first byte.
pub fn check(c: &[u8], fields: &[Field]) -> Result<(), ScanNo>
    ensures kept { OnOk result (All (Keeps c.now) fields.now) }
    ensures damaged { (a : ℕ) (byte : Option ℕ) → IsErrOf result (Damaged a byte) → BreaksFirst c.now fields.now a byte }
    ensures no_fault { IsErrOf result DeviceFault → ⊥ }
    ensures no_want { IsErrOf result WantOfMemory → ⊥ }
{
    for field in fields {
        field.check(c)?;
    }
    Ok(())
}

/// Returns the byte at a place, or 0 if the image ends before it.
pub fn byte_at(c: &[u8], at: usize) -> u8
    ensures { result ≡ slice_index c.now at }
{
    byte_behind(c, at, 0)
}

// The byte that is `i` bytes after a place.
fn byte_behind(c: &[u8], at: usize, i: usize) -> u8
    ensures { result ≡ slice_index c.now (at + i) }
{
    if at < c.len() && i < c.len() - at {
        c[at + i]
    } else {
        0
    }
}

/// Returns the number in the 4 bytes from a place on, the most significant first. Bytes that are not there count as
/// zeros.
pub fn short_at(c: &[u8], at: usize) -> u32
    ensures { result ≡ short_at c.now at }
{
    u32::from_be_bytes([
        byte_behind(c, at, 0),
        byte_behind(c, at, 1),
        byte_behind(c, at, 2),
        byte_behind(c, at, 3),
    ])
}

/// Returns the number in the 8 bytes from a place on, the most significant first. Bytes that are not there count as
/// zeros.
pub fn long_at(c: &[u8], at: usize) -> u64
    ensures { result ≡ long_at c.now at }
{
    u64::from_be_bytes([
        byte_behind(c, at, 0),
        byte_behind(c, at, 1),
        byte_behind(c, at, 2),
        byte_behind(c, at, 3),
        byte_behind(c, at, 4),
        byte_behind(c, at, 5),
        byte_behind(c, at, 6),
        byte_behind(c, at, 7),
    ])
}
