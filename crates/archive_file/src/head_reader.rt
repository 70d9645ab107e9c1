// The head of a layout with a text.
ghost use Rattle.std.specs.Prelude.{◌≡◌, ℕ, ◌+◌, ◌^◌, ◌<◌, ◌≤◌, ◌↔◌, All, Option, IfNone, IfOk, IfSome, IsErrOf, IsTrue, OnOk, drop, length, take};
ghost use Rattle.disk_model.specs.{CountsFault, HasLength, Sees, Shows, IsBegun, IsNew};
ghost use Rattle.archive_file.specs.declared.failure.ScanNo.TheVariants.{Damaged, DeviceFault};
ghost use Rattle.archive_file.specs.LayoutFields.{BreaksFirst, Keeps, short_at};
ghost use Rattle.archive_file.specs.TextHeads.{IsOfText, head_fields, letter_field, text_in};
ghost use Rattle.archive_file.specs.Windows.{IsWindow};

use crate::failure::ScanNo;
use crate::layout_field::{Field, byte_at, short_at};
use crate::window::{Rest, Window};
use disk_model::{Disk, OPEN};
use std::alloc::Global;
use std::marker::Brand;

// The place of the text.
const TEXT_AT: usize = 9;

/// Returns the text of the layout on a device that begins with these letters, or `None` if the device has no finished
/// layout. It reads the head alone. Returns `Damaged` for the first field of the head that is not there or that breaks
/// its rule. Returns `DeviceFault` if a call of the device fails, and `WantOfMemory` if the memory cannot be allocated.
pub fn read_text<D: Disk>(
    alloc: Global,
    dev: &mut D,
    letters: [u8; 4],
) -> Result<Option<Vec<u8>>, ScanNo>
    ensures new { IfOk result (λ found. IfNone found (Shows (D.device dev.old).trace IsNew)) }
    ensures text { IfOk result (λ found. IfSome found (λ text. Shows (D.device dev.old).trace (IsOfText letters text.items))) }
    ensures small { IfOk result (λ found. IfSome found (λ text. length text.items < 2 ^ 32)) }
    ensures begun { (a : ℕ) (byte : Option ℕ) → IsErrOf result (Damaged a byte) → Shows (D.device dev.old).trace IsBegun }
    ensures damaged { (a : ℕ) (byte : Option ℕ) → IsErrOf result (Damaged a byte)
        → Shows (D.device dev.old).trace (λ c. BreaksFirst c (head_fields letters c) a byte) }
    ensures cause { CountsFault result DeviceFault (D.device dev.old).faults (D.device dev.new).faults }
    ensures handed { (D.device dev.new).handed ≡ (D.device dev.old).handed }
    ensures same { (D.device dev.new).trace ≡ (D.device dev.old).trace }
{
    let Ok(len) = dev.len() else {
        return Err(ScanNo::DeviceFault);
    };
    let mut head = Window::new(alloc);
    head.widen(dev, len, 0, TEXT_AT)?;
    if is_new(&head.bytes) {
        return Ok(None);
    }
    let size = short_at(&head.bytes, 5);
    let text = read_whole::<Brand, D>(alloc, dev, len, letters, size, &mut head)?;
    Ok(Some(text))
}

// Reads a head whose text has `size` bytes, and returns the text. The window shows what comes before it.
fn read_whole<C: Rest, D: Disk>(
    alloc: Global,
    dev: &mut D,
    len: u64,
    letters: [u8; 4],
    size: u32,
    head: &mut Window,
) -> Result<Vec<u8>, ScanNo>
    requires length { HasLength (D.device dev.old).trace len }
    requires all { Sees (D.device dev.old).trace C.rest }
    requires window { IsWindow C.rest head.old }
    requires front { head.old.asked ≡ 9 }
    requires size { size ≡ short_at C.rest 5 }
    ensures text { IfOk result (λ text. text.items ≡ text_in C.rest) }
    ensures small { IfOk result (λ text. length text.items < 2 ^ 32) }
    ensures kept { OnOk result (All (Keeps C.rest) (head_fields letters C.rest)) }
    ensures damaged { (a : ℕ) (byte : Option ℕ) → IsErrOf result (Damaged a byte)
        → BreaksFirst C.rest (head_fields letters C.rest) a byte }
    ensures cause { CountsFault result DeviceFault (D.device dev.old).faults (D.device dev.new).faults }
    ensures handed { (D.device dev.new).handed ≡ (D.device dev.old).handed }
    ensures same { (D.device dev.new).trace ≡ (D.device dev.old).trace }
{
    head.widen(dev, len, 0, TEXT_AT + size as usize + 1)?;
    check_head::<C>(head, letters, size)?;
    match Vec::from_slice(alloc, text_in(&head.bytes, size as usize)) {
        Ok(text) => Ok(text),
        Err(_) => Err(ScanNo::WantOfMemory),
    }
}

// Whether an image has no finished layout.
fn is_new(c: &[u8]) -> bool
    ensures { IsTrue result ↔ IsNew c.now }
{
    c.len() <= 1 || byte_at(c, 0) != OPEN
}

// Refuses the head of a layout whose text has `size` bytes, in the first field that is not there or that breaks its
// rule. The window shows the head.
fn check_head<C: Rest>(head: &Window, letters: [u8; 4], size: u32) -> Result<(), ScanNo>
    requires window { IsWindow C.rest head.now }
    requires size { size ≡ short_at C.rest 5 }
    requires asked { head.now.asked ≡ 9 + size + 1 }
    ensures kept { OnOk result (All (Keeps C.rest) (head_fields letters C.rest)) }
    ensures damaged { (a : ℕ) (byte : Option ℕ) → IsErrOf result (Damaged a byte)
        → BreaksFirst C.rest (head_fields letters C.rest) a byte }
    ensures no_fault { IsErrOf result DeviceFault → ⊥ }
    ensures long { OnOk result (9 + (size + 1) ≤ length C.rest) }
{
    head.check::<C>(&[
        letter_field::<C>(head, 1, letters[0]),
        letter_field::<C>(head, 2, letters[1]),
        letter_field::<C>(head, 3, letters[2]),
        letter_field::<C>(head, 4, letters[3]),
        Field::new(5, 4, true),
        Field::new(9, size as usize + 1, true),
    ])
}

// The text of the layout, which has `size` bytes.
fn text_in(c: &[u8], size: usize) -> &[u8]
    requires { 9 + size ≤ length c.now }
    ensures { result.now ≡ take size (drop 9 c.now) }
{
    let (_, rest) = c.split_at(9);
    let (text, _) = rest.split_at(size);
    text
}

// The field of one letter of the head.
fn letter_field<C: Rest>(head: &Window, at: usize, letter: u8) -> Field
    requires window { IsWindow C.rest head.now }
    requires asked { at < head.now.asked }
    ensures { result ≡ letter_field C.rest at letter }
{
    Field::new(at, 1, head.byte_at::<C>(at) == letter)
}
