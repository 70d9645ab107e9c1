// Reading the blocks of a device, one after the other.
ghost use Rattle.std.specs.Prelude.{◌≡◌, ℕ, ◌+◌, ◌<◌, ◌≤◌, Option, IfNone, IfOk, IfSome, IsErrOf, OnOk, drop, length};
ghost use Rattle.disk_model.specs.{CountsFault, HasLength, Shows, IsOpen};
ghost use Rattle.archive_file.specs.declared.failure.ScanNo.TheVariants.{Damaged, DeviceFault};
ghost use Rattle.archive_file.specs.LayoutFields.{BreaksFirst};
ghost use Rattle.archive_file.specs.BlockFiles.{AreAllRead, IsFirstBroken};

use crate::failure::ScanNo;
use crate::window::{Rest, Window};
use disk_model::{Disk, OPEN};
use std::alloc::Global;
use std::marker::Brand;

/// A reader of blocks: it has what the blocks gave that it has read so far, and it knows how the next one is laid out.
/// Each block begins with its gate, and the next gate follows its last byte. Places count from the block's gate.
pub trait BlockReader {
    ghost use Rattle.std.specs.Prelude.{◌≡◌, ℕ, ◌<◌, ◌≤◌, List, Option, IfOk, IsErrOf, OnOk, length};
    ghost use Rattle.archive_file.specs.declared.failure.ScanNo.TheVariants.{Damaged, DeviceFault};
    ghost use Rattle.archive_file.specs.declared.layout_field.Field.{Field};
    ghost use Rattle.archive_file.specs.LayoutFields.{BreaksFirst};
    ghost use Rattle.archive_file.specs.Windows.{IsWindow};

    /// The reader may read the next block.
    ghost is_ready: { Self → Type 0 };

    /// How many bytes a block has in front, which tell how long it is.
    ghost front: { Self → ℕ };

    /// How many bytes the next block has with the gate after it, if these are the bytes from its gate on.
    ghost whole: { Self → List ℕ → ℕ };

    /// The fields of the next block, if these are the bytes from its gate on.
    ghost fields: { Self → List ℕ → List Field };

    /// These bytes begin with a block that takes so many of them up to the next gate. The first reader may read it, and
    /// is the second one then.
    ghost adds: { Self → List ℕ → ℕ → Self → Type 0 };

    /// Returns how many bytes a block has in front, which tell how long it is.
    fn front(&self) -> usize
        requires { is_ready self.now }
        ensures front { result ≡ front self.now }
        ensures some { 0 < result };

    /// Returns how many bytes the next block has with the gate after it. The window shows its front.
    fn whole<C: Rest>(&self, block: &Window) -> usize
        requires ready { is_ready self.now }
        requires window { IsWindow C.rest block.now }
        requires asked { block.now.asked ≡ front self.now }
        ensures whole { result ≡ whole self.now C.rest }
        ensures longer { front self.now ≤ result };

    /// Reads the next block, and returns how many bytes it takes up to the next gate. The window shows it whole. If it
    /// breaks a rule, the function returns `Damaged` with the first byte of the first field that does.
    fn add<C: Rest>(&mut self, block: &Window) -> Result<usize, ScanNo>
        requires ready { is_ready self.old }
        requires window { IsWindow C.rest block.now }
        requires asked { block.now.asked ≡ whole self.old C.rest }
        ensures added { IfOk result (λ size. adds self.old C.rest size self.new) }
        ensures ready { OnOk result (is_ready self.new) }
        ensures some { IfOk result (λ size. 0 < size) }
        ensures within { IfOk result (λ size. size < length C.rest) }
        ensures damaged { (a : ℕ) (byte : Option ℕ) → IsErrOf result (Damaged a byte) → BreaksFirst C.rest (fields self.old C.rest) a byte }
        ensures no_fault { IsErrOf result DeviceFault → ⊥ };
}

/// Reads the blocks of a device, the first of which has its gate at `at`. It reads one block at a time: first its front,
/// and then the rest of it with the next gate. It returns the place of the first closed gate. If a gate is not there or
/// a block breaks a rule, it returns `Damaged` with the first byte of the first field that does. The device has `len`
/// bytes, and the caller has asked it for that. Returns `DeviceFault` if a call of the device fails, and `WantOfMemory`
/// if no memory is found.
pub fn read_blocks<D: Disk, R: BlockReader>(
    alloc: Global,
    dev: &mut D,
    len: u64,
    at: u64,
    reader: &mut R,
) -> Result<u64, ScanNo>
    requires length { HasLength (D.device dev.old).trace len }
    requires ready { R.is_ready reader.old }
    ensures blocks { IfOk result (λ end. Shows (D.device dev.old).trace (λ c. AreAllRead R.adds c reader.old at reader.new end)) }
    ensures damaged { (a : ℕ) (byte : Option ℕ) → IsErrOf result (Damaged a byte)
        → Shows (D.device dev.old).trace (λ c. IsFirstBroken R.adds R.fields c reader.old at a byte) }
    ensures cause { CountsFault result DeviceFault (D.device dev.old).faults (D.device dev.new).faults }
    ensures handed { (D.device dev.new).handed ≡ (D.device dev.old).handed }
    ensures same { (D.device dev.new).trace ≡ (D.device dev.old).trace }
{
    if len <= at {
        return Err(ScanNo::Damaged {
            at: len,
            byte: None,
        });
    }
    let mut window = Window::new(alloc);
    let mut next = at;
    'walk: while let Some(size) = read_block::<Brand, D, R>(dev, len, next, &mut window, reader)? {
        next += size as u64;
    }
    Ok(next)
}

// Reads the block after the gate at a place, and returns how many bytes it takes up to the next gate, or `None` if the
// gate is closed. The device has `len` bytes, the gate among them.
fn read_block<C: Rest, D: Disk, R: BlockReader>(
    dev: &mut D,
    len: u64,
    gate: u64,
    window: &mut Window,
    reader: &mut R,
) -> Result<Option<usize>, ScanNo>
    requires length { HasLength (D.device dev.old).trace len }
    requires gate { gate < len }
    requires rest { Shows (D.device dev.old).trace (λ c. drop gate c ≡ C.rest) }
    requires ready { R.is_ready reader.old }
    ensures shut { IfOk result (λ found. IfNone found (IsOpen 0 C.rest → ⊥)) }
    ensures unread { IfOk result (λ found. IfNone found (reader.new ≡ reader.old)) }
    ensures opened { IfOk result (λ found. IfSome found (λ size. IsOpen 0 C.rest)) }
    ensures added { IfOk result (λ found. IfSome found (λ size. R.adds reader.old C.rest size reader.new)) }
    ensures some { IfOk result (λ found. IfSome found (λ size. 0 < size)) }
    ensures within { IfOk result (λ found. IfSome found (λ size. gate + size < len)) }
    ensures ready { OnOk result (R.is_ready reader.new) }
    ensures damaged_open { (a : ℕ) (byte : Option ℕ) → IsErrOf result (Damaged a byte) → IsOpen 0 C.rest }
    ensures damaged { (a : ℕ) (byte : Option ℕ) → IsErrOf result (Damaged a byte)
        → (b : ℕ) × (a ≡ gate + b) × BreaksFirst C.rest (R.fields reader.old C.rest) b byte }
    ensures cause { CountsFault result DeviceFault (D.device dev.old).faults (D.device dev.new).faults }
    ensures handed { (D.device dev.new).handed ≡ (D.device dev.old).handed }
    ensures same { (D.device dev.new).trace ≡ (D.device dev.old).trace }
{
    window.clear();
    window.widen(dev, len, gate, reader.front())?;
    if window.byte_at::<C>(0) != OPEN {
        return Ok(None);
    }
    let whole = reader.whole::<C>(window);
    window.widen(dev, len, gate, whole)?;
    match reader.add::<C>(window) {
        Ok(size) => Ok(Some(size)),
        Err(no) => Err(no.behind(gate)),
    }
}
