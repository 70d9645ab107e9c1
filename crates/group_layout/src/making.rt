// Beginning a group's device, and adding a block.
ghost use Rattle.std.specs.Prelude.{◌≡◌, ◌+◌, ◌<◌, ◌≤◌, ◌∷◌, ◌++◌, [], IfOk, IsErrOf, OnOk, length};
ghost use Rattle.disk_model.specs.{seen, written, moment, FromOld, IsSettled, Now, During, CountsFault, Sees, Shows, IsGuarded, IsShut, layout_calls, open_byte};
ghost use Rattle.archive_file.specs.declared.failure.PutNo.TheVariants.{DeviceFault, WantOfMemory as NoMemory};
ghost use Rattle.group_layout.specs.Blocks.{block_image, block_size, parts_of};
ghost use Rattle.group_layout.specs.Images.{IsUnsaved, letters};
ghost use Rattle.group_layout.specs.Readings.{SavesNothing};
ghost use Rattle.archive_file.specs.{IsEmpty, blocks_at};

use crate::block::Block;
use crate::writer::block_bytes;
use archive_file::{PutNo, begin_layout};
use disk_model::{Disk, write_guarded};
use std::alloc::Global;

// The letters after the gate of the layout.
pub(crate) const LETTERS: [u8; 4] = *b"PHG1";

/// Begins a device anew for this definition text. The device must have no finished layout, or that of another text. The
/// function closes the gate of the layout, writes the text and a closed gate after it, and then opens the layout's
/// gate. A crash at any moment leaves a device that has nothing saved for this text. Returns `DeviceFault` if a call of
/// the device fails. Returns `WantOfMemory` if no memory is found, or if the text has 2^32 bytes or more. This error
/// comes before any call of the device.
pub fn make_group<D: Disk>(alloc: Global, dev: &mut D, text: &[u8]) -> Result<(), PutNo>
    requires unsaved { Shows (D.device dev.old).trace (IsUnsaved text.now) }
    requires settled { IsSettled (D.device dev.old).trace }
    ensures any_moment { During (D.device dev.old).trace (D.device dev.new).trace (SavesNothing text.now) }
    ensures made { OnOk result (Shows (D.device dev.new).trace (IsEmpty letters text.now)) }
    ensures settled { OnOk result (IsSettled (D.device dev.new).trace) }
    ensures ready { OnOk result (Now (D.device dev.new).trace (IsShut (blocks_at (length text.now)))) }
    ensures no_memory { IsErrOf result NoMemory → dev.new ≡ dev.old }
    ensures cause { CountsFault result DeviceFault (D.device dev.old).faults (D.device dev.new).faults }
    ensures handed { (D.device dev.new).handed ≡ (D.device dev.old).handed }
    ensures later { moment (D.device dev.old).trace ≤ moment (D.device dev.new).trace }
    ensures calls { OnOk result (Shows (D.device dev.old).trace (λ c. moment (D.device dev.new).trace ≡ moment (D.device dev.old).trace + layout_calls c)) }
{
    begin_layout(alloc, dev, LETTERS, text)
}

/// Adds a block after the gate at `at`, which must be closed in whatever a crash leaves. The function writes the block
/// and the next gate, which is closed, and then opens the block's gate. It returns where the next block goes. Returns
/// `DeviceFault` if a call of the device fails. Returns `WantOfMemory` if no memory is found, or if the block would end
/// beyond 2^64 bytes. This error comes before any call of the device.
pub fn put_block<D: Disk>(alloc: Global, dev: &mut D, at: u64, b: &Block) -> Result<u64, PutNo>
    requires { Now (D.device dev.old).trace (IsShut at) }
    ensures any_moment { During (D.device dev.old).trace (D.device dev.new).trace
        (FromOld (D.device dev.old).trace (IsGuarded (at + 1) (block_image (parts_of b.now) ++ 0 ∷ []) at)) }
    ensures reads { OnOk result (Sees (D.device dev.new).trace
        (written (written (seen (D.device dev.old).trace) (at + 1) (block_image (parts_of b.now) ++ 0 ∷ [])) at (open_byte ∷ []))) }
    ensures settled { OnOk result (IsSettled (D.device dev.new).trace) }
    ensures ready { IfOk result (λ next. Now (D.device dev.new).trace (IsShut next)) }
    ensures next { IfOk result (λ next. next ≡ at + block_size (parts_of b.now)) }
    ensures clock { OnOk result (moment (D.device dev.new).trace ≡ moment (D.device dev.old).trace + 4) }
    ensures no_memory { IsErrOf result NoMemory → dev.new ≡ dev.old }
    ensures cause { CountsFault result DeviceFault (D.device dev.old).faults (D.device dev.new).faults }
    ensures handed { (D.device dev.new).handed ≡ (D.device dev.old).handed }
    ensures later { moment (D.device dev.old).trace ≤ moment (D.device dev.new).trace }
{
    let Ok(bytes) = block_bytes(alloc, b) else {
        return Err(PutNo::WantOfMemory);
    };
    let Some(next) = at.checked_add(bytes.len() as u64) else {
        return Err(PutNo::WantOfMemory);
    };
    let Ok(()) = write_guarded(dev, at + 1, &bytes, at) else {
        return Err(PutNo::DeviceFault);
    };
    Ok(next)
}
