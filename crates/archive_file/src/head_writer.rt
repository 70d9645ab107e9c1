// Begins a layout on a device: closes its gate, and writes a head with a text behind it.
ghost use Rattle.std.specs.Prelude.{◌≡◌, ◌+◌, ◌≤◌, IfOk, IsErrOf, OnOk, length};
ghost use Rattle.disk_model.specs.{CountsFault, HasCause, Shows, IsShut, closing_calls, layout_calls, IsSettled, Now, During, moment};
ghost use Rattle.archive_file.specs.declared.failure.PutNo.TheVariants.{DeviceFault, WantOfMemory as NoMemory};
ghost use Rattle.archive_file.specs.TextHeads.{IsEmpty, IsLeftOrBegun, IsLeftOrNew, blocks_at, head_image};

use crate::failure::PutNo;
use disk_model::{Disk, Failed, close_gates, write_guarded};
use std::alloc::{AllocError, Global};

// The place of the layout's gate.
const GATE: u64 = 0;

// The byte of a closed gate.
const CLOSED: u8 = 0;

/// Begins a layout with these letters and this text. It closes the gate of the layout, writes the head with a closed
/// gate after it, and opens the layout's gate. If a crash comes at any moment, the device has what a crash might have
/// left before, no finished layout, or this layout without blocks. Returns `WantOfMemory` before any call of the device
/// if the memory cannot be allocated or the text has 2^32 bytes or more. Returns `DeviceFault` if a call of the device
/// fails.
pub fn begin_layout<D: Disk>(
    alloc: Global,
    dev: &mut D,
    letters: [u8; 4],
    text: &[u8],
) -> Result<(), PutNo>
    requires settled { IsSettled (D.device dev.old).trace }
    ensures any_moment { During (D.device dev.old).trace (D.device dev.new).trace (IsLeftOrBegun letters text.now (D.device dev.old).trace) }
    ensures made { OnOk result (Shows (D.device dev.new).trace (IsEmpty letters text.now)) }
    ensures settled { OnOk result (IsSettled (D.device dev.new).trace) }
    ensures ready { OnOk result (Now (D.device dev.new).trace (IsShut (blocks_at (length text.now)))) }
    ensures no_memory { IsErrOf result NoMemory → dev.new ≡ dev.old }
    ensures cause { CountsFault result DeviceFault (D.device dev.old).faults (D.device dev.new).faults }
    ensures handed { (D.device dev.new).handed ≡ (D.device dev.old).handed }
    ensures later { moment (D.device dev.old).trace ≤ moment (D.device dev.new).trace }
    ensures calls { OnOk result (Shows (D.device dev.old).trace (λ c. moment (D.device dev.new).trace ≡ moment (D.device dev.old).trace + layout_calls c)) }
{
    let Ok(size) = u32::try_from(text.len()) else {
        return Err(PutNo::WantOfMemory);
    };
    let Ok(bytes) = head_bytes(alloc, letters, text, size) else {
        return Err(PutNo::WantOfMemory);
    };
    let Ok(()) = close_layout(dev) else {
        return Err(PutNo::DeviceFault);
    };
    let Ok(()) = write_guarded(dev, GATE + 1, &bytes, GATE) else {
        return Err(PutNo::DeviceFault);
    };
    Ok(())
}

// The bytes after the gate of the layout, for a text of `size` bytes.
fn head_bytes(
    alloc: Global,
    letters: [u8; 4],
    text: &[u8],
    size: u32,
) -> Result<Vec<u8>, AllocError>
    requires { size ≡ length text.now }
    ensures { IfOk result (λ v. v.items ≡ head_image letters text.now) }
{
    let mut bytes = Vec::new(alloc);
    bytes.extend_from_slice(&letters)?;
    bytes.extend_from_slice(&size.to_be_bytes())?;
    bytes.extend_from_slice(text)?;
    bytes.push(CLOSED)?;
    Ok(bytes)
}

/// Makes sure that the gate of a layout, the first byte of a device, is there and closed, and syncs. If the device has
/// length 0, it writes the closed gate. It writes any other only if the gate is open. After a failure the device has to
/// be opened again before it is used.
pub fn close_layout<D: Disk>(dev: &mut D) -> Result<(), Failed>
    requires settled { IsSettled (D.device dev.old).trace }

    // A crash at any moment leaves what it might have left before, or no finished layout.
    ensures any_moment { During (D.device dev.old).trace (D.device dev.new).trace (IsLeftOrNew (D.device dev.old).trace) }
    ensures shut { OnOk result (Now (D.device dev.new).trace (IsShut 0)) }
    ensures later { moment (D.device dev.old).trace ≤ moment (D.device dev.new).trace }
    ensures calls { OnOk result (Shows (D.device dev.old).trace (λ c. moment (D.device dev.new).trace ≡ moment (D.device dev.old).trace + closing_calls c)) }
    ensures cause { HasCause (D.device dev.old).faults (D.device dev.new).faults result }
    ensures handed { (D.device dev.new).handed ≡ (D.device dev.old).handed }
{
    if dev.len()? > 0 {
        return close_gates(dev, GATE, 1);
    }
    dev.write_at(GATE, &[CLOSED])?;
    dev.sync()
}
