// The layout of a new device.
ghost use Rattle.std.specs.Prelude.{◌≡◌, ◌+◌, ◌*◌, ◌≤◌, ◌++◌, replicate, IfOk, OnOk, IsErrOf};
ghost use Rattle.trend_num.specs.{IsName, TuningInRange};
ghost use Rattle.trend_model.specs.State.{nothing_taken};
ghost use Rattle.disk_model.specs.{seen, moment, IsSettled, During, CountsFault, Shows, layout_calls, IsNew};
ghost use Rattle.archive_file.specs.declared.failure.PutNo.TheVariants.{DeviceFault, WantOfMemory};
ghost use Rattle.device_layout.specs.Headers.{header_image};
ghost use Rattle.device_layout.specs.Recovery.{Recovers};
ghost use Rattle.device_layout.specs.Layouts.{IsMade};

use crate::header::header_bytes;
use archive_file::{PutNo, close_layout};
use disk_model::{Disk, write_guarded};
use event_queue::SLOT_LEN;
use std::alloc::{AllocError, Global};
use trend_num::TagDef;

// The place of the gate of the layout.
const GATE: u64 = 0;

// How many bytes lie between the gate of the layout and those of the lane slots.
const FRONT: usize = 399;

/// Makes the layout of a new device: closes its gate, writes the header and zeros after it, and opens it. It takes
/// memory for the bytes before the first write. A crash at any moment leaves a new device or the whole layout. Either
/// recovers a tag that has taken nothing. After DeviceFault the device has to be opened again before it is used.
pub fn make_layout<D: Disk>(
    alloc: Global,
    dev: &mut D,
    def: &TagDef,
    slots: u32,
) -> Result<(), PutNo>
    requires some { 1 ≤ slots }
    requires few { slots ≤ 65536 }
    requires tuned { TuningInRange def.now.tuning }
    requires new { IsNew (seen (D.device dev.old).trace) }
    requires settled { IsSettled (D.device dev.old).trace }
    ensures any_moment { During (D.device dev.old).trace (D.device dev.new).trace
        (λ c. Recovers def.now c (nothing_taken def.now.tuning)) }
    ensures made { OnOk result (IsMade def.now slots (seen (D.device dev.new).trace)) }
    ensures named { OnOk result (IsName def.now.name) }
    ensures settled { OnOk result (IsSettled (D.device dev.new).trace) }
    ensures no_memory { IsErrOf result WantOfMemory → dev.new ≡ dev.old }
    ensures cause { CountsFault result DeviceFault (D.device dev.old).faults (D.device dev.new).faults }
    ensures handed { (D.device dev.new).handed ≡ (D.device dev.old).handed }
    ensures later { moment (D.device dev.old).trace ≤ moment (D.device dev.new).trace }
    ensures calls { OnOk result (Shows (D.device dev.old).trace (λ c. moment (D.device dev.new).trace ≡ moment (D.device dev.old).trace + layout_calls c)) }
{
    let Ok(bytes) = layout_bytes(alloc, def, slots) else {
        return Err(PutNo::WantOfMemory);
    };
    let Ok(()) = close_layout(dev) else {
        return Err(PutNo::DeviceFault);
    };
    let Ok(()) = write_guarded(dev, GATE + 1, &bytes, GATE) else {
        return Err(PutNo::DeviceFault);
    };
    Ok(())
}

// All bytes of a new layout after its gate: the header, and zeros.
fn layout_bytes(alloc: Global, def: &TagDef, slots: u32) -> Result<Vec<u8>, AllocError>
    requires { slots ≤ 65536 }
    ensures image { IfOk result (λ v. v.items
        ≡ header_image def.now slots ++ replicate (272 + 1035 * slots) 0) }
    ensures name { OnOk result (IsName def.now.name) }
{
    let size = FRONT + (SLOT_LEN + 1) * slots as usize;
    let mut bytes = Vec::with_capacity(alloc, size)?;
    bytes.extend_from_slice(&header_bytes(def, slots))?;
    bytes.resize(size, 0)?;
    Ok(bytes)
}
