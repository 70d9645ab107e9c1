// Opening a group's device.
ghost use Rattle.std.specs.Prelude.{◌≡◌, ℕ, ◌+◌, ◌^◌, ◌<◌, ◌≤◌, [], Option, IfOk, IsErrOf, OnOk, replicate};
ghost use Rattle.disk_model.specs.{IsSettled, Now, During, CountsFault, Shows, IsShut, layout_calls, moment};
ghost use Rattle.archive_file.specs.{TextOpensAt};
ghost use Rattle.archive_file.specs.declared.failure.ScanNo.TheVariants.{Damaged, DeviceFault};
ghost use Rattle.group_layout.specs.Images.{IsGroupDamage, IsUnsaved, StandsFor};
ghost use Rattle.group_layout.specs.Readings.{GainsGroupSync, HasShape, IsLeftOrSame, IsReadOf, SavesNothing};
ghost use Rattle.group_layout.specs.Rows.{block_lists_of};

use crate::block::Blocks;
use crate::layout_reader::{Found, SavedGroup, gather, read_group};
use crate::making::make_group;
use archive_file::{PutNo, ScanNo};
use disk_model::Disk;
use std::alloc::Global;

/// Opens the device of a group with this definition text and with so many inputs and calculations. The function syncs
/// the device and reads it. If the device has no finished layout, or that of another text, the function begins it anew.
/// Any other device gains one sync and nothing else, unless a call of it fails. A crash at any moment leaves what it might have left before, or what stands for the same versions and rows. If the
/// device breaks the layout, the function returns `Damaged` with the first byte of the first field that does. Returns
/// `DeviceFault` if a call of the device fails, and `WantOfMemory` if no memory is found.
pub fn open_group<D: Disk>(
    alloc: Global,
    dev: &mut D,
    text: &[u8],
    inputs: u32,
    calcs: u32,
) -> Result<SavedGroup, ScanNo>
    ensures stood { IfOk result (λ g. Shows (D.device dev.old).trace
        (λ c. StandsFor text.now inputs calcs c g.versions.items (block_lists_of g.rows.items))) }
    ensures holds { IfOk result (λ g. Shows (D.device dev.new).trace (λ c. IsReadOf text.now inputs calcs c g)) }
    ensures shape { IfOk result (HasShape inputs calcs) }
    ensures few { IfOk result (λ g. g.windows < 2 ^ 32) }
    ensures ready { IfOk result (λ g. Now (D.device dev.new).trace (IsShut g.end)) }
    ensures settled { OnOk result (IsSettled (D.device dev.new).trace) }
    ensures synced { (IsErrOf result DeviceFault → ⊥) → GainsGroupSync text.now (D.device dev.old).trace (D.device dev.new).trace }
    ensures moment { OnOk result (TextOpensAt (IsUnsaved text.now) (D.device dev.old).trace (moment (D.device dev.new).trace)) }
    ensures any_moment { During (D.device dev.old).trace (D.device dev.new).trace (IsLeftOrSame text.now inputs calcs (D.device dev.old).trace) }
    ensures damaged { (a : ℕ) (byte : Option ℕ) → IsErrOf result (Damaged a byte)
        → Shows (D.device dev.old).trace (λ c. IsGroupDamage text.now inputs calcs c a byte) }
    ensures cause { CountsFault result DeviceFault (D.device dev.old).faults (D.device dev.new).faults }
    ensures handed { (D.device dev.new).handed ≡ (D.device dev.old).handed }
    ensures later { moment (D.device dev.old).trace ≤ moment (D.device dev.new).trace }
{
    let Ok(()) = dev.sync() else {
        return Err(ScanNo::DeviceFault);
    };
    match read_group(alloc, dev, text, inputs, calcs)? {
        Found::Saved(saved) => return Ok(saved),
        Found::New | Found::Other => {}
    }
    begin(alloc, dev, text, inputs, calcs)
}

// Begins a device anew, which has nothing saved for this text.
fn begin<D: Disk>(
    alloc: Global,
    dev: &mut D,
    text: &[u8],
    inputs: u32,
    calcs: u32,
) -> Result<SavedGroup, ScanNo>
    requires unsaved { Shows (D.device dev.old).trace (IsUnsaved text.now) }
    requires settled { IsSettled (D.device dev.old).trace }
    ensures versions { IfOk result (λ g. g.versions.items ≡ replicate inputs 0) }
    ensures rows { IfOk result (λ g. block_lists_of g.rows.items ≡ replicate calcs []) }
    ensures holds { IfOk result (λ g. Shows (D.device dev.new).trace (λ c. IsReadOf text.now inputs calcs c g)) }
    ensures shape { IfOk result (HasShape inputs calcs) }
    ensures few { IfOk result (λ g. g.windows < 2 ^ 32) }
    ensures ready { IfOk result (λ g. Now (D.device dev.new).trace (IsShut g.end)) }
    ensures settled { OnOk result (IsSettled (D.device dev.new).trace) }
    ensures any_moment { During (D.device dev.old).trace (D.device dev.new).trace (SavesNothing text.now) }
    ensures undamaged { (a : ℕ) (byte : Option ℕ) → IsErrOf result (Damaged a byte) → ⊥ }
    ensures cause { CountsFault result DeviceFault (D.device dev.old).faults (D.device dev.new).faults }
    ensures handed { (D.device dev.new).handed ≡ (D.device dev.old).handed }
    ensures later { moment (D.device dev.old).trace ≤ moment (D.device dev.new).trace }
    ensures calls { OnOk result (Shows (D.device dev.old).trace (λ c. moment (D.device dev.new).trace ≡ moment (D.device dev.old).trace + layout_calls c)) }
{
    let at = 9 + text.len();
    let none = Blocks {
        list: Vec::new(alloc),
        end: at as u64,
    };
    let saved = gather(alloc, &none, at, inputs, calcs)?;
    match make_group(alloc, dev, text) {
        Ok(()) => Ok(saved),
        Err(PutNo::DeviceFault) => Err(ScanNo::DeviceFault),
        Err(PutNo::WantOfMemory) => Err(ScanNo::WantOfMemory),
    }
}
