// The test of what a device stores: whether its records and its summary can be those of a tag.
ghost use Rattle.std.specs.Prelude.{◌≡◌, ℕ, [], None, IfErr, IfOk, OnOk};
ghost use Rattle.trend_num.specs.{TagDef, TuningInRange};
ghost use Rattle.trend_model.specs.{ArePartsOk};
ghost use Rattle.disk_model.specs.{CountsFault, Reaches, Shows};
ghost use Rattle.device_layout.specs.declared.failure.OpenNo.TheVariants.{DeviceFault};
ghost use Rattle.device_layout.specs.{no_summary, HasLayout, IsCause, IsFoundOn, IsReadFrom};

use device_layout::{Header, OpenNo, Stored, damaged, read_stored};
use disk_model::{Disk, read_part};
use std::alloc::Global;
use tag_core::parts_ok;

// Refuses records and a summary that together cannot be those of a tag. The damage is then placed at the summary's
// beginning. Before the first checkpoint there are none, and nothing is refused.
fn test_parts<D: Disk>(dev: &mut D, stored: &Stored, step: bool) -> Result<(), OpenNo>
    requires long { Reaches (D.device dev.old).trace 400 }
    requires tuned { TuningInRange stored.now.tuning }
    requires none { stored.now.slot ≡ None
        → (stored.now.summary ≡ no_summary) × (stored.now.recs.items ≡ []) }
    ensures parts { OnOk result
        (ArePartsOk stored.now.tuning step stored.now.recs.items stored.now.summary) }
    ensures cause { (def : TagDef) (slots : ℕ) → def.step ≡ step
        → Shows (D.device dev.old).trace (IsFoundOn def slots stored.now)
        → IfErr result (IsCause def (D.device dev.old).trace) }
    ensures same { (D.device dev.new).trace ≡ (D.device dev.old).trace }
    ensures counts { CountsFault result DeviceFault (D.device dev.old).faults (D.device dev.new).faults }
    ensures handed { (D.device dev.new).handed ≡ (D.device dev.old).handed }
{
    let Some(slot) = stored.slot else {
        return Ok(());
    };
    if parts_ok(&stored.tuning, step, &stored.recs, &stored.summary) {
        return Ok(());
    }
    let first = read_part::<1, D>(dev, slot.place())?;
    Err(damaged(slot.place(), first[0]))
}

// Reads the summary that counts, its records and the tuning in force. It refuses records and a summary that together
// cannot be those of a tag.
pub(crate) fn read_parts<D: Disk>(
    alloc: Global,
    dev: &mut D,
    header: &Header,
    step: bool,
) -> Result<Stored, OpenNo>
    requires long { Reaches (D.device dev.old).trace 400 }
    requires tuned { TuningInRange header.now.def.tuning }
    ensures stored { (def : TagDef) → def.step ≡ step
        → Shows (D.device dev.old).trace (HasLayout def header.now.slots header.now.def.tuning)
        → IfOk result (λ x. Shows (D.device dev.old).trace (IsReadFrom def header.now.slots x)) }
    ensures tuned { IfOk result (λ x. TuningInRange x.tuning) }
    ensures parts { IfOk result (λ x. ArePartsOk x.tuning step x.recs.items x.summary) }
    ensures cause { (def : TagDef) → def.step ≡ step
        → Shows (D.device dev.old).trace (HasLayout def header.now.slots header.now.def.tuning)
        → IfErr result (IsCause def (D.device dev.old).trace) }
    ensures same { (D.device dev.new).trace ≡ (D.device dev.old).trace }
    ensures counts { CountsFault result DeviceFault (D.device dev.old).faults (D.device dev.new).faults }
    ensures handed { (D.device dev.new).handed ≡ (D.device dev.old).handed }
{
    let stored = read_stored(alloc, dev, header)?;
    test_parts(dev, &stored, step)?;
    Ok(stored)
}
