// The device of one tag.
ghost use Rattle.std.specs.Prelude.{◌≡◌, ◌≢◌, ◌^◌, ◌<◌, ℕ, List, IfOk, IfErr, string_bytes};
ghost use Rattle.trend_num.specs.{TuningInRange};
ghost use Rattle.disk_model.specs.{CountsFault};
ghost use Rattle.device_layout.specs.declared.failure.OpenNo.TheVariants.{DeviceFault};
ghost use Rattle.device_layout.specs.{IsCause};
ghost use Rattle.crash_recovery.specs.{StaysSame};
ghost use Rattle.tag_cell.specs.{device_name};
ghost use Rattle.plant_store.specs.Tags.{tag_trace_of, IsOpened, IsLeft};

use crash_recovery::{OpenFail, OpenNo, Opened, open_tag};
use disk_model::{Disk, Store};
use std::alloc::{AllocError, Global};
use tag_core::TagCore;
use trend_num::{Name, TagDef};

// How many lane slots a new device gets.
pub(crate) const LANE_SLOTS: u32 = 64;

// Opens the device of a tag, and gives it back even if the tag is refused. A device that does not exist is made.
pub(crate) fn open_device<S: Store>(
    alloc: Global,
    store: &mut S,
    def: &TagDef,
) -> Result<TagCore, OpenNo>
    requires tuned { TuningInRange def.now.tuning }
    ensures same { StaysSame def.now (tag_trace_of (S.device_at store.old) def.now)
        (tag_trace_of (S.device_at store.new) def.now) }
    ensures opened { IfOk result (IsOpened def.now (tag_trace_of (S.device_at store.old) def.now)) }
    ensures left { IfOk result (IsLeft def.now (tag_trace_of (S.device_at store.old) def.now)
        (tag_trace_of (S.device_at store.new) def.now)) }
    ensures cause { IfErr result (IsCause def.now (tag_trace_of (S.device_at store.old) def.now)) }
    ensures others { (n : List ℕ) → n ≢ device_name def.now.name
        → S.device_at store.new n ≡ S.device_at store.old n }
    ensures counts { S.fault_count store.old < 2 ^ 64
        → CountsFault result DeviceFault (S.fault_count store.old) (S.fault_count store.new) }
{
    let Ok(name) = device_name(alloc, &def.name) else {
        return Err(OpenNo::WantOfMemory);
    };
    let Ok(dev) = store.device(name.as_str()) else {
        return Err(OpenNo::DeviceFault);
    };
    let (dev, opened) = open_core(alloc, dev, def);
    store.give_back(name.as_str(), dev);
    opened
}

// Returns the name of a tag's device: the tag's name, and `.tag`.
pub(crate) fn device_name(alloc: Global, name: &Name) -> Result<String, AllocError>
    ensures { IfOk result (λ text. string_bytes text ≡ device_name name.now) }
{
    let name = name.text();
    format!(in alloc; "{name}.tag")
}

// Returns the device, and the tag that it holds or why it is not opened.
fn open_core<D: Disk>(alloc: Global, dev: D, def: &TagDef) -> (D, Result<TagCore, OpenNo>)
    requires tuned { TuningInRange def.now.tuning }
    ensures same { StaysSame def.now (D.device dev).trace (D.device result.0).trace }
    ensures opened { IfOk result.1 (IsOpened def.now (D.device dev).trace) }
    ensures left { IfOk result.1 (IsLeft def.now (D.device dev).trace (D.device result.0).trace) }
    ensures cause { IfErr result.1 (IsCause def.now (D.device dev).trace) }
    ensures counts { CountsFault result.1 DeviceFault (D.device dev).faults (D.device result.0).faults }
    ensures handed { (D.device result.0).handed ≡ (D.device dev).handed }
{
    match open_tag(alloc, dev, def, LANE_SLOTS, 0) {
        Ok(Opened { journal, core }) => (journal.into_device(), Ok(core)),
        Err(OpenFail { dev, why }) => (dev, Err(why)),
    }
}
