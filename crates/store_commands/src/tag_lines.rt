// The command `check`.
ghost use Rattle.std.specs.Prelude.{◌^◌, ◌<◌, ◌≡◌, string_bytes, IfOk, IfErr, OnOk};
ghost use Rattle.byte_io.specs.{IsFaultOf};
ghost use Rattle.plant_status.specs.{FileId};
ghost use Rattle.plant_status.specs.declared.status.Status.TheVariants.{ReadFault};
ghost use Rattle.plant_files.specs.Reading.{faults_after};
ghost use Rattle.store_commands.specs.Commands.{IsCheckRefusal, IsChecked};
ghost use Rattle.plant_store.specs.{AreKept, IsDurable};
ghost use Rattle.plant_store.specs.TagRefusals.{CountsStore};

use byte_io::Files;
use disk_model::Store;
use plant_files::base_of;
use plant_status::Status;
use plant_store::open_base;
use std::alloc::Global;
use trend_report::check_text;

/// Returns what `check` prints: a line for each tag of the base in the file `name`. The command opens the device of
/// each tag, and makes a device that is missing. The error is that of the base, or of the first tag that does not open.
/// `WantOfMemory` may come at any time.
pub fn check<F: Files, S: Store>(
    alloc: Global,
    files: &mut F,
    store: &mut S,
    name: &str,
) -> Result<String, Status>
    ensures text { IfOk result (λ text. IsChecked name.now (F.told files.old) (S.device_at store.old) (string_bytes text)) }
    ensures refused { IfErr result (IsCheckRefusal name.now (F.told files.old) (S.device_at store.old)
        (S.device_at store.new) (S.fault_count store.old) (S.fault_count store.new)) }
    ensures kept { AreKept name.now (F.told files.old) (S.device_at store.old) (S.device_at store.new) }
    ensures stays { F.told files.new ≡ F.told files.old }
    ensures file_faults { F.fault_count files.new ≡ faults_after result (F.fault_count files.old) }
    ensures whose { IfErr result (λ why. (which : FileId) → why ≡ ReadFault which → IsFaultOf (F.failed_name files.new) name.now) }
    ensures durable { OnOk result (IsDurable name.now (F.told files.old) (S.device_at store.old) (S.device_at store.new)) }
    ensures counts { S.fault_count store.old < 2 ^ 64
        → CountsStore result (S.fault_count store.old) (S.fault_count store.new) }
{
    let base = base_of(alloc, files, name)?;
    let cores = open_base(alloc, store, &base)?;
    check_text(alloc, &base.tags, &cores).map_err(|_| Status::WantOfMemory)
}
