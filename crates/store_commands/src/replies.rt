// The command `trend`.
ghost use Rattle.std.specs.Prelude.{◌^◌, ◌<◌, ◌≡◌, string_bytes, IfOk, IfErr, OnOk};
ghost use Rattle.plant_files.specs.{IsFaultOfPlanned};
ghost use Rattle.plant_files.specs.Reading.{faults_after};
ghost use Rattle.store_commands.specs.Commands.{AreAllKept, HaveGroupsSynced, IsTrend, IsTrendRefusal};
ghost use Rattle.plant_store.specs.{CountsDevices, IsDurable};

use crate::groups::histories_of;
use crate::trend_lines::trend_text;
use byte_io::Files;
use disk_model::Store;
use plant_files::{base_of, plan_of, queries_of};
use plant_status::Status;
use plant_store::open_base;
use std::alloc::Global;

/// Returns what `trend` prints: the answers to the queries of the readers of the plan in the file `plan_name`, over the
/// base in the file `name`. The command opens the device of each tag and of each group, and makes a device that is
/// missing. The device of a group that is whole gains one sync and nothing else. A group answers after one refresh from
/// all records of its tags. The refresh is not saved.
///
/// The error is the first in this order: the base, the plan, a reader's file, a tag, a group. `WantOfMemory` may come
/// at any time.
pub fn trend<F: Files, S: Store>(
    alloc: Global,
    files: &mut F,
    store: &mut S,
    name: &str,
    plan_name: &str,
) -> Result<String, Status>
    ensures text { IfOk result (λ text. IsTrend name.now plan_name.now (F.told files.old) (S.device_at store.old)
        (string_bytes text)) }
    ensures refused { IfErr result (IsTrendRefusal name.now plan_name.now (F.told files.old) (S.device_at store.old)
        (S.device_at store.new) (S.fault_count store.old) (S.fault_count store.new)) }
    ensures kept { AreAllKept name.now (F.told files.old) (S.device_at store.old) (S.device_at store.new) }
    ensures stays { F.told files.new ≡ F.told files.old }
    ensures file_faults { F.fault_count files.new ≡ faults_after result (F.fault_count files.old) }
    ensures whose { IfErr result (IsFaultOfPlanned name.now plan_name.now (F.told files.old) (F.failed_name files.new)) }
    ensures durable { OnOk result (IsDurable name.now (F.told files.old) (S.device_at store.old) (S.device_at store.new)) }
    ensures synced { OnOk result (HaveGroupsSynced name.now (F.told files.old) (S.device_at store.old) (S.device_at store.new)) }
    ensures counts { S.fault_count store.old < 2 ^ 64
        → CountsDevices result (S.fault_count store.old) (S.fault_count store.new) }
{
    let base = base_of(alloc, files, name)?;
    let plan = plan_of(alloc, files, plan_name, &base)?;
    let readers = queries_of(alloc, files, &plan, &base)?;
    let cores = open_base(alloc, store, &base)?;
    let groups = histories_of(alloc, store, &base.groups, &cores)?;
    trend_text(alloc, &cores, &groups, &readers).map_err(|_| Status::WantOfMemory)
}
