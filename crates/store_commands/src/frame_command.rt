// The command `frames`.
ghost use Rattle.std.specs.Prelude.{◌≡◌, ◌^◌, ◌<◌, ◌≤◌, IfErr, IfOk, OnOk, string_bytes};
ghost use Rattle.byte_io.specs.{IsFaultOf};
ghost use Rattle.plant_status.specs.{FileId};
ghost use Rattle.plant_status.specs.declared.status.Status.TheVariants.{ReadFault};
ghost use Rattle.plant_files.specs.Reading.{faults_after};
ghost use Rattle.plant_store.specs.{CountsDevices, IsDurable};
ghost use Rattle.store_commands.specs.FrameCommands.{AreFramesKept, HasGroupSynced, IsFrames, IsFramesRefusal};

use crate::frame_names::place_of;
use crate::frame_refreshing::rows_of;
use crate::frame_telling::tell_frames;
use byte_io::Files;
use disk_model::Store;
use plant_files::base_of;
use plant_status::Status;
use plant_store::{group_device_names, open_base};
use std::alloc::Global;

/// Returns what `frames` prints of the calculation `calc` of the group `group`, over the base in the file `name`. The
/// text first lists what became of the frames of the saved row by one refresh from all records of the tags. Then it
/// lists the frames that there are now. Frames count if they have at least `least` windows. The command opens the
/// device of each tag and of that group, and makes a device that is missing. The group's device gains one sync and
/// nothing else if it is whole. The command saves nothing.
///
/// The error is the first in this order: the base, a name that is unknown, a tag, the group. `WantOfMemory` may come at
/// any time.
pub fn frames<F: Files, S: Store>(
    alloc: Global,
    files: &mut F,
    store: &mut S,
    name: &str,
    group: &str,
    calc: &str,
    least: u32,
) -> Result<String, Status>
    requires some { 1 ≤ least }
    ensures text { IfOk result (λ text. IsFrames name.now group.now calc.now least (F.told files.old) (S.device_at store.old)
        (string_bytes text)) }
    ensures refused { IfErr result (IsFramesRefusal name.now group.now calc.now (F.told files.old) (S.device_at store.old)
        (S.device_at store.new) (S.fault_count store.old) (S.fault_count store.new)) }
    ensures kept { AreFramesKept name.now group.now calc.now (F.told files.old) (S.device_at store.old) (S.device_at store.new) }
    ensures stays { F.told files.new ≡ F.told files.old }
    ensures file_faults { F.fault_count files.new ≡ faults_after result (F.fault_count files.old) }
    ensures whose { IfErr result (λ why. (which : FileId) → why ≡ ReadFault which → IsFaultOf (F.failed_name files.new) name.now) }
    ensures durable { OnOk result (IsDurable name.now (F.told files.old) (S.device_at store.old) (S.device_at store.new)) }
    ensures synced { OnOk result (HasGroupSynced name.now group.now calc.now (F.told files.old) (S.device_at store.old)
        (S.device_at store.new)) }
    ensures counts { S.fault_count store.old < 2 ^ 64
        → CountsDevices result (S.fault_count store.old) (S.fault_count store.new) }
{
    let base = base_of(alloc, files, name)?;
    let place = place_of(&base, group, calc)?;
    let Ok(names) = group_device_names(alloc, &base.groups) else {
        return Err(Status::WantOfMemory);
    };
    let cores = open_base(alloc, store, &base)?;
    let (group, device) = (&base.groups[place.group], names[place.group].as_str());
    let rows = rows_of(alloc, store, place, group, device, &cores)?;
    tell_frames(alloc, group, least, &rows.saved, &rows.refreshed).map_err(|_| Status::WantOfMemory)
}
