// Opening the log of a plant on its device.
ghost use Rattle.std.specs.Prelude.{◌≡◌, ◌≢◌, ◌^◌, ◌<◌, IfErr, IfOk, IsTrue, OnErr, OnOk, ℕ, List};
ghost use Rattle.branded_disk.specs.{IsUnused};
ghost use Rattle.disk_model.specs.{Synced, noted};
ghost use Rattle.plant_status.specs.declared.status.Status.TheVariants.{DeviceFault as Fault};
ghost use Rattle.plant_status.specs.declared.unit.Unit.TheVariants.{Log as LogUnit};
ghost use Rattle.plant_more.specs.LogOpenings.{IsLogOpened, IsLogKept, IsOpeningRefusal, CountsOpening, status_of};
ghost use Rattle.commit_log.specs.{log_name};

use branded_disk::{Begun, Branded, give_back, take};
use commit_log::{Log, LogFail, LogNo, open_log};
use disk_model::Store;
use plant_status::{Status, Unit, What};
use std::alloc::Global;

// The name of the log's device.
pub(crate) const LOG_NAME: &str = "plant.log";

// Takes the device of the log out of a store, and opens it with room for so many puts. The plant has this text and so
// many tags. If it is told what the device was when the command began, it has to be that still. If it is not opened, the device is given back. Unless a call of it failed, it has then gained one sync, and
// nothing else.
pub(crate) fn take_log<K: Begun, S: Store>(
    alloc: Global,
    store: &mut S,
    plant: &[u8],
    tags: u32,
    room: u32,
) -> Result<Log<Branded<S::Dev, K>>, Status>
    requires unused { IsUnused K.before (S.device_at store.old) log_name }
    ensures opened { IfOk result (IsLogOpened S.Dev.device plant.now tags room (S.device_at store.old log_name)) }
    ensures place { OnOk result (IsTrue (S.has_place store.new log_name)) }
    ensures refused { IfErr result (IsOpeningRefusal plant.now tags room (S.device_at store.old log_name)
        (S.fault_count store.old) (S.fault_count store.new)) }
    ensures kept { OnErr result (IsLogKept plant.now tags (S.device_at store.old) (S.device_at store.new)) }
    ensures synced { IfErr result (λ why. why ≢ Fault LogUnit
        → S.device_at store.new log_name ≡ noted Synced (S.device_at store.old log_name)) }
    ensures others { (n : List ℕ) → n ≢ log_name → S.device_at store.new n ≡ S.device_at store.old n }
    ensures faultless { OnOk result (S.fault_count store.new ≡ S.fault_count store.old) }
    ensures counts { S.fault_count store.old < 2 ^ 64 → CountsOpening result (S.fault_count store.old) (S.fault_count store.new) }
{
    let Ok(dev) = take(store, LOG_NAME) else {
        return Err(Status::DeviceFault { unit: Unit::Log });
    };
    match open_log(alloc, dev, plant, tags, room) {
        Ok(log) => Ok(log),
        Err(LogFail { dev, why }) => {
            give_back(store, LOG_NAME, dev);
            Err(status_of(why))
        }
    }
}

// Returns the status for a log that is not opened.
fn status_of(why: LogNo) -> Status
    ensures { result ≡ status_of why }
{
    match why {
        LogNo::DeviceFault => Status::DeviceFault { unit: Unit::Log },
        LogNo::Damaged { at, byte } => Status::Damaged {
            unit: Unit::Log,
            at,
            byte,
        },
        LogNo::OtherPlant { at } => Status::OtherPlant { at },
        LogNo::TooMany { rows } => Status::Limit {
            what: What::Rows,
            number: rows,
        },
        LogNo::WantOfMemory => Status::WantOfMemory,
    }
}
