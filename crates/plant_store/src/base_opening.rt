// Opening the tags of a base.
ghost use Rattle.std.specs.Prelude.{◌≡◌, ◌≢◌, ◌^◌, ◌<◌, ◌≤◌, ℕ, All, AllPairs, length, IfOk, IfErr};
ghost use Rattle.trend_num.specs.{most_stored, TuningInRange};
ghost use Rattle.plant_files.specs.Reading.{faults_told};
ghost use Rattle.plant_files.specs.{tag_names};
ghost use Rattle.plant_store.specs.Tags.{AllStaySame, AreLeft, AreTagsOpened, AreOtherTagsSame, tag_records_in};
ghost use Rattle.plant_store.specs.TagRefusals.{CountsStore, IsRefusal};

use crate::tag_device::open_device;
use crate::tag_refusal::{MAX_STORE_RECORDS, status_of, too_many};
use disk_model::Store;
use plant_status::Status;
use std::alloc::Global;
use tag_base::Base;
use tag_core::TagCore;

/// Opens the tags of a base that was read, in order, each over the device of its name, and gives each device back at
/// once. A device that does not exist is made, with 64 lane slots. No two tags have the same name, so each device is
/// opened once.
///
/// It returns the refusal of the first tag that is not opened: a call of its device failed, the device is damaged, the
/// device is that of another tag, there are too many records, or there was no memory. It also stops at the tag with
/// which the tags together have too many records.
pub fn open_base<S: Store>(
    alloc: Global,
    store: &mut S,
    base: &Base,
) -> Result<Vec<TagCore>, Status>
    requires tuned { All (λ tag. TuningInRange tag.tuning) base.now.tags.items }
    requires distinct { AllPairs (λ x y. x ≢ y) (tag_names base.now.tags.items) }
    requires few { length base.now.tags.items < 2 ^ 32 }
    ensures opened { IfOk result (λ cores. AreTagsOpened base.now.tags.items (S.device_at store.old) cores.items) }
    ensures left { IfOk result (λ cores. AreLeft base.now.tags.items (S.device_at store.old)
        (S.device_at store.new) cores.items) }
    ensures as_many { IfOk result (λ cores. length cores.items ≡ length base.now.tags.items) }
    ensures few_records { IfOk result (λ cores. tag_records_in cores.items ≤ most_stored) }
    ensures short { IfOk result (λ cores. All (λ core. length core.state.records < 2 ^ 32) cores.items) }
    ensures refused { IfErr result (IsRefusal base.now.tags.items (S.device_at store.old) (S.device_at store.new)
        (S.fault_count store.old) (S.fault_count store.new)) }
    ensures no_file_fault { IfErr result (λ why. (n : ℕ) → faults_told why n ≡ n) }
    ensures same { AllStaySame base.now.tags.items (S.device_at store.old) (S.device_at store.new) }
    ensures others { AreOtherTagsSame base.now.tags.items (S.device_at store.old) (S.device_at store.new) }
    ensures counts { S.fault_count store.old < 2 ^ 64
        → CountsStore result (S.fault_count store.old) (S.fault_count store.new) }
{
    let mut cores = Vec::new(alloc);
    let mut records = 0;
    for def in &base.tags {
        let tag = cores.len() as u32;
        let core = match open_device(alloc, store, def) {
            Ok(core) => core,
            Err(why) => return Err(status_of(tag, why)),
        };
        records += core.recs().len() as u64;
        if records > MAX_STORE_RECORDS {
            return Err(too_many(records));
        }
        let Ok(()) = cores.push(core) else {
            return Err(Status::WantOfMemory);
        };
    }
    Ok(cores)
}
