// The base of a plant.
ghost use Rattle.std.specs.Prelude.{◌≡◌, ◌≢◌, All, length, IfOk, IfErr, IsErrOf};
ghost use Rattle.std.specs.List.{AllPairs};
ghost use Rattle.trend_num.specs.{TuningInRange};
ghost use Rattle.tag_base.specs.{IsSoundGroup};
ghost use Rattle.byte_io.specs.{IsFaultOf};
ghost use Rattle.plant_status.specs.{FileId};
ghost use Rattle.plant_status.specs.declared.status.Status.TheVariants.{ReadFault};
ghost use Rattle.plant_files.specs.Reading.{faults_after};
ghost use Rattle.plant_files.specs.Texts.{IsBaseFile, IsBaseRefusal, tag_names};

use crate::text::{MAX_TEXT_BYTES, text_status};
use crate::whole::whole_of;
use byte_io::Files;
use plant_status::{FileId, Status, What};
use std::alloc::Global;
use tag_base::{Base, read_base};

/// Reads the base from the file of this name. The file has at most 1,048,576 bytes. No two of its tags have one name,
/// and no two of its groups. Its tunings are in range, and the inputs of its groups are tags of it.
pub fn base_of<F: Files>(alloc: Global, files: &mut F, name: &str) -> Result<Base, Status>
    ensures base { IfOk result (IsBaseFile (F.told files.old name.now)) }
    ensures sound { IfOk result (λ base. All (IsSoundGroup (length base.tags.items)) base.groups.items) }
    ensures tuned { IfOk result (λ base. All (λ tag. TuningInRange tag.tuning) base.tags.items) }
    ensures distinct { IfOk result (λ base. AllPairs (λ x y. x ≢ y) (tag_names base.tags.items)) }
    ensures distinct_groups { IfOk result (λ base. AllPairs (λ a b. a.name ≢ b.name) base.groups.items) }
    ensures refused { IfErr result (IsBaseRefusal (F.told files.old name.now)) }
    ensures stays { F.told files.new ≡ F.told files.old }
    ensures faults { F.fault_count files.new ≡ faults_after result (F.fault_count files.old) }
    ensures whose { (which : FileId) → IsErrOf result (ReadFault which) → IsFaultOf (F.failed_name files.new) name.now }
{
    let file = FileId::Base;
    match whole_of(alloc, files, name, file, What::TextBytes, MAX_TEXT_BYTES) {
        Ok(bytes) => match read_base(alloc, &bytes) {
            Ok(base) => Ok(base),
            Err(why) => Err(text_status(file, why)),
        },
        Err(why) => Err(why),
    }
}
