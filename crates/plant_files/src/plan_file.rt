// The plan of a plant.
ghost use Rattle.std.specs.Prelude.{◌≡◌, ◌<◌, All, vec_len, IfOk, IfErr, IsErrOf};
ghost use Rattle.byte_io.specs.{IsFaultOf};
ghost use Rattle.plant_status.specs.{FileId};
ghost use Rattle.plant_status.specs.declared.status.Status.TheVariants.{ReadFault};
ghost use Rattle.plant_files.specs.Reading.{faults_after};
ghost use Rattle.plant_files.specs.Texts.{IsPlanFile, IsPlanRefusal};

use crate::text::{MAX_TEXT_BYTES, text_status};
use crate::whole::whole_of;
use byte_io::Files;
use plant_status::{FileId, Status, What};
use std::alloc::Global;
use tag_base::{Base, Plan, read_plan};

/// Reads the plan over a base from the file of this name. The file has at most 1,048,576 bytes.
pub fn plan_of<F: Files>(
    alloc: Global,
    files: &mut F,
    name: &str,
    base: &Base,
) -> Result<Plan, Status>
    ensures plan { IfOk result (IsPlanFile base.now.groups.items (F.told files.old name.now)) }
    ensures groups { IfOk result (λ plan.
        All (λ r. r.group < vec_len base.now.groups) plan.refreshers.items) }
    ensures refused { IfErr result (IsPlanRefusal base.now.groups.items (F.told files.old name.now)) }
    ensures stays { F.told files.new ≡ F.told files.old }
    ensures faults { F.fault_count files.new ≡ faults_after result (F.fault_count files.old) }
    ensures whose { (which : FileId) → IsErrOf result (ReadFault which) → IsFaultOf (F.failed_name files.new) name.now }
{
    let file = FileId::Plan;
    match whole_of(alloc, files, name, file, What::TextBytes, MAX_TEXT_BYTES) {
        Ok(bytes) => match read_plan(alloc, &bytes, base) {
            Ok(plan) => Ok(plan),
            Err(why) => Err(text_status(file, why)),
        },
        Err(why) => Err(why),
    }
}
