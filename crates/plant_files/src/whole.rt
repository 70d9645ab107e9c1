// All of a file, or the status of its refusal.
ghost use Rattle.std.specs.Prelude.{◌≡◌, ◌+◌, ◌<◌, ◌^◌, IfOk, IfErr, IsErrOf};
ghost use Rattle.byte_io.specs.{IsFaultOf};
ghost use Rattle.plant_status.specs.{FileId};
ghost use Rattle.plant_status.specs.declared.status.Status.TheVariants.{ReadFault};
ghost use Rattle.plant_files.specs.Reading.{IsReadWhole, IsReadRefusal, faults_after};

use byte_io::{Files, ReadNo, read_file};
use plant_status::{FileId, Status, What};
use std::alloc::Global;

// Reads all bytes of a file. If it has more than `most`, a read fails or there is no memory, the status says so.
pub(crate) fn whole_of<F: Files>(
    alloc: Global,
    files: &mut F,
    name: &str,
    file: FileId,
    what: What,
    most: u64,
) -> Result<Vec<u8>, Status>
    requires { most + 1 < 2 ^ 64 }
    ensures read { IfOk result (λ v. IsReadWhole (F.told files.old name.now) most v.items) }
    ensures refused { IfErr result (IsReadRefusal file what most (F.told files.old name.now)) }
    ensures stays { F.told files.new ≡ F.told files.old }
    ensures faults { F.fault_count files.new ≡ faults_after result (F.fault_count files.old) }
    ensures whose { (which : FileId) → IsErrOf result (ReadFault which) → IsFaultOf (F.failed_name files.new) name.now }
{
    match read_file(alloc, files, name, most) {
        Ok(bytes) => Ok(bytes),
        Err(ReadNo::ReadFault) => Err(Status::ReadFault { file }),
        Err(ReadNo::TooLong { .. }) => Err(Status::Limit {
            what,
            number: most + 1,
        }),
        Err(ReadNo::WantOfMemory) => Err(Status::WantOfMemory),
    }
}
