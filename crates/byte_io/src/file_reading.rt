// All of a file.
ghost use Rattle.std.specs.Prelude.{◌≡◌, ◌≤◌, ℕ, vec_len, IfOk, IsErrOf};
ghost use Rattle.byte_io.specs.Files.{IsFaultOf, IsWhole, IsLongerThan};
ghost use Rattle.byte_io.specs.Outside.{next_fault_count};
ghost use Rattle.byte_io.specs.declared.failure.ReadNo.TheVariants.{ReadFault, TooLong, WantOfMemory};

use crate::{Files, ReadNo};
use std::alloc::Global;

// How many bytes are asked of a file at once.
const PIECE: usize = 65536;

/// Reads a file to its end, and returns all its bytes. It reads at most `limit + 1` bytes in all. The file stays as it
/// is. `limit` counts bytes. It fails with `ReadFault` if a read failed, and with `TooLong` if the file is longer than
/// `limit`. It fails with `WantOfMemory` if there is no memory for the bytes.
pub fn read_file<F: Files>(
    alloc: Global,
    files: &mut F,
    name: &str,
    limit: u64,
) -> Result<Vec<u8>, ReadNo>
    // All that the file holds, and no more than the limit.
    ensures whole { IfOk result (λ v. IsWhole (F.told files.old name.now) v.items) }
    ensures within { IfOk result (λ v. vec_len v ≤ limit) }
    ensures stays { F.told files.new ≡ F.told files.old }

    // When each error comes. No clause promises that there is memory, but a file that holds nothing needs none.
    ensures too_long { IsErrOf result (TooLong limit) → IsLongerThan (F.told files.old name.now) limit }
    ensures own_limit { (n : ℕ) → IsErrOf result (TooLong n) → n ≡ limit }
    ensures want_of_memory { IsErrOf result WantOfMemory → IsLongerThan (F.told files.old name.now) 0 }
    ensures read_fault { IsErrOf result ReadFault →
        F.fault_count files.new ≡ next_fault_count (F.fault_count files.old) }
    ensures whose { IsErrOf result ReadFault → IsFaultOf (F.failed_name files.new) name.now }
    ensures no_other_fault { ¬ IsErrOf result ReadFault →
        F.fault_count files.new ≡ F.fault_count files.old }
{
    let mut all = Vec::new(alloc);
    let mut piece = [0; PIECE];
    loop {
        let at = all.len() as u64;
        let room = limit - at;
        let wanted = room.min(PIECE as u64 - 1) as usize + 1;
        let Ok(count) = files.read_at(name, at, &mut piece[..wanted]) else {
            return Err(ReadNo::ReadFault);
        };
        if count == 0 {
            return Ok(all);
        }
        if count as u64 > room {
            return Err(ReadNo::TooLong { limit });
        }
        if all.extend_from_slice(&piece[..count]).is_err() {
            return Err(ReadNo::WantOfMemory);
        }
    }
}
