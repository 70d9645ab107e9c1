// All of a source, and all of a text to a sink.
ghost use Rattle.std.specs.Prelude.{◌≡◌, ◌+◌, ◌≤◌, ℕ, vec_len, IfOk, OnOk, OnErr, IsErrOf};
ghost use Rattle.byte_io.specs.Outside.{CountsNoFault, CountsOneFault, TakesAll, TakesExactly, TakesAtMost, TakesSome, IsWritten, IsCutShort};
ghost use Rattle.byte_io.specs.declared.failure.ReadNo.TheVariants.{ReadFault, TooLong, WantOfMemory};

use crate::{ReadNo, Sink, Source, WriteFault};
use std::alloc::Global;

// How many bytes are asked of a source at once.
const PIECE: usize = 65536;

/// Reads a source to its end, and returns all its bytes. It takes at most `limit + 1` bytes in all, and after an error
/// those are lost. `limit` counts bytes. It fails with `ReadFault` if a read failed, with `TooLong` if more than
/// `limit` bytes came, and with `WantOfMemory` if there is no memory for the bytes.
pub fn read_all<S: Source>(alloc: Global, src: &mut S, limit: u64) -> Result<Vec<u8>, ReadNo>
    // All that the source had left, and no more than the limit.
    ensures whole { IfOk result (λ v. TakesAll (S.meaning src.old) (S.meaning src.new) v.items) }
    ensures within { IfOk result (λ v. vec_len v ≤ limit) }

    // When each error comes. No clause promises that there is memory, but a source at its end needs none.
    ensures too_long { IsErrOf result (TooLong limit) →
        TakesExactly (S.meaning src.old) (S.meaning src.new) (limit + 1) }
    ensures own_limit { (n : ℕ) → IsErrOf result (TooLong n) → n ≡ limit }
    ensures read_fault { IsErrOf result ReadFault →
        CountsOneFault (S.meaning src.old) (S.meaning src.new) }
    ensures read_fault_within { IsErrOf result ReadFault →
        TakesAtMost (S.meaning src.old) (S.meaning src.new) limit }
    ensures want_of_memory { IsErrOf result WantOfMemory →
        TakesSome (S.meaning src.old) (S.meaning src.new) limit }
    ensures no_other_fault { ¬ IsErrOf result ReadFault →
        CountsNoFault (S.meaning src.old) (S.meaning src.new) }
{
    let mut all = Vec::new(alloc);
    let mut piece = [0; PIECE];
    loop {
        let room = limit - all.len() as u64;
        let wanted = room.min(PIECE as u64 - 1) as usize + 1;
        let Ok(count) = src.read(&mut piece[..wanted]) else {
            return Err(ReadNo::ReadFault);
        };
        if count == 0 {
            return Ok(all);
        }
        if count as u64 > room {
            return Err(ReadNo::TooLong { limit });
        }
        if all.extend_from_slice(&piece[..count]).is_err() {
            return Err(ReadNo::WantOfMemory);
        }
    }
}

/// Writes all of `bytes` to a sink. If a write fails, it returns an error; some of the bytes, from the first on, are
/// then written, and never all. It takes no memory.
pub fn write_all<O: Sink>(out: &mut O, bytes: &[u8]) -> Result<(), WriteFault>
    ensures whole { OnOk result (IsWritten (O.meaning out.old) (O.meaning out.new) bytes.now) }
    ensures cut_short { OnErr result
        (IsCutShort (O.meaning out.old) (O.meaning out.new) bytes.now) }
{
    let mut at = 0;
    while at < bytes.len() {
        let Ok(count) = out.write(&bytes[at..]) else {
            return Err(WriteFault);
        };
        at += count;
    }
    Ok(())
}
