// Acknowledging rows.
ghost use Rattle.std.specs.Prelude.{◌≡◌, ◌↔◌, ◌+◌, ◌<◌, ◌≤◌, Ok, IfOk, IsErrOf, OnOk, false, true, vec_capacity, vec_len};
ghost use Rattle.disk_model.specs.{CountsFault, Rose};
ghost use Rattle.commit_log.specs.declared.refusal.LogCommitNo.TheVariants.{Broken, DeviceFault, WantOfMemory as NoMemory};
ghost use Rattle.commit_log.specs.Told.{AreRowsAcknowledged, IsLogFaulted, rows_waiting};

use crate::history::{LogAcked, LogTurn};
use crate::log::Log;
use crate::refusal::LogCommitNo;
use crate::writer::{MOST_IN_BLOCK, block_bytes};
use disk_model::{Disk, write_guarded};
use std::alloc::AllocError;

impl From<AllocError> for LogCommitNo {
    ghost use Rattle.std.specs.Prelude.{◌≡◌};
    ghost use Rattle.commit_log.specs.declared.refusal.LogCommitNo.TheVariants.{WantOfMemory as NoMemory};

    ghost from_gives = { λ _ no. no ≡ NoMemory };

    fn from(_: AllocError) -> LogCommitNo {
        LogCommitNo::WantOfMemory
    }
}

impl<D: Disk> Log<D> {
    /// Acknowledges the rows that have waited longest, 4,096 at most, as one block. If no row waits, it makes no call
    /// of the device and changes nothing. It returns how many rows are acknowledged, and how many still wait.
    ///
    /// Broken: an earlier commit returned DeviceFault. DeviceFault: a call of the device failed. WantOfMemory: there
    /// was no memory, or the block would end beyond 2^64 bytes. WantOfMemory comes before any call of the device, and
    /// leaves the log unchanged.
    pub fn commit(&mut self) -> Result<LogAcked, LogCommitNo>
        ensures broken { IsErrOf result Broken ↔ (self.old.failed ≡ true) }
        ensures idle { self.old.failed ≡ false → rows_waiting self.old ≡ 0
            → (result ≡ Ok (record { acked = self.old.acked; waiting = 0 })) × (self.new ≡ self.old) }
        ensures committed { 0 < rows_waiting self.old → IfOk result (λ a. AreRowsAcknowledged D.device a self.old self.new) }
        ensures faulted { IsErrOf result DeviceFault → IsLogFaulted self.old self.new }
        ensures cause { CountsFault result DeviceFault (D.device self.old.dev).faults (D.device self.new.dev).faults }
        ensures broken_cause { IsErrOf result Broken → Rose self.old.faults (D.device self.old.dev).faults }
        ensures untouched { IsErrOf result NoMemory → self.new ≡ self.old }
        ensures still_broken { IsErrOf result Broken → self.new ≡ self.old }
    {
        if self.failed {
            return Err(LogCommitNo::Broken);
        }
        let waiting = self.opening.len() as u64 + u64::from(self.count) - self.acked;
        if waiting == 0 {
            return Ok(LogAcked {
                acked: self.acked,
                waiting: 0,
            });
        }
        let count = waiting.min(u64::from(MOST_IN_BLOCK));
        make_places(&mut self.tape, self.room - self.count)?;
        let rest = &self.tape[self.next..];
        let block = block_bytes(self.alloc, self.acked, count as u32, rest)?;
        let Some(end) = self.end.checked_add(block.bytes.len() as u64) else {
            return Err(LogCommitNo::WantOfMemory);
        };
        match write_guarded(&mut self.dev, self.end + 1, &block.bytes, self.end) {
            Ok(()) => {
                self.acked += count;
                self.next += block.turns;
                self.end = end;
                self.tape.push_reserved(LogTurn::Commit {
                    moment: self.dev.clock(),
                    acked: self.acked,
                });
                Ok(LogAcked {
                    acked: self.acked,
                    waiting: waiting - count,
                })
            }
            Err(_) => {
                self.failed = true;
                Err(LogCommitNo::DeviceFault)
            }
        }
    }
}

// Makes room on a tape for the puts to come and for one commit.
fn make_places(tape: &mut Vec<LogTurn>, puts_to_come: u32) -> Result<(), AllocError>
    ensures same { tape.new.items ≡ tape.old.items }
    ensures room { OnOk result (vec_len tape.old + puts_to_come + 1 ≤ vec_capacity tape.new) }
    ensures more { vec_capacity tape.old ≤ vec_capacity tape.new }
{
    tape.try_reserve(puts_to_come as usize + 1)
}
