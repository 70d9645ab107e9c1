// The commit of the values that wait.
ghost use Rattle.std.specs.Prelude.{◌≡◌, ◌↔◌, Err, Ok, IfOk, IsErrOf, false, true};
ghost use Rattle.disk_model.specs.{CountsFault, moment};
ghost use Rattle.tag_cell.specs.declared.entry.CommitNo.TheVariants.{Broken, DeviceFault, WantOfMemory as NoMemory};
ghost use Rattle.tag_cell.specs.Told.{IsCommitted, IsCellFaulted, takes_waiting};

use crate::batch::{records_after, write_waiting};
use crate::cell::Cell;
use crate::entry::{Acked, CommitNo, Entry};
use crate::reading::make_places;
use disk_model::Disk;
use trend_num::WantOfMemory;

impl From<WantOfMemory> for CommitNo {
    ghost use Rattle.std.specs.Prelude.{◌≡◌};
    ghost use Rattle.tag_cell.specs.declared.entry.CommitNo.TheVariants.{WantOfMemory as NoMemory};

    ghost from_gives = { λ _ no. no ≡ NoMemory };

    fn from(_: WantOfMemory) -> CommitNo {
        CommitNo::WantOfMemory
    }
}

impl<D: Disk> Cell<D> {
    /// Acknowledges the values that have waited longest: 64 or fewer as a batch. If the lane has no free slot, it
    /// acknowledges all of them with a checkpoint. If no value waits, it calls nothing and changes nothing.
    /// `DeviceFault` breaks the cell, and `Broken` answers every commit after it. After `WantOfMemory` the cell is as
    /// before, and the device was not called. Returns how many events are acknowledged, and how many values still wait.
    pub fn commit(&mut self) -> Result<Acked, CommitNo>
        ensures broken { IsErrOf result Broken ↔ (self.old.journal.failed ≡ true) }
        ensures idle { self.old.journal.failed ≡ false → takes_waiting self.old ≡ 0
            → (result ≡ Ok (record { acked = self.old.journal.acked; waiting = 0 })) × (self.new ≡ self.old) }
        ensures committed { IfOk result (λ a. IsCommitted (moment (D.device self.old.journal.dev).trace) (moment (D.device self.new.journal.dev).trace) a self.old self.new) }
        ensures faulted { IsErrOf result DeviceFault → IsCellFaulted self.old self.new }
        ensures cause { CountsFault result DeviceFault (D.device self.old.journal.dev).faults (D.device self.new.journal.dev).faults }
        ensures untouched { IsErrOf result NoMemory → self.new ≡ self.old }
        ensures still_broken { IsErrOf result Broken → self.new ≡ self.old }
    {
        if self.journal.failed() {
            return Err(CommitNo::Broken);
        }
        let taken = self.core.taken();
        let acked = self.journal.acked();
        if acked == taken {
            return Ok(Acked { acked, waiting: 0 });
        }
        let takes_to_come = self.room - self.takes;
        make_places(&mut self.tape, takes_to_come)?;
        let rest = &self.tape[self.next..];
        let entries = write_waiting(self.alloc, &mut self.journal, &self.core, rest)?;
        let upto = self.next + entries;
        self.durable = records_after(self.durable, &self.tape[self.next..upto]);
        self.next = upto;
        let acked = self.journal.acked();
        self.tape.push_reserved(Entry::Commit {
            moment: self.journal.clock(),
            acked,
        });
        Ok(Acked {
            acked,
            waiting: taken - acked,
        })
    }
}
