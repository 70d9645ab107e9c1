// What a commit writes to the device.
ghost use Rattle.std.specs.Prelude.{◌≡◌, ◌+◌, ◌-◌, ◌^◌, ◌<◌, ◌≤◌, ◌++◌, [], ◌∷◌, All, IfOk, IsErrOf, OnErr, OnOk, false, length, map, min, take, true};
ghost use Rattle.trend_num.specs.{TagDef, InRange};
ghost use Rattle.trend_model.specs.{Raw};
ghost use Rattle.trend_model.specs.State.{State, replay};
ghost use Rattle.disk_model.specs.{CountsFault, ComesAfter, During, moment};
ghost use Rattle.crash_recovery.specs.{AllRecover};
ghost use Rattle.tag_cell.specs.declared.entry.CommitNo.TheVariants.{DeviceFault, WantOfMemory as NoMemory, Broken as WasBroken};
ghost use Rattle.tag_cell.specs.Tapes.{last_records, taken};
ghost use Rattle.tag_cell.specs.Crashes.{GoesOnBy, RecoversPart, count_written};

use crate::entry::{CommitNo, Entry};
use archive_file::PutNo;
use crash_recovery::Journal;
use disk_model::Disk;
use std::alloc::Global;
use tag_core::TagCore;
use trend_num::Point;

// The most values that a batch has.
const MOST_IN_BATCH: usize = 64;

impl From<PutNo> for CommitNo {
    ghost use Rattle.tag_cell.specs.Crashes.{refusal_of};
    ghost use Rattle.std.specs.Prelude.{◌≡◌};

    ghost from_gives = { λ put no. no ≡ refusal_of put };

    fn from(put: PutNo) -> CommitNo {
        match put {
            PutNo::DeviceFault => CommitNo::DeviceFault,
            PutNo::WantOfMemory => CommitNo::WantOfMemory,
        }
    }
}

// The values that have waited longest, and how many entries, takes or others, were gone over to find them.
#[derive(Drop)]
pub(crate) struct Batch {
    pub points: [Point; MOST_IN_BATCH],
    pub count: usize,
    pub entries: usize,
}

impl Batch {
    // Goes past one more entry, and adds its value if it is a take.
    fn add(&mut self, entry: &Entry)
        requires room { self.old.count < 64 }
        requires few { self.old.entries < 2 ^ 64 - 1 }
        ensures entries { self.new.entries ≡ self.old.entries + 1 }
        ensures points { take self.new.count self.new.points ≡ take self.old.count self.old.points ++ taken (entry.now ∷ []) }
        ensures count { self.new.count ≡ self.old.count + length (taken (entry.now ∷ [])) }
        ensures most { self.new.count ≤ 64 }
    {
        if let Entry::Take { point, .. } = entry {
            self.points[self.count] = *point;
            self.count += 1;
        }
        self.entries += 1;
    }
}

// Returns the oldest values of these entries, at most 64.
pub(crate) fn oldest(rest: &[Entry]) -> Batch
    ensures within { result.entries ≤ length rest.now }
    ensures points { take result.count result.points ≡ taken (take result.entries rest.now) }
    ensures count { result.count ≡ min 64 (length (taken rest.now)) }
{
    let mut batch = Batch {
        points: [Point { t: 0, v: 0 }; MOST_IN_BATCH],
        count: 0,
        entries: 0,
    };
    while batch.count < MOST_IN_BATCH && batch.entries < rest.len() {
        let next = batch.entries;
        batch.add(&rest[next]);
    }
    batch
}

// Returns how many records there are after the last take of these entries, or `records` if there is none.
pub(crate) fn records_after(records: u32, entries: &[Entry]) -> u32
    ensures { result ≡ last_records records entries.now }
{
    let mut last = records;
    for entry in entries {
        if let Entry::Take { records, .. } = entry {
            last = *records;
        }
    }
    last
}

// Writes waiting values to the device: the oldest 64 or fewer as a batch. If the lane has no free slot, it writes all
// of them with a checkpoint. Returns how many entries that is.
pub(crate) fn write_waiting<D: Disk>(
    alloc: Global,
    journal: &mut Journal<D>,
    core: &TagCore,
    rest: &[Entry],
) -> Result<usize, CommitNo>
    requires usable { journal.old.failed ≡ false }
    requires some { 0 < length (taken rest.now) }
    requires number { journal.old.acked + length (taken rest.now) ≡ core.now.state.summary.taken }
    requires small { core.now.state.summary.taken < 2 ^ 64 }
    requires in_range { All InRange (taken rest.now) }

    // An image that a crash leaves at any moment recovers what each image recovered before, followed by some of the
    // values. At Ok these are the values that were written. The clauses hold for a core that has taken fewer than 10^18
    // events.
    ensures any_moment { core.now.state.summary.taken < 10 ^ 18
        → (def : TagDef) (s : State) → AllRecover def (D.device journal.old.dev).trace s
        → GoesOnBy def s core.now.step core.now.state (taken rest.now)
        → During (D.device journal.old.dev).trace (D.device journal.new.dev).trace (RecoversPart def s (taken rest.now) 0) }
    ensures durable { IfOk result (λ n. core.now.state.summary.taken < 10 ^ 18
        → (def : TagDef) (s : State) → AllRecover def (D.device journal.old.dev).trace s
        → GoesOnBy def s core.now.step core.now.state (taken rest.now)
        → AllRecover def (D.device journal.new.dev).trace (replay def.step s (map Raw (taken (take n rest.now))))) }

    ensures within { IfOk result (λ n. n ≤ length rest.now) }
    ensures count { IfOk result (λ n. length (taken (take n rest.now)) ≡ count_written journal.old.free (length (taken rest.now))) }
    ensures acked { IfOk result (λ n. journal.new.acked ≡ journal.old.acked + length (taken (take n rest.now))) }
    ensures usable { OnOk result (journal.new.failed ≡ false) }
    ensures ticked { OnOk result (moment (D.device journal.old.dev).trace < moment (D.device journal.new.dev).trace) }
    ensures unbroken { IsErrOf result WasBroken → ⊥ }
    ensures untouched { IsErrOf result NoMemory → journal.new ≡ journal.old }
    ensures failed { IsErrOf result DeviceFault → journal.new.failed ≡ true }
    ensures unmoved { OnErr result (journal.new.acked ≡ journal.old.acked) }
    ensures cause { CountsFault result DeviceFault (D.device journal.old.dev).faults (D.device journal.new.dev).faults }
    ensures later { moment (D.device journal.old.dev).trace ≤ moment (D.device journal.new.dev).trace }
    ensures continues { ComesAfter (D.device journal.old.dev).trace (D.device journal.new.dev).trace }
    ensures handed { (D.device journal.new.dev).handed ≡ (D.device journal.old.dev).handed }
{
    if journal.free_slots() == 0 {
        journal.checkpoint(alloc, core)?;
        return Ok(rest.len());
    }
    let batch = oldest(rest);
    match journal.commit(&batch.points[..batch.count]) {
        Ok(()) => Ok(batch.entries),
        Err(_) => Err(CommitNo::DeviceFault),
    }
}
