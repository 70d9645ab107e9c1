// A checkpoint: the new records, then the summary, and then the lane begins anew.
ghost use Rattle.std.specs.Prelude.{◌≡◌, ◌↔◌, ◌+◌, ◌*◌, ◌^◌, ◌<◌, ◌≤◌, true, false, IsTrue, length, drop, OnOk, OnErr, IfOk, IsOk, IsErrOf};
ghost use Rattle.trend_num.specs.{TagDef};
ghost use Rattle.trend_model.specs.State.{State};
ghost use Rattle.disk_model.specs.{seen, written, moment, FromOld, IsTorn, ComesAfter, During, CountsFault, HasCause, Reaches, Sees, Shows};
ghost use Rattle.archive_file.specs.{recs_image};
ghost use Rattle.archive_file.specs.declared.failure.PutNo.TheVariants.{DeviceFault as PutFault, WantOfMemory as NoMemory};
ghost use Rattle.event_queue.specs.{gate_of, lane_end};
ghost use Rattle.device_layout.specs.{summary_gate, Recovers};
ghost use Rattle.crash_recovery.specs.Journals.{AllRecover, GoesOnFrom, RecoversEither, SeatedOn, IsNumbered, free_in, log_end};
ghost use Rattle.crash_recovery.specs.Seats.{checkpoint_calls, log_calls, record_calls, spare_slot, KeepsPlaces, LaidOn, OverrunOn, ReadyOn};

use crate::seat::Seat;
use archive_file::{DeviceFault, PutNo, REC_LEN, put_records, summary_bytes};
use device_layout::{Slot, log_start};
use disk_model::{Disk, close_gates, write_guarded};
use event_queue::Lane;
use std::alloc::Global;
use tag_core::TagCore;
use trend_num::Rec;

// A summary counts fewer events than this.
const MOST_TAKEN: u64 = 1_000_000_000_000_000_000;

impl Seat {
    // Makes a checkpoint of a core that continues from what the device recovers. If the summary counts all of the
    // core's events and each lane slot is free, it makes no call. Otherwise it refuses two cores as want of memory,
    // before any call: one that has taken no more events than the summary counts, and one that has taken 10^18 or more.
    pub(crate) fn checkpoint<D: Disk>(
        &mut self,
        alloc: Global,
        dev: &mut D,
        core: &TagCore,
    ) -> Result<(), PutNo>
        requires within { self.old.lane.used ≤ self.old.lane.slots }
        requires some { 1 ≤ self.old.lane.slots }
        requires numbered { IsNumbered self.old }
        requires seated { SeatedOn self.old (D.device dev.old).trace }

        // A crash at any moment leaves an image that recovers what each recovered before, or the state of the core. At
        // Ok, it recovers the state of the core.
        ensures any_moment { core.now.state.summary.taken < 10 ^ 18
            → (def : TagDef) (s : State) → AllRecover def (D.device dev.old).trace s
            → GoesOnFrom def s core.now.step core.now.state
            → During (D.device dev.old).trace (D.device dev.new).trace (RecoversEither def s core.now.state) }
        ensures durable { OnOk result (core.now.state.summary.taken < 10 ^ 18
            → (def : TagDef) (s : State) → AllRecover def (D.device dev.old).trace s
            → GoesOnFrom def s core.now.step core.now.state
            → AllRecover def (D.device dev.new).trace core.now.state) }

        ensures seated { OnOk result (SeatedOn self.new (D.device dev.new).trace) }
        ensures number { OnOk result (self.new.lane.next ≡ core.now.state.summary.taken) }
        ensures free { OnOk result (free_in self.new ≡ self.new.lane.slots) }
        ensures numbered { IsNumbered self.new }
        ensures idle { self.old.lane.next ≡ core.now.state.summary.taken → free_in self.old ≡ self.old.lane.slots
            → IsOk result × ((self.new ≡ self.old) × (dev.new ≡ dev.old)) }
        ensures untouched { IsErrOf result NoMemory → free_in self.old ≡ 0
            → (self.new ≡ self.old) × (dev.new ≡ dev.old) }
        ensures calls { OnOk result (self.old.lane.next < core.now.state.summary.taken → Shows (D.device dev.old).trace
            (λ c. moment (D.device dev.new).trace ≡ moment (D.device dev.old).trace + checkpoint_calls (length core.now.state.records) c)) }
        ensures ticked { OnOk result (self.old.lane.next < core.now.state.summary.taken
            → moment (D.device dev.old).trace < moment (D.device dev.new).trace) }
        ensures still_seated { IsErrOf result NoMemory → SeatedOn self.new (D.device dev.new).trace }
        ensures kept { IsErrOf result NoMemory → (def : TagDef) (s : State)
            → AllRecover def (D.device dev.old).trace s → AllRecover def (D.device dev.new).trace s }
        ensures unmoved { OnErr result (self.new.lane.next ≡ self.old.lane.next) }
        ensures still_free { OnErr result (free_in self.new ≡ free_in self.old) }
        ensures slots { self.new.lane.slots ≡ self.old.lane.slots }
        ensures within { self.new.lane.used ≤ self.new.lane.slots }
        ensures cause { CountsFault result PutFault (D.device dev.old).faults (D.device dev.new).faults }
        ensures continues { ComesAfter (D.device dev.old).trace (D.device dev.new).trace }
        ensures handed { (D.device dev.new).handed ≡ (D.device dev.old).handed }
        ensures later { moment (D.device dev.old).trace ≤ moment (D.device dev.new).trace }
    {
        if self.has_all_of(core) {
            return Ok(());
        }
        if core.taken() <= self.taken || core.taken() >= MOST_TAKEN {
            return Err(PutNo::WantOfMemory);
        }
        let Ok(()) = self.close_stale(dev) else {
            return Err(PutNo::DeviceFault);
        };
        self.log_records(alloc, dev, core.recs())?;
        let Ok(mut seat) = self.put_summary(dev, core) else {
            return Err(PutNo::DeviceFault);
        };
        let Ok(()) = seat.close_stale(dev) else {
            return Err(PutNo::DeviceFault);
        };
        *self = seat;
        Ok(())
    }

    // Returns whether the summary counts as many events as the core has taken, and no values are in the lane.
    fn has_all_of(&self, core: &TagCore) -> bool
        requires { self.now.lane.used ≤ self.now.lane.slots }
        ensures { IsTrue result ↔ ((self.now.taken ≡ core.now.state.summary.taken)
            × (self.now.lane.next ≡ self.now.taken)
            × (free_in self.now ≡ self.now.lane.slots)) }
    {
        core.taken() == self.taken
            && self.lane.next == self.taken
            && self.free_slots() == self.lane.slots
    }

    // Writes after the log the records that the summary does not count, closes the gate of the summary slot that does
    // not count, and syncs.
    fn log_records<D: Disk>(&self, alloc: Global, dev: &mut D, recs: &[Rec]) -> Result<(), PutNo>
        requires within { self.now.lane.used ≤ self.now.lane.slots }
        requires laid { LaidOn self.now (D.device dev.old).trace }

        // A crash at any moment leaves an image that recovers what each recovered before.
        ensures any_moment { (def : TagDef) (s : State) → AllRecover def (D.device dev.old).trace s
            → During (D.device dev.old).trace (D.device dev.new).trace (λ c. Recovers def c s) }
        ensures laid { OnOk result (LaidOn self.now (D.device dev.new).trace) }
        ensures ready { OnOk result (ReadyOn self.now (summary_gate (spare_slot self.now.counts)) recs.now
            (D.device dev.new).trace) }
        ensures gates { OnOk result (KeepsPlaces (gate_of 0) (gate_of self.now.lane.slots) (D.device dev.old).trace (D.device dev.new).trace) }
        ensures calls { OnOk result (Shows (D.device dev.old).trace
            (λ c. moment (D.device dev.new).trace ≡ moment (D.device dev.old).trace + log_calls self.now (length recs.now) c)) }
        ensures unwritten { IsErrOf result NoMemory → dev.new ≡ dev.old }
        ensures cause { CountsFault result PutFault (D.device dev.old).faults (D.device dev.new).faults }
        ensures continues { ComesAfter (D.device dev.old).trace (D.device dev.new).trace }
        ensures handed { (D.device dev.new).handed ≡ (D.device dev.old).handed }
        ensures later { moment (D.device dev.old).trace ≤ moment (D.device dev.new).trace }
    {
        self.put_new_records(alloc, dev, recs)?;
        match close_gates(dev, self.spare_slot().gate(), 1) {
            Ok(()) => Ok(()),
            Err(_) => Err(PutNo::DeviceFault),
        }
    }

    // Writes after the log the records that the summary does not count. It does not sync.
    fn put_new_records<D: Disk>(
        &self,
        alloc: Global,
        dev: &mut D,
        recs: &[Rec],
    ) -> Result<(), PutNo>
        requires room { Reaches (D.device dev.old).trace (log_end self.now) }

        // A crash at any moment leaves an image from before with other bytes after the log.
        ensures any_moment { During (D.device dev.old).trace (D.device dev.new).trace (FromOld (D.device dev.old).trace
            (IsTorn (log_end self.now) (length (recs_image (drop self.now.records recs.now))))) }
        ensures reads { OnOk result (Sees (D.device dev.new).trace
            (written (seen (D.device dev.old).trace) (log_end self.now)
            (recs_image (drop self.now.records recs.now)))) }
        ensures calls { OnOk result (moment (D.device dev.new).trace ≡ moment (D.device dev.old).trace + record_calls self.now.records (length recs.now)) }
        ensures unwritten { IsErrOf result NoMemory → dev.new ≡ dev.old }
        ensures cause { CountsFault result PutFault (D.device dev.old).faults (D.device dev.new).faults }
        ensures handed { (D.device dev.new).handed ≡ (D.device dev.old).handed }
        ensures later { moment (D.device dev.old).trace ≤ moment (D.device dev.new).trace }
    {
        let from = (self.records as usize).min(recs.len());
        let recs = &recs[from..];
        if recs.is_empty() {
            return Ok(());
        }
        put_records(alloc, dev, self.log_end(), recs)
    }

    // Writes the summary of a core into the summary slot that does not count. The new records are on the device
    // already. Returns the seat of the journal from then on.
    fn put_summary<D: Disk>(&self, dev: &mut D, core: &TagCore) -> Result<Seat, DeviceFault>
        requires fresh { self.now.stale ≡ false }
        requires within { self.now.lane.used ≤ self.now.lane.slots }
        requires laid { LaidOn self.now (D.device dev.old).trace }
        requires ready { ReadyOn self.now (summary_gate (spare_slot self.now.counts)) core.now.state.records
            (D.device dev.old).trace }
        requires more { self.now.taken < core.now.state.summary.taken }
        requires countable { core.now.state.summary.taken < 10 ^ 18 }

        // A crash at any moment leaves an image that recovers what each recovered before, or the state of the core. At
        // Ok, it recovers the state of the core, and the summary has overtaken the lane.
        ensures any_moment { (def : TagDef) (s : State) → AllRecover def (D.device dev.old).trace s
            → GoesOnFrom def s core.now.step core.now.state
            → During (D.device dev.old).trace (D.device dev.new).trace (RecoversEither def s core.now.state) }
        ensures durable { OnOk result ((def : TagDef) (s : State) → AllRecover def (D.device dev.old).trace s
            → GoesOnFrom def s core.now.step core.now.state
            → AllRecover def (D.device dev.new).trace core.now.state) }
        ensures overrun { IfOk result (λ p. (def : TagDef) (s : State) → AllRecover def (D.device dev.old).trace s
            → GoesOnFrom def s core.now.step core.now.state → OverrunOn p (D.device dev.new).trace) }
        ensures laid { IfOk result (λ p. LaidOn p (D.device dev.new).trace) }
        ensures number { IfOk result (λ p. p.lane.next ≡ core.now.state.summary.taken) }
        ensures same_lane { IfOk result (λ p. (p.lane.slots ≡ self.now.lane.slots)
            × (p.lane.used ≡ self.now.lane.used)) }
        ensures stale { IfOk result (λ p. p.stale ≡ false → p.lane.used ≡ 0) }
        ensures overtaken { IfOk result (λ p. p.stale ≡ true → 0 < p.lane.used) }
        ensures taken { IfOk result (λ p. p.taken ≡ core.now.state.summary.taken) }
        ensures gates { OnOk result (KeepsPlaces (gate_of 0) (gate_of self.now.lane.slots) (D.device dev.old).trace (D.device dev.new).trace) }
        ensures clock { OnOk result (moment (D.device dev.new).trace ≡ moment (D.device dev.old).trace + 4) }
        ensures later { moment (D.device dev.old).trace ≤ moment (D.device dev.new).trace }
        ensures cause { HasCause (D.device dev.old).faults (D.device dev.new).faults result }
        ensures continues { ComesAfter (D.device dev.old).trace (D.device dev.new).trace }
        ensures handed { (D.device dev.new).handed ≡ (D.device dev.old).handed }
    {
        let slot = self.spare_slot();
        // These calls are made for their contracts alone: the tuning and the records are in range.
        let _tuning = core.tuning();
        let _recs = core.recs();
        let summary = core.summary();
        let Ok(()) = write_guarded(dev, slot.place(), &summary_bytes(&summary), slot.gate()) else {
            return Err(DeviceFault);
        };
        Ok(Seat {
            lane: Lane {
                next: summary.taken,
                ..self.lane
            },
            stale: self.lane.used > 0,
            counts: Some(slot),
            taken: summary.taken,
            records: summary.records,
        })
    }

    // The place at which the records end that the summary counts.
    fn log_end(&self) -> u64
        ensures { result ≡ log_end self.now }
    {
        records_end(self.lane.slots, self.records)
    }

    // The summary slot into which the next summary goes: one that does not count.
    fn spare_slot(&self) -> Slot
        ensures { result ≡ spare_slot self.now.counts }
    {
        match self.counts {
            Some(Slot::First) => Slot::Second,
            _ => Slot::First,
        }
    }
}

// The place at which so many records end, after so many lane slots.
fn records_end(slots: u32, records: u32) -> u64
    ensures { result ≡ lane_end slots + 17 * records }
{
    log_start(slots) + REC_LEN as u64 * u64::from(records)
}
