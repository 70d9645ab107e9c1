// The journal of a tag's device: batches of values, and checkpoints.
ghost use Rattle.std.specs.Prelude.{◌≡◌, ◌↔◌, ◌+◌, ◌^◌, ◌<◌, ◌≤◌, true, false, length, map, IsOk, OnOk, IsErrOf};
ghost use Rattle.std.specs.List.{All};
ghost use Rattle.trend_num.specs.{InRange, TagDef};
ghost use Rattle.trend_model.specs.{Raw};
ghost use Rattle.trend_model.specs.State.{State, replay};
ghost use Rattle.disk_model.specs.{CountsFault, Shows, ComesAfter, moment};
ghost use Rattle.archive_file.specs.declared.failure.PutNo.TheVariants.{DeviceFault as PutFault, WantOfMemory as NoMemory};
ghost use Rattle.event_queue.specs.declared.failure.LaneNo.TheVariants.{LaneFull, DeviceFault as LaneFault};

use crate::seat::Seat;
use archive_file::PutNo;
use disk_model::Disk;
use event_queue::LaneNo;
use std::alloc::Global;
use std::marker::Model;
use tag_core::TagCore;
use trend_num::Point;

/// The device of an opened tag. No crash loses what the journal has acknowledged.
#[derive(Drop)]
pub struct Journal<D: Disk> {
    dev: D,
    seat: Seat,
    failed: bool,
}

impl<D: Disk> Model for Journal<D> {
    ghost use Rattle.crash_recovery.specs.Journals.{Logged, IsJournal, free_in};

    ghost Value = { Logged D };

    ghost view = { λ j. record {
      dev = j.dev;
      acked = j.seat.lane.next;
      slots = j.seat.lane.slots;
      free = free_in j.seat;
      failed = j.failed;
    } };

    ghost invariant = { λ j. IsJournal j.seat j.failed (D.device j.dev).trace };
}

impl<D: Disk> Journal<D> {
    ghost use Rattle.crash_recovery.specs.Journals.{AllRecover, GoesOnFrom, LeavesEither, IsCommitted, IsCheckpointed, StaysAs, SeatedOn, IsNumbered, free_in};
    ghost use Rattle.crash_recovery.specs.Seats.{checkpoint_calls};
    ghost use Rattle.device_layout.specs.{AllFit};

    // Returns the journal of a device that was opened.
    pub(crate) fn new(dev: D, seat: Seat) -> Journal<D>
        requires within { seat.lane.used ≤ seat.lane.slots }
        requires some { 1 ≤ seat.lane.slots }
        requires few { seat.lane.slots ≤ 65536 }
        requires numbered { IsNumbered seat }
        requires seated { SeatedOn seat (D.device dev).trace }
        ensures { result ≡ record {
          dev = dev;
          acked = seat.lane.next;
          slots = seat.lane.slots;
          free = free_in seat;
          failed = false;
        } }
    {
        Journal {
            dev,
            seat,
            failed: false,
        }
    }

    /// Writes 1 to 64 values, those after the acknowledged ones, into the lane as one batch. At Ok they are
    /// acknowledged: no crash loses them. It fails with LaneFull if no lane slot is free; then it made no call. After
    /// DeviceFault the device has to be opened again before it is used.
    pub fn commit(&mut self, points: &[Point]) -> Result<(), LaneNo>
        requires usable { self.old.failed ≡ false }
        requires some { 1 ≤ length points.now }
        requires few { length points.now ≤ 64 }
        requires in_range { All InRange points.now }
        requires number { self.old.acked + length points.now < 2 ^ 64 }

        // Let the values find room in what each image recovers. Then a crash at any moment leaves an image that
        // recovers the same, or that and all of these values. At Ok, it recovers all of these values too.
        ensures crash { (def : TagDef) (s : State) → AllRecover def (D.device self.old.dev).trace s
            → AllFit def.step s (map Raw points.now)
            → LeavesEither def (D.device self.old.dev).trace (D.device self.new.dev).trace s
            (replay def.step s (map Raw points.now)) result }

        ensures done { OnOk result (IsCommitted (length points.now) self.old self.new) }
        ensures lane_full { IsErrOf result LaneFull ↔ (self.old.free ≡ 0) }
        ensures untouched { IsErrOf result LaneFull → self.new ≡ self.old }
        ensures failed { IsErrOf result LaneFault → StaysAs true self.old self.new }
        ensures ticked { OnOk result (moment (D.device self.old.dev).trace < moment (D.device self.new.dev).trace) }
        ensures later { moment (D.device self.old.dev).trace ≤ moment (D.device self.new.dev).trace }
        ensures cause { CountsFault result LaneFault
            (D.device self.old.dev).faults (D.device self.new.dev).faults }
        ensures continues { ComesAfter (D.device self.old.dev).trace (D.device self.new.dev).trace }
        ensures handed { (D.device self.new.dev).handed ≡ (D.device self.old.dev).handed }
    {
        if self.seat.is_full() {
            return Err(LaneNo::LaneFull);
        }
        let Ok(()) = self.seat.append(&mut self.dev, points) else {
            self.failed = true;
            return Err(LaneNo::DeviceFault);
        };
        Ok(())
    }

    /// Makes a checkpoint of a core that continues from what the device recovers. It writes the new records after those
    /// that the summary counts, then the summary, and then begins the lane anew. At Ok all of the core's events are
    /// acknowledged. If they are already, and each lane slot is free, it makes no call.
    ///
    /// It fails with WantOfMemory if there is no memory. It also refuses two cores so, before any call: one that has
    /// taken 10^18 events or more; and, if something is left to do, one that has taken no more events than the last
    /// summary counts. After DeviceFault the device has to be opened again before it is used.
    pub fn checkpoint(&mut self, alloc: Global, core: &TagCore) -> Result<(), PutNo>
        requires usable { self.old.failed ≡ false }

        // Let the core continue by some events from what each image recovers, and have taken fewer than 10^18 events.
        // Then a crash at any moment leaves an image that recovers the same, or the state of the core. At Ok, it
        // recovers the state of the core.
        ensures crash { core.now.state.summary.taken < 10 ^ 18
            → (def : TagDef) (s : State) → AllRecover def (D.device self.old.dev).trace s
            → GoesOnFrom def s core.now.step core.now.state
            → LeavesEither def (D.device self.old.dev).trace (D.device self.new.dev).trace s core.now.state result }

        ensures done { OnOk result (IsCheckpointed core.now.state.summary.taken self.old self.new) }
        ensures idle { self.old.acked ≡ core.now.state.summary.taken → self.old.free ≡ self.old.slots
            → IsOk result × (self.new ≡ self.old) }

        // Want of memory leaves what each image recovers. If no lane slot is free, it comes before any call.
        ensures kept { IsErrOf result NoMemory → (def : TagDef) (s : State)
            → AllRecover def (D.device self.old.dev).trace s → AllRecover def (D.device self.new.dev).trace s }
        ensures untouched { IsErrOf result NoMemory → self.old.free ≡ 0 → self.new ≡ self.old }
        ensures no_memory { IsErrOf result NoMemory → StaysAs false self.old self.new }
        ensures failed { IsErrOf result PutFault → StaysAs true self.old self.new }
        ensures calls { OnOk result (self.old.acked < core.now.state.summary.taken → Shows (D.device self.old.dev).trace
            (λ c. moment (D.device self.new.dev).trace ≡ moment (D.device self.old.dev).trace + checkpoint_calls (length core.now.state.records) c)) }
        ensures ticked { OnOk result (self.old.acked < core.now.state.summary.taken
            → moment (D.device self.old.dev).trace < moment (D.device self.new.dev).trace) }
        ensures later { moment (D.device self.old.dev).trace ≤ moment (D.device self.new.dev).trace }
        ensures cause { CountsFault result PutFault
            (D.device self.old.dev).faults (D.device self.new.dev).faults }
        ensures continues { ComesAfter (D.device self.old.dev).trace (D.device self.new.dev).trace }
        ensures handed { (D.device self.new.dev).handed ≡ (D.device self.old.dev).handed }
    {
        match self.seat.checkpoint(alloc, &mut self.dev, core) {
            Err(PutNo::DeviceFault) => {
                self.failed = true;
                Err(PutNo::DeviceFault)
            }
            done => done,
        }
    }

    /// Returns how many events are acknowledged, counted since the tag began.
    pub fn acked(&self) -> u64
        ensures { result ≡ self.now.acked }
    {
        self.seat.lane.next
    }

    /// Returns how many lane slots are free.
    pub fn free_slots(&self) -> u32
        ensures { result ≡ self.now.free }
    {
        self.seat.free_slots()
    }

    /// Returns how many calls the device has counted.
    pub fn clock(&self) -> u64
        ensures { result ≡ moment (D.device self.now.dev).trace }
    {
        self.dev.clock()
    }

    /// Returns how often a call of the device has failed.
    pub fn faults(&self) -> u64
        ensures { result ≡ (D.device self.now.dev).faults }
    {
        self.dev.faults()
    }

    /// Returns whether a call of this journal has answered DeviceFault.
    pub fn failed(&self) -> bool
        ensures { result ≡ self.now.failed }
    {
        self.failed
    }

    /// Returns the device, and gives up the journal.
    pub fn into_device(self) -> D
        ensures { result ≡ self.dev }
    {
        self.dev
    }
}
