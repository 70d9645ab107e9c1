// The place of a journal on its device.
ghost use Rattle.std.specs.Prelude.{◌≡◌, ◌≢◌, ◌↔◌, ◌+◌, ◌^◌, ◌<◌, ◌≤◌, true, false, IsTrue, length, map, OnOk, OnErr};
ghost use Rattle.std.specs.List.{All};
ghost use Rattle.trend_num.specs.{InRange, TagDef};
ghost use Rattle.trend_model.specs.{Raw};
ghost use Rattle.trend_model.specs.State.{State, replay};
ghost use Rattle.disk_model.specs.{ComesAfter, During, HasCause, Shows, moment};
ghost use Rattle.event_queue.specs.{gate_of};
ghost use Rattle.device_layout.specs.{AllFit, Recovers};
ghost use Rattle.crash_recovery.specs.Journals.{AllRecover, RecoversEither, SeatedOn, IsNumbered, free_in};
ghost use Rattle.crash_recovery.specs.Seats.{KeepsPlaces, LaidOn, OverrunOn, restarted, stale_calls};

use device_layout::Slot;
use disk_model::Disk;
use event_queue::{DeviceFault, Lane, LaneNo};
use trend_num::Point;

// The place of a journal on its device.
#[derive(Clone, Copy, Debug, PartialEq, Eq)]
pub(crate) struct Seat {
    /// The place in the lane.
    pub(crate) lane: Lane,
    /// Whether the summary counts all values of the open lane slots, whose gates are still to be closed.
    pub(crate) stale: bool,
    /// The summary slot that counts, if one does.
    pub(crate) counts: Option<Slot>,
    /// How many events that summary counts.
    pub(crate) taken: u64,
    /// How many records that summary counts.
    pub(crate) records: u32,
}

impl Seat {
    // Returns whether no lane slot is free.
    pub(crate) fn is_full(&self) -> bool
        requires { self.now.lane.used ≤ self.now.lane.slots }
        ensures { IsTrue result ↔ (free_in self.now ≡ 0) }
    {
        self.free_slots() == 0
    }

    // Returns how many lane slots are free.
    pub(crate) fn free_slots(&self) -> u32
        requires { self.now.lane.used ≤ self.now.lane.slots }
        ensures { result ≡ free_in self.now }
    {
        if self.stale {
            self.lane.slots
        } else {
            self.lane.slots - self.lane.used
        }
    }

    // Writes 1 to 64 values into a free lane slot as one batch. First it closes the gates that are still to be closed.
    pub(crate) fn append<D: Disk>(
        &mut self,
        dev: &mut D,
        points: &[Point],
    ) -> Result<(), DeviceFault>
        requires within { self.old.lane.used ≤ self.old.lane.slots }
        requires seated { SeatedOn self.old (D.device dev.old).trace }
        requires free { free_in self.old ≢ 0 }
        requires some { 1 ≤ length points.now }
        requires few { length points.now ≤ 64 }
        requires in_range { All InRange points.now }
        requires number { self.old.lane.next + length points.now < 2 ^ 64 }

        // A crash at any moment leaves an image that recovers what each recovered before, or that and all of these
        // values. At Ok, it recovers all of these values too.
        ensures any_moment { (def : TagDef) (s : State) → AllRecover def (D.device dev.old).trace s
            → AllFit def.step s (map Raw points.now)
            → During (D.device dev.old).trace (D.device dev.new).trace
            (RecoversEither def s (replay def.step s (map Raw points.now))) }
        ensures durable { OnOk result ((def : TagDef) (s : State) → AllRecover def (D.device dev.old).trace s
            → AllFit def.step s (map Raw points.now)
            → AllRecover def (D.device dev.new).trace (replay def.step s (map Raw points.now))) }

        ensures seated { OnOk result (SeatedOn self.new (D.device dev.new).trace) }
        ensures number { OnOk result (self.new.lane.next ≡ self.old.lane.next + length points.now) }
        ensures free { OnOk result (free_in self.new + 1 ≡ free_in self.old) }
        ensures numbered { IsNumbered self.old → IsNumbered self.new }
        ensures unmoved { OnErr result (self.new.lane.next ≡ self.old.lane.next) }
        ensures still_free { OnErr result (free_in self.new ≡ free_in self.old) }
        ensures ticked { OnOk result (moment (D.device dev.old).trace < moment (D.device dev.new).trace) }
        ensures slots { self.new.lane.slots ≡ self.old.lane.slots }
        ensures within { self.new.lane.used ≤ self.new.lane.slots }
        ensures later { moment (D.device dev.old).trace ≤ moment (D.device dev.new).trace }
        ensures cause { HasCause (D.device dev.old).faults (D.device dev.new).faults result }
        ensures continues { ComesAfter (D.device dev.old).trace (D.device dev.new).trace }
        ensures handed { (D.device dev.new).handed ≡ (D.device dev.old).handed }
    {
        self.close_stale(dev)?;
        match self.lane.append_batch(dev, points) {
            Ok(()) => Ok(()),
            Err(LaneNo::LaneFull) => unreachable!(),
            Err(LaneNo::DeviceFault) => Err(DeviceFault),
        }
    }

    // Closes the gates of an overtaken lane. If the lane is not overtaken, it makes no call.
    pub(crate) fn close_stale<D: Disk>(&mut self, dev: &mut D) -> Result<(), DeviceFault>
        requires within { self.old.lane.used ≤ self.old.lane.slots }
        requires laid { LaidOn self.old (D.device dev.old).trace }

        // A crash at any moment leaves an image that recovers what each recovered before.
        ensures any_moment { (def : TagDef) (s : State) → AllRecover def (D.device dev.old).trace s
            → (self.old.stale ≡ true → OverrunOn self.old (D.device dev.old).trace)
            → During (D.device dev.old).trace (D.device dev.new).trace (λ c. Recovers def c s) }
        ensures laid { OnOk result (LaidOn self.new (D.device dev.new).trace) }
        ensures fresh { OnOk result (self.new.stale ≡ false) }
        ensures kept { self.old.stale ≡ false → self.new ≡ self.old }
        ensures idle { self.old.stale ≡ false → dev.new ≡ dev.old }
        ensures restarted { self.old.stale ≡ true → OnOk result (self.new ≡ restarted self.old) }
        ensures unmoved { OnErr result (self.new ≡ self.old) }
        ensures front { OnOk result (KeepsPlaces 0 (gate_of 0) (D.device dev.old).trace (D.device dev.new).trace) }
        ensures calls { OnOk result (Shows (D.device dev.old).trace (λ c. moment (D.device dev.new).trace ≡ moment (D.device dev.old).trace + stale_calls self.old c)) }
        ensures later { moment (D.device dev.old).trace ≤ moment (D.device dev.new).trace }
        ensures cause { HasCause (D.device dev.old).faults (D.device dev.new).faults result }
        ensures continues { ComesAfter (D.device dev.old).trace (D.device dev.new).trace }
        ensures handed { (D.device dev.new).handed ≡ (D.device dev.old).handed }
    {
        if !self.stale {
            return Ok(());
        }
        self.lane.restart(dev)?;
        self.stale = false;
        Ok(())
    }
}
