// A position in a lane: appending batches there, and starting the lane anew.
ghost use Rattle.std.specs.Prelude.{◌≡◌, ◌↔◌, ◌+◌, ◌<◌, ◌≤◌, ◌^◌, [], ◌∷◌, length, OnOk, OnErr, IsErrOf};
ghost use Rattle.std.specs.List.{All};
ghost use Rattle.trend_num.specs.{InRange};
ghost use Rattle.disk_model.specs.{seen, written, moment, Now, FromOld, IsSettled, ComesAfter, During, CountsFault, HasCause, Sees, Shows, IsGuarded, HasGatesOf, IsClosing, open_byte, open_gates};
ghost use Rattle.event_queue.specs.declared.failure.LaneNo.TheVariants.{LaneFull, DeviceFault as Fault};
ghost use Rattle.event_queue.specs.Slots.{gate_of, place_of, batch_bytes};
ghost use Rattle.event_queue.specs.Places.{HasRoom};

use crate::slot::{FIRST_GATE, slot_bytes, slot_place};
use crate::{DeviceFault, LaneNo};
use disk_model::{Disk, close_gates, write_guarded};
use trend_num::Point;

/// A position in the lane of a tag's device: where the next batch goes.
#[derive(Debug, Clone, Copy, PartialEq, Eq)]
pub struct Lane {
    /// How many lane slots there are.
    pub slots: u32,
    /// How many of them, from the first on, are used.
    pub used: u32,
    /// The number of the next raw value among the tag's events, counted from 0.
    pub next: u64,
}

impl Lane {
    /// Writes a batch of 1 to 64 raw values, numbered from `next` on, into the next slot. It writes the slot, syncs,
    /// opens the slot's gate, and syncs again. After Ok no crash loses the batch.
    ///
    /// LaneFull: no slot is free; no call of the device was made. DeviceFault: a call of the device failed; the device
    /// has to be opened again before it is used.
    pub fn append_batch<D: Disk>(&mut self, dev: &mut D, points: &[Point]) -> Result<(), LaneNo>
        requires some { 1 ≤ length points.now }
        requires few { length points.now ≤ 64 }
        requires in_range { All InRange points.now }
        requires number { self.old.next + length points.now < 2 ^ 64 }
        requires used { self.old.used ≤ self.old.slots }
        requires room { Now (D.device dev.old).trace (HasRoom self.old.slots self.old.used) }

        // A crash at any moment leaves an image from before in which either this batch is whole and its gate is open,
        // or its gate is closed. All other gates and slots are unchanged.
        ensures any_moment { self.old.used < self.old.slots → During (D.device dev.old).trace (D.device dev.new).trace
            (FromOld (D.device dev.old).trace (IsGuarded (place_of self.old.slots self.old.used)
            (batch_bytes self.old.next points.now) (gate_of self.old.used))) }

        ensures lane_full { IsErrOf result LaneFull ↔ (self.old.used ≡ self.old.slots) }
        ensures untouched { IsErrOf result LaneFull → dev.new ≡ dev.old }
        ensures unmoved { OnErr result (self.new ≡ self.old) }
        ensures moved { OnOk result (self.new ≡ record self.old {
          used = self.old.used + 1;
          next = self.old.next + length points.now;
        }) }
        ensures reads { OnOk result (Sees (D.device dev.new).trace (written (written (seen (D.device dev.old).trace)
            (place_of self.old.slots self.old.used) (batch_bytes self.old.next points.now))
            (gate_of self.old.used) (open_byte ∷ []))) }
        ensures settled { OnOk result (IsSettled (D.device dev.new).trace) }
        ensures room_left { OnOk result (Now (D.device dev.new).trace (HasRoom self.new.slots self.new.used)) }
        ensures clock { OnOk result (moment (D.device dev.new).trace ≡ moment (D.device dev.old).trace + 4) }
        ensures later { moment (D.device dev.old).trace ≤ moment (D.device dev.new).trace }
        ensures cause { CountsFault result Fault (D.device dev.old).faults (D.device dev.new).faults }
        ensures continues { ComesAfter (D.device dev.old).trace (D.device dev.new).trace }
        ensures handed { (D.device dev.new).handed ≡ (D.device dev.old).handed }
    {
        if self.used == self.slots {
            return Err(LaneNo::LaneFull);
        }
        let bytes = slot_bytes(self.next, points);
        let at = slot_place(self.slots, self.used);
        let gate = FIRST_GATE + u64::from(self.used);
        let Ok(()) = write_guarded(dev, at, &bytes, gate) else {
            return Err(LaneNo::DeviceFault);
        };
        self.used += 1;
        self.next += points.len() as u64;
        Ok(())
    }

    /// Closes the gates of the used slots that read open, and syncs. The next batch then goes into the first slot. It
    /// does not write gates that read closed, because a crash during the write might open them.
    ///
    /// DeviceFault: a call of the device failed; the device has to be opened again before it is used.
    pub fn restart<D: Disk>(&mut self, dev: &mut D) -> Result<(), DeviceFault>
        requires used { self.old.used ≤ self.old.slots }
        requires room { Now (D.device dev.old).trace (HasRoom self.old.slots self.old.used) }
        requires gates { Now (D.device dev.old).trace (HasGatesOf (seen (D.device dev.old).trace) (gate_of 0) self.old.used) }

        // A crash at any moment leaves an image from before, in which some of the used slots' open gates are closed or
        // torn.
        ensures any_moment { During (D.device dev.old).trace (D.device dev.new).trace
            (FromOld (D.device dev.old).trace (IsClosing (gate_of 0) self.old.used)) }

        ensures unmoved { OnErr result (self.new ≡ self.old) }
        ensures moved { OnOk result (self.new ≡ record self.old { used = 0 }) }
        ensures reads { OnOk result
            (IsClosing (gate_of 0) self.old.used (seen (D.device dev.old).trace) (seen (D.device dev.new).trace)) }
        ensures settled { OnOk result (IsSettled (D.device dev.new).trace) }
        ensures room_left { OnOk result (Now (D.device dev.new).trace (HasRoom self.new.slots self.new.used)) }
        ensures clock { moment (D.device dev.new).trace ≤ moment (D.device dev.old).trace + (self.old.used + 1) }
        ensures calls { OnOk result (Shows (D.device dev.old).trace
            (λ c. moment (D.device dev.new).trace ≡ moment (D.device dev.old).trace + (open_gates (gate_of 0) self.old.used c + 1))) }
        ensures later { moment (D.device dev.old).trace ≤ moment (D.device dev.new).trace }
        ensures cause { HasCause (D.device dev.old).faults (D.device dev.new).faults result }
        ensures handed { (D.device dev.new).handed ≡ (D.device dev.old).handed }
    {
        let Ok(()) = close_gates(dev, FIRST_GATE, self.used) else {
            return Err(DeviceFault);
        };
        self.used = 0;
        Ok(())
    }
}
