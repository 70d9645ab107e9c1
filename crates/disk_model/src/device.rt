// A device that holds bytes.
ghost use Rattle.std.specs.Prelude.{◌≡◌, ◌+◌, length, IfOk, OnOk};
ghost use Rattle.disk_model.specs.Traces.{Device, moment, Wrote, WroteInPart, Resized, ResizedInPart, Synced, Idle};
ghost use Rattle.disk_model.specs.Calls.{HasCause, IsTimed, HasLength, Reaches, Reads, IsNoted};

use crate::Failed;

/// Something that holds bytes through a crash, and may fail at any call. After a call has failed, the device has to be
/// opened again before it is used. `at` and `len` count bytes.
pub trait Disk {
    /// What it is to a proof: how a store handed it out, which each call keeps; what it held at first and each call of
    /// `write_at`, `cut` and `sync` since; and how often a call has failed.
    ghost device: { Self → Device };

    /// Returns how many bytes it holds.
    fn len(&mut self) -> Result<u64, Failed>
        ensures length { IfOk result (HasLength (device self.old).trace) }
        ensures same { (device self.new).trace ≡ (device self.old).trace }
        ensures cause { HasCause (device self.old).faults (device self.new).faults result }
        ensures handed { (device self.new).handed ≡ (device self.old).handed };

    /// Fills the buffer with the bytes from `at` on. They all lie within the device.
    fn read(&mut self, at: u64, buf: &mut [u8]) -> Result<(), Failed>
        requires { Reaches (device self.old).trace (at + length buf.old) }
        ensures bytes { OnOk result (Reads (device self.old).trace at buf.new) }
        ensures same { (device self.new).trace ≡ (device self.old).trace }
        ensures cause { HasCause (device self.old).faults (device self.new).faults result }
        ensures handed { (device self.new).handed ≡ (device self.old).handed };

    /// Writes the bytes from `at` on, over what is there and past the end. `at` lies at the end or before it.
    fn write_at(&mut self, at: u64, bytes: &[u8]) -> Result<(), Failed>
        requires { Reaches (device self.old).trace at }
        ensures noted { IsNoted (Wrote at bytes.now) (WroteInPart at bytes.now) result
            (device self.old).trace (device self.new).trace }
        ensures clock { IsTimed (moment (device self.old).trace) (moment (device self.new).trace) result }
        ensures cause { HasCause (device self.old).faults (device self.new).faults result }
        ensures handed { (device self.new).handed ≡ (device self.old).handed };

    /// Cuts the device to a length, or fills it up to it with zeros.
    fn cut(&mut self, len: u64) -> Result<(), Failed>
        ensures noted { IsNoted (Resized len) (ResizedInPart len) result
            (device self.old).trace (device self.new).trace }
        ensures clock { IsTimed (moment (device self.old).trace) (moment (device self.new).trace) result }
        ensures cause { HasCause (device self.old).faults (device self.new).faults result }
        ensures handed { (device self.new).handed ≡ (device self.old).handed };

    /// Syncs the device. At Ok, all that was written before is on the device.
    fn sync(&mut self) -> Result<(), Failed>
        ensures noted { IsNoted Synced Idle result (device self.old).trace (device self.new).trace }
        ensures clock { IsTimed (moment (device self.old).trace) (moment (device self.new).trace) result }
        ensures cause { HasCause (device self.old).faults (device self.new).faults result }
        ensures handed { (device self.new).handed ≡ (device self.old).handed };

    /// Returns how many calls of `write_at`, `cut` and `sync` there were. At the end of its type the clock stays, and
    /// each of these calls fails.
    fn clock(&self) -> u64
        ensures { result ≡ moment (device self.now).trace };

    /// Returns how often a call has failed. The count stays at the end of its type.
    fn faults(&self) -> u64
        ensures { result ≡ (device self.now).faults };
}
