// What is asked of a real file: it records its calls, whatever they answer.
ghost use Rattle.std.specs.Prelude.{◌≡◌, OnErr, OnOk};
ghost use Rattle.disk_model.specs.{Trace, Wrote, WroteInPart, Resized, ResizedInPart, Synced, Idle};
ghost use Rattle.told_store.specs.Notes.{after_call};

use std::io;

/// The calls on a file that may change it. Each is recorded with its answer. No clause says what the file holds.
pub trait Calls {
    /// The bytes that were read of the file at first, and the calls since.
    ghost told: { Self → Trace };

    /// Writes all the bytes from `at` on.
    fn write_all(&mut self, at: u64, bytes: &[u8]) -> io::Result<()>
        ensures done { OnOk result (told self.new ≡ after_call (Wrote at bytes.now) (told self.old)) }
        ensures failed { OnErr result (told self.new ≡ after_call (WroteInPart at bytes.now) (told self.old)) };

    /// Cuts the file to a length, or fills it up to it with zeros.
    fn resize(&mut self, len: u64) -> io::Result<()>
        ensures done { OnOk result (told self.new ≡ after_call (Resized len) (told self.old)) }
        ensures failed { OnErr result (told self.new ≡ after_call (ResizedInPart len) (told self.old)) };

    /// Brings what was written to the disk.
    fn flush(&mut self) -> io::Result<()>
        ensures done { OnOk result (told self.new ≡ after_call Synced (told self.old)) }
        ensures failed { OnErr result (told self.new ≡ after_call Idle (told self.old)) };

    /// Makes no call, and records an idle one.
    fn rest(&mut self)
        ensures { told self.new ≡ after_call Idle (told self.old) };
}
