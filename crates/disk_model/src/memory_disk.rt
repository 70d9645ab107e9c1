// A device in memory. It fails at the calls that a test chooses, and gives the images that a crash may leave.
ghost use Rattle.std.specs.Prelude.{◌≡◌, ◌⊎◌, ◌↔◌, ◌+◌, ◌-◌, ◌^◌, ◌<◌, ◌≤◌, [], ◌∷◌, length, Option, None, Some, IfOk, IsErr, OnOk, OnErr, IsTrue, Contains, IsSomeAnd, IsSome, is_some, IsOk, is_ok, false, true, if◌then◌else◌, string_bytes};
ghost use Rattle.disk_model.specs.Logs.{log_first, log_calls};
ghost use Rattle.disk_model.specs.Traces.{Wrote, WroteInPart, Resized, ResizedInPart, Synced, Idle, seen, noted};
ghost use Rattle.disk_model.specs.Images.{MayLeave};
ghost use Rattle.disk_model.specs.Calls.{next_count, Rose, HasCause, IsTimed, Reaches, Reads, IsNoted};

use crate::memory_log::CallLog;
use crate::share::Share;
use crate::{Disk, Failed, WantOfMemory};
use std::alloc::AllocError;
use std::marker::Model;

/// Which of the images that a crash may leave is picked.
#[derive(Clone, Copy, Debug, PartialEq, Eq)]
pub enum Pick {
    /// Nothing of what was done since the last sync.
    Old,
    /// All of what was done since the last sync.
    New,
    /// All of it, with this byte in place of each that was written.
    Fill(u8),
}

// The calls of a device. `failing` has the numbers of those that are to fail, and from number `stop` on all are to
// fail. `share` is the count that the device shares with others. Then come how many calls and faults there were, and
// the clock. A count stays at the end of its type.
#[derive(Drop)]
struct Calls {
    failing: Vec<u64>,
    stop: Option<u64>,
    share: Option<Share>,
    count: u64,
    faults: u64,
    clock: u64,
}

impl Calls {
    // Counts a call, and returns whether it is to fail.
    fn begin(&mut self) -> bool
        ensures to_fail { Contains self.old.failing.items self.old.count
            ⊎ IsSomeAnd self.old.stop (λ stop. stop ≤ self.old.count) → IsTrue result }
        ensures only { IsTrue result → (Contains self.old.failing.items self.old.count
            ⊎ IsSomeAnd self.old.stop (λ stop. stop ≤ self.old.count)) ⊎ IsSome self.old.share }
        ensures counted { self.new ≡ record self.old { count = next_count self.old.count } }
    {
        let fails = self.failing.contains(&self.count)
            || self.stop.is_some_and(|stop| stop <= self.count);
        let stopped = match &self.share {
            Some(share) => share.begin(),
            None => false,
        };
        self.count = self.count.saturating_add(1);
        fails || stopped
    }

    // Adds one to the clock, and returns whether it could.
    fn tick(&mut self) -> bool
        ensures told { IsTrue result ↔ (self.old.clock < 2 ^ 64 - 1) }
        ensures timed { self.new ≡ record self.old { clock = next_count self.old.clock } }
    {
        let goes_on = self.clock < u64::MAX;
        self.clock = self.clock.saturating_add(1);
        goes_on
    }

    // Counts a fault, and returns it.
    fn fault(&mut self) -> Failed
        ensures counted { self.new ≡ record self.old { faults = next_count self.old.faults } }
        ensures later { self.old.faults ≤ self.new.faults }
        ensures rose { Rose self.old.faults self.new.faults }
    {
        self.faults = self.faults.saturating_add(1);
        Failed
    }
}

/// A device in memory. A clause sees the name under which a store handed it out, if one did, and its trace. It sees the
/// numbers of the calls that are to fail, counted from 0, and the number from which on all fail. It also sees whether
/// the device stops together with others, and how many calls and faults there were. Calls of `len` and `read` are among
/// those counted.
#[derive(Drop)]
pub struct MemDisk {
    name: Option<String>,
    log: CallLog,
    calls: Calls,
}

impl Model for MemDisk {
    ghost use Rattle.disk_model.specs.Memory.{DiskState};

    ghost Value = { DiskState };

    ghost use Rattle.std.specs.Prelude.{is_some};
    ghost use Rattle.disk_model.specs.Logs.{log_first, log_calls};
    ghost use Rattle.disk_model.specs.Disks.{IsKept, name_of};

    ghost view = { λ d. record {
      name = name_of d.name;
      trace = record { first = log_first d.log; calls = log_calls d.log };
      failing_calls = d.calls.failing.items;
      stop = d.calls.stop;
      shares = is_some d.calls.share;
      calls = d.calls.count;
      faults = d.calls.faults;
    } };

    ghost invariant = { λ d. IsKept d.log d.calls.clock };
}

impl MemDisk {
    ghost use Rattle.disk_model.specs.Memory.{picked};

    /// Returns a device of these bytes, which no store handed out. Its calls with a number in `fail`, counted from 0,
    /// fail.
    pub fn new(bytes: Vec<u8>, fail: Vec<u64>) -> MemDisk
        ensures name { result.name ≡ None }
        ensures trace { result.trace ≡ record { first = bytes.items; calls = [] } }
        ensures failing { result.failing_calls ≡ fail.items }
        ensures stop { result.stop ≡ None }
        ensures shares { result.shares ≡ false }
        ensures calls { result.calls ≡ 0 }
        ensures faults { result.faults ≡ 0 }
    {
        MemDisk {
            name: None,
            log: CallLog::new(bytes),
            calls: Calls {
                failing: fail,
                stop: None,
                share: None,
                count: 0,
                faults: 0,
                clock: 0,
            },
        }
    }

    /// Makes each call fail whose number, counted from 0 since the device was made, is at least `calls`.
    pub fn stop_after(&mut self, calls: u64)
        ensures { self.new ≡ record self.old { stop = Some calls } }
    {
        self.calls.stop = Some(calls);
    }

    /// Returns a new device that holds the picked one of the images that a crash now may leave, and which no store
    /// handed out. It fails if there is no memory for that.
    pub fn crash(&self, pick: Pick) -> Result<MemDisk, WantOfMemory>
        ensures name { IfOk result (λ d. d.name ≡ None) }
        ensures trace { IfOk result (λ d. d.trace
            ≡ record { first = picked pick self.now.trace.first self.now.trace.calls; calls = [] }) }
        ensures image { IfOk result (λ d. MayLeave self.now.trace d.trace.first) }
        ensures failing { IfOk result (λ d. d.failing_calls ≡ []) }
        ensures stop { IfOk result (λ d. d.stop ≡ None) }
        ensures shares { IfOk result (λ d. d.shares ≡ false) }
        ensures calls { IfOk result (λ d. d.calls ≡ 0) }
        ensures faults { IfOk result (λ d. d.faults ≡ 0) }
    {
        let Ok(image) = self.log.picked(pick) else {
            return Err(WantOfMemory);
        };
        let alloc = *image.allocator();
        Ok(MemDisk::new(image, Vec::new(alloc)))
    }

    /// Forgets the name under which a store handed the device out. So it may be used under any name.
    pub fn forget_name(&mut self)
        ensures { self.new ≡ record self.old { name = None } }
    {
        self.name = None;
    }

    /// Returns how many calls there were, those of `len` and `read` among them. The count stays at the end of its type.
    pub fn calls(&self) -> u64
        ensures { result ≡ self.now.calls }
    {
        self.calls.count
    }

    /// Returns the bytes that it holds.
    pub fn bytes(&self) -> &[u8]
        ensures { result.now ≡ seen self.now.trace }
    {
        &self.log.content
    }

    // From now on its calls count together with those of the others that share the count, and fail once there were too
    // many.
    pub(crate) fn stop_with(&mut self, share: Option<Share>)
        ensures { self.new ≡ record self.old { shares = is_some share } }
    {
        self.calls.share = share;
    }

    // Gives the device the name under which a store hands it out.
    pub(crate) fn set_name(&mut self, name: String)
        ensures { self.new ≡ record self.old { name = Some (string_bytes name) } }
    {
        self.name = Some(name);
    }

    // Returns the faults so far, and sets their count to 0.
    pub(crate) fn take_faults(&mut self) -> u64
        ensures result { result ≡ self.old.faults }
        ensures zero { self.new ≡ record self.old { faults = 0 } }
    {
        let faults = self.calls.faults;
        self.calls.faults = 0;
        faults
    }
}

// Ends a call. If there was no memory to note it, it was idle. Else it was done as it was noted, whole or in part.
fn end(
    log: &mut CallLog,
    calls: &mut Calls,
    noted: Result<(), AllocError>,
    whole: bool,
) -> Result<(), Failed>
    requires { OnErr noted (length (log_calls log.old) < 2 ^ 64 - 1) }
    ensures first { log_first log.new ≡ log_first log.old }
    ensures content { log.new.content.items ≡ log.old.content.items }
    ensures told { log_calls log.new ≡ (if is_ok noted then log_calls log.old else Idle ∷ log_calls log.old) }
    ensures ok { IsOk result ↔ (IsTrue whole × IsOk noted) }
    ensures calls { calls.new ≡ record calls.old { faults = (if is_ok result then calls.old.faults else next_count calls.old.faults) } }
    ensures cause { HasCause calls.old.faults calls.new.faults result }
{
    if noted.is_err() {
        log.rest();
    }
    if whole && noted.is_ok() {
        return Ok(());
    }
    Err(calls.fault())
}

impl Disk for MemDisk {
    ghost use Rattle.disk_model.specs.Memory.{DiskState, IsToFail, IsCalled, handed_as};

    ghost device = { λ s. record { handed = handed_as s.name; trace = s.trace; faults = s.faults } };

    fn len(&mut self) -> Result<u64, Failed>
        ensures length { IfOk result (λ n. length (seen self.old.trace) ≡ n) }
        ensures same { self.new.trace ≡ self.old.trace }
        ensures cause { HasCause self.old.faults self.new.faults result }
        ensures handed { handed_as self.new.name ≡ handed_as self.old.name }
        ensures called { IsCalled self.old self.new result }
        ensures failed_only { IsErr result → IsToFail self.old ⊎ (self.old.shares ≡ true) }
    {
        if self.calls.begin() {
            return Err(self.calls.fault());
        }
        Ok(self.log.content.len() as u64)
    }

    fn read(&mut self, at: u64, buf: &mut [u8]) -> Result<(), Failed>
        requires { Reaches self.old.trace (at + length buf.old) }
        ensures bytes { OnOk result (Reads self.old.trace at buf.new) }
        ensures same { self.new.trace ≡ self.old.trace }
        ensures cause { HasCause self.old.faults self.new.faults result }
        ensures handed { handed_as self.new.name ≡ handed_as self.old.name }
        ensures called { IsCalled self.old self.new result }
        ensures failed_only { IsErr result → IsToFail self.old ⊎ (self.old.shares ≡ true) }
    {
        if self.calls.begin() {
            return Err(self.calls.fault());
        }
        let at = at as usize;
        buf.copy_from_slice(&self.log.content[at..at + buf.len()]);
        Ok(())
    }

    /// It fails also if there is no memory to note it; then it did nothing. If it is to fail, it is done in part.
    fn write_at(&mut self, at: u64, bytes: &[u8]) -> Result<(), Failed>
        ensures noted { IsNoted (Wrote at bytes.now) (WroteInPart at bytes.now) result
            self.old.trace self.new.trace }
        ensures clock { IsTimed (length self.old.trace.calls) (length self.new.trace.calls) result }
        ensures cause { HasCause self.old.faults self.new.faults result }
        ensures handed { handed_as self.new.name ≡ handed_as self.old.name }
        ensures called { IsCalled self.old self.new result }
    {
        let whole = !self.calls.begin();
        if !self.calls.tick() {
            return Err(self.calls.fault());
        }
        let noted = self.log.write(at, bytes, whole);
        end(&mut self.log, &mut self.calls, noted, whole)
    }

    /// It fails also if there is no memory to note it; then it did nothing. If it is to fail, it is done in part.
    fn cut(&mut self, len: u64) -> Result<(), Failed>
        ensures noted { IsNoted (Resized len) (ResizedInPart len) result
            self.old.trace self.new.trace }
        ensures clock { IsTimed (length self.old.trace.calls) (length self.new.trace.calls) result }
        ensures cause { HasCause self.old.faults self.new.faults result }
        ensures handed { handed_as self.new.name ≡ handed_as self.old.name }
        ensures called { IsCalled self.old self.new result }
    {
        let whole = !self.calls.begin();
        if !self.calls.tick() {
            return Err(self.calls.fault());
        }
        let noted = self.log.resize(len, whole);
        end(&mut self.log, &mut self.calls, noted, whole)
    }

    /// It fails also if there is no memory to note it.
    fn sync(&mut self) -> Result<(), Failed>
        ensures noted { IsNoted Synced Idle result self.old.trace self.new.trace }
        ensures clock { IsTimed (length self.old.trace.calls) (length self.new.trace.calls) result }
        ensures cause { HasCause self.old.faults self.new.faults result }
        ensures handed { handed_as self.new.name ≡ handed_as self.old.name }
        ensures called { IsCalled self.old self.new result }
    {
        let whole = !self.calls.begin();
        if !self.calls.tick() {
            return Err(self.calls.fault());
        }
        if whole && self.log.sync().is_ok() {
            return Ok(());
        }
        self.log.rest();
        Err(self.calls.fault())
    }

    fn clock(&self) -> u64 {
        self.calls.clock
    }

    fn faults(&self) -> u64 {
        self.calls.faults
    }
}
