// A file as a device, which the program reads from memory.
ghost use Rattle.std.specs.Prelude.{◌≡◌, ◌+◌, ◌-◌, ◌^◌, ◌<◌, ◌≤◌, ◌↔◌, length, vec_len, vec_capacity, IsTrue, IsFalse, IsErr, IfOk, OnOk, OnErr, Some, string_bytes};
ghost use Rattle.disk_model.specs.{Wrote, WroteInPart, Resized, ResizedInPart, Synced, Idle, moment, seen, written, next_count, Rose, HasCause, HasLength, IsNoted, IsTimed, Reaches, Reads, handed_as};
ghost use Rattle.told_store.specs.Notes.{read_as};

use crate::calls::Calls;
use disk_model::{Disk, Failed};

// How many writes, cuts and syncs there were, and how many calls have failed. Two flags say whether a write, a cut or a
// sync has failed, and whether a sync of the file has. A count stays at the end of its type.
#[derive(Drop)]
pub(crate) struct Counts {
    pub(crate) ticks: u64,
    pub(crate) faults: u64,
    pub(crate) is_stopped: bool,
    pub(crate) is_unsynced: bool,
}

impl Counts {
    // Adds one to the clock, and returns whether it could.
    fn tick(&mut self) -> bool
        ensures told { IsTrue result ↔ (self.old.ticks < 2 ^ 64 - 1) }
        ensures timed { self.new ≡ record self.old { ticks = next_count self.old.ticks } }
        ensures stays { IsFalse result → self.new ≡ self.old }
    {
        if self.ticks == u64::MAX {
            return false;
        }
        self.ticks += 1;
        true
    }

    // Counts a fault, and returns it.
    fn fault(&mut self) -> Failed
        ensures counted { self.new ≡ record self.old { faults = next_count self.old.faults } }
        ensures later { self.old.faults ≤ self.new.faults }
        ensures rose { Rose self.old.faults self.new.faults }
    {
        self.faults = self.faults.saturating_add(1);
        Failed
    }

    // Counts a fault after which no call is made, and returns it.
    fn stop(&mut self) -> Failed
        ensures ticks { self.new.ticks ≡ self.old.ticks }
        ensures later { self.old.faults ≤ self.new.faults }
        ensures rose { Rose self.old.faults self.new.faults }
        ensures stopped { IsTrue self.new.is_stopped }
        ensures unsynced { self.new.is_unsynced ≡ self.old.is_unsynced }
    {
        self.is_stopped = true;
        self.fault()
    }
}

/// A file as a device. Its bytes were read once and are in memory since. `len` and `read` make no call on the file, so
/// the program relies on each answer of the file only once. Once a write, a cut or a sync has failed, each later call
/// fails. The reason is that what the file holds then is not known, and the system may report a failed sync once and
/// never again.
#[derive(Drop)]
pub struct DirDisk<C: Calls> {
    pub(crate) name: String,
    pub(crate) calls: C,
    pub(crate) mirror: Vec<u8>,
    pub(crate) counts: Counts,
    ghost mirrored: { mirror.items ≡ seen (C.told calls) },
    ghost counted: { moment (C.told calls) ≡ counts.ticks },
}

impl<C: Calls> DirDisk<C> {
    // A device of this name of which these bytes were read, with no call since.
    pub(crate) fn new(name: String, calls: C, bytes: Vec<u8>) -> DirDisk<C>
        requires { C.told calls ≡ read_as bytes.items }
        ensures name { result.name ≡ name }
        ensures calls { result.calls ≡ calls }
        ensures faultless { result.counts.faults ≡ 0 }
    {
        DirDisk {
            name,
            calls,
            mirror: bytes,
            counts: Counts {
                ticks: 0,
                faults: 0,
                is_stopped: false,
                is_unsynced: false,
            },
        }
    }
}

// How many of the `count` bytes from `at` on lie past the end.
fn beyond(held: &[u8], at: u64, count: usize) -> usize
    requires { at ≤ length held.now }
    ensures { result ≡ at + count - length held.now }
{
    let behind = held.len() - at as usize;
    count.saturating_sub(behind)
}

// Writes bytes over what is there and past the end. There is room for them.
fn put(held: &mut Vec<u8>, at: u64, bytes: &[u8])
    requires place { at ≤ length held.old.items }
    requires room { vec_len held.old + (at + length bytes.now - vec_len held.old) ≤ vec_capacity held.old }
    ensures { held.new.items ≡ written held.old.items at bytes.now }
{
    let at = at as usize;
    let over = bytes.len().min(held.len() - at);
    let Ok(()) = held.extend_from_slice(&bytes[over..]) else {
        unreachable!();
    };
    held[at..at + over].copy_from_slice(&bytes[..over]);
}

impl<C: Calls> Disk for DirDisk<C> {
    ghost device = { λ d. record { handed = handed_as (Some (string_bytes d.name)); trace = C.told d.calls; faults = d.counts.faults } };

    fn len(&mut self) -> Result<u64, Failed>
        ensures length { IfOk result (HasLength (C.told self.old.calls)) }
        ensures same { C.told self.new.calls ≡ C.told self.old.calls }
        ensures cause { HasCause self.old.counts.faults self.new.counts.faults result }
        ensures handed { handed_as (Some (string_bytes self.new.name)) ≡ handed_as (Some (string_bytes self.old.name)) }
        ensures fails { IsErr result ↔ IsTrue self.old.counts.is_stopped }
        ensures stopped { self.new.counts.is_stopped ≡ self.old.counts.is_stopped }
    {
        if self.counts.is_stopped {
            return Err(self.counts.fault());
        }
        Ok(self.mirror.len() as u64)
    }

    fn read(&mut self, at: u64, buf: &mut [u8]) -> Result<(), Failed>
        requires { Reaches (C.told self.old.calls) (at + length buf.old) }
        ensures bytes { OnOk result (Reads (C.told self.old.calls) at buf.new) }
        ensures same { C.told self.new.calls ≡ C.told self.old.calls }
        ensures cause { HasCause self.old.counts.faults self.new.counts.faults result }
        ensures handed { handed_as (Some (string_bytes self.new.name)) ≡ handed_as (Some (string_bytes self.old.name)) }
        ensures fails { IsErr result ↔ IsTrue self.old.counts.is_stopped }
        ensures stopped { self.new.counts.is_stopped ≡ self.old.counts.is_stopped }
    {
        if self.counts.is_stopped {
            return Err(self.counts.fault());
        }
        let at = at as usize;
        buf.copy_from_slice(&self.mirror[at..at + buf.len()]);
        Ok(())
    }

    /// It fails also if there is no memory for the bytes; then no call was made.
    fn write_at(&mut self, at: u64, bytes: &[u8]) -> Result<(), Failed>
        requires { Reaches (C.told self.old.calls) at }
        ensures noted { IsNoted (Wrote at bytes.now) (WroteInPart at bytes.now) result
            (C.told self.old.calls) (C.told self.new.calls) }
        ensures clock { IsTimed (moment (C.told self.old.calls)) (moment (C.told self.new.calls)) result }
        ensures cause { HasCause self.old.counts.faults self.new.counts.faults result }
        ensures handed { handed_as (Some (string_bytes self.new.name)) ≡ handed_as (Some (string_bytes self.old.name)) }
        ensures fails { IsTrue self.old.counts.is_stopped → IsErr result }
        ensures stops { OnErr result (IsTrue self.new.counts.is_stopped) }
    {
        if !self.counts.tick() {
            return Err(self.counts.stop());
        }
        let more = beyond(&self.mirror, at, bytes.len());
        if self.counts.is_stopped || self.mirror.reserve(more).is_err() {
            self.calls.rest();
            return Err(self.counts.stop());
        }
        if self.calls.write_all(at, bytes).is_err() {
            return Err(self.counts.stop());
        }
        put(&mut self.mirror, at, bytes);
        Ok(())
    }

    /// It fails also if there is no memory for the zeros; then no call was made.
    fn cut(&mut self, len: u64) -> Result<(), Failed>
        ensures noted { IsNoted (Resized len) (ResizedInPart len) result
            (C.told self.old.calls) (C.told self.new.calls) }
        ensures clock { IsTimed (moment (C.told self.old.calls)) (moment (C.told self.new.calls)) result }
        ensures cause { HasCause self.old.counts.faults self.new.counts.faults result }
        ensures handed { handed_as (Some (string_bytes self.new.name)) ≡ handed_as (Some (string_bytes self.old.name)) }
        ensures fails { IsTrue self.old.counts.is_stopped → IsErr result }
        ensures stops { OnErr result (IsTrue self.new.counts.is_stopped) }
    {
        if !self.counts.tick() {
            return Err(self.counts.stop());
        }
        let more = (len as usize).saturating_sub(self.mirror.len());
        if self.counts.is_stopped || self.mirror.reserve(more).is_err() {
            self.calls.rest();
            return Err(self.counts.stop());
        }
        if self.calls.resize(len).is_err() {
            return Err(self.counts.stop());
        }
        let Ok(()) = self.mirror.resize(len as usize, 0) else {
            unreachable!();
        };
        Ok(())
    }

    fn sync(&mut self) -> Result<(), Failed>
        ensures unsynced { OnErr result (IsFalse self.old.counts.is_stopped → self.old.counts.ticks < 2 ^ 64 - 1
            → IsTrue self.new.counts.is_unsynced) }
        ensures noted { IsNoted Synced Idle result (C.told self.old.calls) (C.told self.new.calls) }
        ensures clock { IsTimed (moment (C.told self.old.calls)) (moment (C.told self.new.calls)) result }
        ensures cause { HasCause self.old.counts.faults self.new.counts.faults result }
        ensures handed { handed_as (Some (string_bytes self.new.name)) ≡ handed_as (Some (string_bytes self.old.name)) }
        ensures fails { IsTrue self.old.counts.is_stopped → IsErr result }
        ensures stops { OnErr result (IsTrue self.new.counts.is_stopped) }
    {
        if !self.counts.tick() {
            return Err(self.counts.stop());
        }
        if self.counts.is_stopped {
            self.calls.rest();
            return Err(self.counts.stop());
        }
        if self.calls.flush().is_err() {
            self.counts.is_unsynced = true;
            return Err(self.counts.stop());
        }
        Ok(())
    }

    fn clock(&self) -> u64 {
        self.counts.ticks
    }

    fn faults(&self) -> u64 {
        self.counts.faults
    }
}
