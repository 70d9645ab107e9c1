// What is read of a device from a place on.
ghost use Rattle.std.specs.Prelude.{◌≡◌, ℕ, ◌+◌, ◌-◌, ◌^◌, ◌<◌, ◌≤◌, ◌++◌, [], All, Option, IsErrOf, OnOk, drop, length, min, slice_index, take};
ghost use Rattle.disk_model.specs.{CountsFault, HasCause, HasLength, Reaches, Shows, seen};
ghost use Rattle.archive_file.specs.declared.failure.ScanNo.TheVariants.{Damaged, DeviceFault, WantOfMemory};
ghost use Rattle.archive_file.specs.Fields.{number_bytes};
ghost use Rattle.archive_file.specs.LayoutFields.{BreaksFirst, Keeps, Spells, long_at, short_at};
ghost use Rattle.archive_file.specs.Windows.{AreAsked, IsWindow};

use crate::failure::ScanNo;
use crate::layout_field::{Field, byte_at, check, long_at, short_at};
use disk_model::{Disk, Failed};
use std::alloc::Global;
use std::marker::Brand;

/// All bytes of a device from a place on, for proofs alone. A window shows the first of them.
pub trait Rest {
    ghost use Rattle.std.specs.Prelude.{ℕ, List};

    /// These bytes.
    ghost rest: { List ℕ };
}

impl Rest for Brand {
    ghost use Rattle.std.specs.Prelude.{[]};

    ghost rest = { [] };
}

/// The first bytes of a device from a place on: as many as were asked for, or as many of them as are there. Its memory
/// is kept when it is used again.
#[derive(Drop)]
pub struct Window {
    /// The bytes that are there.
    pub bytes: Vec<u8>,
    /// How many bytes were asked for.
    pub asked: usize,
}

impl Window {
    /// Returns a window that shows nothing.
    pub fn new(alloc: Global) -> Window
        ensures bytes { result.bytes.items ≡ [] }
        ensures asked { result.asked ≡ 0 }
    {
        Window {
            bytes: Vec::new(alloc),
            asked: 0,
        }
    }

    /// Shows nothing from now on, and keeps its memory.
    pub fn clear(&mut self)
        ensures bytes { self.new.bytes.items ≡ [] }
        ensures asked { self.new.asked ≡ 0 }
    {
        self.bytes.clear();
        self.asked = 0;
    }

    /// Shows as many bytes as are asked for now, or as are there. It reads only those that it does not show yet, in one
    /// call, and makes no call if there are none. The window begins at the place `at` of the device. The device has
    /// `len` bytes, and the caller has asked it for that. Returns `WantOfMemory` before the read if the memory cannot
    /// be allocated, and `DeviceFault` if the read fails.
    pub fn widen<D: Disk>(
        &mut self,
        dev: &mut D,
        len: u64,
        at: u64,
        asked: usize,
    ) -> Result<(), ScanNo>
        requires length { HasLength (D.device dev.old).trace len }
        requires start { at ≤ len }
        requires window { Shows (D.device dev.old).trace (λ c. IsWindow (drop at c) self.old) }
        requires wider { self.old.asked ≤ asked }
        ensures window { OnOk result (Shows (D.device dev.old).trace (λ c. IsWindow (drop at c) self.new)) }
        ensures asked { OnOk result (self.new.asked ≡ asked) }
        ensures undamaged { (a : ℕ) (byte : Option ℕ) → IsErrOf result (Damaged a byte) → ⊥ }
        ensures cause { CountsFault result DeviceFault (D.device dev.old).faults (D.device dev.new).faults }
        ensures handed { (D.device dev.new).handed ≡ (D.device dev.old).handed }
        ensures same { (D.device dev.new).trace ≡ (D.device dev.old).trace }
    {
        let whole = (len - at).min(asked as u64);
        fill(dev, at, whole as usize, &mut self.bytes)?;
        self.asked = asked;
        Ok(())
    }

    /// Returns the byte at a place that was asked for, or 0 if it is not there.
    pub fn byte_at<C: Rest>(&self, at: usize) -> u8
        requires window { IsWindow C.rest self.now }
        requires asked { at < self.now.asked }
        ensures value { result ≡ slice_index C.rest at }
        ensures spelled { at < length C.rest → Spells C.rest at (number_bytes 1 (slice_index C.rest at)) (at + 1) }
    {
        byte_at(&self.bytes, at)
    }

    /// Returns the number in the 4 bytes from a place on, the most significant first. Bytes that are not there count as
    /// zeros.
    pub fn short_at<C: Rest>(&self, at: usize) -> u32
        requires window { IsWindow C.rest self.now }
        requires asked { at + 4 ≤ self.now.asked }
        ensures value { result ≡ short_at C.rest at }
        ensures spelled { at + 4 ≤ length C.rest → Spells C.rest at (number_bytes 4 (short_at C.rest at)) (at + 4) }
    {
        short_in(&self.bytes, at)
    }

    /// Returns the number in the 8 bytes from a place on, the most significant first. Bytes that are not there count as
    /// zeros.
    pub fn long_at<C: Rest>(&self, at: usize) -> u64
        requires window { IsWindow C.rest self.now }
        requires asked { at + 8 ≤ self.now.asked }
        ensures value { result ≡ long_at C.rest at }
        ensures spelled { at + 8 ≤ length C.rest → Spells C.rest at (number_bytes 8 (long_at C.rest at)) (at + 8) }
    {
        long_in(&self.bytes, at)
    }

    /// Returns `Damaged` for the first of these fields that is not there or that breaks its rule. All of them were asked
    /// for. Places count from the window's first byte.
    pub fn check<C: Rest>(&self, fields: &[Field]) -> Result<(), ScanNo>
        requires window { IsWindow C.rest self.now }
        requires asked { AreAsked self.now.asked fields.now }
        ensures kept { OnOk result (All (Keeps C.rest) fields.now) }
        ensures damaged { (a : ℕ) (byte : Option ℕ) → IsErrOf result (Damaged a byte) → BreaksFirst C.rest fields.now a byte }
        ensures no_fault { IsErrOf result DeviceFault → ⊥ }
        ensures no_want { IsErrOf result WantOfMemory → ⊥ }
    {
        check(&self.bytes, fields)
    }
}

// Makes the bytes of a device from a place on `whole`, by one read of those that are missing.
fn fill<D: Disk>(dev: &mut D, at: u64, whole: usize, bytes: &mut Vec<u8>) -> Result<(), ScanNo>
    requires there { Reaches (D.device dev.old).trace (at + whole) }
    requires end { at + whole < 2 ^ 64 }
    requires long { length bytes.old.items ≤ whole }
    requires shown { Shows (D.device dev.old).trace (λ c. bytes.old.items ≡ take (length bytes.old.items) (drop at c)) }
    ensures shown { OnOk result (Shows (D.device dev.old).trace (λ c. bytes.new.items ≡ take whole (drop at c))) }
    ensures undamaged { (a : ℕ) (byte : Option ℕ) → IsErrOf result (Damaged a byte) → ⊥ }
    ensures cause { CountsFault result DeviceFault (D.device dev.old).faults (D.device dev.new).faults }
    ensures handed { (D.device dev.new).handed ≡ (D.device dev.old).handed }
    ensures same { (D.device dev.new).trace ≡ (D.device dev.old).trace }
{
    let done = bytes.len();
    if done == whole {
        return Ok(());
    }
    let Ok(()) = bytes.resize(whole, 0) else {
        return Err(ScanNo::WantOfMemory);
    };
    match read_behind(dev, at, done, bytes) {
        Ok(()) => Ok(()),
        Err(_) => Err(ScanNo::DeviceFault),
    }
}

// Reads all bytes behind the first `done` ones. The first byte is that at the place `at` of the device.
fn read_behind<D: Disk>(dev: &mut D, at: u64, done: usize, bytes: &mut [u8]) -> Result<(), Failed>
    requires there { Reaches (D.device dev.old).trace (at + length bytes.old) }
    requires end { at + length bytes.old < 2 ^ 64 }
    requires done { done ≤ length bytes.old }
    ensures read { OnOk result (bytes.new ≡ take done bytes.old ++ take (length bytes.old - done) (drop (at + done) (seen (D.device dev.old).trace))) }
    ensures cause { HasCause (D.device dev.old).faults (D.device dev.new).faults result }
    ensures handed { (D.device dev.new).handed ≡ (D.device dev.old).handed }
    ensures same { (D.device dev.new).trace ≡ (D.device dev.old).trace }
{
    let (_, rest) = bytes.split_at_mut(done);
    dev.read(at + done as u64, rest)
}

// Returns the number in the 4 bytes from a place on.
fn short_in(bytes: &[u8], at: usize) -> u32
    ensures value { result ≡ short_at bytes.now at }
    ensures spelled { at + 4 ≤ length bytes.now → Spells bytes.now at (number_bytes 4 (short_at bytes.now at)) (at + 4) }
{
    short_at(bytes, at)
}

// Returns the number in the 8 bytes from a place on.
fn long_in(bytes: &[u8], at: usize) -> u64
    ensures value { result ≡ long_at bytes.now at }
    ensures spelled { at + 8 ≤ length bytes.now → Spells bytes.now at (number_bytes 8 (long_at bytes.now at)) (at + 8) }
{
    long_at(bytes, at)
}
