// Files in memory, whose reads fail at the calls that a test chooses.
ghost use Rattle.std.specs.Prelude.{◌≡◌, ◌↔◌, ◌⊎◌, ◌<◌, ◌≤◌, ◌++◌, length, take, drop, min, None, IfNone, IfOk, OnOk, OnErr, IfSome, IsErr, Some, Contains};
ghost use Rattle.byte_io.specs.Outside.{next_fault_count};
ghost use Rattle.byte_io.specs.Files.{HasAt, EndsBy, IsFaultOf, bytes_of, told_of, files_named, remembered};

use crate::memory::Calls;
use crate::{Failed, Files};
use arrayvec::ArrayString;
use std::marker::Model;

// The most bytes of a name that is remembered.
const MAX_REMEMBERED: usize = 255;

/// Files in memory. A clause sees the names and bytes of the files, of which the first of a name counts. It also sees
/// the numbers of the calls that are to fail, counted from 0, and how many calls and faults there were. Last, it sees
/// the name whose read failed last, if that has at most 255 bytes.
#[derive(Debug, Drop)]
pub struct MemFiles {
    files: Vec<(String, Vec<u8>)>,
    calls: Calls,
    failed_name: Option<ArrayString<MAX_REMEMBERED>>,
}

impl Model for MemFiles {
    ghost use Rattle.std.specs.Option.{option_map};
    ghost use Rattle.byte_io.specs.Files.{FilesState, files_named};

    ghost Value = { FilesState };

    ghost view = { λ s. record {
      files = files_named s.files.items;
      failing_calls = s.calls.failing.items;
      calls = s.calls.count;
      faults = s.calls.faults;
      failed_name = option_map (λ t. t.bytes) s.failed_name;
    } };
}

impl MemFiles {
    /// Returns these files by name. Their calls with a number in `fail`, counted from 0, fail.
    pub fn new(files: Vec<(String, Vec<u8>)>, fail: Vec<u64>) -> MemFiles
        ensures files { result.files ≡ files_named files.items }
        ensures failing { result.failing_calls ≡ fail.items }
        ensures calls { result.calls ≡ 0 }
        ensures faults { result.faults ≡ 0 }
        ensures failed_name { result.failed_name ≡ None }
    {
        MemFiles {
            files,
            calls: Calls::new(fail),
            failed_name: None,
        }
    }

    /// Returns how many reads there were. The count stays at the end of its type.
    pub fn calls(&self) -> u64
        ensures { result ≡ self.now.calls }
    {
        self.calls.count
    }

    /// Returns how many reads failed. The count stays at the end of its type.
    pub fn faults(&self) -> u64
        ensures { result ≡ self.now.faults }
    {
        self.calls.faults
    }

    // Counts a failed read of the file of this name, and returns the failure.
    fn fault(&mut self, name: &str) -> Failed
        ensures { self.new ≡ record self.old { faults = next_fault_count self.old.faults; failed_name = remembered name.now } }
    {
        self.failed_name = ArrayString::from(name).ok();
        self.calls.fault()
    }
}

// The bytes of the first file of a name.
fn find<'f>(files: &'f [(String, Vec<u8>)], name: &str) -> Option<&'f [u8]>
    ensures none { IfNone result (bytes_of (files_named files.now) name.now ≡ None) }
    ensures first { IfSome result (λ bytes. bytes_of (files_named files.now) name.now ≡ Some bytes.now) }
{
    for file in files {
        if file.0.as_str() == name {
            return Some(file.1.as_slice());
        }
    }
    None
}

// Copies the bytes from a place on to the front of a buffer, as far as both go, and returns how many.
fn copy_from(bytes: &[u8], at: u64, buf: &mut [u8]) -> usize
    ensures count { result ≡ min (length (drop at bytes.now)) (length buf.old) }
    ensures copied { buf.new ≡ take result (drop at bytes.now) ++ drop result buf.old }
{
    let rest = &bytes[(at as usize).min(bytes.len())..];
    let count = rest.len().min(buf.len());
    buf[..count].copy_from_slice(&rest[..count]);
    count
}

impl Files for MemFiles {
    ghost told = { λ s. told_of s.files };

    ghost fault_count = { λ s. s.faults };

    ghost failed_name = { λ s. s.failed_name };

    /// Returns as many bytes as there are from the place on and fit the buffer.
    fn read_at(&mut self, name: &str, at: u64, buf: &mut [u8]) -> Result<usize, Failed>
        ensures bound { IfOk result (λ n. n ≤ length buf.new) }
        ensures bytes { IfOk result (λ n. HasAt (told_of self.old.files name.now) at (take n buf.new)) }
        ensures end { IfOk result (λ n.
            n ≡ 0 → 0 < length buf.new → EndsBy (told_of self.old.files name.now) at) }
        ensures stays { told_of self.new.files ≡ told_of self.old.files }
        ensures no_fault { OnOk result (self.new.faults ≡ self.old.faults) }
        ensures one_fault { OnErr result (self.new.faults ≡ next_fault_count self.old.faults) }
        ensures whose { OnErr result (IsFaultOf self.new.failed_name name.now) }

        // Which calls fail, and what each changes.
        ensures failed { IsErr result ↔
            (Contains self.old.failing_calls self.old.calls ⊎ (bytes_of self.old.files name.now ≡ None)) }
        ensures counted { self.new.calls ≡ next_fault_count self.old.calls }
        ensures failing { self.new.failing_calls ≡ self.old.failing_calls }
        ensures files { self.new.files ≡ self.old.files }

        ensures count { IfOk result (λ n. IfSome (bytes_of self.old.files name.now) (λ all.
            n ≡ min (length (drop at all)) (length buf.old))) }
        ensures untouched { OnErr result (buf.new ≡ buf.old) }

        // A name is remembered if it has at most 255 bytes.
        ensures remembers { OnErr result (self.new.failed_name ≡ remembered name.now) }
    {
        if self.calls.begin() {
            return Err(self.fault(name));
        }
        let Some(bytes) = find(&self.files, name) else {
            return Err(self.fault(name));
        };
        Ok(copy_from(bytes, at, buf))
    }
}
