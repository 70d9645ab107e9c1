// A source and a sink in memory, which fail at the calls that a test chooses.
ghost use Rattle.std.specs.Prelude.{◌≡◌, ◌↔◌, ◌⊎◌, ◌+◌, ◌≤◌, ◌<◌, [], ◌++◌, length, take, drop, min, Some, IfOk, OnOk, OnErr, IsErr, IsTrue, Contains};
ghost use Rattle.std.specs.Io.KnownBytes.{ReadConsumes, WriteAppends};
ghost use Rattle.byte_io.specs.Outside.{next_fault_count};

use crate::{Failed, Sink, Source};
use std::alloc::Global;
use std::marker::Model;

// The calls of a source, a sink or files in memory: the numbers of those that are to fail, and how many
// calls and faults there were. A count stays at the end of its type.
#[derive(Debug, Drop)]
pub(crate) struct Calls {
    pub(crate) failing: Vec<u64>,
    pub(crate) count: u64,
    pub(crate) faults: u64,
}

impl Calls {
    pub(crate) fn new(failing: Vec<u64>) -> Calls
        ensures { result ≡ record { failing = failing; count = 0; faults = 0 } }
    {
        Calls {
            failing,
            count: 0,
            faults: 0,
        }
    }

    // Counts a call, and returns whether it is to fail.
    pub(crate) fn begin(&mut self) -> bool
        ensures told { IsTrue result ↔ Contains self.old.failing.items self.old.count }
        ensures counted { self.new ≡ record self.old { count = next_fault_count self.old.count } }
    {
        let fails = self.failing.contains(&self.count);
        self.count = self.count.saturating_add(1);
        fails
    }

    // Counts a fault, and returns it.
    pub(crate) fn fault(&mut self) -> Failed
        ensures { self.new ≡ record self.old { faults = next_fault_count self.old.faults } }
    {
        self.faults = self.faults.saturating_add(1);
        Failed
    }
}

/// A source of bytes in memory. A clause sees the bytes that are left, and how many calls and faults there were. It
/// also sees the numbers of the calls that are to fail, counted from 0.
#[derive(Debug, Drop)]
pub struct MemSource {
    bytes: Vec<u8>,
    at: usize,
    calls: Calls,
}

impl Model for MemSource {
    ghost use Rattle.std.specs.Prelude.{◌≤◌, drop, vec_len};
    ghost use Rattle.byte_io.specs.Memory.{SourceState};

    ghost Value = { SourceState };

    ghost view = { λ s. record {
      bytes_left = drop s.at s.bytes.items;
      failing_calls = s.calls.failing.items;
      calls = s.calls.count;
      faults = s.calls.faults;
    } };

    ghost invariant = { λ s. s.at ≤ vec_len s.bytes };
}

impl MemSource {
    /// Returns a source of these bytes. Its calls with a number in `fail`, counted from 0, fail.
    pub fn new(bytes: Vec<u8>, fail: Vec<u64>) -> MemSource
        ensures left { result.bytes_left ≡ bytes.items }
        ensures failing { result.failing_calls ≡ fail.items }
        ensures calls { result.calls ≡ 0 }
        ensures faults { result.faults ≡ 0 }
    {
        MemSource {
            bytes,
            at: 0,
            calls: Calls::new(fail),
        }
    }

    /// Returns how many reads there were. The count stays at the end of its type.
    pub fn calls(&self) -> u64
        ensures { result ≡ self.now.calls }
    {
        self.calls.count
    }

    /// Returns how many reads failed. The count stays at the end of its type.
    pub fn faults(&self) -> u64
        ensures { result ≡ self.now.faults }
    {
        self.calls.faults
    }
}

impl Source for MemSource {
    ghost meaning = { λ s. record { content = Some s.bytes_left; faults = s.faults } };

    /// Gives as many bytes as are left and fit the buffer.
    fn read(&mut self, buf: &mut [u8]) -> Result<usize, Failed>
        ensures bound { IfOk result (λ n. n ≤ length buf.new) }
        ensures bytes { ReadConsumes (Some self.old.bytes_left) (Some self.new.bytes_left)
            result buf.new }
        ensures no_fault { OnOk result (self.new.faults ≡ self.old.faults) }
        ensures one_fault { OnErr result (self.new.faults ≡ next_fault_count self.old.faults) }

        // Which calls fail, and what each changes.
        ensures failed { IsErr result ↔ Contains self.old.failing_calls self.old.calls }
        ensures counted { self.new.calls ≡ next_fault_count self.old.calls }
        ensures failing { self.new.failing_calls ≡ self.old.failing_calls }

        ensures count { IfOk result (λ n.
            n ≡ min (length self.old.bytes_left) (length buf.old)) }
        ensures copied { IfOk result (λ n.
            buf.new ≡ take n self.old.bytes_left ++ drop n buf.old) }
        ensures rest { IfOk result (λ n. self.new.bytes_left ≡ drop n self.old.bytes_left) }

        ensures kept { OnErr result (self.new.bytes_left ≡ self.old.bytes_left) }
        ensures untouched { OnErr result (buf.new ≡ buf.old) }
    {
        if self.calls.begin() {
            return Err(self.calls.fault());
        }
        let left = &self.bytes[self.at..];
        let count = left.len().min(buf.len());
        buf[..count].copy_from_slice(&left[..count]);
        self.at += count;
        Ok(count)
    }
}

/// A sink that keeps its bytes in memory. A clause sees the bytes that it was given, and how many calls and faults
/// there were. It also sees the numbers of the calls that are to fail, counted from 0.
#[derive(Debug, Drop)]
pub struct MemSink {
    bytes: Vec<u8>,
    calls: Calls,
}

impl Model for MemSink {
    ghost use Rattle.byte_io.specs.Memory.{SinkState};

    ghost Value = { SinkState };

    ghost view = { λ s. record {
      bytes_written = s.bytes.items;
      failing_calls = s.calls.failing.items;
      calls = s.calls.count;
      faults = s.calls.faults;
    } };
}

impl MemSink {
    /// Returns a sink that holds nothing yet. Its calls with a number in `fail`, counted from 0, fail.
    pub fn new(alloc: Global, fail: Vec<u64>) -> MemSink
        ensures written { result.bytes_written ≡ [] }
        ensures failing { result.failing_calls ≡ fail.items }
        ensures calls { result.calls ≡ 0 }
        ensures faults { result.faults ≡ 0 }
    {
        MemSink {
            bytes: Vec::new(alloc),
            calls: Calls::new(fail),
        }
    }

    /// Returns what was written.
    pub fn bytes(&self) -> &[u8]
        ensures { result.now ≡ self.now.bytes_written }
    {
        &self.bytes
    }

    /// Returns how many writes there were. The count stays at the end of its type.
    pub fn calls(&self) -> u64
        ensures { result ≡ self.now.calls }
    {
        self.calls.count
    }

    /// Returns how many writes failed. The count stays at the end of its type.
    pub fn faults(&self) -> u64
        ensures { result ≡ self.now.faults }
    {
        self.calls.faults
    }
}

impl Sink for MemSink {
    ghost meaning = { λ s. record { content = Some s.bytes_written; faults = s.faults } };

    /// Takes all of the piece. It fails also if there is no memory for it.
    fn write(&mut self, bytes: &[u8]) -> Result<usize, Failed>
        ensures bound { IfOk result (λ n. n ≤ length bytes.now) }
        ensures progress { IfOk result (λ n. 0 < length bytes.now → 0 < n) }
        ensures bytes { WriteAppends (Some self.old.bytes_written) (Some self.new.bytes_written)
            result bytes.now }
        ensures no_fault { OnOk result (self.new.faults ≡ self.old.faults) }
        ensures one_fault { OnErr result (self.new.faults ≡ next_fault_count self.old.faults) }

        // Which calls fail, and what each changes.
        ensures failed { Contains self.old.failing_calls self.old.calls → IsErr result }
        ensures failed_only { OnErr result
            (Contains self.old.failing_calls self.old.calls ⊎ (0 < length bytes.now)) }
        ensures counted { self.new.calls ≡ next_fault_count self.old.calls }
        ensures failing { self.new.failing_calls ≡ self.old.failing_calls }

        ensures count { IfOk result (λ n. n ≡ length bytes.now) }
        ensures grown { OnOk result
            (self.new.bytes_written ≡ self.old.bytes_written ++ bytes.now) }

        ensures kept { OnErr result (self.new.bytes_written ≡ self.old.bytes_written) }
    {
        if self.calls.begin() || self.bytes.extend_from_slice(bytes).is_err() {
            return Err(self.calls.fault());
        }
        Ok(bytes.len())
    }
}
