// Sources and sinks over std's readers and writers.
ghost use Rattle.std.specs.Prelude.{◌≡◌};

use crate::retry::{read_again, write_again};
use crate::{Failed, Sink, Source};
use std::io::{Read, Write};

/// A reader of std as a source. If a signal interrupts a read, the read is made again. Each other error of the reader
/// is a fault, also one that says that a read would have to wait.
#[derive(Drop)]
pub struct StdSource<R> {
    inner: R,
    faults: u64,
}

impl<R: Read> StdSource<R> {
    ghost use Rattle.byte_io.specs.Standard.{source_inner, source_faults};

    /// Returns the reader as a source, with no fault so far.
    pub fn new(inner: R) -> StdSource<R>
        ensures inner { source_inner result ≡ inner }
        ensures faults { source_faults result ≡ 0 }
    {
        StdSource { inner, faults: 0 }
    }
}

impl<R: Read> Source for StdSource<R> {
    ghost use Rattle.byte_io.specs.Standard.{source_inner, source_faults};

    ghost meaning = { λ s. record {
      content = R.remaining (source_inner s);
      faults = source_faults s;
    } };

    fn read(&mut self, buf: &mut [u8]) -> Result<usize, Failed> {
        if let Ok(count) = read_again(&mut self.inner, buf) {
            return Ok(count);
        }
        self.faults = self.faults.saturating_add(1);
        Err(Failed)
    }
}

/// A writer of std as a sink. If a signal interrupts a write, the write is made again. Each other error of the writer
/// is a fault. So is a write of which the writer takes no byte, unless the piece is empty. A writer with a buffer of
/// its own may keep bytes back.
#[derive(Drop)]
pub struct StdSink<W> {
    inner: W,
    faults: u64,
}

impl<W: Write> StdSink<W> {
    ghost use Rattle.byte_io.specs.Standard.{sink_inner, sink_faults};

    /// Returns the writer as a sink, with no fault so far.
    pub fn new(inner: W) -> StdSink<W>
        ensures inner { sink_inner result ≡ inner }
        ensures faults { sink_faults result ≡ 0 }
    {
        StdSink { inner, faults: 0 }
    }

    /// Returns the writer, with all that it took.
    pub fn into_inner(self) -> W
        ensures { result ≡ sink_inner self }
    {
        self.inner
    }
}

impl<W: Write> Sink for StdSink<W> {
    ghost use Rattle.byte_io.specs.Standard.{sink_inner, sink_faults};

    ghost meaning = { λ s. record {
      content = W.contents (sink_inner s);
      faults = sink_faults s;
    } };

    fn write(&mut self, bytes: &[u8]) -> Result<usize, Failed> {
        if let Ok(count) = write_again(&mut self.inner, bytes) {
            if count > 0 || bytes.is_empty() {
                return Ok(count);
            }
        }
        self.faults = self.faults.saturating_add(1);
        Err(Failed)
    }
}
