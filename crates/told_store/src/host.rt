// A real file. Each method makes the one call that it notes; a sync makes none if nothing was changed since the last
// one. No clause says that it does, so these lines have to be read.
ghost use Rattle.std.specs.Prelude.{◌≡◌, is_ok, if◌then◌else◌};
ghost use Rattle.told_store.specs.Notes.{read_as, told_by};

use crate::calls::Calls;
use crate::record::Record;
use std::fs::OpenFile;
use std::io;
use std::os::unix::fs::FileExt;

const READ: u64 = 0;

const WRITTEN: u64 = 1;

const WRITTEN_IN_PART: u64 = 2;

const RESIZED: u64 = 3;

const RESIZED_IN_PART: u64 = 4;

const FLUSHED: u64 = 5;

const RESTED: u64 = 6;

/// An open file, and the record of the calls on it. It also keeps whether no write and no cut was made since a sync:
/// then a sync has nothing to do, and makes no call.
#[derive(Drop)]
pub struct Host<F> {
    pub(crate) file: F,
    pub(crate) log: Record,
    pub(crate) is_synced: bool,
}

impl<F> Host<F> {
    /// A file that was synced before it was read, with this record. Or it is a new one, which has no bytes.
    pub(crate) fn new(file: F, log: Record) -> Host<F>
        ensures { result.log ≡ log }
    {
        Host {
            file,
            log,
            is_synced: true,
        }
    }
}

/// The record of a file of which these bytes were just read, and no other call.
pub(crate) fn record_of(bytes: &[u8]) -> Record
    ensures { told_by result.notes ≡ read_as bytes.now }
{
    let mut log = Record::new();
    log.note(&[READ, 0], bytes);
    log
}

// The number by which a call is noted: `made` if it answered Ok, else `failed`.
fn kind(answer: &io::Result<()>, made: u64, failed: u64) -> u64
    ensures { result ≡ (if is_ok answer.now then made else failed) }
{
    if answer.is_ok() { made } else { failed }
}

impl<F: OpenFile + FileExt> Calls for Host<F> {
    ghost told = { λ h. told_by h.log.notes };

    fn write_all(&mut self, at: u64, bytes: &[u8]) -> io::Result<()> {
        self.is_synced = false;
        let answer = self.file.write_all_at(bytes, at);
        let call = kind(&answer, WRITTEN, WRITTEN_IN_PART);
        self.log.note(&[call, at], bytes);
        answer
    }

    fn resize(&mut self, len: u64) -> io::Result<()> {
        self.is_synced = false;
        let answer = self.file.set_len(len);
        let call = kind(&answer, RESIZED, RESIZED_IN_PART);
        self.log.note(&[call, len], &[]);
        answer
    }

    fn flush(&mut self) -> io::Result<()> {
        let answer = if self.is_synced {
            Ok(())
        } else {
            self.file.sync_data()
        };
        self.is_synced = answer.is_ok();
        let call = kind(&answer, FLUSHED, RESTED);
        self.log.note(&[call, 0], &[]);
        answer
    }

    fn rest(&mut self) {
        self.log.note(&[RESTED, 0], &[]);
    }
}
