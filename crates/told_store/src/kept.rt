// A device that the store keeps, with no file open.
ghost use Rattle.std.specs.Prelude.{◌≡◌, ◌⊎◌, is_none, true, None, Some, IfOk, IsErr};
ghost use Rattle.std.specs.Option.{ForSome};
ghost use Rattle.disk_model.specs.{empty_trace};
ghost use Rattle.told_store.specs.FirstBytes.{IsGateLost, IsPastMaking};
ghost use Rattle.told_store.specs.Notes.{IsFresh, read_as, told_by};

use crate::first_byte::{has_lost_gate, is_past_making};
use crate::folder::FileId;
use crate::host::record_of;
use crate::record::Record;
use std::io;

// What the store has of a device: which file was read, if one was; the record of its calls, unless it is out; and the
// bytes that were read. One without bytes was handed out or is refused, and is not handed out from then on.
#[derive(Drop)]
pub(crate) struct Kept {
    pub(crate) file: Option<FileId>,
    pub(crate) log: Record,
    pub(crate) bytes: Option<Vec<u8>>,
    ghost unused: { ForSome bytes (λ read. told_by log.notes ≡ read_as read.items) },
}

impl Kept {
    // A device of which these bytes were read, from this file or from none.
    pub(crate) fn read(file: Option<FileId>, bytes: Vec<u8>) -> Kept
        ensures file { result.file ≡ file }
        ensures told { told_by result.log.notes ≡ read_as bytes.items }
        ensures bytes { result.bytes ≡ Some bytes }
    {
        Kept {
            file,
            log: record_of(&bytes),
            bytes: Some(bytes),
        }
    }

    // A device that is not handed out again. These are its calls.
    pub(crate) fn used(log: Record) -> Kept
        ensures log { result.log ≡ log }
        ensures stopped { is_none result.bytes ≡ true }
    {
        Kept {
            file: None,
            log,
            bytes: None,
        }
    }

    // A device that is not handed out. Its trace is empty.
    pub(crate) fn refused() -> Kept
        ensures told { told_by result.log.notes ≡ empty_trace }
        ensures stopped { is_none result.bytes ≡ true }
    {
        Kept::used(Record::new())
    }

    // A device whose file was read. If the file could not be read, or its first byte was damaged, the device is
    // refused.
    pub(crate) fn of_file(name: &str, read: io::Result<(FileId, Vec<u8>)>) -> Kept
        ensures fresh { IsFresh (told_by result.log.notes) }
        ensures unread { IsErr read → result.bytes ≡ None }
        ensures lost { IfOk read (λ r. IsGateLost r.1.items ⊎ IsPastMaking name.now r.1.items → result.bytes ≡ None) }
        ensures whole { IfOk read (λ r. (IsGateLost r.1.items ⊎ IsPastMaking name.now r.1.items → ⊥)
            → (result.file ≡ Some r.0) × (result.bytes ≡ Some r.1)) }
    {
        let Ok((file, bytes)) = read else {
            return Kept::refused();
        };
        if has_lost_gate(&bytes) || is_past_making(name, &bytes) {
            return Kept::refused();
        }
        Kept::read(Some(file), bytes)
    }
}
