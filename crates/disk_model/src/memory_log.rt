// The calls that a device in memory has had, as data, and the images that they leave.
ghost use Rattle.std.specs.Prelude.{◌≡◌, ◌+◌, ◌-◌, ◌^◌, ◌<◌, [], ◌∷◌, length, vec_len, IfOk, OnOk, OnErr, IsSome, if◌then◌else◌};
ghost use Rattle.std.specs.Vec.{vec_capacity};
ghost use Rattle.disk_model.specs.Traces.{Synced, Idle, written, resized, content};
ghost use Rattle.disk_model.specs.Memory.{picked, picked_bytes, picked_length};
ghost use Rattle.disk_model.specs.Logs.{call_of, write_call, resize_call, log_first, log_calls};

use crate::memory_disk::Pick;
use std::alloc::AllocError;

// A call that was noted. `whole` is false if it failed.
#[derive(Drop)]
pub(crate) enum Call {
    Write {
        at: u64,
        bytes: Vec<u8>,
        whole: bool,
    },
    Resize {
        len: u64,
        whole: bool,
    },
    Sync,
}

// A call, and how many idle calls came between it and the one noted before.
#[derive(Drop)]
pub(crate) struct Note {
    pub(crate) idle: u64,
    pub(crate) call: Call,
}

// What a device holds, and its calls so far. `base` has the first bytes once they may have changed, and `notes` the
// calls, the oldest first. `idle` counts the idle calls since the last note, which need no memory.
#[derive(Drop)]
pub(crate) struct CallLog {
    pub(crate) base: Option<Vec<u8>>,
    pub(crate) content: Vec<u8>,
    pub(crate) notes: Vec<Note>,
    pub(crate) idle: u64,
}

impl CallLog {
    pub(crate) fn new(bytes: Vec<u8>) -> CallLog
        ensures first { log_first result ≡ bytes.items }
        ensures told { log_calls result ≡ [] }
        ensures content { result.content.items ≡ bytes.items }
    {
        let alloc = *bytes.allocator();
        CallLog {
            base: None,
            content: bytes,
            notes: Vec::new(alloc),
            idle: 0,
        }
    }

    // Records a call that did nothing.
    pub(crate) fn rest(&mut self)
        requires { length (log_calls self.old) < 2 ^ 64 - 1 }
        ensures first { log_first self.new ≡ log_first self.old }
        ensures told { log_calls self.new ≡ Idle ∷ log_calls self.old }
        ensures content { self.new.content.items ≡ self.old.content.items }
    {
        self.idle += 1;
    }

    // Makes and notes a write. Unless it is whole, it fails in part.
    pub(crate) fn write(&mut self, at: u64, bytes: &[u8], whole: bool) -> Result<(), AllocError>
        ensures first { log_first self.new ≡ log_first self.old }
        ensures told { OnOk result
            (log_calls self.new ≡ write_call whole at bytes.now ∷ log_calls self.old) }
        ensures content { OnOk result (self.new.content.items
            ≡ (if whole then written self.old.content.items at bytes.now else self.old.content.items)) }
        ensures err { OnErr result (log_calls self.new ≡ log_calls self.old) }
        ensures err_content { OnErr result (self.new.content.items ≡ self.old.content.items) }
    {
        let copy = bytes.to_vec(*self.content.allocator())?;
        self.prepare()?;
        if whole {
            put(&mut self.content, at, bytes)?;
        }
        self.note(Call::Write {
            at,
            bytes: copy,
            whole,
        });
        Ok(())
    }

    // Makes and notes a change of the length. Unless it is whole, it fails in part.
    pub(crate) fn resize(&mut self, len: u64, whole: bool) -> Result<(), AllocError>
        ensures first { log_first self.new ≡ log_first self.old }
        ensures told { OnOk result
            (log_calls self.new ≡ resize_call whole len ∷ log_calls self.old) }
        ensures content { OnOk result (self.new.content.items
            ≡ (if whole then resized self.old.content.items len else self.old.content.items)) }
        ensures err { OnErr result (log_calls self.new ≡ log_calls self.old) }
        ensures err_content { OnErr result (self.new.content.items ≡ self.old.content.items) }
    {
        self.prepare()?;
        if whole {
            self.content.resize(len as usize, 0)?;
        }
        self.note(Call::Resize { len, whole });
        Ok(())
    }

    // Notes a sync.
    pub(crate) fn sync(&mut self) -> Result<(), AllocError>
        ensures first { log_first self.new ≡ log_first self.old }
        ensures told { OnOk result (log_calls self.new ≡ Synced ∷ log_calls self.old) }
        ensures content { self.new.content.items ≡ self.old.content.items }
        ensures err { OnErr result (log_calls self.new ≡ log_calls self.old) }
    {
        self.prepare()?;
        self.note(Call::Sync);
        Ok(())
    }

    // Keeps the first bytes apart, and makes room for a note.
    fn prepare(&mut self) -> Result<(), AllocError>
        ensures first { log_first self.new ≡ log_first self.old }
        ensures told { log_calls self.new ≡ log_calls self.old }
        ensures content { self.new.content.items ≡ self.old.content.items }
        ensures apart { OnOk result (IsSome self.new.base) }
        ensures room { OnOk result (vec_len self.new.notes < vec_capacity self.new.notes) }
    {
        if self.base.is_none() {
            self.base = Some(self.content.to_vec(*self.content.allocator())?);
        }
        self.notes.reserve(1)
    }

    // Notes a call. There is room for it.
    fn note(&mut self, call: Call)
        requires { vec_len self.old.notes < vec_capacity self.old.notes }
        ensures base { self.new.base ≡ self.old.base }
        ensures told { log_calls self.new ≡ call_of call ∷ log_calls self.old }
        ensures content { self.new.content.items ≡ self.old.content.items }
    {
        let idle = self.idle;
        self.idle = 0;
        let Ok(()) = self.notes.push(Note { idle, call }) else {
            unreachable!();
        };
    }

    // The first bytes.
    fn first(&self) -> &[u8]
        ensures { result.now ≡ log_first self.now }
    {
        match &self.base {
            Some(bytes) => bytes,
            None => &self.content,
        }
    }

    // Returns the picked one of the images that a crash now may leave.
    pub(crate) fn picked(&self, pick: Pick) -> Result<Vec<u8>, AllocError>
        ensures { IfOk result (λ v. v.items ≡ picked pick (log_first self.now) (log_calls self.now)) }
    {
        let alloc = *self.content.allocator();
        let mut content = self.first().to_vec(alloc)?;
        let mut image = self.first().to_vec(alloc)?;
        for note in &self.notes {
            replay(&note.call, pick, &mut content, &mut image)?;
        }
        Ok(image)
    }
}

// Writes bytes over what is there and past the end. If `at` is past the end, it writes them at the end.
fn put(held: &mut Vec<u8>, at: u64, bytes: &[u8]) -> Result<(), AllocError>
    ensures ok { OnOk result (held.new.items ≡ written held.old.items at bytes.now) }
    ensures err { OnErr result (held.new.items ≡ held.old.items) }
{
    let at = at.min(held.len() as u64) as usize;
    let over = bytes.len().min(held.len() - at);
    held.extend_from_slice(&bytes[over..])?;
    held[at..at + over].copy_from_slice(&bytes[..over]);
    Ok(())
}

// Does a call once more, on what a read returns and on the picked image.
fn replay(
    call: &Call,
    pick: Pick,
    held: &mut Vec<u8>,
    image: &mut Vec<u8>,
) -> Result<(), AllocError>
    ensures { (first : _) (es : _) → held.old.items ≡ content first es → image.old.items ≡ picked pick first es →
        OnOk result ((held.new.items ≡ content first (call_of call.now ∷ es)) × (image.new.items ≡ picked pick first (call_of call.now ∷ es))) }
{
    match call {
        Call::Write { at, bytes, whole } => {
            if *whole {
                put(held, *at, bytes)?;
            }
            put_picked(pick, image, *at, bytes)
        }
        Call::Resize { len, whole: true } => {
            held.resize(*len as usize, 0)?;
            resize_picked(pick, image, *len)
        }
        Call::Resize { .. } => Ok(()),
        Call::Sync => {
            *image = held.to_vec(*held.allocator())?;
            Ok(())
        }
    }
}

// Does the picked part of a write on the image.
fn put_picked(pick: Pick, image: &mut Vec<u8>, at: u64, bytes: &[u8]) -> Result<(), AllocError>
    ensures { OnOk result (image.new.items ≡ picked_bytes pick bytes.now image.old.items at) }
{
    match pick {
        Pick::Old => Ok(()),
        Pick::New => put(image, at, bytes),
        Pick::Fill(byte) => {
            let filled = vec![in *image.allocator(); byte; bytes.len()]?;
            put(image, at, &filled)
        }
    }
}

// Does the picked part of a change of the length on the image.
fn resize_picked(pick: Pick, image: &mut Vec<u8>, len: u64) -> Result<(), AllocError>
    ensures { OnOk result (image.new.items ≡ picked_length pick image.old.items len) }
{
    match pick {
        Pick::Old => Ok(()),
        Pick::New | Pick::Fill(_) => image.resize(len as usize, 0),
    }
}
