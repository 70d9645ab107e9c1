// A list of calls that only clauses read.
ghost use Rattle.std.specs.Prelude.{◌≡◌, List, [], ◌∷◌};
ghost use Rattle.std.specs.Borrow.{ftrue};
ghost use Rattle.told_store.specs.Notes.{Note, note_of};

use std::marker::{Model, PhantomData};

/// The calls that were made on a file, the newest first. It takes no memory. Only the code that notes decides what it
/// holds, so that code has to be read.
#[derive(Drop)]
pub struct Record {
    marker: PhantomData<u8>,
    pub ghost notes: { List Note },
}

impl Model for Record {
    ghost also_owns = { λ _. ftrue };
}

impl Record {
    /// A record of no call.
    pub(crate) fn new() -> Record
        ensures { result.notes ≡ [] }
    {
        Record {
            marker: PhantomData,
        }
    }

    /// Notes a call: its kind, its place or length, and its bytes.
    pub(crate) fn note(&mut self, _numbers: &[u64], _bytes: &[u8])
        ensures { self.new.notes ≡ note_of _numbers.now _bytes.now ∷ self.old.notes }
    {}
}
