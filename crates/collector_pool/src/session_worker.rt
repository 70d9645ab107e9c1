// A worker's place in a session: its role, its pass and its note.
use crate::note::WorkerNote;
use plant_status::Worker;
use snapshot_table::Looker;

/// The role of a worker, with its number among the workers of that kind.
#[derive(Drop)]
pub enum Role {
    Collector(u32),
    Reader(u32, Looker),
    Refresher(u32),
}

/// What a worker has, from before it begins until its pass is given back.
pub struct SessionWorker<O> {
    pub role: Role,
    pub pass: O,
    pub note: WorkerNote,
}

impl<O> Worker<O, WorkerNote> for SessionWorker<O> {
    ghost pass = { λ s. s.pass };

    ghost note = { λ s. s.note };

    fn leave(self) -> (O, WorkerNote) {
        let SessionWorker { role, pass, note } = self;
        drop(role);
        (pass, note)
    }
}
