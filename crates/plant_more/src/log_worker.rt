// A worker's place in a run: its pass and its note.
use crate::log_note::LogNote;
use plant_status::Worker;

// What a worker has, from before it begins until its pass is given back.
pub(crate) struct LogWorker<O> {
    pub(crate) pass: O,
    pub(crate) note: LogNote,
}

impl<O> Worker<O, LogNote> for LogWorker<O> {
    ghost pass = { λ s. s.pass };

    ghost note = { λ s. s.note };

    fn leave(self) -> (O, LogNote) {
        let LogWorker { pass, note } = self;
        (pass, note)
    }
}
