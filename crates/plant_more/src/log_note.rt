// What a worker notes of its work.
ghost use Rattle.std.specs.Prelude.{◌≡◌};

use commit_log::{LogCommitNo, PutRowNo};

// How a worker ended.
#[derive(Clone, Copy, Debug, PartialEq, Eq)]
pub(crate) enum LogEnding {
    /// All its rows are done.
    Ended,
    /// Its pass did not let it put its next row.
    Halted,
    /// The log refused to append its next row.
    Put(PutRowNo),
    /// The log refused the commit after its next row, and not for lack of memory.
    Commit(LogCommitNo),
    /// There was no memory for the commit after its next row.
    WantOfMemory,
}

// What a worker did, and how it ended.
#[derive(Clone, Copy, Debug, PartialEq, Eq)]
pub(crate) struct LogNote {
    /// The worker, counted from 0 as the collectors are.
    pub(crate) worker: u32,
    /// How many of its rows are done: put, and acknowledged if a commit is due after them.
    pub(crate) done: u64,
    pub(crate) ending: LogEnding,
}

impl LogNote {
    // Returns the note of a worker that has not begun.
    pub(crate) fn new(worker: u32) -> LogNote
        ensures { result.worker ≡ worker }
    {
        LogNote {
            worker,
            done: 0,
            ending: LogEnding::Ended,
        }
    }
}
