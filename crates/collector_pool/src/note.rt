// What a worker notes of its work.
ghost use Rattle.std.specs.Prelude.{◌≡◌, ◌+◌, ◌<◌, ◌≤◌, [], IfOk, OnErr, OnOk, vec_capacity, vec_len};
ghost use Rattle.collector_pool.specs.Refusals.{ending_of_commit, ending_of_turn};

use crate::group_turns::TurnNo;
use std::alloc::Global;
use tag_cell::{CommitNo, TakeNo};
use trend_num::{Snap, WantOfMemory};

/// Why a tag refused to take a value or to commit.
#[derive(Clone, Copy, Debug, PartialEq, Eq)]
pub enum CellNo {
    /// One more event could bring too many records.
    Full { records: u32 },
    /// The tape has no room for another take; `room` is how many takes it had room for.
    RoomFull { room: u32 },
    /// An earlier commit returned DeviceFault.
    Broken,
    /// A call of the device failed.
    DeviceFault,
}

/// How a worker ended.
#[derive(Clone, Copy, Debug, PartialEq, Eq)]
pub enum Ending {
    /// All its work is done.
    Ended,
    /// Its pass did not let it take its next step.
    Halted,
    /// A tag refused a value or a commit.
    Tag { tag: u32, why: CellNo },
    /// A group refused a turn or an answer, and not for lack of memory.
    Group { group: u32, why: TurnNo },
    /// There was no memory for its note, or for the call of its next step.
    WantOfMemory,
}

/// How far a worker came, and how it ended.
#[derive(Drop)]
pub struct WorkerNote {
    /// The worker, counted from 0: the collectors, then the readers, then the refreshers.
    pub worker: u32,
    /// How many steps it made: rows that it took, queries that it answered, or turns of its group.
    pub steps: u64,
    /// For each query that it answered, the snapshot that it saw, if it asked for one. Only readers answer queries.
    pub snaps: Vec<Option<Snap>>,
    pub ending: Ending,
}

impl WorkerNote {
    // Returns the note of a worker that has not begun.
    pub(crate) fn new(alloc: Global, worker: u32) -> WorkerNote
        ensures worker { result.worker ≡ worker }
        ensures snaps { result.snaps.items ≡ [] }
    {
        WorkerNote {
            worker,
            steps: 0,
            snaps: Vec::new(alloc),
            ending: Ending::Ended,
        }
    }
}

// Returns an empty list with room for so many items.
pub(crate) fn with_room<T>(alloc: Global, count: usize) -> Result<Vec<T>, WantOfMemory>
    ensures none { IfOk result (λ list. list.items ≡ []) }
    ensures room { IfOk result (λ list. count ≤ vec_capacity list) }
{
    Ok(Vec::with_capacity(alloc, count)?)
}

// Makes room for so many more items. For 0 items it succeeds always.
pub(crate) fn make_room<T: Drop>(list: &mut Vec<T>, count: usize) -> Result<(), WantOfMemory>
    ensures same { list.new.items ≡ list.old.items }
    ensures room { OnOk result (vec_len list.old + count ≤ vec_capacity list.new) }
    ensures some { OnErr result (0 < count) }
{
    if count == 0 {
        return Ok(());
    }
    Ok(list.reserve(count)?)
}

impl From<TakeNo> for CellNo {
    ghost use Rattle.std.specs.Prelude.{◌≡◌};
    ghost use Rattle.collector_pool.specs.Refusals.{refusal_of_take};

    ghost from_gives = { λ take no. no ≡ refusal_of_take take };

    fn from(take: TakeNo) -> CellNo {
        match take {
            TakeNo::Full { records } => CellNo::Full { records },
            TakeNo::RoomFull { room } => CellNo::RoomFull { room },
            TakeNo::Broken => CellNo::Broken,
        }
    }
}

// Returns how a collector ends after this refusal of a tag's commit.
pub(crate) fn ending_of_commit(tag: u32, no: CommitNo) -> Ending
    ensures { result ≡ ending_of_commit tag no }
{
    match no {
        CommitNo::Broken => Ending::Tag {
            tag,
            why: CellNo::Broken,
        },
        CommitNo::DeviceFault => Ending::Tag {
            tag,
            why: CellNo::DeviceFault,
        },
        CommitNo::WantOfMemory => Ending::WantOfMemory,
    }
}

// Returns how a worker ends after this refusal of a group.
pub(crate) fn ending_of_turn(group: u32, no: TurnNo) -> Ending
    ensures { result ≡ ending_of_turn group no }
{
    match no {
        TurnNo::WantOfMemory => Ending::WantOfMemory,
        why => Ending::Group { group, why },
    }
}
