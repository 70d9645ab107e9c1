// What calls of a cell leave on its tape, what they answer, and what they refuse.
use interp_read::Reply;
use trend_num::{Point, Rec, TagQuery};

/// What one call of a cell left on its tape.
#[derive(Drop)]
pub enum Entry {
    /// A raw value was taken.
    Take {
        /// The collector, counted from 0.
        collector: u32,
        /// The row of the collector's work, counted from 1 in each phase of a session.
        row: u64,
        point: Point,
        /// The point that closes the line after it.
        held: Point,
        /// How many records there are after it.
        records: u32,
    },
    /// A question was answered.
    Ask {
        /// The reader, counted from 0.
        reader: u32,
        /// The row of the reader's file, counted from 1.
        row: u64,
        query: TagQuery,
        reply: Reply,
    },
    /// Records were handed to a group.
    Pull {
        /// The group, counted from 0.
        group: u32,
        /// The place of the first record that was handed out.
        from: u32,
        /// The place after the last one.
        upto: u32,
    },
    /// Raw values were acknowledged.
    Commit {
        /// The device's clock after the last call of this commit.
        moment: u64,
        /// How many of the tag's events are acknowledged from then on.
        acked: u64,
    },
}

/// The place of a call's entry on the tape.
#[derive(Clone, Copy, Debug, PartialEq, Eq)]
pub struct Receipt {
    /// The place, counted from 0.
    pub place: u64,
}

/// What a commit has acknowledged.
#[derive(Clone, Copy, Debug, PartialEq, Eq)]
pub struct Acked {
    /// How many events of the tag no crash takes away.
    pub acked: u64,
    /// How many raw values wait for a later commit.
    pub waiting: u64,
}

/// Records that were handed out.
#[derive(Drop)]
pub struct Pulled {
    /// The place after the last of them.
    pub upto: u32,
    pub recs: Vec<Rec>,
}

/// Why a raw value is not taken.
#[derive(Clone, Copy, Debug, PartialEq, Eq)]
pub enum TakeNo {
    /// A commit answered DeviceFault.
    Broken,
    /// The tape has as many takes as it has room for.
    RoomFull { room: u32 },
    /// One more event could bring too many records. There are `records` now.
    Full { records: u32 },
}

/// Why no records are handed out.
#[derive(Clone, Copy, Debug, PartialEq, Eq)]
pub enum PullNo {
    /// The place is after all records of the opening and of the acknowledged takes. There are `acked` of these.
    Ahead { from: u32, acked: u32 },
    /// There was not enough memory.
    WantOfMemory,
}

/// Why nothing is acknowledged.
#[derive(Clone, Copy, Debug, PartialEq, Eq)]
pub enum CommitNo {
    /// An earlier commit answered DeviceFault.
    Broken,
    /// A call of the device failed. It has to be opened again before it is used.
    DeviceFault,
    /// There was not enough memory; the device was not called.
    WantOfMemory,
}
