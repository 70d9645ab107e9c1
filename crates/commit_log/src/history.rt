// What the calls of a log leave on its tape and return, and what the log returns at its end.
use crate::row::LogRow;

/// What one call of a log left on its tape.
#[derive(Clone, Copy, Debug, PartialEq, Eq)]
pub enum LogTurn {
    /// A row was appended.
    Put(LogRow),
    /// Rows were acknowledged.
    Commit {
        /// The device's clock after the last call of this commit.
        moment: u64,
        /// How many rows are acknowledged from then on, with the opening's.
        acked: u64,
    },
}

/// All that happened to a log since it was opened.
#[derive(Drop)]
pub struct LogHistory {
    /// The names of the plant's tags, in base order, with a line feed between two.
    pub plant: Vec<u8>,
    /// How many tags the plant has.
    pub tags: u32,
    /// The rows that the device had when it was opened, the oldest first.
    pub opening: Vec<LogRow>,
    /// The device's clock at the end of the opening.
    pub moment: u64,
    /// How often a call of the device had failed by the end of the opening.
    pub faults: u64,
    /// What the calls left, the oldest first.
    pub tape: Vec<LogTurn>,
    /// How many rows are acknowledged at the end, with the opening's.
    pub acked: u64,
}

/// What is acknowledged after a commit.
#[derive(Clone, Copy, Debug, PartialEq, Eq)]
pub struct LogAcked {
    /// How many rows no crash takes away, with the opening's.
    pub acked: u64,
    /// How many rows wait for a later commit.
    pub waiting: u64,
}
