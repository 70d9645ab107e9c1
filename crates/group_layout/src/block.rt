// Blocks: what a save of a group leaves on its device.

/// A row that changed: the value of a calculation in a window.
#[derive(Clone, Copy, Debug, PartialEq, Eq)]
pub struct BlockRow {
    /// The calculation, counted from 0.
    pub calc: u32,
    /// The window, counted from 0.
    pub window: u32,
    /// 0 for a number; 1 for no data, 2 for a division by 0, 3 for a number out of range.
    pub kind: u8,
    /// The number; 0 if there is none.
    pub value: i64,
}

/// What one save leaves.
#[derive(Drop)]
pub struct Block {
    /// The number of the save, counted from 1.
    pub number: u64,
    /// How many records of each input were taken into account.
    pub versions: Vec<u32>,
    /// How many windows are complete.
    pub windows: u32,
    /// The rows that changed since the save before, sorted by calculation and then by window.
    pub rows: Vec<BlockRow>,
}

/// All blocks of a device.
#[derive(Drop)]
pub struct Blocks {
    /// The blocks, the oldest first.
    pub list: Vec<Block>,
    /// Where the first closed gate is.
    pub end: u64,
}
