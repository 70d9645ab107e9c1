// What a cell was opened with, and what it returns at the end.
use crate::entry::Entry;
use trend_num::{Rec, Summary, TagDef};

/// A tag as it was opened.
#[derive(Drop)]
pub struct TagOpening {
    /// The records, the oldest first.
    pub recs: Vec<Rec>,
    /// The part of the state that is not records.
    pub summary: Summary,
    /// The device's clock at the end of the opening.
    pub moment: u64,
    /// How often a call of the device had failed.
    pub faults: u64,
}

/// All that happened to a tag since it was opened, and what it is at the end.
#[derive(Drop)]
pub struct TagHistory {
    pub def: TagDef,
    pub opening: TagOpening,
    /// What the calls left, the oldest first.
    pub tape: Vec<Entry>,
    /// The records at the end.
    pub recs: Vec<Rec>,
    /// The part of the state at the end that is not records.
    pub summary: Summary,
    /// How many events are acknowledged at the end.
    pub acked: u64,
}
