// Where two accounts of a session differ, and what each has there.
use crate::unit::Unit;
use trend_num::{Point, Summary, TagDef, TagQuery};

/// A place at which what a session keeps is compared with its work. Tags, groups and inputs are numbered from 0, and so
/// are the entries of a tape.
#[derive(Clone, Copy, Debug, PartialEq, Eq)]
pub enum Place {
    /// The number of takes of a tag.
    Takes { tag: u32 },
    /// A take on a tag's tape, with the row to which it belongs.
    Take { tag: u32, place: u64 },
    /// A question on a tag's tape, with the query to which it belongs.
    Ask { tag: u32, place: u64 },
    /// A question on a group's tape, with the query to which it belongs.
    RowAsk { group: u32, place: u64 },
    /// How many records of an input a group has taken into account.
    Version { group: u32, input: u32 },
    /// How many windows of a group have rows.
    Windows { group: u32 },
    /// What a tag or a group was when it was opened.
    Opening { unit: Unit },
    /// The records that a group pulled of an input in the refresh with this number, counted from 0.
    Pull { group: u32, input: u32, turn: u32 },
    /// How often a group was refreshed.
    Turns { group: u32 },
    /// A value that was put into the log of the plant, with the row to which it belongs.
    Log { place: u64 },
}

/// What one of two accounts has at a place.
#[derive(Clone, Copy, Debug, PartialEq, Eq)]
pub enum Seen {
    Nothing,
    Number(u64),
    Def(TagDef),
    Summary(Summary),
    /// A value of a collector's row. Rows are counted from 1, collectors from 0.
    Take {
        collector: u32,
        row: u64,
        point: Point,
    },
    /// A reader's question about a tag. Rows are counted from 1, readers from 0.
    Ask {
        reader: u32,
        row: u64,
        query: TagQuery,
    },
    /// A reader's question for the value of a calculation in a window. Rows are counted from 1. Readers, calculations
    /// of a group, and windows are counted from 0.
    Row {
        reader: u32,
        row: u64,
        calc: u32,
        k: u64,
    },
    /// A value of a collector's row in the log of the plant. Rows are counted from 1. Tags and collectors are counted
    /// from 0.
    Put {
        tag: u32,
        collector: u32,
        row: u64,
        point: Point,
    },
}
