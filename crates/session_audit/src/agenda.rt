// The rows of a worker, and what they leave on tapes.
ghost use Rattle.std.specs.Prelude.{◌≡◌, ◌↔◌, ◌<◌, ◌^◌, ℕ, IsTrue, length, None, Some, slice_index_or};
ghost use Rattle.std.specs.Option.{option_map};
ghost use Rattle.plant_status.specs.declared.mismatch.Seen.TheVariants.{Ask, Row, Take};
ghost use Rattle.session_audit.specs.Agendas.{ask_item, items_of, left_by, number_in, row_item, take_item, unit_of};

use plant_status::Seen;
use trend_num::{Point, TagQuery};
use value_rows::{Query, RawRow};

/// The rows of a file, and which of them count.
#[derive(Clone, Copy)]
pub enum Rows<'a> {
    /// The values of a collector. The first so many of them were its work in an earlier phase.
    Takes(&'a [RawRow], u32),
    /// The questions of a reader about tags.
    Asks(&'a [Query]),
    /// The questions of a reader for values of calculations.
    RowAsks(&'a [Query]),
}

/// The rows of one worker. Its number counts from 0 among the collectors or the readers.
#[derive(Clone, Copy)]
pub struct Agenda<'a> {
    pub worker: u32,
    pub rows: Rows<'a>,
}

/// A row that counts: the tag or the group at which it is due, and what it leaves there.
#[derive(Clone, Copy)]
pub struct Item {
    pub unit: u32,
    pub seen: Seen,
}

impl Agenda<'_> {
    /// Returns how many rows there are.
    #[tactic(auto, using(crate::proofs::Numbers::takes_length, crate::proofs::Numbers::asks_length, crate::proofs::Numbers::row_asks_length))]
    pub fn len(&self) -> usize
        ensures { result ≡ length (items_of self.now) }
    {
        match self.rows {
            Rows::Takes(rows, _) => rows.len(),
            Rows::Asks(queries) | Rows::RowAsks(queries) => queries.len(),
        }
    }

    /// Returns the row at a place, from 0, or None if the row does not count.
    #[tactic(auto, using(crate::proofs::Numbers::takes_length, crate::proofs::Numbers::asks_length, crate::proofs::Numbers::row_asks_length))]
    pub fn item(&self, place: usize) -> Option<Item>
        requires within { place < length (items_of self.now) }
        requires few { length (items_of self.now) < 2 ^ 32 }
        ensures { result ≡ slice_index_or (items_of self.now) place None }
    {
        let row = place as u64 + 1;
        match self.rows {
            Rows::Takes(rows, earlier) => {
                Some(take_item(self.worker, number_in(earlier, row), rows[place]))
            }
            Rows::Asks(queries) => ask_item(self.worker, row, queries[place]),
            Rows::RowAsks(queries) => row_item(self.worker, row, queries[place]),
        }
    }

    /// Returns the tag or the group at which the row at a place, from 0, is due, or None if the row does not count.
    #[tactic(auto, using(crate::proofs::Numbers::takes_length, crate::proofs::Numbers::asks_length, crate::proofs::Numbers::row_asks_length))]
    pub fn unit(&self, place: usize) -> Option<u32>
        requires within { place < length (items_of self.now) }
        requires few { length (items_of self.now) < 2 ^ 32 }
        ensures { result ≡ unit_of (items_of self.now) place }
    {
        match self.rows {
            Rows::Takes(rows, _) => Some(rows[place].tag),
            Rows::Asks(queries) => ask_unit(&queries[place]),
            Rows::RowAsks(queries) => row_unit(&queries[place]),
        }
    }

    /// Returns whether the row at a place leaves this value of this collector, under this number.
    #[tactic(auto, using(crate::proofs::Numbers::takes_length, crate::proofs::Numbers::asks_length, crate::proofs::Numbers::row_asks_length))]
    pub fn is_take(&self, place: usize, collector: u32, row: u64, point: Point) -> bool
        requires within { place < length (items_of self.now) }
        requires few { length (items_of self.now) < 2 ^ 32 }
        ensures { IsTrue result ↔ (left_by (items_of self.now) place ≡ Some (Take collector row point)) }
    {
        match self.rows {
            Rows::Takes(rows, earlier) => {
                let number = number_in(earlier, place as u64 + 1);
                takes(self.worker, number, &rows[place], collector, row, point)
            }
            _ => false,
        }
    }

    /// Returns whether the row at a place leaves this reader's question about a tag, under this number.
    #[tactic(auto, using(crate::proofs::Numbers::takes_length, crate::proofs::Numbers::asks_length, crate::proofs::Numbers::row_asks_length))]
    pub fn is_ask(&self, place: usize, reader: u32, row: u64, query: &TagQuery) -> bool
        requires within { place < length (items_of self.now) }
        requires few { length (items_of self.now) < 2 ^ 32 }
        ensures { IsTrue result ↔ (left_by (items_of self.now) place ≡ Some (Ask reader row query.now)) }
    {
        match self.rows {
            Rows::Asks(queries) => {
                let number = place as u64 + 1;
                asks(self.worker, number, &queries[place], reader, row, query)
            }
            _ => false,
        }
    }

    /// Returns whether the row at a place leaves this reader's question for a calculation's value, under this number.
    #[tactic(auto, using(crate::proofs::Numbers::takes_length, crate::proofs::Numbers::asks_length, crate::proofs::Numbers::row_asks_length))]
    pub fn is_row_ask(&self, place: usize, reader: u32, row: u64, calc: u32, k: u64) -> bool
        requires within { place < length (items_of self.now) }
        requires few { length (items_of self.now) < 2 ^ 32 }
        ensures { IsTrue result ↔ (left_by (items_of self.now) place ≡ Some (Row reader row calc k)) }
    {
        match self.rows {
            Rows::RowAsks(queries) => {
                let number = place as u64 + 1;
                asks_row(self.worker, number, &queries[place], reader, row, calc, k)
            }
            _ => false,
        }
    }
}

/// Returns the number of a row in its phase. The first `earlier` rows are those of an earlier phase, and the rows after
/// them count from 1 again.
#[tactic(auto, using(crate::proofs::Numbers::number_first, crate::proofs::Numbers::number_again))]
pub fn number_in(earlier: u32, row: u64) -> u64
    ensures { result ≡ number_in earlier row }
{
    if row <= u64::from(earlier) {
        row
    } else {
        row - u64::from(earlier)
    }
}

// Returns the item of a collector's value.
fn take_item(collector: u32, row: u64, value: RawRow) -> Item
    ensures { Some result ≡ take_item collector row value }
{
    Item {
        unit: value.tag,
        seen: Seen::Take {
            collector,
            row,
            point: value.point,
        },
    }
}

// Returns the item of a reader's question, if it is about a tag.
fn ask_item(reader: u32, row: u64, query: Query) -> Option<Item>
    ensures { result ≡ ask_item reader row query }
{
    match query {
        Query::Tag { tag, query } => Some(Item {
            unit: tag,
            seen: Seen::Ask { reader, row, query },
        }),
        _ => None,
    }
}

// Returns the item of a reader's question, if it is for a value of a calculation.
fn row_item(reader: u32, row: u64, query: Query) -> Option<Item>
    ensures { result ≡ row_item reader row query }
{
    match query {
        Query::Row { group, calc, k } => Some(Item {
            unit: group,
            seen: Seen::Row {
                reader,
                row,
                calc,
                k,
            },
        }),
        _ => None,
    }
}

// Returns the tag of a reader's question, if it is about a tag.
fn ask_unit(query: &Query) -> Option<u32>
    ensures { (reader row : ℕ) → result ≡ option_map (λ item. item.unit) (ask_item reader row query.now) }
{
    match query {
        Query::Tag { tag, .. } => Some(*tag),
        _ => None,
    }
}

// Returns the group of a reader's question, if it is for a value of a calculation.
fn row_unit(query: &Query) -> Option<u32>
    ensures { (reader row : ℕ) → result ≡ option_map (λ item. item.unit) (row_item reader row query.now) }
{
    match query {
        Query::Row { group, .. } => Some(*group),
        _ => None,
    }
}

// Returns whether a collector's value leaves this one.
fn takes(
    collector: u32,
    row: u64,
    value: &RawRow,
    its_collector: u32,
    its_row: u64,
    its_point: Point,
) -> bool
    ensures { IsTrue result ↔ (option_map (λ item. item.seen) (take_item collector row value.now)
        ≡ Some (Take its_collector its_row its_point)) }
{
    collector == its_collector && row == its_row && value.point == its_point
}

// Returns whether a reader's question leaves this one about a tag.
fn asks(
    reader: u32,
    row: u64,
    query: &Query,
    its_reader: u32,
    its_row: u64,
    its_query: &TagQuery,
) -> bool
    ensures { IsTrue result ↔ (option_map (λ item. item.seen) (ask_item reader row query.now)
        ≡ Some (Ask its_reader its_row its_query.now)) }
{
    match query {
        Query::Tag { query, .. } => { reader == its_reader && row == its_row && query == its_query }
        _ => false,
    }
}

// Returns whether a reader's question leaves this one for a value of a calculation.
fn asks_row(
    reader: u32,
    row: u64,
    query: &Query,
    its_reader: u32,
    its_row: u64,
    its_calc: u32,
    its_k: u64,
) -> bool
    ensures { IsTrue result ↔ (option_map (λ item. item.seen) (row_item reader row query.now)
        ≡ Some (Row its_reader its_row its_calc its_k)) }
{
    match query {
        Query::Row { calc, k, .. } => {
            reader == its_reader && row == its_row && *calc == its_calc && *k == its_k
        }
        _ => false,
    }
}
