// A kind of work: what the rows of a worker leave on tapes, and what the entries of a tape show of workers.
ghost use Rattle.std.specs.Prelude.{◌≡◌, ◌↔◌, ◌<◌, ◌^◌, ℕ, IfSome, IsSomeAnd, IsTrue, List, Option, Some, length};
ghost use Rattle.std.specs.Option.{option_map};
ghost use Rattle.session_audit.specs.Agendas.{items_in, items_of, left_by, numbered};
ghost use Rattle.session_audit.specs.Found.{IsWork};

use crate::agenda::{Agenda, Rows};
use disk_model::Disk;
use group_book::{Book, Turn};
use plant_status::Seen;
use tag_cell::{Cell, Entry};
use value_rows::{Query, RawRow};

/// What an entry shows of a worker.
#[derive(Clone, Copy)]
pub struct Shown {
    pub worker: u32,
    pub seen: Seen,
}

/// Something that has a tape: the cell of a tag, or the book of a group.
pub trait Taped {
    /// An entry of a tape.
    type Entry;

    /// The tape.
    ghost tape_of: { Self → List Self.Entry };

    /// Returns the entries that the calls left, the oldest first.
    fn tape(&self) -> &[Self::Entry]
        ensures { result.now ≡ tape_of self.now };
}

impl<D: Disk> Taped for Cell<D> {
    ghost use Rattle.session_audit.specs.Cells.{cell_tape};

    type Entry = Entry;

    ghost tape_of = { cell_tape };

    fn tape(&self) -> &[Entry] {
        self.tape()
    }
}

impl<D: Disk> Taped for Book<D> {
    ghost use Rattle.session_audit.specs.Books.{book_tape};

    type Entry = Turn;

    ghost tape_of = { book_tape };

    fn tape(&self) -> &[Turn] {
        self.tape()
    }
}

/// A kind of work: takes, questions about tags, or questions for values of calculations.
pub trait Kind {
    ghost use Rattle.session_audit.specs.declared.agenda.Item.{Item};
    ghost use Rattle.session_audit.specs.declared.kind.Shown.{Shown};

    /// A row of a worker's file.
    type Row;

    /// An entry of a tape.
    type Entry;

    /// What a row leaves on a tape, and on which, if it is of this kind. The arguments are the number of rows from an
    /// earlier phase, the worker, the number of the row from 1, and the row.
    ghost item_of: { ℕ → ℕ → ℕ → Self.Row → Option Item };

    /// What an entry shows, and of which worker, if it is of this kind.
    ghost shows: { Self.Entry → Option Shown };

    /// Returns the rows of a file that are of this kind. The first `earlier` were the worker's in an earlier phase.
    fn rows(rows: &[Self::Row], earlier: u32) -> Rows<'_>
        ensures { (worker : ℕ) → items_in worker result ≡ numbered (item_of earlier worker) 1 rows.now };

    /// Returns what an entry shows of a worker, if it is of this kind.
    fn shown(entry: &Self::Entry) -> Option<Shown>
        ensures value { result ≡ shows entry.now }
        ensures work { IfSome result (λ s. IsWork s.seen) };

    /// Returns the worker of an entry, if the entry is of this kind.
    fn worker(entry: &Self::Entry) -> Option<u32>
        ensures { result ≡ option_map (λ s. s.worker) (shows entry.now) };

    /// Returns whether an entry shows what the row at a place of an agenda leaves.
    fn is_due(entry: &Self::Entry, agenda: &Agenda<'_>, place: usize) -> bool
        requires within { place < length (items_of agenda.now) }
        requires few { length (items_of agenda.now) < 2 ^ 32 }
        ensures { IsTrue result ↔ IsSomeAnd (shows entry.now)
            (λ s. left_by (items_of agenda.now) place ≡ Some s.seen) };
}

/// The values of collectors, on the tapes of tags.
pub struct Takes;

impl Kind for Takes {
    ghost use Rattle.session_audit.specs.Agendas.{phase_item};
    ghost use Rattle.session_audit.specs.Tapes.{take_of};

    type Row = RawRow;

    type Entry = Entry;

    ghost item_of = { phase_item };

    ghost shows = { take_of };

    fn rows(rows: &[RawRow], earlier: u32) -> Rows<'_> {
        Rows::Takes(rows, earlier)
    }

    fn shown(entry: &Entry) -> Option<Shown> {
        match entry {
            Entry::Take {
                collector,
                row,
                point,
                ..
            } => Some(Shown {
                worker: *collector,
                seen: Seen::Take {
                    collector: *collector,
                    row: *row,
                    point: *point,
                },
            }),
            _ => None,
        }
    }

    fn worker(entry: &Entry) -> Option<u32> {
        match entry {
            Entry::Take { collector, .. } => Some(*collector),
            _ => None,
        }
    }

    fn is_due(entry: &Entry, agenda: &Agenda<'_>, place: usize) -> bool {
        match entry {
            Entry::Take {
                collector,
                row,
                point,
                ..
            } => agenda.is_take(place, *collector, *row, *point),
            _ => false,
        }
    }
}

/// The questions of readers about tags, on the tapes of the tags.
pub struct Asks;

impl Kind for Asks {
    ghost use Rattle.session_audit.specs.Agendas.{ask_item};
    ghost use Rattle.session_audit.specs.Tapes.{ask_of};

    type Row = Query;

    type Entry = Entry;

    ghost item_of = { λ earlier. ask_item };

    ghost shows = { ask_of };

    fn rows(rows: &[Query], _earlier: u32) -> Rows<'_> {
        Rows::Asks(rows)
    }

    fn shown(entry: &Entry) -> Option<Shown> {
        match entry {
            Entry::Ask {
                reader,
                row,
                query,
                ..
            } => Some(Shown {
                worker: *reader,
                seen: Seen::Ask {
                    reader: *reader,
                    row: *row,
                    query: *query,
                },
            }),
            _ => None,
        }
    }

    fn worker(entry: &Entry) -> Option<u32> {
        match entry {
            Entry::Ask { reader, .. } => Some(*reader),
            _ => None,
        }
    }

    fn is_due(entry: &Entry, agenda: &Agenda<'_>, place: usize) -> bool {
        match entry {
            Entry::Ask {
                reader,
                row,
                query,
                ..
            } => agenda.is_ask(place, *reader, *row, query),
            _ => false,
        }
    }
}

/// The questions of readers for values of calculations, on the tapes of groups.
pub struct RowAsks;

impl Kind for RowAsks {
    ghost use Rattle.session_audit.specs.Agendas.{row_item};
    ghost use Rattle.session_audit.specs.GroupTapes.{row_ask_of};

    type Row = Query;

    type Entry = Turn;

    ghost item_of = { λ earlier. row_item };

    ghost shows = { row_ask_of };

    fn rows(rows: &[Query], _earlier: u32) -> Rows<'_> {
        Rows::RowAsks(rows)
    }

    fn shown(turn: &Turn) -> Option<Shown> {
        match turn {
            Turn::Ask {
                reader,
                row,
                calc,
                k,
                ..
            } => Some(Shown {
                worker: *reader,
                seen: Seen::Row {
                    reader: *reader,
                    row: *row,
                    calc: *calc,
                    k: *k,
                },
            }),
            _ => None,
        }
    }

    fn worker(turn: &Turn) -> Option<u32> {
        match turn {
            Turn::Ask { reader, .. } => Some(*reader),
            _ => None,
        }
    }

    fn is_due(turn: &Turn, agenda: &Agenda<'_>, place: usize) -> bool {
        match turn {
            Turn::Ask {
                reader,
                row,
                calc,
                k,
                ..
            } => agenda.is_row_ask(place, *reader, *row, *calc, *k),
            _ => false,
        }
    }
}
