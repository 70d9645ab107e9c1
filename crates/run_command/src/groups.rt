// The groups of a session, each under its lock, as its workers call them.
ghost use Rattle.std.specs.Prelude.{◌<◌, ◌≡◌};

use collector_pool::{GroupTurns, TurnNo};
use disk_model::Disk;
use group_book::{Book, RefreshNo, SaveNo};
use std::marker::Brand;
use std::sync::ledger::{Blank, Ledger};
use std::sync::{Mutex, Wait};
use tag_cell::Cell;
use trend_num::{CalcValue, Steps};

// The books of all groups, each under its lock.
pub(crate) struct Groups<D: Disk> {
    pub(crate) books: Vec<Mutex<Book<D>>>,
}

impl<D: Disk + Send> GroupTurns<D> for Groups<D> {
    ghost use Rattle.std.specs.Prelude.{vec_len};

    ghost groups = { λ g. vec_len g.books };

    fn refresh<R: Wait>(&self, rt: &R, group: u32, cells: &[Mutex<Cell<D>>]) -> Result<(), TurnNo> {
        let mut book = self.books[group as usize].lock(rt);
        refresh_on::<Brand, R, D>(rt, &mut book, cells, Blank::new(1))?;
        match book.save() {
            Ok(()) => Ok(()),
            Err(no) => Err(turn_of_save(no)),
        }
    }

    fn ask<R: Wait>(
        &self,
        rt: &R,
        reader: u32,
        row: u64,
        group: u32,
        calc: u32,
        k: u64,
    ) -> Result<(u64, Option<CalcValue>), TurnNo> {
        let mut book = self.books[group as usize].lock(rt);
        match book.ask(reader, row, calc, k) {
            Ok((receipt, value)) => Ok((receipt.place, value)),
            Err(_) => Err(TurnNo::WantOfMemory),
        }
    }
}

// Refreshes a book. Steps are counted on the ledger of a blank.
fn refresh_on<L: Ledger, R: Wait, D: Disk>(
    rt: &R,
    book: &mut Book<D>,
    cells: &[Mutex<Cell<D>>],
    blank: Blank,
) -> Result<(), TurnNo>
    requires name { blank.name ≡ L.name }
    requires parts { blank.parts ≡ L.parts }
    requires some { 0 < L.parts }
{
    let mut steps: Steps<L> = Steps::new(blank);
    match book.refresh(rt, cells, &mut steps) {
        Ok(_) => Ok(()),
        Err(no) => Err(turn_of_refresh(no)),
    }
}

// Returns the refusal of a turn whose refresh was refused.
fn turn_of_refresh(no: RefreshNo) -> TurnNo {
    match no {
        RefreshNo::Ahead {
            input,
            version,
            records,
        } => TurnNo::Ahead {
            input,
            version,
            records,
        },
        RefreshNo::CellLimit { cells } => TurnNo::CellLimit { cells },
        RefreshNo::CopyLimit { records } => TurnNo::CopyLimit { records },
        RefreshNo::WantOfMemory => TurnNo::WantOfMemory,
    }
}

// Returns the refusal of a turn whose save was refused.
fn turn_of_save(no: SaveNo) -> TurnNo {
    match no {
        SaveNo::Broken => TurnNo::Broken,
        SaveNo::DeviceFault => TurnNo::DeviceFault,
        SaveNo::WantOfMemory => TurnNo::WantOfMemory,
    }
}
