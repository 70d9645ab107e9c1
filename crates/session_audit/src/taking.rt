// Takes the rows of collectors that tapes lack.
ghost use Rattle.std.specs.Prelude.{◌≡◌, ℕ, ◌<◌, ◌≤◌, List, All, IfErr, OnOk, length, slice_index, slice_index_or};
ghost use Rattle.calc_refresh.specs.{lists_of};
ghost use Rattle.session_audit.specs.Agendas.{phase_item};
ghost use Rattle.session_audit.specs.Found.{Reached};
ghost use Rattle.session_audit.specs.Tapes.{ask_of, take_of};
ghost use Rattle.collector_pool.specs.{IsRowOf};
ghost use Rattle.session_audit.specs.Cells.{AreAllBegun, AreAllFound, AreAllShown, AreLonger, IsTakeEntry};
ghost use Rattle.session_audit.specs.Workers.{AreOver};
ghost use Rattle.session_audit.specs.CellRefusals.{IsTakeRefusal, tag_rows, take_status, takes_mismatch};
ghost use Rattle.tag_cell.specs.{taken, ToldCell};

use crate::adding::{Adding, add_missing};
use crate::agenda::number_in;
use crate::progress::Progress;
use disk_model::Disk;
use plant_status::{Place, Seen, Status, Unit, What};
use std::marker::PhantomData;
use std::sync::Wait;
use tag_cell::{Cell, Entry, TakeNo};
use value_rows::RawRow;

/// Takes each row of the collectors that the tape of its tag lacks, in the order of the files. The first `earlier` rows
/// of each collector are those of an earlier phase. It stops at the first row that is refused. Even then each tape has
/// of each collector the first of its rows, and no other take. `rooms` has the number of the files' rows for each tag.
pub fn take_missing<D: Disk, R: Wait>(
    rt: &R,
    cells: &mut [Cell<D>],
    files: &[Vec<RawRow>],
    earlier: u32,
    rooms: &[u32],
    works: &mut [Progress<'_>],
) -> Result<(), Status>
    requires rooms { length rooms.now ≡ length cells.old }
    requires over { AreOver (phase_item earlier) (length cells.old) (lists_of files.now) works.old }
    requires values { All (λ rows. All (IsRowOf (length cells.old)) rows.items) files.now }
    requires found { AreAllFound take_of cells.old works.old }
    requires counted { (tag : ℕ) → tag < length rooms.now → slice_index rooms.now tag ≡ tag_rows tag (lists_of files.now) }
    ensures shown { OnOk result (AreAllShown take_of (phase_item earlier) (lists_of files.now) cells.new) }
    ensures begun { AreAllBegun take_of (phase_item earlier) (lists_of files.now) cells.new }
    ensures asks { (asked : List Reached) → AreAllFound ask_of cells.old asked → AreAllFound ask_of cells.new asked }
    ensures longer { AreLonger IsTakeEntry cells.old cells.new }
    ensures refused { IfErr result (IsTakeRefusal (phase_item earlier) (lists_of files.now) cells.new) }
{
    let how = Takings {
        rt,
        earlier,
        cells: PhantomData,
    };
    match add_missing::<Takings<'_, D, R>>(&how, cells, files, works) {
        Ok(()) => Ok(()),
        Err((tag, no)) => {
            let takes = takes_on(cells, tag);
            Err(take_status(tag, takes, rooms[tag as usize], no))
        }
    }
}

// Takes values of collectors on the cells of their tags. The first `earlier` rows of each collector are those of an
// earlier phase.
#[derive(Drop)]
struct Takings<'a, D: Disk, R: Wait> {
    rt: &'a R,
    earlier: u32,
    cells: PhantomData<D>,
}

impl<'a, D: Disk, R: Wait> Adding for Takings<'a, D, R> {
    ghost use Rattle.std.specs.Prelude.{◌≡◌, Some};
    ghost use Rattle.trend_num.specs.{InRange};
    ghost use Rattle.tag_cell.specs.{take_refusal};
    ghost use Rattle.session_audit.specs.Agendas.{phase_item};
    ghost use Rattle.session_audit.specs.Cells.{IsLonger, IsTakeEntry};
    ghost use Rattle.session_audit.specs.Tapes.{take_of};
    ghost use Rattle.session_audit.specs.Gains.{longer_refl, longer_trans};

    type Unit = Cell<D>;

    type Row = RawRow;

    type No = TakeNo;

    ghost shows = { take_of };

    ghost item_of = { λ how. phase_item how.earlier };

    ghost fits = { λ row. InRange row.point };

    ghost gains = { IsLonger IsTakeEntry };

    ghost refuses = { λ cell no. take_refusal cell ≡ Some no };

    fn add(
        &self,
        cell: &mut Cell<D>,
        row: &RawRow,
        collector: u32,
        number: u64,
    ) -> Result<(), TakeNo> {
        let number = number_in(self.earlier, number);
        cell.take(self.rt, collector, number, row.point)?;
        Ok(())
    }

    ghost gains_nothing = { longer_refl IsTakeEntry };

    ghost gains_twice = { longer_trans IsTakeEntry };
}

// Returns how many takes the tape of a tag has.
fn takes_on<D: Disk>(cells: &[Cell<D>], tag: u32) -> usize
    requires known { tag < length cells.now }
    ensures { (d : ToldCell D) → result ≡ length (taken (slice_index_or cells.now tag d).tape) }
{
    count_takes(cells[tag as usize].tape())
}

// Returns how many takes a tape has.
fn count_takes(tape: &[Entry]) -> usize
    ensures count { result ≡ length (taken tape.now) }
    ensures within { result ≤ length tape.now }
{
    tape.iter()
        .filter(|entry| matches!(entry, Entry::Take { .. }))
        .count()
}

// Returns the status of a tag that has so many takes, of so many rows.
pub(crate) fn takes_mismatch(tag: u32, takes: u64, rows: u32) -> Status
    ensures { result ≡ takes_mismatch tag takes rows }
{
    Status::Mismatch {
        place: Place::Takes { tag },
        kept: Seen::Number(takes),
        told: Seen::Number(u64::from(rows)),
    }
}

// Returns the status of a refused row, of a tag with so many takes on its tape and so many rows in the files.
fn take_status(tag: u32, takes: usize, rows: u32, no: TakeNo) -> Status
    ensures { result ≡ take_status tag takes rows no }
{
    match no {
        TakeNo::Broken => Status::DeviceFault {
            unit: Unit::Tag(tag),
        },
        TakeNo::RoomFull { .. } => takes_mismatch(tag, takes as u64, rows),
        TakeNo::Full { records } => Status::Limit {
            what: What::Records,
            number: u64::from(records),
        },
    }
}
