// Finds the rows of workers on the tapes of all cells and books.
ghost use Rattle.std.specs.Prelude.{◌^◌, ◌<◌, ℕ, List, IfErr, OnOk, length};
ghost use Rattle.value_rows.specs.{Query, RawRow};
ghost use Rattle.session_audit.specs.Agendas.{ask_item, phase_item, row_item};
ghost use Rattle.session_audit.specs.Tapes.{ask_of, take_of};
ghost use Rattle.session_audit.specs.Books.{book_tape};
ghost use Rattle.session_audit.specs.Cells.{AreAllFound};
ghost use Rattle.session_audit.specs.GroupTapes.{row_ask_of};
ghost use Rattle.session_audit.specs.Workers.{AreOver, AreTapesFound};
ghost use Rattle.session_audit.specs.Starting.{AreUnfound};
ghost use Rattle.session_audit.specs.Finding.{AreSameRows, IsAskMismatch, IsMismatchAt, IsRowAskMismatch, IsTakeMismatch};

use crate::kind::{Asks, Kind, RowAsks, Takes, Taped};
use crate::progress::Progress;
use crate::walk::{Differs, find};
use disk_model::Disk;
use group_book::Book;
use plant_status::{Place, Status};
use tag_cell::Cell;

/// Finds the rows of collectors on the tapes, tag by tag. It stops at the first take that is not its collector's next
/// row there.
pub fn find_all_takes<D: Disk>(cells: &[Cell<D>], works: &mut [Progress<'_>]) -> Result<(), Status>
    requires few { length cells.now < 2 ^ 32 }
    requires unfound { AreUnfound (length cells.now) works.old }
    ensures found { OnOk result (AreAllFound take_of cells.now works.new) }
    ensures same_rows { AreSameRows works.old works.new }
    ensures over { (earlier tags : ℕ) (files : List (List RawRow)) → AreOver (phase_item earlier) tags files works.old
        → AreOver (phase_item earlier) tags files works.new }
    ensures differs { IfErr result (IsTakeMismatch cells.now works.old) }
{
    match find_all::<Cell<D>, Takes>(cells, works) {
        Ok(()) => Ok(()),
        Err((tag, Differs { place, kept, told })) => Err(Status::Mismatch {
            place: Place::Take { tag, place },
            kept,
            told,
        }),
    }
}

/// Finds the questions of readers about tags on the tapes, tag by tag. It stops at the first one that is not its
/// reader's next question there.
pub fn find_all_asks<D: Disk>(cells: &[Cell<D>], works: &mut [Progress<'_>]) -> Result<(), Status>
    requires few { length cells.now < 2 ^ 32 }
    requires unfound { AreUnfound (length cells.now) works.old }
    ensures found { OnOk result (AreAllFound ask_of cells.now works.new) }
    ensures same_rows { AreSameRows works.old works.new }
    ensures over { (tags : ℕ) (files : List (List Query)) → AreOver ask_item tags files works.old → AreOver ask_item tags files works.new }
    ensures differs { IfErr result (IsAskMismatch cells.now works.old) }
{
    match find_all::<Cell<D>, Asks>(cells, works) {
        Ok(()) => Ok(()),
        Err((tag, Differs { place, kept, told })) => Err(Status::Mismatch {
            place: Place::Ask { tag, place },
            kept,
            told,
        }),
    }
}

/// Finds the questions of readers for values of calculations on the groups' tapes, group by group. It stops at the
/// first one that is not its reader's next question there.
pub fn find_all_row_asks<D: Disk>(
    books: &[Book<D>],
    works: &mut [Progress<'_>],
) -> Result<(), Status>
    requires few { length books.now < 2 ^ 32 }
    requires unfound { AreUnfound (length books.now) works.old }
    ensures found { OnOk result (AreTapesFound book_tape row_ask_of books.now works.new) }
    ensures same_rows { AreSameRows works.old works.new }
    ensures over { (groups : ℕ) (files : List (List Query)) → AreOver row_item groups files works.old
        → AreOver row_item groups files works.new }
    ensures differs { IfErr result (IsRowAskMismatch books.now works.old) }
{
    match find_all::<Book<D>, RowAsks>(books, works) {
        Ok(()) => Ok(()),
        Err((group, Differs { place, kept, told })) => Err(Status::Mismatch {
            place: Place::RowAsk { group, place },
            kept,
            told,
        }),
    }
}

// Finds the entries of one kind on the tapes. If an entry is not its worker's next row, it stops and returns the entry
// with its unit.
fn find_all<T: Taped, K: Kind<Entry = T::Entry>>(
    units: &[T],
    works: &mut [Progress<'_>],
) -> Result<(), (u32, Differs)>
    requires few { length units.now < 2 ^ 32 }
    requires unfound { AreUnfound (length units.now) works.old }
    ensures found { OnOk result (AreTapesFound T.tape_of K.shows units.now works.new) }
    ensures same_rows { AreSameRows works.old works.new }
    ensures differs { IfErr result (λ no. IsMismatchAt T.tape_of K.shows units.now works.old no.0 no.1.place no.1.kept no.1.told) }
{
    for unit in 0..units.len() {
        if let Err(differs) = find::<K>(unit as u32, units[unit].tape(), works) {
            return Err((unit as u32, differs));
        }
    }
    Ok(())
}
