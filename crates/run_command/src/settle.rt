// The end of a phase: after its workers have ended, what they left undone is done.
ghost use Rattle.calc_refresh.specs.{lists_of};
ghost use Rattle.collector_pool.specs.declared.note.Ending.TheVariants.{WantOfMemory as NoMemory};
ghost use Rattle.run_command.specs.Endings.{HaveAllEnded, IsStop};
ghost use Rattle.run_command.specs.Refusals.{AdmitsForeign, IsFindingRefusal, IsMakingRefusal, IsOfOpening, IsRefused, IsSettlingRefusal, notes_of};
ghost use Rattle.run_command.specs.Steps.{AreBegun, AreFoundAll, AreGivenFor, AreInputsFor, AreOverAll, AreReady, IsBookKept, IsCellKept, AreStepsMade};
ghost use Rattle.session_audit.specs.BookOpenings.{IsBookAsKept};
ghost use Rattle.session_audit.specs.{IsCellAsKept, AreEach, AreUnfound};
ghost use Rattle.session_audit.specs.Openings.{AreAsKept};
ghost use Rattle.session_audit.specs.Pulls.{ArePulled};
ghost use Rattle.std.specs.Prelude.{All, Any, IfErr, MatchBool, OnOk, is_ok, length, true, vec_len, ◌<◌, ◌^◌, ◌≡◌, ◌≢◌};

use crate::work::Given;
use collector_pool::{Ending, WorkerNote};
use disk_model::Disk;
use group_book::Book;
use plant_status::Status;
use session_audit::{
    Kept, KeptGroup, Progress, ask_missing, ask_rows_missing, collectors_of, commit_cells,
    compare_all, compare_pulls, compare_turns, find_all_asks, find_all_row_asks, find_all_takes,
    readers_of, refresh_missing, row_askers_of, take_missing,
};
use std::alloc::Global;
use std::marker::Brand;
use std::sync::Wait;
use std::sync::ledger::{Blank, Ledger};
use tag_cell::Cell;
use trend_num::{Steps, WantOfMemory};

// Compares the cells and books with the copies of their openings, then does what the workers left undone.
pub(crate) fn settle<D: Disk, R: Wait>(
    rt: &R,
    alloc: Global,
    cells: &mut Vec<Cell<D>>,
    books: &mut Vec<Book<D>>,
    known: &[Kept],
    known_groups: &[KeptGroup],
    given: &Given,
    notes: &Result<Vec<WorkerNote>, WantOfMemory>,
) -> Result<(), Status>
    requires few_cells { vec_len cells.old < 2 ^ 32 }
    requires few_books { vec_len books.old < 2 ^ 32 }
    requires known_are { length known.now ≡ vec_len cells.old }
    requires groups_are { length known_groups.now ≡ vec_len books.old }
    requires given { AreGivenFor (vec_len cells.old) (vec_len books.old) given.now }
    requires inputs { AreInputsFor (vec_len cells.old) (lists_of given.now.inputs.items) known_groups.now }
    ensures made { OnOk result (AreStepsMade given.now cells.new.items books.new.items) }
    ensures pulled { OnOk result (ArePulled (lists_of given.now.inputs.items) cells.new.items books.new.items) }
    ensures as_many_cells { vec_len cells.new ≡ vec_len cells.old }
    ensures as_many_books { vec_len books.new ≡ vec_len books.old }
    ensures ran { (AdmitsForeign result → ⊥) → is_ok notes.now ≡ true }
    ensures ended { OnOk result (HaveAllEnded (notes_of notes.now)) }
    ensures begun { (AdmitsForeign result → ⊥) → AreBegun given.now cells.new.items books.new.items }
    ensures known { (IsOfOpening result → ⊥) → AreAsKept IsCellAsKept cells.new.items known.now }
    ensures known_groups { (IsOfOpening result → ⊥) → AreAsKept IsBookAsKept books.new.items known_groups.now }
    ensures refused { IfErr result (IsSettlingRefusal given.now (notes_of notes.now) known.now known_groups.now cells.new.items books.new.items) }
{
    compare_all(cells.as_slice(), known)?;
    compare_all(books.as_slice(), known_groups)?;
    match notes {
        Ok(notes) => complete_all(
            rt,
            alloc,
            cells.as_mut_slice(),
            books.as_mut_slice(),
            given,
            notes,
        ),
        Err(_) => Err(Status::WantOfMemory),
    }
}

// Does what the workers left undone on cells and books whose openings agree with the copies.
fn complete_all<D: Disk, R: Wait>(
    rt: &R,
    alloc: Global,
    cells: &mut [Cell<D>],
    books: &mut [Book<D>],
    given: &Given,
    notes: &[WorkerNote],
) -> Result<(), Status>
    requires ready { AreReady given.now cells.old books.old }
    ensures made { OnOk result (AreStepsMade given.now cells.new books.new) }
    ensures pulled { OnOk result (ArePulled (lists_of given.now.inputs.items) cells.new books.new) }
    ensures ended { OnOk result (HaveAllEnded notes.now) }
    ensures begun { (AdmitsForeign result → ⊥) → AreBegun given.now cells.new books.new }
    ensures cells { AreEach IsCellKept cells.old cells.new }
    ensures books { AreEach IsBookKept books.old books.new }
    ensures refused { IfErr result (IsRefused given.now notes.now cells.new books.new) }
{
    let (tags, groups) = (cells.len() as u32, books.len() as u32);
    let Ok(mut takes) = collectors_of(alloc, &given.work.collectors, given.work.earlier, tags)
    else {
        return Err(Status::WantOfMemory);
    };
    let Ok(mut asks) = readers_of(alloc, &given.work.readers, tags) else {
        return Err(Status::WantOfMemory);
    };
    let Ok(mut row_asks) = row_askers_of(alloc, &given.work.readers, groups) else {
        return Err(Status::WantOfMemory);
    };
    complete::<Brand, D, R>(
        rt,
        alloc,
        cells,
        books,
        given,
        notes,
        &mut takes,
        &mut asks,
        &mut row_asks,
        Blank::new(1),
    )
}

// Compares the tapes of the cells and books with the work, then does what they lack. Of a worker's note it uses only
// that its pass stopped it, or that it found no memory. Steps are counted on the ledger of the blank.
fn complete<L: Ledger, D: Disk, R: Wait>(
    rt: &R,
    alloc: Global,
    cells: &mut [Cell<D>],
    books: &mut [Book<D>],
    given: &Given,
    notes: &[WorkerNote],
    takes: &mut [Progress<'_>],
    asks: &mut [Progress<'_>],
    row_asks: &mut [Progress<'_>],
    blank: Blank,
) -> Result<(), Status>
    requires name { blank.name ≡ L.name }
    requires parts { blank.parts ≡ L.parts }
    requires some { 0 < L.parts }
    requires ready { AreReady given.now cells.old books.old }
    requires over { AreOverAll (length cells.old) (length books.old) given.now takes.old asks.old row_asks.old }
    requires no_takes { AreUnfound (length cells.old) takes.old }
    requires no_asks { AreUnfound (length cells.old) asks.old }
    requires no_row_asks { AreUnfound (length books.old) row_asks.old }
    ensures made { OnOk result (AreStepsMade given.now cells.new books.new) }
    ensures pulled { OnOk result (ArePulled (lists_of given.now.inputs.items) cells.new books.new) }
    ensures ended { OnOk result (HaveAllEnded notes.now) }
    ensures begun { (AdmitsForeign result → ⊥) → AreBegun given.now cells.new books.new }
    ensures cells { AreEach IsCellKept cells.old cells.new }
    ensures books { AreEach IsBookKept books.old books.new }
    ensures refused { IfErr result (IsRefused given.now notes.now cells.new books.new) }
{
    let mut steps: Steps<L> = Steps::new(blank);
    find_all(cells, books, given, takes, asks, row_asks)?;
    check_endings(notes)?;
    make_up(
        rt, alloc, cells, books, given, takes, asks, row_asks, &mut steps,
    )?;
    compare_pulls(cells, books, &given.inputs)
}

// Finds the rows of the workers on the tapes.
fn find_all<D: Disk>(
    cells: &[Cell<D>],
    books: &[Book<D>],
    given: &Given,
    takes: &mut [Progress<'_>],
    asks: &mut [Progress<'_>],
    row_asks: &mut [Progress<'_>],
) -> Result<(), Status>
    requires ready { AreReady given.now cells.now books.now }
    requires over { AreOverAll (length cells.now) (length books.now) given.now takes.old asks.old row_asks.old }
    requires no_takes { AreUnfound (length cells.now) takes.old }
    requires no_asks { AreUnfound (length cells.now) asks.old }
    requires no_row_asks { AreUnfound (length books.now) row_asks.old }
    ensures over { OnOk result (AreOverAll (length cells.now) (length books.now) given.now takes.new asks.new row_asks.new) }
    ensures found { OnOk result (AreFoundAll given.now cells.now books.now takes.new asks.new row_asks.new) }
    ensures begun { OnOk result (AreBegun given.now cells.now books.now) }
    ensures differs { IfErr result (IsFindingRefusal given.now cells.now books.now) }
{
    find_all_takes(cells, takes)?;
    find_all_asks(cells, asks)?;
    find_all_row_asks(books, row_asks)?;
    compare_turns(books, &given.turns)
}

// Does what the tapes lack: takes, questions, commits, and turns of the groups.
fn make_up<D: Disk, R: Wait, L: Ledger>(
    rt: &R,
    alloc: Global,
    cells: &mut [Cell<D>],
    books: &mut [Book<D>],
    given: &Given,
    takes: &mut [Progress<'_>],
    asks: &mut [Progress<'_>],
    row_asks: &mut [Progress<'_>],
    steps: &mut Steps<L>,
) -> Result<(), Status>
    requires ready { AreReady given.now cells.old books.old }
    requires over { AreOverAll (length cells.old) (length books.old) given.now takes.old asks.old row_asks.old }
    requires found { AreFoundAll given.now cells.old books.old takes.old asks.old row_asks.old }
    ensures made { OnOk result (AreStepsMade given.now cells.new books.new) }
    ensures begun { AreBegun given.now cells.new books.new }
    ensures cells { AreEach IsCellKept cells.old cells.new }
    ensures books { AreEach IsBookKept books.old books.new }
    ensures refused { IfErr result (IsMakingRefusal given.now cells.new books.new) }
{
    let Given {
        work,
        rooms,
        turns,
        inputs,
        ..
    } = given;
    take_missing(rt, cells, &work.collectors, work.earlier, rooms, takes)?;
    let (Ok(()), Ok(())) = (
        ask_missing(cells, &work.readers, asks),
        ask_rows_missing(books, &work.readers, row_asks),
    ) else {
        return Err(Status::WantOfMemory);
    };
    commit_cells(cells)?;
    refresh_missing(alloc, cells, books, inputs, turns, steps)
}

// Checks that no worker was stopped by its pass, then that none found no memory. Reports the first that was stopped.
fn check_endings(notes: &[WorkerNote]) -> Result<(), Status>
    ensures ended { OnOk result (HaveAllEnded notes.now) }
    ensures stopped { IfErr result (IsStop notes.now) }
{
    if let Some(place) = notes.iter().position(|note| note.ending == Ending::Halted) {
        return Err(Status::Halted {
            worker: notes[place].worker,
        });
    }
    if any_wanted(notes) {
        return Err(Status::WantOfMemory);
    }
    Ok(())
}

// Returns whether a worker found no memory.
fn any_wanted(notes: &[WorkerNote]) -> bool
    ensures { MatchBool result (Any (λ n. n.ending ≡ NoMemory) notes.now) (All (λ n. n.ending ≢ NoMemory) notes.now) }
{
    for place in 0..notes.len() {
        if let Ending::WantOfMemory = notes[place].ending {
            return true;
        }
    }
    false
}
