// Two phases of a session over the same cells and books.
ghost use Rattle.std.specs.Prelude.{◌≡◌, ◌⊎◌, ◌++◌, [], ◌<◌, ◌≤◌, ◌+◌, ◌^◌, Err, IfErr, OnOk, length, vec_capacity, vec_len};
ghost use Rattle.std.specs.List.{AllZip};
ghost use Rattle.calc_refresh.specs.{lists_of};
ghost use Rattle.session_audit.specs.{HaveFirstPulls, IsFirstPullMismatch, AreInputs};
ghost use Rattle.session_audit.specs.Pulls.{ArePulled};
ghost use Rattle.run_command.specs.Endings.{HaveAllEnded};
ghost use Rattle.run_command.specs.Refusals.{AdmitsForeign, IsOfOpening};
ghost use Rattle.run_command.specs.Runs.{IsContinued, IsContinuedGroup};
ghost use Rattle.run_command.specs.Steps.{AreBegun, AreGivenFor, AreStepsMade};
ghost use Rattle.run_command.specs.DrillPhases.{AreNotesBehind, AreNotesOfAllBehind, AreNotesOfAllBoth, AreNotesOfBoth, IsUndoneBehind, IsUndoneOfBoth};

use crate::phase::{EndedPhase, hold_phase};
use crate::work::Given;
use collector_pool::{Work, WorkerNote};
use disk_model::Disk;
use group_book::Book;
use plant_status::{Passes, Status};
use session_audit::compare_first_pulls;
use snapshot_table::Board;
use std::alloc::Global;
use std::sync::Wait;
use std::thread::Threads;
use tag_cell::Cell;

// Runs the first phase of a session over cells and books that are open. If it is done, runs the second one. Neither has
// readers. The notes are those of the workers of the first phase, then those of the second. Once both are done, each tag is
// compared: when a group first pulled from it, as many takes had to be acknowledged as it has rows in the first phase.
pub(crate) fn hold_both<D: Disk + Send, P: Passes, R: Threads + Wait + Sync>(
    rt: &R,
    alloc: Global,
    cells: Vec<Cell<D>>,
    books: Vec<Book<D>>,
    board: &Board,
    first: &Given,
    second: &Given,
    passes: &mut P,
) -> EndedPhase<D>
    requires few_cells { vec_len cells < 2 ^ 32 }
    requires few_books { vec_len books < 2 ^ 32 }
    requires first { AreGivenFor (vec_len cells) (vec_len books) first.now }
    requires second { AreGivenFor (vec_len cells) (vec_len books) second.now }
    requires inputs { AreInputs (vec_len cells) (lists_of first.now.inputs.items) books.items }
    requires same_inputs { lists_of second.now.inputs.items ≡ lists_of first.now.inputs.items }
    requires board { vec_len cells ≤ length board.now }
    requires no_readers { first.now.work.readers.items ≡ [] }
    requires no_more_readers { second.now.work.readers.items ≡ [] }
    ensures cells { vec_len result.cells ≡ vec_len cells }
    ensures books { vec_len result.books ≡ vec_len books }
    ensures notes { AreNotesOfBoth first.now.work second.now.work (P.stops passes.old) (P.stops passes.new) result.notes.items }

    // If all is done.
    ensures ran { OnOk result.answer (AreNotesOfAllBoth first.now.work second.now.work result.notes.items) }
    ensures ended { OnOk result.answer (HaveAllEnded result.notes.items) }
    ensures made { OnOk result.answer (AreStepsMade second.now result.cells.items result.books.items) }
    ensures pulled { OnOk result.answer (ArePulled (lists_of second.now.inputs.items) result.cells.items result.books.items) }
    ensures apart { OnOk result.answer (HaveFirstPulls first.now.rooms.items result.cells.items) }

    // Unless the answer reports that an opening has changed.
    ensures same_cells { (IsOfOpening result.answer → ⊥) → AllZip IsContinued cells.items result.cells.items }
    ensures same_books { (IsOfOpening result.answer → ⊥) → AllZip IsContinuedGroup books.items result.books.items }

    // Unless the answer admits a take of no file.
    ensures begun { (AdmitsForeign result.answer → ⊥) → AreBegun first.now result.cells.items result.books.items
        ⊎ AreBegun second.now result.cells.items result.books.items }

    // If not all is done, why.
    ensures undone { IfErr result.answer (IsUndoneOfBoth first.now second.now cells.items books.items result.cells.items
        result.books.items result.notes.items) }
{
    let EndedPhase {
        cells,
        books,
        notes,
        answer,
    } = hold_phase(
        rt,
        alloc,
        cells,
        books,
        board,
        Vec::new(alloc),
        first,
        passes,
    );
    match answer {
        Ok(()) => {
            let EndedPhase {
                cells,
                books,
                notes,
                answer,
            } = go_on(rt, alloc, cells, books, notes, board, second, passes);
            let answer = compare_phases(answer, &cells, &first.rooms);
            EndedPhase {
                cells,
                books,
                notes,
                answer,
            }
        }
        Err(why) => EndedPhase {
            cells,
            books,
            notes,
            answer: Err(why),
        },
    }
}

// Runs the second phase, over the cells and books that the first has left. If there is no memory for the notes of its
// workers, none of them begins.
fn go_on<D: Disk + Send, P: Passes, R: Threads + Wait + Sync>(
    rt: &R,
    alloc: Global,
    cells: Vec<Cell<D>>,
    books: Vec<Book<D>>,
    mut notes: Vec<WorkerNote>,
    board: &Board,
    second: &Given,
    passes: &mut P,
) -> EndedPhase<D>
    requires few_cells { vec_len cells < 2 ^ 32 }
    requires few_books { vec_len books < 2 ^ 32 }
    requires second { AreGivenFor (vec_len cells) (vec_len books) second.now }
    requires inputs { AreInputs (vec_len cells) (lists_of second.now.inputs.items) books.items }
    requires board { vec_len cells ≤ length board.now }
    requires no_readers { second.now.work.readers.items ≡ [] }
    requires ended { HaveAllEnded notes.items }
    ensures ran { OnOk result.answer (AreNotesOfAllBehind second.now.work notes.items result.notes.items) }
    ensures begun { (AdmitsForeign result.answer → ⊥) → AreBegun second.now result.cells.items result.books.items }
    ensures cells { vec_len result.cells ≡ vec_len cells }
    ensures books { vec_len result.books ≡ vec_len books }
    ensures notes { AreNotesBehind second.now.work (P.stops passes.old) (P.stops passes.new) notes.items result.notes.items }
    ensures ended { OnOk result.answer (HaveAllEnded result.notes.items) }
    ensures made { OnOk result.answer (AreStepsMade second.now result.cells.items result.books.items) }
    ensures pulled { OnOk result.answer (ArePulled (lists_of second.now.inputs.items) result.cells.items result.books.items) }
    ensures same_cells { (IsOfOpening result.answer → ⊥) → AllZip IsContinued cells.items result.cells.items }
    ensures same_books { (IsOfOpening result.answer → ⊥) → AllZip IsContinuedGroup books.items result.books.items }
    ensures undone { IfErr result.answer (IsUndoneBehind second.now cells.items books.items notes.items
        result.cells.items result.books.items result.notes.items) }
{
    let Work {
        collectors,
        refreshers,
        ..
    } = &second.work;
    if notes.reserve(collectors.len() + refreshers.len()).is_err() {
        return EndedPhase {
            cells,
            books,
            notes,
            answer: Err(Status::WantOfMemory),
        };
    }
    let EndedPhase {
        cells,
        books,
        notes: more,
        answer,
    } = hold_phase(
        rt,
        alloc,
        cells,
        books,
        board,
        Vec::new(alloc),
        second,
        passes,
    );
    join(&mut notes, more);
    EndedPhase {
        cells,
        books,
        notes,
        answer,
    }
}

// Returns the answer of two phases. If they are done, it compares two numbers for each tag: the takes that were acknowledged
// when a group first pulled from it, and its rows in the first phase.
fn compare_phases<D: Disk>(
    answer: Result<(), Status>,
    cells: &[Cell<D>],
    rows: &[u32],
) -> Result<(), Status>
    requires few { length cells.now < 2 ^ 32 }
    requires rows { length rows.now ≡ length cells.now }
    ensures undone { IfErr answer (λ why. result ≡ Err why) }
    ensures apart { OnOk result (HaveFirstPulls rows.now cells.now) }
    ensures differs { OnOk answer (IfErr result (IsFirstPullMismatch rows.now cells.now)) }
{
    answer?;
    compare_first_pulls(cells, rows)
}

// Appends notes to others, for which there is room.
fn join(notes: &mut Vec<WorkerNote>, more: Vec<WorkerNote>)
    requires room { vec_len notes.old + vec_len more ≤ vec_capacity notes.old }
    ensures { notes.new.items ≡ notes.old.items ++ more.items }
{
    let mut rest = more.into_iter();
    while let Some(note) = rest.next() {
        notes.push_reserved(note);
    }
    rest.destroy_empty();
}
