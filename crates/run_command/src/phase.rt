// One phase of a session, over cells and books that are open.
ghost use Rattle.calc_refresh.specs.{lists_of};
ghost use Rattle.collector_pool.specs.{AreNotesOf, stops_with, IsWorkOf};
ghost use Rattle.run_command.specs.Endings.{HaveAllEnded};
ghost use Rattle.run_command.specs.Refusals.{AdmitsForeign, IsOfOpening, IsSettlingRefusal, notes_of};
ghost use Rattle.run_command.specs.Rooms.{HasRoomFor};
ghost use Rattle.run_command.specs.Runs.{IsContinued, IsContinuedGroup, IsUndone};
ghost use Rattle.run_command.specs.Sessions.{AreNotes, AreNotesOfAll};
ghost use Rattle.run_command.specs.Steps.{AreBegun, AreGivenFor, AreInputsFor, AreStepsMade};
ghost use Rattle.session_audit.specs.BookOpenings.{IsBookAsKept, IsBookCopied};
ghost use Rattle.session_audit.specs.{IsCellAsKept, IsCellCopied, AreInputs};
ghost use Rattle.session_audit.specs.Openings.{AreAsKept};
ghost use Rattle.session_audit.specs.Pulls.{ArePulled};
ghost use Rattle.snapshot_table.specs.{LooksAt};
ghost use Rattle.std.specs.List.{AllZip};
ghost use Rattle.std.specs.Prelude.{All, Err, IfErr, IfOk, OnErr, OnOk, [], length, vec_capacity, vec_len, ⊤, ◌<◌, ◌^◌, ◌≡◌, ◌≤◌};

use crate::groups::Groups;
use crate::settle::settle;
use crate::work::Given;
use collector_pool::{Work, WorkerNote, run_session};
use disk_model::Disk;
use group_book::Book;
use plant_status::{Passes, Status};
use session_audit::{Kept, KeptGroup, copies_of};
use snapshot_table::{Board, Looker};
use std::alloc::Global;
use std::sync::{Mutex, Wait};
use std::thread::Threads;
use tag_cell::Cell;
use trend_num::WantOfMemory;

// Runs the workers of a phase at the same time over cells and books that are open, then does what they left undone.
// Without memory no worker begins.
pub(crate) fn hold_phase<D: Disk + Send, P: Passes, R: Threads + Wait + Sync>(
    rt: &R,
    alloc: Global,
    cells: Vec<Cell<D>>,
    books: Vec<Book<D>>,
    board: &Board,
    lookers: Vec<Looker>,
    given: &Given,
    passes: &mut P,
) -> EndedPhase<D>
    requires few_cells { vec_len cells < 2 ^ 32 }
    requires few_books { vec_len books < 2 ^ 32 }
    requires given { AreGivenFor (vec_len cells) (vec_len books) given.now }
    requires inputs { AreInputs (vec_len cells) (lists_of given.now.inputs.items) books.items }
    requires board { vec_len cells ≤ length board.now }
    requires lookers { vec_len lookers ≡ vec_len given.now.work.readers }
    requires looks { All (LooksAt board.now) lookers.items }
    ensures cells { vec_len result.cells ≡ vec_len cells }
    ensures books { vec_len result.books ≡ vec_len books }
    ensures notes { AreNotes given.now.work (P.stops passes.old) (P.stops passes.new) result.notes.items }

    // If all is done.
    ensures ended { OnOk result.answer (HaveAllEnded result.notes.items) }
    ensures made { OnOk result.answer (AreStepsMade given.now result.cells.items result.books.items) }
    ensures pulled { OnOk result.answer (ArePulled (lists_of given.now.inputs.items) result.cells.items result.books.items) }

    // Unless the answer reports that an opening has changed.
    ensures same_cells { (IsOfOpening result.answer → ⊥) → AllZip IsContinued cells.items result.cells.items }
    ensures same_books { (IsOfOpening result.answer → ⊥) → AllZip IsContinuedGroup books.items result.books.items }

    // Unless the answer admits a take or a question of no file.
    ensures ran { (AdmitsForeign result.answer → ⊥) → AreNotesOfAll given.now.work result.notes.items }
    ensures begun { (AdmitsForeign result.answer → ⊥) → AreBegun given.now result.cells.items result.books.items }

    // If not all is done, why.
    ensures undone { IfErr result.answer (IsUndone given.now cells.items books.items result.cells.items result.books.items
        result.notes.items) }
{
    match make_ready(alloc, &cells, &books) {
        Ok(ready) => hold(
            rt, alloc, cells, books, ready, board, lookers, given, passes,
        ),
        Err(_) => unready(alloc, cells, books),
    }
}

// Returns a phase in which no worker began, for want of memory.
fn unready<D: Disk>(alloc: Global, cells: Vec<Cell<D>>, books: Vec<Book<D>>) -> EndedPhase<D>
    ensures cells { result.cells ≡ cells }
    ensures books { result.books ≡ books }
    ensures notes { result.notes.items ≡ [] }
    ensures answer { result.answer ≡ Err Status.WantOfMemory }
{
    EndedPhase {
        cells,
        books,
        notes: Vec::new(alloc),
        answer: Err(Status::WantOfMemory),
    }
}

// A phase of a session at its end: its cells and books, the notes of its workers, and how it ended.
pub(crate) struct EndedPhase<D: Disk> {
    pub(crate) cells: Vec<Cell<D>>,
    pub(crate) books: Vec<Book<D>>,
    /// Empty if no worker began.
    pub(crate) notes: Vec<WorkerNote>,
    pub(crate) answer: Result<(), Status>,
}

// Runs a phase over these cells and books, and settles it.
pub(crate) fn hold<D: Disk + Send, P: Passes, R: Threads + Wait + Sync>(
    rt: &R,
    alloc: Global,
    cells: Vec<Cell<D>>,
    books: Vec<Book<D>>,
    ready: Ready<D>,
    board: &Board,
    lookers: Vec<Looker>,
    given: &Given,
    passes: &mut P,
) -> EndedPhase<D>
    requires few_cells { vec_len cells < 2 ^ 32 }
    requires few_books { vec_len books < 2 ^ 32 }
    requires known_are { vec_len ready.tags ≡ vec_len cells }
    requires groups_are { vec_len ready.groups ≡ vec_len books }
    requires given { AreGivenFor (vec_len cells) (vec_len books) given.now }
    requires inputs { AreInputsFor (vec_len cells) (lists_of given.now.inputs.items) ready.groups.items }
    requires board { vec_len cells ≤ length board.now }
    requires lookers { vec_len lookers ≡ vec_len given.now.work.readers }
    requires looks { All (LooksAt board.now) lookers.items }
    requires room { HasRoomFor (vec_len cells) (vec_len books) ready.room }
    ensures cells { vec_len result.cells ≡ vec_len cells }
    ensures books { vec_len result.books ≡ vec_len books }
    ensures notes { AreNotes given.now.work (P.stops passes.old) (P.stops passes.new) result.notes.items }
    ensures ran { (AdmitsForeign result.answer → ⊥) → AreNotesOfAll given.now.work result.notes.items }
    ensures ended { OnOk result.answer (HaveAllEnded result.notes.items) }
    ensures made { OnOk result.answer (AreStepsMade given.now result.cells.items result.books.items) }
    ensures pulled { OnOk result.answer (ArePulled (lists_of given.now.inputs.items) result.cells.items result.books.items) }
    ensures begun { (AdmitsForeign result.answer → ⊥) → AreBegun given.now result.cells.items result.books.items }
    ensures known { (IsOfOpening result.answer → ⊥) → AreAsKept IsCellAsKept result.cells.items ready.tags.items }
    ensures known_groups { (IsOfOpening result.answer → ⊥) → AreAsKept IsBookAsKept result.books.items ready.groups.items }
    ensures refused { IfErr result.answer (IsSettlingRefusal given.now result.notes.items ready.tags.items ready.groups.items
        result.cells.items result.books.items) }
{
    let Ready { tags, groups, room } = ready;
    let EndedWorkers {
        mut cells,
        mut books,
        notes,
    } = run_workers(
        rt,
        alloc,
        cells,
        books,
        room,
        board,
        lookers,
        &given.work,
        passes,
    );
    let answer = settle(
        rt, alloc, &mut cells, &mut books, &tags, &groups, given, &notes,
    );
    EndedPhase {
        cells,
        books,
        notes: notes_in(alloc, notes),
        answer,
    }
}

// Returns the notes of the workers. There are none if no worker began.
fn notes_in(alloc: Global, notes: Result<Vec<WorkerNote>, WantOfMemory>) -> Vec<WorkerNote>
    ensures { result.items ≡ notes_of notes }
{
    match notes {
        Ok(notes) => notes,
        Err(_) => Vec::new(alloc),
    }
}

// Copies of the openings of cells and books, and room for the cells and books.
pub(crate) struct Ready<D: Disk> {
    pub(crate) tags: Vec<Kept>,
    pub(crate) groups: Vec<KeptGroup>,
    pub(crate) room: Room<D>,
}

// Makes the copies and the room for these cells and books.
pub(crate) fn make_ready<D: Disk>(
    alloc: Global,
    cells: &[Cell<D>],
    books: &[Book<D>],
) -> Result<Ready<D>, WantOfMemory>
    ensures tags_are { IfOk result (λ r. vec_len r.tags ≡ length cells.now) }
    ensures groups_are { IfOk result (λ r. vec_len r.groups ≡ length books.now) }
    ensures tags { IfOk result (λ r. AllZip IsCellCopied cells.now r.tags.items) }
    ensures groups { IfOk result (λ r. AllZip IsBookCopied books.now r.groups.items) }
    ensures room { IfOk result (λ r. HasRoomFor (length cells.now) (length books.now) r.room) }
{
    let tags = copies_of(alloc, cells)?;
    let groups = copies_of(alloc, books)?;
    let room = room_for(alloc, cells.len(), books.len())?;
    Ok(Ready { tags, groups, room })
}

// Makes room for so many cells and books.
fn room_for<D: Disk>(alloc: Global, cells: usize, books: usize) -> Result<Room<D>, WantOfMemory>
    ensures { IfOk result (HasRoomFor cells books) }
{
    let (locked_cells, free_cells) = two_lists(alloc, cells)?;
    let (locked_books, free_books) = match two_lists(alloc, books) {
        Ok(lists) => lists,
        Err(why) => {
            locked_cells.destroy_empty();
            free_cells.destroy_empty();
            return Err(why);
        }
    };
    Ok(Room {
        locked_cells,
        locked_books,
        cells: free_cells,
        books: free_books,
    })
}

// Returns two empty lists, each with room for so many items.
fn two_lists<T, U>(alloc: Global, count: usize) -> Result<(Vec<T>, Vec<U>), WantOfMemory>
    ensures none { IfOk result (λ lists. lists.0.items ≡ []) }
    ensures none_of_the_other { IfOk result (λ lists. lists.1.items ≡ []) }
    ensures room { IfOk result (λ lists. count ≤ vec_capacity lists.0) }
    ensures room_of_the_other { IfOk result (λ lists. count ≤ vec_capacity lists.1) }
{
    let first = Vec::with_capacity(alloc, count)?;
    match Vec::with_capacity(alloc, count) {
        Ok(second) => Ok((first, second)),
        Err(_) => {
            first.destroy_empty();
            Err(WantOfMemory)
        }
    }
}

// Room for the cells and books of a session: under their locks, and out of them again.
pub(crate) struct Room<D: Disk> {
    pub(crate) locked_cells: Vec<Mutex<Cell<D>>>,
    pub(crate) locked_books: Vec<Mutex<Book<D>>>,
    pub(crate) cells: Vec<Cell<D>>,
    pub(crate) books: Vec<Book<D>>,
}

// What the workers of a session left, and their notes. There are no notes if no worker began.
pub(crate) struct EndedWorkers<D: Disk> {
    pub(crate) cells: Vec<Cell<D>>,
    pub(crate) books: Vec<Book<D>>,
    pub(crate) notes: Result<Vec<WorkerNote>, WantOfMemory>,
}

// Runs the workers at the same time over these cells and books, each under its lock.
pub(crate) fn run_workers<D: Disk + Send, P: Passes, R: Threads + Wait + Sync>(
    rt: &R,
    alloc: Global,
    cells: Vec<Cell<D>>,
    books: Vec<Book<D>>,
    room: Room<D>,
    board: &Board,
    lookers: Vec<Looker>,
    work: &Work,
    passes: &mut P,
) -> EndedWorkers<D>
    requires work { IsWorkOf (vec_len cells) (vec_len books) work.now }
    requires board { vec_len cells ≤ length board.now }
    requires lookers { vec_len lookers ≡ vec_len work.now.readers }
    requires looks { All (LooksAt board.now) lookers.items }
    requires room { HasRoomFor (vec_len cells) (vec_len books) room }
    ensures cells { vec_len result.cells ≡ vec_len cells }
    ensures books { vec_len result.books ≡ vec_len books }
    ensures notes { IfOk result.notes (λ notes. AreNotesOf (λ group no. ⊤) work.now notes.items) }
    ensures stops { IfOk result.notes (λ notes. P.stops passes.new ≡ stops_with (P.stops passes.old) notes.items) }
    ensures unbegun { OnErr result.notes (P.stops passes.new ≡ P.stops passes.old) }
{
    let Room {
        mut locked_cells,
        mut locked_books,
        cells: mut cells_again,
        books: mut books_again,
    } = room;
    lock_all(cells, &mut locked_cells);
    lock_all(books, &mut locked_books);
    let groups = Groups {
        books: locked_books,
    };
    let notes = work_over(
        rt,
        alloc,
        &locked_cells,
        board,
        lookers,
        &groups,
        work,
        passes,
    );
    unlock_all(locked_cells, &mut cells_again);
    let Groups { books } = groups;
    unlock_all(books, &mut books_again);
    EndedWorkers {
        cells: cells_again,
        books: books_again,
        notes,
    }
}

// Runs the workers. It exists only for the proof, which needs the cells as a slice and the books as groups, under their
// locks.
fn work_over<D: Disk + Send, P: Passes, R: Threads + Wait + Sync>(
    rt: &R,
    alloc: Global,
    cells: &[Mutex<Cell<D>>],
    board: &Board,
    lookers: Vec<Looker>,
    groups: &Groups<D>,
    work: &Work,
    passes: &mut P,
) -> Result<Vec<WorkerNote>, WantOfMemory>
    requires work { IsWorkOf (length cells.now) (vec_len groups.now.books) work.now }
    requires board { length cells.now ≤ length board.now }
    requires lookers { vec_len lookers ≡ vec_len work.now.readers }
    requires looks { All (LooksAt board.now) lookers.items }
    ensures notes { IfOk result (λ notes. AreNotesOf (λ group no. ⊤) work.now notes.items) }
    ensures stops { IfOk result (λ notes. P.stops passes.new ≡ stops_with (P.stops passes.old) notes.items) }
    ensures unbegun { OnErr result (P.stops passes.new ≡ P.stops passes.old) }
{
    run_session(rt, alloc, cells, board, lookers, groups, work, passes)
}

// Puts each item under a lock of its own.
pub(crate) fn lock_all<T>(items: Vec<T>, locks: &mut Vec<Mutex<T>>)
    requires none { locks.old.items ≡ [] }
    requires room { vec_len items ≤ vec_capacity locks.old }
    ensures count { vec_len locks.new ≡ vec_len items }
{
    let mut rest = items.into_iter();
    while let Some(item) = rest.next() {
        locks.push_reserved(Mutex::new(item));
    }
    rest.destroy_empty();
}

// Takes each item out of its lock again.
pub(crate) fn unlock_all<T>(locks: Vec<Mutex<T>>, items: &mut Vec<T>)
    requires none { items.old.items ≡ [] }
    requires room { vec_len locks ≤ vec_capacity items.old }
    ensures count { vec_len items.new ≡ vec_len locks }
{
    let mut rest = locks.into_iter();
    while let Some(lock) = rest.next() {
        items.push_reserved(lock.into_inner());
    }
    rest.destroy_empty();
}
