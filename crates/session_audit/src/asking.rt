// Asks the questions of readers that tapes lack.
ghost use Rattle.std.specs.Prelude.{ℕ, List, All, OnOk, length};
ghost use Rattle.value_rows.specs.{RawRow};
ghost use Rattle.calc_refresh.specs.{lists_of};
ghost use Rattle.session_audit.specs.Agendas.{ask_item, phase_item, row_item};
ghost use Rattle.session_audit.specs.Books.{IsAskedMore, IsKnownRowAsk, book_tape};
ghost use Rattle.session_audit.specs.Cells.{AreAllBegun, AreAllFound, AreAllShown, AreLonger, IsAskEntry, IsKnownAsk};
ghost use Rattle.session_audit.specs.Each.{AreEach};
ghost use Rattle.session_audit.specs.GroupTapes.{row_ask_of};
ghost use Rattle.session_audit.specs.GroupTurns.{IsWithinTurns};
ghost use Rattle.session_audit.specs.Tapes.{ask_of, take_of};
ghost use Rattle.session_audit.specs.Workers.{AreOver, AreTapesBegun, AreTapesFound, AreTapesWhole};

use crate::adding::{Adding, add_missing};
use crate::progress::Progress;
use disk_model::Disk;
use group_book::Book;
use std::marker::PhantomData;
use tag_cell::Cell;
use trend_num::WantOfMemory;
use value_rows::Query;

/// Answers each question of the readers about a tag that the tag's tape lacks, in the order of the files. The one error
/// is want of memory.
pub fn ask_missing<D: Disk>(
    cells: &mut [Cell<D>],
    files: &[Vec<Query>],
    works: &mut [Progress<'_>],
) -> Result<(), WantOfMemory>
    requires over { AreOver ask_item (length cells.old) (lists_of files.now) works.old }
    requires queries { All (λ queries. All (IsKnownAsk (length cells.old)) queries.items) files.now }
    requires found { AreAllFound ask_of cells.old works.old }
    ensures shown { OnOk result (AreAllShown ask_of ask_item (lists_of files.now) cells.new) }
    ensures begun { AreAllBegun ask_of ask_item (lists_of files.now) cells.new }
    ensures takes { (earlier : ℕ) (taken : List (List RawRow)) → AreAllShown take_of (phase_item earlier) taken cells.old
        → AreAllShown take_of (phase_item earlier) taken cells.new }
    ensures longer { AreLonger IsAskEntry cells.old cells.new }
{
    let how = TagAnswers { cells: PhantomData };
    match add_missing::<TagAnswers<D>>(&how, cells, files, works) {
        Ok(()) => Ok(()),
        Err((_, no)) => Err(no),
    }
}

/// Answers each question of the readers for a value of a group's calculations that the group's tape lacks, in the order
/// of the files. The one error is want of memory.
pub fn ask_rows_missing<D: Disk>(
    books: &mut [Book<D>],
    files: &[Vec<Query>],
    works: &mut [Progress<'_>],
) -> Result<(), WantOfMemory>
    requires over { AreOver row_item (length books.old) (lists_of files.now) works.old }
    requires queries { All (λ queries. All (IsKnownRowAsk (length books.old)) queries.items) files.now }
    requires found { AreTapesFound book_tape row_ask_of books.old works.old }
    ensures shown { OnOk result (AreTapesWhole book_tape row_ask_of row_item (lists_of files.now) books.new) }
    ensures begun { AreTapesBegun book_tape row_ask_of row_item (lists_of files.now) books.new }
    ensures asked { AreEach IsAskedMore books.old books.new }
    ensures turns { (turns : List ℕ) → IsWithinTurns turns books.old → IsWithinTurns turns books.new }
{
    let how = GroupAnswers { books: PhantomData };
    match add_missing::<GroupAnswers<D>>(&how, books, files, works) {
        Ok(()) => Ok(()),
        Err((_, no)) => Err(no),
    }
}

// Answers questions about tags on their cells.
#[derive(Drop)]
struct TagAnswers<D: Disk> {
    cells: PhantomData<D>,
}

impl<D: Disk> Adding for TagAnswers<D> {
    ghost use Rattle.session_audit.specs.Agendas.{ask_item};
    ghost use Rattle.session_audit.specs.Cells.{IsAskEntry, IsFitAsk, IsLonger};
    ghost use Rattle.session_audit.specs.Tapes.{ask_of};
    ghost use Rattle.session_audit.specs.Gains.{longer_refl, longer_trans};
    ghost use Rattle.std.specs.Prelude.{⊤};

    type Unit = Cell<D>;

    type Row = Query;

    type No = WantOfMemory;

    ghost shows = { ask_of };

    ghost item_of = { λ how. ask_item };

    ghost fits = { IsFitAsk };

    ghost gains = { IsLonger IsAskEntry };

    ghost refuses = { λ cell no. ⊤ };

    fn add(
        &self,
        cell: &mut Cell<D>,
        query: &Query,
        reader: u32,
        number: u64,
    ) -> Result<(), WantOfMemory> {
        if let Query::Tag { query, .. } = *query {
            cell.ask(reader, number, query)?;
        }
        Ok(())
    }

    ghost gains_nothing = { longer_refl IsAskEntry };

    ghost gains_twice = { longer_trans IsAskEntry };
}

// Answers questions for values of calculations on the books of groups.
#[derive(Drop)]
struct GroupAnswers<D: Disk> {
    books: PhantomData<D>,
}

impl<D: Disk> Adding for GroupAnswers<D> {
    ghost use Rattle.session_audit.specs.Agendas.{row_item};
    ghost use Rattle.session_audit.specs.Books.{IsAskedMore};
    ghost use Rattle.session_audit.specs.GroupTapes.{row_ask_of};
    ghost use Rattle.session_audit.specs.Gains.{asked_refl, asked_trans};
    ghost use Rattle.std.specs.Prelude.{⊤};

    type Unit = Book<D>;

    type Row = Query;

    type No = WantOfMemory;

    ghost shows = { row_ask_of };

    ghost item_of = { λ how. row_item };

    ghost fits = { λ query. ⊤ };

    ghost gains = { IsAskedMore };

    ghost refuses = { λ book no. ⊤ };

    fn add(
        &self,
        book: &mut Book<D>,
        query: &Query,
        reader: u32,
        number: u64,
    ) -> Result<(), WantOfMemory> {
        if let Query::Row { calc, k, .. } = *query {
            book.ask(reader, number, calc, k)?;
        }
        Ok(())
    }

    ghost gains_nothing = { asked_refl };

    ghost gains_twice = { asked_trans };
}
