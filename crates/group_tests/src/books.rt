// Books that are refreshed from cells: their rows, their answers, and how many values they evaluate.
ghost use Rattle.std.specs.Prelude.{◌≡◌, ◌<◌};

use crate::book_groups::means;
use crate::tables::{rows_tell, same};
use calc_refresh::CalcValue;
use disk_model::MemDisk;
use group_book::{Book, RefreshNo, Turn, new_book};
use std::alloc::Global;
use std::fmt::Write;
use std::marker::Brand;
use std::sync::ledger::{Blank, Ledger};
use std::sync::{Arc, Mutex, Wait};
use std::test::Fail;
use tag_cell::{Cell, Receipt, open_cell};
use test_rig::lone_board;
use trend_num::{Point, Steps, TagDef, Tuning, in_range, name_from, tuning_ok};

// Steps separated by `/`. A step has values that the tag takes, each a time and a value, and whether they are
// acknowledged. After `=>` come the rows that a refresh leaves after each step. After `e` comes how many values were
// evaluated.
const ROWS: &str = "\
0,0 3000,0 4000,9 commit / 1500,60 commit => 0 0 0 / 20 50 20 / e6
0,0 3000,0 4000,9 wait / 1500,60 commit => / 20 50 20 / e3
0,0 3000,0 4000,9 commit / 2500,8 commit / 2500,8 commit => 0 0 0 / 2 5 6 / 2 5 6 / e9";

/// Returns a cell of a tag that keeps each bend, on a new device.
pub fn cell_of(rt: &impl Wait, alloc: Global) -> Option<Cell<MemDisk>> {
    let def = TagDef {
        name: name_from(b"T1")?,
        tuning: Tuning {
            exc_dev: 0,
            exc_max: 1_000_000,
            comp_dev: 0,
            comp_min: 0,
            comp_max: 1_000_000,
        },
        step: false,
    };
    if !tuning_ok(&def.tuning) {
        return None;
    }
    let (board, poster, _) = lone_board(rt, alloc, 0).ok()?;
    let board = Arc::new(alloc, board).ok()?;
    let dev = MemDisk::new(Vec::new(alloc), Vec::new(alloc));
    open_cell(rt, alloc, dev, &def, 64, 100, board, poster).ok()
}

// Returns the point that a text `T,V` spells.
fn point_of(text: &str) -> Option<Point> {
    let (t, v) = text.split_once(',')?;
    Some(Point {
        t: t.parse().ok()?,
        v: v.parse().ok()?,
    })
}

// Takes a point, as a row of collector 0.
fn take(rt: &impl Wait, cell: &mut Cell<MemDisk>, p: Point) -> Option<()> {
    if !in_range(p) {
        return None;
    }
    cell.take(rt, 0, 1, p).ok()?;
    Some(())
}

// Acknowledges what a cell has taken.
fn commit(cell: &mut Cell<MemDisk>) -> Option<()> {
    cell.commit().ok()?;
    Some(())
}

/// Takes the values of a text, up to the word `commit` or `wait`. After `commit` the values are acknowledged; after
/// `wait` they are not.
pub fn take_all(rt: &impl Wait, cell: &mut Cell<MemDisk>, values: &str) -> Option<()> {
    for value in values.split(' ') {
        match value {
            "wait" => return Some(()),
            "commit" => return commit(cell),
            _ => take(rt, cell, point_of(value)?)?,
        }
    }
    Some(())
}

/// Returns a cell that has taken the values of a text.
pub fn cell_with(rt: &impl Wait, alloc: Global, values: &str) -> Option<Mutex<Cell<MemDisk>>> {
    let cell = Mutex::new(cell_of(rt, alloc)?);
    take_all(rt, &mut cell.lock(rt), values)?;
    Some(cell)
}

// Refreshes a book, on the ledger of a blank.
fn refresh_on<L: Ledger, R: Wait>(
    rt: &R,
    book: &mut Book<MemDisk>,
    cells: &[Mutex<Cell<MemDisk>>],
    blank: Blank,
) -> Result<Receipt, RefreshNo>
    requires name { blank.name ≡ L.name }
    requires parts { blank.parts ≡ L.parts }
    requires some { 0 < L.parts }
{
    let mut steps: Steps<L> = Steps::new(blank);
    book.refresh(rt, cells, &mut steps)
}

/// Refreshes a book.
pub fn refresh<R: Wait>(
    rt: &R,
    book: &mut Book<MemDisk>,
    cells: &[Mutex<Cell<MemDisk>>],
) -> Result<Receipt, RefreshNo> {
    refresh_on::<Brand, R>(rt, book, cells, Blank::new(1))
}

// Returns the value of calculation 0 in a window.
fn answer(book: &mut Book<MemDisk>, k: u64) -> Option<CalcValue> {
    match book.ask(0, 1, 0, k) {
        Ok((_, told)) => told,
        Err(_) => None,
    }
}

/// Returns the answers for calculation 0 in the windows from 0 on.
pub fn answers(alloc: Global, book: &mut Book<MemDisk>) -> Option<String> {
    let mut text = String::new(alloc);
    for k in 0..100 {
        match answer(book, k) {
            Some(CalcValue::Num(n)) => write!(text, "{n} ").ok()?,
            Some(CalcValue::Bad(_)) => text.push_str("bad ").ok()?,
            None => return Some(text),
        }
    }
    Some(text)
}

// Returns a book of one tag and one calculation.
fn book_of(alloc: Global) -> Option<Book<MemDisk>> {
    let def = means(alloc)?;
    let tags = vec![in alloc; 0; 1].ok()?;
    new_book(alloc, 0, &def, tags).ok()
}

// Returns how many values a book has evaluated.
fn evals_of(book: Book<MemDisk>) -> u64 {
    let (_, history) = book.into_history();
    history.evals
}

// Takes values, refreshes a book, and returns its answers.
fn refreshed(
    rt: &impl Wait,
    alloc: Global,
    book: &mut Book<MemDisk>,
    cells: &[Mutex<Cell<MemDisk>>],
    values: &str,
) -> Option<String> {
    let cell = cells.first()?;
    take_all(rt, &mut cell.lock(rt), values)?;
    refresh(rt, book, cells).ok()?;
    answers(alloc, book)
}

// Follows the steps of a line with a book. Returns the answers after each step.
fn steps_told(
    rt: &impl Wait,
    alloc: Global,
    book: &mut Book<MemDisk>,
    cells: &[Mutex<Cell<MemDisk>>],
    line: &str,
) -> Option<String> {
    let mut told = String::new(alloc);
    for values in line.split(" / ") {
        told.push_str(&refreshed(rt, alloc, book, cells, values)?)
            .ok()?;
        told.push_str("/ ").ok()?;
    }
    Some(told)
}

// Follows the steps of a line. Returns the answers after each step, and how many values were evaluated.
fn followed(rt: &impl Wait, alloc: Global, line: &str) -> Option<String> {
    let mut book = book_of(alloc)?;
    let cells = [Mutex::new(cell_of(rt, alloc)?)];
    let told = steps_told(rt, alloc, &mut book, &cells, line)?;
    format!(in alloc; "{told}e{}", evals_of(book)).ok()
}

#[test]
fn a_refresh_takes_what_is_acknowledged(rt: HostRuntime) -> Result<(), Fail> {
    rows_tell(&rt, ROWS, " => ", |steps| {
        Ok(followed(&rt, rt.alloc(), steps).ok_or("not followed")?)
    })
}

// Returns whether the tape of a book has one refresh and nothing else.
fn is_one_refresh(book: &Book<MemDisk>) -> bool {
    matches!(book.tape(), [Turn::Refresh { .. }])
}

// Returns the answers of a book that is refreshed without a cell.
fn without_a_cell(rt: &impl Wait, alloc: Global) -> Option<String> {
    let mut book = book_of(alloc)?;
    refresh(rt, &mut book, &[]).ok()?;
    if !is_one_refresh(&book) {
        return None;
    }
    answers(alloc, &mut book)
}

#[test]
fn an_input_without_its_tag_gives_nothing(rt: HostRuntime) -> Result<(), Fail> {
    let told = without_a_cell(&rt, rt.alloc()).ok_or("not refreshed")?;
    same(&rt, told.as_str(), "", "no cell");
    Ok(())
}

// Refreshes a book from a cell of two records, and then from one of one record. Returns why the second refresh is
// refused, and how long the tape is.
fn ahead(rt: &impl Wait, alloc: Global) -> Option<(Option<RefreshNo>, usize)> {
    let mut book = book_of(alloc)?;
    let cell = cell_with(rt, alloc, "0,0 3000,0 4000,9 commit")?;
    refresh(rt, &mut book, &[cell]).ok()?;
    let other = cell_with(rt, alloc, "0,0 3000,9 commit")?;
    let why = refresh(rt, &mut book, &[other]).err();
    Some((why, book.tape().len()))
}

#[test]
fn a_version_above_the_records_is_ahead(rt: HostRuntime) {
    let why = RefreshNo::Ahead {
        input: 0,
        version: 2,
        records: 1,
    };
    assert!(&rt; ahead(&rt, rt.alloc()) == Some((Some(why), 1)));
}
