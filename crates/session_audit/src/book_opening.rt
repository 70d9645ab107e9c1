// The copy of a book's opening, and the comparison of the book with it.
ghost use Rattle.std.specs.Prelude.{◌≡◌, ◌↔◌, ℕ, ◌≤◌, IfErr, IfOk, IsTrue, OnOk, length, slice_get};
ghost use Rattle.std.specs.List.{count_by};
ghost use Rattle.calc_refresh.specs.{lists_of};
ghost use Rattle.session_audit.specs.BookOpenings.{AgreeIn, ArePartsOf, DifferSo, IsBookAsKept, IsBookDifference, IsSameOpening, RowsDiffer, items_of, windows_of};
ghost use Rattle.session_audit.specs.OpeningNumbers.{AreApart, seen_of};

use crate::opening::{Difference, Opened};
use calc_refresh::{CalcValue, GroupDefParts};
use disk_model::Disk;
use group_book::{Book, GroupOpening};
use plant_status::{Seen, Unit};
use std::alloc::Global;
use trend_num::WantOfMemory;

/// A copy of a group's opening, and of what its book was made with.
#[derive(Drop)]
pub struct KeptGroup {
    /// The group, counted from 0.
    pub group: u32,
    pub def: GroupDefParts,
    /// The definition text of its device; empty if it has no device.
    pub text: Vec<u8>,
    pub opening: GroupOpening,
}

impl<D: Disk> Opened for Book<D> {
    ghost use Rattle.plant_status.specs.declared.unit.Unit.TheVariants.{Group};
    ghost use Rattle.session_audit.specs.BookOpenings.{IsBookAsKept, IsBookCopied, IsBookDifference};

    type Kept = KeptGroup;

    ghost is_copied = { IsBookCopied };

    ghost is_as_kept = { IsBookAsKept };

    ghost differs = { IsBookDifference };

    ghost unit_of = { Group };

    fn copy(&self, alloc: Global) -> Result<KeptGroup, WantOfMemory> {
        let def = self.def();
        let text = Vec::from_slice(alloc, self.text())?;
        Ok(KeptGroup {
            group: self.group(),
            def: GroupDefParts {
                inputs: def.inputs,
                start: def.start,
                period: def.period,
                calcs: def.calcs.copy()?,
            },
            text,
            opening: opening_copy(alloc, self.opening())?,
        })
    }

    fn compare(&self, known: &KeptGroup) -> Result<(), Difference> {
        compare_book(self, known)
    }

    fn unit_of(group: u32) -> Unit {
        Unit::Group(group)
    }
}

// Returns a copy of an opening.
fn opening_copy(alloc: Global, opening: &GroupOpening) -> Result<GroupOpening, WantOfMemory>
    ensures versions { IfOk result (λ o. o.versions.items ≡ opening.now.versions.items) }
    ensures rows { IfOk result (λ o. lists_of o.rows.items ≡ lists_of opening.now.rows.items) }
    ensures moment { IfOk result (λ o. o.moment ≡ opening.now.moment) }
    ensures faults { IfOk result (λ o. o.faults ≡ opening.now.faults) }
{
    let versions = Vec::from_slice(alloc, opening.versions.as_slice())?;
    Ok(GroupOpening {
        versions,
        rows: rows_copy(alloc, &opening.rows)?,
        moment: opening.moment,
        faults: opening.faults,
    })
}

// Returns a copy of rows.
fn rows_copy(alloc: Global, rows: &[Vec<CalcValue>]) -> Result<Vec<Vec<CalcValue>>, WantOfMemory>
    ensures { IfOk result (λ list. lists_of list.items ≡ lists_of rows.now) }
{
    let mut list = Vec::new(alloc);
    for row in rows {
        list.push(row_copy(alloc, row)?)?;
    }
    Ok(list)
}

// Returns a copy of a row.
fn row_copy(alloc: Global, row: &[CalcValue]) -> Result<Vec<CalcValue>, WantOfMemory>
    ensures { IfOk result (λ list. list.items ≡ row.now) }
{
    Ok(Vec::from_slice(alloc, row)?)
}

// Compares a book's definition with the copy, part by part, then its opening.
fn compare_book<D: Disk>(book: &Book<D>, known: &KeptGroup) -> Result<(), Difference>
    ensures same { OnOk result (IsBookAsKept book.now known.now) }
    ensures differs { IfErr result (λ d. IsBookDifference book.now known.now d.kept d.told) }
{
    let agreeing = count_true(&same_parts(book, known));
    if agreeing < 6 {
        return Err(Difference {
            kept: Seen::Number(agreeing as u64),
            told: Seen::Number(6),
        });
    }
    compare_opening(book.opening(), &known.opening)
}

// Returns which parts of a definition are the same: the number, the inputs, the start, the period, the calculations,
// and the text.
fn same_parts<D: Disk>(book: &Book<D>, known: &KeptGroup) -> [bool; 6]
    ensures { ArePartsOf book.now.group book.now.def book.now.text known.now result }
{
    let (def, kept) = (book.def(), &known.def);
    [
        book.group() == known.group,
        def.inputs == kept.inputs,
        def.start == kept.start,
        def.period == kept.period,
        def.calcs.same(&kept.calcs),
        book.text() == known.text.as_slice(),
    ]
}

// Compares openings, number by number, then their rows.
fn compare_opening(found: &GroupOpening, known: &GroupOpening) -> Result<(), Difference>
    ensures same { OnOk result (IsSameOpening found.now known.now) }
    ensures differs { IfErr result (λ d. DifferSo found.now known.now d.kept d.told) }
{
    if let Err(differs) = compare_numbers(found, known) {
        return Err(differs);
    }
    compare_rows(&found.rows, &known.rows)
}

// Compares the numbers of two openings, in turn. It looks at one place more than the copy has numbers.
fn compare_numbers(found: &GroupOpening, known: &GroupOpening) -> Result<(), Difference>
    ensures same { OnOk result (items_of found.now ≡ items_of known.now) }
    ensures differs { IfErr result (λ d. (place : ℕ) × AreApart place (items_of found.now) (items_of known.now) d.kept d.told) }
{
    for place in 0..known.versions.len() + 5 {
        let (kept, told) = (item_at(found, place), item_at(known, place));
        if kept != told {
            return Err(Difference {
                kept: seen_of(kept),
                told: seen_of(told),
            });
        }
    }
    Ok(())
}

// Returns the number of an opening at a place.
fn item_at(opening: &GroupOpening, place: usize) -> Option<u64>
    ensures { result ≡ slice_get (items_of opening.now) place }
{
    let versions = opening.versions.len();
    if place == 0 {
        Some(opening.faults)
    } else if place == 1 {
        Some(opening.moment)
    } else if place < versions + 2 {
        Some(u64::from(opening.versions[place - 2]))
    } else if place == versions + 2 {
        Some(windows_of(&opening.rows))
    } else if place == versions + 3 {
        Some(opening.rows.len() as u64)
    } else {
        None
    }
}

// Returns how many windows the rows have.
fn windows_of(rows: &[Vec<CalcValue>]) -> u64
    ensures { result ≡ windows_of (lists_of rows.now) }
{
    match rows.first() {
        None => 0,
        Some(row) => row.len() as u64,
    }
}

// Returns a number, or `Nothing` if there is none.
pub(crate) fn seen_of(number: Option<u64>) -> Seen
    ensures { result ≡ seen_of number }
{
    match number {
        None => Seen::Nothing,
        Some(number) => Seen::Number(number),
    }
}

// Compares rows. A difference has two numbers: how many rows are the same (`kept`), and how many there are (`told`).
fn compare_rows(found: &[Vec<CalcValue>], known: &[Vec<CalcValue>]) -> Result<(), Difference>
    requires as_many { length found.now ≡ length known.now }
    ensures same { OnOk result (lists_of found.now ≡ lists_of known.now) }
    ensures differs { IfErr result (λ d. RowsDiffer (lists_of found.now) (lists_of known.now) d.kept d.told) }
{
    let agreeing = count_same(found, known);
    if agreeing < known.len() {
        return Err(Difference {
            kept: Seen::Number(agreeing as u64),
            told: Seen::Number(known.len() as u64),
        });
    }
    Ok(())
}

// Returns how many rows are the same.
fn count_same(found: &[Vec<CalcValue>], known: &[Vec<CalcValue>]) -> usize
    requires as_many { length found.now ≡ length known.now }
    ensures agree { AgreeIn (length known.now) (lists_of found.now) (lists_of known.now) result }
    ensures within { result ≤ length known.now }
{
    let mut count = 0;
    for i in 0..known.len() {
        if same_row(&found[i], &known[i]) {
            count += 1;
        }
    }
    count
}

// Returns whether two rows are the same.
fn same_row(a: &[CalcValue], b: &[CalcValue]) -> bool
    ensures { IsTrue result ↔ (a.now ≡ b.now) }
{
    if a.len() != b.len() {
        return false;
    }
    for k in 0..b.len() {
        if !same_value(a[k], b[k]) {
            return false;
        }
    }
    true
}

// Returns whether two values are the same.
fn same_value(a: CalcValue, b: CalcValue) -> bool
    ensures { IsTrue result ↔ (a ≡ b) }
{
    a == b
}

// Returns how many marks are true.
fn count_true(marks: &[bool]) -> usize
    ensures { result ≡ count_by (λ m. m) marks.now }
{
    marks.iter().filter(|mark| **mark).count()
}
