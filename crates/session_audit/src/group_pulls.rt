// Compares what groups have of their inputs with what they pulled of the tags.
ghost use Rattle.std.specs.Prelude.{◌≡◌, ◌^◌, ◌<◌, ◌≤◌, All, IfErr, OnOk, length, slice_index};
ghost use Rattle.std.specs.Option.{option_map};
ghost use Rattle.calc_refresh.specs.{lists_of};
ghost use Rattle.session_audit.specs.Inputs.{AreInputs, IsInputsOf};
ghost use Rattle.session_audit.specs.OpeningNumbers.{AreApart};
ghost use Rattle.session_audit.specs.Pulls.{AreInputsPulled, ArePulled, IsInputMismatch, IsMismatchOf, IsNextOf, IsPullMismatch, IsPulledFrom};
ghost use Rattle.session_audit.specs.GroupTapes.{pull_of, pulled, reached, refreshes};

use crate::book_opening::seen_of;
use crate::cell_opening::compare_records;
use crate::opening::Difference;
use disk_model::Disk;
use group_book::{Book, Turn};
use plant_status::{Place, Status};
use tag_cell::{Cell, Entry};

/// Compares each pull of a group, on the tapes of its inputs' tags, with the group's refresh of the same number. It
/// also compares the records that the group has of each input with the tag's. `inputs` has the tags of each group's
/// inputs. It stops at the first difference. The order is group by group, input by input, and pulls before records.
pub fn compare_pulls<C: Disk, D: Disk>(
    cells: &[Cell<C>],
    books: &[Book<D>],
    inputs: &[Vec<u32>],
) -> Result<(), Status>
    requires inputs { AreInputs (length cells.now) (lists_of inputs.now) books.now }
    requires few { length books.now < 2 ^ 32 }
    requires few_turns { All (λ b. length (refreshes b.tape) < 2 ^ 32) books.now }
    ensures pulled { OnOk result (ArePulled (lists_of inputs.now) cells.now books.now) }
    ensures differs { IfErr result (IsPullMismatch (lists_of inputs.now) cells.now books.now) }
{
    for group in 0..books.len() {
        compare_inputs(cells, &books[group], &inputs[group], group as u32)?;
    }
    Ok(())
}

// Compares what a group has of each of its inputs with what it pulled.
fn compare_inputs<C: Disk, D: Disk>(
    cells: &[Cell<C>],
    book: &Book<D>,
    tags: &[u32],
    group: u32,
) -> Result<(), Status>
    requires inputs { IsInputsOf (length cells.now) tags.now book.now }
    requires few_turns { length (refreshes book.now.tape) < 2 ^ 32 }
    ensures pulled { OnOk result (AreInputsPulled group tags.now cells.now book.now) }
    ensures differs { IfErr result (IsMismatchOf group tags.now cells.now book.now) }
{
    for input in 0..tags.len() {
        let cell = &cells[tags[input] as usize];
        compare_input(cell, book, group, input as u32)?;
    }
    Ok(())
}

// Compares what a group has of an input with what it pulled.
fn compare_input<C: Disk, D: Disk>(
    cell: &Cell<C>,
    book: &Book<D>,
    group: u32,
    input: u32,
) -> Result<(), Status>
    requires known { input < book.now.def.inputs }
    requires few_turns { length (refreshes book.now.tape) < 2 ^ 32 }
    ensures pulled { OnOk result (IsPulledFrom group input cell.now book.now) }
    ensures differs { IfErr result (IsInputMismatch group input cell.now book.now) }
{
    if let Err((turn, differs)) = compare_ends(cell.tape(), group, book.tape(), input) {
        return Err(Status::Mismatch {
            place: Place::Pull { group, input, turn },
            kept: differs.kept,
            told: differs.told,
        });
    }
    if let Err(differs) = compare_records(cell.recs(), book.copied(input)) {
        return Err(Status::Mismatch {
            place: Place::Version { group, input },
            kept: differs.kept,
            told: differs.told,
        });
    }
    Ok(())
}

// Compares the ends of a group's pulls with the versions of an input that its refreshes reached, one after another.
// Returns a difference with its number.
fn compare_ends(
    tape: &[Entry],
    group: u32,
    turns: &[Turn],
    input: u32,
) -> Result<(), (u32, Difference)>
    requires few_turns { length (refreshes turns.now) < 2 ^ 32 }
    ensures same { OnOk result (pulled group tape.now ≡ reached input turns.now) }
    ensures differs { IfErr result (λ no. AreApart no.0 (pulled group tape.now) (reached input turns.now) no.1.kept no.1.told) }
{
    let (mut at, mut of, mut turn) = (0, 0, 0);
    loop {
        let (pull, refresh) = (next_pull(tape, group, at), next_version(turns, input, of));
        let (kept, told) = (number_of(pull), number_of(refresh));
        if kept != told {
            let (kept, told) = (seen_of(kept), seen_of(told));
            return Err((turn, Difference { kept, told }));
        }
        let Some(pull) = pull else {
            return Ok(());
        };
        let Some(refresh) = refresh else {
            return Ok(());
        };
        at = pull.past;
        of = refresh.past;
        turn += 1;
    }
}

/// A number that an entry of a tape has, and the place after that entry.
#[derive(Clone, Copy)]
pub struct Found {
    pub past: usize,
    pub number: u64,
}

// Returns the number of a find, if there is one.
fn number_of(found: Option<Found>) -> Option<u64>
    ensures { result ≡ option_map (λ f. f.number) found }
{
    Some(found?.number)
}

// Returns where the next pull of a group ended, from a place on.
fn next_pull(tape: &[Entry], group: u32, from: usize) -> Option<Found>
    requires { from ≤ length tape.now }
    ensures { IsNextOf (pulled group) tape.now from result }
{
    for place in from..tape.len() {
        if let Some(upto) = pull_of(&tape[place], group) {
            return Some(Found {
                past: place + 1,
                number: u64::from(upto),
            });
        }
    }
    None
}

// Returns where a pull ended, if it is one of the group's.
fn pull_of(entry: &Entry, its_group: u32) -> Option<u32>
    ensures { result ≡ pull_of its_group entry.now }
{
    match entry {
        Entry::Pull { group, upto, .. } if *group == its_group => Some(*upto),
        _ => None,
    }
}

// Returns the version of an input that the next refresh reached, from a place on.
fn next_version(tape: &[Turn], input: u32, from: usize) -> Option<Found>
    requires { from ≤ length tape.now }
    ensures { IsNextOf (reached input) tape.now from result }
{
    for place in from..tape.len() {
        if let Turn::Refresh { versions } = &tape[place] {
            return Some(Found {
                past: place + 1,
                number: version_at(versions, input),
            });
        }
    }
    None
}

// Returns the version of an input, or 0 if there is none.
fn version_at(versions: &[u32], input: u32) -> u64
    ensures { result ≡ slice_index versions.now input }
{
    match versions.get(input as usize) {
        None => 0,
        Some(version) => u64::from(*version),
    }
}
