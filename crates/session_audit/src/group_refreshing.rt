// Makes the refreshes that groups lack, then one more and a save.
ghost use Rattle.std.specs.Prelude.{ℕ, ◌≡◌, ◌^◌, ◌<◌, ◌≤◌, List, [], IfErr, IfOk, OnErr, OnOk, length, slice_index_or};
ghost use Rattle.value_rows.specs.{Query, RawRow};
ghost use Rattle.calc_refresh.specs.{lists_of};
ghost use Rattle.session_audit.specs.Agendas.{ask_item, row_item, phase_item};
ghost use Rattle.session_audit.specs.Tapes.{ask_of, take_of};
ghost use Rattle.session_audit.specs.Cells.{AreAllShown};
ghost use Rattle.session_audit.specs.Workers.{AreTapesWhole};
ghost use Rattle.group_book.specs.{ArePullsOf, IsListsRefusal, IsPullAhead, IsPullOf, IsPullRefusal, lists_at, uncut, IsPublished, versions_of};
ghost use Rattle.session_audit.specs.Each.{AreEach};
ghost use Rattle.session_audit.specs.Books.{IsRefreshedMore, book_tape};
ghost use Rattle.session_audit.specs.Inputs.{AreInputs, IsInputsOf};
ghost use Rattle.session_audit.specs.Refreshing.{AreBooksRefreshed, IsPulledMore, IsRefreshedTo, IsSavedOn, durable_lists, durable_numbers};
ghost use Rattle.session_audit.specs.BookRefusals.{IsBookRefusal, IsRefreshRefusal, IsSaveRefusal, pull_refusal, refresh_status, save_status};
ghost use Rattle.session_audit.specs.GroupTapes.{refreshes, row_ask_of};
ghost use Rattle.session_audit.specs.GroupTurns.{IsWithinTurns};

use crate::group_turns::count_refreshes;
use disk_model::Disk;
use group_book::{Book, RefreshNo, SaveNo};
use plant_status::{Place, Seen, Status, Unit, What};
use std::alloc::Global;
use std::sync::ledger::Ledger;
use tag_cell::{Cell, PullNo, Pulled};
use trend_num::Steps;

/// Makes the turns that the tape of each group lacks, then one more, and saves the group. In a turn the group pulls
/// from the cell of each input, in the order of the inputs, and takes what it pulled into account. `inputs` has the
/// tags of each group's inputs, and `turns` the number of its turns. It stops at the first group that cannot be
/// refreshed or saved.
pub fn refresh_missing<C: Disk, D: Disk, L: Ledger>(
    alloc: Global,
    cells: &mut [Cell<C>],
    books: &mut [Book<D>],
    inputs: &[Vec<u32>],
    turns: &[u32],
    steps: &mut Steps<L>,
) -> Result<(), Status>
    requires few { length books.old < 2 ^ 32 }
    requires inputs { AreInputs (length cells.old) (lists_of inputs.now) books.old }
    requires turns { length turns.now ≡ length books.old }
    requires within { IsWithinTurns turns.now books.old }
    ensures refreshed { OnOk result (AreBooksRefreshed (durable_lists cells.new) (lists_of inputs.now) turns.now books.new) }
    ensures pulled { AreEach IsPulledMore cells.old cells.new }
    ensures takes { (earlier : ℕ) (taken : List (List RawRow)) → AreAllShown take_of (phase_item earlier) taken cells.old
        → AreAllShown take_of (phase_item earlier) taken cells.new }
    ensures asks { (asked : List (List Query)) → AreAllShown ask_of ask_item asked cells.old
        → AreAllShown ask_of ask_item asked cells.new }
    ensures gained { AreEach IsRefreshedMore books.old books.new }
    ensures questions { (asked : List (List Query)) → AreTapesWhole book_tape row_ask_of row_item asked books.old
        → AreTapesWhole book_tape row_ask_of row_item asked books.new }
    ensures refused { IfErr result (IsRefreshRefusal (durable_lists cells.new) (lists_of inputs.now) turns.now books.new) }
{
    for group in 0..books.len() {
        let (tags, due) = (&inputs[group], turns[group]);
        refresh_group(
            alloc,
            cells,
            &mut books[group],
            tags,
            group as u32,
            due,
            steps,
        )?;
    }
    Ok(())
}

// Makes the turns that a group lacks, and then one more, and saves it.
fn refresh_group<C: Disk, D: Disk, L: Ledger>(
    alloc: Global,
    cells: &mut [Cell<C>],
    book: &mut Book<D>,
    tags: &[u32],
    group: u32,
    turns: u32,
    steps: &mut Steps<L>,
) -> Result<(), Status>
    requires inputs { IsInputsOf (length cells.old) tags.now book.old }
    requires within { length (refreshes book.old.tape) ≤ turns }
    ensures refreshed { OnOk result (IsRefreshedTo (durable_lists cells.new) tags.now turns book.new) }
    ensures pulled { AreEach IsPulledMore cells.old cells.new }
    ensures gained { IsRefreshedMore book.old book.new }
    ensures refused { IfErr result (IsBookRefusal (durable_lists cells.new) tags.now group book.new) }
{
    let made = count_refreshes(book.tape());
    for turn in made..turns as usize + 1 {
        if let Err(no) = refresh_once(alloc, cells, book, tags, group, steps) {
            return Err(refresh_status(group, no));
        }
    }
    save_group(book, group)
}

// Saves a group, if it has a device.
fn save_group<D: Disk>(book: &mut Book<D>, group: u32) -> Result<(), Status>
    ensures saved { OnOk result (IsSavedOn book.old book.new) }
    ensures gained { IsRefreshedMore book.old book.new }
    ensures refused { IfErr result (IsSaveRefusal group book.new) }
{
    match book.save() {
        Ok(()) => Ok(()),
        Err(no) => Err(save_status(group, no)),
    }
}

// Returns the status of a refused save.
fn save_status(group: u32, no: SaveNo) -> Status
    ensures { result ≡ save_status group no }
{
    match no {
        SaveNo::Broken | SaveNo::DeviceFault => Status::DeviceFault {
            unit: Unit::Group(group),
        },
        SaveNo::WantOfMemory => Status::WantOfMemory,
    }
}

// Refreshes a group once: it pulls from the cells of its inputs, and takes what it pulled into account.
fn refresh_once<C: Disk, D: Disk, L: Ledger>(
    alloc: Global,
    cells: &mut [Cell<C>],
    book: &mut Book<D>,
    tags: &[u32],
    group: u32,
    steps: &mut Steps<L>,
) -> Result<(), RefreshNo>
    requires inputs { IsInputsOf (length cells.old) tags.now book.old }
    ensures published { OnOk result (IsPublished (uncut (versions_of book.old) (lists_at (durable_lists cells.old) tags.now)) book.old book.new) }
    ensures versions { OnOk result (versions_of book.new ≡ durable_numbers (durable_lists cells.old) tags.now) }
    ensures pulled { AreEach IsPulledMore cells.old cells.new }
    ensures unchanged { OnErr result (book.new ≡ book.old) }
    ensures refused { IfErr result (IsListsRefusal (lists_at (durable_lists cells.old) tags.now) book.old) }
{
    let pulled = pull_all(alloc, cells, book, tags, group)?;
    book.publish(pulled, steps)?;
    Ok(())
}

// Pulls from the cells of a group's inputs, in their order, the records after those that the group has of each.
fn pull_all<C: Disk, D: Disk>(
    alloc: Global,
    cells: &mut [Cell<C>],
    book: &Book<D>,
    tags: &[u32],
    group: u32,
) -> Result<Vec<Pulled>, RefreshNo>
    requires inputs { IsInputsOf (length cells.old) tags.now book.now }
    ensures pulls { IfOk result (λ v. ArePullsOf (lists_at (durable_lists cells.old) tags.now) (versions_of book.now) v.items) }
    ensures inputs { length tags.now ≡ length book.now.sheet.copies }
    ensures pulled { AreEach IsPulledMore cells.old cells.new }
    ensures ahead { IfErr result (IsPullAhead (lists_at (durable_lists cells.old) tags.now) (versions_of book.now)) }
{
    let versions = book.versions();
    let mut pulled = Vec::new(alloc);
    for input in 0..tags.len() {
        let from = versions[input];
        let one = pull_one(cells, tags[input], group, input as u32, from)?;
        let Ok(()) = pulled.push(one) else {
            return Err(RefreshNo::WantOfMemory);
        };
    }
    Ok(pulled)
}

// Pulls from the cell of an input's tag the records from a place on.
fn pull_one<C: Disk>(
    cells: &mut [Cell<C>],
    tag: u32,
    group: u32,
    input: u32,
    from: u32,
) -> Result<Pulled, RefreshNo>
    requires known { tag < length cells.old }
    ensures pull { IfOk result (IsPullOf (slice_index_or (durable_lists cells.old) tag []) from) }
    ensures pulled { AreEach IsPulledMore cells.old cells.new }
    ensures refused { IfErr result (IsPullRefusal (slice_index_or (durable_lists cells.old) tag []) input from) }
{
    match cells[tag as usize].pull(group, from) {
        Ok(pulled) => Ok(pulled),
        Err(no) => Err(pull_refusal(input, no)),
    }
}

// Returns the refusal of a refresh whose pull of an input was refused.
fn pull_refusal(input: u32, no: PullNo) -> RefreshNo
    ensures { result ≡ pull_refusal input no }
{
    match no {
        PullNo::Ahead { from, acked } => RefreshNo::Ahead {
            input,
            version: from,
            records: acked,
        },
        PullNo::WantOfMemory => RefreshNo::WantOfMemory,
    }
}

// Returns the status of a refused refresh.
fn refresh_status(group: u32, no: RefreshNo) -> Status
    ensures { result ≡ refresh_status group no }
{
    match no {
        RefreshNo::Ahead {
            input,
            version,
            records,
        } => Status::Mismatch {
            place: Place::Version { group, input },
            kept: Seen::Number(u64::from(records)),
            told: Seen::Number(u64::from(version)),
        },
        RefreshNo::CellLimit { cells } => Status::Limit {
            what: What::Cells,
            number: cells,
        },
        RefreshNo::CopyLimit { records } => Status::Limit {
            what: What::Copies,
            number: records,
        },
        RefreshNo::WantOfMemory => Status::WantOfMemory,
    }
}
