// Adds to tapes the entries of the rows that they lack.
ghost use Rattle.std.specs.Prelude.{◌≡◌, ℕ, ◌+◌, ◌^◌, ◌<◌, All, IfErr, IsSome, OnErr, OnOk, length};
ghost use Rattle.calc_refresh.specs.{lists_of};
ghost use Rattle.session_audit.specs.Adding.{IsAdded, IsStopped};
ghost use Rattle.session_audit.specs.Each.{AreEach};
ghost use Rattle.session_audit.specs.Workers.{AreOthersSame, AreOver, AreTapesFound, AreTapesWhole, IsCaughtTo, IsOver};

use crate::kind::Taped;
use crate::progress::Progress;

// How to add the entry of a row to the tape that lacks it.
pub(crate) trait Adding {
    ghost use Rattle.session_audit.specs.declared.agenda.Item.{Item};
    ghost use Rattle.session_audit.specs.declared.kind.Shown.{Shown};
    ghost use Rattle.std.specs.Prelude.{Option};

    // The unit that has the tape.
    type Unit: Taped;

    // A row of a worker's file.
    type Row;

    // Why nothing is added.
    type No;

    // What an entry shows, and of which worker.
    ghost shows: { Self.Unit.Entry → Option Shown };

    // What a row leaves on a tape, and on which: from the worker, the number of the row (from 1), and the row.
    ghost item_of: { Self → ℕ → ℕ → Self.Row → Option Item };

    // A row that can be added.
    ghost fits: { Self.Row → Type 0 };

    // A unit has gained entries of this kind.
    ghost gains: { Self.Unit → Self.Unit → Type 0 };

    // Why nothing is added to a unit.
    ghost refuses: { Self.Unit → Self.No → Type 0 };

    // Adds the entry of a row that is due at this unit.
    fn add(
        &self,
        unit: &mut Self::Unit,
        row: &Self::Row,
        worker: u32,
        number: u64,
    ) -> Result<(), Self::No>
        requires due { IsSome (item_of self.now worker number row.now) }
        requires fits { fits row.now }
        ensures added { OnOk result (IsAdded Self.Unit.tape_of shows worker (item_of self.now worker number row.now) unit.old unit.new) }
        ensures gained { OnOk result (gains unit.old unit.new) }
        ensures unchanged { OnErr result (unit.new ≡ unit.old) }
        ensures refused { IfErr result (refuses unit.old) };

    ghost gains_nothing: { (u : Self.Unit) → gains u u };

    ghost gains_twice: { (a b c : Self.Unit) → gains a b → gains b c → gains a c };
}

// Adds the entries that tapes lack for the rows of all files, in the order of the files. It stops at the first row that
// is refused, and returns its unit and the refusal.
pub(crate) fn add_missing<A: Adding>(
    how: &A,
    units: &mut [A::Unit],
    files: &[Vec<A::Row>],
    works: &mut [Progress<'_>],
) -> Result<(), (u32, A::No)>
    requires over { AreOver (A.item_of how.now) (length units.old) (lists_of files.now) works.old }
    requires fits { All (λ rows. All A.fits rows.items) files.now }
    requires found { AreTapesFound A.Unit.tape_of A.shows units.old works.old }
    ensures whole { OnOk result (AreTapesWhole A.Unit.tape_of A.shows (A.item_of how.now) (lists_of files.now) units.new) }
    ensures over { AreOver (A.item_of how.now) (length units.new) (lists_of files.now) works.new }
    ensures found { AreTapesFound A.Unit.tape_of A.shows units.new works.new }
    ensures gained { AreEach A.gains units.old units.new }
    ensures refused { IfErr result (λ no. IsStopped A.refuses units.new works.new no.0 no.1) }
{
    for worker in 0..files.len() {
        add_file(how, units, &files[worker], works, worker)?;
    }
    Ok(())
}

// Adds the entries that tapes lack for the rows of one worker.
fn add_file<A: Adding>(
    how: &A,
    units: &mut [A::Unit],
    rows: &[A::Row],
    works: &mut [Progress<'_>],
    worker: usize,
) -> Result<(), (u32, A::No)>
    requires over { IsOver (A.item_of how.now) (length units.old) worker rows.now works.old }
    requires fits { All A.fits rows.now }
    requires few { worker < 2 ^ 32 }
    requires found { AreTapesFound A.Unit.tape_of A.shows units.old works.old }
    ensures over { IsOver (A.item_of how.now) (length units.new) worker rows.now works.new }
    ensures found { AreTapesFound A.Unit.tape_of A.shows units.new works.new }
    ensures caught { OnOk result (IsCaughtTo (length rows.now) worker works.new) }
    ensures others { AreOthersSame worker works.old works.new }
    ensures gained { AreEach A.gains units.old units.new }
    ensures refused { IfErr result (λ no. IsStopped A.refuses units.new works.new no.0 no.1) }
{
    for place in 0..rows.len() {
        add_row(how, units, rows, works, worker, place)?;
    }
    Ok(())
}

// Adds the entry of the row at a place, if the tape where the row is due lacks it.
fn add_row<A: Adding>(
    how: &A,
    units: &mut [A::Unit],
    rows: &[A::Row],
    works: &mut [Progress<'_>],
    worker: usize,
    place: usize,
) -> Result<(), (u32, A::No)>
    requires over { IsOver (A.item_of how.now) (length units.old) worker rows.now works.old }
    requires fits { All A.fits rows.now }
    requires within { place < length rows.now }
    requires few { worker < 2 ^ 32 }
    requires found { AreTapesFound A.Unit.tape_of A.shows units.old works.old }
    requires caught { IsCaughtTo place worker works.old }
    ensures over { IsOver (A.item_of how.now) (length units.new) worker rows.now works.new }
    ensures found { AreTapesFound A.Unit.tape_of A.shows units.new works.new }
    ensures caught { OnOk result (IsCaughtTo (place + 1) worker works.new) }
    ensures others { AreOthersSame worker works.old works.new }
    ensures gained { AreEach A.gains units.old units.new }
    ensures refused { IfErr result (λ no. IsStopped A.refuses units.new works.new no.0 no.1) }
{
    let Some(unit) = works[worker].missing(place) else {
        return Ok(());
    };
    let number = place as u64 + 1;
    if let Err(no) = how.add(
        &mut units[unit as usize],
        &rows[place],
        worker as u32,
        number,
    ) {
        return Err((unit, no));
    }
    works[worker].advance(unit);
    Ok(())
}
