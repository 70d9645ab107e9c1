// One walk over a tape, which updates the progress of each worker.
ghost use Rattle.std.specs.Prelude.{◌≡◌, ◌≢◌, ◌<◌, All, IfErr, IsFalse, IsSomeAnd, IsTrue, MatchOption, OnOk, Some, length, slice_get};
ghost use Rattle.std.specs.Option.{unwrap_or};
ghost use Rattle.plant_status.specs.declared.mismatch.Seen.TheVariants.{Nothing};
ghost use Rattle.session_audit.specs.Agendas.{IsNext};
ghost use Rattle.session_audit.specs.Found.{AreFound, AreFurther, IsDifference, IsFollowed, IsOtherDue, IsUnfound, Reached, due_of, expected, place_at};

use crate::kind::{Kind, Shown};
use crate::progress::Progress;
use plant_status::Seen;

/// The first entry of a tape that is not its worker's next row there.
#[derive(Clone, Copy)]
pub struct Differs {
    /// Its place on the tape, from 0.
    pub place: u64,
    /// What it shows.
    pub kept: Seen,
    /// The row that was due in its place, or nothing if none was left.
    pub told: Seen,
}

/// Finds the entries of one kind on the tape of a unit, which is a tag or a group, and marks them as found. Stops at
/// the first entry that is not its worker's next row there.
pub fn find<K: Kind>(
    unit: u32,
    tape: &[K::Entry],
    works: &mut [Progress<'_>],
) -> Result<(), Differs>
    requires known { All (λ p. unit < length p.at) works.old }
    requires unfound { All (IsUnfound unit) works.old }
    ensures found { OnOk result (AreFound K.shows unit tape.now works.new) }
    ensures further { AreFurther unit works.old works.new }
    ensures differs { IfErr result (λ d. IsDifference K.shows (due_of works.old unit) tape.now d.place d.kept d.told) }
{
    for (place, entry) in tape.iter().enumerate() {
        if !follow::<K>(works, unit, entry) {
            return Err(difference::<K>(works, unit, place, entry));
        }
    }
    Ok(())
}

// Marks the row that an entry shows as found if it is its worker's next row at this unit. Returns false if it is
// another row. If the entry shows no row, nothing changes.
fn follow<K: Kind>(works: &mut [Progress<'_>], unit: u32, entry: &K::Entry) -> bool
    requires known { All (λ p. unit < length p.at) works.old }
    ensures followed { IsTrue result → MatchOption (K.shows entry.now) (works.new ≡ works.old)
        (λ s. IsFollowed s.worker unit s.seen works.old works.new) }
    ensures other { IsFalse result → IsSomeAnd (K.shows entry.now)
        (λ s. expected works.old s.worker unit ≢ Some s.seen) }
    ensures unchanged { IsFalse result → works.new ≡ works.old }
{
    match K::worker(entry) {
        Some(worker) => found_next::<K>(works, worker, unit, entry),
        None => true,
    }
}

// Marks a worker's next row at a unit as found if its entry shows this row. Returns whether it does.
fn found_next<K: Kind>(works: &mut [Progress<'_>], worker: u32, unit: u32, entry: &K::Entry) -> bool
    requires known { All (λ p. unit < length p.at) works.old }
    requires worker { IsSomeAnd (K.shows entry.now) (λ s. s.worker ≡ worker) }
    ensures followed { IsTrue result → IsSomeAnd (K.shows entry.now)
        (λ s. IsFollowed s.worker unit s.seen works.old works.new) }
    ensures other { IsFalse result → IsSomeAnd (K.shows entry.now)
        (λ s. expected works.old s.worker unit ≢ Some s.seen) }
    ensures unchanged { IsFalse result → works.new ≡ works.old }
{
    let place = worker as usize;
    place < works.len() && works[place].follow::<K>(unit, entry)
}

// Returns the entry at a place, which is not its worker's next row at this unit, with the row that was due.
fn difference<K: Kind>(works: &[Progress<'_>], unit: u32, place: usize, entry: &K::Entry) -> Differs
    requires known { All (λ p. unit < length p.at) works.now }
    requires other { IsSomeAnd (K.shows entry.now) (λ s. expected works.now s.worker unit ≢ Some s.seen) }
    ensures place { result.place ≡ place }
    ensures differs { IsSomeAnd (K.shows entry.now) (λ s. (result.kept ≡ s.seen)
        × IsOtherDue works.now s.worker unit result.kept result.told) }
{
    let Some(Shown { worker, seen }) = K::shown(entry) else {
        unreachable!();
    };
    Differs {
        place: place as u64,
        kept: seen,
        told: due_next(works, worker, unit),
    }
}

// Returns a worker's next row at a unit, or nothing if none is left.
fn due_next(works: &[Progress<'_>], worker: u32, unit: u32) -> Seen
    requires known { All (λ p. unit < length p.at) works.now }
    ensures due { result ≡ unwrap_or (expected works.now worker unit) Nothing }
    ensures next { (p : Reached) → slice_get works.now worker ≡ Some p
        → IsNext unit p.items (place_at p unit) (place_at p unit) }
{
    let place = worker as usize;
    if place >= works.len() {
        return Seen::Nothing;
    }
    works[place].next_due(unit).unwrap_or(Seen::Nothing)
}
