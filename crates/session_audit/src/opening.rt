// Copies of the openings of cells and books, and the comparison with these.
ghost use Rattle.std.specs.Prelude.{◌≡◌, ◌^◌, ◌<◌, IfErr, IfOk, OnOk, length, vec_len};
ghost use Rattle.std.specs.List.{AllZip};
ghost use Rattle.session_audit.specs.Openings.{AreAsKept, IsOpeningMismatch};

use plant_status::{Place, Seen, Status, Unit};
use std::alloc::Global;
use trend_num::WantOfMemory;

/// Where an opening differs from its copy.
#[derive(Clone, Copy)]
pub struct Difference {
    /// What the cell or the book has there.
    pub kept: Seen,
    /// What the copy has there.
    pub told: Seen,
}

/// The cell of a tag or the book of a group, whose opening can be compared with a copy.
pub trait Opened {
    ghost use Rattle.std.specs.Prelude.{ℕ};
    ghost use Rattle.plant_status.specs.{Seen, Unit};

    /// The copy of an opening.
    type Kept: Drop;

    /// This is a copy of the opening.
    ghost is_copied: { Self → Self.Kept → Type 0 };

    /// The opening agrees with the copy.
    ghost is_as_kept: { Self → Self.Kept → Type 0 };

    /// The first difference: what the unit has, and what the copy has.
    ghost differs: { Self → Self.Kept → Seen → Seen → Type 0 };

    /// The tag or the group with this number.
    ghost unit_of: { ℕ → Unit };

    /// Copies the opening.
    fn copy(&self, alloc: Global) -> Result<Self::Kept, WantOfMemory>
        ensures { IfOk result (is_copied self.now) };

    /// Compares the opening with a copy, and returns the first difference.
    fn compare(&self, known: &Self::Kept) -> Result<(), Difference>
        ensures same { OnOk result (is_as_kept self.now known.now) }
        ensures differs { IfErr result (λ d. differs self.now known.now d.kept d.told) };

    /// Returns the tag or the group with this number.
    fn unit_of(number: u32) -> Unit
        ensures { result ≡ unit_of number };
}

/// Copies the opening of each unit. The one error is want of memory.
pub fn copies_of<T: Opened>(alloc: Global, opened: &[T]) -> Result<Vec<T::Kept>, WantOfMemory>
    ensures as_many { IfOk result (λ known. vec_len known ≡ length opened.now) }
    ensures copied { IfOk result (λ known. AllZip T.is_copied opened.now known.items) }
{
    let mut known = Vec::new(alloc);
    for one in opened {
        known.push(one.copy(alloc)?)?;
    }
    Ok(known)
}

/// Compares the opening of each unit with its copy. It stops at the first one that differs, and returns that as a
/// mismatch.
pub fn compare_all<T: Opened>(opened: &[T], known: &[T::Kept]) -> Result<(), Status>
    requires as_many { length known.now ≡ length opened.now }
    requires few { length opened.now < 2 ^ 32 }
    ensures same { OnOk result (AreAsKept T.is_as_kept opened.now known.now) }
    ensures differs { IfErr result (IsOpeningMismatch T.unit_of T.is_as_kept T.differs opened.now known.now) }
{
    for number in 0..opened.len() {
        if let Err(differs) = opened[number].compare(&known[number]) {
            return Err(Status::Mismatch {
                place: Place::Opening {
                    unit: T::unit_of(number as u32),
                },
                kept: differs.kept,
                told: differs.told,
            });
        }
    }
    Ok(())
}
