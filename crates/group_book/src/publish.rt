// Taking records into account.
ghost use Rattle.std.specs.Prelude.{◌≡◌, ◌+◌, All, IfErr, IfOk, OnErr, OnOk, length, map, vec_len, vec_capacity, ◌<◌};
ghost use Rattle.calc_refresh.specs.{lists_of, evaluated, fault_after, IsCopy};
ghost use Rattle.group_book.specs.Told.{GoesOn, IsPublished, pulled_records, versions_of};
ghost use Rattle.group_book.specs.Refusals.{IsBookToldOf};

use crate::book::Book;
use crate::refusal::RefreshNo;
use crate::turn::Turn;
use crate::unsaved::set_flags;
use calc_refresh::SheetNo;
use disk_model::Disk;
use std::alloc::Global;
use std::sync::ledger::Ledger;
use tag_cell::{Pulled, Receipt};
use trend_num::{Rec, Steps, WantOfMemory};

impl From<WantOfMemory> for RefreshNo {
    ghost use Rattle.std.specs.Prelude.{◌≡◌};
    ghost use Rattle.group_book.specs.declared.refusal.RefreshNo.TheVariants.{WantOfMemory as NoMemory};

    ghost from_gives = { λ _ no. no ≡ NoMemory };

    fn from(_: WantOfMemory) -> RefreshNo {
        RefreshNo::WantOfMemory
    }
}

impl From<SheetNo> for RefreshNo {
    ghost use Rattle.std.specs.Prelude.{◌≡◌};
    ghost use Rattle.group_book.specs.Refusals.{refusal_of};

    ghost from_gives = { λ why no. no ≡ refusal_of why };

    fn from(why: SheetNo) -> RefreshNo {
        match why {
            SheetNo::CellLimit { cells } => RefreshNo::CellLimit { cells },
            SheetNo::CopyLimit { records } => RefreshNo::CopyLimit { records },
            SheetNo::Shape { .. } | SheetNo::WantOfMemory => RefreshNo::WantOfMemory,
        }
    }
}

impl<D: Disk> Book<D> {
    /// Takes what was pulled of each input into account, and evaluates the windows that are newly complete or touched.
    /// The call leaves one `Refresh` on the tape, whose versions are where the pulls ended. It returns a receipt with
    /// the place of that turn. Returns `CellLimit` if the sheet would have more than 1,048,576 cells. Otherwise returns
    /// `CopyLimit` if the sheet would have more than 2,097,152 records. Returns `WantOfMemory` if no memory is found.
    /// After an error the book is unchanged. `Ahead` never comes.
    pub fn publish<L: Ledger>(
        &mut self,
        pulled: Vec<Pulled>,
        steps: &mut Steps<L>,
    ) -> Result<Receipt, RefreshNo>
        requires inputs { length pulled.items ≡ self.old.def.inputs }
        requires copied { All IsCopy (pulled_records pulled.items) }
        requires goes_on { GoesOn self.old.sheet.copies pulled.items }
        ensures published { OnOk result (IsPublished (pulled_records pulled.items) self.old self.new) }
        ensures upto { OnOk result (versions_of self.new ≡ map (λ p. p.upto) pulled.items) }
        ensures place { IfOk result (λ receipt. receipt.place ≡ length self.old.tape) }
        ensures steps { OnOk result (steps.new ≡ steps.old + evaluated self.old.sheet (pulled_records pulled.items)) }
        ensures unchanged { OnErr result (self.new ≡ self.old) }
        ensures no_steps { OnErr result (steps.new ≡ steps.old) }
        ensures fault { IfErr result (IsBookToldOf (fault_after self.old.sheet (pulled_records pulled.items))) }
    {
        let entry = uptos(self.alloc, &pulled)?;
        let versions = uptos(self.alloc, &pulled)?;
        let deltas = records_of(self.alloc, pulled)?;
        make_place(&mut self.tape)?;
        self.sheet.apply(&deltas, steps)?;
        set_flags(&mut self.unsaved, self.sheet.due());
        let place = self.tape.len() as u64;
        self.versions = versions;
        self.tape.push_reserved(Turn::Refresh { versions: entry });
        Ok(Receipt { place })
    }
}

// Returns where each pull ended.
fn uptos(alloc: Global, pulled: &[Pulled]) -> Result<Vec<u32>, WantOfMemory>
    ensures { IfOk result (λ v. v.items ≡ map (λ p. p.upto) pulled.now) }
{
    let mut versions = Vec::with_capacity(alloc, pulled.len())?;
    for one in pulled {
        versions.push_reserved(one.upto);
    }
    Ok(versions)
}

// Moves the pulled records out.
fn records_of(alloc: Global, pulled: Vec<Pulled>) -> Result<Vec<Vec<Rec>>, WantOfMemory>
    ensures { IfOk result (λ v. lists_of v.items ≡ pulled_records pulled.items) }
{
    let mut lists = Vec::new(alloc);
    for one in pulled {
        lists.push(one.recs)?;
    }
    Ok(lists)
}

// Makes room for one more turn on a tape.
pub(crate) fn make_place(tape: &mut Vec<Turn>) -> Result<(), WantOfMemory>
    ensures same { tape.new.items ≡ tape.old.items }
    ensures room { OnOk result (vec_len tape.new < vec_capacity tape.new) }
{
    Ok(tape.reserve(1)?)
}
