// The refresh of a book from the cells of its inputs.
ghost use Rattle.std.specs.Prelude.{◌≡◌, ℕ, ◌+◌, ◌<◌, ◌≤◌, [], List, All, IfErr, IfOk, OnErr, OnOk, length, slice_index, slice_index_or};
ghost use Rattle.trend_num.specs.{Rec};
ghost use Rattle.calc_refresh.specs.{IsCopy};
ghost use Rattle.tag_cell.specs.{Pulled};
ghost use Rattle.group_book.specs.Told.{GivesNone, IsPublished, pulled_records, versions_of};
ghost use Rattle.group_book.specs.Refusals.{IsAheadAt, IsPullCause, IsRefreshCause};

use crate::book::Book;
use crate::refusal::RefreshNo;
use disk_model::Disk;
use std::alloc::Global;
use std::sync::ledger::Ledger;
use std::sync::{Mutex, Wait};
use tag_cell::{Cell, PullNo, Pulled, Receipt};
use trend_num::Steps;

impl<D: Disk> Book<D> {
    /// Pulls from each input's cell under its lock, in the order of the inputs, and takes what was pulled into account.
    /// An input whose tag is not below the number of cells gives no record. Returns a receipt with the place of the
    /// turn on the tape. Returns `Ahead` if the version of an input is above the number of records that its tag has
    /// acknowledged. Returns `CellLimit` or `CopyLimit` if the sheet would be too large, and `WantOfMemory` if no
    /// memory is found. After an error the book is unchanged. The pulls made so far remain on the tags' tapes.
    pub fn refresh<C: Disk, L: Ledger, R: Wait>(
        &mut self,
        rt: &R,
        cells: &[Mutex<Cell<C>>],
        steps: &mut Steps<L>,
    ) -> Result<Receipt, RefreshNo>
        ensures published { OnOk result ((mores : List (List Rec)) × IsPublished mores self.old self.new
            × GivesNone self.old.tags (length cells.now) mores) }
        ensures place { IfOk result (λ receipt. receipt.place ≡ length self.old.tape) }
        ensures unchanged { OnErr result (self.new ≡ self.old) }
        ensures cause { IfErr result (IsRefreshCause (versions_of self.old)) }
    {
        match pull_all(
            self.alloc,
            rt,
            cells,
            self.group,
            &self.tags,
            &self.versions,
        ) {
            Ok(pulled) => self.publish(pulled, steps),
            Err(why) => Err(why),
        }
    }
}

// Pulls from each of these tags, in their order, the records after the version of its input.
fn pull_all<C: Disk, R: Wait>(
    alloc: Global,
    rt: &R,
    cells: &[Mutex<Cell<C>>],
    group: u32,
    tags: &[u32],
    versions: &[u32],
) -> Result<Vec<Pulled>, RefreshNo>
    requires inputs { length tags.now ≡ length versions.now }
    requires few { length tags.now ≤ 64 }
    ensures len { IfOk result (λ v. length v.items ≡ length tags.now) }
    ensures copied { IfOk result (λ v. All IsCopy (pulled_records v.items)) }
    ensures goes_on { IfOk result (λ v. (i : ℕ) (p : Pulled) → i < length v.items
        → (slice_index_or v.items i p).upto ≡ slice_index versions.now i + length (slice_index_or v.items i p).recs.items) }
    ensures none { IfOk result (λ v. GivesNone tags.now (length cells.now) (pulled_records v.items)) }
    ensures cause { IfErr result (IsPullCause versions.now) }
{
    let mut pulled = Vec::new(alloc);
    for i in 0..tags.len() {
        let one = pull_one(alloc, rt, cells, group, tags[i], i as u32, versions[i])?;
        let Ok(()) = pulled.push(one) else {
            return Err(RefreshNo::WantOfMemory);
        };
    }
    Ok(pulled)
}

// Pulls the records after the version of an input from a tag, under its lock. Pulls nothing if there is no such tag.
fn pull_one<C: Disk, R: Wait>(
    alloc: Global,
    rt: &R,
    cells: &[Mutex<Cell<C>>],
    group: u32,
    tag: u32,
    input: u32,
    from: u32,
) -> Result<Pulled, RefreshNo>
    ensures upto { IfOk result (λ p. p.upto ≡ from + length p.recs.items) }
    ensures copied { IfOk result (λ p. IsCopy p.recs.items) }
    ensures none { IfOk result (λ p. length cells.now ≤ tag → p.recs.items ≡ []) }
    ensures cause { IfErr result (IsAheadAt input from) }
{
    let Some(cell) = cells.get(tag as usize) else {
        return Ok(Pulled {
            upto: from,
            recs: Vec::new(alloc),
        });
    };
    match cell.lock(rt).pull(group, from) {
        Ok(pulled) => Ok(pulled),
        Err(PullNo::Ahead { from, acked }) => Err(RefreshNo::Ahead {
            input,
            version: from,
            records: acked,
        }),
        Err(PullNo::WantOfMemory) => Err(RefreshNo::WantOfMemory),
    }
}
