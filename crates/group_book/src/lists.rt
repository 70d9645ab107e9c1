// The refresh of a book from lists of records.
ghost use Rattle.std.specs.Prelude.{◌≡◌, ◌<◌, ◌≤◌, [], All, IfErr, IfOk, OnErr, OnOk, length, map, slice_index_or};
ghost use Rattle.calc_refresh.specs.{fault_after, IsCopy, grid_of};
ghost use Rattle.group_book.specs.InputLists.{ArePullsOf, IsListsRefusal, IsPullAhead, IsPullOf, IsPullRefusal, lists_at};
ghost use Rattle.group_book.specs.Refusals.{IsBookToldOf};
ghost use Rattle.group_book.specs.Tapes.{uncut};
ghost use Rattle.group_book.specs.Told.{GoesOn, IsPublished, pulled_records, versions_of};

use crate::book::Book;
use crate::refusal::RefreshNo;
use disk_model::Disk;
use std::alloc::Global;
use std::marker::Brand;
use std::sync::ledger::{Blank, Ledger};
use tag_cell::Pulled;
use trend_num::{Rec, Steps};

impl<D: Disk> Book<D> {
    /// Takes all records of each input's tag into account, as [`Book::publish`] does. `records` has one list for each
    /// tag. A tag without a list has no record. Returns `Ahead` if the version of an input is above the number of
    /// records of its tag. Returns `CellLimit` or `CopyLimit` if the sheet would be too large, and `WantOfMemory` if no
    /// memory is found. After an error the book is unchanged.
    pub fn refresh_from(&mut self, records: &[&[Rec]]) -> Result<(), RefreshNo>
        requires copied { All (λ r. IsCopy r.now) records.now }
        ensures published { OnOk result (IsPublished (uncut (versions_of self.old) (lists_at (map (λ r. r.now) records.now) self.old.tags))
            self.old self.new) }
        ensures versions { OnOk result (versions_of self.new ≡ map length (lists_at (map (λ r. r.now) records.now) self.old.tags)) }
        ensures unchanged { OnErr result (self.new ≡ self.old) }
        ensures refused { IfErr result (IsListsRefusal (lists_at (map (λ r. r.now) records.now) self.old.tags) self.old) }
        ensures inputs { length self.old.tags ≡ length self.old.sheet.copies }

        // The sheet is that of the definition.
        ensures same_group { self.old.sheet.group ≡ self.old.def.calcs }
        ensures same_grid { self.old.sheet.grid ≡ grid_of self.old.def.start self.old.def.period }
    {
        match pull_all(self.alloc, records, &self.tags, &self.versions) {
            Ok(pulled) => publish_alone(self, pulled),
            Err(why) => Err(why),
        }
    }
}

// Pulls from the list of each of these tags the records after the version of its input.
fn pull_all(
    alloc: Global,
    records: &[&[Rec]],
    tags: &[u32],
    versions: &[u32],
) -> Result<Vec<Pulled>, RefreshNo>
    requires inputs { length tags.now ≡ length versions.now }
    requires few { length tags.now ≤ 64 }
    requires copied { All (λ r. IsCopy r.now) records.now }
    ensures pulls { IfOk result (λ v. ArePullsOf (lists_at (map (λ r. r.now) records.now) tags.now) versions.now v.items) }
    ensures ahead { IfErr result (IsPullAhead (lists_at (map (λ r. r.now) records.now) tags.now) versions.now) }
{
    let mut pulled = Vec::new(alloc);
    for input in 0..tags.len() {
        let list = list_of(records, tags[input]);
        let one = pull_one(alloc, list, input as u32, versions[input])?;
        let Ok(()) = pulled.push(one) else {
            return Err(RefreshNo::WantOfMemory);
        };
    }
    Ok(pulled)
}

// Returns the list of a tag, or an empty list if the tag has none.
fn list_of<'a>(records: &[&'a [Rec]], tag: u32) -> &'a [Rec]
    requires copied { All (λ r. IsCopy r.now) records.now }
    ensures list { result.now ≡ slice_index_or (map (λ r. r.now) records.now) tag [] }
    ensures copied { IsCopy result.now }
{
    match records.get(tag as usize) {
        None => &[],
        Some(list) => *list,
    }
}

// Pulls the records of a list after the first `from`. Refuses a list that has fewer.
fn pull_one(alloc: Global, list: &[Rec], input: u32, from: u32) -> Result<Pulled, RefreshNo>
    requires copied { IsCopy list.now }
    ensures pull { IfOk result (IsPullOf list.now from) }
    ensures refused { IfErr result (IsPullRefusal list.now input from) }
{
    if list.len() < from as usize {
        return Err(RefreshNo::Ahead {
            input,
            version: from,
            records: list.len() as u32,
        });
    }
    let Ok(recs) = Vec::from_slice(alloc, &list[from as usize..]) else {
        return Err(RefreshNo::WantOfMemory);
    };
    Ok(Pulled {
        upto: list.len() as u32,
        recs,
    })
}

// Takes what was pulled into account. The steps are counted, but nobody reads the count.
fn publish_alone<D: Disk>(book: &mut Book<D>, pulled: Vec<Pulled>) -> Result<(), RefreshNo>
    requires inputs { length pulled.items ≡ book.old.def.inputs }
    requires copied { All IsCopy (pulled_records pulled.items) }
    requires goes_on { GoesOn book.old.sheet.copies pulled.items }
    ensures published { OnOk result (IsPublished (pulled_records pulled.items) book.old book.new) }
    ensures upto { OnOk result (versions_of book.new ≡ map (λ p. p.upto) pulled.items) }
    ensures unchanged { OnErr result (book.new ≡ book.old) }
    ensures fault { IfErr result (IsBookToldOf (fault_after book.old.sheet (pulled_records pulled.items))) }
{
    publish_on::<Brand, D>(book, pulled, Blank::new(1))
}

// The same, on the ledger of a blank.
fn publish_on<L: Ledger, D: Disk>(
    book: &mut Book<D>,
    pulled: Vec<Pulled>,
    blank: Blank,
) -> Result<(), RefreshNo>
    requires name { blank.name ≡ L.name }
    requires parts { blank.parts ≡ L.parts }
    requires some { 0 < L.parts }
    requires inputs { length pulled.items ≡ book.old.def.inputs }
    requires copied { All IsCopy (pulled_records pulled.items) }
    requires goes_on { GoesOn book.old.sheet.copies pulled.items }
    ensures published { OnOk result (IsPublished (pulled_records pulled.items) book.old book.new) }
    ensures upto { OnOk result (versions_of book.new ≡ map (λ p. p.upto) pulled.items) }
    ensures unchanged { OnErr result (book.new ≡ book.old) }
    ensures fault { IfErr result (IsBookToldOf (fault_after book.old.sheet (pulled_records pulled.items))) }
{
    let mut steps = Steps::<L>::new(blank);
    book.publish(pulled, &mut steps)?;
    Ok(())
}
