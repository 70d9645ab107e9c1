// The groups of a base, each refreshed once from the records of its tags.
ghost use Rattle.std.specs.Prelude.{◌≡◌, ℕ, ◌^◌, ◌<◌, All, IfErr, IfOk, OnErr, OnOk, length, map};
ghost use Rattle.calc_refresh.specs.{IsCopy, grid_of};
ghost use Rattle.plant_files.specs.Reading.{faults_told};
ghost use Rattle.tag_base.specs.{IsSoundGroup};
ghost use Rattle.plant_store.specs.Groups.{AllStaySame, AreDistinct, AreOtherGroupsSame};
ghost use Rattle.plant_store.specs.BookRefusals.{CountsStore};
ghost use Rattle.group_book.specs.{lists_at};
ghost use Rattle.store_commands.specs.Replies.{rows_in};
ghost use Rattle.store_commands.specs.GroupRows.{AllGainSync, AreGroupsTold, IsGroupRowsRefusal, tag_records};
ghost use Rattle.store_commands.specs.Refreshing.{AreCutBooks, AreRefreshedOnce, HaveDevicesOf, IsCutBook, IsOverIn, IsOverSome, IsRefreshedOnce, book_cells, refresh_status};

use branded_disk::Untold;
use disk_model::{Disk, Store};
use group_book::{Book, GroupHistory, RefreshNo};
use plant_status::{Status, What};
use plant_store::{close_books, group_device_names, open_books};
use std::alloc::Global;
use tag_base::GroupDef;
use tag_core::TagCore;
use trend_num::{Rec, WantOfMemory};

// Opens each group over its device, refreshes it once from all records of its tags, and gives its device back. Returns
// the groups' histories. `cores` are the tags of the base.
pub(crate) fn histories_of<S: Store>(
    alloc: Global,
    store: &mut S,
    groups: &[GroupDef],
    cores: &[TagCore],
) -> Result<Vec<GroupHistory>, Status>
    requires sound { All (IsSoundGroup (length cores.now)) groups.now }
    requires few { length groups.now < 2 ^ 32 }
    requires distinct { AreDistinct groups.now }
    requires short { All (λ core. length core.state.records < 2 ^ 32) cores.now }
    ensures told { IfOk result (λ h. AreGroupsTold groups.now (tag_records cores.now) (S.device_at store.old) (rows_in h.items)) }
    ensures refused { IfErr result (IsGroupRowsRefusal groups.now (tag_records cores.now) (S.device_at store.old)
        (S.device_at store.new) (S.fault_count store.old) (S.fault_count store.new)) }
    ensures no_file_fault { IfErr result (λ why. (n : ℕ) → faults_told why n ≡ n) }
    ensures same { AllStaySame groups.now (S.device_at store.old) (S.device_at store.new) }
    ensures synced { OnOk result (AllGainSync groups.now (S.device_at store.old) (S.device_at store.new)) }
    ensures others { AreOtherGroupsSame groups.now (S.device_at store.old) (S.device_at store.new) }
    ensures counts { S.fault_count store.old < 2 ^ 64
        → CountsStore result (S.fault_count store.old) (S.fault_count store.new) }
{
    let Ok(names) = group_device_names(alloc, groups) else {
        return Err(Status::WantOfMemory);
    };
    let Ok(records) = records_of(alloc, cores) else {
        return Err(Status::WantOfMemory);
    };
    let Ok(mut histories) = Vec::with_capacity(alloc, groups.len()) else {
        return Err(Status::WantOfMemory);
    };
    let mut books = open_books::<Untold, S>(alloc, store, groups, &names, &records)?;
    let refreshed = refresh_all(&mut books, &records);
    close_books(store, &names, books, &mut histories);
    refreshed.and(Ok(histories))
}

// The records of each tag.
pub(crate) fn records_of(alloc: Global, cores: &[TagCore]) -> Result<Vec<&[Rec]>, WantOfMemory>
    requires short { All (λ core. length core.state.records < 2 ^ 32) cores.now }
    ensures records { IfOk result (λ v. map (λ r. r.now) v.items ≡ tag_records cores.now) }
    ensures copied { IfOk result (λ v. All (λ r. IsCopy r.now) v.items) }
{
    let mut records = Vec::new(alloc);
    for core in cores {
        records.push(core.recs())?;
    }
    Ok(records)
}

// Refreshes each book once, from all records of its tags. Stops at the first book that refuses.
fn refresh_all<D: Disk>(books: &mut Vec<Book<D>>, records: &[&[Rec]]) -> Result<(), Status>
    requires copied { All (λ r. IsCopy r.now) records.now }
    requires cut { AreCutBooks (map (λ r. r.now) records.now) books.old.items }
    ensures same { HaveDevicesOf books.old.items books.new.items }
    ensures refreshed { OnOk result (AreRefreshedOnce (map (λ r. r.now) records.now) books.old.items books.new.items) }
    ensures refused { IfErr result (IsOverSome (map (λ r. r.now) records.now) books.old.items) }
{
    for place in 0..books.len() {
        if let Err(no) = refresh_once(&mut books[place], records) {
            return Err(refusal_of(no));
        }
    }
    Ok(())
}

// Refreshes a group from all records of its tags. Changes nothing if it refuses.
pub(crate) fn refresh_once<D: Disk>(book: &mut Book<D>, records: &[&[Rec]]) -> Result<(), RefreshNo>
    requires copied { All (λ r. IsCopy r.now) records.now }
    requires cut { IsCutBook (map (λ r. r.now) records.now) book.old }
    ensures refreshed { OnOk result (IsRefreshedOnce (map (λ r. r.now) records.now) book.old book.new) }
    ensures unchanged { OnErr result (book.new ≡ book.old) }
    ensures refused { IfErr result (IsOverIn (book_cells book.old.def (lists_at (map (λ r. r.now) records.now) book.old.tags))
        (lists_at (map (λ r. r.now) records.now) book.old.tags)) }
    ensures inputs { length book.old.tags ≡ length book.old.sheet.copies }
    ensures same_grid { book.old.sheet.grid ≡ grid_of book.old.def.start book.old.def.period }
{
    book.refresh_from(records)
}

// The status of a refused refresh. `Ahead` never comes here, because a book's versions count records of these lists.
// The function reports it as `WantOfMemory`.
pub(crate) fn refusal_of(no: RefreshNo) -> Status
    ensures { result ≡ refresh_status no }
{
    match no {
        RefreshNo::CellLimit { cells } => Status::Limit {
            what: What::Cells,
            number: cells,
        },
        RefreshNo::CopyLimit { records } => Status::Limit {
            what: What::Copies,
            number: records,
        },
        RefreshNo::Ahead { .. } | RefreshNo::WantOfMemory => Status::WantOfMemory,
    }
}
