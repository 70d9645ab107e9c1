// Opening the groups of a base.
ghost use Rattle.std.specs.Prelude.{◌≡◌, ℕ, ◌^◌, ◌<◌, ◌≤◌, List, [], All, IfErr, IfOk, IsTrue, OnErr, OnOk, length, map, vec_capacity};
ghost use Rattle.calc_refresh.specs.{IsCopy};
ghost use Rattle.branded_disk.specs.{branded};
ghost use Rattle.disk_model.specs.{CountsFault};
ghost use Rattle.tag_base.specs.{IsSoundGroup};
ghost use Rattle.group_book.specs.declared.refusal.LoadNo.TheVariants.{DeviceFault};
ghost use Rattle.plant_store.specs.Groups.{AllStaySame, AreBooksOpened, AreDistinct, AreGroupsUnused, AreNamesOf, AreOtherGroupsSame};
ghost use Rattle.plant_store.specs.BookRefusals.{CountsStore, IsRefusal};
ghost use Rattle.plant_store.specs.BookSteps.{HavePlaces, IsCauseAt, RestStaysSame};

use crate::book_closing::give_back_all;
use crate::book_refusal::book_status;
use crate::single_book::open_book;
use branded_disk::{Begun, Branded};
use disk_model::Store;
use group_book::{Book, LoadNo};
use plant_status::Status;
use std::alloc::Global;
use tag_base::GroupDef;
use trend_num::Rec;

/// Opens each group of a base in order, over its device and over the records of its inputs' tags. `records` has, for
/// each tag of the base, the records that it recovered. A device that does not exist is made.
///
/// If it is told what a device was when the command began, it has to be that still.
///
/// At the first group that is not opened it gives every device back, and returns that group's refusal.
pub fn open_books<K: Begun, S: Store>(
    alloc: Global,
    store: &mut S,
    groups: &[GroupDef],
    names: &[String],
    records: &[&[Rec]],
) -> Result<Vec<Book<Branded<S::Dev, K>>>, Status>
    requires sound { All (IsSoundGroup (length records.now)) groups.now }
    requires few { length groups.now < 2 ^ 32 }
    requires distinct { AreDistinct groups.now }
    requires unused { AreGroupsUnused K.before groups.now (S.device_at store.old) }
    requires names { AreNamesOf groups.now names.now }
    requires copied { All (λ r. IsCopy r.now) records.now }

    // Each book is that of its group, with what its device and its tags have.
    ensures opened { IfOk result (λ books. AreBooksOpened (branded S.Dev.device K.before) groups.now
        (map (λ r. r.now) records.now) (S.device_at store.old) books.items) }
    ensures as_many { IfOk result (λ books. length books.items ≡ length groups.now) }
    ensures places { OnOk result (HavePlaces (length groups.now) names.now (S.has_place store.new)) }

    // A refusal states its cause. A crash at any moment then leaves of each device what a crash might have left before,
    // or what stands for the same.
    ensures refused { IfErr result (IsRefusal groups.now (map (λ r. r.now) records.now) (S.device_at store.old)
        (S.fault_count store.old) (S.fault_count store.new)) }
    ensures any_moment { OnErr result (AllStaySame groups.now (S.device_at store.old) (S.device_at store.new)) }

    // No other device changes. The store counts one fault if a call has failed, and otherwise none.
    ensures others { AreOtherGroupsSame groups.now (S.device_at store.old) (S.device_at store.new) }
    ensures kept_places { (n : List ℕ) → IsTrue (S.has_place store.old n) → IsTrue (S.has_place store.new n) }
    ensures counts { S.fault_count store.old < 2 ^ 64
        → CountsStore result (S.fault_count store.old) (S.fault_count store.new) }
{
    let Ok(mut books) = Vec::with_capacity(alloc, groups.len()) else {
        return Err(Status::WantOfMemory);
    };
    match open_all(alloc, store, groups, names, records, &mut books) {
        Ok(()) => Ok(books),
        Err(why) => {
            let group = books.len() as u32;
            give_back_all(store, names, books);
            Err(book_status(group, why))
        }
    }
}

// Opens the groups in order, and appends the book of each to `books`. At the first group that is not opened it gives
// that group's device back, and returns why.
fn open_all<K: Begun, S: Store>(
    alloc: Global,
    store: &mut S,
    groups: &[GroupDef],
    names: &[String],
    records: &[&[Rec]],
    books: &mut Vec<Book<Branded<S::Dev, K>>>,
) -> Result<(), LoadNo>
    requires sound { All (IsSoundGroup (length records.now)) groups.now }
    requires few { length groups.now < 2 ^ 32 }
    requires distinct { AreDistinct groups.now }
    requires unused { AreGroupsUnused K.before groups.now (S.device_at store.old) }
    requires names { AreNamesOf groups.now names.now }
    requires copied { All (λ r. IsCopy r.now) records.now }
    requires none { books.old.items ≡ [] }
    requires room { length groups.now ≤ vec_capacity books.old }
    ensures opened { AreBooksOpened (branded S.Dev.device K.before) groups.now
        (map (λ r. r.now) records.now) (S.device_at store.old) books.new.items }
    ensures all { OnOk result (length books.new.items ≡ length groups.now) }
    ensures some { OnErr result (length books.new.items < length groups.now) }
    ensures places { HavePlaces (length books.new.items) names.now (S.has_place store.new) }
    ensures rest { RestStaysSame (length books.new.items) groups.now (S.device_at store.old) (S.device_at store.new) }
    ensures others { AreOtherGroupsSame groups.now (S.device_at store.old) (S.device_at store.new) }
    ensures kept_places { (n : List ℕ) → IsTrue (S.has_place store.old n) → IsTrue (S.has_place store.new n) }
    ensures cause { IfErr result (IsCauseAt (length books.new.items) groups.now (map (λ r. r.now) records.now) (S.device_at store.old)) }
    ensures counts { S.fault_count store.old < 2 ^ 64
        → CountsFault result DeviceFault (S.fault_count store.old) (S.fault_count store.new) }
{
    for place in 0..groups.len() {
        let (group, name) = (&groups[place], names[place].as_str());
        let book = open_book(alloc, store, place as u32, group, name, records)?;
        books.push_reserved(book);
    }
    Ok(())
}
