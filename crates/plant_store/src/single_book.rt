// One group: opening its book, and giving its device back.
ghost use Rattle.std.specs.Prelude.{◌≡◌, ◌≢◌, ℕ, ◌^◌, ◌<◌, List, All, IfErr, IfOk, IsTrue, OnErr, OnOk, length, map};
ghost use Rattle.calc_refresh.specs.{IsCopy};
ghost use Rattle.branded_disk.specs.{IsUnused, branded};
ghost use Rattle.disk_model.specs.{CountsFault};
ghost use Rattle.group_layout.specs.{GainsGroupSync};
ghost use Rattle.tag_base.specs.{IsSoundGroup};
ghost use Rattle.group_book.specs.declared.refusal.LoadNo.TheVariants.{DeviceFault, WantOfMemory as NoMemory};
ghost use Rattle.group_book.specs.{IsBookCause};
ghost use Rattle.plant_store.specs.Groups.{IsBookOpened, device_name, group_parts_of, input_records_of, group_definition_text};
ghost use Rattle.plant_store.specs.BookEndings.{IsBackUnder, IsHistoryOfBook, count_after};
ghost use Rattle.plant_store.specs.BookSteps.{StaysSameOf};

use crate::group_parts::{Prepared, prepare};
use branded_disk::{Begun, Branded, give_back, take};
use disk_model::Store;
use group_book::{Book, GroupHistory, LoadFail, LoadNo, load};
use std::alloc::Global;
use tag_base::GroupDef;
use trend_num::Rec;

/// Opens the group at this place of a base over the device of this name, and over the records of its inputs' tags.
/// `records` has, for each tag of the base, the records that it recovered. A device that does not exist is made. If the
/// group is not opened, the device is given back. [`book_status`](crate::book_status) has the status for the error.
pub fn open_book<K: Begun, S: Store>(
    alloc: Global,
    store: &mut S,
    place: u32,
    group: &GroupDef,
    name: &str,
    records: &[&[Rec]],
) -> Result<Book<Branded<S::Dev, K>>, LoadNo>
    requires sound { IsSoundGroup (length records.now) group.now }
    requires copied { All (λ r. IsCopy r.now) records.now }
    requires named { name.now ≡ device_name group.now.name }
    requires unused { IsUnused K.before (S.device_at store.old) name.now }

    // The book is that of the group, with what its device and its tags have.
    ensures opened { IfOk result (IsBookOpened (branded S.Dev.device K.before) place group.now
        (input_records_of (map (λ r. r.now) records.now) group.now) (S.device_at store.old name.now)) }

    // A refusal states its cause. A crash at any moment then leaves of the device what a crash might have left before, or
    // what stands for the same. The device gains one sync and nothing else if it was whole or damaged, a call of it has
    // not failed, and there was memory.
    ensures same { OnErr result (StaysSameOf name.now group.now (S.device_at store.old) (S.device_at store.new)) }
    ensures cause { IfErr result (IsBookCause (group_definition_text group.now) (group_parts_of group.now)
        (input_records_of (map (λ r. r.now) records.now) group.now) (S.device_at store.old name.now)) }
    ensures synced { IfErr result (λ why. why ≢ DeviceFault → why ≢ NoMemory
        → GainsGroupSync (group_definition_text group.now) (S.device_at store.old name.now) (S.device_at store.new name.now)) }

    // The store has a place for the device, and no other device has changed. The store counts one fault if a call has
    // failed, and otherwise none.
    ensures place { OnOk result (IsTrue (S.has_place store.new name.now)) }
    ensures places { (n : List ℕ) → IsTrue (S.has_place store.old n) → IsTrue (S.has_place store.new n) }
    ensures others { (n : List ℕ) → n ≢ name.now → S.device_at store.new n ≡ S.device_at store.old n }
    ensures counts { S.fault_count store.old < 2 ^ 64
        → CountsFault result DeviceFault (S.fault_count store.old) (S.fault_count store.new) }
{
    let Ok(prepared) = prepare(alloc, group, records) else {
        return Err(LoadNo::WantOfMemory);
    };
    let Ok(dev) = take(store, name) else {
        return Err(LoadNo::DeviceFault);
    };
    let Prepared {
        def,
        text,
        tags,
        recovered,
    } = prepared;
    match load(alloc, dev, place, &def, &text, tags, &recovered) {
        Ok(book) => Ok(book),
        Err(LoadFail { dev, why }) => {
            give_back(store, name, dev);
            Err(why)
        }
    }
}

/// Gives the device of a book back under this name, if it has one, and returns what happened to its group. It takes no
/// memory. The faults of the device are added to those of the store.
pub fn close_book<K: Begun, S: Store>(
    store: &mut S,
    name: &str,
    book: Book<Branded<S::Dev, K>>,
) -> GroupHistory
    requires place { IsTrue (S.has_place store.old name.now) }
    ensures history { IsHistoryOfBook (branded S.Dev.device K.before) book result }
    ensures given { IsBackUnder (branded S.Dev.device K.before) book name.now (S.device_at store.old name.now) (S.device_at store.new name.now) }
    ensures places { (n : List ℕ) → IsTrue (S.has_place store.old n) → IsTrue (S.has_place store.new n) }
    ensures others { (n : List ℕ) → n ≢ name.now → S.device_at store.new n ≡ S.device_at store.old n }
    ensures counted { S.fault_count store.new ≡ count_after (branded S.Dev.device K.before) book.dev (S.fault_count store.old) }
{
    let (dev, history) = book.into_history();
    if let Some(dev) = dev {
        give_back(store, name, dev);
    }
    history
}
