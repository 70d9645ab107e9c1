// Giving back the devices of books.
ghost use Rattle.std.specs.Prelude.{◌≡◌, ◌≢◌, ℕ, ◌^◌, ◌<◌, ◌≤◌, List, [], All, AllPairs, IsTrue, length, slice_index_or, string_bytes, vec_capacity, vec_len};
ghost use Rattle.group_book.specs.{ToldBook, faults_of};
ghost use Rattle.branded_disk.specs.{branded};
ghost use Rattle.plant_store.specs.BookEndings.{AreGivenBack, AreHistoriesOf, counts_after};
ghost use Rattle.plant_store.specs.CellClosings.{HasRisen};
ghost use Rattle.plant_store.specs.BookSteps.{AreOtherNamesSame, HavePlaces};

use crate::single_book::close_book;
use branded_disk::{Begun, Branded};
use disk_model::Store;
use group_book::{Book, GroupHistory};

/// Gives the device of each book back under its name, and appends what happened to its group to `histories`, in order.
/// It takes no memory.
pub fn close_books<K: Begun, S: Store>(
    store: &mut S,
    names: &[String],
    books: Vec<Book<Branded<S::Dev, K>>>,
    histories: &mut Vec<GroupHistory>,
)
    requires as_many { length names.now ≡ vec_len books }
    requires none { histories.old.items ≡ [] }
    requires room { vec_len books ≤ vec_capacity histories.old }
    requires places { HavePlaces (length names.now) names.now (S.has_place store.old) }
    requires distinct { AllPairs (λ a b. string_bytes a ≢ string_bytes b) names.now }

    // There is one history for each book, at the same place. Its device is back, and no other device has changed.
    ensures closed { AreHistoriesOf (branded S.Dev.device K.before) books.items histories.new.items }
    ensures given { AreGivenBack (branded S.Dev.device K.before) names.now books.items (S.device_at store.old) (S.device_at store.new) }
    ensures others { AreOtherNamesSame (length names.now) names.now (S.device_at store.old) (S.device_at store.new) }
    ensures kept_places { (n : List ℕ) → IsTrue (S.has_place store.old n) → IsTrue (S.has_place store.new n) }

    // The faults of the devices are added to the store's count, which does not fall. It rises, or is the largest value
    // of its type, if a device has counted a fault. It is unchanged if none has.
    ensures counted { S.fault_count store.new ≡ counts_after (branded S.Dev.device K.before) books.items (S.fault_count store.old) }
    ensures later { S.fault_count store.old < 2 ^ 64 → S.fault_count store.old ≤ S.fault_count store.new }
    ensures rose { S.fault_count store.old < 2 ^ 64 → (i : ℕ) (b : ToldBook S.Dev) → i < length books.items
        → 0 < faults_of (branded S.Dev.device K.before) (slice_index_or books.items i b).dev
        → HasRisen (S.fault_count store.old) (S.fault_count store.new) }
    ensures faultless { S.fault_count store.old < 2 ^ 64
        → All (λ b. faults_of (branded S.Dev.device K.before) b.dev ≡ 0) books.items → S.fault_count store.new ≡ S.fault_count store.old }
{
    let mut rest = books.into_iter();
    let mut place = 0;
    while let Some(book) = rest.next() {
        let history = close_book(store, names[place].as_str(), book);
        histories.push_reserved(history);
        place += 1;
    }
    rest.destroy_empty();
}

// Gives the device of each book back under the name at its place, and drops the histories.
pub(crate) fn give_back_all<K: Begun, S: Store>(
    store: &mut S,
    names: &[String],
    books: Vec<Book<Branded<S::Dev, K>>>,
)
    requires named { vec_len books ≤ length names.now }
    requires places { HavePlaces (vec_len books) names.now (S.has_place store.old) }
    requires distinct { AllPairs (λ a b. string_bytes a ≢ string_bytes b) names.now }
    ensures given { AreGivenBack (branded S.Dev.device K.before) names.now books.items (S.device_at store.old) (S.device_at store.new) }
    ensures others { AreOtherNamesSame (vec_len books) names.now (S.device_at store.old) (S.device_at store.new) }
    ensures kept_places { (n : List ℕ) → IsTrue (S.has_place store.old n) → IsTrue (S.has_place store.new n) }
    ensures counted { S.fault_count store.new ≡ counts_after (branded S.Dev.device K.before) books.items (S.fault_count store.old) }
{
    let mut rest = books.into_iter();
    let mut place = 0;
    while let Some(book) = rest.next() {
        drop(close_book(store, names[place].as_str(), book));
        place += 1;
    }
    rest.destroy_empty();
}
