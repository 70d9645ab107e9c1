// Giving back the devices of cells.
ghost use Rattle.std.specs.Prelude.{◌≡◌, ◌≢◌, ℕ, ◌^◌, ◌<◌, ◌≤◌, List, [], IsTrue, true, vec_len, vec_capacity, length};
ghost use Rattle.branded_disk.specs.{branded};
ghost use Rattle.disk_model.specs.{sum_of_counts};
ghost use Rattle.plant_store.specs.CellClosings.{AreGivenBack, AreHistoriesAt, AreHistoriesOf, CountsCells, IsHistoryOfCell};
ghost use Rattle.plant_store.specs.CellNames.{AreApart, HasPlaces, texts};
ghost use Rattle.tag_cell.specs.{device_name};

use branded_disk::{Begun, Branded, give_back};
use disk_model::{Disk, Store};
use tag_cell::{Cell, TagHistory};

/// Gives the device of each cell back under the name at its place, which is that of its tag's device. Appends what
/// happened to its tag to `histories`, in order. It takes no memory.
pub fn close_cells<K: Begun, S: Store>(
    store: &mut S,
    names: &[String],
    cells: Vec<Cell<Branded<S::Dev, K>>>,
    histories: &mut Vec<TagHistory>,
)
    requires as_many { length names.now ≡ vec_len cells }
    requires none { histories.old.items ≡ [] }
    requires room { vec_len cells ≤ vec_capacity histories.old }
    requires apart { AreApart (texts names.now) }
    requires places { HasPlaces (S.has_place store.old) (texts names.now) }
    ensures histories { AreHistoriesOf (branded S.Dev.device K.before) cells.items histories.new.items }
    ensures devices { AreHistoriesAt K.before (S.device_at store.new) (texts names.now) histories.new.items }
    ensures given_back { AreGivenBack (branded S.Dev.device K.before) (texts names.now) cells.items (S.device_at store.old) (S.device_at store.new) }
    ensures kept_places { (n : List ℕ) → IsTrue (S.has_place store.old n) → IsTrue (S.has_place store.new n) }
    ensures counts { S.fault_count store.old < 2 ^ 64
        → CountsCells (branded S.Dev.device K.before) cells.items (S.fault_count store.old) (S.fault_count store.new) }
{
    let mut rest = cells.into_iter();
    while let Some(cell) = rest.next() {
        let history = close_cell(store, names[histories.len()].as_str(), cell);
        histories.push_reserved(history);
    }
    rest.destroy_empty();
}

// Gives the device of a cell back under this name, and returns what happened to its tag.
pub(crate) fn close_cell<K: Begun, S: Store>(
    store: &mut S,
    name: &str,
    cell: Cell<Branded<S::Dev, K>>,
) -> TagHistory
    requires { IsTrue (S.has_place store.old name.now) }
    ensures history { IsHistoryOfCell (branded S.Dev.device K.before cell.journal.dev) cell result }
    ensures told { name.now ≡ device_name cell.def.name → S.device_at store.new name.now ≡ (branded S.Dev.device K.before cell.journal.dev).trace }
    ensures others { (n : List ℕ) → n ≢ name.now → S.device_at store.new n ≡ S.device_at store.old n }
    ensures places { (n : List ℕ) → IsTrue (S.has_place store.old n) → IsTrue (S.has_place store.new n) }
    ensures counted { S.fault_count store.new ≡ sum_of_counts (S.fault_count store.old) (branded S.Dev.device K.before cell.journal.dev).faults }
    ensures faulty { cell.journal.failed ≡ true → 1 ≤ (branded S.Dev.device K.before cell.journal.dev).faults }
{
    let (dev, history) = cell.into_history();
    give_back(store, name, dev);
    history
}
