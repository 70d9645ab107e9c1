// Giving back the devices of a plant.
ghost use Rattle.std.specs.Prelude.{◌≡◌, ◌^◌, ◌<◌, length, vec_len};
ghost use Rattle.branded_disk.specs.{branded};
ghost use Rattle.plant_store.specs.CellClosings.{AreHistoriesAt, AreHistoriesOf};
ghost use Rattle.plant_store.specs.CellNames.{texts};
ghost use Rattle.plant_store.specs.BookEndings.{AreHistoriesOf as AreGroupHistoriesOf};
ghost use Rattle.plant_store.specs.Closings.{AreDevicesBack, CountsClosed};
ghost use Rattle.plant_store.specs.Shelves.{HasPlacesOf, IsShelf};

use crate::book_closing::close_books;
use crate::cell_closing::close_cells;
use crate::opening::OpenPlant;
use crate::shelf::Shelf;
use branded_disk::{Begun, Branded};
use disk_model::Store;
use group_book::GroupHistory;
use tag_cell::TagHistory;

/// Gives every device of a plant back under its name, and returns what happened to each tag and to each group, in
/// order. It takes no memory.
pub fn close_plant<K: Begun, S: Store>(
    store: &mut S,
    shelf: Shelf,
    plant: OpenPlant<Branded<S::Dev, K>>,
) -> (Vec<TagHistory>, Vec<GroupHistory>)
    requires shelf { IsShelf shelf }
    requires tags { length shelf.tag_names.items ≡ vec_len plant.cells }
    requires groups { length shelf.group_names.items ≡ vec_len plant.books }
    requires places { HasPlacesOf shelf (S.has_place store.old) }

    // There is one history for each cell and each book, at the same place.
    ensures tags { AreHistoriesOf (branded S.Dev.device K.before) plant.cells.items result.0.items }
    ensures groups { AreGroupHistoriesOf (branded S.Dev.device K.before) plant.books.items result.1.items }

    // The device of each is back under its name, and no other device has changed.
    ensures back { AreDevicesBack (branded S.Dev.device K.before) shelf plant.cells.items plant.books.items (S.device_at store.old)
        (S.device_at store.new) }
    ensures devices { AreHistoriesAt K.before (S.device_at store.new) (texts shelf.tag_names.items) result.0.items }

    // The faults of the devices are added to the store's.
    ensures counts { S.fault_count store.old < 2 ^ 64 → CountsClosed (branded S.Dev.device K.before) plant.cells.items plant.books.items
        (S.fault_count store.old) (S.fault_count store.new) }
{
    let Shelf {
        tag_names,
        group_names,
        mut tags,
        mut groups,
    } = shelf;
    let OpenPlant { cells, books } = plant;
    close_books(store, &group_names, books, &mut groups);
    close_cells(store, &tag_names, cells, &mut tags);
    (tags, groups)
}
