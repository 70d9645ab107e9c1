// Opening a plant.
ghost use Rattle.std.specs.Prelude.{◌≡◌, ◌^◌, ◌<◌, ◌≤◌, ℕ, List, All, IfErr, IfOk, IsTrue, OnErr, OnOk, length, map};
ghost use Rattle.std.specs.Arc.{arc_value};
ghost use Rattle.trend_num.specs.{most_stored, TuningInRange};
ghost use Rattle.calc_refresh.specs.{IsCopy};
ghost use Rattle.snapshot_table.specs.{new_posters};
ghost use Rattle.tag_base.specs.{IsSoundGroup};
ghost use Rattle.branded_disk.specs.{branded};
ghost use Rattle.plant_store.specs.Tags.{AllStaySame, AreDistinct, AreTagsUnused};
ghost use Rattle.plant_store.specs.CellOpenings.{AreCellsOpened, records_opened};
ghost use Rattle.plant_store.specs.Groups.{AllStaySame as AllGroupsStaySame, AreBooksOpened, AreDistinct as AreDistinctGroups, AreGroupsUnused, AreNamesOf, AreOtherGroupsSame};
ghost use Rattle.plant_store.specs.BookRefusals.{CountsStore, IsRefusal};
ghost use Rattle.plant_store.specs.BookSteps.{HavePlaces};
ghost use Rattle.plant_store.specs.Openings.{AreRestSame, CountsPlant, IsPlantRefusal, cell_records_in};
ghost use Rattle.plant_store.specs.Shelves.{HasPlacesOf, IsShelfFor};

use crate::book_opening::open_books;
use crate::cell_closing::close_cells;
use crate::cell_opening::open_cells;
use crate::shelf::Shelf;
use branded_disk::{Begun, Branded};
use disk_model::{Disk, Store};
use group_book::Book;
use plant_status::Status;
use snapshot_table::{Board, Poster};
use std::alloc::Global;
use std::sync::{Arc, Wait};
use tag_base::Base;
use tag_cell::Cell;
use trend_num::{Rec, WantOfMemory};

/// The cells and books of a plant, whose devices are out.
pub struct OpenPlant<D: Disk> {
    pub cells: Vec<Cell<D>>,
    pub books: Vec<Book<D>>,
}

/// Opens the tags of a base in order as cells, each with room for so many takes. Then it opens the groups as books over
/// the records of those cells. A device that does not exist is made. `posters` are those of a new board.
///
/// If it is told what a device was when the command began, it has to be that still.
///
/// It stops at the first tag or group that is not opened, or at the tag with which the tags together have too many
/// records. Then it gives every device back, and returns the refusal.
pub fn open_plant<K: Begun, S: Store, R: Wait>(
    rt: &R,
    alloc: Global,
    store: &mut S,
    base: &Base,
    shelf: &Shelf,
    rooms: &[u32],
    board: &Arc<Board, Global>,
    posters: Vec<Poster>,
) -> Result<OpenPlant<Branded<S::Dev, K>>, Status>
    requires tuned { All (λ def. TuningInRange def.tuning) base.now.tags.items }
    requires distinct { AreDistinct base.now.tags.items }
    requires sound { All (IsSoundGroup (length base.now.tags.items)) base.now.groups.items }
    requires distinct_groups { AreDistinctGroups base.now.groups.items }
    requires unused { AreTagsUnused K.before base.now.tags.items (S.device_at store.old) }
    requires unused_groups { AreGroupsUnused K.before base.now.groups.items (S.device_at store.old) }
    requires shelf { IsShelfFor base.now shelf.now }
    requires rooms { length rooms.now ≡ length base.now.tags.items }
    requires posters { posters.items ≡ new_posters 0 (arc_value board.now) }
    requires places { length base.now.tags.items ≤ length (arc_value board.now) }

    // Each cell is what its tag's device recovers. Each book has what its group's device stands for, over the records
    // of the cells. The store keeps a place for each device.
    ensures tags { IfOk result (λ plant. AreCellsOpened (branded S.Dev.device K.before) base.now.tags.items
        (S.device_at store.old) plant.cells.items) }
    ensures groups { IfOk result (λ plant. AreBooksOpened (branded S.Dev.device K.before) base.now.groups.items
        (cell_records_in plant.cells.items) (S.device_at store.old) plant.books.items) }
    ensures as_many_cells { IfOk result (λ plant. length plant.cells.items ≡ length base.now.tags.items) }
    ensures as_many_books { IfOk result (λ plant. length plant.books.items ≡ length base.now.groups.items) }
    ensures rooms { IfOk result (λ plant. map (λ c. c.room) plant.cells.items ≡ rooms.now) }
    ensures few_records { IfOk result (λ plant. records_opened plant.cells.items ≤ most_stored) }
    ensures places { OnOk result (HasPlacesOf shelf.now (S.has_place store.new)) }

    // A refusal states the first cause. A crash at any moment has then left of each device what a crash might have left
    // before, or what recovers or stands for the same, or, of a tag, what recovers that state as it is opened.
    ensures refused { IfErr result (IsPlantRefusal base.now (S.device_at store.old) (S.device_at store.new)
        (S.fault_count store.old) (S.fault_count store.new)) }
    ensures same_tags { OnErr result (AllStaySame base.now.tags.items (S.device_at store.old) (S.device_at store.new)) }
    ensures same_groups { OnErr result (AllGroupsStaySame base.now.groups.items (S.device_at store.old) (S.device_at store.new)) }

    // No other device changes. The store counts one fault if a call has failed, and otherwise none.
    ensures others { AreRestSame base.now (S.device_at store.old) (S.device_at store.new) }
    ensures counts { S.fault_count store.old < 2 ^ 64
        → CountsPlant result (S.fault_count store.old) (S.fault_count store.new) }
{
    let Ok(mut histories) = Vec::with_capacity(alloc, base.tags.len()) else {
        return Err(Status::WantOfMemory);
    };
    let names = &shelf.tag_names;
    let cells = open_cells(rt, alloc, store, &base.tags, names, rooms, board, posters)?;
    match open_groups(alloc, store, base, &shelf.group_names, &cells) {
        Ok(books) => Ok(OpenPlant { cells, books }),
        Err(why) => {
            close_cells(store, names, cells, &mut histories);
            Err(why)
        }
    }
}

// Opens the groups of a base over the records of its tags' cells.
fn open_groups<K: Begun, S: Store>(
    alloc: Global,
    store: &mut S,
    base: &Base,
    names: &[String],
    cells: &[Cell<Branded<S::Dev, K>>],
) -> Result<Vec<Book<Branded<S::Dev, K>>>, Status>
    requires sound { All (IsSoundGroup (length cells.now)) base.now.groups.items }
    requires distinct { AreDistinctGroups base.now.groups.items }
    requires unused { AreGroupsUnused K.before base.now.groups.items (S.device_at store.old) }
    requires names { AreNamesOf base.now.groups.items names.now }
    ensures opened { IfOk result (λ books. AreBooksOpened (branded S.Dev.device K.before) base.now.groups.items
        (cell_records_in cells.now) (S.device_at store.old) books.items) }
    ensures as_many { IfOk result (λ books. length books.items ≡ length base.now.groups.items) }
    ensures places { OnOk result (HavePlaces (length base.now.groups.items) names.now (S.has_place store.new)) }
    ensures refused { IfErr result (IsRefusal base.now.groups.items (cell_records_in cells.now) (S.device_at store.old)
        (S.fault_count store.old) (S.fault_count store.new)) }
    ensures any_moment { OnErr result (AllGroupsStaySame base.now.groups.items (S.device_at store.old) (S.device_at store.new)) }
    ensures others { AreOtherGroupsSame base.now.groups.items (S.device_at store.old) (S.device_at store.new) }
    ensures kept_places { (n : List ℕ) → IsTrue (S.has_place store.old n) → IsTrue (S.has_place store.new n) }
    ensures counts { S.fault_count store.old < 2 ^ 64
        → CountsStore result (S.fault_count store.old) (S.fault_count store.new) }
{
    let Ok(records) = records_of(alloc, cells) else {
        return Err(Status::WantOfMemory);
    };
    open_books(alloc, store, &base.groups, names, &records)
}

// Returns the records of each cell.
fn records_of<'c, D: Disk>(
    alloc: Global,
    cells: &'c [Cell<D>],
) -> Result<Vec<&'c [Rec]>, WantOfMemory>
    ensures records { IfOk result (λ v. map (λ r. r.now) v.items ≡ cell_records_in cells.now) }
    ensures copied { IfOk result (λ v. All (λ r. IsCopy r.now) v.items) }
{
    let mut records = Vec::new(alloc);
    for cell in cells {
        records.push(cell.recs())?;
    }
    Ok(records)
}
