// Opening the tags of a base as cells.
ghost use Rattle.std.specs.Prelude.{◌≡◌, ◌^◌, ◌<◌, ◌≤◌, ℕ, List, All, IfErr, IfOk, IsTrue, OnErr, OnOk, length, map};
ghost use Rattle.std.specs.Arc.{arc_value};
ghost use Rattle.trend_num.specs.{most_stored, TuningInRange};
ghost use Rattle.snapshot_table.specs.{new_posters};
ghost use Rattle.branded_disk.specs.{branded};
ghost use Rattle.plant_store.specs.Tags.{AllStaySame, AreDistinct, AreOtherTagsSame, AreTagsUnused};
ghost use Rattle.plant_store.specs.TagRefusals.{CountsStore, IsRefusal};
ghost use Rattle.plant_store.specs.CellNames.{HasPlaces, device_names_of, texts};
ghost use Rattle.plant_store.specs.CellOpenings.{AreCellsOpened, records_opened};

use crate::cell_closing::close_cells;
use crate::cell_turns::open_all;
use branded_disk::{Begun, Branded};
use disk_model::{Disk, Store};
use plant_status::Status;
use snapshot_table::{Board, Poster};
use std::alloc::Global;
use std::sync::{Arc, Wait};
use tag_cell::Cell;
use trend_num::TagDef;

/// Opens each tag of a base in order over its device, as a cell with room for so many takes. A device that does not
/// exist is made, with 64 lane slots. `names` are those of the tags' devices, and `posters` those of a new board.
///
/// If it is told what a device was when the command began, it has to be that still.
///
/// It stops at the first tag that is not opened, or with which the tags together have too many records. Then it gives
/// every device back, and returns the refusal.
pub fn open_cells<K: Begun, S: Store, R: Wait>(
    rt: &R,
    alloc: Global,
    store: &mut S,
    tags: &[TagDef],
    names: &[String],
    rooms: &[u32],
    board: &Arc<Board, Global>,
    posters: Vec<Poster>,
) -> Result<Vec<Cell<Branded<S::Dev, K>>>, Status>
    requires tuned { All (λ def. TuningInRange def.tuning) tags.now }
    requires few { length tags.now < 2 ^ 32 }
    requires distinct { AreDistinct tags.now }
    requires unused { AreTagsUnused K.before tags.now (S.device_at store.old) }
    requires names { texts names.now ≡ device_names_of tags.now }
    requires rooms { length rooms.now ≡ length tags.now }
    requires posters { posters.items ≡ new_posters 0 (arc_value board.now) }
    requires places { length tags.now ≤ length (arc_value board.now) }

    // Each cell is what its tag's device recovers, and has its room. The store keeps a place for each device.
    ensures opened { IfOk result (λ cells. AreCellsOpened (branded S.Dev.device K.before) tags.now
        (S.device_at store.old) cells.items) }
    ensures as_many { IfOk result (λ cells. length cells.items ≡ length tags.now) }
    ensures rooms { IfOk result (λ cells. map (λ c. c.room) cells.items ≡ rooms.now) }
    ensures few_records { IfOk result (λ cells. records_opened cells.items ≤ most_stored) }
    ensures passed { OnOk result (S.fault_count store.new ≡ S.fault_count store.old) }
    ensures places { OnOk result (HasPlaces (S.has_place store.new) (texts names.now)) }

    // A refusal states the first cause. A crash at any moment has then left of each device what a crash might have left
    // before, or what recovers the same state, or that state as it is opened.
    ensures refused { IfErr result (IsRefusal tags.now (S.device_at store.old) (S.device_at store.new)
        (S.fault_count store.old) (S.fault_count store.new)) }
    ensures any_moment { OnErr result (AllStaySame tags.now (S.device_at store.old) (S.device_at store.new)) }

    // No other device changes. The store counts one fault if a call has failed, and otherwise none.
    ensures others { AreOtherTagsSame tags.now (S.device_at store.old) (S.device_at store.new) }
    ensures kept_places { (n : List ℕ) → IsTrue (S.has_place store.old n) → IsTrue (S.has_place store.new n) }
    ensures counts { S.fault_count store.old < 2 ^ 64
        → CountsStore result (S.fault_count store.old) (S.fault_count store.new) }
{
    let Ok(mut histories) = Vec::with_capacity(alloc, tags.len()) else {
        return Err(Status::WantOfMemory);
    };
    let Ok(mut cells) = Vec::with_capacity(alloc, tags.len()) else {
        return Err(Status::WantOfMemory);
    };
    match open_all(
        rt, alloc, store, tags, names, rooms, board, posters, &mut cells,
    ) {
        Ok(()) => Ok(cells),
        Err(why) => {
            let opened = cells.len();
            close_cells(store, &names[..opened], cells, &mut histories);
            Err(why)
        }
    }
}
