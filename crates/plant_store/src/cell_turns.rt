// Opening tags one after the other.
ghost use Rattle.std.specs.Prelude.{◌≡◌, ◌≢◌, ◌^◌, ◌<◌, ◌≤◌, ℕ, List, [], All, IfErr, IfOk, IsTrue, OnErr, OnOk, length, map, take, vec_capacity};
ghost use Rattle.std.specs.Arc.{arc_value};
ghost use Rattle.trend_num.specs.{most_stored, TuningInRange};
ghost use Rattle.branded_disk.specs.{IsUnused, branded};
ghost use Rattle.disk_model.specs.{CountsFault};
ghost use Rattle.device_layout.specs.declared.failure.OpenNo.TheVariants.{DeviceFault};
ghost use Rattle.device_layout.specs.{IsCause};
ghost use Rattle.crash_recovery.specs.{StaysSame};
ghost use Rattle.snapshot_table.specs.{PostsTo, new_posters, nothing};
ghost use Rattle.tag_cell.specs.{device_name};
ghost use Rattle.plant_store.specs.Tags.{AreDistinct, AreOtherTagsSame, AreTagsUnused};
ghost use Rattle.plant_store.specs.CellNames.{HasPlaces, device_names_of, texts};
ghost use Rattle.plant_store.specs.CellOpenings.{AreCellsOpened, IsCellOpened, records_opened};
ghost use Rattle.plant_store.specs.CellStops.{IsStopped};

use crate::cell_closing::close_cell;
use crate::tag_device::LANE_SLOTS;
use crate::tag_refusal::{MAX_STORE_RECORDS, status_of, too_many};
use branded_disk::{Begun, Branded, give_back, take};
use crash_recovery::{OpenFail, OpenNo};
use disk_model::{Disk, Store};
use plant_status::Status;
use snapshot_table::{Board, Poster};
use std::alloc::Global;
use std::sync::{Arc, Wait};
use tag_cell::{Cell, open_cell};
use trend_num::TagDef;

// Opens each tag in order, and appends its cell to `cells`, which has room for all. It stops at the first tag that is
// not opened, or with which there are too many records. The device of that tag is given back. Those of the cells before
// it are still out.
pub(crate) fn open_all<K: Begun, S: Store, R: Wait>(
    rt: &R,
    alloc: Global,
    store: &mut S,
    tags: &[TagDef],
    names: &[String],
    rooms: &[u32],
    board: &Arc<Board, Global>,
    posters: Vec<Poster>,
    cells: &mut Vec<Cell<Branded<S::Dev, K>>>,
) -> Result<(), Status>
    requires tuned { All (λ def. TuningInRange def.tuning) tags.now }
    requires few { length tags.now < 2 ^ 32 }
    requires distinct { AreDistinct tags.now }
    requires unused { AreTagsUnused K.before tags.now (S.device_at store.old) }
    requires names { texts names.now ≡ device_names_of tags.now }
    requires rooms { length rooms.now ≡ length tags.now }
    requires posters { posters.items ≡ new_posters 0 (arc_value board.now) }
    requires places { length tags.now ≤ length (arc_value board.now) }
    requires none { cells.old.items ≡ [] }
    requires room { length tags.now ≤ vec_capacity cells.old }
    ensures opened { AreCellsOpened (branded S.Dev.device K.before) (take (length cells.new.items) tags.now)
        (S.device_at store.old) cells.new.items }
    ensures within { length cells.new.items ≤ length tags.now }
    ensures places { HasPlaces (S.has_place store.new) (take (length cells.new.items) (texts names.now)) }
    ensures others { AreOtherTagsSame tags.now (S.device_at store.old) (S.device_at store.new) }
    ensures kept_places { (n : List ℕ) → IsTrue (S.has_place store.old n) → IsTrue (S.has_place store.new n) }
    ensures whole { OnOk result (length cells.new.items ≡ length tags.now) }
    ensures rooms { OnOk result (map (λ c. c.room) cells.new.items ≡ rooms.now) }
    ensures few_records { OnOk result (records_opened cells.new.items ≤ most_stored) }
    ensures passed { OnOk result (S.fault_count store.new ≡ S.fault_count store.old) }
    ensures stopped { IfErr result (IsStopped (branded S.Dev.device K.before) tags.now cells.new.items (S.device_at store.old)
        (S.device_at store.new) (S.fault_count store.old) (S.fault_count store.new)) }
{
    let mut posters = posters.into_iter();
    let mut records = 0;
    for def in tags {
        let tag = cells.len();
        let Some(poster) = posters.next() else {
            unreachable!();
        };
        let name = names[tag].as_str();
        let cell = match open_one(rt, alloc, store, def, name, rooms[tag], board, poster) {
            Ok(cell) => cell,
            Err(why) => return Err(status_of(tag as u32, why)),
        };
        records += cell.recs().len() as u64;
        if records > MAX_STORE_RECORDS {
            drop(close_cell(store, name, cell));
            return Err(too_many(records));
        }
        cells.push_reserved(cell);
    }
    Ok(())
}

// Opens a tag over the device of this name. If the tag is not opened, the device is given back.
fn open_one<K: Begun, S: Store, R: Wait>(
    rt: &R,
    alloc: Global,
    store: &mut S,
    def: &TagDef,
    name: &str,
    room: u32,
    board: &Arc<Board, Global>,
    poster: Poster,
) -> Result<Cell<Branded<S::Dev, K>>, OpenNo>
    requires tuned { TuningInRange def.now.tuning }
    requires here { PostsTo (arc_value board.now) poster }
    requires unposted { poster.last ≡ nothing }
    requires named { name.now ≡ device_name def.now.name }
    requires unused { IsUnused K.before (S.device_at store.old) name.now }
    ensures opened { IfOk result (λ c. IsCellOpened def.now (S.device_at store.old name.now) (branded S.Dev.device K.before c.journal.dev) c) }
    ensures room { IfOk result (λ c. c.room ≡ room) }
    ensures place { OnOk result (IsTrue (S.has_place store.new name.now)) }
    ensures passed { OnOk result (S.fault_count store.new ≡ S.fault_count store.old) }
    ensures same { OnErr result (StaysSame def.now (S.device_at store.old name.now) (S.device_at store.new name.now)) }
    ensures cause { IfErr result (IsCause def.now (S.device_at store.old name.now)) }
    ensures others { (n : List ℕ) → n ≢ name.now → S.device_at store.new n ≡ S.device_at store.old n }
    ensures kept_places { (n : List ℕ) → IsTrue (S.has_place store.old n) → IsTrue (S.has_place store.new n) }
    ensures counts { S.fault_count store.old < 2 ^ 64
        → CountsFault result DeviceFault (S.fault_count store.old) (S.fault_count store.new) }
{
    let Ok(board) = Arc::try_clone(board) else {
        return Err(OpenNo::WantOfMemory);
    };
    let Ok(dev) = take(store, name) else {
        return Err(OpenNo::DeviceFault);
    };
    match open_cell(rt, alloc, dev, def, LANE_SLOTS, room, board, poster) {
        Ok(cell) => Ok(cell),
        Err(OpenFail { dev, why }) => {
            give_back(store, name, dev);
            Err(why)
        }
    }
}
