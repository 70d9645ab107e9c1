// The beginning of a session: its board is made, and the devices of its base are opened.
ghost use Rattle.branded_disk.specs.{IsWholePast, branded};
ghost use Rattle.plant_files.specs.PlanRows.{IsGoodBase};
ghost use Rattle.plant_store.specs.{AreRestSame, CountsPlant, HasPlacesOf, IsShelfFor};
ghost use Rattle.run_command.specs.Runs.{AreDefined, AreUnitsOpen, IsUnopened};
ghost use Rattle.snapshot_table.specs.{LooksAt, new_posters};
ghost use Rattle.std.specs.Arc.{arc_value};
ghost use Rattle.std.specs.Prelude.{All, IfErr, IfOk, length, map, vec_len, ◌<◌, ◌^◌, ◌≡◌, ◌≤◌};

use branded_disk::{Begun, Branded};
use disk_model::{Disk, Store};
use plant_status::Status;
use plant_store::{OpenPlant, Shelf, open_plant, shelf_for};
use snapshot_table::{Board, Looker, Poster, new_board};
use std::alloc::Global;
use std::sync::{Arc, Wait};
use tag_base::Base;
use trend_num::WantOfMemory;

// A board, its posters, and a looker for each reader.
#[derive(Drop)]
pub(crate) struct Boarding {
    pub(crate) board: Arc<Board, Global>,
    pub(crate) posters: Vec<Poster>,
    pub(crate) lookers: Vec<Looker>,
}

// Makes the board of so many tags, with a looker for each of so many readers.
pub(crate) fn boarding_for<R: Wait>(
    rt: &R,
    alloc: Global,
    tags: u32,
    readers: u32,
) -> Result<Boarding, WantOfMemory>
    ensures tags { IfOk result (λ b. length (arc_value b.board) ≡ tags) }
    ensures posters { IfOk result (λ b. b.posters.items ≡ new_posters 0 (arc_value b.board)) }
    ensures lookers { IfOk result (λ b. vec_len b.lookers ≡ readers) }
    ensures looks { IfOk result (λ b. All (LooksAt (arc_value b.board)) b.lookers.items) }
{
    let (board, posters, lookers) = new_board(rt, alloc, tags, readers)?;
    let board = Arc::new(alloc, board)?;
    Ok(Boarding {
        board,
        posters,
        lookers,
    })
}

// What a session begins with: the open devices of a base and what gives them back, its board, and a looker for each
// reader.
pub(crate) struct OpenSession<D: Disk> {
    pub(crate) shelf: Shelf,
    pub(crate) board: Arc<Board, Global>,
    pub(crate) lookers: Vec<Looker>,
    pub(crate) plant: OpenPlant<D>,
}

// Opens the devices of a base for a session with so many readers. `K` tells what each device is at that moment. Each tag gets room for the takes that `rooms` gives.
pub(crate) fn open_session<K: Begun, S: Store, R: Wait>(
    rt: &R,
    alloc: Global,
    store: &mut S,
    base: &Base,
    rooms: &[u32],
    readers: u32,
) -> Result<OpenSession<Branded<S::Dev, K>>, Status>
    requires begun { IsWholePast K.before (S.device_at store.old) }
    requires good { IsGoodBase base.now }
    requires rooms { length rooms.now ≡ length base.now.tags.items }

    // The devices are open, and the result holds what gives them back.
    ensures opened { IfOk result (λ o. AreUnitsOpen (branded S.Dev.device K.before) base.now (S.device_at store.old)
        o.plant.cells.items o.plant.books.items) }
    ensures defined { IfOk result (λ o. AreDefined base.now.groups.items o.plant.books.items) }
    ensures rooms { IfOk result (λ o. map (λ c. c.room) o.plant.cells.items ≡ rooms.now) }
    ensures shelf { IfOk result (λ o. IsShelfFor base.now o.shelf) }
    ensures places { IfOk result (λ o. HasPlacesOf o.shelf (S.has_place store.new)) }

    // The board has a place for each tag.
    ensures board { IfOk result (λ o. vec_len o.plant.cells ≤ length (arc_value o.board)) }
    ensures lookers { IfOk result (λ o. vec_len o.lookers ≡ readers) }
    ensures looks { IfOk result (λ o. All (LooksAt (arc_value o.board)) o.lookers.items) }

    // A refusal reports its first cause. No device but those of the base's tags and groups is changed. The store counts
    // one fault if a call has failed, and otherwise none.
    ensures refused { IfErr result (IsUnopened base.now (S.device_at store.old) (S.device_at store.new) (S.fault_count store.old)
        (S.fault_count store.new)) }
    ensures others { AreRestSame base.now (S.device_at store.old) (S.device_at store.new) }
    ensures counts { S.fault_count store.old < 2 ^ 64 → CountsPlant result (S.fault_count store.old) (S.fault_count store.new) }
{
    let Ok(shelf) = shelf_for(alloc, base) else {
        return Err(Status::WantOfMemory);
    };
    let Ok(boarding) = boarding_for(rt, alloc, base.tags.len() as u32, readers) else {
        return Err(Status::WantOfMemory);
    };
    let Boarding {
        board,
        posters,
        lookers,
    } = boarding;
    match open_plant(rt, alloc, store, base, &shelf, rooms, &board, posters) {
        Ok(plant) => Ok(OpenSession {
            shelf,
            board,
            lookers,
            plant,
        }),
        Err(why) => Err(why),
    }
}
