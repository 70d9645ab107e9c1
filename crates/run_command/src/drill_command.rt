// The command `drill`: a generated plant, run as a session of two phases.
ghost use Rattle.branded_disk.specs.{IsWholePast, branded};
ghost use Rattle.calc_refresh.specs.{lists_of};
ghost use Rattle.plant_files.specs.PlanRows.{IsGoodBase};
ghost use Rattle.plant_store.specs.Groups.{DeviceTraces};
ghost use Rattle.plant_store.specs.{AreRestSame, HasPlacesOf, IsShelfFor};
ghost use Rattle.run_command.specs.DrillRows.{drill_rows_of};
ghost use Rattle.run_command.specs.Drills.{IsDrillBase, IsDrillUnopened, IsDrilled, IsRunInPhases, drill_answer, drill_status, fresh_devices, memory_device};
ghost use Rattle.run_command.specs.Rooms.{AreRoomy};
ghost use Rattle.run_command.specs.Runs.{AreDefined, AreUnitsOpen, IsWorkIn};
ghost use Rattle.run_command.specs.Steps.{AreGivenFor};
ghost use Rattle.std.specs.Option.{IsSome};
ghost use Rattle.std.specs.Prelude.{Err, IfErr, IfOk, IfSome, List, None, OnOk, [], length, map, vec_len, ℕ, ◌/◌, ◌<◌, ◌^◌, ◌≡◌, ◌≢◌, ◌≤◌};
ghost use Rattle.value_rows.specs.{RawRow};

use crate::close::close;
use crate::drill_phases::hold_both;
use crate::drill_plant::{drill_base, drill_files};
use crate::opening::{OpenSession, open_session};
use crate::run::Ran;
use crate::work::{Given, given_of};
use branded_disk::{Begun, Branded};
use disk_model::{MemStore, Store};
use plant_status::{Passes, Status};
use plant_store::{OpenPlant, Shelf};
use session_report::Session;
use snapshot_table::Board;
use std::alloc::Global;
use std::marker::Brand;
use std::sync::Wait;
use std::thread::Threads;
use tag_base::Base;
use trend_num::WantOfMemory;

/// Runs a drill of `tags` tags, each with one collector of `events` generated events, over devices in memory. The first
/// phase takes the first half of each collector's events, rounded down; the second takes the rest. Returns a session
/// whenever the devices were opened. If there is none, the answer is want of memory. If a device fails, the answer is
/// want of memory too, because a device in memory fails for nothing else.
pub fn drill<P: Passes, R: Threads + Wait + Sync>(
    rt: &R,
    alloc: Global,
    passes: &mut P,
    number: u32,
    tags: u32,
    events: u32,
) -> Ran
    requires some { 1 ≤ tags }
    requires few { tags ≤ 64 }
    ensures held { OnOk result.answer (IsSome result.session) }
    ensures drilled { IfSome result.session (IsDrilled number tags events (P.stops passes.old) (P.stops passes.new) result.answer) }
    ensures unheld { result.session ≡ None → IfErr result.answer (λ why. why ≡ Status.WantOfMemory) }
    ensures unstopped { result.session ≡ None → P.stops passes.new ≡ P.stops passes.old }
    ensures understood { IfErr result.answer (λ why. why ≢ Status.BadWords) }
{
    match drill_of(alloc, number, tags, events) {
        Ok(drill) => run_drill(rt, alloc, passes, tags, &drill),
        Err(_) => Ran::refused(Status::WantOfMemory),
    }
}

// Opens the devices of a drill in a store that has none yet, and runs its session.
fn run_drill<P: Passes, R: Threads + Wait + Sync>(
    rt: &R,
    alloc: Global,
    passes: &mut P,
    tags: u32,
    drill: &DrillWork,
) -> Ran
    requires base { IsDrillBase tags drill.now.base }
    requires good { IsGoodBase drill.now.base }
    requires first { (earlier : ℕ) × (rows : List (List RawRow)) × IsWorkIn drill.now.base earlier 0 rows [] [] drill.now.first }
    requires second { (earlier : ℕ) × (rows : List (List RawRow)) × IsWorkIn drill.now.base earlier 1 rows [] [] drill.now.second }
    ensures held { OnOk result.answer (IsSome result.session) }
    ensures session { IfSome result.session (λ s. (new : DeviceTraces) × (now : ℕ) × IsRunInPhases memory_device
        drill.now.base drill.now.first drill.now.second fresh_devices new 0 now (P.stops passes.old) (P.stops passes.new) result.answer s) }
    ensures unheld { result.session ≡ None → IfErr result.answer (λ why. why ≡ Status.WantOfMemory) }
    ensures unstopped { result.session ≡ None → P.stops passes.new ≡ P.stops passes.old }
{
    let mut store = MemStore::new(Vec::new(alloc));
    hold_in::<Brand, MemStore, P, R>(
        rt,
        alloc,
        &mut store,
        passes,
        &drill.base,
        &drill.first,
        &drill.second,
    )
}

// The base of a drill, and the work of each phase.
#[derive(Drop)]
pub(crate) struct DrillWork {
    pub(crate) base: Base,
    pub(crate) first: Given,
    pub(crate) second: Given,
}

// Makes the drill of so many tags, each with so many events.
pub(crate) fn drill_of(
    alloc: Global,
    number: u32,
    tags: u32,
    events: u32,
) -> Result<DrillWork, WantOfMemory>
    requires some { 1 ≤ tags }
    requires few { tags ≤ 64 }
    ensures base { IfOk result (λ d. IsDrillBase tags d.base) }
    ensures good { IfOk result (λ d. IsGoodBase d.base) }
    ensures first { IfOk result (λ d. IsWorkIn d.base 0 0 (drill_rows_of number tags 0 (events / 2)) [] [] d.first) }
    ensures second { IfOk result (λ d. IsWorkIn d.base (events / 2) 1 (drill_rows_of number tags 0 events) [] [] d.second) }
{
    let base = drill_base(alloc, tags)?;
    let half = events / 2;
    let first = phase_of(alloc, &base, number, tags, half, 0, 0)?;
    let second = phase_of(alloc, &base, number, tags, events, half, 1)?;
    Ok(DrillWork {
        base,
        first,
        second,
    })
}

// Returns the work of a phase whose collectors have the first `events` events of a drill. In the phases before they
// took the first `earlier` of these.
fn phase_of(
    alloc: Global,
    base: &Base,
    number: u32,
    tags: u32,
    events: u32,
    earlier: u32,
    phases: u32,
) -> Result<Given, WantOfMemory>
    ensures { IfOk result (IsWorkIn base.now earlier phases (drill_rows_of number tags 0 events) [] []) }
{
    let rows = drill_files(alloc, number, tags, 0, events)?;
    given_of(alloc, base, &[], rows, Vec::new(alloc), earlier, phases)
}

// Opens the devices of a base in a store, and runs the session of two phases over them. `K` tells what each device is at
// that moment.
pub(crate) fn hold_in<K: Begun, S: Store, P: Passes, R: Threads + Wait + Sync>(
    rt: &R,
    alloc: Global,
    store: &mut S,
    passes: &mut P,
    base: &Base,
    first: &Given,
    second: &Given,
) -> Ran
    requires begun { IsWholePast K.before (S.device_at store.old) }
    requires good { IsGoodBase base.now }
    requires first { AreGivenFor (length base.now.tags.items) (length base.now.groups.items) first.now }
    requires second { AreGivenFor (length base.now.tags.items) (length base.now.groups.items) second.now }
    requires inputs { lists_of first.now.inputs.items ≡ map (λ d. d.inputs.items) base.now.groups.items }
    requires same_inputs { lists_of second.now.inputs.items ≡ lists_of first.now.inputs.items }
    requires no_readers { first.now.work.readers.items ≡ [] }
    requires no_more_readers { second.now.work.readers.items ≡ [] }
    ensures held { OnOk result.answer (IsSome result.session) }
    ensures session { IfSome result.session (IsRunInPhases (branded S.Dev.device K.before) base.now first.now second.now
        (S.device_at store.old) (S.device_at store.new) (S.fault_count store.old) (S.fault_count store.new)
        (P.stops passes.old) (P.stops passes.new) result.answer) }
    ensures unheld { result.session ≡ None → IfErr result.answer (IsDrillUnopened base.now (S.device_at store.old)
        (S.device_at store.new) (S.fault_count store.old) (S.fault_count store.new)) }
    ensures unstopped { result.session ≡ None → P.stops passes.new ≡ P.stops passes.old }
{
    match open_session::<K, S, R>(rt, alloc, store, base, &second.rooms, 0) {
        Ok(
            OpenSession {
                shelf,
                board,
                lookers: _lookers,
                plant,
            },
        ) => {
            let (answer, session) = hold_drill(
                rt, alloc, store, passes, base, first, second, shelf, plant, &board,
            );
            Ran {
                answer,
                session: Some(session),
            }
        }
        Err(why) => Ran::refused(drill_status(why)),
    }
}

// Runs the session of a plant that is open, and gives its devices back.
fn hold_drill<K: Begun, S: Store, P: Passes, R: Threads + Wait + Sync>(
    rt: &R,
    alloc: Global,
    store: &mut S,
    passes: &mut P,
    base: &Base,
    first: &Given,
    second: &Given,
    shelf: Shelf,
    plant: OpenPlant<Branded<S::Dev, K>>,
    board: &Board,
) -> (Result<String, Status>, Session)
    requires good { IsGoodBase base.now }
    requires first { AreGivenFor (length base.now.tags.items) (length base.now.groups.items) first.now }
    requires second { AreGivenFor (length base.now.tags.items) (length base.now.groups.items) second.now }
    requires inputs { lists_of first.now.inputs.items ≡ map (λ d. d.inputs.items) base.now.groups.items }
    requires same_inputs { lists_of second.now.inputs.items ≡ lists_of first.now.inputs.items }
    requires no_readers { first.now.work.readers.items ≡ [] }
    requires no_more_readers { second.now.work.readers.items ≡ [] }
    requires shelf { IsShelfFor base.now shelf }
    requires places { HasPlacesOf shelf (S.has_place store.old) }
    requires cells { vec_len plant.cells ≡ length base.now.tags.items }
    requires books { vec_len plant.books ≡ length base.now.groups.items }
    requires defined { AreDefined base.now.groups.items plant.books.items }
    requires roomy { AreRoomy second.now.rooms.items plant.cells.items }
    requires board { vec_len plant.cells ≤ length board.now }
    ensures { (old : DeviceTraces) (before : ℕ) → IsWholePast K.before old → AreUnitsOpen (branded S.Dev.device K.before) base.now old plant.cells.items
        plant.books.items → AreRestSame base.now old (S.device_at store.old) → (before < 2 ^ 64 → S.fault_count store.old ≡ before)
        → IsRunInPhases (branded S.Dev.device K.before) base.now first.now second.now old (S.device_at store.new)
        before (S.fault_count store.new) (P.stops passes.old) (P.stops passes.new) result.0 result.1 }
{
    let OpenPlant { cells, books } = plant;
    let ended = hold_both(rt, alloc, cells, books, board, first, second, passes);
    let (answer, session) = close(alloc, store, base, second, shelf, ended);
    (drill_answer(answer), session)
}

// Returns the answer of a drill whose session ended with this answer: a device fault becomes want of memory.
fn drill_answer(answer: Result<String, Status>) -> Result<String, Status>
    ensures { result ≡ drill_answer answer }
{
    match answer {
        Ok(text) => Ok(text),
        Err(why) => Err(drill_status(why)),
    }
}

// Returns the status that a drill reports for a refusal: a device fault becomes want of memory.
fn drill_status(why: Status) -> Status
    ensures { result ≡ drill_status why }
{
    match why {
        Status::DeviceFault { .. } => Status::WantOfMemory,
        why => why,
    }
}
