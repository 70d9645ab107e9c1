// The command `run`: the plan of one file over the base of another, as a session of one phase.
ghost use Rattle.branded_disk.specs.{IsWholePast, branded};
ghost use Rattle.calc_refresh.specs.{lists_of};
ghost use Rattle.plant_files.specs.{IsFaultOfPlanned, ToldFiles};
ghost use Rattle.plant_files.specs.PlanRows.{IsGoodBase, IsPlanned};
ghost use Rattle.plant_files.specs.Reading.{faults_after};
ghost use Rattle.plant_store.specs.Groups.{DeviceTraces};
ghost use Rattle.plant_store.specs.{AreRestSame, CountsPlant, HasPlacesOf, IsShelfFor};
ghost use Rattle.run_command.specs.Headline.{IsPromised};
ghost use Rattle.run_command.specs.Rooms.{AreRoomy};
ghost use Rattle.run_command.specs.Runs.{AreDefined, IsNoReadFault, AreUnitsOpen, IsRun, IsUnheld, IsUnopened};
ghost use Rattle.run_command.specs.Steps.{AreGivenFor};
ghost use Rattle.snapshot_table.specs.{LooksAt};
ghost use Rattle.std.specs.Arc.{arc_value};
ghost use Rattle.std.specs.Option.{IsSome};
ghost use Rattle.std.specs.Prelude.{All, Err, IfErr, IfSome, List, None, OnOk, length, map, vec_len, ℕ, ◌<◌, ◌^◌, ◌≡◌, ◌≢◌, ◌≤◌};

use crate::close::close;
use crate::opening::{OpenSession, open_session};
use crate::phase::hold_phase;
use crate::work::{Given, given_of};
use branded_disk::{Begun, Branded};
use byte_io::Files;
use disk_model::Store;
use plant_files::{SessionFiles, read_session};
use plant_status::{Passes, Status};
use plant_store::OpenPlant;
use session_report::Session;
use std::alloc::Global;
use std::marker::Brand;
use std::sync::Wait;
use std::thread::Threads;
use tag_base::Base;

/// What a run comes to: its report, or why there is none; and its session, if there was one.
#[derive(Drop)]
pub struct Ran {
    pub answer: Result<String, Status>,
    pub session: Option<Session>,
}

impl Ran {
    /// Returns a run without a session, with the reason why it has none.
    pub fn refused(why: Status) -> Ran
        ensures answer { result.answer ≡ Err why }
        ensures none { result.session ≡ None }
    {
        Ran {
            answer: Err(why),
            session: None,
        }
    }
}

/// Runs the plan in the file `plan_name` over the base in the file `name`. Collectors feed the tags, readers ask, and
/// refreshers bring the groups up to date, all at the same time. Then the session does what they left undone, and makes
/// the report. It gives every device back. Returns a session whenever the devices were opened, even if the answer is an
/// error.
pub fn run_plan<F: Files, S: Store, P: Passes, R: Threads + Wait + Sync>(
    rt: &R,
    alloc: Global,
    files: &mut F,
    store: &mut S,
    passes: &mut P,
    name: &str,
    plan_name: &str,
) -> Ran
    ensures held { OnOk result.answer (IsSome result.session) }
    ensures promised { IfSome result.session (IsPromised name.now plan_name.now (F.told files.old) (S.device_at store.old)
        (S.device_at store.new) (S.fault_count store.old) (S.fault_count store.new) (P.stops passes.old) (P.stops passes.new)
        result.answer) }
    ensures unheld { result.session ≡ None → IfErr result.answer (IsUnheld name.now plan_name.now (F.told files.old)
        (S.device_at store.old) (S.device_at store.new) (S.fault_count store.old) (S.fault_count store.new)) }
    ensures unstopped { result.session ≡ None → P.stops passes.new ≡ P.stops passes.old }
    ensures counts { result.session ≡ None → S.fault_count store.old < 2 ^ 64
        → CountsPlant result.answer (S.fault_count store.old) (S.fault_count store.new) }
    ensures understood { IfErr result.answer (λ why. why ≢ Status.BadWords) }
    ensures stays { F.told files.new ≡ F.told files.old }

    // If a read has failed, one fault of the files is counted, and otherwise none. The last clause names the file whose
    // read failed.
    ensures file_faults { result.session ≡ None → F.fault_count files.new ≡ faults_after result.answer (F.fault_count files.old) }
    ensures no_file_fault { IsSome result.session → F.fault_count files.new ≡ F.fault_count files.old }
    ensures whose { result.session ≡ None → IfErr result.answer (IsFaultOfPlanned name.now plan_name.now (F.told files.old)
        (F.failed_name files.new)) }
{
    match read_session(alloc, files, name, plan_name) {
        Ok(read) => run_read(rt, alloc, store, passes, read),
        Err(why) => Ran::refused(why),
    }
}

// Makes the work from what was read of the files, and runs it.
fn run_read<S: Store, P: Passes, R: Threads + Wait + Sync>(
    rt: &R,
    alloc: Global,
    store: &mut S,
    passes: &mut P,
    read: SessionFiles,
) -> Ran
    requires base { IsGoodBase read.base }
    ensures held { OnOk result.answer (IsSome result.session) }
    ensures promised { (name plan_name : List ℕ) (told : ToldFiles) → IsPlanned name plan_name told read.base read.plan
        (map (λ list. list.items) read.rows.items) (map (λ list. list.items) read.queries.items)
        → IfSome result.session (IsPromised name plan_name told (S.device_at store.old) (S.device_at store.new)
        (S.fault_count store.old) (S.fault_count store.new) (P.stops passes.old) (P.stops passes.new) result.answer) }
    ensures unheld { (name plan_name : List ℕ) (told : ToldFiles) → IsPlanned name plan_name told read.base read.plan
        (map (λ list. list.items) read.rows.items) (map (λ list. list.items) read.queries.items)
        → result.session ≡ None → IfErr result.answer (IsUnheld name plan_name told
        (S.device_at store.old) (S.device_at store.new) (S.fault_count store.old) (S.fault_count store.new)) }
    ensures unstopped { result.session ≡ None → P.stops passes.new ≡ P.stops passes.old }
    ensures counts { result.session ≡ None → S.fault_count store.old < 2 ^ 64
        → CountsPlant result.answer (S.fault_count store.old) (S.fault_count store.new) }
    ensures other { result.session ≡ None → IfErr result.answer IsNoReadFault }
{
    let SessionFiles {
        base,
        plan,
        rows,
        queries,
    } = read;
    match given_of(alloc, &base, &plan.refreshers, rows, queries, 0, 0) {
        Ok(given) => run_given::<Brand, S, P, R>(rt, alloc, store, passes, &base, &given),
        Err(_) => Ran::refused(Status::WantOfMemory),
    }
}

// Opens the devices of a base, and runs the session of this work over them. `K` tells what each device is at that moment.
fn run_given<K: Begun, S: Store, P: Passes, R: Threads + Wait + Sync>(
    rt: &R,
    alloc: Global,
    store: &mut S,
    passes: &mut P,
    base: &Base,
    given: &Given,
) -> Ran
    requires begun { IsWholePast K.before (S.device_at store.old) }
    requires good { IsGoodBase base.now }
    requires given { AreGivenFor (length base.now.tags.items) (length base.now.groups.items) given.now }
    requires inputs { lists_of given.now.inputs.items ≡ map (λ d. d.inputs.items) base.now.groups.items }
    ensures held { OnOk result.answer (IsSome result.session) }
    ensures session { IfSome result.session (IsRun (branded S.Dev.device K.before) base.now given.now
        (S.device_at store.old) (S.device_at store.new) (S.fault_count store.old) (S.fault_count store.new) (P.stops passes.old)
        (P.stops passes.new) result.answer) }
    ensures unheld { result.session ≡ None → IfErr result.answer (IsUnopened base.now (S.device_at store.old)
        (S.device_at store.new) (S.fault_count store.old) (S.fault_count store.new)) }
    ensures unstopped { result.session ≡ None → P.stops passes.new ≡ P.stops passes.old }
    ensures counts { result.session ≡ None → S.fault_count store.old < 2 ^ 64
        → CountsPlant result.answer (S.fault_count store.old) (S.fault_count store.new) }
    ensures other { result.session ≡ None → IfErr result.answer IsNoReadFault }
{
    let readers = given.work.readers.len() as u32;
    match open_session::<K, S, R>(rt, alloc, store, base, &given.rooms, readers) {
        Ok(opened) => {
            let (answer, session) = hold_open(rt, alloc, store, passes, base, given, opened);
            Ran {
                answer,
                session: Some(session),
            }
        }
        Err(why) => Ran::refused(why),
    }
}

// Runs the session of a plant that is open, and gives its devices back.
fn hold_open<K: Begun, S: Store, P: Passes, R: Threads + Wait + Sync>(
    rt: &R,
    alloc: Global,
    store: &mut S,
    passes: &mut P,
    base: &Base,
    given: &Given,
    opened: OpenSession<Branded<S::Dev, K>>,
) -> (Result<String, Status>, Session)
    requires good { IsGoodBase base.now }
    requires given { AreGivenFor (length base.now.tags.items) (length base.now.groups.items) given.now }
    requires inputs { lists_of given.now.inputs.items ≡ map (λ d. d.inputs.items) base.now.groups.items }
    requires shelf { IsShelfFor base.now opened.shelf }
    requires places { HasPlacesOf opened.shelf (S.has_place store.old) }
    requires cells { vec_len opened.plant.cells ≡ length base.now.tags.items }
    requires books { vec_len opened.plant.books ≡ length base.now.groups.items }
    requires defined { AreDefined base.now.groups.items opened.plant.books.items }
    requires roomy { AreRoomy given.now.rooms.items opened.plant.cells.items }
    requires board { vec_len opened.plant.cells ≤ length (arc_value opened.board) }
    requires lookers { vec_len opened.lookers ≡ vec_len given.now.work.readers }
    requires looks { All (LooksAt (arc_value opened.board)) opened.lookers.items }
    ensures { (old : DeviceTraces) (before : ℕ) → IsWholePast K.before old → AreUnitsOpen (branded S.Dev.device K.before) base.now old
        opened.plant.cells.items opened.plant.books.items → AreRestSame base.now old (S.device_at store.old) → (before < 2 ^ 64 → S.fault_count store.old ≡ before)
        → IsRun (branded S.Dev.device K.before) base.now given.now old (S.device_at store.new)
        before (S.fault_count store.new) (P.stops passes.old) (P.stops passes.new) result.0 result.1 }
{
    let OpenSession {
        shelf,
        board,
        lookers,
        plant,
    } = opened;
    let OpenPlant { cells, books } = plant;
    let ended = hold_phase(rt, alloc, cells, books, &board, lookers, given, passes);
    close(alloc, store, base, given, shelf, ended)
}
