// The command `log`: putting the rows of a plan's collectors into the log of a plant.
ghost use Rattle.std.specs.Prelude.{◌≡◌, ◌^◌, ◌<◌, ◌≤◌, All, Err, IfErr, IfOk, IfSome, IsTrue, None, OnOk, Some, length};
ghost use Rattle.std.specs.Option.{IsSome};
ghost use Rattle.trend_num.specs.{TuningInRange};
ghost use Rattle.branded_disk.specs.{IsWholePast};
ghost use Rattle.commit_log.specs.{IsLogRow, log_name};
ghost use Rattle.plant_files.specs.{most_collector_rows, IsFaultOfPlanned};
ghost use Rattle.plant_files.specs.Reading.{faults_after};
ghost use Rattle.plant_files.specs.PlanRows.{AreRowsOfBase, IsGoodBase};
ghost use Rattle.plant_more.specs.LogNotes.{row_lists_of};
ghost use Rattle.plant_more.specs.LogHeadline.{IsLogged, IsOfOthers, IsRun, IsLogReported, IsUnlogged, IsUnopened};
ghost use Rattle.plant_more.specs.LogKnown.{IsAsKnown};
ghost use Rattle.plant_more.specs.LogMaking.{AreRowsFor, total_rows};
ghost use Rattle.plant_more.specs.LogOpenings.{AreOthersSame, CountsOpening, TracesByName, IsGivenBack, IsLogOpened};
ghost use Rattle.plant_more.specs.LogReports.{log_rows};
ghost use Rattle.plant_more.specs.LogTexts.{plant_text};

use crate::log_known::{KnownLog, known_of};
use crate::log_made::row_total;
use crate::log_opening::{LOG_NAME, take_log};
use crate::log_report::report;
use crate::log_session::{EndedLog, hold};
use crate::plant_text::plant_text;
use branded_disk::{Begun, Branded, give_back};
use byte_io::Files;
use commit_log::{Log, LogHistory};
use disk_model::Store;
use plant_files::{CollectedFiles, read_collected};
use plant_status::{Passes, Status};
use std::alloc::Global;
use std::marker::Brand;
use std::sync::Wait;
use std::thread::Threads;
use tag_base::Base;
use trend_num::WantOfMemory;
use value_rows::RawRow;

// What the command results in: one line for each tag, or why there is none; and the log's history if collectors were
// started.
#[derive(Drop)]
pub(crate) struct Logged {
    pub(crate) answer: Result<String, Status>,
    pub(crate) log: Option<LogHistory>,
}

impl Logged {
    // The result if no collector was started.
    fn refused(why: Status) -> Logged
        ensures answer { result.answer ≡ Err why }
        ensures none { result.log ≡ None }
    {
        Logged {
            answer: Err(why),
            log: None,
        }
    }
}

// Puts the rows of the collectors of a plan into the log of the plant. `base` and `plan` are the names of the two
// files. The log is opened on the store's device of its name. Once the collectors have ended, their missing rows are
// put and committed, and one line for each tag is made. Then the device is given back.
pub(crate) fn log_plan<F: Files, S: Store, P: Passes, R: Threads + Wait + Sync>(
    rt: &R,
    alloc: Global,
    files: &mut F,
    store: &mut S,
    passes: &mut P,
    base: &str,
    plan: &str,
) -> Logged
    ensures held { OnOk result.answer (IsSome result.log) }
    ensures log { IfSome result.log (IsLogged S.Dev.device base.now plan.now (F.told files.old)
        (S.device_at store.old) (S.device_at store.new) (S.fault_count store.old) (S.fault_count store.new)
        (P.stops passes.old) (P.stops passes.new) result.answer) }
    ensures unlogged { result.log ≡ None → IfErr result.answer (IsUnlogged base.now plan.now (F.told files.old)
        (S.device_at store.old) (S.device_at store.new) (S.fault_count store.old) (S.fault_count store.new)) }
    ensures counts { result.log ≡ None → S.fault_count store.old < 2 ^ 64
        → CountsOpening result.answer (S.fault_count store.old) (S.fault_count store.new) }
    ensures unstopped { result.log ≡ None → P.stops passes.new ≡ P.stops passes.old }
    ensures understood { IfErr result.answer (λ why. IsOfOthers why → ⊥) }
    ensures stays { F.told files.new ≡ F.told files.old }

    // If a read has failed, the files count one fault, and its file is the one in the status. Otherwise they count
    // none.
    ensures file_faults { result.log ≡ None → F.fault_count files.new ≡ faults_after result.answer (F.fault_count files.old) }
    ensures no_file_fault { IsSome result.log → F.fault_count files.new ≡ F.fault_count files.old }
    ensures whose { result.log ≡ None → IfErr result.answer (IsFaultOfPlanned base.now plan.now (F.told files.old)
        (F.failed_name files.new)) }
{
    match read_collected(alloc, files, base, plan) {
        Ok(read) => log_read::<Brand, S, P, R>(rt, alloc, store, passes, &read),
        Err(why) => Logged::refused(why),
    }
}

// Opens the log of a base, and runs the collectors of a plan on it. `K` tells what each device is at that moment. More than 2^32 - 1 collectors are refused as
// WantOfMemory.
fn log_read<K: Begun, S: Store, P: Passes, R: Threads + Wait + Sync>(
    rt: &R,
    alloc: Global,
    store: &mut S,
    passes: &mut P,
    read: &CollectedFiles,
) -> Logged
    requires begun { IsWholePast K.before (S.device_at store.old) }
    requires base { IsGoodBase read.now.base }
    requires rows { AreRowsOfBase read.now.base (row_lists_of read.now.rows.items) }
    requires few { total_rows (row_lists_of read.now.rows.items) ≤ most_collector_rows }
    ensures held { OnOk result.answer (IsSome result.log) }
    ensures run { IfSome result.log (IsRun S.Dev.device read.now.base (row_lists_of read.now.rows.items)
        (S.device_at store.old) (S.device_at store.new) (S.fault_count store.old) (S.fault_count store.new)
        (P.stops passes.old) (P.stops passes.new) result.answer) }
    ensures unopened { result.log ≡ None → IfErr result.answer (IsUnopened read.now.base (total_rows (row_lists_of read.now.rows.items))
        (S.device_at store.old) (S.device_at store.new) (S.fault_count store.old) (S.fault_count store.new)) }
    ensures counts { result.log ≡ None → S.fault_count store.old < 2 ^ 64
        → CountsOpening result.answer (S.fault_count store.old) (S.fault_count store.new) }
    ensures unstopped { result.log ≡ None → P.stops passes.new ≡ P.stops passes.old }
{
    let CollectedFiles { base, rows, .. } = read;
    let prepared = match prepare(alloc, base, rows) {
        Ok(prepared) => prepared,
        Err(_) => return Logged::refused(Status::WantOfMemory),
    };
    let PreparedLog { text, tags, room } = prepared;
    let log = match take_log::<K, S>(alloc, store, &text, tags, room) {
        Ok(log) => log,
        Err(why) => return Logged::refused(why),
    };
    match known_of(alloc, &log, text, tags) {
        Ok(known) => log_open(rt, alloc, store, passes, base, rows, &known, log),
        Err(_) => unready(store, log),
    }
}

// What a log is opened with: the plant's text, its number of tags, and the number of rows to put.
#[derive(Drop)]
pub(crate) struct PreparedLog {
    pub(crate) text: Vec<u8>,
    pub(crate) tags: u32,
    pub(crate) room: u32,
}

// Returns what the log is opened with, for a base and the rows of its collectors.
fn prepare(alloc: Global, base: &Base, rows: &[Vec<RawRow>]) -> Result<PreparedLog, WantOfMemory>
    requires few { total_rows (row_lists_of rows.now) ≤ most_collector_rows }
    ensures text { IfOk result (λ p. p.text.items ≡ plant_text base.now.tags.items) }
    ensures tags { IfOk result (λ p. p.tags ≡ length base.now.tags.items) }
    ensures room { IfOk result (λ p. p.room ≡ total_rows (row_lists_of rows.now)) }
    ensures few_files { OnOk result (length rows.now < 2 ^ 32) }
{
    if rows.len() > u32::MAX as usize {
        return Err(WantOfMemory);
    }
    Ok(PreparedLog {
        text: plant_text(alloc, &base.tags)?,
        tags: base.tags.len() as u32,
        room: row_total(rows) as u32,
    })
}

// Gives back the device of a log on which no collector was started, for lack of memory.
fn unready<K: Begun, S: Store>(store: &mut S, log: Log<Branded<S::Dev, K>>) -> Logged
    requires place { IsTrue (S.has_place store.old log_name) }
    ensures answer { result.answer ≡ Err Status.WantOfMemory }
    ensures none { result.log ≡ None }
    ensures back { IsGivenBack S.Dev.device log (S.device_at store.old) (S.device_at store.new)
        (S.fault_count store.old) (S.fault_count store.new) }
{
    let (dev, _) = log.into_history();
    give_back(store, LOG_NAME, dev);
    Logged::refused(Status::WantOfMemory)
}

// Runs the collectors on an open log, and gives its device back. If there is no memory for the workers, none begins.
fn log_open<K: Begun, S: Store, P: Passes, R: Threads + Wait + Sync>(
    rt: &R,
    alloc: Global,
    store: &mut S,
    passes: &mut P,
    base: &Base,
    rows: &[Vec<RawRow>],
    known: &KnownLog,
    log: Log<Branded<S::Dev, K>>,
) -> Logged
    requires few { length rows.now < 2 ^ 32 }
    requires tuned { All (λ def. TuningInRange def.tuning) base.now.tags.items }
    requires rows { AreRowsFor (length base.now.tags.items) (row_lists_of rows.now) }
    requires small { total_rows (row_lists_of rows.now) < 2 ^ 64 }
    requires kept { IsAsKnown log known.now }
    requires plant { known.now.plant.items ≡ plant_text base.now.tags.items }
    requires tags { known.now.tags ≡ length base.now.tags.items }
    requires place { IsTrue (S.has_place store.old log_name) }
    ensures run { (old : TracesByName) → AreOthersSame old (S.device_at store.old)
        → K.before log_name ≡ Some (old log_name)
        → IsLogOpened S.Dev.device (plant_text base.now.tags.items) (length base.now.tags.items)
        (total_rows (row_lists_of rows.now)) (old log_name) log
        → IfSome result.log (IsRun S.Dev.device base.now (row_lists_of rows.now)
        old (S.device_at store.new) (S.fault_count store.old) (S.fault_count store.new)
        (P.stops passes.old) (P.stops passes.new) result.answer) }

    // The rest is about a log on which no collector was started.
    ensures answer { result.log ≡ None → result.answer ≡ Err Status.WantOfMemory }
    ensures back { result.log ≡ None → IsGivenBack S.Dev.device log (S.device_at store.old) (S.device_at store.new)
        (S.fault_count store.old) (S.fault_count store.new) }
    ensures unstopped { result.log ≡ None → P.stops passes.new ≡ P.stops passes.old }
{
    match hold(rt, alloc, log, known, rows, passes) {
        Ok(
            EndedLog {
                dev,
                history,
                answer,
            },
        ) => {
            give_back(store, LOG_NAME, dev);
            Logged {
                answer: reported(alloc, base, answer, &history),
                log: Some(history),
            }
        }
        Err(log) => unready(store, log),
    }
}

// Returns one line for each tag of a log that is done, or why there is none.
fn reported(
    alloc: Global,
    base: &Base,
    answer: Result<(), Status>,
    log: &LogHistory,
) -> Result<String, Status>
    requires tuned { All (λ def. TuningInRange def.tuning) base.now.tags.items }
    requires rows { OnOk answer (All (IsLogRow (length base.now.tags.items)) (log_rows log.now)) }
    ensures { IsLogReported base.now log.now answer result }
{
    answer?;
    report(alloc, &base.tags, log)
}
