// Running the collectors of a plan on an open log, and ending the log after them.
ghost use Rattle.std.specs.Prelude.{◌≡◌, ◌^◌, ◌<◌, IfErr, IfOk, OnErr, length};
ghost use Rattle.disk_model.specs.{FitsName};
ghost use Rattle.commit_log.specs.{log_name, LogBeganWell};
ghost use Rattle.plant_more.specs.LogNotes.{row_lists_of};
ghost use Rattle.plant_more.specs.LogMaking.{AreRowsFor, total_rows};
ghost use Rattle.plant_more.specs.LogHeadline.{IsEnded};

use crate::log_known::KnownLog;
use crate::log_pool::{CollectedLog, run_collectors};
use crate::log_settling::settle;
use commit_log::{Log, LogHistory};
use disk_model::Disk;
use plant_status::{Passes, Status};
use std::alloc::Global;
use std::sync::Wait;
use std::thread::Threads;
use value_rows::RawRow;

// A log at its end: its device, what happened to it, and whether it is done or why it is not.
pub(crate) struct EndedLog<D: Disk> {
    pub(crate) dev: D,
    pub(crate) history: LogHistory,
    pub(crate) answer: Result<(), Status>,
}

// Runs the collectors on a log, and brings the log to its end. If there is no memory for the workers, none begins, and
// the log is returned unchanged.
pub(crate) fn hold<D: Disk + Send, P: Passes, R: Threads + Wait + Sync>(
    rt: &R,
    alloc: Global,
    log: Log<D>,
    known: &KnownLog,
    files: &[Vec<RawRow>],
    passes: &mut P,
) -> Result<EndedLog<D>, Log<D>>
    requires few { length files.now < 2 ^ 32 }
    requires rows { AreRowsFor known.now.tags (row_lists_of files.now) }
    requires small { total_rows (row_lists_of files.now) < 2 ^ 64 }
    ensures ended { IfOk result (IsEnded D.device (row_lists_of files.now) known.now
        (P.stops passes.old) (P.stops passes.new)) }
    ensures named { IfOk result (λ e. FitsName log_name (D.device e.dev).handed) }
    ensures since { IfOk result (λ e. LogBeganWell e.history.plant.items e.history.tags e.history.opening.items e.history.moment
        (D.device e.dev).handed (D.device e.dev).trace) }
    ensures unbegun { OnErr result (P.stops passes.new ≡ P.stops passes.old) }
    ensures unchanged { IfErr result (λ back. back ≡ log) }
{
    match run_collectors(rt, alloc, log, files, passes) {
        Ok(CollectedLog { mut log, notes }) => {
            let answer = settle(alloc, &mut log, known, files, &notes);
            let (dev, history) = log.into_history();
            Ok(EndedLog {
                dev,
                history,
                answer,
            })
        }
        Err(log) => Err(log),
    }
}
