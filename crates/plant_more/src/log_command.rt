// The command `log`.
ghost use Rattle.std.specs.Prelude.{◌≡◌, ◌↔◌, None, map, string_bytes};
ghost use Rattle.plant_more.specs.Endings.{scene};
ghost use Rattle.plant_more.specs.Logs.{EndsOfLog};
ghost use Rattle.plant_more.specs.Words.{log_words};

use crate::logging::{Logged, log_plan};
use crate::words::{Planned, log_words};
use byte_io::{Files, Sink};
use commit_log::LogHistory;
use disk_model::Store;
use plant_files::{finish, refuse};
use plant_status::{Passes, Status};
use std::alloc::Global;
use std::sync::Wait;
use std::thread::Threads;

/// How `log` ended.
#[derive(Drop)]
pub struct LogOutcome {
    pub status: Status,
    /// All that happened to the log, if collectors were started.
    pub log: Option<LogHistory>,
}

/// Does what `log BASE PLAN` asks for. The plan's collectors put their rows into the one log of the base's plant. Then
/// the command prints one line for each tag, computed from the values that the log has of it. If it is refused, it
/// prints one line that states the refusal instead. All other words are bad words: the command then reads nothing.
pub fn log<F: Files, O: Sink, S: Store, P: Passes, R: Threads + Wait + Sync>(
    rt: &R,
    alloc: Global,
    words: &[String],
    files: &mut F,
    out: &mut O,
    store: &mut S,
    passes: &mut P,
) -> LogOutcome
    ensures ends { EndsOfLog S.Dev.device (log_words (map string_bytes words.now))
        (scene (O.meaning out.old) (F.told files.old) (F.fault_count files.old) (F.failed_name files.old)
        (S.device_at store.old) (S.fault_count store.old))
        (scene (O.meaning out.new) (F.told files.new) (F.fault_count files.new) (F.failed_name files.new)
        (S.device_at store.new) (S.fault_count store.new)) (P.stops passes.old) (P.stops passes.new) result }
    ensures files { F.told files.new ≡ F.told files.old }

    // Words that name no plan are refused as bad words. Then nothing but the output changes.
    ensures bad_words { (result.status ≡ Status.BadWords) ↔ (log_words (map string_bytes words.now) ≡ None) }
    ensures untouched { result.status ≡ Status.BadWords → files.new ≡ files.old }
    ensures kept { result.status ≡ Status.BadWords → store.new ≡ store.old }
    ensures unstopped { result.status ≡ Status.BadWords → passes.new ≡ passes.old }
{
    match log_words(words) {
        Some(Planned { base, plan }) => {
            let Logged { answer, log } = log_plan(rt, alloc, files, store, passes, base, plan);
            LogOutcome {
                status: finish(answer, out),
                log,
            }
        }
        None => LogOutcome {
            status: refuse(Status::BadWords, out),
            log: None,
        },
    }
}
