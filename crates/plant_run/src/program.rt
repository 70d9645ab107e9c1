// The top call.
ghost use Rattle.std.specs.Prelude.{◌≡◌, ◌↔◌, ◌≢◌, IfErr, IfOk, None, map, string_bytes};
ghost use Rattle.trend_num.specs.{TuningInRange};
ghost use Rattle.plant_files.specs.{IsPrintedSo, IsTold, PrintsSo};
ghost use Rattle.plant_run.specs.CommandLine.{form_of};
ghost use Rattle.plant_run.specs.Run.{IsNotPacked, IsPacked, MeansNothing, world};
ghost use Rattle.plant_run.specs.Sessions.{ComesOf, IsHandedOn};

use crate::command_line::{Form, form_of};
use byte_io::{Files, Sink, Source};
use commit_log::LogHistory;
use disk_model::Store;
use pack_command::pack;
use plant_files::{finish, printed, refuse};
use plant_more::{LogOutcome, log, shifts};
use plant_status::{Passes, Status};
use run_command::{Ran, drill, run_plan};
use session_report::Session;
use std::alloc::Global;
use std::sync::Wait;
use std::thread::Threads;
use store_commands::{check, frames, trend};
use trend_num::Tuning;

/// How a run of the program ended.
#[derive(Drop)]
pub struct Outcome {
    pub status: Status,
    /// What happened in the session. `run` and `drill` have one if the devices were opened, `log` if collectors were
    /// started. Other commands have none.
    pub session: Option<Session>,
}

/// Does what the words of a command line ask for, and returns how it ended.
///
/// | words | what the command does |
/// |---|---|
/// | `pack EXCDEV EXCMAX COMPDEV COMPMIN COMPMAX` | reads lines `TIME,VALUE` from `input` to its end; prints the records that the archive of one tag keeps of them, and the held point |
/// | `check BASE` | opens the tags of a base, and prints one line for each |
/// | `trend BASE PLAN` | opens the tags and groups, and prints the answers to the queries of the plan's readers |
/// | `run BASE PLAN` | runs the session of a plan: its collectors feed the tags of the base, its readers ask, its refreshers bring the groups up to date; prints the report once every device is given back |
/// | `log BASE PLAN` | puts the rows of the plan's collectors into one log of the whole plant |
/// | `shifts BASE CALENDAR DAY DAYS` | prints the figures of the calendar's shifts on these days |
/// | `frames BASE GROUP CALC LEAST` | prints when a calculation stayed true, as it was saved and as it is now |
/// | `drill NUMBER TAGS EVENTS` | runs the session of a generated plant, in memory |
///
/// A refused command prints its one line instead. A failed write is the exception: it prints no such line.
pub fn run<R: Threads + Wait + Sync, I: Source, F: Files, O: Sink, S: Store, P: Passes>(
    rt: &R,
    alloc: Global,
    words: &[String],
    input: &mut I,
    files: &mut F,
    out: &mut O,
    store: &mut S,
    passes: &mut P,
) -> Outcome
    // The command did what the words ask for.
    ensures comes { ComesOf S.Dev.device (form_of (map string_bytes words.now))
        (world (I.meaning input.old) (O.meaning out.old) (F.told files.old) (F.fault_count files.old) (F.failed_name files.old)
        (S.device_at store.old) (S.fault_count store.old))
        (world (I.meaning input.new) (O.meaning out.new) (F.told files.new) (F.fault_count files.new) (F.failed_name files.new)
        (S.device_at store.new) (S.fault_count store.new)) (P.stops passes.old) (P.stops passes.new) result }
    ensures files { F.told files.new ≡ F.told files.old }

    // Words that ask for nothing are refused with `BadWords`, and nothing but the output changes then.
    ensures bad_words { (result.status ≡ Status.BadWords) ↔ MeansNothing (form_of (map string_bytes words.now)) }
    ensures untouched { result.status ≡ Status.BadWords → input.new ≡ input.old }
    ensures unread { result.status ≡ Status.BadWords → files.new ≡ files.old }
    ensures kept { result.status ≡ Status.BadWords → store.new ≡ store.old }
    ensures unstopped { result.status ≡ Status.BadWords → passes.new ≡ passes.old }
{
    match form_of(words) {
        Form::Pack(tuning) => alone(run_pack(alloc, tuning, input, out)),
        Form::Check { base } => alone(finish(check(alloc, files, store, base), out)),
        Form::Trend { base, plan } => alone(finish(trend(alloc, files, store, base, plan), out)),
        Form::Run { base, plan } => {
            reported(run_plan(rt, alloc, files, store, passes, base, plan), out)
        }
        Form::Log(words) => handed_on(alloc, log(rt, alloc, words, files, out, store, passes)),
        Form::Shifts(words) => alone(shifts(alloc, words, files, out, store)),
        Form::Frames {
            base,
            group,
            calc,
            least,
        } => alone(finish(frames(alloc, files, store, base, group, calc, least), out)),
        Form::Drill {
            number,
            tags,
            events,
        } => reported(drill(rt, alloc, passes, number, tags, events), out),
        Form::Unknown => alone(refuse(Status::BadWords, out)),
    }
}

// The outcome of a command that holds no session.
fn alone(status: Status) -> Outcome
    ensures status { result.status ≡ status }
    ensures alone { result.session ≡ None }
{
    Outcome {
        status,
        session: None,
    }
}

// Prints the report of a session, or the line of its refusal.
fn reported<O: Sink>(ran: Ran, out: &mut O) -> Outcome
    ensures text { IfOk ran.answer (λ text. IsPrintedSo (string_bytes text) (O.meaning out.old) (O.meaning out.new) result.status) }
    ensures refused { IfErr ran.answer (λ why. (result.status ≡ why) × IsTold (O.meaning out.old) (O.meaning out.new) why) }
    ensures known { IfErr ran.answer (λ why. why ≢ Status.BadWords) → result.status ≢ Status.BadWords }
    ensures session { result.session ≡ ran.session }
{
    let Ran { answer, session } = ran;
    Outcome {
        status: finish(answer, out),
        session,
    }
}

// The outcome of `log`. The log that it wrote, if any, becomes a session.
fn handed_on(alloc: Global, came: LogOutcome) -> Outcome
    ensures status { result.status ≡ came.status }
    ensures session { IsHandedOn came.log result.session }
{
    let LogOutcome { status, log } = came;
    Outcome {
        status,
        session: session_of(alloc, log),
    }
}

// A session with this log and nothing else. `None` if there is no log.
fn session_of(alloc: Global, log: Option<LogHistory>) -> Option<Session>
    ensures { IsHandedOn log result }
{
    let log = log?;
    Some(Session {
        tags: Vec::new(alloc),
        groups: Vec::new(alloc),
        workers: Vec::new(alloc),
        log: Some(log),
    })
}

// Packs the input, and prints the records and the held point that remain of it.
fn run_pack<I: Source, O: Sink>(alloc: Global, tuning: Tuning, input: &mut I, out: &mut O) -> Status
    requires { TuningInRange tuning }
    ensures ends { PrintsSo (IsPacked tuning (I.meaning input.old) (I.meaning input.new))
        (IsNotPacked tuning (I.meaning input.old) (I.meaning input.new)) (O.meaning out.old) (O.meaning out.new) result }
    ensures known { result ≢ Status.BadWords }
{
    match pack(alloc, tuning, input) {
        Ok(text) => printed(text.print(out)),
        Err(status) => refuse(status, out),
    }
}
