// The arguments of the process, and its exit code.
ghost use Rattle.std.specs.Prelude.{◌≡◌, drop, map, string_bytes, IfOk, IfErr};
ghost use Rattle.std.specs.IoError.{error_kind};
ghost use Rattle.std.specs.Process.{exit_status};
ghost use Rattle.std.specs.Vec.Iter.{into_iter_items};
ghost use Rattle.plant_status.specs.{code_of};
ghost use Rattle.plant_files.specs.{IsTold};
ghost use Rattle.plant_run.specs.Argument.{status_of_args};
ghost use Rattle.plant_run.specs.Run.{world};
ghost use Rattle.plant_run.specs.Sessions.{ComesWithCode};

use crate::program::run;
use byte_io::{Files, Sink, Source};
use disk_model::Store;
use plant_files::refuse;
use plant_status::{Passes, Status, code};
use std::alloc::{AllocError, Global};
use std::env::Args;
use std::io;
use std::process::ExitCode;
use std::sync::Wait;
use std::thread::Threads;

/// Runs the program on the arguments of its process, and returns the exit code of the status. The first argument is the
/// program's name; the others are the words of the command line. `args` is an error if an argument is no text, or if
/// there is no memory for them. Then the program reads nothing, and prints the line of that refusal.
pub fn run_args<R: Threads + Wait + Sync, I: Source, F: Files, O: Sink, S: Store, P: Passes>(
    rt: &R,
    alloc: Global,
    args: io::Result<Args>,
    input: &mut I,
    files: &mut F,
    out: &mut O,
    store: &mut S,
    passes: &mut P,
) -> ExitCode
    // The words are the arguments after the first.
    ensures comes { IfOk args (λ given. ComesWithCode S.Dev.device
        (map string_bytes (drop 1 (into_iter_items given)))
        (world (I.meaning input.old) (O.meaning out.old) (F.told files.old) (F.fault_count files.old) (F.failed_name files.old)
        (S.device_at store.old) (S.fault_count store.old))
        (world (I.meaning input.new) (O.meaning out.new) (F.told files.new) (F.fault_count files.new) (F.failed_name files.new)
        (S.device_at store.new) (S.fault_count store.new)) (P.stops passes.old) (P.stops passes.new) (exit_status result)) }

    // The arguments could not be read.
    ensures no_args_code { IfErr args (λ why. exit_status result ≡ code_of (status_of_args (error_kind why))) }
    ensures no_args_line { IfErr args (λ why.
        IsTold (O.meaning out.old) (O.meaning out.new) (status_of_args (error_kind why))) }
    ensures untouched { IfErr args (λ why. input.new ≡ input.old) }
    ensures unread { IfErr args (λ why. files.new ≡ files.old) }
    ensures kept { IfErr args (λ why. store.new ≡ store.old) }
    ensures unstopped { IfErr args (λ why. passes.new ≡ passes.old) }
{
    let status = match args {
        Ok(given) => match words_of(alloc, given) {
            Ok(words) => run(
                rt,
                alloc,
                words.as_slice(),
                input,
                files,
                out,
                store,
                passes,
            )
            .status,
            Err(_) => refuse(Status::WantOfMemory, out),
        },
        Err(why) => refuse(status_of_args(why.kind()), out),
    };
    ExitCode::from(code(&status))
}

// The arguments after the program's name.
fn words_of(alloc: Global, given: Args) -> Result<Vec<String>, AllocError>
    ensures { IfOk result (λ words. words.items ≡ drop 1 (into_iter_items given)) }
{
    given.skip(1).collect(alloc)
}

// The status for arguments that could not be read.
fn status_of_args(kind: io::ErrorKind) -> Status
    ensures { result ≡ status_of_args kind }
{
    match kind {
        io::ErrorKind::OutOfMemory => Status::WantOfMemory,
        _ => Status::BadWords,
    }
}
