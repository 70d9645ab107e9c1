// Printing the text of an answer, or the line of a refusal.
ghost use Rattle.std.specs.Prelude.{◌≡◌, ◌≢◌, string_bytes, IfOk, IfErr, OnOk, OnErr};
ghost use Rattle.plant_files.specs.Printing.{IsPrintedSo, IsTold};

use byte_io::{Sink, WriteFault, write_all};
use plant_status::{Status, line};

/// Prints the text of an answer, or the line of its refusal, and returns the status of the whole. If a text is not
/// printed whole, that is a `WriteFault`. The status of a refusal stays what it is.
pub fn finish<O: Sink>(answer: Result<String, Status>, out: &mut O) -> Status
    ensures text { IfOk answer (λ text. IsPrintedSo (string_bytes text) (O.meaning out.old) (O.meaning out.new) result) }
    ensures refused { IfErr answer (λ why. (result ≡ why) × IsTold (O.meaning out.old) (O.meaning out.new) why) }
    ensures known { IfErr answer (λ why. why ≢ Status.BadWords) → result ≢ Status.BadWords }
{
    match answer {
        Ok(text) => printed(write_all(out, text.as_bytes())),
        Err(status) => refuse(status, out),
    }
}

/// Returns the status of a text after it was printed: `Done`, or `WriteFault` if a write failed.
pub fn printed(answer: Result<(), WriteFault>) -> Status
    ensures done { OnOk answer (result ≡ Status.Done) }
    ensures fault { OnErr answer (result ≡ Status.WriteFault) }
{
    match answer {
        Ok(()) => Status::Done,
        Err(_) => Status::WriteFault,
    }
}

/// Prints the line of a refusal, and returns its status. The status stays the same if that print fails.
pub fn refuse<O: Sink>(status: Status, out: &mut O) -> Status
    ensures same { result ≡ status }
    ensures line { IsTold (O.meaning out.old) (O.meaning out.new) status }
{
    let _ = write_all(out, line(&status).bytes());
    status
}
