// How the workers of a log ended.
ghost use Rattle.std.specs.Prelude.{◌≢◌, All, IfErr, OnOk};
ghost use Rattle.plant_more.specs.declared.log_note.LogEnding.TheVariants.{Halted, WantOfMemory as NoMemory};
ghost use Rattle.plant_more.specs.LogRefusals.{IsStop};

use crate::log_note::{LogEnding, LogNote};
use plant_status::Status;

// Returns Halted with the first worker that its pass stopped. If there is none, it returns WantOfMemory if a worker
// found no memory.
pub(crate) fn check_endings(notes: &[LogNote]) -> Result<(), Status>
    ensures none_halted { OnOk result (All (λ n. n.ending ≢ Halted) notes.now) }
    ensures all_found { OnOk result (All (λ n. n.ending ≢ NoMemory) notes.now) }
    ensures stopped { IfErr result (IsStop notes.now) }
{
    if let Some(place) = notes
        .iter()
        .position(|note| note.ending == LogEnding::Halted)
    {
        return Err(Status::Halted {
            worker: notes[place].worker,
        });
    }
    if notes
        .iter()
        .any(|note| note.ending == LogEnding::WantOfMemory)
    {
        return Err(Status::WantOfMemory);
    }
    Ok(())
}
