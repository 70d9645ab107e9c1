// Acknowledging what waits on a log.
ghost use Rattle.std.specs.Prelude.{◌≡◌, ◌≢◌, ◌<◌, IfErr, OnOk, false, true};
ghost use Rattle.commit_log.specs.declared.refusal.LogCommitNo.TheVariants.{WantOfMemory as NoMemory};
ghost use Rattle.commit_log.specs.{rows_waiting};
ghost use Rattle.plant_more.specs.LogTurns.{IsCommitted};

use commit_log::{Log, LogCommitNo};
use disk_model::Disk;

// Acknowledges all rows that wait, the oldest first. It returns the error of the first commit that is refused. Unless
// that is WantOfMemory, the log is broken, and its device has counted a fault.
pub(crate) fn commit_waiting<D: Disk>(log: &mut Log<D>) -> Result<(), LogCommitNo>
    ensures none_waits { OnOk result (rows_waiting log.new ≡ 0) }
    ensures usable { OnOk result (log.new.failed ≡ false) }
    ensures committed { IsCommitted log.old log.new }
    ensures broken { IfErr result (λ no. no ≢ NoMemory → log.new.failed ≡ true) }
    ensures cause { IfErr result (λ no. no ≢ NoMemory → 0 < (D.device log.new.dev).faults) }
{
    loop {
        let done = log.commit()?;
        if done.waiting == 0 {
            return Ok(());
        }
    }
}
