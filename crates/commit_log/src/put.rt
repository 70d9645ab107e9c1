// Appending a row.
ghost use Rattle.std.specs.Prelude.{◌≡◌, [], ◌∷◌, ◌++◌, None, Some, IfOk, IsErrOf, OnErr, OnOk, MatchResult};
ghost use Rattle.trend_num.specs.{InRange};
ghost use Rattle.disk_model.specs.{Rose};
ghost use Rattle.commit_log.specs.declared.history.LogTurn.TheVariants.{Put};
ghost use Rattle.commit_log.specs.declared.refusal.PutRowNo.TheVariants.{Broken};
ghost use Rattle.commit_log.specs.Told.{put_refusal, row_count};

use crate::history::LogTurn;
use crate::log::Log;
use crate::refusal::PutRowNo;
use crate::row::LogRow;
use disk_model::Disk;

impl<D: Disk> Log<D> {
    /// Appends a row whose point is in range, and returns its place among all rows, counted from 0 with the opening's.
    /// It takes no memory. A refusal leaves the log unchanged.
    ///
    /// NoTag: the plant has no such tag. Broken: an earlier commit returned DeviceFault. RoomFull: the log has no room
    /// for another put. If several hold, the first of them is returned.
    pub fn put(&mut self, row: LogRow) -> Result<u64, PutRowNo>
        requires { InRange row.point }
        ensures refused { MatchResult result (λ _. put_refusal self.old row ≡ None) (λ e. put_refusal self.old row ≡ Some e) }
        ensures place { IfOk result (λ place. place ≡ row_count self.old) }
        ensures appended { OnOk result (self.new ≡ record self.old { tape = self.old.tape ++ Put row ∷ [] }) }
        ensures unchanged { OnErr result (self.new ≡ self.old) }
        ensures cause { IsErrOf result Broken → Rose self.old.faults (D.device self.old.dev).faults }
    {
        if row.tag >= self.tags {
            return Err(PutRowNo::NoTag { tags: self.tags });
        }
        if self.failed {
            return Err(PutRowNo::Broken);
        }
        if self.count == self.room {
            return Err(PutRowNo::RoomFull { room: self.room });
        }
        let place = self.opening.len() as u64 + u64::from(self.count);
        self.tape.push_reserved(LogTurn::Put(row));
        self.count += 1;
        Ok(place)
    }
}
