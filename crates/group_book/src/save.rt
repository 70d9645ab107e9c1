// Saving the rows of a group.
ghost use Rattle.std.specs.Prelude.{◌≡◌, ◌↔◌, ◌+◌, IfOk, IsErrOf, IsOk, None, OnOk, Some, length, true};
ghost use Rattle.disk_model.specs.{CountsFault};
ghost use Rattle.calc_refresh.specs.{lists_of};
ghost use Rattle.sheet_law.specs.{complete_windows};
ghost use Rattle.group_book.specs.declared.refusal.SaveNo.TheVariants.{Broken, DeviceFault, WantOfMemory as NoMemory};
ghost use Rattle.group_book.specs.Saves.{HasAllChanges, IsBookFaulted, IsSaved, ListsChanges};
ghost use Rattle.group_book.specs.Told.{faults_of};

use crate::book::Book;
use crate::changes::changes;
use crate::publish::make_place;
use crate::refusal::SaveNo;
use crate::saved_rows::{bring_rows, make_room};
use crate::turn::Turn;
use crate::unsaved::{clear_flags, unsaved_windows};
use archive_file::PutNo;
use calc_refresh::{CalcValue, Sheet};
use disk_model::Disk;
use group_layout::{Block, put_block};
use std::alloc::Global;
use trend_num::WantOfMemory;

impl From<WantOfMemory> for SaveNo {
    ghost use Rattle.std.specs.Prelude.{◌≡◌};
    ghost use Rattle.group_book.specs.declared.refusal.SaveNo.TheVariants.{WantOfMemory as NoMemory};

    ghost from_gives = { λ _ no. no ≡ NoMemory };

    fn from(_: WantOfMemory) -> SaveNo {
        SaveNo::WantOfMemory
    }
}

impl<D: Disk> Book<D> {
    /// Saves the rows that changed since the last save, as one block after the others, and leaves one `Save` on the
    /// tape. An equal value is no change. A book without a device does nothing and returns `Ok`.
    ///
    /// Returns `Broken` if an earlier save returned `DeviceFault`. Returns `DeviceFault` if a call of the device fails
    /// now. Returns `WantOfMemory` if no memory is found, the number of the save would pass 2^64 - 1, or the device
    /// 2^64 bytes. This error comes before any call of the device, and the book is then unchanged.
    pub fn save(&mut self) -> Result<(), SaveNo>
        ensures none { self.old.dev ≡ None → IsOk result × (self.new ≡ self.old) }
        ensures broken { IsErrOf result Broken ↔ (self.old.failed ≡ true) }
        ensures saved { (d : D) → self.old.dev ≡ Some d → OnOk result (IsSaved D.device d self.old self.new) }
        ensures faulted { IsErrOf result DeviceFault → IsBookFaulted self.old self.new }
        ensures cause { CountsFault result DeviceFault (faults_of D.device self.old.dev) (faults_of D.device self.new.dev) }
        ensures untouched { IsErrOf result NoMemory → self.new ≡ self.old }
        ensures still_broken { IsErrOf result Broken → self.new ≡ self.old }
    {
        if self.failed {
            return Err(SaveNo::Broken);
        }
        let Some(dev) = &mut self.dev else {
            return Ok(());
        };
        let windows = self.sheet.windows();
        let unsaved = unsaved_windows(self.alloc, &self.unsaved, windows)?;
        let block = next_block(
            self.alloc,
            &self.sheet,
            &self.versions,
            &self.saved_rows,
            &unsaved,
            self.number,
        )?;
        make_place(&mut self.tape)?;
        make_room(&mut self.saved_rows, &mut self.unsaved, windows as usize)?;
        match put_block(self.alloc, dev, self.end, &block) {
            Ok(end) => {
                let moment = dev.clock();
                self.tape.push_reserved(Turn::Save {
                    number: block.number,
                    moment,
                });
                self.number = block.number;
                self.saved_versions = block.versions;
                bring_rows(
                    &mut self.saved_rows,
                    self.sheet.rows(),
                    &unsaved,
                    windows as usize,
                );
                clear_flags(&mut self.unsaved, windows as usize);
                self.end = end;
                Ok(())
            }
            Err(PutNo::WantOfMemory) => Err(SaveNo::WantOfMemory),
            Err(PutNo::DeviceFault) => {
                self.failed = true;
                Err(SaveNo::DeviceFault)
            }
        }
    }
}

// Copies versions.
pub(crate) fn copy_of(alloc: Global, versions: &[u32]) -> Result<Vec<u32>, WantOfMemory>
    ensures { IfOk result (λ v. v.items ≡ versions.now) }
{
    Ok(Vec::from_slice(alloc, versions)?)
}

// Makes the block of the next save. `versions` are those of the sheet. `saved` and `number` are the rows and the number
// of the last save, and `unsaved` has the windows in which the rows may have changed since.
fn next_block(
    alloc: Global,
    sheet: &Sheet,
    versions: &[u32],
    saved: &[Vec<CalcValue>],
    unsaved: &[u32],
    number: u64,
) -> Result<Block, WantOfMemory>
    requires { HasAllChanges (lists_of saved.now) sheet.now.rows 0 (complete_windows sheet.now.grid sheet.now.copies) unsaved.now }
    ensures number { IfOk result (λ b. b.number ≡ number + 1) }
    ensures versions { IfOk result (λ b. b.versions.items ≡ versions.now) }
    ensures windows { IfOk result (λ b. b.windows ≡ complete_windows sheet.now.grid sheet.now.copies) }
    ensures rows { IfOk result (λ b. ListsChanges (length sheet.now.group.calcs) b.windows (lists_of saved.now) sheet.now.rows b.rows.items) }
{
    let Some(number) = number.checked_add(1) else {
        return Err(WantOfMemory);
    };
    Ok(Block {
        number,
        versions: copy_of(alloc, versions)?,
        windows: sheet.windows(),
        rows: changes(alloc, sheet, saved, unsaved)?,
    })
}
