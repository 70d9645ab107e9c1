// Files of rows of one kind, read one after the other.
ghost use Rattle.std.specs.Prelude.{◌≡◌, ◌≢◌, ◌<◌, ◌^◌, ℕ, All, IfErr, IfOk, IsErrOf, List, Ok, Result, length, map};
ghost use Rattle.byte_io.specs.{IsFaultOf};
ghost use Rattle.trend_num.specs.{Reason, What};
ghost use Rattle.value_rows.specs.{AreRefusedFor, rows_of_text};
ghost use Rattle.plant_status.specs.{FileId};
ghost use Rattle.plant_status.specs.declared.status.Status.TheVariants.{ReadFault, WantOfMemory};
ghost use Rattle.plant_files.specs.Reading.{IsFaultAt, faults_after};
ghost use Rattle.plant_files.specs.RowFiles.{AreRowFiles, IsFirstRefused, IsRowFile, IsRowRefusal};

use crate::row_file::{MAX_FILE_BYTES, row_status};
use crate::whole::whole_of;
use byte_io::Files;
use plant_status::{FileId, Status, What};
use std::alloc::Global;
use tag_base::FileName;
use value_rows::RowNo;

// How the files of one kind are read: what their rows are, and the status in which each file is named.
pub(crate) trait RowFiles {
    type Row: Drop;

    ghost row_of: { Self → List (List ℕ) → Result Self.Row Reason };

    ghost is_row: { Self → Self.Row → Type 0 };

    ghost most: { Self → ℕ };

    ghost what: { Self → What };

    ghost file_at: { Self → ℕ → FileId };

    // Returns the rows that the bytes of a file spell.
    fn rows(&self, alloc: Global, bytes: &[u8]) -> Result<Vec<Self::Row>, RowNo>
        ensures rows { IfOk result (λ rows. rows_of_text (row_of self.now) (most self.now) bytes.now ≡ Ok rows.items) }
        ensures are_rows { IfOk result (λ rows. All (is_row self.now) rows.items) }
        ensures refused { IfErr result (AreRefusedFor (rows_of_text (row_of self.now) (most self.now) bytes.now)) };

    // The quantity of which there are too many rows.
    fn what(&self) -> What
        ensures { result ≡ what self.now };

    // The file at a place, as a status names it. The number stays at the end of its type.
    fn file_at(&self, place: usize) -> FileId
        ensures { result ≡ file_at self.now place };
}

// Reads the rows of a file.
fn rows_in<K: RowFiles, F: Files>(
    alloc: Global,
    files: &mut F,
    name: &FileName,
    file: FileId,
    kind: &K,
) -> Result<Vec<K::Row>, Status>
    ensures rows { IfOk result (λ rows. IsRowFile (rows_of_text (K.row_of kind.now) (K.most kind.now)) (F.told files.old name.now) rows.items) }
    ensures are_rows { IfOk result (λ rows. All (K.is_row kind.now) rows.items) }
    ensures refused { IfErr result (IsRowRefusal (K.what kind.now) (K.most kind.now)
        (rows_of_text (K.row_of kind.now) (K.most kind.now)) file (F.told files.old name.now)) }
    ensures stays { F.told files.new ≡ F.told files.old }
    ensures faults { F.fault_count files.new ≡ faults_after result (F.fault_count files.old) }
    ensures whose { (which : FileId) → IsErrOf result (ReadFault which) → (which ≡ file) × IsFaultOf (F.failed_name files.new) name.now }
{
    let name = name.text();
    match whole_of(alloc, files, name, file, What::FileBytes, MAX_FILE_BYTES) {
        Ok(bytes) => match kind.rows(alloc, &bytes) {
            Ok(rows) => Ok(rows),
            Err(why) => Err(row_status(kind.what(), file, why)),
        },
        Err(why) => Err(why),
    }
}

// Reads the rows of each file, or returns the first refusal.
pub(crate) fn row_lists<K: RowFiles, F: Files>(
    alloc: Global,
    files: &mut F,
    names: &[FileName],
    kind: &K,
) -> Result<Vec<Vec<K::Row>>, Status>
    requires few { length names.now < 2 ^ 32 }
    ensures rows { IfOk result (λ lists. AreRowFiles (IsRowFile (rows_of_text (K.row_of kind.now) (K.most kind.now)))
        (F.told files.old) names.now (map (λ rows. rows.items) lists.items)) }
    ensures are_rows { IfOk result (λ lists. All (λ rows. All (K.is_row kind.now) rows.items) lists.items) }
    ensures refused { IfErr result (λ why. why ≢ WantOfMemory →
        IsFirstRefused (IsRowFile (rows_of_text (K.row_of kind.now) (K.most kind.now)))
        (λ place. IsRowRefusal (K.what kind.now) (K.most kind.now) (rows_of_text (K.row_of kind.now) (K.most kind.now))
        (K.file_at kind.now place)) (F.told files.old) names.now why) }
    ensures stays { F.told files.new ≡ F.told files.old }
    ensures faults { F.fault_count files.new ≡ faults_after result (F.fault_count files.old) }
    ensures whose { (which : FileId) → IsErrOf result (ReadFault which)
        → (place : ℕ) × (place < 2 ^ 32) × (which ≡ K.file_at kind.now place) × IsFaultAt names.now place (F.failed_name files.new) }
{
    let mut lists = Vec::new(alloc);
    for name in names {
        let file = kind.file_at(lists.len());
        let rows = rows_in(alloc, files, name, file, kind)?;
        if lists.push(rows).is_err() {
            return Err(Status::WantOfMemory);
        }
    }
    Ok(lists)
}
