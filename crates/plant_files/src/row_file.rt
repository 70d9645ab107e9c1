// A file of rows.
ghost use Rattle.std.specs.Prelude.{◌≡◌};
ghost use Rattle.plant_files.specs.RowFiles.{row_status};

use plant_status::{FileId, Status, What};
use value_rows::RowNo;

// The most bytes of a file of rows.
pub(crate) const MAX_FILE_BYTES: u64 = 67_108_864;

// The status of a file whose rows are refused for this reason. `kind` is the quantity of its rows.
pub(crate) fn row_status(kind: What, file: FileId, why: RowNo) -> Status
    ensures { result ≡ row_status kind file why }
{
    match why {
        RowNo::BadRow { row, reason } => Status::BadRow { file, row, reason },
        RowNo::TooMany { rows } => Status::Limit {
            what: kind,
            number: rows,
        },
        RowNo::WantOfMemory => Status::WantOfMemory,
    }
}
