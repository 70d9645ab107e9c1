// The command: it takes the input's points into an archive.
ghost use Rattle.std.specs.Prelude.{◌≡◌, IfOk, IfErr};
ghost use Rattle.trend_num.specs.{TuningInRange};
ghost use Rattle.pack_command.specs.Pack.{IsPackRefusal, IsPrinted, status_of_rows};

use crate::archive::ArchiveText;
use crate::input::read_input;
use crate::intake::Standing;
use byte_io::Source;
use plant_status::{FileId, Status, What};
use point_text::RowNo;
use std::alloc::Global;
use std::marker::Brand;
use std::sync::ledger::Blank;
use trend_num::Tuning;

/// Reads standard input to its end, or until it has more bytes than may be read, and returns the text that `pack`
/// prints for it. If `pack` refuses the input, it returns the status of the refusal.
pub fn pack<I: Source>(alloc: Global, tuning: Tuning, input: &mut I) -> Result<ArchiveText, Status>
    requires { TuningInRange tuning }
    ensures printed { IfOk result (λ text.
        IsPrinted tuning (I.meaning input.old) (I.meaning input.new) text) }
    ensures refused { IfErr result (IsPackRefusal tuning (I.meaning input.old) (I.meaning input.new)) }
{
    let intake = read_input::<Brand, I>(alloc, tuning, input, Blank::new(1))?;
    match intake.standing {
        Standing::Taken => Ok(ArchiveText::of(intake.core)),
        Standing::Full { records } => Err(Status::Limit {
            what: What::Records,
            number: u64::from(records),
        }),
        Standing::Refused { why } => Err(status_of_rows(why)),
    }
}

// The status of an input whose rows are refused.
fn status_of_rows(why: RowNo) -> Status
    ensures { result ≡ status_of_rows why }
{
    match why {
        RowNo::BadRow { row, reason } => Status::BadRow {
            file: FileId::Input,
            row,
            reason,
        },
        RowNo::TooMany { rows } => Status::Limit {
            what: What::Rows,
            number: rows,
        },
        RowNo::WantOfMemory => Status::WantOfMemory,
    }
}
