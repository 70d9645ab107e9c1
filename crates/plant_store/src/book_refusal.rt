// Turning the reason why a group is not opened into a status.
ghost use Rattle.std.specs.Prelude.{◌≡◌};
ghost use Rattle.plant_store.specs.BookRefusals.{status_of};

use group_book::LoadNo;
use plant_status::{Place, Seen, Status, Unit};

/// Returns the status for a group that is not opened. `group` is its place in the base.
pub fn book_status(group: u32, why: LoadNo) -> Status
    ensures { result ≡ status_of group why }
{
    match why {
        LoadNo::DeviceFault => Status::DeviceFault {
            unit: Unit::Group(group),
        },
        LoadNo::Damaged { at, byte } => Status::Damaged {
            unit: Unit::Group(group),
            at,
            byte,
        },
        LoadNo::Ahead {
            input,
            version,
            records,
        } => Status::Mismatch {
            place: Place::Version { group, input },
            kept: Seen::Number(u64::from(records)),
            told: Seen::Number(u64::from(version)),
        },
        LoadNo::Shape { windows, rows } => Status::Mismatch {
            place: Place::Windows { group },
            kept: Seen::Number(windows),
            told: Seen::Number(rows),
        },
        LoadNo::WantOfMemory => Status::WantOfMemory,
    }
}
