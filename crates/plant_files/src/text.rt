// The status of a text that is refused.
ghost use Rattle.std.specs.Prelude.{◌≡◌};
ghost use Rattle.plant_files.specs.Texts.{text_status};

use plant_status::{FileId, Status};
use tag_base::TextNo;

// The most bytes of a base or a plan.
pub(crate) const MAX_TEXT_BYTES: u64 = 1_048_576;

// The status of a file whose text is refused for this reason.
pub(crate) fn text_status(file: FileId, why: TextNo) -> Status
    ensures { result ≡ text_status file why }
{
    match why {
        TextNo::BadText { rule, place, at } => Status::BadText {
            file,
            rule,
            place,
            at,
        },
        TextNo::Limit { what, number } => Status::Limit { what, number },
        TextNo::WantOfMemory => Status::WantOfMemory,
    }
}
