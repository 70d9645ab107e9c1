// Turning the reason why a tag is not opened into a status.
ghost use Rattle.std.specs.Prelude.{◌≡◌};
ghost use Rattle.plant_store.specs.TagRefusals.{status_of};

use crash_recovery::OpenNo;
use plant_status::{Status, Unit, What};

// The most records that all tags of a store may have when it is opened.
pub(crate) const MAX_STORE_RECORDS: u64 = 8_388_608;

// Returns the status for a tag that is not opened.
pub(crate) fn status_of(tag: u32, why: OpenNo) -> Status
    ensures { result ≡ status_of tag why }
{
    let unit = Unit::Tag(tag);
    match why {
        OpenNo::DeviceFault => Status::DeviceFault { unit },
        OpenNo::Damaged { at, byte } => Status::Damaged { unit, at, byte },
        OpenNo::OtherTag { found, wanted } => Status::OtherTag { tag, found, wanted },
        OpenNo::Full { records } => Status::Limit {
            what: What::Records,
            number: u64::from(records),
        },
        OpenNo::WantOfMemory => Status::WantOfMemory,
    }
}

// Returns the status for a store whose tags together have too many records; `records` is how many.
pub(crate) fn too_many(records: u64) -> Status
    ensures { result ≡ Status.Limit What.StoreRecords records }
{
    Status::Limit {
        what: What::StoreRecords,
        number: records,
    }
}
