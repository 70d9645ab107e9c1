// The calendar of a plant.
ghost use Rattle.std.specs.Prelude.{◌≡◌, ◌<◌, All, length, vec_len, IfOk, IfErr, IsErrOf};
ghost use Rattle.byte_io.specs.{IsFaultOf};
ghost use Rattle.plant_status.specs.{FileId};
ghost use Rattle.plant_status.specs.declared.status.Status.TheVariants.{ReadFault};
ghost use Rattle.plant_files.specs.Reading.{IsReadWhole, IsReadRefusal, faults_after};
ghost use Rattle.plant_files.specs.{most_text_bytes, tag_names};
ghost use Rattle.plant_more.specs.CalendarFile.{IsCalendarFile, IsCalendarRefusal, calendar_status};

use byte_io::{Files, ReadNo, read_file};
use plant_status::{FileId, Status, What};
use shift_calendar::{CalNo, Calendar, Name, read_calendar};
use std::alloc::Global;
use tag_base::Base;
use trend_num::{TagDef, WantOfMemory};

// How many bytes the file of a calendar has at most.
const MAX_TEXT_BYTES: u64 = 1_048_576;

// Reads the calendar from the file of this name, over the names of the base's tags. The file has at most 1,048,576
// bytes.
pub(crate) fn calendar_of<F: Files>(
    alloc: Global,
    files: &mut F,
    name: &str,
    base: &Base,
) -> Result<Calendar, Status>
    ensures calendar { IfOk result (IsCalendarFile (tag_names base.now.tags.items) (F.told files.old name.now)) }
    ensures are_tags { IfOk result (λ cal. All (λ place. place < length base.now.tags.items) cal.tags) }
    ensures refused { IfErr result (IsCalendarRefusal (tag_names base.now.tags.items) (F.told files.old name.now)) }
    ensures stays { F.told files.new ≡ F.told files.old }
    ensures faults { F.fault_count files.new ≡ faults_after result (F.fault_count files.old) }
    ensures whose { (which : FileId) → IsErrOf result (ReadFault which) → IsFaultOf (F.failed_name files.new) name.now }
{
    let bytes = calendar_bytes(alloc, files, name)?;
    let Ok(names) = names_of_tags(alloc, &base.tags) else {
        return Err(Status::WantOfMemory);
    };
    read_calendar(alloc, &bytes, &names).map_err(calendar_status)
}

// Reads all bytes of a calendar's file.
fn calendar_bytes<F: Files>(alloc: Global, files: &mut F, name: &str) -> Result<Vec<u8>, Status>
    ensures read { IfOk result (λ v. IsReadWhole (F.told files.old name.now) most_text_bytes v.items) }
    ensures refused { IfErr result (IsReadRefusal FileId.Calendar What.TextBytes most_text_bytes (F.told files.old name.now)) }
    ensures stays { F.told files.new ≡ F.told files.old }
    ensures faults { F.fault_count files.new ≡ faults_after result (F.fault_count files.old) }
    ensures whose { (which : FileId) → IsErrOf result (ReadFault which) → IsFaultOf (F.failed_name files.new) name.now }
{
    match read_file(alloc, files, name, MAX_TEXT_BYTES) {
        Ok(bytes) => Ok(bytes),
        Err(ReadNo::ReadFault) => Err(Status::ReadFault {
            file: FileId::Calendar,
        }),
        Err(ReadNo::TooLong { .. }) => Err(Status::Limit {
            what: What::TextBytes,
            number: MAX_TEXT_BYTES + 1,
        }),
        Err(ReadNo::WantOfMemory) => Err(Status::WantOfMemory),
    }
}

// Returns the names of the tags, in order.
fn names_of_tags(alloc: Global, tags: &[TagDef]) -> Result<Vec<Name>, WantOfMemory>
    ensures names { IfOk result (λ names. names.items ≡ tag_names tags.now) }
    ensures as_many { IfOk result (λ names. vec_len names ≡ length tags.now) }
{
    Ok(tags.iter().map(|tag| tag.name).collect(alloc)?)
}

// Returns the status for a calendar that is refused for this reason. A calendar's rules are about its whole text, so
// the status names no place.
fn calendar_status(why: CalNo) -> Status
    ensures { result ≡ calendar_status why }
{
    match why {
        CalNo::BadText { rule } => Status::BadText {
            file: FileId::Calendar,
            rule,
            place: 0,
            at: 0,
        },
        CalNo::WantOfMemory => Status::WantOfMemory,
    }
}
