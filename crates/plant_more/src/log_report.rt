// The report of a log: one line for each tag.
ghost use Rattle.std.specs.Prelude.{◌≡◌, ◌+◌, ◌<◌, [], All, IfErr, IfOk, OnOk, Some, length, slice_get, string_bytes, take, vec_len};
ghost use Rattle.trend_num.specs.{TuningInRange};
ghost use Rattle.trend_model.specs.State.{Stands};
ghost use Rattle.commit_log.specs.{IsLogRow};
ghost use Rattle.plant_more.specs.LogReports.{AreStanding, HasRoomBelow, IsReportRefusal, IsLineToldOf, log_rows, log_origin_of};

use commit_log::{LogHistory, LogRow, LogTurn};
use plant_status::{Status, What};
use std::alloc::Global;
use std::marker::Brand;
use std::sync::ledger::{Blank, Ledger};
use tag_core::TagCore;
use trend_num::{Steps, TagDef, WantOfMemory};
use trend_report::check_text;

// Returns one line for each tag, computed from its values in the log in order: those of the opening, then those that
// were put.
pub(crate) fn report(alloc: Global, tags: &[TagDef], log: &LogHistory) -> Result<String, Status>
    requires tuned { All (λ def. TuningInRange def.tuning) tags.now }
    requires rows { All (IsLogRow (length tags.now)) (log_rows log.now) }
    ensures told { IfOk result (λ text. IsLineToldOf tags.now (log_rows log.now) (string_bytes text)) }
    ensures refused { IfErr result (IsReportRefusal tags.now (log_rows log.now)) }
{
    let Ok(mut cores) = new_cores(alloc, tags, log) else {
        return Err(Status::WantOfMemory);
    };
    take_all(&mut cores, tags, log)?;
    check_text(alloc, tags, &cores).map_err(|_| Status::WantOfMemory)
}

// Returns a core for each tag that has taken nothing yet, with room for the tag's values in the log.
fn new_cores(alloc: Global, tags: &[TagDef], log: &LogHistory) -> Result<Vec<TagCore>, WantOfMemory>
    requires tuned { All (λ def. TuningInRange def.tuning) tags.now }
    requires rows { All (IsLogRow (length tags.now)) (log_rows log.now) }
    ensures { IfOk result (λ cores. AreStanding tags.now [] cores.items) }
{
    let rooms = rooms_of(alloc, log, tags.len())?;
    let mut cores = Vec::with_capacity(alloc, tags.len())?;
    for tag in 0..tags.len() {
        let core = new_core(alloc, &tags[tag], rooms[tag])?;
        cores.push_reserved(core);
    }
    Ok(cores)
}

// Returns a core for a tag that has taken nothing yet, with room for so many values.
fn new_core(alloc: Global, tag: &TagDef, room: u32) -> Result<TagCore, WantOfMemory>
    requires { TuningInRange tag.now.tuning }
    ensures step { IfOk result (λ core. core.step ≡ tag.now.step) }
    ensures stands { IfOk result (λ core. Stands (log_origin_of tag.now) [] core.state) }
{
    TagCore::new(alloc, tag.tuning, tag.step, room)
}

// Counts, for each of so many tags, how many rows of the log are its own.
fn rooms_of(alloc: Global, log: &LogHistory, tags: usize) -> Result<Vec<u32>, WantOfMemory>
    requires { All (IsLogRow tags) (log_rows log.now) }
    ensures { IfOk result (λ rooms. vec_len rooms ≡ tags) }
{
    let mut rooms = vec![in alloc; 0u32; tags]?;
    count_opening(&mut rooms, log)?;
    count_puts(&mut rooms, log)?;
    Ok(rooms)
}

// Counts each row of the opening at its tag.
fn count_opening(rooms: &mut [u32], log: &LogHistory) -> Result<(), WantOfMemory>
    requires { All (IsLogRow (length rooms.old)) (log_rows log.now) }
{
    for row in &log.opening {
        count(rooms, row.tag)?;
    }
    Ok(())
}

// Counts each row that was put at its tag.
fn count_puts(rooms: &mut [u32], log: &LogHistory) -> Result<(), WantOfMemory>
    requires { All (IsLogRow (length rooms.old)) (log_rows log.now) }
{
    for turn in 0..log.tape.len() {
        if let LogTurn::Put(row) = log.tape[turn] {
            count(rooms, row.tag)?;
        }
    }
    Ok(())
}

// Counts one row more of a tag.
fn count(rooms: &mut [u32], tag: u32) -> Result<(), WantOfMemory>
    requires { tag < length rooms.old }
{
    let room = &mut rooms[tag as usize];
    *room = room.checked_add(1).ok_or(WantOfMemory)?;
    Ok(())
}

// Takes the points of the rows of a log, each with the core of its tag.
fn take_all(cores: &mut [TagCore], tags: &[TagDef], log: &LogHistory) -> Result<(), Status>
    requires rows { All (IsLogRow (length tags.now)) (log_rows log.now) }
    requires standing { AreStanding tags.now [] cores.old }
    ensures standing { OnOk result (AreStanding tags.now (log_rows log.now) cores.new) }
    ensures room { OnOk result (HasRoomBelow tags.now (log_rows log.now) (length (log_rows log.now))) }
    ensures refused { IfErr result (IsReportRefusal tags.now (log_rows log.now)) }
{
    take_on::<Brand>(cores, tags, log, Blank::new(1))
}

// Does the same on the ledger of a blank.
fn take_on<L: Ledger>(
    cores: &mut [TagCore],
    tags: &[TagDef],
    log: &LogHistory,
    blank: Blank,
) -> Result<(), Status>
    requires name { blank.name ≡ L.name }
    requires parts { blank.parts ≡ L.parts }
    requires some { 0 < L.parts }
    requires rows { All (IsLogRow (length tags.now)) (log_rows log.now) }
    requires standing { AreStanding tags.now [] cores.old }
    ensures standing { OnOk result (AreStanding tags.now (log_rows log.now) cores.new) }
    ensures room { OnOk result (HasRoomBelow tags.now (log_rows log.now) (length (log_rows log.now))) }
    ensures refused { IfErr result (IsReportRefusal tags.now (log_rows log.now)) }
{
    let mut steps = Steps::<L>::new(blank);
    take_opening(cores, tags, log, &mut steps)?;
    take_puts(cores, tags, log, &mut steps)
}

// Takes the points of the rows of the opening.
fn take_opening<L: Ledger>(
    cores: &mut [TagCore],
    tags: &[TagDef],
    log: &LogHistory,
    steps: &mut Steps<L>,
) -> Result<(), Status>
    requires rows { All (IsLogRow (length tags.now)) (log_rows log.now) }
    requires standing { AreStanding tags.now [] cores.old }
    ensures standing { OnOk result (AreStanding tags.now (take (length log.now.opening.items) (log_rows log.now)) cores.new) }
    ensures room { OnOk result (HasRoomBelow tags.now (log_rows log.now) (length log.now.opening.items)) }
    ensures refused { IfErr result (IsReportRefusal tags.now (log_rows log.now)) }
{
    for place in 0..log.opening.len() {
        take_row(cores, tags, log, place, log.opening[place], steps)?;
    }
    Ok(())
}

// Takes the points of the rows that were put. Those of the opening were taken already.
fn take_puts<L: Ledger>(
    cores: &mut [TagCore],
    tags: &[TagDef],
    log: &LogHistory,
    steps: &mut Steps<L>,
) -> Result<(), Status>
    requires rows { All (IsLogRow (length tags.now)) (log_rows log.now) }
    requires standing { AreStanding tags.now (take (length log.now.opening.items) (log_rows log.now)) cores.old }
    requires room { HasRoomBelow tags.now (log_rows log.now) (length log.now.opening.items) }
    ensures standing { OnOk result (AreStanding tags.now (log_rows log.now) cores.new) }
    ensures room { OnOk result (HasRoomBelow tags.now (log_rows log.now) (length (log_rows log.now))) }
    ensures refused { IfErr result (IsReportRefusal tags.now (log_rows log.now)) }
{
    let mut place = log.opening.len();
    for turn in 0..log.tape.len() {
        if let LogTurn::Put(row) = log.tape[turn] {
            take_row(cores, tags, log, place, row, steps)?;
            place += 1;
        }
    }
    Ok(())
}

// Takes the point of a row with the core of its tag. It is the row at this place of the log, and the rows before it
// were taken already.
fn take_row<L: Ledger>(
    cores: &mut [TagCore],
    tags: &[TagDef],
    log: &LogHistory,
    place: usize,
    row: LogRow,
    steps: &mut Steps<L>,
) -> Result<(), Status>
    requires rows { All (IsLogRow (length tags.now)) (log_rows log.now) }
    requires there { slice_get (log_rows log.now) place ≡ Some row }
    requires standing { AreStanding tags.now (take place (log_rows log.now)) cores.old }
    requires room { HasRoomBelow tags.now (log_rows log.now) place }
    ensures standing { OnOk result (AreStanding tags.now (take (place + 1) (log_rows log.now)) cores.new) }
    ensures room { OnOk result (HasRoomBelow tags.now (log_rows log.now) (place + 1)) }
    ensures refused { IfErr result (IsReportRefusal tags.now (log_rows log.now)) }
{
    let LogRow { tag, point, .. } = row;
    let core = &mut cores[tag as usize];
    if core.spare() < 2 {
        return Err(Status::WantOfMemory);
    }
    match core.take(point, steps) {
        Ok(_) => Ok(()),
        Err(full) => Err(Status::Limit {
            what: What::Records,
            number: u64::from(full.records),
        }),
    }
}
