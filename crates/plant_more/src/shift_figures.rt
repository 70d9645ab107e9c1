// The text that the command `shifts` prints.
ghost use Rattle.std.specs.Prelude.{◌^◌, ◌<◌, ◌≤◌, ◌≡◌, length, string_bytes, All, IfOk, IfErr, List, OnOk};
ghost use Rattle.plant_files.specs.Reading.{faults_after};
ghost use Rattle.plant_store.specs.{AreKept, CountsDevices, IsDurable};
ghost use Rattle.shift_calendar.specs.{IsFirstDay, AreWindows, shifts_over, ShiftWindow};
ghost use Rattle.plant_more.specs.ShiftLines.{AreShiftLines};
ghost use Rattle.plant_more.specs.Shifts.{IsCommandRefusal, IsFaultOfRead, IsShifts, IsShiftsRefusal};

use crate::calendar_file::calendar_of;
use crate::shift_contents::shift_tags;
use crate::shift_line::lines_of;
use byte_io::Files;
use disk_model::Store;
use plant_files::base_of;
use plant_status::Status;
use plant_store::open_base;
use shift_calendar::{Calendar, WantOfMemory, shift_windows};
use std::alloc::Global;
use tag_core::TagCore;
use trend_num::TagDef;

// Returns what `shifts` prints for `days` days from `day` on. Days are counted from 1970-01-01. `name` is the file of
// the base, `calendar_name` that of the calendar. For each shift, and then for each tag of the calendar, there is a
// line `shift DAY I FROM TO TAG VALUE`. DAY is the word `YYYY-MM-DD`. I counts the shifts of a day from 1. FROM and TO
// are milliseconds from 1970. VALUE is the calendar's measure of the window from FROM to TO. It is `none` if the window
// has no measure, or does not end after its start. The device of each tag of the base is opened. A device that does not
// exist is made.
pub(crate) fn shift_text<F: Files, S: Store>(
    alloc: Global,
    files: &mut F,
    store: &mut S,
    name: &str,
    calendar_name: &str,
    day: i32,
    days: u32,
) -> Result<String, Status>
    requires day { IsFirstDay day }
    requires some_days { 1 ≤ days }
    requires few_days { days ≤ 366 }
    ensures text { IfOk result (λ text. IsShifts name.now calendar_name.now day days (F.told files.old) (S.device_at store.old)
        (string_bytes text)) }
    ensures refused { IfErr result (IsShiftsRefusal name.now calendar_name.now (F.told files.old) (S.device_at store.old)
        (S.device_at store.new) (S.fault_count store.old) (S.fault_count store.new)) }
    ensures its_own { IfErr result IsCommandRefusal }
    ensures kept { AreKept name.now (F.told files.old) (S.device_at store.old) (S.device_at store.new) }
    ensures stays { F.told files.new ≡ F.told files.old }
    ensures file_faults { F.fault_count files.new ≡ faults_after result (F.fault_count files.old) }
    ensures whose { IfErr result (IsFaultOfRead name.now calendar_name.now (F.failed_name files.new)) }
    ensures durable { OnOk result (IsDurable name.now (F.told files.old) (S.device_at store.old) (S.device_at store.new)) }
    ensures counts { S.fault_count store.old < 2 ^ 64
        → CountsDevices result (S.fault_count store.old) (S.fault_count store.new) }
{
    let base = base_of(alloc, files, name)?;
    let calendar = calendar_of(alloc, files, calendar_name, &base)?;
    let cores = open_base(alloc, store, &base)?;
    shift_lines(alloc, &base.tags, &cores, &calendar, day, days).map_err(|_| Status::WantOfMemory)
}

// Returns the lines of the shifts of so many days from `day` on, over opened tags.
fn shift_lines(
    alloc: Global,
    tags: &[TagDef],
    cores: &[TagCore],
    calendar: &Calendar,
    day: i32,
    days: u32,
) -> Result<String, WantOfMemory>
    requires are_tags { All (λ place. place < length tags.now) calendar.now.tags }
    requires as_many { length cores.now ≡ length tags.now }
    requires day { IsFirstDay day }
    requires some_days { 1 ≤ days }
    requires few_days { days ≤ 366 }
    ensures { IfOk result (λ text. (windows : List ShiftWindow)
        × AreWindows calendar.now.zone (shifts_over calendar.now.starts day days) windows
        × AreShiftLines tags.now cores.now calendar.now windows (string_bytes text)) }
{
    let windows = shift_windows(alloc, calendar, day, days)?;
    let places = calendar.tags();
    let told = shift_tags(alloc, tags, cores, places)?;
    lines_of(alloc, &told, calendar.measure(), &windows)
}
