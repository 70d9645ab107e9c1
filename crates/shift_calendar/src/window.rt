// The windows of shifts.
ghost use Rattle.std.specs.Prelude.{◌≤◌, ◌<◌, ◌++◌, length, All, List, IfOk, OnOk};
ghost use Rattle.trend_num.specs.{last_time};
ghost use Rattle.shift_calendar.specs.Days.{IsFirstDay, IsWindowDay};
ghost use Rattle.shift_calendar.specs.Instants.{IsInstant};
ghost use Rattle.shift_calendar.specs.Windows.{Shift, shift_at, shifts_of, shifts_over, IsWindow, AreWindows, IsWindowTimed};

use crate::calendar::Calendar;
use std::alloc::Global;
use trend_num::WantOfMemory;

/// A shift of a day, as a window of instants.
#[derive(Clone, Copy, Debug, PartialEq, Eq)]
pub struct ShiftWindow {
    /// The day that the shift belongs to, by its number from 1970-01-01.
    pub day: i32,
    /// Its number in the day, counted from 1.
    pub shift: u32,
    /// When it begins, in milliseconds from 1970.
    pub from: u64,
    /// When the next shift begins, in milliseconds from 1970.
    pub to: u64,
}

// Returns the instant, in milliseconds from 1970, at which the shift at a place of a day ends.
fn end_instant(calendar: &Calendar, day: i32, place: usize) -> u64
    requires there { place < length calendar.now.starts }
    requires few { length calendar.now.starts ≤ 24 }
    requires day { IsWindowDay day }
    ensures instant { IsInstant calendar.now.zone (shift_at calendar.now.starts day place).last_day
        (shift_at calendar.now.starts day place).end result }
    ensures in_time { result ≤ last_time }
{
    let next = place + 1;
    if next < calendar.shift_count() {
        calendar.start_instant(day, next)
    } else {
        calendar.start_instant(day + 1, 0)
    }
}

// Returns the window of the shift at a place of a day.
fn window_of(calendar: &Calendar, day: i32, place: usize) -> ShiftWindow
    requires there { place < length calendar.now.starts }
    requires few { length calendar.now.starts ≤ 24 }
    requires day { IsWindowDay day }
    ensures window { IsWindow calendar.now.zone (shift_at calendar.now.starts day place) result }
    ensures timed { IsWindowTimed result }
{
    let from = calendar.start_instant(day, place);
    let to = end_instant(calendar, day, place);
    ShiftWindow {
        day,
        shift: place as u32 + 1,
        from,
        to,
    }
}

// Adds the windows of the shifts of a day.
fn push_day(
    windows: &mut Vec<ShiftWindow>,
    calendar: &Calendar,
    day: i32,
) -> Result<(), WantOfMemory>
    requires { IsWindowDay day }
    ensures added { OnOk result ((done : List Shift) → AreWindows calendar.now.zone done windows.old.items
        → AreWindows calendar.now.zone (done ++ shifts_of calendar.now.starts day) windows.new.items) }
    ensures timed { OnOk result (All IsWindowTimed windows.old.items → All IsWindowTimed windows.new.items) }
{
    for place in 0..calendar.shift_count() {
        windows.push(window_of(calendar, day, place))?;
    }
    Ok(())
}

/// Returns the windows of the shifts of `days` days, 1 to 366, that begin with `day`, a number from 1970-01-01. The
/// days are in order, and so are the shifts of a day. Each window is from the instant at which its shift starts to the
/// instant at which the next one starts, in the calendar's zone. Where the clock skips the start of a shift, a window
/// may end before it begins. The only error is want of memory.
pub fn shift_windows(
    alloc: Global,
    cal: &Calendar,
    day: i32,
    days: u32,
) -> Result<Vec<ShiftWindow>, WantOfMemory>
    requires day { IsFirstDay day }
    requires some_days { 1 ≤ days }
    requires few_days { days ≤ 366 }
    ensures windows { IfOk result (λ ws.
        AreWindows cal.now.zone (shifts_over cal.now.starts day days) ws.items) }
    ensures timed { IfOk result (λ ws. All IsWindowTimed ws.items) }
{
    let mut windows = Vec::with_capacity(alloc, days as usize * cal.shift_count())?;
    for k in 0..days {
        push_day(&mut windows, cal, day + k as i32)?;
    }
    Ok(windows)
}
