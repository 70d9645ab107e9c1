// From days and times of day to instants.
ghost use Rattle.std.specs.Prelude.{◌≡◌, ◌≤◌};
ghost use Rattle.jiff.specs.Words.{epoch_day, plain_zone};
ghost use Rattle.trend_num.specs.{last_time};
ghost use Rattle.shift_calendar.specs.Days.{IsDay, IsShiftDay};
ghost use Rattle.shift_calendar.specs.Instants.{IsInstant, IsLocalTime};

use crate::start::Start;
use jiff::civil::{Date, DateTime};
use jiff::tz::TimeZone;

// Returns the date of a day, by its number from 1970-01-01.
pub(crate) fn date_of(day: i32) -> Date
    requires { IsDay day }
    ensures { epoch_day result ≡ day }
{
    match jiff_core::civil::Date::from_unix_epoch_day(i64::from(day)) {
        Ok(date) => Date::from_plain(date),
        Err(_) => unreachable!(),
    }
}

// Returns the local time at a time of day on a day.
fn local_time(day: i32, start: Start) -> DateTime
    requires { IsDay day }
    ensures { IsLocalTime day start.minute result }
{
    let (hour, minute) = (start.minute / 60, start.minute % 60);
    date_of(day).at(hour as i8, minute as i8, 0, 0)
}

// Returns the instant, in milliseconds from 1970, of a time of day on a day in a zone.
pub(crate) fn instant(zone: &TimeZone<'static>, day: i32, start: Start) -> u64
    requires { IsShiftDay day }
    ensures instant { IsInstant (plain_zone zone.now) day start.minute result }
    ensures in_time { result ≤ last_time }
{
    match zone.to_timestamp(local_time(day, start)) {
        Ok(instant) => instant.as_millisecond() as u64,
        Err(_) => unreachable!(),
    }
}
