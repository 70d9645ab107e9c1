// Windows of shifts on days on which the clock is set, and on other days.
ghost use Rattle.shift_calendar.specs.{IsFirstDay};

use shift_calendar::{
    Calendar, DayWord, ShiftWindow, day_of_word, read_calendar, shift_windows, word_of_day,
};
use std::alloc::{AllocError, Global};
use std::fmt::Write;
use std::process::Abort;
use std::test::Fail;
use trend_num::name_from;

// A zone, the starts of its shifts (`hours` is each hour), a day, and how many days. Then how many windows there are,
// the first one, and the last one. On 2024-03-31 the clock goes from 02:00 to 03:00. On 2024-10-27 it goes from 03:00
// to 02:00.
const ROWS: &str = "\
CET-1CEST,M3.5.0,M10.5.0/3 06:00 2024-03-30 1 => 1; 2024-03-30 1 1711774800000 1711857600000; 2024-03-30 1 1711774800000 1711857600000
CET-1CEST,M3.5.0,M10.5.0/3 06:00 2024-10-26 1 => 1; 2024-10-26 1 1729915200000 1730005200000; 2024-10-26 1 1729915200000 1730005200000
CET-1CEST,M3.5.0,M10.5.0/3 02:30 2024-03-30 2 => 2; 2024-03-30 1 1711762200000 1711848600000; 2024-03-31 1 1711848600000 1711931400000
CET-1CEST,M3.5.0,M10.5.0/3 02:30,03:00 2024-03-31 1 => 2; 2024-03-31 1 1711848600000 1711846800000; 2024-03-31 2 1711846800000 1711931400000
CET-1CEST,M3.5.0,M10.5.0/3 02:30 2024-10-26 2 => 2; 2024-10-26 1 1729902600000 1729989000000; 2024-10-27 1 1729989000000 1730079000000
CET-1CEST,M3.5.0,M10.5.0/3 hours 2024-03-31 1 => 24; 2024-03-31 1 1711839600000 1711843200000; 2024-03-31 24 1711918800000 1711922400000
CET-1CEST,M3.5.0,M10.5.0/3 06:00 2023-07-01 366 => 366; 2023-07-01 1 1688184000000 1688270400000; 2024-06-30 1 1719720000000 1719806400000
EST5 00:00,12:00 2024-02-28 3 => 6; 2024-02-28 1 1709096400000 1709139600000; 2024-03-01 2 1709312400000 1709355600000
UTC0 23:59 1971-01-01 1 => 1; 1971-01-01 1 31622340000 31708740000; 1971-01-01 1 31622340000 31708740000
UTC0 23:59 9990-12-31 366 => 366; 9990-12-31 1 253118303940000 253118390340000; 9991-12-31 1 253149839940000 253149926340000";

// Returns the text of a calendar.
fn calendar_text(alloc: Global, zone: &str, starts: &str) -> Result<String, AllocError> {
    let mut text = format!(in alloc;
        "zone = \"{zone}\"\nmeasure = \"low\"\ntags = [\"T1\"]\nstarts = ["
    )?;
    if starts == "hours" {
        for hour in 0..24u64 {
            write!(text, "\"{hour:02}:00\",")?;
        }
    } else {
        for start in starts.split(',') {
            write!(text, "\"{start}\",")?;
        }
    }
    text.push_str("]\n")?;
    Ok(text)
}

// Returns the word of the day of a window.
fn word(day: i32) -> DayWord {
    if 0 <= day && day <= 2_932_896 {
        word_of_day(day)
    } else {
        word_of_day(0)
    }
}

// Returns the line of a window.
fn line(
    rt: &impl Abort,
    alloc: Global,
    window: Option<&ShiftWindow>,
) -> Result<String, AllocError> {
    let window = window.expect(rt, "a window");
    let word = word(window.day);
    let (shift, from, to) = (window.shift, window.from, window.to);
    format!(in alloc; "{} {shift} {from} {to}", word.text())
}

// Returns how many windows there are, the first one, and the last one.
fn told(
    rt: &impl Abort,
    alloc: Global,
    calendar: &Calendar,
    day: i32,
    days: u32,
) -> Result<String, Fail>
    requires { IsFirstDay day }
{
    if days < 1 || days > 366 {
        return Ok(String::from_str(alloc, "days")?);
    }
    let windows = shift_windows(alloc, calendar, day, days)?;
    let first = line(rt, alloc, windows.first())?;
    let last = line(rt, alloc, windows.last())?;
    Ok(format!(in alloc; "{}; {first}; {last}", windows.len())?)
}

#[test]
fn shifts_go_from_one_start_to_the_next_on_the_local_clock(rt: HostRuntime) -> Result<(), Fail> {
    let alloc = rt.alloc();
    let names = [name_from(b"T1").ok_or("name")?];
    for row in ROWS.lines() {
        let (given, want) = row.split_once(" => ").ok_or("row")?;
        let mut fields = given.split(' ');
        let zone = fields.next().ok_or("zone")?;
        let text = calendar_text(alloc, zone, fields.next().ok_or("starts")?)?;
        let calendar = read_calendar(alloc, text.as_bytes(), &names)?;
        let day = day_of_word(fields.next().ok_or("day")?);
        let days = fields.next().ok_or("days")?.parse::<u32>()?;
        let told = match day {
            Some(day) => told(&rt, alloc, &calendar, day, days)?,
            None => String::from_str(alloc, "no day")?,
        };
        assert_eq!(rt; told.as_str(), want, "{given}");
    }
    Ok(())
}
