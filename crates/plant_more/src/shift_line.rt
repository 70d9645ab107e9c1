// The lines of shifts.
ghost use Rattle.std.specs.Prelude.{◌≡◌, ◌++◌, All, IfOk, OnOk, List, ℕ, string_bytes};
ghost use Rattle.trend_report.specs.{number_text};
ghost use Rattle.shift_calendar.specs.{IsDayWord, IsWindowTimed};
ghost use Rattle.plant_more.specs.ShiftLines.{AreLines, dated, shift_line};
ghost use Rattle.plant_more.specs.ShiftTags.{heading, tag_lines};

use crate::shift_tag::ShiftTag;
use crate::shift_value::value_of;
use shift_calendar::{Measure, Name, ShiftWindow, WantOfMemory, word_of_day};
use std::alloc::{AllocError, Global};

// Returns the lines of these windows: for each window one line for each tag.
pub(crate) fn lines_of(
    alloc: Global,
    tags: &[ShiftTag],
    measure: Measure,
    windows: &[ShiftWindow],
) -> Result<String, WantOfMemory>
    requires { All IsWindowTimed windows.now }
    ensures { IfOk result (λ text. AreLines (tag_lines measure tags.now) windows.now (string_bytes text)) }
{
    let mut text = String::new(alloc);
    for window in windows {
        put_window(&mut text, tags, measure, window)?;
    }
    Ok(text)
}

// Adds the lines of a window.
fn put_window(
    text: &mut String,
    tags: &[ShiftTag],
    measure: Measure,
    window: &ShiftWindow,
) -> Result<(), AllocError>
    requires { IsWindowTimed window.now }
    ensures { OnOk result ((word : List ℕ) × IsDayWord word window.now.day
        × (string_bytes text.new ≡ string_bytes text.old ++ tag_lines measure tags.now (dated window.now word))) }
{
    let day = word_of_day(window.day);
    put_lines(text, tags, measure, window, day.text())
}

// Adds the lines of a window whose day has this word.
fn put_lines(
    text: &mut String,
    tags: &[ShiftTag],
    measure: Measure,
    window: &ShiftWindow,
    day: &str,
) -> Result<(), AllocError>
    requires { IsWindowTimed window.now }
    ensures { OnOk result (string_bytes text.new ≡ string_bytes text.old ++ tag_lines measure tags.now (dated window.now day.now)) }
{
    for tag in tags {
        let value = value_of(tag, measure, window);
        put_line(text, window, day, &tag.name, value)?;
    }
    Ok(())
}

// Adds `shift DAY I FROM TO TAG VALUE`.
fn put_line(
    text: &mut String,
    window: &ShiftWindow,
    day: &str,
    tag: &Name,
    value: Option<i128>,
) -> Result<(), AllocError>
    ensures { OnOk result (string_bytes text.new ≡ string_bytes text.old ++ shift_line (dated window.now day.now) tag.now value) }
{
    put_heading(text, window, day)?;
    let tag = tag.text();
    write!(text, "{tag} ")?;
    put_value(text, value)?;
    text.push_str("\n")
}

// Adds the beginning of a line, up to the name of the tag.
fn put_heading(text: &mut String, window: &ShiftWindow, day: &str) -> Result<(), AllocError>
    ensures { OnOk result (string_bytes text.new ≡ string_bytes text.old ++ heading (dated window.now day.now)) }
{
    let ShiftWindow {
        shift,
        from,
        to,
        ..
    } = *window;
    write!(text, "shift {day} {shift} {from} {to} ")
}

// Adds a number, or the word `none`.
fn put_value(text: &mut String, value: Option<i128>) -> Result<(), AllocError>
    ensures { OnOk result (string_bytes text.new ≡ string_bytes text.old ++ number_text value) }
{
    match value {
        Some(n) => write!(text, "{n}"),
        None => text.push_str("none"),
    }
}
