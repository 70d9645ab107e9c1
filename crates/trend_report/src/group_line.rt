// The lines of a group.
ghost use Rattle.std.specs.Prelude.{◌≡◌, ◌++◌, IfOk, OnOk, string_bytes};
ghost use Rattle.std.specs.List.{flat_map};
ghost use Rattle.trend_report.specs.Lines.{group_line_text, heading_text, last_text};

use crate::reply_line::put_value;
use std::alloc::{AllocError, Global};
use trend_num::{CalcValue, Name, WantOfMemory};

/// What a session has made of a group, as its lines print it.
#[derive(Drop)]
pub struct GroupLine {
    pub name: Name,
    /// How many windows are complete.
    pub windows: u32,
    /// How many refreshes there were.
    pub refreshes: u64,
    /// How many values were evaluated.
    pub evals: u64,
    /// The last value of each calculation.
    pub lasts: Vec<LastRow>,
}

/// The last value of a calculation.
#[derive(Clone, Copy, Debug, PartialEq, Eq)]
pub struct LastRow {
    pub calc: Name,
    /// The value in the last complete window, or `None` if no window is complete.
    pub value: Option<CalcValue>,
}

/// Returns the line `group NAME windows=W refreshes=N evals=E`, and after it one line for each calculation. That is
/// `calc GROUP NAME K VALUE` with the value in the last complete window K, counted from 0. Without a complete window it
/// is `calc GROUP NAME none`. Each line ends with a line feed. Returns `WantOfMemory` if the memory cannot be
/// allocated.
pub fn group_text(alloc: Global, line: &GroupLine) -> Result<String, WantOfMemory>
    ensures { IfOk result (λ text. string_bytes text ≡ group_line_text line.now) }
{
    Ok(group_lines(alloc, line)?)
}

// Like `group_text`, with the allocator's own error.
fn group_lines(alloc: Global, line: &GroupLine) -> Result<String, AllocError>
    ensures { IfOk result (λ text. string_bytes text ≡ group_line_text line.now) }
{
    let mut text = String::new(alloc);
    put_heading(&mut text, line)?;
    put_lasts(&mut text, line)?;
    Ok(text)
}

// Adds the line of the group.
fn put_heading(text: &mut String, line: &GroupLine) -> Result<(), AllocError>
    ensures { OnOk result (string_bytes text.new ≡ string_bytes text.old
        ++ heading_text line.now.name line.now.windows line.now.refreshes line.now.evals) }
{
    let name = line.name.text();
    let (windows, refreshes, evals) = (line.windows, line.refreshes, line.evals);
    write!(text, "group {name} windows={windows}")?;
    write!(text, " refreshes={refreshes} evals={evals}\n")
}

// Adds the lines of its calculations.
fn put_lasts(text: &mut String, line: &GroupLine) -> Result<(), AllocError>
    ensures { OnOk result (string_bytes text.new ≡ string_bytes text.old
        ++ flat_map (last_text line.now.name line.now.windows) line.now.lasts.items) }
{
    for last in &line.lasts {
        put_last(text, &line.name, line.windows, last)?;
    }
    Ok(())
}

// Adds the line of one calculation.
fn put_last(text: &mut String, group: &Name, windows: u32, last: &LastRow) -> Result<(), AllocError>
    ensures { OnOk result (string_bytes text.new ≡ string_bytes text.old ++ last_text group.now windows last.now) }
{
    let (group, calc) = (group.text(), last.calc.text());
    if last.value.is_none() {
        return write!(text, "calc {group} {calc} none\n");
    }
    let window = windows.saturating_sub(1);
    write!(text, "calc {group} {calc} {window} ")?;
    put_value(text, last.value)?;
    text.push_str("\n")
}
