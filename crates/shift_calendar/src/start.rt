// The times of day at which shifts begin.
ghost use Rattle.std.specs.Prelude.{◌≡◌, ◌+◌, ◌≤◌, ◌<◌, [], map, length, vec_len, IfOk, IfSome, option_map};
ghost use Rattle.toml.specs.View.{items_view, table_view};
ghost use Rattle.shift_calendar.specs.Calendars.{two_digits, shift_start_of, starts_after, rises_from, starts_at};

use std::alloc::Global;
use toml::{Table, Value};
use toml_tables::{has_count, items_at};
use trend_num::WantOfMemory;

// How many shifts a day may have.
const MAX_STARTS: usize = 24;

// A time of day at which a shift begins.
#[derive(Clone, Copy, Debug)]
pub(crate) struct Start {
    /// Its minute, counted from midnight.
    pub(crate) minute: u16,
    pub(crate) ghost in_day: { minute < 1440 },
}

// Returns the number of the two decimal digits at a place, if it is below a limit.
fn two_digits(bytes: &[u8], at: usize, limit: u16) -> Option<u16>
    requires { at + 1 < length bytes.now }
    ensures number { result ≡ two_digits bytes.now at limit }
    ensures below { IfSome result (λ n. n < limit) }
{
    let (tens, ones) = (bytes[at], bytes[at + 1]);
    if !tens.is_ascii_digit() || !ones.is_ascii_digit() {
        return None;
    }
    let number = u16::from(tens - b'0') * 10 + u16::from(ones - b'0');
    if number < limit { Some(number) } else { None }
}

// Returns the time of day that a text `HH:MM` names, from 00:00 to 23:59.
fn start_of(text: &str) -> Option<Start>
    ensures { option_map (λ s. s.minute) result ≡ shift_start_of text.now }
{
    let bytes = text.as_bytes();
    if bytes.len() != 5 || bytes[2] != b':' {
        return None;
    }
    let Some(hour) = two_digits(bytes, 0, 24) else {
        return None;
    };
    let Some(minute) = two_digits(bytes, 3, 60) else {
        return None;
    };
    Some(Start {
        minute: hour * 60 + minute,
    })
}

// Returns the times that items name, if each item is such a text.
fn times_of(alloc: Global, items: &[Value]) -> Result<Option<Vec<Start>>, WantOfMemory>
    ensures starts { IfOk result (λ found.
        option_map (λ starts. map (λ s. s.minute) starts.items) found ≡ starts_after [] (items_view items.now)) }
    ensures as_many { IfOk result (λ found. IfSome found (λ starts. vec_len starts ≡ length items.now)) }
{
    let mut starts = Vec::new(alloc);
    for item in items {
        let Some(text) = item.as_str() else {
            return Ok(None);
        };
        let Some(start) = start_of(text) else {
            return Ok(None);
        };
        starts.push(start)?;
    }
    Ok(Some(starts))
}

// Whether times rise strictly.
fn rises(starts: &[Start]) -> bool
    ensures { result ≡ rises_from 0 (map (λ s. s.minute) starts.now) }
{
    let mut least = 0u16;
    for start in starts {
        if start.minute < least {
            return false;
        }
        least = start.minute + 1;
    }
    true
}

// Returns the starts that the table of a calendar names, if they are 1 to 24 times of day that rise strictly.
pub(crate) fn starts_at(alloc: Global, table: &Table) -> Result<Option<Vec<Start>>, WantOfMemory>
    ensures starts { IfOk result (λ found.
        option_map (λ starts. map (λ s. s.minute) starts.items) found ≡ starts_at (table_view table.now)) }
    ensures some { IfOk result (λ found. IfSome found (λ starts. 1 ≤ vec_len starts)) }
    ensures few { IfOk result (λ found. IfSome found (λ starts. vec_len starts ≤ 24)) }
{
    let Some(items) = items_at(table, "starts") else {
        return Ok(None);
    };
    if !has_count(items, MAX_STARTS) {
        return Ok(None);
    }
    let Some(starts) = times_of(alloc, items)? else {
        return Ok(None);
    };
    if !rises(&starts) {
        return Ok(None);
    }
    Ok(Some(starts))
}
