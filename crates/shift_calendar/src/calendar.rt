// A calendar, and how it is read from a text.
ghost use Rattle.std.specs.Prelude.{◌≡◌, ◌≤◌, ◌<◌, ◌^◌, false, length, slice_index, All, Err, IfOk, None, Some, option_map};
ghost use Rattle.std.specs.Str.{is_utf8};
ghost use Rattle.toml.specs.View.{table_view};
ghost use Rattle.jiff.specs.Words.{plain_zone};
ghost use Rattle.trend_num.specs.{last_time};
ghost use Rattle.shift_calendar.specs.Answers.{AnswersShift};
ghost use Rattle.shift_calendar.specs.Calendars.{calendar, calendar_form_of, zone_at, zone_rule, IsSized};
ghost use Rattle.shift_calendar.specs.Days.{IsShiftDay};
ghost use Rattle.shift_calendar.specs.Instants.{IsInstant};
ghost use Rattle.shift_calendar.specs.declared.refusal.CalNo.TheVariants.{BadText};

use crate::instant::instant;
use crate::measure::measure_at;
use crate::places::TagNames;
use crate::refusal::CalNo;
use crate::start::{Start, starts_at};
use jiff::tz::TimeZone;
use std::alloc::Global;
use std::marker::Model;
use toml::Table;
use toml_tables::{document, has_keys, places_at, string_at};
use trend_num::{Measure, Name, WantOfMemory};

// How many tags a calendar may have.
const MAX_TAGS: usize = 64;

/// When the shifts of a day begin, in which zone, and what is reported for each. A clause sees the zone, the starts as
/// minutes of the day, the places of the tags, and the measure.
#[derive(Debug, Drop)]
pub struct Calendar {
    zone: TimeZone<'static>,
    starts: Vec<Start>,
    tags: Vec<u32>,
    measure: Measure,
}

impl Model for Calendar {
    ghost use Rattle.std.specs.Prelude.{map, vec_len};
    ghost use Rattle.jiff.specs.Words.{plain_zone};
    ghost use Rattle.shift_calendar.specs.Calendars.{CalendarParts, IsSized};

    ghost Value = { CalendarParts };

    ghost view = { λ c. record {
      zone = plain_zone c.zone;
      starts = map (λ s. s.minute) c.starts.items;
      tags = c.tags.items;
      measure = c.measure;
    } };

    ghost invariant = { λ c. IsSized (vec_len c.starts) (vec_len c.tags) };
}

impl Calendar {
    /// Returns the places of the calendar's tags among the names that it was read with, in the order of its text.
    pub fn tags(&self) -> &[u32]
        ensures { result.now ≡ self.now.tags }
    {
        &self.tags
    }

    /// Returns the measure that is reported for each shift.
    pub fn measure(&self) -> Measure
        ensures { result ≡ self.now.measure }
    {
        self.measure
    }

    // Returns how many shifts a day has.
    pub(crate) fn shift_count(&self) -> usize
        ensures count { result ≡ length self.now.starts }
        ensures some { 1 ≤ result }
        ensures few { result ≤ 24 }
    {
        self.starts.len()
    }

    // Returns the instant, in milliseconds from 1970, at which the shift at a place of a day begins.
    pub(crate) fn start_instant(&self, day: i32, place: usize) -> u64
        requires there { place < length self.now.starts }
        requires day { IsShiftDay day }
        ensures instant { IsInstant self.now.zone day (slice_index self.now.starts place) result }
        ensures in_time { result ≤ last_time }
    {
        let start = self.starts[place];
        instant(&self.zone, day, start)
    }
}

// Returns the zone of a table, if its text is a POSIX time zone.
fn zone_at(table: &Table) -> Option<TimeZone<'static>>
    ensures { option_map (λ z. zone_rule (plain_zone z)) result ≡ option_map Some (zone_at (table_view table.now)) }
{
    let Some(text) = string_at(table, "zone") else {
        return None;
    };
    match TimeZone::posix(text) {
        Ok(zone) => Some(zone),
        Err(_) => None,
    }
}

/// Returns the calendar that bytes spell; `tags` has the names of the base's tags. Returns `BadText` with the first
/// rule that the bytes break:
///
/// 1. The bytes are a TOML document.
/// 2. Its keys are `zone`, `starts`, `tags` and `measure`.
/// 3. `zone` is a POSIX time zone.
/// 4. `starts` is 1 to 24 texts `HH:MM` that rise strictly.
/// 5. `tags` is 1 to 64 names of tags, none twice.
/// 6. `measure` is the word of a measure.
///
/// Returns `WantOfMemory` if no memory is found.
pub fn read_calendar(alloc: Global, bytes: &[u8], tags: &[Name]) -> Result<Calendar, CalNo>
    requires { length tags.now ≤ 2 ^ 32 }
    ensures calendar { AnswersShift calendar_form_of result (calendar tags.now bytes.now) }

    // Bytes that are not UTF-8 break the first rule, whether there is memory or not.
    ensures no_text { is_utf8 bytes.now ≡ false → result ≡ Err (BadText 1) }
    ensures sized { IfOk result (λ c. IsSized (length c.starts) (length c.tags)) }
    ensures are_tags { IfOk result (λ c. All (λ t. t < length tags.now) c.tags) }
{
    let Some(table) = document(alloc, bytes)? else {
        return Err(CalNo::BadText { rule: 1 });
    };
    if !has_keys(&table, &["zone", "starts", "tags", "measure"], &[]) {
        return Err(CalNo::BadText { rule: 2 });
    }
    let Some(zone) = zone_at(&table) else {
        return Err(CalNo::BadText { rule: 3 });
    };
    let Some(starts) = starts_at(alloc, &table)? else {
        return Err(CalNo::BadText { rule: 4 });
    };
    let Some(tags) = places_at(alloc, &TagNames { names: tags }, &table, "tags", MAX_TAGS)? else {
        return Err(CalNo::BadText { rule: 5 });
    };
    let Some(measure) = measure_at(&table) else {
        return Err(CalNo::BadText { rule: 6 });
    };
    Ok(Calendar {
        zone,
        starts,
        tags,
        measure,
    })
}
