//! The shifts of a plant's days, as windows of instants.
//!
//! A calendar is read from TOML. It has a time zone, the times of day at which shifts begin, the tags that are reported
//! for each shift, and the measure that is reported. `specs/` states the model: the list of shifts of a range of days,
//! each from its start to the start of the next one on the local clock.
//!
//! `read_calendar` returns the calendar of a text, or the first rule that the text breaks. `shift_windows` returns the
//! list of shifts with their instants. `jiff`'s conversion to the zone gives these instants, also where the clock skips
//! a time or shows it twice. A day of one shift is a window of 23 or 25 hours if the clock is set forward or back in
//! it. Days are read from words `YYYY-MM-DD`, and written as such.
#![tactic(auto)]

mod calendar;
mod instant;
mod measure;
mod places;
mod refusal;
mod start;
mod window;
mod word;

pub use calendar::{Calendar, read_calendar};
pub use refusal::CalNo;
pub use trend_num::{Measure, Name, WantOfMemory};
pub use window::{ShiftWindow, shift_windows};
pub use word::{DayWord, day_of_word, word_of_day};
