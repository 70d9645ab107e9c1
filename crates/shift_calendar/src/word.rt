// Days as words.
ghost use Rattle.std.specs.Prelude.{◌≡◌, ◌↔◌, ℤ, IfNone, IfSome, IsTrue, SomeIff};
ghost use Rattle.jiff.specs.Words.{date_text, epoch_day};
ghost use Rattle.shift_calendar.specs.Days.{IsDay, IsDayWord, IsFirstDay};

use crate::instant::date_of;
use arrayvec::ArrayString;
use jiff::civil::Date;
use jiff::fmt::temporal::DateTimePrinter;
use std::marker::Model;

// The number of the first day that may be read, 1971-01-01.
const FIRST_DAY: i32 = 365;

// The number of the last day that may be read, 9990-12-31.
const LAST_DAY: i32 = 2_929_609;

/// A day as a word, `YYYY-MM-DD`. A clause sees its bytes.
#[derive(Debug, Drop)]
pub struct DayWord {
    text: ArrayString<13>,
}

impl Model for DayWord {
    ghost use Rattle.std.specs.Prelude.{ℕ, List};

    ghost Value = { List ℕ };

    ghost view = { λ w. w.text.bytes };
}

impl DayWord {
    /// Returns the text of the word.
    pub fn text(&self) -> &str
        ensures { result.now ≡ self.now }
    {
        self.text.as_str()
    }
}

// Returns the word of a date.
fn word_of(date: Date) -> DayWord
    ensures { result ≡ date_text date }
{
    DayWord {
        text: DateTimePrinter::new().date_text(date.to_plain()),
    }
}

// Whether a day is from 1971-01-01 to 9990-12-31.
fn is_first_day(day: i32) -> bool
    ensures { IsTrue result ↔ IsFirstDay day }
{
    FIRST_DAY <= day && day <= LAST_DAY
}

// Returns the number of a date's day, if the date is in range and this is its word.
fn day_if_word(date: Date, word: &str) -> Option<i32>
    ensures { SomeIff result (IsFirstDay (epoch_day date) × (date_text date ≡ word.now)) (epoch_day date) }
{
    let day = date.to_plain().to_unix_epoch_day();
    if !is_first_day(day) {
        return None;
    }
    if word_of(date).text() != word {
        return None;
    }
    Some(day)
}

/// Returns the day that a word names, by its number from 1970-01-01. The word is four digits, `-`, two digits, `-`, two
/// digits, and names a date from 1971-01-01 to 9990-12-31. Returns `None` for any other text.
pub fn day_of_word(word: &str) -> Option<i32>
    ensures day { IfSome result (IsDayWord word.now) }
    ensures in_range { IfSome result IsFirstDay }
    ensures no_day { IfNone result ((day : ℤ) → IsFirstDay day → ¬ (IsDayWord word.now day)) }
{
    match word.parse::<Date>() {
        Ok(date) => day_if_word(date, word),
        Err(_) => None,
    }
}

/// Returns the word of a day from 1970-01-01 to 9999-12-31, given by its number from 1970-01-01.
pub fn word_of_day(day: i32) -> DayWord
    requires { IsDay day }
    ensures { IsDayWord result day }
{
    word_of(date_of(day))
}
