// The words of `log` and of `shifts`.
ghost use Rattle.std.specs.Prelude.{◌≡◌, ◌≤◌, map, string_bytes, IfSome, option_map};
ghost use Rattle.plant_more.specs.Words.{asked, log_words, most_days, words_named, over_days, shift_words};

use plant_files::count_upto;

// The files of a base and of a plan over it.
#[derive(Clone, Copy)]
pub(crate) struct Planned<'w> {
    pub(crate) base: &'w str,
    pub(crate) plan: &'w str,
}

// The files of a base and of a calendar over its tags, the word of the first day, and how many days to print shifts of.
#[derive(Clone, Copy)]
pub(crate) struct ShiftWords<'w> {
    pub(crate) base: &'w str,
    pub(crate) calendar: &'w str,
    pub(crate) day: &'w str,
    pub(crate) days: u32,
}

// How many days `shifts` covers at most.
const MOST_DAYS: u32 = 366;

// Returns the files of these words if they are `log BASE PLAN`.
pub(crate) fn log_words(words: &[String]) -> Option<Planned<'_>>
    ensures { option_map words_named result ≡ log_words (map string_bytes words.now) }
{
    match words {
        [verb, base, plan] if verb.as_str() == "log" => Some(Planned {
            base: base.as_str(),
            plan: plan.as_str(),
        }),
        _ => None,
    }
}

// Returns the shifts that these words ask for, if they are `shifts BASE CALENDAR DAY DAYS` with DAYS from 1 to 366. DAY
// may be any word.
pub(crate) fn shift_words(words: &[String]) -> Option<ShiftWords<'_>>
    ensures words { option_map asked result ≡ shift_words (map string_bytes words.now) }
    ensures days { IfSome result (λ w. (1 ≤ w.days) × (w.days ≤ most_days)) }
{
    match words {
        [verb, base, calendar, day, days] if verb.as_str() == "shifts" => over_days(
            base.as_str(),
            calendar.as_str(),
            day.as_str(),
            count_upto(MOST_DAYS, days.as_bytes()),
        ),
        _ => None,
    }
}

// Returns the shifts of so many days, if the word for the days is a number.
fn over_days<'w>(
    base: &'w str,
    calendar: &'w str,
    day: &'w str,
    days: Option<u32>,
) -> Option<ShiftWords<'w>>
    requires { IfSome days (λ n. (1 ≤ n) × (n ≤ most_days)) }
    ensures words { option_map asked result ≡ over_days base.now calendar.now day.now days }
    ensures days { IfSome result (λ w. (1 ≤ w.days) × (w.days ≤ most_days)) }
{
    match days {
        Some(days) => Some(ShiftWords {
            base,
            calendar,
            day,
            days,
        }),
        None => None,
    }
}
