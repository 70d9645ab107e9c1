// What the words of a command line ask for.
ghost use Rattle.std.specs.Prelude.{◌≡◌, ◌<◌, ◌≤◌, ◌^◌, map, string_bytes, IfSome};
ghost use Rattle.trend_num.specs.{TuningInRange};
ghost use Rattle.plant_run.specs.CommandLine.{FormInRange, asked, drilling, form_of, framing, most_events, most_least, most_tags, packing, tuning_of};

use plant_files::{count_upto, number_upto};
use trend_num::{MAX_DEV, MAX_T, Tuning};

// What a command line asks for.
#[derive(Clone, Copy)]
pub(crate) enum Form<'w> {
    /// To pack the input with this tuning.
    Pack(Tuning),
    /// To check the tags of the base in this file.
    Check {
        base: &'w str,
    },
    /// To answer the readers of the plan in this file.
    Trend {
        base: &'w str,
        plan: &'w str,
    },
    /// To run the plan in this file.
    Run {
        base: &'w str,
        plan: &'w str,
    },
    /// To log a plan. The command `log` reads the words after its verb.
    Log(&'w [String]),
    /// To print the figures of shifts. The command `shifts` reads the words after its verb.
    Shifts(&'w [String]),
    /// To print the frames of a calculation of a group of the base. A frame counts if it has at least `least` windows.
    Frames {
        base: &'w str,
        group: &'w str,
        calc: &'w str,
        least: u32,
    },
    /// To run the drill with this number: so many tags, and so many events for each tag.
    Drill {
        number: u32,
        tags: u32,
        events: u32,
    },
    /// No known command.
    Unknown,
}

// The highest LEAST of `frames`.
const MOST_LEAST: u32 = 1_000_000;

// The highest number of a drill.
const MOST_NUMBER: u64 = (1 << 31) - 1;

// The most tags of a drill.
const MOST_TAGS: u32 = 64;

// The most events of a drill, all its tags together.
const MOST_EVENTS: u64 = 4_000_000;

// Returns what these words ask for. Words that begin with `log` or `shifts` are passed on whole: their commands read
// the rest.
pub(crate) fn form_of(words: &[String]) -> Form<'_>
    ensures form { asked result ≡ form_of (map string_bytes words.now) }
    ensures ranged { FormInRange (asked result) }
{
    match words {
        [verb, ..] if verb.as_str() == "log" => Form::Log(words),
        [verb, ..] if verb.as_str() == "shifts" => Form::Shifts(words),
        [verb, base] if verb.as_str() == "check" => Form::Check {
            base: base.as_str(),
        },
        [verb, base, plan] if verb.as_str() == "trend" => Form::Trend {
            base: base.as_str(),
            plan: plan.as_str(),
        },
        [verb, base, plan] if verb.as_str() == "run" => Form::Run {
            base: base.as_str(),
            plan: plan.as_str(),
        },
        [verb, number, tags, events] if verb.as_str() == "drill" => drilling(
            number_upto(MOST_NUMBER, number.as_bytes()),
            count_upto(MOST_TAGS, tags.as_bytes()),
            number_upto(MOST_EVENTS, events.as_bytes()),
        ),
        [verb, base, group, calc, least] if verb.as_str() == "frames" => framing(
            base.as_str(),
            group.as_str(),
            calc.as_str(),
            count_upto(MOST_LEAST, least.as_bytes()),
        ),
        [verb, exc_dev, exc_max, comp_dev, comp_min, comp_max] if verb.as_str() == "pack" =>
            packing(tuning_of(
                exc_dev.as_bytes(),
                exc_max.as_bytes(),
                comp_dev.as_bytes(),
                comp_min.as_bytes(),
                comp_max.as_bytes(),
            )),
        _ => Form::Unknown,
    }
}

// `Pack` if there is a tuning, otherwise `Unknown`.
fn packing<'w>(tuning: Option<Tuning>) -> Form<'w>
    requires { IfSome tuning TuningInRange }
    ensures form { asked result ≡ packing tuning }
    ensures ranged { FormInRange (asked result) }
{
    match tuning {
        Some(tuning) => Form::Pack(tuning),
        None => Form::Unknown,
    }
}

// `Frames` if LEAST is a number in range, otherwise `Unknown`.
fn framing<'w>(base: &'w str, group: &'w str, calc: &'w str, least: Option<u32>) -> Form<'w>
    requires { IfSome least (λ n. (1 ≤ n) × (n ≤ most_least)) }
    ensures form { asked result ≡ framing base.now group.now calc.now least }
    ensures ranged { FormInRange (asked result) }
{
    match least {
        Some(least) => Form::Frames {
            base,
            group,
            calc,
            least,
        },
        None => Form::Unknown,
    }
}

// `Drill` if all three are numbers in range and the events of all tags together are not too many. Otherwise `Unknown`.
fn drilling<'w>(number: Option<u64>, tags: Option<u32>, events: Option<u64>) -> Form<'w>
    requires number { IfSome number (λ n. n < 2 ^ 31) }
    requires tags { IfSome tags (λ n. (1 ≤ n) × (n ≤ most_tags)) }
    requires events { IfSome events (λ n. n ≤ most_events) }
    ensures form { asked result ≡ drilling number tags events }
    ensures ranged { FormInRange (asked result) }
{
    match (number, tags, events) {
        (Some(number), Some(tags), Some(events)) if u64::from(tags) * events <= MOST_EVENTS => {
            Form::Drill {
                number: number as u32,
                tags,
                events: events as u32,
            }
        }
        _ => Form::Unknown,
    }
}

// Reads a tuning from five numerals. Returns `None` if one of them is no numeral or is out of its range.
#[tactic(auto, unfolding(crate::specs::CommandLine::tuning_of))]
fn tuning_of(
    exc_dev: &[u8],
    exc_max: &[u8],
    comp_dev: &[u8],
    comp_min: &[u8],
    comp_max: &[u8],
) -> Option<Tuning>
    ensures value { result ≡ tuning_of exc_dev.now exc_max.now comp_dev.now comp_min.now comp_max.now }
    ensures ranged { IfSome result TuningInRange }
{
    Some(Tuning {
        exc_dev: number_upto(MAX_DEV, exc_dev)?,
        exc_max: number_upto(MAX_T, exc_max)?,
        comp_dev: number_upto(MAX_DEV, comp_dev)?,
        comp_min: number_upto(MAX_T, comp_min)?,
        comp_max: number_upto(MAX_T, comp_max)?,
    })
}
