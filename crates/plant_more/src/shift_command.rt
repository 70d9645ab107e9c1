// The command `shifts`.
ghost use Rattle.std.specs.Prelude.{◌≡◌, ◌↔◌, ◌≤◌, Some, map, string_bytes};
ghost use Rattle.plant_more.specs.Endings.{AsksForNone, EndsOfShifts, IsNoDay, KeepsForShifts, scene};
ghost use Rattle.plant_more.specs.Words.{asked, most_days, shift_words};

use crate::shift_figures::shift_text;
use crate::words::{ShiftWords, shift_words};
use byte_io::{Files, Sink};
use disk_model::Store;
use plant_files::{finish, refuse};
use plant_status::Status;
use shift_calendar::day_of_word;
use std::alloc::Global;

/// Does what `shifts BASE CALENDAR DAY DAYS` asks for: it prints the figures of the calendar's shifts for DAYS days
/// from DAY on. If it is refused, it prints one line that states the refusal instead. All other words are bad words,
/// and so are words whose DAY is no day. The command then reads nothing.
pub fn shifts<F: Files, O: Sink, S: Store>(
    alloc: Global,
    words: &[String],
    files: &mut F,
    out: &mut O,
    store: &mut S,
) -> Status
    // What was read and printed, for each status.
    ensures ends { EndsOfShifts (shift_words (map string_bytes words.now))
        (scene (O.meaning out.old) (F.told files.old) (F.fault_count files.old) (F.failed_name files.old)
        (S.device_at store.old) (S.fault_count store.old))
        (scene (O.meaning out.new) (F.told files.new) (F.fault_count files.new) (F.failed_name files.new)
        (S.device_at store.new) (S.fault_count store.new)) result }

    // What a crash at any moment leaves of the devices.
    ensures devices { KeepsForShifts (shift_words (map string_bytes words.now)) (F.told files.old) (S.device_at store.old)
        (S.device_at store.new) }
    ensures files { F.told files.new ≡ F.told files.old }

    // Words that ask for no shifts are refused as bad words. Then nothing is read.
    ensures bad_words { (result ≡ Status.BadWords) ↔ AsksForNone (shift_words (map string_bytes words.now)) }
    ensures untouched { result ≡ Status.BadWords → files.new ≡ files.old }
    ensures kept { result ≡ Status.BadWords → store.new ≡ store.old }
{
    match shift_words(words) {
        Some(wanted) => from_day(alloc, &wanted, files, out, store),
        None => refuse(Status::BadWords, out),
    }
}

// Prints the shifts that were asked for, from the day that their word spells. If the word is no day, it is refused, and
// nothing is read.
fn from_day<F: Files, O: Sink, S: Store>(
    alloc: Global,
    wanted: &ShiftWords<'_>,
    files: &mut F,
    out: &mut O,
    store: &mut S,
) -> Status
    requires { (1 ≤ wanted.now.days) × (wanted.now.days ≤ most_days) }
    ensures ends { EndsOfShifts (Some (asked wanted.now))
        (scene (O.meaning out.old) (F.told files.old) (F.fault_count files.old) (F.failed_name files.old)
        (S.device_at store.old) (S.fault_count store.old))
        (scene (O.meaning out.new) (F.told files.new) (F.fault_count files.new) (F.failed_name files.new)
        (S.device_at store.new) (S.fault_count store.new)) result }
    ensures devices { KeepsForShifts (Some (asked wanted.now)) (F.told files.old) (S.device_at store.old) (S.device_at store.new) }
    ensures files { F.told files.new ≡ F.told files.old }
    ensures bad_words { (result ≡ Status.BadWords) ↔ IsNoDay wanted.now.day.now }
    ensures untouched { result ≡ Status.BadWords → files.new ≡ files.old }
    ensures kept { result ≡ Status.BadWords → store.new ≡ store.old }
{
    let ShiftWords {
        base,
        calendar,
        day,
        days,
    } = *wanted;
    match day_of_word(day) {
        Some(first) => finish(
            shift_text(alloc, files, store, base, calendar, first, days),
            out,
        ),
        None => refuse(Status::BadWords, out),
    }
}
