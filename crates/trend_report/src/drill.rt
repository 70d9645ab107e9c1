// The points that a drill generates.
ghost use Rattle.std.specs.Prelude.{◌≡◌, ◌<◌, ◌≤◌, ◌+◌, ◌^◌, ◌+ℤ◌, All, IfOk, unsigned_abs};
ghost use Rattle.trend_num.specs.{InRange};
ghost use Rattle.trend_report.specs.Drill.{signal_after, drill_points, event, first_signal, gap_of, IsNear, next_number, swing_of};

use std::alloc::Global;
use trend_num::{Point, WantOfMemory};

// Each number from which a signal draws is below this.
const NUMBERS: u64 = 1 << 31;

// A draw takes the upper fifteen bits of a number: the whole part of the number divided by this.
const DRAW: u64 = 1 << 16;

// The signal of a generated tag, before an event.
#[derive(Clone, Copy)]
struct Signal {
    /// The last number from which it drew.
    number: u64,
    /// The time of the last event in order, in milliseconds.
    clock: u64,
    /// The value of that event.
    level: i64,
}

/// Returns the first `events` points of a tag in the drill with the number `number`. `tag` is the tag's place, counted
/// from 0. Usually a point is 100 to 999 milliseconds later than the one before it, and at most 20 value units away
/// from it. Each sixteenth point goes back in time instead. The next point continues as if the sixteenth were not
/// there. The same three numbers always give the same points. Returns `WantOfMemory` if the memory cannot be allocated.
pub fn drill_rows(
    alloc: Global,
    number: u32,
    tag: u32,
    events: u32,
) -> Result<Vec<Point>, WantOfMemory>
    ensures points { IfOk result (λ rows. rows.items ≡ drill_points number tag events) }
    ensures in_range { IfOk result (λ rows. All InRange rows.items) }
{
    let mut rows = Vec::with_capacity(alloc, events as usize)?;
    let mut signal = first_signal(number, tag);
    for place in 0..events {
        rows.push(signal.event(place))?;
    }
    Ok(rows)
}

// The signal of a tag before its first event.
fn first_signal(number: u32, tag: u32) -> Signal
    ensures first { result ≡ first_signal number tag }
    ensures near { IsNear 0 result }
{
    Signal {
        number: (u64::from(number) + 1000 * u64::from(tag)) % NUMBERS,
        clock: 0,
        level: 0,
    }
}

impl Signal {
    // The event at the place `place` among those of the tag. Afterwards the signal is the one after that event.
    fn event(&mut self, place: u32) -> Point
        requires { IsNear place self.old }
        ensures event { result ≡ event place self.old }
        ensures signal { self.new ≡ signal_after place self.old }
        ensures near { IsNear (place + 1) self.new }
        ensures in_range { InRange result }
    {
        let gap = gap_of(self.number);
        let level = moved(self.level, swing_of(self.number));
        self.number = next_number(next_number(self.number));
        if place % 16 == 15 {
            return Point {
                t: self.clock.saturating_sub(gap),
                v: level,
            };
        }
        self.clock += gap;
        self.level = level;
        Point {
            t: self.clock,
            v: level,
        }
    }
}

// The level after a swing.
fn moved(level: i64, swing: i64) -> i64
    requires level { unsigned_abs level ≤ 2 ^ 40 }
    requires swing { unsigned_abs swing ≤ 20 }
    ensures sum { result ≡ level +ℤ swing }
    ensures near { unsigned_abs result ≤ unsigned_abs level + 20 }
{
    level + swing
}

// The number that follows a number.
fn next_number(number: u64) -> u64
    requires { number < 2 ^ 31 }
    ensures next { result ≡ next_number number }
    ensures below { result < 2 ^ 31 }
{
    (1_103_515_245 * number + 12_345) % NUMBERS
}

// How far from the clock an event is that draws from the number after this one, in milliseconds.
fn gap_of(number: u64) -> u64
    requires { number < 2 ^ 31 }
    ensures gap { result ≡ gap_of number }
    ensures short { result < 1000 }
{
    100 + next_number(number) / DRAW % 900
}

// How far from the level such an event is, in value units.
fn swing_of(number: u64) -> i64
    requires { number < 2 ^ 31 }
    ensures swing { result ≡ swing_of number }
    ensures short { unsigned_abs result ≤ 20 }
{
    let second = next_number(next_number(number));
    (second / DRAW % 41) as i64 - 20
}
