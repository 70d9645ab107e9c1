// What the rows of an input have come to so far.
ghost use Rattle.std.specs.Prelude.{◌≡◌, ◌+◌, ◌-◌, ◌<◌, ◌≤◌, [], List, ℕ, Bool, true, false, length, drop, min, IfOk, Result};
ghost use Rattle.trend_num.specs.{InRange, TuningInRange};
ghost use Rattle.trend_model.specs.{Origin};
ghost use Rattle.point_text.specs.{HasNoFeed};
ghost use Rattle.pack_command.specs.Pack.{most_rows, origin_of};
ghost use Rattle.pack_command.specs.Coming.{HasCome, IsNextRow, IsReady, point_of_row};

use point_text::{Front, RowNo, first_point, plain_point, point_of_line};
use std::alloc::Global;
use std::sync::ledger::Ledger;
use tag_core::TagCore;
use trend_num::{MAX_RECORDS, Point, Reason, Steps, Tuning, WantOfMemory};

// The most lines of standard input.
const MAX_ROWS: u64 = 4_000_000;

// For how many values a core has memory. With so much, its memory is never full before its tag is.
const ROOM: u32 = MAX_RECORDS / 2 + 1;

// What happened to the rows that were read.
#[derive(Clone, Copy, Debug, PartialEq, Eq)]
pub(crate) enum Standing {
    /// Each value was taken.
    Taken,
    /// A value found no room, at this many records.
    Full { records: u32 },
    /// The rows are refused, whatever follows.
    Refused { why: RowNo },
}

// The core that takes the values of the rows, how many rows were read, and what happened to them.
#[derive(Drop)]
pub(crate) struct Intake {
    pub(crate) core: TagCore,
    pub(crate) rows: u64,
    pub(crate) standing: Standing,
}

impl Intake {
    // Returns the intake before the first row.
    pub(crate) fn new(alloc: Global, tuning: Tuning) -> Result<Intake, WantOfMemory>
        requires { TuningInRange tuning }
        ensures ready { IfOk result (λ i. IsReady i.core i.rows) }
        ensures come { IfOk result (λ i. HasCome true (origin_of tuning) [] [] i.core i.rows i.standing) }
    {
        let core = TagCore::new(alloc, tuning, false, ROOM)?;
        Ok(Intake {
            core,
            rows: 0,
            standing: Standing::Taken,
        })
    }

    // Takes the rows of a text, except the last one if it has no line feed. It returns the length of that last one.
    pub(crate) fn take_lines<L: Ledger>(&mut self, text: &[u8], steps: &mut Steps<L>) -> usize
        requires { IsReady self.old.core self.old.rows }
        ensures ready { IsReady self.new.core self.new.rows }
        ensures within { result ≤ length text.now }
        ensures begun { HasNoFeed (drop (length text.now - result) text.now) }
        ensures come { (o : Origin) (bytes : List ℕ)
            → HasCome true o bytes text.now self.old.core self.old.rows self.old.standing
            → HasCome true o bytes (drop (length text.now - result) text.now) self.new.core self.new.rows self.new.standing }
    {
        let mut rest = text;
        loop {
            rest = self.take_plain_lines(rest, steps);
            let Some((read, after)) = first_point(rest) else {
                return rest.len();
            };
            self.take_row(read, steps);
            rest = after;
        }
    }

    // Takes the rows of the plain lines that a text begins with, as long as each value is taken. It returns what is
    // left.
    #[inline(never)]
    fn take_plain_lines<'t, L: Ledger>(&mut self, text: &'t [u8], steps: &mut Steps<L>) -> &'t [u8]
        requires { IsReady self.old.core self.old.rows }
        ensures ready { IsReady self.new.core self.new.rows }
        ensures within { length result.now ≤ length text.now }
        ensures end { result.now ≡ drop (length text.now - length result.now) text.now }
        ensures come { (o : Origin) (bytes : List ℕ)
            → HasCome true o bytes text.now self.old.core self.old.rows self.old.standing
            → HasCome true o bytes result.now self.new.core self.new.rows self.new.standing }
    {
        let mut rest = text;
        let Standing::Taken = self.standing else {
            return rest;
        };
        let mut front = Front::new();
        let mut left = MAX_ROWS - self.rows;
        while left > 0
            && let Some((point, after)) = plain_point(rest, &mut front)
        {
            match self.core.take(point, steps) {
                Ok(_) => {
                    rest = after;
                    left -= 1;
                }
                Err(_) => break,
            }
        }
        self.rows = MAX_ROWS - left;
        rest
    }

    // Takes the last row of the input if that has no line feed. The input is at its end.
    pub(crate) fn take_last<L: Ledger>(&mut self, line: &[u8], steps: &mut Steps<L>)
        requires ready { IsReady self.old.core self.old.rows }
        requires begun { HasNoFeed line.now }
        ensures ready { IsReady self.new.core self.new.rows }
        ensures come { (o : Origin) (bytes : List ℕ)
            → HasCome true o bytes line.now self.old.core self.old.rows self.old.standing
            → HasCome false o bytes [] self.new.core self.new.rows self.new.standing }
    {
        if line.is_empty() {
            return;
        }
        self.take_row(point_of_line(line), steps);
    }

    // Takes the next row.
    #[inline(always)]
    fn take_row<L: Ledger>(&mut self, read: Result<Point, Reason>, steps: &mut Steps<L>)
        requires ready { IsReady self.old.core self.old.rows }
        requires in_range { IfOk read InRange }
        ensures ready { IsReady self.new.core self.new.rows }
        ensures come { (further : Bool) (o : Origin) (bytes rest after : List ℕ)
            → HasCome further o bytes rest self.old.core self.old.rows self.old.standing → IsNextRow further rest after read
            → HasCome further o bytes after self.new.core self.new.rows self.new.standing }
    {
        self.standing = after_row(&mut self.core, self.rows, self.standing, read, steps);
        self.rows = (self.rows + 1).min(MAX_ROWS);
    }
}

// Takes the next row, which comes after `rows` others, and returns what happened to the rows.
#[inline(always)]
fn after_row<L: Ledger>(
    core: &mut TagCore,
    rows: u64,
    standing: Standing,
    read: Result<Point, Reason>,
    steps: &mut Steps<L>,
) -> Standing
    requires ready { IsReady core.old rows }
    requires in_range { IfOk read InRange }
    ensures ready { IsReady core.new (min (rows + 1) most_rows) }
    ensures come { (further : Bool) (o : Origin) (bytes rest after : List ℕ)
        → HasCome further o bytes rest core.old rows standing → IsNextRow further rest after read
        → HasCome further o bytes after core.new (min (rows + 1) most_rows) result }
{
    match standing {
        Standing::Taken => match point_of_row(rows, read) {
            Ok(p) => match core.take(p, steps) {
                Ok(_) => Standing::Taken,
                Err(full) => Standing::Full {
                    records: full.records,
                },
            },
            Err(why) => Standing::Refused { why },
        },
        Standing::Full { records } => match point_of_row(rows, read) {
            Ok(_) => Standing::Full { records },
            Err(why) => Standing::Refused { why },
        },
        Standing::Refused { why } => Standing::Refused { why },
    }
}

// The point of the row after this many, or why the rows are refused, whatever follows.
#[inline(always)]
fn point_of_row(rows: u64, read: Result<Point, Reason>) -> Result<Point, RowNo>
    requires { rows ≤ most_rows }
    ensures { result ≡ point_of_row rows read }
{
    if rows == MAX_ROWS {
        return Err(RowNo::TooMany { rows: MAX_ROWS + 1 });
    }
    match read {
        Ok(p) => Ok(p),
        Err(reason) => Err(RowNo::BadRow {
            row: rows + 1,
            reason,
        }),
    }
}
