// The frames of a calculation.
ghost use Rattle.std.specs.Prelude.{◌≡◌, ◌+◌, ◌*◌, ◌<◌, ◌≤◌, List, length, IfOk, OnErr, OnOk, vec_len};
ghost use Rattle.trend_num.specs.{CalcValue};
ghost use Rattle.event_frames.specs.declared.frame.Change.{Change};
ghost use Rattle.event_frames.specs.Edits.{AreEdits};
ghost use Rattle.event_frames.specs.Frames.{AreFrames};
ghost use Rattle.event_frames.specs.Near.{IsChangedAt};
ghost use Rattle.event_frames.specs.Row.{IsChangeList, is_true, row_with, truths_of, truths_with};

use crate::difference::push_missing;
use crate::frame::{Change, Edit, Frame};
use crate::levels::Levels;
use crate::near::{push_all, push_near};
use std::alloc::Global;
use std::marker::Model;
use trend_num::{CalcValue, WantOfMemory};

/// The frames of one calculation while its row changes.
#[derive(Drop)]
pub struct Frames {
    alloc: Global,
    levels: Levels,
    least: u32,
}

impl Model for Frames {
    ghost use Rattle.std.specs.Prelude.{◌≤◌};
    ghost use Rattle.event_frames.specs.Frames.{FramesState};

    ghost Value = { FramesState };

    ghost view = { λ s. record { truths = s.levels.truths; least = s.least } };

    ghost invariant = { λ s. 1 ≤ s.least };
}

/// Makes the frames of a row that have at least `least` windows. The only error is want of memory.
pub fn new_frames(alloc: Global, least: u32, row: &[CalcValue]) -> Result<Frames, WantOfMemory>
    requires { 1 ≤ least }
    ensures truths { IfOk result (λ frames. frames.truths ≡ truths_of row.now) }
    ensures least { IfOk result (λ frames. frames.least ≡ least) }
{
    let mut levels = Levels::new(alloc);
    levels.reserve(row.len())?;
    put_all(&mut levels, row);
    Ok(Frames {
        alloc,
        levels,
        least,
    })
}

// Whether a calculation with this value is true.
fn is_true(value: CalcValue) -> bool
    ensures { result ≡ is_true value }
{
    match value {
        CalcValue::Num(n) => n != 0,
        CalcValue::Bad(_) => false,
    }
}

// Puts the windows of a row into the levels, one after the other.
fn put_all(levels: &mut Levels, row: &[CalcValue])
    requires empty { length levels.old.truths ≡ 0 }
    requires room { length row.now ≤ levels.old.room }
    ensures { levels.new.truths ≡ truths_of row.now }
{
    for (k, value) in row.iter().enumerate() {
        levels.put(k, is_true(*value));
    }
}

// Puts changes into the levels.
fn put_changes(levels: &mut Levels, changes: &[Change])
    requires changes { IsChangeList (length levels.old.truths) changes.now }
    requires room { length levels.old.truths + length changes.now ≤ levels.old.room }
    ensures truths { levels.new.truths ≡ truths_with levels.old.truths changes.now }
    ensures changed { IsChangedAt levels.old.truths levels.new.truths changes.now (length changes.now) }
{
    for change in changes {
        levels.put(change.k as usize, is_true(change.value));
    }
}

impl Frames {
    /// Changes the row. Each change is of an existing window, or of the one after the last. Returns the frames that
    /// went, and then the frames that came, each group ordered by first window. There are at most four edits for each
    /// change. The only error is want of memory; nothing is then changed.
    pub fn apply(&mut self, changes: &[Change]) -> Result<Vec<Edit>, WantOfMemory>
        requires { IsChangeList (length self.old.truths) changes.now }
        ensures truths { OnOk result (self.new.truths ≡ truths_with self.old.truths changes.now) }

        // They say in which windows of the row with these changes the calculation is true.
        ensures row { (row : List CalcValue) → self.old.truths ≡ truths_of row
            → OnOk result (self.new.truths ≡ truths_of (row_with row changes.now)) }
        ensures edits { IfOk result (λ edits. AreEdits self.old.truths self.new.truths self.old.least edits.items) }
        ensures few { IfOk result (λ edits. vec_len edits ≤ 4 * length changes.now) }
        ensures least { self.new.least ≡ self.old.least }
        ensures err { OnErr result (self.new ≡ self.old) }
    {
        let most = 2 * changes.len();
        let mut old = Vec::with_capacity(self.alloc, most)?;
        let mut new = Vec::with_capacity(self.alloc, most)?;
        let mut edits = Vec::with_capacity(self.alloc, 2 * most)?;
        self.levels.reserve(changes.len())?;
        push_near(&self.levels, self.least, changes, &mut old);
        put_changes(&mut self.levels, changes);
        push_near(&self.levels, self.least, changes, &mut new);
        push_missing(&old, &new, false, &mut edits);
        push_missing(&new, &old, true, &mut edits);
        Ok(edits)
    }

    /// Returns the frames of the row, ordered by first window. The only error is want of memory.
    pub fn list(&self) -> Result<Vec<Frame>, WantOfMemory>
        ensures { IfOk result (λ frames. AreFrames self.now.truths self.now.least frames.items) }
    {
        let mut frames = Vec::new(self.alloc);
        push_all(&self.levels, self.least, &mut frames)?;
        Ok(frames)
    }

    /// Returns how many windows the row has.
    pub fn windows(&self) -> u64
        ensures { result ≡ length self.now.truths }
    {
        self.levels.len() as u64
    }
}
