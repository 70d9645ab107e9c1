// The truths of a row, below flags of whole blocks.
ghost use Rattle.std.specs.Prelude.{◌≡◌, ℕ, ◌+◌, ◌*◌, ◌/◌, ◌^◌, ◌<◌, ◌≤◌, [], ◌↔◌, true, false, IsTrue, IfNone, IfSome, OnOk, max, length, slice_set, vec_len};
ghost use Rattle.event_frames.specs.Row.{is_true_in, put_at};
ghost use Rattle.event_frames.specs.Levels.{AreSet, IsBehind, IsGapBefore, IsGapFrom, IsOver, IsStart, is_set};

use crate::gap::{BLOCK, first_gap, is_whole, last_gap};
use std::alloc::{AllocError, Global};
use std::marker::Model;

// For each window of a row, whether the calculation is true in it.
#[derive(Drop)]
pub(crate) struct Levels {
    truths: Vec<bool>,
    // For each block of 128 windows, whether the calculation is true in all windows of it that there are.
    blocks: Vec<bool>,
    // For each group of 128 blocks, whether this is so in all of its blocks.
    groups: Vec<bool>,
    // For how many windows there is memory.
    room: usize,
}

impl Model for Levels {
    ghost use Rattle.std.specs.Prelude.{vec_capacity};
    ghost use Rattle.event_frames.specs.Levels.{AreLevels, LevelsState};

    ghost Value = { LevelsState };

    ghost view = { λ s. record { truths = s.truths.items; room = s.room } };

    ghost invariant = { λ s. AreLevels s.truths.items s.blocks.items s.groups.items s.room (vec_capacity s.truths) };
}

impl Levels {
    // A row without windows.
    pub(crate) fn new(alloc: Global) -> Levels
        ensures { result.truths ≡ [] }
    {
        Levels {
            truths: Vec::new(alloc),
            blocks: Vec::new(alloc),
            groups: Vec::new(alloc),
            room: 0,
        }
    }

    // Returns how many windows there are.
    pub(crate) fn len(&self) -> usize
        ensures value { result ≡ length self.now.truths }
        ensures bound { result < 2 ^ 63 }
    {
        self.truths.len()
    }

    // Takes memory for so many more windows.
    pub(crate) fn reserve(&mut self, more: usize) -> Result<(), AllocError>
        requires { more < 2 ^ 63 }
        ensures same { self.new.truths ≡ self.old.truths }
        ensures few { length self.old.truths < 2 ^ 63 }
        ensures room { OnOk result (length self.old.truths + more ≤ self.new.room) }
    {
        let room = self.truths.len() + more;
        let count = room / BLOCK + 1;
        widen(&mut self.groups, count / BLOCK + 1)?;
        widen(&mut self.blocks, count)?;
        self.truths.reserve(more)?;
        self.room = room;
        Ok(())
    }

    // Records whether the calculation is true in a window: an existing one, or one more after the last.
    pub(crate) fn put(&mut self, k: usize, holds: bool)
        requires window { k ≤ length self.old.truths }
        requires room { length self.old.truths < self.old.room }
        ensures truths { self.new.truths ≡ put_at self.old.truths k holds }
        ensures room { self.new.room ≡ self.old.room }
    {
        if k == self.truths.len() {
            self.truths.push_reserved(true);
        }
        self.write(k, holds);
    }

    // Records whether the calculation is true in an existing window.
    fn write(&mut self, k: usize, holds: bool)
        requires { k < length self.old.truths }
        ensures truths { self.new.truths ≡ slice_set self.old.truths k holds }
        ensures room { self.new.room ≡ self.old.room }
    {
        if self.truths[k] == holds {
            return;
        }
        self.truths[k] = holds;
        let whole = is_whole(&self.truths, k / BLOCK);
        raise(&mut self.blocks, &mut self.groups, k / BLOCK, whole);
    }

    // Returns the first window, from `at` on, in which the calculation is not true. If there is none, returns the one
    // after the last.
    pub(crate) fn behind(&self, at: usize) -> usize
        requires { at ≤ length self.now.truths }
        ensures { IsBehind self.now.truths at result }
    {
        match self.next(at) {
            Some(gap) => gap,
            None => self.truths.len(),
        }
    }

    // Returns the first of the windows right before `k` that are all true, or `k` if there is none.
    pub(crate) fn start(&self, k: usize) -> usize
        ensures { IsStart self.now.truths k result }
    {
        match self.previous(k) {
            Some(gap) => gap + 1,
            None => 0,
        }
    }

    // Whether the window exists, and the calculation is not true in the one before it.
    pub(crate) fn is_first(&self, at: usize) -> bool
        ensures { IsTrue result ↔ ((at < length self.now.truths) × ((j : ℕ) → j + 1 ≡ at → is_true_in self.now.truths j ≡ false)) }
    {
        at < self.truths.len() && (at == 0 || !self.truths[at - 1])
    }

    // Returns the first gap from a place on.
    fn next(&self, k: usize) -> Option<usize>
        requires { k ≤ length self.now.truths }
        ensures gap { IfSome result (IsGapFrom self.now.truths k) }
        ensures set { IfNone result (AreSet self.now.truths k (length self.now.truths)) }
    {
        let block = k / BLOCK;
        let found = first_gap(&self.truths, k, block * BLOCK + BLOCK);
        if found.is_some() {
            return found;
        }
        let block = next_block(&self.blocks, &self.groups, block + 1)?;
        first_gap(&self.truths, block * BLOCK, block * BLOCK + BLOCK)
    }

    // Returns the last gap before a place.
    fn previous(&self, k: usize) -> Option<usize>
        ensures gap { IfSome result (IsGapBefore self.now.truths k) }
        ensures set { IfNone result (AreSet self.now.truths 0 k) }
    {
        let block = k / BLOCK;
        let found = last_gap(&self.truths, block * BLOCK, k);
        if found.is_some() {
            return found;
        }
        let block = previous_block(&self.blocks, &self.groups, block)?;
        last_gap(&self.truths, block * BLOCK, block * BLOCK + BLOCK)
    }
}

// Appends flags that are set, until there are `count`.
fn widen(flags: &mut Vec<bool>, count: usize) -> Result<(), AllocError>
    ensures same { (k : ℕ) → is_set flags.new.items k ≡ is_set flags.old.items k }
    ensures longer { vec_len flags.old ≤ vec_len flags.new }
    ensures most { vec_len flags.new ≤ max (vec_len flags.old) count }
    ensures ok { OnOk result (count ≤ vec_len flags.new) }
{
    if flags.len() < count {
        flags.resize(count, true)?;
    }
    Ok(())
}

// Writes a flag, and then the flag of its block in the level above.
fn raise(below: &mut [bool], above: &mut [bool], k: usize, set: bool)
    requires over { IsOver below.old above.old }
    requires within { k < length below.old }
    requires wide { length below.old ≤ 128 * length above.old }
    ensures below { below.new ≡ slice_set below.old k set }
    ensures over { IsOver below.new above.new }
{
    below[k] = set;
    above[k / BLOCK] = is_whole(below, k / BLOCK);
}

// Returns the first block, from `k` on, that is not whole.
fn next_block(blocks: &[bool], groups: &[bool], k: usize) -> Option<usize>
    requires over { IsOver blocks.now groups.now }
    requires bound { k < 2 ^ 60 }
    ensures gap { IfSome result (IsGapFrom blocks.now k) }
    ensures within { IfSome result (λ gap. gap < length blocks.now) }
    ensures set { IfNone result (AreSet blocks.now k (length blocks.now)) }
{
    let group = k / BLOCK;
    let found = first_gap(blocks, k, group * BLOCK + BLOCK);
    if found.is_some() {
        return found;
    }
    let group = first_gap(groups, group + 1, groups.len())?;
    first_gap(blocks, group * BLOCK, group * BLOCK + BLOCK)
}

// Returns the last block, before `k`, that is not whole.
fn previous_block(blocks: &[bool], groups: &[bool], k: usize) -> Option<usize>
    requires over { IsOver blocks.now groups.now }
    ensures gap { IfSome result (IsGapBefore blocks.now k) }
    ensures within { IfSome result (λ gap. gap < length blocks.now) }
    ensures set { IfNone result (AreSet blocks.now 0 k) }
{
    let group = k / BLOCK;
    let found = last_gap(blocks, group * BLOCK, k);
    if found.is_some() {
        return found;
    }
    let group = last_gap(groups, 0, group)?;
    last_gap(blocks, group * BLOCK, group * BLOCK + BLOCK)
}
