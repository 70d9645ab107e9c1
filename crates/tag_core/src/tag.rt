// The core of a tag: a gate, and the compressor after it.
ghost use Rattle.std.specs.Prelude.{◌≡◌, ◌↔◌, ◌+◌, ◌-◌, ◌*◌, ◌^◌, ◌<◌, ◌≤◌, List, [], ◌∷◌, IfOk, IfErr, OnOk, OnErr, IsErr, All, None, Some, length, true, vec_capacity};
ghost use Rattle.trend_num.specs.{Rec, Point, Tuning, InRange, TuningInRange, most_records};
ghost use Rattle.trend_model.specs.{Event, Origin, Raw, Tune, IsNotBefore, listed, IfThere, ArePartsOk};
ghost use Rattle.trend_model.specs.State.{Stands, after, nothing_taken};
ghost use Rattle.tag_core.specs.Compressed.{HangAt, lower_of, upper_of};
ghost use Rattle.tag_core.specs.Core.{IsCore, comparisons};
ghost use Rattle.tag_core.specs.OneEvent.{IsOneEvent};

use crate::compressor::Compressor;
use door_slopes::Doors;
use exception_test::Gate;
use std::alloc::Global;
use std::marker::Model;
use std::sync::ledger::Ledger;
use trend_num::{MAX_RECORDS, Point, Rec, Steps, Summary, Tuning, WantOfMemory};

/// A tag in memory: its records, and the state from which its next event continues.
#[derive(Drop)]
pub struct TagCore {
    compressor: Compressor,
    gate: Gate,
    taken: u64,
}

impl Model for TagCore {
    ghost use Rattle.trend_model.specs.State.{state_with};
    ghost use Rattle.tag_core.specs.Compressed.{archive_with, free_places_of};
    ghost use Rattle.tag_core.specs.Core.{Core, IsCore};

    ghost Value = { Core };

    ghost view = { λ c. record {
      state = state_with (archive_with c.compressor c.gate.last) c.taken c.gate.last c.gate.pending;
      step = c.compressor.step;
      spare = free_places_of c.compressor;
    } };

    ghost invariant = { λ c. IsCore c.compressor.tuning c.compressor.step
        (state_with (archive_with c.compressor c.gate.last) c.taken c.gate.last c.gate.pending) };
}

/// What one event changed.
#[derive(Clone, Copy, Debug, PartialEq, Eq)]
pub struct Took {
    /// How many records were added, 0 to 2.
    pub added: u8,
}

/// The refusal of an event that could bring the tag's records above [`MAX_RECORDS`](trend_num::MAX_RECORDS).
#[derive(Clone, Copy, Debug, PartialEq, Eq)]
pub struct Full {
    /// How many records the tag has.
    pub records: u32,
}

impl TagCore {
    /// Returns a tag before its first event, with memory for `room` events: two records for each. Returns
    /// `WantOfMemory` if the memory cannot be allocated, or if `room` is 2^31 or more.
    pub fn new(
        alloc: Global,
        tuning: Tuning,
        step: bool,
        room: u32,
    ) -> Result<TagCore, WantOfMemory>
        requires { TuningInRange tuning }
        ensures state { IfOk result (λ core. core.state ≡ nothing_taken tuning) }
        ensures step { IfOk result (λ core. core.step ≡ step) }
        ensures spare { IfOk result (λ core. core.spare ≡ 2 * room) }
        ensures stands { IfOk result (λ core. Stands (record { tuning = tuning; step = step }) [] core.state) }
    {
        let places = room.checked_mul(2).ok_or(WantOfMemory)?;
        let compressor = Compressor::new(alloc, tuning, step, places)?;
        Ok(TagCore {
            compressor,
            gate: Gate::new(),
            taken: 0,
        })
    }

    /// Returns a tag that continues from copies of these records and from this summary. It has memory for `room` more
    /// events: two records for each. It keeps the doors of the summary. If the summary has no tuning, the tag gets the
    /// given one. Returns `WantOfMemory` if the memory cannot be allocated, or if the tag would need 2^32 places for
    /// records or more.
    pub fn from_parts(
        alloc: Global,
        tuning: Tuning,
        step: bool,
        recs: &[Rec],
        summary: &Summary,
        room: u32,
    ) -> Result<TagCore, WantOfMemory>
        requires tuned { TuningInRange tuning }
        requires parts { ArePartsOk tuning step recs.now summary.now }
        ensures records { IfOk result (λ core. core.state.records ≡ recs.now) }
        ensures summary { IfOk result (λ core. core.state.summary ≡ record summary.now { tuning = Some tuning }) }
        ensures step { IfOk result (λ core. core.step ≡ step) }
        ensures spare { IfOk result (λ core. core.spare ≡ 2 * room) }
    {
        let copied = copied(alloc, recs, recs.len() + 2 * room as usize)?;
        Self::resumed(tuning, step, copied, summary)
    }

    /// Like `from_parts`, but takes the records over without copying them. Their memory grows only by what it lacks for
    /// `room` more events. Returns `WantOfMemory` if that memory cannot be allocated, or if the records then have 2^32
    /// places or more.
    pub fn from_records(
        tuning: Tuning,
        step: bool,
        mut recs: Vec<Rec>,
        summary: &Summary,
        room: u32,
    ) -> Result<TagCore, WantOfMemory>
        requires tuned { TuningInRange tuning }
        requires parts { ArePartsOk tuning step recs.items summary.now }
        ensures records { IfOk result (λ core. core.state.records ≡ recs.items) }
        ensures summary { IfOk result (λ core. core.state.summary ≡ record summary.now { tuning = Some tuning }) }
        ensures step { IfOk result (λ core. core.step ≡ step) }
        ensures room { IfOk result (λ core. 2 * room ≤ core.spare) }
    {
        recs.reserve_exact(2 * room as usize)?;
        Self::resumed(tuning, step, recs, summary)
    }

    // A tag that continues from these records, in the places that they have, and from this summary. The error comes if
    // there are 2^32 places or more.
    fn resumed(
        tuning: Tuning,
        step: bool,
        recs: Vec<Rec>,
        summary: &Summary,
    ) -> Result<TagCore, WantOfMemory>
        requires tuned { TuningInRange tuning }
        requires parts { ArePartsOk tuning step recs.items summary.now }
        ensures records { IfOk result (λ core. core.state.records ≡ recs.items) }
        ensures summary { IfOk result (λ core. core.state.summary ≡ record summary.now { tuning = Some tuning }) }
        ensures step { IfOk result (λ core. core.step ≡ step) }
        ensures spare { IfOk result (λ core. core.spare ≡ vec_capacity recs - length recs.items) }
    {
        if recs.capacity() > u32::MAX as usize {
            return Err(WantOfMemory);
        }
        let doors = doors_of(&tuning, step, &recs, summary);
        Ok(TagCore {
            compressor: Compressor::from_records(tuning, step, recs, summary.hinge, doors),
            gate: Gate {
                last: summary.held,
                pending: summary.pending,
            },
            taken: summary.taken,
        })
    }

    /// Takes one raw value. The exception test sends it on to compression, or keeps it pending. The call allocates no
    /// memory. Returns `Full` if two more records would be too many; then nothing is changed.
    #[inline(always)]
    pub fn take<L: Ledger>(&mut self, p: Point, steps: &mut Steps<L>) -> Result<Took, Full>
        requires range { InRange p }
        requires room { 2 ≤ self.old.spare }
        requires countable { self.old.state.summary.taken < 2 ^ 64 - 1 }

        // The state after p. So a core that stands for a history then stands for the history with p.
        ensures after { OnOk result (self.new.state ≡ after self.old.step self.old.state (Raw p)) }
        ensures stands { (o : Origin) (h : List Event) → o.step ≡ self.old.step → Stands o h self.old.state
            → OnOk result (Stands o (Raw p ∷ h) self.new.state) }

        // The event adds two records at most, in memory that was there. Or it is refused, if two more would be too
        // many.
        ensures one { IsOneEvent self.old self.new result }
        ensures uncounted { OnErr result (steps.new ≡ steps.old) }

        // Two values are sent in order at most. Each is compared with two doors, which it may then move. A step tag
        // compares no lines. A late value is not compared if nothing is pending.
        ensures exact { OnOk result (steps.new ≡ steps.old + comparisons self.old.step self.old.state (Raw p)) }
        ensures counts { steps.old ≤ steps.new }
        ensures most { steps.new ≤ steps.old + 8 }
        ensures stairs { self.old.step ≡ true → steps.new ≡ steps.old }
        ensures late { (q : Point) → self.old.state.summary.held ≡ Some q → self.old.state.summary.pending ≡ None
            → p.t ≤ q.t → steps.new ≡ steps.old }
    {
        let before = self.records_unless_full()?;
        let held = self.gate.last;
        let sent = self.gate.offer(self.compressor.tuning(), p);
        self.compressor.take_sent(held, sent, steps);
        Ok(counted(&mut self.taken, before, self.compressor.recs()))
    }

    /// Takes a new tuning. The pending value is sent under the old tuning. If there are values since the hinge, the
    /// held point is kept. Then the new tuning is in force. The call allocates no memory. Returns `Full` if two more
    /// records would be too many; then nothing is changed.
    pub fn retune<L: Ledger>(&mut self, tuning: Tuning, steps: &mut Steps<L>) -> Result<Took, Full>
        requires tuned { TuningInRange tuning }
        requires room { 2 ≤ self.old.spare }
        requires countable { self.old.state.summary.taken < 2 ^ 64 - 1 }

        // The state after the retuning. So a core that stands for a history then stands for the history with the
        // retuning.
        ensures after { OnOk result (self.new.state ≡ after self.old.step self.old.state (Tune tuning)) }
        ensures stands { (o : Origin) (h : List Event) → o.step ≡ self.old.step → Stands o h self.old.state
            → OnOk result (Stands o (Tune tuning ∷ h) self.new.state) }

        // The event adds two records at most, in memory that was there. Or it is refused, if two more would be too
        // many.
        ensures one { IsOneEvent self.old self.new result }
        ensures uncounted { OnErr result (steps.new ≡ steps.old) }

        // A pending value is compared like one that is sent in order. Nothing else is compared.
        ensures exact { OnOk result (steps.new ≡ steps.old + comparisons self.old.step self.old.state (Tune tuning)) }
        ensures counts { steps.old ≤ steps.new }
        ensures most { steps.new ≤ steps.old + 4 }
        ensures stairs { self.old.step ≡ true → steps.new ≡ steps.old }
        ensures none_waits { self.old.state.summary.pending ≡ None → steps.new ≡ steps.old }
    {
        let records = self.records_unless_full()?;
        let held = self.gate.last;
        let waiting = self.gate.flush();
        self.compressor.retune(held, waiting, tuning, steps);
        Ok(counted(&mut self.taken, records, self.compressor.recs()))
    }

    // How many records there are. The error comes if two more would be too many.
    #[inline(always)]
    fn records_unless_full(&self) -> Result<u32, Full>
        ensures value { IfOk result (λ n. n ≡ length self.now.state.records) }
        ensures room { OnOk result (length self.now.state.records + 2 ≤ most_records) }
        ensures full { IsErr result ↔ (most_records < length self.now.state.records + 2) }
        ensures full_records { IfErr result (λ full. full.records ≡ length self.now.state.records) }
    {
        let records = self.record_count();
        if records + 2 > MAX_RECORDS {
            return Err(Full { records });
        }
        Ok(records)
    }

    /// Returns how many records there are.
    #[inline]
    pub fn record_count(&self) -> u32
        ensures value { result ≡ length self.now.state.records }
        ensures few { result ≤ most_records }
    {
        self.compressor.recs().len() as u32
    }

    /// Returns how many more records there is memory for.
    #[inline]
    pub fn spare(&self) -> u32
        ensures { result ≡ self.now.spare }
    {
        self.compressor.spare()
    }

    /// Returns how many events (raw values and retunings) the tag has taken.
    #[inline]
    pub fn taken(&self) -> u64
        ensures { result ≡ self.now.state.summary.taken }
    {
        self.taken
    }

    /// Returns whether it is a step tag.
    pub fn step(&self) -> bool
        ensures { result ≡ self.now.step }
    {
        self.compressor.step()
    }

    /// Returns the records, the oldest first.
    #[inline]
    pub fn recs(&self) -> &[Rec]
        ensures value { result.now ≡ self.now.state.records }
        ensures range { All (λ r. InRange r.point) result.now }
    {
        self.compressor.recs()
    }

    /// Returns the last value sent in order. It closes the line.
    #[inline]
    pub fn held(&self) -> Option<Point>
        ensures value { result ≡ self.now.state.summary.held }
        ensures range { IfThere InRange result }

        // No record is after it.
        ensures last { IfThere (IsNotBefore (listed self.now.state.records)) result }
    {
        self.gate.last
    }

    /// Returns the state without the records. With the records it passes `parts_ok`, if fewer than 10^18 events were
    /// taken.
    pub fn summary(&self) -> Summary
        ensures value { result ≡ self.now.state.summary }
        ensures parts { (u : Tuning) → result.tuning ≡ Some u → result.taken < 10 ^ 18
            → ArePartsOk u self.now.step self.now.state.records result }

        // This holds however many events were taken.
        ensures is_core { (u : Tuning) × IsCore u self.now.step self.now.state }
    {
        Summary {
            taken: self.taken,
            records: self.record_count(),
            held: self.gate.last,
            pending: self.gate.pending,
            hinge: self.compressor.hinge(),
            upper: self.compressor.upper(),
            lower: self.compressor.lower(),
            tuning: Some(self.tuning()),
        }
    }

    /// Returns the tuning in force.
    pub fn tuning(&self) -> Tuning
        ensures value { self.now.state.summary.tuning ≡ Some result }
        ensures tuned { TuningInRange result }
    {
        *self.compressor.tuning()
    }

    /// Takes the tag apart into its records, the oldest first, and its summary. They pass `parts_ok`, if fewer than
    /// 10^18 events were taken.
    pub fn into_parts(self) -> (Vec<Rec>, Summary)
        ensures records { result.0.items ≡ self.state.records }
        ensures summary { result.1 ≡ self.state.summary }
        ensures parts { (u : Tuning) → result.1.tuning ≡ Some u → result.1.taken < 10 ^ 18
            → ArePartsOk u self.step result.0.items result.1 }
    {
        let summary = self.summary();
        (self.compressor.into_recs(), summary)
    }
}

// Counts one event of a tag that had `before` records before it and has these now.
#[inline]
fn counted(taken: &mut u64, before: u32, recs: &[Rec]) -> Took
    requires countable { taken.old < 2 ^ 64 - 1 }
    requires not_fewer { before ≤ length recs.now }
    requires few { length recs.now ≤ before + 2 }
    ensures taken { taken.new ≡ taken.old + 1 }
    ensures added { length recs.now ≡ before + result.added }
{
    *taken += 1;
    Took {
        added: (recs.len() - before as usize) as u8,
    }
}

// A copy of these records, with this many places.
fn copied(alloc: Global, recs: &[Rec], places: usize) -> Result<Vec<Rec>, WantOfMemory>
    requires room { length recs.now ≤ places }
    ensures records { IfOk result (λ v. v.items ≡ recs.now) }
    ensures places { IfOk result (λ v. vec_capacity v ≡ places) }
{
    let mut copied = Vec::with_capacity(alloc, places)?;
    for rec in recs {
        copied.push_reserved(*rec);
    }
    Ok(copied)
}

// The doors of a summary, if it has them.
fn doors_of(tuning: &Tuning, step: bool, recs: &[Rec], summary: &Summary) -> Option<Doors>
    requires tuned { TuningInRange tuning.now }
    requires parts { ArePartsOk tuning.now step recs.now summary.now }
    ensures upper { upper_of result ≡ summary.now.upper }
    ensures lower { lower_of result ≡ summary.now.lower }
    ensures hang { HangAt tuning.now.comp_dev summary.now.hinge result }
{
    let (hinge, upper, lower) = (summary.hinge?, summary.upper?, summary.lower?);
    Some(Doors::from_points(hinge, tuning.comp_dev, upper, lower))
}
