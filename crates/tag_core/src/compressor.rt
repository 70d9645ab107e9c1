// The records, the hinge and the doors of a tag.
ghost use Rattle.std.specs.Prelude.{◌≡◌, ◌+◌, ◌^◌, ◌<◌, ◌≤◌, [], ◌∷◌, ◌++◌, IfOk, None, Some, vec_capacity};
ghost use Rattle.std.specs.Option.{option_or};
ghost use Rattle.trend_num.specs.{InRange, TuningInRange};
ghost use Rattle.trend_model.specs.{InOrder, Tuned, IfThere};
ghost use Rattle.trend_model.specs.State.{gained, line_after, pushed_out, stair_after};
ghost use Rattle.trend_model.specs.Walk.{kept, late};
ghost use Rattle.tag_core.specs.Compressed.{AddsTwo, ArePlaced, Compressed, HangAt, IsNext, IsNextSending, archive_with, compressed_after, compressed_in, lower_of, free_places_of, upper_of};
ghost use Rattle.tag_core.specs.Core.{compared_values, compared_on, line_compared};

use crate::span::{is_early, is_short, joins, stays};
use door_slopes::Doors;
use exception_test::Sent;
use std::alloc::{AllocError, Global};
use std::marker::Model;
use std::sync::ledger::Ledger;
use trend_num::{Kind, Point, Rec, Sending, Steps, Tuning};

// What compression (swinging doors, after Bristol) keeps of a tag in memory. The memory for records is reserved in
// advance.
#[derive(Drop)]
pub(crate) struct Compressor {
    tuning: Tuning,
    /// Whether the tag is a step tag.
    step: bool,
    recs: Vec<Rec>,
    /// The last kept point.
    hinge: Option<Point>,
    /// The doors at the hinge, if a value was sent in order since. Both doors of a step tag are the last such value.
    doors: Option<Doors>,
}

impl Model for Compressor {
    ghost use Rattle.std.specs.Prelude.{◌<◌, ◌^◌, vec_capacity};
    ghost use Rattle.trend_num.specs.{TuningInRange};
    ghost use Rattle.tag_core.specs.Compressed.{Compressed, HangAt, lower_of, upper_of};

    ghost Value = { Compressed };

    ghost view = { λ c. record {
      tuning = c.tuning;
      step = c.step;
      records = c.recs.items;
      hinge = c.hinge;
      upper = upper_of c.doors;
      lower = lower_of c.doors;
      places = vec_capacity c.recs;
    } };

    ghost invariant = { λ c. TuningInRange c.tuning × HangAt c.tuning.comp_dev c.hinge c.doors × (vec_capacity c.recs < 2 ^ 32) };
}

impl Compressor {
    // An empty one with `places` places for records.
    pub(crate) fn new(
        alloc: Global,
        tuning: Tuning,
        step: bool,
        places: u32,
    ) -> Result<Compressor, AllocError>
        requires { TuningInRange tuning }
        ensures { IfOk result (λ c. c ≡ record {
          tuning = tuning;
          step = step;
          records = [];
          hinge = None;
          upper = None;
          lower = None;
          places = places;
        }) }
    {
        let recs = Vec::with_capacity(alloc, places as usize)?;
        Ok(Compressor {
            tuning,
            step,
            recs,
            hinge: None,
            doors: None,
        })
    }

    // One that takes over these records, in the places that they have, with this hinge and these doors.
    pub(crate) fn from_records(
        tuning: Tuning,
        step: bool,
        recs: Vec<Rec>,
        hinge: Option<Point>,
        doors: Option<Doors>,
    ) -> Compressor
        requires tuned { TuningInRange tuning }
        requires hang { HangAt tuning.comp_dev hinge doors }
        requires places { vec_capacity recs < 2 ^ 32 }
        ensures { result ≡ record {
          tuning = tuning;
          step = step;
          records = recs.items;
          hinge = hinge;
          upper = upper_of doors;
          lower = lower_of doors;
          places = vec_capacity recs;
        } }
    {
        Compressor {
            tuning,
            step,
            recs,
            hinge,
            doors,
        }
    }

    // How many places for records are free.
    pub(crate) fn spare(&self) -> u32
        ensures { result ≡ free_places_of self.now }
    {
        (self.recs.capacity() - self.recs.len()) as u32
    }

    // The tuning in force.
    #[inline]
    pub(crate) fn tuning(&self) -> &Tuning
        ensures value { result.now ≡ self.now.tuning }
        ensures tuned { TuningInRange result.now }
    {
        &self.tuning
    }

    // Whether the tag is a step tag.
    pub(crate) fn step(&self) -> bool
        ensures { result ≡ self.now.step }
    {
        self.step
    }

    // The records, the oldest first.
    #[inline]
    pub(crate) fn recs(&self) -> &[Rec]
        ensures { result.now ≡ self.now.records }
    {
        self.recs.as_slice()
    }

    // The last kept point.
    pub(crate) fn hinge(&self) -> Option<Point>
        ensures { result ≡ self.now.hinge }
    {
        self.hinge
    }

    // The upper door.
    pub(crate) fn upper(&self) -> Option<Point>
        ensures { result ≡ self.now.upper }
    {
        self.doors.map(|doors| doors.upper())
    }

    // The lower door.
    pub(crate) fn lower(&self) -> Option<Point>
        ensures { result ≡ self.now.lower }
    {
        self.doors.map(|doors| doors.lower())
    }

    // Only the records.
    pub(crate) fn into_recs(self) -> Vec<Rec>
        ensures { result.items ≡ self.records }
    {
        self.recs
    }

    // Takes what the exception test sends on. `held` is the held point before it.
    #[inline(always)]
    pub(crate) fn take_sent<L: Ledger>(
        &mut self,
        held: Option<Point>,
        sent: Sent,
        steps: &mut Steps<L>,
    )
        requires placed { ArePlaced self.old.hinge held }
        requires first { IfThere (IsNext held) sent.first }
        requires second { IsNextSending (option_or sent.first held) sent.second }
        requires room { 2 ≤ free_places_of self.old }
        ensures after { self.new ≡ compressed_after self.old held (gained sent.first sent.second) }
        ensures adds { AddsTwo self.old self.new }
        ensures cost { steps.new ≡ steps.old
            + compared_values self.old.step (archive_with self.old held) (gained sent.first sent.second) }
    {
        self.take_pushed_out(held, sent.first, steps);
        match sent.second {
            None => {}
            Some(Sending::InOrder(p)) => self.take_in_order(sent.first.or(held), p, steps),
            Some(Sending::Late(p)) => self.take_late(p),
        }
    }

    // Takes a new tuning. `held` is the held point before it. The pending value is taken first. Then the span since the
    // hinge ends.
    pub(crate) fn retune<L: Ledger>(
        &mut self,
        held: Option<Point>,
        waiting: Option<Point>,
        tuning: Tuning,
        steps: &mut Steps<L>,
    )
        requires placed { ArePlaced self.old.hinge held }
        requires waiting { IfThere (IsNext held) waiting }
        requires tuned { TuningInRange tuning }
        requires room { 2 ≤ free_places_of self.old }
        ensures after { self.new ≡ compressed_after self.old held (Tuned tuning ∷ pushed_out waiting) }
        ensures adds { AddsTwo self.old self.new }
        ensures cost { steps.new ≡ steps.old
            + compared_values self.old.step (archive_with self.old held) (Tuned tuning ∷ pushed_out waiting) }
    {
        self.take_pushed_out(held, waiting, steps);
        self.end_span(waiting.or(held), tuning);
    }

    // Keeps the held point, if there are values since the hinge. Then the new tuning is in force.
    fn end_span(&mut self, held: Option<Point>, tuning: Tuning)
        requires placed { ArePlaced self.old.hinge held }
        requires tuned { TuningInRange tuning }
        requires room { 0 < free_places_of self.old }
        ensures { self.new ≡ compressed_after self.old held (Tuned tuning ∷ []) }
    {
        if let (Some(held), Some(_)) = (held, &self.doors) {
            self.keep(held);
        }
        self.tuning = tuning;
    }

    // Takes the value that was pending, if there is one.
    #[inline(always)]
    fn take_pushed_out<L: Ledger>(
        &mut self,
        held: Option<Point>,
        first: Option<Point>,
        steps: &mut Steps<L>,
    )
        requires placed { ArePlaced self.old.hinge held }
        requires first { IfThere (IsNext held) first }
        requires room { 0 < free_places_of self.old }
        ensures after { self.new ≡ compressed_after self.old held (pushed_out first) }
        ensures placed { ArePlaced self.new.hinge (option_or first held) }
        ensures room { free_places_of self.old ≤ free_places_of self.new + 1 }
        ensures cost { steps.new ≡ steps.old + compared_values self.old.step (archive_with self.old held) (pushed_out first) }
    {
        if let Some(p) = first {
            self.take_in_order(held, p, steps);
        }
    }

    // Takes a value that is sent late.
    #[inline]
    fn take_late(&mut self, p: Point)
        requires { 0 < free_places_of self.old }
        ensures { self.new ≡ record self.old { records = self.old.records ++ (late p ∷ []) } }
    {
        self.recs.push_reserved(Rec {
            kind: Kind::Late,
            point: p,
        });
    }

    // Takes a value that is sent in order.
    #[inline(always)]
    fn take_in_order<L: Ledger>(&mut self, held: Option<Point>, p: Point, steps: &mut Steps<L>)
        requires placed { ArePlaced self.old.hinge held }
        requires next { IsNext held p }
        requires room { 0 < free_places_of self.old }
        ensures after { self.new ≡ compressed_after self.old held (InOrder p ∷ []) }
        ensures placed { ArePlaced self.new.hinge (Some p) }
        ensures room { free_places_of self.old ≤ free_places_of self.new + 1 }
        ensures cost { steps.new ≡ steps.old + compared_on self.old.step (archive_with self.old held) (InOrder p) }
    {
        if self.step {
            self.take_stair(held, p);
        } else {
            self.take_line(held, p, steps);
        }
    }

    // Takes a value of a tag of lines that is sent in order.
    #[inline(always)]
    fn take_line<L: Ledger>(&mut self, held: Option<Point>, p: Point, steps: &mut Steps<L>)
        requires placed { ArePlaced self.old.hinge held }
        requires next { IsNext held p }
        requires room { 0 < free_places_of self.old }
        ensures after { self.new ≡ compressed_in self.old.step
            (line_after (archive_with self.old held) p self.old.hinge held self.old.upper self.old.lower) self.old.places }
        ensures placed { ArePlaced self.new.hinge (Some p) }
        ensures room { free_places_of self.old ≤ free_places_of self.new + 1 }
        ensures cost { steps.new ≡ steps.old
            + line_compared self.old.tuning p self.old.hinge held self.old.upper self.old.lower }
    {
        match (self.hinge, held, &mut self.doors) {
            (None, _, _) => self.keep(p),
            (Some(hinge), Some(newest), Some(doors)) => {
                if joins(&self.tuning, doors, p, steps) {
                    doors.swing(p, steps);
                } else if is_short(&self.tuning, hinge, p)
                    && is_early(&self.tuning, hinge, newest)
                {
                    self.hang(hinge, p);
                } else {
                    self.keep(newest);
                    self.hang(newest, p);
                }
            }
            (Some(hinge), _, _) => self.hang(hinge, p),
        }
    }

    // Takes a value of a step tag that is sent in order.
    fn take_stair(&mut self, held: Option<Point>, p: Point)
        requires placed { ArePlaced self.old.hinge held }
        requires next { IsNext held p }
        requires room { 0 < free_places_of self.old }
        ensures after { self.new ≡ compressed_in self.old.step
            (stair_after (archive_with self.old held) p self.old.hinge) self.old.places }
        ensures placed { ArePlaced self.new.hinge (Some p) }
        ensures room { free_places_of self.old ≤ free_places_of self.new + 1 }
    {
        match self.hinge {
            Some(hinge) if stays(&self.tuning, hinge, p) => self.hang(hinge, p),
            _ => self.keep(p),
        }
    }

    // Hangs both doors at p, the last value since the hinge.
    #[inline]
    fn hang(&mut self, hinge: Point, p: Point)
        requires hinge { self.old.hinge ≡ Some hinge }
        requires hinge_range { InRange hinge }
        requires range { InRange p }
        requires after { hinge.t < p.t }
        ensures { self.new ≡ record self.old { upper = Some p; lower = Some p } }
    {
        self.doors = Some(Doors::hang(hinge, self.tuning.comp_dev, p));
    }

    // Keeps p, which becomes the hinge.
    #[inline]
    fn keep(&mut self, p: Point)
        requires { 0 < free_places_of self.old }
        ensures { self.new ≡ record self.old {
          records = self.old.records ++ (kept p ∷ []);
          hinge = Some p;
          upper = None;
          lower = None;
        } }
    {
        self.recs.push_reserved(Rec {
            kind: Kind::Kept,
            point: p,
        });
        self.hinge = Some(p);
        self.doors = None;
    }
}
