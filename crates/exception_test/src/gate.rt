// The gate of a tag's exception test.
ghost use Rattle.std.specs.Prelude.{◌≡◌, List, [], ◌∷◌, ◌++◌, None};
ghost use Rattle.std.specs.Option.{option_or};
ghost use Rattle.trend_num.specs.{Tuning};
ghost use Rattle.trend_model.specs.{Event, Origin, Raw, Tune, Tuned, in_force, is_far, sent};
ghost use Rattle.trend_model.specs.State.{gained, offered, offered_in_order, pushed_out};
ghost use Rattle.exception_test.specs.Gate.{GateStands};

use trend_num::{Point, Sending, Tuning};

/// What an exception test keeps of a tag.
#[derive(Clone, Copy, Debug, PartialEq, Eq)]
pub struct Gate {
    /// The last value sent in order: the held point of the compression that comes after the gate.
    pub last: Option<Point>,
    /// The newest value in order after it, which was not sent.
    pub pending: Option<Point>,
}

/// What the gate hands on at one offer, in this order.
#[derive(Clone, Copy, Debug, PartialEq, Eq)]
pub struct Sent {
    /// A value that was pending, and is now sent in order.
    pub first: Option<Point>,
    /// The value that was offered, if it is sent.
    pub second: Option<Sending>,
}

impl Gate {
    /// Returns a gate that has seen no value.
    pub fn new() -> Gate
        ensures last { result.last ≡ None }
        ensures pending { result.pending ≡ None }
        ensures stands { (o : Origin) → GateStands o result [] }
    {
        Gate {
            last: None,
            pending: None,
        }
    }

    /// Takes one raw value, and returns what is now sent (exception reporting, by the attributes ExcDev and ExcMax of
    /// the PI manuals).
    ///
    /// The first value is sent. A value that is not after the newest one is late: the pending value is sent in order,
    /// then the late one as it comes. A value in order that is far from the last one sent is sent after the pending
    /// one. Any other value becomes the pending one.
    #[inline(always)]
    pub fn offer(&mut self, tuning: &Tuning, p: Point) -> Sent
        // By the rules, in whatever state the gate is.
        ensures last { self.new.last ≡ (offered tuning.now self.old.last self.old.pending p).last }
        ensures pending { self.new.pending ≡ (offered tuning.now self.old.last self.old.pending p).pending }
        ensures first { result.first ≡ (offered tuning.now self.old.last self.old.pending p).first }
        ensures second { result.second ≡ (offered tuning.now self.old.last self.old.pending p).second }

        // For any history of any tag that has this tuning in force.
        ensures stands { (o : Origin) (h : List Event) → in_force o h ≡ tuning.now
            → GateStands o self.old h → GateStands o self.new (Raw p ∷ h) }
        ensures sends { (o : Origin) (h : List Event) → in_force o h ≡ tuning.now
            → GateStands o self.old h → sent o (Raw p ∷ h) ≡ gained result.first result.second ++ sent o h }
    {
        self.advance(tuning, p)
    }

    /// Empties the pending place for a retuning, and returns the value that was pending. That value is now sent in
    /// order, under the old tuning.
    #[inline]
    pub fn flush(&mut self) -> Option<Point>
        ensures last { self.new.last ≡ option_or self.old.pending self.old.last }
        ensures pending { self.new.pending ≡ None }
        ensures first { result ≡ self.old.pending }

        // For any history of any tag, and any new tuning.
        ensures stands { (o : Origin) (h : List Event) (u : Tuning) → GateStands o self.old h → GateStands o self.new (Tune u ∷ h) }
        ensures sends { (o : Origin) (h : List Event) (u : Tuning)
            → GateStands o self.old h → sent o (Tune u ∷ h) ≡ Tuned u ∷ pushed_out result ++ sent o h }
    {
        let first = self.pending;
        *self = Gate {
            last: first.or(self.last),
            pending: None,
        };
        first
    }

    // Moves the gate past one more value, in place, and returns what is sent.
    #[inline(always)]
    fn advance(&mut self, tuning: &Tuning, p: Point) -> Sent
        ensures last { self.new.last ≡ (offered tuning.now self.old.last self.old.pending p).last }
        ensures pending { self.new.pending ≡ (offered tuning.now self.old.last self.old.pending p).pending }
        ensures first { result.first ≡ (offered tuning.now self.old.last self.old.pending p).first }
        ensures second { result.second ≡ (offered tuning.now self.old.last self.old.pending p).second }
    {
        match (self.last, self.pending) {
            (None, _) => {
                self.last = Some(p);
                in_order(None, p)
            }
            (Some(last), None) if p.t <= last.t => late(None, p),
            (Some(_), Some(waiting)) if p.t <= waiting.t => {
                *self = sent_last(waiting);
                late(Some(waiting), p)
            }
            (Some(last), _) => self.advance_in_order(tuning, last, p),
        }
    }

    // The same, with a value in order.
    #[inline(always)]
    fn advance_in_order(&mut self, tuning: &Tuning, last: Point, p: Point) -> Sent
        requires { self.old.last ≡ Some last }
        ensures last { self.new.last ≡ (offered_in_order tuning.now last self.old.pending p).last }
        ensures pending { self.new.pending ≡ (offered_in_order tuning.now last self.old.pending p).pending }
        ensures first { result.first ≡ (offered_in_order tuning.now last self.old.pending p).first }
        ensures second { result.second ≡ (offered_in_order tuning.now last self.old.pending p).second }
    {
        if is_far(tuning, last, p) {
            let first = self.pending;
            *self = sent_last(p);
            return in_order(first, p);
        }
        self.pending = Some(p);
        Sent {
            first: None,
            second: None,
        }
    }
}

// Returns a gate whose last value is this one, with nothing pending.
#[inline(always)]
fn sent_last(p: Point) -> Gate
    ensures { result ≡ record { last = Some p; pending = None } }
{
    Gate {
        last: Some(p),
        pending: None,
    }
}

// The value is sent in order, after the one that was pending.
#[inline(always)]
fn in_order(first: Option<Point>, p: Point) -> Sent
    ensures { result ≡ record { first = first; second = Some (Sending.InOrder p) } }
{
    Sent {
        first,
        second: Some(Sending::InOrder(p)),
    }
}

// The value is sent late, after the one that was pending.
#[inline(always)]
fn late(first: Option<Point>, p: Point) -> Sent
    ensures { result ≡ record { first = first; second = Some (Sending.Late p) } }
{
    Sent {
        first,
        second: Some(Sending::Late(p)),
    }
}

// Returns whether the value differs from the last one sent by more than ExcDev, or comes ExcMax milliseconds after it
// or later.
#[inline(always)]
fn is_far(tuning: &Tuning, last: Point, p: Point) -> bool
    ensures { result ≡ is_far tuning.now last p }
{
    let lasted = last.t <= p.t && p.t - last.t >= tuning.exc_max;
    p.v.abs_diff(last.v) > tuning.exc_dev || lasted
}
