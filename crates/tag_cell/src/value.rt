// The take of a raw value.
ghost use Rattle.std.specs.Prelude.{◌≡◌, ◌↔◌, ◌+◌, ◌-◌, ◌^◌, ◌<◌, ◌≤◌, All, IfOk, IfErr, IsErr, None, OnErr, OnOk, Some, MatchResult, length, fold};
ghost use Rattle.trend_num.specs.{Point, most_records, InRange};
ghost use Rattle.trend_model.specs.{listed, placed, Raw};
ghost use Rattle.trend_model.specs.State.{after};
ghost use Rattle.tag_cell.specs.Told.{IsTakenBy, take_refusal};

use crate::cell::Cell;
use crate::entry::{Entry, Receipt, TakeNo};
use disk_model::Disk;
use late_insert::Content;
use std::marker::Brand;
use std::sync::Wait;
use std::sync::ledger::{Blank, Ledger};
use tag_core::{Full, TagCore};
use trend_num::{Point, Rec, Snap, Steps};

impl From<Full> for TakeNo {
    ghost use Rattle.std.specs.Prelude.{◌≡◌};
    ghost use Rattle.tag_cell.specs.declared.entry.TakeNo.TheVariants.{Full as RecordsFull};

    ghost from_gives = { λ full no. no ≡ RecordsFull full.records };

    fn from(full: Full) -> TakeNo {
        TakeNo::Full {
            records: full.records,
        }
    }
}

impl<D: Disk> Cell<D> {
    /// Takes a raw value, and posts what the tag shows after it. It is refused if the cell is broken (`Broken`), else
    /// if the tape has no room for a take (`RoomFull`), else if the tag could have too many records (`Full`). After a
    /// refusal the cell is as before.
    pub fn take<R: Wait>(
        &mut self,
        rt: &R,
        collector: u32,
        row: u64,
        p: Point,
    ) -> Result<Receipt, TakeNo>
        requires { InRange p }
        ensures refused { MatchResult result (λ _. take_refusal self.old ≡ None) (λ e. take_refusal self.old ≡ Some e) }
        ensures unchanged { OnErr result (self.new ≡ self.old) }
        ensures taken { OnOk result (IsTakenBy collector row p self.old self.new) }
        ensures place { IfOk result (λ receipt. receipt.place ≡ length self.old.tape) }
    {
        if self.journal.failed() {
            return Err(TakeNo::Broken);
        }
        if self.takes == self.room {
            return Err(TakeNo::RoomFull { room: self.room });
        }
        let held = take_value::<Brand>(&mut self.core, &mut self.content, p, Blank::new(1))?;
        let snap = Snap {
            taken: self.core.taken(),
            held: Some(held),
        };
        self.board.post(rt, &mut self.poster, snap);
        let place = self.tape.len() as u64;
        self.tape.push_reserved(Entry::Take {
            collector,
            row,
            point: p,
            held,
            records: self.core.record_count(),
        });
        self.takes += 1;
        Ok(Receipt { place })
    }
}

// Takes a raw value into a core and the content of its records. Returns the point that closes the line after it.
#[inline(always)]
fn take_value<L: Ledger>(
    core: &mut TagCore,
    content: &mut Content,
    p: Point,
    blank: Blank,
) -> Result<Point, Full>
    requires name { blank.name ≡ L.name }
    requires parts { blank.parts ≡ L.parts }
    requires some_parts { 0 < L.parts }
    requires range { InRange p }
    requires room { 2 ≤ core.old.spare }
    requires content_room { 2 ≤ content.old.spare }
    requires countable { core.old.state.summary.taken < 2 ^ 64 - 1 }
    requires same { content.old.records ≡ listed core.old.state.records }
    ensures after { OnOk result (core.new.state ≡ after core.old.step core.old.state (Raw p)) }
    ensures step { core.new.step ≡ core.old.step }
    ensures counted { OnOk result (core.new.state.summary.taken ≡ core.old.state.summary.taken + 1) }
    ensures held { IfOk result (λ held. core.new.state.summary.held ≡ Some held) }
    ensures same { OnOk result (content.new.records ≡ listed core.new.state.records) }
    ensures room { core.old.spare ≤ core.new.spare + 2 }
    ensures content_room { content.old.spare ≤ content.new.spare + 2 }
    ensures full { IsErr result ↔ (most_records < length core.old.state.records + 2) }
    ensures full_records { IfErr result (λ full. full.records ≡ length core.old.state.records) }
    ensures unchanged { OnErr result ((core.new ≡ core.old) × (content.new ≡ content.old)) }
{
    let mut steps = Steps::<L>::new(blank);
    let before = core.record_count() as usize;
    core.take(p, &mut steps)?;
    put_all(content, &core.recs()[before..]);
    match core.held() {
        Some(held) => Ok(held),
        None => unreachable!(),
    }
}

// Puts these records into a content, the oldest first.
fn put_all(content: &mut Content, recs: &[Rec])
    requires room { length recs.now ≤ content.old.spare }
    requires range { All (λ r. InRange r.point) recs.now }
    ensures records { content.new.records ≡ fold (λ l r. placed r l) content.old.records recs.now }
    ensures room { content.old.spare ≤ content.new.spare + length recs.now }
{
    for rec in recs {
        content.put(*rec);
    }
}
