// Questions about a tag, and records that a group pulls.
ghost use Rattle.std.specs.Prelude.{◌≡◌, ◌↔◌, ℕ, ◌+◌, ◌-◌, ◌^◌, ◌<◌, ◌≤◌, [], ◌∷◌, ◌++◌, All, drop, take, Err, IfOk, IsErrOf, OnErr, OnOk, length, vec_len, vec_capacity};
ghost use Rattle.trend_num.specs.{IsTagQuery, InRange};
ghost use Rattle.trend_model.specs.{closed_points};
ghost use Rattle.interp_read.specs.{Answers};
ghost use Rattle.tag_cell.specs.declared.entry.Entry.TheVariants.{Pull};
ghost use Rattle.tag_cell.specs.declared.entry.PullNo.TheVariants.{Ahead};
ghost use Rattle.tag_cell.specs.Told.{IsAskedBy, durable_records};

use crate::cell::Cell;
use crate::entry::{Entry, PullNo, Pulled, Receipt};
use disk_model::Disk;
use interp_read::Reply;
use std::alloc::Global;
use trend_num::{Rec, TagQuery, WantOfMemory};
use weighted_total::answer;

impl From<WantOfMemory> for PullNo {
    ghost use Rattle.std.specs.Prelude.{◌≡◌};
    ghost use Rattle.tag_cell.specs.declared.entry.PullNo.TheVariants.{WantOfMemory as NoMemory};

    ghost from_gives = { λ _ no. no ≡ NoMemory };

    fn from(_: WantOfMemory) -> PullNo {
        PullNo::WantOfMemory
    }
}

impl<D: Disk> Cell<D> {
    /// Answers a question about the closed content. Of a step tag it uses the stair. Leaves an entry with the answer on
    /// the tape. The one error is want of memory; the cell is then as before.
    pub fn ask(
        &mut self,
        reader: u32,
        row: u64,
        query: TagQuery,
    ) -> Result<(Receipt, Reply), WantOfMemory>
        requires { IsTagQuery query }
        ensures answers { IfOk result (λ told. Answers self.old.def.step (closed_points self.old.state.records self.old.state.summary.held) query told.1) }
        ensures asked { IfOk result (λ told. IsAskedBy reader row query told.1 self.old self.new) }
        ensures place { IfOk result (λ told. told.0.place ≡ length self.old.tape) }
        ensures unchanged { OnErr result (self.new ≡ self.old) }
    {
        let takes_to_come = self.room - self.takes;
        make_places(&mut self.tape, takes_to_come)?;
        let held = self.core.held();
        let reply = answer(self.alloc, &self.content, held, self.def.step, query)?;
        let copy = reply.copy(self.alloc)?;
        let place = self.tape.len() as u64;
        self.tape.push_reserved(Entry::Ask {
            reader,
            row,
            query,
            reply,
        });
        Ok((Receipt { place }, copy))
    }

    /// Returns the records of the opening and of the acknowledged takes, from the place `from` on. `Ahead` comes
    /// exactly if the place is after all of these. `WantOfMemory` can come at any other time. After an error the cell
    /// is as before.
    pub fn pull(&mut self, group: u32, from: u32) -> Result<Pulled, PullNo>
        ensures ahead { (length (durable_records self.old) < from) ↔ (result ≡ Err (Ahead from (length (durable_records self.old)))) }
        ensures carried { (f a : ℕ) → IsErrOf result (Ahead f a)
            → (f ≡ from) × (a ≡ length (durable_records self.old)) × (a < from) }
        ensures upto { IfOk result (λ pulled. pulled.upto ≡ length (durable_records self.old)) }
        ensures records { IfOk result (λ pulled. pulled.recs.items ≡ drop from (durable_records self.old)) }
        ensures in_range { IfOk result (λ pulled. All (λ r. InRange r.point) pulled.recs.items) }
        ensures long { IfOk result (λ pulled. pulled.upto ≡ from + length pulled.recs.items) }
        ensures short { IfOk result (λ pulled. length pulled.recs.items < 2 ^ 32) }
        ensures pulled { IfOk result (λ pulled. self.new ≡ record self.old { tape = self.old.tape ++ Pull group from pulled.upto ∷ [] }) }
        ensures unchanged { OnErr result (self.new ≡ self.old) }
    {
        let upto = self.durable;
        if from > upto {
            return Err(PullNo::Ahead { from, acked: upto });
        }
        let takes_to_come = self.room - self.takes;
        make_places(&mut self.tape, takes_to_come)?;
        let recs = copied(self.alloc, self.core.recs(), from, upto)?;
        self.tape.push_reserved(Entry::Pull { group, from, upto });
        Ok(Pulled { upto, recs })
    }
}

// Makes a place on a tape, in addition to those for so many takes to come.
pub(crate) fn make_places(tape: &mut Vec<Entry>, takes_to_come: u32) -> Result<(), WantOfMemory>
    ensures same { tape.new.items ≡ tape.old.items }
    ensures room { OnOk result (vec_len tape.old + takes_to_come + 1 ≤ vec_capacity tape.new) }
    ensures more { vec_capacity tape.old ≤ vec_capacity tape.new }
{
    tape.reserve(takes_to_come as usize + 1)?;
    Ok(())
}

// Returns a copy of the records from one place up to another.
fn copied(alloc: Global, recs: &[Rec], from: u32, upto: u32) -> Result<Vec<Rec>, WantOfMemory>
    requires order { from ≤ upto }
    requires within { upto ≤ length recs.now }
    requires range { All (λ r. InRange r.point) recs.now }
    ensures records { IfOk result (λ v. v.items ≡ take (upto - from) (drop from recs.now)) }
    ensures in_range { IfOk result (λ v. All (λ r. InRange r.point) v.items) }
{
    Ok(Vec::from_slice(alloc, &recs[from as usize..upto as usize])?)
}
