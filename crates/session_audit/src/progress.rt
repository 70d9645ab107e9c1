// Which rows of a worker were found, and which are due next.
ghost use Rattle.std.specs.Prelude.{◌≡◌, ◌↔◌, ◌<◌, ◌+◌, ◌^◌, ℕ, IfNone, IfOk, IfSome, IsFalse, IsSome, IsSomeAnd, IsTrue, None, Some, false, length, replicate, slice_index_or};
ghost use Rattle.session_audit.specs.Agendas.{IsNext, items_of};
ghost use Rattle.session_audit.specs.Adding.{IsLacking};
ghost use Rattle.session_audit.specs.Found.{AreLinked, IsAdvanced, IsChained, IsUnfound, lacks, next_due, place_at};

use crate::agenda::Agenda;
use crate::kind::Kind;
use plant_status::Seen;
use std::alloc::Global;
use std::marker::Model;
use trend_num::WantOfMemory;

/// Which rows of a worker were found at each of its units, its tags or its groups: the row that is due next there.
#[derive(Drop)]
pub struct Progress<'a> {
    agenda: Agenda<'a>,
    // For each unit, the place of the row that is due next. If no row is left, this is the number of rows.
    at: Vec<u32>,
    // For each row, the place of the next row of its unit. If there is none, this is the number of rows.
    next: Vec<u32>,
}

impl<'a> Model for Progress<'a> {
    ghost use Rattle.session_audit.specs.Agendas.{items_of};
    ghost use Rattle.session_audit.specs.Adding.{IsLacking};
    ghost use Rattle.session_audit.specs.Found.{IsChained, Reached};

    ghost Value = { Reached };

    ghost view = { λ p. record { items = items_of p.agenda; at = p.at.items } };

    ghost invariant = { λ p. IsChained (items_of p.agenda) p.next.items p.at.items };
}

impl<'a> Progress<'a> {
    /// Returns the progress over these rows at `units` units. No row is found yet. The one error is want of memory.
    pub fn new(alloc: Global, agenda: Agenda<'a>, units: u32) -> Result<Progress<'a>, WantOfMemory>
        requires few { length (items_of agenda) < 2 ^ 32 }
        requires units { (i : ℕ) → IfSome (slice_index_or (items_of agenda) i None) (λ item. item.unit < units) }
        ensures items { IfOk result (λ p. p.items ≡ items_of agenda.entry) }
        ensures units { IfOk result (λ p. length p.at ≡ units) }
        ensures unfound { IfOk result (λ p. (u : ℕ) → u < units → IsUnfound u p) }
    {
        let count = agenda.len();
        let mut at = table(alloc, count as u32, units as usize)?;
        let mut next = table(alloc, count as u32, count)?;
        link_all(&agenda, at.as_mut_slice(), next.as_mut_slice());
        Ok(Progress { agenda, at, next })
    }

    /// Returns how many units there are.
    pub fn units(&self) -> usize
        ensures units { result ≡ length self.now.at }
        ensures next { (u : ℕ) → u < length self.now.at → IsNext u self.now.items (place_at self.now u) (place_at self.now u) }
    {
        self.at.len()
    }

    /// Returns the row that is due next at a unit, or None if no row is left.
    pub fn next_due(&self, unit: u32) -> Option<Seen>
        requires { unit < length self.now.at }
        ensures due { result ≡ next_due self.now unit }
        ensures next { IsNext unit self.now.items (place_at self.now unit) (place_at self.now unit) }
    {
        let place = self.at[unit as usize] as usize;
        if place < self.agenda.len() {
            Some(self.agenda.item(place)?.seen)
        } else {
            None
        }
    }

    /// Returns the unit at which a row is due, if the row was not found there yet.
    pub fn missing(&self, place: usize) -> Option<u32>
        requires { place < length self.now.items }
        ensures missing { IfSome result (IsLacking self.now place) }
        ensures none { IfNone result (lacks self.now place ≡ false) }
    {
        match self.agenda.unit(place) {
            Some(unit) if self.at[unit as usize] as usize <= place => Some(unit),
            _ => None,
        }
    }

    /// Marks the row that is due next at a unit as found.
    pub fn advance(&mut self, unit: u32)
        requires known { unit < length self.old.at }
        requires due { IsSome (next_due self.old unit) }
        ensures { IsAdvanced unit self.old self.new }
    {
        let place = self.at[unit as usize] as usize;
        self.at[unit as usize] = self.next[place];
    }

    /// Marks the row that is due next at a unit as found if an entry shows this row. Returns whether it does.
    pub fn follow<K: Kind>(&mut self, unit: u32, entry: &K::Entry) -> bool
        requires { unit < length self.old.at }
        ensures due { IsTrue result ↔ IsSomeAnd (K.shows entry.now) (λ s. next_due self.old unit ≡ Some s.seen) }
        ensures found { IsTrue result → IsAdvanced unit self.old self.new }
        ensures stays { IsFalse result → self.new ≡ self.old }
    {
        let place = self.at[unit as usize] as usize;
        if place < self.agenda.len() && K::is_due(entry, &self.agenda, place) {
            self.at[unit as usize] = self.next[place];
            true
        } else {
            false
        }
    }
}

// Returns `count` times one number.
fn table(alloc: Global, number: u32, count: usize) -> Result<Vec<u32>, WantOfMemory>
    ensures { IfOk result (λ v. v.items ≡ replicate count number) }
{
    Ok(vec![in alloc; number; count]?)
}

// Links each row to the next one of its unit, and each unit to its first row.
#[tactic(auto, using(crate::proofs::Links::linked_none, crate::proofs::Links::linked_all))]
fn link_all(agenda: &Agenda<'_>, at: &mut [u32], next: &mut [u32])
    requires few { length (items_of agenda.now) < 2 ^ 32 }
    requires units { (i : ℕ) → IfSome (slice_index_or (items_of agenda.now) i None) (λ item. item.unit < length at.old) }
    requires unlinked { at.old ≡ replicate (length at.old) (length (items_of agenda.now)) }
    requires as_many { length next.old ≡ length (items_of agenda.now) }
    ensures chained { IsChained (items_of agenda.now) next.new at.new }
    ensures units { length at.new ≡ length at.old }
    ensures unfound { (u : ℕ) → u < length at.new → IsNext u (items_of agenda.now) 0 (slice_index_or at.new u 0) }
{
    let mut place = next.len();
    while place > 0 {
        place -= 1;
        link(agenda, at, next, place);
    }
}

// Links the row at a place. The rows after it are linked already.
#[tactic(auto, using(crate::proofs::Links::linked_past, crate::proofs::Links::linked_more))]
fn link(agenda: &Agenda<'_>, at: &mut [u32], next: &mut [u32], place: usize)
    requires few { length (items_of agenda.now) < 2 ^ 32 }
    requires within { place < length (items_of agenda.now) }
    requires units { IfSome (slice_index_or (items_of agenda.now) place None) (λ item. item.unit < length at.old) }
    requires as_many { length next.old ≡ length (items_of agenda.now) }
    requires behind { AreLinked (items_of agenda.now) next.old at.old (place + 1) }
    ensures linked { AreLinked (items_of agenda.now) next.new at.new place }
    ensures units { length at.new ≡ length at.old }
    ensures as_many { length next.new ≡ length next.old }
{
    if let Some(unit) = agenda.unit(place) {
        next[place] = at[unit as usize];
        at[unit as usize] = place as u32;
    }
}
