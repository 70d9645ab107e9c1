// A content, in pages.
ghost use Rattle.std.specs.Prelude.{◌≡◌, ◌↔◌, ◌+◌, ◌-◌, ◌<◌, ◌≤◌, List, [], ◌∷◌, ◌++◌, IfNone, IfOk, IfSome, IsTrue, IsSome, length, count_by, nat_lt, sum, take, drop, slice_index_or, slice_get, slice_range, All, fold};
ghost use Rattle.trend_num.specs.{Rec, InRange};
ghost use Rattle.trend_model.specs.{is_late_record, late_at, last_point, IsCeil, IsContentOf, IsFloor, IsRising, listed, placed, points_of};
ghost use Rattle.page_pool.specs.{full_page};
ghost use Rattle.late_insert.specs.Places.{StandsAt};
ghost use Rattle.late_insert.specs.PageTotals.{IsPageOf};
ghost use Rattle.late_insert.specs.PageLengths.{AreBefore, AreFull, ArePagesFilled, IsOneOf, IsPutAmong, place_in};

use crate::directory::Directory;
use crate::gap::{Around, around_in, frame_of, gap_in, rec_in};
use crate::page::{HALF, run_len};
use crate::shelf::{
    first_page, is_full_before, is_open_before, make_room, open_page, put_at, put_behind,
};
use crate::walk::{Runs, runs_in};
use page_pool::Pool;
use std::alloc::Global;
use std::marker::Model;
use trend_num::{Kind, Point, Rec, WantOfMemory};

/// The content of an archive's records: one point for each time that occurs, in order of time.
#[derive(Drop)]
pub struct Content {
    pool: Pool,
    pages: Directory,
    len: u32,
    // How many points it may have at most.
    room: u32,
}

impl Model for Content {
    ghost use Rattle.std.specs.Prelude.{◌-◌};
    ghost use Rattle.trend_model.specs.{ContentState};
    ghost use Rattle.late_insert.specs.Pages.{IsKept, lengths_of, page_records_of};

    ghost Value = { ContentState };

    ghost view = { λ c. record {
      records = page_records_of c.pool c.pages.items;
      spare = c.room - c.len;
      pages = lengths_of c.pool c.pages.items;
    } };

    ghost invariant = { λ c. IsKept c.pool c.pages.items c.pages.places c.len c.room };
}

/// The totals of one page of a content.
#[derive(Clone, Copy, Debug, PartialEq, Eq)]
pub struct PageTotals {
    /// The place of the page's first point in the content.
    pub first: u32,
    /// How many points the page has.
    pub len: u32,
    /// Twice the area under the line through them, in value units times milliseconds.
    pub area: i128,
    /// Their least value.
    pub low: i64,
    /// Their greatest value.
    pub high: i64,
}

impl Content {
    /// Returns an empty content with memory for `points` points. No call on it allocates more. Returns `WantOfMemory`
    /// if the memory cannot be allocated.
    pub fn new(alloc: Global, points: u32) -> Result<Content, WantOfMemory>
        ensures empty { IfOk result (λ content. content.records ≡ []) }
        ensures spare { IfOk result (λ content. content.spare ≡ points) }
        ensures pages { IfOk result (λ content. content.pages ≡ 0 ∷ []) }
    {
        // There are no more pages than this, because each but the last is at least half full. One more frame is for the
        // upper half of a page that is split.
        let frames = points / HALF + 2;
        let mut pool = Pool::reserve(alloc, frames).map_err(|_| WantOfMemory)?;
        let mut pages = Directory::with_capacity(alloc, frames)?;
        first_page(&mut pool, &mut pages);
        Ok(Content {
            pool,
            pages,
            len: 0,
            room: points,
        })
    }

    /// Returns the content of these records, the oldest first, with room for `more` points in addition. Runs of records
    /// in order go into whole pages at once. Returns `WantOfMemory` if the memory cannot be allocated, or if there
    /// would be room for more than 2^32 - 1 points.
    pub fn from_records(alloc: Global, recs: &[Rec], more: u32) -> Result<Content, WantOfMemory>
        requires range { All (λ r. InRange r.point) recs.now }
        ensures records { IfOk result (λ content. content.records ≡ listed recs.now) }
        ensures room { IfOk result (λ content. content.spare + length content.records ≡ length recs.now + more) }

        // Records in order fill page after page.
        ensures filled { IfOk result (λ content. IsRising recs.now → AreFull content.pages) }
    {
        let points = u32::try_from(recs.len()).map_err(|_| WantOfMemory)?;
        let points = points.checked_add(more).ok_or(WantOfMemory)?;
        let mut content = Content::new(alloc, points)?;
        let mut done = 0;
        while done < recs.len() {
            done += content.put_front(&recs[done..]);
        }
        Ok(content)
    }

    /// Puts one more record in. If there is a record at its time, a Late record replaces it. A Kept record replaces
    /// only a Kept one.
    pub fn put(&mut self, rec: Rec)
        requires spare { 1 ≤ self.old.spare }
        requires range { InRange rec.point }
        ensures placed { self.new.records ≡ placed rec self.old.records }
        ensures content { (rs : List Rec) → IsContentOf rs self.old.records → IsContentOf (rs ++ rec ∷ []) self.new.records }

        // Only a new time takes room.
        ensures spare { self.old.spare ≤ self.new.spare + 1 }
        ensures room { length self.new.records + self.new.spare ≡ length self.old.records + self.old.spare }

        // A record after all others goes on the last page, or on a fresh page if the last one is full. Any other goes
        // on the page of its place, which is first split if it is full.
        ensures behind { AreBefore self.old.records rec.point.t → ArePagesFilled self.old.pages 1 self.new.pages }
        ensures among { (AreBefore self.old.records rec.point.t → ⊥) → IsPutAmong self.old.pages
            (place_in self.old.records rec.point.t) (length self.new.records - length self.old.records) self.new.pages }
    {
        self.put_front(&[rec]);
    }

    // Puts the first of these records in, and returns how many. Most records come after all others, so the last page is
    // tried before any search.
    fn put_front(&mut self, recs: &[Rec]) -> usize
        requires some { 0 < length recs.now }
        requires spare { length recs.now ≤ self.old.spare }
        requires range { All (λ r. InRange r.point) recs.now }
        ensures some { 0 < result }
        ensures within { result ≤ length recs.now }
        ensures records { self.new.records ≡ fold (λ l r. placed r l) self.old.records (take result recs.now) }
        ensures spare { self.old.spare ≤ self.new.spare + result }
        ensures room { length self.new.records + self.new.spare ≡ length self.old.records + self.old.spare }
        ensures behind { (d : Rec) → AreBefore self.old.records (slice_index_or recs.now 0 d).point.t
            → ArePagesFilled self.old.pages result self.new.pages }
        ensures among { (d : Rec) → (AreBefore self.old.records (slice_index_or recs.now 0 d).point.t → ⊥)
            → IsPutAmong self.old.pages (place_in self.old.records (slice_index_or recs.now 0 d).point.t)
            (length self.new.records - length self.old.records) self.new.pages }
    {
        let rec = recs[0];
        if is_open_before(&self.pool, &self.pages, rec.point.t) {
            put_behind(&mut self.pool, &mut self.pages, rec);
            self.len += 1;
            return 1;
        }
        self.put_elsewhere(recs)
    }

    // Puts the first of these records in, and returns how many. It puts in a run of them, on a page of its own, if they
    // come after all others and the last page is full. Otherwise it puts in one.
    #[inline(never)]
    fn put_elsewhere(&mut self, recs: &[Rec]) -> usize
        requires some { 0 < length recs.now }
        requires spare { length recs.now ≤ self.old.spare }
        requires range { All (λ r. InRange r.point) recs.now }
        ensures some { 0 < result }
        ensures within { result ≤ length recs.now }
        ensures records { self.new.records ≡ fold (λ l r. placed r l) self.old.records (take result recs.now) }
        ensures spare { self.old.spare ≤ self.new.spare + result }
        ensures room { length self.new.records + self.new.spare ≡ length self.old.records + self.old.spare }
        ensures behind { (d : Rec) → AreBefore self.old.records (slice_index_or recs.now 0 d).point.t
            → ArePagesFilled self.old.pages result self.new.pages }
        ensures among { (d : Rec) → (AreBefore self.old.records (slice_index_or recs.now 0 d).point.t → ⊥)
            → IsPutAmong self.old.pages (place_in self.old.records (slice_index_or recs.now 0 d).point.t)
            (length self.new.records - length self.old.records) self.new.pages }
    {
        let rec = recs[0];
        if is_full_before(&self.pool, &self.pages, rec.point.t) {
            let n = run_len(recs);
            open_page(&mut self.pool, &mut self.pages, self.len, &recs[..n]);
            self.len += n as u32;
            return n;
        }
        let k = make_room(&mut self.pool, &mut self.pages, rec.point.t);
        self.len += put_at(&mut self.pool, &mut self.pages, k, rec);
        1
    }

    /// Returns how many more points there is room for.
    pub fn spare(&self) -> u32
        ensures { result ≡ self.now.spare }
    {
        self.room - self.len
    }

    /// Returns how many points there are.
    pub fn len(&self) -> u32
        ensures value { result ≡ length self.now.records }
        ensures rising { IsRising self.now.records }
        ensures range { All InRange (points_of self.now.records) }
        ensures pages { sum self.now.pages ≡ result }
        ensures most { All (λ n. n ≤ full_page) self.now.pages }
    {
        self.len
    }

    /// Returns whether there is no point.
    pub fn is_empty(&self) -> bool
        ensures { IsTrue result ↔ (self.now.records ≡ []) }
    {
        self.len == 0
    }

    /// Returns the point at the place `i`.
    pub fn point(&self, i: u32) -> Point
        requires { i < length self.now.records }
        ensures value { slice_get (points_of self.now.records) i ≡ Some result }
        ensures range { InRange result }
    {
        self.rec(i).point
    }

    /// Returns how many points are before the time t.
    pub fn below(&self, t: u64) -> u32
        ensures value { result ≡ count_by (λ r. nat_lt r.point.t t) self.now.records }
    {
        self.gap(t)
    }

    /// Returns the last point that is not after the time t, or `None` if there is none.
    pub fn floor(&self, t: u64) -> Option<Point>
        ensures { IsFloor t self.now.records result }
    {
        let i = self.gap(t);
        if let Some(rec) = self.standing(i, t) {
            return Some(rec.point);
        }
        if i == 0 {
            return None;
        }
        Some(self.rec(i - 1).point)
    }

    /// Returns the first point that is not before the time t, or `None` if there is none.
    pub fn ceil(&self, t: u64) -> Option<Point>
        ensures { IsCeil t self.now.records result }
    {
        let i = self.gap(t);
        if i == self.len {
            return None;
        }
        Some(self.rec(i).point)
    }

    /// Returns the points next to the time t, found by one search.
    pub fn around(&self, t: u64) -> Around
        ensures below { result.below ≡ count_by (λ r. nat_lt r.point.t t) self.now.records }
        ensures upto { result.upto ≡ count_by (λ r. nat_lt r.point.t (t + 1)) self.now.records }
        ensures before { result.before ≡ last_point (take result.below (points_of self.now.records)) }
        ensures after { result.after ≡ slice_get (points_of self.now.records) result.below }
        ensures before_range { IfSome result.before InRange }
        ensures after_range { IfSome result.after InRange }
    {
        around_in(&self.pool, &self.pages, self.len, t)
    }

    /// Returns the points at the places from `first` to `behind`, the latter excluded, in runs.
    pub fn runs(&self, first: u32, behind: u32) -> Runs<'_>
        requires order { first ≤ behind }
        requires within { behind ≤ length self.now.records }
        ensures { result ≡ slice_range (points_of self.now.records) first behind }
    {
        runs_in(&self.pool, &self.pages, first, behind)
    }

    /// Returns whether there is a Late record at the time t.
    pub fn late_at(&self, t: u64) -> bool
        ensures { IsTrue result ↔ IsSome (late_at self.now.records t) }
    {
        match self.standing(self.gap(t), t) {
            None => false,
            Some(rec) => is_late(rec.kind),
        }
    }

    /// Returns the totals of the page that has the point at the place `i`.
    pub fn page(&self, i: u32) -> PageTotals
        requires { i < length self.now.records }
        ensures page { IsPageOf self.now.records i result }
        ensures one { IsOneOf self.now.pages result }
    {
        let k = self.pages.page_of(i);
        let frame = frame_of(&self.pool, &self.pages, k);
        PageTotals {
            first: self.pages.first(k),
            len: frame.len,
            area: frame.area,
            low: frame.low,
            high: frame.high,
        }
    }

    // The record at a place.
    fn rec(&self, i: u32) -> Rec
        requires { i < length self.now.records }
        ensures value { (d : Rec) → slice_index_or self.now.records i d ≡ result }
        ensures range { InRange result.point }
    {
        rec_in(&self.pool, &self.pages, i)
    }

    // The record at a place, if its time is t.
    fn standing(&self, i: u32, t: u64) -> Option<Rec>
        requires { i ≤ length self.now.records }
        ensures there { IfSome result (StandsAt self.now.records i t) }
        ensures none { IfNone result ((r : Rec) → StandsAt self.now.records i t r → ⊥) }
    {
        if i == self.len {
            return None;
        }
        let rec = self.rec(i);
        if rec.point.t == t { Some(rec) } else { None }
    }

    // How many records are before the time t, which is the place of the first record from t on.
    fn gap(&self, t: u64) -> u32
        ensures bound { result ≤ length self.now.records }
        ensures before { All (λ r. r.point.t < t) (take result self.now.records) }
        ensures after { All (λ r. t ≤ r.point.t) (drop result self.now.records) }
        ensures rising { IsRising self.now.records }
    {
        gap_in(&self.pool, &self.pages, t).place
    }
}

// Whether a record of this kind is late.
fn is_late(kind: Kind) -> bool
    ensures { result ≡ is_late_record kind }
{
    match kind {
        Kind::Kept => false,
        Kind::Late => true,
    }
}
