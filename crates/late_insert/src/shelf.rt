// Pages in the frames of a pool. A full page is split, one record is put in, or a run of records is put after all
// others.
ghost use Rattle.std.specs.Prelude.{◌≡◌, ◌+◌, ◌-◌, ◌^◌, ◌<◌, ◌≤◌, ◌⊎◌, [], ◌∷◌, ◌++◌, IsTrue, IsFalse, length, slice_index_or, take, drop, All};
ghost use Rattle.trend_num.specs.{InRange};
ghost use Rattle.page_pool.specs.{full_page, spare_of};
ghost use Rattle.late_insert.specs.declared.directory.Page.{Page};
ghost use Rattle.trend_model.specs.{IsRising, placed};
ghost use Rattle.late_insert.specs.Pages.{ArePages, IsFor, IsHalfFor, IsSplit, half_page, lengths_of, page_in, page_records_of};
ghost use Rattle.late_insert.specs.PageLengths.{AreBefore, IsGrown, IsHalved, place_in};

use crate::directory::{Directory, Page};
use crate::gap::frame_of;
use crate::page::{HALF, append, cut, put_rec, store_run};
use crate::total::{NO_SUMMARY, refresh, summary_in};
use page_pool::{PAGE, Pool};
use trend_num::Rec;

// Takes the first page, which is empty.
pub(crate) fn first_page(pool: &mut Pool, pages: &mut Directory)
    requires none { pages.old.items ≡ [] }
    requires spare { 0 < spare_of pool.old }
    requires room { 0 < pages.old.places }
    ensures pages { ArePages pool.new pages.new.items }
    ensures empty { page_records_of pool.new pages.new.items ≡ [] }
    ensures lengths { lengths_of pool.new pages.new.items ≡ 0 ∷ [] }
    ensures one { length pages.new.items ≡ 1 }
    ensures frames { spare_of pool.new + 1 ≡ spare_of pool.old }
    ensures capacity { pages.new.places ≡ pages.old.places }
{
    let id = pool.take_frame().unwrap();
    pages.push(Page {
        id,
        first: 0,
        start: 0,
        summary: NO_SUMMARY,
    });
}

// Whether the last page is full, and all records are before the time t.
pub(crate) fn is_full_before(pool: &Pool, pages: &Directory, t: u64) -> bool
    requires pages { ArePages pool.now pages.now.items }
    ensures before { IsTrue result → All (λ r. r.point.t < t) (page_records_of pool.now pages.now.items) }
    ensures full { IsTrue result → (d : Page)
        → length (page_in pool.now (slice_index_or pages.now.items (length pages.now.items - 1) d)) ≡ full_page }
    ensures room { IsFalse result → AreBefore (page_records_of pool.now pages.now.items) t → (d : Page)
        → length (page_in pool.now (slice_index_or pages.now.items (length pages.now.items - 1) d)) < full_page }
{
    let frame = frame_of(pool, pages, pages.len() - 1);
    frame.len as usize == PAGE && frame.times[PAGE - 1] < t
}

// Whether the last page has a record and room for one more, and all records are before the time t.
pub(crate) fn is_open_before(pool: &Pool, pages: &Directory, t: u64) -> bool
    requires pages { ArePages pool.now pages.now.items }
    ensures before { IsTrue result → AreBefore (page_records_of pool.now pages.now.items) t }
    ensures some { IsTrue result → (d : Page)
        → 0 < length (page_in pool.now (slice_index_or pages.now.items (length pages.now.items - 1) d)) }
    ensures room { IsTrue result → (d : Page)
        → length (page_in pool.now (slice_index_or pages.now.items (length pages.now.items - 1) d)) < full_page }
{
    let frame = frame_of(pool, pages, pages.len() - 1);
    let n = frame.len as usize;
    0 < n && n < PAGE && frame.times[n - 1] < t
}

// Puts a run of records after all others, on a page of its own. So records in order fill whole pages.
pub(crate) fn open_page(pool: &mut Pool, pages: &mut Directory, len: u32, run: &[Rec])
    requires pages { ArePages pool.old pages.old.items }
    requires counted { len ≡ length (page_records_of pool.old pages.old.items) }
    requires full { (d : Page)
        → length (page_in pool.old (slice_index_or pages.old.items (length pages.old.items - 1) d)) ≡ full_page }
    requires spare { 0 < spare_of pool.old }
    requires room { length pages.old.items < pages.old.places }
    requires some { 0 < length run.now }
    requires few { length run.now ≤ full_page }
    requires range { All (λ r. InRange r.point) run.now }
    requires rising { IsRising (page_records_of pool.old pages.old.items ++ run.now) }
    ensures pages { ArePages pool.new pages.new.items }
    ensures records { page_records_of pool.new pages.new.items ≡ page_records_of pool.old pages.old.items ++ run.now }
    ensures lengths { lengths_of pool.new pages.new.items ≡ lengths_of pool.old pages.old.items ++ length run.now ∷ [] }
    ensures frames { length pages.new.items + spare_of pool.new ≡ length pages.old.items + spare_of pool.old }
    ensures capacity { pages.new.places ≡ pages.old.places }
{
    let id = pool.take_frame().unwrap();
    let frame = pool.frame_mut(&id);
    store_run(frame, run);
    let stair = refresh(frame);
    let summary = summary_in(frame, stair);
    let start = frame.times[0];
    pages.push(Page {
        id,
        first: len,
        start,
        summary,
    });
}

// The page for a time. If it is full, it is first split.
pub(crate) fn make_room(pool: &mut Pool, pages: &mut Directory, t: u64) -> usize
    requires pages { ArePages pool.old pages.old.items }
    requires spare { 0 < spare_of pool.old }
    requires room { length pages.old.items < pages.old.places }
    requires few { length (page_records_of pool.old pages.old.items) < 2 ^ 32 }
    ensures pages { ArePages pool.new pages.new.items }
    ensures records { page_records_of pool.new pages.new.items ≡ page_records_of pool.old pages.old.items }
    ensures lengths { (lengths_of pool.new pages.new.items ≡ lengths_of pool.old pages.old.items) ⊎ IsHalved
        (lengths_of pool.old pages.old.items) (place_in (page_records_of pool.old pages.old.items) t)
        (lengths_of pool.new pages.new.items) }
    ensures frames { length pages.new.items + spare_of pool.new ≡ length pages.old.items + spare_of pool.old }
    ensures capacity { pages.new.places ≡ pages.old.places }
    ensures found { IsFor pool.new pages.new.items result t }
    ensures not_full { (d : Page) → length (page_in pool.new (slice_index_or pages.new.items result d)) < full_page }
{
    let k = pages.page_for(t);
    if (frame_of(pool, pages, k).len as usize) < PAGE {
        return k;
    }
    split(pool, pages, k);
    half_for(pages, k, t)
}

// Whichever of the page k and the next one is the page for the time t.
fn half_for(pages: &Directory, k: usize, t: u64) -> usize
    requires within { k + 1 < length pages.now.items }
    requires next { k + 1 < 2 ^ 64 }
    ensures { IsHalfFor pages.now.items k t result }
{
    if pages.start(k + 1) <= t { k + 1 } else { k }
}

// Splits a full page into two halves.
fn split(pool: &mut Pool, pages: &mut Directory, k: usize)
    requires pages { ArePages pool.old pages.old.items }
    requires spare { 0 < spare_of pool.old }
    requires room { length pages.old.items < pages.old.places }
    requires within { k < length pages.old.items }
    requires full { (d : Page) → length (page_in pool.old (slice_index_or pages.old.items k d)) ≡ full_page }
    requires few { length (page_records_of pool.old pages.old.items) < 2 ^ 32 }
    ensures pages { ArePages pool.new pages.new.items }
    ensures records { page_records_of pool.new pages.new.items ≡ page_records_of pool.old pages.old.items }
    ensures list { IsSplit pages.old.items pages.new.items k }
    ensures lengths { lengths_of pool.new pages.new.items ≡ lengths_of pool.old (take k pages.old.items)
        ++ half_page ∷ half_page ∷ lengths_of pool.old (drop (k + 1) pages.old.items) }
    ensures lower { (d : Page) → length (page_in pool.new (slice_index_or pages.new.items k d)) ≡ half_page }
    ensures upper { (d : Page) → length (page_in pool.new (slice_index_or pages.new.items (k + 1) d)) ≡ half_page }
    ensures frames { spare_of pool.new + 1 ≡ spare_of pool.old }
    ensures capacity { pages.new.places ≡ pages.old.places }
{
    let lower = pool.frame_mut(pages.id(k));
    let halves = cut(lower);
    let summary = summary_in(lower, halves.lower_stair);
    let start = pages.start(k);
    let first = pages.first(k) + HALF;
    pages.write(k, start, summary);
    let id = pool.take_frame().unwrap();
    *pool.frame_mut(&id) = halves.upper;
    let page = Page {
        id,
        first,
        start: halves.upper.times[0],
        summary: summary_in(&halves.upper, halves.upper_stair),
    };
    pages.insert(k + 1, page);
}

// Puts a record after all others on the last page, which has a record and room for one more.
pub(crate) fn put_behind(pool: &mut Pool, pages: &mut Directory, rec: Rec)
    requires pages { ArePages pool.old pages.old.items }
    requires before { AreBefore (page_records_of pool.old pages.old.items) rec.point.t }
    requires some { (d : Page)
        → 0 < length (page_in pool.old (slice_index_or pages.old.items (length pages.old.items - 1) d)) }
    requires room { (d : Page)
        → length (page_in pool.old (slice_index_or pages.old.items (length pages.old.items - 1) d)) < full_page }
    requires range { InRange rec.point }
    ensures pages { ArePages pool.new pages.new.items }
    ensures records { page_records_of pool.new pages.new.items ≡ placed rec (page_records_of pool.old pages.old.items) }
    ensures grown { length (page_records_of pool.new pages.new.items) ≡ length (page_records_of pool.old pages.old.items) + 1 }
    ensures lengths { IsGrown (lengths_of pool.old pages.old.items)
        (place_in (page_records_of pool.old pages.old.items) rec.point.t) 1 (lengths_of pool.new pages.new.items) }
    ensures pages_len { length pages.new.items ≡ length pages.old.items }
    ensures frames { spare_of pool.new ≡ spare_of pool.old }
    ensures capacity { pages.new.places ≡ pages.old.places }
{
    let last = pages.len() - 1;
    let frame = pool.frame_mut(pages.id(last));
    let stair = append(frame, pages.stair(last), rec);
    let summary = summary_in(frame, stair);
    let start = frame.times[0];
    pages.write(last, start, summary);
}

// Puts a record into page k, which is the page for its time. Returns how many records were added: 0 or 1.
pub(crate) fn put_at(pool: &mut Pool, pages: &mut Directory, k: usize, rec: Rec) -> u32
    requires pages { ArePages pool.old pages.old.items }
    requires page { IsFor pool.old pages.old.items k rec.point.t }
    requires room { (d : Page) → length (page_in pool.old (slice_index_or pages.old.items k d)) < full_page }
    requires few { length (page_records_of pool.old pages.old.items) + 1 < 2 ^ 32 }
    requires range { InRange rec.point }
    ensures pages { ArePages pool.new pages.new.items }
    ensures records { page_records_of pool.new pages.new.items ≡ placed rec (page_records_of pool.old pages.old.items) }
    ensures grown { length (page_records_of pool.new pages.new.items) ≡ length (page_records_of pool.old pages.old.items) + result }
    ensures by_one { result ≤ 1 }
    ensures lengths { IsGrown (lengths_of pool.old pages.old.items)
        (place_in (page_records_of pool.old pages.old.items) rec.point.t) result (lengths_of pool.new pages.new.items) }
    ensures pages_len { length pages.new.items ≡ length pages.old.items }
    ensures frames { spare_of pool.new ≡ spare_of pool.old }
    ensures capacity { pages.new.places ≡ pages.old.places }
{
    let frame = pool.frame_mut(pages.id(k));
    let grown = put_rec(frame, pages.stair(k), rec);
    let summary = summary_in(frame, grown.stair);
    let start = frame.times[0];
    pages.write(k, start, summary);
    pages.move_on(k, grown.by);
    grown.by
}
