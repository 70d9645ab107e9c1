// Look-ups among the records of pages: the gap for a time, and the record at a place.
ghost use Rattle.std.specs.Prelude.{◌≡◌, ◌^◌, ◌<◌, ◌≤◌, length, take, drop, ◌+◌, IfSome, count_by, nat_lt, slice_get, slice_index_or, All};
ghost use Rattle.trend_num.specs.{Rec, InRange};
ghost use Rattle.trend_model.specs.{points_of, last_point};
ghost use Rattle.late_insert.specs.Pages.{ArePages, IsPageRead, page_records_of};
ghost use Rattle.late_insert.specs.declared.directory.Page.{Page};

use crate::directory::Directory;
use crate::page::{below_in, rec_at};
use page_pool::{Frame, Pool};
use trend_num::{Point, Rec};

// The place of a time among the records of pages.
#[derive(Clone, Copy)]
pub(crate) struct Gap {
    /// The page for the time.
    pub page: usize,
    /// How many records are before the time.
    pub place: u32,
}

// The frame of a page.
pub(crate) fn frame_of<'p>(pool: &'p Pool, pages: &Directory, k: usize) -> &'p Frame
    requires pages { ArePages pool.now pages.now.items }
    requires within { k < length pages.now.items }
    ensures read { (d : Page) → IsPageRead pool.now pages.now.items k (slice_index_or pages.now.items k d) result.now }
    ensures next { k + 1 < 2 ^ 64 }
{
    pool.frame(pages.id(k))
}

// The gap for the time t: all records before it are before t, and all after it are at t or later.
pub(crate) fn gap_in(pool: &Pool, pages: &Directory, t: u64) -> Gap
    requires pages { ArePages pool.now pages.now.items }
    requires few { length (page_records_of pool.now pages.now.items) < 2 ^ 32 }
    ensures page { result.page < length pages.now.items }
    ensures bound { result.place ≤ length (page_records_of pool.now pages.now.items) }
    ensures before { All (λ r. r.point.t < t) (take result.place (page_records_of pool.now pages.now.items)) }
    ensures after { All (λ r. t ≤ r.point.t) (drop result.place (page_records_of pool.now pages.now.items)) }
{
    let k = pages.page_for(t);
    Gap {
        page: k,
        place: pages.first(k) + below_in(frame_of(pool, pages, k), t) as u32,
    }
}

// The record at a place.
pub(crate) fn rec_in(pool: &Pool, pages: &Directory, i: u32) -> Rec
    requires pages { ArePages pool.now pages.now.items }
    requires within { i < length (page_records_of pool.now pages.now.items) }
    ensures value { (d : Rec) → slice_index_or (page_records_of pool.now pages.now.items) i d ≡ result }
    ensures range { InRange result.point }
{
    let k = pages.page_of(i);
    rec_at(frame_of(pool, pages, k), (i - pages.first(k)) as usize)
}

// The record at a place. It is usually on the page k, so that page is tried before any search.
pub(crate) fn rec_near(pool: &Pool, pages: &Directory, k: usize, i: u32) -> Rec
    requires pages { ArePages pool.now pages.now.items }
    requires page { k < length pages.now.items }
    requires within { i < length (page_records_of pool.now pages.now.items) }
    ensures value { (d : Rec) → slice_index_or (page_records_of pool.now pages.now.items) i d ≡ result }
    ensures range { InRange result.point }
{
    let first = pages.first(k);
    let frame = frame_of(pool, pages, k);
    if first <= i && i - first < frame.len {
        return rec_at(frame, (i - first) as usize);
    }
    rec_in(pool, pages, i)
}

// The last point before a gap.
fn last_before(pool: &Pool, pages: &Directory, gap: Gap) -> Option<Point>
    requires pages { ArePages pool.now pages.now.items }
    requires page { gap.page < length pages.now.items }
    requires bound { gap.place ≤ length (page_records_of pool.now pages.now.items) }
    ensures value { result ≡ last_point (take gap.place (points_of (page_records_of pool.now pages.now.items))) }
    ensures range { IfSome result InRange }
{
    if gap.place == 0 {
        return None;
    }
    Some(rec_near(pool, pages, gap.page, gap.place - 1).point)
}

// The first point after a gap, among `len` records.
fn first_from(pool: &Pool, pages: &Directory, len: u32, gap: Gap) -> Option<Point>
    requires pages { ArePages pool.now pages.now.items }
    requires counted { len ≡ length (page_records_of pool.now pages.now.items) }
    requires page { gap.page < length pages.now.items }
    requires bound { gap.place ≤ length (page_records_of pool.now pages.now.items) }
    ensures value { result ≡ slice_get (points_of (page_records_of pool.now pages.now.items)) gap.place }
    ensures range { IfSome result InRange }
{
    if gap.place == len {
        return None;
    }
    Some(rec_near(pool, pages, gap.page, gap.place).point)
}

/// The points next to a time.
#[derive(Clone, Copy, Debug, PartialEq, Eq)]
pub struct Around {
    /// How many points are before the time.
    pub below: u32,
    /// How many points are at the time or before it.
    pub upto: u32,
    /// The last point before it.
    pub before: Option<Point>,
    /// The first point at the time or after it.
    pub after: Option<Point>,
}

// The points next to a time, among `len` records of pages.
pub(crate) fn around_in(pool: &Pool, pages: &Directory, len: u32, t: u64) -> Around
    requires pages { ArePages pool.now pages.now.items }
    requires counted { len ≡ length (page_records_of pool.now pages.now.items) }
    ensures below { result.below ≡ count_by (λ r. nat_lt r.point.t t) (page_records_of pool.now pages.now.items) }
    ensures upto { result.upto ≡ count_by (λ r. nat_lt r.point.t (t + 1)) (page_records_of pool.now pages.now.items) }
    ensures before { result.before ≡ last_point (take result.below (points_of (page_records_of pool.now pages.now.items))) }
    ensures after { result.after ≡ slice_get (points_of (page_records_of pool.now pages.now.items)) result.below }
    ensures before_range { IfSome result.before InRange }
    ensures after_range { IfSome result.after InRange }
{
    let gap = gap_in(pool, pages, t);
    let around = Around {
        below: gap.place,
        upto: gap.place,
        before: last_before(pool, pages, gap),
        after: first_from(pool, pages, len, gap),
    };
    match around.after {
        Some(q) if q.t == t => Around {
            upto: gap.place + 1,
            ..around
        },
        _ => around,
    }
}
