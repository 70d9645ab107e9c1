// The records of a page, in its frame.
ghost use Rattle.std.specs.Prelude.{◌≡◌, ℕ, ◌+◌, ◌<◌, ◌≤◌, true, slice_index, length, ◌++◌, ◌∷◌, [], insert, slice_set, take, drop, All};
ghost use Rattle.trend_num.specs.{InRange};
ghost use Rattle.trend_model.specs.{IsRising, over, placed, points_of, area};
ghost use Rattle.page_pool.specs.{full_page};
ghost use Rattle.late_insert.specs.Pages.{IsPage, IsRecorded, half_page, rec_in, frame_records_in};

use crate::array::{count_below, insert_at, rotate};
use crate::mark::{kind_at, mark_inserted, mark_put};
use crate::total::{piece, point_at, refresh};
use page_pool::{Frame, PAGE};
use trend_num::{Kind, Rec};

// Half the number of records that a page has room for.
pub(crate) const HALF: u32 = PAGE as u32 / 2;

// The marks of the lower half of a page.
const LOWER_MARKS: u128 = (1 << HALF) - 1;

// How many of the first records rise in time and fit on one page.
pub(crate) fn run_len(recs: &[Rec]) -> usize
    requires some { 0 < length recs.now }
    ensures some { 0 < result }
    ensures within { result ≤ length recs.now }
    ensures few { result ≤ full_page }
    ensures rising { IsRising (take result recs.now) }
{
    let most = recs.len().min(PAGE);
    for i in 1..most {
        if recs[i].point.t <= recs[i - 1].point.t {
            return i;
        }
    }
    most
}

// How many records of a page are before t.
pub(crate) fn below_in(frame: &Frame, t: u64) -> usize
    requires recorded { IsRecorded frame.now }
    requires rising { IsRising (frame_records_in frame.now) }
    ensures bound { result ≤ frame.now.len }
    ensures before { (k : ℕ) → k < result → slice_index frame.now.times k < t }
    ensures after { (k : ℕ) → result ≤ k → k < frame.now.len → t ≤ slice_index frame.now.times k }
{
    let n = frame.len as usize;
    if n == 0 || frame.times[n - 1] < t {
        return n;
    }
    count_below(&frame.times[..n], t)
}

// The record at a place of a page.
pub(crate) fn rec_at(frame: &Frame, i: usize) -> Rec
    requires recorded { IsRecorded frame.now }
    requires within { i < frame.now.len }
    ensures value { result ≡ rec_in frame.now i }
    ensures range { InRange result.point }
{
    Rec {
        kind: kind_at(frame.late, i),
        point: point_at(frame, i),
    }
}

// Puts a record after the others of a page, and adds it to the totals. Takes and returns twice the area under the
// page's stair.
pub(crate) fn append(frame: &mut Frame, stair: i128, rec: Rec) -> i128
    requires page { IsPage frame.old }
    requires some { 0 < frame.old.len }
    requires room { frame.old.len < full_page }
    requires stair { stair ≡ area true (points_of (frame_records_in frame.old)) }
    requires range { InRange rec.point }
    ensures page { IsPage frame.new }
    ensures records { frame_records_in frame.new ≡ frame_records_in frame.old ++ rec ∷ [] }
    ensures stair { result ≡ area true (points_of (frame_records_in frame.new)) }
{
    let last = point_at(frame, frame.len as usize - 1);
    store_behind(frame, rec);
    frame.area += piece(false, last, rec.point);
    frame.low = frame.low.min(rec.point.v);
    frame.high = frame.high.max(rec.point.v);
    stair + piece(true, last, rec.point)
}

// Stores a record after the others of a page. The totals stay as they were.
fn store_behind(frame: &mut Frame, rec: Rec)
    requires recorded { IsRecorded frame.old }
    requires room { frame.old.len < full_page }
    requires range { InRange rec.point }
    ensures recorded { IsRecorded frame.new }
    ensures records { frame_records_in frame.new ≡ frame_records_in frame.old ++ rec ∷ [] }
    ensures area { frame.new.area ≡ frame.old.area }
    ensures low { frame.new.low ≡ frame.old.low }
    ensures high { frame.new.high ≡ frame.old.high }
{
    let n = frame.len as usize;
    frame.times[n] = rec.point.t;
    frame.values[n] = rec.point.v;
    // Most records are Kept, and need no mark.
    match rec.kind {
        Kind::Kept => {}
        Kind::Late => frame.late = mark_put(frame.late, n + 1, n, Kind::Late),
    }
    frame.len += 1;
}

// Stores a record at the place i of a page. The totals stay as they were.
fn store(frame: &mut Frame, i: usize, rec: Rec)
    requires recorded { IsRecorded frame.old }
    requires room { frame.old.len < full_page }
    requires within { i ≤ frame.old.len }
    requires range { InRange rec.point }
    ensures recorded { IsRecorded frame.new }
    ensures records { frame_records_in frame.new ≡ insert (frame_records_in frame.old) i rec }
    ensures area { frame.new.area ≡ frame.old.area }
    ensures low { frame.new.low ≡ frame.old.low }
    ensures high { frame.new.high ≡ frame.old.high }
{
    let n = frame.len as usize;
    insert_at(&mut frame.times, n, i, rec.point.t);
    insert_at(&mut frame.values, n, i, rec.point.v);
    frame.late = mark_inserted(frame.late, n, i, rec.kind);
    frame.len += 1;
}

// Replaces all records of a page with these. The totals stay as they were.
pub(crate) fn store_run(frame: &mut Frame, run: &[Rec])
    requires recorded { IsRecorded frame.old }
    requires few { length run.now ≤ full_page }
    requires range { All (λ r. InRange r.point) run.now }
    ensures recorded { IsRecorded frame.new }
    ensures records { frame_records_in frame.new ≡ run.now }
{
    frame.late = 0;
    for i in 0..run.len() {
        let rec = run[i];
        frame.times[i] = rec.point.t;
        frame.values[i] = rec.point.v;
        // Most records are Kept, and need no mark.
        match rec.kind {
            Kind::Kept => {}
            Kind::Late => frame.late = mark_put(frame.late, i + 1, i, Kind::Late),
        }
    }
    frame.len = run.len() as u32;
}

// Which of two records at the same time remains: the newer one, but a Kept one does not replace a Late one.
fn over(rec: Rec, old: Rec) -> Rec
    requires same { rec.point.t ≡ old.point.t }
    requires new_range { InRange rec.point }
    requires old_range { InRange old.point }
    ensures value { result ≡ over rec old }
    ensures time { result.point.t ≡ old.point.t }
    ensures range { InRange result.point }
{
    match (old.kind, rec.kind) {
        (Kind::Late, Kind::Kept) => old,
        _ => rec,
    }
}

// Puts a record in place of the one at its time, if it may replace it. Returns twice the area under the page's stair.
fn replace(frame: &mut Frame, i: usize, rec: Rec) -> i128
    requires page { IsPage frame.old }
    requires within { i < frame.old.len }
    requires same { rec.point.t ≡ slice_index frame.old.times i }
    requires range { InRange rec.point }
    ensures page { IsPage frame.new }
    ensures records { frame_records_in frame.new ≡ slice_set (frame_records_in frame.old) i (over rec (rec_in frame.old i)) }
    ensures stair { result ≡ area true (points_of (frame_records_in frame.new)) }
{
    let now = over(rec, rec_at(frame, i));
    frame.values[i] = now.point.v;
    frame.late = mark_put(frame.late, frame.len as usize, i, now.kind);
    refresh(frame)
}

// Puts a record after the others of a page, which may have none. Takes and returns twice the area under the page's
// stair.
pub(crate) fn push(frame: &mut Frame, stair: i128, rec: Rec) -> i128
    requires page { IsPage frame.old }
    requires room { frame.old.len < full_page }
    requires stair { stair ≡ area true (points_of (frame_records_in frame.old)) }
    requires range { InRange rec.point }
    ensures page { IsPage frame.new }
    ensures records { frame_records_in frame.new ≡ frame_records_in frame.old ++ rec ∷ [] }
    ensures stair { result ≡ area true (points_of (frame_records_in frame.new)) }
{
    if frame.len > 0 {
        return append(frame, stair, rec);
    }
    store_behind(frame, rec);
    refresh(frame)
}

// How a put changes a page.
#[derive(Clone, Copy)]
pub(crate) struct Grown {
    /// By how many records it grew.
    pub by: u32,
    /// Twice the area under its stair.
    pub stair: i128,
}

// Puts a record into a page that is not full. `stair` is twice the area under the page's stair before.
pub(crate) fn put_rec(frame: &mut Frame, stair: i128, rec: Rec) -> Grown
    requires page { IsPage frame.old }
    requires rising { IsRising (frame_records_in frame.old) }
    requires room { frame.old.len < full_page }
    requires stair { stair ≡ area true (points_of (frame_records_in frame.old)) }
    requires range { InRange rec.point }
    ensures page { IsPage frame.new }
    ensures records { frame_records_in frame.new ≡ placed rec (frame_records_in frame.old) }
    ensures grown { frame.new.len ≡ frame.old.len + result.by }
    ensures by_one { result.by ≤ 1 }
    ensures stair { result.stair ≡ area true (points_of (frame_records_in frame.new)) }
{
    let i = below_in(frame, rec.point.t);
    if i == frame.len as usize {
        let stair = push(frame, stair, rec);
        return Grown { by: 1, stair };
    }
    if frame.times[i] == rec.point.t {
        let stair = replace(frame, i, rec);
        return Grown { by: 0, stair };
    }
    store(frame, i, rec);
    let stair = refresh(frame);
    Grown { by: 1, stair }
}

// The upper half of a page that was cut in two, and twice the areas under the stairs of both halves.
#[derive(Drop)]
pub(crate) struct Halves {
    pub upper: Frame,
    pub upper_stair: i128,
    pub lower_stair: i128,
}

// Takes the upper half of a full page out of it.
pub(crate) fn cut(frame: &mut Frame) -> Halves
    requires page { IsPage frame.old }
    requires full { frame.old.len ≡ full_page }
    ensures lower { IsPage frame.new }
    ensures upper { IsPage result.upper }
    ensures lower_records { frame_records_in frame.new ≡ take half_page (frame_records_in frame.old) }
    ensures upper_records { frame_records_in result.upper ≡ drop half_page (frame_records_in frame.old) }
    ensures lower_stair { result.lower_stair ≡ area true (points_of (frame_records_in frame.new)) }
    ensures upper_stair { result.upper_stair ≡ area true (points_of (frame_records_in result.upper)) }
    ensures lower_len { frame.new.len ≡ half_page }
    ensures upper_len { result.upper.len ≡ half_page }
{
    let mut upper = *frame;
    rotate(&mut upper.times, HALF as usize);
    rotate(&mut upper.values, HALF as usize);
    upper.late = frame.late >> HALF;
    upper.len = HALF;
    let upper_stair = refresh(&mut upper);
    frame.late &= LOWER_MARKS;
    frame.len = HALF;
    let lower_stair = refresh(frame);
    Halves {
        upper,
        upper_stair,
        lower_stair,
    }
}
