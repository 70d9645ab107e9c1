// The points of a content in order, in runs of points on one page.
ghost use Rattle.std.specs.Prelude.{◌≡◌, ◌+◌, ◌^◌, ◌<◌, ◌≤◌, [], ◌++◌, IfNone, IfSome, Some, length, slice_get, slice_index_or, slice_range};
ghost use Rattle.trend_num.specs.{InRange};
ghost use Rattle.trend_model.specs.{points_of, last_point, area};
ghost use Rattle.late_insert.specs.declared.directory.Page.{Page};
ghost use Rattle.late_insert.specs.Pages.{ArePages, IsBlock, page_in, page_records_of};
ghost use Rattle.late_insert.specs.Totals.{greatest_of, least_of, summary_of};

use crate::directory::{BLOCK, Directory};
use crate::gap::frame_of;
use crate::total::{Summary, summary_between};
use page_pool::Pool;
use std::marker::Model;
use trend_num::Point;

/// Points of a content that follow one another, on one page or on a block of pages. The summary of whole pages stands in
/// the list of pages.
#[derive(Drop)]
pub struct Run<'a> {
    pool: &'a Pool,
    pages: &'a Directory,
    // The place of the first point in the content, and the place after the last.
    place: u32,
    end: u32,
    summary: Summary,
}

impl<'a> Model for Run<'a> {
    ghost use Rattle.std.specs.Prelude.{List, slice_range};
    ghost use Rattle.trend_num.specs.{Point};
    ghost use Rattle.trend_model.specs.{points_of};
    ghost use Rattle.late_insert.specs.Pages.{IsRun, page_records_of};

    ghost Value = { List Point };

    ghost view = { λ r. slice_range (points_of (page_records_of r.pool.now r.pages.now.items)) r.place r.end };

    ghost invariant = { λ r. IsRun r.pool.now r.pages.now.items r.place r.end r.summary };
}

impl<'a> Run<'a> {
    /// Returns the first point.
    pub fn first(&self) -> Point
        ensures value { slice_get self.now 0 ≡ Some result }
        ensures range { InRange result }
    {
        self.summary.first
    }

    /// Returns the last point.
    pub fn last(&self) -> Point
        ensures value { last_point self.now ≡ Some result }
        ensures range { InRange result }
    {
        self.summary.last
    }

    /// Returns twice the area under the line through the points, in value units times milliseconds. If `step`, it is
    /// the area under their stair.
    pub fn area(&self, step: bool) -> i128
        ensures { result ≡ area step self.now }
    {
        if step {
            self.summary.stair
        } else {
            self.summary.line
        }
    }

    /// Returns the least value of the points, in value units.
    pub fn low(&self) -> i64
        ensures { result ≡ least_of self.now }
    {
        self.summary.low
    }

    /// Returns the greatest value of the points, in value units.
    pub fn high(&self) -> i64
        ensures { result ≡ greatest_of self.now }
    {
        self.summary.high
    }
}

// How many records a page has. Of a page with one after it this is the distance of their places, so that its frame is
// not read.
fn len_of(pool: &Pool, pages: &Directory, k: usize) -> u32
    requires pages { ArePages pool.now pages.now.items }
    requires within { k < length pages.now.items }
    ensures value { (d : Page) → length (page_in pool.now (slice_index_or pages.now.items k d)) ≡ result }
    ensures next { k + 1 < 2 ^ 64 }
{
    let frame = frame_of(pool, pages, k);
    if k + 1 < pages.len() {
        return pages.first(k + 1) - pages.first(k);
    }
    frame.len
}

// The summary of a page's points at the places from `start` to `end` on it, the latter excluded. Of a whole page it
// stands in the list of pages.
fn summary_on(pool: &Pool, pages: &Directory, k: usize, start: u32, end: u32) -> Summary
    requires pages { ArePages pool.now pages.now.items }
    requires page { k < length pages.now.items }
    requires some { start < end }
    requires within { (d : Page) → end ≤ length (page_in pool.now (slice_index_or pages.now.items k d)) }
    ensures { (d : Page) → result
        ≡ summary_of (slice_range (points_of (page_in pool.now (slice_index_or pages.now.items k d))) start end) }
{
    if end - start == len_of(pool, pages, k) {
        return pages.summary(k);
    }
    summary_between(frame_of(pool, pages, k), start as usize, end as usize)
}

// A block of pages that a walk passes at once: the place after its last point, and the summary of its points.
#[derive(Clone, Copy)]
struct Block {
    behind: u32,
    summary: Summary,
}

// The block that begins with the page k and the place `place`. `None` if its summary is not kept, if it is not before
// the place `end`, or if no page comes after it.
fn block_in(pages: &Directory, k: usize, place: u32, end: u32) -> Option<Block>
    requires { k < length pages.now.items }
    ensures block { IfSome result (λ b. IsBlock pages.now.items k place end b.behind b.summary) }
    ensures small { IfSome result (λ b. k + 64 < 2 ^ 64) }
{
    let summary = pages.block(k)?;
    if pages.len() - k <= BLOCK || pages.first(k) != place {
        return None;
    }
    let behind = pages.first(k + BLOCK);
    if behind > end {
        return None;
    }
    Some(Block { behind, summary })
}

/// Points of a content, one run at a time. The model is the list of the points that are still to come.
#[derive(Drop)]
pub struct Runs<'a> {
    pool: &'a Pool,
    pages: &'a Directory,
    // The page of the next point, that point's place in the content, and the place after the last point.
    page: usize,
    place: u32,
    end: u32,
}

impl<'a> Model for Runs<'a> {
    ghost use Rattle.std.specs.Prelude.{List, slice_range};
    ghost use Rattle.trend_num.specs.{Point};
    ghost use Rattle.trend_model.specs.{points_of};
    ghost use Rattle.late_insert.specs.Pages.{IsWalk, page_records_of};

    ghost Value = { List Point };

    ghost view = { λ w. slice_range (points_of (page_records_of w.pool.now w.pages.now.items)) w.place w.end };

    ghost invariant = { λ w. IsWalk w.pool.now w.pages.now.items w.page w.place w.end };
}

// The points of pages at the places from `first` to `behind`, the latter excluded, in runs.
pub(crate) fn runs_in<'a>(pool: &'a Pool, pages: &'a Directory, first: u32, behind: u32) -> Runs<'a>
    requires pages { ArePages pool.now pages.now.items }
    requires order { first ≤ behind }
    requires within { behind ≤ length (page_records_of pool.now pages.now.items) }
    ensures { result ≡ slice_range (points_of (page_records_of pool.now pages.now.items)) first behind }
{
    Runs {
        pool,
        pages,
        page: pages.page_of(first),
        place: first,
        end: behind,
    }
}

impl<'a> Runs<'a> {
    /// Returns the next points that are on one page, or `None` exactly if no point is left.
    pub fn next(&mut self) -> Option<Run<'a>>
        ensures front { IfSome result (λ run. self.old ≡ run ++ self.new) }
        ensures some { IfSome result (λ run. 0 < length run) }
        ensures none { IfNone result (self.old ≡ []) }
    {
        if self.place == self.end {
            return None;
        }
        if let Some(block) = block_in(self.pages, self.page, self.place, self.end) {
            let run = Run {
                pool: self.pool,
                pages: self.pages,
                place: self.place,
                end: block.behind,
                summary: block.summary,
            };
            self.place = run.end;
            self.page += BLOCK;
            return Some(run);
        }
        let first = self.pages.first(self.page);
        let start = self.place - first;
        let stop = len_of(self.pool, self.pages, self.page).min(self.end - first);
        let run = Run {
            pool: self.pool,
            pages: self.pages,
            place: self.place,
            end: first + stop,
            summary: summary_on(self.pool, self.pages, self.page, start, stop),
        };
        self.place = run.end;
        self.page += 1;
        Some(run)
    }
}
