// The list of a content's pages, in order of time.
ghost use Rattle.std.specs.Prelude.{◌≡◌, ◌+◌, ◌-◌, ◌^◌, ◌<◌, ◌≤◌, [], ◌∷◌, length, map, take, drop, ◌++◌, All, IfSome, slice_index_or, slice_set, insert, vec_len, vec_capacity, AllPairs, IfOk};
ghost use Rattle.late_insert.specs.declared.directory.Page.{Page};
ghost use Rattle.late_insert.specs.declared.directory.Key.TheVariants.{Place, Time};
ghost use Rattle.late_insert.specs.Totals.{IsSmall, joined_of, page_most};
ghost use Rattle.late_insert.specs.Moves.{AreBlocks, AreBlocksBut, summaries_of, IsLastUpto, begin_of, leaf_of, moved, rewritten};

use crate::total::{Summary, joined};
use page_pool::FrameId;
use std::alloc::{AllocError, Global};
use std::marker::Model;

// A page of a content: its frame, the place of its first record, that record's time, and the summary of its points.
// Summaries lie side by side here, so that a walk over whole pages reads no frame.
#[derive(Drop)]
pub(crate) struct Page {
    pub(crate) id: FrameId,
    pub(crate) first: u32,
    pub(crate) start: u64,
    pub(crate) summary: Summary,
}

// A page without its place.
#[derive(Drop)]
struct Leaf {
    id: FrameId,
    start: u64,
    summary: Summary,
}

// The list of a content's pages. A page stays where it was first put; a list of page numbers gives the order of time.
// The places are another list. So putting a page among the others moves eight bytes for each page after it. Putting a
// record in changes four bytes for each page after its own.
#[derive(Drop)]
pub(crate) struct Directory {
    leaves: Vec<Leaf>,
    order: Vec<u32>,
    firsts: Vec<u32>,
    // The summaries of the first blocks of pages in order of time. Blocks that have none are walked page by page.
    blocks: Vec<Summary>,
}

impl Model for Directory {
    ghost use Rattle.std.specs.Prelude.{◌≡◌, ◌/◌, ◌^◌, ◌<◌, vec_capacity};
    ghost use Rattle.late_insert.specs.Moves.{AreBlocks, AreOrdered, Listed, picked, placed_pages, summaries_of};

    ghost Value = { Listed };

    ghost view = { λ d. record {
      items = placed_pages (picked d.leaves.items d.order.items) d.firsts.items;
      places = vec_capacity d.leaves;
    } };

    ghost invariant = { λ d. AreOrdered d.leaves.items d.order.items d.firsts.items
        × (vec_capacity d.order ≡ vec_capacity d.leaves) × (vec_capacity d.firsts ≡ vec_capacity d.leaves)
        × (vec_capacity d.leaves < 2 ^ 32)
        × AreBlocks (summaries_of d.leaves.items d.order.items) d.blocks.items
        × (vec_capacity d.blocks ≡ vec_capacity d.leaves / 64) };
}

// The property of a page's first record by which pages are searched.
#[derive(Clone, Copy)]
enum Key {
    Time,
    Place,
}

// How many pages a block has. The summary of a block is kept, so that a walk over many pages reads one for 64.
pub(crate) const BLOCK: usize = 64;

impl Directory {
    // An empty list with room for `places` pages.
    pub(crate) fn with_capacity(alloc: Global, places: u32) -> Result<Directory, AllocError>
        ensures { IfOk result (λ d. d ≡ record { items = []; places = places }) }
    {
        let leaves = Vec::with_capacity(alloc, places as usize)?;
        let order = Vec::with_capacity(alloc, places as usize)?;
        let firsts = Vec::with_capacity(alloc, places as usize)?;
        let blocks = Vec::with_capacity(alloc, places as usize / BLOCK)?;
        Ok(Directory {
            leaves,
            order,
            firsts,
            blocks,
        })
    }

    // How many pages there are.
    pub(crate) fn len(&self) -> usize
        ensures { result ≡ length self.now.items }
    {
        self.leaves.len()
    }

    // A page without its place.
    fn leaf(&self, k: usize) -> &Leaf
        requires { k < length self.now.items }
        ensures value { (d : Page) → leaf_of (slice_index_or self.now.items k d) ≡ result.now }
        ensures next { k + 1 < 2 ^ 64 }
    {
        &self.leaves[self.order[k] as usize]
    }

    // The frame of a page.
    pub(crate) fn id(&self, k: usize) -> &FrameId
        requires { k < length self.now.items }
        ensures value { (d : Page) → (slice_index_or self.now.items k d).id ≡ result.now }
        ensures next { k + 1 < 2 ^ 64 }
    {
        &self.leaf(k).id
    }

    // The place of a page's first record.
    pub(crate) fn first(&self, k: usize) -> u32
        requires { k < length self.now.items }
        ensures { (d : Page) → (slice_index_or self.now.items k d).first ≡ result }
    {
        self.firsts[k]
    }

    // The time of a page's first record.
    pub(crate) fn start(&self, k: usize) -> u64
        requires { k < length self.now.items }
        ensures { (d : Page) → (slice_index_or self.now.items k d).start ≡ result }
    {
        self.leaf(k).start
    }

    // Twice the area under a page's stair.
    pub(crate) fn stair(&self, k: usize) -> i128
        requires { k < length self.now.items }
        ensures { (d : Page) → (slice_index_or self.now.items k d).summary.stair ≡ result }
    {
        self.leaf(k).summary.stair
    }

    // The summary of a page's points.
    pub(crate) fn summary(&self, k: usize) -> Summary
        requires { k < length self.now.items }
        ensures { (d : Page) → (slice_index_or self.now.items k d).summary ≡ result }
    {
        self.leaf(k).summary
    }

    // The time or the place at which a page begins.
    fn begin(&self, k: usize, key: Key) -> u64
        requires { k < length self.now.items }
        ensures { (d : Page) → begin_of key (slice_index_or self.now.items k d) ≡ result }
    {
        match key {
            Key::Time => self.start(k),
            Key::Place => u64::from(self.first(k)),
        }
    }

    // The last page that begins at x or before it, or the first page if there is none. The last page is tried first,
    // because records usually come in order.
    fn page_by(&self, key: Key, x: u64) -> usize
        requires some { 0 < length self.now.items }
        requires rising { AllPairs (λ p q. begin_of key p ≤ begin_of key q) self.now.items }
        ensures within { result < length self.now.items }
        ensures last { IsLastUpto key self.now.items result x }
    {
        let last = self.len() - 1;
        if self.begin(last, key) <= x {
            return last;
        }
        let mut low = 0;
        let mut high = self.len();
        while low + 1 < high {
            let middle = low + (high - low) / 2;
            if self.begin(middle, key) <= x {
                low = middle;
            } else {
                high = middle;
            }
        }
        low
    }

    // The last page that starts at the time t or before it, or the first page if there is none.
    pub(crate) fn page_for(&self, t: u64) -> usize
        requires some { 0 < length self.now.items }
        requires rising { AllPairs (λ p q. p.start ≤ q.start) self.now.items }
        ensures within { result < length self.now.items }
        ensures last { IsLastUpto Time self.now.items result t }
    {
        self.page_by(Key::Time, t)
    }

    // The last page whose first record is at the place i or before it.
    pub(crate) fn page_of(&self, i: u32) -> usize
        requires some { 0 < length self.now.items }
        requires rising { AllPairs (λ p q. p.first ≤ q.first) self.now.items }
        ensures within { result < length self.now.items }
        ensures last { IsLastUpto Place self.now.items result i }
    {
        self.page_by(Key::Place, u64::from(i))
    }

    // Puts a page after the others.
    pub(crate) fn push(&mut self, page: Page)
        requires room { length self.old.items < self.old.places }
        requires small { IsSmall page_most page.summary }
        ensures { self.new ≡ record self.old { items = self.old.items ++ page ∷ [] } }
    {
        let behind = self.len();
        self.insert(behind, page);
    }

    // Puts a page before the one at the place `at`.
    pub(crate) fn insert(&mut self, at: usize, page: Page)
        requires within { at ≤ length self.old.items }
        requires room { length self.old.items < self.old.places }
        requires small { IsSmall page_most page.summary }
        ensures { self.new ≡ record self.old { items = insert self.old.items at page } }
    {
        let Page {
            id,
            first,
            start,
            summary,
        } = page;
        put_in(&mut self.order, at, self.leaves.len() as u32);
        put_in(&mut self.firsts, at, first);
        self.leaves.push_reserved(Leaf { id, start, summary });
        self.blocks.truncate(at / BLOCK);
        self.close();
    }

    // Sets the start and the summary of a page.
    pub(crate) fn write(&mut self, k: usize, start: u64, summary: Summary)
        requires within { k < length self.old.items }
        requires small { IsSmall page_most summary }
        ensures { (d : Page) → self.new ≡ record self.old {
          items = slice_set self.old.items k (rewritten start summary (slice_index_or self.old.items k d));
        } }
    {
        let leaf = &mut self.leaves[self.order[k] as usize];
        leaf.start = start;
        leaf.summary = summary;
        renew(&mut self.blocks, &self.leaves, &self.order, k);
    }

    // Keeps the summary of one more block, if a page comes after its pages. The last page changes most often.
    fn close(&mut self)
        ensures { self.new ≡ self.old }
    {
        let start = self.blocks.len() * BLOCK;
        if start + BLOCK < self.order.len() {
            let block = joined_by(&self.leaves, &self.order[start..start + BLOCK]);
            self.blocks.push_reserved(block);
        }
    }

    // The summary of the block that begins with the page k, if it is kept.
    pub(crate) fn block(&self, k: usize) -> Option<Summary>
        ensures within { IfSome result (λ s. k + 64 ≤ length self.now.items) }
        ensures value { IfSome result (λ s. s
            ≡ joined_of (map (λ p. p.summary) (take 64 (drop k self.now.items)))) }
    {
        let block = k / BLOCK;
        if block * BLOCK != k || block >= self.blocks.len() {
            return None;
        }
        Some(self.blocks[block])
    }

    // Adds `by` to the places of the pages after the page k.
    pub(crate) fn move_on(&mut self, k: usize, by: u32)
        requires within { k < length self.old.items }
        requires small { All (λ p. p.first + by < 2 ^ 32) self.old.items }
        ensures { self.new ≡ record self.old {
          items = take (k + 1) self.old.items ++ map (moved by) (drop (k + 1) self.old.items);
        } }
    {
        move_places(&mut self.firsts, k, by);
        self.close();
    }
}

// The joined summary of the pages with these numbers.
fn joined_by(leaves: &[Leaf], order: &[u32]) -> Summary
    requires some { 0 < length order.now }
    requires few { length order.now ≤ 64 }
    requires within { All (λ i. i < length leaves.now) order.now }
    requires small { All (IsSmall page_most) (summaries_of leaves.now order.now) }
    ensures { result ≡ joined_of (summaries_of leaves.now order.now) }
{
    let mut all = leaves[order[0] as usize].summary;
    for i in 1..order.len() {
        all = joined(all, leaves[order[i] as usize].summary);
    }
    all
}

// Sums the block of the page k anew, if its summary is kept.
fn renew(blocks: &mut [Summary], leaves: &[Leaf], order: &[u32], k: usize)
    requires others { AreBlocksBut (summaries_of leaves.now order.now) blocks.old k }
    requires within { All (λ i. i < length leaves.now) order.now }
    ensures blocks { AreBlocks (summaries_of leaves.now order.now) blocks.new }
    ensures len { length blocks.new ≡ length blocks.old }
{
    let block = k / BLOCK;
    if block < blocks.len() {
        let start = block * BLOCK;
        blocks[block] = joined_by(leaves, &order[start..start + BLOCK]);
    }
}

// Moves all numbers but the last up by one, which drops the last, and puts x in front.
fn shift_in(numbers: &mut [u32], x: u32)
    requires { 0 < length numbers.old }
    ensures { numbers.new ≡ x ∷ take (length numbers.old - 1) numbers.old }
{
    let last = numbers.len() - 1;
    numbers.copy_within(0..last, 1);
    numbers[0] = x;
}

// Inserts a number into a list that has room.
fn put_in(list: &mut Vec<u32>, at: usize, x: u32)
    requires within { at ≤ vec_len list.old }
    requires room { vec_len list.old < vec_capacity list.old }
    ensures list { list.new.items ≡ insert list.old.items at x }
    ensures len { vec_len list.new ≡ vec_len list.old + 1 }
    ensures capacity { vec_capacity list.new ≡ vec_capacity list.old }
{
    list.push_reserved(x);
    shift_in(&mut list[at..], x);
}

// Adds `by` to the places after the place k.
fn move_places(places: &mut [u32], k: usize, by: u32)
    requires within { k < length places.old }
    requires small { All (λ n. n + by < 2 ^ 32) places.old }
    ensures { places.new ≡ take (k + 1) places.old ++ map (λ n. n + by) (drop (k + 1) places.old) }
{
    for place in places[k + 1..].iter_mut() {
        *place += by;
    }
}
