// Records of an input as they come. The content before a record gives what it touches; then the record is put in.
ghost use Rattle.std.specs.Prelude.{◌≡◌, ℕ, ◌+◌, ◌^◌, ◌<◌, ◌≤◌, [], ◌∷◌, ◌++◌, ◌&&◌, ◌||◌, List, length, map, All, nat_le, nat_lt, slice_index_or, vec_len, vec_capacity, Vec};
ghost use Rattle.std.specs.declared.alloc.Global.{Global};
ghost use Rattle.trend_num.specs.{Rec, InRange, last_time};
ghost use Rattle.trend_model.specs.{ContentState, IsRising, listed};
ghost use Rattle.sheet_law.specs.{kept_end, window_from, window_to, any_touched, is_touched, longer, touches};
ghost use Rattle.calc_refresh.specs.Lists.{lists_of};
ghost use Rattle.calc_refresh.specs.Marks.{is_marked};
ghost use Rattle.calc_refresh.specs.Sheet.{IsCopy, IsGrid};

use crate::mark::mark;
use crate::window::{Span, met, stretch_from, stretch_to};
use late_insert::Content;
use sheet_law::Grid;
use trend_num::{Kind, Rec};

// Returns the time after the last Kept record, with one more record.
pub(crate) fn kept_end_on(end: u64, rec: Rec) -> u64
    requires { rec.point.t ≤ last_time }
    ensures { (rs : List Rec) → end ≡ kept_end rs → result ≡ kept_end (rs ++ rec ∷ []) }
{
    match rec.kind {
        Kind::Late => end,
        Kind::Kept => end.max(rec.point.t + 1),
    }
}

// Returns the windows that a record touches when it comes after records with this content. `end` is the time after the
// last Kept record of these.
fn touched(grid: Grid, content: &Content, end: u64, rec: Rec) -> Span
    requires grid { IsGrid grid }
    requires rising { IsRising content.now.records }
    requires times { All (λ r. r.point.t ≤ last_time) content.now.records }
    requires time { rec.point.t ≤ last_time }
    ensures { (rs : List Rec) (k : ℕ) → content.now.records ≡ listed rs → end ≡ kept_end rs → k < 2 ^ 32
        → (nat_le result.first k && nat_lt k result.behind) ≡ touches rs rec (window_from grid k) (window_to grid k) }
{
    match rec.kind {
        Kind::Late => met(
            grid,
            stretch_from(content, rec.point.t),
            stretch_to(content, rec.point.t),
        ),
        Kind::Kept if end <= rec.point.t => Span {
            first: 0,
            behind: 0,
        },
        Kind::Kept => Span {
            first: 0,
            behind: u64::MAX,
        },
    }
}

// Takes records of an input: marks the windows that they touch, one record after the other, and puts the records into
// its copy and its content. Returns the time after the last Kept record then.
fn take_records(
    grid: Grid,
    copy: &mut Vec<Rec>,
    content: &mut Content,
    end: u64,
    recs: &[Rec],
    marks: &mut [u32],
) -> u64
    requires grid { IsGrid grid }
    requires range { All (λ r. InRange r.point) recs.now }
    requires copied { All (λ r. InRange r.point) copy.old.items }
    requires content { content.old.records ≡ listed copy.old.items }
    requires end { end ≡ kept_end copy.old.items }
    requires spare { length recs.now ≤ content.old.spare }
    requires room { vec_len copy.old + length recs.now ≤ vec_capacity copy.old }
    requires few { length marks.old < 2 ^ 32 }
    ensures copy { copy.new.items ≡ copy.old.items ++ recs.now }
    ensures content { content.new.records ≡ listed copy.new.items }
    ensures end { result ≡ kept_end copy.new.items }
    ensures marks { (k : ℕ) → k < length marks.old
        → is_marked marks.new k
        ≡ (is_marked marks.old k || is_touched copy.old.items recs.now (window_from grid k) (window_to grid k)) }
{
    let mut end = end;
    for rec in recs {
        mark(marks, touched(grid, content, end, *rec));
        content.put(*rec);
        copy.push_reserved(*rec);
        end = kept_end_on(end, *rec);
    }
    end
}

// Takes the records of all inputs, one input after another.
pub(crate) fn take_all(
    grid: Grid,
    copies: &mut [Vec<Rec>],
    contents: &mut [Content],
    ends: &mut [u64],
    deltas: &[Vec<Rec>],
    marks: &mut [u32],
)
    requires grid { IsGrid grid }
    requires range { All IsCopy (lists_of deltas.now) }
    requires inputs { length deltas.now ≡ length copies.old }
    requires copied { All IsCopy (lists_of copies.old) }
    requires contents { map (λ c. c.records) contents.old ≡ map listed (lists_of copies.old) }
    requires ends { ends.old ≡ map kept_end (lists_of copies.old) }
    requires spare { (i : ℕ) (c : ContentState) (d : Vec Rec Global) → i < length deltas.now
        → length (slice_index_or deltas.now i d).items ≤ (slice_index_or contents.old i c).spare }
    requires room { (i : ℕ) (c d : Vec Rec Global) → i < length deltas.now
        → vec_len (slice_index_or copies.old i c) + length (slice_index_or deltas.now i d).items
        ≤ vec_capacity (slice_index_or copies.old i c) }
    requires few { length marks.old < 2 ^ 32 }
    ensures copies { lists_of copies.new ≡ longer (lists_of copies.old) (lists_of deltas.now) }
    ensures contents { map (λ c. c.records) contents.new ≡ map listed (lists_of copies.new) }
    ensures ends { ends.new ≡ map kept_end (lists_of copies.new) }
    ensures marks { (k : ℕ) → k < length marks.old
        → is_marked marks.new k
        ≡ (is_marked marks.old k
        || any_touched (lists_of copies.old) (lists_of deltas.now) (window_from grid k) (window_to grid k)) }
{
    for i in 0..deltas.len() {
        ends[i] = take_records(
            grid,
            &mut copies[i],
            &mut contents[i],
            ends[i],
            &deltas[i],
            marks,
        );
    }
}
