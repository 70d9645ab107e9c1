// Marks of windows. A mark lies at the place of a window and reaches up to another one.
ghost use Rattle.std.specs.Prelude.{◌≡◌, ℕ, ◌+◌, ◌-◌, ◌^◌, ◌<◌, ◌≤◌, ◌&&◌, ◌||◌, filter, length, nat_le, nat_lt, take, vec_capacity, vec_len};
ghost use Rattle.std.specs.List.{range_with_len};
ghost use Rattle.calc_refresh.specs.Marks.{furthest, is_marked};

use crate::window::Span;

// How many places are looked at together for a mark.
const BLOCK: usize = 512;

// Marks the windows of a span, with a single write for any number of windows.
pub(crate) fn mark(marks: &mut [u32], span: Span)
    requires { length marks.old < 2 ^ 32 }
    ensures { (k : ℕ) → k < length marks.old
        → is_marked marks.new k ≡ (is_marked marks.old k || (nat_le span.first k && nat_lt k span.behind)) }
{
    let first = span.first as usize;
    if first < marks.len() {
        let behind = span.behind.min(u64::from(u32::MAX)) as u32;
        marks[first] = marks[first].max(behind);
    }
}

// Lists the windows that are marked, in rising order.
pub(crate) fn list_marked(marks: &[u32], listed: &mut Vec<u32>)
    requires few { length marks.now < 2 ^ 32 }
    requires room { length marks.now ≤ vec_capacity listed.old }
    ensures { listed.new.items ≡ filter (is_marked marks.now) (range_with_len 0 (length marks.now)) }
{
    listed.clear();
    let mut reach = 0;
    let mut from = 0;
    while from < marks.len() {
        let to = marks.len().min(from + BLOCK);
        if from < reach as usize || furthest(&marks[from..to]) != 0 {
            reach = add_marked(marks, from, to, reach, listed);
        }
        from = to;
    }
}

// Adds the marked windows from one place to another. `reach` says how far the marks before reach. Returns how far the
// marks reach then.
fn add_marked(marks: &[u32], from: usize, to: usize, reach: u32, listed: &mut Vec<u32>) -> u32
    requires rises { from ≤ to }
    requires within { to ≤ length marks.now }
    requires few { to < 2 ^ 32 }
    requires reach { reach ≡ furthest (take from marks.now) }
    requires listed { listed.old.items ≡ filter (is_marked marks.now) (range_with_len 0 from) }
    requires room { vec_len listed.old + (to - from) ≤ vec_capacity listed.old }
    ensures reach { result ≡ furthest (take to marks.now) }
    ensures listed { listed.new.items ≡ filter (is_marked marks.now) (range_with_len 0 to) }
    ensures capacity { vec_capacity listed.new ≡ vec_capacity listed.old }
{
    let mut reach = reach;
    for k in from..to {
        reach = marks[k].max(reach);
        if k < reach as usize {
            listed.push_reserved(k as u32);
        }
    }
    reach
}

// Returns how far the furthest of these marks reaches, or 0 if no place has a mark.
fn furthest(marks: &[u32]) -> u32
    ensures { result ≡ furthest marks.now }
{
    let mut reach = 0u32;
    for mark in marks {
        reach = reach.max(*mark);
    }
    reach
}
