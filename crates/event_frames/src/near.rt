// The frames near changed windows.
ghost use Rattle.std.specs.Prelude.{◌≡◌, ℕ, ◌+◌, ◌*◌, ◌^◌, ◌<◌, ◌≤◌, [], ◌++◌, All, IfSome, OnOk, Some, false, length, vec_len, vec_capacity};
ghost use Rattle.std.specs.Option.{option_to_list};
ghost use Rattle.event_frames.specs.declared.frame.Frame.{Frame};
ghost use Rattle.event_frames.specs.Frames.{AreFrames, IsFrame, IsListOf};
ghost use Rattle.event_frames.specs.Levels.{IsBehind};
ghost use Rattle.event_frames.specs.Near.{IsNear, IsNearOne};
ghost use Rattle.event_frames.specs.Row.{AreRising, is_true_in};

use crate::frame::{Change, Frame};
use crate::levels::Levels;
use std::alloc::AllocError;

// Returns the frame of the windows from `at` on and before `behind`, if there are at least `least`. The calculation is
// true in all of them. It is not true in the window before them, nor in the window after them.
fn frame_between(levels: &Levels, least: u32, at: usize, behind: usize) -> Option<Frame>
    requires some { 1 ≤ least }
    requires first { (j : ℕ) → j + 1 ≡ at → is_true_in levels.now.truths j ≡ false }
    requires behind { IsBehind levels.now.truths at behind }
    ensures frame { IfSome result (IsFrame levels.now.truths least) }
    ensures at { IfSome result (λ f. f.from ≡ at) }
    ensures all { (f : Frame) → IsFrame levels.now.truths least f → f.from ≡ at → result ≡ Some f }
{
    let long = behind - at;
    if long < least as usize {
        return None;
    }
    Some(Frame {
        from: at as u64,
        upto: behind as u64 - 1,
        last: behind == levels.len(),
    })
}

// Returns the frame that begins in the window `at`, if there is one and it ends right before the window `k` or later.
fn frame_at(levels: &Levels, least: u32, at: usize, k: u64) -> Option<Frame>
    requires some { 1 ≤ least }
    ensures frame { IfSome result (IsFrame levels.now.truths least) }
    ensures near { IfSome result (λ f. k ≤ f.upto + 1) }
    ensures at { IfSome result (λ f. f.from ≡ at) }
    ensures all { (f : Frame) → IsFrame levels.now.truths least f → k ≤ f.upto + 1 → f.from ≡ at → result ≡ Some f }
{
    if !levels.is_first(at) {
        return None;
    }
    let frame = frame_between(levels, least, at, levels.behind(at))?;
    if k <= frame.upto + 1 {
        Some(frame)
    } else {
        None
    }
}

// Returns the frame that is near the window `k` and begins there or before it, if there is one that begins at `seen` or
// later.
fn frame_before(levels: &Levels, least: u32, k: u64, seen: u64) -> Option<Frame>
    requires some { 1 ≤ least }
    ensures frame { IfSome result (IsFrame levels.now.truths least) }
    ensures near { IfSome result (IsNear k) }
    ensures from { IfSome result (λ f. seen ≤ f.from) }
    ensures upto { IfSome result (λ f. f.from ≤ k) }
    ensures all { (f : Frame) → IsFrame levels.now.truths least f → IsNear k f → seen ≤ f.from → f.from ≤ k → result ≡ Some f }
{
    let start = levels.start(k as usize);
    if seen <= start as u64 {
        frame_at(levels, least, start, k)
    } else {
        None
    }
}

// Appends a frame, if there is one.
fn push_some(frames: &mut Vec<Frame>, frame: Option<Frame>)
    requires { vec_len frames.old < vec_capacity frames.old }
    ensures items { frames.new.items ≡ frames.old.items ++ option_to_list frame }
    ensures more { vec_len frames.new ≤ vec_len frames.old + 1 }
    ensures capacity { vec_capacity frames.new ≡ vec_capacity frames.old }
{
    if let Some(frame) = frame {
        frames.push_reserved(frame);
    }
}

// Lists the frames that are near a change.
pub(crate) fn push_near(levels: &Levels, least: u32, changes: &[Change], frames: &mut Vec<Frame>)
    requires some { 1 ≤ least }
    requires rising { AreRising changes.now }
    requires bound { All (λ c. c.k + 2 < 2 ^ 64) changes.now }
    requires empty { frames.old.items ≡ [] }
    requires room { 2 * length changes.now ≤ vec_capacity frames.old }
    ensures frames { IsListOf (λ f. IsFrame levels.now.truths least f × IsNearOne changes.now (length changes.now) f) frames.new.items }
    ensures few { vec_len frames.new ≤ 2 * length changes.now }
{
    let mut seen = 0;
    for change in changes {
        let k = change.k;
        push_some(frames, frame_before(levels, least, k, seen));
        push_some(frames, frame_at(levels, least, k as usize + 1, k));
        seen = k + 2;
    }
}

// Lists all frames.
pub(crate) fn push_all(
    levels: &Levels,
    least: u32,
    frames: &mut Vec<Frame>,
) -> Result<(), AllocError>
    requires some { 1 ≤ least }
    requires empty { frames.old.items ≡ [] }
    ensures { OnOk result (AreFrames levels.now.truths least frames.new.items) }
{
    let mut at = 0;
    while at < levels.len() {
        let behind = levels.behind(at);
        frames.reserve(1)?;
        push_some(frames, frame_between(levels, least, at, behind));
        at = behind + 1;
    }
    Ok(())
}
