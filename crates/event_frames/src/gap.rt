// Gaps among flags: flags that are not set. A flag that is not there counts as set.
ghost use Rattle.std.specs.Prelude.{◌≡◌, ℕ, ◌+◌, ◌*◌, ◌/◌, ◌<◌, ◌≤◌, true, IsTrue, IfNone, IfSome, ◌↔◌, length};
ghost use Rattle.event_frames.specs.Levels.{AreSet, IsGapBefore, IsGapFrom, is_set};

// How many flags a block has.
pub(crate) const BLOCK: usize = 128;

// Returns the first gap from `start` on and before `end`.
pub(crate) fn first_gap(flags: &[bool], start: usize, end: usize) -> Option<usize>
    ensures gap { IfSome result (IsGapFrom flags.now start) }
    ensures within { IfSome result (λ gap. gap < length flags.now) }
    ensures before { IfSome result (λ gap. gap < end) }
    ensures set { IfNone result (AreSet flags.now start end) }
{
    for k in start..end.min(flags.len()) {
        if !flags[k] {
            return Some(k);
        }
    }
    None
}

// Returns the last gap before `end` and from `start` on.
pub(crate) fn last_gap(flags: &[bool], start: usize, end: usize) -> Option<usize>
    ensures gap { IfSome result (IsGapBefore flags.now end) }
    ensures within { IfSome result (λ gap. gap < length flags.now) }
    ensures from { IfSome result (λ gap. start ≤ gap) }
    ensures set { IfNone result (AreSet flags.now start end) }
{
    for k in (start..end.min(flags.len())).rev() {
        if !flags[k] {
            return Some(k);
        }
    }
    None
}

// Whether all flags of a block are set.
pub(crate) fn is_whole(flags: &[bool], block: usize) -> bool
    requires { block * 128 ≤ length flags.now }
    ensures { IsTrue result ↔ ((k : ℕ) → k / 128 ≡ block → is_set flags.now k ≡ true) }
{
    first_gap(flags, block * BLOCK, block * BLOCK + BLOCK).is_none()
}
