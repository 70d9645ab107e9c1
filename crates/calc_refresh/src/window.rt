// Windows of a grid by times: how many end before a time, and which meet a stretch.
ghost use Rattle.std.specs.Prelude.{◌≡◌, ℕ, ◌+◌, ◌≤◌, ◌&&◌, All, nat_le, nat_lt};
ghost use Rattle.trend_num.specs.{last_time};
ghost use Rattle.trend_model.specs.{IsRising};
ghost use Rattle.sheet_law.specs.{window_from, window_to, windows_before, stretch_from, stretch_to};
ghost use Rattle.calc_refresh.specs.Sheet.{IsGrid};

use late_insert::Content;
use sheet_law::Grid;

// Returns how many windows end before a time.
pub(crate) fn windows_before(grid: Grid, end: u64) -> u64
    requires { IsGrid grid }
    ensures { result ≡ windows_before grid end }
{
    end.saturating_sub(1).saturating_sub(grid.start) / grid.period
}

// Successive windows: the first of them, and the one after the last.
#[derive(Clone, Copy)]
pub(crate) struct Span {
    pub first: u64,
    pub behind: u64,
}

// Returns the windows that meet the closed stretch from one time to another.
pub(crate) fn met(grid: Grid, from: u64, to: u64) -> Span
    requires grid { IsGrid grid }
    requires from { from ≤ last_time }
    requires to { to ≤ last_time }
    ensures { (k : ℕ) → (nat_le result.first k && nat_lt k result.behind)
        ≡ (nat_le from (window_to grid k) && nat_le (window_from grid k) to) }
{
    Span {
        first: from.saturating_sub(grid.start).saturating_sub(1) / grid.period,
        behind: (to + grid.period).saturating_sub(grid.start) / grid.period,
    }
}

// Returns where the stretch of a time starts in a content: at the last point before the time, or else at the time
// itself.
pub(crate) fn stretch_from(content: &Content, t: u64) -> u64
    requires rising { IsRising content.now.records }
    ensures value { result ≡ stretch_from content.now.records t }
    ensures bound { result ≤ t }
{
    if t == 0 {
        return t;
    }
    match content.floor(t - 1) {
        Some(point) => point.t,
        None => t,
    }
}

// Returns where the stretch of a time ends in a content: at the first point after the time, or else at the time itself.
pub(crate) fn stretch_to(content: &Content, t: u64) -> u64
    requires time { t ≤ last_time }
    requires times { All (λ r. r.point.t ≤ last_time) content.now.records }
    requires rising { IsRising content.now.records }
    ensures value { result ≡ stretch_to content.now.records t }
    ensures bound { result ≤ last_time }
{
    match content.ceil(t + 1) {
        Some(point) => point.t,
        None => t,
    }
}
