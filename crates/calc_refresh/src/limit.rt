// How large a sheet would be with more records, and whether that is too large.
ghost use Rattle.std.specs.Prelude.{◌≡◌, ◌+◌, ◌*◌, ◌<◌, ◌≤◌, ◌++◌, List, length, map, All, MatchResult, Some, None};
ghost use Rattle.trend_num.specs.{Rec, InRange};
ghost use Rattle.sheet_law.specs.{complete_windows, kept_end, longer};
ghost use Rattle.calc_refresh.specs.Lists.{lists_of, total_length};
ghost use Rattle.calc_refresh.specs.Refreshed.{limit_fault};
ghost use Rattle.calc_refresh.specs.Sheet.{IsCopy, IsGrid};

use crate::refusal::SheetNo;
use crate::taking::kept_end_on;
use crate::window::windows_before;
use sheet_law::Grid;
use trend_num::Rec;

// How many cells a sheet may have: complete windows times calculations.
const MOST_CELLS: u64 = 1_048_576;

// How many records all copies of a sheet may have together.
const MOST_COPIES: u64 = 2_097_152;

// Returns the time after the last Kept record, with more records.
pub(crate) fn kept_end_after(end: u64, recs: &[Rec]) -> u64
    requires { All (λ r. InRange r.point) recs.now }
    ensures { (rs : List Rec) → end ≡ kept_end rs → result ≡ kept_end (rs ++ recs.now) }
{
    let mut end = end;
    for rec in recs {
        end = kept_end_on(end, *rec);
    }
    end
}

// Returns how many windows are complete with more records. `ends` has, for each input, the time after its last Kept
// record so far.
pub(crate) fn windows_after(grid: Grid, ends: &[u64], deltas: &[Vec<Rec>]) -> u64
    requires grid { IsGrid grid }
    requires some { 1 ≤ length ends.now }
    requires inputs { length deltas.now ≡ length ends.now }
    requires copied { All IsCopy (lists_of deltas.now) }
    ensures { (rss : List (List Rec)) → ends.now ≡ map kept_end rss
        → result ≡ complete_windows grid (longer rss (lists_of deltas.now)) }
{
    let mut least = windows_before(grid, kept_end_after(ends[0], &deltas[0]));
    for i in 1..ends.len() {
        least = least.min(windows_before(grid, kept_end_after(ends[i], &deltas[i])));
    }
    least
}

// Returns how many records all copies together have, with more records.
pub(crate) fn records_after(copies: &[Vec<Rec>], deltas: &[Vec<Rec>]) -> u64
    requires inputs { length deltas.now ≡ length copies.now }
    requires few { length copies.now ≤ 64 }
    requires copied { All IsCopy (lists_of copies.now) }
    requires more { All IsCopy (lists_of deltas.now) }
    ensures { result ≡ total_length (longer (lists_of copies.now) (lists_of deltas.now)) }
{
    let mut records = 0;
    for i in 0..copies.len() {
        records += copies[i].len() as u64 + deltas[i].len() as u64;
    }
    records
}

// Refuses too many cells or records.
pub(crate) fn within_limits(cells: u64, records: u64) -> Result<(), SheetNo>
    ensures { MatchResult result (λ _. limit_fault cells records ≡ None) (λ why. limit_fault cells records ≡ Some why) }
{
    if cells > MOST_CELLS {
        return Err(SheetNo::CellLimit { cells });
    }
    if records > MOST_COPIES {
        return Err(SheetNo::CopyLimit { records });
    }
    Ok(())
}
