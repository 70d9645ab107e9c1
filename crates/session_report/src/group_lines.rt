// The lines of groups.
ghost use Rattle.std.specs.Prelude.{◌≡◌, [], IfOk, count_by, map, slice_index_or};
ghost use Rattle.calc_check.specs.Group.{calculation};
ghost use Rattle.calc_refresh.specs.{lists_of};
ghost use Rattle.trend_report.specs.{group_line_text};
ghost use Rattle.session_report.specs.Report.{is_refresh, last_rows, last_value, lines_of_group, windows_in};

use crate::reported::Reported;
use calc_check::CalcDef;
use group_book::{GroupHistory, Turn};
use std::alloc::Global;
use tag_base::GroupDef;
use trend_num::{CalcValue, WantOfMemory};
use trend_report::{GroupLine, LastRow, group_text};

impl Reported for GroupHistory {
    ghost use Rattle.session_report.specs.Report.{lines_of_group};

    type Def = GroupDef;

    ghost lines = { lines_of_group };

    fn lines(&self, alloc: Global, def: &GroupDef) -> Result<String, WantOfMemory> {
        let line = line_of_group(alloc, def, self)?;
        group_text(alloc, &line)
    }
}

// Makes the lines of a group. If the number of windows is no `u32`, the function returns `WantOfMemory`.
fn line_of_group(
    alloc: Global,
    def: &GroupDef,
    group: &GroupHistory,
) -> Result<GroupLine, WantOfMemory>
    ensures { IfOk result (λ line. group_line_text line ≡ lines_of_group def.now group.now) }
{
    let rows = group.rows.as_slice();
    let lasts = last_rows(alloc, def.calcs.defs(), rows)?;
    let windows = windows_in(rows);
    Ok(GroupLine {
        name: def.name,
        windows: u32::try_from(windows).map_err(|_| WantOfMemory)?,
        refreshes: refreshes_in(group.tape.as_slice()) as u64,
        evals: group.evals,
        lasts,
    })
}

// Returns how many windows the rows of a group have.
fn windows_in(rows: &[Vec<CalcValue>]) -> usize
    ensures { result ≡ windows_in (lists_of rows.now) }
{
    if rows.is_empty() { 0 } else { rows[0].len() }
}

// Returns how often a group was refreshed.
fn refreshes_in(tape: &[Turn]) -> usize
    ensures { result ≡ count_by is_refresh tape.now }
{
    tape.iter()
        .filter(|turn| matches!(turn, Turn::Refresh { .. }))
        .count()
}

// Returns the last row of each calculation.
fn last_rows(
    alloc: Global,
    defs: &[CalcDef],
    rows: &[Vec<CalcValue>],
) -> Result<Vec<LastRow>, WantOfMemory>
    ensures { IfOk result (λ lasts. lasts.items ≡ last_rows (map calculation defs.now) (lists_of rows.now)) }
{
    let mut lasts = Vec::new(alloc);
    for place in 0..defs.len() {
        let value = last_in(rows, place);
        lasts.push(LastRow {
            calc: defs[place].name,
            value,
        })?;
    }
    Ok(lasts)
}

// Returns the last value of the calculation at a place, if there is one.
fn last_in(rows: &[Vec<CalcValue>], place: usize) -> Option<CalcValue>
    ensures { result ≡ last_value (slice_index_or (lists_of rows.now) place []) }
{
    last_value(rows.get(place)?.as_slice())
}

// Returns the last of some values, if there is one.
fn last_value(values: &[CalcValue]) -> Option<CalcValue>
    ensures { result ≡ last_value values.now }
{
    values.last().copied()
}
