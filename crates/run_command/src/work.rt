// What a session is compared with: the base and the plan of a plant, and the rows of their files.
ghost use Rattle.calc_refresh.specs.{lists_of};
ghost use Rattle.run_command.specs.Sessions.{planned_turn, turn_of};
ghost use Rattle.run_command.specs.Steps.{AreGivenFor};
ghost use Rattle.std.specs.Prelude.{IfOk, OnOk, length, map, slice_index, ℕ, ◌+◌, ◌<◌, ◌^◌, ◌≡◌};

use collector_pool::{Refresh, Work};
use session_audit::{rooms_of, turns_of};
use std::alloc::Global;
use tag_base::{Base, GroupDef, Refresher};
use trend_num::WantOfMemory;
use value_rows::{Query, RawRow};

// The work of a session's workers, with counts for each tag and each group.
#[derive(Drop)]
pub(crate) struct Given {
    pub(crate) work: Work,
    /// How many rows of the collectors each tag has.
    pub(crate) rooms: Vec<u32>,
    /// How many phases the session had before. At the end of each, every group was refreshed once.
    pub(crate) phases: u32,
    /// How many refreshes each group has before its last one: one for each phase before, and the turns of its
    /// refreshers.
    pub(crate) turns: Vec<u32>,
    /// The tags of each group's inputs.
    pub(crate) inputs: Vec<Vec<u32>>,
}

// Returns the work of a phase over a base: the collectors' rows, the readers' queries and the refreshers' turns.
// `phases` phases came before, in which each collector took the first `earlier` of its rows. Answers want of memory
// also in these cases: the work names other tags or groups, a point or a time is out of range, a collector has fewer
// than `earlier` rows, there are more than 2^32 - 1 workers, a tag has more than 2^32 - 1 rows, or a group has more
// than 2^32 - 2 turns.
pub(crate) fn given_of(
    alloc: Global,
    base: &Base,
    refreshers: &[Refresher],
    collectors: Vec<Vec<RawRow>>,
    readers: Vec<Vec<Query>>,
    earlier: u32,
    phases: u32,
) -> Result<Given, WantOfMemory>
    ensures given { IfOk result (AreGivenFor (length base.now.tags.items) (length base.now.groups.items)) }
    ensures earlier { IfOk result (λ g. g.work.earlier ≡ earlier) }
    ensures phases { IfOk result (λ g. g.phases ≡ phases) }
    ensures inputs { IfOk result (λ g. lists_of g.inputs.items ≡ map (λ d. d.inputs.items) base.now.groups.items) }
    ensures collectors { IfOk result (λ g. g.work.collectors ≡ collectors) }
    ensures readers { IfOk result (λ g. g.work.readers ≡ readers) }
    ensures refreshers { IfOk result (λ g. map turn_of g.work.refreshers.items ≡ map planned_turn refreshers.now) }
{
    let (tags, groups) = (base.tags.len(), base.groups.len() as u32);
    let work = Work {
        collectors,
        readers,
        refreshers: refreshers_of(alloc, refreshers)?,
        earlier,
    };
    if !work.fits(tags, groups) {
        return Err(WantOfMemory);
    }
    let rooms = rooms_of(alloc, &work.collectors, tags as u32)?;
    let mut turns = turns_of(alloc, &work.refreshers, groups)?;
    add_phases(&mut turns, phases)?;
    let inputs = inputs_of(alloc, &base.groups)?;
    Ok(Given {
        work,
        rooms,
        phases,
        turns,
        inputs,
    })
}

// Returns the turns of the refreshers.
fn refreshers_of(alloc: Global, refreshers: &[Refresher]) -> Result<Vec<Refresh>, WantOfMemory>
    ensures { IfOk result (λ list. map turn_of list.items ≡ map planned_turn refreshers.now) }
{
    let mut list = Vec::new(alloc);
    for refresher in refreshers {
        let Refresher { group, turns } = *refresher;
        list.push(Refresh { group, turns })?;
    }
    Ok(list)
}

// Adds the last refreshes of so many phases to the turns of each group. Answers want of memory if the sum of a group is
// over 2^32 - 2.
fn add_phases(turns: &mut [u32], phases: u32) -> Result<(), WantOfMemory>
    ensures as_many { length turns.new ≡ length turns.old }
    ensures added { OnOk result ((i : ℕ) → i < length turns.old
        → slice_index turns.new i ≡ phases + slice_index turns.old i) }
    ensures few { OnOk result ((i : ℕ) → i < length turns.old → slice_index turns.new i + 1 < 2 ^ 32) }
{
    for i in 0..turns.len() {
        match turns[i].checked_add(phases) {
            Some(all) if all < u32::MAX => turns[i] = all,
            _ => return Err(WantOfMemory),
        }
    }
    Ok(())
}

// Returns the tags of each group's inputs.
fn inputs_of(alloc: Global, groups: &[GroupDef]) -> Result<Vec<Vec<u32>>, WantOfMemory>
    ensures { IfOk result (λ list. lists_of list.items ≡ map (λ d. d.inputs.items) groups.now) }
{
    let mut list = Vec::new(alloc);
    for group in groups {
        list.push(tags_of(alloc, &group.inputs)?)?;
    }
    Ok(list)
}

// Returns a copy of the tags.
fn tags_of(alloc: Global, tags: &[u32]) -> Result<Vec<u32>, WantOfMemory>
    ensures { IfOk result (λ list. list.items ≡ tags.now) }
{
    Ok(Vec::from_slice(alloc, tags)?)
}
