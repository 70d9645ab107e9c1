// A refresher: it makes the turns of its group.
ghost use Rattle.std.specs.Prelude.{◌≡◌, ◌<◌};
ghost use Rattle.collector_pool.specs.Notes.{EndsRefresher, IsRefresherNote, halts};

use crate::group_turns::GroupTurns;
use crate::note::{Ending, WorkerNote, ending_of_turn};
use crate::work::Refresh;
use disk_model::Disk;
use plant_status::Pass;
use std::alloc::Global;
use std::sync::{Mutex, Wait};
use tag_cell::Cell;

// Does the work of a refresher, and returns its note.
pub(crate) fn refresh<R: Wait, D: Disk, G: GroupTurns<D>, O: Pass>(
    rt: &R,
    alloc: Global,
    cells: &[Mutex<Cell<D>>],
    groups: &G,
    worker: u32,
    refresh: Refresh,
    pass: &mut O,
) -> WorkerNote
    requires group { refresh.group < G.groups groups.now }
    requires fresh { O.stops pass.old ≡ 0 }
    ensures worker { result.worker ≡ worker }
    ensures note { IsRefresherNote (G.Refuses groups.now) refresh result }
    ensures stops { O.stops pass.new ≡ halts result.ending }
{
    let mut note = WorkerNote::new(alloc, worker);
    (note.steps, note.ending) = make_turns(rt, cells, groups, refresh, pass);
    note
}

// Makes the turns, and returns how many were made and how the refresher ends.
fn make_turns<R: Wait, D: Disk, G: GroupTurns<D>, O: Pass>(
    rt: &R,
    cells: &[Mutex<Cell<D>>],
    groups: &G,
    refresh: Refresh,
    pass: &mut O,
) -> (u64, Ending)
    requires group { refresh.group < G.groups groups.now }
    requires fresh { O.stops pass.old ≡ 0 }
    ensures ending { EndsRefresher (G.Refuses groups.now) refresh result.0 result.1 }
    ensures stops { O.stops pass.new ≡ halts result.1 }
{
    for turn in 0..refresh.turns {
        let made = u64::from(turn);
        if !pass.pass(made) {
            return (made, Ending::Halted);
        }
        if let Err(no) = groups.refresh(rt, refresh.group, cells) {
            return (made, ending_of_turn(refresh.group, no));
        }
    }
    (u64::from(refresh.turns), Ending::Ended)
}
