// What a session makes up after its workers have ended: the rows and questions that a tape lacks, and commits.
ghost use Rattle.std.specs.Prelude.{◌≡◌, length};
ghost use Rattle.collector_pool.specs.{IsWorkOf};

use crate::cells::{filled, same, tag};
use crate::workers::{letters, rows_of};
use collector_pool::Work;
use disk_model::MemDisk;
use plant_status::Seen;
use session_audit::{
    Kept, Opened, Status, ask_missing, collectors_of, commit_cells, compare_first_pulls,
    find_all_asks, find_all_takes, readers_of, rooms_of, take_missing,
};
use std::alloc::Global;
use std::sync::Wait;
use std::test::Fail;
use tag_cell::{Cell, TagOpening};
use trend_num::{Point, TagQuery};
use value_rows::Query;

// Returns the work of collectors, whose rows are separated by `;`, and of a reader. The reader asks for the value at 5,
// and for a snapshot.
fn work_of(alloc: Global, files: &str) -> Option<Work> {
    let mut collectors = Vec::new(alloc);
    for rows in files.split(';') {
        collectors.push(rows_of(alloc, rows)?).ok()?;
    }
    let query = TagQuery::At { t: 5 };
    let queries = [Query::Tag { tag: 0, query }, Query::Snap { tag: 0 }];
    let mut readers = Vec::new(alloc);
    readers.push(Vec::from_slice(alloc, &queries).ok()?).ok()?;
    Some(Work {
        collectors,
        readers,
        refreshers: Vec::new(alloc),
        earlier: 0,
    })
}

// Does what the tape of the one cell lacks.
#[tactic(auto, using(session_audit::proofs::Files::known_asks_of))]
fn make_up(
    rt: &impl Wait,
    alloc: Global,
    cells: &mut [Cell<MemDisk>],
    work: &Work,
) -> Result<(), Status>
    requires one { length cells.old ≡ 1 }
    requires work { IsWorkOf 1 0 work.now }
{
    let Ok(mut takes) = collectors_of(alloc, &work.collectors, 0, 1) else {
        return Err(Status::WantOfMemory);
    };
    let Ok(rooms) = rooms_of(alloc, &work.collectors, 1) else {
        return Err(Status::WantOfMemory);
    };
    let Ok(mut asks) = readers_of(alloc, &work.readers, 1) else {
        return Err(Status::WantOfMemory);
    };
    find_all_takes(cells, &mut takes)?;
    find_all_asks(cells, &mut asks)?;
    take_missing(rt, cells, &work.collectors, 0, &rooms, &mut takes)?;
    let Ok(()) = ask_missing(cells, &work.readers, &mut asks) else {
        return Err(Status::WantOfMemory);
    };
    commit_cells(cells)
}

// Returns a cell with room for so many takes that has taken the first row of collector 0, `0,0`.
fn begun(rt: &impl Wait, alloc: Global, room: u32) -> Option<Cell<MemDisk>> {
    filled(rt, alloc, false, 64, room, "0,0")
}

// Makes up what a begun cell lacks of these files. Returns what its tape has then, or why it is refused.
fn made_up(rt: &impl Wait, alloc: Global, room: u32, files: &str) -> Option<String> {
    let work = work_of(alloc, files)?;
    if !work.fits(1, 0) {
        return None;
    }
    let mut cells = Vec::new(alloc);
    cells.push(begun(rt, alloc, room)?).ok()?;
    if let Err(why) = make_up(rt, alloc, cells.as_mut_slice(), &work) {
        return format!(in alloc; "{why:?}").ok();
    }
    let (_, history) = cells.pop()?.into_history();
    letters(alloc, &history)
}

#[test]
fn what_the_workers_left_is_made_up(rt: HostRuntime) -> Result<(), Fail> {
    let told = made_up(&rt, rt.alloc(), 3, "0,0 20,0;10,5").ok_or("memory")?;
    same(&rt, told.as_str(), "tttac");
    Ok(())
}

#[test]
fn a_take_of_no_row_is_a_mismatch(rt: HostRuntime) -> Result<(), Fail> {
    let told = made_up(&rt, rt.alloc(), 3, "1,0 20,0;10,5").ok_or("memory")?;
    let kept = "Take { collector: 0, row: 1, point: Point { t: 0, v: 0 } }";
    let row = "Take { collector: 0, row: 1, point: Point { t: 1, v: 0 } }";
    let place = "Take { tag: 0, place: 0 }";
    let mismatch = format!(in rt.alloc();
        "Mismatch {{ place: {place}, kept: {kept}, told: {row} }}"
    )?;
    same(&rt, told.as_str(), mismatch.as_str());
    Ok(())
}

#[test]
fn too_little_room_is_a_mismatch_at_the_takes(rt: HostRuntime) -> Result<(), Fail> {
    let told = made_up(&rt, rt.alloc(), 2, "0,0 20,0;10,5").ok_or("memory")?;
    let mismatch = "Mismatch { place: Takes { tag: 0 }, kept: Number(2), told: Number(3) }";
    same(&rt, told.as_str(), mismatch);
    Ok(())
}

#[test]
fn what_was_acknowledged_at_the_first_pull_is_compared(rt: HostRuntime) -> Result<(), Fail> {
    let alloc = rt.alloc();
    let mut cell = begun(&rt, alloc, 2).ok_or("refused")?;
    cell.commit().ok().ok_or("commit")?;
    let point = Point { t: 1, v: 0 };
    cell.take(&rt, 0, 2, point).ok().ok_or("take")?;
    cell.pull(0, 0).ok().ok_or("pull")?;
    cell.commit().ok().ok_or("commit")?;
    let mut cells = Vec::new(alloc);
    cells.push(cell)?;
    compare_first_pulls(&cells, &[1]).ok().ok_or("one take")?;
    let told = compare_first_pulls(&cells, &[2]).err().ok_or("same")?;
    let mismatch = "Mismatch { place: Takes { tag: 0 }, kept: Number(1), told: Number(2) }";
    same(&rt, format!(in alloc; "{told:?}")?.as_str(), mismatch);
    Ok(())
}

#[test]
fn an_opening_is_compared_with_what_was_kept(rt: HostRuntime) -> Result<(), Fail> {
    let cell = begun(&rt, rt.alloc(), 2).ok_or("refused")?;
    let opening = TagOpening {
        recs: Vec::new(rt.alloc()),
        summary: cell.opening().summary,
        moment: cell.opening().moment,
        faults: 7,
    };
    let def = tag(false, 0).ok_or("name")?;
    let known = Kept { def, opening };
    let differs = cell.compare(&known).err().ok_or("same")?;
    assert!(rt; differs.kept == Seen::Number(0));
    assert!(rt; differs.told == Seen::Number(7));
    Ok(())
}
