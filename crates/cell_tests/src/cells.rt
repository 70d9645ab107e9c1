// Cells on devices in memory: their values, refusals, and a crash after each call.

use disk_model::{Disk, MemDisk, Pick};
use interp_read::Reply;
use std::alloc::Global;
use std::process::Abort;
use std::sync::{Arc, Mutex, Wait};
use std::test::Fail;
use std::thread::{Threads, join};
use tag_cell::{Acked, Cell, CommitNo, Entry, PullNo, TakeNo, open_cell};
use test_rig::lone_board;
use trend_num::{
    Kind, Measure, Point, Reading, Rec, TagDef, TagQuery, Tuning, in_range, name_from,
};

// Returns a tag with this CompDev, of steps or of lines. It sends each value that differs from the one sent before.
pub(crate) fn tag(step: bool, comp_dev: u64) -> Option<TagDef> {
    let tuning = Tuning {
        exc_dev: 0,
        exc_max: 1_000_000,
        comp_dev,
        comp_min: 0,
        comp_max: 1_000_000,
    };
    Some(TagDef {
        name: name_from(b"T1")?,
        tuning,
        step,
    })
}

// Opens a cell on this device. Returns `None` if it is refused, or if the tuning or `slots` is out of range.
fn opened(
    rt: &impl Wait,
    alloc: Global,
    mut dev: MemDisk,
    def: &TagDef,
    slots: u32,
    room: u32,
) -> Option<Cell<MemDisk>> {
    let (board, poster, _) = lone_board(rt, alloc, 0).ok()?;
    let board = Arc::new(alloc, board).ok()?;
    if !trend_num::tuning_ok(&def.tuning) || slots < 1 || slots > 64 {
        return None;
    }
    dev.forget_name();
    open_cell(rt, alloc, dev, def, slots, room, board, poster).ok()
}

// Takes the values of a text such as `0,0 10,10`, as rows of collector 0. The rows count from 1.
fn take_all(rt: &impl Wait, cell: &mut Cell<MemDisk>, values: &str) -> Option<()> {
    for (row, value) in values.split(' ').enumerate() {
        let (t, v) = value.split_once(',')?;
        let p = Point {
            t: t.parse().ok()?,
            v: v.parse().ok()?,
        };
        if !in_range(p) {
            return None;
        }
        cell.take(rt, 0, (row as u64).saturating_add(1), p).ok()?;
    }
    Some(())
}

// Returns a cell on a new device that has taken these values: one of a step tag, or one of lines that keeps each bend.
pub(crate) fn filled(
    rt: &impl Wait,
    alloc: Global,
    step: bool,
    slots: u32,
    room: u32,
    values: &str,
) -> Option<Cell<MemDisk>> {
    let def = tag(step, if step { 2 } else { 0 })?;
    let dev = MemDisk::new(Vec::new(alloc), Vec::new(alloc));
    let mut cell = opened(rt, alloc, dev, &def, slots, room)?;
    take_all(rt, &mut cell, values)?;
    Some(cell)
}

// Commits, and returns what is acknowledged.
fn commit(cell: &mut Cell<MemDisk>) -> Result<Acked, CommitNo> {
    cell.commit()
}

// Returns an answer in which so many values are acknowledged, and none waits.
fn all_of(acked: u64) -> Result<Acked, CommitNo> {
    Ok(Acked { acked, waiting: 0 })
}

// Returns why a cell refuses a value.
fn refusal(rt: &impl Wait, cell: &mut Cell<MemDisk>, row: u64, t: u64, v: i64) -> Option<TakeNo> {
    let p = Point { t, v };
    if !in_range(p) {
        return None;
    }
    cell.take(rt, 0, row, p).err()
}

// Returns why a cell hands out no records from a place on.
fn ahead(cell: &mut Cell<MemDisk>, from: u32) -> Option<PullNo> {
    cell.pull(0, from).err()
}

// Returns whether a cell hands out exactly these records from its first place on.
fn pulls(cell: &mut Cell<MemDisk>, recs: &[Rec]) -> bool {
    match cell.pull(0, 0) {
        Ok(pulled) => pulled.recs.as_slice() == recs,
        Err(_) => false,
    }
}

// Returns what a cell reads at a time.
fn reading(cell: &mut Cell<MemDisk>, t: u64) -> Option<Reading> {
    if t > trend_num::MAX_T {
        return None;
    }
    match cell.ask(0, 1, TagQuery::At { t }).ok()?.1 {
        Reply::At(reading) => Some(reading),
        _ => None,
    }
}

// Returns what a cell measures from one time to another.
fn measured(cell: &mut Cell<MemDisk>, measure: Measure, from: u64, to: u64) -> Option<i128> {
    if from >= to || to > trend_num::MAX_T {
        return None;
    }
    match cell
        .ask(0, 2, TagQuery::Window { measure, from, to })
        .ok()?
        .1
    {
        Reply::Window(value) => value,
        _ => None,
    }
}

// Returns, for a tape that ends with a commit: the number of its entries, the calls of the device since the opening,
// and the number of acknowledged events.
fn last_commit(cell: &Cell<MemDisk>) -> Option<(usize, u64, u64)> {
    match cell.tape().last()? {
        Entry::Commit { moment, acked } => {
            let calls = moment.wrapping_sub(cell.opening().moment);
            Some((cell.tape().len(), calls, *acked))
        }
        _ => None,
    }
}

// Returns the device of a cell.
fn device_of(cell: Cell<MemDisk>) -> MemDisk {
    let (dev, _) = cell.into_history();
    dev
}

/// Compares what was told with what is wanted.
pub(crate) fn same(rt: &impl Abort, told: &str, want: &str) {
    assert_eq!(rt; told, want);
}

// Returns a kept record.
fn kept(t: u64, v: i64) -> Rec {
    Rec {
        kind: Kind::Kept,
        point: Point { t, v },
    }
}

// Returns whether the lane begins with an open gate, and its first lane slot with the number 0 of the first value
// (eight bytes) and a count of three values (two bytes).
fn holds_three(dev: &MemDisk) -> bool {
    dev.bytes().get(400).copied() == Some(0xa5)
        && dev.bytes().get(464..474) == Some([0, 0, 0, 0, 0, 0, 0, 0, 0, 3].as_slice())
}

#[test]
fn a_batch_is_two_writes_and_two_syncs(rt: HostRuntime) -> Result<(), Fail> {
    let mut cell = filled(&rt, rt.alloc(), false, 64, 4, "0,0 10,10 20,20").ok_or("refused")?;
    assert!(rt; commit(&mut cell) == all_of(3));
    // The second commit leaves no entry.
    assert!(rt; commit(&mut cell) == all_of(3));
    assert!(rt; last_commit(&cell) == Some((4, 4, 3)));
    assert!(rt; holds_three(&device_of(cell)));
    Ok(())
}

#[test]
fn records_are_handed_out_once_they_are_acknowledged(rt: HostRuntime) -> Result<(), Fail> {
    let mut cell = filled(&rt, rt.alloc(), false, 64, 4, "0,0 10,10 20,0").ok_or("refused")?;
    assert!(rt; ahead(&mut cell, 1) == Some(PullNo::Ahead { from: 1, acked: 0 }));
    assert!(rt; pulls(&mut cell, &[]));
    assert!(rt; commit(&mut cell) == all_of(3));
    assert!(rt; pulls(&mut cell, &[kept(0, 0), kept(10, 10)]));
    assert!(rt; ahead(&mut cell, 5) == Some(PullNo::Ahead { from: 5, acked: 2 }));
    Ok(())
}

#[test]
fn a_full_lane_goes_by_a_checkpoint(rt: HostRuntime) -> Result<(), Fail> {
    let mut cell = filled(&rt, rt.alloc(), false, 1, 2, "0,0").ok_or("refused")?;
    assert!(rt; commit(&mut cell) == all_of(1));
    take_all(&rt, &mut cell, "10,10").ok_or("refused")?;
    assert!(rt; commit(&mut cell) == all_of(2));
    assert!(rt; refusal(&rt, &mut cell, 3, 20, 0) == Some(TakeNo::RoomFull { room: 2 }));
    Ok(())
}

// Returns a cell whose device stops after so many calls.
fn stopping(
    rt: &impl Wait,
    alloc: Global,
    def: &TagDef,
    slots: u32,
    calls: u64,
) -> Option<Cell<MemDisk>> {
    let mut dev = MemDisk::new(Vec::new(alloc), Vec::new(alloc));
    dev.stop_after(calls);
    opened(rt, alloc, dev, def, slots, 8)
}

// Returns how many calls it takes to open a new device.
pub(crate) fn calls_of_opening(
    rt: &impl Wait,
    alloc: Global,
    def: &TagDef,
    slots: u32,
) -> Option<u64> {
    let cell = stopping(rt, alloc, def, slots, u64::MAX)?;
    Some(device_of(cell).calls())
}

// Returns a cell that has taken 7, on a device that stops at the next call.
fn about_to_break(rt: &impl Wait, alloc: Global) -> Option<Cell<MemDisk>> {
    let def = tag(false, 0)?;
    let calls = calls_of_opening(rt, alloc, &def, 64)?;
    let mut cell = stopping(rt, alloc, &def, 64, calls)?;
    take_all(rt, &mut cell, "0,7")?;
    Some(cell)
}

// Returns whether a cell was broken by a fault of its device since the opening.
fn broke(cell: &Cell<MemDisk>) -> bool {
    cell.broken() && cell.device_faults() > cell.opening().faults
}

#[test]
fn a_broken_cell_answers_and_hands_out(rt: HostRuntime) -> Result<(), Fail> {
    let mut cell = about_to_break(&rt, rt.alloc()).ok_or("refused")?;
    assert!(rt; commit(&mut cell) == Err(CommitNo::DeviceFault));
    assert!(rt; broke(&cell));
    assert!(rt; commit(&mut cell) == Err(CommitNo::Broken));
    assert!(rt; refusal(&rt, &mut cell, 2, 1, 1) == Some(TakeNo::Broken));
    assert!(rt; reading(&mut cell, 3) == Some(Reading::Flat(7)));
    assert!(rt; pulls(&mut cell, &[]));
    Ok(())
}

#[test]
fn a_step_tag_answers_by_its_stair(rt: HostRuntime) -> Result<(), Fail> {
    let mut cell = filled(&rt, rt.alloc(), true, 64, 4, "0,10 10,11 20,15 30,14").ok_or("refused")?;
    assert!(rt; reading(&mut cell, 15) == Some(Reading::Flat(10)));
    assert!(rt; reading(&mut cell, 20) == Some(Reading::Exact(15)));
    assert!(rt; measured(&mut cell, Measure::Area, 0, 30) == Some(700));
    assert!(rt; measured(&mut cell, Measure::Low, 0, 30) == Some(10));
    Ok(())
}

// Takes six values, with a commit after each second one. It stops at the first refusal. Returns how many values were
// acknowledged.
fn session(rt: &impl Wait, cell: &mut Cell<MemDisk>) -> u64 {
    let mut acked = 0;
    for pair in "0,0 10,10;20,0 30,5;40,0 35,9".split(';') {
        if take_all(rt, cell, pair).is_none() {
            return acked;
        }
        match commit(cell) {
            Ok(done) => acked = done.acked,
            Err(_) => return acked,
        }
    }
    acked
}

// Returns how many values a device has after it is opened.
fn recovered(rt: &impl Wait, alloc: Global, dev: MemDisk, def: &TagDef) -> Option<u64> {
    let mut dev = dev;
    dev.stop_after(u64::MAX);
    let cell = opened(rt, alloc, dev, def, 1, 8)?;
    Some(cell.summary().taken)
}

// Returns whether a device, whatever a crash leaves of it, has at least and at most so many values.
fn keeps(
    rt: &impl Wait,
    alloc: Global,
    dev: &MemDisk,
    def: &TagDef,
    least: u64,
    most: u64,
) -> Option<bool> {
    for pick in [Pick::Old, Pick::New, Pick::Fill(0), Pick::Fill(0xa5)] {
        let there = recovered(rt, alloc, dev.crash(pick).ok()?, def)?;
        if there < least || there > most {
            return Some(false);
        }
    }
    Some(true)
}

// Returns whether a session on a device that stops after so many calls keeps all that it acknowledged.
fn survives(rt: &impl Wait, alloc: Global, def: &TagDef, calls: u64) -> Option<bool> {
    let mut cell = stopping(rt, alloc, def, 1, calls)?;
    let acked = session(rt, &mut cell);
    let taken = cell.summary().taken;
    keeps(rt, alloc, &device_of(cell), def, acked, taken)
}

// Returns after how many calls after its opening a device first loses acknowledged values.
fn first_loss(rt: &impl Wait, alloc: Global, def: &TagDef, opening: u64) -> Option<u64> {
    for calls in 0..40u64 {
        if survives(rt, alloc, def, opening.saturating_add(calls)) != Some(true) {
            return Some(calls);
        }
    }
    None
}

#[test]
fn a_crash_after_any_call_leaves_what_was_acknowledged(rt: HostRuntime) -> Result<(), Fail> {
    let def = tag(false, 0).ok_or("name")?;
    let opening = calls_of_opening(&rt, rt.alloc(), &def, 1).ok_or("refused")?;
    assert!(rt; first_loss(&rt, rt.alloc(), &def, opening).is_none());
    Ok(())
}

// Takes late values, each of which is a record, until one is refused. Returns why.
fn fill_up(rt: &impl Wait, cell: &mut Cell<MemDisk>) -> Option<TakeNo> {
    for row in 0..1_048_600 {
        if let Some(no) = refusal(rt, cell, row, 0, 0) {
            return Some(no);
        }
    }
    None
}

#[test]
fn a_tag_at_its_limit_of_records_answers_full(rt: HostRuntime) -> Result<(), Fail> {
    let mut cell = filled(&rt, rt.alloc(), false, 1, 1_048_700, "1,0").ok_or("refused")?;
    assert!(rt; fill_up(&rt, &mut cell) == Some(TakeNo::Full { records: 1_048_575 }));
    assert!(rt; cell.tape().len() == 1_048_575);
    Ok(())
}

// Takes so many values as rows of a collector, each under the lock. Returns how many were taken.
fn take_under_lock<R: Wait>(
    rt: &R,
    cell: &Mutex<Cell<MemDisk>>,
    collector: u32,
    count: u32,
) -> u32 {
    let mut taken = 0u32;
    for row in 0..count {
        let p = Point {
            t: u64::from(row),
            v: i64::from(collector),
        };
        if in_range(p) && cell.lock(rt).take(rt, collector, u64::from(row), p).is_ok() {
            taken = taken.saturating_add(1);
        }
    }
    taken
}

// Runs two collectors at the same time.
fn beside<R: Threads + Wait + Sync>(rt: &R, cell: &Mutex<Cell<MemDisk>>) -> (u32, u32) {
    join(
        rt,
        || take_under_lock(rt, cell, 0, 50),
        || take_under_lock(rt, cell, 1, 50),
    )
}

#[test]
fn two_collectors_take_beside_each_other(rt: HostRuntime) -> Result<(), Fail> {
    let def = tag(false, 0).ok_or("name")?;
    let dev = MemDisk::new(Vec::new(rt.alloc()), Vec::new(rt.alloc()));
    let cell = opened(&rt, rt.alloc(), dev, &def, 64, 80).ok_or("refused")?;
    let cell = Mutex::new(cell);
    let (first, second) = beside(&rt, &cell);
    assert!(rt; first.wrapping_add(second) == 80);
    let (_, history) = cell.into_inner().into_history();
    assert!(rt; history.tape.len() == 80);
    assert!(rt; history.summary.taken == 80);
    Ok(())
}
