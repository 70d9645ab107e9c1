// Sessions of workers over one tag in memory. Their passes hold the workers at their steps.
ghost use Rattle.std.specs.Prelude.{◌≡◌, All, IfSome, length};
ghost use Rattle.std.specs.Arc.{arc_value};
ghost use Rattle.snapshot_table.specs.{LooksAt};

use crate::cells::{calls_of_opening, tag};
use collector_pool::{CellNo, Ending, GroupTurns, Refresh, TurnNo, Work, WorkerNote, run_session};
use disk_model::MemDisk;
use plant_status::{OpenPasses, Passes};
use snapshot_table::{Board, Looker};
use std::alloc::Global;
use std::sync::atomic::{AtomicU64, Ordering};
use std::sync::{Arc, Mutex, Wait};
use std::test::Fail;
use std::thread::Threads;
use tag_cell::{Cell, Entry, PullNo, TagHistory, open_cell};
use test_rig::{Gates, PATIENT, Shut, lone_board};
use trend_num::{CalcValue, Point, Snap, TagQuery, in_range, tuning_ok};
use value_rows::{Query, RawRow};

// How often a held worker checks whether the others have come. If they do not come, it is then stopped.
const BRIEF: u64 = 10_000;

// Two groups without calculations. A turn of the first pulls from the first tag, and a question gets no value. The second
// is broken.
#[derive(Drop)]
struct Puller {
    answers: AtomicU64,
}

impl GroupTurns<MemDisk> for Puller {
    ghost groups = { λ _. 2 };

    fn refresh<R: Wait>(
        &self,
        rt: &R,
        group: u32,
        cells: &[Mutex<Cell<MemDisk>>],
    ) -> Result<(), TurnNo> {
        if group != 0 {
            return Err(TurnNo::Broken);
        }
        let Some(cell) = cells.first() else {
            return Ok(());
        };
        let mut cell = cell.lock(rt);
        match cell.pull(group, 0) {
            Ok(_) => Ok(()),
            Err(PullNo::WantOfMemory) => Err(TurnNo::WantOfMemory),
            Err(PullNo::Ahead { from, acked }) => Err(TurnNo::Ahead {
                input: 0,
                version: from,
                records: acked,
            }),
        }
    }

    fn ask<R: Wait>(
        &self,
        _rt: &R,
        _reader: u32,
        _row: u64,
        group: u32,
        _calc: u32,
        _k: u64,
    ) -> Result<(u64, Option<CalcValue>), TurnNo> {
        if group != 0 {
            return Err(TurnNo::Broken);
        }
        Ok((self.answers.fetch_add(1, Ordering::SeqCst), None))
    }
}

// Returns two shares of a board.
fn twice(alloc: Global, board: Board) -> Option<(Arc<Board, Global>, Arc<Board, Global>)>
    ensures first { IfSome result (λ made. arc_value made.0 ≡ board) }
    ensures second { IfSome result (λ made. arc_value made.1 ≡ board) }
{
    let first = Arc::new(alloc, board).ok()?;
    let second = Arc::try_clone(&first).ok()?;
    Some((first, second))
}

// What a session leaves: the notes, and the history of its one tag.
#[derive(Drop)]
struct Ran {
    notes: Vec<WorkerNote>,
    history: TagHistory,
    // How many questions the first group was asked.
    answers: u64,
}

// Runs a session over one new tag that has room for so many takes. With `filled`, so many values are taken before it.
fn session_over<P: Passes, R: Threads + Wait + Sync>(
    rt: &R,
    alloc: Global,
    room: u32,
    filled: u32,
    work: &Work,
    passes: &mut P,
) -> Option<Ran> {
    let dev = MemDisk::new(Vec::new(alloc), Vec::new(alloc));
    session_on(rt, alloc, dev, room, filled, work, passes)
}

// Runs such a session on a device.
fn session_on<P: Passes, R: Threads + Wait + Sync>(
    rt: &R,
    alloc: Global,
    mut dev: MemDisk,
    room: u32,
    filled: u32,
    work: &Work,
    passes: &mut P,
) -> Option<Ran> {
    let def = tag(false, 0)?;
    let readers = u32::try_from(work.readers.len()).ok()?;
    let Ok((board, poster, lookers)) = lone_board(rt, alloc, readers) else {
        return None
    };
    let Some((board, shared)) = twice(alloc, board) else {
        return None
    };
    if !tuning_ok(&def.tuning) {
        return None;
    }
    dev.forget_name();
    let mut cell = open_cell(rt, alloc, dev, &def, 64, room, shared, poster).ok()?;
    fill(rt, &mut cell, filled)?;
    work_over(rt, alloc, cell, &board, lookers, work, passes)
}

// Runs a session over a cell that is open.
fn work_over<P: Passes, R: Threads + Wait + Sync>(
    rt: &R,
    alloc: Global,
    cell: Cell<MemDisk>,
    board: &Board,
    lookers: Vec<Looker>,
    work: &Work,
    passes: &mut P,
) -> Option<Ran>
    requires one { length board.now ≡ 1 }
    requires looks { All (LooksAt board.now) lookers.items }
{
    let mut cells = Vec::new(alloc);
    cells.push(Mutex::new(cell)).ok()?;
    if !work.fits(cells.len(), 2) || lookers.len() != work.readers.len() {
        return None;
    }
    let groups = Puller {
        answers: AtomicU64::new(0),
    };
    let notes = run_session(rt, alloc, &cells, board, lookers, &groups, work, passes).ok()?;
    let cell = cells.pop()?;
    let (_, history) = cell.into_inner().into_history();
    let answers = groups.answers.into_inner();
    Some(Ran {
        notes,
        history,
        answers,
    })
}

// Takes so many values. Each but the last is kept.
fn fill<R: Wait>(rt: &R, cell: &mut Cell<MemDisk>, count: u32) -> Option<()> {
    for i in 0..count {
        let p = Point {
            t: u64::from(i),
            v: i64::from(i % 2),
        };
        if !in_range(p) {
            return None;
        }
        cell.take(rt, 0, u64::from(i), p).ok()?;
    }
    Some(())
}

// Returns the rows of a text such as `0,0 10,10`, of the first tag.
pub(crate) fn rows_of(alloc: Global, text: &str) -> Option<Vec<RawRow>> {
    let mut rows = Vec::new(alloc);
    for value in text.split(' ') {
        let (t, v) = value.split_once(',')?;
        let point = Point {
            t: t.parse().ok()?,
            v: v.parse().ok()?,
        };
        rows.push(RawRow { tag: 0, point }).ok()?;
    }
    Some(rows)
}

// Returns so many rows of the first tag. Each value is one more than the last.
fn rising(alloc: Global, count: u32) -> Option<Vec<RawRow>> {
    let mut rows = Vec::new(alloc);
    for i in 0..count {
        let point = Point {
            t: u64::from(i),
            v: i64::from(i),
        };
        rows.push(RawRow { tag: 0, point }).ok()?;
    }
    Some(rows)
}

// Returns the work of these collectors alone.
fn collecting(alloc: Global, collectors: Vec<Vec<RawRow>>) -> Work {
    Work {
        collectors,
        readers: Vec::new(alloc),
        refreshers: Vec::new(alloc),
        earlier: 0,
    }
}

// Returns the work of two collectors with these rows.
fn two_collectors(alloc: Global, first: &str, second: &str) -> Option<Work> {
    let mut collectors = Vec::new(alloc);
    collectors.push(rows_of(alloc, first)?).ok()?;
    collectors.push(rows_of(alloc, second)?).ok()?;
    Some(collecting(alloc, collectors))
}

// Returns the work of one collector with these rows.
fn one_collector(alloc: Global, rows: Vec<RawRow>) -> Option<Work> {
    let mut collectors = Vec::new(alloc);
    collectors.push(rows).ok()?;
    Some(collecting(alloc, collectors))
}

// Returns the work of a collector of two rows, a reader that asks these queries, and a refresher of two turns.
fn one_of_each(alloc: Global, queries: &[Query]) -> Option<Work> {
    let mut work = one_collector(alloc, rows_of(alloc, "0,0 1,5")?)?;
    work.readers
        .push(Vec::from_slice(alloc, queries).ok()?)
        .ok()?;
    work.refreshers.push(Refresh { group: 0, turns: 2 }).ok()?;
    Some(work)
}

// Returns the entries of a tape as letters, in order: t, a, p and c for a take, an answer, a pull and a commit.
pub(crate) fn letters(alloc: Global, history: &TagHistory) -> Option<String> {
    let mut text = String::new(alloc);
    for entry in &history.tape {
        let letter = match entry {
            Entry::Take { .. } => 't',
            Entry::Ask { .. } => 'a',
            Entry::Pull { .. } => 'p',
            Entry::Commit { .. } => 'c',
        };
        text.push(letter).ok()?;
    }
    Some(text)
}

// Returns the rows of the takes of a tape, in order.
fn taken_rows(alloc: Global, history: &TagHistory) -> Option<Vec<u64>> {
    let mut rows = Vec::new(alloc);
    for entry in &history.tape {
        if let Entry::Take { row, .. } = entry {
            rows.push(*row).ok()?;
        }
    }
    Some(rows)
}

// Returns whether a take is that of the row at this place of a collector's rows.
fn is_take_of(rows: &[RawRow], place: u64, number: u64, point: Point) -> bool {
    number == place.saturating_add(1)
        && rows
            .get(place as usize)
            .is_some_and(|row| row.point == point)
}

// Returns whether the takes of a collector on a tape are the first so many of its rows, in order.
fn took_first(history: &TagHistory, collector: u32, rows: &[RawRow], steps: u64) -> bool {
    let mut taken = 0u64;
    for entry in &history.tape {
        if let Entry::Take {
            collector: by,
            row,
            point,
            ..
        } = entry
        {
            if *by == collector {
                if !is_take_of(rows, taken, *row, *point) {
                    return false;
                }
                taken = taken.saturating_add(1);
            }
        }
    }
    taken == steps
}

// Returns whether each collector has taken the first of its rows, as many as its note has steps, and nothing else.
fn all_stand(ran: &Ran, work: &Work) -> bool {
    ran.notes.iter().zip(&work.collectors).all(|(note, rows)| took_first(
        &ran.history,
        note.worker,
        rows.as_slice(),
        note.steps,
    ))
}

// Returns whether the workers ended like this.
fn ended_by(ran: &Ran, endings: &[Ending]) -> bool {
    ran.notes.len() == endings.len()
        && ran
            .notes
            .iter()
            .zip(endings)
            .all(|(note, ending)| note.ending == *ending)
}

#[test]
fn two_collectors_take_in_turn(rt: HostRuntime) -> Result<(), Fail> {
    let asked = AtomicU64::new(0);
    let mut gates = Gates {
        asked: &asked,
        workers: 2,
        looks: PATIENT,
        stops: 0,
    };
    let work = two_collectors(rt.alloc(), "0,0 10,10", "5,5 15,15").ok_or("memory")?;
    let ran = session_over(&rt, rt.alloc(), 4, 0, &work, &mut gates).ok_or("refused")?;
    assert!(rt; ended_by(&ran, &[Ending::Ended, Ending::Ended]));
    let rows = taken_rows(rt.alloc(), &ran.history).ok_or("memory")?;
    assert_eq!(rt; rows.as_slice(), [1, 1, 2, 2].as_slice());
    assert!(rt; all_stand(&ran, &work));
    assert_eq!(rt; ran.history.acked, 4);
    assert_eq!(rt; gates.stops, 0);
    Ok(())
}

// Runs a collector that waits for another one that does not come.
fn alone_at_a_gate<R: Threads + Wait + Sync>(rt: &R, alloc: Global) -> Option<(Ran, u64)> {
    let asked = AtomicU64::new(0);
    let mut gates = Gates {
        asked: &asked,
        workers: 2,
        looks: BRIEF,
        stops: 0,
    };
    let work = one_collector(alloc, rows_of(alloc, "0,0 10,10")?)?;
    let ran = session_over(rt, alloc, 4, 0, &work, &mut gates)?;
    Some((ran, gates.stops))
}

#[test]
fn a_collector_whose_fellow_does_not_come_is_halted(rt: HostRuntime) -> Result<(), Fail> {
    let (ran, stops) = alone_at_a_gate(&rt, rt.alloc()).ok_or("refused")?;
    assert!(rt; ended_by(&ran, &[Ending::Halted]));
    assert_eq!(rt;
        letters(rt.alloc(), &ran.history).ok_or("memory")?.as_str(),
        "t"
    );
    assert_eq!(rt; stops, 1);
    Ok(())
}

#[test]
fn a_shut_pass_halts_the_first_worker(rt: HostRuntime) -> Result<(), Fail> {
    let mut shut = Shut { stops: 0 };
    let work = two_collectors(rt.alloc(), "0,0", "5,5").ok_or("memory")?;
    let ran = session_over(&rt, rt.alloc(), 4, 0, &work, &mut shut).ok_or("refused")?;
    assert!(rt; ended_by(&ran, &[Ending::Halted, Ending::Ended]));
    assert_eq!(rt;
        letters(rt.alloc(), &ran.history).ok_or("memory")?.as_str(),
        "tc"
    );
    assert_eq!(rt; shut.stops, 1);
    Ok(())
}

// Returns how often a letter occurs among the first `among` letters of a text, without those of commits.
fn count_of(letter: char, text: &str, among: usize) -> usize {
    text.chars()
        .filter(|c| *c != 'c')
        .take(among)
        .filter(|c| *c == letter)
        .count()
}

#[test]
fn a_take_an_answer_and_a_pull_stand_before_the_second_ones(rt: HostRuntime) -> Result<(), Fail> {
    let asked = AtomicU64::new(0);
    let mut gates = Gates {
        asked: &asked,
        workers: 3,
        looks: PATIENT,
        stops: 0,
    };
    let query = Query::Tag {
        tag: 0,
        query: TagQuery::At { t: 0 },
    };
    let work = one_of_each(rt.alloc(), &[query, query]).ok_or("memory")?;
    let ran = session_over(&rt, rt.alloc(), 2, 0, &work, &mut gates).ok_or("refused")?;
    assert!(rt; ended_by(&ran, &[Ending::Ended, Ending::Ended, Ending::Ended]));
    let text = letters(rt.alloc(), &ran.history).ok_or("memory")?;
    assert_eq!(rt; count_of('t', text.as_str(), 3), 1);
    assert_eq!(rt; count_of('a', text.as_str(), 3), 1);
    assert_eq!(rt; count_of('p', text.as_str(), 3), 1);
    Ok(())
}

#[test]
fn a_collector_commits_after_64_rows_and_after_its_last(rt: HostRuntime) -> Result<(), Fail> {
    let rows = rising(rt.alloc(), 65).ok_or("memory")?;
    let work = one_collector(rt.alloc(), rows).ok_or("memory")?;
    let ran = session_over(&rt, rt.alloc(), 65, 0, &work, &mut OpenPasses).ok_or("refused")?;
    assert!(rt; ended_by(&ran, &[Ending::Ended]));
    let text = letters(rt.alloc(), &ran.history).ok_or("memory")?;
    assert_eq!(rt; text.len(), 67);
    assert_eq!(rt; text.as_str().find('c'), Some(64));
    assert!(rt; text.as_str().ends_with("ctc"));
    assert_eq!(rt; ran.history.acked, 65);
    Ok(())
}

// Returns a new device whose first call after the opening of its tag fails.
fn failing_at_commit(rt: &impl Wait, alloc: Global) -> Option<MemDisk> {
    let call = calls_of_opening(rt, alloc, &tag(false, 0)?, 64)?;
    Some(MemDisk::new(Vec::new(alloc), vec![in alloc; call].ok()?))
}

#[test]
fn a_commit_that_fails_ends_its_collector(rt: HostRuntime) -> Result<(), Fail> {
    let rows = rising(rt.alloc(), 130).ok_or("memory")?;
    let work = one_collector(rt.alloc(), rows).ok_or("memory")?;
    let dev = failing_at_commit(&rt, rt.alloc()).ok_or("refused")?;
    let ran = session_on(&rt, rt.alloc(), dev, 130, 0, &work, &mut OpenPasses).ok_or("refused")?;
    let fault = CellNo::DeviceFault;
    assert!(rt; ended_by(&ran, &[Ending::Tag { tag: 0, why: fault }]));
    assert!(rt; all_stand(&ran, &work));
    assert!(rt; ran.notes.first().is_some_and(|note| note.steps == 64));
    Ok(())
}

// The most values that a tag takes if each but the last is kept.
const MOST_TAKEN: u32 = 1_048_576;

#[test]
fn a_full_tag_ends_its_collector(rt: HostRuntime) -> Result<(), Fail> {
    let rows = rows_of(rt.alloc(), "2000000,0 2000001,1").ok_or("memory")?;
    let work = one_collector(rt.alloc(), rows).ok_or("memory")?;
    let ran = session_over(
        &rt,
        rt.alloc(),
        MOST_TAKEN + 2,
        MOST_TAKEN,
        &work,
        &mut OpenPasses,
    )
    .ok_or("refused")?;
    let full = CellNo::Full {
        records: MOST_TAKEN - 1,
    };
    assert!(rt; ended_by(&ran, &[Ending::Tag { tag: 0, why: full }]));
    assert_eq!(rt; ran.history.recs.len(), 1_048_575);
    Ok(())
}

#[test]
fn a_tape_without_room_ends_its_collector(rt: HostRuntime) -> Result<(), Fail> {
    let rows = rows_of(rt.alloc(), "0,0 1,1 2,2").ok_or("memory")?;
    let work = one_collector(rt.alloc(), rows).ok_or("memory")?;
    let ran = session_over(&rt, rt.alloc(), 2, 0, &work, &mut OpenPasses).ok_or("refused")?;
    let full = CellNo::RoomFull { room: 2 };
    assert!(rt; ended_by(&ran, &[Ending::Tag { tag: 0, why: full }]));
    assert_eq!(rt;
        letters(rt.alloc(), &ran.history).ok_or("memory")?.as_str(),
        "tt"
    );
    Ok(())
}

#[test]
fn a_broken_group_ends_its_workers(rt: HostRuntime) -> Result<(), Fail> {
    let question = Query::Row {
        group: 1,
        calc: 0,
        k: 3,
    };
    let mut work = one_of_each(rt.alloc(), &[question]).ok_or("memory")?;
    for refresh in &mut work.refreshers {
        refresh.group = 1;
    }
    let ran = session_over(&rt, rt.alloc(), 2, 0, &work, &mut OpenPasses).ok_or("refused")?;
    let broken = Ending::Group {
        group: 1,
        why: TurnNo::Broken,
    };
    assert!(rt; ended_by(&ran, &[Ending::Ended, broken, broken]));
    assert!(rt; ran.notes.iter().skip(1).all(|note| note.steps == 0));
    Ok(())
}

// Returns whether a reader answered two queries, and saw for the first the snapshot of the one value that was taken.
fn saw_a_snap_and_no_other(note: &WorkerNote) -> bool {
    let seen = Snap {
        taken: 1,
        held: Some(Point { t: 0, v: 0 }),
    };
    note.steps == 2 && note.snaps.as_slice() == [Some(seen), None].as_slice()
}

#[test]
fn a_reader_notes_the_snapshot_of_the_board_and_no_row_of_a_group(
    rt: HostRuntime,
) -> Result<(), Fail> {
    let queries = [
        Query::Snap { tag: 0 },
        Query::Row {
            group: 0,
            calc: 0,
            k: 3,
        },
    ];
    let mut work = one_of_each(rt.alloc(), &queries).ok_or("memory")?;
    work.collectors.clear();
    let ran = session_over(&rt, rt.alloc(), 2, 1, &work, &mut OpenPasses).ok_or("refused")?;
    assert!(rt; ended_by(&ran, &[Ending::Ended, Ending::Ended]));
    assert!(rt; ran.notes.first().is_some_and(saw_a_snap_and_no_other));
    assert!(rt; ran.notes.last().is_some_and(|note| note.steps == 2));
    assert!(rt; ran.answers == 1);
    Ok(())
}
