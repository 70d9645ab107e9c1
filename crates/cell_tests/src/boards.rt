// What no clause of a board shows: that it can be made, and that posters and lookers can be in different threads.
ghost use Rattle.std.specs.Prelude.{◌≡◌, IfOk, length};
ghost use Rattle.std.specs.Thread.{IsSync};
ghost use Rattle.snapshot_table.specs.{LooksAt, PostsTo};

use snapshot_table::{Board, Looker, Point, Poster, Snap, WantOfMemory, new_board};
use std::alloc::Global;
use std::sync::Wait;
use std::test::Fail;
use std::thread::{Threads, join};

// Returns a board of one tag, its poster and a looker.
fn small(rt: &impl Wait, alloc: Global) -> Result<(Board, Poster, Looker), WantOfMemory>
    ensures one { IfOk result (λ made. length made.0 ≡ 1) }
    ensures posts { IfOk result (λ made. PostsTo made.0 made.1) }
    ensures looks { IfOk result (λ made. LooksAt made.0 made.2) }
{
    let (board, mut posters, mut lookers) = new_board(rt, alloc, 1, 1)?;
    match (posters.pop(), lookers.pop()) {
        (Some(poster), Some(looker)) => Ok((board, poster, looker)),
        _ => Err(WantOfMemory),
    }
}

// What a new board shows, then snapshots in the order in which they are posted: how many events were taken, and the
// time and the value of the held point.
const ROWS: &str = "\
0 none
1 0 5
2 0 5
3 0 0
4 1 -1
5 253402300799999 1000000000000000
5 253402300799999 -1000000000000000
6 9 9223372036854775807
6 9 -9223372036854775808
18446744073709551615 none";

// Returns the snapshot that a row spells.
fn snap_of(row: &str) -> Option<Snap> {
    let (taken, held) = row.split_once(' ')?;
    let taken = taken.parse().ok()?;
    let held = match held.split_once(' ') {
        Some((t, v)) => Some(Point {
            t: t.parse().ok()?,
            v: v.parse().ok()?,
        }),
        None => None,
    };
    Some(Snap { taken, held })
}

// Returns the first row that a look does not show after it is posted.
fn unshown<R: Wait>(rt: &R, board: &Board, poster: Poster, looker: Looker) -> Option<&'static str>
    requires one { length board.now ≡ 1 }
    requires posts { PostsTo board.now poster }
    requires looks { LooksAt board.now looker }
{
    let mut poster = poster;
    let mut looker = looker;
    for row in ROWS.lines() {
        let Some(snap) = snap_of(row) else {
            return Some(row)
        };
        if snap.taken < poster.last().taken {
            return Some(row);
        }
        if snap.taken > 0 {
            board.post(rt, &mut poster, snap);
        }
        if board.look(rt, &mut looker, 0) != snap {
            return Some(row);
        }
    }
    None
}

#[test]
fn a_look_shows_what_was_posted_last(rt: HostRuntime) -> Result<(), Fail> {
    let (board, poster, looker) = small(&rt, rt.alloc())?;
    assert!(&rt; unshown(&rt, &board, poster, looker).is_none());
    Ok(())
}

// Posts so many snapshots, each with one event more.
fn post_all<R: Wait>(rt: &R, board: &Board, poster: Poster, count: u64)
    requires { PostsTo board.now poster }
{
    let mut poster = poster;
    for _ in 0..count {
        let last = poster.last();
        let taken = last.taken.saturating_add(1);
        board.post(
            rt,
            &mut poster,
            Snap {
                taken,
                held: Some(Point { t: taken, v: -1 }),
            },
        );
    }
}

// Returns whether no look shows fewer events than the one before, and each shows a whole snapshot. Also returns the
// looker.
fn looks_rise<R: Wait>(rt: &R, board: &Board, looker: Looker, count: u64) -> (bool, Looker)
    requires one { length board.now ≡ 1 }
    requires looks { LooksAt board.now looker }
    ensures looks { LooksAt board.now result.1 }
{
    let mut looker = looker;
    let mut last = 0;
    let mut rise = true;
    for _ in 0..count {
        let snap = board.look(rt, &mut looker, 0);
        let whole = snap.held.is_none_or(|p| p.t == snap.taken && p.v == -1);
        rise = rise && whole && last <= snap.taken;
        last = snap.taken;
    }
    (rise, looker)
}

// Runs a poster and a looker at the same time. Returns whether the looks rose, and the events that one more look shows
// then.
fn beside<R: Threads + Wait + Sync>(rt: &R, alloc: Global) -> Result<(bool, u64), WantOfMemory> {
    let (board, poster, looker) = small(rt, alloc)?;
    let shown = &board;
    let (_, (rise, looker)) = join(
        rt,
        move ||
            requires { IsSync R.row × PostsTo shown.now poster }
        { post_all(rt, shown, poster, 1000) },
        move || -> (bool, Looker)
            requires { IsSync R.row × (length shown.now ≡ 1) × LooksAt shown.now looker }
            ensures { LooksAt shown.entry.now result.1 }
        { looks_rise(rt, shown, looker, 1000) },
    );
    let mut looker = looker;
    Ok((rise, board.look(rt, &mut looker, 0).taken))
}

#[test]
fn a_board_is_posted_to_and_looked_at_by_two_threads(rt: HostRuntime) -> Result<(), Fail> {
    assert!(&rt; beside(&rt, rt.alloc())? == (true, 1000));
    Ok(())
}
