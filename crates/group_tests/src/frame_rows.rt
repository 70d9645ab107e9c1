// The frames of small rows, and what changes do to them.
use crate::spelled_frames::{applied, changes, row, write_edit, write_frame};
use crate::tables::{rows_tell, same};
use event_frames::{Frames, new_frames};
use std::alloc::Global;
use std::process::Abort;
use std::test::Fail;

// How many windows a frame has at least, the row, and the row's frames.
const LISTED: &str = "\
2 | 1 1 0 1 => 0-1
1 | 1 1 0 1 => 0-1 3-3*
1 | =>
1 | 0 x 0 =>
2 | 1 x 1 =>
3 | 5 -1 7 => 0-2*
1 | x 1 0 1 1 x => 1-1 3-4
4294967295 | 1 1 1 =>";

// How many windows a frame has at least, and the row. Then, in turn, changes, and what they do to the frames.
const CHANGED: &str = "\
2 | 1 1 0 1 | 2:5 => -0-1 +0-3* | 4:x => -0-3* +0-3
1 | 1 1 1 1 1 | 2:0 => -0-4* +0-1 +3-4* | 2:1 => -0-1 -3-4* +0-4*
1 | 1 0 1 | 1:0 => | 1:x => | 0:2 =>
2 | | 0:1 => | 1:1 => +0-1* | 2:1 3:0 4:1 => -0-1* +0-2 | 0:0 1:0 2:0 => -0-2
3 | 1 1 0 1 1 0 1 1 | 2:1 5:1 => +0-7*
1 | 1 0 1 0 1 | 0:0 1:1 2:0 3:1 4:0 => -0-0 -2-2 -4-4* +1-1 +3-3";

// The frames of a row, each of at least so many windows.
fn frames_of(rt: &impl Abort, alloc: Global, least: &str, text: &str) -> Result<Frames, Fail> {
    let least = least.parse().unwrap_or(1);
    assert!(rt; 1 <= least);
    Ok(new_frames(alloc, least, row(alloc, text)?.as_slice())?)
}

// All frames, as a text.
fn list_told(alloc: Global, frames: &Frames) -> Result<String, Fail> {
    let mut told = String::new(alloc);
    for frame in frames.list()?.as_slice() {
        write_frame(&mut told, *frame)?;
    }
    Ok(told)
}

#[test]
fn frames_are_listed(rt: HostRuntime) -> Result<(), Fail> {
    rows_tell(&rt, LISTED, " =>", |given| {
        let (least, text) = given.split_once(" |").ok_or("given")?;
        list_told(rt.alloc(), &frames_of(&rt, rt.alloc(), least, text)?)
    })
}

// What changes do to frames, as a text.
fn change_told(
    rt: &impl Abort,
    alloc: Global,
    frames: &mut Frames,
    given: &str,
) -> Result<String, Fail> {
    let changes = changes(alloc, given)?;
    let mut told = String::new(alloc);
    for edit in applied(rt, frames, changes.as_slice())?.as_slice() {
        write_edit(&mut told, *edit)?;
    }
    Ok(told)
}

// Follows the changes of a row in turn.
fn follow(rt: &impl Abort, alloc: Global, frames: &mut Frames, turns: &str) -> Result<(), Fail> {
    for turn in turns.split(" | ") {
        let (given, want) = turn.split_once(" =>").ok_or("turn")?;
        let told = change_told(rt, alloc, frames, given)?;
        same(rt, told.as_str(), want, given);
    }
    Ok(())
}

// Follows a line of `CHANGED`.
fn follow_line(rt: &impl Abort, alloc: Global, line: &str) -> Result<(), Fail> {
    let (least, rest) = line.split_once(" |").ok_or("least")?;
    let (text, turns) = rest.split_once(" | ").ok_or("row")?;
    let mut frames = frames_of(rt, alloc, least, text)?;
    follow(rt, alloc, &mut frames, turns)
}

#[test]
fn changes_tell_what_they_do(rt: HostRuntime) -> Result<(), Fail> {
    for line in CHANGED.lines() {
        follow_line(&rt, rt.alloc(), line)?;
    }
    Ok(())
}
