// Random changes of a row. The frames are compared with a list that plain code makes anew.
use crate::spelled_frames::applied;
use event_frames::{Bad, CalcValue, Change, Edit, Frame, Frames, new_frames};
use std::alloc::{AllocError, Global};
use std::process::Abort;
use std::test::Fail;

// Returns the next number of a sequence that is fixed by its first number.
fn drawn(seed: u64) -> u64 {
    seed.wrapping_mul(6_364_136_223_846_793_005)
        .wrapping_add(1_442_695_040_888_963_407)
}

// Returns a random value: one in four is 0, and one in eight is bad.
fn value(seed: u64) -> CalcValue {
    match (seed >> 33) % 8 {
        0 | 1 => CalcValue::Num(0),
        2 => CalcValue::Bad(Bad::DivZero),
        n => CalcValue::Num(n as i64),
    }
}

// Returns the frames of a row, computed from all of it.
fn plain(alloc: Global, row: &[CalcValue], least: u64) -> Result<Vec<Frame>, AllocError> {
    let mut frames = Vec::new(alloc);
    let mut long = 0u64;
    for (k, value) in row.iter().enumerate() {
        let holds = !matches!(value, CalcValue::Num(0) | CalcValue::Bad(_));
        let ends = holds
            && row
                .get(k.wrapping_add(1))
                .is_none_or(|v| matches!(v, CalcValue::Num(0) | CalcValue::Bad(_)));
        long = if holds { long.wrapping_add(1) } else { 0 };
        if ends && least <= long {
            frames.push(Frame {
                from: (k as u64).wrapping_add(1).wrapping_sub(long),
                upto: k as u64,
                last: k.wrapping_add(1) == row.len(),
            })?;
        }
    }
    Ok(frames)
}

// Appends an edit for each frame of a list that another list lacks.
fn push_edits(
    edits: &mut Vec<Edit>,
    frames: &[Frame],
    others: &[Frame],
    is_new: bool,
) -> Result<(), AllocError> {
    for frame in frames {
        if !others.contains(frame) {
            edits.push(if is_new {
                Edit::New(*frame)
            } else {
                Edit::Gone(*frame)
            })?;
        }
    }
    Ok(())
}

// Returns the edits from one list to another.
fn edits(alloc: Global, old: &[Frame], new: &[Frame]) -> Result<Vec<Edit>, AllocError> {
    let mut edits = Vec::new(alloc);
    push_edits(&mut edits, old, new, false)?;
    push_edits(&mut edits, new, old, true)?;
    Ok(edits)
}

// Draws a change of each of some windows of a row, and applies it to the row. Returns the next seed.
fn draw_some(
    seed: u64,
    row: &mut Vec<CalcValue>,
    changes: &mut Vec<Change>,
) -> Result<u64, AllocError> {
    let mut seed = seed;
    let step = (seed >> 40) % 90;
    for k in 0..row.len() {
        seed = drawn(seed);
        if (seed >> 40) % 100 < step {
            let change = Change {
                k: k as u64,
                value: value(seed),
            };
            row[k] = change.value;
            changes.push(change)?;
        }
    }
    Ok(seed)
}

// Draws up to three new windows of a row, and appends them to the row.
fn draw_new(
    seed: u64,
    row: &mut Vec<CalcValue>,
    changes: &mut Vec<Change>,
) -> Result<(), AllocError> {
    let mut seed = seed;
    for _ in 0..(seed >> 50) % 4 {
        seed = drawn(seed);
        let change = Change {
            k: row.len() as u64,
            value: value(seed),
        };
        row.push(change.value)?;
        changes.push(change)?;
    }
    Ok(())
}

// Returns random changes of a row: of some of its windows, and up to three new ones. It also applies them to the row.
fn draw(alloc: Global, seed: u64, row: &mut Vec<CalcValue>) -> Result<Vec<Change>, AllocError> {
    let mut changes = Vec::new(alloc);
    let seed = draw_some(seed, row, &mut changes)?;
    draw_new(seed, row, &mut changes)?;
    Ok(changes)
}

// Changes a row, and compares its frames, and what is told of the changes, with a list that is made anew. Returns that
// list.
fn changed(
    rt: &impl Abort,
    alloc: Global,
    seed: u64,
    row: &mut Vec<CalcValue>,
    frames: &mut Frames,
    least: u32,
    before: &[Frame],
) -> Result<Vec<Frame>, Fail> {
    let changes = draw(alloc, seed, row)?;
    let told = applied(rt, frames, changes.as_slice())?;
    let now = plain(alloc, row.as_slice(), u64::from(least))?;
    assert!(rt; told == edits(alloc, before, now.as_slice())?);
    assert!(rt; frames.list()? == now);
    Ok(now)
}

// Changes a row 300 times, whose frames have at least so many windows. Returns the seed of what comes next.
fn changed_often(rt: &impl Abort, alloc: Global, seed: u64, least: u32) -> Result<u64, Fail> {
    assert!(rt; 1 <= least);
    let mut seed = seed;
    let mut row = Vec::new(alloc);
    let mut frames = new_frames(alloc, least, row.as_slice())?;
    let mut before = Vec::new(alloc);
    for _ in 0..300u32 {
        seed = drawn(seed);
        before = changed(rt, alloc, seed, &mut row, &mut frames, least, &before)?;
    }
    Ok(seed)
}

#[test]
fn drawn_changes_are_as_a_list_made_anew(rt: HostRuntime) -> Result<(), Fail> {
    let mut seed = 20_261_128;
    for least in 1..4u32 {
        seed = changed_often(&rt, rt.alloc(), seed, least)?;
    }
    Ok(())
}
