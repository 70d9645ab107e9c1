// Reads of small contents.
use crate::spelled::{content, number, rows_tell, same};
use interp_read::{at, at_step, points};
use late_insert::{Content, Kind, Point, Rec};
use std::alloc::Global;
use std::process::Abort;
use std::test::Fail;

// Records and a time, and what the line and the stair through the points read at that time.
const READ: &str = "\
5,4 15,8 @ 4 => Nothing Nothing
5,4 15,8 @ 5 => Exact(4) Exact(4)
5,4 15,8 @ 10 => Line(Frac { num: 60, den: 10 }) Flat(4)
5,4 15,8 @ 16 => Flat(8) Flat(8)
10,5 *10,7 @ 10 => Exact(7) Exact(7)
0,-1000000000000000 253402300799999,1000000000000000 @ 1 => \
Line(Frac { num: -253402300799997000000000000000, den: 253402300799999 }) Flat(-1000000000000000)";

// Two times; how many of the points at the times 0 to 256 a list from one to the other has; and whether there are more.
const LISTED: &str = "\
2 256 => 255 false
1 256 => 256 false
0 256 => 256 true
7 6 => 0 false";

// What the line and the stair read at a time, as a text.
fn read_told(alloc: Global, content: &Content, t: u64) -> Result<String, Fail> {
    let line = at(content, None, t);
    let stair = at_step(content, None, t);
    Ok(format!(in alloc; "{line:?} {stair:?}")?)
}

#[test]
fn lines_and_stairs_are_read(rt: HostRuntime) -> Result<(), Fail> {
    rows_tell(&rt, READ, " => ", |given| {
        let (records, t) = given.split_once(" @ ").ok_or("time")?;
        let content = content(&rt, rt.alloc(), records)?;
        read_told(rt.alloc(), &content, number(&rt, t))
    })
}

// What a stair of one point, (20,15), reads before the held point (30,14) and at its time; and how many points there
// are with the held one.
fn held_told(alloc: Global) -> Result<String, Fail> {
    let mut content = Content::new(alloc, 1)?;
    content.put(Rec {
        kind: Kind::Kept,
        point: Point { t: 20, v: 15 },
    });
    let held = Some(Point { t: 30, v: 14 });
    let (before, last) = (at_step(&content, held, 29), at_step(&content, held, 30));
    let count = points(alloc, &content, held, 1, 30)?.list.len();
    Ok(format!(in alloc; "{before:?} {last:?} {count}")?)
}

#[test]
fn a_held_point_closes_the_content(rt: HostRuntime) -> Result<(), Fail> {
    let told = held_told(rt.alloc())?;
    same(&rt, told.as_str(), "Flat(15) Exact(14) 2", "a held point");
    Ok(())
}

// The content with one point at each of the times 0 to 256.
fn each_time(rt: &impl Abort, alloc: Global) -> Result<Content, Fail> {
    let mut content = Content::new(alloc, 257)?;
    for t in 0..257u64 {
        assert!(rt; content.spare() > 0);
        content.put(Rec {
            kind: Kind::Kept,
            point: Point { t, v: 0 },
        });
    }
    Ok(content)
}

// How many points a list from one time to another has, and whether there are more, as a text.
fn list_told(alloc: Global, content: &Content, from: u64, to: u64) -> Result<String, Fail> {
    let found = points(alloc, content, None, from, to)?;
    Ok(format!(in alloc; "{} {}", found.list.len(), found.more)?)
}

#[test]
fn at_most_256_points_are_listed(rt: HostRuntime) -> Result<(), Fail> {
    let content = each_time(&rt, rt.alloc())?;
    rows_tell(&rt, LISTED, " => ", |given| {
        let (from, to) = given.split_once(' ').ok_or("times")?;
        list_told(rt.alloc(), &content, number(&rt, from), number(&rt, to))
    })
}
