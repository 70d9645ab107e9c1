// Contents of few records, and of so many that they fill pages.
ghost use Rattle.std.specs.Prelude.{IsTrue, All};
ghost use Rattle.trend_num.specs.{InRange};

use crate::spelled::{content, number, rows_tell, same};
use late_insert::{Content, Kind, Point, Rec, Runs};
use std::alloc::{AllocError, Global};
use std::process::Abort;
use std::test::Fail;
use trend_num::in_range;

// Records in the order in which they come, and the points that the content lists. A star marks a late record. A late
// record takes the place of a kept one with its time. A kept record does not take the place of a late one.
const LISTED: &str = "\
10,8 0,0 => 0,0 10,8
 =>
0,0 *0,4 10,8 0,5 => 0,4* 10,8
*0,4 *0,6 => 0,6*
5,1 7,2 *6,9 *1,1 7,3 => 1,1* 5,1 6,9* 7,3";

// The points around a time in the content (0,4), (10,8). First how many points are before the time, and how many are
// not after it. Then the last point before it, and the first one that is not before it.
const AROUND: &str = "\
0 => 0 1 None Some(Point { t: 0, v: 4 })
9 => 1 1 Some(Point { t: 0, v: 4 }) Some(Point { t: 10, v: 8 })
10 => 1 2 Some(Point { t: 0, v: 4 }) Some(Point { t: 10, v: 8 })
11 => 2 2 Some(Point { t: 10, v: 8 }) None";

// The pages of the points (2i,i) from the 101st to the 290th. For each page: its first and last value, twice the area
// under the line, and twice the area under the stair.
const RUNS: &str = "\
100 127 12258 12204
128 255 97282 97028
256 289 35970 35904";

// A point that a content lists, as a text. A star marks a late one.
fn point_told(alloc: Global, content: &Content, p: Point) -> Result<String, Fail> {
    let mark = if content.late_at(p.t) { "*" } else { "" };
    Ok(format!(in alloc; " {},{}{mark}", p.t, p.v)?)
}

// The points that a content lists, as a text.
fn listed_told(alloc: Global, content: &Content) -> Result<String, Fail> {
    let mut told = String::new(alloc);
    for i in 0..content.len() {
        told.push_str(&point_told(alloc, content, content.point(i))?)?;
    }
    Ok(told)
}

#[test]
fn records_are_listed_in_order_of_time(rt: HostRuntime) -> Result<(), Fail> {
    rows_tell(&rt, LISTED, " =>", |given| {
        listed_told(rt.alloc(), &content(&rt, rt.alloc(), given)?)
    })
}

// The points around a time, as a text.
fn around_told(alloc: Global, content: &Content, t: u64) -> Result<String, Fail> {
    let a = content.around(t);
    Ok(format!(in alloc; "{} {} {:?} {:?}", a.below, a.upto, a.before, a.after)?)
}

#[test]
fn the_points_around_a_time_are_found(rt: HostRuntime) -> Result<(), Fail> {
    let content = content(&rt, rt.alloc(), "10,8 0,4")?;
    rows_tell(&rt, AROUND, " => ", |given| {
        around_told(rt.alloc(), &content, number(&rt, given))
    })
}

// Kept records of `count` points (2i,i).
fn rising(alloc: Global, count: u32) -> Result<Vec<Rec>, AllocError> {
    let mut recs = Vec::new(alloc);
    for i in 0..count {
        recs.push(Rec {
            kind: Kind::Kept,
            point: Point {
                t: 2 * u64::from(i),
                v: i64::from(i),
            },
        })?;
    }
    Ok(recs)
}

// Whether the points of all records are in range.
fn all_in_range(recs: &[Rec]) -> bool
    ensures { IsTrue result → All (λ r. InRange r.point) recs.now }
{
    for i in 0..recs.len() {
        if !in_range(recs[i].point) {
            return false;
        }
    }
    true
}

// The next run of a content, as a text.
fn run_told(alloc: Global, runs: &mut Runs) -> Result<String, Fail> {
    let run = runs.next().ok_or("a run")?;
    let (first, last) = (run.first().v, run.last().v);
    Ok(format!(in alloc; "{first} {last} {} {}", run.area(false), run.area(true))?)
}

// Compares the runs of a content of 130,000 points, from the 101st to the 290th, with the rows of `RUNS`.
fn runs_are_told(rt: &impl Abort, alloc: Global, content: &Content) -> Result<(), Fail> {
    assert!(rt; content.len() == 130_000);
    let mut runs = content.runs(100, 290);
    for row in RUNS.lines() {
        let told = run_told(alloc, &mut runs)?;
        same(rt, told.as_str(), row, "a run");
    }
    assert!(rt; runs.next().is_none());
    Ok(())
}

// The content of 130,000 points (2i,i).
fn many(rt: &impl Abort, alloc: Global) -> Result<Content, Fail> {
    let recs = rising(alloc, 130_000)?;
    assert!(rt; all_in_range(recs.as_slice()));
    Ok(Content::from_records(alloc, recs.as_slice(), 0)?)
}

// What a content of 130,000 points has: how many, and how many more may come; the last one not after a time; and how
// many are before a time.
fn many_told(alloc: Global, content: &Content) -> Result<String, Fail> {
    let (len, spare) = (content.len(), content.spare());
    let (floor, below) = (content.floor(259_999), content.below(130_000));
    Ok(format!(in alloc; "{len} {spare} {floor:?} {below}")?)
}

#[test]
fn many_records_in_order_fill_pages(rt: HostRuntime) -> Result<(), Fail> {
    let content = many(&rt, rt.alloc())?;
    let told = many_told(rt.alloc(), &content)?;
    let want = "130000 0 Some(Point { t: 259998, v: 129999 }) 65000";
    same(&rt, told.as_str(), want, "130,000 points");
    runs_are_told(&rt, rt.alloc(), &content)
}
