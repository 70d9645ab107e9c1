// Windows of small contents, in each measure.
ghost use Rattle.std.specs.Prelude.{◌<◌, ◌≤◌};
ghost use Rattle.trend_num.specs.{last_time};

use crate::spelled::{content, number, rows_tell, same};
use late_insert::{Content, Kind, Point, Rec};
use std::alloc::Global;
use std::fmt::Write;
use std::process::Abort;
use std::test::Fail;
use trend_num::{MAX_T, Measure};
use weighted_total::{window, window_step, window_value};

const MEASURES: [Measure; 8] = [
    Measure::Area,
    Measure::Avg,
    Measure::Total,
    Measure::Low,
    Measure::High,
    Measure::Count,
    Measure::First,
    Measure::Last,
];

// A line or a stair through points, and when a window begins and ends. Then twice its area, its mean, its total, its
// least and its greatest value, its number of points, its first and its last value.
const SMALL: &str = "\
line 0,0 10,10 20,0 @ 5 15 => 150 8 0 5 10 1 5 5
line 0,0 10,10 20,0 @ 15 25 => no no no no no no no no
line 0,0 2,1 @ 1 2 => 2 1 0 1 1 0 1 1
line 0,0 2,-1 @ 1 2 => -1 0 0 -1 0 0 0 -1
stair 0,10 20,15 30,14 @ 0 30 => 700 12 0 10 15 2 10 14
line 0,1000000000000000 253402300799999,1000000000000000 @ 0 253402300799999 => \
506804601599998000000000000000 1000000000000000 253402300799999000000000000 1000000000000000 1000000000000000 1 \
1000000000000000 1000000000000000";

// Windows over four pages (of 108, 64, 64 and 64 points). The points have the times 0 to 299, and come in falling
// order. The value of each is its time modulo 7.
const LARGE: &str = "\
line 0 299 => 1789 3 1 0 6 299 0 5
stair 0 299 => 1784 3 1 0 6 299 0 5
stair 3 250 => 1484 3 1 0 6 247 3 5";

// All measures of a window, as a text.
fn measures(
    alloc: Global,
    content: &Content,
    step: bool,
    from: u64,
    to: u64,
) -> Result<String, Fail>
    requires order { from < to }
    requires reach { to ≤ last_time }
{
    let mut told = String::new(alloc);
    for m in MEASURES {
        match window_value(content, None, step, m, from, to) {
            Some(n) => write!(told, " {n}")?,
            None => told.push_str(" no")?,
        }
    }
    Ok(told)
}

// All measures of the window in a field `FROM TO`, as a text.
fn window_of(
    rt: &impl Abort,
    alloc: Global,
    content: &Content,
    step: bool,
    field: &str,
) -> Result<String, Fail> {
    let (from, to) = field.split_once(' ').ok_or("times")?;
    let (from, to) = (number(rt, from), number(rt, to));
    assert!(rt; from < to && to <= MAX_T);
    measures(alloc, content, step, from, to)
}

#[test]
fn a_window_has_each_measure(rt: HostRuntime) -> Result<(), Fail> {
    rows_tell(&rt, SMALL, " =>", |given| {
        let (kind, points) = given.split_once(' ').ok_or("kind")?;
        let (points, field) = points.split_once(" @ ").ok_or("window")?;
        let content = content(&rt, rt.alloc(), points)?;
        window_of(&rt, rt.alloc(), &content, kind == "stair", field)
    })
}

// The content of the points at the times 0 to 299, which come in falling order.
fn falling(rt: &impl Abort, alloc: Global) -> Result<Content, Fail> {
    let mut content = Content::new(alloc, 300)?;
    for i in 0..300u64 {
        let t = 299 - i;
        assert!(rt; content.spare() > 0);
        content.put(Rec {
            kind: Kind::Kept,
            point: Point {
                t,
                v: (t % 7) as i64,
            },
        });
    }
    Ok(content)
}

#[test]
fn a_window_over_pages_is_that_of_the_points(rt: HostRuntime) -> Result<(), Fail> {
    let content = falling(&rt, rt.alloc())?;
    rows_tell(&rt, LARGE, " =>", |given| {
        let (kind, field) = given.split_once(' ').ok_or("kind")?;
        window_of(&rt, rt.alloc(), &content, kind == "stair", field)
    })
}

// The last value of a stair, and the area under a line, from the point (20,15) to the held point (30,14).
fn held_told(alloc: Global) -> Result<String, Fail> {
    let mut content = Content::new(alloc, 1)?;
    content.put(Rec {
        kind: Kind::Kept,
        point: Point { t: 20, v: 15 },
    });
    let held = Some(Point { t: 30, v: 14 });
    let last = window_step(&content, held, Measure::Last, 20, 30);
    let area = window(&content, held, Measure::Area, 20, 30);
    Ok(format!(in alloc; "{last:?} {area:?}")?)
}

#[test]
fn a_held_point_ends_a_window(rt: HostRuntime) -> Result<(), Fail> {
    let told = held_told(rt.alloc())?;
    same(&rt, told.as_str(), "Some(14) Some(290)", "a held point");
    Ok(())
}
