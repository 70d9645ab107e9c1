// Lines of points, and printed archives.
use crate::spelled::{rows_tell, same, text};
use byte_io::MemSink;
use point_text::{
    Front, Kind, Point, Reason, Rec, first_point, plain_point, point_of_line, short_line,
    write_archive,
};
use std::alloc::Global;
use std::process::Abort;
use std::test::Fail;

// A line, in which a caret is a carriage return, and its point or the first reason to refuse it.
const LINES: &str = "\
1700000000986,5005 => 1700000000986 5005
0,0 => 0 0
12345678,-87654321 => 12345678 -87654321
123456789,-987654321 => 123456789 -987654321
253402300799999,-1000000000000000 => 253402300799999 -1000000000000000
0000000000000007,0000000000000008 => 7 8
00000000000000000007,00000000000000000008 => 7 8
00000000000000000001,-1000000000000000 => 1 -1000000000000000
-0,-0 => 0 0
007,-0008 => 7 -8
7,8^ => 7 8
1700000000986,-5005^ => 1700000000986 -5005
 => Fields
^ => Fields
12345678 => Fields
1,2,3 => Fields
x,y,z => Fields
1, 2 => Number
 1,2 => Number
1,2  => Number
,1 => Number
1, => Number
1,- => Number
1,+1 => Number
1,--2 => Number
--1,2 => Number
1,2/ => Number
1,2: => Number
1234567é,2 => Number
1,000000000000000000001 => Number
1,2^^ => Number
1,2^3 => Number
253402300800000,0 => Range
-1,0 => Range
0,1000000000000001 => Range
0,-1000000000000001 => Range";

// A line that is too long to have a point, and the short line that is taken in its place.
const LONG: &str = "\
000000000000000000000000000000000000000000001 => x
0000000000000000000000,0000000000000000000001 => x,
0000000000000000000000,000000000000000000000, => x,,
,,,,,,,,,,,,,,,,,,,,,,,,,,,,,,,,,,,,,,,,,,,,, => x,,";

// Lines that begin alike, one after another.
const FRONTS: &str = "\
0000000000007,8| => 7 8
1700000000986,5005| => 1700000000986 5005
1700000001518,-4^| => 1700000001518 -4
17000000,-4| => 17000000 -4
170000000012,0| => 170000000012 0
1800000001518,7| => 1800000001518 7";

// The answer for a line: its point, or the reason to refuse it.
fn told(alloc: Global, answer: Result<Point, Reason>) -> Result<String, Fail> {
    Ok(match answer {
        Ok(p) => format!(in alloc; "{} {}", p.t, p.v)?,
        Err(why) => format!(in alloc; "{why:?}")?,
    })
}

// The answer for the first line of a text, after which `left` bytes remain.
fn first_told(rt: &impl Abort, alloc: Global, text: &str, left: usize) -> Result<String, Fail> {
    let (answer, rest) = first_point(text.as_bytes()).expect(rt, "a line");
    assert!(rt; rest.len() == left);
    told(alloc, answer)
}

// The answer for a line, which is the same alone and with more lines behind it.
fn line_told(rt: &impl Abort, alloc: Global, given: &str) -> Result<String, Fail> {
    let line = text(alloc, given)?;
    let short = format!(in alloc; "{line}\n")?;
    let long = format!(in alloc; "{line}\n1700000000986,5005\n1700000001518,-4998\n")?;
    let told = first_told(rt, alloc, short.as_str(), 0)?;
    let again = first_told(rt, alloc, long.as_str(), 39)?;
    same(rt, again.as_str(), told.as_str(), given);
    Ok(told)
}

#[test]
fn the_first_line_of_a_text_is_read(rt: HostRuntime) -> Result<(), Fail> {
    rows_tell(&rt, LINES, " => ", |given| {
        line_told(&rt, rt.alloc(), given)
    })
}

#[test]
fn a_line_without_its_end_is_no_first_line(rt: HostRuntime) {
    assert!(rt; first_point(b"1,2").is_none());
    assert!(rt; point_of_line(b"1,2").is_ok());
    assert!(rt; point_of_line(b"1,2\r") == Err(Reason::Number));
}

// The short line that stands for a long one, which has no point.
fn short_told(rt: &impl Abort, alloc: Global, line: &str) -> Result<String, Fail> {
    let line = line.as_bytes();
    assert!(rt; line.len() > 44);
    assert!(rt; first_point(line).is_none());
    Ok(String::from_utf8(short_line(line).to_vec(alloc)?).map_err(|_| "text")?)
}

#[test]
fn a_short_line_stands_for_a_long_one(rt: HostRuntime) -> Result<(), Fail> {
    rows_tell(&rt, LONG, " => ", |line| {
        short_told(&rt, rt.alloc(), line)
    })
}

// The point of a line, in a text that goes on behind it.
fn plain_told(alloc: Global, front: &mut Front, given: &str) -> Result<String, Fail> {
    let line = text(alloc, given)?;
    let long = format!(in alloc; "{line}--------------------------------")?;
    let (point, _) = plain_point(long.as_bytes(), front).ok_or("a point")?;
    told(alloc, Ok(point))
}

#[test]
fn a_front_serves_the_lines_that_begin_alike(rt: HostRuntime) -> Result<(), Fail> {
    let mut front = Front::new();
    rows_tell(&rt, FRONTS, " => ", |given| {
        plain_told(rt.alloc(), &mut front, given)
    })
}

#[test]
fn an_archive_is_printed(rt: HostRuntime) -> Result<(), Fail> {
    let recs = [
        Rec {
            kind: Kind::Late,
            point: Point { t: 0, v: 30 },
        },
        Rec {
            kind: Kind::Kept,
            point: Point { t: 1, v: -2 },
        },
    ];
    let widest = Point {
        t: u64::MAX,
        v: i64::MIN,
    };
    let mut out = MemSink::new(rt.alloc(), Vec::new(rt.alloc()));
    assert!(rt; write_archive(&mut out, &recs, Some(widest)).is_ok());
    assert!(rt; write_archive(&mut out, &[], None).is_ok());
    let want = b"late,0,30\nkept,1,-2\nheld,18446744073709551615,-9223372036854775808\n";
    assert!(rt; out.bytes() == want.as_slice());
    Ok(())
}
