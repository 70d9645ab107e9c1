// Numbers and names at the edges of their ranges, and comparisons of sides that are equal or nearly so.
ghost use Rattle.std.specs.Prelude.{◌≡◌, ◌<◌};

use crate::spelled::rows_tell;
use std::alloc::Global;
use std::cmp::Ordering;
use std::marker::Brand;
use std::process::Abort;
use std::str::SplitWhitespace;
use std::sync::ledger::{Blank, Ledger};
use std::test::Fail;
use trend_num::{Point, Steps, deviates, in_range, line_at, name_from, numeral, slope_cmp};

// A numeral is 1 to 20 digits, with an optional `-` before them.
const NUMERALS: &str = "\
0 => Some(0)
-0 => Some(0)
-17 => Some(-17)
99999999999999999999 => Some(99999999999999999999)
000000000000000000000 => None
+1 => None
--1 => None
 => None";

// A name is 1 to 64 letters, digits, dots, underscores and hyphens.
const NAMES: &str = "\
FIC101.PV => true
x_-.9Z => true
0123456789012345678901234567890123456789012345678901234567890123 => true
0123456789012345678901234567890123456789012345678901234567890123x => false
two words => false
 => false";

// A time and a value, and whether they are in range.
const POINTS: &str = "\
253402300799999 1000000000000000 => true
253402300799999 -1000000000000000 => true
253402300800000 0 => false
0 1000000000000001 => false
0 -1000000000000001 => false";

// The two ends of a line and a time, and the value of the line there.
const LINES: &str = "\
0 0 2 -1 1 => -1/2
0 0 2 1 2 => 2/2
10 5 20 25 15 => 150/10";

// Reads the next field of a row as a time.
fn time(rt: &impl Abort, fields: &mut SplitWhitespace) -> u64 {
    let field = fields.next().expect(rt, "a field");
    field.parse::<u64>().expect(rt, "a time")
}

// Reads the next two fields of a row as a time and a value.
fn point(rt: &impl Abort, fields: &mut SplitWhitespace) -> Point {
    let t = time(rt, fields);
    let field = fields.next().expect(rt, "a field");
    let v = field.parse::<i64>().expect(rt, "a value");
    Point { t, v }
}

#[test]
fn numerals_have_a_sign_and_twenty_digits(rt: HostRuntime) -> Result<(), Fail> {
    rows_tell(&rt, NUMERALS, " => ", |text| {
        Ok(format!(in rt.alloc(); "{:?}", numeral(text.as_bytes()))?)
    })
}

// Whether a text is a name, which then has the text's bytes.
fn is_name(text: &str) -> bool {
    match name_from(text.as_bytes()) {
        Some(name) => name.bytes() == text.as_bytes(),
        None => false,
    }
}

#[test]
fn names_are_short_and_plain(rt: HostRuntime) -> Result<(), Fail> {
    rows_tell(&rt, NAMES, " => ", |text| {
        Ok(format!(in rt.alloc(); "{}", is_name(text))?)
    })
}

// Whether the point that a row spells is in range.
fn range_told(rt: &impl Abort, alloc: Global, given: &str) -> Result<String, Fail> {
    let p = point(rt, &mut given.split_whitespace());
    Ok(format!(in alloc; "{}", in_range(p))?)
}

#[test]
fn ranges_end_at_their_limits(rt: HostRuntime) -> Result<(), Fail> {
    rows_tell(
        &rt,
        POINTS,
        " => ",
        |given| range_told(&rt, rt.alloc(), given),
    )
}

// The value of a line at a time.
fn line_told(rt: &impl Abort, alloc: Global, given: &str) -> Result<String, Fail> {
    let mut fields = given.split_whitespace();
    let a = point(rt, &mut fields);
    let b = point(rt, &mut fields);
    let t = time(rt, &mut fields);
    assert!(rt; in_range(a));
    assert!(rt; in_range(b));
    assert!(rt; a.t <= t && t <= b.t && a.t < b.t);
    let f = line_at(a, b, t);
    Ok(format!(in alloc; "{}/{}", f.num, f.den)?)
}

#[test]
fn a_line_reads_between_its_ends(rt: HostRuntime) -> Result<(), Fail> {
    rows_tell(
        &rt,
        LINES,
        " => ",
        |given| line_told(&rt, rt.alloc(), given),
    )
}

// Compares deviations and slopes. Counts on the ledger of the blank.
fn compared<L: Ledger>(rt: &impl Abort, blank: Blank)
    requires name { blank.name ≡ L.name }
    requires parts { blank.parts ≡ L.parts }
    requires some { 0 < L.parts }
{
    let mut steps = Steps::<L>::new(blank);
    let a = Point { t: 0, v: 0 };
    let b = Point { t: 20, v: 0 };
    let p = Point { t: 10, v: 1 };
    let q = Point { t: 10, v: 2 };
    // From (0,0) to (20,0) the point (10,1) is exactly 1 above the line.
    assert!(rt; !deviates(a, b, p, 1, &mut steps));
    assert!(rt; deviates(a, b, q, 1, &mut steps));
    // Raised by 1, the slopes are 2/10 and 1/20; as they are, 1/10 and 2/10.
    assert_eq!(rt; slope_cmp(a, p, 1, b, 1, &mut steps), Ordering::Greater);
    assert_eq!(rt; slope_cmp(a, p, 0, q, 0, &mut steps), Ordering::Less);
    assert_eq!(rt; slope_cmp(a, p, 1, q, 0, &mut steps), Ordering::Equal);
}

#[test]
fn comparisons_are_exact(rt: HostRuntime) {
    compared::<Brand>(&rt, Blank::new(1));
}
