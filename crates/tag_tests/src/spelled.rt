// The points and contents that the rows of tables spell, and what tests tell of them.
ghost use Rattle.trend_num.specs.{InRange};

use late_insert::{Content, Kind, Point, Rec};
use std::alloc::Global;
use std::process::Abort;
use std::test::Fail;
use trend_num::in_range;

/// Compares what was told of what a row gives with what is wanted.
pub fn same(rt: &impl Abort, told: &str, want: &str, given: &str) {
    assert_eq!(rt; told, want, "{given}");
}

/// Checks each row of a table. A row gives something before `arrow`, and says after it what `tell` is to tell of it.
pub fn rows_tell<F: FnMut(&str) -> Result<String, Fail>>(
    rt: &impl Abort,
    rows: &str,
    arrow: &str,
    mut tell: F,
) -> Result<(), Fail>
    requires { F.IsAlwaysCallable tell }
{
    for row in rows.lines() {
        let (given, want) = row.split_once(arrow).ok_or("row")?;
        let told = tell(given)?;
        same(rt, told.as_str(), want, given);
    }
    Ok(())
}

/// Reads a field as a number. The test aborts if it is none.
pub fn number(rt: &impl Abort, field: &str) -> u64 {
    field.parse::<u64>().expect(rt, "a number")
}

/// Reads a field `T,V` as a point, in milliseconds and value units. The test aborts if the field is no point in range.
pub fn point(rt: &impl Abort, field: &str) -> Point
    ensures { InRange result }
{
    let (t, v) = field.split_once(',').expect(rt, "a point");
    let t = number(rt, t);
    let v = v.parse::<i64>().expect(rt, "a value");
    let p = Point { t, v };
    assert!(rt; in_range(p));
    p
}

// Reads a field as a record. A star before it means a late one.
fn record(rt: &impl Abort, field: &str) -> Rec
    ensures { InRange result.point }
{
    match field.strip_prefix('*') {
        None => Rec {
            kind: Kind::Kept,
            point: point(rt, field),
        },
        Some(spelled) => Rec {
            kind: Kind::Late,
            point: point(rt, spelled),
        },
    }
}

/// Makes the content of at most eight records, which fields with blanks between them spell. The test aborts if there
/// are more.
pub fn content(rt: &impl Abort, alloc: Global, fields: &str) -> Result<Content, Fail> {
    let mut content = Content::new(alloc, 8)?;
    for field in fields.split_whitespace() {
        let rec = record(rt, field);
        assert!(rt; content.spare() > 0);
        content.put(rec);
    }
    Ok(content)
}
