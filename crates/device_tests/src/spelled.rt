// The numbers, points and bytes that the rows of tables spell, and what tests tell of them.
use std::process::Abort;
use std::test::Fail;
use trend_num::Point;

/// Compares what was told of what a row gives with what is wanted.
pub fn same(rt: &impl Abort, told: &str, want: &str, given: &str) {
    assert_eq!(rt; told, want, "{given}");
}

/// Checks each row `GIVEN => WANTED` of a table: `tell` is to tell of GIVEN what is wanted.
pub fn rows_tell<F: FnMut(&str) -> Result<String, Fail>>(
    rt: &impl Abort,
    rows: &str,
    mut tell: F,
) -> Result<(), Fail>
    requires { F.IsAlwaysCallable tell }
{
    for row in rows.lines() {
        let (given, want) = row.split_once(" => ").ok_or("row")?;
        let told = tell(given)?;
        same(rt, told.as_str(), want, given);
    }
    Ok(())
}

/// Returns the number that a field spells.
pub fn number(rt: &impl Abort, field: &str) -> u64 {
    field.parse::<u64>().expect(rt, "a number")
}

/// Returns the point that `T,V` spells.
pub fn point(rt: &impl Abort, field: &str) -> Point {
    let (t, v) = field.split_once(',').expect(rt, "a point");
    let t = number(rt, t);
    let v = v.parse::<i64>().expect(rt, "a value");
    Point { t, v }
}

/// Changes bytes; a field `PLACE=BYTE` names a place and the byte that it gets.
pub fn change(rt: &impl Abort, bytes: &mut [u8], fields: &str) {
    for field in fields.split_whitespace() {
        let (place, byte) = field.split_once('=').expect(rt, "a change");
        let place = bytes
            .get_mut(number(rt, place) as usize)
            .expect(rt, "a place");
        *place = byte.parse::<u8>().expect(rt, "a byte");
    }
}
