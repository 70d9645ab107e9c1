// Tables of rows, and what tests tell of them.
use std::process::Abort;
use std::test::Fail;

/// Compares what was told of what a row gives with what is wanted.
pub fn same(rt: &impl Abort, told: &str, want: &str, given: &str) {
    assert_eq!(rt; told, want, "{given}");
}

/// Checks each row of a table. A row gives something before `arrow`, and says after it what `tell` is to tell of it.
pub fn rows_tell<F: FnMut(&str) -> Result<String, Fail>>(
    rt: &impl Abort,
    rows: &str,
    arrow: &str,
    mut tell: F,
) -> Result<(), Fail>
    requires { F.IsAlwaysCallable tell }
{
    for row in rows.lines() {
        let (given, want) = row.split_once(arrow).ok_or("row")?;
        let told = tell(given)?;
        same(rt, told.as_str(), want, given);
    }
    Ok(())
}
