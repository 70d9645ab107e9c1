// The numbers and texts that the rows of tables spell, and what tests tell of them.
use std::alloc::{AllocError, Global};
use std::process::Abort;
use std::test::Fail;

/// Compares what was told of what a row gives with what is wanted.
pub fn same(rt: &impl Abort, told: &str, want: &str, given: &str) {
    assert_eq!(rt; told, want, "{given}");
}

/// Checks each row of a table. A row gives something before `arrow`, and says after it what `tell` is to tell of it.
pub fn rows_tell<F: FnMut(&str) -> Result<String, Fail>>(
    rt: &impl Abort,
    rows: &str,
    arrow: &str,
    mut tell: F,
) -> Result<(), Fail>
    requires { F.IsAlwaysCallable tell }
{
    for row in rows.lines() {
        let (given, want) = row.split_once(arrow).ok_or("row")?;
        let told = tell(given)?;
        same(rt, told.as_str(), want, given);
    }
    Ok(())
}

/// Returns the number that a field spells.
pub fn number(rt: &impl Abort, field: &str) -> u64 {
    field.parse::<u64>().expect(rt, "a number")
}

/// Returns the text that a field spells. In the field a bar is a line feed, a caret a carriage return, a number sign a
/// byte order mark, and a tilde two more rows.
pub fn text(alloc: Global, field: &str) -> Result<String, AllocError> {
    let mut text = String::new(alloc);
    for c in field.chars() {
        match c {
            '|' => text.push('\n')?,
            '^' => text.push('\r')?,
            '#' => text.push('\u{feff}')?,
            '~' => text.push_str("a.b,1700000000986,5005\nT1,1700000001518,-4998\n")?,
            _ => text.push(c)?,
        }
    }
    Ok(text)
}
