// Days as words.
use shift_calendar::{day_of_word, word_of_day};
use std::alloc::{AllocError, Global};
use std::test::Fail;

// A text, and the number of the day that it spells, counted from 1970-01-01.
const WORDS: &str = "\
1971-01-01 => 365
1970-12-31 => none
9990-12-31 => 2929609
9991-01-01 => none
2024-02-29 => 19782
2024-02-30 => none
2023-02-29 => none
2024-13-01 => none
2024-00-10 => none
2024-10-00 => none
2024-3-30 => none
20240330 => none
2024-03-30T00:00 => none
2024-W13-6 => none
+002024-03-30 => none
2024/03/30 => none
 2024-03-30 => none
2024-03-30  => none
 => none";

// Returns the number of the day of a word. It also checks that the word is the word of that day.
fn told(alloc: Global, word: &str) -> Result<String, AllocError> {
    let Some(day) = day_of_word(word) else {
        return String::from_str(alloc, "none");
    };
    let spelled = word_of_day(day);
    if spelled.text() != word {
        return String::from_str(alloc, "the day of another word");
    }
    format!(in alloc; "{day}")
}

#[test]
fn a_day_has_one_word(rt: HostRuntime) -> Result<(), Fail> {
    let alloc = rt.alloc();
    for row in WORDS.lines() {
        let (word, want) = row.split_once(" => ").ok_or("row")?;
        let told = told(alloc, word)?;
        assert_eq!(rt; told.as_str(), want, "{word}");
    }
    Ok(())
}
