// Calendars in which each rule is broken, first alone and then together with another one.
use shift_calendar::{CalNo, Name, read_calendar};
use std::alloc::{AllocError, Global};
use std::fmt::Write;
use std::process::Abort;
use std::test::Fail;
use trend_num::name_from;

const CALENDAR: &str = r#"zone = "CET-1CEST,M3.5.0,M10.5.0/3"
starts = ["06:00", "14:00", "22:00"]
tags = ["T3", "T1"]
measure = "total"
"#;

// Texts of the calendar and what replaces their first occurrence. After the double arrow come the places of its tags
// and its measure, or the number of the rule that is broken.
const ROWS: &str = r#"zone -> zone => [2, 0] Total
zone = -> zone == => 1
zone = -> zones = => 2
zone = -> x = 1 # => 2
measure -> zone => 1
"total" -> "area" => [2, 0] Area
"total" -> "avg" => [2, 0] Avg
"total" -> "low" => [2, 0] Low
"total" -> "high" => [2, 0] High
"total" -> "count" => [2, 0] Count
"total" -> "first" => [2, 0] First
"total" -> "last" => [2, 0] Last
"total" -> "Total" => 6
"total" -> 1 => 6
"CET-1CEST,M3.5.0,M10.5.0/3" -> "EST5" => [2, 0] Total
"CET-1CEST,M3.5.0,M10.5.0/3" -> "Europe/Berlin" => 3
"CET-1CEST,M3.5.0,M10.5.0/3" -> "" => 3
"CET-1CEST,M3.5.0,M10.5.0/3" -> 1 => 3
["06:00", "14:00", "22:00"] -> ["14:00", "06:00"] => 4
["06:00", "14:00", "22:00"] -> ["06:00", "06:00"] => 4
["06:00", "14:00", "22:00"] -> [] => 4
["06:00", "14:00", "22:00"] -> "06:00" => 4
"22:00" -> "23:59" => [2, 0] Total
"22:00" -> "24:00" => 4
"22:00" -> "22:60" => 4
"22:00" -> "22:0" => 4
"22:00" -> "22-00" => 4
"22:00" -> "22:00 " => 4
"06:00" -> "6:00" => 4
"06:00" -> 6 => 4
["T3", "T1"] -> ["V2"] => [1] Total
["T3", "T1"] -> [] => 5
["T3", "T1"] -> "T3" => 5
["T3", "T1"] -> ["T3", 1] => 5
["T3", "T1"] -> ["T3", "T9"] => 5
["T3", "T1"] -> ["T3", "T3"] => 5
["T3", "T1"] -> ["T3", "t1"] => 5
zone = -> zones = & "14:00" -> "05:00" => 2
zone = "CET -> zone = "C & "14:00" -> "05:00" => 3
"14:00" -> "05:00" & "T1" -> "T3" => 4
"T1" -> "T3" & "total" -> "sum" => 5"#;

// The names of the tags of a plant.
fn names(rt: &impl Abort) -> [Name; 3] {
    [name(rt, "T1"), name(rt, "V2"), name(rt, "T3")]
}

// Returns the name that a text spells.
fn name(rt: &impl Abort, text: &str) -> Name {
    name_from(text.as_bytes()).expect(rt, "a name")
}

// Returns the calendar after these edits. Each edit replaces the first occurrence of a text.
fn edited(alloc: Global, edits: &str) -> Result<String, Fail> {
    let mut whole = String::from_str(alloc, CALENDAR)?;
    for edit in edits.split(" & ") {
        let (old, new) = edit.split_once(" -> ").unwrap_or(("", ""));
        let parts = whole.as_str().split_once(old);
        let (front, rest) = parts.ok_or("nothing to replace")?;
        whole = format!(in alloc; "{front}{new}{rest}")?;
    }
    Ok(whole)
}

// Reads a calendar, and returns the result as a text.
fn told(alloc: Global, text: &[u8], names: &[Name; 3]) -> Result<String, AllocError> {
    match read_calendar(alloc, text, names) {
        Ok(calendar) => format!(in alloc; "{:?} {:?}", calendar.tags(), calendar.measure()),
        Err(CalNo::BadText { rule }) => format!(in alloc; "{rule}"),
        Err(CalNo::WantOfMemory) => String::from_str(alloc, "memory"),
    }
}

#[test]
fn a_calendar_is_refused_for_the_first_rule_that_it_breaks(rt: HostRuntime) -> Result<(), Fail> {
    let alloc = rt.alloc();
    let names = names(&rt);
    for row in ROWS.lines() {
        let (edits, want) = row.split_once(" => ").ok_or("row")?;
        let text = edited(alloc, edits)?;
        let told = told(alloc, text.as_bytes(), &names)?;
        assert_eq!(rt; told.as_str(), want, "{edits}");
    }
    assert_eq!(rt; told(alloc, b"\xff", &names)?.as_str(), "1");
    Ok(())
}

// Returns a calendar with so many shifts and tags.
fn large(alloc: Global, starts: u32, tags: u32) -> Result<String, AllocError> {
    let mut text = String::from_str(alloc, "zone = \"EST5\"\nmeasure = \"low\"\nstarts = [")?;
    for i in 0..starts {
        write!(text, "\"00:{}\",", u64::from(i) + 10)?;
    }
    text.push_str("]\ntags = [")?;
    for tag in 0..tags {
        write!(text, "\"T{tag}\",")?;
    }
    text.push_str("]\n")?;
    Ok(text)
}

// How many shifts and tags there are, and what reading the calendar returns.
const SIZES: &str = "\
24 64 => ok 64
25 64 => 4
24 65 => 5";

#[test]
fn a_calendar_has_so_many_shifts_and_tags_at_most(rt: HostRuntime) -> Result<(), Fail> {
    let alloc = rt.alloc();
    let mut names = Vec::new(alloc);
    for tag in 0..65u64 {
        names.push(name(&rt, format!(in alloc; "T{tag}")?.as_str()))?;
    }
    assert_eq!(rt; names.len(), 65);
    for row in SIZES.lines() {
        let (given, want) = row.split_once(" => ").ok_or("row")?;
        let (starts, tags) = given.split_once(' ').ok_or("sizes")?;
        let text = large(alloc, starts.parse::<u32>()?, tags.parse::<u32>()?)?;
        let told = match read_calendar(alloc, text.as_bytes(), &names) {
            Ok(calendar) => format!(in alloc; "ok {}", calendar.tags().len())?,
            Err(CalNo::BadText { rule }) => format!(in alloc; "{rule}")?,
            Err(CalNo::WantOfMemory) => String::from_str(alloc, "memory")?,
        };
        assert_eq!(rt; told.as_str(), want, "{given}");
    }
    Ok(())
}
