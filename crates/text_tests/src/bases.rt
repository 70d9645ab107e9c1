// Bases and plans with each rule broken, first alone and then together with another one.
use crate::spelled::{number, rows_tell, same, text};
use std::alloc::{AllocError, Global};
use std::fmt::Write;
use std::process::Abort;
use std::test::Fail;
use tag_base::{Base, Plan, TextNo, What, read_base, read_plan};

const BASE: &str = r#"[[tag]]
name = "T1"
exc_dev = 11
exc_max = 12
comp_dev = 13
comp_min = 14
comp_max = 15
[[tag]]
name = "V2"
exc_dev = 21
exc_max = 22
comp_dev = 23
comp_min = 24
comp_max = 25
step = true
[[tag]]
name = "T3"
exc_dev = 31
exc_max = 32
comp_dev = 33
comp_min = 34
comp_max = 35
descriptor = "flow"
engunits = "m3"
step = false
[[group]]
name = "g"
tags = ["T1"]
start = 41
period = 42
[[group.calc]]
name = "m"
formula = "avg('T1')"
[[group.calc]]
name = "n"
formula = "calc('m') + 1"
[[group]]
name = "h"
tags = ["T3", "T1"]
start = 51
period = 52
[[group.calc]]
name = "k"
formula = "low('T3')"
"#;

// Texts of the base that are replaced at their first occurrence. A bar is a line feed, a number sign a byte order mark.
// After `=>` come the numbers of tags and groups. For a refused text it is the broken rule, the place of its table, and
// the byte of the formula.
const BASES: &str = r#""T1" -> "T1 => 1 0 0
exc_dev = 11 -> exc_dev = 9223372036854775808 => 1 0 0
 => ok 3 2
exc_dev = 11 -> exc_dev = 0xB => ok 3 2
comp_min = 14 -> comp_min = 14|comp_min = 14 => 1 0 0
[[tag]] -> #[[tag]] => ok 3 2
[[tag]] -> x = 1|[[tag]] => 2 0 0
[[group]] -> [[groups]] => 1 0 0
[[tag]] -> tag = 1|[[tags]] => 1 0 0
comp_max = 15| ->  => 3 0 0
comp_max = 25| ->  => 3 1 0
comp_max = 25 -> comp_max = 25|other = 1 => 3 1 0
descriptor = "flow" -> descriptor = 5 => 3 2 0
engunits = "m3" -> engunits = ["m3"] => 3 2 0
"V2" -> 5 => 4 1 0
"V2" -> "V 2" => 4 1 0
"V2" -> "" => 4 1 0
"V2" -> "T1" => 4 1 0
"V2" -> "t1" => ok 3 2
exc_dev = 21 -> exc_dev = -1 => 5 1 0
exc_dev = 21 -> exc_dev = 0 => ok 3 2
exc_dev = 21 -> exc_dev = 1000000000000000 => ok 3 2
exc_dev = 21 -> exc_dev = 1000000000000001 => 5 1 0
exc_max = 22 -> exc_max = 253402300799999 => ok 3 2
exc_max = 22 -> exc_max = 253402300800000 => 5 1 0
comp_dev = 23 -> comp_dev = 23.0 => 5 1 0
comp_min = 24 -> comp_min = true => 5 1 0
comp_max = 25 -> comp_max = "25" => 5 1 0
step = true -> step = 1 => 5 1 0
"V2" -> "V 2" & exc_dev = 21 -> exc_dev = -1 => 4 1 0
"V2" -> "T1" & comp_max = 25| ->  => 3 1 0
comp_max = 25 -> comp_max = -1 & comp_max = 15 -> comp_max = -1 => 5 0 0
comp_max = 35 -> comp_max = -1 & "g" -> "g h" => 5 2 0
start = 51| ->  => 6 1 0
start = 51 -> start = 51|x = 1 => 6 1 0
"h" -> "g" => 7 1 0
"h" -> 7 => 7 1 0
"h" -> "T1" => ok 3 2
["T3", "T1"] -> [] => 8 1 0
["T3", "T1"] -> "T3" => 8 1 0
["T3", "T1"] -> ["T3", 1] => 8 1 0
["T3", "T1"] -> ["T3", "T9"] => 8 1 0
["T3", "T1"] -> ["T3", "T3"] => 8 1 0
["T3", "T1"] -> ["T3", "V2"] => 8 1 0
start = 51 -> start = -1 => 9 1 0
start = 51 -> start = 253402300799999 => ok 3 2
start = 51 -> start = 253402300800000 => 9 1 0
period = 52 -> period = 0 => 9 1 0
period = 52 -> period = 1000000000000 => ok 3 2
period = 52 -> period = 1000000000001 => 9 1 0
[[group.calc]]|name = "k"|formula = "low('T3')" -> calc = [] => 10 1 0
[[group.calc]]|name = "k"|formula = "low('T3')" -> calc = 1 => 10 1 0
name = "k" -> name = "k"|y = "1" => 10 1 0
name = "k"| ->  => 10 1 0
"k" -> 3 => 10 1 0
"k" -> "k k" => 10 1 0
"n" -> "m" => 10 0 0
"low('T3')" -> 5 => 10 1 0
"low('T3')" -> "low('T3'" => 11 1 8
"low('T3')" -> "" => 11 1 0
"low('T3')" -> "1000000000000000001" => 11 1 0
"low('T3')" -> "---------------------------------1" => 11 1 32
"low('T3')" -> "--------------------------------1" => ok 3 2
"low('T3')" -> "low('V2')" => 12 1 0
"low('T3')" -> "calc('k')" => 12 1 0
"low('T3')" -> "calc('m')" => 12 1 0
"avg('T1')" -> "calc('n')" => 12 0 0
"avg('T1')" -> "avg('T3')" => 12 0 0
"h" -> "g" & start = 51| ->  => 6 1 0
"h" -> "g" & ["T3", "T1"] -> [] => 7 1 0
["T3", "T1"] -> [] & period = 52 -> period = 0 => 8 1 0
period = 52 -> period = 0 & "k" -> 3 => 9 1 0
"avg('T1')" -> "avg('T1'" & "n" -> "m" => 10 0 0
"avg('T1')" -> "avg('T9')" & "calc('m') + 1" -> "1 +" => 11 0 3
"avg('T1')" -> "avg('T9')" & start = 51| ->  => 12 0 0"#;

// How many tags and groups there are, and how many calculations each group has.
const TABLES: &str = "\
1024 16 64 => ok 1024 16
1025 17 65 => Tags 1025
1024 17 65 => Groups 17
1 16 65 => Calcs 65
1 0 0 => ok 1 0";

// The answer for a text that breaks a rule.
fn told(alloc: Global, no: TextNo) -> Result<String, AllocError> {
    match no {
        TextNo::BadText { rule, place, at } => format!(in alloc; "{rule} {place} {at}"),
        TextNo::Limit { what, number } => format!(in alloc; "{what:?} {number}"),
        TextNo::WantOfMemory => String::from_str(alloc, "memory"),
    }
}

// How many tags and groups a base has, or the answer for a text that is refused.
fn base_counts(alloc: Global, bytes: &[u8]) -> Result<String, AllocError> {
    match read_base(alloc, bytes) {
        Ok(base) => format!(in alloc; "ok {} {}", base.tags.len(), base.groups.len()),
        Err(no) => told(alloc, no),
    }
}

// The text after edits: in each pair the first text is replaced, at its first occurrence, by the second.
fn edited(alloc: Global, whole: &str, edits: &str) -> Result<String, Fail> {
    let mut whole = String::from_str(alloc, whole)?;
    for edit in edits.split(" & ") {
        let (old, new) = edit.split_once(" -> ").unwrap_or(("", ""));
        let (old, new) = (text(alloc, old)?, text(alloc, new)?);
        let parts = whole.as_str().split_once(old.as_str());
        let (front, rest) = parts.ok_or("nothing to replace")?;
        whole = format!(in alloc; "{front}{new}{rest}")?;
    }
    Ok(whole)
}

// The answer for the base after edits.
fn base_told(alloc: Global, edits: &str) -> Result<String, Fail> {
    let text = edited(alloc, BASE, edits)?;
    Ok(base_counts(alloc, text.as_bytes())?)
}

#[test]
fn a_base_is_refused_for_the_first_rule_that_it_breaks(rt: HostRuntime) -> Result<(), Fail> {
    rows_tell(&rt, BASES, " => ", |edits| base_told(rt.alloc(), edits))?;
    let told = base_counts(rt.alloc(), b"\xff")?;
    same(&rt, told.as_str(), "1 0 0", "no text");
    Ok(())
}

// Appends so many tags to a base.
fn push_tags(text: &mut String, tags: u64) -> Result<(), Fail> {
    for i in 0..tags {
        write!(text, "[[tag]]\nname = \"T{i}\"\nexc_dev = 0\nexc_max = 0\n")?;
        text.push_str("comp_dev = 0\ncomp_min = 0\ncomp_max = 0\n")?;
    }
    Ok(())
}

// Appends so many calculations to a group.
fn push_calcs(text: &mut String, calcs: u64) -> Result<(), Fail> {
    for j in 0..calcs {
        write!(text, "[[group.calc]]\nname = \"c{j}\"\nformula = \"1\"\n")?;
    }
    Ok(())
}

// A base of so many tags and groups, in which each group has so many calculations.
fn large_base(alloc: Global, tags: u64, groups: u64, calcs: u64) -> Result<String, Fail> {
    let mut text = String::new(alloc);
    push_tags(&mut text, tags)?;
    for i in 0..groups {
        write!(
            text,
            "[[group]]\nname = \"g{i}\"\ntags = [\"T0\"]\nstart = 0\nperiod = 1\n"
        )?;
        push_calcs(&mut text, calcs)?;
    }
    Ok(text)
}

// The answer for a base of as many tables as a row gives.
fn tables_told(rt: &impl Abort, alloc: Global, given: &str) -> Result<String, Fail> {
    let (tags, rest) = given.split_once(' ').ok_or("tags")?;
    let (groups, calcs) = rest.split_once(' ').ok_or("groups")?;
    let (tags, groups, calcs) = (number(rt, tags), number(rt, groups), number(rt, calcs));
    let text = large_base(alloc, tags, groups, calcs)?;
    Ok(base_counts(alloc, text.as_bytes())?)
}

#[test]
fn a_base_has_so_many_tables_at_most(rt: HostRuntime) -> Result<(), Fail> {
    rows_tell(&rt, TABLES, " => ", |given| {
        tables_told(&rt, rt.alloc(), given)
    })
}

// The digit 1, so many times.
fn letters(alloc: Global, count: usize) -> Result<String, Fail> {
    Ok(String::from_utf8(vec![in alloc; b'1'; count]?).map_err(|_| "bytes")?)
}

// A text of the base, how many digits take its place, and the answer.
const LENGTHS: &str = "\
V2 | 64 => ok 3 2
V2 | 65 => 4 1 0
calc('m') + 1 | 1025 => 11 0 1024";

// A text, and as many digits as stand behind the bar, as an edit that puts these in its place.
fn edit_of(rt: &impl Abort, alloc: Global, given: &str) -> Result<String, Fail> {
    let (old, count) = given.split_once(" | ").ok_or("count")?;
    let digits = letters(alloc, number(rt, count) as usize)?;
    Ok(format!(in alloc; "{old} -> {digits}")?)
}

#[test]
fn names_and_formulas_have_so_many_bytes_at_most(rt: HostRuntime) -> Result<(), Fail> {
    rows_tell(&rt, LENGTHS, " => ", |given| {
        base_told(rt.alloc(), edit_of(&rt, rt.alloc(), given)?.as_str())
    })
}

// The second tag of a base, as text.
fn tag_told(alloc: Global, base: &Base) -> Result<String, Fail> {
    let tag = base.tags.get(1).ok_or("tag")?;
    let name = str::from_utf8(tag.name.bytes()).map_err(|_| "text")?;
    let t = tag.tuning;
    let tuning = [t.exc_dev, t.exc_max, t.comp_dev, t.comp_min, t.comp_max];
    Ok(format!(in alloc; "{name} {tuning:?} {}", tag.step)?)
}

// The second group of a base, as text: its inputs, its start, its period, and how many calculations it has.
fn group_told(alloc: Global, base: &Base) -> Result<String, Fail> {
    let group = base.groups.get(1).ok_or("group")?;
    let calcs = group.calcs.defs().len();
    Ok(format!(in alloc;
        "{:?} {} {} {calcs}",
        group.inputs, group.start, group.period
    )?)
}

#[test]
fn a_base_holds_what_its_text_says(rt: HostRuntime) -> Result<(), Fail> {
    let base = read_base(rt.alloc(), BASE.as_bytes()).map_err(|_| "base")?;
    let told = tag_told(rt.alloc(), &base)?;
    same(&rt, told.as_str(), "V2 [21, 22, 23, 24, 25] true", "tag");
    let told = group_told(rt.alloc(), &base)?;
    same(&rt, told.as_str(), "[2, 0] 51 52 1", "group");
    Ok(())
}

const PLAN: &str = r#"[[collector]]
file = "c1.csv"
[[collector]]
file = "c2.csv"
[[reader]]
file = "r1.csv"
[[reader]]
file = "r2.csv"
[[refresher]]
group = "h"
turns = 4
[[refresher]]
group = "g"
turns = 0
"#;

// Texts of the plan that are replaced, as in a base. After `=>` come the numbers of collectors, readers and refreshers,
// or why the text is refused, as in a base.
const PLANS: &str = r#""c1.csv" -> "c1.csv => 1 0 0
[[collector]] -> x = 1|[[collector]] => 2 0 0
 => ok 2 2 2
[[reader]]|file = "r1.csv"|[[reader]] -> [reader] => 2 0 0
[[reader]]|file = "r1.csv"|[[reader]]|file = "r2.csv"| ->  => ok 2 0 2
"c2.csv" -> "" => 3 1 0
"c2.csv" -> 1 => 3 1 0
file = "c2.csv" -> file = "c2.csv"|x = 1 => 3 1 0
file = "c2.csv"| ->  => 3 1 0
"r2.csv" -> "" => 4 1 0
file = "r2.csv"| ->  => 4 1 0
"g" -> "i" => 5 1 0
"g" -> "h" => 5 1 0
"g" -> 1 => 5 1 0
turns = 0 -> turns = -1 => 5 1 0
turns = 0 -> turns = 1000 => ok 2 2 2
turns = 0 -> turns = 1001 => 5 1 0
turns = 0 -> turns = false => 5 1 0
turns = 0| ->  => 5 1 0
turns = 0 -> turns = 0|x = 1 => 5 1 0
"r1.csv" -> "" & "c2.csv" -> "" => 3 1 0
"h" -> "i" & "r2.csv" -> "" => 4 1 0
turns = 0 -> turns = -1 & turns = 4 -> turns = -1 => 5 0 0"#;

// How many collectors, readers and refreshers a plan has, or the answer for a text that is refused.
fn plan_counts(alloc: Global, text: &str) -> Result<String, AllocError> {
    let Ok(base) = read_base(alloc, BASE.as_bytes()) else {
        return String::from_str(alloc, "base");
    };
    match read_plan(alloc, text.as_bytes(), &base) {
        Ok(plan) => {
            let (collectors, readers) = (plan.collectors.len(), plan.readers.len());
            format!(in alloc; "ok {collectors} {readers} {}", plan.refreshers.len())
        }
        Err(no) => told(alloc, no),
    }
}

// The answer for the plan after edits.
fn plan_told(alloc: Global, edits: &str) -> Result<String, Fail> {
    let text = edited(alloc, PLAN, edits)?;
    Ok(plan_counts(alloc, text.as_str())?)
}

#[test]
fn a_plan_is_refused_for_the_first_rule_that_it_breaks(rt: HostRuntime) -> Result<(), Fail> {
    rows_tell(&rt, PLANS, " => ", |edits| plan_told(rt.alloc(), edits))
}

// A text of the plan, how many digits take its place, and the answer.
const FILE_LENGTHS: &str = "\
c2.csv | 255 => ok 2 2 2
c2.csv | 256 => 3 1 0";

#[test]
fn names_of_files_have_so_many_bytes_at_most(rt: HostRuntime) -> Result<(), Fail> {
    rows_tell(&rt, FILE_LENGTHS, " => ", |given| {
        plan_told(rt.alloc(), edit_of(&rt, rt.alloc(), given)?.as_str())
    })
}

// How many collectors and readers there are.
const LISTS: &str = "\
16 16 => ok 16 16 0
17 17 => Collectors 17
16 17 => Readers 17
0 0 => ok 0 0 0";

// Appends so many tables to a plan.
fn push_tables(text: &mut String, count: u64, table: &str) -> Result<(), AllocError> {
    for _ in 0..count {
        text.push_str(table)?;
    }
    Ok(())
}

// The answer for a plan of as many files as a row gives.
fn files_told(rt: &impl Abort, alloc: Global, given: &str) -> Result<String, Fail> {
    let (collectors, readers) = given.split_once(' ').ok_or("collectors")?;
    let mut text = String::new(alloc);
    let (first, second) = (
        "[[collector]]\nfile = \"c\"\n",
        "[[reader]]\nfile = \"r\"\n",
    );
    push_tables(&mut text, number(rt, collectors), first)?;
    push_tables(&mut text, number(rt, readers), second)?;
    Ok(plan_counts(alloc, text.as_str())?)
}

#[test]
fn a_plan_has_so_many_files_at_most(rt: HostRuntime) -> Result<(), Fail> {
    rows_tell(&rt, LISTS, " => ", |given| {
        files_told(&rt, rt.alloc(), given)
    })
}

// The second reader and the first refresher of a plan, as text.
fn second_told(alloc: Global, plan: &Plan) -> Result<String, Fail> {
    let reader = plan.readers.get(1).ok_or("reader")?;
    let refresher = plan.refreshers.first().ok_or("refresher")?;
    let (group, turns) = (refresher.group, refresher.turns);
    Ok(format!(in alloc; "{} {group} {turns}", reader.text())?)
}

#[test]
fn a_plan_holds_what_its_text_says(rt: HostRuntime) -> Result<(), Fail> {
    let base = read_base(rt.alloc(), BASE.as_bytes()).map_err(|_| "base")?;
    let plan = read_plan(rt.alloc(), PLAN.as_bytes(), &base).map_err(|_| "plan")?;
    let told = second_told(rt.alloc(), &plan)?;
    same(&rt, told.as_str(), "r2.csv 1 4", "plan");
    Ok(())
}

// The refusals, as texts.
fn refusals(alloc: Global) -> Result<String, Fail> {
    let broken = TextNo::BadText {
        rule: 11,
        place: 1,
        at: 8,
    };
    let many = TextNo::Limit {
        what: What::Tags,
        number: 1025,
    };
    Ok(format!(in alloc; "{broken}; {many}; {}", TextNo::WantOfMemory)?)
}

#[test]
fn refusals_have_texts(rt: HostRuntime) -> Result<(), Fail> {
    let want = "rule 11 is broken at table 1, byte 8; too many of Tags: 1025; out of memory";
    same(&rt, refusals(rt.alloc())?.as_str(), want, "refusals");
    Ok(())
}
