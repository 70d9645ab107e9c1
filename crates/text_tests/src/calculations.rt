// Small groups over the inputs A and B, checked and evaluated.
ghost use Rattle.std.specs.Prelude.{◌≡◌, ◌<◌, ◌≤◌, length, IfOk};
ghost use Rattle.trend_num.specs.{last_time};

use crate::spelled::{number, rows_tell};
use calc_eval::{CalcDef, CalcValue, CheckNo, Checked, check, eval};
use calc_parser::parse;
use late_insert::{Content, Kind, Point, Rec};
use std::alloc::Global;
use std::marker::Brand;
use std::process::Abort;
use std::sync::ledger::{Blank, Ledger};
use std::test::Fail;
use trend_num::{MAX_T, Name, Steps, name_from};

// A window, a formula, and its value. The formula is over A with the points (10,7) and (20,9), B without points, and m,
// which is 0. The last formula is as long and as deep as one may be: 1,024 bytes, 32 levels.
const VALUES: &str = "\
0 10 -7 / 2 => Num(-4)
0 10 -7 % 2 => Num(1)
0 10 7 / -2 => Num(-4)
0 10 7 % -2 => Num(-1)
0 10 -7 / -2 => Num(3)
0 10 -7 % -2 => Num(-1)
0 10 5 % 0 => Bad(DivZero)
0 10 1000000000000000000 + 1 => Bad(Range)
0 10 -1000000000000000000 - 1 => Bad(Range)
0 10 -1000000000000000000 - 0 => Num(-1000000000000000000)
0 10 1000000000000000000 * 1000000000000000000 => Bad(Range)
0 10 min(2, 1) => Num(1)
0 10 max(2, 1) => Num(2)
0 10 if(0, 1/0, 5) => Num(5)
0 10 1/0 + avg('B') => Bad(DivZero)
0 10 avg('B') + 1/0 => Bad(NoData)
0 10 calc('m') = 0 => Num(1)
10 20 high('A') / count('A') => Num(9)
12 15 high('A') / count('A') => Bad(DivZero)
9 15 high('A') / count('A') => Bad(NoData)
0 10 ((((((((((((((((((((((((((((((((1+1+1+1+1+1+1+1+1+1+1+1+1+1+1+11\
+0000000000000000000000000010)+0000000000000000000000000010)+0000000000000000000000000010)+0000000000000000000000000010)\
+0000000000000000000000000010)+0000000000000000000000000010)+0000000000000000000000000010)+0000000000000000000000000010)\
+0000000000000000000000000010)+0000000000000000000000000010)+0000000000000000000000000010)+0000000000000000000000000010)\
+0000000000000000000000000010)+0000000000000000000000000010)+0000000000000000000000000010)+0000000000000000000000000010)\
+0000000000000000000000000010)+0000000000000000000000000010)+0000000000000000000000000010)+0000000000000000000000000010)\
+0000000000000000000000000010)+0000000000000000000000000010)+0000000000000000000000000010)+0000000000000000000000000010)\
+0000000000000000000000000010)+0000000000000000000000000010)+0000000000000000000000000010)+0000000000000000000000000010)\
+0000000000000000000000000010)+0000000000000000000000000010)+0000000000000000000000000010)+0000000000000000000000000010) \
=> Num(346)";

// The formulas of m and n. After `=>` come the reason for the refusal, the place of the calculation, and the refused
// name.
const NAMES: &str = "\
calc('m') ; 1 => forward 0 m
calc('n') ; 1 => forward 0 n
calc('A') ; 1 => unknown 0 A
1 ; low('Z') => unknown 1 Z
1 ; low('m') => unknown 1 m";

// The name that a word spells.
fn named(rt: &impl Abort, word: &str) -> Name {
    name_from(word.as_bytes()).expect(rt, "a name")
}

// The checked calculations m and n.
fn group_of(
    rt: &impl Abort,
    alloc: Global,
    first: &str,
    second: &str,
) -> Result<Result<Checked, CheckNo>, Fail>
    ensures { IfOk result (λ group. IfOk group (λ checked. length checked.inputs ≡ 2)) }
{
    let inputs = [named(rt, "A"), named(rt, "B")];
    let mut calcs = Vec::new(alloc);
    let name = named(rt, "m");
    calcs.push(CalcDef {
        name,
        expr: parse(alloc, first)?,
    })?;
    let name = named(rt, "n");
    calcs.push(CalcDef {
        name,
        expr: parse(alloc, second)?,
    })?;
    assert!(rt; calcs.len() < 100);
    Ok(check(alloc, &inputs, calcs))
}

// The value of the last calculation in a window.
#[tactic(auto, using(calc_eval::proofs::Growth::within_defs, calc_eval::proofs::Growth::take_next))]
fn last_value<L: Ledger>(
    rt: &impl Abort,
    alloc: Global,
    group: &Checked,
    contents: &[Content],
    from: u64,
    to: u64,
    blank: Blank,
) -> Result<CalcValue, Fail>
    requires name { blank.name ≡ L.name }
    requires parts { blank.parts ≡ L.parts }
    requires some { 0 < L.parts }
    requires inputs { length contents.now ≡ length group.now.inputs }
    requires rises { from < to }
    requires times { to ≤ last_time }
{
    let mut steps: Steps<L> = Steps::new(blank);
    let mut lower = Vec::new(alloc);
    let mut last = CalcValue::Num(0);
    let count = group.defs().len();
    assert!(rt; count < 100);
    for i in 0..count {
        last = eval(group, i as u32, from, to, contents, &lower, &mut steps);
        lower.push(last)?;
    }
    Ok(last)
}

// The value of a formula in a window.
fn value_in(
    rt: &impl Abort,
    alloc: Global,
    formula: &str,
    from: u64,
    to: u64,
) -> Result<CalcValue, Fail>
    requires rises { from < to }
    requires times { to ≤ last_time }
{
    let mut content = Content::new(alloc, 2)?;
    content.put(Rec {
        kind: Kind::Kept,
        point: Point { t: 10, v: 7 },
    });
    content.put(Rec {
        kind: Kind::Kept,
        point: Point { t: 20, v: 9 },
    });
    let contents = [content, Content::new(alloc, 1)?];
    match group_of(rt, alloc, "0", formula)? {
        Ok(group) => last_value::<Brand>(rt, alloc, &group, &contents, from, to, Blank::new(1)),
        Err(no) => Err(Fail::from(no)),
    }
}

// The value of a row's formula in its window.
fn value_told(rt: &impl Abort, alloc: Global, given: &str) -> Result<String, Fail> {
    let (from, rest) = given.split_once(' ').ok_or("from")?;
    let (to, formula) = rest.split_once(' ').ok_or("to")?;
    let (from, to) = (number(rt, from), number(rt, to));
    assert!(rt; from < to && to <= MAX_T);
    let value = value_in(rt, alloc, formula, from, to)?;
    Ok(format!(in alloc; "{value:?}")?)
}

#[test]
fn formulas_have_values(rt: HostRuntime) -> Result<(), Fail> {
    rows_tell(&rt, VALUES, " => ", |given| {
        value_told(&rt, rt.alloc(), given)
    })
}

// The answer for calculations that are refused.
fn refusal(alloc: Global, no: CheckNo) -> Result<String, Fail> {
    let (word, calc, name) = match no {
        CheckNo::Forward { calc, name } => ("forward", calc, name),
        CheckNo::UnknownName { calc, name } => ("unknown", calc, name),
        CheckNo::WantOfMemory => return Ok(String::from_str(alloc, "memory")?),
    };
    let name = str::from_utf8(name.bytes()).map_err(|_| "text")?;
    Ok(format!(in alloc; "{word} {calc} {name}")?)
}

// Why the formulas of m and n in a row are refused.
fn refused(rt: &impl Abort, alloc: Global, given: &str) -> Result<String, Fail> {
    let (first, second) = given.split_once(" ; ").ok_or("second")?;
    let no = group_of(rt, alloc, first, second)?.err().ok_or("checked")?;
    refusal(alloc, no)
}

#[test]
fn the_first_name_that_stands_for_nothing_is_told(rt: HostRuntime) -> Result<(), Fail> {
    rows_tell(&rt, NAMES, " => ", |given| refused(&rt, rt.alloc(), given))
}
