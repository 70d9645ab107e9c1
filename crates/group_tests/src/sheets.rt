// Sheets that get records step by step: their rows, and how many values they evaluate.
ghost use Rattle.std.specs.Prelude.{◌≡◌, ◌^◌, ◌<◌, ◌≤◌, All, IfOk, length};
ghost use Rattle.calc_refresh.specs.{lists_of, IsCopy, IsGrid, IsGroup, grid_of};

use crate::tables::same;
use calc_parser::parse;
use calc_refresh::*;
use std::alloc::Global;
use std::marker::Brand;
use std::process::Abort;
use std::sync::ledger::{Blank, Ledger};
use std::test::Fail;
use trend_num::{in_range, name_from};

// Each line has how many inputs there are (T1, T2), a period, and the formulas of m and n, separated by `;`. Then come
// steps, separated by `/`. A step has records that the sheet gets at once; a bar separates those of one input from
// those of the next. After `=>` come the rows of m and n, one after the other, and after `e` how many values were
// evaluated so far; or why the sheet refused. A record has its kind, its time and its value.
const ROWS: &str = "\
1 1000 avg('T1') : K,0,0 K,3000,0 => 0 0 0 e3 / L,1500,60 => 20 50 20 e6
1 1000 avg('T1') : K,0,0 K,3000,0 => 0 0 0 e3 / L,2500,8 => 2 5 6 e6 / L,2500,8 => 2 5 6 e9
1 1000 avg('T1') : K,0,0 K,1000,0 K,2000,0 K,3000,0 => 0 0 0 e3 / L,1500,60 => 0 30 0 e6
1 1000 avg('T1') : K,0,0 K,3000,0 K,6000,0 => 0 0 0 0 0 0 e6 / L,1500,60 => 20 50 20 0 0 0 e10
1 1000 count('T1') : K,0,0 K,1000,1 K,1999,2 => 1 e1 / K,2000,3 => 1 2 e2
1 1000 last('T1') : K,500,7 K,2500,9 => bad 9 e2
1 1000 last('T1') : K,0,7 K,1000,9 => 9 e1 / K,500,5 => 9 e2
1 1000 avg('T1') : L,0,7 L,5000,9 => e0
2 1000 avg('T1') : K,0,0 K,3000,0 | L,5000,9 => e0 / | K,2999,0 => 0 0 e2 / | K,3000,0 => 0 0 0 e3
2 1000 last('T1') - last('T2') : K,0,9 K,1000,9 | K,0,2 K,1000,4 => 5 e1
1 1000 avg('T1') ; calc('m') * 2 + 1 : K,0,0 K,3000,0 => 0 0 0 1 1 1 e6 / L,1500,60 => 20 50 20 41 101 41 e12
1 1 count('T1') : K,0,0 K,3,0 => 1 0 0 e3 / K,2000000,0 => CellLimit { cells: 2000000 } / L,1,5 => 1 1 0 e6";

// Each line has the saved records of T1 and the saved row of its means, in windows of 1,000 milliseconds. Then come
// records that the sheet gets, and after `=>` the row after that, as above.
const SAVED: &str = "\
K,0,0 K,3000,0 : 1 2 : => Shape { windows: 3, rows: 2 }
K,0,0 K,3000,0 : 1 2 3 4 : => Shape { windows: 3, rows: 4 }
K,0,0 K,2999,0 : 1 2 : => 1 2 e0
K,0,0 K,1000,0 K,2000,0 K,3000,0 K,4000,0 : 7 7 7 7 : L,1500,60 => 0 30 0 7 e3";

// Returns the record of a word.
fn record_of(word: &str) -> Result<Rec, Fail> {
    let (kind, point) = word.split_once(',').ok_or("a kind")?;
    let (t, v) = point.split_once(',').ok_or("a point")?;
    let kind = if kind == "K" { Kind::Kept } else { Kind::Late };
    let t = t.parse::<u64>().map_err(|_| "a time")?;
    let v = v.parse::<i64>().map_err(|_| "a value")?;
    Ok(Rec {
        kind,
        point: Point { t, v },
    })
}

// Returns the records of a text.
fn records_of(rt: &impl Abort, alloc: Global, text: &str) -> Result<Vec<Rec>, Fail>
    ensures { IfOk result (λ recs. IsCopy recs.items) }
{
    let mut recs = Vec::new(alloc);
    for word in text.split_whitespace() {
        let rec = record_of(word)?;
        assert!(rt; in_range(rec.point));
        recs.push(rec)?;
    }
    assert!(rt; recs.len() < 1000);
    Ok(recs)
}

// Returns the records of the inputs, which a bar separates.
fn deltas_of(rt: &impl Abort, alloc: Global, text: &str) -> Result<Vec<Vec<Rec>>, Fail>
    ensures { IfOk result (λ deltas. All IsCopy (lists_of deltas.items)) }
{
    let mut deltas = Vec::new(alloc);
    for part in text.split('|') {
        let recs = records_of(rt, alloc, part)?;
        deltas.push(recs)?;
    }
    Ok(deltas)
}

// Returns the definitions of m and n.
fn calcs_of(rt: &impl Abort, alloc: Global, formulas: &str) -> Result<Vec<CalcDef>, Fail>
    ensures some { IfOk result (λ defs. 1 ≤ length defs.items) }
    ensures few { IfOk result (λ defs. length defs.items ≤ 64) }
{
    let mut defs = Vec::new(alloc);
    for formula in formulas.split(';') {
        let name = if defs.is_empty() { b"m" } else { b"n" };
        let name = name_from(name).ok_or("a name")?;
        let expr = parse(alloc, formula)?;
        defs.push(CalcDef { name, expr })?;
    }
    assert!(rt; 1 <= defs.len() && defs.len() <= 64);
    Ok(defs)
}

/// Returns the definition of a group.
pub fn def_of(
    rt: &impl Abort,
    alloc: Global,
    inputs: u32,
    period: u64,
    formulas: &str,
) -> Result<GroupDefParts, Fail>
    ensures group { IfOk result (λ def. IsGroup def.inputs def.calcs) }
    ensures grid { IfOk result (λ def. IsGrid (grid_of def.start def.period)) }
    ensures inputs { IfOk result (λ def. def.inputs ≡ inputs) }
{
    let first = name_from(b"T1").ok_or("a name")?;
    let second = name_from(b"T2").ok_or("a name")?;
    let names = [first, second];
    assert!(rt; 1 <= inputs && inputs <= 2);
    assert!(rt; 1 <= period && period <= 1000000);
    let defs = calcs_of(rt, alloc, formulas)?;
    let calcs = check(alloc, &names[..inputs as usize], defs)?;
    Ok(GroupDefParts {
        inputs,
        start: 0,
        period,
        calcs,
    })
}

/// Appends a row of a sheet, if there is one.
pub fn push_row(alloc: Global, text: &mut String, sheet: &Sheet, calc: u32) -> Result<(), Fail> {
    for k in 0..sheet.windows() {
        match sheet.row(calc, u64::from(k)) {
            Some(CalcValue::Num(n)) => text.push_str(&format!(in alloc; "{n} ")?)?,
            Some(CalcValue::Bad(_)) => text.push_str("bad ")?,
            None => {}
        }
    }
    Ok(())
}

// Returns the rows of a sheet, and how many values it evaluated.
fn told(alloc: Global, sheet: &Sheet) -> Result<String, Fail> {
    let mut text = String::new(alloc);
    push_row(alloc, &mut text, sheet, 0)?;
    push_row(alloc, &mut text, sheet, 1)?;
    text.push_str(&format!(in alloc; "e{}", sheet.evals())?)?;
    Ok(text)
}

// Passes records to a sheet, on the ledger of a blank.
fn tell_on<L: Ledger>(sheet: &mut Sheet, deltas: &[Vec<Rec>], blank: Blank) -> Result<(), SheetNo>
    requires inputs { length deltas.now ≡ length sheet.old.copies }
    requires copied { All IsCopy (lists_of deltas.now) }
    requires name { blank.name ≡ L.name }
    requires parts { blank.parts ≡ L.parts }
    requires some { 0 < L.parts }
    ensures { length sheet.new.copies ≡ length sheet.old.copies }
{
    let mut steps: Steps<L> = Steps::new(blank);
    sheet.apply(deltas, &mut steps)
}

/// Passes records to a sheet. The sheet has as many inputs afterwards as before.
pub fn tell(sheet: &mut Sheet, deltas: &[Vec<Rec>]) -> Result<(), SheetNo>
    requires inputs { length deltas.now ≡ length sheet.old.copies }
    requires copied { All IsCopy (lists_of deltas.now) }
    ensures { length sheet.new.copies ≡ length sheet.old.copies }
{
    tell_on::<Brand>(sheet, deltas, Blank::new(1))
}

// Passes records to a sheet step by step, and checks the sheet after each step.
fn follow(
    rt: &impl Abort,
    alloc: Global,
    sheet: &mut Sheet,
    inputs: u32,
    text: &str,
) -> Result<(), Fail>
    requires { length sheet.old.copies ≡ inputs }
{
    for step in text.split(" / ") {
        let (given, want) = step.split_once("=>").ok_or("an arrow")?;
        let deltas = deltas_of(rt, alloc, given)?;
        assert_eq!(rt; deltas.len(), inputs as usize, "{step}");
        let got = match tell(sheet, &deltas) {
            Ok(()) => told(alloc, sheet)?,
            Err(no) => format!(in alloc; "{no:?}")?,
        };
        same(rt, got.as_str(), want.trim(), step);
    }
    Ok(())
}

// Makes the sheet of a line, and follows its steps.
fn follow_line(
    rt: &impl Abort,
    alloc: Global,
    inputs: u32,
    period: u64,
    formulas: &str,
    steps: &str,
) -> Result<(), Fail> {
    let def = def_of(rt, alloc, inputs, period, formulas)?;
    let mut sheet = new_sheet(alloc, &def)?;
    follow(rt, alloc, &mut sheet, inputs, steps)
}

// Follows a line of `ROWS`.
fn follow_row(rt: &impl Abort, alloc: Global, line: &str) -> Result<(), Fail> {
    let (head, steps) = line.split_once(" : ").ok_or("a colon")?;
    let (inputs, head) = head.split_once(' ').ok_or("a number of inputs")?;
    let (period, formulas) = head.split_once(' ').ok_or("a period")?;
    let (inputs, period) = (inputs.parse::<u32>()?, period.parse::<u64>()?);
    follow_line(rt, alloc, inputs, period, formulas, steps)
}

#[test]
fn rows_are_as_listed(rt: HostRuntime) -> Result<(), Fail> {
    for line in ROWS.lines() {
        follow_row(&rt, rt.alloc(), line)?;
    }
    Ok(())
}

// Returns so many late records, all at the same time.
fn late_records(rt: &impl Abort, alloc: Global, count: usize) -> Result<Vec<Rec>, Fail>
    ensures { IfOk result (λ recs. IsCopy recs.items) }
{
    let kind = Kind::Late;
    let point = Point { t: 0, v: 0 };
    let recs = vec![in alloc; Rec { kind, point }; count]?;
    assert!(rt; in_range(point) && recs.len() < 4_000_000);
    Ok(recs)
}

#[test]
fn a_sheet_has_no_more_than_two_million_records(rt: HostRuntime) -> Result<(), Fail> {
    let alloc = rt.alloc();
    let def = def_of(&rt, alloc, 1, 1000, "avg('T1')")?;
    let mut sheet = new_sheet(alloc, &def)?;
    let deltas = [late_records(&rt, alloc, 2_097_152)?];
    assert!(rt; tell(&mut sheet, &deltas).is_ok());
    let one_more = [late_records(&rt, alloc, 1)?];
    let no = SheetNo::CopyLimit { records: 2_097_153 };
    assert!(rt; tell(&mut sheet, &one_more) == Err(no));
    Ok(())
}

// Returns the row of a text.
fn row_of(rt: &impl Abort, alloc: Global, text: &str) -> Result<Vec<CalcValue>, Fail>
    ensures { IfOk result (λ row. length row.items < 2 ^ 32) }
{
    let mut row = Vec::new(alloc);
    for word in text.split_whitespace() {
        row.push(CalcValue::Num(word.parse::<i64>().map_err(|_| "a number")?))?;
    }
    assert!(rt; row.len() < 1000);
    Ok(row)
}

// Makes the sheet that was saved, and follows its step.
fn follow_saved(
    rt: &impl Abort,
    alloc: Global,
    copies: &str,
    values: &str,
    step: &str,
) -> Result<(), Fail> {
    let def = def_of(rt, alloc, 1, 1000, "avg('T1')")?;
    assert!(rt; def.calcs.defs().len() == 1);
    let copies = deltas_of(rt, alloc, copies)?;
    assert!(rt; copies.len() == 1);
    let rows = vec![in alloc; row_of(rt, alloc, values)?]?;
    match from_saved(alloc, &def, copies, rows) {
        Ok(sheet) => {
            let mut sheet = sheet;
            follow(rt, alloc, &mut sheet, 1, step)
        }
        Err(no) => {
            let (_, want) = step.split_once("=>").ok_or("an arrow")?;
            let told = format!(in alloc; "{no:?}")?;
            same(rt, told.as_str(), want.trim(), step);
            Ok(())
        }
    }
}

// Follows a line of `SAVED`.
fn follow_saved_row(rt: &impl Abort, alloc: Global, line: &str) -> Result<(), Fail> {
    let (copies, rest) = line.split_once(" : ").ok_or("a colon")?;
    let (values, step) = rest.split_once(" :").ok_or("a colon")?;
    follow_saved(rt, alloc, copies, values, step)
}

#[test]
fn saved_rows_stand_where_no_record_touches_them(rt: HostRuntime) -> Result<(), Fail> {
    for line in SAVED.lines() {
        follow_saved_row(&rt, rt.alloc(), line)?;
    }
    Ok(())
}
