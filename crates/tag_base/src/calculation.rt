// The calculations of a group.
ghost use Rattle.std.specs.Prelude.{◌≡◌, ◌≢◌, ◌≤◌, [], map, length, vec_len, IfOk, IfErr, IfSome, option_map, bytes_eq};
ghost use Rattle.std.specs.List.{list_any};
ghost use Rattle.toml.specs.View.{table_view};
ghost use Rattle.calc_check.specs.Group.{calculation};
ghost use Rattle.tag_base.specs.Answers.{AnswersOneDue};
ghost use Rattle.tag_base.specs.Groups.{formula_text_of, told_of, calc_text, calcs_after, calcs_at, Define, IsFirstRefused, CalcsRead};

use crate::access::{name_at, tables_at};
use crate::refusal::TextNo;
use calc_check::{CalcDef, CheckNo, Checked, check};
use calc_parser::{ParseNo, parse};
use std::alloc::Global;
use toml::Table;
use toml_tables::{has_keys, string_at};
use trend_num::{Name, WantOfMemory, same_name};

// The most bytes of a formula.
const MAX_FORMULA: u32 = 1024;

// A calculation of a group: its name, and the text of its formula.
#[derive(Debug, Drop)]
pub(crate) struct CalcText {
    pub(crate) name: Name,
    pub(crate) formula: String,
}

// The calculation of a table with a name and a formula. `None` if the table has another form, or an earlier calculation
// has the name.
fn calc_text(
    alloc: Global,
    earlier: &[CalcText],
    table: &Table,
) -> Result<Option<CalcText>, WantOfMemory>
    ensures { IfOk result (λ found. option_map formula_text_of found
        ≡ calc_text (map formula_text_of earlier.now) (table_view table.now)) }
{
    if !has_keys(table, &["name", "formula"], &[]) {
        return Ok(None);
    }
    let Some(name) = name_at(table, "name") else {
        return Ok(None);
    };
    let Some(formula) = string_at(table, "formula") else {
        return Ok(None);
    };
    if is_taken(earlier, &name) {
        return Ok(None);
    }
    let formula = String::from_str(alloc, formula)?;
    Ok(Some(CalcText { name, formula }))
}

// Whether one of these calculations has this name.
fn is_taken(calcs: &[CalcText], name: &Name) -> bool
    ensures { result ≡ list_any (λ c. bytes_eq c.name name.now) (map formula_text_of calcs.now) }
{
    for calc in calcs {
        if calc.name.bytes() == name.bytes() {
            return true;
        }
    }
    false
}

// The calculations of tables. `None` if one of the tables is no calculation.
fn calcs_of(alloc: Global, tables: &[&Table]) -> Result<Option<Vec<CalcText>>, WantOfMemory>
    ensures calcs { IfOk result (λ found.
        option_map (λ calcs. map formula_text_of calcs.items) found
        ≡ calcs_after [] (map (λ t. table_view t.now) tables.now)) }
    ensures as_many { IfOk result (λ found. IfSome found (λ calcs. vec_len calcs ≡ length tables.now)) }
{
    let mut calcs = Vec::new(alloc);
    for table in tables {
        let Some(calc) = calc_text(alloc, &calcs, table)? else {
            return Ok(None);
        };
        calcs.push(calc)?;
    }
    Ok(Some(calcs))
}

// The calculations of the table of a group. `None` if there are none, or if one of the tables is no calculation.
pub(crate) fn calcs_at(alloc: Global, table: &Table) -> Result<Option<Vec<CalcText>>, WantOfMemory>
    ensures calcs { IfOk result (λ found.
        option_map (λ calcs. map formula_text_of calcs.items) found ≡ calcs_at (table_view table.now)) }
    ensures some { IfOk result (λ found. IfSome found (λ calcs. 1 ≤ vec_len calcs)) }
{
    let Some(tables) = tables_at(alloc, table, "calc")? else {
        return Ok(None);
    };
    if tables.is_empty() {
        return Ok(None);
    }
    calcs_of(alloc, &tables)
}

// Parses the formulas of the group at a place. Refuses the first text that is no formula, with the byte at which it is
// refused.
fn defs_of(alloc: Global, place: u32, texts: &[CalcText]) -> Result<Vec<CalcDef>, TextNo>
    ensures defined { IfOk result (λ defs. Define (map formula_text_of texts.now) (map calculation defs.items)) }
    ensures as_many { IfOk result (λ defs. vec_len defs ≡ length texts.now) }
    ensures refused { IfErr result (λ why. (why ≢ TextNo.WantOfMemory)
        → IsFirstRefused place (map formula_text_of texts.now) why) }
{
    let mut defs = Vec::new(alloc);
    for text in texts {
        let expr = match parse(alloc, text.formula.as_str()) {
            Ok(expr) => expr,
            Err(why) => return Err(refusal(place, why)),
        };
        let name = text.name;
        defs.push(CalcDef { name, expr })?;
    }
    Ok(defs)
}

// The refusal of a formula that does not parse, in the group at a place.
fn refusal(place: u32, why: ParseNo) -> TextNo
    ensures { result ≡ told_of place why }
{
    match why {
        ParseNo::Long { .. } => TextNo::BadText {
            rule: 11,
            place,
            at: MAX_FORMULA,
        },
        ParseNo::Deep { at } | ParseNo::Syntax { at, .. } => TextNo::BadText {
            rule: 11,
            place,
            at,
        },
        ParseNo::WantOfMemory => TextNo::WantOfMemory,
    }
}

// Parses and checks the calculations of the group at a place.
pub(crate) fn checked(
    alloc: Global,
    place: u32,
    inputs: &[Name],
    texts: &[CalcText],
) -> Result<Checked, TextNo>
    requires { length texts.now ≤ 64 }
    ensures calcs { AnswersOneDue (λ checked. checked) result (CalcsRead place inputs.now (map formula_text_of texts.now)) }
    ensures names { IfOk result (λ checked. checked.inputs ≡ inputs.now) }
    ensures as_many { IfOk result (λ checked. length checked.calcs ≡ length texts.now) }
{
    let defs = defs_of(alloc, place, texts)?;
    match check(alloc, inputs, defs) {
        Ok(checked) => Ok(checked),
        Err(CheckNo::WantOfMemory) => Err(TextNo::WantOfMemory),
        Err(_) => Err(TextNo::BadText {
            rule: 12,
            place,
            at: 0,
        }),
    }
}
