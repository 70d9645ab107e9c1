// The plant of a drill: its base of tags and one group, and the rows of its collectors.
ghost use Rattle.calc_check.specs.Group.{calculation, fault_of, group_of, is_among};
ghost use Rattle.calc_parser.specs.{IsFormula};
ghost use Rattle.calc_parser.specs.Tree.{Tree, tree_of};
ghost use Rattle.run_command.specs.DrillPlant.{IsDrillGroup, drill_calcs, drill_tag, drill_tags};
ghost use Rattle.run_command.specs.DrillRows.{drill_file, drill_rows_of, row_of};
ghost use Rattle.std.specs.Fmt.{decimal};
ghost use Rattle.std.specs.List.{range_with_len};
ghost use Rattle.std.specs.Prelude.{All, AllPairs, IfOk, List, None, codes, drop, length, map, true, vec_len, ℕ, ◌++◌, ◌-◌, ◌<◌, ◌≡◌, ◌≢◌, ◌≤◌};
ghost use Rattle.tag_base.specs.{AreCalcs, Define, IsSoundGroup};
ghost use Rattle.trend_num.specs.{IsName, InRange, TuningInRange};

use calc_check::{CalcDef, CheckNo, Checked, check};
use calc_parser::{ParseNo, parse};
use std::alloc::Global;
use tag_base::{Base, GroupDef};
use trend_num::{Name, Point, TagDef, Tuning, WantOfMemory, name_from};
use trend_report::drill_rows;
use value_rows::RawRow;

// Returns the base of a drill with so many tags, named `D0`, `D1` and so on. Its one group `all` has each of them as an
// input. The group has the calculations `mean` and `spread` of the first tag, in windows of 500 milliseconds.
pub(crate) fn drill_base(alloc: Global, tags: u32) -> Result<Base, WantOfMemory>
    requires some { 1 ≤ tags }
    requires few { tags ≤ 64 }
    ensures tags { IfOk result (λ base. base.tags.items ≡ drill_tags tags) }
    ensures as_many { IfOk result (λ base. length base.tags.items ≡ tags) }
    ensures one_group { IfOk result (λ base. vec_len base.groups ≡ 1) }
    ensures groups { IfOk result (λ base. All (IsDrillGroup tags) base.groups.items) }

    // A text could spell such a base.
    ensures tuned { IfOk result (λ base. All (λ def. TuningInRange def.tuning) base.tags.items) }
    ensures sound { IfOk result (λ base. All (IsSoundGroup (length base.tags.items)) base.groups.items) }
    ensures distinct { IfOk result (λ base. AllPairs (λ a b. a.name ≢ b.name) base.tags.items) }
    ensures distinct_groups { IfOk result (λ base. AllPairs (λ a b. a.name ≢ b.name) base.groups.items) }
{
    let defs = drill_tags(alloc, tags)?;
    let group = drill_group(alloc, tags, &defs)?;
    let mut groups = Vec::new(alloc);
    groups.push(group)?;
    Ok(Base { tags: defs, groups })
}

// The length of a window, in milliseconds.
const PERIOD: u64 = 500;

// Returns the group of so many tags, which are these.
pub(crate) fn drill_group(
    alloc: Global,
    tags: u32,
    defs: &[TagDef],
) -> Result<GroupDef, WantOfMemory>
    requires some { 1 ≤ tags }
    requires tags { defs.now ≡ drill_tags tags }
    ensures { IfOk result (IsDrillGroup tags) }
{
    let inputs = places(alloc, tags)?;
    let calcs = checked(alloc, defs)?;
    Ok(GroupDef {
        name: spelled(b"all"),
        inputs,
        start: 0,
        period: PERIOD,
        calcs,
    })
}

// Returns the places 0, 1, 2 and on of so many inputs.
fn places(alloc: Global, inputs: u32) -> Result<Vec<u32>, WantOfMemory>
    ensures { IfOk result (λ places. places.items ≡ range_with_len 0 inputs) }
{
    Ok((0..inputs).collect(alloc)?)
}

// Returns the calculation with this name and formula.
fn calc(alloc: Global, name: &[u8], formula: &str) -> Result<CalcDef, WantOfMemory>
    requires name { IsName name.now }
    requires formula { (t : Tree) × IsFormula formula.now t }
    ensures name { IfOk result (λ calc. calc.name ≡ name.now) }
    ensures formula { IfOk result (λ calc. IsFormula formula.now (tree_of calc.expr)) }
    ensures only { IfOk result (λ calc. (t : Tree) → IsFormula formula.now t → tree_of calc.expr ≡ t) }
{
    let name = spelled(name);
    match parse(alloc, formula) {
        Ok(expr) => Ok(CalcDef { name, expr }),
        Err(ParseNo::WantOfMemory) => Err(WantOfMemory),
        Err(ParseNo::Long { .. }) => unreachable!(),
        Err(ParseNo::Deep { .. }) => unreachable!(),
        Err(ParseNo::Syntax { .. }) => unreachable!(),
    }
}

// Returns the calculations. If the inputs include the first tag, each name in the formulas stands for something.
fn calcs(alloc: Global) -> Result<Vec<CalcDef>, WantOfMemory>
    ensures defined { IfOk result (λ defs. Define drill_calcs (map calculation defs.items)) }
    ensures known { IfOk result (λ defs. (names : List (List ℕ)) → is_among (codes "D0") names ≡ true
        → fault_of (group_of names defs.items) ≡ None) }
    ensures two { IfOk result (λ defs. vec_len defs ≡ 2) }
{
    let mean = calc(alloc, b"mean", "avg('D0')")?;
    let spread = calc(alloc, b"spread", "high('D0') - low('D0')")?;
    let mut defs = Vec::new(alloc);
    defs.push(mean)?;
    defs.push(spread)?;
    Ok(defs)
}

// Checks the calculations over the tags, the first tag among them.
fn checked(alloc: Global, tags: &[TagDef]) -> Result<Checked, WantOfMemory>
    requires { is_among (codes "D0") (map (λ tag. tag.name) tags.now) ≡ true }
    ensures { IfOk result (AreCalcs (map (λ tag. tag.name) tags.now) drill_calcs) }
{
    let defs = calcs(alloc)?;
    let inputs = names(alloc, tags)?;
    match check(alloc, &inputs, defs) {
        Ok(checked) => Ok(checked),
        Err(CheckNo::WantOfMemory) => Err(WantOfMemory),
        Err(CheckNo::UnknownName { .. }) => unreachable!(),
        Err(CheckNo::Forward { .. }) => unreachable!(),
    }
}

// The names of tags.
fn names(alloc: Global, tags: &[TagDef]) -> Result<Vec<Name>, WantOfMemory>
    ensures { IfOk result (λ names. names.items ≡ map (λ tag. tag.name) tags.now) }
{
    Ok(tags.iter().map(|tag| tag.name).collect(alloc)?)
}

// Returns the rows of a drill's collectors, one collector for each tag. Each has the tag's events from the place `from`
// on, up to the place `to` and without it.
pub(crate) fn drill_files(
    alloc: Global,
    number: u32,
    tags: u32,
    from: u32,
    to: u32,
) -> Result<Vec<Vec<RawRow>>, WantOfMemory>
    ensures rows { IfOk result (λ files. map (λ file. file.items) files.items ≡ drill_rows_of number tags from to) }
    ensures of_tags { IfOk result (λ files. All (λ file. All (λ row. row.tag < tags) file.items) files.items) }
    ensures in_range { IfOk result (λ files. All (λ file. All (λ row. InRange row.point) file.items) files.items) }
    ensures as_many { IfOk result (λ files. All (λ file. length file.items ≡ to - from) files.items) }
    ensures one_a_tag { IfOk result (λ files. vec_len files ≡ tags) }
{
    let mut files = Vec::with_capacity(alloc, tags as usize)?;
    for tag in 0..tags {
        let file = drill_file(alloc, number, tag, from, to)?;
        files.push(file)?;
    }
    Ok(files)
}

// Returns the rows of one tag.
fn drill_file(
    alloc: Global,
    number: u32,
    tag: u32,
    from: u32,
    to: u32,
) -> Result<Vec<RawRow>, WantOfMemory>
    ensures rows { IfOk result (λ file. file.items ≡ drill_file number from to tag) }
    ensures of_tag { IfOk result (λ file. All (λ row. row.tag ≡ tag) file.items) }
    ensures in_range { IfOk result (λ file. All (λ row. InRange row.point) file.items) }
    ensures as_many { IfOk result (λ file. length file.items ≡ to - from) }
{
    let points = drill_rows(alloc, number, tag, to)?;
    let file = rows_behind(alloc, tag, &points, from)?;
    Ok(file)
}

// Returns the points from the place `from` on, as rows of a tag.
fn rows_behind(
    alloc: Global,
    tag: u32,
    points: &[Point],
    from: u32,
) -> Result<Vec<RawRow>, WantOfMemory>
    ensures { IfOk result (λ rows. rows.items ≡ map (row_of tag) (drop from points.now)) }
{
    Ok(
        points
            .iter()
            .skip(from as usize)
            .map(|point| RawRow { tag, point: *point })
            .collect(alloc)?,
    )
}

// The tuning of each tag.
const TUNING: Tuning = Tuning {
    exc_dev: 3,
    exc_max: 60_000,
    comp_dev: 8,
    comp_min: 0,
    comp_max: 600_000,
};

// Returns the name that these bytes spell.
pub(crate) fn spelled(bytes: &[u8]) -> Name
    requires { IsName bytes.now }
    ensures { result ≡ bytes.now }
{
    match name_from(bytes) {
        Some(name) => name,
        None => unreachable!(),
    }
}

// Returns the name of the tag at a place.
fn tag_name(alloc: Global, place: u32) -> Result<Name, WantOfMemory>
    ensures { IfOk result (λ name. name ≡ codes "D" ++ decimal place) }
{
    let text = format!(in alloc; "D{place}")?;
    Ok(spelled(text.as_bytes()))
}

// Returns the tag at a place.
fn drill_tag(alloc: Global, place: u32) -> Result<TagDef, WantOfMemory>
    ensures { IfOk result (λ tag. tag ≡ drill_tag place) }
{
    let name = tag_name(alloc, place)?;
    Ok(TagDef {
        name,
        tuning: TUNING,
        step: false,
    })
}

// Returns so many tags.
pub(crate) fn drill_tags(alloc: Global, tags: u32) -> Result<Vec<TagDef>, WantOfMemory>
    ensures { IfOk result (λ defs. defs.items ≡ drill_tags tags) }
{
    let mut defs = Vec::with_capacity(alloc, tags as usize)?;
    for place in 0..tags {
        let def = drill_tag(alloc, place)?;
        defs.push(def)?;
    }
    Ok(defs)
}
