// The definition text of a group.
ghost use Rattle.std.specs.Prelude.{◌≡◌, ◌++◌, IfOk, OnOk, codes, map};
ghost use Rattle.std.specs.Fmt.{decimal};
ghost use Rattle.calc_check.specs.Group.{calculation};
ghost use Rattle.group_layout.specs.Texts.{calc_text, calcs_text, definition_text, name_text, names_text};

use calc_check::{CalcDef, Checked};
use calc_parser::print;
use itoa::Buffer;
use std::alloc::Global;
use trend_num::{Name, WantOfMemory};

/// Returns the text by which a device shows the group that it belongs to. The text begins with the group's name, its
/// start and its period in milliseconds, and the names of its inputs, with commas between. Then each calculation has a
/// line feed, its name, `=`, and its formula as it is printed. The only error is want of memory.
pub fn definition_text(
    alloc: Global,
    name: &Name,
    start: u64,
    period: u64,
    calcs: &Checked,
) -> Result<Vec<u8>, WantOfMemory>
    ensures { IfOk result (λ v. v.items ≡ definition_text name.now start period calcs.now) }
{
    let mut text = Vec::new(alloc);
    text.extend_from_slice(name.bytes())?;
    put_number(&mut text, start)?;
    put_number(&mut text, period)?;
    put_names(&mut text, calcs.inputs())?;
    put_calcs(alloc, &mut text, calcs.defs())?;
    Ok(text)
}

// Adds a comma and a number.
fn put_number(text: &mut Vec<u8>, number: u64) -> Result<(), WantOfMemory>
    ensures { OnOk result (text.new.items ≡ text.old.items ++ codes "," ++ decimal number) }
{
    text.push(b',')?;
    text.extend_from_slice(Buffer::new().format(number).as_bytes())?;
    Ok(())
}

// Adds names, a comma before each.
fn put_names(text: &mut Vec<u8>, names: &[Name]) -> Result<(), WantOfMemory>
    ensures { OnOk result (text.new.items ≡ text.old.items ++ names_text names.now) }
{
    for name in names {
        put_name(text, name)?;
    }
    Ok(())
}

// Adds a comma and a name.
fn put_name(text: &mut Vec<u8>, name: &Name) -> Result<(), WantOfMemory>
    ensures { OnOk result (text.new.items ≡ text.old.items ++ name_text name.now) }
{
    text.push(b',')?;
    text.extend_from_slice(name.bytes())?;
    Ok(())
}

// Adds calculations, a line each.
fn put_calcs(alloc: Global, text: &mut Vec<u8>, calcs: &[CalcDef]) -> Result<(), WantOfMemory>
    ensures { OnOk result (text.new.items ≡ text.old.items ++ calcs_text (map calculation calcs.now)) }
{
    for calc in calcs {
        put_calc(alloc, text, calc)?;
    }
    Ok(())
}

// Adds the line of a calculation.
fn put_calc(alloc: Global, text: &mut Vec<u8>, calc: &CalcDef) -> Result<(), WantOfMemory>
    ensures { OnOk result (text.new.items ≡ text.old.items ++ calc_text (calculation calc.now)) }
{
    text.push(b'\n')?;
    text.extend_from_slice(calc.name.bytes())?;
    text.push(b'=')?;
    text.extend_from_slice(print(alloc, &calc.expr)?.as_bytes())?;
    Ok(())
}
