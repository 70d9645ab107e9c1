// Units with lines of their own in the report: tags and groups.
ghost use Rattle.std.specs.Prelude.{◌≡◌, ◌++◌, [], OnOk, slice_get, string_bytes};
ghost use Rattle.std.specs.Option.{option_map_or};
ghost use Rattle.session_report.specs.Report.{lines_of_each};

use std::alloc::Global;
use trend_num::WantOfMemory;

// The history of a tag or group that a base defines.
pub(crate) trait Reported {
    ghost use Rattle.std.specs.Prelude.{◌≡◌, ℕ, List, IfOk, string_bytes};

    // Its definition in the base.
    type Def;

    // Its lines, as it is at the end.
    ghost lines: { Self.Def → Self → List ℕ };

    // Makes its lines.
    fn lines(&self, alloc: Global, def: &Self::Def) -> Result<String, WantOfMemory>
        ensures { IfOk result (λ text. string_bytes text ≡ lines def.now self.now) };
}

// Adds the lines of each unit that a base defines.
pub(crate) fn put_each<T: Reported>(
    alloc: Global,
    text: &mut String,
    defs: &[T::Def],
    histories: &[T],
) -> Result<(), WantOfMemory>
    ensures { OnOk result (string_bytes text.new ≡ string_bytes text.old ++ lines_of_each T.lines defs.now histories.now) }
{
    for place in 0..defs.len() {
        put_one(alloc, text, &defs[place], histories, place)?;
    }
    Ok(())
}

// Adds the lines of the unit at a place, if its history is there.
fn put_one<T: Reported>(
    alloc: Global,
    text: &mut String,
    def: &T::Def,
    histories: &[T],
    place: usize,
) -> Result<(), WantOfMemory>
    ensures { OnOk result (string_bytes text.new
        ≡ string_bytes text.old ++ option_map_or (T.lines def.now) (slice_get histories.now place) []) }
{
    if place >= histories.len() {
        return Ok(());
    }
    let lines = histories[place].lines(alloc, def)?;
    Ok(text.push_str(lines.as_str())?)
}
