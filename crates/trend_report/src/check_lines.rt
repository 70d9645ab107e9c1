// The lines of the tags of a plant.
ghost use Rattle.std.specs.Prelude.{◌≡◌, length, IfOk, string_bytes};
ghost use Rattle.trend_report.specs.CheckLines.{check_text};

use crate::tag_line::{line_of, tag_text};
use std::alloc::Global;
use tag_core::TagCore;
use trend_num::{TagDef, WantOfMemory};

/// Returns one line for each tag, in order, as `check` and `log` print them. Returns `WantOfMemory` if the memory
/// cannot be allocated.
pub fn check_text(alloc: Global, tags: &[TagDef], cores: &[TagCore]) -> Result<String, WantOfMemory>
    requires { length cores.now ≡ length tags.now }
    ensures { IfOk result (λ text. string_bytes text ≡ check_text tags.now cores.now) }
{
    let mut text = String::new(alloc);
    for (def, core) in tags.iter().zip(cores) {
        let summary = core.summary();
        let line = line_of(def.name, core.recs(), &summary)?;
        let line = tag_text(alloc, &line)?;
        let Ok(()) = text.push_str(line.as_str()) else {
            return Err(WantOfMemory);
        };
    }
    Ok(text)
}
