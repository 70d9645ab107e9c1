// The names of the devices of tags.
ghost use Rattle.std.specs.Prelude.{◌≡◌, IfOk};
ghost use Rattle.plant_store.specs.CellNames.{AreApart, device_names_of, texts};
ghost use Rattle.plant_store.specs.Tags.{AreDistinct};

use crate::tag_device::device_name;
use std::alloc::Global;
use trend_num::{TagDef, WantOfMemory};

// Returns the names of the devices of these tags, in order: the name of each, and `.tag`.
pub(crate) fn tag_device_names(alloc: Global, tags: &[TagDef]) -> Result<Vec<String>, WantOfMemory>
    ensures names { IfOk result (λ names. texts names.items ≡ device_names_of tags.now) }
    ensures apart { AreDistinct tags.now → IfOk result (λ names. AreApart (texts names.items)) }
{
    let mut names = Vec::new(alloc);
    for def in tags {
        let name = device_name(alloc, &def.name)?;
        names.push(name)?;
    }
    Ok(names)
}
