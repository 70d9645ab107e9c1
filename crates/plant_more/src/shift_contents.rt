// The tags of a calendar, each with its content.
ghost use Rattle.std.specs.Prelude.{◌≡◌, ◌<◌, All, length, IfOk};
ghost use Rattle.trend_model.specs.{listed};
ghost use Rattle.plant_more.specs.ShiftTags.{AreShiftTags};

use crate::shift_tag::ShiftTag;
use late_insert::Content;
use std::alloc::Global;
use tag_core::TagCore;
use trend_num::{TagDef, WantOfMemory};

// Returns the tags at these places, each with the content of its records.
pub(crate) fn shift_tags(
    alloc: Global,
    defs: &[TagDef],
    cores: &[TagCore],
    places: &[u32],
) -> Result<Vec<ShiftTag>, WantOfMemory>
    requires of_defs { All (λ place. place < length defs.now) places.now }
    requires as_many { length cores.now ≡ length defs.now }
    ensures { IfOk result (λ tags. AreShiftTags defs.now cores.now places.now tags.items) }
{
    let mut tags = Vec::new(alloc);
    for place in places {
        let place = *place as usize;
        let tag = shift_tag(alloc, &defs[place], &cores[place])?;
        tags.push(tag)?;
    }
    Ok(tags)
}

// Returns a tag with the content of its records.
fn shift_tag(alloc: Global, def: &TagDef, core: &TagCore) -> Result<ShiftTag, WantOfMemory>
    ensures name { IfOk result (λ tag. tag.name ≡ def.now.name) }
    ensures step { IfOk result (λ tag. tag.step ≡ core.now.step) }
    ensures held { IfOk result (λ tag. tag.held ≡ core.now.state.summary.held) }
    ensures content { IfOk result (λ tag. tag.content.records ≡ listed core.now.state.records) }
{
    let content = Content::from_records(alloc, core.recs(), 0)?;
    Ok(ShiftTag {
        name: def.name,
        step: core.step(),
        held: core.held(),
        content,
    })
}
