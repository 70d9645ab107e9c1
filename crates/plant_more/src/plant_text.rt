// The text of a plant, by which a device is recognized as its log.
ghost use Rattle.std.specs.Prelude.{◌≡◌, ◌<◌, ◌∷◌, ◌++◌, IfOk, OnOk};
ghost use Rattle.plant_more.specs.LogTexts.{plant_text};

use std::alloc::{AllocError, Global};
use trend_num::{TagDef, WantOfMemory};

// Returns the names of these tags in order, with a line feed between two.
pub(crate) fn plant_text(alloc: Global, tags: &[TagDef]) -> Result<Vec<u8>, WantOfMemory>
    ensures { IfOk result (λ text. text.items ≡ plant_text tags.now) }
{
    let mut text = Vec::new(alloc);
    for place in 0..tags.len() {
        put_name(&mut text, place, tags[place].name.bytes())?;
    }
    Ok(text)
}

// Adds the name of the tag at this place. A line feed comes before it, except at place 0.
fn put_name(text: &mut Vec<u8>, place: usize, name: &[u8]) -> Result<(), AllocError>
    ensures first { OnOk result (place ≡ 0 → text.new.items ≡ text.old.items ++ name.now) }
    ensures next { OnOk result (0 < place → text.new.items ≡ text.old.items ++ (10 ∷ name.now)) }
{
    if place == 0 {
        return text.extend_from_slice(name);
    }
    text.push(b'\n')?;
    text.extend_from_slice(name)
}
