// The inputs of a group.
ghost use Rattle.std.specs.Prelude.{◌≡◌, ◌<◌, ◌≤◌, length, IfSome};
ghost use Rattle.tag_base.specs.Groups.{is_input, new_input, named_input};

use crate::tag::tag_place;
use toml_tables::Places;
use trend_num::{Name, TagDef};

// An input of a group: the place of its tag in the base, and the tag's name.
#[derive(Clone, Copy, Debug, PartialEq, Eq)]
pub(crate) struct Input {
    pub(crate) place: u32,
    pub(crate) name: Name,
}

// Whether the tag at a place is one of these inputs.
fn is_input(inputs: &[Input], place: u32) -> bool
    ensures { result ≡ is_input inputs.now place }
{
    inputs.iter().any(|input| input.place == place)
}

// The tag at a place as an input. `None` if it is a step tag, or an input already.
fn new_input(tags: &[TagDef], earlier: &[Input], place: usize) -> Option<Input>
    requires there { place < length tags.now }
    requires few_tags { length tags.now ≤ 1024 }
    ensures input { result ≡ new_input tags.now earlier.now place }
    ensures is_tag { IfSome result (λ input. input.place < length tags.now) }
{
    let tag = tags[place];
    let place = place as u32;
    if tag.step || is_input(earlier, place) {
        return None;
    }
    Some(Input {
        place,
        name: tag.name,
    })
}

// The tags of a base, from which a group names its inputs.
#[derive(Drop)]
pub(crate) struct InputTags<'t> {
    pub(crate) tags: &'t [TagDef],
    ghost few_tags: { length tags.now ≤ 1024 },
}

impl<'t> Places for InputTags<'t> {
    type Place = Input;

    ghost place_of = { λ tags. named_input tags.tags.now };

    ghost is_place = { λ tags input. input.place < length tags.tags.now };

    fn place_of(&self, earlier: &[Input], name: &str) -> Option<Input> {
        match tag_place(self.tags, name.as_bytes()) {
            Some(place) => new_input(self.tags, earlier, place),
            None => None,
        }
    }
}
