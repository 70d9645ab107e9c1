// What a base is.
ghost use Rattle.std.specs.Prelude.{◌≤◌, vec_len};

use calc_check::Checked;
use trend_num::{Name, TagDef};

/// A group of calculations over tags. Its windows follow one another, beginning at `start`.
#[derive(Drop)]
pub struct GroupDef {
    /// Its name, which no other group has.
    pub name: Name,
    /// The places of its tags in the base.
    pub inputs: Vec<u32>,
    /// When its first window begins, in milliseconds from 1970.
    pub start: u64,
    /// How long each window is, in milliseconds.
    pub period: u64,
    /// Its calculations, over the names of its tags.
    pub calcs: Checked,
}

/// A base: at most 1,024 tags of a plant, and at most 16 groups of its calculations.
#[derive(Drop)]
pub struct Base {
    pub tags: Vec<TagDef>,
    pub groups: Vec<GroupDef>,
    ghost few_tags: { vec_len tags ≤ 1024 },
    ghost few_groups: { vec_len groups ≤ 16 },
}
