// What is needed to give a plant's devices back.
ghost use Rattle.std.specs.Prelude.{◌≡◌, ◌≤◌, ◌++◌, [], IfOk, map, vec_capacity};
ghost use Rattle.plant_store.specs.Tags.{AreDistinct};
ghost use Rattle.plant_store.specs.Groups.{AreDistinct as AreDistinctGroups, device_name};
ghost use Rattle.plant_store.specs.CellNames.{device_names_of, texts};
ghost use Rattle.plant_store.specs.Shelves.{IsShelfFor};

use crate::cell_naming::tag_device_names;
use crate::group_parts::{group_device_name, group_device_names};
use group_book::GroupHistory;
use std::alloc::Global;
use tag_base::Base;
use tag_cell::TagHistory;
use trend_num::WantOfMemory;

/// The names of the devices of a base's tags and groups, and room for their histories. It is made before the devices
/// are taken, so giving them back takes no memory.
#[derive(Drop)]
pub struct Shelf {
    pub tag_names: Vec<String>,
    pub group_names: Vec<String>,
    pub tags: Vec<TagHistory>,
    pub groups: Vec<GroupHistory>,
}

/// Returns the shelf for a base.
pub fn shelf_for(alloc: Global, base: &Base) -> Result<Shelf, WantOfMemory>
    requires distinct { AreDistinct base.now.tags.items }
    requires distinct_groups { AreDistinctGroups base.now.groups.items }
    ensures { IfOk result (IsShelfFor base.now) }
{
    let tag_names = tag_device_names(alloc, &base.tags)?;
    let group_names = group_device_names(alloc, &base.groups)?;
    let tags = list_for(alloc, base.tags.len())?;
    let groups = list_for(alloc, base.groups.len())?;
    Ok(Shelf {
        tag_names,
        group_names,
        tags,
        groups,
    })
}

/// Returns the names of a base's devices: those of its tags, then those of its groups, each in order.
pub fn device_names(alloc: Global, base: &Base) -> Result<Vec<String>, WantOfMemory>
    ensures { IfOk result (λ names. texts names.items
        ≡ device_names_of base.now.tags.items ++ map (λ g. device_name g.name) base.now.groups.items) }
{
    let mut names = tag_device_names(alloc, &base.tags)?;
    for group in &base.groups {
        let name = group_device_name(alloc, &group.name)?;
        names.push(name)?;
    }
    Ok(names)
}

// Returns an empty list with room for so many items.
fn list_for<T: Drop>(alloc: Global, count: usize) -> Result<Vec<T>, WantOfMemory>
    ensures none { IfOk result (λ list. list.items ≡ []) }
    ensures room { IfOk result (λ list. count ≤ vec_capacity list) }
{
    let list = Vec::with_capacity(alloc, count)?;
    Ok(list)
}
