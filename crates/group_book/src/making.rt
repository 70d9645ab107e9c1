// A book without a device.
ghost use Rattle.std.specs.Prelude.{◌≡◌, [], IfOk, None, false, length, replicate, vec_len};
ghost use Rattle.calc_refresh.specs.{lists_of, fresh, IsGrid, IsGroup, grid_of};

use crate::book::Book;
use crate::history::GroupOpening;
use calc_refresh::{CalcValue, GroupDefParts, new_sheet};
use disk_model::Disk;
use std::alloc::Global;
use trend_num::WantOfMemory;

/// Makes the book of a group without a device, at version 0. `tags` has one tag for each input. The only error is want
/// of memory.
pub fn new_book<D: Disk>(
    alloc: Global,
    group: u32,
    def: &GroupDefParts,
    tags: Vec<u32>,
) -> Result<Book<D>, WantOfMemory>
    requires group { IsGroup def.now.inputs def.now.calcs }
    requires grid { IsGrid (grid_of def.now.start def.now.period) }
    requires tags { vec_len tags ≡ def.now.inputs }
    ensures group { IfOk result (λ b. b.group ≡ group) }
    ensures def { IfOk result (λ b. b.def ≡ def.now) }
    ensures text { IfOk result (λ b. b.text ≡ []) }
    ensures tags { IfOk result (λ b. b.tags ≡ tags.items) }
    ensures versions { IfOk result (λ b. b.opening.versions.items ≡ replicate def.now.inputs 0) }
    ensures rows { IfOk result (λ b. lists_of b.opening.rows.items ≡ replicate (length def.now.calcs.calcs) []) }
    ensures moment { IfOk result (λ b. b.opening.moment ≡ 0) }
    ensures faults { IfOk result (λ b. b.opening.faults ≡ 0) }
    ensures tape { IfOk result (λ b. b.tape ≡ []) }
    ensures sheet { IfOk result (λ b. b.sheet ≡ fresh def.now.calcs (grid_of def.now.start def.now.period)
        (replicate def.now.inputs []) (replicate (length def.now.calcs.calcs) [])) }
    ensures dev { IfOk result (λ b. b.dev ≡ None) }
    ensures usable { IfOk result (λ b. b.failed ≡ false) }
{
    let sheet = new_sheet(alloc, def)?;
    let opening = GroupOpening {
        versions: zeros(alloc, def.inputs)?,
        rows: empty_rows(alloc, def.calcs.defs().len())?,
        moment: 0,
        faults: 0,
    };
    let def = copy_of(def)?;
    let versions = zeros(alloc, def.inputs)?;
    let saved_versions = zeros(alloc, def.inputs)?;
    let saved_rows = empty_rows(alloc, def.calcs.defs().len())?;
    Ok(Book {
        alloc,
        group,
        def,
        text: Vec::new(alloc),
        tags,
        opening,
        tape: Vec::new(alloc),
        sheet,
        versions,
        dev: None,
        number: 0,
        saved_versions,
        saved_rows,
        end: 0,
        unsaved: Vec::new(alloc),
        failed: false,
    })
}

// Returns a version of 0 for each input.
pub(crate) fn zeros(alloc: Global, inputs: u32) -> Result<Vec<u32>, WantOfMemory>
    ensures { IfOk result (λ v. v.items ≡ replicate inputs 0) }
{
    Ok(vec![in alloc; 0; inputs as usize]?)
}

// Returns an empty row for each calculation.
pub(crate) fn empty_rows(alloc: Global, calcs: usize) -> Result<Vec<Vec<CalcValue>>, WantOfMemory>
    ensures { IfOk result (λ rows. lists_of rows.items ≡ replicate calcs []) }
{
    let mut rows = Vec::new(alloc);
    for _ in 0..calcs {
        let row = Vec::new(alloc);
        rows.push(row)?;
    }
    Ok(rows)
}

// Copies a definition.
pub(crate) fn copy_of(def: &GroupDefParts) -> Result<GroupDefParts, WantOfMemory>
    ensures { IfOk result (λ copy. copy ≡ def.now) }
{
    Ok(GroupDefParts {
        inputs: def.inputs,
        start: def.start,
        period: def.period,
        calcs: def.calcs.copy()?,
    })
}
