// Reading a group's device: its definition text, and what its saves left.
ghost use Rattle.std.specs.Prelude.{◌≡◌, ℕ, ◌+◌, ◌^◌, ◌<◌, Option, IfOk, IsErrOf, map};
ghost use Rattle.disk_model.specs.{CountsFault, Shows};
ghost use Rattle.archive_file.specs.declared.failure.ScanNo.TheVariants.{Damaged, DeviceFault};
ghost use Rattle.archive_file.specs.{IsOfText};
ghost use Rattle.group_layout.specs.Blocks.{end_of, last_of, parts_of, unsaved};
ghost use Rattle.group_layout.specs.Rows.{AreRowsOf, IsIncomplete, block_lists_of};
ghost use Rattle.group_layout.specs.Images.{IsGroupDamage, letters};
ghost use Rattle.group_layout.specs.Readings.{HasFewWindows, HasShape, IsFound, IsReadOf, IsShaped};

use crate::block::Blocks;
use crate::block_reader::read_blocks;
use crate::making::LETTERS;
use crate::reader::{last_or, size_of_block, unsaved_block};
use crate::saved::rows_of;
use archive_file::{ScanNo, read_text};
use disk_model::{Disk, OPEN};
use std::alloc::Global;
use trend_num::CalcValue;

/// What the saves of a group left.
#[derive(Drop)]
pub struct SavedGroup {
    /// The number of the last save; 0 before the first one.
    pub number: u64,
    /// How many records of each input were taken into account.
    pub versions: Vec<u32>,
    /// How many windows were complete.
    pub windows: u32,
    /// The values of each calculation in these windows.
    pub rows: Vec<Vec<CalcValue>>,
    /// Where the next block goes: the place of its gate.
    pub end: u64,
}

/// What a group's device holds.
#[derive(Drop)]
pub enum Found {
    /// No layout was finished.
    New,
    /// The layout of another definition text.
    Other,
    /// The layout of the wanted text, and what its saves left.
    Saved(SavedGroup),
}

/// Reads the device of a group with this definition text and with so many inputs and calculations. It reads the text
/// and then the blocks, and has the bytes of at most one block in memory. If the device breaks the layout, the function
/// returns `Damaged` with the first byte of the first field that does. Returns `DeviceFault` if a call of the device
/// fails, and `WantOfMemory` if no memory is found.
pub fn read_group<D: Disk>(
    alloc: Global,
    dev: &mut D,
    text: &[u8],
    inputs: u32,
    calcs: u32,
) -> Result<Found, ScanNo>
    ensures found { IfOk result (λ f. Shows (D.device dev.old).trace (IsFound text.now inputs calcs f)) }
    ensures shape { IfOk result (IsShaped inputs calcs) }
    ensures few { IfOk result HasFewWindows }
    ensures damaged { (a : ℕ) (byte : Option ℕ) → IsErrOf result (Damaged a byte)
        → Shows (D.device dev.old).trace (λ c. IsGroupDamage text.now inputs calcs c a byte) }
    ensures cause { CountsFault result DeviceFault (D.device dev.old).faults (D.device dev.new).faults }
    ensures handed { (D.device dev.new).handed ≡ (D.device dev.old).handed }
    ensures same { (D.device dev.new).trace ≡ (D.device dev.old).trace }
{
    let Some(found) = read_text(alloc, dev, LETTERS)? else {
        return Ok(Found::New);
    };
    if *found != *text {
        return Ok(Found::Other);
    }
    let saved = read_saved(alloc, dev, text, inputs, calcs)?;
    Ok(Found::Saved(saved))
}

// Reads what the saves of a group with this text left on a device that has its layout.
fn read_saved<D: Disk>(
    alloc: Global,
    dev: &mut D,
    text: &[u8],
    inputs: u32,
    calcs: u32,
) -> Result<SavedGroup, ScanNo>
    requires { Shows (D.device dev.old).trace (IsOfText letters text.now) }
    ensures saved { IfOk result (λ g. Shows (D.device dev.old).trace (λ c. IsReadOf text.now inputs calcs c g)) }
    ensures shape { IfOk result (HasShape inputs calcs) }
    ensures few { IfOk result (λ g. g.windows < 2 ^ 32) }
    ensures damaged { (a : ℕ) (byte : Option ℕ) → IsErrOf result (Damaged a byte)
        → Shows (D.device dev.old).trace (λ c. IsGroupDamage text.now inputs calcs c a byte) }
    ensures cause { CountsFault result DeviceFault (D.device dev.old).faults (D.device dev.new).faults }
    ensures handed { (D.device dev.new).handed ≡ (D.device dev.old).handed }
    ensures same { (D.device dev.new).trace ≡ (D.device dev.old).trace }
{
    let at = 9 + text.len();
    let blocks = read_blocks(alloc, dev, at as u64, inputs, calcs)?;
    gather(alloc, &blocks, at, inputs, calcs)
}

// Gathers what the blocks that begin at a place give. Refuses blocks that lack a value.
pub(crate) fn gather(
    alloc: Global,
    blocks: &Blocks,
    at: usize,
    inputs: u32,
    calcs: u32,
) -> Result<SavedGroup, ScanNo>
    requires { blocks.now.end ≡ end_of at (map parts_of blocks.now.list.items) }
    ensures rows { IfOk result (λ g. AreRowsOf calcs g.windows (map parts_of blocks.now.list.items) (block_lists_of g.rows.items)) }
    ensures number { IfOk result (λ g. g.number ≡ (last_of (unsaved inputs) (map parts_of blocks.now.list.items)).number) }
    ensures versions { IfOk result (λ g. g.versions.items ≡ (last_of (unsaved inputs) (map parts_of blocks.now.list.items)).versions) }
    ensures windows { IfOk result (λ g. g.windows ≡ (last_of (unsaved inputs) (map parts_of blocks.now.list.items)).windows) }
    ensures few { IfOk result (λ g. g.windows < 2 ^ 32) }
    ensures end { IfOk result (λ g. g.end ≡ blocks.now.end) }
    ensures damaged { (a : ℕ) (byte : Option ℕ) → IsErrOf result (Damaged a byte)
        → IsIncomplete calcs inputs at (map parts_of blocks.now.list.items) a byte }
    ensures no_fault { IsErrOf result DeviceFault → ⊥ }
{
    let unsaved = unsaved_block(alloc, inputs)?;
    let last = last_or(&blocks.list, &unsaved);
    let Ok(versions) = Vec::from_slice(alloc, &last.versions) else {
        return Err(ScanNo::WantOfMemory);
    };
    match rows_of(alloc, &blocks.list, calcs, last.windows) {
        Err(_) => Err(ScanNo::WantOfMemory),
        Ok(None) => Err(ScanNo::Damaged {
            at: blocks.end - size_of_block(last) as u64,
            byte: Some(OPEN),
        }),
        Ok(Some(rows)) => Ok(SavedGroup {
            number: last.number,
            versions,
            windows: last.windows,
            rows,
            end: blocks.end,
        }),
    }
}
