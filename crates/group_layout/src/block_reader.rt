// Reading the blocks of a device, one at a time.
ghost use Rattle.std.specs.Prelude.{◌≡◌, ℕ, Option, IfOk, IsErrOf, length, map};
ghost use Rattle.disk_model.specs.{CountsFault, Shows};
ghost use Rattle.archive_file.specs.declared.failure.ScanNo.TheVariants.{Damaged, DeviceFault};
ghost use Rattle.group_layout.specs.Blocks.{AreBlocks, AreDamaged, end_of, last_of, parts_of, unsaved};

use crate::block::{Block, Blocks};
use crate::reader::{last_or, read_block, size_of_block, unsaved_block};
use crate::writer::ROW_LEN;
use archive_file::{BlockReader, Rest, ScanNo, Window};
use disk_model::Disk;
use std::alloc::Global;

/// A reader of a group's blocks.
#[derive(Drop)]
pub struct GroupReader {
    pub alloc: Global,
    /// How many inputs the group has.
    pub inputs: u32,
    /// How many calculations it has.
    pub calcs: u32,
    /// What counts before the first save.
    pub unsaved: Block,
    /// The blocks that were read so far, the oldest first.
    pub list: Vec<Block>,
}

impl BlockReader for GroupReader {
    ghost use Rattle.std.specs.Prelude.{◌≡◌, ◌+◌, ◌*◌, length};
    ghost use Rattle.archive_file.specs.{short_at};
    ghost use Rattle.group_layout.specs.Blocks.{AddsBlock, block_fields, last_read};

    ghost is_ready = { λ r. length (last_read r.unsaved r.list.items).versions ≡ r.inputs };

    ghost front = { λ r. 17 + 4 * r.inputs };

    ghost whole = { λ r c. 17 + 4 * r.inputs + 17 * short_at c (9 + 4 * r.inputs + 4) + 1 };

    ghost fields = { λ r c. block_fields c r.calcs (last_read r.unsaved r.list.items) 0 };

    ghost adds = { λ r c size s. (s.calcs ≡ r.calcs) × (s.unsaved ≡ r.unsaved)
        × AddsBlock c r.calcs (last_read r.unsaved r.list.items) r.list.items s.list.items size };

    fn front(&self) -> usize {
        17 + 4 * self.inputs as usize
    }

    fn whole<C: Rest>(&self, block: &Window) -> usize {
        let versions_end = 9 + 4 * self.inputs as usize;
        let count = block.short_at::<C>(versions_end + 4);
        17 + 4 * self.inputs as usize + ROW_LEN * count as usize + 1
    }

    fn add<C: Rest>(&mut self, block: &Window) -> Result<usize, ScanNo> {
        let before = last_or(&self.list, &self.unsaved);
        let read = read_block::<C>(self.alloc, block, self.calcs, before)?;
        let size = size_of_block(&read);
        let Ok(()) = self.list.push(read) else {
            return Err(ScanNo::WantOfMemory);
        };
        Ok(size)
    }
}

/// Reads the blocks that begin with the gate at `at`, of a group with so many inputs and calculations. It reads one
/// block at a time. If they break a rule of blocks, the function returns `Damaged` with the first byte of the first
/// field that does. It does not test whether the blocks give a value of each calculation in each window. Returns
/// `DeviceFault` if a call of the device fails, and `WantOfMemory` if no memory is found.
pub fn read_blocks<D: Disk>(
    alloc: Global,
    dev: &mut D,
    at: u64,
    inputs: u32,
    calcs: u32,
) -> Result<Blocks, ScanNo>
    ensures blocks { IfOk result (λ b. Shows (D.device dev.old).trace (λ c. AreBlocks c calcs inputs at (map parts_of b.list.items))) }
    ensures end { IfOk result (λ b. b.end ≡ end_of at (map parts_of b.list.items)) }
    ensures versions { IfOk result (λ b. length (last_of (unsaved inputs) (map parts_of b.list.items)).versions ≡ inputs) }
    ensures damaged { (a : ℕ) (byte : Option ℕ) → IsErrOf result (Damaged a byte)
        → Shows (D.device dev.old).trace (λ c. AreDamaged c calcs inputs at a byte) }
    ensures cause { CountsFault result DeviceFault (D.device dev.old).faults (D.device dev.new).faults }
    ensures handed { (D.device dev.new).handed ≡ (D.device dev.old).handed }
    ensures same { (D.device dev.new).trace ≡ (D.device dev.old).trace }
{
    let Ok(len) = dev.len() else {
        return Err(ScanNo::DeviceFault);
    };
    let unsaved = unsaved_block(alloc, inputs)?;
    let mut reader = GroupReader {
        alloc,
        inputs,
        calcs,
        unsaved,
        list: Vec::new(alloc),
    };
    let end = archive_file::read_blocks(alloc, dev, len, at, &mut reader)?;
    Ok(Blocks {
        list: reader.list,
        end,
    })
}
