// Reading the blocks of a device, one after the other.
ghost use Rattle.std.specs.Prelude.{◌≡◌, ℕ, ◌+◌, ◌≤◌, ◌++◌, ◌&&◌, All, Option, IfOk, IsErrOf, OnOk, nat_le};
ghost use Rattle.disk_model.specs.{CountsFault, Reaches, Shows};
ghost use Rattle.archive_file.specs.declared.failure.ScanNo.TheVariants.{Damaged, DeviceFault};
ghost use Rattle.archive_file.specs.{number_bytes, BreaksFirst, Keeps, Spells, short_at, IsWindow};
ghost use Rattle.commit_log.specs.Blocks.{IsBlockDamage, IsLogRow, front_fields, most_in_block};
ghost use Rattle.commit_log.specs.Openings.{ListsRows};

use crate::row::LogRow;
use crate::row_reader::read_rows;
use crate::writer::{HEAD_LEN, MOST_IN_BLOCK, ROW_LEN};
use archive_file::{BlockReader, Field, Rest, ScanNo, Window};
use disk_model::Disk;
use std::alloc::Global;

/// The rows that a device stores.
#[derive(Drop)]
pub struct Stored {
    /// The rows, the oldest first.
    pub rows: Vec<LogRow>,
    /// Where the next block goes: the place of its gate.
    pub end: u64,
}

/// A reader of the blocks of a plant's log.
#[derive(Drop)]
pub struct LogReader {
    /// How many tags the plant has.
    pub tags: u32,
    /// The rows that were read so far, the oldest first.
    pub rows: Vec<LogRow>,
}

impl BlockReader for LogReader {
    ghost use Rattle.std.specs.Prelude.{◌≡◌, ◌+◌, ◌*◌, All, min, length};
    ghost use Rattle.archive_file.specs.{short_at};
    ghost use Rattle.commit_log.specs.Blocks.{IsLogRow, block_fields, most_in_block};
    ghost use Rattle.commit_log.specs.Openings.{AddsBlock};

    ghost is_ready = { λ r. All (IsLogRow r.tags) r.rows.items };

    ghost front = { λ r. 13 };

    ghost whole = { λ r c. 14 + 32 * min (short_at c 9) most_in_block };

    ghost fields = { λ r c. block_fields c r.tags (length r.rows.items) 0 };

    ghost adds = { λ r c size s. (s.tags ≡ r.tags) × AddsBlock c r.tags r.rows.items s.rows.items size };

    fn front(&self) -> usize {
        HEAD_LEN
    }

    fn whole<C: Rest>(&self, block: &Window) -> usize {
        let count = block.short_at::<C>(9).min(MOST_IN_BLOCK);
        HEAD_LEN + ROW_LEN * count as usize + 1
    }

    fn add<C: Rest>(&mut self, block: &Window) -> Result<usize, ScanNo> {
        let count = read_front::<C>(block, self.rows.len() as u64)?;
        let end = HEAD_LEN + ROW_LEN * count as usize;
        read_rows::<C>(block, HEAD_LEN, count, self.tags, &mut self.rows)?;
        block.check::<C>(&[Field::new(end, 1, true)])?;
        Ok(end)
    }
}

// Reads the blocks from the gate at this place on, of a plant with so many tags. At no time are the bytes of more than
// one block in memory.
pub(crate) fn read_blocks<D: Disk>(
    alloc: Global,
    dev: &mut D,
    at: u64,
    tags: u32,
) -> Result<Stored, ScanNo>
    requires gate { Reaches (D.device dev.old).trace (at + 1) }
    ensures stored { IfOk result (λ s. Shows (D.device dev.old).trace (λ c. ListsRows c tags at s.rows.items s.end)) }
    ensures rows { IfOk result (λ s. All (IsLogRow tags) s.rows.items) }
    ensures damaged { (a : ℕ) (byte : Option ℕ) → IsErrOf result (Damaged a byte)
        → Shows (D.device dev.old).trace (λ c. IsBlockDamage c tags at a byte) }
    ensures cause { CountsFault result DeviceFault (D.device dev.old).faults (D.device dev.new).faults }
    ensures handed { (D.device dev.new).handed ≡ (D.device dev.old).handed }
    ensures same { (D.device dev.new).trace ≡ (D.device dev.old).trace }
{
    let Ok(len) = dev.len() else {
        return Err(ScanNo::DeviceFault);
    };
    let Ok(rows) = Vec::with_capacity(alloc, (len / ROW_LEN as u64) as usize) else {
        return Err(ScanNo::WantOfMemory);
    };
    let mut reader = LogReader { tags, rows };
    let end = archive_file::read_blocks(alloc, dev, len, at, &mut reader)?;
    Ok(Stored {
        rows: reader.rows,
        end,
    })
}

// Returns how many rows a block has, as its front states. It refuses a front that has not this number.
fn read_front<C: Rest>(block: &Window, number: u64) -> Result<u32, ScanNo>
    requires window { IsWindow C.rest block.now }
    requires asked { 13 ≤ block.now.asked }
    ensures count { IfOk result (λ count. count ≡ short_at C.rest 9) }
    ensures some { IfOk result (λ count. 1 ≤ count) }
    ensures few { IfOk result (λ count. count ≤ most_in_block) }
    ensures kept { OnOk result (All (Keeps C.rest) (front_fields C.rest number 0)) }
    ensures spelled { IfOk result (λ count. Spells C.rest 1 (number_bytes 8 number ++ number_bytes 4 count) 13) }
    ensures damaged { (a : ℕ) (byte : Option ℕ) → IsErrOf result (Damaged a byte)
        → BreaksFirst C.rest (front_fields C.rest number 0) a byte }
    ensures no_fault { IsErrOf result DeviceFault → ⊥ }
{
    let count = block.short_at::<C>(9);
    block.check::<C>(&[
        Field::new(1, 8, block.long_at::<C>(1) == number),
        Field::new(9, 4, is_count_ok(count)),
    ])?;
    Ok(count)
}

// Whether a block may have so many rows.
fn is_count_ok(count: u32) -> bool
    ensures { result ≡ (nat_le 1 count && nat_le count most_in_block) }
{
    1 <= count && count <= MOST_IN_BLOCK
}
