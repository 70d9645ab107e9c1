// Reading a block that is in memory.
ghost use Rattle.std.specs.Prelude.{◌≡◌, ℕ, ◌+◌, ◌*◌, ◌^◌, ◌<◌, ◌≤◌, All, Option, IfOk, IsErrOf, OnOk, length, map, slice_index, nat_eq};
ghost use Rattle.archive_file.specs.declared.failure.ScanNo.TheVariants.{Damaged, DeviceFault};
ghost use Rattle.archive_file.specs.{BreaksFirst, Keeps, Spells, short_at, IsWindow};
ghost use Rattle.group_layout.specs.Blocks.{MayFollow, block_fields, block_image, block_size, last_of, parts_of, unsaved, version_fields, versions_image};

use crate::block::Block;
use crate::row_reader::read_rows;
use crate::writer::ROW_LEN;
use archive_file::{Field, Rest, ScanNo, Window};
use std::alloc::Global;

// Returns what counts before the first save: so many inputs at version 0.
pub(crate) fn unsaved_block(alloc: Global, inputs: u32) -> Result<Block, ScanNo>
    ensures unsaved { IfOk result (λ b. parts_of b ≡ unsaved inputs) }
    ensures undamaged { (a : ℕ) (byte : Option ℕ) → IsErrOf result (Damaged a byte) → ⊥ }
    ensures no_fault { IsErrOf result DeviceFault → ⊥ }
{
    let Ok(versions) = vec![in alloc; 0; inputs as usize] else {
        return Err(ScanNo::WantOfMemory);
    };
    Ok(Block {
        number: 0,
        versions,
        windows: 0,
        rows: Vec::new(alloc),
    })
}

// Returns the last of these blocks, or `unsaved` if there is none.
pub(crate) fn last_or<'a>(list: &'a [Block], unsaved: &'a Block) -> &'a Block
    ensures { parts_of result.now ≡ last_of (parts_of unsaved.now) (map parts_of list.now) }
{
    match list {
        [] => unsaved,
        [.., last] => last,
    }
}

// Returns how many bytes a block takes, from its gate to the next one.
pub(crate) fn size_of_block(b: &Block) -> usize
    requires { block_size (parts_of b.now) < 2 ^ 64 }
    ensures { result ≡ block_size (parts_of b.now) }
{
    17 + 4 * b.versions.len() + ROW_LEN * b.rows.len()
}

// Reads a block, which follows the block `before`. The window shows it whole, from its gate to the next one.
pub(crate) fn read_block<C: Rest>(
    alloc: Global,
    block: &Window,
    calcs: u32,
    before: &Block,
) -> Result<Block, ScanNo>
    requires window { IsWindow C.rest block.now }
    requires asked { let inputs = length (parts_of before.now).versions in
        block.now.asked ≡ 17 + 4 * inputs + 17 * short_at C.rest (9 + 4 * inputs + 4) + 1 }
    ensures follows { IfOk result (λ b. MayFollow calcs (parts_of before.now) (parts_of b)) }
    ensures spelled { IfOk result (λ b. Spells C.rest 1 (block_image (parts_of b)) (block_size (parts_of b))) }
    ensures next { IfOk result (λ b. block_size (parts_of b) < length C.rest) }
    ensures damaged { (a : ℕ) (byte : Option ℕ) → IsErrOf result (Damaged a byte)
        → BreaksFirst C.rest (block_fields C.rest calcs (parts_of before.now) 0) a byte }
    ensures no_fault { IsErrOf result DeviceFault → ⊥ }
{
    let number = block.long_at::<C>(1);
    block.check::<C>(&[Field::new(1, 8, is_next(before.number, number))])?;
    let versions = read_versions::<C>(alloc, block, 9, &before.versions)?;
    let at = 9 + 4 * versions.len();
    let windows = block.short_at::<C>(at);
    block.check::<C>(&[
        Field::new(at, 4, before.windows <= windows),
        Field::new(at + 4, 4, true),
    ])?;
    let count = block.short_at::<C>(at + 4);
    let rows = read_rows::<C>(alloc, block, at + 8, count, calcs, windows)?;
    block.check::<C>(&[Field::new(at + 8 + ROW_LEN * rows.len(), 1, true)])?;
    Ok(Block {
        number,
        versions,
        windows,
        rows,
    })
}

// Whether `number` is the next one after `before`.
fn is_next(before: u64, number: u64) -> bool
    ensures { result ≡ nat_eq number (before + 1) }
{
    number > 0 && number - 1 == before
}

// Reads the versions that begin at a place. The version of an input must be no less than its version in `before`.
fn read_versions<C: Rest>(
    alloc: Global,
    block: &Window,
    at: usize,
    before: &[u32],
) -> Result<Vec<u32>, ScanNo>
    requires window { IsWindow C.rest block.now }
    requires asked { at + 4 * length before.now ≤ block.now.asked }
    requires there { at ≤ length C.rest }
    ensures len { IfOk result (λ v. length v.items ≡ length before.now) }
    ensures rises { IfOk result (λ v. (i : ℕ) → i < length before.now → slice_index before.now i ≤ slice_index v.items i) }
    ensures spelled { IfOk result (λ v. Spells C.rest at (versions_image v.items) (at + 4 * length before.now)) }
    ensures kept { OnOk result (All (Keeps C.rest) (version_fields C.rest before.now at)) }
    ensures damaged { (a : ℕ) (byte : Option ℕ) → IsErrOf result (Damaged a byte)
        → BreaksFirst C.rest (version_fields C.rest before.now at) a byte }
    ensures no_fault { IsErrOf result DeviceFault → ⊥ }
{
    let mut versions = Vec::new(alloc);
    let mut next = at;
    for least in before {
        let version = block.short_at::<C>(next);
        block.check::<C>(&[Field::new(next, 4, *least <= version)])?;
        let Ok(()) = versions.push(version) else {
            return Err(ScanNo::WantOfMemory);
        };
        next += 4;
    }
    Ok(versions)
}
