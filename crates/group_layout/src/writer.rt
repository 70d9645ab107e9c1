// The bytes of blocks.
ghost use Rattle.std.specs.Prelude.{◌≡◌, ◌∷◌, ◌++◌, [], IfOk, OnOk, vec_len};
ghost use Rattle.group_layout.specs.Blocks.{block_image, parts_of, row_image, rows_image, versions_image};

use crate::block::{Block, BlockRow};
use archive_file::put;
use arrayvec::ArrayVec;
use std::alloc::{AllocError, Global};
use trend_num::WantOfMemory;

// The byte of a gate that is not opened yet.
const CLOSED: u8 = 0;

// How many bytes a row has.
pub(crate) const ROW_LEN: usize = 17;

/// Returns the bytes of a block after its gate, up to and with the next gate, which is closed. Returns `WantOfMemory`
/// if no memory is found. This error also comes if the block has more rows than the four bytes of their number can
/// count.
pub fn block_bytes(alloc: Global, b: &Block) -> Result<Vec<u8>, WantOfMemory>
    ensures { IfOk result (λ v. v.items ≡ block_image (parts_of b.now) ++ 0 ∷ []) }
{
    let Ok(count) = u32::try_from(b.rows.len()) else {
        return Err(WantOfMemory);
    };
    match bytes_of(alloc, b, count) {
        Ok(bytes) => Ok(bytes),
        Err(_) => Err(WantOfMemory),
    }
}

// Returns the same for a block with `count` rows.
fn bytes_of(alloc: Global, b: &Block, count: u32) -> Result<Vec<u8>, AllocError>
    requires { vec_len b.now.rows ≡ count }
    ensures { IfOk result (λ v. v.items ≡ block_image (parts_of b.now) ++ 0 ∷ []) }
{
    let mut bytes = Vec::new(alloc);
    bytes.extend_from_slice(&b.number.to_be_bytes())?;
    put_versions(&mut bytes, &b.versions)?;
    bytes.extend_from_slice(&b.windows.to_be_bytes())?;
    bytes.extend_from_slice(&count.to_be_bytes())?;
    put_rows(&mut bytes, &b.rows)?;
    bytes.push(CLOSED)?;
    Ok(bytes)
}

// Adds versions at the end.
fn put_versions(bytes: &mut Vec<u8>, versions: &[u32]) -> Result<(), AllocError>
    ensures { OnOk result (bytes.new.items ≡ bytes.old.items ++ versions_image versions.now) }
{
    for version in versions {
        bytes.extend_from_slice(&version.to_be_bytes())?;
    }
    Ok(())
}

// Adds rows at the end.
fn put_rows(bytes: &mut Vec<u8>, rows: &[BlockRow]) -> Result<(), AllocError>
    ensures { OnOk result (bytes.new.items ≡ bytes.old.items ++ rows_image rows.now) }
{
    for row in rows {
        bytes.extend_from_slice(&row_bytes(*row))?;
    }
    Ok(())
}

// The bytes of a row: its calculation, its window, its kind, its value.
fn row_bytes(r: BlockRow) -> [u8; ROW_LEN]
    ensures { result ≡ row_image r }
{
    let mut out = ArrayVec::<u8, ROW_LEN>::new();
    put(&mut out, &r.calc.to_be_bytes());
    put(&mut out, &r.window.to_be_bytes());
    put(&mut out, &r.kind.to_be_bytes());
    put(&mut out, &r.value.to_be_bytes());
    let Ok(bytes) = out.into_inner() else {
        unreachable!();
    };
    bytes
}
