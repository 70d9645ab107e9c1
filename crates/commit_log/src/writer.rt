// The bytes of blocks.
ghost use Rattle.std.specs.Prelude.{◌≡◌, ◌≤◌, ◌∷◌, ◌++◌, [], IfOk, OnOk, length};
ghost use Rattle.commit_log.specs.Blocks.{row_image, rows_image};
ghost use Rattle.commit_log.specs.Writes.{IsBlockOf, WritesRows};
ghost use Rattle.commit_log.specs.Tapes.{puts};

use crate::history::LogTurn;
use crate::row::LogRow;
use archive_file::{put, put_point};
use arrayvec::ArrayVec;
use std::alloc::{AllocError, Global};

// The byte of a gate that is closed.
const CLOSED: u8 = 0;

// How many bytes a block has before its rows: its gate, the number of its first row, and how many rows there are.
pub(crate) const HEAD_LEN: usize = 13;

// How many bytes a row has.
pub(crate) const ROW_LEN: usize = 32;

// How many rows a block has at most.
pub(crate) const MOST_IN_BLOCK: u32 = 4_096;

/// The bytes of a block after its gate, with the next gate, which is closed; and how many turns were read for its rows.
#[derive(Drop)]
pub struct BlockBytes {
    pub bytes: Vec<u8>,
    pub turns: usize,
}

// Returns the block of the first `count` rows of these turns. The first row has this number.
pub(crate) fn block_bytes(
    alloc: Global,
    number: u64,
    count: u32,
    rest: &[LogTurn],
) -> Result<BlockBytes, AllocError>
    requires there { count ≤ length (puts rest.now) }
    ensures { IfOk result (λ b. IsBlockOf number count rest.now b.bytes.items b.turns) }
{
    let mut bytes = Vec::with_capacity(alloc, HEAD_LEN + ROW_LEN * count as usize)?;
    bytes.extend_from_slice(&number.to_be_bytes())?;
    bytes.extend_from_slice(&count.to_be_bytes())?;
    let turns = put_rows(&mut bytes, count, rest)?;
    bytes.push(CLOSED)?;
    Ok(BlockBytes { bytes, turns })
}

// Appends the first `count` rows of these turns, and returns how many turns were read for them.
fn put_rows(bytes: &mut Vec<u8>, count: u32, rest: &[LogTurn]) -> Result<usize, AllocError>
    requires there { count ≤ length (puts rest.now) }
    ensures { IfOk result (WritesRows count rest.now bytes.old.items bytes.new.items) }
{
    let mut done = 0;
    let mut turns = 0;
    while done < count {
        let more = put_turn(bytes, &rest[turns])?;
        done += more;
        turns += 1;
    }
    Ok(turns)
}

// Appends the row of a turn if it has one, and returns how many rows that were: 0 or 1.
fn put_turn(bytes: &mut Vec<u8>, turn: &LogTurn) -> Result<u32, AllocError>
    ensures bytes { OnOk result (bytes.new.items ≡ bytes.old.items ++ rows_image (puts (turn.now ∷ []))) }
    ensures count { IfOk result (λ n. n ≡ length (puts (turn.now ∷ []))) }
    ensures one { IfOk result (λ n. n ≤ 1) }
{
    match turn {
        LogTurn::Put(row) => {
            bytes.extend_from_slice(&row_bytes(*row))?;
            Ok(1)
        }
        LogTurn::Commit { .. } => Ok(0),
    }
}

// The bytes of a row: its tag, its collector, its row in the file, its point.
fn row_bytes(r: LogRow) -> [u8; ROW_LEN]
    ensures { result ≡ row_image r }
{
    let mut out = ArrayVec::<u8, ROW_LEN>::new();
    put(&mut out, &r.tag.to_be_bytes());
    put(&mut out, &r.collector.to_be_bytes());
    put(&mut out, &r.row.to_be_bytes());
    put_point(&mut out, r.point);
    let Ok(bytes) = out.into_inner() else {
        unreachable!();
    };
    bytes
}
