// The board of a single tag.
ghost use Rattle.std.specs.Prelude.{◌≡◌, All, IfOk, length};
ghost use Rattle.snapshot_table.specs.{LooksAt, PostsTo, nothing};

use snapshot_table::{Board, Looker, Poster, new_board};
use std::alloc::Global;
use std::sync::Wait;
use trend_num::WantOfMemory;

/// Returns a board of one tag, the tag's poster, which has posted nothing, and `readers` lookers.
pub fn lone_board(
    rt: &impl Wait,
    alloc: Global,
    readers: u32,
) -> Result<(Board, Poster, Vec<Looker>), WantOfMemory>
    ensures one { IfOk result (λ made. length made.0 ≡ 1) }
    ensures posts { IfOk result (λ made. PostsTo made.0 made.1) }
    ensures unposted { IfOk result (λ made. made.1.last ≡ nothing) }
    ensures looks { IfOk result (λ made. All (LooksAt made.0) made.2.items) }
{
    let (board, mut posters, lookers) = new_board(rt, alloc, 1, readers)?;
    match posters.pop() {
        Some(poster) => Ok((board, poster, lookers)),
        None => Err(WantOfMemory),
    }
}
