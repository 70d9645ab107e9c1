// How often groups were refreshed, compared with the plan.
ghost use Rattle.std.specs.Prelude.{◌≡◌, ℕ, ◌^◌, ◌<◌, ◌≤◌, All, IfErr, IfOk, OnOk, length, slice_index};
ghost use Rattle.session_audit.specs.GroupTapes.{refreshes};
ghost use Rattle.session_audit.specs.GroupTurns.{IsTurnsMismatch, IsWithinTurns, turns_for};

use collector_pool::Refresh;
use disk_model::Disk;
use group_book::{Book, Turn};
use plant_status::{Place, Seen, Status};
use std::alloc::Global;
use trend_num::WantOfMemory;

/// Returns how many turns the refreshers make for each of `groups` groups. If a group has more than 2^32 - 1 turns, it
/// answers want of memory.
pub fn turns_of(
    alloc: Global,
    refreshers: &[Refresh],
    groups: u32,
) -> Result<Vec<u32>, WantOfMemory>
    requires { All (λ r. r.group < groups) refreshers.now }
    ensures groups { IfOk result (λ turns. length turns.items ≡ groups) }
    ensures turns { IfOk result (λ turns. (group : ℕ) → group < groups
        → slice_index turns.items group ≡ turns_for group refreshers.now) }
{
    let mut turns = vec![in alloc; 0u32; groups as usize]?;
    for refresh in refreshers {
        let group = refresh.group as usize;
        turns[group] = turns[group].checked_add(refresh.turns).ok_or(WantOfMemory)?;
    }
    Ok(turns)
}

/// Checks that no group was refreshed more often than it has turns. It stops at the first group that was.
pub fn compare_turns<D: Disk>(books: &[Book<D>], turns: &[u32]) -> Result<(), Status>
    requires turns { length turns.now ≡ length books.now }
    requires few { length books.now < 2 ^ 32 }
    ensures within { OnOk result (IsWithinTurns turns.now books.now) }
    ensures differs { IfErr result (IsTurnsMismatch turns.now books.now) }
{
    for group in 0..books.len() {
        let made = count_refreshes(books[group].tape());
        if made > turns[group] as usize {
            return Err(Status::Mismatch {
                place: Place::Turns {
                    group: group as u32,
                },
                kept: Seen::Number(made as u64),
                told: Seen::Number(u64::from(turns[group])),
            });
        }
    }
    Ok(())
}

// Returns how many refreshes a tape has.
pub(crate) fn count_refreshes(tape: &[Turn]) -> usize
    ensures count { result ≡ length (refreshes tape.now) }
    ensures within { result ≤ length tape.now }
{
    tape.iter()
        .filter(|turn| matches!(turn, Turn::Refresh { .. }))
        .count()
}
