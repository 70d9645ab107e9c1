// Memory for more records and windows. All of it is taken before anything changes.
ghost use Rattle.std.specs.Prelude.{◌≡◌, ℕ, ◌+◌, ◌^◌, ◌<◌, ◌≤◌, length, map, All, IfOk, OnOk, slice_index_or, vec_len, vec_capacity, Vec};
ghost use Rattle.std.specs.declared.alloc.Global.{Global};
ghost use Rattle.trend_num.specs.{Rec};
ghost use Rattle.trend_model.specs.{ContentState, listed};
ghost use Rattle.calc_refresh.specs.Lists.{lists_of};
ghost use Rattle.calc_refresh.specs.Refreshed.{HasRoomForRecords};
ghost use Rattle.calc_refresh.specs.Sheet.{IsCopy};

use calc_eval::CalcValue;
use late_insert::Content;
use std::alloc::{AllocError, Global};
use trend_num::Rec;

// Makes room for more records in the copies.
pub(crate) fn room_in_copies(copies: &mut [Vec<Rec>], deltas: &[Vec<Rec>]) -> Result<(), AllocError>
    requires { length deltas.now ≡ length copies.old }
    ensures copies { lists_of copies.new ≡ lists_of copies.old }
    ensures room { OnOk result ((i : ℕ) (c d : Vec Rec Global) → i < length deltas.now
        → vec_len (slice_index_or copies.new i c) + length (slice_index_or deltas.now i d).items
        ≤ vec_capacity (slice_index_or copies.new i c)) }
{
    for i in 0..copies.len() {
        copies[i].reserve(deltas[i].len())?;
    }
    Ok(())
}

// Makes a content of these records, with room for so many more and for a quarter of all besides. So a content that
// grows is seldom made anew.
pub(crate) fn roomy(alloc: Global, copy: &[Rec], more: usize) -> Result<Content, AllocError>
    requires copy { IsCopy copy.now }
    requires more { more < 2 ^ 32 }
    ensures records { IfOk result (λ c. c.records ≡ listed copy.now) }
    ensures spare { IfOk result (λ c. more ≤ c.spare) }
{
    let beside = more + (copy.len() + more) / 4;
    let Ok(room) = u32::try_from(beside) else {
        return Err(AllocError);
    };
    match Content::from_records(alloc, copy, room) {
        Ok(content) => Ok(content),
        Err(_) => Err(AllocError),
    }
}

// Makes room for more records in the content of a copy.
fn room_in_content(
    alloc: Global,
    copy: &[Rec],
    content: &mut Content,
    more: usize,
) -> Result<(), AllocError>
    requires copy { IsCopy copy.now }
    requires content { content.old.records ≡ listed copy.now }
    requires more { more < 2 ^ 32 }
    ensures content { content.new.records ≡ content.old.records }
    ensures spare { OnOk result (more ≤ content.new.spare) }
{
    if (content.spare() as usize) < more {
        *content = roomy(alloc, copy, more)?;
    }
    Ok(())
}

// Makes room for more records in the contents.
pub(crate) fn room_in_contents(
    alloc: Global,
    copies: &[Vec<Rec>],
    contents: &mut [Content],
    deltas: &[Vec<Rec>],
) -> Result<(), AllocError>
    requires inputs { length deltas.now ≡ length copies.now }
    requires contents { map (λ c. c.records) contents.old ≡ map listed (lists_of copies.now) }
    requires copied { All IsCopy (lists_of copies.now) }
    requires more { All IsCopy (lists_of deltas.now) }
    ensures contents { map (λ c. c.records) contents.new ≡ map listed (lists_of copies.now) }
    ensures spare { OnOk result ((i : ℕ) (c : ContentState) (d : Vec Rec Global) → i < length deltas.now
        → length (slice_index_or deltas.now i d).items ≤ (slice_index_or contents.new i c).spare) }
{
    for i in 0..contents.len() {
        room_in_content(alloc, &copies[i], &mut contents[i], deltas[i].len())?;
    }
    Ok(())
}

/// Makes room for `windows` windows in each row. A row has one value for each window. No value changes, not even after an
/// error. An error means that no memory was found.
pub fn room_in_rows(rows: &mut [Vec<CalcValue>], windows: usize) -> Result<(), AllocError>
    ensures rows { lists_of rows.new ≡ lists_of rows.old }
    ensures room { OnOk result (All (λ row. windows ≤ vec_capacity row) rows.new) }
{
    for i in 0..rows.len() {
        let more = windows.saturating_sub(rows[i].len());
        rows[i].reserve(more)?;
    }
    Ok(())
}

// Makes room for more records of each input, and for so many windows. Nothing else changes, not even after an error.
pub(crate) fn make_room(
    alloc: Global,
    copies: &mut [Vec<Rec>],
    contents: &mut [Content],
    rows: &mut [Vec<CalcValue>],
    deltas: &[Vec<Rec>],
    windows: usize,
) -> Result<(), AllocError>
    requires inputs { length deltas.now ≡ length copies.old }
    requires read { map (λ c. c.records) contents.old ≡ map listed (lists_of copies.old) }
    requires copied { All IsCopy (lists_of copies.old) }
    requires more { All IsCopy (lists_of deltas.now) }
    ensures copies { lists_of copies.new ≡ lists_of copies.old }
    ensures read { map (λ c. c.records) contents.new ≡ map listed (lists_of copies.new) }
    ensures rows { lists_of rows.new ≡ lists_of rows.old }
    ensures room { OnOk result (HasRoomForRecords copies.new contents.new rows.new deltas.now windows) }
{
    room_in_copies(copies, deltas)?;
    room_in_contents(alloc, copies, contents, deltas)?;
    room_in_rows(rows, windows)
}
