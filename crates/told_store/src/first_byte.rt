// Was the first byte of a device damaged?
ghost use Rattle.std.specs.Prelude.{◌≡◌, ◌↔◌, ◌+◌, ◌<◌, ◌≤◌, ◌^◌, length, slice_index, Contains, IsTrue, false};
ghost use Rattle.disk_model.specs.{open_byte};
ghost use Rattle.told_store.specs.FirstBytes.{IsGateLost, IsPastMaking, later_gates, number_of, part};

use disk_model::OPEN;

// Where the letters of a layout end.
const LETTERS_END: usize = 5;

// Where the gates of a tag's device begin: those of its summaries, and 16 bytes further those of its lane.
const TAG_GATES: usize = 384;

const LANE_GATES: usize = 400;

// The place of the number of a tag's lane slots, and of the length of the text of a log. The first gate of a log
// follows that text.
const LANE_SLOTS: usize = 110;

const TEXT_LEN: usize = 5;

const TEXT: usize = 9;

// How many bytes the making of a tag's device writes, with all its lane slots.
const TAG_MAKING: usize = 66_640;

// Returns whether a tag's device begins with no open gate, and is longer than its making leaves it. Then it was in use,
// whatever happened to its first bytes.
pub(crate) fn is_past_making(name: &str, bytes: &[u8]) -> bool
    ensures { IsTrue result ↔ IsPastMaking name.now bytes.now }
{
    if bytes.len() <= TAG_MAKING || bytes[0] == OPEN {
        return false;
    }
    name.ends_with(".tag")
}

// Returns whether a device was in use, and its first byte is no longer its open gate. A device of at most one byte is
// new. A device that begins with 00 is new too, unless a later gate was opened.
pub(crate) fn has_lost_gate(bytes: &[u8]) -> bool
    ensures new { length bytes.now ≤ 1 → result ≡ false }
    ensures begun { slice_index bytes.now 0 ≡ open_byte → result ≡ false }
    ensures lost { IsTrue result ↔ IsGateLost bytes.now }
{
    if bytes.len() <= 1 || bytes[0] == OPEN {
        return false;
    }
    bytes[0] != 0 || has_open_gate(bytes)
}

// Returns whether a gate after the first byte of a tag's device or of a log was opened. The making of such a layout
// writes these gates closed before it opens the first one, and nothing closes the first one again. So if a crash cuts a
// making short, none of them is open. A group's device is different. If its definition has changed, it is begun anew by
// closing its first gate, and the gates of its old blocks stay open. So this function finds no open gate in it.
fn has_open_gate(bytes: &[u8]) -> bool
    ensures { IsTrue result ↔ Contains (later_gates bytes.now) open_byte }
{
    later_gates(bytes).contains(&OPEN)
}

// Those gates.
fn later_gates(bytes: &[u8]) -> &[u8]
    ensures { result.now ≡ later_gates bytes.now }
{
    let letters = part(bytes, 1, LETTERS_END);
    if letters == b"PHT1".as_slice() {
        return tag_gates(bytes);
    }
    if letters == b"PHC1".as_slice() {
        return log_gate(bytes);
    }
    &[]
}

// The gates of the summaries and of the lane, and the zeros between.
fn tag_gates(bytes: &[u8]) -> &[u8]
    ensures { result.now ≡ part bytes.now 384 (400 + number_of (part bytes.now 110 114)) }
{
    let slots = number_at(bytes, LANE_SLOTS);
    part(bytes, TAG_GATES, LANE_GATES + slots)
}

// The gate of the first block.
fn log_gate(bytes: &[u8]) -> &[u8]
    ensures { result.now ≡ part bytes.now (9 + number_of (part bytes.now 5 9)) (10 + number_of (part bytes.now 5 9)) }
{
    let gate = TEXT + number_at(bytes, TEXT_LEN);
    part(bytes, gate, gate + 1)
}

// The number of four bytes at a place, or 0 if the bytes end before its end.
fn number_at(bytes: &[u8], at: usize) -> usize
    ensures number { result ≡ number_of (part bytes.now at (at + 4)) }
    ensures below { result < 2 ^ 32 }
{
    match part(bytes, at, at.saturating_add(4)) {
        [a, b, c, d] => u32::from_be_bytes([*a, *b, *c, *d]) as usize,
        _ => 0,
    }
}

// The bytes between two places, as far as there are any.
fn part(bytes: &[u8], from: usize, to: usize) -> &[u8]
    ensures { result.now ≡ part bytes.now from to }
{
    let front = &bytes[..to.min(bytes.len())];
    &front[from.min(front.len())..]
}
