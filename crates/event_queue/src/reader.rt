// Reading what a lane holds, in large pieces.
ghost use Rattle.std.specs.Prelude.{◌≡◌, ◌≢◌, ◌↔◌, ◌+◌, ◌*◌, ◌^◌, ◌<◌, ◌≤◌, ℕ, List, length, take, drop, slice_index, vec_len, Option, IsTrue, IfOk, OnOk, OnErr, IsErrOf};
ghost use Rattle.disk_model.specs.{seen, CountsFault, HasCause, Reaches, Reads, open_byte};
ghost use Rattle.archive_file.specs.declared.failure.ScanNo.TheVariants.{DeviceFault, Damaged, WantOfMemory};
ghost use Rattle.event_queue.specs.Slots.{lane_end};
ghost use Rattle.event_queue.specs.Damages.{IsLaneDamage};
ghost use Rattle.event_queue.specs.Pieces.{IsOpenSlot, IsPiece};
ghost use Rattle.event_queue.specs.Scans.{IsWithin, IsRead, FitsSlot};

use crate::slot::{
    BATCH_MOST, FIRST_GATE, POINT_LEN, SLOT_LEN, add_points, first_out_of_range, slot_place,
    take_count,
};
use crate::{Lane, ScanNo};
use archive_file::{read_bytes, take_number};
use disk_model::{Disk, Failed, OPEN};
use std::alloc::Global;
use trend_num::Point;

// How many slots are read at once.
const PIECE: u32 = 64;

// Where the fields of a slot begin: the number of the first raw value, how many there are, and their points.
const FIRST: usize = 0;

const COUNT: usize = 8;

const POINTS: usize = 10;

/// What a lane holds beyond the events that a summary counts.
#[derive(Drop)]
pub struct Scanned {
    /// The position after the last open slot.
    pub lane: Lane,
    /// The points, in order. There are none if the lane is stale.
    pub points: Vec<Point>,
    /// Whether some slot is open, and the summary counts the raw values of all open slots.
    pub stale: bool,
}

/// Reads a lane of so many lane slots, for a summary that counts the first `taken` events. It does not write to the
/// device.
///
/// Damaged: the first byte of the first field that breaks the layout, slot by slot. DeviceFault: a call of the device
/// failed. WantOfMemory: there was no memory.
pub fn scan<D: Disk>(alloc: Global, dev: &mut D, slots: u32, taken: u64) -> Result<Scanned, ScanNo>
    requires room { Reaches (D.device dev.old).trace (lane_end slots) }
    requires number { taken < 10 ^ 18 }
    ensures ok { IfOk result (λ s. IsRead slots taken (seen (D.device dev.old).trace) slots s) }
    ensures within { IfOk result (IsWithin slots taken slots) }
    ensures damaged { (a : ℕ) (byte : Option ℕ) → IsErrOf result (Damaged a byte) →
        IsLaneDamage slots (seen (D.device dev.old).trace) taken a byte }
    ensures cause { CountsFault result DeviceFault (D.device dev.old).faults (D.device dev.new).faults }
    ensures handed { (D.device dev.new).handed ≡ (D.device dev.old).handed }
    ensures same { (D.device dev.new).trace ≡ (D.device dev.old).trace }
{
    let gates = read_bytes(alloc, dev, FIRST_GATE, slots as usize)?;
    let used = used_of(&gates);
    let mut scanned = Scanned::new(alloc, slots, taken, used)?;
    let Ok(mut piece) = vec![in alloc; 0; SLOT_LEN * PIECE.min(used) as usize] else {
        return Err(ScanNo::WantOfMemory);
    };
    for j in 0..used.div_ceil(PIECE) {
        let from = PIECE * j;
        let count = PIECE.min(used - from);
        let len = SLOT_LEN * count as usize;
        let Ok(()) = refill(dev, slot_place(slots, from), len, &mut piece) else {
            return Err(ScanNo::DeviceFault);
        };
        scanned.take_piece(taken, &gates, from, count, &piece)?;
    }
    Ok(scanned)
}

// Cuts a piece to `len` bytes, and fills it with the device's bytes from `at` on.
fn refill<D: Disk>(dev: &mut D, at: u64, len: usize, piece: &mut Vec<u8>) -> Result<(), Failed>
    requires there { Reaches (D.device dev.old).trace (at + len) }
    requires room { len ≤ vec_len piece.old }
    ensures len { OnOk result (vec_len piece.new ≡ len) }
    ensures bytes { OnOk result (Reads (D.device dev.old).trace at piece.new.items) }
    ensures same { (D.device dev.new).trace ≡ (D.device dev.old).trace }
    ensures cause { HasCause (D.device dev.old).faults (D.device dev.new).faults result }
    ensures handed { (D.device dev.new).handed ≡ (D.device dev.old).handed }
{
    piece.truncate(len);
    dev.read(at, piece)
}

// Returns the number of the last open gate plus 1, or 0 if none is open.
fn used_of(gates: &[u8]) -> u32
    requires { length gates.now < 2 ^ 32 }
    ensures bound { result ≤ length gates.now }
    ensures none_behind { (k : ℕ) → result ≤ k → k < length gates.now → slice_index gates.now k ≢ open_byte }
{
    let mut used = 0;
    for (k, gate) in gates.iter().enumerate() {
        if *gate == OPEN {
            used = k as u32 + 1;
        }
    }
    used
}

impl Scanned {
    // Returns the result of reading no slot yet. It has room for the points of `room` slots.
    fn new(alloc: Global, slots: u32, taken: u64, room: u32) -> Result<Scanned, ScanNo>
        ensures within { IfOk result (IsWithin slots taken 0) }
        ensures read { (bytes : List ℕ) → IfOk result (IsRead slots taken bytes 0) }
        ensures no_memory { OnErr result (result ≡ Err WantOfMemory) }
    {
        let Ok(points) = Vec::with_capacity(alloc, BATCH_MOST as usize * room as usize) else {
            return Err(ScanNo::WantOfMemory);
        };
        Ok(Scanned {
            lane: Lane {
                slots,
                used: 0,
                next: taken,
            },
            points,
            stale: false,
        })
    }

    // Takes in the open slots of a piece, which has `count` slots from slot `from` on.
    fn take_piece(
        &mut self,
        taken: u64,
        gates: &[u8],
        from: u32,
        count: u32,
        piece: &[u8],
    ) -> Result<(), ScanNo>
        requires number { taken < 10 ^ 18 }
        requires all_gates { length gates.now ≡ self.old.lane.slots }
        requires there { from + count ≤ self.old.lane.slots }
        requires end { from + count < 2 ^ 32 }
        requires len { length piece.now ≡ 1034 * count }
        requires within { IsWithin self.old.lane.slots taken from self.old }
        ensures within { OnOk result (IsWithin self.old.lane.slots taken (from + count) self.new) }
        ensures read { OnOk result ((bytes : List ℕ) → IsPiece self.old.lane.slots bytes gates.now from piece.now
            → IsRead self.old.lane.slots taken bytes from self.old
            → IsRead self.old.lane.slots taken bytes (from + count) self.new) }
        ensures damaged { (a : ℕ) (byte : Option ℕ) → IsErrOf result (Damaged a byte) → (bytes : List ℕ)
            → IsPiece self.old.lane.slots bytes gates.now from piece.now
            → IsRead self.old.lane.slots taken bytes from self.old
            → IsLaneDamage self.old.lane.slots bytes taken a byte }
        ensures device_fault { IsErrOf result DeviceFault → ⊥ }
    {
        for i in 0..count {
            let k = from + i;
            if gates[k as usize] == OPEN {
                self.take_slot(taken, k, slot_of(piece, i))?;
            }
        }
        Ok(())
    }

    // Takes in the batch of slot k, which is open.
    fn take_slot(&mut self, taken: u64, k: u32, slot: &[u8]) -> Result<(), ScanNo>
        requires number { taken < 10 ^ 18 }
        requires there { k < self.old.lane.slots }
        requires len { length slot.now ≡ 1034 }
        requires within { IsWithin self.old.lane.slots taken k self.old }
        ensures within { OnOk result (IsWithin self.old.lane.slots taken (k + 1) self.new) }
        ensures read { OnOk result ((bytes : List ℕ) → IsOpenSlot self.old.lane.slots bytes k slot.now
            → IsRead self.old.lane.slots taken bytes k self.old
            → IsRead self.old.lane.slots taken bytes (k + 1) self.new) }
        ensures damaged { (a : ℕ) (byte : Option ℕ) → IsErrOf result (Damaged a byte) → (bytes : List ℕ)
            → IsOpenSlot self.old.lane.slots bytes k slot.now
            → IsRead self.old.lane.slots taken bytes k self.old
            → IsLaneDamage self.old.lane.slots bytes taken a byte }
        ensures device_fault { IsErrOf result DeviceFault → ⊥ }
    {
        let at = slot_place(self.lane.slots, k);
        let (first, rest) = take_number(slot);
        let (count, points) = take_count(rest);
        if count == 0 || count > BATCH_MOST {
            return Err(damage(at, slot, COUNT));
        }
        let stale = is_stale(first, count, taken);
        if !self.follows(k, first, stale) {
            return Err(damage(at, slot, FIRST));
        }
        if let Some(i) = first_out_of_range(points, count as usize) {
            return Err(damage(at, slot, POINTS + POINT_LEN * i));
        }
        let beyond = if stale { 0 } else { count };
        let Ok(()) = add_points(&mut self.points, points, beyond as usize) else {
            return Err(ScanNo::WantOfMemory);
        };
        self.lane.next += u64::from(beyond);
        self.lane.used = k + 1;
        self.stale = stale;
        Ok(())
    }

    // Returns whether the number of a batch's first raw value fits the slots before it.
    fn follows(&self, k: u32, first: u64, stale: bool) -> bool
        ensures { IsTrue result ↔ FitsSlot self.now k first stale }
    {
        if stale {
            self.stale || self.lane.used == 0
        } else {
            !self.stale && self.lane.used == k && self.lane.next == first
        }
    }
}

// Returns the damage at a field of the slot at this place; `field` is the field's offset in the slot.
fn damage(at: u64, slot: &[u8], field: usize) -> ScanNo
    requires len { length slot.now ≡ 1034 }
    requires within { field < 1034 }
    requires end { at + 1034 < 2 ^ 64 }
    ensures { result ≡ Damaged (at + field) (Some (slice_index slot.now field)) }
{
    ScanNo::Damaged {
        at: at + field as u64,
        byte: Some(slot[field]),
    }
}

// Returns whether the summary counts all raw values of a batch.
fn is_stale(first: u64, count: u16, taken: u64) -> bool
    ensures { IsTrue result ↔ (first + count ≤ taken) }
{
    first <= taken && u64::from(count) <= taken - first
}

// Returns the bytes of the i-th slot of a piece.
fn slot_of(piece: &[u8], i: u32) -> &[u8]
    requires { 1034 * (i + 1) ≤ length piece.now }
    ensures value { result.now ≡ take 1034 (drop (1034 * i) piece.now) }
    ensures len { length result.now ≡ 1034 }
{
    let (_, rest) = piece.split_at(SLOT_LEN * i as usize);
    let (slot, _) = rest.split_at(SLOT_LEN);
    slot
}
