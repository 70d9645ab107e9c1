// The values of a lane, taken after what its device stores.
ghost use Rattle.std.specs.Prelude.{◌≡◌, ◌+◌, ◌*◌, ◌^◌, ◌<◌, ◌≤◌, ℕ, length, min, take, map, Err, IfOk, IfErr, OnOk, OnErr};
ghost use Rattle.std.specs.List.{All};
ghost use Rattle.trend_num.specs.{most_records, TagDef, InRange, TuningInRange};
ghost use Rattle.trend_model.specs.{Raw, ArePartsOk};
ghost use Rattle.trend_model.specs.State.{replay};
ghost use Rattle.disk_model.specs.{CountsFault, HasCause, Reaches, Shows};
ghost use Rattle.event_queue.specs.{place_of, slot_at, count_in};
ghost use Rattle.device_layout.specs.declared.failure.OpenNo.TheVariants.{DeviceFault};
ghost use Rattle.device_layout.specs.{AllFit, IsRecovered, IsValuePlace, IsCause, CountsRefusal, IsReadFrom};
ghost use Rattle.crash_recovery.specs.Opening.{HoldsValue, IsOverfull};
ghost use Rattle.crash_recovery.specs.Journals.{IsSeat, IsNumbered};

use crate::seat::Seat;
use device_layout::{LANE, OpenNo, Stored, damaged, refusal_of};
use disk_model::{Disk, read_part};
use event_queue::{BATCH_MOST, SLOT_LEN, scan};
use std::alloc::Global;
use std::sync::ledger::Ledger;
use tag_core::TagCore;
use trend_num::{Point, Steps};

// Where the fields of a lane slot begin: the number of its values, and the values.
const COUNT: u64 = 8;

const POINTS: u64 = 10;

// How many bytes a value has.
const POINT_LEN: u64 = 16;

// Takes each of these values. It returns how many it took before one found no room.
pub(crate) fn replay<L: Ledger>(
    core: &mut TagCore,
    points: &[Point],
    steps: &mut Steps<L>,
) -> Result<(), usize>
    requires in_range { All InRange points.now }
    requires room { 2 * length points.now ≤ core.old.spare }
    requires countable { core.old.state.summary.taken + length points.now < 2 ^ 64 }
    ensures fit { OnOk result (AllFit core.old.step core.old.state (map Raw points.now)) }
    ensures state { OnOk result (core.new.state ≡ replay core.old.step core.old.state (map Raw points.now)) }
    ensures taken { OnOk result
        (core.new.state.summary.taken ≡ core.old.state.summary.taken + length points.now) }
    ensures room_left { OnOk result (core.old.spare ≤ core.new.spare + 2 * length points.now) }
    ensures step { core.new.step ≡ core.old.step }
    ensures within { IfErr result (λ n. n < length points.now) }
    ensures fit_before { IfErr result (λ n. AllFit core.old.step core.old.state (map Raw (take n points.now))) }
    ensures full { IfErr result (λ n. most_records
        < length (replay core.old.step core.old.state (map Raw (take n points.now))).records + 2) }
{
    for (n, p) in points.iter().enumerate() {
        let Ok(_) = core.take(*p, steps) else {
            return Err(n);
        };
    }
    Ok(())
}

// The place of a value of the lane, by its number among all of them.
fn value_place<D: Disk>(dev: &mut D, slots: u32, used: u32, number: usize) -> Result<u64, OpenNo>
    requires some { 1 ≤ slots }
    requires within { used ≤ slots }
    requires there { Reaches (D.device dev.old).trace (400 + 1035 * slots) }
    ensures place { (taken : ℕ) → Shows (D.device dev.old).trace (HoldsValue slots taken used number)
        → IfOk result (λ a. Shows (D.device dev.old).trace (λ c. (j : ℕ) × (i : ℕ) × IsValuePlace slots c taken number a j i)) }
    ensures end { IfOk result (λ a. a < 400 + 1035 * slots) }
    ensures fault { OnErr result (result ≡ Err DeviceFault) }
    ensures counts { HasCause (D.device dev.old).faults (D.device dev.new).faults result }
    ensures handed { (D.device dev.new).handed ≡ (D.device dev.old).handed }
    ensures same { (D.device dev.new).trace ≡ (D.device dev.old).trace }
{
    let mut rest = number;
    for j in 0..used {
        let count = usize::from(count_at(dev, slots, j)?);
        if rest < count {
            return Ok(value_start(slots, j, rest));
        }
        rest -= count;
    }
    // Not reached if the lane holds a value of this number.
    Ok(value_start(slots, 0, 0))
}

// How many values a lane slot holds. That number is at byte 8 of the slot.
fn count_at<D: Disk>(dev: &mut D, slots: u32, slot: u32) -> Result<u16, OpenNo>
    requires within { slot < slots }
    requires there { Reaches (D.device dev.old).trace (400 + 1035 * slots) }
    ensures count { IfOk result (λ n. Shows (D.device dev.old).trace (λ c. n ≡ min 64 (count_in (slot_at slots c slot)))) }
    ensures few { IfOk result (λ n. n ≤ 64) }
    ensures fault { OnErr result (result ≡ Err DeviceFault) }
    ensures counts { HasCause (D.device dev.old).faults (D.device dev.new).faults result }
    ensures handed { (D.device dev.new).handed ≡ (D.device dev.old).handed }
    ensures same { (D.device dev.new).trace ≡ (D.device dev.old).trace }
{
    let bytes = read_part::<2, D>(dev, slot_start(slots, slot) + COUNT)?;
    Ok(u16::from_be_bytes(bytes).min(BATCH_MOST))
}

// The place at which a value begins, by its number among those of a lane slot.
fn value_start(slots: u32, slot: u32, number: usize) -> u64
    requires { number ≤ 64 }
    ensures { result ≡ place_of slots slot + (10 + 16 * number) }
{
    slot_start(slots, slot) + (POINTS + POINT_LEN * number as u64)
}

// The place at which a lane slot begins.
fn slot_start(slots: u32, number: u32) -> u64
    ensures { result ≡ place_of slots number }
{
    LANE + u64::from(slots) + SLOT_LEN as u64 * u64::from(number)
}

// The refusal of a lane in which value `number` finds no room.
fn overfull<D: Disk>(dev: &mut D, slots: u32, used: u32, number: usize) -> OpenNo
    requires some { 1 ≤ slots }
    requires within { used ≤ slots }
    requires few { slots ≤ 65536 }
    requires there { Reaches (D.device dev.old).trace (400 + 1035 * slots) }
    ensures value { (taken : ℕ) → Shows (D.device dev.old).trace (HoldsValue slots taken used number)
        → IsOverfull (D.device dev.old).trace slots taken number result }
    ensures same { (D.device dev.new).trace ≡ (D.device dev.old).trace }
    ensures counts { CountsRefusal result (D.device dev.old).faults (D.device dev.new).faults }
    ensures handed { (D.device dev.new).handed ≡ (D.device dev.old).handed }
{
    let at = match value_place(dev, slots, used, number) {
        Ok(at) => at,
        Err(why) => return why,
    };
    match read_part::<1, D>(dev, at) {
        Ok(bytes) => damaged(at, bytes[0]),
        Err(_) => OpenNo::DeviceFault,
    }
}

// Returns the core of what a device stores and of the lane's values after that. It has memory for `room` events more
// and for a retuning.
pub(crate) fn read_core<L: Ledger, D: Disk>(
    alloc: Global,
    dev: &mut D,
    slots: u32,
    stored: Stored,
    step: bool,
    room: u32,
    steps: &mut Steps<L>,
) -> Result<(Seat, TagCore), OpenNo>
    requires some { 1 ≤ slots }
    requires few { slots ≤ 65536 }
    requires there { Reaches (D.device dev.old).trace (400 + 1035 * slots) }
    requires tuned { TuningInRange stored.tuning }
    requires parts { ArePartsOk stored.tuning step stored.recs.items stored.summary }
    ensures recovered { (def : TagDef) → def.step ≡ step → Shows (D.device dev.old).trace (IsReadFrom def slots stored)
        → IfOk result (λ r. Shows (D.device dev.old).trace (λ c. IsRecovered def c r.1.state)) }
    ensures seat { (def : TagDef) → Shows (D.device dev.old).trace (IsReadFrom def slots stored)
        → IfOk result (λ r. Shows (D.device dev.old).trace (IsSeat r.0)) }
    ensures slots { IfOk result (λ r. r.0.lane.slots ≡ slots) }
    ensures used { IfOk result (λ r. r.0.lane.used ≤ slots) }
    ensures next { IfOk result (λ r. r.0.lane.next ≡ r.1.state.summary.taken) }
    ensures numbered { IfOk result (λ r. IsNumbered r.0) }
    ensures countable { IfOk result (λ r. r.1.state.summary.taken < 2 * 10 ^ 18) }
    ensures step { IfOk result (λ r. r.1.step ≡ step) }
    ensures room { IfOk result (λ r. 2 * room + 2 ≤ r.1.spare) }
    ensures cause { (def : TagDef) → def.step ≡ step → Shows (D.device dev.old).trace (IsReadFrom def slots stored)
        → IfErr result (IsCause def (D.device dev.old).trace) }
    ensures same { (D.device dev.new).trace ≡ (D.device dev.old).trace }
    ensures counts { CountsFault result DeviceFault (D.device dev.old).faults (D.device dev.new).faults }
    ensures handed { (D.device dev.new).handed ≡ (D.device dev.old).handed }
{
    let scanned = match scan(alloc, dev, slots, stored.summary.taken) {
        Ok(scanned) => scanned,
        Err(why) => return Err(refusal_of(why)),
    };
    let events = (scanned.points.len() as u32 + 1).saturating_add(room);
    let Stored {
        slot,
        summary,
        recs,
        tuning,
    } = stored;
    let Ok(mut core) = TagCore::from_records(tuning, step, recs, &summary, events) else {
        return Err(OpenNo::WantOfMemory);
    };
    if let Err(number) = replay(&mut core, &scanned.points, steps) {
        return Err(overfull(dev, slots, scanned.lane.used, number));
    }
    let seat = Seat {
        lane: scanned.lane,
        stale: scanned.stale,
        counts: slot,
        taken: summary.taken,
        records: summary.records,
    };
    Ok((seat, core))
}
