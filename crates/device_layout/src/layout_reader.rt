// Reads a tag's device: its header, the summary that counts, and the records.
ghost use Rattle.std.specs.Prelude.{◌≡◌, ◌+◌, ◌*◌, ◌<◌, ◌≤◌, ℕ, [], None, Some, Err, IfOk, IfErr, IfSome, OnOk, OnErr};
ghost use Rattle.trend_num.specs.{Tuning, TagDef, TuningInRange};
ghost use Rattle.disk_model.specs.{CountsFault, HasCause, HasLength, Reaches, IsBegun, Shows};
ghost use Rattle.archive_file.specs.{HasRecords, summary_image, IsSummary};
ghost use Rattle.event_queue.specs.{lane_end};
ghost use Rattle.device_layout.specs.declared.failure.OpenNo.TheVariants.{DeviceFault, Damaged, OtherTag};
ghost use Rattle.device_layout.specs.Recovery.{chosen, counting, slot_bytes, no_summary, recovered_tuning};
ghost use Rattle.device_layout.specs.Readings.{IsCause, HasHeader, HasLayout, CountsSummary, IsFoundOn, refusal_of};

use crate::OpenNo;
use crate::header::{HEADER_LEN, Header, read_header};
use crate::slot::Slot;
use crate::slot_field::read_summary;
use archive_file::{SUMMARY_LEN, ScanNo, read_records};
use disk_model::{Disk, OPEN, read_part};
use event_queue::SLOT_LEN;
use std::alloc::Global;
use trend_num::{Rec, Summary, TagDef, Tuning, same_name};

/// What a device stores: the summary that counts, the records that it counts, and the tuning in force.
#[derive(Drop)]
pub struct Stored {
    /// The summary slot that counts. It is None before the first checkpoint, when the summary is empty.
    pub slot: Option<Slot>,
    /// The summary in that summary slot.
    pub summary: Summary,
    /// The records that it counts, the oldest first.
    pub recs: Vec<Rec>,
    /// The tuning in force: the summary's, or the header's if the summary has none.
    pub tuning: Tuning,
}

// The summary before the first checkpoint: it counts no event, whatever the lane holds.
const NO_SUMMARY: Summary = Summary {
    taken: 0,
    records: 0,
    held: None,
    pending: None,
    hinge: None,
    upper: None,
    lower: None,
    tuning: None,
};

/// Where the lane begins, with its gates.
pub const LANE: u64 = 400;

/// Reads the header of a device whose layout was finished. It fails with `Damaged` if a field of the header is broken,
/// or if the device ends before its layout does. It fails with `OtherTag` if the device is another tag's, and with
/// `DeviceFault` if a call of the device fails.
pub fn read_layout<D: Disk>(dev: &mut D, def: &TagDef) -> Result<Header, OpenNo>
    requires { Shows (D.device dev.old).trace IsBegun }
    ensures layout { IfOk result (λ h. Shows (D.device dev.old).trace (HasLayout def.now h.slots h.def.tuning)) }
    ensures tuned { IfOk result (λ h. TuningInRange h.def.tuning) }
    ensures slots { IfOk result (λ h. (1 ≤ h.slots) × (h.slots ≤ 65536)) }
    ensures cause { IfErr result (IsCause def.now (D.device dev.old).trace) }
    ensures same { (D.device dev.new).trace ≡ (D.device dev.old).trace }
    ensures counts { CountsFault result DeviceFault (D.device dev.old).faults (D.device dev.new).faults }
    ensures handed { (D.device dev.new).handed ≡ (D.device dev.old).handed }
{
    let Ok(len) = dev.len() else {
        return Err(OpenNo::DeviceFault);
    };
    let header = header_of(dev, len)?;
    check_tag(&header.def, def)?;
    if len < log_start(header.slots) {
        return Err(ends_at(len));
    }
    Ok(header)
}

// Reads the header of a device of this length.
fn header_of<D: Disk>(dev: &mut D, len: u64) -> Result<Header, OpenNo>
    requires { HasLength (D.device dev.old).trace len }
    ensures header { IfOk result (λ h. Shows (D.device dev.old).trace (HasHeader h)) }
    ensures tuned { IfOk result (λ h. TuningInRange h.def.tuning) }
    ensures slots { IfOk result (λ h. (1 ≤ h.slots) × (h.slots ≤ 65536)) }
    ensures cause { (def : TagDef) → Shows (D.device dev.old).trace IsBegun
        → IfErr result (IsCause def (D.device dev.old).trace) }
    ensures same { (D.device dev.new).trace ≡ (D.device dev.old).trace }
    ensures counts { CountsFault result DeviceFault (D.device dev.old).faults (D.device dev.new).faults }
    ensures handed { (D.device dev.new).handed ≡ (D.device dev.old).handed }
{
    if len < HEADER_LEN as u64 {
        return Err(ends_at(len));
    }
    let bytes = read_part::<HEADER_LEN, D>(dev, 0)?;
    match read_header(&bytes) {
        Ok(header) => Ok(header),
        Err(why) => Err(refusal_of(why)),
    }
}

// Refuses a tag of another name or of another kind.
fn check_tag(found: &TagDef, wanted: &TagDef) -> Result<(), OpenNo>
    ensures name { OnOk result (found.now.name ≡ wanted.now.name) }
    ensures step { OnOk result (found.now.step ≡ wanted.now.step) }
    ensures other { IfErr result (λ why. why ≡ OtherTag found.now wanted.now) }
    ensures differs { OnErr result ((found.now.name ≡ wanted.now.name) → (found.now.step ≡ wanted.now.step) → ⊥) }
{
    if same_name(&found.name, &wanted.name) && found.step == wanted.step {
        return Ok(());
    }
    Err(OpenNo::OtherTag {
        found: *found,
        wanted: *wanted,
    })
}

/// Returns the place at which the records begin, after so many lane slots.
pub fn log_start(slots: u32) -> u64
    ensures { result ≡ 400 + 1035 * slots }
{
    LANE + (SLOT_LEN as u64 + 1) * u64::from(slots)
}

// The refusal of a device that ends too early.
fn ends_at(len: u64) -> OpenNo
    ensures { result ≡ Damaged len None }
{
    OpenNo::Damaged {
        at: len,
        byte: None,
    }
}

// Returns the summary slot that counts, if one does.
fn counting_slot<D: Disk>(dev: &mut D) -> Result<Option<Slot>, OpenNo>
    requires { Reaches (D.device dev.old).trace 400 }
    ensures slot { IfOk result (λ x. Shows (D.device dev.old).trace (λ c. counting c ≡ x)) }
    ensures fault { OnErr result (result ≡ Err DeviceFault) }
    ensures counts { HasCause (D.device dev.old).faults (D.device dev.new).faults result }
    ensures handed { (D.device dev.new).handed ≡ (D.device dev.old).handed }
    ensures same { (D.device dev.new).trace ≡ (D.device dev.old).trace }
{
    let first = u64::from_be_bytes(read_part::<8, D>(dev, Slot::First.place())?);
    let second = u64::from_be_bytes(read_part::<8, D>(dev, Slot::Second.place())?);
    let gates = read_part::<2, D>(dev, Slot::First.gate())?;
    Ok(chosen(gates[0] == OPEN, gates[1] == OPEN, second <= first))
}

// The summary slot that counts. It depends on which gates are open, and on whether the second counts no more events
// than the first.
fn chosen(first_open: bool, second_open: bool, first_counts: bool) -> Option<Slot>
    ensures { result ≡ chosen first_open second_open first_counts }
{
    match (first_open, second_open) {
        (true, true) if first_counts => Some(Slot::First),
        (true, true) => Some(Slot::Second),
        (true, false) => Some(Slot::First),
        (false, true) => Some(Slot::Second),
        (false, false) => None,
    }
}

// Reads the summary in the summary slot that counts.
fn counted<D: Disk>(dev: &mut D, slot: Slot) -> Result<Summary, OpenNo>
    requires long { Reaches (D.device dev.old).trace 400 }
    ensures bytes { IfOk result (λ s. Shows (D.device dev.old).trace (λ c. slot_bytes c slot ≡ summary_image s)) }
    ensures whole { IfOk result IsSummary }
    ensures cause { (def : TagDef) (slots : ℕ) (made : Tuning) → Shows (D.device dev.old).trace (HasLayout def slots made)
        → Shows (D.device dev.old).trace (λ c. counting c ≡ Some slot)
        → IfErr result (IsCause def (D.device dev.old).trace) }
    ensures same { (D.device dev.new).trace ≡ (D.device dev.old).trace }
    ensures counts { CountsFault result DeviceFault (D.device dev.old).faults (D.device dev.new).faults }
    ensures handed { (D.device dev.new).handed ≡ (D.device dev.old).handed }
{
    let bytes = read_part::<SUMMARY_LEN, D>(dev, slot.place())?;
    match read_summary(&bytes) {
        Ok(summary) => Ok(summary),
        Err(ScanNo::Damaged { at, byte }) => Err(OpenNo::Damaged {
            at: slot.place() + at,
            byte,
        }),
        Err(ScanNo::DeviceFault) => Err(OpenNo::DeviceFault),
        Err(ScanNo::WantOfMemory) => Err(OpenNo::WantOfMemory),
    }
}

// Reads the records that this summary counts.
fn records_of<D: Disk>(
    alloc: Global,
    dev: &mut D,
    slots: u32,
    summary: &Summary,
) -> Result<Vec<Rec>, OpenNo>
    ensures records { IfOk result (λ rs. Shows (D.device dev.old).trace
        (λ c. HasRecords c (lane_end slots) summary.now.records rs.items)) }
    ensures cause { (def : TagDef) (slot : Slot) (tuning : Tuning)
        → Shows (D.device dev.old).trace (CountsSummary def slots slot summary.now tuning)
        → IfErr result (IsCause def (D.device dev.old).trace) }
    ensures same { (D.device dev.new).trace ≡ (D.device dev.old).trace }
    ensures counts { CountsFault result DeviceFault (D.device dev.old).faults (D.device dev.new).faults }
    ensures handed { (D.device dev.new).handed ≡ (D.device dev.old).handed }
{
    match read_records(alloc, dev, log_start(slots), summary.records) {
        Ok(recs) => Ok(recs),
        Err(why) => Err(refusal_of(why)),
    }
}

/// Returns the refusal for a damaged byte at a place.
pub fn damaged(at: u64, byte: u8) -> OpenNo
    ensures { result ≡ Damaged at (Some byte) }
{
    OpenNo::Damaged {
        at,
        byte: Some(byte),
    }
}

// The tuning in force, of a tag that was made with the given one.
fn in_force(made: Tuning, tuning: Option<Tuning>) -> Tuning
    ensures value { result ≡ recovered_tuning made tuning }
    ensures tuned { TuningInRange made → IfSome tuning TuningInRange → TuningInRange result }
{
    match tuning {
        None => made,
        Some(tuning) => tuning,
    }
}

/// Reads the summary that counts, its records, and the tuning in force. It does not test whether records and summary
/// can be those of a tag.
pub fn read_stored<D: Disk>(alloc: Global, dev: &mut D, header: &Header) -> Result<Stored, OpenNo>
    requires long { Reaches (D.device dev.old).trace 400 }
    requires tuned { TuningInRange header.now.def.tuning }
    ensures found { (def : TagDef)
        → Shows (D.device dev.old).trace (HasLayout def header.now.slots header.now.def.tuning)
        → IfOk result (λ x. Shows (D.device dev.old).trace (IsFoundOn def header.now.slots x)) }
    ensures tuned { IfOk result (λ x. TuningInRange x.tuning) }
    ensures none { IfOk result (λ x. x.slot ≡ None → (x.summary ≡ no_summary) × (x.recs.items ≡ [])) }
    ensures cause { (def : TagDef)
        → Shows (D.device dev.old).trace (HasLayout def header.now.slots header.now.def.tuning)
        → IfErr result (IsCause def (D.device dev.old).trace) }
    ensures same { (D.device dev.new).trace ≡ (D.device dev.old).trace }
    ensures counts { CountsFault result DeviceFault (D.device dev.old).faults (D.device dev.new).faults }
    ensures handed { (D.device dev.new).handed ≡ (D.device dev.old).handed }
{
    let Some(slot) = counting_slot(dev)? else {
        return Ok(Stored {
            slot: None,
            summary: NO_SUMMARY,
            recs: Vec::new(alloc),
            tuning: header.def.tuning,
        });
    };
    let summary = counted(dev, slot)?;
    let tuning = in_force(header.def.tuning, summary.tuning);
    let recs = records_of(alloc, dev, header.slots, &summary)?;
    Ok(Stored {
        slot: Some(slot),
        summary,
        recs,
        tuning,
    })
}

/// Returns the refusal to open a device whose records could not be read.
pub fn refusal_of(why: ScanNo) -> OpenNo
    ensures { result ≡ refusal_of why }
{
    match why {
        ScanNo::DeviceFault => OpenNo::DeviceFault,
        ScanNo::Damaged { at, byte } => OpenNo::Damaged { at, byte },
        ScanNo::WantOfMemory => OpenNo::WantOfMemory,
    }
}
