// Opening a tag's device.
ghost use Rattle.std.specs.Prelude.{◌≡◌, ◌≢◌, ◌⊎◌, ◌+◌, ◌-◌, ◌*◌, ◌^◌, ◌<◌, ◌≤◌, Some, Err, true, false, length, IfOk, IfErr, OnOk, OnErr};
ghost use Rattle.trend_num.specs.{most_records, TagDef, TuningInRange};
ghost use Rattle.trend_model.specs.State.{State, nothing_taken};
ghost use Rattle.disk_model.specs.{Synced, noted, moment, IsSettled, During, CountsFault, IsBegun, layout_calls, IsNew, Shows};
ghost use Rattle.device_layout.specs.declared.failure.OpenNo.TheVariants.{DeviceFault, WantOfMemory, Full as TooFull};
ghost use Rattle.device_layout.specs.{IsRecovered, Recovers, IsMade, IsCause, CountsRefusal};
ghost use Rattle.crash_recovery.specs.Journals.{AllRecover, GoesOnFrom, RecoversEither, IsNumbered, IsSeat, SeatedOn, free_in};
ghost use Rattle.crash_recovery.specs.Opening.{IsOpenedAs, OpensAs, StaysSame, RecoversThen, HasSlots, IsTagLeftOrSame, IsReadAs, HasFreeAtFirst, LeavesFree, MakesLayout, GainsSync, OpensAt, refusal_of_put};
ghost use Rattle.crash_recovery.specs.Seats.{checkpoint_calls};

use crate::parts::read_parts;
use crate::replay::read_core;
use crate::seat::Seat;
use crate::{Journal, OpenFail};
use archive_file::PutNo;
use device_layout::{OpenNo, make_layout, read_layout};
use disk_model::{Disk, is_new};
use event_queue::Lane;
use std::alloc::Global;
use std::marker::Brand;
use std::sync::ledger::{Blank, Ledger};
use tag_core::TagCore;
use trend_num::{Steps, TagDef, same_tuning};

/// A tag whose device is open: its journal, and the core that holds what the device recovers.
#[derive(Drop)]
pub struct Opened<D: Disk> {
    /// The journal of the device.
    pub journal: Journal<D>,
    /// The tag in memory.
    pub core: TagCore,
}

/// Opens the device of a tag, with memory for `room` values more. It begins with a sync. A new device gets the layout,
/// with `lane_slots` slots. From any other device it reads the header, the summary that counts, the records and the
/// lane, and takes the lane's values. If another tuning than the wanted one is in force, it retunes the tag and makes a
/// checkpoint. All values that it finds are acknowledged. If it fails, [`OpenFail`] has the device and the cause.
pub fn open_tag<D: Disk>(
    alloc: Global,
    dev: D,
    def: &TagDef,
    lane_slots: u32,
    room: u32,
) -> Result<Opened<D>, OpenFail<D>>
    requires some { 1 ≤ lane_slots }
    requires few { lane_slots ≤ 65536 }
    requires tuned { TuningInRange def.now.tuning }

    // A crash at any moment leaves one of three images. The first is one that a crash before might have left. The
    // second recovers what the device recovered at the start. The third recovers that state as it is opened.
    ensures any_moment { IfOk result (λ o. StaysSame def.now (D.device dev).trace (D.device o.journal.dev).trace) }
    ensures any_moment_refused { IfErr result (λ e. StaysSame def.now (D.device dev).trace (D.device e.dev).trace) }

    // The core is what the device recovered. If another tuning than the wanted one was in force, it is retuned.
    ensures opened { IfOk result (λ o. Shows (D.device dev).trace (λ c. (s : State) × Recovers def.now c s
        × IsOpenedAs def.now s o.core.state)) }
    ensures recovers { IfOk result (λ o. RecoversThen def.now (D.device dev).trace (D.device o.journal.dev).trace o.core.state) }
    ensures recovers_now { IfOk result (λ o. o.core.state.summary.taken < 10 ^ 18
        → AllRecover def.now (D.device o.journal.dev).trace o.core.state) }
    ensures acked { IfOk result (λ o. o.journal.acked ≡ o.core.state.summary.taken) }
    ensures slots { IfOk result (λ o. Shows (D.device dev).trace (HasSlots lane_slots o.journal.slots)) }
    ensures free { IfOk result (λ o. Shows (D.device dev).trace (LeavesFree def.now o.journal.slots o.journal.free)) }
    ensures made { IfOk result (λ o. MakesLayout def.now lane_slots (D.device dev).trace (D.device o.journal.dev).trace) }
    ensures synced { IfOk result (λ o. GainsSync def.now (D.device dev).trace (D.device o.journal.dev).trace) }
    ensures moment { IfOk result (λ o. OpensAt def.now (D.device dev).trace (moment (D.device o.journal.dev).trace)) }
    ensures usable { IfOk result (λ o. o.journal.failed ≡ false) }
    ensures step { IfOk result (λ o. o.core.step ≡ def.now.step) }
    ensures tuning { IfOk result (λ o. o.core.state.summary.tuning ≡ Some def.now.tuning) }
    ensures room { IfOk result (λ o. 2 * room ≤ o.core.spare) }
    ensures countable { IfOk result (λ o. o.core.state.summary.taken < 2 ^ 63) }

    // A refusal names its cause. One fault is counted if a call of the device has failed, and otherwise none.
    ensures cause { IfErr result (λ e. IsCause def.now (D.device dev).trace e.why) }
    ensures faultless { IfOk result (λ o. (D.device o.journal.dev).faults ≡ (D.device dev).faults) }
    ensures counts { IfErr result (λ e. CountsRefusal e.why (D.device dev).faults (D.device e.dev).faults) }

    // It is the same device.
    ensures handed { IfOk result (λ o. (D.device o.journal.dev).handed ≡ (D.device dev).handed) }
    ensures handed_refused { IfErr result (λ e. (D.device e.dev).handed ≡ (D.device dev).handed) }
{
    let mut dev = dev;
    let read = match read_tag::<Brand, D>(alloc, &mut dev, def, lane_slots, room, Blank::new(1)) {
        Ok(read) => read,
        Err(why) => return Err(OpenFail { dev, why }),
    };
    let opened = Opened {
        journal: Journal::new(dev, read.seat),
        core: read.core,
    };
    if read.retuned {
        opened.with_checkpoint(alloc)
    } else {
        Ok(opened)
    }
}

impl<D: Disk> Opened<D> {
    // Makes a checkpoint of the core, and returns the opened tag.
    fn with_checkpoint(self, alloc: Global) -> Result<Opened<D>, OpenFail<D>>
        requires usable { self.journal.failed ≡ false }
        ensures any_moment { IfOk result (λ o. self.core.state.summary.taken < 10 ^ 18
            → (def : TagDef) (s : State) → AllRecover def (D.device self.journal.dev).trace s
            → GoesOnFrom def s self.core.step self.core.state
            → During (D.device self.journal.dev).trace (D.device o.journal.dev).trace (RecoversEither def s self.core.state)) }
        ensures any_moment_refused { IfErr result (λ e. self.core.state.summary.taken < 10 ^ 18
            → (def : TagDef) (s : State) → AllRecover def (D.device self.journal.dev).trace s
            → GoesOnFrom def s self.core.step self.core.state
            → During (D.device self.journal.dev).trace (D.device e.dev).trace (RecoversEither def s self.core.state)) }
        ensures durable { IfOk result (λ o. self.core.state.summary.taken < 10 ^ 18
            → (def : TagDef) (s : State) → AllRecover def (D.device self.journal.dev).trace s
            → GoesOnFrom def s self.core.step self.core.state
            → AllRecover def (D.device o.journal.dev).trace self.core.state) }
        ensures core { IfOk result (λ o. o.core ≡ self.core) }
        ensures acked { IfOk result (λ o. o.journal.acked ≡ self.core.state.summary.taken) }
        ensures slots { IfOk result (λ o. o.journal.slots ≡ self.journal.slots) }
        ensures free { IfOk result (λ o. o.journal.free ≡ o.journal.slots) }
        ensures usable { IfOk result (λ o. o.journal.failed ≡ false) }
        ensures calls { IfOk result (λ o. self.journal.acked < self.core.state.summary.taken → Shows (D.device self.journal.dev).trace
            (λ c. moment (D.device o.journal.dev).trace ≡ moment (D.device self.journal.dev).trace + checkpoint_calls (length self.core.state.records) c)) }
        ensures cause { IfErr result (λ e. (e.why ≡ DeviceFault)
            ⊎ (e.why ≡ WantOfMemory)) }
        ensures faultless { IfOk result (λ o. (D.device o.journal.dev).faults ≡ (D.device self.journal.dev).faults) }
        ensures counts { IfErr result (λ e. CountsRefusal e.why (D.device self.journal.dev).faults
            (D.device e.dev).faults) }
        ensures handed { IfOk result (λ o. (D.device o.journal.dev).handed ≡ (D.device self.journal.dev).handed) }
        ensures handed_refused { IfErr result (λ e. (D.device e.dev).handed ≡ (D.device self.journal.dev).handed) }
    {
        let Opened { mut journal, core } = self;
        match journal.checkpoint(alloc, &core) {
            Ok(()) => Ok(Opened { journal, core }),
            Err(why) => Err(OpenFail {
                dev: journal.into_device(),
                why: refusal_of_put(why),
            }),
        }
    }
}

// What was read of a tag's device: the journal's seat, the tag in memory, and whether it had to be retuned.
#[derive(Drop)]
struct Read {
    seat: Seat,
    core: TagCore,
    retuned: bool,
}

// Makes a new device's layout, or reads what another device recovers. If that has another tuning, it is retuned in
// memory.
fn read_tag<L: Ledger, D: Disk>(
    alloc: Global,
    dev: &mut D,
    def: &TagDef,
    lane_slots: u32,
    room: u32,
    blank: Blank,
) -> Result<Read, OpenNo>
    requires name { blank.name ≡ L.name }
    requires parts { blank.parts ≡ L.parts }
    requires some_parts { 0 < L.parts }
    requires some { 1 ≤ lane_slots }
    requires few { lane_slots ≤ 65536 }
    requires tuned { TuningInRange def.now.tuning }
    ensures any_moment { During (D.device dev.old).trace (D.device dev.new).trace (IsTagLeftOrSame def.now (D.device dev.old).trace) }
    ensures opened { IfOk result (λ r.
        IsReadAs def.now (D.device dev.old).trace (D.device dev.new).trace r.retuned r.core.state) }
    ensures seated { IfOk result (λ r. SeatedOn r.seat (D.device dev.new).trace) }
    ensures slots { IfOk result (λ r. (1 ≤ r.seat.lane.slots) × (r.seat.lane.slots ≤ 65536)) }
    ensures lane { IfOk result (λ r. Shows (D.device dev.old).trace (HasSlots lane_slots r.seat.lane.slots)) }
    ensures free { IfOk result (λ r.
        Shows (D.device dev.old).trace (HasFreeAtFirst r.seat.lane.slots (free_in r.seat))) }
    ensures made { OnOk result (MakesLayout def.now lane_slots (D.device dev.old).trace (D.device dev.new).trace) }
    ensures synced { OnOk result (Shows (D.device dev.old).trace (λ c. (IsNew c → ⊥)
        → (D.device dev.new).trace ≡ noted Synced (D.device dev.old).trace)) }
    ensures new_calls { OnOk result (Shows (D.device dev.old).trace (λ c. IsNew c
        → moment (D.device dev.new).trace ≡ moment (D.device dev.old).trace + (layout_calls c + 1))) }
    ensures calls { OnOk result (Shows (D.device dev.old).trace (λ c. (IsNew c → ⊥) → moment (D.device dev.new).trace ≡ moment (D.device dev.old).trace + 1)) }
    ensures used { IfOk result (λ r. r.seat.lane.used ≤ r.seat.lane.slots) }
    ensures numbered { IfOk result (λ r. IsNumbered r.seat) }
    ensures countable { IfOk result (λ r. r.core.state.summary.taken < 2 ^ 63) }
    ensures acked { IfOk result (λ r. r.retuned ≡ false → r.seat.lane.next ≡ r.core.state.summary.taken) }
    ensures unacked { IfOk result (λ r. r.retuned ≡ true → r.seat.lane.next < r.core.state.summary.taken) }
    ensures step { IfOk result (λ r. r.core.step ≡ def.now.step) }
    ensures tuning { IfOk result (λ r. r.core.state.summary.tuning ≡ Some def.now.tuning) }
    ensures room { IfOk result (λ r. 2 * room ≤ r.core.spare) }
    ensures cause { IfErr result (IsCause def.now (D.device dev.old).trace) }
    ensures counts { CountsFault result DeviceFault (D.device dev.old).faults (D.device dev.new).faults }
    ensures handed { (D.device dev.new).handed ≡ (D.device dev.old).handed }
{
    let Ok(()) = dev.sync() else {
        return Err(OpenNo::DeviceFault);
    };
    let mut steps = Steps::<L>::new(blank);
    match is_new(dev) {
        Ok(true) => made(alloc, dev, def, lane_slots, room),
        Ok(false) => read_back(alloc, dev, def, room, &mut steps),
        Err(_) => Err(OpenNo::DeviceFault),
    }
}

// Makes the layout of a new device, and returns a tag before its first event.
fn made<D: Disk>(
    alloc: Global,
    dev: &mut D,
    def: &TagDef,
    lane_slots: u32,
    room: u32,
) -> Result<Read, OpenNo>
    requires some { 1 ≤ lane_slots }
    requires few { lane_slots ≤ 65536 }
    requires tuned { TuningInRange def.now.tuning }
    requires new { Shows (D.device dev.old).trace IsNew }
    requires settled { IsSettled (D.device dev.old).trace }
    ensures any_moment { During (D.device dev.old).trace (D.device dev.new).trace
        (λ c. Recovers def.now c (nothing_taken def.now.tuning)) }
    ensures core { IfOk result (λ r. r.core.state ≡ nothing_taken def.now.tuning) }
    ensures seated { IfOk result (λ r. SeatedOn r.seat (D.device dev.new).trace) }
    ensures made { OnOk result (Shows (D.device dev.new).trace (IsMade def.now lane_slots)) }
    ensures free { IfOk result (λ r. free_in r.seat ≡ r.seat.lane.slots) }
    ensures lane { IfOk result (λ r. r.seat.lane ≡ record { slots = lane_slots; used = 0; next = 0 }) }
    ensures numbered { IfOk result (λ r. IsNumbered r.seat) }
    ensures retuned { IfOk result (λ r. r.retuned ≡ false) }
    ensures calls { OnOk result (Shows (D.device dev.old).trace (λ c. moment (D.device dev.new).trace ≡ moment (D.device dev.old).trace + layout_calls c)) }
    ensures step { IfOk result (λ r. r.core.step ≡ def.now.step) }
    ensures room { IfOk result (λ r. r.core.spare ≡ 2 * room) }
    ensures cause { IfErr result (IsCause def.now (D.device dev.old).trace) }
    ensures counts { CountsFault result DeviceFault (D.device dev.old).faults (D.device dev.new).faults }
    ensures handed { (D.device dev.new).handed ≡ (D.device dev.old).handed }
{
    let Ok(core) = TagCore::new(alloc, def.tuning, def.step, room) else {
        return Err(OpenNo::WantOfMemory);
    };
    if let Err(why) = make_layout(alloc, dev, def, lane_slots) {
        return Err(refusal_of_put(why));
    }
    let seat = Seat {
        lane: Lane {
            slots: lane_slots,
            used: 0,
            next: 0,
        },
        stale: false,
        counts: None,
        taken: 0,
        records: 0,
    };
    Ok(Read {
        seat,
        core,
        retuned: false,
    })
}

// Reads what a device with a finished layout recovers. If another tuning than the wanted one is in force, it is
// retuned.
fn read_back<L: Ledger, D: Disk>(
    alloc: Global,
    dev: &mut D,
    def: &TagDef,
    room: u32,
    steps: &mut Steps<L>,
) -> Result<Read, OpenNo>
    requires opened { Shows (D.device dev.old).trace IsBegun }
    requires tuned { TuningInRange def.now.tuning }
    ensures opened { IfOk result (λ r. Shows (D.device dev.old).trace (λ c. (s : State) × IsRecovered def.now c s
        × OpensAs def.now r.retuned s r.core.state)) }
    ensures seat { IfOk result (λ r. Shows (D.device dev.old).trace (IsSeat r.seat)) }
    ensures slots { IfOk result (λ r. (1 ≤ r.seat.lane.slots) × (r.seat.lane.slots ≤ 65536)) }
    ensures used { IfOk result (λ r. r.seat.lane.used ≤ r.seat.lane.slots) }
    ensures numbered { IfOk result (λ r. IsNumbered r.seat) }
    ensures countable { IfOk result (λ r. r.core.state.summary.taken < 2 ^ 63) }
    ensures acked { IfOk result (λ r. r.retuned ≡ false → r.seat.lane.next ≡ r.core.state.summary.taken) }
    ensures unacked { IfOk result (λ r. r.retuned ≡ true → r.seat.lane.next < r.core.state.summary.taken) }
    ensures step { IfOk result (λ r. r.core.step ≡ def.now.step) }
    ensures tuning { IfOk result (λ r. r.core.state.summary.tuning ≡ Some def.now.tuning) }
    ensures room { IfOk result (λ r. 2 * room ≤ r.core.spare) }
    ensures cause { IfErr result (IsCause def.now (D.device dev.old).trace) }
    ensures same { (D.device dev.new).trace ≡ (D.device dev.old).trace }
    ensures counts { CountsFault result DeviceFault (D.device dev.old).faults (D.device dev.new).faults }
    ensures handed { (D.device dev.new).handed ≡ (D.device dev.old).handed }
{
    let header = read_layout(dev, def)?;
    let stored = read_parts(alloc, dev, &header, def.step)?;
    let (seat, core) = read_core(alloc, dev, header.slots, stored, def.step, room, steps)?;
    tuned(seat, core, def, steps)
}

// Returns the tag. If another tuning than the wanted one is in force, it is retuned.
fn tuned<L: Ledger>(
    seat: Seat,
    core: TagCore,
    def: &TagDef,
    steps: &mut Steps<L>,
) -> Result<Read, OpenNo>
    requires tuned { TuningInRange def.now.tuning }
    requires room { 2 ≤ core.spare }
    requires countable { core.state.summary.taken < 2 ^ 64 - 1 }
    requires step { core.step ≡ def.now.step }
    ensures opened { IfOk result (λ r. OpensAs def.now r.retuned core.state r.core.state) }
    ensures seat { IfOk result (λ r. r.seat ≡ seat) }
    ensures step { IfOk result (λ r. r.core.step ≡ def.now.step) }
    ensures tuning { IfOk result (λ r. r.core.state.summary.tuning ≡ Some def.now.tuning) }
    ensures room { IfOk result (λ r. core.spare ≤ r.core.spare + 2) }
    ensures counted { IfOk result (λ r. r.core.state.summary.taken ≤ core.state.summary.taken + 1) }
    ensures unacked { IfOk result (λ r. r.retuned ≡ true → core.state.summary.taken < r.core.state.summary.taken) }
    ensures full { IfErr result (λ why. why ≡ TooFull (length core.state.records)) }
    ensures many { OnErr result (most_records < length core.state.records + 2) }
    ensures other { OnErr result (core.state.summary.tuning ≢ Some def.now.tuning) }
{
    let mut core = core;
    if same_tuning(&core.tuning(), &def.tuning) {
        return Ok(Read {
            seat,
            core,
            retuned: false,
        });
    }
    match core.retune(def.tuning, steps) {
        Ok(_) => Ok(Read {
            seat,
            core,
            retuned: true,
        }),
        Err(full) => Err(OpenNo::Full {
            records: full.records,
        }),
    }
}

// The refusal to open if a checkpoint or a layout could not be written.
fn refusal_of_put(why: PutNo) -> OpenNo
    ensures { result ≡ refusal_of_put why }
{
    match why {
        PutNo::DeviceFault => OpenNo::DeviceFault,
        PutNo::WantOfMemory => OpenNo::WantOfMemory,
    }
}
