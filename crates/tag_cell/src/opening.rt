// The opening of a cell.
ghost use Rattle.std.specs.Prelude.{◌≡◌, ◌*◌, ◌<◌, ◌≤◌, [], IfOk, IfErr, IfSome, false};
ghost use Rattle.std.specs.Arc.{arc_value};
ghost use Rattle.trend_num.specs.{TuningInRange};
ghost use Rattle.trend_model.specs.State.{State};
ghost use Rattle.trend_model.specs.{listed};
ghost use Rattle.device_layout.specs.declared.failure.OpenNo.TheVariants.{WantOfMemory as NoMemory};
ghost use Rattle.device_layout.specs.{Recovers, CountsRefusal, IsCause};
ghost use Rattle.crash_recovery.specs.{GainsSync, HasSlots, IsOpenedAs, LeavesFree, MakesLayout, OpensAt, RecoversThen, StaysSame};
ghost use Rattle.disk_model.specs.{Shows, FitsName, moment};
ghost use Rattle.snapshot_table.specs.{PostsTo, nothing};
ghost use Rattle.tag_cell.specs.Devices.{device_name};
ghost use Rattle.tag_cell.specs.Tapes.{opened};

use crate::cell::Cell;
use crate::history::TagOpening;
use crash_recovery::{OpenFail, OpenNo, Opened, open_tag};
use disk_model::Disk;
use late_insert::Content;
use snapshot_table::{Board, Poster};
use std::alloc::Global;
use std::sync::{Arc, Wait};
use tag_core::TagCore;
use trend_num::{Snap, TagDef, WantOfMemory};

/// Opens the device of a tag, with room for `room` takes, and posts what the tag shows at first. The poster has to be
/// one of this board that has posted nothing. If it is recorded what the device was when a store handed it out, then no
/// call has used it since. What the device is opened as, and why it is refused, follows `open_tag`.
pub fn open_cell<D: Disk, R: Wait>(
    rt: &R,
    alloc: Global,
    dev: D,
    def: &TagDef,
    lane_slots: u32,
    room: u32,
    board: Arc<Board, Global>,
    poster: Poster,
) -> Result<Cell<D>, OpenFail<D>>
    requires some { 1 ≤ lane_slots }
    requires few { lane_slots ≤ 65536 }
    requires tuned { TuningInRange def.now.tuning }
    requires here { PostsTo (arc_value board) poster }
    requires unposted { poster.last ≡ nothing }
    requires named { FitsName (device_name def.now.name) (D.device dev).handed }
    requires unused { IfSome (D.device dev).handed.trace (λ t. (D.device dev).trace ≡ t) }
    ensures any_moment { IfOk result (λ c. StaysSame def.now (D.device dev).trace (D.device c.journal.dev).trace) }
    ensures any_moment_refused { IfErr result (λ e. StaysSame def.now (D.device dev).trace (D.device e.dev).trace) }
    ensures opened { IfOk result (λ c. Shows (D.device dev).trace (λ seen. (s : State) × Recovers def.now seen s
        × IsOpenedAs def.now s (opened c.opening))) }
    ensures recovers { IfOk result (λ c. RecoversThen def.now (D.device dev).trace (D.device c.journal.dev).trace (opened c.opening)) }
    ensures slots { IfOk result (λ c. Shows (D.device dev).trace (HasSlots lane_slots c.journal.slots)) }
    ensures free { IfOk result (λ c. Shows (D.device dev).trace (LeavesFree def.now c.journal.slots c.journal.free)) }
    ensures made { IfOk result (λ c. MakesLayout def.now lane_slots (D.device dev).trace (D.device c.journal.dev).trace) }
    ensures synced { IfOk result (λ c. GainsSync def.now (D.device dev).trace (D.device c.journal.dev).trace) }
    ensures def { IfOk result (λ c. c.def ≡ def.now) }
    ensures state { IfOk result (λ c. c.state ≡ opened c.opening) }
    ensures tape { IfOk result (λ c. c.tape ≡ []) }
    ensures acked { IfOk result (λ c. c.journal.acked ≡ c.opening.summary.taken) }
    ensures usable { IfOk result (λ c. c.journal.failed ≡ false) }
    ensures room { IfOk result (λ c. c.room ≡ room) }
    ensures moment { IfOk result (λ c. c.opening.moment ≡ moment (D.device c.journal.dev).trace) }
    ensures opened_at { IfOk result (λ c. OpensAt def.now (D.device dev).trace c.opening.moment) }
    ensures faults_told { IfOk result (λ c. c.opening.faults ≡ (D.device c.journal.dev).faults) }
    ensures cause { IfErr result (λ e. IsCause def.now (D.device dev).trace e.why) }
    ensures faultless { IfOk result (λ c. (D.device c.journal.dev).faults ≡ (D.device dev).faults) }
    ensures counts { IfErr result (λ e. CountsRefusal e.why (D.device dev).faults (D.device e.dev).faults) }
    ensures handed { IfOk result (λ c. (D.device c.journal.dev).handed ≡ (D.device dev).handed) }
    ensures handed_refused { IfErr result (λ e. (D.device e.dev).handed ≡ (D.device dev).handed) }
{
    let Opened { journal, core } = open_tag(alloc, dev, def, lane_slots, room)?;
    let Ok(content) = content_of(alloc, &core, room) else {
        return Err(refused(journal.into_device()));
    };
    let Ok(recs) = Vec::from_slice(alloc, core.recs()) else {
        return Err(refused(journal.into_device()));
    };
    // There is room for commits too, so that the first one does not move the tape.
    let Ok(tape) = Vec::with_capacity(alloc, room as usize + room as usize / 32 + 16) else {
        return Err(refused(journal.into_device()));
    };
    let mut poster = poster;
    let summary = core.summary();
    let snap = Snap {
        taken: summary.taken,
        held: summary.held,
    };
    board.post(rt, &mut poster, snap);
    let opening = TagOpening {
        recs,
        summary,
        moment: journal.clock(),
        faults: journal.faults(),
    };
    let durable = core.record_count();
    Ok(Cell {
        alloc,
        def: *def,
        core,
        content,
        journal,
        opening,
        tape,
        takes: 0,
        room,
        next: 0,
        durable,
        board,
        poster,
    })
}

// Returns the device, with the refusal that there is no memory for a cell on it.
fn refused<D: Disk>(dev: D) -> OpenFail<D>
    ensures dev { result.dev ≡ dev }
    ensures why { result.why ≡ NoMemory }
{
    OpenFail {
        dev,
        why: OpenNo::WantOfMemory,
    }
}

// Returns the content of a core's records, with room for the records of so many more takes.
fn content_of(alloc: Global, core: &TagCore, room: u32) -> Result<Content, WantOfMemory>
    requires { 2 * room ≤ core.now.spare }
    ensures content { IfOk result (λ content. content.records ≡ listed core.now.state.records) }
    ensures room { IfOk result (λ content. 2 * room ≤ content.spare) }
{
    let recs = core.recs();
    // The core has fewer than 2^32 spare places, so twice the room is fewer too.
    let _spare = core.spare();
    Content::from_records(alloc, recs, 2 * room)
}
