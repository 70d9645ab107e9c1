// A cell: a tag with all that lies under its lock.
ghost use Rattle.std.specs.Prelude.{◌≡◌, IsTrue, true, false, length};
ghost use Rattle.disk_model.specs.{FitsName};
ghost use Rattle.tag_cell.specs.Crashes.{BeganWell};
ghost use Rattle.tag_cell.specs.Devices.{device_name};
ghost use Rattle.tag_cell.specs.Told.{IsCellHistory};

use crate::entry::Entry;
use crate::history::{TagHistory, TagOpening};
use crash_recovery::Journal;
use disk_model::Disk;
use late_insert::Content;
use snapshot_table::{Board, Poster};
use std::alloc::Global;
use std::marker::Model;
use std::sync::Arc;
use tag_core::TagCore;
use trend_num::{Rec, Summary, TagDef};

/// A tag of a running plant.
#[derive(Drop)]
pub struct Cell<D: Disk> {
    pub(crate) alloc: Global,
    pub(crate) def: TagDef,
    pub(crate) core: TagCore,
    pub(crate) content: Content,
    pub(crate) journal: Journal<D>,
    pub(crate) opening: TagOpening,
    pub(crate) tape: Vec<Entry>,
    // How many takes the tape has, and how many it can have.
    pub(crate) takes: u32,
    pub(crate) room: u32,
    // The takes before the place `next` of the tape are acknowledged; `durable` records are theirs or the opening's.
    pub(crate) next: usize,
    pub(crate) durable: u32,
    pub(crate) board: Arc<Board, Global>,
    pub(crate) poster: Poster,
}

impl<D: Disk> Model for Cell<D> {
    ghost use Rattle.std.specs.Prelude.{vec_capacity};
    ghost use Rattle.std.specs.Arc.{arc_value};
    ghost use Rattle.disk_model.specs.{LeftSince, FitsName};
    ghost use Rattle.tag_cell.specs.Replays.{IsTapeReplayed};
    ghost use Rattle.tag_cell.specs.Crashes.{BeganWell, IsSafe};
    ghost use Rattle.tag_cell.specs.Devices.{device_name};
    ghost use Rattle.tag_cell.specs.Told.{ToldCell, IsInStep, HasRoomForTakes, Waits, IsKept, IsPosted};

    ghost Value = { ToldCell D };

    ghost view = { λ c. record {
      def = c.def;
      opening = c.opening;
      tape = c.tape.items;
      state = c.core.state;
      journal = c.journal;
      room = c.room;
    } };

    ghost invariant = { λ c. IsTapeReplayed c.def c.opening c.tape.items c.core.state c.journal.acked
        × IsInStep c.def c.opening c.tape.items c.core c.content.records
        × HasRoomForTakes c.opening c.tape.items (vec_capacity c.tape) c.takes c.room c.core.spare c.content.spare
        × Waits c.opening c.tape.items c.next c.durable c.journal.acked
        × IsKept c.def c.opening c.tape.items c.next c.journal.failed
        (D.device c.journal.dev)
        × IsSafe c.def c.opening c.tape.items (LeftSince (D.device c.journal.dev).trace)
        × IsPosted (arc_value c.board) c.poster c.core.state
        × FitsName (device_name c.def.name) (D.device c.journal.dev).handed
        × BeganWell c.def c.opening (D.device c.journal.dev).handed (D.device c.journal.dev).trace };
}

impl<D: Disk> Cell<D> {
    ghost use Rattle.std.specs.Prelude.{◌^◌, ◌<◌, All};
    ghost use Rattle.trend_num.specs.{InRange};
    ghost use Rattle.disk_model.specs.{Rose};

    /// Returns the records, the oldest first. There are fewer than 2^32, and their points are in range.
    pub fn recs(&self) -> &[Rec]
        ensures records { result.now ≡ self.now.state.records }
        ensures short { length result.now < 2 ^ 32 }
        ensures range { All (λ r. InRange r.point) result.now }
    {
        // A tag has fewer than 2^32 records.
        let _count = self.core.record_count();
        self.core.recs()
    }

    /// Returns the part of the state that is not records.
    pub fn summary(&self) -> Summary
        ensures { result ≡ self.now.state.summary }
    {
        self.core.summary()
    }

    /// Returns what the tag was opened as.
    pub fn opening(&self) -> &TagOpening
        ensures { result.now ≡ self.now.opening }
    {
        &self.opening
    }

    /// Returns the definition of the tag.
    pub fn def(&self) -> &TagDef
        ensures { result.now ≡ self.now.def }
    {
        &self.def
    }

    /// Returns the entries that the calls left, the oldest first.
    pub fn tape(&self) -> &[Entry]
        ensures { result.now ≡ self.now.tape }
    {
        &self.tape
    }

    /// Returns how many calls of the device have failed.
    pub fn device_faults(&self) -> u64
        ensures { result ≡ (D.device self.now.journal.dev).faults }
    {
        self.journal.faults()
    }

    /// Returns whether an earlier commit answered DeviceFault. If so, the device has more faults than when it was
    /// opened.
    pub fn broken(&self) -> bool
        ensures value { result ≡ self.now.journal.failed }
        ensures cause { IsTrue result → Rose self.now.opening.faults (D.device self.now.journal.dev).faults }
    {
        self.journal.failed()
    }

    /// Returns the device, and the history of the tag since it was opened. If the cell is broken, its device has counted
    /// one fault since the opening. Otherwise the device has counted none.
    pub fn into_history(self) -> (D, TagHistory)
        ensures device { result.0 ≡ self.journal.dev }
        ensures def { result.1.def ≡ self.def }
        ensures opening { result.1.opening ≡ self.opening }
        ensures tape { result.1.tape.items ≡ self.tape }
        ensures records { result.1.recs.items ≡ self.state.records }
        ensures summary { result.1.summary ≡ self.state.summary }
        ensures acked { result.1.acked ≡ self.journal.acked }
        ensures history { IsCellHistory result.1 (D.device result.0) }
        ensures rose { self.journal.failed ≡ true → Rose self.opening.faults (D.device result.0).faults }
        ensures faultless { self.journal.failed ≡ false → (D.device result.0).faults ≡ self.opening.faults }
        ensures named { FitsName (device_name self.def.name) (D.device result.0).handed }

        // From what the device was when it was handed out, if that is recorded, until the opening ended, a crash left
        // only what it might have left before, or what recovers the same.
        ensures begun { BeganWell self.def self.opening (D.device result.0).handed (D.device result.0).trace }
    {
        let Cell {
            def,
            core,
            journal,
            opening,
            tape,
            ..
        } = self;
        let acked = journal.acked();
        let (recs, summary) = core.into_parts();
        (
            journal.into_device(),
            TagHistory {
                def,
                opening,
                tape,
                recs,
                summary,
                acked,
            },
        )
    }
}
