// A book: a group with all that lies under its lock.
ghost use Rattle.std.specs.Prelude.{◌≡◌, ◌<◌, List, false, length, slice_index_or, true};
ghost use Rattle.disk_model.specs.{Rose};
ghost use Rattle.trend_num.specs.{Rec};
ghost use Rattle.calc_refresh.specs.{lists_of, grid_of};
ghost use Rattle.group_book.specs.Openings.{BookBeganWell};
ghost use Rattle.group_book.specs.Told.{IsBookHistory, IsOnDevice, IsOwnDevice, faults_of, moment_of, trace_of, versions_of};

use crate::history::{GroupHistory, GroupOpening};
use crate::turn::Turn;
use calc_refresh::{CalcValue, GroupDefParts, Sheet};
use disk_model::Disk;
use std::alloc::Global;
use std::marker::Model;
use trend_num::Rec;

/// A group of a plant that runs.
#[derive(Drop)]
pub struct Book<D: Disk> {
    pub(crate) alloc: Global,
    pub(crate) group: u32,
    pub(crate) def: GroupDefParts,
    pub(crate) text: Vec<u8>,
    // The tag of each input.
    pub(crate) tags: Vec<u32>,
    pub(crate) opening: GroupOpening,
    pub(crate) tape: Vec<Turn>,
    pub(crate) sheet: Sheet,
    // How many records of each input are taken into account.
    pub(crate) versions: Vec<u32>,
    pub(crate) dev: Option<D>,
    // The number of the last save, its versions and its rows, and where the next block goes.
    pub(crate) number: u64,
    pub(crate) saved_versions: Vec<u32>,
    pub(crate) saved_rows: Vec<Vec<CalcValue>>,
    pub(crate) end: u64,
    // For each window that the last save had, or else the opening: whether a refresh has evaluated it since.
    pub(crate) unsaved: Vec<bool>,
    pub(crate) failed: bool,
}

impl<D: Disk> Model for Book<D> {
    ghost use Rattle.std.specs.Coded.{codes};
    ghost use Rattle.calc_check.specs.{group_code};
    ghost use Rattle.calc_refresh.specs.{sheet_code, lists_of, grid_of};
    ghost use Rattle.group_book.specs.Crashes.{IsBookSafe};
    ghost use Rattle.group_book.specs.Histories.{AreRowsEvaluated, IsBookLegal};
    ghost use Rattle.group_book.specs.Told.{ToldBook, AreFlagged, IsDefined, IsKept, IsWellHeld, LeftOf, faults_of, moment_of, trace_of};

    ghost Value = { ToldBook D };

    ghost coded = { Prim.hlevel (codes, group_code, sheet_code) };

    ghost view = { λ b. record {
      group = b.group;
      def = b.def;
      text = b.text.items;
      tags = b.tags.items;
      opening = b.opening;
      tape = b.tape.items;
      sheet = b.sheet;
      dev = b.dev;
      saved = record { number = b.number; versions = b.saved_versions.items; rows = lists_of b.saved_rows.items; end = b.end };
      failed = b.failed;
    } };

    ghost invariant = { λ b. IsDefined b.def b.tags.items b.sheet
        × IsBookLegal b.def.calcs (grid_of b.def.start b.def.period) b.opening b.tape.items b.versions.items b.sheet.copies b.sheet.rows
        × IsKept b.text.items b.def b.opening b.tape.items b.sheet.copies
        (record { number = b.number; versions = b.saved_versions.items; rows = lists_of b.saved_rows.items; end = b.end }) b.failed
        (trace_of D.device b.dev) (moment_of D.device b.dev) (faults_of D.device b.dev)
        × IsBookSafe b.text.items b.def.calcs (grid_of b.def.start b.def.period) b.opening b.sheet.copies b.tape.items (LeftOf (trace_of D.device b.dev))
        × IsWellHeld D.device b.text.items b.def b.opening b.dev
        × AreRowsEvaluated b.def.calcs (grid_of b.def.start b.def.period) b.opening b.tape.items b.sheet.copies b.sheet.rows b.sheet.evals
        × AreFlagged b.unsaved.items (lists_of b.saved_rows.items) b.sheet };
}

impl<D: Disk> Book<D> {
    /// Returns how many records of an input are taken into account.
    pub fn version(&self, input: u32) -> u32
        requires { input < self.now.def.inputs }
        ensures { (d : List Rec) → result ≡ length (slice_index_or self.now.sheet.copies input d) }
    {
        self.versions[input as usize]
    }

    /// Returns how many records of each input are taken into account.
    pub fn versions(&self) -> &[u32]
        ensures versions { result.now ≡ versions_of self.now }
        ensures inputs { length result.now ≡ self.now.def.inputs }
    {
        &self.versions
    }

    /// Returns the records of an input that are taken into account, the oldest first.
    pub fn copied(&self, input: u32) -> &[Rec]
        requires { input < self.now.def.inputs }
        ensures { (d : List Rec) → result.now ≡ slice_index_or self.now.sheet.copies input d }
    {
        self.sheet.copied(input)
    }

    /// Returns the group as it was opened.
    pub fn opening(&self) -> &GroupOpening
        ensures { result.now ≡ self.now.opening }
    {
        &self.opening
    }

    /// Returns the turns that the calls so far left, the oldest first.
    pub fn tape(&self) -> &[Turn]
        ensures { result.now ≡ self.now.tape }
    {
        &self.tape
    }

    /// Returns the number of the group, counted from 0.
    pub fn group(&self) -> u32
        ensures { result ≡ self.now.group }
    {
        self.group
    }

    /// Returns the definition that the book was made with.
    pub fn def(&self) -> &GroupDefParts
        ensures { result.now ≡ self.now.def }
    {
        &self.def
    }

    /// Returns the definition text of the device, or an empty text without a device.
    pub fn text(&self) -> &[u8]
        ensures { result.now ≡ self.now.text }
    {
        &self.text
    }

    /// Returns how often a call of the device has failed, or 0 without a device.
    pub fn device_faults(&self) -> u64
        ensures { result ≡ faults_of D.device self.now.dev }
    {
        match &self.dev {
            None => 0,
            Some(dev) => dev.faults(),
        }
    }

    /// Returns the device, and all that happened to the group since it was opened. A book with a definition text has a
    /// device. If the book has failed, its device has counted one fault since the opening. Otherwise the device has
    /// counted none.
    pub fn into_history(self) -> (Option<D>, GroupHistory)
        ensures device { result.0 ≡ self.dev }
        ensures there { IsOnDevice self.text result.0 }
        ensures own { IsOwnDevice D.device self.text result.0 }

        // From what the device was when it was handed out, if that is recorded, until the opening ended, a crash left
        // only what it might have left before, or what stands for the same.
        ensures begun { BookBeganWell D.device self.text self.def self.opening result.0 }

        ensures group { result.1.group ≡ self.group }
        ensures def { result.1.def ≡ self.def }
        ensures text { result.1.text.items ≡ self.text }
        ensures opening { result.1.opening ≡ self.opening }
        ensures tape { result.1.tape.items ≡ self.tape }
        ensures versions { result.1.versions.items ≡ versions_of self }
        ensures copies { lists_of result.1.copies.items ≡ self.sheet.copies }
        ensures rows { lists_of result.1.rows.items ≡ self.sheet.rows }
        ensures evals { result.1.evals ≡ self.sheet.evals }

        // The sheet is that of the definition.
        ensures same_group { self.sheet.group ≡ self.def.calcs }
        ensures same_grid { self.sheet.grid ≡ grid_of self.def.start self.def.period }

        ensures history { IsBookHistory result.1 (trace_of D.device result.0) (moment_of D.device result.0) (faults_of D.device result.0) }
        ensures rose { self.failed ≡ true → Rose self.opening.faults (faults_of D.device result.0) }
        ensures faultless { self.failed ≡ false → faults_of D.device result.0 ≡ self.opening.faults }
    {
        let Book {
            group,
            def,
            text,
            opening,
            tape,
            sheet,
            versions,
            dev,
            ..
        } = self;
        let evals = sheet.evals();
        let parts = sheet.into_parts();
        (
            dev,
            GroupHistory {
                group,
                def,
                text,
                opening,
                tape,
                versions,
                copies: parts.copies,
                rows: parts.rows,
                evals,
            },
        )
    }
}
