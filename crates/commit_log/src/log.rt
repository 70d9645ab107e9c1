// A log: the raw values of a plant, with all that is under its lock.
ghost use Rattle.std.specs.Prelude.{◌≡◌, false, true};
ghost use Rattle.disk_model.specs.{Rose, FitsName, moment};
ghost use Rattle.commit_log.specs.Devices.{log_name};
ghost use Rattle.commit_log.specs.Openings.{LogBeganWell};
ghost use Rattle.commit_log.specs.Told.{HasHistory, IsHandedOut};

use crate::history::{LogHistory, LogTurn};
use crate::row::LogRow;
use disk_model::Disk;
use std::alloc::Global;
use std::marker::Model;

/// The log of a plant, opened on its device.
#[derive(Drop)]
pub struct Log<D: Disk> {
    pub(crate) alloc: Global,
    pub(crate) plant: Vec<u8>,
    pub(crate) tags: u32,
    pub(crate) opening: Vec<LogRow>,
    // The device's clock at the end of the opening.
    pub(crate) opened_at: u64,
    pub(crate) faults: u64,
    pub(crate) tape: Vec<LogTurn>,
    // How many puts the tape has, and how many it has room for.
    pub(crate) count: u32,
    pub(crate) room: u32,
    // The turns before place `next` of the tape are acknowledged; `acked` rows are.
    pub(crate) next: usize,
    pub(crate) acked: u64,
    // Where the next block goes: the place of its gate.
    pub(crate) end: u64,
    pub(crate) failed: bool,
    pub(crate) dev: D,
}

impl<D: Disk> Model for Log<D> {
    ghost use Rattle.std.specs.Prelude.{vec_capacity};
    ghost use Rattle.disk_model.specs.{LeftSince, FitsName, moment};
    ghost use Rattle.commit_log.specs.Devices.{log_name};
    ghost use Rattle.commit_log.specs.Histories.{IsLogLegal, IsLogSafe};
    ghost use Rattle.commit_log.specs.Openings.{LogBeganWell};
    ghost use Rattle.commit_log.specs.Told.{ToldLog, HasRoomForPuts, Waits, IsKept};

    ghost Value = { ToldLog D };

    ghost view = { λ l. record {
      plant = l.plant.items;
      tags = l.tags;
      opening = l.opening.items;
      moment = l.opened_at;
      faults = l.faults;
      tape = l.tape.items;
      room = l.room;
      acked = l.acked;
      end = l.end;
      failed = l.failed;
      dev = l.dev;
    } };

    ghost invariant = { λ l. IsLogLegal l.tags l.opening.items l.opened_at l.tape.items l.acked
        × HasRoomForPuts l.opening.items l.tape.items (vec_capacity l.tape) l.count l.room
        × Waits l.opening.items l.tape.items l.next l.acked
        × IsKept l.plant.items l.tags l.opening.items l.opened_at l.faults l.tape.items l.next l.end l.failed
        (D.device l.dev).trace (moment (D.device l.dev).trace) (D.device l.dev).faults
        × IsLogSafe l.plant.items l.tags l.opening.items l.opened_at l.tape.items (LeftSince (D.device l.dev).trace)
        × FitsName log_name (D.device l.dev).handed
        × LogBeganWell l.plant.items l.tags l.opening.items l.opened_at (D.device l.dev).handed (D.device l.dev).trace };
}

impl<D: Disk> Log<D> {
    /// Returns the rows that the device had when it was opened, the oldest first.
    pub fn opening(&self) -> &[LogRow]
        ensures { result.now ≡ self.now.opening }
    {
        &self.opening
    }

    /// Returns the device's clock at the end of the opening.
    pub fn moment(&self) -> u64
        ensures { result ≡ self.now.moment }
    {
        self.opened_at
    }

    /// Returns how often a call of the device had failed by the end of the opening.
    pub fn faults(&self) -> u64
        ensures { result ≡ self.now.faults }
    {
        self.faults
    }

    /// Returns what the calls so far left, the oldest first. The history is legal, and what a crash leaves is safe. No
    /// moment on the tape is later than the device's clock.
    pub fn tape(&self) -> &[LogTurn]
        ensures tape { result.now ≡ self.now.tape }
        ensures history { HasHistory D.device self.now }
    {
        &self.tape
    }

    /// Returns the names of the plant's tags, in base order, with a line feed between two.
    pub fn plant(&self) -> &[u8]
        ensures { result.now ≡ self.now.plant }
    {
        &self.plant
    }

    /// Returns how many tags the plant has.
    pub fn tags(&self) -> u32
        ensures { result ≡ self.now.tags }
    {
        self.tags
    }

    /// Returns how often a call of the device has failed.
    pub fn device_faults(&self) -> u64
        ensures { result ≡ (D.device self.now.dev).faults }
    {
        self.dev.faults()
    }

    /// Returns the device, and all that happened to the log since it was opened.
    pub fn into_history(self) -> (D, LogHistory)
        ensures device { result.0 ≡ self.dev }
        ensures named { FitsName log_name (D.device result.0).handed }
        ensures plant { result.1.plant.items ≡ self.plant }
        ensures tags { result.1.tags ≡ self.tags }
        ensures opening { result.1.opening.items ≡ self.opening }
        ensures moment { result.1.moment ≡ self.moment }
        ensures faults { result.1.faults ≡ self.faults }
        ensures tape { result.1.tape.items ≡ self.tape }
        ensures acked { result.1.acked ≡ self.acked }
        ensures history { IsHandedOut result.1 (D.device result.0).trace (moment (D.device result.0).trace) (D.device result.0).faults }

        // From what the device was when it was handed out, if that is recorded, until the opening ended, a crash left
        // only what it might have left before, or what stands for the same rows.
        ensures begun { LogBeganWell self.plant self.tags self.opening self.moment (D.device result.0).handed (D.device result.0).trace }

        // One fault was counted since the opening if a commit failed, and none otherwise.
        ensures rose { self.failed ≡ true → Rose self.faults (D.device result.0).faults }
        ensures faultless { self.failed ≡ false → (D.device result.0).faults ≡ self.faults }
    {
        let Log {
            plant,
            tags,
            opening,
            opened_at,
            faults,
            tape,
            acked,
            dev,
            ..
        } = self;
        (
            dev,
            LogHistory {
                plant,
                tags,
                opening,
                moment: opened_at,
                faults,
                tape,
                acked,
            },
        )
    }
}
