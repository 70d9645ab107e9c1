// Opening a log.
ghost use Rattle.std.specs.Prelude.{◌≡◌, ◌≢◌, ℕ, ◌+◌, ◌<◌, ◌≤◌, [], All, Option, IfErr, IfOk, IfSome, IsErrOf, OnErr, OnOk, false, length, vec_capacity};
ghost use Rattle.disk_model.specs.{CountsFault, Shows, IsNew, layout_calls, IsSettled, During, FitsName, moment};
ghost use Rattle.commit_log.specs.Devices.{log_name};
ghost use Rattle.commit_log.specs.declared.refusal.LogNo.TheVariants.{Damaged, DeviceFault, OtherPlant, TooMany};
ghost use Rattle.commit_log.specs.Blocks.{IsLogRow};
ghost use Rattle.commit_log.specs.Images.{LogsNothing, StandsForRows};
ghost use Rattle.commit_log.specs.Openings.{CountsLogRefusal, GainsLogSync, GainsSyncOnly, IsLogCause, IsLogLeftOrSame, IsLeftOrStands, LogBeganWell, most_rows};
ghost use Rattle.archive_file.specs.{TextOpensAt};
ghost use Rattle.commit_log.specs.Told.{IsReady};

use crate::block_reader::Stored;
use crate::history::LogTurn;
use crate::layout_reader::{LETTERS, read_log};
use crate::log::Log;
use crate::refusal::{LogFail, LogNo};
use crate::row::LogRow;
use archive_file::{PutNo, begin_layout};
use disk_model::Disk;
use std::alloc::Global;

// How many rows a log has at most, together with those that it has room for.
const MOST_ROWS: u64 = 4_000_000;

/// Opens the log of a plant on a device, with room for so many puts. `plant` is the names of its `tags` tags in base
/// order, with a line feed between two. If it is recorded what the device was when a store handed it out, then no call has
/// used it since.
///
/// It syncs the device first. Then it reads the device, or begins it if it is new. So a device that is not new gains one
/// sync, and nothing else. So does a device that is refused, new or not, unless a call of it failed. A crash at any
/// moment leaves what a crash might have left before, or an image that stands for the same rows. If the log is not
/// opened, the device is returned with the reason.
///
/// DeviceFault: a call of the device failed. Damaged: its layout is damaged. OtherPlant: it is that of another plant.
/// TooMany: its rows and the room together are more than 4,000,000. WantOfMemory: there was no memory.
pub fn open_log<D: Disk>(
    alloc: Global,
    dev: D,
    plant: &[u8],
    tags: u32,
    room: u32,
) -> Result<Log<D>, LogFail<D>>
    requires named { FitsName log_name (D.device dev).handed }
    requires unused { IfSome (D.device dev).handed.trace (λ t. (D.device dev).trace ≡ t) }

    // The log has the rows for which the device's bytes stood.
    ensures opened { IfOk result (λ l. Shows (D.device dev).trace (λ c. StandsForRows plant.now tags c l.opening)) }
    ensures any_moment { IfOk result (λ l. During (D.device dev).trace (D.device l.dev).trace (IsLeftOrStands plant.now tags l.opening (D.device dev).trace)) }
    ensures any_moment_refused { IfErr result (λ e. During (D.device dev).trace (D.device e.dev).trace (IsLogLeftOrSame plant.now tags (D.device dev).trace)) }

    // A device that is not new gains only a sync. A refused one gains only a sync too, unless a call of it failed.
    ensures synced { IfOk result (λ l. GainsLogSync (D.device dev).trace (D.device l.dev).trace) }
    ensures opened_at { IfOk result (λ l. TextOpensAt IsNew (D.device dev).trace l.moment) }
    ensures synced_refused { IfErr result (λ e. GainsSyncOnly e.why (D.device dev).trace (D.device e.dev).trace) }

    ensures plant { IfOk result (λ l. l.plant ≡ plant.now) }
    ensures tags { IfOk result (λ l. l.tags ≡ tags) }
    ensures room { IfOk result (λ l. l.room ≡ room) }
    ensures few { IfOk result (λ l. length l.opening + room ≤ most_rows) }
    ensures tape { IfOk result (λ l. l.tape ≡ []) }
    ensures acked { IfOk result (λ l. l.acked ≡ length l.opening) }
    ensures usable { IfOk result (λ l. l.failed ≡ false) }
    ensures moment { IfOk result (λ l. l.moment ≡ moment (D.device l.dev).trace) }
    ensures faults { IfOk result (λ l. l.faults ≡ (D.device l.dev).faults) }

    // A refusal states its cause. The device counts one fault if a call of it has failed, and otherwise none.
    ensures cause { IfErr result (λ e. IsLogCause plant.now tags room (D.device dev).trace e.why) }
    ensures faultless { IfOk result (λ l. (D.device l.dev).faults ≡ (D.device dev).faults) }
    ensures counts { IfErr result (λ e. CountsLogRefusal e.why (D.device dev).faults (D.device e.dev).faults) }
    ensures handed_refused { IfErr result (λ e. (D.device e.dev).handed ≡ (D.device dev).handed) }
{
    let mut dev = dev;
    match open_parts(alloc, &mut dev, plant, tags, room) {
        Ok(parts) => Ok(log_of(alloc, dev, tags, room, parts)),
        Err(why) => Err(LogFail { dev, why }),
    }
}

/// What a log needs besides its device: its own copy of the plant's text, the rows on the device, where the next block
/// goes, and a tape with room.
#[derive(Drop)]
pub struct Parts {
    pub plant: Vec<u8>,
    pub rows: Vec<LogRow>,
    pub end: u64,
    pub tape: Vec<LogTurn>,
}

// Returns the log on a device that was opened.
fn log_of<D: Disk>(alloc: Global, dev: D, tags: u32, room: u32, parts: Parts) -> Log<D>
    requires ready { IsReady parts.plant.items tags parts.rows.items parts.end (D.device dev).trace }
    requires rows { All (IsLogRow tags) parts.rows.items }
    requires empty { parts.tape.items ≡ [] }
    requires capacity { room ≤ vec_capacity parts.tape }
    requires few { length parts.rows.items + room ≤ most_rows }
    requires named { FitsName log_name (D.device dev).handed }
    requires begun { LogBeganWell parts.plant.items tags parts.rows.items (moment (D.device dev).trace) (D.device dev).handed (D.device dev).trace }
    ensures { result ≡ record {
      plant = parts.plant.items;
      tags = tags;
      opening = parts.rows.items;
      moment = moment (D.device dev).trace;
      faults = (D.device dev).faults;
      tape = [];
      room = room;
      acked = length parts.rows.items;
      end = parts.end;
      failed = false;
      dev = dev;
    } }
{
    let moment = dev.clock();
    let faults = dev.faults();
    let acked = parts.rows.len() as u64;
    Log {
        alloc,
        plant: parts.plant,
        tags,
        opening: parts.rows,
        opened_at: moment,
        faults,
        tape: parts.tape,
        count: 0,
        room,
        next: 0,
        acked,
        end: parts.end,
        failed: false,
        dev,
    }
}

// Syncs and reads a device, and begins it if it is new.
fn open_parts<D: Disk>(
    alloc: Global,
    dev: &mut D,
    plant: &[u8],
    tags: u32,
    room: u32,
) -> Result<Parts, LogNo>
    ensures stood { IfOk result (λ p. Shows (D.device dev.old).trace (λ c. StandsForRows plant.now tags c p.rows.items)) }
    ensures ready { IfOk result (λ p. IsReady plant.now tags p.rows.items p.end (D.device dev.new).trace) }
    ensures any_moment { IfOk result (λ p. During (D.device dev.old).trace (D.device dev.new).trace
        (IsLeftOrStands plant.now tags p.rows.items (D.device dev.old).trace)) }
    ensures any_moment_refused { OnErr result (During (D.device dev.old).trace (D.device dev.new).trace (IsLogLeftOrSame plant.now tags (D.device dev.old).trace)) }
    ensures synced { OnOk result (GainsLogSync (D.device dev.old).trace (D.device dev.new).trace) }
    ensures moment { OnOk result (TextOpensAt IsNew (D.device dev.old).trace (moment (D.device dev.new).trace)) }
    ensures synced_refused { IfErr result (λ why. GainsSyncOnly why (D.device dev.old).trace (D.device dev.new).trace) }
    ensures rows { IfOk result (λ p. All (IsLogRow tags) p.rows.items) }
    ensures plant { IfOk result (λ p. p.plant.items ≡ plant.now) }
    ensures tape { IfOk result (λ p. p.tape.items ≡ []) }
    ensures capacity { IfOk result (λ p. room ≤ vec_capacity p.tape) }
    ensures few { IfOk result (λ p. length p.rows.items + room ≤ most_rows) }
    ensures cause { IfErr result (IsLogCause plant.now tags room (D.device dev.old).trace) }
    ensures counts { CountsFault result DeviceFault (D.device dev.old).faults (D.device dev.new).faults }
    ensures handed { (D.device dev.new).handed ≡ (D.device dev.old).handed }
{
    let Ok(()) = dev.sync() else {
        return Err(LogNo::DeviceFault);
    };
    match read_log(alloc, dev, plant, tags)? {
        Some(stored) => parts_of(alloc, stored, plant, room),
        None => begin(alloc, dev, plant, tags, room),
    }
}

// Returns what a log needs, from what the device stores. It refuses rows that are too many together with the room.
fn parts_of(alloc: Global, stored: Stored, plant: &[u8], room: u32) -> Result<Parts, LogNo>
    ensures rows { IfOk result (λ p. p.rows.items ≡ stored.rows.items) }
    ensures end { IfOk result (λ p. p.end ≡ stored.end) }
    ensures plant { IfOk result (λ p. p.plant.items ≡ plant.now) }
    ensures tape { IfOk result (λ p. p.tape.items ≡ []) }
    ensures capacity { IfOk result (λ p. room ≤ vec_capacity p.tape) }
    ensures few { OnOk result (length stored.rows.items + room ≤ most_rows) }
    ensures many { (n : ℕ) → IsErrOf result (TooMany n) → (n ≡ length stored.rows.items + room) × (most_rows < n) }
    ensures undamaged { (a : ℕ) (byte : Option ℕ) → IsErrOf result (Damaged a byte) → ⊥ }
    ensures not_other { (at : ℕ) → IsErrOf result (OtherPlant at) → ⊥ }
    ensures no_fault { IsErrOf result DeviceFault → ⊥ }
{
    let together = stored.rows.len() as u64 + u64::from(room);
    if together > MOST_ROWS {
        return Err(LogNo::TooMany { rows: together });
    }
    let Ok(plant) = Vec::from_slice(alloc, plant) else {
        return Err(LogNo::WantOfMemory);
    };
    // There is room for commits too, so that the first one does not move the tape.
    let Ok(tape) = Vec::with_capacity(alloc, room as usize + room as usize / 32 + 16) else {
        return Err(LogNo::WantOfMemory);
    };
    Ok(Parts {
        plant,
        rows: stored.rows,
        end: stored.end,
        tape,
    })
}

// Begins a new device. A crash at any moment leaves a device without rows. A refusal leaves the device unchanged, unless
// a call of it failed.
fn begin<D: Disk>(
    alloc: Global,
    dev: &mut D,
    plant: &[u8],
    tags: u32,
    room: u32,
) -> Result<Parts, LogNo>
    requires new { Shows (D.device dev.old).trace IsNew }
    requires settled { IsSettled (D.device dev.old).trace }
    ensures rows { IfOk result (λ p. p.rows.items ≡ []) }
    ensures ready { IfOk result (λ p. IsReady plant.now tags [] p.end (D.device dev.new).trace) }
    ensures any_moment { During (D.device dev.old).trace (D.device dev.new).trace (LogsNothing plant.now) }
    ensures unwritten { IfErr result (λ why. why ≢ DeviceFault → (D.device dev.new).trace ≡ (D.device dev.old).trace) }
    ensures calls { OnOk result (Shows (D.device dev.old).trace (λ c. moment (D.device dev.new).trace ≡ moment (D.device dev.old).trace + layout_calls c)) }
    ensures plant { IfOk result (λ p. p.plant.items ≡ plant.now) }
    ensures tape { IfOk result (λ p. p.tape.items ≡ []) }
    ensures capacity { IfOk result (λ p. room ≤ vec_capacity p.tape) }
    ensures few { OnOk result (room ≤ most_rows) }
    ensures many { (n : ℕ) → IsErrOf result (TooMany n) → (n ≡ room) × (most_rows < n) }
    ensures undamaged { (a : ℕ) (byte : Option ℕ) → IsErrOf result (Damaged a byte) → ⊥ }
    ensures not_other { (at : ℕ) → IsErrOf result (OtherPlant at) → ⊥ }
    ensures counts { CountsFault result DeviceFault (D.device dev.old).faults (D.device dev.new).faults }
    ensures handed { (D.device dev.new).handed ≡ (D.device dev.old).handed }
{
    let none = Stored {
        rows: Vec::new(alloc),
        end: 9 + plant.len() as u64,
    };
    let parts = parts_of(alloc, none, plant, room)?;
    match begin_layout(alloc, dev, LETTERS, plant) {
        Ok(()) => Ok(parts),
        Err(PutNo::DeviceFault) => Err(LogNo::DeviceFault),
        Err(PutNo::WantOfMemory) => Err(LogNo::WantOfMemory),
    }
}
