// Comparing the log of a plant with a copy of its opening.
ghost use Rattle.std.specs.Prelude.{◌≡◌, IfErr, IfOk, OnOk};
ghost use Rattle.plant_more.specs.LogKnown.{FirstDiffer, IsAsKnown, IsCommon, IsLogMismatch};

use commit_log::{Log, LogRow};
use disk_model::Disk;
use plant_status::{Place, Seen, Status, Unit};
use std::alloc::Global;
use trend_num::WantOfMemory;

// A copy of a log's opening: the plant's text and its number of tags; and the opening's faults, moment and rows.
#[derive(Drop)]
pub(crate) struct KnownLog {
    pub(crate) plant: Vec<u8>,
    pub(crate) tags: u32,
    pub(crate) faults: u64,
    pub(crate) moment: u64,
    pub(crate) rows: Vec<LogRow>,
}

// Copies the opening of a log that was opened for a plant with this text.
pub(crate) fn known_of<D: Disk>(
    alloc: Global,
    log: &Log<D>,
    plant: Vec<u8>,
    tags: u32,
) -> Result<KnownLog, WantOfMemory>
    ensures plant { IfOk result (λ k. k.plant ≡ plant) }
    ensures tags { IfOk result (λ k. k.tags ≡ tags) }
    ensures faults { IfOk result (λ k. k.faults ≡ log.now.faults) }
    ensures moment { IfOk result (λ k. k.moment ≡ log.now.moment) }
    ensures rows { IfOk result (λ k. k.rows.items ≡ log.now.opening) }
{
    Ok(KnownLog {
        plant,
        tags,
        faults: log.faults(),
        moment: log.moment(),
        rows: Vec::from_slice(alloc, log.opening())?,
    })
}

// Compares a log with the copy of its opening. The first thing that differs is returned as a mismatch.
pub(crate) fn compare_log<D: Disk>(log: &Log<D>, known: &KnownLog) -> Result<(), Status>
    ensures same { OnOk result (IsAsKnown log.now known.now) }
    ensures differs { IfErr result (IsLogMismatch log.now known.now) }
{
    let (plant, rows) = (log.plant(), log.opening());
    let found = [
        u64::from(log.tags()),
        plant.len() as u64,
        common_bytes(plant, &known.plant) as u64,
        log.faults(),
        log.moment(),
        rows.len() as u64,
        common_rows(rows, &known.rows) as u64,
    ];
    let wanted = [
        u64::from(known.tags),
        known.plant.len() as u64,
        known.plant.len() as u64,
        known.faults,
        known.moment,
        known.rows.len() as u64,
        known.rows.len() as u64,
    ];
    compare_numbers(&found, &wanted)
}

// Returns the first two numbers that differ as a mismatch.
fn compare_numbers(found: &[u64; 7], wanted: &[u64; 7]) -> Result<(), Status>
    ensures same { OnOk result (found.now ≡ wanted.now) }
    ensures differs { IfErr result (FirstDiffer found.now wanted.now) }
{
    for i in 0..7 {
        if found[i] != wanted[i] {
            return Err(Status::Mismatch {
                place: Place::Opening { unit: Unit::Log },
                kept: Seen::Number(found[i]),
                told: Seen::Number(wanted[i]),
            });
        }
    }
    Ok(())
}

// How many bytes two texts have in common at their beginning.
fn common_bytes(xs: &[u8], ys: &[u8]) -> usize
    ensures { IsCommon xs.now ys.now result }
{
    let shorter = xs.len().min(ys.len());
    for i in 0..shorter {
        if xs[i] != ys[i] {
            return i;
        }
    }
    shorter
}

// How many rows two lists have in common at their beginning.
fn common_rows(xs: &[LogRow], ys: &[LogRow]) -> usize
    ensures { IsCommon xs.now ys.now result }
{
    let shorter = xs.len().min(ys.len());
    for i in 0..shorter {
        if xs[i] != ys[i] {
            return i;
        }
    }
    shorter
}
