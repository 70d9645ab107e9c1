// What the collectors of a plant take.
ghost use Rattle.std.specs.Prelude.{◌≡◌, ◌<◌, ◌≤◌, ◌^◌, ℕ, All, length, map, IfOk, IfErr, IsErrOf, OnOk};
ghost use Rattle.trend_num.specs.declared.refusal.What.TheVariants.{Rows};
ghost use Rattle.plant_status.specs.declared.file.FileId.TheVariants.{Collector};
ghost use Rattle.plant_status.specs.declared.status.Status.TheVariants.{ReadFault};
ghost use Rattle.value_rows.specs.{IsRawRow, raw_row};
ghost use Rattle.plant_files.specs.Reading.{IsFaultAt, faults_after};
ghost use Rattle.plant_files.specs.Collected.{AreCollectedRows, AreRowsTooMany, IsRowOfBase, IsCollectedRefusal, collector_at, most_collector_rows, row_count};

use crate::names::names_of_tags;
use crate::row_files::{RowFiles, row_lists};
use byte_io::Files;
use plant_status::{FileId, Status, What};
use std::alloc::Global;
use tag_base::{Base, Plan};
use trend_num::Name;
use value_rows::{RawRow, RowNo, raw_rows};

// The most rows of a collector, and of all collectors together.
const MAX_ROWS: u64 = 4_000_000;

/// Reads the plan's collector files, and returns the rows of each, in plan order. A file has at most 67,108,864 bytes
/// and 4,000,000 rows. If a file is refused, the status of the first such file is returned.
pub fn rows_of<F: Files>(
    alloc: Global,
    files: &mut F,
    plan: &Plan,
    base: &Base,
) -> Result<Vec<Vec<RawRow>>, Status>
    ensures rows { IfOk result (λ lists.
        AreCollectedRows base.now (F.told files.old) plan.now.collectors.items (map (λ rows. rows.items) lists.items)) }
    ensures in_range { IfOk result (λ lists. All (λ rows. All (IsRowOfBase base.now) rows.items) lists.items) }
    ensures refused { IfErr result (IsCollectedRefusal base.now (F.told files.old) plan.now.collectors.items) }
    ensures stays { F.told files.new ≡ F.told files.old }
    ensures faults { F.fault_count files.new ≡ faults_after result (F.fault_count files.old) }
    ensures whose { (place : ℕ) → IsErrOf result (ReadFault (Collector place))
        → IsFaultAt plan.now.collectors.items place (F.failed_name files.new) }
{
    let Ok(tags) = names_of_tags(alloc, &base.tags) else {
        return Err(Status::WantOfMemory);
    };
    let taken = CollectorFiles { tags: &tags };
    row_lists(alloc, files, &plan.collectors, &taken)
}

/// Checks that the collectors have at most 4,000,000 rows together. If they have more, `Limit` names 4,000,001, however
/// many there are.
pub fn check_row_count(collectors: &[Vec<RawRow>]) -> Result<(), Status>
    ensures few { OnOk result (row_count (map (λ rows. rows.items) collectors.now) ≤ most_collector_rows) }
    ensures refused { IfErr result (AreRowsTooMany (row_count (map (λ rows. rows.items) collectors.now))) }
{
    let mut count = 0;
    for rows in collectors {
        count = rows.len().saturating_add(count);
    }
    if count as u64 <= MAX_ROWS {
        Ok(())
    } else {
        Err(Status::Limit {
            what: What::Rows,
            number: MAX_ROWS + 1,
        })
    }
}

// The files of collectors, with the names of tags that their rows may have.
#[derive(Drop)]
struct CollectorFiles<'n> {
    tags: &'n [Name],
    ghost few_tags: { length tags.now < 2 ^ 32 },
}

impl<'n> RowFiles for CollectorFiles<'n> {
    type Row = RawRow;

    ghost row_of = { λ files. raw_row files.tags.now };

    ghost is_row = { λ files. IsRawRow files.tags.now };

    ghost most = { λ files. most_collector_rows };

    ghost what = { λ files. Rows };

    ghost file_at = { λ files. collector_at };

    fn rows(&self, alloc: Global, bytes: &[u8]) -> Result<Vec<RawRow>, RowNo> {
        raw_rows(alloc, bytes, self.tags, MAX_ROWS)
    }

    fn what(&self) -> What {
        What::Rows
    }

    fn file_at(&self, place: usize) -> FileId {
        FileId::Collector(u32::try_from(place).unwrap_or(u32::MAX))
    }
}
