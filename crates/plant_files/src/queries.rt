// What the readers of a plan ask.
ghost use Rattle.std.specs.Prelude.{◌≡◌, ◌<◌, ◌^◌, ℕ, All, length, map, vec_len, IfOk, IfErr, IsErrOf};
ghost use Rattle.trend_num.specs.declared.refusal.What.TheVariants.{Queries};
ghost use Rattle.plant_status.specs.declared.file.FileId.TheVariants.{Reader};
ghost use Rattle.plant_status.specs.declared.status.Status.TheVariants.{ReadFault};
ghost use Rattle.tag_base.specs.{IsSoundGroup};
ghost use Rattle.value_rows.specs.{IsQuery, query_row};
ghost use Rattle.plant_files.specs.Reading.{IsFaultAt, faults_after};
ghost use Rattle.plant_files.specs.Asked.{AreQueries, IsQueryOfBase, IsQueriesRefusal, most_queries, reader_at};

use crate::names::{names_of_groups, names_of_tags};
use crate::row_files::{RowFiles, row_lists};
use byte_io::Files;
use plant_status::{FileId, Status, What};
use std::alloc::Global;
use tag_base::{Base, Plan};
use trend_num::Name;
use value_rows::{GroupNames, Query, RowNo, query_rows};

// The most queries of a reader.
const MAX_QUERIES: u64 = 4096;

/// Reads the plan's reader files, and returns the queries of each, in plan order. A file has at most 67,108,864 bytes
/// and 4,096 queries. If a file is refused, the status of the first such file is returned.
pub fn queries_of<F: Files>(
    alloc: Global,
    files: &mut F,
    plan: &Plan,
    base: &Base,
) -> Result<Vec<Vec<Query>>, Status>
    requires { All (IsSoundGroup (length base.now.tags.items)) base.now.groups.items }
    ensures queries { IfOk result (λ lists.
        AreQueries base.now (F.told files.old) plan.now.readers.items (map (λ queries. queries.items) lists.items)) }
    ensures in_range { IfOk result (λ lists. All (λ queries. All (IsQueryOfBase base.now) queries.items) lists.items) }
    ensures refused { IfErr result (IsQueriesRefusal base.now (F.told files.old) plan.now.readers.items) }
    ensures stays { F.told files.new ≡ F.told files.old }
    ensures faults { F.fault_count files.new ≡ faults_after result (F.fault_count files.old) }
    ensures whose { (place : ℕ) → IsErrOf result (ReadFault (Reader place))
        → IsFaultAt plan.now.readers.items place (F.failed_name files.new) }
{
    let Ok(tags) = names_of_tags(alloc, &base.tags) else {
        return Err(Status::WantOfMemory);
    };
    let Ok(groups) = names_of_groups(alloc, &base.groups) else {
        return Err(Status::WantOfMemory);
    };
    let asked = ReaderFiles {
        tags: &tags,
        groups: &groups,
    };
    row_lists(alloc, files, &plan.readers, &asked)
}

// The files of readers, with the names of tags and of groups that their queries may have.
#[derive(Drop)]
struct ReaderFiles<'n> {
    tags: &'n [Name],
    groups: &'n [GroupNames],
    ghost few_tags: { length tags.now < 2 ^ 32 },
    ghost few_groups: { length groups.now < 2 ^ 32 },
    ghost few_calcs: { All (λ g. vec_len g.calcs < 2 ^ 32) groups.now },
}

impl<'n> RowFiles for ReaderFiles<'n> {
    type Row = Query;

    ghost row_of = { λ files. query_row files.tags.now files.groups.now };

    ghost is_row = { λ files. IsQuery files.tags.now files.groups.now };

    ghost most = { λ files. most_queries };

    ghost what = { λ files. Queries };

    ghost file_at = { λ files. reader_at };

    fn rows(&self, alloc: Global, bytes: &[u8]) -> Result<Vec<Query>, RowNo> {
        query_rows(alloc, bytes, self.tags, self.groups, MAX_QUERIES)
    }

    fn what(&self) -> What {
        What::Queries
    }

    fn file_at(&self, place: usize) -> FileId {
        FileId::Reader(u32::try_from(place).unwrap_or(u32::MAX))
    }
}
