// The files of a session.
ghost use Rattle.std.specs.Prelude.{◌≡◌, IfErr, IfOk, map};
ghost use Rattle.plant_files.specs.Faults.{IsFaultOfPlanned};
ghost use Rattle.plant_files.specs.Reading.{faults_after};
ghost use Rattle.plant_files.specs.PlanRows.{AreRefreshersOf, AreRowsOfBase, IsCollected, IsCollectingRefusal, IsGoodBase, IsGoodPlan, IsPlanned, IsPlanningRefusal, ArePlanRowsRead, IsReadRefusal};

use crate::base_file::base_of;
use crate::plan_file::plan_of;
use crate::queries::queries_of;
use crate::rows::{check_row_count, rows_of};
use byte_io::Files;
use plant_status::Status;
use std::alloc::Global;
use tag_base::{Base, Plan};
use value_rows::{Query, RawRow};

/// A base and a plan over it, and the rows of its collectors.
#[derive(Drop)]
pub struct CollectedFiles {
    pub base: Base,
    pub plan: Plan,
    /// The rows of each collector, in plan order.
    pub rows: Vec<Vec<RawRow>>,
}

/// A base and a plan over it, the rows of its collectors, and the queries of its readers.
#[derive(Drop)]
pub struct SessionFiles {
    pub base: Base,
    pub plan: Plan,
    /// The rows of each collector, in plan order.
    pub rows: Vec<Vec<RawRow>>,
    /// The queries of each reader, in plan order.
    pub queries: Vec<Vec<Query>>,
}

/// Reads the base from the file `name`, the plan from the file `plan_name`, and the files of the plan's collectors. It
/// refuses more than 4,000,000 rows.
pub fn read_collected<F: Files>(
    alloc: Global,
    files: &mut F,
    name: &str,
    plan_name: &str,
) -> Result<CollectedFiles, Status>
    // What is returned is what the files hold, whole and in form.
    ensures collected { IfOk result (λ s. IsCollected name.now plan_name.now (F.told files.old) s.base s.plan
        (map (λ list. list.items) s.rows.items)) }
    ensures base { IfOk result (λ s. IsGoodBase s.base) }
    ensures rows { IfOk result (λ s. AreRowsOfBase s.base (map (λ list. list.items) s.rows.items)) }

    // A refusal names its first cause.
    ensures refused { IfErr result (IsCollectingRefusal name.now plan_name.now (F.told files.old)) }
    ensures stays { F.told files.new ≡ F.told files.old }
    ensures faults { F.fault_count files.new ≡ faults_after result (F.fault_count files.old) }
    ensures whose { IfErr result (IsFaultOfPlanned name.now plan_name.now (F.told files.old) (F.failed_name files.new)) }
{
    let read = read_files(alloc, files, name, plan_name)?;
    check_row_count(&read.rows)?;
    Ok(read)
}

/// Reads the base from the file `name`, the plan from the file `plan_name`, and the files of the plan's collectors and
/// readers. It refuses more than 4,000,000 rows.
pub fn read_session<F: Files>(
    alloc: Global,
    files: &mut F,
    name: &str,
    plan_name: &str,
) -> Result<SessionFiles, Status>
    // What is returned is what the files hold, whole and in form.
    ensures planned { IfOk result (λ s. IsPlanned name.now plan_name.now (F.told files.old) s.base s.plan
        (map (λ list. list.items) s.rows.items) (map (λ list. list.items) s.queries.items)) }
    ensures base { IfOk result (λ s. IsGoodBase s.base) }
    ensures plan { IfOk result (λ s. IsGoodPlan s.base s.plan (map (λ list. list.items) s.rows.items)
        (map (λ list. list.items) s.queries.items)) }

    // A refusal names its first cause.
    ensures refused { IfErr result (IsPlanningRefusal name.now plan_name.now (F.told files.old)) }
    ensures stays { F.told files.new ≡ F.told files.old }
    ensures faults { F.fault_count files.new ≡ faults_after result (F.fault_count files.old) }
    ensures whose { IfErr result (IsFaultOfPlanned name.now plan_name.now (F.told files.old) (F.failed_name files.new)) }
{
    let CollectedFiles { base, plan, rows } = read_files(alloc, files, name, plan_name)?;
    let queries = queries_of(alloc, files, &plan, &base)?;
    check_row_count(&rows)?;
    Ok(SessionFiles {
        base,
        plan,
        rows,
        queries,
    })
}

// Reads the base, the plan and the files of the plan's collectors, however many rows these have.
fn read_files<F: Files>(
    alloc: Global,
    files: &mut F,
    name: &str,
    plan_name: &str,
) -> Result<CollectedFiles, Status>
    ensures read { IfOk result (λ s. ArePlanRowsRead name.now plan_name.now (F.told files.old) s.base s.plan
        (map (λ list. list.items) s.rows.items)) }
    ensures base { IfOk result (λ s. IsGoodBase s.base) }
    ensures rows { IfOk result (λ s. AreRowsOfBase s.base (map (λ list. list.items) s.rows.items)) }
    ensures refreshers { IfOk result (λ s. AreRefreshersOf s.base s.plan) }
    ensures refused { IfErr result (IsReadRefusal name.now plan_name.now (F.told files.old)) }
    ensures stays { F.told files.new ≡ F.told files.old }
    ensures faults { F.fault_count files.new ≡ faults_after result (F.fault_count files.old) }
    ensures whose { IfErr result (IsFaultOfPlanned name.now plan_name.now (F.told files.old) (F.failed_name files.new)) }
{
    let base = base_of(alloc, files, name)?;
    let plan = plan_of(alloc, files, plan_name, &base)?;
    let rows = rows_of(alloc, files, &plan, &base)?;
    Ok(CollectedFiles { base, plan, rows })
}
