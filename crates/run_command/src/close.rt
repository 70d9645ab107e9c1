// The end of a session: its devices are given back, and its report is made.
ghost use Rattle.branded_disk.specs.{IsWholePast, branded};
ghost use Rattle.plant_files.specs.PlanRows.{IsGoodBase};
ghost use Rattle.plant_store.specs.{CountsClosed, AreRestSame, HasPlacesOf, IsShelfFor};
ghost use Rattle.plant_store.specs.Groups.{DeviceTraces};
ghost use Rattle.run_command.specs.Runs.{IsOver, IsReported};
ghost use Rattle.std.specs.Prelude.{length, vec_len, ◌+◌, ◌<◌, ◌^◌, ◌≡◌};

use crate::copies::checked;
use crate::phase::EndedPhase;
use crate::work::Given;
use branded_disk::{Begun, Branded};
use collector_pool::Work;
use disk_model::Store;
use plant_status::Status;
use plant_store::{OpenPlant, Shelf, close_plant};
use session_report::{Session, report};
use std::alloc::Global;
use tag_base::Base;

// Gives back the devices of a session whose last phase has ended, and makes its report. `K` tells what each device was
// when the command began.
pub(crate) fn close<K: Begun, S: Store>(
    alloc: Global,
    store: &mut S,
    base: &Base,
    given: &Given,
    shelf: Shelf,
    ended: EndedPhase<Branded<S::Dev, K>>,
) -> (Result<String, Status>, Session)
    requires workers { length given.now.work.collectors.items + length given.now.work.readers.items < 2 ^ 32 }
    requires good { IsGoodBase base.now }
    requires shelf { IsShelfFor base.now shelf }
    requires places { HasPlacesOf shelf (S.has_place store.old) }
    requires cells { vec_len ended.cells ≡ length base.now.tags.items }
    requires books { vec_len ended.books ≡ length base.now.groups.items }
    ensures over { (old : DeviceTraces) → IsWholePast K.before old → AreRestSame base.now old (S.device_at store.old)
        → IsOver (branded S.Dev.device K.before) base.now old (S.device_at store.new) ended.cells.items ended.books.items
        result.1 }
    ensures counts { S.fault_count store.old < 2 ^ 64 → CountsClosed (branded S.Dev.device K.before) ended.cells.items ended.books.items
        (S.fault_count store.old) (S.fault_count store.new) }
    ensures notes { result.1.workers ≡ ended.notes }
    ensures told { IsReported base.now given.now result.1 ended.answer result.0 }
{
    let EndedPhase {
        cells,
        books,
        notes,
        answer,
    } = ended;
    let (tags, groups) = close_plant(store, shelf, OpenPlant { cells, books });
    let session = Session {
        tags,
        groups,
        workers: notes,
        log: None,
    };
    (report_of(alloc, base, given, answer, &session), session)
}

// Returns the report of a session that is done, or why there is none.
fn report_of(
    alloc: Global,
    base: &Base,
    given: &Given,
    answer: Result<(), Status>,
    session: &Session,
) -> Result<String, Status>
    requires workers { length given.now.work.collectors.items + length given.now.work.readers.items < 2 ^ 32 }
    requires good { IsGoodBase base.now }
    requires tags { length session.now.tags.items ≡ length base.now.tags.items }
    requires groups { length session.now.groups.items ≡ length base.now.groups.items }
    ensures { IsReported base.now given.now session.now answer result }
{
    if let Err(why) = answer {
        return Err(checked(why, base, session));
    }
    let Work {
        collectors,
        readers,
        ..
    } = &given.work;
    report(alloc, base, collectors.len(), readers, session).map_err(|_| Status::WantOfMemory)
}
