// Brings what was saved of a group up to all records of its tags.
ghost use Rattle.std.specs.Prelude.{◌≡◌, ◌≢◌, ℕ, ◌^◌, ◌<◌, List, All, IfErr, IfOk, OnOk, Some, length, slice_get, vec_len};
ghost use Rattle.disk_model.specs.{During};
ghost use Rattle.plant_files.specs.Reading.{faults_told};
ghost use Rattle.calc_refresh.specs.{lists_of};
ghost use Rattle.group_layout.specs.{GainsGroupSync};
ghost use Rattle.group_book.specs.{BookStaysSame};
ghost use Rattle.tag_base.specs.{IsSoundGroup};
ghost use Rattle.plant_store.specs.Groups.{device_name, group_parts_of, input_records_of, group_definition_text, group_trace_at};
ghost use Rattle.plant_store.specs.BookRefusals.{CountsStore};
ghost use Rattle.store_commands.specs.GroupRows.{tag_records};
ghost use Rattle.store_commands.specs.FrameLines.{AreTimes};
ghost use Rattle.store_commands.specs.FrameRows.{AreFrameRows, IsFrameRowsRefusal};

use crate::frame_names::CalcPlace;
use crate::groups::{records_of, refresh_once, refusal_of};
use branded_disk::Untold;
use calc_refresh::CalcValue;
use disk_model::Store;
use group_book::{GroupHistory, GroupOpening};
use plant_status::Status;
use plant_store::{book_status, close_book, open_book};
use std::alloc::Global;
use tag_base::GroupDef;
use tag_core::TagCore;

// The row of a calculation as it was saved, and after one refresh.
#[derive(Drop)]
pub(crate) struct CalcRows {
    pub saved: Vec<CalcValue>,
    pub refreshed: Vec<CalcValue>,
}

// Returns both rows of the calculation at this place. It opens the book of its group alone, refreshes it once, and gives
// the device back. Nothing is saved there. `name` is the device's name, and `cores` are the tags of the base.
pub(crate) fn rows_of<S: Store>(
    alloc: Global,
    store: &mut S,
    place: CalcPlace,
    group: &GroupDef,
    name: &str,
    cores: &[TagCore],
) -> Result<CalcRows, Status>
    requires name { name.now ≡ device_name group.now.name }
    requires sound { IsSoundGroup (length cores.now) group.now }
    requires short { All (λ core. length core.state.records < 2 ^ 32) cores.now }
    requires place { place.group < 2 ^ 32 }
    requires calc { place.calc < length group.now.calcs.calcs }
    ensures rows { IfOk result (λ rows. AreFrameRows group.now place.calc (input_records_of (tag_records cores.now) group.now)
        (group_trace_at (S.device_at store.old) group.now) rows.saved.items rows.refreshed.items) }
    ensures times { IfOk result (λ rows. AreTimes group.now (length rows.refreshed.items)) }
    ensures refused { IfErr result (IsFrameRowsRefusal place.group group.now (input_records_of (tag_records cores.now) group.now)
        (group_trace_at (S.device_at store.old) group.now) (group_trace_at (S.device_at store.new) group.now)
        (S.fault_count store.old) (S.fault_count store.new)) }
    ensures synced { OnOk result (GainsGroupSync (group_definition_text group.now) (group_trace_at (S.device_at store.old) group.now)
        (group_trace_at (S.device_at store.new) group.now)) }
    ensures no_file_fault { IfErr result (λ why. (n : ℕ) → faults_told why n ≡ n) }
    ensures same { During (group_trace_at (S.device_at store.old) group.now) (group_trace_at (S.device_at store.new) group.now)
        (BookStaysSame (group_definition_text group.now) (group_parts_of group.now) (group_trace_at (S.device_at store.old) group.now)) }
    ensures others { (n : List ℕ) → n ≢ device_name group.now.name → S.device_at store.new n ≡ S.device_at store.old n }
    ensures counts { S.fault_count store.old < 2 ^ 64
        → CountsStore result (S.fault_count store.old) (S.fault_count store.new) }
{
    let Ok(records) = records_of(alloc, cores) else {
        return Err(Status::WantOfMemory);
    };
    let at = place.group as u32;
    let mut book = match open_book::<Untold, S>(alloc, store, at, group, name, &records) {
        Ok(book) => book,
        Err(why) => return Err(book_status(at, why)),
    };
    let refreshed = refresh_once(&mut book, &records);
    let history = close_book(store, name, book);
    match refreshed {
        Ok(()) => Ok(both_rows(history, place.calc)),
        Err(no) => Err(refusal_of(no)),
    }
}

// Returns the rows of a calculation: the one that its group was opened with, and the last one.
fn both_rows(history: GroupHistory, calc: usize) -> CalcRows
    requires saved { calc < vec_len history.opening.rows }
    requires refreshed { calc < vec_len history.rows }
    ensures saved { slice_get (lists_of history.opening.rows.items) calc ≡ Some result.saved.items }
    ensures refreshed { slice_get (lists_of history.rows.items) calc ≡ Some result.refreshed.items }
{
    let GroupHistory {
        opening,
        rows: mut refreshed,
        ..
    } = history;
    let GroupOpening {
        rows: mut saved,
        ..
    } = opening;
    CalcRows {
        saved: saved.swap_remove(calc),
        refreshed: refreshed.swap_remove(calc),
    }
}
