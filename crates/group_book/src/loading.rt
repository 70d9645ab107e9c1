// A book over the device of its group.
ghost use Rattle.std.specs.Prelude.{◌≡◌, ◌^◌, ◌<◌, ◌≤◌, [], All, Some, IfErr, IfOk, IfSome, IsSome, OnOk, false, length, map, replicate, take, vec_len};
ghost use Rattle.disk_model.specs.{Shows, During, FitsName};
ghost use Rattle.calc_refresh.specs.{lists_of, fresh, AreRowsWhole, IsCopy, IsGrid, IsGroup, grid_of};
ghost use Rattle.group_layout.specs.{GainsGroupSync, HasShape, IsUnsaved};
ghost use Rattle.archive_file.specs.{TextOpensAt};
ghost use Rattle.group_book.specs.declared.refusal.LoadNo.TheVariants.{Ahead, Damaged, DeviceFault, Shape};
ghost use Rattle.group_book.specs.Openings.{CountsBookRefusal, IsAheadOrMemory, IsBookCause, IsRefused, StandsForGroup, BookStaysSame, scan_refusal};
ghost use Rattle.group_book.specs.Tapes.{cut};
ghost use Rattle.sheet_law.specs.{complete_windows};
ghost use Rattle.group_book.specs.Told.{HoldsBlocks, device_name_of, faults_of, moment_of, versions_of};

use crate::book::Book;
use crate::history::GroupOpening;
use crate::making::copy_of as copy_of_def;
use crate::refusal::{LoadFail, LoadNo};
use crate::save::copy_of;
use crate::unsaved::no_flags;
use archive_file::ScanNo;
use calc_refresh::{CalcValue, GroupDefParts, Sheet, SheetNo, from_saved};
use disk_model::Disk;
use group_layout::{SavedGroup, open_group};
use std::alloc::Global;
use trend_num::{Rec, WantOfMemory};

impl From<WantOfMemory> for LoadNo {
    ghost use Rattle.std.specs.Prelude.{◌≡◌};
    ghost use Rattle.group_book.specs.declared.refusal.LoadNo.TheVariants.{WantOfMemory as NoMemory};

    ghost from_gives = { λ _ no. no ≡ NoMemory };

    fn from(_: WantOfMemory) -> LoadNo {
        LoadNo::WantOfMemory
    }
}

/// Opens the book of a group over its device, and syncs the device first. If the device is new or has another
/// definition text, the function begins it anew, and the book is at version 0. Otherwise the book has the versions and
/// rows that were saved last. The book then takes, of the records that the tag of each input recovered, as many as the
/// version says. `tags` and `recovered` have one element for each input. If it is recorded what the device was when a store
/// handed it out, then no call has used it since.
///
/// An error returns the device and the reason. `DeviceFault`: a call of the device failed. `Damaged`: its layout is
/// damaged. `Ahead`: a version is above the number of recovered records. `Shape`: a saved row does not have exactly one
/// value for each complete window. `WantOfMemory`: no memory was found.
pub fn load<D: Disk>(
    alloc: Global,
    dev: D,
    group: u32,
    def: &GroupDefParts,
    text: &[u8],
    tags: Vec<u32>,
    recovered: &[Vec<Rec>],
) -> Result<Book<D>, LoadFail<D>>
    requires group { IsGroup def.now.inputs def.now.calcs }
    requires grid { IsGrid (grid_of def.now.start def.now.period) }
    requires tags { vec_len tags ≡ def.now.inputs }
    requires inputs { length recovered.now ≡ def.now.inputs }
    requires copied { All IsCopy (lists_of recovered.now) }
    requires named { FitsName (device_name_of text.now) (D.device dev).handed }
    requires unused { IfSome (D.device dev).handed.trace (λ t. (D.device dev).trace ≡ t) }

    // The book has what the device's bytes stood for. A crash at any moment leaves what it might have left before, or
    // what stands for the same.
    ensures opened { IfOk result (λ b. Shows (D.device dev).trace
        (StandsForGroup text.now def.now b.opening.versions.items (lists_of b.opening.rows.items))) }
    ensures any_moment { IfOk result (λ b. (d : D) → b.dev ≡ Some d
        → During (D.device dev).trace (D.device d).trace (BookStaysSame text.now def.now (D.device dev).trace)) }
    ensures any_moment_refused { IfErr result (λ e. During (D.device dev).trace (D.device e.dev).trace (BookStaysSame text.now def.now (D.device dev).trace)) }

    // Whether or not the rows are right, the device holds the blocks of the saves so far, and the next block goes after
    // them.
    ensures held { IfOk result (λ b. IfSome b.dev (λ d. Shows (D.device d).trace (HoldsBlocks text.now def.now b.saved))) }

    // A device that has a finished layout of this text, or a damaged one, gains one sync and nothing else.
    ensures synced { IfOk result (λ b. (d : D) → b.dev ≡ Some d → GainsGroupSync text.now (D.device dev).trace (D.device d).trace) }
    ensures synced_refused { IfErr result (λ e. (e.why ≡ DeviceFault → ⊥) → GainsGroupSync text.now (D.device dev).trace (D.device e.dev).trace) }

    ensures versions { IfOk result (λ b. b.opening.versions.items ≡ versions_of b) }
    ensures copies { IfOk result (λ b. b.sheet.copies ≡ cut b.opening.versions.items (lists_of recovered.now)) }
    ensures rows { IfOk result (λ b. b.sheet.rows ≡ lists_of b.opening.rows.items) }
    ensures whole { IfOk result (λ b. AreRowsWhole b.sheet) }
    ensures evals { IfOk result (λ b. b.sheet.evals ≡ 0) }
    ensures group { IfOk result (λ b. b.group ≡ group) }
    ensures def { IfOk result (λ b. b.def ≡ def.now) }
    ensures text { IfOk result (λ b. b.text ≡ text.now) }
    ensures tags { IfOk result (λ b. b.tags ≡ tags.items) }
    ensures tape { IfOk result (λ b. b.tape ≡ []) }
    ensures device { IfOk result (λ b. IsSome b.dev) }
    ensures usable { IfOk result (λ b. b.failed ≡ false) }
    ensures moment { IfOk result (λ b. b.opening.moment ≡ moment_of D.device b.dev) }
    ensures opened_at { IfOk result (λ b. TextOpensAt (IsUnsaved text.now) (D.device dev).trace b.opening.moment) }
    ensures faults { IfOk result (λ b. b.opening.faults ≡ faults_of D.device b.dev) }

    // A refusal names its cause. The device counts one fault if a call of it failed, and none otherwise.
    ensures cause { IfErr result (λ e. IsBookCause text.now def.now (lists_of recovered.now) (D.device dev).trace e.why) }
    ensures faultless { IfOk result (λ b. faults_of D.device b.dev ≡ (D.device dev).faults) }
    ensures counts { IfErr result (λ e. CountsBookRefusal e.why (D.device dev).faults (D.device e.dev).faults) }
    ensures handed { IfOk result (λ b. (d : D) → b.dev ≡ Some d → (D.device d).handed ≡ (D.device dev).handed) }
    ensures handed_refused { IfErr result (λ e. (D.device e.dev).handed ≡ (D.device dev).handed) }
{
    let mut dev = dev;
    let calcs = def.calcs.defs().len() as u32;
    let saved = match open_group(alloc, &mut dev, text, def.inputs, calcs) {
        Ok(saved) => saved,
        Err(why) => {
            return Err(LoadFail {
                dev,
                why: refusal_of(why),
            });
        }
    };
    let restored = match restore(alloc, def, text, &saved, recovered) {
        Ok(restored) => restored,
        Err(why) => return Err(LoadFail { dev, why }),
    };
    let opening = GroupOpening {
        versions: restored.opening_versions,
        rows: restored.opening_rows,
        moment: dev.clock(),
        faults: dev.faults(),
    };
    Ok(Book {
        alloc,
        group,
        def: restored.def,
        text: restored.text,
        tags,
        opening,
        tape: Vec::new(alloc),
        sheet: restored.sheet,
        versions: restored.versions,
        dev: Some(dev),
        number: saved.number,
        saved_versions: saved.versions,
        saved_rows: saved.rows,
        end: saved.end,
        unsaved: restored.unsaved,
        failed: false,
    })
}

// Returns the refusal of a book, given the refusal of its device.
fn refusal_of(why: ScanNo) -> LoadNo
    ensures { result ≡ scan_refusal why }
{
    match why {
        ScanNo::DeviceFault => LoadNo::DeviceFault,
        ScanNo::Damaged { at, byte } => LoadNo::Damaged { at, byte },
        ScanNo::WantOfMemory => LoadNo::WantOfMemory,
    }
}

// What a book needs besides what was saved: its sheet, and its own copies of the rest.
#[derive(Drop)]
struct Restored {
    def: GroupDefParts,
    text: Vec<u8>,
    sheet: Sheet,
    versions: Vec<u32>,
    opening_versions: Vec<u32>,
    opening_rows: Vec<Vec<CalcValue>>,
    unsaved: Vec<bool>,
}

// Makes these from what was saved, and from the records that the inputs' tags recovered.
fn restore(
    alloc: Global,
    def: &GroupDefParts,
    text: &[u8],
    saved: &SavedGroup,
    recovered: &[Vec<Rec>],
) -> Result<Restored, LoadNo>
    requires group { IsGroup def.now.inputs def.now.calcs }
    requires grid { IsGrid (grid_of def.now.start def.now.period) }
    requires inputs { length recovered.now ≡ def.now.inputs }
    requires copied { All IsCopy (lists_of recovered.now) }
    requires shape { HasShape def.now.inputs (length def.now.calcs.calcs) saved.now }
    requires few { saved.now.windows < 2 ^ 32 }
    ensures def { IfOk result (λ r. r.def ≡ def.now) }
    ensures text { IfOk result (λ r. r.text.items ≡ text.now) }
    ensures sheet { IfOk result (λ r. r.sheet ≡ fresh def.now.calcs (grid_of def.now.start def.now.period)
        (cut saved.now.versions.items (lists_of recovered.now)) (lists_of saved.now.rows.items)) }
    ensures whole { IfOk result (λ r. AreRowsWhole r.sheet) }
    ensures within { OnOk result (map length (cut saved.now.versions.items (lists_of recovered.now)) ≡ saved.now.versions.items) }
    ensures versions { IfOk result (λ r. r.versions.items ≡ saved.now.versions.items) }
    ensures opening_versions { IfOk result (λ r. r.opening_versions.items ≡ saved.now.versions.items) }
    ensures opening_rows { IfOk result (λ r. lists_of r.opening_rows.items ≡ lists_of saved.now.rows.items) }
    ensures flags { IfOk result (λ r. r.unsaved.items ≡ replicate (complete_windows r.sheet.grid r.sheet.copies) false) }
    ensures refused { IfErr result (IsRefused def.now (lists_of recovered.now) saved.now.versions.items (lists_of saved.now.rows.items)) }
{
    let sheet = rebuild(alloc, def, saved, recovered)?;
    let unsaved = no_flags(alloc, sheet.windows())?;
    Ok(Restored {
        def: copy_of_def(def)?,
        text: bytes_of(alloc, text)?,
        sheet,
        versions: copy_of(alloc, &saved.versions)?,
        opening_versions: copy_of(alloc, &saved.versions)?,
        opening_rows: copy_rows(alloc, &saved.rows)?,
        unsaved,
    })
}

// Copies bytes.
fn bytes_of(alloc: Global, bytes: &[u8]) -> Result<Vec<u8>, WantOfMemory>
    ensures { IfOk result (λ v. v.items ≡ bytes.now) }
{
    Ok(Vec::from_slice(alloc, bytes)?)
}

// Makes the sheet with the saved rows. It takes as many of the recovered records as the saved versions say.
fn rebuild(
    alloc: Global,
    def: &GroupDefParts,
    saved: &SavedGroup,
    recovered: &[Vec<Rec>],
) -> Result<Sheet, LoadNo>
    requires group { IsGroup def.now.inputs def.now.calcs }
    requires grid { IsGrid (grid_of def.now.start def.now.period) }
    requires inputs { length recovered.now ≡ def.now.inputs }
    requires copied { All IsCopy (lists_of recovered.now) }
    requires shape { HasShape def.now.inputs (length def.now.calcs.calcs) saved.now }
    requires few { saved.now.windows < 2 ^ 32 }
    ensures sheet { IfOk result (λ s. s ≡ fresh def.now.calcs (grid_of def.now.start def.now.period)
        (cut saved.now.versions.items (lists_of recovered.now)) (lists_of saved.now.rows.items)) }
    ensures whole { IfOk result AreRowsWhole }
    ensures within { OnOk result (map length (cut saved.now.versions.items (lists_of recovered.now)) ≡ saved.now.versions.items) }
    ensures refused { IfErr result (IsRefused def.now (lists_of recovered.now) saved.now.versions.items (lists_of saved.now.rows.items)) }
{
    let copies = first_records(alloc, &saved.versions, recovered)?;
    let rows = copy_rows(alloc, &saved.rows)?;
    match from_saved(alloc, def, copies, rows) {
        Ok(sheet) => Ok(sheet),
        Err(SheetNo::Shape { windows, rows }) => Err(LoadNo::Shape { windows, rows }),
        Err(_) => Err(LoadNo::WantOfMemory),
    }
}

// Copies the first records of each input, as many as its version says.
fn first_records(
    alloc: Global,
    versions: &[u32],
    recovered: &[Vec<Rec>],
) -> Result<Vec<Vec<Rec>>, LoadNo>
    requires inputs { length recovered.now ≡ length versions.now }
    requires few { length versions.now ≤ 64 }
    requires copied { All IsCopy (lists_of recovered.now) }
    ensures cut { IfOk result (λ v. lists_of v.items ≡ cut versions.now (lists_of recovered.now)) }
    ensures within { OnOk result (map length (cut versions.now (lists_of recovered.now)) ≡ versions.now) }
    ensures refused { IfErr result (IsAheadOrMemory versions.now (lists_of recovered.now)) }
{
    let mut copies = Vec::new(alloc);
    for i in 0..versions.len() {
        let records = recovered[i].len() as u32;
        if records < versions[i] {
            return Err(LoadNo::Ahead {
                input: i as u32,
                version: versions[i],
                records,
            });
        }
        let Ok(()) = copies.push(records_of(alloc, &recovered[i], versions[i])?) else {
            return Err(LoadNo::WantOfMemory);
        };
    }
    Ok(copies)
}

// Copies the oldest `count` records.
fn records_of(alloc: Global, recs: &[Rec], count: u32) -> Result<Vec<Rec>, WantOfMemory>
    requires { count ≤ length recs.now }
    ensures { IfOk result (λ v. v.items ≡ take count recs.now) }
{
    Ok(Vec::from_slice(alloc, &recs[..count as usize])?)
}

// Copies rows.
fn copy_rows(alloc: Global, rows: &[Vec<CalcValue>]) -> Result<Vec<Vec<CalcValue>>, WantOfMemory>
    ensures { IfOk result (λ copy. lists_of copy.items ≡ lists_of rows.now) }
{
    let mut copy = Vec::with_capacity(alloc, rows.len())?;
    for row in rows {
        copy.push_reserved(Vec::from_slice(alloc, row)?);
    }
    Ok(copy)
}
