// Books over devices: what is saved, and what is there when the device is opened again.
ghost use Rattle.std.specs.Prelude.{IfOk};
ghost use Rattle.calc_refresh.specs.{IsCopy};

use crate::book_groups::means;
use crate::books::{answers, cell_of, cell_with, refresh, take_all};
use crate::tables::same;
use disk_model::{MemDisk, Pick};
use group_book::{Book, LoadFail, Turn, load};
use group_layout::definition_text;
use std::alloc::{AllocError, Global};
use std::fmt::Write;
use std::process::Abort;
use std::sync::{Mutex, Wait};
use std::test::Fail;
use tag_cell::Cell;
use trend_num::{Rec, name_from};

// The definition texts of two groups of one tag and one calculation.
const TEXT: &[u8; 23] = b"g,0,1000,T1\nm=avg('T1')";

const OTHER: &[u8; 23] = b"h,0,1000,T1\nm=avg('T1')";

// Sessions on one device in turn, separated by `/`. A session has the group; then a place on the device and the value
// that its byte gets before, or a `-`; then all values that the tag has taken. After `=>` comes, for each session,
// either why the device is not opened; or the saved version and rows, and after `:` what there is once the book was
// refreshed and saved. That is its rows, how many values were evaluated, and the length of the device.
const SESSIONS: &str = "\
g - 0,0 3000,0 4000,9 1500,60 commit => 0 : 20 50 20 e3 105 / \
g - 0,0 3000,0 4000,9 1500,60 commit => 3 20 50 20 : 20 50 20 e0 126 / \
g - 0,0 3000,0 4000,9 1500,60 2000,40 2500,40 commit => 3 20 50 20 : 20 50 30 e2 164 / \
g - 0,0 3000,0 4000,9 1500,60 2000,40 2500,40 commit => 5 20 50 30 : 20 50 30 e0 185
g - 0,0 3000,0 4000,9 1500,60 commit => 0 : 20 50 20 e3 105 / \
g 44=5 0,0 3000,0 4000,9 1500,60 commit => Ahead { input: 0, version: 5, records: 3 } / \
g 44=3 0,0 3000,0 4000,9 commit => Ahead { input: 0, version: 3, records: 2 } / \
g 44=1 0,0 3000,0 4000,9 1500,60 commit => Shape { windows: 0, rows: 3 } / \
g 33=1 0,0 3000,0 4000,9 1500,60 commit => Damaged { at: 33, byte: Some(1) } / \
h 33=0 0,0 3000,0 4000,9 commit => 0 : 0 0 0 e3 105 / \
g 32=0 0,0 3000,0 4000,9 commit => 0 : 0 0 0 e3 105";

// The device of the first group after a save of three records and the rows 20, 50, 20, in hexadecimal digits. It has
// the gate, the letters, and the text after its length; then the gate of the block, its number, the version, the
// windows, and how many rows there are; then the rows, and the next gate.
const FIRST: &str = "\
a55048473100000017672c302c313030302c54310a6d3d617667282754312729\
a50000000000000001000000030000000300000003\
0000000000000000000000000000000014\
0000000000000001000000000000000032\
0000000000000002000000000000000014\
00";

// What one book goes through, its saves separated by `/`. Before a save come refreshes, separated by `+`. A refresh has
// the values that the tag takes before it. The first refresh evaluates three windows. The second one evaluates the
// windows 1 and 2 anew, for late values, and only 2 changes. The third completes the window 3. The last evaluates none.
const SAVES: &str = "\
0,0 3000,0 4000,8 1500,60 commit / \
2000,40 2500,40 commit + 5000,0 commit / \
wait";

// The device after these saves, in hexadecimal digits. Its second block has the two cells that changed, and its third
// one has none.
const SAVED: &str = "\
a55048473100000017672c302c313030302c54310a6d3d617667282754312729\
a50000000000000001000000030000000300000003\
0000000000000000000000000000000014\
0000000000000001000000000000000032\
0000000000000002000000000000000014\
a50000000000000002000000060000000400000002\
000000000000000200000000000000001e\
0000000000000003000000000000000004\
a50000000000000003000000060000000400000000\
00";

// Returns a device with another byte at a place, if the text names one.
fn changed(alloc: Global, dev: MemDisk, change: &str) -> Option<MemDisk> {
    let Some((at, byte)) = change.split_once('=') else {
        return Some(dev);
    };
    let at = at.parse::<usize>().ok()?;
    let mut bytes = Vec::from_slice(alloc, dev.bytes()).ok()?;
    *bytes.get_mut(at)? = byte.parse::<u8>().ok()?;
    Some(MemDisk::new(bytes, Vec::new(alloc)))
}

// Returns a copy of the records of a cell.
fn copy_of(alloc: Global, cell: &Cell<MemDisk>) -> Result<Vec<Rec>, AllocError>
    ensures { IfOk result (λ copy. IsCopy copy.items) }
{
    Vec::from_slice(alloc, cell.recs())
}

// Returns the book of a group over a device, whose tag recovered the records of a cell. If it is not opened, it returns
// the device and the reason.
fn loaded(
    alloc: Global,
    mut dev: MemDisk,
    text: &[u8],
    cell: &Cell<MemDisk>,
) -> Option<Result<Book<MemDisk>, LoadFail<MemDisk>>> {
    let def = means(alloc)?;
    let tags = vec![in alloc; 0; 1].ok()?;
    let recovered = [copy_of(alloc, cell).ok()?];
    dev.forget_name();
    Some(load(alloc, dev, 0, &def, text, tags, &recovered))
}

// Returns the version that a book was opened with.
fn version_of(book: &Book<MemDisk>) -> Option<u32> {
    book.opening().versions.first().copied()
}

// Returns the device of a book, and how many values the book evaluated.
fn device_of(book: Book<MemDisk>) -> Option<(MemDisk, u64)> {
    let (dev, history) = book.into_history();
    Some((dev?, history.evals))
}

// Saves a book, and returns whether that succeeded.
fn is_saved(book: &mut Book<MemDisk>) -> bool {
    book.save().is_ok()
}

// Refreshes and saves a book. Returns, as a text, what was there before and what is there now.
fn renew<R: Wait>(
    rt: &R,
    alloc: Global,
    book: &mut Book<MemDisk>,
    cell: Mutex<Cell<MemDisk>>,
) -> Option<String> {
    let version = version_of(book)?;
    let before = answers(alloc, book)?;
    refresh(rt, book, &[cell]).ok()?;
    let after = answers(alloc, book)?;
    if !is_saved(book) {
        return None;
    }
    format!(in alloc; "{version} {before}: {after}").ok()
}

// Does the same, and returns the device too. The text also has how many values were evaluated, and how long the device
// is.
fn renewed<R: Wait>(
    rt: &R,
    alloc: Global,
    mut book: Book<MemDisk>,
    cell: Mutex<Cell<MemDisk>>,
) -> Option<(MemDisk, String)> {
    let told = renew(rt, alloc, &mut book, cell)?;
    let (dev, evals) = device_of(book)?;
    let len = dev.bytes().len();
    let told = format!(in alloc; "{told}e{evals} {len}").ok()?;
    Some((dev, told))
}

// Runs a session on a device.
fn session<R: Wait>(rt: &R, alloc: Global, dev: MemDisk, words: &str) -> Option<(MemDisk, String)> {
    let (group, rest) = words.split_once(' ')?;
    let (change, values) = rest.split_once(' ')?;
    let cell = cell_with(rt, alloc, values)?;
    let dev = changed(alloc, dev, change)?;
    let text = if group == "g" { TEXT } else { OTHER };
    let opened = loaded(alloc, dev, text, &cell.lock(rt))?;
    match opened {
        Ok(book) => renewed(rt, alloc, book, cell),
        Err(LoadFail { dev, why }) => Some((dev, format!(in alloc; "{why:?}").ok()?)),
    }
}

// Runs a session on a device, compares what is told of it, and returns the device.
fn step<R: Abort + Wait>(rt: &R, alloc: Global, dev: MemDisk, step: &str) -> Result<MemDisk, Fail> {
    let (words, want) = step.split_once(" => ").ok_or("an arrow")?;
    let (next, told) = session(rt, alloc, dev, words).ok_or("no session")?;
    same(rt, told.as_str(), want, step);
    Ok(next)
}

// Runs the sessions of a line.
fn follow<R: Abort + Wait>(rt: &R, alloc: Global, line: &str) -> Result<(), Fail> {
    let mut dev = MemDisk::new(Vec::new(alloc), Vec::new(alloc));
    for words in line.split(" / ") {
        dev = step(rt, alloc, dev, words)?;
    }
    Ok(())
}

#[test]
fn what_was_saved_is_there_again(rt: HostRuntime) -> Result<(), Fail> {
    for line in SESSIONS.lines() {
        follow(&rt, rt.alloc(), line)?;
    }
    Ok(())
}

// Takes values, refreshes a book and saves it. Returns whether it was saved.
fn saves(
    rt: &impl Wait,
    book: &mut Book<MemDisk>,
    cells: &[Mutex<Cell<MemDisk>>],
    values: &str,
) -> Option<bool> {
    let cell = cells.first()?;
    take_all(rt, &mut cell.lock(rt), values)?;
    refresh(rt, book, cells).ok()?;
    Some(is_saved(book))
}

// Tries two saves of a book, up to the first that fails. Returns the last version that was saved, and the one that was
// being saved.
fn two_saves(rt: &impl Wait, book: &mut Book<MemDisk>, cell: Cell<MemDisk>) -> Option<(u32, u32)> {
    let cells = [Mutex::new(cell)];
    if !saves(rt, book, &cells, "0,0 3000,0 4000,9 commit")? {
        return Some((0, 2));
    }
    if !saves(rt, book, &cells, "1500,60 commit")? {
        return Some((2, 3));
    }
    Some((3, 3))
}

// Tries two saves on a device. Returns the device, the last version that was saved, and the one that was being saved.
fn after_saves(rt: &impl Wait, alloc: Global, dev: MemDisk) -> Option<(MemDisk, u32, u32)> {
    let cell = cell_of(rt, alloc)?;
    match loaded(alloc, dev, TEXT, &cell)? {
        Ok(mut book) => {
            let (saved, saving) = two_saves(rt, &mut book, cell)?;
            let (dev, _) = device_of(book)?;
            Some((dev, saved, saving))
        }
        Err(LoadFail { dev, .. }) => Some((dev, 0, 0)),
    }
}

// Returns the version that a crash leaves.
fn left(rt: &impl Wait, alloc: Global, dev: &MemDisk, pick: Pick) -> Option<u32> {
    let cell = cell_with(rt, alloc, "0,0 3000,0 4000,9 1500,60 commit")?;
    let image = dev.crash(pick).ok()?;
    let book = loaded(alloc, image, TEXT, &cell.lock(rt))?.ok()?;
    version_of(&book)
}

// Tries two saves on a device and crashes it. Returns whether both were saved.
fn crashes<R: Abort + Wait>(rt: &R, alloc: Global, dev: MemDisk) -> Option<bool> {
    let (dev, saved, saving) = after_saves(rt, alloc, dev)?;
    for pick in [Pick::Old, Pick::New, Pick::Fill(0), Pick::Fill(0xa5)] {
        let version = left(rt, alloc, &dev, pick)?;
        assert!(rt; version == saved || version == saving);
    }
    Some(saved == 3)
}

// Does the same on two devices: one stops for good after so many calls, and on the other only that call fails. Returns
// whether both were saved, which has to be the same on each.
fn both_crash<R: Abort + Wait>(rt: &R, alloc: Global, calls: u64) -> Option<bool> {
    let mut stops = MemDisk::new(Vec::new(alloc), Vec::new(alloc));
    stops.stop_after(calls);
    let fails = MemDisk::new(Vec::new(alloc), vec![in alloc; calls].ok()?);
    let done = crashes(rt, alloc, stops)?;
    assert!(rt; crashes(rt, alloc, fails)? == done);
    Some(done)
}

#[test]
fn a_crash_leaves_the_last_save_or_the_next(rt: HostRuntime) -> Result<(), Fail> {
    for calls in 0..100 {
        if both_crash(&rt, rt.alloc(), calls).ok_or("not opened")? {
            assert!(&rt; calls > 10);
            return Ok(());
        }
    }
    Err("two saves took more than 100 calls".into())
}

// Returns the definition text of the first group.
fn text_of(alloc: Global) -> Option<Vec<u8>> {
    let name = name_from(b"g")?;
    let def = means(alloc)?;
    definition_text(alloc, &name, 0, 1000, &def.calcs).ok()
}

// Returns the bytes of a device, in hexadecimal digits.
fn digits(alloc: Global, dev: &MemDisk) -> Option<String> {
    let mut told = String::new(alloc);
    for b in dev.bytes() {
        write!(told, "{b:02x}").ok()?;
    }
    Some(told)
}

// Returns the bytes that a first save leaves, in hexadecimal digits.
fn first(rt: &impl Wait, alloc: Global) -> Option<String> {
    let dev = MemDisk::new(Vec::new(alloc), Vec::new(alloc));
    let (dev, _) = session(rt, alloc, dev, "g - 0,0 3000,0 4000,9 1500,60 commit")?;
    digits(alloc, &dev)
}

#[test]
fn a_first_save_has_these_bytes(rt: HostRuntime) -> Result<(), Fail> {
    let text = text_of(rt.alloc()).ok_or("no text")?;
    assert!(&rt; text.as_slice() == TEXT.as_slice());
    let told = first(&rt, rt.alloc()).ok_or("no session")?;
    same(&rt, told.as_str(), FIRST, "a first save");
    Ok(())
}

// Returns the number of a book's only save, and how many writes and syncs there were from its opening to that save.
fn save_of(book: &Book<MemDisk>) -> Option<(u64, u64)> {
    match book.tape() {
        [Turn::Save { number, moment }] => {
            Some((*number, moment.saturating_sub(book.opening().moment)))
        }
        _ => None,
    }
}

// Saves the book of a new device, and returns the same of that save.
fn first_save(rt: &impl Wait, alloc: Global) -> Option<(u64, u64)> {
    let cell = cell_with(rt, alloc, "0,0 3000,0 4000,9 1500,60 commit")?;
    let dev = MemDisk::new(Vec::new(alloc), Vec::new(alloc));
    let mut book = loaded(alloc, dev, TEXT, &cell.lock(rt))?.ok()?;
    if !is_saved(&mut book) {
        return None;
    }
    save_of(&book)
}

#[test]
fn a_save_leaves_its_number_and_moment(rt: HostRuntime) {
    assert!(&rt; first_save(&rt, rt.alloc()) == Some((1, 4)));
}

// Refreshes a book as often as a text has values for it, and saves it.
fn refresh_and_save(
    rt: &impl Wait,
    book: &mut Book<MemDisk>,
    cells: &[Mutex<Cell<MemDisk>>],
    text: &str,
) -> Option<()> {
    let cell = cells.first()?;
    for values in text.split(" + ") {
        take_all(rt, &mut cell.lock(rt), values)?;
        refresh(rt, book, cells).ok()?;
    }
    book.save().ok()
}

// Makes all saves of one book on a new device. Returns the bytes of the device, in hexadecimal digits.
fn all_saves(rt: &impl Wait, alloc: Global) -> Option<String> {
    let cells = [Mutex::new(cell_of(rt, alloc)?)];
    let dev = MemDisk::new(Vec::new(alloc), Vec::new(alloc));
    let mut book = loaded(alloc, dev, TEXT, &cells[0].lock(rt))?.ok()?;
    for text in SAVES.split(" / ") {
        refresh_and_save(rt, &mut book, &cells, text)?;
    }
    let (dev, _) = device_of(book)?;
    digits(alloc, &dev)
}

#[test]
fn a_save_has_the_cells_that_changed_since_the_last(rt: HostRuntime) -> Result<(), Fail> {
    let told = all_saves(&rt, rt.alloc()).ok_or("not saved")?;
    same(&rt, told.as_str(), SAVED, "all saves");
    Ok(())
}
