// The store of files: what no clause says, because no clause knows what a file holds.
use crate::devices::handed;
use crate::recovery::{opened, tag};
use crate::spelled::{change, number, rows_tell};
use disk_model::{Disk, Failed, MemDisk, OPEN, Pick, Store};
use std::alloc::Global;
use std::fs::{self, File};
use std::io;
use std::os::unix::fs::{MetadataExt, symlink};
use std::process::Abort;
use std::rt::Files;
use std::test::Fail;
use told_store::DirStore;

// How long a file is, which of its bytes are not zero, and whether the store hands it out.
//
// First come files that their first byte decides. All later files begin with 00. A tag's layout of 64 lane slots has
// one a5: before its gates, at the gate of either summary, between the gates, at the last gate of the lane, and after
// it. Then come another layout's letters, and files that end within a tag's layout. A log's layout with a text of two
// bytes has one a5: before the gate of its first block, there, and after it. The next file ends within a log's layout.
// A group's layout is begun anew with gates open. Last come zeros: as many as the making of a tag's device writes, and
// one more.
const FILES: &str = "\
0 => handed out
1 0=164 => handed out
1 0=165 => handed out
2 => handed out
2 0=165 => handed out
2 0=164 => refused
2 0=1 => refused
500 0=255 => refused
500 0=84 1=80 2=72 3=84 4=49 113=64 => refused
500 1=80 2=72 3=84 4=49 113=64 383=165 => handed out
500 1=80 2=72 3=84 4=49 113=64 384=165 => refused
500 1=80 2=72 3=84 4=49 113=64 385=165 => refused
500 1=80 2=72 3=84 4=49 113=64 399=165 => refused
500 1=80 2=72 3=84 4=49 113=64 463=165 => refused
500 1=80 2=72 3=84 4=49 113=64 464=165 => handed out
500 1=80 2=72 3=84 4=50 113=64 384=165 => handed out
385 1=80 2=72 3=84 4=49 113=64 384=165 => refused
112 1=80 2=72 3=84 4=49 => handed out
20 1=80 2=72 3=67 4=49 8=2 10=165 => handed out
20 1=80 2=72 3=67 4=49 8=2 11=165 => refused
20 1=80 2=72 3=67 4=49 8=2 12=165 => handed out
8 1=80 2=72 3=67 4=49 => handed out
20 1=80 2=72 3=71 4=49 8=2 11=165 => handed out
66640 => handed out
66641 => refused";

// The calls after which the making of a tag's device stops, and whether the store hands out each file that a crash then
// leaves. The crash leaves nothing of what was done since the last sync, all of it, or `-` or an open gate in place of
// each byte. No disk leaves a `-` in the first byte if 00 was there and an open gate was written. The model allows it,
// and the store refuses it.
const MAKINGS: &str = "\
0 => handed out, handed out, handed out, handed out
1 => handed out, handed out, handed out, handed out
2 => handed out, handed out, handed out, handed out
3 => handed out, handed out, handed out, handed out
4 => handed out, handed out, handed out, handed out
5 => handed out, handed out, handed out, handed out
6 => handed out, handed out, handed out, handed out
7 => handed out, handed out, refused, handed out
8 => handed out, handed out, refused, handed out";

// Begins with an empty folder of devices.
fn begin(rt: &(impl Files + AllocGlobal)) -> io::Result<()> {
    if fs::exists(rt, "historian.d")? {
        end(rt)?;
    }
    fs::create_dir(rt, "historian.d")
}

// Removes the folder of devices.
fn end(rt: &(impl Files + AllocGlobal)) -> io::Result<()> {
    fs::remove_dir_all(rt, "historian.d")
}

// All bytes of a device.
fn content(alloc: Global, dev: &mut impl Disk) -> Result<Vec<u8>, Fail> {
    let len = dev.len().map_err(|_| "length")?;
    let mut bytes = vec![in alloc; 0; len as usize]?;
    dev.read(0, &mut bytes).map_err(|_| "read")?;
    Ok(bytes)
}

// Checks that a device has these bytes.
fn holds(rt: &impl Abort, alloc: Global, dev: &mut impl Disk, want: &[u8]) -> Result<(), Fail> {
    assert!(rt; content(alloc, dev)?.as_slice() == want);
    Ok(())
}

// Returns whether a store hands out the device `a.tag`. Then it also checks that the device has exactly these bytes.
fn told_of<S: Store>(
    rt: &impl Abort,
    alloc: Global,
    store: &mut S,
    bytes: &[u8],
) -> Result<&'static str, Fail>
where
    S::Dev: Drop,
{
    match store.device("a.tag") {
        Ok(mut dev) => {
            holds(rt, alloc, &mut dev, bytes)?;
            Ok("handed out")
        }
        Err(Failed) => Ok("refused"),
    }
}

// Returns a store that reads the devices with these names, between which are blanks.
fn reading<'r, R: Files<File = File> + AllocGlobal>(
    rt: &'r R,
    names: &str,
) -> Result<DirStore<&'r R>, Fail> {
    let mut list = Vec::new(rt.alloc());
    for name in names.split(' ') {
        list.push(String::from_str(rt.alloc(), name)?)?;
    }
    Ok(DirStore::read(rt, &list))
}

// Checks that the file `a.tag` has these bytes.
fn file_holds<R: Files<File = File> + AllocGlobal + Abort>(rt: &R, bytes: &[u8]) -> io::Result<()> {
    assert!(rt; fs::read(rt, "historian.d/a.tag")?.as_slice() == bytes);
    Ok(())
}

// Returns whether a store that reads the folder hands out the file of these bytes. Then it also checks that the device
// has exactly these bytes, and that the file keeps them.
fn answer<R: Files<File = File> + AllocGlobal + Abort>(
    rt: &R,
    bytes: &[u8],
) -> Result<&'static str, Fail> {
    begin(rt)?;
    fs::write(rt, "historian.d/a.tag", bytes)?;
    let mut store = reading(rt, "a.tag")?;
    let told = told_of(rt, rt.alloc(), &mut store, bytes)?;
    file_holds(rt, bytes)?;
    end(rt)?;
    Ok(told)
}

// Whether the store hands out the file of a row, as text.
fn file_told<R: Files<File = File> + AllocGlobal + Abort>(
    rt: &R,
    given: &str,
) -> Result<String, Fail> {
    let (len, changes) = given.split_once(' ').unwrap_or((given, ""));
    let mut bytes = vec![in rt.alloc(); 0; number(rt, len) as usize]?;
    change(rt, bytes.as_mut_slice(), changes);
    Ok(String::from_str(rt.alloc(), answer(rt, &bytes)?)?)
}

#[test]
fn a_lost_first_byte_is_refused(rt: HostRuntime) -> Result<(), Fail> {
    rows_tell(&rt, FILES, |given| file_told(&rt, given))
}

// What the store makes of the file that a crash of a device leaves.
fn crash_told<R: Files<File = File> + AllocGlobal + Abort>(
    rt: &R,
    dev: &MemDisk,
    pick: Pick,
) -> Result<&'static str, Fail> {
    let left = dev.crash(pick).map_err(|_| "memory")?;
    answer(rt, left.bytes())
}

// What the store makes of each file that a crash of a device leaves.
fn answers<R: Files<File = File> + AllocGlobal + Abort>(
    rt: &R,
    dev: &MemDisk,
) -> Result<String, Fail> {
    let old = crash_told(rt, dev, Pick::Old)?;
    let new = crash_told(rt, dev, Pick::New)?;
    let filled = crash_told(rt, dev, Pick::Fill(b'-'))?;
    let open = crash_told(rt, dev, Pick::Fill(OPEN))?;
    Ok(format!(in rt.alloc(); "{old}, {new}, {filled}, {open}")?)
}

// A new device, whose making stops after `calls` calls.
fn stopped(alloc: Global, calls: u64) -> Option<MemDisk> {
    let mut dev = MemDisk::new(Vec::new(alloc), Vec::new(alloc));
    dev.stop_after(calls);
    Some(opened(alloc, dev, &tag("plain")?, 64).err()?.dev)
}

// What the store makes of a device whose making stops after so many calls.
fn making_told<R: Files<File = File> + AllocGlobal + Abort>(
    rt: &R,
    calls: u64,
) -> Result<String, Fail> {
    let dev = stopped(rt.alloc(), calls).ok_or("made")?;
    answers(rt, &dev)
}

#[test]
fn a_making_that_stops_is_not_refused(rt: HostRuntime) -> Result<(), Fail> {
    rows_tell(&rt, MAKINGS, |calls| making_told(&rt, number(&rt, calls)))?;
    assert!(rt; stopped(rt.alloc(), 9).is_none());
    Ok(())
}

// Checks the clock of a device, and how many faults it has.
fn counts(rt: &impl Abort, dev: &impl Disk, clock: u64, faults: u64) {
    assert!(rt; dev.clock() == clock);
    assert!(rt; dev.faults() == faults);
}

// Makes a device of two bytes, and gives it back. The store does not hand it out again, before that or after it.
fn make<S: Store>(rt: &impl Abort, store: &mut S) -> Result<(), Fail>
where
    S::Dev: Drop,
{
    let mut made = handed(store, "a.tag")?;
    assert!(rt; made.write_at(0, b"\xa5bc").is_ok());
    assert!(rt; made.cut(2).is_ok());
    assert!(rt; made.sync().is_ok());
    counts(rt, &made, 3, 0);
    assert!(rt; store.device("a.tag").is_err());
    store.give_back("a.tag", made);
    assert!(rt; store.device("a.tag").is_err());
    Ok(())
}

// Adds a byte to the device of two bytes, and gives it back.
fn add<S: Store>(rt: &impl Abort, alloc: Global, store: &mut S) -> Result<(), Fail>
where
    S::Dev: Drop,
{
    let mut again = handed(store, "a.tag")?;
    holds(rt, alloc, &mut again, b"\xa5b")?;
    counts(rt, &again, 0, 0);
    let len = again.len().map_err(|_| "length")?;
    assert!(rt; again.write_at(len, b"-").is_ok());
    store.give_back("a.tag", again);
    Ok(())
}

// Checks that a store hands out a device of these bytes, with no call so far.
fn finds<S: Store>(rt: &impl Abort, alloc: Global, store: &mut S, bytes: &[u8]) -> Result<(), Fail>
where
    S::Dev: Drop,
{
    let mut later = handed(store, "a.tag")?;
    holds(rt, alloc, &mut later, bytes)?;
    counts(rt, &later, 0, 0);
    Ok(())
}

#[test]
fn files_of_a_folder_are_devices(rt: HostRuntime) -> Result<(), Fail> {
    begin(&rt)?;
    end(&rt)?;
    let mut store = reading(&rt, "a.tag")?;
    make(&rt, &mut store)?;
    drop(store);
    let mut store = reading(&rt, "a.tag")?;
    add(&rt, rt.alloc(), &mut store)?;
    drop(store);
    let mut store = reading(&rt, "a.tag")?;
    finds(&rt, rt.alloc(), &mut store, b"\xa5b-")?;
    end(&rt)?;
    Ok(())
}

// Makes calls of a device after one that fails, because there is no memory for so long a cut. Each of them fails.
fn fail(rt: &impl Abort, dev: &mut impl Disk) {
    assert!(rt; dev.cut(u64::MAX).is_err());
    assert!(rt; dev.len().is_err());
    assert!(rt; dev.read(0, &mut []).is_err());
    assert!(rt; dev.write_at(0, b"d").is_err());
    assert!(rt; dev.cut(1).is_err());
    assert!(rt; dev.sync().is_err());
    counts(rt, dev, 5, 6);
}

// Returns which file has the name `a.tag`.
fn file_number(rt: &(impl Files + AllocGlobal)) -> io::Result<u64> {
    Ok(fs::metadata(rt, "historian.d/a.tag")?.ino())
}

// Takes a device that stops, and gives it back. Its file is another one then. The store does not hand it out again, but
// it does another one.
fn break_one<S: Store, R: Files + AllocGlobal + Abort>(rt: &R, store: &mut S) -> Result<(), Fail>
where
    S::Dev: Drop,
{
    let mut dev = handed(store, "a.tag")?;
    assert!(rt; dev.write_at(0, b"\xa5bc").is_ok());
    fail(rt, &mut dev);
    let before = file_number(rt)?;
    store.give_back("a.tag", dev);
    assert!(rt; file_number(rt)? != before);
    assert!(rt; store.device("a.tag").is_err());
    assert!(rt; store.device("b.tag").is_ok());
    Ok(())
}

// A device that stops is written anew, and the next store hands it out.
#[test]
fn each_call_after_a_failed_one_is_a_fault(rt: HostRuntime) -> Result<(), Fail> {
    begin(&rt)?;
    let mut store = reading(&rt, "a.tag")?;
    break_one(&rt, &mut store)?;
    drop(store);
    let mut store = reading(&rt, "a.tag")?;
    let mut dev = handed(&mut store, "a.tag")?;
    holds(&rt, rt.alloc(), &mut dev, b"\xa5bc")?;
    end(&rt)?;
    Ok(())
}

// Whether a store that reads the devices with these names hands out that of a tag, that of a group, and the log.
fn handed_out<R: Files<File = File> + AllocGlobal>(rt: &R, names: &str) -> Result<[bool; 3], Fail> {
    let mut store = reading(rt, names)?;
    Ok([
        store.device("a.tag").is_ok(),
        store.device("b.grp").is_ok(),
        store.device("plant.log").is_ok(),
    ])
}

// Writes a file of three bytes.
fn write_three(rt: &(impl Files + AllocGlobal), name: &str) -> Result<(), Fail> {
    let path = format!(in rt.alloc(); "historian.d/{name}")?;
    fs::write(rt, path, b"\xa5bc")?;
    Ok(())
}

#[test]
fn a_device_that_was_not_read_is_refused(rt: HostRuntime) -> Result<(), Fail> {
    begin(&rt)?;
    write_three(&rt, "a.tag")?;
    write_three(&rt, "b.grp")?;
    write_three(&rt, "plant.log")?;
    assert!(rt; handed_out(&rt, "a.tag b.grp")? == [true, true, false]);
    assert!(rt; handed_out(&rt, "plant.log")? == [false, false, true]);
    end(&rt)?;
    Ok(())
}

// The store overwrites what another run has left of a new file.
#[test]
fn a_device_with_a_mark_is_written_anew(rt: HostRuntime) -> Result<(), Fail> {
    begin(&rt)?;
    fs::write(&rt, "historian.d/a.tag", b"\xa5bc")?;
    fs::write(&rt, "historian.d/a.tag.new", b"\xa5bcdef")?;
    fs::write(&rt, "historian.d/a.tag.fault", b"")?;
    let mut store = reading(&rt, "a.tag")?;
    let mut dev = handed(&mut store, "a.tag")?;
    holds(&rt, rt.alloc(), &mut dev, b"\xa5bc")?;
    assert!(rt; !fs::exists(&rt, "historian.d/a.tag.new")?);
    assert!(rt; !fs::exists(&rt, "historian.d/a.tag.fault")?);
    end(&rt)?;
    Ok(())
}

#[test]
fn a_second_store_is_refused_while_the_first_one_lives(rt: HostRuntime) -> Result<(), Fail> {
    begin(&rt)?;
    end(&rt)?;
    let mut early = reading(&rt, "a.tag")?;
    let mut first = DirStore::new(&rt);
    assert!(rt; first.device("a.tag").is_ok());
    assert!(rt; early.device("a.tag").is_err());
    let mut second = reading(&rt, "a.tag")?;
    assert!(rt; second.device("a.tag").is_err());
    assert!(rt; second.device("b.tag").is_err());
    assert!(rt; !fs::exists(&rt, "historian.d/b.tag")?);
    assert!(rt; first.device("b.tag").is_ok());
    drop(first);
    assert!(rt; second.device("b.tag").is_err());
    let mut third = reading(&rt, "a.tag b.tag")?;
    assert!(rt; third.device("b.tag").is_ok());
    end(&rt)?;
    Ok(())
}

// Checks that a store refuses files and folders in the folder that are no devices.
fn are_refused<S: Store>(rt: &impl Abort, store: &mut S)
where
    S::Dev: Drop,
{
    for name in ["folder.tag", "link.tag", "nothing.grp", "second.tag"] {
        assert!(rt; store.device(name).is_err(), "{name}");
    }
}

#[test]
fn what_is_no_plain_file_of_one_name_is_refused(rt: HostRuntime) -> Result<(), Fail> {
    begin(&rt)?;
    fs::create_dir(&rt, "historian.d/folder.tag")?;
    fs::write(&rt, "historian.d/kept", b"\xa5bc")?;
    symlink(&rt, "kept", "historian.d/link.tag")?;
    symlink(&rt, "missing", "historian.d/nothing.grp")?;
    fs::hard_link(&rt, "historian.d/kept", "historian.d/second.tag")?;
    let mut store = reading(&rt, "folder.tag link.tag nothing.grp second.tag")?;
    are_refused(&rt, &mut store);
    drop(store);
    let mut store = DirStore::new(&rt);
    are_refused(&rt, &mut store);
    assert!(rt; fs::read(&rt, "historian.d/kept")?.as_slice() == b"\xa5bc".as_slice());
    assert!(rt; !fs::exists(&rt, "historian.d/missing")?);
    end(&rt)?;
    Ok(())
}

// If a store did not read a file, its trace is empty, so the store refuses the file. It also refuses a file that became
// longer since it was read, and another file of the same length.
#[test]
fn a_file_that_is_not_as_it_was_told_is_refused(rt: HostRuntime) -> Result<(), Fail> {
    begin(&rt)?;
    fs::write(&rt, "historian.d/a.tag", b"\xa5bc")?;
    let mut store = DirStore::new(&rt);
    assert!(rt; store.device("a.tag").is_err());
    drop(store);
    let mut store = reading(&rt, "a.tag")?;
    fs::write(&rt, "historian.d/a.tag", b"\xa5bcd")?;
    fs::write(&rt, "historian.d/b.tag", b"\xa5")?;
    assert!(rt; store.device("a.tag").is_err());
    assert!(rt; store.device("b.tag").is_err());
    file_holds(&rt, b"\xa5bcd")?;
    drop(store);
    let mut store = reading(&rt, "a.tag")?;
    fs::write(&rt, "historian.d/other", b"\xa5bce")?;
    fs::rename(&rt, "historian.d/other", "historian.d/a.tag")?;
    assert!(rt; store.device("a.tag").is_err());
    file_holds(&rt, b"\xa5bce")?;
    end(&rt)?;
    Ok(())
}
