// What no clause says: that calls succeed if there is memory; and which images a crash leaves of a few calls.
ghost use Rattle.std.specs.Prelude.{ℕ, List, IsTrue, OnOk};

use crate::spelled::{change, number, rows_tell, same};
use disk_model::{Disk, MemDisk, MemStore, Pick, Store, close_gates};
use std::alloc::Global;
use std::process::Abort;
use std::test::Fail;

// Calls on a device of "abc": a write of bytes at a place, a cut to a length, a sync. Then comes the number of the call
// that fails. Then come the images that a crash may leave: without what was not synced, with all of it, or with "-" in
// its place.
const IMAGES: &str = "\
1:xy 9 => abc axy a--
3:de 9 => abc abcde abc--
2:xy sync 9 => abxy abxy abxy
0:z sync 2:q 9 => zbc zbq zb-
cut:1 9 => abc a a
1:xy 0 => abc axy a--
1:xy sync 1 => abc axy a--";

// Four gates before and after they are closed, and how many writes and syncs that takes.
const GATES: &str = "\
1=7 3=1 => [0, 7, 0, 1] 1
0=165 1=7 2=165 => [0, 7, 0, 0] 3
0=165 1=165 2=165 3=165 => [0, 0, 0, 0] 5";

// Makes a call, and returns whether it was done.
fn is_done(rt: &impl Abort, disk: &mut MemDisk, step: &str) -> bool {
    match step.split_once(':') {
        None => disk.sync().is_ok(),
        Some(("cut", len)) => disk.cut(number(rt, len)).is_ok(),
        Some((at, bytes)) => {
            let at = number(rt, at);
            assert!(rt; at <= disk.bytes().len() as u64);
            disk.write_at(at, bytes.as_bytes()).is_ok()
        }
    }
}

// The image that a crash leaves, as text.
fn image(alloc: Global, disk: &MemDisk, pick: Pick) -> Result<String, Fail> {
    let left = disk.crash(pick).map_err(|_| "memory")?;
    Ok(String::from_utf8(left.bytes().to_vec(alloc)?).map_err(|_| "text")?)
}

// Makes the calls of a row up to the first that fails, and returns whether all were done.
fn all_done(rt: &impl Abort, disk: &mut MemDisk, steps: &str) -> bool {
    for step in steps.split_whitespace() {
        if !is_done(rt, disk, step) {
            return false;
        }
    }
    true
}

// The device after the calls of a row. A fault is counted exactly if a call fails.
fn called(rt: &impl Abort, alloc: Global, given: &str) -> Result<MemDisk, Fail> {
    let (steps, fail) = given.rsplit_once(' ').ok_or("call")?;
    let mut disk = MemDisk::new(b"abc".to_vec(alloc)?, vec![in alloc; number(rt, fail)]?);
    let done = all_done(rt, &mut disk, steps);
    assert!(rt; done == (fail == "9"));
    assert!(rt; disk.faults() == u64::from(!done));
    Ok(disk)
}

// The images that a crash may leave of a device, as text.
fn images_told(alloc: Global, disk: &MemDisk) -> Result<String, Fail> {
    let old = image(alloc, disk, Pick::Old)?;
    let new = image(alloc, disk, Pick::New)?;
    Ok(format!(in alloc; "{old} {new} {}", image(alloc, disk, Pick::Fill(b'-'))?)?)
}

#[test]
fn a_crash_leaves_old_new_or_other_bytes(rt: HostRuntime) -> Result<(), Fail> {
    rows_tell(&rt, IMAGES, |given| {
        images_told(rt.alloc(), &called(&rt, rt.alloc(), given)?)
    })
}

// What the calls of a device of "abc" answer. The second of them fails, and each one from the sixth on.
fn calls_told(alloc: Global) -> Result<String, Fail> {
    let mut disk = MemDisk::new(b"abc".to_vec(alloc)?, vec![in alloc; 1]?);
    let (first, failed, len) = (disk.len(), disk.sync(), disk.len());
    let mut two = [0; 2];
    let (read, cut) = (disk.read(1, &mut two), disk.cut(1));
    disk.stop_after(5);
    let last = disk.len();
    let counts = [disk.calls(), disk.clock(), disk.faults()];
    Ok(format!(in alloc;
        "{first:?} {failed:?} {len:?} {read:?} {two:?} {cut:?} {last:?} {counts:?}"
    )?)
}

#[test]
fn a_device_in_memory_counts(rt: HostRuntime) -> Result<(), Fail> {
    let told = calls_told(rt.alloc())?;
    let want = "Ok(3) Err(Failed) Ok(3) Ok(()) [98, 99] Ok(()) Err(Failed) [6, 2, 2]";
    same(&rt, told.as_str(), want, "calls");
    Ok(())
}

// The device of these four gates, after they were closed.
fn closed(bytes: Vec<u8>) -> Option<MemDisk> {
    if bytes.len() != 4 {
        return None;
    }
    let alloc = *bytes.allocator();
    let mut disk = MemDisk::new(bytes, Vec::new(alloc));
    close_gates(&mut disk, 0, 4).ok()?;
    Some(disk)
}

// The bytes of four changed gates after they were closed, and how many writes and syncs that took.
fn gates_told(rt: &impl Abort, alloc: Global, changes: &str) -> Result<String, Fail> {
    let mut gates = vec![in alloc; 0; 4]?;
    change(rt, gates.as_mut_slice(), changes);
    let disk = closed(gates).ok_or("refused")?;
    Ok(format!(in alloc; "{:?} {}", disk.bytes(), disk.clock())?)
}

#[test]
fn gates_that_read_closed_are_not_written(rt: HostRuntime) -> Result<(), Fail> {
    rows_tell(&rt, GATES, |given| gates_told(&rt, rt.alloc(), given))
}

/// Hands out the device of a name.
pub fn handed<S: Store>(store: &mut S, name: &str) -> Result<S::Dev, Fail>
    ensures place { OnOk result (IsTrue (S.has_place store.new name.now)) }
    ensures places { (n : List ℕ) → IsTrue (S.has_place store.old n) → IsTrue (S.has_place store.new n) }
{
    Ok(store.device(name).map_err(|_| "failed")?)
}

// A store of one device, `a.tag`, that holds "abc". Its first call fails.
fn store_of_one(alloc: Global) -> Result<MemStore, Fail> {
    let kept = MemDisk::new(b"abc".to_vec(alloc)?, vec![in alloc; 0]?);
    let mut devices = Vec::new(alloc);
    devices.push((String::from_str(alloc, "a.tag")?, kept))?;
    Ok(MemStore::new(devices))
}

// Takes two devices of a store, and gives the first one back after a call.
fn taken(rt: &impl Abort, store: &mut MemStore) -> Result<(), Fail> {
    let mut a = handed(store, "a.tag")?;
    let b = handed(store, "b.tag")?;
    assert!(rt; a.bytes() == b"abc".as_slice());
    assert!(rt; b.bytes().is_empty());
    assert!(rt; a.sync().is_err());
    store.give_back("a.tag", a);
    Ok(())
}

#[test]
fn a_store_in_memory_keeps_devices_by_name(rt: HostRuntime) -> Result<(), Fail> {
    let mut store = store_of_one(rt.alloc())?;
    taken(&rt, &mut store)?;
    let again = handed(&mut store, "a.tag")?;
    assert!(rt; again.bytes() == b"abc".as_slice());
    assert!(rt; (again.clock(), again.faults()) == (1, 0));
    Ok(())
}

// Makes six calls of two devices, of which the fourth and each later one fails.
fn two_stop(rt: &impl Abort, a: &mut MemDisk, b: &mut MemDisk) {
    assert!(rt; a.sync().is_ok() && b.sync().is_ok());
    assert!(rt; a.len() == Ok(0));
    assert!(rt; b.sync().is_err() && a.sync().is_err());
    assert!(rt; (a.faults(), b.faults()) == (1, 1));
}

#[test]
fn devices_of_a_store_stop_together(rt: HostRuntime) -> Result<(), Fail> {
    let mut store = MemStore::new(Vec::new(rt.alloc()));
    let mut before = handed(&mut store, "before.tag")?;
    store.stop_after(3).map_err(|_| "memory")?;
    let mut a = handed(&mut store, "a.tag")?;
    let mut b = handed(&mut store, "b.tag")?;
    two_stop(&rt, &mut a, &mut b);
    assert!(rt; before.sync().is_ok());
    Ok(())
}
