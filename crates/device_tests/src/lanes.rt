// Lanes byte by byte: what a scan finds, and the first field that breaks the layout.
use crate::spelled::{change, number, rows_tell};
use disk_model::MemDisk;
use event_queue::scan;
use std::alloc::Global;
use std::process::Abort;
use std::test::Fail;

// A device of four lane slots, of which the first two are open: (0,0) and (10,10), and then (20,20).
const TWO_BATCHES: &str = "400=165 401=165 413=2 437=10 445=10 1445=2 1447=1 1455=20 1463=20";

// How many raw values the summary counts, and which bytes are changed. Then comes what a scan finds: how many lane
// slots are used, the next number, how many points there are beyond the summary, and whether they are stale. If the
// layout is broken, it is the first byte of the first broken field.
//
// The rows are: bytes that no lane slot has; counts, and first numbers; a closed gate; times and values; bytes after a
// closed gate. Then come summaries that count all, or all of the lane slots that are open. Last come some that end
// within a batch, or before a gap.
const SCANS: &str = "\
0 0=0 386=165 => 2 3 3 false
0 412=1 => Damaged { at: 412, byte: Some(1) }
0 413=0 => Damaged { at: 412, byte: Some(0) }
0 413=65 => Damaged { at: 412, byte: Some(0) }
0 411=7 => Damaged { at: 404, byte: Some(0) }
0 413=1 => Damaged { at: 1438, byte: Some(0) }
0 1445=3 => Damaged { at: 1438, byte: Some(0) }
0 1446=128 => Damaged { at: 1446, byte: Some(128) }
0 400=0 => Damaged { at: 1438, byte: Some(0) }
0 414=1 => Damaged { at: 414, byte: Some(1) }
0 430=0 431=0 432=230 433=119 434=210 435=31 436=220 437=0 => Damaged { at: 430, byte: Some(0) }
0 438=64 => Damaged { at: 430, byte: Some(0) }
0 1456=128 => Damaged { at: 1448, byte: Some(0) }
0 2480=255 => 2 3 3 false
3  => 2 3 0 true
1000  => 2 1000 0 true
3 400=0 => 2 3 0 true
2 401=0 => 1 2 0 true
2 400=0 401=0 => 0 2 0 false
2  => Damaged { at: 1438, byte: Some(0) }
1  => Damaged { at: 404, byte: Some(0) }
2 400=0 => Damaged { at: 1438, byte: Some(0) }
0 401=0 => 1 2 2 false";

// A device of two batches, with these changes.
fn changed(rt: &impl Abort, alloc: Global, changes: &str) -> Result<MemDisk, Fail> {
    let mut bytes = vec![in alloc; 0; 4540]?;
    change(rt, bytes.as_mut_slice(), TWO_BATCHES);
    change(rt, bytes.as_mut_slice(), changes);
    Ok(MemDisk::new(bytes, Vec::new(alloc)))
}

// What a scan of a device finds, if the summary counts `taken` values.
fn found(rt: &impl Abort, alloc: Global, mut disk: MemDisk, taken: u64) -> Result<String, Fail> {
    assert!(rt; disk.bytes().len() == 4540);
    assert!(rt; taken <= 1000);
    match scan(alloc, &mut disk, 4, taken) {
        Ok(s) => {
            let (used, next, count) = (s.lane.used, s.lane.next, s.points.len());
            Ok(format!(in alloc; "{used} {next} {count} {}", s.stale)?)
        }
        Err(why) => Ok(format!(in alloc; "{why:?}")?),
    }
}

#[test]
fn a_scan_finds_points_or_the_first_bad_field(rt: HostRuntime) -> Result<(), Fail> {
    rows_tell(&rt, SCANS, |given| {
        let (taken, changes) = given.split_once(' ').ok_or("taken")?;
        let disk = changed(&rt, rt.alloc(), changes)?;
        found(&rt, rt.alloc(), disk, number(&rt, taken))
    })
}
