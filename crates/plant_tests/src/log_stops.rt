// What a log's device has after it stopped, or after one of its calls failed.
use crate::log_device::{PLANT, put_all};
use commit_log::{Log, open_log};
use disk_model::{MemDisk, Pick};
use std::alloc::Global;
use std::process::Abort;
use std::test::Fail;

// The row of a first commit, and the rows of a second one.
const FIRST: &str = "0 0 1 0 5";

const SECOND: &str = "0 1 1 1500 -2\n0 0 2 3000 60";

// Puts these rows and commits them. Returns whether they are acknowledged.
fn is_committed(log: &mut Log<MemDisk>, rows: &str) -> Result<bool, Fail> {
    put_all(log, rows)?;
    Ok(log.commit().is_ok())
}

// Opens a device and makes two commits, the second only if the first succeeded. Returns the device, how many rows are
// acknowledged, and whether both commits succeeded.
fn session(alloc: Global, mut dev: MemDisk) -> Result<(MemDisk, u64, bool), Fail> {
    dev.forget_name();
    match open_log(alloc, dev, PLANT, 1, 10) {
        Err(fail) => Ok((fail.dev, 0, false)),
        Ok(log) => {
            let mut log = log;
            let done = is_committed(&mut log, FIRST)? && is_committed(&mut log, SECOND)?;
            let (dev, history) = log.into_history();
            Ok((dev, history.acked, done))
        }
    }
}

// Returns how many rows the log has on this crash image of a device.
fn left(alloc: Global, dev: &MemDisk, pick: Pick) -> Result<u64, Fail> {
    let image = dev.crash(pick).map_err(|_| "no memory")?;
    match open_log(alloc, image, PLANT, 1, 10) {
        Ok(log) => Ok(log.opening().len() as u64),
        Err(_) => Err("an image is not opened".into()),
    }
}

// Uses a device and crashes it. Returns how many rows were acknowledged, and whether both commits succeeded.
fn crashes(rt: &impl Abort, alloc: Global, dev: MemDisk) -> Result<(u64, bool), Fail> {
    let (dev, acked, done) = session(alloc, dev)?;
    for pick in [Pick::Old, Pick::New, Pick::Fill(0), Pick::Fill(0xa5)] {
        let rows = left(alloc, &dev, pick)?;
        assert!(rt;
            acked <= rows && (rows == 0 || rows == 1 || rows == 3),
            "{acked} {rows}"
        );
    }
    Ok((acked, done))
}

#[test]
fn a_stop_leaves_whole_commits_with_the_acknowledged_ones(rt: HostRuntime) -> Result<(), Fail> {
    let mut between = false;
    for calls in 0..100 {
        let mut stops = MemDisk::new(Vec::new(rt.alloc()), Vec::new(rt.alloc()));
        stops.stop_after(calls);
        let mut failing = Vec::new(rt.alloc());
        failing.push(calls)?;
        let fails = MemDisk::new(Vec::new(rt.alloc()), failing);
        let (acked, done) = crashes(&rt, rt.alloc(), stops)?;
        assert!(&rt; crashes(&rt, rt.alloc(), fails)?.1 == done);
        between = between || acked == 1;
        if done {
            assert!(&rt; between, "no stop came between the commits");
            return Ok(());
        }
    }
    Err("two commits took more than 100 calls".into())
}
