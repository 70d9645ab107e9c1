// The bytes of a log's device; and devices that are read, damaged or refused.
use commit_log::{Log, LogAcked, LogNo, LogRow, Point, open_log};
use disk_model::{Disk, MemDisk};
use std::alloc::Global;
use std::fmt::Write;
use std::process::Abort;
use std::test::Fail;
use trend_num::in_range;

/// The text of a plant with one tag: the tag's name.
pub const PLANT: &[u8; 2] = b"T1";

/// Rows to put: for each its tag, its collector, its row in the file, its time and its value.
pub const ROWS: &str = "0 0 1 0 5\n0 1 1 1500 -2\n0 0 2 3000 60";

// A new device of that plant: the gate, the letters, the length of the text, the text, and the gate of the first block.
const NEW: &str = "a55048433100000002543100";

// The device after a commit of these rows. Its block has the number of the first row, how many rows there are, the
// rows, and the next gate.
const SAVED: &str = "a550484331000000025431a5000000000000000000000003\
0000000000000000000000000000000100000000000000000000000000000005\
0000000000000001000000000000000100000000000005dcfffffffffffffffe\
000000000000000000000000000000020000000000000bb8000000000000003c00";

// A place on that device, the value that its byte gets, and the text of the plant. After the arrow comes what opening
// returns: how many rows there are, or why it is refused.
const DEVICES: &str = "\
0 165 T1 => 3 rows
0 0 T1 => 0 rows
0 165 T2 => other 1
0 165 T => other 1
0 165 T1x => other 2
0 165 S1x => other 0
1 81 T1 => damaged 1 81
8 255 T1 => damaged 121 none
11 0 T1 => 0 rows
19 1 T1 => damaged 12 0
23 0 T1 => damaged 20 0
23 4 T1 => damaged 121 none
23 2 T1 => 2 rows
27 1 T1 => damaged 24 0
40 1 T1 => damaged 40 1
48 1 T1 => damaged 48 1
120 165 T1 => damaged 121 none";

// Returns the row of a line.
fn row_of(line: &str) -> Option<LogRow> {
    let mut fields = line.split(' ');
    Some(LogRow {
        tag: fields.next()?.parse().ok()?,
        collector: fields.next()?.parse().ok()?,
        row: fields.next()?.parse().ok()?,
        point: Point {
            t: fields.next()?.parse().ok()?,
            v: fields.next()?.parse().ok()?,
        },
    })
}

/// Puts the rows of these lines.
pub fn put_all(log: &mut Log<MemDisk>, rows: &str) -> Result<(), Fail> {
    for line in rows.lines() {
        let row = row_of(line).ok_or("a row")?;
        if !in_range(row.point) {
            return Err("out of range".into());
        }
        log.put(row).map_err(|_| "refused")?;
    }
    Ok(())
}

// Returns these bytes in hexadecimal digits.
fn hex(alloc: Global, bytes: &[u8]) -> Result<String, Fail> {
    let mut text = String::new(alloc);
    for byte in bytes {
        write!(text, "{byte:02x}")?;
    }
    Ok(text)
}

// Returns a log on a new device.
fn new_log(alloc: Global) -> Result<Log<MemDisk>, Fail> {
    let dev = MemDisk::new(Vec::new(alloc), Vec::new(alloc));
    match open_log(alloc, dev, PLANT, 1, 10) {
        Ok(log) => Ok(log),
        Err(_) => Err("not opened".into()),
    }
}

#[test]
fn a_new_device_has_the_text_of_its_plant(rt: HostRuntime) -> Result<(), Fail> {
    let alloc = rt.alloc();
    let (dev, history) = new_log(alloc)?.into_history();
    assert_eq!(rt; hex(alloc, dev.bytes())?.as_str(), NEW);
    assert_eq!(rt; (history.opening.len(), history.acked), (0, 0));
    Ok(())
}

#[test]
fn a_commit_writes_its_rows_as_one_block(rt: HostRuntime) -> Result<(), Fail> {
    let alloc = rt.alloc();
    let mut log = new_log(alloc)?;
    let opened = log.moment();
    put_all(&mut log, ROWS)?;
    assert_eq!(rt;
        log.commit(),
        Ok(LogAcked {
            acked: 3,
            waiting: 0
        })
    );
    assert_eq!(rt;
        log.commit(),
        Ok(LogAcked {
            acked: 3,
            waiting: 0
        })
    );
    let (dev, history) = log.into_history();
    assert_eq!(rt; hex(alloc, dev.bytes())?.as_str(), SAVED);
    assert_eq!(rt; dev.clock().saturating_sub(opened), 4);
    assert_eq!(rt; history.tape.len(), 4);
    Ok(())
}

// Returns the bytes of a device after a commit of these rows.
fn saved(alloc: Global) -> Result<Vec<u8>, Fail> {
    let mut log = new_log(alloc)?;
    put_all(&mut log, ROWS)?;
    log.commit().map_err(|_| "not acknowledged")?;
    let (dev, _) = log.into_history();
    Ok(Vec::from_slice(alloc, dev.bytes())?)
}

// Opens a device as the log of a plant, and returns the result as a text.
fn opened(alloc: Global, mut dev: MemDisk, plant: &str) -> Result<String, Fail> {
    dev.forget_name();
    let text = match open_log(alloc, dev, plant.as_bytes(), 1, 10) {
        Ok(log) => format!(in alloc; "{} rows", log.opening().len())?,
        Err(fail) => match fail.why {
            LogNo::OtherPlant { at } => format!(in alloc; "other {at}")?,
            LogNo::Damaged { at, byte: None } => format!(in alloc; "damaged {at} none")?,
            LogNo::Damaged {
                at,
                byte: Some(byte),
            } => format!(in alloc; "damaged {at} {byte}")?,
            LogNo::TooMany { rows } => format!(in alloc; "too many {rows}")?,
            LogNo::DeviceFault | LogNo::WantOfMemory => format!(in alloc; "not read")?,
        },
    };
    Ok(text)
}

// Opens the device of a line, and compares the result.
fn follow(rt: &impl Abort, alloc: Global, line: &str) -> Result<(), Fail> {
    let (given, want) = line.split_once(" => ").ok_or("an arrow")?;
    let (at, rest) = given.split_once(' ').ok_or("a byte")?;
    let (byte, plant) = rest.split_once(' ').ok_or("a plant")?;
    let at = at.parse::<usize>().map_err(|_| "a place")?;
    let byte = byte.parse::<u8>().map_err(|_| "a value")?;
    let mut bytes = saved(alloc)?;
    if at < bytes.len() {
        bytes[at] = byte;
    }
    let dev = MemDisk::new(bytes, Vec::new(alloc));
    assert_eq!(rt; opened(alloc, dev, plant)?.as_str(), want, "{line}");
    Ok(())
}

#[test]
fn a_device_is_read_or_refused(rt: HostRuntime) -> Result<(), Fail> {
    for line in DEVICES.lines() {
        follow(&rt, rt.alloc(), line)?;
    }
    Ok(())
}
