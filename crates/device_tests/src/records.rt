// Records and summaries, byte by byte.
use crate::spelled::{change, number, point, rows_tell, same};
use archive_file::{
    DeviceFault, Kind, Point, PutNo, Rec, ScanNo, Summary, Tuning, put_records, read_records,
    rec_bytes, rec_of, summary_bytes, summary_of,
};
use disk_model::{Failed, MemDisk, WantOfMemory};
use event_queue::LaneNo;
use std::alloc::{AllocError, Global};
use std::fmt::Write;
use std::process::Abort;
use std::test::Fail;

// A record and its bytes.
const RECORDS: &str = "\
kept 0,5 => 4b00000000000000000000000000000005
late 1500,60 => 4c00000000000005dc000000000000003c
kept 253402300799999,-2 => 4b0000e677d21fdbfffffffffffffffffe
late 1,-1000000000000000 => 4c0000000000000001fffc72815b398000";

// The call that fails, and what is changed of a device of "abc", (0,5) kept and (1500,60) late. Then comes what is read
// of it: both records; a fault; an unknown kind, a time past the year 9999, a value that is too large.
const READS: &str = "\
9  => Ok(2)
0  => Err(DeviceFault)
1  => Err(DeviceFault)
9 20=77 => Err(Damaged { at: 20, byte: Some(77) })
9 23=230 24=119 25=210 26=31 27=220 28=0 => Err(Damaged { at: 21, byte: Some(0) })
9 30=3 31=141 32=126 33=164 34=198 35=128 36=1 => Err(Damaged { at: 29, byte: Some(0) })";

// Changes after which the bytes are no summary: no held point, no hinge, an unknown flag, a byte that should be zero.
// Then parts whose flag and bytes disagree, a time out of range, and a tuning without its flag.
const BROKEN: &str = "\
12=4
12=1
12=37
13=1
15=9
32=1
16=128
96=1";

// The summary of a tag that took (0,5).
fn summary(tuning: Option<Tuning>) -> Summary {
    let first = Some(Point { t: 0, v: 5 });
    Summary {
        taken: 1,
        records: 1,
        held: first,
        pending: None,
        hinge: first,
        upper: None,
        lower: None,
        tuning,
    }
}

// The bytes of a record, as text. They are read as the record again.
fn bytes_told(rt: &impl Abort, alloc: Global, given: &str) -> Result<String, Fail> {
    let (kind, field) = given.split_once(' ').ok_or("kind")?;
    let kind = if kind == "kept" {
        Kind::Kept
    } else {
        Kind::Late
    };
    let rec = Rec {
        kind,
        point: point(rt, field),
    };
    let bytes = rec_bytes(rec);
    assert!(rt; rec_of(&bytes) == Some(rec));
    in_digits(alloc, &bytes)
}

// Bytes in hexadecimal digits.
fn in_digits(alloc: Global, bytes: &[u8]) -> Result<String, Fail> {
    let mut told = String::new(alloc);
    for b in bytes {
        write!(told, "{b:02x}")?;
    }
    Ok(told)
}

#[test]
fn records_have_these_bytes(rt: HostRuntime) -> Result<(), Fail> {
    rows_tell(&rt, RECORDS, |given| bytes_told(&rt, rt.alloc(), given))
}

// The bytes of a summary: those of a tag that took (0,5), with these changes.
fn plain(rt: &impl Abort, changes: &str) -> [u8; 128] {
    let mut bytes = [0; 128];
    change(rt, &mut bytes, "7=1 11=1 12=5 31=5 63=5");
    change(rt, &mut bytes, changes);
    bytes
}

// Checks that a summary has these bytes, and that they are read as the summary again.
fn has_bytes(rt: &impl Abort, summary: &Summary, bytes: &[u8; 128]) {
    assert!(rt; summary_bytes(summary).as_slice() == bytes.as_slice());
    assert!(rt; summary_of(bytes).as_ref() == Some(summary));
}

#[test]
fn summaries_have_these_bytes(rt: HostRuntime) {
    has_bytes(&rt, &summary(None), &plain(&rt, ""));
    let tuning = Tuning {
        exc_dev: 0,
        exc_max: 1_000_000,
        comp_dev: 5,
        comp_min: 0,
        comp_max: 1_000_000,
    };
    let tuned = plain(&rt, "12=21 106=15 107=66 108=64 115=5 125=15 126=66 127=64");
    has_bytes(&rt, &summary(Some(tuning)), &tuned);
}

#[test]
fn broken_bytes_are_no_summary(rt: HostRuntime) {
    for changes in BROKEN.lines() {
        assert!(rt; summary_of(&plain(&rt, changes)).is_none(), "{changes}");
    }
}

// A device of "abc", (0,5) kept and (1500,60) late, with these changes. The call of this number fails.
fn changed(rt: &impl Abort, alloc: Global, fail: u64, changes: &str) -> Result<MemDisk, Fail> {
    let mut bytes = vec![in alloc; 0; 37]?;
    let two = "0=97 1=98 2=99 3=75 19=5 20=76 27=5 28=220 36=60";
    change(rt, bytes.as_mut_slice(), two);
    change(rt, bytes.as_mut_slice(), changes);
    Ok(MemDisk::new(bytes, vec![in alloc; fail]?))
}

// How many records are read of a device, or why not, as text.
fn read_told(rt: &impl Abort, alloc: Global, mut disk: MemDisk) -> Result<String, Fail> {
    assert!(rt; disk.bytes().len() == 37);
    match read_records(alloc, &mut disk, 3, 2) {
        Ok(recs) => Ok(format!(in alloc; "Ok({})", recs.len())?),
        Err(why) => Ok(format!(in alloc; "Err({why:?})")?),
    }
}

#[test]
fn the_first_bad_byte_is_told(rt: HostRuntime) -> Result<(), Fail> {
    rows_tell(&rt, READS, |given| {
        let (fail, changes) = given.split_once(' ').ok_or("call")?;
        let disk = changed(&rt, rt.alloc(), number(&rt, fail), changes)?;
        read_told(&rt, rt.alloc(), disk)
    })
}

// Records of both kinds, more than are read in one piece.
fn many(alloc: Global) -> Result<Vec<Rec>, AllocError> {
    let mut recs = Vec::new(alloc);
    for t in 0..3_900 {
        let kind = if t % 2 == 0 { Kind::Kept } else { Kind::Late };
        let point = Point { t, v: -7 };
        recs.push(Rec { kind, point })?;
    }
    Ok(recs)
}

// Whether a device reads as these records.
fn reads_as(alloc: Global, disk: &mut MemDisk, recs: &[Rec]) -> bool {
    match read_records(alloc, disk, 3, 3_900) {
        Ok(again) => again.as_slice() == recs,
        Err(_) => false,
    }
}

#[test]
fn records_are_written_and_read(rt: HostRuntime) -> Result<(), Fail> {
    let alloc = rt.alloc();
    let recs = many(alloc)?;
    let mut disk = MemDisk::new(b"abc".to_vec(alloc)?, Vec::new(alloc));
    assert!(rt; put_records(alloc, &mut disk, 3, &recs).is_ok());
    assert!(rt; reads_as(alloc, &mut disk, &recs));
    let missing = ScanNo::Damaged {
        at: 66_303,
        byte: None,
    };
    assert!(rt; read_records(alloc, &mut disk, 3, 3_901).err() == Some(missing));
    Ok(())
}

// The refusals, as texts.
fn refusals(alloc: Global) -> Result<String, Fail> {
    let damaged = ScanNo::Damaged { at: 7, byte: None };
    Ok(format!(in alloc;
        "{Failed}, {WantOfMemory}, {DeviceFault}, {damaged}, {}, {}",
        PutNo::WantOfMemory,
        LaneNo::LaneFull
    )?)
}

#[test]
fn refusals_have_texts(rt: HostRuntime) -> Result<(), Fail> {
    let want =
        "a call of a device failed, out of memory, a call of a device failed, damaged at 7, out of memory, the lane is full";
    same(&rt, refusals(rt.alloc())?.as_str(), want, "refusals");
    Ok(())
}
