// Runs of `pack`, and words that are refused.
use crate::plants::{NO_FAULT, number, text, told};
use byte_io::{MemFiles, MemSink, MemSource};
use disk_model::MemStore;
use plant_run::{OpenPasses, run_args};
use std::alloc::Global;
use std::io;
use std::process::ExitCode;
use std::sync::Wait;
use std::test::Fail;
use std::thread::Threads;

// The words, the input after `<`, and then the exit code and what is printed. A bar represents a line feed, and a caret
// a carriage return. The lines come in this order: which values are kept; input at the limits; lines
// that are no points; words that are refused.
const RUNS: &str = "\
pack 0 1000000 0 0 1000000 < => 0
pack 0 1000000 0 0 1000000 < 0,5| => 0 kept,0,5|held,0,5|
pack 0 1000000 1 0 1000000 < 0,0|1,0|2,3|3,0| => 0 kept,0,0|kept,1,0|kept,2,3|held,3,0|
pack 0 1000000 0 0 1000000 < 0,0|10,10|20,20|30,31| => 0 kept,0,0|kept,20,20|held,30,31|
pack 0 1000000 1 0 1000000 < 0,0|10,1|20,0| => 0 kept,0,0|held,20,0|
pack 0 1000000 1 0 1000000 < 0,0|1,1|2,1|3,2| => 0 kept,0,0|held,3,2|
pack 2 1000000 0 0 1000000 < 0,10|1,11|2,12|3,20| => 0 kept,0,10|kept,2,12|held,3,20|
pack 2 1000000 0 0 1000000 < 0,0|1,2|2,-2|3,10| => 0 kept,0,0|kept,2,-2|held,3,10|
pack 0 1000000 0 5 1000000 < 0,0|1,10|2,0| => 0 kept,0,0|held,2,0|
pack 0 1000000 0 0 10 < 0,0|6,6|12,12| => 0 kept,0,0|kept,6,6|held,12,12|
pack 5 1000000 0 0 1000000 < 0,0|20,1|15,9| => 0 kept,0,0|late,15,9|held,20,1|
pack 5 1000000 0 0 1000000 < 10,0|20,1|15,9|5,3| => 0 kept,10,0|late,15,9|late,5,3|held,20,1|
pack 0 1000000 0 0 1000000 < 0,0|10,5|10,7|20,0| => 0 kept,0,0|late,10,7|kept,10,5|held,20,0|
pack 5 600000 10 0 28800000 < 1700000000000,1200|1700000060000,1203|1700000120000,1204|1700000180000,1212|\
1700000240000,1213|1700000300000,1240|1700000360000,1238| => \
0 kept,1700000000000,1200|kept,1700000240000,1213|held,1700000300000,1240|
pack 0 1000000 0 0 1000000 < 0,-1000000000000000|253402300799999,1000000000000000| => \
0 kept,0,-1000000000000000|held,253402300799999,1000000000000000|
pack -0 0001000000 00 0 1000000 < 0000000007,-0005^|8,00000000000000000001 => 0 kept,7,-5|held,8,1|
pack 1000000000000000 253402300799999 1000000000000000 253402300799999 253402300799999 < => 0
pack 0 1000000 0 0 1000000 < 1 => 4 fault: row input 1 fields|
pack 0 1000000 0 0 1000000 < 0,0||1,1| => 4 fault: row input 2 fields|
pack 0 1000000 0 0 1000000 < 1, 2| => 4 fault: row input 1 number|
pack 0 1000000 0 0 1000000 < 0,0|1,2^ => 4 fault: row input 2 number|
pack 0 1000000 0 0 1000000 < 253402300800000,x| => 4 fault: row input 1 number|
pack 0 1000000 0 0 1000000 < 0,-1000000000000000|253402300799999,1000000000000000|253402300799999,1000000000000001| => \
4 fault: row input 3 range|
pack 0 < 0,0| => 2 fault: words|
--help < => 2 fault: words|
pack 0 1000000 0 0 < => 2 fault: words|
pack 0 1000000 0 0 1000000 0 < => 2 fault: words|
Pack 0 1000000 0 0 1000000 < => 2 fault: words|
pack -1 1000000 0 0 1000000 < => 2 fault: words|
pack 1000000000000001 1000000 0 0 1000000 < => 2 fault: words|
pack 0 253402300800000 0 0 1000000 < => 2 fault: words|
pack 0 1000000 1000000000000001 0 1000000 < => 2 fault: words|
pack 0 1000000 0 253402300800000 1000000 < => 2 fault: words|
pack 0 1000000 0 0 253402300800000 < => 2 fault: words|
pack 0 1e6 0 0 1000000 < => 2 fault: words|
check < => 2 fault: words|
check base.toml plan.toml < => 2 fault: words|
trend base.toml < => 2 fault: words|
trend base.toml plan.toml plan.toml < => 2 fault: words|";

// The numbers of the read and of the write that fail, for four lines that are packed, and for words that are refused.
const FAULTS: &str = "\
9 9 pack 0 1000000 1 0 1000000 => 0 kept,0,0|kept,1,0|kept,2,3|held,3,0|
0 9 pack 0 1000000 1 0 1000000 => 5 fault: read input|
1 9 pack 0 1000000 1 0 1000000 => 5 fault: read input|
9 0 pack 0 1000000 1 0 1000000 => 6
9 0 pack 0 => 2";

// How often a line is read, what is read after that, and the end of what is printed.
const LONG: &str = "\
1048575 => |late,0,0|held,0,0|
1048576 => 10 fault: limit records 1048575|
1048576 x => 4 fault: row input 1048577 fields|
4000001 => 10 fault: limit rows 4000001|";

// Runs a line on an input without any file or device, and returns its exit code and what it prints.
fn alone<R: Threads + Wait + Sync>(
    rt: &R,
    alloc: Global,
    line: &str,
    input: &[u8],
    fail: (u64, u64),
) -> Result<String, Fail> {
    let mut files = MemFiles::new(Vec::new(alloc), Vec::new(alloc));
    let mut store = MemStore::new(Vec::new(alloc));
    let line = format!(in alloc; "historian {line}")?;
    told(
        rt,
        alloc,
        line.as_str(),
        input,
        &mut files,
        &mut store,
        fail,
    )
}

#[test]
fn values_are_packed(rt: HostRuntime) -> Result<(), Fail> {
    let alloc = rt.alloc();
    for row in RUNS.lines() {
        let (given, want) = row.split_once(" => ").ok_or("row")?;
        let (line, input) = given.split_once(" <").ok_or("input")?;
        let input = text(alloc, input.trim_start())?;
        let told = alone(&rt, alloc, line, input.as_bytes(), NO_FAULT)?;
        assert_eq!(rt;
            told.as_str().trim_end_matches(' '),
            text(alloc, want)?.as_str(),
            "{given}"
        );
    }
    Ok(())
}

#[test]
fn a_call_that_fails_is_a_fault(rt: HostRuntime) -> Result<(), Fail> {
    let alloc = rt.alloc();
    for row in FAULTS.lines() {
        let (given, want) = row.split_once(" => ").ok_or("row")?;
        let (read, rest) = given.split_once(' ').ok_or("read")?;
        let (write, line) = rest.split_once(' ').ok_or("write")?;
        let fail = (number(&rt, read), number(&rt, write));
        let told = alone(&rt, alloc, line, b"0,0\n1,0\n2,3\n3,0\n", fail)?;
        assert_eq!(rt;
            told.as_str().trim_end_matches(' '),
            text(alloc, want)?.as_str(),
            "{given}"
        );
    }
    Ok(())
}

#[test]
fn long_input_has_limits(rt: HostRuntime) -> Result<(), Fail> {
    let alloc = rt.alloc();
    for row in LONG.lines() {
        let (given, want) = row.split_once(" => ").ok_or("row")?;
        let (count, last) = given.split_once(' ').unwrap_or((given, ""));
        let mut input = "0,0\n"
            .repeat(alloc, number(&rt, count) as usize)?
            .into_bytes();
        input.extend_from_slice(last.as_bytes())?;
        let told = alone(
            &rt,
            alloc,
            "pack 0 1000000 1 0 1000000",
            input.as_slice(),
            NO_FAULT,
        )?;
        let want = text(alloc, want)?;
        assert!(rt; told.as_str().ends_with(want.as_str()), "{given}");
    }
    Ok(())
}

#[test]
fn input_has_so_many_bytes_at_most(rt: HostRuntime) -> Result<(), Fail> {
    let mut input = Vec::with_capacity(rt.alloc(), 67_108_865)?;
    input.resize(67_108_865, b'0')?;
    let told = alone(
        &rt,
        rt.alloc(),
        "pack 0 1000000 1 0 1000000",
        input.as_slice(),
        NO_FAULT,
    )?;
    assert_eq!(rt; told.as_str(), "10 fault: limit file_bytes 67108865\n");
    Ok(())
}

#[test]
fn arguments_that_are_no_text_are_told(rt: HostRuntime) -> Result<(), Fail> {
    let alloc = rt.alloc();
    for (kind, want, line) in [
        (io::ErrorKind::InvalidData, 2, "fault: words\n"),
        (io::ErrorKind::OutOfMemory, 13, "fault: memory\n"),
    ] {
        let mut input = MemSource::new(Vec::new(alloc), Vec::new(alloc));
        let mut files = MemFiles::new(Vec::new(alloc), Vec::new(alloc));
        let mut out = MemSink::new(alloc, Vec::new(alloc));
        let mut store = MemStore::new(Vec::new(alloc));
        let args = Err(io::Error::from(kind));
        let mut passes = OpenPasses;
        let code = run_args(
            &rt,
            alloc,
            args,
            &mut input,
            &mut files,
            &mut out,
            &mut store,
            &mut passes,
        );
        assert_eq!(rt; code, ExitCode::from(want), "{line}");
        assert_eq!(rt; out.bytes(), line.as_bytes());
    }
    Ok(())
}
