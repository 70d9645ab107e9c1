// Sessions of a small plant, in each of which another call fails.
use crate::plants::{NO_FAULT, only, text, told};
use byte_io::MemFiles;
use disk_model::MemStore;
use std::alloc::Global;
use std::sync::Wait;
use std::test::Fail;
use std::thread::Threads;

// Names and texts of files. A bar represents a line feed.
const FILES: &str = "\
base.toml: [[tag]]|name = \"T1\"|exc_dev = 0|exc_max = 1000000|comp_dev = 0|comp_min = 0|comp_max = 1000000|\
[[group]]|name = \"g\"|tags = [\"T1\"]|start = 0|period = 1000|[[group.calc]]|name = \"m\"|formula = \"avg('T1')\"|
plan.toml: [[collector]]|file = \"1.csv\"|[[reader]]|file = \"2.csv\"|
1.csv: T1,0,0|T1,3000,0|T1,4000,9|T1,1500,60|
2.csv: row,g,m,3|";

// The exit code and what is printed when the first read fails, when the second read fails, and so on until none fails.
const READS: &str = "\
5 fault: read base|5 fault: read plan|5 fault: read collector 1|5 fault: read reader 1|\
0 tag T1 taken=4 records=3 kept=2 late=1 held=4000,9|reply 1 1 none|group g windows=3 refreshes=1 evals=3|calc g m 2 20|";

// The same for writes.
const WRITES: &str = "\
6 0 tag T1 taken=4 records=3 kept=2 late=1 held=4000,9|reply 1 1 none|group g windows=3 refreshes=1 evals=3|calc g m 2 20|";

// More calls than a session makes.
const MOST: u64 = 64;

// Runs a session over new devices. The read of a file and the write of the output with these numbers fail. Returns the
// exit code and what is printed.
fn ended<R: Threads + Wait + Sync>(
    rt: &R,
    alloc: Global,
    read: u64,
    write: u64,
) -> Result<String, Fail> {
    let mut files = Vec::new(alloc);
    for row in FILES.lines() {
        let (name, field) = row.split_once(": ").ok_or("a file")?;
        files.push((
            String::from_str(alloc, name)?,
            text(alloc, field)?.into_bytes(),
        ))?;
    }
    let mut files = MemFiles::new(files, only(alloc, read)?);
    let mut store = MemStore::new(Vec::new(alloc));
    let line = "historian run base.toml plan.toml";
    let fail = (NO_FAULT.0, write);
    told(rt, alloc, line, b"", &mut files, &mut store, fail)
}

// Returns what the session prints when the read or the write of each number from 0 on fails, until none does. Equal
// texts in a row appear once.
fn told_in_turn<R: Threads + Wait + Sync>(
    rt: &R,
    alloc: Global,
    reads: bool,
) -> Result<String, Fail> {
    let mut all = String::new(alloc);
    let mut last = String::new(alloc);
    for call in 0..MOST {
        let (read, write) = if reads {
            (call, NO_FAULT.1)
        } else {
            (NO_FAULT.0, call)
        };
        let told = ended(rt, alloc, read, write)?;
        if told.as_str() != last.as_str() {
            all.push_str(told.as_str())?;
        }
        if told.as_str().starts_with("0 ") {
            return Ok(all);
        }
        last = told;
    }
    Err("each call fails".into())
}

#[test]
fn a_read_that_fails_is_told_of_its_file(rt: HostRuntime) -> Result<(), Fail> {
    let alloc = rt.alloc();
    let told = told_in_turn(&rt, alloc, true)?;
    assert_eq!(rt; told.as_str(), text(alloc, READS)?.as_str());
    Ok(())
}

#[test]
fn a_write_that_fails_is_told_by_the_status(rt: HostRuntime) -> Result<(), Fail> {
    let alloc = rt.alloc();
    let told = told_in_turn(&rt, alloc, false)?;
    assert_eq!(rt; told.as_str(), text(alloc, WRITES)?.as_str());
    Ok(())
}
