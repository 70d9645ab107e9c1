// Runs of `drill`.
use crate::plants::{NO_FAULT, text, told};
use byte_io::MemFiles;
use disk_model::MemStore;
use std::alloc::Global;
use std::sync::Wait;
use std::test::Fail;
use std::thread::Threads;

// The words of a run, then its exit code and what it prints. A bar represents a line feed.
const DRILLS: &str = "\
drill 1 1 4 => 0 tag D0 taken=4 records=2 kept=2 late=0 held=2212,-5|group all windows=3 refreshes=2 evals=6|\
calc all mean 2 -15|calc all spread 2 12|
drill 0 1 0 => 0 tag D0 taken=0 records=0 kept=0 late=0 held=none|group all windows=0 refreshes=2 evals=0|\
calc all mean none|calc all spread none|
drill 1 0 1 => 2 fault: words|
drill 1 65 1 => 2 fault: words|
drill 1 64 62501 => 2 fault: words|
drill 2147483648 1 1 => 2 fault: words|
drill -1 1 1 => 2 fault: words|
drill 1 1 => 2 fault: words|
drill 1 1 1 1 => 2 fault: words|";

// What eight collectors of 20,000 events leave. The expected text is from separate plain code, written from
// docs/FORMATS.md and docs/DEFINITIONS.md, which is not kept here.
const LARGE: &str = "\
0 tag D0 taken=20000 records=11444 kept=10194 late=1250 held=10265411,-1014|\
tag D1 taken=20000 records=11409 kept=10159 late=1250 held=10227445,2692|\
tag D2 taken=20000 records=11368 kept=10118 late=1250 held=10244963,-658|\
tag D3 taken=20000 records=11230 kept=9980 late=1250 held=10275029,1002|\
tag D4 taken=20000 records=11351 kept=10101 late=1250 held=10219816,725|\
tag D5 taken=20000 records=11268 kept=10018 late=1250 held=10213611,-253|\
tag D6 taken=20000 records=11380 kept=10130 late=1250 held=10233656,-276|\
tag D7 taken=20000 records=11440 kept=10190 late=1250 held=10297058,1465|\
group all windows=20423 refreshes=2 evals=40846|calc all mean 20422 -985|calc all spread 20422 14|";

// Runs a line without any file or device, and returns its exit code and what it prints.
fn drilled<R: Threads + Wait + Sync>(rt: &R, alloc: Global, line: &str) -> Result<String, Fail> {
    let mut files = MemFiles::new(Vec::new(alloc), Vec::new(alloc));
    let mut store = MemStore::new(Vec::new(alloc));
    let line = format!(in alloc; "historian {line}")?;
    told(
        rt,
        alloc,
        line.as_str(),
        b"",
        &mut files,
        &mut store,
        NO_FAULT,
    )
}

#[test]
fn generated_collectors_are_reported(rt: HostRuntime) -> Result<(), Fail> {
    let alloc = rt.alloc();
    for row in DRILLS.lines() {
        let (line, want) = row.split_once(" => ").ok_or("row")?;
        let told = drilled(&rt, alloc, line)?;
        assert_eq!(rt; told.as_str(), text(alloc, want)?.as_str(), "{line}");
    }
    Ok(())
}

#[test]
fn the_same_is_printed_at_each_run(rt: HostRuntime) -> Result<(), Fail> {
    let alloc = rt.alloc();
    let want = text(alloc, LARGE)?;
    for _ in 0..2 {
        let told = drilled(&rt, alloc, "drill 7 8 20000")?;
        assert_eq!(rt; told.as_str(), want.as_str());
    }
    Ok(())
}
