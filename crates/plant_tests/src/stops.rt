// Sessions whose devices all stop at the same call, and what a crash then leaves.
use crate::plants::{NO_FAULT, text, told, words};
use byte_io::{MemFiles, MemSink, MemSource};
use disk_model::{MemStore, Pick, Store};
use plant_run::{OpenPasses, Outcome, run};
use plant_status::Status;
use std::alloc::Global;
use std::sync::Wait;
use std::test::Fail;
use std::thread::Threads;

// Names and texts of files. A bar represents a line feed. There are two tags, a group of one of them, and two sessions.
const FILES: &str = "\
base.toml: [[tag]]|name = \"T1\"|exc_dev = 0|exc_max = 1000000|comp_dev = 0|comp_min = 0|comp_max = 1000000|\
[[tag]]|name = \"S1\"|exc_dev = 0|exc_max = 1000000|comp_dev = 2|comp_min = 0|comp_max = 1000000|step = true|\
[[group]]|name = \"g\"|tags = [\"T1\"]|start = 0|period = 1000|[[group.calc]]|name = \"m\"|formula = \"avg('T1')\"|
first.toml: [[collector]]|file = \"first.csv\"|
second.toml: [[collector]]|file = \"second.csv\"|
asks.toml: [[reader]]|file = \"asks.csv\"|
none.toml: |
first.csv: T1,0,0|S1,0,10|T1,3000,0|S1,10,11|
second.csv: T1,4000,9|S1,20,15|T1,1500,60|S1,30,14|
asks.csv: row,g,m,0|row,g,m,1|row,g,m,2|snap,T1|snap,S1|";

// How many values of a tag there are after the crash, and what is then printed of the tag and its group.
const LINES: &str = "\
2 reply 1 1 none|reply 1 2 none|reply 1 3 none|reply 1 4 snap 2 0,0|
4 reply 1 1 20|reply 1 2 50|reply 1 3 20|reply 1 4 snap 4 4000,9|";

const STEPS: &str = "\
2 reply 1 5 snap 2 10,11|
4 reply 1 5 snap 4 30,14|";

// More calls than the devices of the second session have.
const MOST: u64 = 96;

// Returns the files.
fn files(alloc: Global) -> Result<MemFiles, Fail> {
    let mut files = Vec::new(alloc);
    for row in FILES.lines() {
        let (name, field) = row.split_once(": ").ok_or("a file")?;
        let text = text(alloc, field)?.into_bytes();
        files.push((String::from_str(alloc, name)?, text))?;
    }
    Ok(MemFiles::new(files, Vec::new(alloc)))
}

// Runs a line of words over a store.
fn ended<R: Threads + Wait + Sync>(
    rt: &R,
    alloc: Global,
    line: &str,
    store: &mut MemStore,
) -> Result<Outcome, Fail> {
    let words = words(alloc, line)?;
    let mut input = MemSource::new(Vec::new(alloc), Vec::new(alloc));
    let mut files = files(alloc)?;
    let mut out = MemSink::new(alloc, Vec::new(alloc));
    Ok(run(
        rt,
        alloc,
        &words,
        &mut input,
        &mut files,
        &mut out,
        store,
        &mut OpenPasses,
    ))
}

// Returns a store of what a crash leaves of the devices of this store.
fn crashed(alloc: Global, store: &mut MemStore, pick: Pick) -> Result<MemStore, Fail> {
    let mut devices = Vec::new(alloc);
    for name in "T1.tag S1.tag g.grp".split(' ') {
        let Ok(dev) = store.device(name) else {
            return Err("a device".into());
        };
        let left = dev.crash(pick).map_err(|_| "memory")?;
        store.give_back(name, dev);
        devices.push((String::from_str(alloc, name)?, left))?;
    }
    Ok(MemStore::new(devices))
}

// Returns whether one of these rows has at least `least` values and its text is printed.
fn is_told(rows: &str, least: u64, printed: &str, alloc: Global) -> Result<bool, Fail> {
    for row in rows.lines() {
        let (count, told) = row.split_once(' ').ok_or("row")?;
        let count = count.parse::<u64>().map_err(|_| "count")?;
        if count >= least && printed.contains(text(alloc, told)?.as_str()) {
            return Ok(true);
        }
    }
    Ok(false)
}

// Returns whether this is the save of one of the two sessions. If the second session is done, it has to be the second
// one's.
fn is_a_save(version: &str, done: bool) -> bool {
    version == "true [3]" || (!done && version == "true [1]")
}

// Returns whether a session is done, and how many records of its tag its group had in the save that it was opened with.
fn saved(alloc: Global, opened: &Outcome) -> Result<String, Fail> {
    match &opened.session {
        Some(session) if session.groups.len() == 1 => {
            let versions = &session.groups[0].opening.versions;
            Ok(format!(in alloc; "{} {:?}", opened.status == Status::Done, versions)?)
        }
        _ => Err("no group".into()),
    }
}

// Returns how many values of each tag are acknowledged. If no session was held, there are the two of the first session.
fn acknowledged(ended: &Outcome) -> (u64, u64) {
    match &ended.session {
        Some(session) if session.tags.len() == 2 => (session.tags[0].acked, session.tags[1].acked),
        _ => (2, 2),
    }
}

// Runs the second session on devices that stop after so many calls. Returns whether it is done, which means that no
// call was stopped.
//
// It opens again whatever the crash leaves. Each tag must have a first part of its values, and all acknowledged ones
// must be in it. The group's rows must be those computed from scratch. The group's version must be the one saved last,
// or the one being saved.
fn stopped_at<R: Threads + Wait + Sync>(rt: &R, alloc: Global, most: u64) -> Result<bool, Fail> {
    let mut store = MemStore::new(Vec::new(alloc));
    ended(rt, alloc, "run base.toml first.toml", &mut store)?;
    store.stop_after(most).map_err(|_| "memory")?;
    let outcome = ended(rt, alloc, "run base.toml second.toml", &mut store)?;
    let done = outcome.status == Status::Done;
    let (lines, steps) = acknowledged(&outcome);
    for pick in [Pick::Old, Pick::New, Pick::Fill(0xa5), Pick::Fill(0)] {
        let mut left = crashed(alloc, &mut store, pick)?;
        let mut files = files(alloc)?;
        let line = "historian trend base.toml asks.toml";
        let told = told(rt, alloc, line, b"", &mut files, &mut left, NO_FAULT)?;
        let printed = told.as_str();
        if !is_told(LINES, lines, printed, alloc)? || !is_told(STEPS, steps, printed, alloc)? {
            return Err("what is left is not told".into());
        }
        let opened = ended(rt, alloc, "run base.toml none.toml", &mut left)?;
        if !is_a_save(saved(alloc, &opened)?.as_str(), done) {
            return Err("another version was saved".into());
        }
    }
    Ok(done)
}

#[test]
fn devices_that_stop_together_keep_what_is_acknowledged(rt: HostRuntime) -> Result<(), Fail> {
    let mut whole = 0u64;
    for most in 0..MOST {
        if stopped_at(&rt, rt.alloc(), most)? {
            whole = whole.saturating_add(1);
        }
    }
    assert!(rt; 1 <= whole && whole < MOST);
    Ok(())
}
