// Sessions whose workers are held or stopped at their steps.
use crate::gates::{AtSync, GateStore, Signs};
use crate::plants;
use crate::plants::files_of;
use byte_io::MemFiles;
use disk_model::{MemStore, Store};
use plant_run::{OpenPasses, Outcome, Passes, Status};
use std::alloc::Global;
use std::fmt::Write;
use std::sync::Wait;
use std::sync::atomic::AtomicU64;
use std::test::Fail;
use std::thread::Threads;
use tag_cell::Entry;
use test_rig::{Gates, PATIENT, Shut};

// Names and texts of files. A bar represents a line feed.
const FILES: &str = "\
base.toml: [[tag]]|name = \"T1\"|exc_dev = 0|exc_max = 1000000|comp_dev = 0|comp_min = 0|comp_max = 1000000|
four.toml: [[collector]]|file = \"same.csv\"|[[collector]]|file = \"same.csv\"|[[collector]]|file = \"same.csv\"|\
[[collector]]|file = \"same.csv\"|
snap.toml: [[collector]]|file = \"rising.csv\"|[[reader]]|file = \"snap.csv\"|
snap.csv: snap,T1|at,T1,0|
group.toml: [[tag]]|name = \"T1\"|exc_dev = 0|exc_max = 1000000|comp_dev = 0|comp_min = 0|comp_max = 1000000|\
[[group]]|name = \"g\"|tags = [\"T1\"]|start = 0|period = 1000|[[group.calc]]|name = \"m\"|formula = \"avg('T1')\"|
each.toml: [[collector]]|file = \"feed.csv\"|[[reader]]|file = \"asks.csv\"|[[refresher]]|group = \"g\"|turns = 1|
feed.csv: T1,0,0|T1,3000,0|T1,4000,9|T1,1500,60|
asks.csv: row,g,m,3|at,T1,0|";

// Returns these files, one file with the same row a hundred times, and one with 65 rising rows.
fn files(alloc: Global) -> Result<MemFiles, Fail> {
    let mut files = files_of(alloc, FILES)?;
    let same = "T1,0,5\n".repeat(alloc, 100)?;
    files.push((String::from_str(alloc, "same.csv")?, same.into_bytes()))?;
    let mut rising = String::new(alloc);
    for t in 0..65 {
        write!(rising, "T1,{t},{t}\n")?;
    }
    files.push((String::from_str(alloc, "rising.csv")?, rising.into_bytes()))?;
    Ok(MemFiles::new(files, Vec::new(alloc)))
}

// Runs words over a store with these passes, and returns how the run ended and what it printed.
fn ended<R: Threads + Wait + Sync, S: Store, P: Passes>(
    rt: &R,
    alloc: Global,
    line: &str,
    store: &mut S,
    passes: &mut P,
) -> Result<(Outcome, String), Fail> {
    plants::ended(rt, alloc, line, files(alloc)?, store, passes)
}

// Returns the numbers of the rows that the first tag of a session took, in the order of its tape.
fn taken_rows(alloc: Global, ended: &Outcome) -> Result<Vec<u64>, Fail> {
    let session = ended.session.as_ref().ok_or("no session")?;
    let tag = session.tags.first().ok_or("no tag")?;
    let mut rows = Vec::new(alloc);
    for entry in tag.tape.iter() {
        if let Entry::Take { row, .. } = entry {
            rows.push(*row)?;
        }
    }
    Ok(rows)
}

#[test]
fn four_held_collectors_take_row_by_row(rt: HostRuntime) -> Result<(), Fail> {
    let alloc = rt.alloc();
    let asked = AtomicU64::new(0);
    let mut passes = Gates {
        asked: &asked,
        workers: 4,
        looks: PATIENT,
        stops: 0,
    };
    let mut store = MemStore::new(Vec::new(alloc));
    let (outcome, printed) = ended(
        &rt,
        alloc,
        "run base.toml four.toml",
        &mut store,
        &mut passes,
    )?;
    assert_eq!(rt; outcome.status, Status::Done);
    assert_eq!(rt;
        printed.as_str(),
        "tag T1 taken=400 records=400 kept=1 late=399 held=0,5\n"
    );
    let rows = taken_rows(alloc, &outcome)?;
    assert_eq!(rt; rows.len(), 400);
    assert!(rt; rows.is_sorted());
    Ok(())
}

#[test]
fn one_of_each_worker_beside_the_others(rt: HostRuntime) -> Result<(), Fail> {
    let alloc = rt.alloc();
    let mut store = MemStore::new(Vec::new(alloc));
    let line = "run group.toml each.toml";
    let (outcome, printed) = ended(&rt, alloc, line, &mut store, &mut OpenPasses)?;
    assert_eq!(rt; outcome.status, Status::Done);
    let printed = printed.as_str();
    let first = "tag T1 taken=4 records=3 kept=2 late=1 held=4000,9\nreply 1 1 none\nreply 1 2 ";
    assert!(rt; printed.starts_with(first));
    assert!(rt; printed.contains("\ngroup g windows=3 refreshes=2 evals="));
    assert!(rt; printed.ends_with("\ncalc g m 2 20\n"));
    Ok(())
}

#[test]
fn a_stopped_worker_is_told(rt: HostRuntime) -> Result<(), Fail> {
    let alloc = rt.alloc();
    let mut passes = Shut { stops: 0 };
    let mut store = MemStore::new(Vec::new(alloc));
    let (outcome, printed) = ended(
        &rt,
        alloc,
        "run base.toml four.toml",
        &mut store,
        &mut passes,
    )?;
    assert_eq!(rt; outcome.status, Status::Halted { worker: 0 });
    assert_eq!(rt; printed.as_str(), "fault: halted 0\n");
    assert_eq!(rt; passes.stops, 1);
    Ok(())
}

#[test]
fn a_snapshot_is_looked_at_while_its_tag_is_in_a_sync(rt: HostRuntime) -> Result<(), Fail> {
    let alloc = rt.alloc();
    let signs = Signs {
        device: AtomicU64::new(0),
        reader: AtomicU64::new(0),
    };
    let mut passes = AtSync {
        signs: &signs,
        stops: 0,
    };
    let mut store = GateStore {
        store: MemStore::new(Vec::new(alloc)),
        signs: &signs,
    };
    let (outcome, printed) = ended(
        &rt,
        alloc,
        "run base.toml snap.toml",
        &mut store,
        &mut passes,
    )?;
    assert_eq!(rt; outcome.status, Status::Done);
    assert_eq!(rt;
        printed.as_str(),
        "tag T1 taken=65 records=1 kept=1 late=0 held=64,64\nreply 1 1 snap 64 63,63\nreply 1 2 exact 0\n"
    );
    Ok(())
}
