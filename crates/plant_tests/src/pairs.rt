// Sessions of two tags and two groups. One collector's file has rows of both tags in turn.

use crate::plants::{ended, files_of, only, text};
use byte_io::MemFiles;
use commit_log::LogTurn;
use disk_model::{MemDisk, MemStore};
use group_book::Turn;
use plant_run::{OpenPasses, Outcome, Pass, Passes, Status};
use std::alloc::Global;
use std::fmt::Write;
use std::sync::Wait;
use std::sync::atomic::{AtomicU64, Ordering};
use std::test::Fail;
use std::thread::Threads;
use tag_cell::Entry;
use test_rig::{Gates, PATIENT, comes};

// Names and texts of files. A bar represents a line feed. The first group has one tag, the second both.
const FILES: &str = "\
pair.toml: [[tag]]|name = \"T1\"|exc_dev = 0|exc_max = 1000000|comp_dev = 0|comp_min = 0|comp_max = 1000000|\
[[tag]]|name = \"T2\"|exc_dev = 0|exc_max = 1000000|comp_dev = 0|comp_min = 0|comp_max = 1000000|\
[[group]]|name = \"g1\"|tags = [\"T1\"]|start = 0|period = 1|[[group.calc]]|name = \"m\"|formula = \"high('T1')\"|\
[[group]]|name = \"g2\"|tags = [\"T2\", \"T1\"]|start = 0|period = 1|[[group.calc]]|name = \"n\"|\
formula = \"low('T2') - high('T1')\"|
feed.toml: [[collector]]|file = \"both.csv\"|
twice.toml: [[collector]]|file = \"both.csv\"|[[collector]]|file = \"both.csv\"|
turns.toml: [[collector]]|file = \"both.csv\"|[[collector]]|file = \"both.csv\"|\
[[refresher]]|group = \"g1\"|turns = 1|[[refresher]]|group = \"g2\"|turns = 3|
each.toml: [[collector]]|file = \"both.csv\"|[[reader]]|file = \"first.csv\"|[[reader]]|file = \"second.csv\"|\
[[refresher]]|group = \"g1\"|turns = 1|[[refresher]]|group = \"g2\"|turns = 3|
first.csv: at,T1,5|at,T2,6|row,g1,m,99|row,g2,n,99|
second.csv: at,T2,7|row,g2,n,99|row,g1,m,99|at,T1,8|";

// What the session of `each.toml` prints.
const PRINTED: &str = "\
tag T1 taken=65 records=63 kept=63 late=0 held=63,3969|tag T2 taken=64 records=63 kept=63 late=0 held=63,-3969|\
reply 1 1 exact 25|reply 1 2 exact -36|reply 1 3 none|reply 1 4 none|\
reply 2 1 exact -49|reply 2 2 none|reply 2 3 none|reply 2 4 exact 64|\
group g1 windows=62 refreshes=2 evals=62|calc g1 m 61 3844|\
group g2 windows=62 refreshes=4 evals=62|calc g2 n 61 -7688|";

// What the tags and groups of that session did.
const DONE: &str = "\
committed 32 64 65 of 65, group 0 0-63 63-63, reader 0 1, group 1 0-63 63-63 63-63 63-63, reader 1 4
committed 32 64 of 64, group 0, reader 0 2, group 1 0-63 63-63 63-63 63-63, reader 1 1
refreshed [63] saved [63] saved, reader 0 3, reader 1 3
refreshed [63, 63] saved [63, 63] saved [63, 63] saved [63, 63] saved, reader 0 4, reader 1 2
";

// What they did if the collector was stopped behind its row 100.
const STOPPED: &str = "\
committed 32 of 50, group 0, reader 0, group 1, reader 1
committed 32 of 50, group 0, reader 0, group 1, reader 1
refreshed, reader 0, reader 1
refreshed, reader 0, reader 1
";

// A device, and a line. Then what is printed if each call of the device fails in turn.
const FAULTS: &str = "\
T2.tag run pair.toml turns.toml => fault: device tag 2|done
g2.grp run pair.toml turns.toml => fault: device group 2|done
plant.log log pair.toml twice.toml => fault: device log|done";

// More calls than a device of these has.
const MOST: u64 = 96;

// How far the first worker has come, and how often all workers together have asked.
#[derive(Drop)]
struct Steps {
    first: AtomicU64,
    asked: AtomicU64,
}

// Passes of workers of whom the first goes ahead, and is stopped at its step `most`. The others wait at their first
// step until the first has come to its step `least`.
#[derive(Drop)]
struct Ahead<'a> {
    steps: &'a Steps,
    least: u64,
    most: u64,
    stops: u64,
}

// The pass of the first worker, or of another one.
struct AheadPass<'a> {
    steps: &'a Steps,
    first: bool,
    least: u64,
    most: u64,
    stops: u64,
}

impl<'a> Pass for AheadPass<'a> {
    ghost stops = { λ pass. pass.stops };

    fn pass(&mut self, step: u64) -> bool {
        let goes = self.goes(step);
        if !goes {
            self.stops = self.stops.saturating_add(1);
        }
        goes
    }
}

impl<'a> AheadPass<'a> {
    // Counts that the worker has asked, and returns whether it may go on.
    fn goes(&self, step: u64) -> bool {
        self.steps.asked.fetch_add(1, Ordering::SeqCst);
        if self.first {
            self.steps.first.store(step, Ordering::SeqCst);
            return step < self.most;
        }
        step > 0 || comes(&self.steps.first, self.least, PATIENT)
    }
}

impl<'a> Passes for Ahead<'a> {
    type One = AheadPass<'a>;

    ghost stops = { λ passes. passes.stops };

    fn hand(&mut self, worker: u32) -> AheadPass<'a> {
        AheadPass {
            steps: self.steps,
            first: worker == 0,
            least: self.least,
            most: self.most,
            stops: 0,
        }
    }

    fn give_back(&mut self, one: AheadPass<'a>) {
        let AheadPass {
            steps: _,
            first: _,
            least: _,
            most: _,
            stops,
        } = one;
        self.stops = self.stops.saturating_add(stops);
    }
}

// Returns the rows of the collector: 64 of each tag in turn, and one more of the first tag. That one leaves no record.
fn rows(alloc: Global) -> Result<String, Fail> {
    let mut rows = String::new(alloc);
    for t in 0..64u64 {
        let v = t.saturating_mul(t);
        write!(rows, "T1,{t},{v}\nT2,{t},-{v}\n")?;
    }
    rows.push_str("T1,64,3969\n")?;
    Ok(rows)
}

// Returns the files.
fn files(alloc: Global) -> Result<MemFiles, Fail> {
    let mut files = files_of(alloc, FILES)?;
    files.push((
        String::from_str(alloc, "both.csv")?,
        rows(alloc)?.into_bytes(),
    ))?;
    Ok(MemFiles::new(files, Vec::new(alloc)))
}

// Returns how many values a tape had taken at each of its commits, and at its end.
fn commits(alloc: Global, tape: &[Entry]) -> Result<String, Fail> {
    let mut told = String::new(alloc);
    let mut takes = 0u64;
    for entry in tape {
        match entry {
            Entry::Take { .. } => takes = takes.saturating_add(1),
            Entry::Commit { .. } => write!(told, " {takes}")?,
            _ => {}
        }
    }
    write!(told, " of {takes}")?;
    Ok(told)
}

// Returns what a group pulled on a tape: from which record, and up to which.
fn pulls(alloc: Global, tape: &[Entry], number: u32) -> Result<String, Fail> {
    let mut told = String::new(alloc);
    for entry in tape {
        if let Entry::Pull { group, from, upto } = entry {
            if *group == number {
                write!(told, " {from}-{upto}")?;
            }
        }
    }
    Ok(told)
}

// Returns which rows of a reader's file are on a tag's tape.
fn asks(alloc: Global, tape: &[Entry], number: u32) -> Result<String, Fail> {
    let mut told = String::new(alloc);
    for entry in tape {
        if let Entry::Ask { reader, row, .. } = entry {
            if *reader == number {
                write!(told, " {row}")?;
            }
        }
    }
    Ok(told)
}

// Returns the refreshes and saves of a group's tape, with how many records of each input it then had.
fn turns(alloc: Global, tape: &[Turn]) -> Result<String, Fail> {
    let mut told = String::new(alloc);
    for turn in tape {
        match turn {
            Turn::Refresh { versions } => write!(told, " {versions:?}")?,
            Turn::Save { .. } => told.push_str(" saved")?,
            Turn::Ask { .. } => {}
        }
    }
    Ok(told)
}

// Returns which rows of a reader's file are on a group's tape.
fn row_asks(alloc: Global, tape: &[Turn], number: u32) -> Result<String, Fail> {
    let mut told = String::new(alloc);
    for turn in tape {
        if let Turn::Ask { reader, row, .. } = turn {
            if *reader == number {
                write!(told, " {row}")?;
            }
        }
    }
    Ok(told)
}

// Adds what a tape of a tag has.
fn tell_tag(alloc: Global, told: &mut String, tape: &[Entry]) -> Result<(), Fail> {
    told.push_str("committed")?;
    told.push_str(commits(alloc, tape)?.as_str())?;
    for number in 0..2 {
        write!(told, ", group {number}")?;
        told.push_str(pulls(alloc, tape, number)?.as_str())?;
        write!(told, ", reader {number}")?;
        told.push_str(asks(alloc, tape, number)?.as_str())?;
    }
    told.push('\n')?;
    Ok(())
}

// Adds what a tape of a group has.
fn tell_group(alloc: Global, told: &mut String, tape: &[Turn]) -> Result<(), Fail> {
    told.push_str("refreshed")?;
    told.push_str(turns(alloc, tape)?.as_str())?;
    for number in 0..2 {
        write!(told, ", reader {number}")?;
        told.push_str(row_asks(alloc, tape, number)?.as_str())?;
    }
    told.push('\n')?;
    Ok(())
}

// Returns what the tapes of a session have, one line for each tag and each group.
fn tapes(alloc: Global, outcome: &Outcome) -> Result<String, Fail> {
    let session = outcome.session.as_ref().ok_or("no session")?;
    let mut told = String::new(alloc);
    for tag in session.tags.iter() {
        tell_tag(alloc, &mut told, tag.tape.as_slice())?;
    }
    for group in session.groups.iter() {
        tell_group(alloc, &mut told, group.tape.as_slice())?;
    }
    Ok(told)
}

// Returns the rows that the log of a session was given, in the order of its tape.
fn logged(alloc: Global, outcome: &Outcome) -> Result<Vec<u64>, Fail> {
    let session = outcome.session.as_ref().ok_or("no session")?;
    let log = session.log.as_ref().ok_or("no log")?;
    let mut rows = Vec::new(alloc);
    for turn in log.tape.iter() {
        if let LogTurn::Put(row) = turn {
            rows.push(row.row)?;
        }
    }
    Ok(rows)
}

#[test]
fn each_worker_does_its_own_work(rt: HostRuntime) -> Result<(), Fail> {
    let alloc = rt.alloc();
    let steps = Steps {
        first: AtomicU64::new(0),
        asked: AtomicU64::new(0),
    };
    let mut passes = Ahead {
        steps: &steps,
        least: 128,
        most: u64::MAX,
        stops: 0,
    };
    let mut store = MemStore::new(Vec::new(alloc));
    let line = "run pair.toml each.toml";
    let (outcome, printed) = ended(&rt, alloc, line, files(alloc)?, &mut store, &mut passes)?;
    assert_eq!(rt; printed.as_str(), text(alloc, PRINTED)?.as_str());
    assert_eq!(rt; tapes(alloc, &outcome)?.as_str(), DONE);
    assert_eq!(rt; steps.asked.load(Ordering::SeqCst), 141);
    Ok(())
}

// Runs a line over new devices, with a first worker that is stopped at its step 100.
fn stopped<R: Threads + Wait + Sync>(rt: &R, alloc: Global, line: &str) -> Result<Outcome, Fail> {
    let steps = Steps {
        first: AtomicU64::new(0),
        asked: AtomicU64::new(0),
    };
    let mut passes = Ahead {
        steps: &steps,
        least: 0,
        most: 100,
        stops: 0,
    };
    let mut store = MemStore::new(Vec::new(alloc));
    let (outcome, printed) = ended(rt, alloc, line, files(alloc)?, &mut store, &mut passes)?;
    if printed.as_str() != "fault: halted 0\n" {
        return Err("no stop is told".into());
    }
    Ok(outcome)
}

#[test]
fn nothing_is_made_up_after_a_stop(rt: HostRuntime) -> Result<(), Fail> {
    let alloc = rt.alloc();
    let ran = stopped(&rt, alloc, "run pair.toml feed.toml")?;
    assert_eq!(rt; tapes(alloc, &ran)?.as_str(), STOPPED);
    let ran = stopped(&rt, alloc, "log pair.toml twice.toml")?;
    assert_eq!(rt; logged(alloc, &ran)?.len(), 229);
    Ok(())
}

#[test]
fn two_held_collectors_log_row_by_row(rt: HostRuntime) -> Result<(), Fail> {
    let alloc = rt.alloc();
    let asked = AtomicU64::new(0);
    let mut passes = Gates {
        asked: &asked,
        workers: 2,
        looks: PATIENT,
        stops: 0,
    };
    let mut store = MemStore::new(Vec::new(alloc));
    let line = "log pair.toml twice.toml";
    let (outcome, _) = ended(&rt, alloc, line, files(alloc)?, &mut store, &mut passes)?;
    assert_eq!(rt; outcome.status, Status::Done);
    let rows = logged(alloc, &outcome)?;
    assert_eq!(rt; rows.len(), 258);
    assert!(rt; rows.is_sorted());
    assert_eq!(rt; asked.load(Ordering::SeqCst), 256);
    Ok(())
}

// Runs a line over new devices, of which one fails at its call of this number. Returns what is printed, or `done`.
fn failing<R: Threads + Wait + Sync>(
    rt: &R,
    alloc: Global,
    line: &str,
    device: &str,
    call: u64,
) -> Result<String, Fail> {
    let mut devices = Vec::new(alloc);
    let dev = MemDisk::new(Vec::new(alloc), only(alloc, call)?);
    devices.push((String::from_str(alloc, device)?, dev))?;
    let mut store = MemStore::new(devices);
    let mut passes = OpenPasses;
    let (outcome, printed) = ended(rt, alloc, line, files(alloc)?, &mut store, &mut passes)?;
    match outcome.status {
        Status::Done => Ok(String::from_str(alloc, "done")?),
        _ => Ok(printed),
    }
}

// Returns what is printed if the first call of a device fails, if the second one fails, and so on until none does.
// Equal texts in a row appear once.
fn failing_in_turn<R: Threads + Wait + Sync>(
    rt: &R,
    alloc: Global,
    line: &str,
    device: &str,
) -> Result<String, Fail> {
    let mut all = String::new(alloc);
    let mut last = String::new(alloc);
    for call in 0..MOST {
        let told = failing(rt, alloc, line, device, call)?;
        if told.as_str() != last.as_str() {
            all.push_str(told.as_str())?;
        }
        if told.as_str() == "done" {
            return Ok(all);
        }
        last = told;
    }
    Err("each call fails".into())
}

#[test]
fn a_call_that_fails_is_told_of_its_device(rt: HostRuntime) -> Result<(), Fail> {
    let alloc = rt.alloc();
    for row in FAULTS.lines() {
        let (given, want) = row.split_once(" => ").ok_or("row")?;
        let (device, line) = given.split_once(' ').ok_or("device")?;
        let told = failing_in_turn(&rt, alloc, line, device)?;
        assert_eq!(rt; told.as_str(), text(alloc, want)?.as_str(), "{given}");
    }
    Ok(())
}
