// Runs of `check`, `trend`, `run`, `frames`, `shifts` and `log` over stored archives and over new devices.
ghost use Rattle.std.specs.Prelude.{◌<◌};

use crate::plants::{NO_FAULT, number, only, text, told};
use byte_io::MemFiles;
use crash_recovery::open_tag;
use disk_model::{MemDisk, MemStore, Store};
use std::alloc::{AllocError, Global};
use std::fmt::Write;
use std::process::Abort;
use std::test::Fail;
use trend_num::{Point, TagDef, Tuning, in_range, name_from, tuning_ok};

// Names and texts of files. A bar represents a line feed. The tag T1 is one of lines, with CompDev 0 or 5. S1 is a step
// tag with CompDev 2.
const FILES: &str = "\
base.toml: [[tag]]|name = \"T1\"|exc_dev = 0|exc_max = 1000000|comp_dev = 0|comp_min = 0|comp_max = 1000000|\
[[tag]]|name = \"S1\"|exc_dev = 0|exc_max = 1000000|comp_dev = 2|comp_min = 0|comp_max = 1000000|step = true|
loose.toml: [[tag]]|name = \"T1\"|exc_dev = 0|exc_max = 1000000|comp_dev = 5|comp_min = 0|comp_max = 1000000|
group.toml: [[tag]]|name = \"T1\"|exc_dev = 0|exc_max = 1000000|comp_dev = 0|comp_min = 0|comp_max = 1000000|\
[[group]]|name = \"g\"|tags = [\"T1\"]|start = 0|period = 5|[[group.calc]]|name = \"m\"|formula = \"avg('T1')\"|
grid.toml: [[tag]]|name = \"T1\"|exc_dev = 0|exc_max = 1000000|comp_dev = 0|comp_min = 0|comp_max = 1000000|\
[[group]]|name = \"g\"|tags = [\"T1\"]|start = 0|period = 1000|[[group.calc]]|name = \"m\"|formula = \"avg('T1')\"|
rows.toml: [[reader]]|file = \"rows.csv\"|
none.toml: |
broken.toml: ?
cut.toml: [[tag]]|name = \"T
torn.toml: [[collector]]|file = \"torn.csv\"|
torn.csv: T1,0,5|T1,5
plan.toml: [[reader]]|file = \"lines.csv\"|[[reader]]|file = \"steps.csv\"|
late.toml: [[reader]]|file = \"lines.csv\"|[[reader]]|file = \"missing.csv\"|
worse.toml: [[reader]]|file = \"worse.csv\"|[[reader]]|file = \"missing.csv\"|
many.toml: [[reader]]|file = \"more\"|
long.toml: [[reader]]|file = \"long.csv\"|
lines.csv: at,T1,25|at,T1,20|at,T1,31|avg,T1,5,15|points,T1,0,20|avg,T1,25,31|snap,T1|
steps.csv: at,S1,15|at,S1,20|area,S1,0,30|avg,S1,0,30|low,S1,0,30|high,S1,0,30|last,S1,0,30|snap,S1|
long.csv: snap,T1|count,T1,0,1999|area,T1,0,1999|avg,T1,10,1990|at,T1,1234|at,T1,2000|high,T1,1000,1001|
rows.csv: row,g,m,0|row,g,m,1|row,g,m,2|row,g,m,3|snap,T1|
worse.csv: snap,T1|snap,S1||row,g,m,0|
feed.toml: [[collector]]|file = \"feed.csv\"|
read.toml: [[collector]]|file = \"feed.csv\"|[[reader]]|file = \"last.csv\"|
two.toml: [[collector]]|file = \"one.csv\"|[[collector]]|file = \"one.csv\"|
far.toml: [[collector]]|file = \"far.csv\"|
lost.toml: [[collector]]|file = \"one.csv\"|[[collector]]|file = \"missing.csv\"|
fine.toml: [[tag]]|name = \"T1\"|exc_dev = 0|exc_max = 1000000|comp_dev = 0|comp_min = 0|comp_max = 1000000|\
[[group]]|name = \"g\"|tags = [\"T1\"]|start = 0|period = 1|[[group.calc]]|name = \"m\"|formula = \"count('T1')\"|
feed.csv: T1,0,0|T1,3000,0|T1,4000,9|T1,1500,60|
last.csv: row,g,m,3|
ask.toml: [[reader]]|file = \"ask.csv\"|
ask.csv: at,T1,1500|
one.csv: T1,0,5|
far.csv: T1,0,0|T1,2000000,1|T1,2000001,0|
flow.toml: [[tag]]|name = \"FIC101.PV\"|exc_dev = 5|exc_max = 600000|comp_dev = 10|comp_min = 0|comp_max = 28800000|
fill.toml: [[collector]]|file = \"fill.csv\"|
fill.csv: FIC101.PV,1700000000000,1200|FIC101.PV,1700000060000,1203|FIC101.PV,1700000120000,1204|\
FIC101.PV,1700000180000,1212|FIC101.PV,1700000240000,1213|FIC101.PV,1700000300000,1240|FIC101.PV,1700000360000,1238|
whole.toml: [[collector]]|file = \"whole.csv\"|
first.toml: [[collector]]|file = \"first.csv\"|
second.toml: [[collector]]|file = \"second.csv\"|
third.toml: [[collector]]|file = \"third.csv\"|
whole.csv: T1,0,0|T1,10,10|S1,0,10|S1,10,11|T1,20,0|T1,30,5|S1,20,15|S1,30,14|
first.csv: T1,0,0|T1,10,10|S1,0,10|S1,10,11|
second.csv: T1,20,0|T1,30,5|S1,20,15|S1,30,14|
third.csv: T1,40,12|T1,50,20|T1,60,30|
alone.toml: [[tag]]|name = \"T1\"|exc_dev = 0|exc_max = 1000000|comp_dev = 0|comp_min = 0|comp_max = 1000000|
twin.toml: [[tag]]|name = \"T2\"|exc_dev = 0|exc_max = 1000000|comp_dev = 0|comp_min = 0|comp_max = 1000000|
three.toml: [[collector]]|file = \"three.csv\"|
three.csv: T1,0,0|T1,3000,0|T1,4000,9|
fourth.toml: [[collector]]|file = \"fourth.csv\"|
fourth.csv: T1,1500,60|
spring.toml: [[collector]]|file = \"spring.csv\"|
spring.csv: T1,1711774800000,7|T1,1711857600000,7|
autumn.toml: [[collector]]|file = \"autumn.csv\"|
autumn.csv: T1,1729915200000,7|T1,1730005200000,7|
early.toml: zone = \"CET-1CEST,M3.5.0,M10.5.0/3\"|starts = [\"06:00\"]|tags = [\"T1\"]|measure = \"total\"|
swapped.toml: zone = \"CET-1CEST,M3.5.0,M10.5.0/3\"|starts = [\"14:00\", \"06:00\"]|tags = [\"T1\"]|measure = \"total\"|
berlin.toml: zone = \"Europe/Berlin\"|starts = [\"06:00\"]|tags = [\"T1\"]|measure = \"total\"|
stairs.toml: zone = \"UTC0\"|starts = [\"00:00\"]|tags = [\"S1\", \"T1\"]|measure = \"avg\"|";

// What the devices hold, the number of the read of a file that fails, and the words. Then the exit code and what is
// printed.
const RUNS: &str = "\
new 99 check base.toml => 0 tag T1 taken=0 records=0 kept=0 late=0 held=none|tag S1 taken=0 records=0 kept=0 late=0 held=none|
new 99 check group.toml => 0 tag T1 taken=0 records=0 kept=0 late=0 held=none|
kept 99 check base.toml => 0 tag T1 taken=4 records=3 kept=3 late=0 held=30,5|tag S1 taken=4 records=2 kept=2 late=0 held=30,14|
kept 99 trend base.toml plan.toml => 0 reply 1 1 line 3|reply 1 2 exact 0|reply 1 3 flat 5|reply 1 4 8|\
reply 1 5 0,0 10,10 20,0 end|reply 1 6 none|reply 1 7 snap 4 30,5|reply 2 1 flat 10|reply 2 2 exact 15|reply 2 3 700|\
reply 2 4 12|reply 2 5 10|reply 2 6 15|reply 2 7 14|reply 2 8 snap 4 30,14|
new 99 trend base.toml plan.toml => 0 reply 1 1 none|reply 1 2 none|reply 1 3 none|reply 1 4 none|reply 1 5 end|\
reply 1 6 none|reply 1 7 snap 0 none|reply 2 1 none|reply 2 2 none|reply 2 3 none|reply 2 4 none|reply 2 5 none|\
reply 2 6 none|reply 2 7 none|reply 2 8 snap 0 none|
straight 99 check loose.toml => 0 tag T1 taken=4 records=2 kept=2 late=0 held=20,20|
long 99 trend base.toml long.toml => 0 reply 1 1 snap 2000 1999,10|reply 1 2 1999|reply 1 3 19990|reply 1 4 5|\
reply 1 5 exact 0|reply 1 6 flat 10|reply 1 7 10|
damaged 99 check base.toml => 8 fault: damaged tag 1 2 end|
failing 99 check base.toml => 7 fault: device tag 1|
other 99 check base.toml => 9 fault: other tag 1|
damaged 99 check missing.toml => 5 fault: read base|
damaged 99 check none.toml => 3 fault: text base rule 2 place 0 at 0|
damaged 99 check broken.toml => 3 fault: text base rule 1 place 0 at 0|
damaged 99 check cut.toml => 3 fault: text base rule 1 place 0 at 0|
damaged 99 run base.toml torn.toml => 4 fault: row collector 1 2 fields|
late 99 check grid.toml => 0 tag T1 taken=4 records=3 kept=2 late=1 held=4000,9|
late 99 trend grid.toml rows.toml => 0 reply 1 1 20|reply 1 2 50|reply 1 3 20|reply 1 4 none|reply 1 5 snap 4 4000,9|
new 99 trend grid.toml rows.toml => 0 reply 1 1 none|reply 1 2 none|reply 1 3 none|reply 1 4 none|reply 1 5 snap 0 none|
damaged 99 trend group.toml missing.toml => 5 fault: read plan|
damaged 99 trend base.toml missing.toml => 5 fault: read plan|
damaged 99 trend base.toml broken.toml => 3 fault: text plan rule 1 place 0 at 0|
damaged 99 trend base.toml late.toml => 5 fault: read reader 2|
damaged 99 trend base.toml worse.toml => 4 fault: row reader 1 3 name|
damaged 99 trend base.toml plan.toml => 8 fault: damaged tag 1 2 end|
once 99 run grid.toml feed.toml => 0 tag T1 taken=4 records=3 kept=2 late=1 held=4000,9|\
group g windows=3 refreshes=1 evals=3|calc g m 2 20|
later 99 run grid.toml none.toml => 0 tag T1 taken=4 records=3 kept=2 late=1 held=4000,9|\
group g windows=3 refreshes=1 evals=3|calc g m 2 20|
once 99 run grid.toml read.toml => 0 tag T1 taken=4 records=3 kept=2 late=1 held=4000,9|reply 1 1 none|\
group g windows=3 refreshes=1 evals=3|calc g m 2 20|
once 99 run base.toml two.toml => 0 tag T1 taken=2 records=2 kept=1 late=1 held=0,5|\
tag S1 taken=0 records=0 kept=0 late=0 held=none|
once 99 run fine.toml far.toml => 10 fault: limit cells 2000000|
failing 99 run base.toml two.toml => 7 fault: device tag 1|
damaged 99 run base.toml two.toml => 8 fault: damaged tag 1 2 end|
damaged 99 run missing.toml two.toml => 5 fault: read base|
damaged 99 run base.toml lost.toml => 5 fault: read collector 2|
kept 0 trend base.toml plan.toml => 5 fault: read base|
kept 3 trend base.toml plan.toml => 5 fault: read plan|
kept 5 trend base.toml plan.toml => 5 fault: read reader 1|
kept 6 trend base.toml plan.toml => 5 fault: read reader 2|";

// Runs one after the other. A line has the devices: new, those that the run before left, or those with fewer records of
// the tag. Then come the number of the write that fails, and the words. After the arrow come the exit code and what is
// printed.
const SESSIONS: &str = "\
new 99 run flow.toml fill.toml => 0 tag FIC101.PV taken=7 records=2 kept=2 late=0 held=1700000300000,1240|
new 99 run base.toml whole.toml => 0 tag T1 taken=4 records=3 kept=3 late=0 held=30,5|\
tag S1 taken=4 records=2 kept=2 late=0 held=30,14|
left 99 trend base.toml plan.toml => 0 reply 1 1 line 3|reply 1 2 exact 0|reply 1 3 flat 5|reply 1 4 8|\
reply 1 5 0,0 10,10 20,0 end|reply 1 6 none|reply 1 7 snap 4 30,5|reply 2 1 flat 10|reply 2 2 exact 15|reply 2 3 700|\
reply 2 4 12|reply 2 5 10|reply 2 6 15|reply 2 7 14|reply 2 8 snap 4 30,14|
new 99 run base.toml first.toml => 0 tag T1 taken=2 records=1 kept=1 late=0 held=10,10|\
tag S1 taken=2 records=1 kept=1 late=0 held=10,11|
left 99 run base.toml second.toml => 0 tag T1 taken=4 records=3 kept=3 late=0 held=30,5|\
tag S1 taken=4 records=2 kept=2 late=0 held=30,14|
left 99 trend base.toml plan.toml => 0 reply 1 1 line 3|reply 1 2 exact 0|reply 1 3 flat 5|reply 1 4 8|\
reply 1 5 0,0 10,10 20,0 end|reply 1 6 none|reply 1 7 snap 4 30,5|reply 2 1 flat 10|reply 2 2 exact 15|reply 2 3 700|\
reply 2 4 12|reply 2 5 10|reply 2 6 15|reply 2 7 14|reply 2 8 snap 4 30,14|
new 99 run base.toml first.toml => 0 tag T1 taken=2 records=1 kept=1 late=0 held=10,10|\
tag S1 taken=2 records=1 kept=1 late=0 held=10,11|
left 99 run loose.toml third.toml => 0 tag T1 taken=6 records=3 kept=3 late=0 held=60,30|
new 0 run grid.toml feed.toml => 6
left 99 run grid.toml none.toml => 0 tag T1 taken=4 records=3 kept=2 late=1 held=4000,9|\
group g windows=3 refreshes=1 evals=0|calc g m 2 20|
left 99 run grid.toml ask.toml => 0 tag T1 taken=4 records=3 kept=2 late=1 held=4000,9|reply 1 1 exact 60|\
group g windows=3 refreshes=1 evals=0|calc g m 2 20|
left 99 trend grid.toml rows.toml => 0 reply 1 1 20|reply 1 2 50|reply 1 3 20|reply 1 4 none|reply 1 5 snap 4 4000,9|
fewer 99 run grid.toml none.toml => 11 fault: mismatch|
new 99 run grid.toml three.toml => 0 tag T1 taken=3 records=2 kept=2 late=0 held=4000,9|\
group g windows=3 refreshes=1 evals=3|calc g m 2 0|
left 99 run alone.toml fourth.toml => 0 tag T1 taken=4 records=3 kept=2 late=1 held=4000,9|
left 99 frames grid.toml g m 2 => 0 new 0 3000 open|frame 0 3000 open|
left 99 frames grid.toml g m 4 => 0
left 99 frames grid.toml h m 2 => 16 fault: name 3|
left 99 frames grid.toml g x 2 => 16 fault: name 4|
left 99 frames missing.toml g x 2 => 5 fault: read base|
left 99 frames grid.toml g m 0 => 2 fault: words|
left 99 frames grid.toml g m 1000001 => 2 fault: words|
left 99 run grid.toml none.toml => 0 tag T1 taken=4 records=3 kept=2 late=1 held=4000,9|\
group g windows=3 refreshes=1 evals=3|calc g m 2 20|
left 99 frames grid.toml g m 2 => 0 frame 0 3000 open|
new 99 run alone.toml spring.toml => 0 tag T1 taken=2 records=1 kept=1 late=0 held=1711857600000,7|
left 99 shifts alone.toml early.toml 2024-03-30 1 => 0 shift 2024-03-30 1 1711774800000 1711857600000 T1 579600|
left 99 shifts alone.toml early.toml 2024-02-30 1 => 2 fault: words|
left 99 shifts alone.toml early.toml 2024-03-30 0 => 2 fault: words|
left 99 shifts alone.toml early.toml 2024-03-30 367 => 2 fault: words|
left 99 shifts alone.toml swapped.toml 2024-03-30 1 => 3 fault: text calendar rule 4 place 0 at 0|
left 99 shifts alone.toml berlin.toml 2024-03-30 1 => 3 fault: text calendar rule 3 place 0 at 0|
left 99 shifts alone.toml missing.toml 2024-03-30 1 => 5 fault: read calendar|
new 99 run alone.toml autumn.toml => 0 tag T1 taken=2 records=1 kept=1 late=0 held=1730005200000,7|
left 99 shifts alone.toml early.toml 2024-10-26 1 => 0 shift 2024-10-26 1 1729915200000 1730005200000 T1 630000|
left 99 shifts alone.toml early.toml 2024-10-27 1 => 0 shift 2024-10-27 1 1730005200000 1730091600000 T1 none|
new 99 shifts base.toml stairs.toml 1971-01-01 1 => 0 shift 1971-01-01 1 31536000000 31622400000 S1 none|\
shift 1971-01-01 1 31536000000 31622400000 T1 none|
new 99 log alone.toml two.toml => 0 tag T1 taken=2 records=2 kept=1 late=1 held=0,5|
left 99 log alone.toml two.toml => 0 tag T1 taken=4 records=4 kept=1 late=3 held=0,5|
left 99 log alone.toml none.toml => 0 tag T1 taken=4 records=4 kept=1 late=3 held=0,5|
left 99 log twin.toml none.toml => 15 fault: other plant 1|
left 99 log base.toml two.toml => 15 fault: other plant 2|
left 99 log alone.toml lost.toml => 5 fault: read collector 2|
new 0 log alone.toml two.toml => 6";

// How often a line occurs in one more file, the line, the words of a run over new devices, and the end of what is
// printed.
const LARGE: &str = "\
4096 snap,T1| trend base.toml many.toml => |reply 1 4096 snap 0 none|
4097 snap,T1| trend base.toml many.toml => 10 fault: limit queries 4097|
1048576 | check more => 3 fault: text base rule 2 place 0 at 0|
1048577 | check more => 10 fault: limit text_bytes 1048577|
1048577 | trend base.toml more => 10 fault: limit text_bytes 1048577|";

// Returns the tag with this name and kind.
fn tag(rt: &impl Abort, name: &str, step: bool) -> TagDef {
    TagDef {
        name: name_from(name.as_bytes()).expect(rt, "a name"),
        tuning: Tuning {
            exc_dev: 0,
            exc_max: 1_000_000,
            comp_dev: if step { 2 } else { 0 },
            comp_min: 0,
            comp_max: 1_000_000,
        },
        step,
    }
}

// Returns a device with so many lane slots that keeps these values of a tag.
fn kept(rt: &impl Abort, alloc: Global, def: &TagDef, slots: u32, values: &str) -> MemDisk {
    let dev = MemDisk::new(Vec::new(alloc), Vec::new(alloc));
    assert!(rt; tuning_ok(&def.tuning));
    assert!(rt; 1 <= slots && slots <= 65536);
    let mut journal = open_tag(alloc, dev, def, slots, 0)
        .ok()
        .expect(rt, "opened")
        .journal;
    for field in values.split_whitespace() {
        let (t, v) = field.split_once(',').expect(rt, "a point");
        let t = number(rt, t);
        let v = v.parse::<i64>().expect(rt, "a value");
        let p = Point { t, v };
        assert!(rt; in_range(p));
        assert!(rt; !journal.failed());
        assert!(rt; journal.acked() < 10_000);
        journal.commit(&[p]).expect(rt, "committed");
    }
    journal.into_device()
}

// Returns the values 0 and 10 in turn, 2,000 of them.
fn in_turn(alloc: Global) -> Result<String, Fail> {
    let mut values = String::new(alloc);
    for i in 0..1000u64 {
        write!(values, "{},0 {},10 ", 2 * i, 2 * i + 1)?;
    }
    Ok(values)
}

// Returns the devices of the tags T1 and S1.
fn devices(rt: &impl Abort, alloc: Global, kind: &str) -> Result<(MemDisk, MemDisk), Fail> {
    let line = tag(rt, "T1", false);
    let step = tag(rt, "S1", true);
    let new = MemDisk::new(Vec::new(alloc), Vec::new(alloc));
    let first = match kind {
        "kept" => kept(rt, alloc, &line, 64, "0,0 10,10 20,0 30,5"),
        "late" | "later" => kept(rt, alloc, &line, 64, "0,0 3000,0 4000,9 1500,60"),
        "straight" => kept(rt, alloc, &line, 64, "0,0 10,10 20,20"),
        "long" => kept(rt, alloc, &line, 2048, in_turn(alloc)?.as_str()),
        "other" => kept(rt, alloc, &tag(rt, "T1", true), 64, ""),
        "damaged" => MemDisk::new(b"\xa5\0".to_vec(alloc)?, Vec::new(alloc)),
        "failing" => MemDisk::new(Vec::new(alloc), only(alloc, 0)?),
        _ => MemDisk::new(Vec::new(alloc), Vec::new(alloc)),
    };
    let second = if kind == "kept" {
        kept(rt, alloc, &step, 64, "0,10 10,11 20,15 30,14")
    } else {
        new
    };
    Ok((first, second))
}

// Returns a store with these devices.
fn store(alloc: Global, first: MemDisk, second: MemDisk) -> Result<MemStore, Fail> {
    let mut devices = Vec::new(alloc);
    devices.push((String::from_str(alloc, "T1.tag")?, first))?;
    devices.push((String::from_str(alloc, "S1.tag")?, second))?;
    Ok(MemStore::new(devices))
}

// Returns the files, of which one read fails, and one more file with this text.
fn files(rt: &impl Abort, alloc: Global, fail: u64, more: &str) -> Result<MemFiles, Fail> {
    let mut files = Vec::new(alloc);
    for row in FILES.lines() {
        let (name, field) = row.split_once(": ").expect(rt, "a file");
        let text = text(alloc, field)?.into_bytes();
        files.push((String::from_str(alloc, name)?, text))?;
    }
    files.push((
        String::from_str(alloc, "more")?,
        more.as_bytes().to_vec(alloc)?,
    ))?;
    Ok(MemFiles::new(files, only(alloc, fail)?))
}

#[test]
fn stored_archives_are_told(rt: HostRuntime) -> Result<(), Fail> {
    let alloc = rt.alloc();
    for row in RUNS.lines() {
        let (given, want) = row.split_once(" => ").ok_or("row")?;
        let (kind, rest) = given.split_once(' ').ok_or("devices")?;
        let (fail, line) = rest.split_once(' ').ok_or("read")?;
        let line = format!(in alloc; "historian {line}")?;
        let (first, second) = devices(&rt, alloc, kind)?;
        let mut store = store(alloc, first, second)?;
        // A later run finds what the first one left, and its collectors feed the same values once more.
        let runs = match kind {
            "failing" | "once" | "later" => 1,
            _ => 2,
        };
        for _ in 0..runs {
            let mut files = files(&rt, alloc, number(&rt, fail), "")?;
            let told = told(
                &rt,
                alloc,
                line.as_str(),
                b"",
                &mut files,
                &mut store,
                NO_FAULT,
            )?;
            assert_eq!(rt; told.as_str(), text(alloc, want)?.as_str(), "{given}");
        }
    }
    Ok(())
}

// Returns the store that a run begins with, after a run that left this one. If the tag gets fewer records, the group's
// device stays as it was left.
fn store_of(
    rt: &impl Abort,
    alloc: Global,
    kind: &str,
    mut left: MemStore,
) -> Result<MemStore, Fail> {
    match kind {
        "left" => Ok(left),
        "fewer" => {
            let group = left.device("g.grp").map_err(|_| "a device")?;
            let tag = kept(rt, alloc, &tag(rt, "T1", false), 64, "0,0 3000,0 4000,9");
            let mut devices = Vec::new(alloc);
            devices.push((String::from_str(alloc, "T1.tag")?, tag))?;
            devices.push((String::from_str(alloc, "g.grp")?, group))?;
            Ok(MemStore::new(devices))
        }
        _ => Ok(MemStore::new(Vec::new(alloc))),
    }
}

#[test]
fn a_session_goes_on_where_the_last_one_ended(rt: HostRuntime) -> Result<(), Fail> {
    let alloc = rt.alloc();
    let mut store = MemStore::new(Vec::new(alloc));
    for row in SESSIONS.lines() {
        let (given, want) = row.split_once(" => ").ok_or("row")?;
        let (kind, rest) = given.split_once(' ').ok_or("devices")?;
        let (fail, line) = rest.split_once(' ').ok_or("write")?;
        let line = format!(in alloc; "historian {line}")?;
        let mut files = files(&rt, alloc, 99, "")?;
        store = store_of(&rt, alloc, kind, store)?;
        let told = told(
            &rt,
            alloc,
            line.as_str(),
            b"",
            &mut files,
            &mut store,
            (99, number(&rt, fail)),
        )?;
        assert_eq!(rt;
            told.as_str().trim_end_matches(' '),
            text(alloc, want)?.as_str(),
            "{given}"
        );
    }
    Ok(())
}

#[test]
fn files_have_limits(rt: HostRuntime) -> Result<(), Fail> {
    let alloc = rt.alloc();
    for row in LARGE.lines() {
        let (given, want) = row.split_once(" => ").ok_or("row")?;
        let (count, rest) = given.split_once(' ').ok_or("count")?;
        let (line, words) = rest.split_once(' ').ok_or("line")?;
        let more = text(alloc, line)?
            .as_str()
            .repeat(alloc, number(&rt, count) as usize)?;
        let words = format!(in alloc; "historian {words}")?;
        let mut files = files(&rt, alloc, 99, more.as_str())?;
        let mut store = MemStore::new(Vec::new(alloc));
        let told = told(
            &rt,
            alloc,
            words.as_str(),
            b"",
            &mut files,
            &mut store,
            NO_FAULT,
        )?;
        let want = text(alloc, want)?;
        assert!(rt; told.as_str().ends_with(want.as_str()), "{given}");
    }
    Ok(())
}
