// What cores keep of histories.
ghost use Rattle.std.specs.Prelude.{◌≡◌, ◌<◌};

use crate::spelled::{point, rows_tell};
use std::alloc::Global;
use std::fmt::Write;
use std::marker::Brand;
use std::process::Abort;
use std::sync::ledger::{Blank, Ledger};
use std::test::Fail;
use tag_core::{Full, Steps, TagCore, Tuning, parts_ok};
use trend_num::{Kind, tuning_ok};

// The kind of a tag, its tuning, and its events: values and new tunings. Then its records, with a star at late ones,
// and the held point.
//
// Lines: a value that the line would miss ends the segment. A straight line is one segment. Nothing is kept sooner than
// CompMin. No segment is longer than CompMax. Late values are kept as they come, and the first sends the pending one.
// Retunings: the held point is kept, and later values go by the new deviation. A pending value is sent first.
// Steps: the value after a step is kept. A value within CompDev of the hinge is not kept, nor one sooner than CompMin.
const HISTORIES: &str = "\
line one 0,0 1,0 2,3 3,0 => 0,0 1,0 2,3 held 3,0
line plain 0,0 10,10 20,20 30,31 => 0,0 20,20 held 30,31
line one 0,0 1,1 2,1 3,2 => 0,0 held 3,2
line slow 0,0 1,10 2,0 => 0,0 held 2,0
line short 0,0 6,6 12,12 => 0,0 6,6 held 12,12
line dull 10,0 20,1 15,9 5,3 => 10,0 15,9* 5,3* held 20,1
line dull 0,0 20,1 15,9 plain 10,4 30,1 => 0,0 15,9* 20,1 10,4* held 20,1
line plain 0,0 10,10 20,20 loose 30,33 40,40 => 0,0 20,20 held 40,40
line dull 0,0 10,1 plain => 0,0 10,1 held 10,1
line plain dull => none
step two 0,10 10,11 20,15 30,14 => 0,10 20,15 held 30,14
step wait 0,10 10,20 20,21 => 0,10 20,21 held 20,21";

// The tuning with this name, or `None` if there is no such tuning.
fn tuning_of(name: &str) -> Option<Tuning> {
    let (exc_dev, comp_dev, comp_min, comp_max) = match name {
        "plain" => (0, 0, 0, 1_000_000),
        "one" => (0, 1, 0, 1_000_000),
        "two" => (0, 2, 0, 1_000_000),
        "loose" => (0, 5, 0, 1_000_000),
        "dull" => (5, 0, 0, 1_000_000),
        "slow" => (0, 0, 5, 1_000_000),
        "wait" => (0, 2, 15, 1_000_000),
        "short" => (0, 0, 0, 10),
        _ => return None,
    };
    Some(Tuning {
        exc_dev,
        exc_max: 1_000_000,
        comp_dev,
        comp_min,
        comp_max,
    })
}

// Makes a core of a kind, with the tuning of a name.
fn begun(rt: &impl Abort, alloc: Global, kind: &str, name: &str) -> Result<TagCore, Fail> {
    let tuning = tuning_of(name).ok_or("tuning")?;
    assert!(rt; tuning_ok(&tuning));
    Ok(TagCore::new(alloc, tuning, kind == "step", 4)?)
}

// Makes a core from the parts of another.
fn made_again(rt: &impl Abort, core: TagCore) -> Result<TagCore, Fail> {
    let (tuning, step) = (core.tuning(), core.step());
    let (recs, summary) = core.into_parts();
    assert!(rt; tuning_ok(&tuning) && parts_ok(&tuning, step, &recs, &summary));
    Ok(TagCore::from_records(tuning, step, recs, &summary, 4)?)
}

// What is kept of a row's history. One core takes the history. A second core is made from the first one's parts, and
// the text is what the second has.
fn compressed<L: Ledger>(
    rt: &impl Abort,
    alloc: Global,
    given: &str,
    steps: &mut Steps<L>,
) -> Result<String, Fail> {
    let (kind, events) = given.split_once(' ').ok_or("kind")?;
    let (first, events) = events.split_once(' ').ok_or("tuning")?;
    let mut core = begun(rt, alloc, kind, first)?;
    take_all(rt, &mut core, events, steps)?;
    kept(alloc, &made_again(rt, core)?)
}

// Passes these events to the core.
fn take_all<L: Ledger>(
    rt: &impl Abort,
    core: &mut TagCore,
    events: &str,
    steps: &mut Steps<L>,
) -> Result<(), Full> {
    for event in events.split_whitespace() {
        happen(rt, core, event, steps)?;
    }
    Ok(())
}

// Passes one event to the core.
fn happen<L: Ledger>(
    rt: &impl Abort,
    core: &mut TagCore,
    event: &str,
    steps: &mut Steps<L>,
) -> Result<(), Full> {
    assert!(rt; core.spare() >= 2 && core.taken() < 8);
    match tuning_of(event) {
        None => core.take(point(rt, event), steps)?,
        Some(tuning) => {
            assert!(rt; tuning_ok(&tuning));
            core.retune(tuning, steps)?
        }
    };
    Ok(())
}

// The records and the held point of a core, as a text.
fn kept(alloc: Global, core: &TagCore) -> Result<String, Fail> {
    let mut told = String::new(alloc);
    for rec in core.recs() {
        let mark = if rec.kind == Kind::Late { "*" } else { "" };
        write!(told, " {},{}{mark}", rec.point.t, rec.point.v)?;
    }
    match core.held() {
        None => told.push_str(" none")?,
        Some(p) => write!(told, " held {},{}", p.t, p.v)?,
    }
    Ok(told)
}

// Checks that each row has the result that it gives. Counts on the ledger of the blank.
fn all_told<L: Ledger>(rt: &impl Abort, alloc: Global, blank: Blank) -> Result<(), Fail>
    requires name { blank.name ≡ L.name }
    requires parts { blank.parts ≡ L.parts }
    requires some { 0 < L.parts }
{
    let mut steps = Steps::<L>::new(blank);
    rows_tell(rt, HISTORIES, " =>", |given| {
        compressed(rt, alloc, given, &mut steps)
    })
}

#[test]
fn cores_keep_what_is_listed(rt: HostRuntime) -> Result<(), Fail> {
    all_told::<Brand>(&rt, rt.alloc(), Blank::new(1))
}
