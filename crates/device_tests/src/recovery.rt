// Devices that are opened again: after some values and openings, and with damaged bytes.
ghost use Rattle.std.specs.Prelude.{◌≡◌, ◌<◌};

use crate::spelled::{change, point, rows_tell, same};
use crash_recovery::{OpenFail, OpenNo, Opened, open_tag};
use disk_model::{Disk, MemDisk};
use event_queue::LaneNo;
use std::alloc::Global;
use std::fmt::Write;
use std::marker::Brand;
use std::process::Abort;
use std::sync::ledger::{Blank, Ledger};
use std::test::Fail;
use trend_num::{Kind, Point, Rec, Steps, TagDef, Tuning, in_range, name_from, tuning_ok};

// How many lane slots there are, and what happens. The name of a tuning opens the device with that tuning. A value is
// put into the lane or, if the lane is full, a checkpoint keeps it. `check` makes a checkpoint. Then come the records,
// the held point, and how many raw values are acknowledged and how many lane slots are free. Last come the writes and
// syncs since the last opening began.
//
// An opening takes a sync. A new device takes six more: two for its gate, and four for the layout. If the tuning is
// another one, a checkpoint follows. A batch takes four. A checkpoint takes two for new records, two for the summary and
// two for its gate. It also takes one for each gate of the lane that it closes, and one after these. It takes one more if
// the gate of its summary slot was open.
const STORIES: &str = "\
64 plain => none 0 64 7
1 plain 0,0 10,10 20,0 30,5 => 0,0 10,10 20,0 held 30,5 4 1 31
1 plain 0,0 10,10 plain 20,0 30,5 => 0,0 10,10 20,0 held 30,5 4 1 13
4 plain 0,5 10,60 check 20,5 check check 30,5 check => 0,5 10,60 held 20,5 4 4 48
64 plain 0,0 10,10 20,20 loose 30,33 40,40 => 0,0 20,20 held 40,40 6 62 19
64 dull 0,0 10,1 plain => 0,0 10,1 held 10,1 3 64 10
4 plain 0,0 dull 10,1 5,3 => 0,0 5,3* held 10,1 4 2 17";

// Changed bytes of the device of the tag T1, and the answer when it is opened. Of the header: letters, the name and its
// zeros, the tuning, the number of lane slots, the kind, zeros. Of the summary: flags, zeros, absent parts that have
// bytes, points and tunings out of range. Of a record: the kind. Of the lane: a count, a number.
const DAMAGED: &str = "\
386=165 => opened
1=81 => Damaged { at: 1, byte: Some(81) }
4=50 => Damaged { at: 4, byte: Some(50) }
5=0 => Damaged { at: 5, byte: Some(0) }
5=65 => Damaged { at: 5, byte: Some(65) }
5=1 => Damaged { at: 7, byte: Some(49) }
5=3 => Damaged { at: 8, byte: Some(0) }
6=32 => Damaged { at: 6, byte: Some(32) }
8=1 => Damaged { at: 8, byte: Some(1) }
69=1 => Damaged { at: 69, byte: Some(1) }
70=4 => Damaged { at: 70, byte: Some(4) }
78=1 => Damaged { at: 78, byte: Some(1) }
87=4 => Damaged { at: 86, byte: Some(0) }
94=1 => Damaged { at: 94, byte: Some(1) }
102=1 => Damaged { at: 102, byte: Some(1) }
113=0 => Damaged { at: 110, byte: Some(0) }
111=1 => Damaged { at: 110, byte: Some(0) }
114=2 => Damaged { at: 114, byte: Some(2) }
127=1 => Damaged { at: 127, byte: Some(1) }
140=20 => Damaged { at: 140, byte: Some(20) }
140=17 => Damaged { at: 140, byte: Some(17) }
140=53 => Damaged { at: 140, byte: Some(53) }
141=1 => Damaged { at: 141, byte: Some(1) }
168=1 => Damaged { at: 160, byte: Some(0) }
223=1 => Damaged { at: 208, byte: Some(0) }
144=128 => Damaged { at: 144, byte: Some(128) }
224=4 => Damaged { at: 224, byte: Some(4) }
250=231 => Damaged { at: 250, byte: Some(231) }
66640=77 => Damaged { at: 66640, byte: Some(77) }
473=0 => Damaged { at: 472, byte: Some(0) }
471=7 => Damaged { at: 464, byte: Some(0) }";

/// Returns the tag T1 with the tuning of this name, or `None` if there is no such tuning.
pub fn tag(name: &str) -> Option<TagDef> {
    let (exc_dev, comp_dev) = match name {
        "plain" => (0, 0),
        "loose" => (0, 5),
        "dull" => (5, 0),
        _ => return None,
    };
    let tuning = Tuning {
        exc_dev,
        exc_max: 1_000_000,
        comp_dev,
        comp_min: 0,
        comp_max: 1_000_000,
    };
    Some(TagDef {
        name: name_from(b"T1")?,
        tuning,
        step: false,
    })
}

/// Opens the device of a tag. Returns `WantOfMemory` too if the tuning is out of range, or `slots` is not 1 to 64.
pub fn opened(
    alloc: Global,
    dev: MemDisk,
    def: &TagDef,
    slots: u32,
) -> Result<Opened<MemDisk>, OpenFail<MemDisk>> {
    if !tuning_ok(&def.tuning) || slots < 1 || slots > 64 {
        let why = OpenNo::WantOfMemory;
        return Err(OpenFail { dev, why });
    }
    open_tag(alloc, dev, def, slots, 16)
}

// Makes a checkpoint.
fn check(alloc: Global, tag: &mut Opened<MemDisk>) -> Result<(), Fail> {
    if tag.journal.failed() {
        return Err(Fail::new("failed"));
    }
    Ok(
        tag.journal
            .checkpoint(alloc, &tag.core)
            .map_err(|_| "refused")?,
    )
}

// Takes a value, and puts it into the lane. If the lane is full, a checkpoint keeps it.
fn keep<L: Ledger>(
    rt: &impl Abort,
    alloc: Global,
    tag: &mut Opened<MemDisk>,
    p: Point,
    blank: Blank,
) -> Result<(), Fail>
    requires name { blank.name ≡ L.name }
    requires parts { blank.parts ≡ L.parts }
    requires some { 0 < L.parts }
{
    let mut steps = Steps::<L>::new(blank);
    assert!(rt; in_range(p));
    assert!(rt; tag.core.spare() >= 2);
    assert!(rt; tag.core.taken() < 1000);
    tag.core.take(p, &mut steps)?;
    assert!(rt; !tag.journal.failed());
    assert!(rt; tag.journal.acked() < 1000);
    match tag.journal.commit(&[p]) {
        Ok(()) => Ok(()),
        Err(LaneNo::LaneFull) => check(alloc, tag),
        Err(LaneNo::DeviceFault) => Err(Fail::new("fault")),
    }
}

// Takes a value and keeps it, on a ledger of its own.
fn put(rt: &impl Abort, alloc: Global, tag: &mut Opened<MemDisk>, p: Point) -> Result<(), Fail> {
    keep::<Brand>(rt, alloc, tag, p, Blank::new(1))
}

// Opens a device with the tuning of a name. It returns the tag, and the clock of the device before.
fn begun(
    alloc: Global,
    dev: MemDisk,
    slots: u32,
    name: &str,
) -> Result<(Opened<MemDisk>, u64), Fail> {
    let def = tag(name).ok_or("tag")?;
    let start = dev.clock();
    let now = opened(alloc, dev, &def, slots).ok().ok_or("refused")?;
    Ok((now, start))
}

// Makes a checkpoint, or takes a value and keeps it.
fn happen(
    rt: &impl Abort,
    alloc: Global,
    now: &mut Opened<MemDisk>,
    event: &str,
) -> Result<(), Fail> {
    if event == "check" {
        return check(alloc, now);
    }
    put(rt, alloc, now, point(rt, event))
}

// Goes on by one event of a story.
fn gone_on(
    rt: &impl Abort,
    alloc: Global,
    story: (Opened<MemDisk>, u64),
    slots: u32,
    event: &str,
) -> Result<(Opened<MemDisk>, u64), Fail> {
    let (mut now, start) = story;
    if tag(event).is_some() {
        return begun(alloc, now.journal.into_device(), slots, event);
    }
    happen(rt, alloc, &mut now, event)?;
    Ok((now, start))
}

// Plays a story to its end. It returns the tag, and the clock of its device before the last opening.
fn stored(
    rt: &impl Abort,
    alloc: Global,
    slots: u32,
    events: &str,
) -> Result<(Opened<MemDisk>, u64), Fail> {
    let new = MemDisk::new(Vec::new(alloc), Vec::new(alloc));
    let (first, events) = events.split_once(' ').unwrap_or((events, ""));
    let mut story = begun(alloc, new, slots, first)?;
    for event in events.split_whitespace() {
        story = gone_on(rt, alloc, story, slots, event)?;
    }
    Ok(story)
}

// The records of a tag and its held point, as text.
fn archive_told(alloc: Global, recs: &[Rec], held: Option<Point>) -> Result<String, Fail> {
    let mut told = String::new(alloc);
    for rec in recs {
        let mark = if rec.kind == Kind::Late { "*" } else { "" };
        write!(told, "{},{}{mark} ", rec.point.t, rec.point.v)?;
    }
    match held {
        None => told.push_str("none")?,
        Some(p) => write!(told, "held {},{}", p.t, p.v)?,
    }
    Ok(told)
}

// What a story leaves on a device of so many lane slots, as text.
fn story_told(rt: &impl Abort, alloc: Global, slots: u32, events: &str) -> Result<String, Fail> {
    let (now, start) = stored(rt, alloc, slots, events)?;
    let archive = archive_told(alloc, now.core.recs(), now.core.held())?;
    let (acked, free) = (now.journal.acked(), now.journal.free_slots());
    let calls = now.journal.clock().saturating_sub(start);
    Ok(format!(in alloc; "{archive} {acked} {free} {calls}")?)
}

#[test]
fn a_device_goes_on(rt: HostRuntime) -> Result<(), Fail> {
    rows_tell(&rt, STORIES, |given| {
        let (slots, events) = given.split_once(' ').ok_or("slots")?;
        story_told(&rt, rt.alloc(), slots.parse::<u32>()?, events)
    })
}

// A device of 64 lane slots that stores (0,0), in a record and a summary, and (10,10), in its lane.
fn good(rt: &impl Abort, alloc: Global) -> Result<Vec<u8>, Fail> {
    let (tag, _) = stored(rt, alloc, 64, "plain 0,0 check 10,10")?;
    Ok(tag.journal.into_device().bytes().to_vec(alloc)?)
}

// The answer when a device of these bytes is opened, as text.
fn answer(alloc: Global, bytes: Vec<u8>, def: &TagDef) -> Result<String, Fail> {
    Ok(
        match opened(alloc, MemDisk::new(bytes, Vec::new(alloc)), def, 64) {
            Ok(_) => String::from_str(alloc, "opened")?,
            Err(fail) => format!(in alloc; "{:?}", fail.why)?,
        },
    )
}

// The answer when a device of these bytes with these changes is opened.
fn damaged_told(
    rt: &impl Abort,
    alloc: Global,
    good: &[u8],
    def: &TagDef,
    changes: &str,
) -> Result<String, Fail> {
    let mut bytes = good.to_vec(alloc)?;
    change(rt, bytes.as_mut_slice(), changes);
    answer(alloc, bytes, def)
}

#[test]
fn a_damaged_byte_is_told_at_its_field(rt: HostRuntime) -> Result<(), Fail> {
    let def = tag("plain").ok_or("tag")?;
    let good = good(&rt, rt.alloc())?;
    rows_tell(&rt, DAMAGED, |given| {
        damaged_told(&rt, rt.alloc(), &good, &def, given)
    })
}

#[test]
fn a_short_device_and_one_of_another_tag_are_refused(rt: HostRuntime) -> Result<(), Fail> {
    let def = tag("plain").ok_or("tag")?;
    let mut short = good(&rt, rt.alloc())?;
    let whole = short.clone()?;
    short.truncate(66_639);
    let told = answer(rt.alloc(), short, &def)?;
    same(
        &rt,
        told.as_str(),
        "Damaged { at: 66639, byte: None }",
        "short",
    );
    let stepped = TagDef { step: true, ..def };
    let told = answer(rt.alloc(), whole, &stepped)?;
    assert!(rt; told.as_str().starts_with("OtherTag"));
    Ok(())
}

// Opens the device of these bytes, makes a checkpoint there, and returns the bytes that it then has.
fn checked(rt: &impl Abort, alloc: Global, bytes: Vec<u8>) -> Result<Vec<u8>, Fail> {
    let def = tag("plain").ok_or("tag")?;
    let dev = MemDisk::new(bytes, Vec::new(alloc));
    let mut tag = opened(alloc, dev, &def, 64).ok().ok_or("refused")?;
    assert!(rt; tag.core.taken() == 2);
    assert!(rt; tag.core.tuning() == def.tuning);
    check(alloc, &mut tag)?;
    Ok(tag.journal.into_device().bytes().to_vec(alloc)?)
}

// The device of `good` with a summary that has no tuning, as those have that are from before tags could be retuned.
fn of_first_version(rt: &impl Abort, alloc: Global) -> Result<Vec<u8>, Fail> {
    let mut bytes = good(rt, alloc)?;
    assert!(rt; bytes.len() == 66_657);
    bytes[140] = 5;
    bytes[224..256].fill(0);
    Ok(bytes)
}

#[test]
fn a_summary_of_the_first_version_is_read(rt: HostRuntime) -> Result<(), Fail> {
    let bytes = of_first_version(&rt, rt.alloc())?;
    let bytes = checked(&rt, rt.alloc(), bytes)?;
    assert!(rt; bytes.len() == 66_657);
    // The flags of both slots, and the second one's tuning.
    assert!(rt; bytes[140] == 5 && bytes[268] == 0x1d);
    let tuning = b"\0\0\0\0\0\0\0\0\0\0\x0f\x42\x40\0\0\0\0\0\0\0\0\0\0\0\0\0\0\0\0\x0f\x42\x40";
    assert!(rt; &bytes[352..384] == tuning.as_slice());
    Ok(())
}
