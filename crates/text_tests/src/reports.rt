// Lines of a report.

use crate::spelled::same;
use std::alloc::Global;
use std::process::Abort;
use std::test::Fail;
use trend_num::{Bad, CalcValue, name_from};
use trend_report::{
    Frac, GroupLine, LastRow, Point, PointList, Reading, Reply, ReplyText, Snap, TagLine,
    drill_rows, group_text, reply_text, tag_text,
};

#[test]
fn a_tag_is_told(rt: HostRuntime) -> Result<(), Fail> {
    let line = TagLine {
        name: name_from(b"FIC101.PV").ok_or("name")?,
        taken: u64::MAX,
        records: 3,
        kept: 2,
        late: 1,
        held: Some(Point { t: 4000, v: -9 }),
    };
    let want = "tag FIC101.PV taken=18446744073709551615 records=3 kept=2 late=1 held=4000,-9\n";
    same(&rt, tag_text(rt.alloc(), &line)?.as_str(), want, "a tag");
    let line = TagLine { held: None, ..line };
    assert!(rt;
        tag_text(rt.alloc(), &line)?
            .as_str()
            .ends_with(" held=none\n")
    );
    Ok(())
}

// The lines of a group `g` with so many windows and this last value of its calculation `m`.
fn group_told(alloc: Global, windows: u32, value: Option<CalcValue>) -> Result<String, Fail> {
    let mut lasts = Vec::new(alloc);
    lasts.push(LastRow {
        calc: name_from(b"m").ok_or("name")?,
        value,
    })?;
    let line = GroupLine {
        name: name_from(b"g").ok_or("name")?,
        windows,
        refreshes: 1,
        evals: u64::from(windows),
        lasts,
    };
    Ok(group_text(alloc, &line)?)
}

// Checks the lines of the group `g` with so many windows and this last value.
fn tells_group(
    rt: &impl Abort,
    alloc: Global,
    windows: u32,
    value: Option<CalcValue>,
    want: &str,
) -> Result<(), Fail> {
    let told = group_told(alloc, windows, value)?;
    same(rt, told.as_str(), want, "a group");
    Ok(())
}

#[test]
fn a_group_is_told(rt: HostRuntime) -> Result<(), Fail> {
    let (some, bad) = (CalcValue::Num(-20), CalcValue::Bad(Bad::DivZero));
    let want = "group g windows=3 refreshes=1 evals=3\ncalc g m 2 -20\n";
    tells_group(&rt, rt.alloc(), 3, Some(some), want)?;
    let want = "group g windows=1 refreshes=1 evals=1\ncalc g m 0 bad divzero\n";
    tells_group(&rt, rt.alloc(), 1, Some(bad), want)?;
    let want = "group g windows=0 refreshes=1 evals=0\ncalc g m none\n";
    tells_group(&rt, rt.alloc(), 0, None, want)
}

// Checks that this is the line of a reply to the query in row 5 of reader 1.
fn tells(rt: &impl Abort, alloc: Global, reply: ReplyText, want: &str) -> Result<(), Fail> {
    let text = reply_text(alloc, 1, 5, &reply)?;
    same(rt, text.as_str(), want, "a reply");
    Ok(())
}

#[test]
fn replies_of_tags_are_told(rt: HostRuntime) -> Result<(), Fail> {
    let alloc = rt.alloc();
    tells(
        &rt,
        alloc,
        ReplyText::Tag(Reply::At(Reading::Exact(60))),
        "reply 1 5 exact 60\n",
    )?;
    tells(
        &rt,
        alloc,
        ReplyText::Tag(Reply::At(Reading::Flat(-5))),
        "reply 1 5 flat -5\n",
    )?;
    tells(
        &rt,
        alloc,
        ReplyText::Tag(Reply::At(Reading::Nothing)),
        "reply 1 5 none\n",
    )?;
    let lower = Frac { num: -3, den: 2 };
    tells(
        &rt,
        alloc,
        ReplyText::Tag(Reply::At(Reading::Line(lower))),
        "reply 1 5 line -1\n",
    )?;
    tells(
        &rt,
        alloc,
        ReplyText::Tag(Reply::Window(Some(-8))),
        "reply 1 5 -8\n",
    )?;
    tells(
        &rt,
        alloc,
        ReplyText::Tag(Reply::Window(None)),
        "reply 1 5 none\n",
    )?;
    let list = vec![in alloc; Point { t: 0, v: 0 }, Point { t: 10, v: -1 }]?;
    let points = PointList { list, more: true };
    tells(
        &rt,
        alloc,
        ReplyText::Tag(Reply::Points(points)),
        "reply 1 5 0,0 10,-1 more\n",
    )?;
    let none = PointList {
        list: Vec::new(alloc),
        more: false,
    };
    tells(
        &rt,
        alloc,
        ReplyText::Tag(Reply::Points(none)),
        "reply 1 5 end\n",
    )
}

#[test]
fn snapshots_and_rows_are_told(rt: HostRuntime) -> Result<(), Fail> {
    let alloc = rt.alloc();
    let held = Some(Point { t: 30, v: 5 });
    tells(
        &rt,
        alloc,
        ReplyText::Snap(Snap { taken: 4, held }),
        "reply 1 5 snap 4 30,5\n",
    )?;
    let none = Snap {
        taken: 0,
        held: None,
    };
    tells(&rt, alloc, ReplyText::Snap(none), "reply 1 5 snap 0 none\n")?;
    tells(&rt, alloc, ReplyText::Row(None), "reply 1 5 none\n")?;
    tells(
        &rt,
        alloc,
        ReplyText::Row(Some(CalcValue::Num(-7))),
        "reply 1 5 -7\n",
    )?;
    tells(
        &rt,
        alloc,
        ReplyText::Row(Some(CalcValue::Bad(Bad::NoData))),
        "reply 1 5 bad nodata\n",
    )?;
    tells(
        &rt,
        alloc,
        ReplyText::Row(Some(CalcValue::Bad(Bad::DivZero))),
        "reply 1 5 bad divzero\n",
    )?;
    tells(
        &rt,
        alloc,
        ReplyText::Row(Some(CalcValue::Bad(Bad::Range))),
        "reply 1 5 bad range\n",
    )
}

// The points of so many events of a tag in a drill, as a reply prints them.
fn drilled(alloc: Global, number: u32, tag: u32, events: u32) -> Result<String, Fail> {
    let list = drill_rows(alloc, number, tag, events)?;
    let points = PointList { list, more: false };
    Ok(reply_text(alloc, 1, 5, &ReplyText::Tag(Reply::Points(points)))?)
}

// The number of a drill, the place of a tag, how many events there are, and the points.
const DRILLS: &str = "\
1 0 4 => 738,-2 1051,-14 1602,-24 2212,-5
1 0 17 => 738,-2 1051,-14 1602,-24 2212,-5 2324,2 2473,-2 2657,-16 3482,0 4371,7 5308,10 6274,7 7069,7 7736,-12 8667,-7 8849,2 7925,-8 9443,-15
2147483647 2 17 => 838,-20 1398,-9 2267,10 3095,18 3313,27 3913,21 4833,27 5156,32 5824,44 6527,58 7129,73 8075,76 8899,57 9478,51 10355,65 9576,81 10498,50
";

// The points of the drill of a row, as a reply prints them.
fn drill_told(alloc: Global, words: &str) -> Result<String, Fail> {
    let (number, words) = words.split_once(' ').ok_or("number")?;
    let (tag, events) = words.split_once(' ').ok_or("tag")?;
    drilled(alloc, number.parse()?, tag.parse()?, events.parse()?)
}

#[test]
fn drills_are_generated(rt: HostRuntime) -> Result<(), Fail> {
    for row in DRILLS.lines() {
        let (words, points) = row.split_once(" => ").ok_or("row")?;
        let told = drill_told(rt.alloc(), words)?;
        let want = format!(in rt.alloc(); "reply 1 5 {points} end\n")?;
        same(&rt, told.as_str(), want.as_str(), words);
    }
    Ok(())
}
