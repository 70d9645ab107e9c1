// Statuses with their codes and lines.
use plant_status::{
    FileId, OpenPasses, Pass, Passes, Place, Reason, Seen, Status, TagDef, Unit, What, code, line,
};
use std::process::Abort;
use trend_num::{Tuning, name_from};

const WHATS: [What; 13] = [
    What::FileBytes,
    What::TextBytes,
    What::Rows,
    What::Tags,
    What::Collectors,
    What::Readers,
    What::Queries,
    What::Groups,
    What::Calcs,
    What::Records,
    What::StoreRecords,
    What::Copies,
    What::Cells,
];

// The line of each quantity that is over its limit, with the number 7.
const LIMITS: &str = "\
fault: limit file_bytes 7
fault: limit text_bytes 7
fault: limit rows 7
fault: limit tags 7
fault: limit collectors 7
fault: limit readers 7
fault: limit queries 7
fault: limit groups 7
fault: limit calcs 7
fault: limit records 7
fault: limit store_records 7
fault: limit copies 7
fault: limit cells 7";

// Checks that a status has this code and this line.
fn tells(rt: &impl Abort, status: Status, want_code: u8, want: &str) {
    assert_eq!(rt; code(&status), want_code, "{want}");
    let told = line(&status);
    match told.bytes().split_last() {
        None => assert!(rt; want.is_empty()),
        Some((end, text)) => assert!(rt; *end == b'\n' && text == want.as_bytes(), "{want}"),
    }
}

#[test]
fn files_have_their_names(rt: HostRuntime) {
    let row = u64::MAX;
    let reason = Reason::Number;
    let file = FileId::Collector(u32::MAX);
    let want = "fault: row collector 4294967296 18446744073709551615 number";
    tells(&rt, Status::BadRow { file, row, reason }, 4, want);
    let file = FileId::Reader(9);
    tells(&rt, Status::ReadFault { file }, 5, "fault: read reader 10");
    let (file, rule, place, at) = (FileId::Base, 5, 1, 0);
    let want = "fault: text base rule 5 place 1 at 0";
    tells(
        &rt,
        Status::BadText {
            file,
            rule,
            place,
            at,
        },
        3,
        want,
    );
    let file = FileId::Plan;
    tells(&rt, Status::ReadFault { file }, 5, "fault: read plan");
    let file = FileId::Calendar;
    tells(&rt, Status::ReadFault { file }, 5, "fault: read calendar");
    let file = FileId::Input;
    tells(&rt, Status::ReadFault { file }, 5, "fault: read input");
}

#[test]
fn devices_have_their_units(rt: HostRuntime) {
    let unit = Unit::Group(u32::MAX);
    tells(
        &rt,
        Status::DeviceFault { unit },
        7,
        "fault: device group 4294967296",
    );
    let unit = Unit::Log;
    tells(&rt, Status::DeviceFault { unit }, 7, "fault: device log");
    let (unit, at, byte) = (Unit::Tag(3), 66_639, None);
    tells(
        &rt,
        Status::Damaged { unit, at, byte },
        8,
        "fault: damaged tag 4 66639 end",
    );
    let byte = Some(0x0a);
    tells(
        &rt,
        Status::Damaged { unit, at, byte },
        8,
        "fault: damaged tag 4 66639 0a",
    );
    let tuning = Tuning {
        exc_dev: 0,
        exc_max: 1,
        comp_dev: 0,
        comp_min: 0,
        comp_max: 1,
    };
    let found = TagDef {
        name: name_from(b"T1").expect(&rt, "a name"),
        tuning,
        step: false,
    };
    let wanted = TagDef {
        step: true,
        ..found
    };
    let tag = 1;
    tells(
        &rt,
        Status::OtherTag { tag, found, wanted },
        9,
        "fault: other tag 2",
    );
}

#[test]
fn a_run_ends_in_these(rt: HostRuntime) {
    tells(&rt, Status::Done, 0, "");
    tells(&rt, Status::BadWords, 2, "fault: words");
    tells(&rt, Status::WriteFault, 6, "");
    let mismatch = Status::Mismatch {
        place: Place::Version { group: 0, input: 0 },
        kept: Seen::Number(2),
        told: Seen::Number(3),
    };
    tells(&rt, mismatch, 11, "fault: mismatch");
    tells(&rt, Status::Halted { worker: 0 }, 12, "fault: halted 0");
    tells(&rt, Status::WantOfMemory, 13, "fault: memory");
    tells(
        &rt,
        Status::OtherPlant { at: 7 },
        15,
        "fault: other plant 7",
    );
    tells(&rt, Status::BadName { word: 4 }, 16, "fault: name 4");
    assert_eq!(&rt; WHATS.len(), LIMITS.lines().count());
    for (what, want) in WHATS.into_iter().zip(LIMITS.lines()) {
        tells(&rt, Status::Limit { what, number: 7 }, 10, want);
    }
}

#[test]
fn open_passes_stay_open(rt: HostRuntime) {
    let mut passes = OpenPasses;
    let mut one = passes.hand(7);
    assert!(rt; one.pass(0) && one.pass(u64::MAX));
    passes.give_back(one);
}
