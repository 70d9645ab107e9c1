// The device of a group as bytes: its first block, and devices that are read or damaged.
use crate::tables::rows_tell;
use archive_file::ScanNo;
use calc_refresh::CalcValue;
use disk_model::MemDisk;
use group_layout::{Block, BlockRow, Found, SavedGroup, block_bytes, read_group};
use std::alloc::Global;
use std::test::Fail;

// The definition text of a group of one tag and one calculation.
const TEXT: &[u8; 23] = b"g,0,1000,T1\nm=avg('T1')";

// What comes before the text: the gate, the letters, the length of the text.
const HEAD: [u8; 9] = [0xa5, b'P', b'H', b'G', b'1', 0, 0, 0, 23];

// Its first block, with the next gate: the number, the version, the windows, how many rows there are, and the rows 20,
// 50, 20.
const FIRST: [u8; 72] = [
    0, 0, 0, 0, 0, 0, 0, 1, 0, 0, 0, 3, 0, 0, 0, 3, 0, 0, 0, 3, //
    0, 0, 0, 0, 0, 0, 0, 0, 0, 0, 0, 0, 0, 0, 0, 0, 20, //
    0, 0, 0, 0, 0, 0, 0, 1, 0, 0, 0, 0, 0, 0, 0, 0, 50, //
    0, 0, 0, 0, 0, 0, 0, 2, 0, 0, 0, 0, 0, 0, 0, 0, 20, 0,
];

// A place on that device, and the value that its byte gets. Then what is read: the version, the number of the last
// save, where the next block goes, and the rows; or the place of the damage and the byte there.
const ROWS: &str = "\
44 3 => version 3 number 1 end 104 rows 20 50 20
44 5 => version 5 number 1 end 104 rows 20 50 20
45 255 => damaged 32 165
86 7 => version 3 number 1 end 104 rows 20 7 20
32 0 => version 0 number 0 end 32 rows
9 104 => other
0 0 => new
1 81 => damaged 1 81
4 50 => damaged 4 50
8 255 => damaged 105 none
33 1 => damaged 33 1
40 2 => damaged 33 0
48 4 => damaged 32 165
48 2 => damaged 91 0
50 255 => damaged 105 none
52 2 => damaged 32 165
52 4 => damaged 105 none
53 1 => damaged 53 1
57 1 => damaged 57 1
61 4 => damaged 61 4
61 3 => damaged 62 0
62 127 => damaged 62 127
77 0 => damaged 74 0
104 165 => damaged 105 none";

// Returns the device after the first save, with another byte at this place.
fn saved_once(alloc: Global, at: usize, byte: u8) -> Result<MemDisk, Fail> {
    let mut bytes = Vec::new(alloc);
    bytes.extend_from_slice(&HEAD)?;
    bytes.extend_from_slice(TEXT)?;
    bytes.push(0xa5)?;
    bytes.extend_from_slice(&FIRST)?;
    if at < bytes.len() {
        bytes[at] = byte;
    }
    Ok(MemDisk::new(bytes, Vec::new(alloc)))
}

// Returns what was saved, as a text.
fn saved_text(alloc: Global, saved: &SavedGroup) -> Result<String, Fail> {
    let version = saved.versions.first().ok_or("a version")?;
    let mut text = format!(in alloc;
        "version {} number {} end {} rows",
        version, saved.number, saved.end
    )?;
    for row in &saved.rows {
        for value in row {
            if let CalcValue::Num(n) = value {
                text.push_str(&format!(in alloc; " {n}")?)?;
            }
        }
    }
    Ok(text)
}

// Reads a device, and returns the result as a text.
fn read_text(alloc: Global, dev: &mut MemDisk) -> Result<String, Fail> {
    let text = match read_group(alloc, dev, TEXT, 1, 1) {
        Ok(Found::New) => format!(in alloc; "new")?,
        Ok(Found::Other) => format!(in alloc; "other")?,
        Ok(Found::Saved(saved)) => saved_text(alloc, &saved)?,
        Err(ScanNo::Damaged { at, byte: None }) => format!(in alloc; "damaged {at} none")?,
        Err(
            ScanNo::Damaged {
                at,
                byte: Some(byte),
            },
        ) => format!(in alloc; "damaged {at} {byte}")?,
        Err(_) => format!(in alloc; "not read")?,
    };
    Ok(text)
}

// What is read of the device of a row.
fn told(alloc: Global, change: &str) -> Result<String, Fail> {
    let (at, byte) = change.split_once(' ').ok_or("a byte")?;
    let mut dev = saved_once(alloc, at.parse::<usize>()?, byte.parse::<u8>()?)?;
    read_text(alloc, &mut dev)
}

#[test]
fn a_device_is_read_or_its_first_damage_told(rt: HostRuntime) -> Result<(), Fail> {
    rows_tell(&rt, ROWS, " => ", |change| told(rt.alloc(), change))
}

#[test]
fn a_block_has_its_bytes(rt: HostRuntime) -> Result<(), Fail> {
    let mut rows = Vec::new(rt.alloc());
    for (window, value) in [(0, 20), (1, 50), (2, 20)] {
        rows.push(BlockRow {
            calc: 0,
            window,
            kind: 0,
            value,
        })?;
    }
    let block = Block {
        number: 1,
        versions: vec![in rt.alloc(); 3; 1]?,
        windows: 3,
        rows,
    };
    let bytes = block_bytes(rt.alloc(), &block)?;
    assert!(&rt; bytes.as_slice() == FIRST.as_slice());
    Ok(())
}
