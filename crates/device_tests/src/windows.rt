// A window over a device.
use crate::spelled::{number, rows_tell};
use archive_file::Window;
use disk_model::{Disk, MemDisk};
use std::alloc::Global;
use std::process::Abort;
use std::test::Fail;

// A device has the bytes 1 to 5. First come the place where a window begins, and how many bytes are asked for, twice.
// Then come the bytes that it shows each time, and how many calls of the device there were: the first asks for its
// length.
const SHOWN: &str = "\
0 2 4 => [1, 2] [1, 2, 3, 4] 3
0 0 5 => [] [1, 2, 3, 4, 5] 2
3 1 9 => [4] [4, 5] 3
3 7 9 => [4, 5] [4, 5] 2
2 3 3 => [3, 4, 5] [3, 4, 5] 2
5 1 2 => [] [] 1";

// What the window shows, and how many calls there were, as text.
fn shown_told(
    rt: &impl Abort,
    alloc: Global,
    at: u64,
    first: u64,
    then: u64,
) -> Result<String, Fail> {
    let mut disk = MemDisk::new(b"\x01\x02\x03\x04\x05".to_vec(alloc)?, Vec::new(alloc));
    let len = disk.len()?;
    assert!(rt; at <= len && first <= then);
    let mut window = Window::new(alloc);
    window.widen(&mut disk, len, at, first as usize)?;
    let front = format!(in alloc; "{:?}", window.bytes)?;
    window.widen(&mut disk, len, at, then as usize)?;
    Ok(format!(in alloc; "{front} {:?} {}", window.bytes, disk.calls())?)
}

#[test]
fn a_window_shows_what_is_asked_for(rt: HostRuntime) -> Result<(), Fail> {
    rows_tell(&rt, SHOWN, |given| {
        let (at, sizes) = given.split_once(' ').ok_or("place")?;
        let (first, then) = sizes.split_once(' ').ok_or("sizes")?;
        let at = number(&rt, at);
        shown_told(&rt, rt.alloc(), at, number(&rt, first), number(&rt, then))
    })
}
