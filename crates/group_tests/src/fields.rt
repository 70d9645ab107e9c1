// The fields of a layout in memory.
use crate::tables::rows_tell;
use archive_file::{Field, ScanNo, byte_at, check, long_at, short_at};
use std::alloc::Global;
use std::test::Fail;

// Twelve bytes.
const IMAGE: [u8; 12] = [0, 0, 1, 2, 0, 0, 0, 0, 0, 0, 1, 0];

// Places of fields of four bytes, which keep their rule if they begin with a 0. Then the first field that is refused.
const ROWS: &str = "\
0 4 8 => kept
0 2 8 => 2 byte 1
4 9 2 => 12 end
13 2 => 12 end";

// Checks fields at these places, and returns the first refusal.
fn told(alloc: Global, places: &str) -> Result<Option<ScanNo>, Fail> {
    let mut fields = Vec::new(alloc);
    for place in places.split(' ') {
        let place = place.parse::<usize>().map_err(|_| "a place")?;
        fields.push(Field::new(place, 4, byte_at(&IMAGE, place) == 0))?;
    }
    Ok(check(&IMAGE, &fields).err())
}

// The first field that is refused, as a text.
fn first_told(alloc: Global, places: &str) -> Result<String, Fail> {
    match told(alloc, places)? {
        None => Ok(String::from_str(alloc, "kept")?),
        Some(ScanNo::Damaged { at, byte: Some(b) }) => Ok(format!(in alloc; "{at} byte {b}")?),
        Some(ScanNo::Damaged { at, byte: None }) => Ok(format!(in alloc; "{at} end")?),
        Some(_) => Err("another refusal".into()),
    }
}

#[test]
fn the_first_field_that_is_not_kept_is_told(rt: HostRuntime) -> Result<(), Fail> {
    rows_tell(&rt, ROWS, " => ", |places| first_told(rt.alloc(), places))
}

#[test]
fn numbers_have_their_highest_byte_first(rt: HostRuntime) -> Result<(), Fail> {
    assert!(&rt; short_at(&IMAGE, 0) == 258);
    assert!(&rt; short_at(&IMAGE, 10) == 16_777_216);
    assert!(&rt; long_at(&IMAGE, 4) == 256);
    assert!(&rt; byte_at(&IMAGE, 12) == 0);
    Ok(())
}
