// Records on a device.
ghost use Rattle.std.specs.Prelude.{◌≡◌, ◌+◌, ◌*◌, ◌^◌, ◌<◌, ◌≤◌, ℕ, Option, min, length, take, drop, slice_index, Some, IfOk, OnOk, IsErrOf, vec_len, vec_capacity};
ghost use Rattle.disk_model.specs.{Wrote, WroteInPart, seen, moment, CountsFault, IsNoted, Reaches, Reads};
ghost use Rattle.archive_file.specs.declared.failure.ScanNo.TheVariants.{DeviceFault, Damaged};
ghost use Rattle.archive_file.specs.declared.failure.PutNo.TheVariants.{DeviceFault as PutFault, WantOfMemory};
ghost use Rattle.archive_file.specs.Records.{rec_image, recs_image};
ghost use Rattle.trend_num.specs.{Rec, InRange};
ghost use Rattle.archive_file.specs.Places.{Adds, HasRecords, BreaksAt, IsDamage, IsRecordBroken};

use crate::field::take_point;
use crate::record::{REC_LEN, kind_of, read_rec, rec_bytes};
use crate::{PutNo, ScanNo};
use disk_model::Disk;
use std::alloc::{AllocError, Global};
use trend_num::{MAX_T, Rec};

// The most records that are read in one piece. So many have 65,535 bytes.
const PIECE_MOST: u32 = 3_855;

/// Writes records at the place `at`, in bytes, with one write. Returns `WantOfMemory` before the write if the memory
/// cannot be allocated. Returns `DeviceFault` if the write fails.
pub fn put_records<D: Disk>(alloc: Global, dev: &mut D, at: u64, recs: &[Rec]) -> Result<(), PutNo>
    requires room { Reaches (D.device dev.old).trace at }
    ensures noted { IsNoted (Wrote at (recs_image recs.now)) (WroteInPart at (recs_image recs.now)) result
        (D.device dev.old).trace (D.device dev.new).trace }
    ensures unwritten { IsErrOf result WantOfMemory → dev.new ≡ dev.old }
    ensures cause { CountsFault result PutFault (D.device dev.old).faults (D.device dev.new).faults }
    ensures handed { (D.device dev.new).handed ≡ (D.device dev.old).handed }
    ensures clock { OnOk result (moment (D.device dev.new).trace ≡ moment (D.device dev.old).trace + 1) }
    ensures later { moment (D.device dev.old).trace ≤ moment (D.device dev.new).trace }
{
    let Ok(bytes) = bytes_of(alloc, recs) else {
        return Err(PutNo::WantOfMemory);
    };
    match dev.write_at(at, &bytes) {
        Ok(()) => Ok(()),
        Err(_) => Err(PutNo::DeviceFault),
    }
}

// The bytes of records, one after the other.
fn bytes_of(alloc: Global, recs: &[Rec]) -> Result<Vec<u8>, AllocError>
    ensures { IfOk result (λ v. v.items ≡ recs_image recs.now) }
{
    let mut bytes = Vec::new(alloc);
    for r in recs {
        bytes.extend_from_slice(&rec_bytes(*r))?;
    }
    Ok(bytes)
}

/// Reads `count` records at the place `at`, in bytes. Returns `Damaged` with the first byte of the first field that
/// breaks the layout, or with the end of a device that is too short. Returns `DeviceFault` if a call of the device
/// fails, and `WantOfMemory` if the memory cannot be allocated. It allocates the records' memory once, and a buffer of
/// at most 65,535 bytes.
pub fn read_records<D: Disk>(
    alloc: Global,
    dev: &mut D,
    at: u64,
    count: u32,
) -> Result<Vec<Rec>, ScanNo>
    ensures ok { IfOk result (λ v. HasRecords (seen (D.device dev.old).trace) at count v.items) }
    ensures damaged { (a : ℕ) (byte : Option ℕ) → IsErrOf result (Damaged a byte) →
        IsDamage (seen (D.device dev.old).trace) at count a byte }
    ensures cause { CountsFault result DeviceFault (D.device dev.old).faults (D.device dev.new).faults }
    ensures handed { (D.device dev.new).handed ≡ (D.device dev.old).handed }
    ensures same { (D.device dev.new).trace ≡ (D.device dev.old).trace }
{
    let Ok(len) = dev.len() else {
        return Err(ScanNo::DeviceFault);
    };
    let size = REC_LEN as u64 * u64::from(count);
    if len < at || len - at < size {
        return Err(ScanNo::Damaged {
            at: len,
            byte: None,
        });
    }
    let Ok(mut recs) = Vec::with_capacity(alloc, count as usize) else {
        return Err(ScanNo::WantOfMemory);
    };
    let Ok(mut buf) = vec![in alloc; 0; REC_LEN * count.min(PIECE_MOST) as usize] else {
        return Err(ScanNo::WantOfMemory);
    };
    read_pieces(dev, at, count, &mut buf, &mut recs)?;
    Ok(recs)
}

// Reads records at a place and adds them. It reads piece by piece, into a buffer of the first piece's size.
fn read_pieces<D: Disk>(
    dev: &mut D,
    at: u64,
    count: u32,
    buf: &mut [u8],
    recs: &mut Vec<Rec>,
) -> Result<(), ScanNo>
    requires there { Reaches (D.device dev.old).trace (at + 17 * count) }
    requires end { at + 17 * count < 2 ^ 64 }
    requires whole { length buf.old ≡ 17 * min count PIECE_MOST }
    requires room { vec_len recs.old + count ≤ vec_capacity recs.old }
    ensures ok { OnOk result (Adds (seen (D.device dev.old).trace) at count recs.old.items recs.new.items) }
    ensures damaged { (a : ℕ) (byte : Option ℕ) → IsErrOf result (Damaged a byte) →
        IsDamage (seen (D.device dev.old).trace) at count a byte }
    ensures cause { CountsFault result DeviceFault (D.device dev.old).faults (D.device dev.new).faults }
    ensures handed { (D.device dev.new).handed ≡ (D.device dev.old).handed }
    ensures same { (D.device dev.new).trace ≡ (D.device dev.old).trace }
{
    let mut done = 0;
    while done < count {
        let next = (count - done).min(PIECE_MOST);
        let place = at + REC_LEN as u64 * u64::from(done);
        let part = &mut buf[..REC_LEN * next as usize];
        let Ok(()) = dev.read(place, part) else {
            return Err(ScanNo::DeviceFault);
        };
        parse(place, next, part, recs)?;
        done += next;
    }
    Ok(())
}

/// Returns `size` bytes of a device from the place `at` on, also in bytes. The caller ensures that they all lie within
/// the device, so it never returns `Damaged`. Returns `WantOfMemory` before the read if the memory cannot be allocated,
/// and `DeviceFault` if the read fails.
pub fn read_bytes<D: Disk>(
    alloc: Global,
    dev: &mut D,
    at: u64,
    size: usize,
) -> Result<Vec<u8>, ScanNo>
    requires { Reaches (D.device dev.old).trace (at + size) }
    ensures reads { IfOk result (λ v. Reads (D.device dev.old).trace at v.items) }
    ensures len { IfOk result (λ v. length v.items ≡ size) }
    ensures damaged { (a : ℕ) (byte : Option ℕ) → IsErrOf result (Damaged a byte) → ⊥ }
    ensures cause { CountsFault result DeviceFault (D.device dev.old).faults (D.device dev.new).faults }
    ensures handed { (D.device dev.new).handed ≡ (D.device dev.old).handed }
    ensures same { (D.device dev.new).trace ≡ (D.device dev.old).trace }
{
    let Ok(mut bytes) = vec![in alloc; 0; size] else {
        return Err(ScanNo::WantOfMemory);
    };
    let Ok(()) = dev.read(at, &mut bytes) else {
        return Err(ScanNo::DeviceFault);
    };
    Ok(bytes)
}

// Adds the records that these bytes spell. The bytes are those at the place `at` of a device.
fn parse(at: u64, count: u32, bytes: &[u8], recs: &mut Vec<Rec>) -> Result<(), ScanNo>
    requires whole { length bytes.now ≡ 17 * count }
    requires end { at + 17 * count < 2 ^ 64 }
    requires room { vec_len recs.old + count ≤ vec_capacity recs.old }
    ensures ok { OnOk result (Adds bytes.now 0 count recs.old.items recs.new.items) }
    ensures damaged { (a : ℕ) (byte : Option ℕ) → IsErrOf result (Damaged a byte) →
        (p : ℕ) × (a ≡ at + p) × (rs : _) × (k : ℕ) × IsRecordBroken bytes.now 0 count p byte rs k }
    ensures device_fault { IsErrOf result DeviceFault → ⊥ }
    ensures len { OnOk result (vec_len recs.new ≡ vec_len recs.old + count) }
    ensures capacity { vec_capacity recs.new ≡ vec_capacity recs.old }
{
    for k in 0..count {
        let place = REC_LEN * k as usize;
        let b = piece(bytes, place);
        let Some(r) = read_rec(b) else {
            return Err(damage(at + place as u64, b));
        };
        recs.push_reserved(r);
    }
    Ok(())
}

// The bytes of the record at a place.
fn piece(bytes: &[u8], place: usize) -> &[u8]
    requires { place + 17 ≤ length bytes.now }
    ensures value { result.now ≡ take 17 (drop place bytes.now) }
    ensures len { length result.now ≡ 17 }
{
    let (_, rest) = bytes.split_at(place);
    let (b, _) = rest.split_at(REC_LEN);
    b
}

// The damage in 17 bytes at a place, which spell no record.
fn damage(at: u64, b: &[u8]) -> ScanNo
    requires len { length b.now ≡ 17 }
    requires end { at + 17 < 2 ^ 64 }
    requires none { (r : Rec) → InRange r.point → b.now ≡ rec_image r → ⊥ }
    ensures { (k : ℕ) × BreaksAt b.now k × (k < 17) × (result ≡ Damaged (at + k) (Some (slice_index b.now k))) }
{
    let place = bad_place(b);
    ScanNo::Damaged {
        at: at + place as u64,
        byte: Some(b[place]),
    }
}

// The place of the first byte of the first field that breaks a record's layout.
fn bad_place(b: &[u8]) -> usize
    requires len { length b.now ≡ 17 }
    requires none { (r : Rec) → InRange r.point → b.now ≡ rec_image r → ⊥ }
    ensures breaks { BreaksAt b.now result }
    ensures within { result < 17 }
{
    let Some(_) = kind_of(b[0]) else {
        return 0;
    };
    let (point, _) = take_point(&b[1..]);
    if point.t > MAX_T { 1 } else { 9 }
}
