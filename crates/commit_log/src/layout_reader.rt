// Reading a log's device.
ghost use Rattle.std.specs.Prelude.{◌≡◌, ℕ, Option, IfOk, IsErrOf};
ghost use Rattle.disk_model.specs.{CountsFault, Shows};
ghost use Rattle.commit_log.specs.declared.refusal.LogNo.TheVariants.{Damaged, DeviceFault, OtherPlant, TooMany};
ghost use Rattle.commit_log.specs.Images.{IsLogDamage, IsOfOther};
ghost use Rattle.commit_log.specs.Openings.{HasRowsOf, IsFound};

use crate::block_reader::{Stored, read_blocks};
use crate::difference::first_difference;
use crate::refusal::LogNo;
use archive_file::read_text;
use disk_model::Disk;
use std::alloc::Global;

// The letters after the gate of the layout.
pub(crate) const LETTERS: [u8; 4] = *b"PHC1";

// Reads the log of a plant with this text and so many tags. A new device has none: it returns None. It returns Damaged
// with the first byte of the first field that breaks the layout, and OtherPlant with the place where the text differs.
pub(crate) fn read_log<D: Disk>(
    alloc: Global,
    dev: &mut D,
    plant: &[u8],
    tags: u32,
) -> Result<Option<Stored>, LogNo>
    ensures found { IfOk result (λ f. Shows (D.device dev.old).trace (IsFound plant.now tags f)) }
    ensures rows { IfOk result (HasRowsOf tags) }
    ensures damaged { (a : ℕ) (byte : Option ℕ) → IsErrOf result (Damaged a byte)
        → Shows (D.device dev.old).trace (λ c. IsLogDamage plant.now tags c a byte) }
    ensures other { (at : ℕ) → IsErrOf result (OtherPlant at) → Shows (D.device dev.old).trace (λ c. IsOfOther plant.now c at) }
    ensures not_many { (n : ℕ) → IsErrOf result (TooMany n) → ⊥ }
    ensures cause { CountsFault result DeviceFault (D.device dev.old).faults (D.device dev.new).faults }
    ensures handed { (D.device dev.new).handed ≡ (D.device dev.old).handed }
    ensures same { (D.device dev.new).trace ≡ (D.device dev.old).trace }
{
    let Some(text) = read_text(alloc, dev, LETTERS)? else {
        return Ok(None);
    };
    if let Some(at) = first_difference(&text, plant) {
        return Err(LogNo::OtherPlant { at: at as u32 });
    }
    let stored = read_blocks(alloc, dev, 9 + text.len() as u64, tags)?;
    Ok(Some(stored))
}
