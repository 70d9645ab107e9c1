// Reading a device: a part of given length, and whether it has a layout.
ghost use Rattle.std.specs.Prelude.{◌≡◌, ◌+◌, true, false, length, IfOk};
ghost use Rattle.disk_model.specs.Calls.{HasCause, Reaches, Reads, Shows};
ghost use Rattle.disk_model.specs.Gates.{IsNew, IsBegun};

use crate::{Disk, Failed, OPEN};

/// Returns the `N` bytes of a device from `at` on. They all lie within the device. `at` counts bytes.
pub fn read_part<const N: usize, D: Disk>(dev: &mut D, at: u64) -> Result<[u8; N], Failed>
    requires { Reaches (D.device dev.old).trace (at + N) }
    ensures bytes { IfOk result (λ b. Reads (D.device dev.old).trace at b) }
    ensures len { IfOk result (λ b. length b ≡ N) }
    ensures same { (D.device dev.new).trace ≡ (D.device dev.old).trace }
    ensures counts { HasCause (D.device dev.old).faults (D.device dev.new).faults result }
    ensures handed { (D.device dev.new).handed ≡ (D.device dev.old).handed }
{
    let mut bytes = [0; N];
    dev.read(at, &mut bytes)?;
    Ok(bytes)
}

/// Returns whether no layout was finished on a device: it has at most one byte, or the gate at its beginning is closed.
pub fn is_new<D: Disk>(dev: &mut D) -> Result<bool, Failed>
    ensures new { IfOk result (λ b. b ≡ true → Shows (D.device dev.old).trace IsNew) }
    ensures begun { IfOk result (λ b. b ≡ false → Shows (D.device dev.old).trace IsBegun) }
    ensures same { (D.device dev.new).trace ≡ (D.device dev.old).trace }
    ensures counts { HasCause (D.device dev.old).faults (D.device dev.new).faults result }
    ensures handed { (D.device dev.new).handed ≡ (D.device dev.old).handed }
{
    let len = dev.len()?;
    if len <= 1 {
        return Ok(true);
    }
    let gate = read_part::<1, D>(dev, 0)?;
    Ok(gate[0] != OPEN)
}
