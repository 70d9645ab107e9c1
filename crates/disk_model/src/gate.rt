// Writing while a gate is closed, and closing gates.
ghost use Rattle.std.specs.Prelude.{◌≡◌, ◌+◌, ◌<◌, ◌≤◌, ◌^◌, [], ◌∷◌, ◌≢◌, length, slice_index, OnOk};
ghost use Rattle.disk_model.specs.Traces.{seen, written, moment};
ghost use Rattle.disk_model.specs.Images.{Now, FromOld, IsSettled, IsOutside};
ghost use Rattle.disk_model.specs.Moments.{During};
ghost use Rattle.disk_model.specs.Calls.{HasCause, Reaches, Sees, Shows};
ghost use Rattle.disk_model.specs.Gates.{IsShut, IsGuarded, HasGatesOf, AreShut, IsClosing, open_byte, open_gate, open_gates};

use crate::{Disk, Failed};

/// The byte of an open gate. Any other byte is that of a closed one.
pub const OPEN: u8 = 0xa5;

// The byte that closes a gate.
const CLOSED: u8 = 0;

/// Writes `bytes` at `at`, syncs, opens the gate, and syncs. The bytes count once the gate is open. At Ok, all of it is
/// on the device. After a failure the device has to be opened again. `at` and `gate` count bytes.
pub fn write_guarded<D: Disk>(dev: &mut D, at: u64, bytes: &[u8], gate: u64) -> Result<(), Failed>
    requires room { Reaches (D.device dev.old).trace at }
    requires apart { IsOutside at (length bytes.now) gate }
    requires shut { Now (D.device dev.old).trace (IsShut gate) }

    // A crash at any moment leaves an image from before, changed so: the bytes are whole and the gate is open, or it is
    // closed.
    ensures any_moment { During (D.device dev.old).trace (D.device dev.new).trace
        (FromOld (D.device dev.old).trace (IsGuarded at bytes.now gate)) }

    ensures reads { OnOk result (Sees (D.device dev.new).trace
        (written (written (seen (D.device dev.old).trace) at bytes.now) gate (open_byte ∷ []))) }
    ensures settled { OnOk result (IsSettled (D.device dev.new).trace) }
    ensures clock { OnOk result (moment (D.device dev.new).trace ≡ moment (D.device dev.old).trace + 4) }
    ensures later { moment (D.device dev.old).trace ≤ moment (D.device dev.new).trace }
    ensures cause { HasCause (D.device dev.old).faults (D.device dev.new).faults result }
    ensures handed { (D.device dev.new).handed ≡ (D.device dev.old).handed }
{
    dev.write_at(at, bytes)?;
    dev.sync()?;
    dev.write_at(gate, &[OPEN])?;
    dev.sync()
}

/// Closes those of the `count` gates from `at` on that read open, and syncs. It leaves a gate that reads closed as it
/// is, because a crash during another write might open it. After a failure the device has to be opened again. `at`
/// counts bytes.
pub fn close_gates<D: Disk>(dev: &mut D, at: u64, count: u32) -> Result<(), Failed>
    requires end { at + count < 2 ^ 64 }
    requires room { Reaches (D.device dev.old).trace (at + count) }
    requires gates { Now (D.device dev.old).trace (HasGatesOf (seen (D.device dev.old).trace) at count) }

    // A crash at any moment leaves an image from before with some of its open gates closed or torn.
    ensures any_moment { During (D.device dev.old).trace (D.device dev.new).trace
        (FromOld (D.device dev.old).trace (IsClosing at count)) }

    ensures reads { OnOk result (IsClosing at count (seen (D.device dev.old).trace) (seen (D.device dev.new).trace)) }
    ensures shut { OnOk result (Now (D.device dev.new).trace (AreShut at count)) }
    ensures settled { OnOk result (IsSettled (D.device dev.new).trace) }
    ensures later { moment (D.device dev.old).trace ≤ moment (D.device dev.new).trace }
    ensures clock { moment (D.device dev.new).trace ≤ moment (D.device dev.old).trace + (count + 1) }
    ensures calls { OnOk result (Shows (D.device dev.old).trace (λ c. moment (D.device dev.new).trace ≡ moment (D.device dev.old).trace + (open_gates at count c + 1))) }
    ensures cause { HasCause (D.device dev.old).faults (D.device dev.new).faults result }
    ensures handed { (D.device dev.new).handed ≡ (D.device dev.old).handed }
{
    for k in 0..count {
        close_gate(dev, at + u64::from(k))?;
    }
    dev.sync()
}

// Closes a gate if it reads open. It does not sync.
fn close_gate<D: Disk>(dev: &mut D, gate: u64) -> Result<(), Failed>
    requires room { Reaches (D.device dev.old).trace (gate + 1) }
    requires gates { Now (D.device dev.old).trace (HasGatesOf (seen (D.device dev.old).trace) gate 1) }
    ensures any_moment { During (D.device dev.old).trace (D.device dev.new).trace
        (FromOld (D.device dev.old).trace (IsClosing gate 1)) }
    ensures reads { OnOk result (IsClosing gate 1 (seen (D.device dev.old).trace) (seen (D.device dev.new).trace)) }
    ensures shut { OnOk result (slice_index (seen (D.device dev.new).trace) gate ≢ open_byte) }
    ensures later { moment (D.device dev.old).trace ≤ moment (D.device dev.new).trace }
    ensures clock { moment (D.device dev.new).trace ≤ moment (D.device dev.old).trace + 1 }
    ensures calls { OnOk result (Shows (D.device dev.old).trace (λ c. moment (D.device dev.new).trace ≡ moment (D.device dev.old).trace + open_gate gate c)) }
    ensures cause { HasCause (D.device dev.old).faults (D.device dev.new).faults result }
    ensures handed { (D.device dev.new).handed ≡ (D.device dev.old).handed }
{
    let mut byte = [0];
    dev.read(gate, &mut byte)?;
    if byte[0] != OPEN {
        return Ok(());
    }
    dev.write_at(gate, &[CLOSED])
}
