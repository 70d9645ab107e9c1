// Errors of reading and writing on a device.
ghost use Rattle.std.specs.Prelude.{◌≡◌, ℕ, ◌+◌, ◌^◌, ◌<◌, Option};
ghost use Rattle.archive_file.specs.declared.failure.ScanNo.TheVariants.{Damaged, DeviceFault as Fault};

use thiserror::Error;

/// A call of a device failed.
#[derive(Debug, Clone, Copy, PartialEq, Eq, Error)]
#[error("a call of a device failed")]
pub struct DeviceFault;

/// Why a read of a device was refused.
#[derive(Debug, Clone, Copy, PartialEq, Eq, Error)]
pub enum ScanNo {
    /// A call of the device failed.
    #[error("a call of a device failed")]
    DeviceFault,
    /// The byte at `at`, which is the first of a field, breaks the layout. `at` counts bytes from the start of the
    /// device. `byte` is `None` if the device ends there.
    #[error("damaged at {at}")]
    Damaged { at: u64, byte: Option<u8> },
    /// Memory could not be allocated.
    #[error("out of memory")]
    WantOfMemory,
}

impl ScanNo {
    /// Returns the refusal of a device for the refusal of a piece of it. The piece begins at the place `from`, from
    /// which the place of the damage counts.
    pub fn behind(self, from: u64) -> ScanNo
        requires { (a : ℕ) (byte : Option ℕ) → self ≡ Damaged a byte → from + a < 2 ^ 64 }
        ensures damaged { (a : ℕ) (byte : Option ℕ) → result ≡ Damaged a byte
            → (b : ℕ) × (self ≡ Damaged b byte) × (a ≡ from + b) }
        ensures fault { result ≡ Fault → self ≡ Fault }
    {
        match self {
            ScanNo::Damaged { at, byte } => ScanNo::Damaged {
                at: from + at,
                byte,
            },
            ScanNo::DeviceFault => ScanNo::DeviceFault,
            ScanNo::WantOfMemory => ScanNo::WantOfMemory,
        }
    }
}

/// Why something was not written to a device.
#[derive(Debug, Clone, Copy, PartialEq, Eq, Error)]
pub enum PutNo {
    /// A call of the device failed.
    #[error("a call of a device failed")]
    DeviceFault,
    /// Memory could not be allocated.
    #[error("out of memory")]
    WantOfMemory,
}
