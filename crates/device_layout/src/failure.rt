// The reasons for which a tag's device is not opened.
use disk_model::Failed;
use thiserror::Error;
use trend_num::TagDef;

/// Why a tag's device is not opened.
#[derive(Debug, Clone, Copy, PartialEq, Eq, Error)]
pub enum OpenNo {
    /// A call of the device failed.
    #[error("a call of the device failed")]
    DeviceFault,
    /// The byte at `at`, the first of a field, breaks the layout. `byte` is `None` if the device ends there.
    #[error("damaged at {at}")]
    Damaged { at: u64, byte: Option<u8> },
    /// The device is that of a tag of another name or another kind.
    #[error("another tag's device")]
    OtherTag { found: TagDef, wanted: TagDef },
    /// The tag has to be retuned, and has too many records for that.
    #[error("no room to retune beside {records} records")]
    Full { records: u32 },
    /// There was no memory.
    #[error("out of memory")]
    WantOfMemory,
}

impl From<Failed> for OpenNo {
    ghost use Rattle.std.specs.Prelude.{◌≡◌};
    ghost use Rattle.device_layout.specs.declared.failure.OpenNo.TheVariants.{DeviceFault};

    ghost from_gives = { λ _ why. why ≡ DeviceFault };

    fn from(_failed: Failed) -> OpenNo {
        OpenNo::DeviceFault
    }
}
