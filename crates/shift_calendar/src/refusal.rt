// Why the text of a calendar is refused.

use thiserror::Error;
use trend_num::WantOfMemory;

/// Why a text is no calendar.
#[derive(Debug, Clone, Copy, PartialEq, Eq, Error)]
pub enum CalNo {
    /// The first rule that the text breaks, from 1 to 6.
    #[error("rule {rule} is broken")]
    BadText { rule: u8 },
    /// No memory was found.
    #[error("out of memory")]
    WantOfMemory,
}

impl From<WantOfMemory> for CalNo {
    ghost use Rattle.std.specs.Prelude.{◌≡◌};
    ghost use Rattle.shift_calendar.specs.declared.refusal.CalNo.TheVariants.{WantOfMemory};

    ghost from_gives = { λ _ why. why ≡ WantOfMemory };

    fn from(_: WantOfMemory) -> CalNo {
        CalNo::WantOfMemory
    }
}
