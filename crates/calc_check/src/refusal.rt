// Why calculations are refused.

use std::alloc::AllocError;
use trend_num::Name;

/// Why the first name that stands for nothing is refused: the leftmost such name of the first calculation that has one.
#[derive(Clone, Copy, Debug, PartialEq, Eq)]
pub enum CheckNo {
    /// A name in the calculation at place `calc` stands for nothing. A measured name has to be that of an input, and a
    /// name in `calc('..')` that of an earlier calculation. It is not the name of this or a later calculation either.
    UnknownName { calc: u32, name: Name },
    /// A name in the calculation at place `calc` stands for nothing, and is that of this or a later calculation.
    Forward { calc: u32, name: Name },
    /// There was not enough memory.
    WantOfMemory,
}

impl From<AllocError> for CheckNo {
    ghost use Rattle.std.specs.Prelude.{◌≡◌};
    ghost use Rattle.calc_check.specs.declared.refusal.CheckNo.TheVariants.{WantOfMemory};

    ghost from_gives = { λ _ no. no ≡ WantOfMemory };

    fn from(_: AllocError) -> CheckNo {
        CheckNo::WantOfMemory
    }
}
