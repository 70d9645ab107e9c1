// The reasons for which a text is not read.
use std::alloc::AllocFailed;
use thiserror::Error;
use trend_num::Reason;

/// Why rows are refused.
#[derive(Clone, Copy, Debug, PartialEq, Eq, Error)]
pub enum RowNo {
    /// The first bad row, counted from 1, and its first reason.
    #[error("row {row} is bad: {reason:?}")]
    BadRow { row: u64, reason: Reason },
    /// There are more rows than there may be. `rows` is one more than that limit.
    #[error("there are {rows} rows or more")]
    TooMany { rows: u64 },
    /// No memory was found.
    #[error("out of memory")]
    WantOfMemory,
}

impl<T: Drop> From<AllocFailed<T>> for RowNo {
    ghost use Rattle.std.specs.Prelude.{◌≡◌};
    ghost use Rattle.point_text.specs.declared.failure.RowNo.TheVariants.{WantOfMemory};

    ghost from_gives = { λ _ no. no ≡ WantOfMemory };

    fn from(_: AllocFailed<T>) -> RowNo {
        RowNo::WantOfMemory
    }
}
