// Why a text, a row or a count is refused.

use std::alloc::{AllocError, AllocFailed};

/// A quantity that has a limit.
#[derive(Clone, Copy, Debug, PartialEq, Eq)]
pub enum What {
    /// Bytes of standard input, or of a collector's or a reader's file.
    FileBytes,
    /// Bytes of a base, a plan or a calendar.
    TextBytes,
    /// Raw rows of a collector's file, of all collectors of a plan, or of the log of a plant; or lines of standard input.
    Rows,
    /// Tags of a base.
    Tags,
    /// Collectors of a plan.
    Collectors,
    /// Readers of a plan.
    Readers,
    /// Queries of one reader.
    Queries,
    /// Groups of a base.
    Groups,
    /// Calculations of one group.
    Calcs,
    /// Records of one tag.
    Records,
    /// Records of all tags of a base together, when they are opened.
    StoreRecords,
    /// Records that a group has copied from its inputs.
    Copies,
    /// Complete windows of one group, times its calculations.
    Cells,
}

/// Why a row is refused. The reasons are tested in this order.
#[derive(Clone, Copy, Debug, PartialEq, Eq)]
pub enum Reason {
    /// Its number of fields is not that of its form.
    Fields,
    /// Its first field is no verb.
    Verb,
    /// A field is not a known name.
    Name,
    /// A field is not a numeral.
    Number,
    /// A number is outside its range.
    Range,
}

/// Memory could not be allocated.
#[derive(Clone, Copy, Debug, PartialEq, Eq)]
pub struct WantOfMemory;

impl From<AllocError> for WantOfMemory {
    ghost use Rattle.std.specs.Prelude.{◌≡◌};

    ghost from_gives = { λ _ no. no ≡ record {} };

    fn from(_: AllocError) -> WantOfMemory {
        WantOfMemory
    }
}

impl<T: Drop> From<AllocFailed<T>> for WantOfMemory {
    ghost use Rattle.std.specs.Prelude.{◌≡◌};

    ghost from_gives = { λ _ no. no ≡ record {} };

    fn from(_: AllocFailed<T>) -> WantOfMemory {
        WantOfMemory
    }
}
