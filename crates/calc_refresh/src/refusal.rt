// Why a sheet refuses a call.
ghost use Rattle.std.specs.Prelude.{◌≡◌};
ghost use Rattle.calc_refresh.specs.declared.refusal.SheetNo.TheVariants.{WantOfMemory};

use std::alloc::AllocError;

/// Why a sheet is not made, or not changed.
#[derive(Clone, Copy, Debug, PartialEq, Eq)]
pub enum SheetNo {
    /// A saved row does not have exactly one value for each complete window. `windows` is how many windows are
    /// complete, and `rows` is how many values the first such row has.
    Shape { windows: u64, rows: u64 },
    /// The sheet would have this many cells (complete windows times calculations), more than it may have.
    CellLimit { cells: u64 },
    /// All copies together would have this many records, more than a sheet may have.
    CopyLimit { records: u64 },
    /// No memory was found.
    WantOfMemory,
}

impl From<AllocError> for SheetNo {
    ghost from_gives = { λ e no. no ≡ WantOfMemory };

    fn from(_: AllocError) -> SheetNo {
        SheetNo::WantOfMemory
    }
}
