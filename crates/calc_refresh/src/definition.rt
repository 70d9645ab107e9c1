// The definition of a group, as its sheet gets it.
ghost use Rattle.std.specs.Prelude.{◌≡◌};
ghost use Rattle.calc_refresh.specs.Sheet.{grid_of};

use calc_eval::Checked;
use sheet_law::Grid;

/// The parts of a group's definition: 1 to 64 inputs, 1 to 64 calculations, and a grid of windows. The calculations
/// were checked with the names of that many inputs.
#[derive(Drop)]
pub struct GroupDefParts {
    /// How many inputs there are.
    pub inputs: u32,
    /// Where the first window starts, in milliseconds from 1970.
    pub start: u64,
    /// How long a window is, 1 to 10^12 milliseconds.
    pub period: u64,
    /// The calculations, in order.
    pub calcs: Checked,
}

impl GroupDefParts {
    // The grid of the windows.
    pub(crate) fn grid(&self) -> Grid
        ensures { result ≡ grid_of self.now.start self.now.period }
    {
        Grid {
            start: self.start,
            period: self.period,
        }
    }
}
