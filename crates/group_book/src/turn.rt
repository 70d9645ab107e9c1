// What the calls of a book leave on its tape.
use trend_num::CalcValue;

/// What one call of a book left on its tape.
#[derive(Drop)]
pub enum Turn {
    /// Records were taken into account.
    Refresh {
        /// How many records of each input are taken into account from then on.
        versions: Vec<u32>,
    },
    /// A question was answered.
    Ask {
        /// The reader, counted from 0.
        reader: u32,
        /// The row of the reader's file, counted from 1.
        row: u64,
        /// The calculation, counted from 0.
        calc: u32,
        /// The window, counted from 0.
        k: u64,
        /// The value; `None` if there is no such calculation, or the window was not complete.
        reply: Option<CalcValue>,
    },
    /// The rows were saved.
    Save {
        /// The number of the save on its device, counted from 1.
        number: u64,
        /// The device's clock after the last call of this save.
        moment: u64,
    },
}
