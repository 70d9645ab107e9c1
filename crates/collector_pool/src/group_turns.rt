// The groups of a plant, as workers use them.
ghost use Rattle.std.specs.Prelude.{ℕ, ◌<◌, IfErr};

use disk_model::Disk;
use std::sync::{Mutex, Wait};
use tag_cell::Cell;
use trend_num::CalcValue;

/// Why a group made no turn, or gave no answer.
#[derive(Clone, Copy, Debug, PartialEq, Eq)]
pub enum TurnNo {
    /// The version of an input is above the number of records that its tag has acknowledged.
    Ahead {
        input: u32,
        version: u32,
        records: u32,
    },
    /// The sheet would have more cells (complete windows times calculations) than it may have; `cells` is how many.
    CellLimit {
        cells: u64,
    },
    /// The copies of a sheet would have more records together than they may have; `records` is how many.
    CopyLimit {
        records: u64,
    },
    /// An earlier save returned DeviceFault.
    Broken,
    /// A call of the group's device failed.
    DeviceFault,
    /// There was no memory.
    WantOfMemory,
}

/// The groups of a plant, each under its lock. Groups are counted from 0.
pub trait GroupTurns<D: Disk>: Sync {
    ghost use Rattle.collector_pool.specs.declared.group_turns.TurnNo.{TurnNo};

    /// How many groups there are.
    ghost groups: { Self → ℕ };

    /// What is known if a group refuses with this reason. The default is that nothing is known.
    ghost Refuses: { Self → ℕ → TurnNo → Type 0 } = { λ _ _ _. Unit {0} };

    /// Makes one turn of a group: a refresh from these cells, and then a save. If the save is refused, the refresh
    /// remains.
    fn refresh<R: Wait>(&self, rt: &R, group: u32, cells: &[Mutex<Cell<D>>]) -> Result<(), TurnNo>
        requires { group < groups self.now }
        ensures { IfErr result (Refuses self.now group) };

    /// Returns the value of a calculation of a group in window `k`, with the place of the answer on the group's tape.
    fn ask<R: Wait>(
        &self,
        rt: &R,
        reader: u32,
        row: u64,
        group: u32,
        calc: u32,
        k: u64,
    ) -> Result<(u64, Option<CalcValue>), TurnNo>
        requires { group < groups self.now }
        ensures { IfErr result (Refuses self.now group) };
}
