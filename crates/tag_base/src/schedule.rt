// What a plan is.
ghost use Rattle.std.specs.Prelude.{◌≤◌, vec_len};

use crate::file_name::FileName;

/// A refresher: the group that it brings up to date, and in how many turns.
#[derive(Clone, Copy, Debug, PartialEq, Eq)]
pub struct Refresher {
    /// The place of the group in the base.
    pub group: u32,
    /// How many turns it takes in a run.
    pub turns: u32,
}

/// A plan: the files of the collectors and of the readers of a run, and the refreshers of its groups.
#[derive(Debug, Drop)]
pub struct Plan {
    pub collectors: Vec<FileName>,
    pub readers: Vec<FileName>,
    pub refreshers: Vec<Refresher>,
    ghost few_collectors: { vec_len collectors ≤ 16 },
    ghost few_readers: { vec_len readers ≤ 16 },
}
