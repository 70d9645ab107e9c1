// The poster of a tag.
ghost use Rattle.std.specs.Prelude.{◌≡◌};
ghost use Rattle.trend_num.specs.{Snap};

use crate::rule::View;
use crate::words::Shown;
use crossbeam_utils::atomic::seq_cell::Pass;
use std::marker::Model;
use trend_num::Snap;

/// A pass to post the snapshots of one tag.
#[derive(Drop)]
pub struct Poster {
    pub(crate) tag: u32,
    pub(crate) last: Snap,
    pub(crate) pass: Pass<Shown, View>,
}

impl Model for Poster {
    ghost use Rattle.std.specs.Prelude.{◌≡◌};
    ghost use Rattle.crossbeam_utils.specs.Seq.{cell_view};
    ghost use Rattle.snapshot_table.specs.Rules.{posting};
    ghost use Rattle.snapshot_table.specs.Boards.{Posting};

    ghost Value = { Posting };

    ghost view = { λ p. record { tag = p.tag; cell = p.pass.table_id; last = p.last } };

    ghost invariant = { λ p. cell_view p.pass ≡ posting p.last };
}

impl Poster {
    /// Returns the number of the tag whose snapshots it posts, counted from 0.
    pub fn tag(&self) -> u32
        ensures { result ≡ self.now.tag }
    {
        self.tag
    }

    /// Returns the snapshot that it posted last.
    pub fn last(&self) -> Snap
        ensures { result ≡ self.now.last }
    {
        self.last
    }
}
