// The lookers of a board.
use crate::rule::View;
use crate::words::Shown;
use crossbeam_utils::atomic::seq_cell::Pass;
use std::marker::Model;

/// A pass to look at each tag of a board.
#[derive(Drop)]
pub struct Looker {
    pub(crate) passes: Vec<Pass<Shown, View>>,
}

impl Model for Looker {
    ghost use Rattle.std.specs.Prelude.{map};
    ghost use Rattle.crossbeam_utils.specs.Seq.{cell_view};
    ghost use Rattle.snapshot_table.specs.Boards.{Looking};
    ghost use Rattle.snapshot_table.specs.declared.rule.View.{View};
    ghost use Rattle.snapshot_table.specs.declared.words.Shown.{Shown};

    ghost Value = { Looking };

    ghost view = { λ l. record {
      cells = map (λ p. p.table_id) l.passes.items;
      seen = map (λ p. (cell_view {T = Shown} {V = View} p).snap) l.passes.items;
    } };
}
