// The answer to a query.
ghost use Rattle.std.specs.Prelude.{◌≡◌, IfOk, length};
ghost use Rattle.trend_num.specs.{IsTagQuery};
ghost use Rattle.trend_model.specs.{listed};
ghost use Rattle.trend_report.specs.{answer_text, told_text};
ghost use Rattle.store_commands.specs.TagContents.{AreContentsOf};
ghost use Rattle.calc_refresh.specs.{lists_of};
ghost use Rattle.group_layout.specs.{cell_of};
ghost use Rattle.store_commands.specs.Replies.{IsAsked, answer_in, rows_in, told};

use group_book::GroupHistory;
use interp_read::{Reply, TagQuery};
use late_insert::Content;
use std::alloc::Global;
use tag_core::TagCore;
use trend_num::{CalcValue, Snap, WantOfMemory};
use trend_report::ReplyText;
use value_rows::Query;
use weighted_total::answer;

// Answers a query of one of these tags or groups.
pub(crate) fn reply_to(
    alloc: Global,
    cores: &[TagCore],
    contents: &[Content],
    groups: &[GroupHistory],
    query: Query,
) -> Result<ReplyText, WantOfMemory>
    requires contents { AreContentsOf cores.now contents.now }
    requires asked { IsAsked (length cores.now) (length groups.now) query }
    ensures { IfOk result (λ reply. told_text reply ≡ told cores.now (rows_in groups.now) query) }
{
    match query {
        Query::Tag { tag, query } => {
            let place = tag as usize;
            let reply = answer_of(alloc, &cores[place], &contents[place], query)?;
            Ok(ReplyText::Tag(reply))
        }
        Query::Snap { tag } => Ok(ReplyText::Snap(snapshot(&cores[tag as usize]))),
        Query::Row { group, calc, k } => {
            let value = value_at(&groups[group as usize], calc, k);
            Ok(ReplyText::Row(value))
        }
    }
}

// The value of a calculation in a window, from the rows of its group. `None` if the rows have no such value.
fn value_at(group: &GroupHistory, calc: u32, k: u64) -> Option<CalcValue>
    ensures { result ≡ cell_of (lists_of group.now.rows.items) calc k }
{
    group.rows.get(calc as usize)?.get(k as usize).copied()
}

// The snapshot of a tag.
fn snapshot(core: &TagCore) -> Snap
    ensures taken { result.taken ≡ core.now.state.summary.taken }
    ensures held { result.held ≡ core.now.state.summary.held }
{
    Snap {
        taken: core.taken(),
        held: core.held(),
    }
}

// A tag's answer to a query.
#[tactic(auto, using(crate::proofs::Answering::answer_told))]
fn answer_of(
    alloc: Global,
    core: &TagCore,
    content: &Content,
    query: TagQuery,
) -> Result<Reply, WantOfMemory>
    requires content { content.now.records ≡ listed core.now.state.records }
    requires asked { IsTagQuery query }
    ensures { IfOk result (λ reply. answer_text reply ≡ answer_in core.now query) }
{
    answer(alloc, content, core.held(), core.step(), query)
}
