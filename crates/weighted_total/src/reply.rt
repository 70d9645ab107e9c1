// The reply of a tag to a question.
ghost use Rattle.std.specs.Prelude.{IfOk};
ghost use Rattle.trend_num.specs.{IsTagQuery, InRange};
ghost use Rattle.trend_model.specs.{IsNotBefore, IfThere};
ghost use Rattle.interp_read.specs.{points_closed_by, Answers, IsReadableReply};

use crate::measure::window_value;
use interp_read::{Reply, points, read_at};
use late_insert::Content;
use std::alloc::Global;
use trend_num::{Point, TagQuery, WantOfMemory};

/// Returns a tag's reply to a question about its closed content, by its line or, of a step tag, by its stair. The
/// caller ensures that no point of the content is after the held point. Returns `WantOfMemory` if the memory for the
/// points of a list cannot be allocated.
pub fn answer(
    alloc: Global,
    content: &Content,
    held: Option<Point>,
    step: bool,
    query: TagQuery,
) -> Result<Reply, WantOfMemory>
    requires range { IfThere InRange held }
    requires last { IfThere (IsNotBefore content.now.records) held }
    requires asked { IsTagQuery query }
    ensures answers { IfOk result (Answers step (points_closed_by held content.now.records) query) }
    ensures readable { IfOk result IsReadableReply }
{
    match query {
        TagQuery::At { t } => Ok(Reply::At(read_at(content, held, step, t))),
        TagQuery::Points { from, to } => {
            let list = points(alloc, content, held, from, to)?;
            Ok(Reply::Points(list))
        }
        TagQuery::Window { measure, from, to } => {
            let value = window_value(content, held, step, measure, from, to);
            Ok(Reply::Window(value))
        }
    }
}
