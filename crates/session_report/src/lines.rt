// The lines of the report.
ghost use Rattle.std.specs.Prelude.{◌≡◌, ◌+◌, ◌<◌, ◌^◌, IfOk, length, string_bytes};
ghost use Rattle.calc_refresh.specs.{lists_of};
ghost use Rattle.session_report.specs.Report.{report};

use crate::replies::put_replies;
use crate::reported::put_each;
use crate::session::Session;
use std::alloc::Global;
use tag_base::Base;
use trend_num::WantOfMemory;
use value_rows::Query;

/// Returns what `run` prints of a session with so many collectors, whose readers asked these queries: a line of each
/// tag, the reply to each query, and the lines of each group. The only error is want of memory.
pub fn report(
    alloc: Global,
    base: &Base,
    collectors: usize,
    readers: &[Vec<Query>],
    session: &Session,
) -> Result<String, WantOfMemory>
    requires few_workers { collectors + length readers.now < 2 ^ 32 }
    requires few_tags { length session.now.tags.items < 2 ^ 32 }
    requires few_groups { length session.now.groups.items < 2 ^ 32 }
    ensures { IfOk result (λ text. string_bytes text
        ≡ report base.now collectors (lists_of readers.now) session.now) }
{
    let mut text = String::new(alloc);
    put_each(alloc, &mut text, &base.tags, &session.tags)?;
    put_replies(alloc, &mut text, session, collectors, readers)?;
    put_each(alloc, &mut text, &base.groups, &session.groups)?;
    Ok(text)
}
