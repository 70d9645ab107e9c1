// The reply to a question about a tag.
ghost use Rattle.std.specs.Prelude.{IfOk};
ghost use Rattle.interp_read.specs.Replies.{AreAlike};

use crate::list::PointList;
use std::alloc::Global;
use trend_num::{Reading, WantOfMemory};

/// The reply to a question about a tag. Each variant answers the question of its name.
#[derive(Drop)]
pub enum Reply {
    At(Reading),
    Points(PointList),
    /// `None` if the points do not cover the window.
    Window(Option<i128>),
}

impl Reply {
    /// Returns a copy of the reply. Returns `WantOfMemory` if the memory cannot be allocated.
    pub fn copy(&self, alloc: Global) -> Result<Reply, WantOfMemory>
        ensures { IfOk result (λ copy. AreAlike self.now copy) }
    {
        match self {
            Reply::At(reading) => Ok(Reply::At(*reading)),
            Reply::Window(value) => Ok(Reply::Window(*value)),
            Reply::Points(points) => {
                let list = Vec::from_slice(alloc, &points.list)?;
                let more = points.more;
                Ok(Reply::Points(PointList { list, more }))
            }
        }
    }
}
