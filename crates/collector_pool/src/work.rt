// What the workers of a session have to do.
ghost use Rattle.std.specs.Prelude.{◌≡◌, ◌↔◌, ◌<◌, ◌≤◌, ◌^◌, All, IsTrue, Vec, drop, length, slice_index_or};
ghost use Rattle.std.specs.declared.alloc.Global.{Global};
ghost use Rattle.trend_num.specs.{IsTagQuery};
ghost use Rattle.value_rows.specs.{RawRow};
ghost use Rattle.collector_pool.specs.Work.{worker_count, IsQueryOf, IsRowOf, IsWorkOf};

use trend_num::{MAX_T, TagQuery, in_range};
use value_rows::{Query, RawRow};

/// How often a refresher refreshes its group.
#[derive(Clone, Copy, Debug, PartialEq, Eq)]
pub struct Refresh {
    /// The group, counted from 0.
    pub group: u32,
    pub turns: u32,
}

/// What each worker has to do: the rows of each collector, the queries of each reader, and the turns of each refresher.
#[derive(Debug, Drop)]
pub struct Work {
    pub collectors: Vec<Vec<RawRow>>,
    pub readers: Vec<Vec<Query>>,
    pub refreshers: Vec<Refresh>,
    /// How many of its rows each collector took in an earlier phase of the session. The rows after them are its work.
    pub earlier: u32,
}

impl Work {
    /// Returns whether this is work for a plant with so many tags and groups. Rows, queries and turns name only such
    /// tags and groups. Points and times are in range. Each collector has at least its `earlier` rows. The workers can
    /// be numbered.
    pub fn fits(&self, tags: usize, groups: u32) -> bool
        ensures { IsTrue result ↔ IsWorkOf tags groups self.now }
    {
        self.can_be_numbered()
            && self.collectors.iter().all(|rows| rows_fit(tags, rows))
            && self
                .collectors
                .iter()
                .all(|rows| self.earlier as usize <= rows.len())
            && self
                .readers
                .iter()
                .all(|queries| queries_fit(tags, groups, queries))
            && self.refreshers.iter().all(|refresh| refresh.group < groups)
    }

    // Returns the rows that are the work of a collector.
    pub(crate) fn rows_of(&self, collector: u32) -> &[RawRow]
        requires known { collector < length self.now.collectors.items }
        requires begun { All (λ rows. self.now.earlier ≤ length rows.items) self.now.collectors.items }
        ensures { (rows : Vec RawRow Global)
            → result.now ≡ drop self.now.earlier (slice_index_or self.now.collectors.items collector rows).items }
    {
        &self.collectors[collector as usize][self.earlier as usize..]
    }

    // Returns whether there are fewer than 2^32 workers.
    fn can_be_numbered(&self) -> bool
        ensures { IsTrue result ↔ (worker_count self.now < 2 ^ 32) }
    {
        let most = u32::MAX as usize;
        let (collectors, readers) = (self.collectors.len(), self.readers.len());
        collectors <= most
            && readers <= most - collectors
            && self.refreshers.len() <= most - collectors - readers
    }
}

// Returns whether each row is of one of so many tags, with a point in range.
fn rows_fit(tags: usize, rows: &[RawRow]) -> bool
    ensures { IsTrue result ↔ All (IsRowOf tags) rows.now }
{
    rows.iter().all(|row| row_fits(tags, *row))
}

fn row_fits(tags: usize, row: RawRow) -> bool
    ensures { IsTrue result ↔ IsRowOf tags row }
{
    (row.tag as usize) < tags && in_range(row.point)
}

// Returns whether each query is about one of so many tags or groups, with times in range.
fn queries_fit(tags: usize, groups: u32, queries: &[Query]) -> bool
    ensures { IsTrue result ↔ All (IsQueryOf tags groups) queries.now }
{
    queries.iter().all(|query| query_fits(tags, groups, *query))
}

fn query_fits(tags: usize, groups: u32, query: Query) -> bool
    ensures { IsTrue result ↔ IsQueryOf tags groups query }
{
    match query {
        Query::Tag { tag, query } => (tag as usize) < tags && times_fit(query),
        Query::Snap { tag } => (tag as usize) < tags,
        Query::Row { group, .. } => group < groups,
    }
}

fn times_fit(query: TagQuery) -> bool
    ensures { IsTrue result ↔ IsTagQuery query }
{
    match query {
        TagQuery::At { t } => t <= MAX_T,
        TagQuery::Points { from, to } => from <= to && to <= MAX_T,
        TagQuery::Window { from, to, .. } => from < to && to <= MAX_T,
    }
}
