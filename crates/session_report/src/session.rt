// What is left of a session.
use collector_pool::WorkerNote;
use commit_log::LogHistory;
use group_book::GroupHistory;
use tag_cell::TagHistory;

/// All that a session of a plant has done.
#[derive(Drop)]
pub struct Session {
    /// The histories of the tags, in base order.
    pub tags: Vec<TagHistory>,
    /// The histories of the groups, in base order.
    pub groups: Vec<GroupHistory>,
    /// The notes of the workers: of the collectors, then of the readers, then of the refreshers.
    pub workers: Vec<WorkerNote>,
    /// The history of the plant's log, if the session wrote a log in place of its tags' archives.
    pub log: Option<LogHistory>,
}
