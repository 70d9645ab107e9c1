// What an archive keeps of a tag: its records and the summary from which it continues. Also the snapshot that others
// see.
use crate::point::Point;
use crate::tuning::Tuning;

/// The most records that a tag may have.
pub const MAX_RECORDS: u32 = 1_048_576;

/// How a record came into an archive.
#[derive(Clone, Copy, Debug, PartialEq, Eq)]
pub enum Kind {
    /// A point that compression kept. It is an end of a straight line; of a step tag it begins a step.
    Kept,
    /// A value that came late, recorded unchanged.
    Late,
}

/// A record of an archive.
#[derive(Clone, Copy, Debug, PartialEq, Eq)]
pub struct Rec {
    /// How it came into the archive.
    pub kind: Kind,
    /// Its time and its value.
    pub point: Point,
}

/// The state of a tag, without its records.
#[derive(Clone, Copy, Debug, PartialEq, Eq)]
pub struct Summary {
    /// How many events (raw values and retunings) the tag has taken since it began.
    pub taken: u64,
    /// How many records there are.
    pub records: u32,
    /// The last value sent in order. It closes the archive's line.
    pub held: Option<Point>,
    /// The newest value in order that was not sent.
    pub pending: Option<Point>,
    /// The last kept point. The doors hang at it.
    pub hinge: Option<Point>,
    /// The upper door. Of a tag of lines: the value since the hinge whose slope, raised by CompDev, is least. Of a step
    /// tag: the held point. `None` if there is no value since the hinge.
    pub upper: Option<Point>,
    /// The lower door. Of a tag of lines: the value since the hinge whose slope, lowered by CompDev, is greatest. Of a
    /// step tag: the held point. `None` if there is no value since the hinge.
    pub lower: Option<Point>,
    /// The tuning in force. It is `None` in a summary of the older form, and in the empty summary before the first
    /// checkpoint. The tuning with which the tag was made is then in force.
    pub tuning: Option<Tuning>,
}

/// The newest state of a tag, as others see it.
#[derive(Clone, Copy, Debug, PartialEq, Eq)]
pub struct Snap {
    /// How many events (raw values and retunings) the tag has taken since it began.
    pub taken: u64,
    /// The last value sent in order. It closes the archive's line.
    pub held: Option<Point>,
}
