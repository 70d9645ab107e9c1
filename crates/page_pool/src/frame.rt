// What a frame has room for.
ghost use Rattle.std.specs.Prelude.{◌≡◌};
ghost use Rattle.page_pool.specs.Pool.{empty_frame};

/// How many points a frame has room for.
pub const PAGE: usize = 128;

/// A page of up to [`PAGE`] points: the first `len` places of two arrays, a mark for each point, and totals over the
/// points. The pool does not look at the contents.
#[derive(Clone, Copy, Debug, PartialEq, Eq)]
pub struct Frame {
    /// How many points there are.
    pub len: u32,
    /// The time of each point, in milliseconds from 1970.
    pub times: [u64; PAGE],
    /// The value of each point, in value units.
    pub values: [i64; PAGE],
    /// A bit for each point, the lowest for the first one: set if the point came late.
    pub late: u128,
    /// Twice the area under the line through the points, in value units times milliseconds.
    pub area: i128,
    /// The least value.
    pub low: i64,
    /// The greatest value.
    pub high: i64,
}

// Returns a frame of no points.
pub(crate) fn empty() -> Frame
    ensures { result ≡ empty_frame }
{
    Frame {
        len: 0,
        times: [0; PAGE],
        values: [0; PAGE],
        late: 0,
        area: 0,
        low: 0,
        high: 0,
    }
}
