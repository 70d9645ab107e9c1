// A snapshot as the words of a cell.
ghost use Rattle.std.specs.Prelude.{◌≡◌, ◌^◌, ◌<◌, [], ◌∷◌};
ghost use Rattle.snapshot_table.specs.Snaps.{snap_of};

use crossbeam_utils::atomic::seq_cell::Words;
use trend_num::{Point, Snap};

/// What the word `kind` says of the held point. 0: there is none. 1: its value is not negative. 2: its value is
/// negative.
pub const NO_POINT: u64 = 0;

pub const NOT_NEGATIVE: u64 = 1;

pub const NEGATIVE: u64 = 2;

/// The words of a snapshot. If the value is negative, the size counts down from -1: -1 has the size 0, -2 the size 1
/// and so on.
#[derive(Clone, Copy)]
pub struct Shown {
    pub taken: u64,
    pub kind: u64,
    pub t: u64,
    pub size: u64,
}

impl Words<4> for Shown {
    ghost words = { λ s. s.taken ∷ s.kind ∷ s.t ∷ s.size ∷ [] };

    fn to_words(self) -> [u64; 4] {
        [self.taken, self.kind, self.t, self.size]
    }

    fn from_words(bits: &[u64; 4]) -> Shown {
        Shown {
            taken: bits[0],
            kind: bits[1],
            t: bits[2],
            size: bits[3],
        }
    }
}

/// Returns the words of a snapshot.
pub fn shown_of(snap: Snap) -> Shown
    ensures value { snap_of result ≡ snap }
    ensures fits { result.size < 2 ^ 63 }
{
    let taken = snap.taken;
    match snap.held {
        None => Shown {
            taken,
            kind: NO_POINT,
            t: 0,
            size: 0,
        },
        Some(Point { t, v }) if v < 0 => Shown {
            taken,
            kind: NEGATIVE,
            t,
            size: -(v + 1) as u64,
        },
        Some(Point { t, v }) => Shown {
            taken,
            kind: NOT_NEGATIVE,
            t,
            size: v as u64,
        },
    }
}

/// Returns the snapshot that these words hold.
pub fn read_of(shown: Shown) -> Snap
    requires { shown.size < 2 ^ 63 }
    ensures { result ≡ snap_of shown }
{
    let size = shown.size as i64;
    let held = match shown.kind {
        NO_POINT => None,
        NOT_NEGATIVE => Some(Point {
            t: shown.t,
            v: size,
        }),
        _ => Some(Point {
            t: shown.t,
            v: -size - 1,
        }),
    };
    Snap {
        taken: shown.taken,
        held,
    }
}
