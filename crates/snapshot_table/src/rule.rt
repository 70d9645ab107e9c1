// The rule of a cell of the board, and its four steps: making it, splitting off a looker, a post and a look.
ghost use Rattle.snapshot_table.specs.Snaps.{nothing};
ghost use Rattle.snapshot_table.specs.Rules.{IsKept, Looks, Posts, looking, posting};

use crate::words::Shown;
use atomic_table::Split;
use crossbeam_utils::atomic::seq_cell::RuledSeqCell;
use crossbeam_utils::rule::{Outcome, Protocol};
use trend_num::Snap;

/// What the holder of a pass knows. The program makes no value of this type.
pub struct View {
    // Whether this is the one that posts.
    pub posts: bool,
    // The last snapshot that it posted or saw.
    pub snap: Snap,
}

/// The rule: the words are the last snapshot of the one that posts.
pub struct LastPosted;

impl Protocol<Shown, View> for LastPosted {
    ghost holds = { IsKept };

    ghost first = { posting nothing };
}

/// The step of the poster: the words become its next snapshot.
pub struct Post;

impl Outcome<Shown, View> for Post {
    ghost then = { Posts };
}

/// The step of a looker: it reads the words.
pub struct Look;

impl Outcome<Shown, View> for Look {
    ghost then = { Looks };
}

/// Splits a looking pass off the posting one.
pub struct Onlooker;

impl Split<View> for Onlooker {
    ghost left = { λ v. v };

    ghost right = { λ v. looking v.snap };
}

/// The cell of a tag.
pub type Shelf = RuledSeqCell<Shown, View, LastPosted, 4>;
