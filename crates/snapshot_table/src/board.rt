// A board: the cells of all tags.
ghost use Rattle.std.specs.Prelude.{◌≡◌, ◌<◌, ◌≤◌, [], ◌∷◌, ◌++◌, IfOk, IfSome, OnOk, Some, length, replicate, slice_get, slice_set};
ghost use Rattle.trend_num.specs.{Snap};
ghost use Rattle.crossbeam_utils.specs.Seq.{cell_view};
ghost use Rattle.snapshot_table.specs.Rules.{looking};
ghost use Rattle.snapshot_table.specs.Boards.{LooksAt, PostsTo, new_looker, new_poster, new_posters};

use crate::look::Looker;
use crate::post::Poster;
use crate::rule::{Look, Onlooker, Post, Shelf, View};
use crate::words::{Shown, read_of, shown_of};
use crossbeam_utils::atomic::seq_cell::Pass;
use std::alloc::Global;
use std::marker::Model;
use std::sync::Wait;
use trend_num::{Snap, WantOfMemory};

/// The last snapshot of each tag of a plant. Tags are counted from 0.
#[derive(Drop)]
pub struct Board {
    shelves: Vec<Shelf>,
}

impl Model for Board {
    ghost use Rattle.std.specs.Prelude.{List, map};
    ghost use Rattle.atomic_table.specs.Seated.{TableId};

    ghost Value = { List TableId };

    ghost view = { λ b. map (λ c. c.table.shared.table_id) b.shelves.items };
}

/// Returns a board of `tags` tags, a poster for each tag in order, and `readers` lookers. Each tag shows at first that
/// it has taken no event. The one error is want of memory.
pub fn new_board<R: Wait>(
    _rt: &R,
    alloc: Global,
    tags: u32,
    readers: u32,
) -> Result<(Board, Vec<Poster>, Vec<Looker>), WantOfMemory>
    ensures tags { IfOk result (λ made. length made.0 ≡ tags) }
    ensures posters { IfOk result (λ made. made.1.items ≡ new_posters 0 made.0) }
    ensures lookers { IfOk result (λ made. made.2.items ≡ replicate readers (new_looker made.0)) }
{
    let (board, mut posters) = tags_of(alloc, tags)?;
    let lookers = board.lookers(alloc, &mut posters, readers)?;
    Ok((board, posters, lookers))
}

// Returns a board of so many tags, and a poster for each.
fn tags_of(alloc: Global, tags: u32) -> Result<(Board, Vec<Poster>), WantOfMemory>
    ensures tags { IfOk result (λ made. length made.0 ≡ tags) }
    ensures posters { IfOk result (λ made. made.1.items ≡ new_posters 0 made.0) }
{
    let mut board = Board {
        shelves: Vec::new(alloc),
    };
    let mut posters = Vec::new(alloc);
    for tag in 0..tags {
        let poster = board.with_tag(alloc, tag)?;
        push(&mut posters, poster)?;
    }
    Ok((board, posters))
}

impl Board {
    // Adds one more tag, and returns its poster.
    fn with_tag(&mut self, alloc: Global, tag: u32) -> Result<Poster, WantOfMemory>
        requires { length self.old ≡ tag }
        ensures longer { IfOk result (λ poster. self.new ≡ self.old ++ poster.cell ∷ []) }
        ensures poster { IfOk result (λ poster. poster ≡ new_poster tag poster.cell) }
    {
        let last = Snap {
            taken: 0,
            held: None,
        };
        let (shelf, pass) = Shelf::ruled(alloc, shown_of(last))?;
        push(&mut self.shelves, shelf)?;
        Ok(Poster { tag, last, pass })
    }

    // Returns so many lookers, each of all tags.
    fn lookers(
        &self,
        alloc: Global,
        posters: &mut Vec<Poster>,
        readers: u32,
    ) -> Result<Vec<Looker>, WantOfMemory>
        requires { posters.old.items ≡ new_posters 0 self.now }
        ensures same { posters.new.items ≡ posters.old.items }
        ensures lookers { IfOk result (λ lookers. lookers.items ≡ replicate readers (new_looker self.now)) }
    {
        let mut lookers = Vec::new(alloc);
        for _ in 0..readers {
            let looker = self.looker(alloc, posters)?;
            push(&mut lookers, looker)?;
        }
        Ok(lookers)
    }

    // Returns a looker of all tags.
    fn looker(&self, alloc: Global, posters: &mut Vec<Poster>) -> Result<Looker, WantOfMemory>
        requires { posters.old.items ≡ new_posters 0 self.now }
        ensures same { posters.new.items ≡ posters.old.items }
        ensures looker { IfOk result (λ looker. looker ≡ new_looker self.now) }
    {
        let mut passes = Vec::new(alloc);
        for i in 0..self.shelves.len() {
            let pass = self.onlooker(i, &mut posters[i]);
            push(&mut passes, pass)?;
        }
        Ok(Looker { passes })
    }

    // Returns a pass that may look at a tag.
    fn onlooker(&self, i: usize, poster: &mut Poster) -> Pass<Shown, View>
        requires posts { slice_get self.now i ≡ Some poster.old.cell }
        ensures same { poster.new ≡ poster.old }
        ensures cell { result.table_id ≡ poster.old.cell }
        ensures seen { cell_view result ≡ looking poster.old.last }
    {
        self.shelves[i].split_pass::<Onlooker>(&mut poster.pass)
    }

    /// Posts a snapshot of the poster's tag; it is then the poster's last one. It must count no fewer events than the
    /// one before.
    #[inline(always)]
    pub fn post<R: Wait>(&self, rt: &R, poster: &mut Poster, snap: Snap)
        requires here { PostsTo self.now poster.old }
        requires no_earlier { poster.old.last.taken ≤ snap.taken }
        ensures { poster.new ≡ record poster.old { last = snap } }
    {
        let shelf = &self.shelves[poster.tag as usize];
        shelf.swap_as::<Post, R>(rt, &mut poster.pass, shown_of(snap));
        poster.last = snap;
    }

    /// Returns the snapshot that a tag shows, from one load of all words of its cell. It counts no fewer events than
    /// the last one that this looker saw of the tag.
    pub fn look<R: Wait>(&self, rt: &R, looker: &mut Looker, tag: u32) -> Snap
        requires here { LooksAt self.now looker.old }
        requires tag { tag < length self.now }
        ensures seen { looker.new ≡ record looker.old { seen = slice_set looker.old.seen tag result } }
        ensures no_earlier { IfSome (slice_get looker.old.seen tag) (λ last. last.taken ≤ result.taken) }
    {
        let shelf = &self.shelves[tag as usize];
        read_of(shelf.load_as::<Look, R>(rt, &mut looker.passes[tag as usize]))
    }
}

// Appends an item to a list.
fn push<T: Drop>(list: &mut Vec<T>, item: T) -> Result<(), WantOfMemory>
    ensures { OnOk result (list.new.items ≡ list.old.items ++ item ∷ []) }
{
    Ok(list.push(item)?)
}
