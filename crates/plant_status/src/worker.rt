// The workers of a run, once they have ended.
ghost use Rattle.std.specs.Prelude.{◌≡◌, ◌≤◌, [], map, vec_capacity, vec_len};
ghost use Rattle.plant_status.specs.Pass.{sum_from};

use crate::pass::{Pass, Passes};

/// A worker of a run. It keeps its pass, and a note of what it did.
pub trait Worker<O, N> {
    ghost pass: { Self → O };

    ghost note: { Self → N };

    /// Returns its pass and its note. The worker has ended.
    fn leave(self) -> (O, N)
        ensures pass { result.0 ≡ pass self }
        ensures note { result.1 ≡ note self };
}

/// Gives back the pass of each worker, and keeps their notes in order. All workers have ended.
pub fn gather<P: Passes, N, S: Worker<P::One, N>>(
    workers: Vec<S>,
    passes: &mut P,
    notes: &mut Vec<N>,
)
    requires none { notes.old.items ≡ [] }
    requires room { vec_len workers ≤ vec_capacity notes.old }
    ensures notes { notes.new.items ≡ map S.note workers.items }
    ensures stops { P.stops passes.new ≡ sum_from (P.stops passes.old) (map (λ s. P.One.stops (S.pass s)) workers.items) }
{
    let mut rest = workers.into_iter();
    while let Some(worker) = rest.next() {
        let (pass, note) = worker.leave();
        passes.give_back(pass);
        notes.push_reserved(note);
    }
    rest.destroy_empty();
}
