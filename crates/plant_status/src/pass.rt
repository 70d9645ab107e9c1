// What lets workers continue, or stops them.
ghost use Rattle.std.specs.Prelude.{◌≡◌, ℕ, true};
ghost use Rattle.plant_status.specs.Pass.{stops_after, sum_of_fault_counts};

/// A worker asks this before each of its steps.
pub trait Pass {
    /// How many of its answers were false. The count stops at 2^64 - 1.
    ghost stops: { Self → ℕ };

    /// Returns whether the worker may take the step with this number, counted from 0. After a false answer the worker
    /// makes no further step.
    fn pass(&mut self, step: u64) -> bool
        ensures { stops self.new ≡ stops_after result (stops self.old) };
}

/// The passes of all workers.
pub trait Passes {
    type One: Pass + Send;

    /// How many answers of the passes that were given back were false. The count stops at 2^64 - 1.
    ghost stops: { Self → ℕ };

    /// Returns the pass of the worker with this number, counted from 0.
    fn hand(&mut self, worker: u32) -> Self::One
        ensures fresh { Self.One.stops result ≡ 0 }
        ensures same { stops self.new ≡ stops self.old };

    /// Takes a pass back, and counts how many answers of it were false.
    fn give_back(&mut self, one: Self::One)
        ensures { stops self.new ≡ sum_of_fault_counts (stops self.old) (Self.One.stops one) };
}

/// Passes that never stop a worker.
#[derive(Clone, Copy, Debug, Drop)]
pub struct OpenPasses;

/// The pass of a worker that is never stopped.
#[derive(Clone, Copy, Debug, Drop)]
pub struct OpenPass;

impl Pass for OpenPass {
    ghost stops = { λ _. 0 };

    fn pass(&mut self, _step: u64) -> bool
        ensures open { result ≡ true }
        ensures stops { 0 ≡ stops_after result 0 }
    {
        true
    }
}

impl Passes for OpenPasses {
    type One = OpenPass;

    ghost stops = { λ _. 0 };

    fn hand(&mut self, _worker: u32) -> OpenPass {
        OpenPass
    }

    fn give_back(&mut self, _one: OpenPass) {}
}
