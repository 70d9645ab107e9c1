// Passes that stop the first worker.

use plant_status::{Pass, Passes};

/// Passes that stop worker 0 at its first step.
#[derive(Drop)]
pub struct Shut {
    pub stops: u64,
}

/// The pass of worker 0, which is stopped, or of another worker.
pub struct ShutPass {
    shut: bool,
    stops: u64,
}

impl Pass for ShutPass {
    ghost stops = { λ pass. pass.stops };

    fn pass(&mut self, _step: u64) -> bool {
        if self.shut {
            self.stops = self.stops.saturating_add(1);
        }
        !self.shut
    }
}

impl Passes for Shut {
    type One = ShutPass;

    ghost stops = { λ passes. passes.stops };

    fn hand(&mut self, worker: u32) -> ShutPass {
        ShutPass {
            shut: worker == 0,
            stops: 0,
        }
    }

    fn give_back(&mut self, one: ShutPass) {
        let ShutPass { shut: _, stops } = one;
        self.stops = self.stops.saturating_add(stops);
    }
}
