// Passes that hold workers until the others have come.

use plant_status::{Pass, Passes};
use std::sync::atomic::{AtomicU64, Ordering};
use std::thread;

/// How often a worker looks for another one that is sure to come, before it gives up.
pub const PATIENT: u64 = 50_000_000;

/// Returns whether `word` reaches `least` within so many looks.
pub fn comes(word: &AtomicU64, least: u64, looks: u64) -> bool {
    for _ in 0..looks {
        if word.load(Ordering::SeqCst) >= least {
            return true;
        }
        thread::yield_now();
    }
    false
}

/// Passes that hold each worker at each step except its first. They hold it until all `workers` workers have asked for
/// their step of that number. A worker that has looked `looks` times in vain is stopped.
#[derive(Drop)]
pub struct Gates<'a> {
    pub asked: &'a AtomicU64,
    pub workers: u64,
    pub looks: u64,
    pub stops: u64,
}

/// The pass of a worker that is held. It cannot be dropped, so it has to be given back.
pub struct Gate<'a> {
    asked: &'a AtomicU64,
    workers: u64,
    looks: u64,
    stops: u64,
}

impl<'a> Pass for Gate<'a> {
    ghost stops = { λ gate. gate.stops };

    fn pass(&mut self, step: u64) -> bool {
        if step == 0 {
            return true;
        }
        self.asked.fetch_add(1, Ordering::SeqCst);
        let come = comes(self.asked, self.workers.saturating_mul(step), self.looks);
        if !come {
            self.stops = self.stops.saturating_add(1);
        }
        come
    }
}

impl<'a> Passes for Gates<'a> {
    type One = Gate<'a>;

    ghost stops = { λ gates. gates.stops };

    fn hand(&mut self, _worker: u32) -> Gate<'a> {
        Gate {
            asked: self.asked,
            workers: self.workers,
            looks: self.looks,
            stops: 0,
        }
    }

    fn give_back(&mut self, one: Gate<'a>) {
        let Gate {
            asked: _,
            workers: _,
            looks: _,
            stops,
        } = one;
        self.stops = self.stops.saturating_add(stops);
    }
}
