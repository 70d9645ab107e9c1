// A device under a brand.
ghost use Rattle.branded_disk.specs.Pasts.{branded};

use crate::begun::Begun;
use disk_model::{Disk, Failed};
use std::marker::{Model, PhantomData};

/// A device that a store handed out under a name, in a command that began as `K` tells.
#[derive(Drop)]
pub struct Branded<D: Disk, K: Begun> {
    pub(crate) dev: D,
    pub(crate) of: PhantomData<K>,
}

impl<D: Disk, K: Begun> Model for Branded<D, K> {
    ghost use Rattle.std.specs.Prelude.{IsSome};

    ghost Value = { D };

    ghost view = { λ b. b.dev };

    ghost invariant = { λ b. IsSome (D.device b.dev).handed.name };
}

impl<D: Disk, K: Begun> Disk for Branded<D, K> {
    ghost device = { branded D.device K.before };

    fn len(&mut self) -> Result<u64, Failed> {
        self.dev.len()
    }

    fn read(&mut self, at: u64, buf: &mut [u8]) -> Result<(), Failed> {
        self.dev.read(at, buf)
    }

    fn write_at(&mut self, at: u64, bytes: &[u8]) -> Result<(), Failed> {
        self.dev.write_at(at, bytes)
    }

    fn cut(&mut self, len: u64) -> Result<(), Failed> {
        self.dev.cut(len)
    }

    fn sync(&mut self) -> Result<(), Failed> {
        self.dev.sync()
    }

    fn clock(&self) -> u64 {
        self.dev.clock()
    }

    fn faults(&self) -> u64 {
        self.dev.faults()
    }
}
