// Passes that hold a reader, and a device whose sync waits for it.
ghost use Rattle.disk_model.specs.{handed_as};

use disk_model::{Disk, Failed, MemDisk, MemStore, Store};
use plant_run::{Pass, Passes};
use std::sync::atomic::{AtomicU64, Ordering};
use test_rig::{PATIENT, comes};

/// What a device and the pass of a reader signal to each other: how far the device's sync is, and how far the reader
/// is.
#[derive(Drop)]
pub struct Signs {
    pub device: AtomicU64,
    pub reader: AtomicU64,
}

// The signals of the device: it has been opened, and it is in a sync.
const OPENED: u64 = 1;

const IN_SYNC: u64 = 2;

/// Passes of a collector and of a reader. The reader waits at its first step until the device is in a sync. At its
/// second step it signals that it has come there.
#[derive(Drop)]
pub struct AtSync<'a> {
    pub signs: &'a Signs,
    pub stops: u64,
}

/// The pass of the collector, which is not held, or of the reader.
pub struct AtSyncPass<'a> {
    signs: &'a Signs,
    reads: bool,
    stops: u64,
}

impl<'a> Pass for AtSyncPass<'a> {
    ghost stops = { λ pass. pass.stops };

    fn pass(&mut self, step: u64) -> bool {
        if !self.reads {
            return true;
        }
        if step == 0 && !comes(&self.signs.device, IN_SYNC, PATIENT) {
            self.stops = self.stops.saturating_add(1);
            return false;
        }
        self.signs.reader.store(step, Ordering::SeqCst);
        true
    }
}

impl<'a> Passes for AtSync<'a> {
    type One = AtSyncPass<'a>;

    ghost stops = { λ passes. passes.stops };

    fn hand(&mut self, worker: u32) -> AtSyncPass<'a> {
        self.signs.device.store(OPENED, Ordering::SeqCst);
        AtSyncPass {
            signs: self.signs,
            reads: worker == 1,
            stops: 0,
        }
    }

    fn give_back(&mut self, one: AtSyncPass<'a>) {
        let AtSyncPass {
            signs: _,
            reads: _,
            stops,
        } = one;
        self.stops = self.stops.saturating_add(stops);
    }
}

/// A device in memory. Its first sync after its opening lasts until the reader has come to its second step. If the
/// reader does not come, the sync fails.
pub struct GateDisk<'a> {
    disk: MemDisk,
    signs: &'a Signs,
}

impl<'a> Disk for GateDisk<'a> {
    ghost device = { λ d. record { handed = handed_as d.disk.name; trace = d.disk.trace; faults = d.disk.faults } };

    fn len(&mut self) -> Result<u64, Failed> {
        self.disk.len()
    }

    fn read(&mut self, at: u64, buf: &mut [u8]) -> Result<(), Failed> {
        self.disk.read(at, buf)
    }

    fn write_at(&mut self, at: u64, bytes: &[u8]) -> Result<(), Failed> {
        self.disk.write_at(at, bytes)
    }

    fn cut(&mut self, len: u64) -> Result<(), Failed> {
        self.disk.cut(len)
    }

    fn sync(&mut self) -> Result<(), Failed> {
        if self.signs.device.load(Ordering::SeqCst) == OPENED {
            self.signs.device.store(IN_SYNC, Ordering::SeqCst);
            if !comes(&self.signs.reader, 1, PATIENT) {
                self.disk.stop_after(0);
            }
        }
        self.disk.sync()
    }

    fn clock(&self) -> u64 {
        self.disk.clock()
    }

    fn faults(&self) -> u64 {
        self.disk.faults()
    }
}

/// A store that hands out such devices.
#[derive(Drop)]
pub struct GateStore<'a> {
    pub store: MemStore,
    pub signs: &'a Signs,
}

impl<'a> Store for GateStore<'a> {
    ghost use Rattle.disk_model.specs.{trace_at, has_device};

    type Dev = GateDisk<'a>;

    ghost device_at = { λ s name. trace_at s.store.devices name };

    ghost has_place = { λ s name. has_device s.store.devices name };

    ghost fault_count = { λ s. s.store.faults };

    fn device(&mut self, name: &str) -> Result<GateDisk<'a>, Failed> {
        let disk = self.store.device(name)?;
        Ok(GateDisk {
            disk,
            signs: self.signs,
        })
    }

    fn give_back(&mut self, name: &str, dev: GateDisk<'a>) {
        let GateDisk { disk, signs: _ } = dev;
        self.store.give_back(name, disk);
    }
}
