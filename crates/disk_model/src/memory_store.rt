// A store of devices in memory.
ghost use Rattle.std.specs.Prelude.{◌≡◌, ◌<◌, ◌≤◌, length, take, slice_index_or, None, Some, OnOk, OnErr, IfNone, IfSome, OnSome, bytes_eq, is_some, false, true, string_bytes};
ghost use Rattle.disk_model.specs.Calls.{next_count, Rose};
ghost use Rattle.disk_model.specs.Stores.{device_of, named, Puts};

use crate::share::Share;
use crate::{Failed, MemDisk, Store, WantOfMemory};
use std::alloc::AllocError;
use std::marker::Model;
use std::mem;

/// A store of devices in memory. A clause sees the devices by name, of which the first of a name counts. It also sees
/// the count of faults, and whether the devices that it hands out stop together. While a device is out, an empty one
/// takes its place.
#[derive(Drop)]
pub struct MemStore {
    devices: Vec<(String, MemDisk)>,
    faults: u64,
    share: Option<Share>,
}

impl Model for MemStore {
    ghost use Rattle.std.specs.Prelude.{is_some};
    ghost use Rattle.disk_model.specs.Stores.{StoreState, named};

    ghost Value = { StoreState };

    ghost view = { λ s. record { devices = named s.devices.items; faults = s.faults; stops = is_some s.share } };
}

impl MemStore {
    /// Returns a store of these devices.
    pub fn new(devices: Vec<(String, MemDisk)>) -> MemStore
        ensures devices { result.devices ≡ named devices.items }
        ensures faults { result.faults ≡ 0 }
        ensures stops { result.stops ≡ false }
    {
        MemStore {
            devices,
            faults: 0,
            share: None,
        }
    }

    /// The devices that the store hands out from now on share one count of their calls, from 0. Each call after that
    /// many fails, on whichever device it comes, and counts a fault there. If there is no memory for the count, nothing
    /// changes.
    pub fn stop_after(&mut self, calls: u64) -> Result<(), WantOfMemory>
        ensures ok { OnOk result (self.new ≡ record self.old { stops = true }) }
        ensures err { OnErr result (self.new ≡ self.old) }
    {
        let Ok(share) = Share::new(*self.devices.allocator(), calls) else {
            return Err(WantOfMemory);
        };
        self.share = Some(share);
        Ok(())
    }

    // The count for one more device, if the devices are to share one. It returns `None` if there is no room for it.
    fn shared(&self) -> Option<Option<Share>> {
        match &self.share {
            Some(share) => Some(Some(share.another()?)),
            None => Some(None),
        }
    }

    // Counts a fault, and returns it.
    fn fault(&mut self) -> Failed
        ensures counted { self.new ≡ record self.old { faults = next_count self.old.faults } }
        ensures later { self.old.faults ≤ self.new.faults }
        ensures rose { Rose self.old.faults self.new.faults }
    {
        self.faults = self.faults.saturating_add(1);
        Failed
    }
}

// The place of the first device of a name.
fn place_of(devices: &[(String, MemDisk)], name: &str) -> Option<usize>
    ensures none { IfNone result (device_of (named devices.now) name.now ≡ None) }
    ensures there { IfSome result (λ i. i < length devices.now) }
    ensures first { IfSome result (λ i. device_of (named (take i devices.now)) name.now ≡ None) }
    ensures named { IfSome result (λ i. (e : _) → e ≡ slice_index_or devices.now i e → bytes_eq (string_bytes e.0) name.now ≡ true) }
{
    for (place, device) in devices.iter().enumerate() {
        if device.0.as_str() == name {
            return Some(place);
        }
    }
    None
}

// Puts a device in the place of the device of a name, and returns that one. If there is none, it puts nothing.
fn exchange(devices: &mut Vec<(String, MemDisk)>, name: &str, dev: MemDisk) -> Option<MemDisk>
    ensures found { IfSome result (λ old. device_of (named devices.old.items) name.now ≡ Some old) }
    ensures put { OnSome result (Puts (named devices.old.items) (named devices.new.items) name.now dev) }
    ensures none { IfNone result (device_of (named devices.old.items) name.now ≡ None) }
    ensures unchanged { IfNone result (devices.new.items ≡ devices.old.items) }
{
    let place = place_of(devices, name)?;
    Some(mem::replace(&mut devices[place].1, dev))
}

// Adds a device of a name. It fails if there is no memory for it.
fn add(devices: &mut Vec<(String, MemDisk)>, name: &str, dev: MemDisk) -> Result<(), AllocError>
    requires { device_of (named devices.old.items) name.now ≡ None }
    ensures ok { OnOk result (Puts (named devices.old.items) (named devices.new.items) name.now dev) }
    ensures err { OnErr result (devices.new.items ≡ devices.old.items) }
{
    let name = String::from_str(*devices.allocator(), name)?;
    devices.push((name, dev))?;
    Ok(())
}

impl Store for MemStore {
    ghost use Rattle.disk_model.specs.Stores.{trace_at, has_device};

    type Dev = MemDisk;

    ghost device_at = { λ s name. trace_at s.devices name };

    ghost has_place = { λ s name. has_device s.devices name };

    ghost fault_count = { λ s. s.faults };

    /// It fails only if there is no memory to make the device.
    fn device(&mut self, name: &str) -> Result<MemDisk, Failed> {
        let Some(share) = self.shared() else {
            return Err(self.fault());
        };
        let alloc = *self.devices.allocator();
        let Ok(own) = String::from_str(alloc, name) else {
            return Err(self.fault());
        };
        let empty = MemDisk::new(Vec::new(alloc), Vec::new(alloc));
        if let Some(mut dev) = exchange(&mut self.devices, name, empty) {
            dev.take_faults();
            dev.set_name(own);
            dev.stop_with(share);
            return Ok(dev);
        }
        let empty = MemDisk::new(Vec::new(alloc), Vec::new(alloc));
        if let Ok(()) = add(&mut self.devices, name, empty) {
            let mut dev = MemDisk::new(Vec::new(alloc), Vec::new(alloc));
            dev.set_name(own);
            dev.stop_with(share);
            return Ok(dev);
        }
        Err(self.fault())
    }

    fn give_back(&mut self, name: &str, mut dev: MemDisk) {
        self.faults = self.faults.saturating_add(dev.take_faults());
        let _ = exchange(&mut self.devices, name, dev);
    }
}
