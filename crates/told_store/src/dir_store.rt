// The folder of devices as a store.
ghost use Rattle.std.specs.Prelude.{◌≡◌, ◌≢◌, ℕ, List, IfOk, IsErr, OnErr, OnOk, IsTrue, Some, string_bytes};
ghost use Rattle.std.specs.BTreeMap.{get_by_text};
ghost use Rattle.disk_model.specs.{empty_trace};
ghost use Rattle.told_store.specs.Notes.{IsFresh, told_by};
ghost use Rattle.told_store.specs.Places.{AllFresh, is_placed, is_stopped_in, told_in};

use crate::folder::Folder;
use crate::host::Host;
use crate::kept::Kept;
use crate::places::{file_of, insert, is_stopped, make_place, put_back, take};
use crate::told_disk::DirDisk;
use disk_model::{Failed, Store};
use std::collections::BTreeMap;
use std::fs::File;
use std::io::{self, ErrorKind};
use std::rt::Files;

/// The files of the folder `historian.d` in the working folder. The store makes the folder if it is missing. The name
/// of a device is the name of its file. The store hands out each device once, and none whose file is refused. Once a
/// device is given back, the store keeps the record of its calls alone.
#[derive(Drop)]
pub struct DirStore<R> {
    folder: Folder<R>,
    pub(crate) places: BTreeMap<String, Kept>,
    pub(crate) faults: u64,
    is_refused: bool,
}

impl<R: Files<File = File> + AllocGlobal> DirStore<R> {
    ghost use Rattle.told_store.specs.Folders.{told_at, folder_faults};

    /// Returns the folder, of which nothing is read. The trace of each device is empty, and a device is refused if its
    /// file has a byte.
    pub fn new(rt: R) -> DirStore<R>
        ensures told { (n : List ℕ) → told_at result n ≡ empty_trace }
        ensures faults { folder_faults result ≡ 0 }
    {
        let places = BTreeMap::new(rt.alloc());
        DirStore {
            folder: Folder::new(rt),
            places,
            faults: 0,
            is_refused: false,
        }
    }

    /// Locks the folder and reads each of these devices that has a file, as it is now. The trace of any other device is
    /// empty, and it is refused if its file has a byte. If another process has the folder, or the folder cannot be
    /// locked and synced, every device is refused.
    pub fn read(rt: R, names: &[String]) -> DirStore<R>
        ensures told { (n : List ℕ) → IsFresh (told_at result n) }
        ensures faults { folder_faults result ≡ 0 }
    {
        let mut store = DirStore::new(rt);
        store.is_refused = store.read_all(names).is_err();
        store
    }

    // Locks the folder if there is one, reads these devices in it, and syncs the names in it: a run that was killed may
    // have left that undone.
    fn read_all(&mut self, names: &[String]) -> io::Result<()>
        requires { AllFresh self.old.places }
        ensures told { AllFresh self.new.places }
        ensures faults { self.new.faults ≡ self.old.faults }
    {
        if !self.folder.lock_if_there()? {
            return Ok(());
        }
        read_devices(&self.folder, names, &mut self.places)?;
        self.folder.sync_names()
    }

    // Returns the device of a name, over its file.
    fn hand_out(&mut self, name: &str) -> io::Result<DirDisk<Host<File>>>
        ensures told { IfOk result (λ dev. told_by dev.calls.log.notes ≡ told_in self.old.places name.now) }
        ensures named { IfOk result (λ dev. string_bytes dev.name ≡ name.now) }
        ensures faultless { IfOk result (λ dev. dev.counts.faults ≡ 0) }
        ensures place { OnOk result (IsTrue (is_placed self.new.places name.now)) }
        ensures places { (n : List ℕ) → IsTrue (is_placed self.old.places n) → IsTrue (is_placed self.new.places n) }
        ensures other_places { (n : List ℕ) → n ≢ name.now → is_placed self.new.places n ≡ is_placed self.old.places n }
        ensures others { (n : List ℕ) → n ≢ name.now → told_in self.new.places n ≡ told_in self.old.places n }
        ensures unchanged { OnErr result ((n : List ℕ) → told_in self.new.places n ≡ told_in self.old.places n) }
        ensures stopped { IsTrue (is_stopped_in self.old.places name.now) → IsErr result }
        ensures out { OnOk result (IsTrue (is_stopped_in self.new.places name.now)) }
        ensures refused { IsTrue self.old.is_refused → IsErr result }
        ensures faults { self.new.faults ≡ self.old.faults }
    {
        if self.is_refused || is_stopped(&self.places, name) {
            return Err(ErrorKind::ResourceBusy.into());
        }
        self.folder.lock()?;
        make_place(self.folder.rt.alloc(), &mut self.places, name)?;
        let own = String::from_str(self.folder.rt.alloc(), name)?;
        let file = self.folder.open(name, file_of(&self.places, name))?;
        match take(&mut self.places, name) {
            Some((log, bytes)) => Ok(DirDisk::new(own, Host::new(file, log), bytes)),
            None => Err(ErrorKind::NotFound.into()),
        }
    }
}

// Reads the devices with these names.
fn read_devices<R: Files<File = File> + AllocGlobal>(
    folder: &Folder<R>,
    names: &[String],
    places: &mut BTreeMap<String, Kept>,
) -> io::Result<()>
    requires { AllFresh places.old }
    ensures { AllFresh places.new }
{
    for name in names {
        keep(folder, places, name)?;
    }
    Ok(())
}

// Reads the file of a device, if it has one and unless that was done before, and puts what was read at the device's
// name.
fn keep<R: Files<File = File> + AllocGlobal>(
    folder: &Folder<R>,
    places: &mut BTreeMap<String, Kept>,
    name: &str,
) -> io::Result<()>
    requires { AllFresh places.old }
    ensures fresh { AllFresh places.new }
    ensures kept { (n : List ℕ) → IsTrue (is_placed places.old n) → get_by_text places.new n ≡ get_by_text places.old n }
{
    if places.contains_key(name) {
        return Ok(());
    }
    let kept = match folder.read(name) {
        Err(error) if error.kind() == ErrorKind::NotFound => return Ok(()),
        answer => Kept::of_file(name, answer),
    };
    insert(folder.rt.alloc(), places, name, kept)?;
    Ok(())
}

impl<R: Files<File = File> + AllocGlobal> Store for DirStore<R> {
    ghost use Rattle.told_store.specs.Folders.{told_at, folder_faults};

    type Dev = DirDisk<Host<File>>;

    ghost device_at = { λ s n. told_at s n };

    ghost has_place = { λ s n. is_placed s.places n };

    ghost fault_count = { folder_faults };

    fn device(&mut self, name: &str) -> Result<DirDisk<Host<File>>, Failed> {
        if let Ok(dev) = self.hand_out(name) {
            return Ok(dev);
        }
        self.faults = self.faults.saturating_add(1);
        Err(Failed)
    }

    /// It writes a device that has failed anew under the name that it was handed out with.
    fn give_back(&mut self, name: &str, dev: DirDisk<Host<File>>) {
        let DirDisk {
            name: own,
            calls,
            mirror,
            counts,
        } = dev;
        let Host { file, log, .. } = calls;
        drop(file);
        if counts.is_stopped {
            self.folder.settle(&own, &mirror, counts.is_unsynced);
        }
        self.faults = self.faults.saturating_add(counts.faults);
        put_back(&mut self.places, name, Kept::used(log));
    }
}
