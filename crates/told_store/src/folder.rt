// The files of the folder of devices. No clause says what a call of the system does, so these lines have to be read.
use std::fs::{self, File, Metadata, OpenOptions};
use std::io::{self, ErrorKind, Write};
use std::os::unix::fs::{FileExt, MetadataExt, fchown};
use std::rt::Files;

/// The folder of the devices, in the working folder.
pub(crate) const FOLDER: &str = "historian.d";

// What follows the name of a file: of one that is written anew, and of a mark.
const NEW: &str = ".new";

const MARK: &str = ".fault";

// A file of more bytes is not read.
const MOST_BYTES: u64 = 1 << 30;

/// How many times at most a call is made that signals interrupt.
pub(crate) const MOST_TRIES: u32 = 1 << 20;

/// Which file it is, and how many bytes it has.
#[derive(Clone, Copy, PartialEq, Eq)]
pub(crate) struct FileId {
    device: u64,
    inode: u64,
    len: u64,
}

// Which file is open.
fn id_of(file: &File) -> io::Result<FileId> {
    let found = again(|| file.metadata())?;
    Ok(FileId {
        device: found.dev(),
        inode: found.ino(),
        len: found.len(),
    })
}

// Makes a call, and makes it again if a signal interrupts it.
fn again<T: Drop, Call: Fn() -> io::Result<T>>(call: Call) -> io::Result<T>
    requires { Call.IsAlwaysCallable call }
{
    for _ in 0..MOST_TRIES {
        match call() {
            Err(error) if error.kind() == ErrorKind::Interrupted => {}
            answer => return answer,
        }
    }
    Err(ErrorKind::Interrupted.into())
}

/// The folder of the devices. While it is locked, no other process has it.
#[derive(Drop)]
pub(crate) struct Folder<R> {
    pub(crate) rt: R,
    locked: Option<File>,
    // Whether its own name was synced.
    is_named: bool,
}

impl<R: Files<File = File> + AllocGlobal> Folder<R> {
    /// The folder, which is not locked yet.
    pub(crate) fn new(rt: R) -> Folder<R> {
        Folder {
            rt,
            locked: None,
            is_named: false,
        }
    }

    /// Locks the folder if there is one, and returns whether there is. It fails if another process has the folder.
    pub(crate) fn lock_if_there(&mut self) -> io::Result<bool> {
        let is_there = again(|| fs::exists(&self.rt, FOLDER))?;
        if is_there {
            let folder = File::open(&self.rt, FOLDER)?;
            folder.try_lock()?;
            self.locked = Some(folder);
        }
        Ok(is_there)
    }

    /// Locks the folder unless it is locked, and makes it if it is missing.
    pub(crate) fn lock(&mut self) -> io::Result<()> {
        if self.locked.is_none() && !self.lock_if_there()? {
            again(|| fs::create_dir(&self.rt, FOLDER))?;
            self.lock_if_there()?;
        }
        Ok(())
    }

    /// Syncs the file of a device, and reads all its bytes. If the sync fails, the file gets a mark. A file that has a
    /// mark is written anew.
    pub(crate) fn read(&self, name: &str) -> io::Result<(FileId, Vec<u8>)> {
        let file = self.open_plain(name, OpenOptions::new().read(true))?;
        let id = id_of(&file)?;
        if id.len > MOST_BYTES {
            return Err(ErrorKind::FileTooLarge.into());
        }
        if let Err(error) = file.sync_all() {
            let _ = self.mark(name);
            return Err(error);
        }
        let mut bytes = vec![in self.rt.alloc(); 0; id.len as usize]?;
        file.read_exact_at(&mut bytes, 0)?;
        if self.has_mark(name)? {
            return Ok((self.renew(name, &bytes)?, bytes));
        }
        Ok((id, bytes))
    }

    /// Opens the file of a device that was read, or makes the file of one that had none. It fails if it is no longer the
    /// file that was read, or no longer of that length, or if a file is there that was not read.
    /// The name of a file without bytes is synced.
    pub(crate) fn open(&mut self, name: &str, read: Option<FileId>) -> io::Result<File> {
        let file = match read {
            Some(id) => self.reopen(name, id)?,
            None => File::create_new(&self.rt, self.path(name, "")?.as_str())?,
        };
        if read.is_none_or(|id| id.len == 0) {
            self.sync_names()?;
            self.sync_own_name()?;
        }
        Ok(file)
    }

    // Syncs the working folder once, which brings the folder's own name to the disk.
    fn sync_own_name(&mut self) -> io::Result<()> {
        if !self.is_named {
            File::open(&self.rt, ".")?.sync_all()?;
            self.is_named = true;
        }
        Ok(())
    }

    /// Writes the file of a device anew after a call on it has failed. If that fails too, and a sync was among the
    /// failed calls, the file gets a mark: what the system shows of it may not be on the disk. The next run that can
    /// write the file anew does so before it relies on what it reads. A file that may not be written gets no mark,
    /// because no call has changed it.
    pub(crate) fn settle(&self, name: &str, bytes: &[u8], is_unsynced: bool) {
        let Err(error) = self.renew(name, bytes) else {
            return;
        };
        if is_unsynced && !is_denied(error.kind()) {
            let _ = self.mark(name);
        }
    }

    // Writes a file anew. A new file with the rights and the owner of the old one takes its name. Then the mark is
    // removed. Returns which file that is.
    fn renew(&self, name: &str, bytes: &[u8]) -> io::Result<FileId> {
        let old = self.open_plain(name, OpenOptions::new().read(true).write(true))?;
        let new = self.write_new(name, bytes, &again(|| old.metadata())?);
        if new.is_err() {
            let _ = self.remove(name, NEW);
            return new;
        }
        let path = self.path(name, "")?;
        fs::rename(&self.rt, self.path(name, NEW)?.as_str(), path.as_str())?;
        self.sync_names()?;
        self.remove(name, MARK)?;
        self.sync_names()?;
        new
    }

    // Writes the new file, and syncs it. If this user may not give it to the old one's owner, it keeps its own. Returns
    // which file it is.
    fn write_new(&self, name: &str, bytes: &[u8], old: &Metadata) -> io::Result<FileId> {
        self.remove(name, NEW)?;
        let mut file = File::create_new(&self.rt, self.path(name, NEW)?.as_str())?;
        let _ = fchown(&file, Some(old.uid()), Some(old.gid()));
        file.set_permissions(old.permissions())?;
        file.write_all(bytes)?;
        file.sync_all()?;
        id_of(&file)
    }

    // Makes the file that marks the device, unless it is there, and syncs it and its name.
    fn mark(&self, name: &str) -> io::Result<()> {
        if !self.has_mark(name)? {
            self.remove(name, MARK)?;
            File::create_new(&self.rt, self.path(name, MARK)?.as_str())?.sync_all()?;
        }
        self.sync_names()
    }

    // Returns whether the device has a mark.
    fn has_mark(&self, name: &str) -> io::Result<bool> {
        let mark = self.path(name, MARK)?;
        again(|| fs::exists(&self.rt, mark.as_str()))
    }

    // Removes the file whose name is a device's name and `behind`, if it is there.
    fn remove(&self, name: &str, behind: &str) -> io::Result<()> {
        match fs::remove_file(&self.rt, self.path(name, behind)?.as_str()) {
            Err(error) if error.kind() != ErrorKind::NotFound => Err(error),
            _ => Ok(()),
        }
    }

    // Opens the file that was read. If it may not be written, it is opened for reading only.
    fn reopen(&self, name: &str, read: FileId) -> io::Result<File> {
        let file = match self.open_plain(name, OpenOptions::new().read(true).write(true)) {
            Err(error) if is_denied(error.kind()) => {
                self.open_plain(name, OpenOptions::new().read(true))?
            }
            answer => answer?,
        };
        if id_of(&file)? != read {
            return Err(ErrorKind::InvalidData.into());
        }
        Ok(file)
    }

    // Opens a plain file that has one name. It refuses a link and what is no file, and follows no link.
    fn open_plain(&self, name: &str, how: &OpenOptions) -> io::Result<File> {
        let path = self.path(name, "")?;
        let named = again(|| fs::symlink_metadata(&self.rt, path.as_str()))?;
        if !named.is_file() {
            return Err(ErrorKind::Unsupported.into());
        }
        let file = how.open(&self.rt, path.as_str())?;
        let found = again(|| file.metadata())?;
        let is_same = found.dev() == named.dev() && found.ino() == named.ino();
        if !is_same || found.nlink() != 1 {
            return Err(ErrorKind::Unsupported.into());
        }
        Ok(file)
    }

    /// Syncs the folder, which brings the names in it to the disk.
    pub(crate) fn sync_names(&self) -> io::Result<()> {
        match &self.locked {
            Some(folder) => folder.sync_all(),
            None => Err(ErrorKind::NotFound.into()),
        }
    }

    // The path of a device's file, with `behind` after the name.
    fn path(&self, name: &str, behind: &str) -> io::Result<String> {
        Ok(format!(in self.rt.alloc(); "{FOLDER}/{name}{behind}")?)
    }
}

// Returns whether a file may not be written, by this user or by anybody.
fn is_denied(kind: ErrorKind) -> bool {
    kind == ErrorKind::PermissionDenied || kind == ErrorKind::ReadOnlyFilesystem
}
