// Files of the working folder. No clause says what they hold.
ghost use Rattle.std.specs.Prelude.{◌≡◌, ◌≤◌, length, IfOk};

use crate::retry::read_again;
use crate::{Failed, Files};
use std::fs::File;
use std::io::{self, Seek, SeekFrom};
use std::rt;

// A file that is being read, and how far it was read.
#[derive(Drop)]
struct Opened {
    name: String,
    file: File,
    at: u64,
}

impl Opened {
    // Opens a file and moves to a place of it. A file without places, such as a pipe, can be read only from its
    // beginning.
    fn at<R: rt::Files<File = File> + AllocGlobal>(
        rt: &R,
        name: &str,
        at: u64,
    ) -> io::Result<Opened> {
        let mut file = File::open(rt, name)?;
        if at > 0 {
            file.seek(SeekFrom::Start(at))?;
        }
        let name = String::from_str(rt.alloc(), name)?;
        Ok(Opened { name, file, at })
    }

    // Returns whether this file was read as far as this place.
    fn is_at(&self, name: &str, at: u64) -> bool {
        self.name.as_str() == name && self.at == at
    }
}

/// The files of the working folder, or of another if a name is a path. A file stays open while it is read in order. So
/// all of it comes from one file, even if another file gets its name meanwhile. Each error is a fault, also if a file
/// is missing.
#[derive(Drop)]
pub struct DirFiles<R> {
    rt: R,
    opened: Option<Opened>,
    faults: u64,
}

impl<R> DirFiles<R> {
    ghost use Rattle.byte_io.specs.Folders.{folder_faults};

    /// Returns the files of the working folder, with no fault so far.
    pub fn new(rt: R) -> DirFiles<R>
        ensures faults { folder_faults result ≡ 0 }
    {
        DirFiles {
            rt,
            opened: None,
            faults: 0,
        }
    }

    /// Returns how many reads failed. The count stays at the end of its type.
    pub fn faults(&self) -> u64
        ensures { result ≡ folder_faults self.now }
    {
        self.faults
    }
}

impl<R: rt::Files<File = File> + AllocGlobal> DirFiles<R> {
    // Returns the file of this name, read as far as this place.
    fn file_at(&mut self, name: &str, at: u64) -> io::Result<Opened>
        ensures faults { self.new.faults ≡ self.old.faults }
    {
        if let Some(opened) = self.opened.take() {
            if opened.is_at(name, at) {
                return Ok(opened);
            }
        }
        Opened::at(&self.rt, name, at)
    }

    // Reads the next bytes of a file. The file is closed at its end, and if a read fails.
    fn read_on(&mut self, name: &str, at: u64, buf: &mut [u8]) -> io::Result<usize>
        ensures bound { IfOk result (λ n. n ≤ length buf.new) }
        ensures faults { self.new.faults ≡ self.old.faults }
    {
        let mut opened = self.file_at(name, at)?;
        let count = read_again(&mut opened.file, buf)?;
        if count > 0 {
            opened.at = opened.at.saturating_add(count as u64);
            self.opened = Some(opened);
        }
        Ok(count)
    }
}

impl<R: rt::Files<File = File> + AllocGlobal> Files for DirFiles<R> {
    ghost use Rattle.std.specs.Prelude.{None};
    ghost use Rattle.byte_io.specs.Files.{Untold};
    ghost use Rattle.byte_io.specs.Folders.{folder_faults};

    ghost told = { λ _ _. Untold };

    ghost fault_count = { folder_faults };

    ghost failed_name = { λ _. None };

    fn read_at(&mut self, name: &str, at: u64, buf: &mut [u8]) -> Result<usize, Failed> {
        if let Ok(count) = self.read_on(name, at, buf) {
            return Ok(count);
        }
        self.faults = self.faults.saturating_add(1);
        Err(Failed)
    }
}
