//! The devices of a plant as files. Each device records what was read of its file and the calls on it since.
//!
//! [`DirStore::read`] locks the folder `historian.d`. It syncs each device that it is given the name of and reads it
//! whole, and then syncs the names in the folder. From then on the store reads a device from memory. Each write, cut or
//! sync is a call on the device's file, and is noted with its answer; only a sync of a file that nothing has changed
//! since its last sync makes no call. So the store relies on each answer of the disk only once, and the noted calls need
//! no premise on the disk's answers.
//!
//! **Proved**: after [`DirStore::read`] the trace of each device is the bytes that were read of it, with no call since
//! (`IsFresh`). A name without a device has an empty trace. A [`DirDisk`] is a [`disk_model::Disk`] and a [`DirStore`]
//! a [`disk_model::Store`]. They keep all promises of these traits on the trace, the clock and the faults: a read
//! returns what the calls so far make of the bytes that were read. Once a write, a cut or a sync has failed, each later
//! call on that device fails, in this run. The store hands out each device once, and none whose file was refused. Once
//! a device is given back, the store keeps the record of its calls, and frees its bytes.
//!
//! **Only trusted, and to be read**, because no clause knows what the system does:
//!
//! - `host.rt`: each method makes the one call that it notes, but a sync that has nothing to write makes none.
//! - `folder.rt`: it locks the folder, and reads and opens the file of a device's name. It refuses a link, a file with
//!   two names, a file of more than 1 GB, and a file that is not the one that was read, or not of that length.
//! - `dir_store.rt`: it gives a device the file of its name. That a device comes back under its name is proved above.
//!
//! A refused device counts a fault, and its file stays untouched. If another process has the folder, or the folder
//! cannot be read, every device is refused so. A file that may not be written is opened for reading, and a write of it
//! is then a fault.
//!
//! If a write, a cut or a sync of a device has failed, the store writes the device anew, whole, when it is given back.
//! The reason is that the system may show bytes that never came to the disk. The new file is synced and takes the old
//! one's name. If that fails too, and a sync had failed, a file `NAME.fault` marks the device. A file that may not be
//! written gets no mark then. A device whose first sync fails, before it is read, is refused and marked too. The next
//! run that can do it writes a marked device anew before it relies on what it reads.
//!
//! **Premises**, which no program can prove: a crash leaves of a file one of the images that the model allows for these
//! calls; only this process, which holds the lock, writes to the folder; the next run reads what the crash has left.
//!
//! If the first byte of a device in use is damaged, the store refuses the device (`IsGateLost`, `IsPastMaking`), because
//! it would be made anew. The store takes three kinds of devices for such a one:
//!
//! - a device of two bytes or more whose first byte is neither an open gate nor 00;
//! - a device of a tag or a log that begins with 00, although a later gate was opened;
//! - a device of a tag that begins with no open gate, and is longer than its making leaves it.
#![tactic(auto)]

mod calls;
mod dir_store;
mod first_byte;
mod folder;
mod host;
mod kept;
mod law;
mod places;
mod record;
mod told_disk;

pub use calls::Calls;
pub use dir_store::DirStore;
pub use host::Host;
pub use law::a_fresh_device_is_what_was_read;
pub use told_disk::DirDisk;
