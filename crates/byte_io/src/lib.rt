//! Bytes in and out.
//!
//! A [`Source`] gives bytes and a [`Sink`] takes them. Each is something outside of the program that can fail at any
//! call. A proof sees of each only its meaning, `Outside`: the bytes that a source has left or that a sink was given,
//! if these are known, and a count of its faults. A call that succeeds leaves that count as it was. A call that fails
//! adds one.
//!
//! [`read_all`] reads a source to its end, and [`write_all`] writes all of a text to a sink. If they succeed, no byte
//! is lost, added or changed. They report a fault exactly if one call failed, and their contracts say how much was read
//! or written by then.
//!
//! [`Files`] are read by name, and a read leaves them as they are. A proof knows one of three things of a file:
//! nothing, that no file has its name, or its bytes. [`read_file`] promises of a file what `read_all` does of a source.
//!
//! [`MemSource`], [`MemSink`] and [`MemFiles`] are sources, sinks and files in memory. They fail at the calls that a
//! test chooses. [`StdSource`] and [`StdSink`] wrap std's readers and writers. [`DirFiles`] reads the files of the
//! working folder.
#![tactic(auto)]

mod failure;
mod file_reading;
mod files;
mod folder_files;
mod memory;
mod memory_files;
mod retry;
mod sink;
mod source;
mod standard;
mod transfer;

pub use failure::{Failed, ReadNo, WriteFault};
pub use file_reading::read_file;
pub use files::Files;
pub use folder_files::DirFiles;
pub use memory::{MemSink, MemSource};
pub use memory_files::MemFiles;
pub use sink::Sink;
pub use source::Source;
pub use standard::{StdSink, StdSource};
pub use transfer::{read_all, write_all};
