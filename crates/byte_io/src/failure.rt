// How a call to the outside fails, and how a whole reading or writing does.
use thiserror::Error;

/// A call to the outside failed. Its source or sink has counted a fault.
#[derive(Debug, Clone, Copy, PartialEq, Eq, Error)]
#[error("a call to the outside failed")]
pub struct Failed;

/// A write failed before all bytes were out. Some of them, from the first on, may be out.
#[derive(Debug, Clone, Copy, PartialEq, Eq, Error)]
#[error("a write failed")]
pub struct WriteFault;

/// Why a source was not read to its end. What was read until then has been taken from the source.
#[derive(Debug, Clone, Copy, PartialEq, Eq, Error)]
pub enum ReadNo {
    /// A read failed.
    #[error("a read failed")]
    ReadFault,
    /// The source gave more than `limit` bytes.
    #[error("more than {limit} bytes came")]
    TooLong { limit: u64 },
    /// There was no memory for the bytes.
    #[error("out of memory")]
    WantOfMemory,
}
