// How a call of a device fails, and want of memory.
use thiserror::Error;

/// A call of a device or a store failed. It has counted a fault.
#[derive(Debug, Clone, Copy, PartialEq, Eq, Error)]
#[error("a call of a device failed")]
pub struct Failed;

/// There was no memory.
#[derive(Debug, Clone, Copy, PartialEq, Eq, Error)]
#[error("out of memory")]
pub struct WantOfMemory;
