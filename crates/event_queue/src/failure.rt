// Why a batch is not put into a lane.
use thiserror::Error;

/// Why a batch is not put into a lane.
#[derive(Debug, Clone, Copy, PartialEq, Eq, Error)]
pub enum LaneNo {
    /// No lane slot is free.
    #[error("the lane is full")]
    LaneFull,
    /// A call of the device failed.
    #[error("a call of a device failed")]
    DeviceFault,
}
