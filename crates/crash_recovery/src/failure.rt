// A tag's device that is not opened.
use device_layout::OpenNo;

/// A device that could not be opened.
#[derive(Drop)]
pub struct OpenFail<D> {
    /// The device, given back.
    pub dev: D,
    /// Why it was not opened.
    pub why: OpenNo,
}
