// The units of a plant that have a device.

/// A tag or a group, numbered from 0 in the order of the base, or the log of the whole plant.
#[derive(Clone, Copy, Debug, PartialEq, Eq)]
pub enum Unit {
    Tag(u32),
    Group(u32),
    Log,
}
