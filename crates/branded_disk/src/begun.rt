// What a store had when a command began.
ghost use Rattle.branded_disk.specs.Pasts.{Past, untold};

use std::marker::Brand;

/// What a store had when a command began, or nothing of it. A type parameter stands for it, so it is the same wherever
/// that parameter is the same, behind a lock too.
pub trait Begun: Send + Sync {
    /// What the device of each name was then, if that is told.
    ghost before: { Past };
}

impl Begun for Brand {
    ghost before = { untold };
}

/// Nothing is told of what the store had.
pub struct Untold;

impl Begun for Untold {
    ghost before = { untold };
}
