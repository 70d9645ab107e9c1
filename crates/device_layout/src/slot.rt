// The two places of a summary on a tag's device.
ghost use Rattle.std.specs.Prelude.{◌≡◌};
ghost use Rattle.device_layout.specs.Recovery.{summary_place, summary_gate};

/// A summary slot.
#[derive(Clone, Copy, Debug, PartialEq, Eq)]
pub enum Slot {
    /// The first one.
    First,
    /// The second one.
    Second,
}

impl Slot {
    /// Returns the place at which the slot begins, in bytes.
    pub fn place(self) -> u64
        ensures { result ≡ summary_place self }
    {
        match self {
            Slot::First => 128,
            Slot::Second => 256,
        }
    }

    /// Returns the place of its gate, in bytes.
    pub fn gate(self) -> u64
        ensures { result ≡ summary_gate self }
    {
        match self {
            Slot::First => 384,
            Slot::Second => 385,
        }
    }
}
