// Where bytes go.
ghost use Rattle.std.specs.Prelude.{◌≤◌, ◌<◌, length, IfOk, OnOk, OnErr};
ghost use Rattle.std.specs.Io.KnownBytes.{WriteAppends};
ghost use Rattle.byte_io.specs.Outside.{Outside, CountsNoFault, CountsOneFault};

use crate::Failed;

/// Something outside of the program that takes bytes, and may fail at any call.
pub trait Sink {
    /// The bytes that it was given so far, or `None` if they are not known, and how often a write has failed.
    ghost meaning: { Self → Outside };

    /// Writes some bytes from the front of `bytes`, and returns how many: at least one, unless
    /// `bytes` is empty. A write that failed has written no byte.
    fn write(&mut self, bytes: &[u8]) -> Result<usize, Failed>
        ensures bound { IfOk result (λ n. n ≤ length bytes.now) }
        ensures progress { IfOk result (λ n. 0 < length bytes.now → 0 < n) }
        ensures bytes { WriteAppends (meaning self.old).content (meaning self.new).content
            result bytes.now }
        ensures no_fault { OnOk result (CountsNoFault (meaning self.old) (meaning self.new)) }
        ensures one_fault { OnErr result (CountsOneFault (meaning self.old) (meaning self.new)) };
}
