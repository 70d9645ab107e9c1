// Where bytes come from.
ghost use Rattle.std.specs.Prelude.{◌≤◌, length, IfOk, OnOk, OnErr};
ghost use Rattle.std.specs.Io.KnownBytes.{ReadConsumes};
ghost use Rattle.byte_io.specs.Outside.{Outside, CountsNoFault, CountsOneFault};

use crate::Failed;

/// Something outside of the program that gives bytes, and may fail at any call.
pub trait Source {
    /// The bytes that reads will give from here on, or `None` if they are not known, and how often a read has failed.
    ghost meaning: { Self → Outside };

    /// Reads some bytes to the front of `buf`, and returns how many. If it reads none into a buffer with room, the
    /// source is at its end. A read that failed has taken no byte.
    fn read(&mut self, buf: &mut [u8]) -> Result<usize, Failed>
        ensures bound { IfOk result (λ n. n ≤ length buf.new) }
        ensures bytes { ReadConsumes (meaning self.old).content (meaning self.new).content
            result buf.new }
        ensures no_fault { OnOk result (CountsNoFault (meaning self.old) (meaning self.new)) }
        ensures one_fault { OnErr result (CountsOneFault (meaning self.old) (meaning self.new)) };
}
