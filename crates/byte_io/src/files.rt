// Where the bytes of files come from, by name.
ghost use Rattle.std.specs.Prelude.{◌≡◌, ◌<◌, ◌≤◌, ℕ, List, length, take, Option, IfOk, OnOk, OnErr};
ghost use Rattle.byte_io.specs.Files.{FileTold, HasAt, EndsBy, IsFaultOf};
ghost use Rattle.byte_io.specs.Outside.{next_fault_count};

use crate::Failed;

/// Files outside of the program that are read by name, and may fail at any call.
pub trait Files {
    /// What a proof knows of the file of a name.
    ghost told: { Self → List ℕ → FileTold };

    /// How often a read has failed.
    ghost fault_count: { Self → ℕ };

    /// The name of the file whose read failed last, if that is known.
    ghost failed_name: { Self → Option (List ℕ) };

    /// Reads some bytes of a file, from place `at` on, to the front of `buf`, and returns how many. If it reads none
    /// into a buffer with room, `at` is the end of the file or lies past it. A read of a file that is missing fails.
    /// The files stay as they are.
    fn read_at(&mut self, name: &str, at: u64, buf: &mut [u8]) -> Result<usize, Failed>
        ensures bound { IfOk result (λ n. n ≤ length buf.new) }
        ensures bytes { IfOk result (λ n. HasAt (told self.old name.now) at (take n buf.new)) }
        ensures end { IfOk result (λ n. n ≡ 0 → 0 < length buf.new → EndsBy (told self.old name.now) at) }
        ensures stays { told self.new ≡ told self.old }
        ensures no_fault { OnOk result (fault_count self.new ≡ fault_count self.old) }
        ensures one_fault { OnErr result (fault_count self.new ≡ next_fault_count (fault_count self.old)) }
        ensures whose { OnErr result (IsFaultOf (failed_name self.new) name.now) };
}
