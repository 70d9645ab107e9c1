// The text of an archive, before it is printed.
ghost use Rattle.std.specs.Prelude.{◌≡◌, OnOk, OnErr};
ghost use Rattle.byte_io.specs.Outside.{IsWritten, IsCutShort};
ghost use Rattle.point_text.specs.{archive_text};

use byte_io::{Sink, WriteFault};
use point_text::write_archive;
use std::marker::Model;
use tag_core::TagCore;

/// The text of an archive. It is printed from the archive's records, and is never in memory as a whole. A clause sees
/// its bytes.
#[derive(Drop)]
pub struct ArchiveText {
    core: TagCore,
}

impl Model for ArchiveText {
    ghost use Rattle.std.specs.Prelude.{List, ℕ};
    ghost use Rattle.point_text.specs.{archive_text};

    ghost Value = { List ℕ };

    ghost view = { λ a. archive_text a.core.state.records a.core.state.summary.held };
}

impl ArchiveText {
    // The text of the records of a core, and of the point that it holds.
    pub(crate) fn of(core: TagCore) -> ArchiveText
        ensures { result ≡ archive_text core.state.records core.state.summary.held }
    {
        ArchiveText { core }
    }

    /// Prints the text, a piece of fixed size at a time. It takes no memory. If a write fails, it returns an error;
    /// some of the bytes, from the first on, are then written, and never all.
    pub fn print<O: Sink>(&self, out: &mut O) -> Result<(), WriteFault>
        ensures whole { OnOk result (IsWritten (O.meaning out.old) (O.meaning out.new) self.now) }
        ensures cut_short { OnErr result (IsCutShort (O.meaning out.old) (O.meaning out.new) self.now) }
    {
        write_archive(out, self.core.recs(), self.core.held())
    }
}
