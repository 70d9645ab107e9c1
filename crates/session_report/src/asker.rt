// Who asked the question that an entry of a tape answers.
ghost use Rattle.std.specs.Prelude.{◌≡◌, Option};

use group_book::Turn;
use tag_cell::Entry;

/// A reader, counted from 0, and a row of its file, counted from 1.
#[derive(Clone, Copy)]
pub struct Asker {
    pub reader: u32,
    pub row: u64,
}

// An entry of a tape, which may answer a question.
pub(crate) trait Answers {
    ghost use Rattle.session_report.specs.declared.asker.Asker.{Asker};

    ghost asker: { Self → Option Asker };

    /// Returns who asked the question that the entry answers, if it answers one.
    fn asked_by(&self) -> Option<Asker>
        ensures { result ≡ asker self.now };
}

impl Answers for Entry {
    ghost use Rattle.session_report.specs.Askers.{tag_asker};

    ghost asker = { tag_asker };

    fn asked_by(&self) -> Option<Asker> {
        match self {
            Entry::Ask { reader, row, .. } => Some(Asker {
                reader: *reader,
                row: *row,
            }),
            _ => None,
        }
    }
}

impl Answers for Turn {
    ghost use Rattle.session_report.specs.Askers.{group_asker};

    ghost asker = { group_asker };

    fn asked_by(&self) -> Option<Asker> {
        match self {
            Turn::Ask { reader, row, .. } => Some(Asker {
                reader: *reader,
                row: *row,
            }),
            _ => None,
        }
    }
}
