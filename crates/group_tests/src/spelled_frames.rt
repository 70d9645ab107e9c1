// Rows, changes and frames as text.
ghost use Rattle.std.specs.Prelude.{◌≡◌, ℕ, ◌+◌, ◌<◌, ◌≤◌, IsTrue, length, max, slice_index_or};
ghost use Rattle.event_frames.specs.{Change, IsChangeList};

use event_frames::{Bad, CalcValue, Change, Edit, Frame, Frames, WantOfMemory};
use std::alloc::{AllocError, Global};
use std::fmt::Write;
use std::process::Abort;

// Returns the value that a word spells: a number, or a bad value.
fn value(word: &str) -> CalcValue {
    match word.parse() {
        Ok(n) => CalcValue::Num(n),
        Err(_) => CalcValue::Bad(Bad::NoData),
    }
}

// Returns the row that a text spells.
pub(crate) fn row(alloc: Global, text: &str) -> Result<Vec<CalcValue>, AllocError> {
    let mut row = Vec::new(alloc);
    for word in text.split_whitespace() {
        row.push(value(word))?;
    }
    Ok(row)
}

// Returns the changes that a text spells, each as WINDOW:VALUE.
pub(crate) fn changes(alloc: Global, text: &str) -> Result<Vec<Change>, AllocError> {
    let mut changes = Vec::new(alloc);
    for word in text.split_whitespace() {
        let (window, spelled) = word.split_once(':').unwrap_or((word, ""));
        changes.push(Change {
            k: window.parse().unwrap_or(0),
            value: value(spelled),
        })?;
    }
    Ok(changes)
}

// Writes a frame as its first and its last window, with a star if that is the last window there is.
pub(crate) fn write_frame(told: &mut String, frame: Frame) -> Result<(), AllocError> {
    let mark = if frame.last { "*" } else { "" };
    write!(told, " {}-{}{mark}", frame.from, frame.upto)
}

// Writes an edit: the frame after a minus if it is gone, and after a plus if it is new.
pub(crate) fn write_edit(told: &mut String, edit: Edit) -> Result<(), AllocError> {
    let (sign, frame) = match edit {
        Edit::Gone(frame) => ("-", frame),
        Edit::New(frame) => ("+", frame),
    };
    let mark = if frame.last { "*" } else { "" };
    write!(told, " {sign}{}-{}{mark}", frame.from, frame.upto)
}

// Returns whether the change at this place may follow the one before it.
fn follows(windows: u64, changes: &[Change], i: usize) -> bool
    requires { i < length changes.now }
    ensures first { IsTrue result → i ≡ 0 → (d : Change) → (slice_index_or changes.now i d).k ≤ windows }
    ensures rising { IsTrue result → (j : ℕ) → j + 1 ≡ i
        → (d : Change) → (slice_index_or changes.now j d).k < (slice_index_or changes.now i d).k }
    ensures gapless { IsTrue result → (j : ℕ) → j + 1 ≡ i
        → (d : Change) → (slice_index_or changes.now i d).k ≤ max windows ((slice_index_or changes.now j d).k + 1) }
{
    let window = changes[i].k;
    if i == 0 {
        return window <= windows;
    }
    let before = changes[i - 1].k;
    before < window && (window <= windows || window - 1 == before)
}

// Returns whether these are changes of a row of so many windows.
fn are_changes(windows: u64, changes: &[Change]) -> bool
    ensures { IsTrue result → IsChangeList windows changes.now }
{
    for i in 0..changes.len() {
        if !follows(windows, changes, i) {
            return false;
        }
    }
    true
}

// Applies the changes to the frames, and returns the edits.
pub(crate) fn applied(
    rt: &impl Abort,
    frames: &mut Frames,
    changes: &[Change],
) -> Result<Vec<Edit>, WantOfMemory> {
    assert!(rt; are_changes(frames.windows(), changes));
    frames.apply(changes)
}
