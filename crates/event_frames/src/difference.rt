// The frames of one list that are not in another.
ghost use Rattle.std.specs.Prelude.{◌≡◌, ℕ, ◌+◌, ◌*◌, ◌<◌, ◌≤◌, [], ◌∷◌, ◌++◌, true, false, AllPairs, length, slice_index_or, vec_len, vec_capacity};
ghost use Rattle.event_frames.specs.declared.frame.Frame.{Frame};
ghost use Rattle.event_frames.specs.Near.{AddsMissing, edit_of};

use crate::frame::{Edit, Frame};

// Returns the edit of a frame that came, or went.
fn edit(came: bool, frame: Frame) -> Edit
    ensures { result ≡ edit_of came frame }
{
    if came {
        Edit::New(frame)
    } else {
        Edit::Gone(frame)
    }
}

// Returns the first place, not before `place`, whose frame does not begin before the window `from`.
fn place_from(frames: &[Frame], place: usize, from: u64) -> usize
    requires { place ≤ length frames.now }
    ensures order { place ≤ result }
    ensures within { result ≤ length frames.now }
    ensures before { (i : ℕ) (d : Frame) → place ≤ i → i < result → (slice_index_or frames.now i d).from < from }
    ensures behind { (d : Frame) → result < length frames.now → from ≤ (slice_index_or frames.now result d).from }
{
    for i in place..frames.len() {
        if from <= frames[i].from {
            return i;
        }
    }
    frames.len()
}

// Whether the frame at a place is another one, or there is none.
fn is_missing_at(frames: &[Frame], place: usize, frame: Frame) -> bool
    requires { place ≤ length frames.now }
    ensures missing { result ≡ true → place < length frames.now → slice_index_or frames.now place frame ≡ frame → ⊥ }
    ensures there { result ≡ false → (place < length frames.now) × (slice_index_or frames.now place frame ≡ frame) }
{
    place == frames.len() || frames[place] != frame
}

// Appends an edit, if it is to be reported.
fn push_if(edits: &mut Vec<Edit>, tells: bool, edit: Edit)
    requires { vec_len edits.old < vec_capacity edits.old }
    ensures told { tells ≡ true → edits.new.items ≡ edits.old.items ++ edit ∷ [] }
    ensures same { tells ≡ false → edits.new.items ≡ edits.old.items }
    ensures more { vec_len edits.new ≤ vec_len edits.old + 1 }
    ensures capacity { vec_capacity edits.new ≡ vec_capacity edits.old }
{
    if tells {
        edits.push_reserved(edit);
    }
}

// Appends an edit for each frame that is not among `others`, as one that came or went.
pub(crate) fn push_missing(frames: &[Frame], others: &[Frame], came: bool, edits: &mut Vec<Edit>)
    requires frames { AllPairs (λ f g. f.from < g.from) frames.now }
    requires others { AllPairs (λ f g. f.from < g.from) others.now }
    requires room { vec_len edits.old + length frames.now ≤ vec_capacity edits.old }
    ensures added { AddsMissing edits.old.items edits.new.items came frames.now others.now (length frames.now) }
    ensures more { vec_len edits.new ≤ vec_len edits.old + length frames.now }
    ensures capacity { vec_capacity edits.new ≡ vec_capacity edits.old }
{
    let mut place = 0;
    for frame in frames {
        place = place_from(others, place, frame.from);
        push_if(
            edits,
            is_missing_at(others, place, *frame),
            edit(came, *frame),
        );
    }
}
