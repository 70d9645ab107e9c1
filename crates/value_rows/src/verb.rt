// The verbs of queries.
ghost use Rattle.std.specs.Prelude.{◌≡◌};
ghost use Rattle.value_rows.specs.Asked.{verb_of};

use trend_num::Measure;

// What kind of query a verb asks for.
#[derive(Clone, Copy, Debug, PartialEq, Eq)]
pub(crate) enum Verb {
    At,
    Points,
    Window(Measure),
    Snap,
    Row,
}

// The verb of a word.
pub(crate) fn verb_of(word: &[u8]) -> Option<Verb>
    ensures { result ≡ verb_of word.now }
{
    if word == b"at".as_slice() {
        Some(Verb::At)
    } else if word == b"points".as_slice() {
        Some(Verb::Points)
    } else if word == b"snap".as_slice() {
        Some(Verb::Snap)
    } else if word == b"row".as_slice() {
        Some(Verb::Row)
    } else if word == b"area".as_slice() {
        Some(Verb::Window(Measure::Area))
    } else if word == b"avg".as_slice() {
        Some(Verb::Window(Measure::Avg))
    } else if word == b"total".as_slice() {
        Some(Verb::Window(Measure::Total))
    } else if word == b"low".as_slice() {
        Some(Verb::Window(Measure::Low))
    } else if word == b"high".as_slice() {
        Some(Verb::Window(Measure::High))
    } else if word == b"count".as_slice() {
        Some(Verb::Window(Measure::Count))
    } else if word == b"first".as_slice() {
        Some(Verb::Window(Measure::First))
    } else if word == b"last".as_slice() {
        Some(Verb::Window(Measure::Last))
    } else {
        None
    }
}
