// Names of files.
ghost use Rattle.std.specs.Prelude.{◌≡◌, ◌<◌, ◌≤◌, length, string_bytes};

use std::marker::Model;

/// The name of a file: a text of 1 to 255 bytes.
#[derive(Debug, Drop)]
pub struct FileName {
    text: String,
}

impl Model for FileName {
    ghost use Rattle.std.specs.Prelude.{ℕ, List, ◌<◌, ◌≤◌, length, string_bytes};

    ghost Value = { List ℕ };

    ghost view = { λ f. string_bytes f.text };

    ghost invariant = { λ f. (0 < length (string_bytes f.text)) × (length (string_bytes f.text) ≤ 255) };
}

impl FileName {
    // Makes a name of a text.
    pub(crate) fn new(text: String) -> FileName
        requires some { 0 < length (string_bytes text) }
        requires short { length (string_bytes text) ≤ 255 }
        ensures { result ≡ string_bytes text }
    {
        FileName { text }
    }

    /// Returns the name as a text of 1 to 255 bytes.
    pub fn text(&self) -> &str
        ensures same { result.now ≡ self.now }
        ensures some { 0 < length result.now }
        ensures short { length result.now ≤ 255 }
    {
        self.text.as_str()
    }
}
