// Names of tags, groups and calculations.
ghost use Rattle.std.specs.Prelude.{◌≡◌, ◌-◌, ◌≤◌, ◌++◌, length, replicate, SomeIff};
ghost use Rattle.std.specs.List.{list_all};
ghost use Rattle.trend_num.specs.Names.{IsName, is_name_byte};

use std::marker::Model;
use std::str;

// The most bytes of a name.
const MAX_LEN: usize = 64;

/// The name of a tag, a group or a calculation: 1 to 64 letters, digits, `_`, `.` and `-`, case sensitive.
#[derive(Clone, Copy, Debug, PartialEq, Eq)]
pub struct Name {
    len: u8,
    bytes: [u8; 64],
}

impl Model for Name {
    ghost use Rattle.std.specs.Prelude.{ℕ, List, length, take, replicate, ◌++◌, ◌-◌};
    ghost use Rattle.trend_num.specs.Names.{IsNameStored};

    ghost Value = { List ℕ };

    ghost view = { λ n. take n.len n.bytes };

    ghost invariant = { λ n. IsNameStored n.len n.bytes };

    ghost inverse = { λ bytes. record { len = length bytes; bytes = bytes ++ replicate (64 - length bytes) 0 } };

    ghost use Rattle.std.specs.Prelude.{◌≡◌};
    ghost use Rattle.std.proofs.Common.{ap₂, ◌∙◌, ap};
    ghost use Rattle.trend_num.specs.declared.name.Name.TheInside.{Inside};
    ghost use Rattle.trend_num.specs.Names.{stored_len};

    ghost inverse_ok = { λ a stored.
        let make : ℕ → List ℕ → Inside = λ n bs. record { len = n; bytes = bs } in
        let same = stored_len a.len a.bytes stored in
        ap₂ make same (ap (λ n. take a.len a.bytes ++ replicate (64 - n) 0) same ∙ stored.zeros) };
}

impl Name {
    /// Returns the bytes of the name.
    pub fn bytes(&self) -> &[u8]
        ensures same { result.now ≡ self.now }
        ensures name { IsName result.now }
    {
        &self.bytes[..usize::from(self.len)]
    }

    /// Returns the text of the name.
    #[tactic(auto, using(crate::proofs::NameText::name_is_text))]
    pub fn text(&self) -> &str
        ensures { result.now ≡ self.now }
    {
        match str::from_utf8(self.bytes()) {
            Ok(text) => text,
            Err(_) => unreachable!(),
        }
    }
}

// Whether a byte is a letter, a digit, `_`, `.` or `-`.
fn is_name_byte(b: u8) -> bool
    ensures { result ≡ is_name_byte b }
{
    b.is_ascii_uppercase()
        || b.is_ascii_lowercase()
        || b.is_ascii_digit()
        || b == b'_'
        || b == b'.'
        || b == b'-'
}

/// Returns the name that these bytes spell, or `None` if they are no name.
pub fn name_from(bytes: &[u8]) -> Option<Name>
    ensures { SomeIff result (IsName bytes.now) bytes.now }
{
    if bytes.is_empty() || bytes.len() > MAX_LEN || !is_spelled(bytes) {
        return None;
    }
    Some(Name {
        len: bytes.len() as u8,
        bytes: padded(bytes),
    })
}

// Whether a name may contain each of these bytes.
fn is_spelled(bytes: &[u8]) -> bool
    ensures { result ≡ list_all is_name_byte bytes.now }
{
    bytes.iter().all(|b| is_name_byte(*b))
}

// These bytes with zeros after them.
fn padded(bytes: &[u8]) -> [u8; 64]
    requires { length bytes.now ≤ 64 }
    ensures { result ≡ bytes.now ++ replicate (64 - length bytes.now) 0 }
{
    let mut stored = [0u8; 64];
    for i in 0..bytes.len() {
        stored[i] = bytes[i];
    }
    stored
}
