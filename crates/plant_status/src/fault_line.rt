// A line in an array of its own, and the pieces of which it is made.
ghost use Rattle.std.specs.Prelude.{◌≡◌, ◌+◌, ◌<◌, ◌≤◌, [], ◌++◌, length, codes};
ghost use Rattle.std.specs.Fmt.{decimal};
ghost use Rattle.plant_status.specs.Line.{IsPrintable, IsLine};
ghost use Rattle.plant_status.specs.Word.{byte_word, file_text, unit_text};

use crate::file::FileId;
use crate::unit::Unit;
use crate::word::hex_digit;
use arrayvec::ArrayString;
use itoa::Buffer;
use std::marker::Model;

/// What a status prints: at most 120 bytes, which lie in the value itself.
#[derive(Debug, Drop)]
pub struct Line {
    text: ArrayString<120>,
}

impl Model for Line {
    ghost use Rattle.std.specs.Prelude.{ℕ, List, ◌≤◌, length};

    ghost Value = { List ℕ };

    ghost view = { λ line. line.text.bytes };

    ghost invariant = { λ line. length line.text.bytes ≤ 120 };
}

#[tactic(auto, using(crate::proofs::Printable::printable))]
impl Line {
    /// Returns the bytes of the line, its line feed included.
    pub fn bytes(&self) -> &[u8]
        ensures same { result.now ≡ self.now }
        ensures short { length result.now ≤ 120 }
    {
        self.text.as_str().as_bytes()
    }

    // Returns the empty line.
    pub(crate) fn empty() -> Self
        ensures { result ≡ [] }
    {
        Line {
            text: ArrayString::new(),
        }
    }

    // Returns the start of a line that reports a fault.
    pub(crate) fn fault(kind: &str) -> Self
        requires { length kind.now ≤ 20 }
        ensures text { result ≡ codes "fault: " ++ kind.now }
        ensures short { length result ≤ 27 }
        ensures printable { IsPrintable kind.now → IsPrintable result }
    {
        let mut line = Line::empty();
        line.push("fault: ");
        line.push(kind);
        line
    }

    // Appends a space and a word.
    pub(crate) fn word(mut self, word: &str) -> Self
        requires { length self + length word.now < 120 }
        ensures text { result ≡ self ++ codes " " ++ word.now }
        ensures len { length result ≡ length self + 1 + length word.now }
        ensures printable { IsPrintable self → IsPrintable word.now → IsPrintable result }
    {
        self.push(" ");
        self.push(word);
        self
    }

    // Appends a space and a number.
    pub(crate) fn number(self, number: u64) -> Self
        requires { length self + 20 < 120 }
        ensures text { result ≡ self ++ codes " " ++ decimal number }
        ensures short { length result ≤ length self + 21 }
        ensures printable { IsPrintable self → IsPrintable result }
    {
        let mut digits = Buffer::new();
        self.word(digits.format(number))
    }

    // Appends a space and a number of at most ten digits.
    pub(crate) fn small(self, number: u32) -> Self
        requires { length self + 10 < 120 }
        ensures text { result ≡ self ++ codes " " ++ decimal number }
        ensures short { length result ≤ length self + 11 }
        ensures printable { IsPrintable self → IsPrintable result }
    {
        let mut digits = Buffer::new();
        self.word(digits.format(number))
    }

    // Appends a space, a word, a space and a number of at most ten digits.
    pub(crate) fn named(self, word: &str, number: u32) -> Self
        requires { length self + length word.now + 11 < 120 }
        ensures text { result ≡ self ++ codes " " ++ word.now ++ codes " " ++ decimal number }
        ensures short { length result ≤ length self + length word.now + 12 }
        ensures printable { IsPrintable self → IsPrintable word.now → IsPrintable result }
    {
        self.word(word).small(number)
    }

    // Appends a space and a tag, a group or the log.
    pub(crate) fn unit(self, unit: Unit) -> Self
        requires { length self + 27 < 120 }
        ensures text { result ≡ self ++ codes " " ++ unit_text unit }
        ensures short { length result ≤ length self + 27 }
        ensures printable { IsPrintable self → IsPrintable result }
    {
        match unit {
            Unit::Tag(number) => self.word("tag").number(u64::from(number) + 1),
            Unit::Group(number) => self.word("group").number(u64::from(number) + 1),
            Unit::Log => self.word("log"),
        }
    }

    // Appends a space and a byte, or `end` if there is none.
    pub(crate) fn byte(self, byte: Option<u8>) -> Self
        requires { length self + 3 < 120 }
        ensures text { result ≡ self ++ codes " " ++ byte_word byte }
        ensures short { length result ≤ length self + 4 }
        ensures printable { IsPrintable self → IsPrintable result }
    {
        match byte {
            None => self.word("end"),
            Some(b) => {
                let mut line = self.word(hex_digit(b / 16));
                line.push(hex_digit(b % 16));
                line
            }
        }
    }

    // Appends a space and the name of a file.
    pub(crate) fn file(self, file: FileId) -> Self
        requires { length self + 31 < 120 }
        ensures text { result ≡ self ++ codes " " ++ file_text file }
        ensures short { length result ≤ length self + 31 }
        ensures printable { IsPrintable self → IsPrintable result }
    {
        match file {
            FileId::Input => self.word("input"),
            FileId::Base => self.word("base"),
            FileId::Plan => self.word("plan"),
            FileId::Calendar => self.word("calendar"),
            FileId::Collector(number) => self.word("collector").number(u64::from(number) + 1),
            FileId::Reader(number) => self.word("reader").number(u64::from(number) + 1),
        }
    }

    // Returns the line with its line feed.
    pub(crate) fn end(mut self) -> Self
        requires { length self < 120 }
        ensures text { result ≡ self ++ codes "\n" }
        ensures one_line { IsPrintable self → IsLine result }
    {
        self.push("\n");
        self
    }

    // Appends a text.
    fn push(&mut self, text: &str)
        requires { length self.old + length text.now ≤ 120 }
        ensures { self.new ≡ self.old ++ text.now }
    {
        self.text.push_str(text);
    }
}
