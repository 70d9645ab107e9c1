// The tokens of a formula.

ghost use Rattle.std.specs.Prelude.{◌≡◌, [], ◌∷◌, ◌++◌, OnOk};

use crate::{Cmp, SyntaxKind};
use std::alloc::Global;
use trend_num::{Measure, Name, WantOfMemory};

// A sign between terms. `-` may also come before an operand.
#[derive(Clone, Copy, Debug, PartialEq, Eq)]
pub(crate) enum Sum {
    Plus,
    Minus,
}

// A sign between factors.
#[derive(Clone, Copy, Debug, PartialEq, Eq)]
pub(crate) enum Product {
    Times,
    Over,
    Modulo,
}

// A word that picks one of two values.
#[derive(Clone, Copy, Debug, PartialEq, Eq)]
pub(crate) enum Pick {
    Least,
    Greatest,
}

// A token of a formula.
#[derive(Clone, Copy, Debug, PartialEq, Eq)]
pub(crate) enum Token {
    /// A numeral, from 0 to 10^18.
    Number(i64),
    /// A name between quotes.
    Quoted(Name),
    /// The word of a measure.
    Measuring(Measure),
    /// `calc`
    Calculation,
    /// `abs`
    Absolute,
    /// `min` or `max`
    Picking(Pick),
    /// `if`
    Choice,
    Open,
    Close,
    Comma,
    Summing(Sum),
    Multiplying(Product),
    Comparing(Cmp),
    /// Bytes that are no token, and why.
    Ill(SyntaxKind),
    /// No token: nothing is left.
    End,
}

// The tokens of a text in order, and the byte at which each begins.
#[derive(Drop)]
pub(crate) struct Lexed {
    pub(crate) tokens: Vec<Token>,
    pub(crate) places: Vec<u32>,
}

impl Lexed {
    pub(crate) fn new(alloc: Global) -> Self
        ensures tokens { result.tokens.items ≡ [] }
        ensures places { result.places.items ≡ [] }
    {
        Lexed {
            tokens: Vec::new(alloc),
            places: Vec::new(alloc),
        }
    }

    // Adds one more token, and the byte at which it begins.
    pub(crate) fn push(&mut self, token: Token, place: u32) -> Result<(), WantOfMemory>
        ensures tokens { OnOk result (self.new.tokens.items ≡ self.old.tokens.items ++ token ∷ []) }
        ensures places { OnOk result (self.new.places.items ≡ self.old.places.items ++ place ∷ []) }
    {
        self.tokens.push(token)?;
        self.places.push(place)?;
        Ok(())
    }
}
