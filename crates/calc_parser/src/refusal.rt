// Why a text is no formula.

ghost use Rattle.std.specs.Prelude.{◌≡◌};

use trend_num::WantOfMemory;

/// What is wrong with the token that decides.
#[derive(Clone, Copy, Debug, PartialEq, Eq)]
pub enum SyntaxKind {
    /// A byte that begins no token.
    Char,
    /// A numeral above 10^18.
    Number,
    /// A `'` that begins no quoted name.
    Name,
    /// A word that the language does not have.
    Word,
    /// A token that cannot occur at its place.
    Token,
    /// The text ends before the formula is complete.
    End,
}

/// Why a text has no tree. `at` is the first byte of the refused token, counted from 0, or the text's length at `End`.
#[derive(Clone, Copy, Debug, PartialEq, Eq)]
pub enum ParseNo {
    /// The text has more than 1,024 bytes. `len` is how many it has.
    Long { len: u64 },
    /// The first refused token would open nesting level 33.
    Deep { at: u32 },
    /// The first refused token is ill formed, or follows the tokens before it in no formula; or the text ends too soon.
    Syntax { at: u32, kind: SyntaxKind },
    /// No memory was found.
    WantOfMemory,
}

impl From<WantOfMemory> for ParseNo {
    ghost use Rattle.std.specs.Prelude.{◌≡◌};
    ghost use Rattle.calc_parser.specs.declared.refusal.ParseNo.TheVariants.{WantOfMemory};

    ghost from_gives = { λ _ no. no ≡ WantOfMemory };

    fn from(_: WantOfMemory) -> ParseNo {
        ParseNo::WantOfMemory
    }
}
