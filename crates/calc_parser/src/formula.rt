// From a text to its tree.

ghost use Rattle.std.specs.Prelude.{◌≡◌, ◌-◌, ◌≤◌, ◌<◌, Err, length, drop, slice_index_or, IfOk, IfErr};
ghost use Rattle.calc_parser.specs.Formulas.{most_bytes, IsFormula, HasFormulaCause, Gives, kind_of};
ghost use Rattle.calc_parser.specs.declared.refusal.ParseNo.TheVariants.{Long};
ghost use Rattle.calc_parser.specs.Scan.{refusal_of};
ghost use Rattle.calc_parser.specs.Tree.{Tree, tree_of};

use crate::lexer::lexed;
use crate::parser::{Parser, Stop};
use crate::token::{Lexed, Token};
use crate::{Expr, ParseNo, SyntaxKind};
use std::alloc::Global;

// How many bytes a formula may have.
const MAX_BYTES: usize = 1024;

/// Returns the tree of a formula, or why the text has none. A place in an error is the first byte of the refused token,
/// counted from 0. If the text ends too soon, it is the text's length.
pub fn parse(alloc: Global, text: &str) -> Result<Expr, ParseNo>
    // A returned tree is that of the text, which is short and shallow enough.
    ensures tree { IfOk result (λ e. IsFormula text.now (tree_of e)) }
    // The tree of such a text is returned, unless no memory is found.
    ensures only { (t : Tree) → IsFormula text.now t → Gives result t }
    // A text that is too long is refused as `Long`, whether there is memory or not.
    ensures long { most_bytes < length text.now → result ≡ Err (Long (length text.now)) }
    // What each refusal means.
    ensures refused { IfErr result (HasFormulaCause text.now) }
{
    let bytes = text.as_bytes();
    if bytes.len() > MAX_BYTES {
        return Err(ParseNo::Long {
            len: bytes.len() as u64,
        });
    }
    let lexed = lexed(alloc, bytes)?;
    let mut parser = Parser::new(alloc, lexed.tokens.as_slice());
    match parser.all() {
        Ok(e) => Ok(e),
        Err(stop) => Err(refusal(stop, &lexed, parser.left(), bytes.len())),
    }
}

// Returns the refusal at the first of the `left` last tokens, of a text of `end` bytes.
fn refusal(stop: Stop, lexed: &Lexed, left: usize, end: usize) -> ParseNo
    requires { end ≤ 1024 }
    ensures { let tokens = lexed.now.tokens.items in let i = length tokens - left in
        result ≡ refusal_of stop (slice_index_or lexed.now.places.items i end) (drop i tokens) }
{
    let i = lexed.tokens.len().saturating_sub(left);
    let at = lexed.places.get(i).copied().unwrap_or(end as u32);
    match stop {
        Stop::Off => ParseNo::Syntax {
            at,
            kind: kind_at(lexed.tokens.as_slice(), i),
        },
        Stop::Deep => ParseNo::Deep { at },
        Stop::WantOfMemory => ParseNo::WantOfMemory,
    }
}

// What is wrong with the token at an index.
fn kind_at(tokens: &[Token], i: usize) -> SyntaxKind
    ensures { result ≡ kind_of (drop i tokens.now) }
{
    match tokens.get(i) {
        Some(Token::Ill(kind)) => *kind,
        Some(_) => SyntaxKind::Token,
        None => SyntaxKind::End,
    }
}
