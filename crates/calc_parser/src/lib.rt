//! The calculation language: from a text to its tree, and from a tree to its canonical text.
//!
//! The model is a grammar of derivations in `specs/`, independent of any parser. A text is a formula if its tokens are
//! those of a derivation, and the derivation gives the tree. `parse` returns that tree, or reports the first token that
//! decides against the text. Such a token is ill formed, or follows the tokens before it in no formula, or nests too
//! deep. `print` writes the canonical text of a tree. If the tree is that of a formula, this text is again a formula,
//! with the same tree.
#![tactic(auto)]

mod builder;
mod formula;
mod law;
mod lexer;
mod parser;
mod printer;
mod refusal;
mod token;
mod tree;

pub use formula::parse;
pub use law::one_tree;
pub use printer::print;
pub use refusal::{ParseNo, SyntaxKind};
pub use tree::{Cmp, Expr, Op};
