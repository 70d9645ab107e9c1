// From tokens to a tree, one method for each level of the grammar.

ghost use Rattle.std.specs.Prelude.{◌≡◌, ◌+◌, ◌<◌, ◌≤◌, Bool, [], ◌∷◌, length, drop, IfOk, OnOk};
ghost use Rattle.calc_parser.specs.Formulas.{deepest};
ghost use Rattle.calc_parser.specs.Grammar.{formula, sums, terms, factor};
ghost use Rattle.calc_parser.specs.Tree.{tree_of};
ghost use Rattle.calc_parser.specs.declared.token.Token.TheVariants.{Summing, Open, Close, Comma, Quoted, Picking, Choice};
ghost use Rattle.calc_parser.specs.Scan.{head, Stack, operand, more, bracket, name, comma, close, whole, scan, fine, SpellsTokens, SpellsFirst, SpellsNext, SpellsAfter, LeavesVerdict, EndsTerms, EndsSums};

use crate::Expr;
use crate::builder::{absolute, chosen, compared, negated, pick_op, product_op, sum_op, two};
use crate::token::{Pick, Sum, Token};
use std::alloc::Global;
use trend_num::{Name, WantOfMemory};

// The deepest nesting of a formula.
const DEEPEST: u32 = 32;

// Why no tree is read.
#[derive(Clone, Copy, Debug, PartialEq, Eq)]
pub(crate) enum Stop {
    /// The token cannot occur at its place.
    Off,
    /// The token opens a level that is too deep.
    Deep,
    /// No memory was found.
    WantOfMemory,
}

impl From<WantOfMemory> for Stop {
    ghost use Rattle.std.specs.Prelude.{◌≡◌};
    ghost use Rattle.calc_parser.specs.declared.parser.Stop.TheVariants.{WantOfMemory};

    ghost from_gives = { λ _ stop. stop ≡ WantOfMemory };

    fn from(_: WantOfMemory) -> Stop {
        Stop::WantOfMemory
    }
}

// A parser: the tokens that are left. A method that refuses a token stays at it.
#[derive(Drop)]
pub(crate) struct Parser<'t> {
    alloc: Global,
    rest: &'t [Token],
}

impl<'t> Parser<'t> {
    pub(crate) fn new(alloc: Global, tokens: &'t [Token]) -> Self
        ensures { result.rest.now ≡ tokens.now }
    {
        Parser {
            alloc,
            rest: tokens,
        }
    }

    // How many tokens are left.
    pub(crate) fn left(&self) -> usize
        ensures { result ≡ length self.now.rest.now }
    {
        self.rest.len()
    }

    // Returns the next token, or `End` if none is left.
    fn peek(&self) -> Token
        ensures { result ≡ head self.now.rest.now }
    {
        match self.rest {
            [token, ..] => *token,
            [] => Token::End,
        }
    }

    // Skips the next token.
    fn advance(&mut self)
        requires { 0 < length self.old.rest.now }
        ensures { self.new.rest.now ≡ drop 1 self.old.rest.now }
    {
        self.rest = &self.rest[1..];
    }

    // Reads a whole formula, with nothing after it.
    pub(crate) fn all(&mut self) -> Result<Expr, Stop>
        ensures parsed { IfOk result (λ e. SpellsTokens formula self.old.rest.now [] (tree_of e)) }
        ensures follows { LeavesVerdict result (scan (whole 0 []) self.old.rest.now) fine self.new.rest.now }
    {
        let e = self.formula(0)?;
        if self.rest.is_empty() {
            Ok(e)
        } else {
            Err(Stop::Off)
        }
    }

    // Reads a formula: a sum, or a comparison of two.
    #[cycle(parser)]
    fn formula(&mut self, level: u32) -> Result<Expr, Stop>
        requires { level ≤ deepest }
        ensures parsed { IfOk result (λ e. SpellsTokens formula self.old.rest.now self.new.rest.now (tree_of e)) }
        ensures follows { (k : Stack) → LeavesVerdict result (scan (whole level k) self.old.rest.now) (scan k self.new.rest.now) self.new.rest.now }
    {
        let left = self.sum(level)?;
        match self.peek() {
            Token::Comparing(cmp) => {
                self.advance();
                let right = self.sum(level)?;
                compared(self.alloc, cmp, left, right)
            }
            _ => Ok(left),
        }
    }

    // Reads terms with `+` or `-` between them.
    #[cycle(parser)]
    fn sum(&mut self, level: u32) -> Result<Expr, Stop>
        requires { level ≤ deepest }
        ensures parsed { IfOk result (λ e. SpellsTokens sums self.old.rest.now self.new.rest.now (tree_of e)) }
        ensures follows { (k : Stack) (c : Bool) → LeavesVerdict result
            (scan (operand level ∷ more level c ∷ k) self.old.rest.now)
            (scan (more level c ∷ k) self.new.rest.now) self.new.rest.now }
        ensures ends { OnOk result (EndsSums self.new.rest.now) }
    {
        let mut sum = self.term(level)?;
        while let Token::Summing(sign) = self.peek() {
            self.advance();
            let term = self.term(level)?;
            sum = two(self.alloc, sum_op(sign), sum, term)?;
        }
        Ok(sum)
    }

    // Reads factors with `*`, `/` or `%` between them.
    #[cycle(parser)]
    fn term(&mut self, level: u32) -> Result<Expr, Stop>
        requires { level ≤ deepest }
        ensures parsed { IfOk result (λ e. SpellsTokens terms self.old.rest.now self.new.rest.now (tree_of e)) }
        ensures follows { (k : Stack) (c : Bool) → LeavesVerdict result
            (scan (operand level ∷ more level c ∷ k) self.old.rest.now)
            (scan (more level c ∷ k) self.new.rest.now) self.new.rest.now }
        ensures ends { OnOk result (EndsTerms self.new.rest.now) }
    {
        let mut term = self.factor(level)?;
        while let Token::Multiplying(sign) = self.peek() {
            self.advance();
            let factor = self.factor(level)?;
            term = two(self.alloc, product_op(sign), term, factor)?;
        }
        Ok(term)
    }

    // Reads an operand, with or without a sign before it.
    #[cycle(parser)]
    fn factor(&mut self, level: u32) -> Result<Expr, Stop>
        requires { level ≤ deepest }
        ensures parsed { IfOk result (λ e. SpellsTokens factor self.old.rest.now self.new.rest.now (tree_of e)) }
        ensures follows { (k : Stack) → LeavesVerdict result (scan (operand level ∷ k) self.old.rest.now)
            (scan k self.new.rest.now) self.new.rest.now }
    {
        match self.peek() {
            Token::Summing(sign) => self.signed(sign, level),
            Token::Open => self.bracketed(level),
            Token::Number(n) => {
                self.advance();
                Ok(Expr::Num(n))
            }
            Token::Measuring(measure) => {
                self.advance();
                let tag = self.named(level)?;
                Ok(Expr::Window(measure, tag))
            }
            Token::Calculation => {
                self.advance();
                let name = self.named(level)?;
                Ok(Expr::Calc(name))
            }
            Token::Absolute => {
                self.advance();
                let inner = self.bracketed(level)?;
                absolute(self.alloc, inner)
            }
            Token::Picking(pick) => {
                self.advance();
                self.picked(pick, level)
            }
            Token::Choice => {
                self.advance();
                self.chosen(level)
            }
            _ => Err(Stop::Off),
        }
    }

    // Reads the next token, which is a sign, and the operand after it.
    #[cycle(parser)]
    fn signed(&mut self, sign: Sum, level: u32) -> Result<Expr, Stop>
        requires level { level ≤ deepest }
        requires sign { head self.old.rest.now ≡ Summing sign }
        ensures parsed { IfOk result (λ e. SpellsTokens factor self.old.rest.now self.new.rest.now (tree_of e)) }
        ensures follows { (k : Stack) → LeavesVerdict result (scan (operand level ∷ k) self.old.rest.now)
            (scan k self.new.rest.now) self.new.rest.now }
    {
        match sign {
            Sum::Plus => Err(Stop::Off),
            Sum::Minus => {
                if level == DEEPEST {
                    return Err(Stop::Deep);
                }
                self.advance();
                let inner = self.factor(level + 1)?;
                negated(self.alloc, inner)
            }
        }
    }

    // Reads a formula in brackets.
    #[cycle(parser)]
    fn bracketed(&mut self, level: u32) -> Result<Expr, Stop>
        requires { level ≤ deepest }
        ensures parsed { IfOk result (λ e. SpellsFirst self.old.rest.now (Close ∷ self.new.rest.now) (tree_of e)) }
        ensures follows { (k : Stack) → LeavesVerdict result (scan (bracket level ∷ whole (level + 1) (close ∷ k)) self.old.rest.now)
            (scan k self.new.rest.now) self.new.rest.now }
    {
        let inner = self.first(level)?;
        self.close()?;
        Ok(inner)
    }

    // Reads two formulas in brackets. A word before them picks one of the two values.
    #[cycle(parser)]
    fn picked(&mut self, pick: Pick, level: u32) -> Result<Expr, Stop>
        requires { level ≤ deepest }
        ensures parsed { IfOk result (λ e. SpellsAfter (Picking pick) self.old.rest.now self.new.rest.now (tree_of e)) }
        ensures follows { (k : Stack) → LeavesVerdict result
            (scan (bracket level ∷ whole (level + 1) (comma ∷ whole (level + 1) (close ∷ k))) self.old.rest.now)
            (scan k self.new.rest.now) self.new.rest.now }
    {
        let a = self.first(level)?;
        let b = self.next(level)?;
        self.close()?;
        two(self.alloc, pick_op(pick), a, b)
    }

    // Reads three formulas in brackets: a condition, and the two that it chooses from.
    #[cycle(parser)]
    fn chosen(&mut self, level: u32) -> Result<Expr, Stop>
        requires { level ≤ deepest }
        ensures parsed { IfOk result (λ e. SpellsAfter Choice self.old.rest.now self.new.rest.now (tree_of e)) }
        ensures follows { (k : Stack) → LeavesVerdict result
            (scan (bracket level ∷ whole (level + 1) (comma ∷ whole (level + 1) (comma ∷ whole (level + 1) (close ∷ k)))) self.old.rest.now)
            (scan k self.new.rest.now) self.new.rest.now }
    {
        let condition = self.first(level)?;
        let a = self.next(level)?;
        let b = self.next(level)?;
        self.close()?;
        chosen(self.alloc, condition, a, b)
    }

    // Reads an opening bracket, and the formula after it.
    #[cycle(parser)]
    fn first(&mut self, level: u32) -> Result<Expr, Stop>
        requires { level ≤ deepest }
        ensures parsed { IfOk result (λ e. SpellsFirst self.old.rest.now self.new.rest.now (tree_of e)) }
        ensures follows { (k : Stack) → LeavesVerdict result (scan (bracket level ∷ whole (level + 1) k) self.old.rest.now)
            (scan k self.new.rest.now) self.new.rest.now }
        ensures room { OnOk result (level < deepest) }
    {
        self.open(level)?;
        self.formula(level + 1)
    }

    // Reads a comma, and the formula after it.
    #[cycle(parser)]
    fn next(&mut self, level: u32) -> Result<Expr, Stop>
        requires { level < deepest }
        ensures parsed { IfOk result (λ e. SpellsNext self.old.rest.now self.new.rest.now (tree_of e)) }
        ensures follows { (k : Stack) → LeavesVerdict result (scan (comma ∷ whole (level + 1) k) self.old.rest.now)
            (scan k self.new.rest.now) self.new.rest.now }
    {
        self.comma()?;
        self.formula(level + 1)
    }

    // Reads a quoted name in brackets.
    fn named(&mut self, level: u32) -> Result<Name, Stop>
        requires { level ≤ deepest }
        ensures parsed { IfOk result (λ n. self.old.rest.now ≡ Open ∷ Quoted n ∷ Close ∷ self.new.rest.now) }
        ensures follows { (k : Stack) → LeavesVerdict result (scan (bracket level ∷ name ∷ close ∷ k) self.old.rest.now)
            (scan k self.new.rest.now) self.new.rest.now }
    {
        self.open(level)?;
        let name = self.quoted()?;
        self.close()?;
        Ok(name)
    }

    // Reads an opening bracket, which opens the next level.
    fn open(&mut self, level: u32) -> Result<(), Stop>
        requires { level ≤ deepest }
        ensures parsed { OnOk result (self.old.rest.now ≡ Open ∷ self.new.rest.now) }
        ensures follows { (k : Stack) → LeavesVerdict result (scan (bracket level ∷ k) self.old.rest.now)
            (scan k self.new.rest.now) self.new.rest.now }
        ensures room { OnOk result (level < deepest) }
    {
        match self.peek() {
            Token::Open => {
                if level == DEEPEST {
                    return Err(Stop::Deep);
                }
                self.advance();
                Ok(())
            }
            _ => Err(Stop::Off),
        }
    }

    // Reads a closing bracket.
    fn close(&mut self) -> Result<(), Stop>
        ensures parsed { OnOk result (self.old.rest.now ≡ Close ∷ self.new.rest.now) }
        ensures follows { (k : Stack) → LeavesVerdict result (scan (close ∷ k) self.old.rest.now)
            (scan k self.new.rest.now) self.new.rest.now }
    {
        match self.peek() {
            Token::Close => {
                self.advance();
                Ok(())
            }
            _ => Err(Stop::Off),
        }
    }

    // Reads a comma.
    fn comma(&mut self) -> Result<(), Stop>
        ensures parsed { OnOk result (self.old.rest.now ≡ Comma ∷ self.new.rest.now) }
        ensures follows { (k : Stack) → LeavesVerdict result (scan (comma ∷ k) self.old.rest.now)
            (scan k self.new.rest.now) self.new.rest.now }
    {
        match self.peek() {
            Token::Comma => {
                self.advance();
                Ok(())
            }
            _ => Err(Stop::Off),
        }
    }

    // Reads a quoted name.
    fn quoted(&mut self) -> Result<Name, Stop>
        ensures parsed { IfOk result (λ n. self.old.rest.now ≡ Quoted n ∷ self.new.rest.now) }
        ensures follows { (k : Stack) → LeavesVerdict result (scan (name ∷ k) self.old.rest.now)
            (scan k self.new.rest.now) self.new.rest.now }
    {
        match self.peek() {
            Token::Quoted(name) => {
                self.advance();
                Ok(name)
            }
            _ => Err(Stop::Off),
        }
    }
}
