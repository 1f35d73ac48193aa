// Tokens, and why there is none.
use crate::rule::S;
use thiserror::Error;

/// The kinds of lexemes.
#[derive(Clone, Copy, Debug, PartialEq, Eq)]
pub enum TokenKind {
    /// One of `* . : ; ( ) > { } = _`.
    Symbol,
    /// An identifier, as `wff` or `_a`, but not `_` alone.
    Name,
    /// `0`, or digits that don't begin with `0`.
    Number,
    /// From a `$` to the next one.
    Math,
}

/// A lexeme's kind, its first byte, and the byte behind it.
#[derive(Clone, Copy, Debug, PartialEq, Eq)]
pub struct Token {
    pub kind: TokenKind,
    pub from: u32,
    pub to: u32,
}

/// Why there is no next lexeme, at its place in the text.
#[derive(Clone, Copy, Debug, PartialEq, Eq, Error)]
pub enum LexFault {
    /// A byte that may not stand in a text.
    #[error("byte {0} may not stand in a specification")]
    Char(u32),
    /// A byte that begins no lexeme, or the `$` of a math string without its end.
    #[error("no lexeme begins at byte {0}")]
    Token(u32),
}

impl LexFault {
    ghost use Rattle.std.specs.Prelude.{◌≡◌};
    ghost use Rattle.mz_lex.specs.RuleText.{rule_of, place_of};

    /// The rule that the text breaks.
    pub fn rule(self) -> S
        ensures { result ≡ rule_of self }
    {
        match self {
            LexFault::Char(_) => S::Character,
            LexFault::Token(_) => S::Token,
        }
    }

    /// The byte at which it is reported.
    pub fn place(self) -> u32
        ensures { result ≡ place_of self }
    {
        match self {
            LexFault::Char(at) | LexFault::Token(at) => at,
        }
    }
}
