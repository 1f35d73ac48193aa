// Lexemes with their bytes.
ghost use Rattle.std.specs.Prelude.{◌≡◌, ◌≤◌, bytes_eq, length};
ghost use Rattle.mz_lex.specs.Lexemes.{lexeme as lexeme_lem};
ghost use Rattle.mz_spec_theory.specs.StatementCode.{lexeme};
ghost use Rattle.mz_spec_theory.specs.Tests.{a_formula, a_name, a_name_or_blank, a_number, fits, the_keyword, the_symbol};

use mz_lex::{Token, TokenKind};

/// A lexeme: its kind, its bytes, where it begins, and the place behind it.
#[derive(Clone, Copy, Debug, PartialEq, Eq)]
pub struct Lexeme<'a> {
    pub kind: TokenKind,
    pub bytes: &'a [u8],
    pub from: u32,
    pub to: u32,
}

impl<'a> Lexeme<'a> {
    /// The lexeme of a text that a token stands for.
    pub fn new(text: &'a [u8], token: Token) -> Lexeme<'a>
        requires order { token.from ≤ token.to }
        requires within { token.to ≤ length text.now }
        ensures { lexeme result ≡ lexeme_lem text.now token }
    {
        Lexeme {
            kind: token.kind,
            bytes: &text[token.from as usize..token.to as usize],
            from: token.from,
            to: token.to,
        }
    }

    /// It is this keyword.
    pub fn is_keyword(self, text: &[u8]) -> bool
        ensures { result ≡ fits (the_keyword text.now) self.entry.kind self.entry.bytes.now }
    {
        match self.kind {
            TokenKind::Name => is(self.bytes, text),
            _ => false,
        }
    }

    /// It is this symbol.
    pub fn is_symbol(self, text: &[u8]) -> bool
        ensures { result ≡ fits (the_symbol text.now) self.entry.kind self.entry.bytes.now }
    {
        match self.kind {
            TokenKind::Symbol => is(self.bytes, text),
            _ => false,
        }
    }

    /// It is an identifier.
    pub fn is_name(self) -> bool
        ensures { result ≡ fits a_name self.entry.kind self.entry.bytes.now }
    {
        matches!(self.kind, TokenKind::Name)
    }

    /// It is an identifier or `_`.
    pub fn is_name_or_blank(self) -> bool
        ensures { result ≡ fits a_name_or_blank self.entry.kind self.entry.bytes.now }
    {
        self.is_name() || self.is_symbol(b"_")
    }

    /// It is a math string.
    pub fn is_formula(self) -> bool
        ensures { result ≡ fits a_formula self.entry.kind self.entry.bytes.now }
    {
        matches!(self.kind, TokenKind::Math)
    }

    /// It is a number.
    pub fn is_number(self) -> bool
        ensures { result ≡ fits a_number self.entry.kind self.entry.bytes.now }
    {
        matches!(self.kind, TokenKind::Number)
    }
}

fn is(bytes: &[u8], text: &[u8]) -> bool
    ensures { result ≡ bytes_eq bytes.now text.now }
{
    bytes == text
}
