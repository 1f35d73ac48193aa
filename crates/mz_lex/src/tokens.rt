// The tokens of a math string.
ghost use Rattle.std.specs.Prelude.{◌≡◌, ◌↔◌, ◌≤◌, ◌<◌, ◌+◌, ◌^◌, ◌∷◌, ◌⊎◌, ⊤, [], All, ℕ, List, IsTrue, IfOk, OnOk, OnErr, MatchOption, Contains, drop, IfSome, codes, false, length, slice_index};
ghost use Rattle.mz_lex.specs.Kinds.{is_space as space};
ghost use Rattle.mz_lex.specs.MathTokens.{IsConstant, IsMathToken, IsSpaces, MathTokens, both, no_delimiters};
ghost use Rattle.mz_lex.specs.Answers.{EndsAt, IsNext};
ghost use Rattle.mz_lex.specs.declared.tokens.MathToken.{MathToken};

use crate::is_space;
use crate::set::ByteSet;
use std::alloc::{AllocError, Global};
use std::marker::Model;

/// The characters behind which, and those before which a token ends.
#[derive(Drop)]
pub struct Delimiters {
    pub left: ByteSet,
    pub right: ByteSet,
}

/// A token: its first byte, and the byte behind it.
#[derive(Clone, Copy)]
pub struct MathToken {
    pub from: usize,
    pub to: usize,
}

/// Where the whitespace from a place on ends.
fn skip_spaces(text: &[u8], from: usize) -> usize
    requires { from ≤ length text.now }
    ensures spaces { IsSpaces text.now from result }
    ensures within { result ≤ length text.now }
    ensures stops { result < length text.now → space (slice_index text.now result) ≡ false }
{
    let mut at = from;
    while at < text.len() && is_space(text[at]) {
        at += 1;
    }
    at
}

impl Delimiters {
    /// No delimiters.
    pub fn new(alloc: Global) -> Delimiters
        ensures { result ≡ no_delimiters }
    {
        Delimiters {
            left: ByteSet::new(alloc),
            right: ByteSet::new(alloc),
        }
    }

    /// Adds others to these.
    ///
    /// # Errors
    ///
    /// Where there is no memory. The delimiters are unchanged then.
    pub fn append(&mut self, others: &Delimiters) -> Result<(), AllocError>
        ensures ok { OnOk result (self.new ≡ both self.old others.now) }
        ensures err { OnErr result (self.new ≡ self.old) }
    {
        let many = self.left.len();
        self.left.append(&others.left)?;
        let Ok(()) = self.right.append(&others.right) else {
            self.left.shorten(many);
            return Err(AllocError);
        };
        Ok(())
    }

    /// Whether a token that goes up to a place ends there.
    fn ends_at(&self, text: &[u8], at: usize) -> bool
        requires after { 0 < at }
        requires within { at < length text.now }
        ensures { IsTrue result ↔ EndsAt self.now text.now at }
    {
        is_space(text[at]) || self.left.has(text[at - 1]) || self.right.has(text[at])
    }

    /// Where the token that begins at a place ends.
    fn token_end(&self, text: &[u8], from: usize) -> usize
        requires within { from < length text.now }
        requires solid { space (slice_index text.now from) ≡ false }
        ensures { IsMathToken self.now text.now (record { from = from; to = result }) }
    {
        let mut to = from + 1;
        while to < text.len() {
            if self.ends_at(text, to) {
                return to;
            }
            to += 1;
        }
        to
    }

    /// The next token from a place on, if there is one.
    pub fn next_token(&self, text: &[u8], from: usize) -> Option<MathToken>
        requires { from ≤ length text.now }
        ensures { MatchOption result (IsSpaces text.now from (length text.now)) (λ piece. IsNext self.now text.now from piece) }
    {
        let start = skip_spaces(text, from);
        if start == text.len() {
            return None;
        }
        Some(MathToken {
            from: start,
            to: self.token_end(text, start),
        })
    }

    /// The tokens of a math string.
    ///
    /// # Errors
    ///
    /// Where there is no memory.
    pub fn tokens(&self, alloc: Global, text: &[u8]) -> Result<Vec<MathToken>, AllocError>
        ensures { IfOk result (λ pieces. MathTokens self.now text.now pieces.items) }
    {
        let mut pieces = Vec::new(alloc);
        let mut at = 0;
        'tokens: while let Some(piece) = self.next_token(text, at) {
            pieces.push(piece)?;
            at = piece.to;
        }
        Ok(pieces)
    }

    /// The constant that a string is, if it is one token and no parenthesis.
    pub fn constant<'a>(&self, text: &'a [u8]) -> Option<&'a [u8]>
        ensures { MatchOption result ((w : List ℕ) → IsConstant self.now text.now w → ⊥) (λ w. IsConstant self.now text.now w.now) }
    {
        let piece = self.only_token(text)?;
        let word = &text[piece.from..piece.to];
        if is_parenthesis(word) {
            return None;
        }
        Some(word)
    }

    /// The token that a string is, if it is one.
    fn only_token(&self, text: &[u8]) -> Option<MathToken>
        ensures only { MatchOption result ((p : MathToken) → MathTokens self.now text.now (p ∷ []) → ⊥) (λ piece. MathTokens self.now text.now (piece ∷ []) × ((p : MathToken) → MathTokens self.now text.now (p ∷ []) → p ≡ piece)) }
        ensures within { IfSome result (λ p. (p.from < p.to) × (p.to ≤ length text.now)) }
    {
        match self.next_token(text, 0) {
            None => None,
            Some(piece) => match self.next_token(text, piece.to) {
                None => Some(piece),
                Some(_) => None,
            },
        }
    }
}

/// Whether it is a parenthesis.
pub fn is_parenthesis(word: &[u8]) -> bool
    ensures { IsTrue result ↔ ((word.now ≡ codes "(") ⊎ (word.now ≡ codes ")")) }
{
    word == b"(".as_slice() || word == b")".as_slice()
}

/// Tokens of a math string: its text, and where they stand in it.
#[derive(Drop)]
pub struct Tokens<'a> {
    text: &'a [u8],
    pieces: &'a [MathToken],
}

impl<'a> Model for Tokens<'a> {
    ghost use Rattle.std.specs.Prelude.{◌≤◌, List, ℕ, length, All};
    ghost use Rattle.mz_lex.specs.MathTokens.{token_texts};

    ghost Value = { List (List ℕ) };

    ghost invariant = { λ a. All (λ p. (p.from ≤ p.to) × (p.to ≤ length a.text.now)) a.pieces.now };

    ghost view = { λ a. token_texts a.text.now a.pieces.now };
}

impl<'a> Tokens<'a> {
    ghost use Rattle.mz_lex.specs.MathTokens.{token_texts};

    /// The tokens of a text that stand at these places.
    pub fn new(text: &'a [u8], pieces: &'a [MathToken]) -> Tokens<'a>
        requires { All (λ p. (p.from ≤ p.to) × (p.to ≤ length text.now)) pieces.now }
        ensures { result ≡ token_texts text.now pieces.now }
    {
        Tokens { text, pieces }
    }

    /// How many there are.
    pub fn len(&self) -> usize
        ensures { result ≡ length self.now }
    {
        self.pieces.len()
    }

    /// The token with this number from 0, if it is there.
    pub fn get(&self, at: usize) -> Option<&'a [u8]>
        ensures token { MatchOption result (drop at self.now ≡ []) (λ w. drop at self.now ≡ w.now ∷ drop (at + 1) self.now) }
        ensures within { MatchOption result (length self.now ≤ at) (λ w. at < length self.now) }
        ensures fits { MatchOption result ⊤ (λ w. at + 1 < 2 ^ 64) }
    {
        if at < self.pieces.len() {
            let piece = self.pieces[at];
            Some(&self.text[piece.from..piece.to])
        } else {
            None
        }
    }
}
