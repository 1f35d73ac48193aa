// The next lexeme of a text.
ghost use Rattle.std.specs.Prelude.{◌≡◌, ◌↔◌, ◌≤◌, ◌<◌, ◌+◌, ◌^◌, List, Option, length, IsTrue, IfOk, IfErr, MatchOption, IfSome, slice_index, ℕ};
ghost use Rattle.mz_lex.specs.Lexemes.{Answer, ComesNext, GoesAfter, HasBadByte, IsBadByte, IsBlank, IsFirstOf, IsLexFault, IsNext, Lexeme, LexemesTo, LexesFrom, lexeme};
ghost use Rattle.mz_lex.specs.RuleText.{place_of};
ghost use Rattle.mz_lex.specs.Scan.{IsNameTo, IsNoName, IsStart, SkipsOne};
ghost use Rattle.mz_lex.specs.declared.token.LexFault.{LexFault};

use crate::bytes::{Class, is_allowed, is_number_start, is_space, is_symbol};
use crate::token::{LexFault, Token, TokenKind};
use mz_base::is_name_start;

/// The next lexeme from the byte `pos` on; None where only whitespace and comments are left.
pub fn next_token(text: &[u8], pos: usize) -> Result<Option<Token>, LexFault>
    requires pos { pos ≤ length text.now }
    requires small { length text.now < 2 ^ 32 }

    // The answer is what comes next, and nothing else does.
    ensures next { ComesNext text.now pos result }
    ensures only { (answer : Answer) → ComesNext text.now pos answer → answer ≡ result }

    // It goes after all lexemes read before, and is the first of all that are left.
    ensures after { (from : ℕ) (before : List Lexeme) → LexemesTo text.now from before pos → GoesAfter text.now from before result }
    ensures first { (ls : List Lexeme) (ending : Option LexFault) → LexesFrom text.now pos ls ending → IsFirstOf text.now ls ending result }
    ensures span { IfOk result (λ found. IfSome found (λ token. (pos ≤ token.from) × (token.from < token.to) × (token.to ≤ length text.now))) }
    ensures place { IfErr result (λ fault. (pos ≤ place_of fault) × (place_of fault < length text.now)) }
{
    let at = match skip_blank(text, pos) {
        Ok(at) => at,
        Err(place) => return Err(LexFault::Char(place as u32)),
    };
    if at == text.len() {
        return Ok(None);
    }
    match token_at(text, pos, at) {
        Ok(token) => Ok(Some(token)),
        Err(fault) => Err(fault),
    }
}

fn starts_comment(text: &[u8], at: usize) -> bool
    requires { at ≤ length text.now }
    ensures { IsTrue result ↔ ((at + 2 ≤ length text.now) × (slice_index text.now at ≡ 45) × (slice_index text.now (at + 1) ≡ 45)) }
{
    text.len() - at >= 2 && text[at] == b'-' && text[at + 1] == b'-'
}

/// Goes over a space, a newline or a comment, where one stands there. An error is the place of a
/// byte that may not stand in a text.
fn skip_one(text: &[u8], at: usize) -> Result<usize, usize>
    requires { at ≤ length text.now }
    ensures skips { IfOk result (SkipsOne text.now at) }
    ensures stays { IfOk result (λ next. next ≡ at → IsStart text.now at) }
    ensures within { IfOk result (λ next. (at ≤ next) × (next ≤ length text.now)) }
    ensures fault { IfErr result (IsBadByte text.now at) }
{
    if starts_comment(text, at) {
        let end = Class::Comment.run_end(text, at + 2);
        if end < text.len() && text[end] != b'\n' {
            return Err(end);
        }
        return Ok(end);
    }
    if at < text.len() && is_space(text[at]) {
        return Ok(at + 1);
    }
    Ok(at)
}

/// Goes over whitespace and comments.
fn skip_blank(text: &[u8], from: usize) -> Result<usize, usize>
    requires { from ≤ length text.now }
    ensures blank { IfOk result (IsBlank text.now from) }
    ensures start { IfOk result (IsStart text.now) }
    ensures within { IfOk result (λ at. (from ≤ at) × (at ≤ length text.now)) }
    ensures fault { IfErr result (HasBadByte text.now from) }
    ensures fault_within { IfErr result (λ at. at < length text.now) }
{
    let mut at = from;
    loop {
        let next = skip_one(text, at)?;
        if next == at {
            return Ok(at);
        }
        at = next;
    }
}

/// Where a name that begins at a place ends, where one does.
fn name_at(text: &[u8], at: usize) -> Option<usize>
    requires { at < length text.now }
    ensures { MatchOption result (IsNoName text.now at) (IsNameTo text.now at) }
{
    let first = text[at];
    if !is_name_start(first) {
        return None;
    }
    let end = Class::Name.run_end(text, at + 1);
    if end == at + 1 && first == b'_' {
        return None;
    }
    Some(end)
}

fn token(kind: TokenKind, from: usize, to: usize) -> Token
    requires from { from < 2 ^ 32 }
    requires to { to < 2 ^ 32 }
    ensures { result ≡ record { kind = kind; from = from; to = to } }
{
    Token {
        kind,
        from: from as u32,
        to: to as u32,
    }
}

/// The lexeme at a place, behind whitespace and comments.
fn token_at(text: &[u8], from: usize, at: usize) -> Result<Token, LexFault>
    requires small { length text.now < 2 ^ 32 }
    requires within { at < length text.now }
    requires blank { IsBlank text.now from at }
    requires start { IsStart text.now at }
    ensures next { IfOk result (λ token. IsNext text.now from (lexeme text.now token)) }
    ensures fault { IfErr result (IsLexFault text.now from) }
{
    let first = text[at];
    if !is_allowed(first) {
        return Err(LexFault::Char(at as u32));
    }
    if let Some(end) = name_at(text, at) {
        return Ok(token(TokenKind::Name, at, end));
    }
    if first == b'$' {
        return math_at(text, from, at);
    }
    if is_number_start(first) {
        let end = Class::Digit.run_end(text, at + 1);
        return Ok(token(TokenKind::Number, at, end));
    }
    if first == b'0' {
        return Ok(token(TokenKind::Number, at, at + 1));
    }
    if is_symbol(first) {
        return Ok(token(TokenKind::Symbol, at, at + 1));
    }
    Err(LexFault::Token(at as u32))
}

/// The math string at a place.
fn math_at(text: &[u8], from: usize, at: usize) -> Result<Token, LexFault>
    requires small { length text.now < 2 ^ 32 }
    requires within { at < length text.now }
    requires blank { IsBlank text.now from at }
    requires start { IsStart text.now at }
    requires first { slice_index text.now at ≡ 36 }
    ensures next { IfOk result (λ token. IsNext text.now from (lexeme text.now token)) }
    ensures fault { IfErr result (IsLexFault text.now from) }
{
    let end = Class::Math.run_end(text, at + 1);
    if end == text.len() {
        return Err(LexFault::Token(at as u32));
    }
    if text[end] != b'$' {
        return Err(LexFault::Char(end as u32));
    }
    Ok(token(TokenKind::Math, at, end + 1))
}
