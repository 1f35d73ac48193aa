// The lines of a listing.
ghost use Rattle.std.specs.Prelude.{◌≡◌};
ghost use Rattle.mz_show.specs.Tokens.{unify_has_number as unify_numbered, proof_has_number as proof_numbered};
ghost use Rattle.mz_asm.specs.Reading.{line_in, head_in, numbers_in, part_in, param_in, result_in, unify_line_in, proof_line_in, value_in, unify_named, proof_named, plain_proof_named};

use crate::bytes::{first_word, is, other_words, place_of};
use crate::kind::Kind;
use crate::number::{number, word};
use mz_cmd::{ProofCode, UnifyCode};
use mz_logic_theory::Word;

/// A line of a listing. A number that is past 4,294,967,295 counts as 4,294,967,296.
#[derive(Clone, Copy)]
pub enum Line {
    /// The first line of a statement: its kind, its row, and a sort's modifiers, or how many
    /// parameters the row has.
    Head { kind: Kind, row: u64, number: u64 },
    /// The word of a parameter.
    Param(Word),
    /// The word of a term's result.
    Outcome(Word),
    /// A command of a unify stream, with its number, 0 where none is listed.
    Unify { code: UnifyCode, value: u64 },
    /// The end of a unify stream.
    UnifyEnd,
    /// A command of a body, with its number, 0 where none is listed.
    Proof { code: ProofCode, value: u64 },
    /// The end of a body.
    ProofEnd,
    /// The last line.
    End,
}

impl Line {
    /// The line that bytes are, without its newline; None where they are no line of a listing.
    pub fn read(text: &[u8]) -> Option<Line>
        ensures { result ≡ line_in text.now }
    {
        if is(text, b"end") {
            return Some(Line::End);
        }
        let first = first_word(text);
        let rest = other_words(text);
        if is(first, b"") {
            part(rest)
        } else if is(first, b"local") {
            head(Kind::of_local_word(first_word(rest)), other_words(rest))
        } else {
            head(Kind::of_word(first), rest)
        }
    }
}

/// The first line of a statement of this kind, with the numbers behind it.
fn head(kind: Option<Kind>, text: &[u8]) -> Option<Line>
    ensures { result ≡ head_in kind text.now }
{
    numbers(kind?, text)
}

fn numbers(kind: Kind, text: &[u8]) -> Option<Line>
    ensures { result ≡ numbers_in kind text.now }
{
    let row = number(first_word(text))?;
    let number = number(other_words(text))?;
    Some(Line::Head { kind, row, number })
}

/// A line that begins with a space, of what stands behind it.
fn part(text: &[u8]) -> Option<Line>
    ensures { result ≡ part_in text.now }
{
    let first = first_word(text);
    let rest = other_words(text);
    if is(first, b"param") {
        param(rest)
    } else if is(first, b"result") {
        outcome(rest)
    } else if is(first, b"u") {
        unify(rest)
    } else if is(first, b"p") {
        proof(rest)
    } else {
        None
    }
}

fn param(text: &[u8]) -> Option<Line>
    ensures { result ≡ param_in text.now }
{
    Some(Line::Param(word(text)?))
}

fn outcome(text: &[u8]) -> Option<Line>
    ensures { result ≡ result_in text.now }
{
    Some(Line::Outcome(word(text)?))
}

/// A unify stream's command.
fn unify(text: &[u8]) -> Option<Line>
    ensures { result ≡ unify_line_in text.now }
{
    if is(text, b"end") {
        return Some(Line::UnifyEnd);
    }
    let code = unify_code(first_word(text))?;
    let value = value(unify_has_number(code), text)?;
    Some(Line::Unify { code, value })
}

/// A body's command.
fn proof(text: &[u8]) -> Option<Line>
    ensures { result ≡ proof_line_in text.now }
{
    if is(text, b"end") {
        return Some(Line::ProofEnd);
    }
    let code = proof_code(first_word(text))?;
    let value = value(proof_has_number(code), text)?;
    Some(Line::Proof { code, value })
}

/// The number behind a command's name, or 0 where none may stand there and none does.
fn value(has_number: bool, text: &[u8]) -> Option<u64>
    ensures { result ≡ value_in has_number text.now }
{
    if has_number {
        number(other_words(text))
    } else if place_of(b' ', text) == text.len() {
        Some(0)
    } else {
        None
    }
}

fn unify_has_number(code: UnifyCode) -> bool
    ensures { result ≡ unify_numbered code }
{
    !matches!(code, UnifyCode::Hyp)
}

fn proof_has_number(code: ProofCode) -> bool
    ensures { result ≡ proof_numbered code }
{
    matches!(
        code,
        ProofCode::Term
            | ProofCode::TermSave
            | ProofCode::Ref
            | ProofCode::Dummy
            | ProofCode::Thm
            | ProofCode::ThmSave
            | ProofCode::ConvRef
    )
}

/// The command of unify streams that has this name.
fn unify_code(name: &[u8]) -> Option<UnifyCode>
    ensures { result ≡ unify_named name.now }
{
    if is(name, b"term") {
        Some(UnifyCode::Term)
    } else if is(name, b"term_save") {
        Some(UnifyCode::TermSave)
    } else if is(name, b"ref") {
        Some(UnifyCode::Ref)
    } else if is(name, b"dummy") {
        Some(UnifyCode::Dummy)
    } else if is(name, b"hyp") {
        Some(UnifyCode::Hyp)
    } else {
        None
    }
}

/// The command of bodies that has this name.
fn proof_code(name: &[u8]) -> Option<ProofCode>
    ensures { result ≡ proof_named name.now }
{
    if is(name, b"term") {
        Some(ProofCode::Term)
    } else if is(name, b"term_save") {
        Some(ProofCode::TermSave)
    } else if is(name, b"ref") {
        Some(ProofCode::Ref)
    } else if is(name, b"dummy") {
        Some(ProofCode::Dummy)
    } else if is(name, b"thm") {
        Some(ProofCode::Thm)
    } else if is(name, b"thm_save") {
        Some(ProofCode::ThmSave)
    } else if is(name, b"conv_ref") {
        Some(ProofCode::ConvRef)
    } else {
        plain_proof_code(name)
    }
}

/// The command of bodies that has this name, among those without a number.
fn plain_proof_code(name: &[u8]) -> Option<ProofCode>
    ensures { result ≡ plain_proof_named name.now }
{
    if is(name, b"hyp") {
        Some(ProofCode::Hyp)
    } else if is(name, b"conv") {
        Some(ProofCode::Conv)
    } else if is(name, b"refl") {
        Some(ProofCode::Refl)
    } else if is(name, b"symm") {
        Some(ProofCode::Symm)
    } else if is(name, b"cong") {
        Some(ProofCode::Cong)
    } else if is(name, b"unfold") {
        Some(ProofCode::Unfold)
    } else if is(name, b"conv_cut") {
        Some(ProofCode::ConvCut)
    } else if is(name, b"conv_save") {
        Some(ProofCode::ConvSave)
    } else if is(name, b"save") {
        Some(ProofCode::Save)
    } else if is(name, b"sorry") {
        Some(ProofCode::Sorry)
    } else {
        None
    }
}
