// The tokens of a listing's lines.
ghost use Rattle.std.specs.Prelude.{◌≡◌, ◌++◌, OnOk, codes, decimal};
ghost use Rattle.mz_show.specs.Tokens.{command_words, param_line, proof_has_number, proof_name, result_line, unify_has_number, unify_name, word_text};

use itoa::Buffer;
use mz_cmd::{Mem, ProofCode, UnifyCode};
use mz_logic_theory::Word;

/// Appends a type word's sixteen hexadecimal digits, the most significant first.
fn put_word(word: Word, text: &mut Vec<u8>) -> Result<(), Mem>
    ensures { OnOk result (text.new.items ≡ text.old.items ++ word_text word) }
{
    let mut digits = [0; 16];
    hex::encode_to_slice(word.0.to_be_bytes(), &mut digits).unwrap();
    text.extend_from_slice(&digits)
}

/// Appends a parameter's line.
pub fn put_param(word: Word, text: &mut Vec<u8>) -> Result<(), Mem>
    ensures { OnOk result (text.new.items ≡ text.old.items ++ param_line word) }
{
    text.extend_from_slice(b" param ")?;
    put_word(word, text)?;
    text.extend_from_slice(b"\n")
}

/// Appends a result's line.
pub fn put_result(word: Word, text: &mut Vec<u8>) -> Result<(), Mem>
    ensures { OnOk result (text.new.items ≡ text.old.items ++ result_line word) }
{
    text.extend_from_slice(b" result ")?;
    put_word(word, text)?;
    text.extend_from_slice(b"\n")
}

/// Appends a space and a number.
pub fn put_number(number: u32, text: &mut Vec<u8>) -> Result<(), Mem>
    ensures { OnOk result (text.new.items ≡ text.old.items ++ (codes " " ++ decimal number)) }
{
    let mut buffer = Buffer::new();
    text.extend_from_slice(b" ")?;
    text.extend_from_slice(buffer.format(number).as_bytes())
}

/// The name of a unify stream's command.
fn unify_name(code: UnifyCode) -> &'static str
    ensures { result.now ≡ unify_name code }
{
    match code {
        UnifyCode::Term => "term",
        UnifyCode::TermSave => "term_save",
        UnifyCode::Ref => "ref",
        UnifyCode::Dummy => "dummy",
        UnifyCode::Hyp => "hyp",
    }
}

/// The name of a body's command.
fn proof_name(code: ProofCode) -> &'static str
    ensures { result.now ≡ proof_name code }
{
    match code {
        ProofCode::Term => "term",
        ProofCode::TermSave => "term_save",
        ProofCode::Ref => "ref",
        ProofCode::Dummy => "dummy",
        ProofCode::Thm => "thm",
        ProofCode::ThmSave => "thm_save",
        ProofCode::Hyp => "hyp",
        ProofCode::Conv => "conv",
        ProofCode::Refl => "refl",
        ProofCode::Symm => "symm",
        ProofCode::Cong => "cong",
        ProofCode::Unfold => "unfold",
        ProofCode::ConvCut => "conv_cut",
        ProofCode::ConvRef => "conv_ref",
        ProofCode::ConvSave => "conv_save",
        ProofCode::Save => "save",
        ProofCode::Sorry => "sorry",
    }
}

/// Whether the number of a body's command is listed.
fn proof_has_number(code: ProofCode) -> bool
    ensures { result ≡ proof_has_number code }
{
    matches!(
        code,
        ProofCode::Term
            | ProofCode::TermSave
            | ProofCode::Ref
            | ProofCode::Dummy
            | ProofCode::Thm
            | ProofCode::ThmSave
            | ProofCode::ConvRef
    )
}

/// Appends a command, with its number where that is listed.
fn put_words(has_number: bool, name: &str, value: u32, text: &mut Vec<u8>) -> Result<(), Mem>
    ensures { OnOk result (text.new.items ≡ text.old.items ++ command_words has_number name.now value) }
{
    text.extend_from_slice(name.as_bytes())?;
    if has_number {
        put_number(value, text)?;
    }
    Ok(())
}

/// Appends the line of a unify stream's command.
pub fn put_unify_line(code: UnifyCode, value: u32, text: &mut Vec<u8>) -> Result<(), Mem>
    ensures { OnOk result (text.new.items ≡ text.old.items ++ (codes " u " ++ command_words (unify_has_number code) (unify_name code) value ++ codes "\n")) }
{
    let has_number = !matches!(code, UnifyCode::Hyp);
    text.extend_from_slice(b" u ")?;
    put_words(has_number, unify_name(code), value, text)?;
    text.extend_from_slice(b"\n")
}

/// Appends the line of a body's command.
pub fn put_proof_line(code: ProofCode, value: u32, text: &mut Vec<u8>) -> Result<(), Mem>
    ensures { OnOk result (text.new.items ≡ text.old.items ++ (codes " p " ++ command_words (proof_has_number code) (proof_name code) value ++ codes "\n")) }
{
    text.extend_from_slice(b" p ")?;
    put_words(proof_has_number(code), proof_name(code), value, text)?;
    text.extend_from_slice(b"\n")
}
