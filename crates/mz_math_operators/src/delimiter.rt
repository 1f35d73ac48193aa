// The delimiters that a statement declares, where it is of its form.
ghost use Rattle.std.specs.Prelude.{option_map};
ghost use Rattle.mz_lex.specs.MathTokens.{AreCharacters, AreDelimiters};
ghost use Rattle.mz_math_theory.specs.NotationAnswers.{AreBoth, IsMade};

use mz_lex::{ByteSet, Delimiters};
use mz_math_theory::NoteFault;
use std::alloc::Global;

/// The delimiters that one string or two declare.
///
/// # Errors
///
/// Form where one of them isn't one character, or Mem.
pub fn declared(alloc: Global, left: &[u8], right: Option<&[u8]>) -> Result<Delimiters, NoteFault>
    ensures { IsMade result (AreDelimiters left.now (option_map (λ bytes. bytes.now) right.entry)) }
{
    match right {
        None => of_both(alloc, left, left),
        Some(right) => of_both(alloc, left, right),
    }
}

/// The delimiters of a string of left ones and a string of right ones.
fn of_both(alloc: Global, left: &[u8], right: &[u8]) -> Result<Delimiters, NoteFault>
    ensures { IsMade result (AreBoth left.now right.now) }
{
    match characters(alloc, left) {
        Err(fault) => Err(fault),
        Ok(left) => match characters(alloc, right) {
            Err(fault) => Err(fault),
            Ok(right) => Ok(Delimiters { left, right }),
        },
    }
}

/// The characters of a string, which whitespace separates.
fn characters(alloc: Global, text: &[u8]) -> Result<ByteSet, NoteFault>
    ensures { IsMade result (AreCharacters text.now) }
{
    let whole = Delimiters::new(alloc);
    let mut characters = ByteSet::new(alloc);
    let mut at = 0;
    'tokens: while let Some(token) = whole.next_token(text, at) {
        if token.to - token.from != 1 {
            return Err(NoteFault::Form);
        }
        let Ok(()) = characters.push(text[token.from]) else {
            return Err(NoteFault::Mem);
        };
        at = token.to;
    }
    Ok(characters)
}
