// Reading a text from left to right, with one lexeme at hand. What stops the reading is kept, and
// nothing is read behind it; what calls give then is of no account.
ghost use Rattle.std.specs.Prelude.{◌≤◌, ◌<◌, ◌^◌, length};
ghost use Rattle.std.specs.Result.{ForOk};

use mz_lex::S;
use mz_spec_theory::{Halt, Lexeme};
use std::alloc::Global;

/// A text, and what is at hand.
#[derive(Drop)]
pub struct Reader<'a> {
    pub alloc: Global,
    pub text: &'a [u8],
    /// The lexeme at hand, or what stopped the reading.
    pub hand: Result<Lexeme<'a>, Halt>,
    /// The rule that the lexeme breaks where it doesn't fit.
    pub rule: S,
    pub ghost small: { length text.now < 2 ^ 32 },
    pub ghost within: { ForOk hand (λ found. found.to ≤ length text.now) },
}
