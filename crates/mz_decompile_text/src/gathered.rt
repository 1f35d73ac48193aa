//! Phrases of expressions, pushed.
ghost use Rattle.std.specs.Prelude.{◌≡◌, ◌<◌, ◌≤◌, ◌∷◌, All, IfOk, List, Some, drop, length, map, slice_get, ℕ};
ghost use Rattle.mz_logic_theory.specs.Tree.{Tree, app, var};
ghost use Rattle.mz_machine_theory.specs.Spells.{trees_of};
ghost use Rattle.mz_decompile_text.specs.Phrases.{a_word};
ghost use Rattle.mz_decompile_text.specs.Phrasing.{Vocabulary, expression};
ghost use Rattle.mz_decompile_text.specs.Naming.{vocabulary_by};
ghost use Rattle.mz_decompile_text.specs.ByNumber.{Grows};
ghost use Rattle.mz_decompile_text.specs.Numbers.{AreAt};

use crate::{PairNames, Phrases};
use mz_cmd::Mem;
use std::alloc::Global;

/// Pushes a variable's token.
pub(crate) fn push_variable(
    alloc: Global,
    names: &PairNames,
    number: usize,
    phrases: &mut Phrases,
) -> Result<usize, Mem>
    ensures grows { Grows phrases.old phrases.new }
    ensures is { IfOk result (λ n. slice_get phrases.new n ≡ Some (expression (vocabulary_by names.now) (var number))) }
{
    let mut word = Vec::new(alloc);
    names.put_variable(number, &mut word)?;
    let pushed = phrases.word(&word)?;
    Ok(pushed)
}

/// Pushes a term's token.
pub(crate) fn push_term(names: &PairNames, term: u32, phrases: &mut Phrases) -> Result<usize, Mem>
    ensures grows { Grows phrases.old phrases.new }
    ensures is { IfOk result (λ n. slice_get phrases.new n ≡ Some (a_word ((vocabulary_by names.now).term term))) }
{
    let pushed = phrases.word(names.term(term))?;
    Ok(pushed)
}

/// The application whose parts these are: its term's token, and its operands. A term without operands is the token
/// alone.
pub(crate) fn gather(phrases: &mut Phrases, parts: &[usize]) -> Result<usize, Mem>
    requires { All (λ n. n < length phrases.old) parts.now }
    ensures grows { Grows phrases.old phrases.new }
    ensures is { IfOk result (λ n. (v : Vocabulary) (t : ℕ) (es : List Tree) → AreAt phrases.old parts.now (a_word (v.term t) ∷ map (expression v) es)
        → slice_get phrases.new n ≡ Some (expression v (app t (trees_of es)))) }
{
    if parts.len() == 1 {
        return Ok(parts[0]);
    }
    let pushed = phrases.list(parts)?;
    Ok(pushed)
}

/// The parts from a place on.
pub(crate) fn parts_from(read: &[usize], from: usize) -> &[usize]
    requires { from ≤ length read.now }
    ensures { result.now ≡ drop from read.now }
{
    &read[from..]
}
