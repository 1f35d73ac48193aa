//! Parts of a list, one after another.
ghost use Rattle.std.specs.Prelude.{◌≡◌, ◌<◌, ◌∷◌, [], All, OnOk, if◌then◌else◌, length};
ghost use Rattle.mz_decompile_text.specs.Phrases.{a_word, a_list};
ghost use Rattle.mz_decompile_text.specs.Naming.{vocabulary_by};
ghost use Rattle.mz_decompile_text.specs.ByNumber.{phrases_at};
ghost use Rattle.mz_decompile.specs.Adding.{Adds};

use mz_cmd::Mem;
use mz_decompile_text::{PairNames, Phrases};
use std::alloc::Global;

/// Adds a token.
pub(crate) fn put_word(
    bytes: &[u8],
    phrases: &mut Phrases,
    parts: &mut Vec<usize>,
) -> Result<(), Mem>
    ensures { OnOk result (Adds phrases.old phrases.new parts.old.items parts.new.items (a_word bytes.now ∷ [])) }
{
    let word = phrases.word(bytes)?;
    parts.push(word)?;
    Ok(())
}

/// Adds a token, where it is set.
pub(crate) fn put_word_if(
    set: bool,
    bytes: &[u8],
    phrases: &mut Phrases,
    parts: &mut Vec<usize>,
) -> Result<(), Mem>
    ensures { OnOk result (Adds phrases.old phrases.new parts.old.items parts.new.items (if set then a_word bytes.now ∷ [] else [])) }
{
    if !set {
        return Ok(());
    }
    put_word(bytes, phrases, parts)
}

/// Adds a list of the phrases with these numbers.
pub(crate) fn put_list(
    inner: &[usize],
    phrases: &mut Phrases,
    parts: &mut Vec<usize>,
) -> Result<(), Mem>
    requires { All (λ n. n < length phrases.old) inner.now }
    ensures { OnOk result (Adds phrases.old phrases.new parts.old.items parts.new.items (a_list (phrases_at phrases.old inner.now) ∷ [])) }
{
    let list = phrases.list(inner)?;
    parts.push(list)?;
    Ok(())
}

/// Adds the name of a variable.
pub(crate) fn put_variable(
    alloc: Global,
    names: &PairNames,
    variable: usize,
    phrases: &mut Phrases,
    parts: &mut Vec<usize>,
) -> Result<(), Mem>
    ensures { OnOk result (Adds phrases.old phrases.new parts.old.items parts.new.items (a_word ((vocabulary_by names.now).variable variable) ∷ [])) }
{
    let mut name = Vec::new(alloc);
    names.put_variable(variable, &mut name)?;
    put_word(&name, phrases, parts)
}

/// Adds the name of a hypothesis.
pub(crate) fn put_hypothesis(
    alloc: Global,
    names: &PairNames,
    hypothesis: usize,
    phrases: &mut Phrases,
    parts: &mut Vec<usize>,
) -> Result<(), Mem>
    ensures { OnOk result (Adds phrases.old phrases.new parts.old.items parts.new.items (a_word ((vocabulary_by names.now).hypothesis hypothesis) ∷ [])) }
{
    let mut name = Vec::new(alloc);
    names.put_hypothesis(hypothesis, &mut name)?;
    put_word(&name, phrases, parts)
}
