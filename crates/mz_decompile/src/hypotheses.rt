//! The hypotheses of a theorem, by their names.
ghost use Rattle.std.specs.Prelude.{◌≡◌, ◌<◌, ◌∷◌, [], All, OnOk, length};
ghost use Rattle.mz_decompile_text.specs.Phrases.{a_word, a_list};
ghost use Rattle.mz_decompile_text.specs.Phrasing.{list_of};
ghost use Rattle.mz_decompile_text.specs.Naming.{vocabulary_by};
ghost use Rattle.mz_decompile_text.specs.ByNumber.{phrase_at, phrases_at};
ghost use Rattle.mz_decompile.specs.Adding.{Adds};
ghost use Rattle.mz_decompile.specs.Hypotheses.{named};

use crate::parts::{put_hypothesis, put_list};
use mz_cmd::Mem;
use mz_decompile_text::{PairNames, Phrases};
use std::alloc::Global;

/// Adds a list of hypotheses, each with its name.
pub(crate) fn put_hypotheses(
    alloc: Global,
    names: &PairNames,
    hypotheses: &[usize],
    phrases: &mut Phrases,
    parts: &mut Vec<usize>,
) -> Result<(), Mem>
    requires { All (λ n. n < length phrases.old) hypotheses.now }
    ensures { OnOk result (Adds phrases.old phrases.new parts.old.items parts.new.items
        (a_list (named (vocabulary_by names.now) 0 (phrases_at phrases.old hypotheses.now)) ∷ [])) }
{
    let mut inner = Vec::new(alloc);
    'hypotheses: for (number, hypothesis) in hypotheses.iter().enumerate() {
        put_named(alloc, names, number, *hypothesis, phrases, &mut inner)?;
    }
    put_list(&inner, phrases, parts)
}

/// Adds a hypothesis with its name.
fn put_named(
    alloc: Global,
    names: &PairNames,
    number: usize,
    hypothesis: usize,
    phrases: &mut Phrases,
    parts: &mut Vec<usize>,
) -> Result<(), Mem>
    requires { hypothesis < length phrases.old }
    ensures { OnOk result (Adds phrases.old phrases.new parts.old.items parts.new.items
        (list_of (a_word ((vocabulary_by names.now).hypothesis number) ∷ phrase_at phrases.old hypothesis ∷ []) ∷ [])) }
{
    let mut inner = Vec::new(alloc);
    put_hypothesis(alloc, names, number, phrases, &mut inner)?;
    inner.push(hypothesis)?;
    put_list(&inner, phrases, parts)
}
