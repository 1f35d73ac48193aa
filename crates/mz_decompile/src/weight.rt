//! The weight of what an axiom or theorem says.
ghost use Rattle.std.specs.Prelude.{◌≡◌, ◌<◌, ◌+◌, All, length};
ghost use Rattle.mz_decompile_text.specs.ByNumber.{phrase_at, phrases_at};
ghost use Rattle.mz_decompile_text.specs.Measures.{capped, word_count, words_of_all};

use mz_decompile_text::{Phrases, Said};

/// The weight of so many parameters, hypotheses and a conclusion, and one more.
pub(crate) fn weight_said(params: u32, said: &Said, phrases: &Phrases) -> u128
    requires hypotheses { All (λ n. n < length phrases.now) said.now.hypotheses.items }
    requires conclusion { said.now.conclusion < length phrases.now }
    ensures { result ≡ capped (1 + params + words_of_all (phrases_at phrases.now said.now.hypotheses.items)
        + word_count (phrase_at phrases.now said.now.conclusion)) }
{
    let mut weight = 1 + u128::from(params);
    'hypotheses: for hypothesis in &said.hypotheses {
        weight = weight.saturating_add(phrases.words(*hypothesis));
    }
    weight.saturating_add(phrases.words(said.conclusion))
}
