//! The measures of a list, from those of its parts.
ghost use Rattle.std.specs.Prelude.{◌≡◌, ◌<◌, ◌≤◌, All, length};
ghost use Rattle.mz_decompile_text.specs.Phrases.{a_list, written, depth_of_all};
ghost use Rattle.mz_decompile_text.specs.ByNumber.{phrases_at};
ghost use Rattle.mz_decompile_text.specs.Measures.{capped, word_count};

use crate::phrases::Phrases;

/// How long the text of a list of these is: each part and what stands behind it, a space or the closing bracket, after
/// the opening one.
pub(crate) fn list_len(phrases: &Phrases, parts: &[usize]) -> u128
    requires { All (λ n. n < length phrases.now) parts.now }
    ensures { result ≡ capped (length (written (a_list (phrases_at phrases.now parts.now)))) }
{
    let mut len: u128 = if parts.is_empty() { 2 } else { 1 };
    for part in parts {
        len = len.saturating_add(phrases.length(*part)).saturating_add(1);
    }
    len
}

/// How many tokens a list of these has.
pub(crate) fn list_words(phrases: &Phrases, parts: &[usize]) -> u128
    requires { All (λ n. n < length phrases.now) parts.now }
    ensures { result ≡ capped (word_count (a_list (phrases_at phrases.now parts.now))) }
{
    let mut words: u128 = 0;
    for part in parts {
        words = words.saturating_add(phrases.words(*part));
    }
    words
}

/// How deep the deepest of them is.
pub(crate) fn deepest(phrases: &Phrases, parts: &[usize]) -> usize
    requires { All (λ n. n < length phrases.now) parts.now }
    ensures depth { result ≡ depth_of_all (phrases_at phrases.now parts.now) }
    ensures low { result ≤ length phrases.now }
{
    let mut depth = 0;
    for part in parts {
        depth = depth.max(phrases.depth(*part));
    }
    depth
}
