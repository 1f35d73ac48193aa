//! The phrases, by number.
ghost use Rattle.std.specs.Prelude.{◌≡◌, ◌<◌, ◌≤◌, ◌+◌, ◌∷◌, [], ◌++◌, All, OnOk, OnErr, IfOk, length, slice_range};
ghost use Rattle.mz_decompile_text.specs.Phrases.{a_word, a_list, written, depth};
ghost use Rattle.mz_decompile_text.specs.ByNumber.{phrase_at, phrases_at, IsShape};
ghost use Rattle.mz_decompile_text.specs.Measures.{capped, word_count};
ghost use Rattle.mz_decompile_text.specs.Staying.{StaysIn};

use crate::measures::{deepest, list_len, list_words};
use crate::node::{Form, Node};
use crate::writing::write_phrase;
use std::alloc::{AllocError, Global};
use std::marker::Model;

/// Phrases, each with a number: tokens, and lists of phrases with lower numbers.
#[derive(Drop)]
pub struct Phrases {
    alloc: Global,
    bytes: Vec<u8>,
    parts: Vec<usize>,
    nodes: Vec<Node>,
}

/// What a phrase is: a token, or a list of the phrases with these numbers.
pub enum Shape<'a> {
    Word(&'a [u8]),
    Parts(&'a [usize]),
}

impl Model for Phrases {
    ghost use Rattle.std.specs.Prelude.{List, []};
    ghost use Rattle.std.specs.Coded.{coded_list};
    ghost use Rattle.mz_decompile_text.specs.Phrases.{Phrase};
    ghost use Rattle.mz_decompile_text.specs.PhraseCode.{phrase_code};

    ghost Value = { List Phrase };

    ghost coded = { coded_list phrase_code };

    ghost use Rattle.mz_decompile_text.specs.Kept.{phrases_of, AreKept};

    ghost view = { λ s. phrases_of s.bytes.items s.parts.items s.nodes.items };

    ghost invariant = { λ s. AreKept s.bytes.items s.parts.items [] s.nodes.items };
}

impl Phrases {
    /// No phrases.
    pub fn new(alloc: Global) -> Phrases
        ensures { result ≡ [] }
    {
        Phrases {
            alloc,
            bytes: Vec::new(alloc),
            parts: Vec::new(alloc),
            nodes: Vec::new(alloc),
        }
    }

    /// Takes all phrases out, and keeps their memory for others.
    pub fn clear(&mut self)
        ensures { self.new ≡ [] }
    {
        self.bytes.clear();
        self.parts.clear();
        self.nodes.clear();
    }

    /// How many phrases there are: the number of the next.
    pub fn len(&self) -> usize
        ensures { result ≡ length self.now }
    {
        self.nodes.len()
    }

    /// Adds a token. The result is its number.
    ///
    /// # Errors
    ///
    /// Where there is no memory. The phrases are those that were there then.
    pub fn word(&mut self, bytes: &[u8]) -> Result<usize, AllocError>
        ensures number { IfOk result (λ n. n ≡ length self.old) }
        ensures ok { OnOk result (self.new ≡ self.old ++ a_word bytes.now ∷ []) }
        ensures err { OnErr result (self.new ≡ self.old) }
    {
        let number = self.nodes.len();
        let from = self.bytes.len();
        self.bytes.extend_from_slice(bytes)?;
        let to = self.bytes.len();
        self.nodes.push(Node {
            form: Form::Word(from, to),
            text_len: bytes.len() as u128,
            words: 1,
            depth: 0,
        })?;
        Ok(number)
    }

    /// Adds a list of phrases that are there. The result is its number.
    ///
    /// # Errors
    ///
    /// Where there is no memory. The phrases are those that were there then.
    pub fn list(&mut self, parts: &[usize]) -> Result<usize, AllocError>
        requires { All (λ n. n < length self.old) parts.now }
        ensures number { IfOk result (λ n. n ≡ length self.old) }
        ensures ok { OnOk result (self.new ≡ self.old ++ a_list (phrases_at self.old parts.now) ∷ []) }
        ensures err { OnErr result (self.new ≡ self.old) }
    {
        let text_len = list_len(self, parts);
        let words = list_words(self, parts);
        let depth = deepest(self, parts);
        let number = self.nodes.len();
        let from = self.parts.len();
        self.parts.extend_from_slice(parts)?;
        let to = self.parts.len();
        self.nodes.push(Node {
            form: Form::Parts(from, to),
            text_len,
            words,
            depth: depth + 1,
        })?;
        Ok(number)
    }

    /// What the phrase is.
    pub fn shape(&self, n: usize) -> Shape<'_>
        requires { n < length self.now }
        ensures { IsShape self.now n result }
    {
        match self.nodes[n].form {
            Form::Word(from, to) => Shape::Word(range(&self.bytes, from, to)),
            Form::Parts(from, to) => Shape::Parts(range(&self.parts, from, to)),
        }
    }

    /// How long the phrase's text is, or the largest number where it is longer.
    pub fn length(&self, n: usize) -> u128
        requires { n < length self.now }
        ensures { result ≡ capped (length (written (phrase_at self.now n))) }
    {
        self.nodes[n].text_len
    }

    /// How many tokens the phrase has, or the largest number where there are more.
    pub fn words(&self, n: usize) -> u128
        requires { n < length self.now }
        ensures { result ≡ capped (word_count (phrase_at self.now n)) }
    {
        self.nodes[n].words
    }

    /// How deep lists stand in one another in the phrase.
    pub fn depth(&self, n: usize) -> usize
        requires { n < length self.now }
        ensures depth { result ≡ depth (phrase_at self.now n) }
        ensures low { result ≤ n + 1 }
    {
        self.nodes[n].depth
    }

    /// Appends the phrase's text.
    ///
    /// # Errors
    ///
    /// Where there is no memory. What was there before stays, and a part of the text may stand behind it.
    pub fn write(&self, n: usize, out: &mut Vec<u8>) -> Result<(), AllocError>
        requires { n < length self.now }
        ensures ok { OnOk result (out.new.items ≡ out.old.items ++ written (phrase_at self.now n)) }
        ensures stays { StaysIn out.old.items out.new.items }
    {
        write_phrase(self.alloc, self, n, out)
    }
}

/// The items between two places.
fn range<T>(items: &[T], from: usize, to: usize) -> &[T]
    requires { (from ≤ to) × (to ≤ length items.now) }
    ensures { result.now ≡ slice_range items.now from to }
{
    &items[from..to]
}
