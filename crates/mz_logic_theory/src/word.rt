ghost use Rattle.std.specs.Prelude.{◌≡◌, ◌<◌, List, Some, length, slice_get};
ghost use Rattle.mz_logic_theory.specs.Words.{TermWords, word_sort, word_bound, word_deps, term_at};
ghost use Rattle.mz_logic_theory.specs.declared.binder.SortMods.{SortMods};

use crate::binder::SortMods;

/// A word of 8 bytes of the binary format, for a parameter or a result: bit 63 says that it is
/// bound, bits 56 to 62 are its sort, and bit k of the lowest 56 says that it depends on the k-th
/// bound parameter.
#[derive(Clone, Copy, PartialEq, Eq)]
pub struct Word(pub u64);

impl Word {
    /// The sort's number, at most 127.
    pub fn sort(self) -> u32
        ensures { result ≡ word_sort self }
    {
        (self.0 >> 56 & 127) as u32
    }

    /// Whether it stands for a bound variable.
    pub fn bound(self) -> bool
        ensures { result ≡ word_bound self }
    {
        self.0 >> 63 == 1
    }

    /// The bits of the dependencies, the lowest 56.
    pub fn deps(self) -> u64
        ensures { result ≡ word_deps self }
    {
        self.0 & 0x00FF_FFFF_FFFF_FFFF
    }
}

/// A table of sorts and terms: all that an expression's parts need to be known by. The binary file
/// is one, read in place.
///
/// Its meaning is a list of sorts and a list of terms' words, both numbered from 0. No call takes
/// memory.
pub trait Terms {
    /// The sorts' modifiers.
    ghost all_sorts: { Self → List SortMods };

    /// The terms' words.
    ghost all_terms: { Self → List TermWords };

    /// How many sorts there are.
    fn sorts(&self) -> u32
        ensures { result ≡ length (all_sorts self.now) };

    /// The modifiers of the sort.
    fn mods(&self, s: u32) -> SortMods
        requires { s < length (all_sorts self.now) }
        ensures { slice_get (all_sorts self.now) s ≡ Some result };

    /// How many terms there are.
    fn terms(&self) -> u32
        ensures { result ≡ length (all_terms self.now) };

    /// How many parameters the term has.
    fn arity(&self, t: u32) -> u32
        requires { t < length (all_terms self.now) }
        ensures { result ≡ length (term_at (all_terms self.now) t).params };

    /// The word of the term's i-th parameter.
    fn param(&self, t: u32, i: u32) -> Word
        requires term { t < length (all_terms self.now) }
        requires place { i < length (term_at (all_terms self.now) t).params }
        ensures { slice_get (term_at (all_terms self.now) t).params i ≡ Some result };

    /// The word of the term's result.
    fn result(&self, t: u32) -> Word
        requires { t < length (all_terms self.now) }
        ensures { result ≡ (term_at (all_terms self.now) t).result };

    /// Whether the term is a definition, whose body the table has.
    fn has_body(&self, t: u32) -> bool
        requires { t < length (all_terms self.now) }
        ensures { result ≡ (term_at (all_terms self.now) t).has_body };
}
