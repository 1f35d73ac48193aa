//! A row of either table, and its parameters.
ghost use Rattle.std.specs.Prelude.{◌≡◌, ◌<◌, ◌+◌, ◌*◌, Some, length, slice_get};
ghost use Rattle.mz_layout_tables.specs.Rows.{IsRow, params_of, words_at_of};

use crate::mmb::Mmb;
use mz_logic_theory::{Terms, Word};

/// A row of the table of terms, or of that of axioms and theorems, by its number.
#[derive(Clone, Copy, Debug, PartialEq, Eq)]
pub enum Row {
    /// Of the table of terms.
    Term(u32),
    /// Of the table of axioms and theorems.
    Thm(u32),
}

impl Row {
    /// How many parameters the row has.
    #[inline(always)]
    pub fn arity(self, mmb: &Mmb) -> u32
        requires { IsRow mmb.now self }
        ensures { result ≡ length (params_of mmb.now self) }
    {
        match self {
            Row::Term(term) => mmb.arity(term),
            Row::Thm(thm) => mmb.thm_arity(thm),
        }
    }

    /// The word of the parameter at a place.
    #[inline(always)]
    pub fn param(self, mmb: &Mmb, place: u32) -> Word
        requires row { IsRow mmb.now self }
        requires place { place < length (params_of mmb.now self) }
        ensures { slice_get (params_of mmb.now self) place ≡ Some result }
    {
        match self {
            Row::Term(term) => mmb.param(term, place),
            Row::Thm(thm) => mmb.thm_param(thm, place),
        }
    }

    /// Where the words of its parameters begin in the file, in bytes.
    #[inline(always)]
    pub fn words_at(self, mmb: &Mmb) -> u32
        requires { IsRow mmb.now self }
        ensures { result ≡ words_at_of mmb.now self }
    {
        match self {
            Row::Term(term) => mmb.term_word_at(term, 0),
            Row::Thm(thm) => mmb.thm_words_at(thm),
        }
    }

    /// The word of the parameter at a place, from where they begin.
    #[inline(always)]
    pub fn param_from(self, mmb: &Mmb, first: u32, place: u32) -> Word
        requires row { IsRow mmb.now self }
        requires first { first ≡ words_at_of mmb.now self }
        requires place { place < length (params_of mmb.now self) }
        ensures { slice_get (params_of mmb.now self) place ≡ Some result }
    {
        match self {
            Row::Term(term) => mmb.term_param_from(term, first, place),
            Row::Thm(thm) => mmb.thm_param_from(thm, first, place),
        }
    }

    /// Where that word stands in the file, in bytes.
    pub fn param_at(self, mmb: &Mmb, place: u32) -> u32
        requires row { IsRow mmb.now self }
        requires place { place < length (params_of mmb.now self) }
        ensures { result ≡ words_at_of mmb.now self + 8 * place }
    {
        match self {
            Row::Term(term) => mmb.term_word_at(term, place),
            Row::Thm(thm) => mmb.thm_param_at(thm, place),
        }
    }
}
