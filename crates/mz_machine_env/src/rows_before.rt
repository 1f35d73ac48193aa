//! The rows before a statement.
ghost use Rattle.std.specs.Prelude.{◌≡◌, ◌≤◌, ◌<◌, ◌^◌, length, drop, Some, slice_get};
ghost use Rattle.mz_layout_tables.specs.Rows.{params_of, words_at_of};
ghost use Rattle.mz_layout_tables.specs.Tables.{mods_of, term_row, thm_row, sort_count, term_count, thm_count};
ghost use Rattle.mz_machine_env.specs.Before.{words_before, sorts_before, AreWithin};
ghost use Rattle.mz_machine_env.specs.OperandRows.{IsBefore};

use mz_layout_tables::{Mmb, Row, Rows};
use mz_logic_theory::{SortMods, Terms, Word};
use std::marker::Model;

/// The rows before a statement, read in place.
#[derive(Drop)]
pub struct Environment<'a> {
    mmb: &'a Mmb<'a>,
    rows: Rows,
}

impl<'a> Model for Environment<'a> {
    ghost use Rattle.mz_machine_env.specs.Before.{Before, AreWithin, words_before, sorts_before};
    ghost use Rattle.mz_layout_tables.specs.Layout.{IsBinary};

    ghost Value = { Before };

    ghost view = { λ e. record { file = e.mmb.now; rows = e.rows } };

    ghost invariant = { λ e. IsBinary e.mmb.now × AreWithin e.mmb.now e.rows };
}

#[tactic(auto, using(crate::proofs::BeforeLaws::drop_fits, crate::proofs::BeforeLaws::before_facts, crate::proofs::BeforeLaws::own_facts))]
impl<'a> Environment<'a> {
    /// The rows before, of which the file has as many.
    pub fn new(mmb: &'a Mmb<'a>, rows: Rows) -> Environment<'a>
        requires { AreWithin mmb.now rows }
        ensures file { result.file ≡ mmb.now }
        ensures rows { result.rows ≡ rows }
    {
        // That the file is a binary is reported by the call.
        let _ = mmb.file();
        Environment { mmb, rows }
    }

    /// How many axioms and theorems there are.
    #[inline(always)]
    pub fn thms(&self) -> u32
        ensures rows { result ≡ self.now.rows.thms }
        ensures within { result ≤ thm_count self.now.file }
    {
        self.rows.thms
    }

    /// How many parameters the row has.
    #[inline(always)]
    pub fn arity_of(&self, row: Row) -> u32
        requires { IsBefore self.now row }
        ensures { result ≡ length (params_of self.now.file row) }
    {
        row.arity(self.mmb)
    }

    /// The word of the row's j-th parameter.
    #[inline(always)]
    pub fn word_of(&self, row: Row, j: u32) -> Word
        requires row { IsBefore self.now row }
        requires place { j < length (params_of self.now.file row) }
        ensures { slice_get (params_of self.now.file row) j ≡ Some result }
    {
        row.param(self.mmb, j)
    }

    /// Where the words of the row's parameters begin in the file, in bytes.
    #[inline(always)]
    pub fn words_at(&self, row: Row) -> u32
        requires { IsBefore self.now row }
        ensures { result ≡ words_at_of self.now.file row }
    {
        row.words_at(self.mmb)
    }

    /// The word of the row's j-th parameter, from there.
    #[inline(always)]
    pub fn word_from(&self, row: Row, first: u32, j: u32) -> Word
        requires row { IsBefore self.now row }
        requires first { first ≡ words_at_of self.now.file row }
        requires place { j < length (params_of self.now.file row) }
        ensures { slice_get (params_of self.now.file row) j ≡ Some result }
    {
        row.param_from(self.mmb, first, j)
    }

    /// The axiom's or theorem's unify stream, from its first byte to the file's end.
    #[inline(always)]
    pub fn stream_of_thm(&self, i: u32) -> &'a [u8]
        requires { i < self.now.rows.thms }
        ensures stream { result.now ≡ drop (thm_row self.now.file i).stream_at self.now.file }
        ensures fits { length result.now < 2 ^ 32 }
        ensures within { length result.now ≤ length self.now.file }
    {
        self.mmb.unify_of_thm(i).1
    }

    /// How many parameters the axiom or theorem of a row of the file has, be it before or not.
    pub fn own_thm_arity(&self, row: u32) -> u32
        requires { row < thm_count self.now.file }
        ensures { result ≡ length (thm_row self.now.file row).params }
    {
        self.mmb.thm_arity(row)
    }

    /// Where the words of its parameters begin in the file, in bytes.
    pub fn own_thm_words_at(&self, row: u32) -> u32
        requires { row < thm_count self.now.file }
        ensures { result ≡ (thm_row self.now.file row).words_at }
    {
        self.mmb.thm_words_at(row)
    }

    /// The word of the j-th parameter of the axiom or theorem of a row of the file, be it before or
    /// not.
    pub fn own_thm_param(&self, row: u32, j: u32) -> Word
        requires row { row < thm_count self.now.file }
        requires place { j < length (thm_row self.now.file row).params }
        ensures { slice_get (thm_row self.now.file row).params j ≡ Some result }
    {
        self.mmb.thm_param(row, j)
    }

    /// How many parameters the term of a row of the file has, be it before or not.
    pub fn own_term_arity(&self, row: u32) -> u32
        requires { row < term_count self.now.file }
        ensures { result ≡ length (term_row self.now.file row).words.params }
    {
        self.mmb.arity(row)
    }

    /// Where the words of its parameters begin in the file, in bytes.
    pub fn own_term_words_at(&self, row: u32) -> u32
        requires { row < term_count self.now.file }
        ensures { result ≡ (term_row self.now.file row).words_at }
    {
        self.mmb.term_word_at(row, 0)
    }

    /// The word of its j-th parameter.
    pub fn own_term_param(&self, row: u32, j: u32) -> Word
        requires row { row < term_count self.now.file }
        requires place { j < length (term_row self.now.file row).words.params }
        ensures { slice_get (term_row self.now.file row).words.params j ≡ Some result }
    {
        self.mmb.param(row, j)
    }

    /// The word of its result.
    pub fn own_result(&self, row: u32) -> Word
        requires { row < term_count self.now.file }
        ensures { result ≡ (term_row self.now.file row).words.result }
    {
        self.mmb.result(row)
    }

    /// The unify stream of the axiom or theorem of a row of the file, be it before or not, from its
    /// first byte to the file's end.
    pub fn own_thm_stream(&self, row: u32) -> &'a [u8]
        requires { row < thm_count self.now.file }
        ensures stream { result.now ≡ drop (thm_row self.now.file row).stream_at self.now.file }
        ensures fits { length result.now < 2 ^ 32 }
        ensures within { length result.now ≤ length self.now.file }
    {
        self.mmb.unify_of_thm(row).1
    }

    /// The unify stream of the definition of a row of the file, be it before or not, from its first
    /// byte to the file's end.
    pub fn own_term_stream(&self, row: u32) -> &'a [u8]
        requires { row < term_count self.now.file }
        ensures stream { result.now ≡ drop (term_row self.now.file row).stream_at self.now.file }
        ensures fits { length result.now < 2 ^ 32 }
        ensures within { length result.now ≤ length self.now.file }
    {
        self.mmb.unify_of_term(row).1
    }

    /// The definition's unify stream, from its first byte to the file's end.
    pub fn stream_of_term(&self, t: u32) -> &'a [u8]
        requires { t < self.now.rows.terms }
        ensures stream { result.now ≡ drop (term_row self.now.file t).stream_at self.now.file }
        ensures fits { length result.now < 2 ^ 32 }
        ensures within { length result.now ≤ length self.now.file }
    {
        self.mmb.unify_of_term(t).1
    }
}

#[tactic(auto, using(crate::proofs::BeforeLaws::before_facts))]
impl<'a> Terms for Environment<'a> {
    ghost use Rattle.mz_logic_theory.specs.Words.{term_at};

    ghost all_sorts = { sorts_before };

    ghost all_terms = { words_before };

    fn sorts(&self) -> u32
        ensures all { result ≡ length (sorts_before self.now) }
        ensures rows { result ≡ self.now.rows.sorts }
    {
        self.rows.sorts
    }

    fn mods(&self, s: u32) -> SortMods
        requires { s < length (sorts_before self.now) }
        ensures { slice_get (sorts_before self.now) s ≡ Some result }
    {
        self.mmb.mods(s)
    }

    #[inline(always)]
    fn terms(&self) -> u32
        ensures all { result ≡ length (words_before self.now) }
        ensures rows { result ≡ self.now.rows.terms }
    {
        self.rows.terms
    }

    #[inline(always)]
    fn arity(&self, t: u32) -> u32
        requires { t < length (words_before self.now) }
        ensures all { result ≡ length (term_at (words_before self.now) t).params }
        ensures row { result ≡ length (term_row self.now.file t).words.params }
    {
        self.mmb.arity(t)
    }

    #[inline(always)]
    fn param(&self, t: u32, i: u32) -> Word
        requires term { t < length (words_before self.now) }
        requires place { i < length (term_at (words_before self.now) t).params }
        ensures all { slice_get (term_at (words_before self.now) t).params i ≡ Some result }
        ensures row { slice_get (term_row self.now.file t).words.params i ≡ Some result }
    {
        self.mmb.param(t, i)
    }

    #[inline(always)]
    fn result(&self, t: u32) -> Word
        requires { t < length (words_before self.now) }
        ensures all { result ≡ (term_at (words_before self.now) t).result }
        ensures row { result ≡ (term_row self.now.file t).words.result }
    {
        self.mmb.result(t)
    }

    fn has_body(&self, t: u32) -> bool
        requires { t < length (words_before self.now) }
        ensures all { result ≡ (term_at (words_before self.now) t).has_body }
        ensures row { result ≡ (term_row self.now.file t).words.has_body }
    {
        self.mmb.has_body(t)
    }
}
