// A binary whose header and tables are in order.
ghost use Rattle.std.specs.Prelude.{◌≡◌, ◌≤◌, ◌<◌, ◌+◌, ◌*◌, ◌^◌, ◌↔◌, IsTrue, length, drop, MatchResult, Some, slice_get};
ghost use Rattle.mz_base.specs.Checks.{FailsFirst};
ghost use Rattle.mz_layout_tables.specs.Tables.{param_count, words_at, term_count, thm_count, list_at, term_record, thm_record, term_row, thm_row};
ghost use Rattle.mz_layout_tables.specs.Layout.{IsBinary, HoldsRow, Layout, layout_checks};
ghost use Rattle.mz_layout_tables.specs.Heads.{IsEmptyBody, body_bytes};

use crate::bytes::u32_at;
use crate::checks::check_layout;
use crate::records;
use mz_cmd::Refusal;
use mz_logic_theory::{SortMods, Terms, Word};
use std::marker::Model;

/// A binary whose header and tables are in order, read in place. Its meaning is the file.
#[derive(Drop)]
pub struct Mmb<'a> {
    file: &'a [u8],
}

impl<'a> Model for Mmb<'a> {
    ghost use Rattle.std.specs.Prelude.{List, ℕ};
    ghost use Rattle.mz_layout_tables.specs.Layout.{IsBinary};

    ghost Value = { List ℕ };

    ghost view = { λ a. a.file.now };

    ghost invariant = { λ a. IsBinary a.file.now };
}

#[tactic(auto, using(crate::proofs::TableLists::row_facts))]
impl<'a> Mmb<'a> {
    /// Tests header and tables. A refusal names statement 0.
    #[tactic(auto, using(crate::proofs::Parts::parts_of_layout))]
    pub fn read(file: &'a [u8]) -> Result<Mmb<'a>, Refusal>
        requires { length file.now < 2 ^ 32 }
        ensures { MatchResult result
            (λ mmb. (mmb ≡ file.now) × Layout file.now)
            (λ refusal. (refusal.statement ≡ 0) × FailsFirst (layout_checks file.now) (refusal.at, refusal.rule)) }
    {
        match check_layout(file) {
            Ok(()) => Ok(Mmb { file }),
            Err((at, rule)) => Err(Refusal {
                statement: 0,
                at,
                rule,
            }),
        }
    }

    /// The whole file.
    pub fn file(&self) -> &'a [u8]
        ensures file { result.now ≡ self.now }
        ensures binary { IsBinary self.now }
    {
        self.file
    }

    /// Where the list of statements begins, in bytes.
    pub fn proof_at(&self) -> u32
        ensures place { result ≡ list_at self.now }
        ensures within { result ≤ length self.now }
        ensures binary { IsBinary self.now }
    {
        u32_at(self.file, 24)
    }

    /// Whether nothing stands in a statement's body, or one byte 00.
    pub fn has_empty_body(&self, body: u32, next: u32) -> bool
        requires order { body ≤ next }
        requires within { next ≤ length self.now }
        ensures { IsTrue result ↔ IsEmptyBody (body_bytes self.now body next) }
    {
        matches!(&self.file[body as usize..next as usize], [] | [0])
    }

    /// How many axioms and theorems there are.
    pub fn thms(&self) -> u32
        ensures { result ≡ thm_count self.now }
    {
        u32_at(self.file, 12)
    }

    /// How many parameters the axiom or theorem has.
    #[inline(always)]
    pub fn thm_arity(&self, i: u32) -> u32
        requires { i < thm_count self.now }
        ensures { result ≡ length (thm_row self.now i).params }
    {
        records::arity(self.file, self.thm_record(i))
    }

    /// The word of the axiom's or theorem's j-th parameter.
    #[inline(always)]
    pub fn thm_param(&self, i: u32, j: u32) -> Word
        requires row { i < thm_count self.now }
        requires place { j < length (thm_row self.now i).params }
        ensures { slice_get (thm_row self.now i).params j ≡ Some result }
    {
        records::word(self.file, self.thm_record(i), 0, j)
    }

    /// Where the words of the axiom's or theorem's parameters begin, in bytes.
    #[inline(always)]
    pub fn thm_words_at(&self, i: u32) -> u32
        requires { i < thm_count self.now }
        ensures { result ≡ (thm_row self.now i).words_at }
    {
        records::word_place(self.file, self.thm_record(i), 0, 0)
    }

    /// The word of its j-th parameter, from there.
    #[inline(always)]
    pub fn thm_param_from(&self, i: u32, first: u32, j: u32) -> Word
        requires row { i < thm_count self.now }
        requires first { first ≡ (thm_row self.now i).words_at }
        requires place { j < length (thm_row self.now i).params }
        ensures { slice_get (thm_row self.now i).params j ≡ Some result }
    {
        records::word_from(self.file, self.thm_record(i), first, 0, j)
    }

    /// The word of the term's j-th parameter, from where its words begin.
    #[inline(always)]
    pub fn term_param_from(&self, t: u32, first: u32, j: u32) -> Word
        requires row { t < term_count self.now }
        requires first { first ≡ (term_row self.now t).words_at }
        requires place { j < length (term_row self.now t).words.params }
        ensures { slice_get (term_row self.now t).words.params j ≡ Some result }
    {
        records::word_from(self.file, self.term_record(t), first, 1, j)
    }

    /// The place of that word, in bytes.
    pub fn thm_param_at(&self, i: u32, j: u32) -> u32
        requires row { i < thm_count self.now }
        requires place { j < length (thm_row self.now i).params }
        ensures { result ≡ (thm_row self.now i).words_at + 8 * j }
    {
        records::word_place(self.file, self.thm_record(i), 0, j)
    }

    /// The axiom's or theorem's unify stream: its place, in bytes, and the rest of the file from there.
    #[inline(always)]
    pub fn unify_of_thm(&self, i: u32) -> (u32, &'a [u8])
        requires { i < thm_count self.now }
        ensures place { result.0 ≡ (thm_row self.now i).stream_at }
        ensures rest { result.1.now ≡ drop result.0 self.now }
    {
        records::after_words(self.file, self.thm_record(i), 0)
    }

    /// The sort's number that the term's record names.
    pub fn term_sort(&self, t: u32) -> u32
        requires { t < term_count self.now }
        ensures { result ≡ (term_row self.now t).sort }
    {
        u32::from(self.file[self.term_record(t) as usize + 2] % 128)
    }

    /// The place of the term's i-th word, in bytes, its result's being the last.
    pub fn term_word_at(&self, t: u32, i: u32) -> u32
        requires row { t < term_count self.now }
        requires place { i ≤ length (term_row self.now t).words.params }
        ensures { result ≡ (term_row self.now t).words_at + 8 * i }
    {
        records::word_place(self.file, self.term_record(t), 1, i)
    }

    /// The term's unify stream, where it is a definition: its place, in bytes, and the rest of the
    /// file from there.
    pub fn unify_of_term(&self, t: u32) -> (u32, &'a [u8])
        requires { t < term_count self.now }
        ensures place { result.0 ≡ (term_row self.now t).stream_at }
        ensures rest { result.1.now ≡ drop result.0 self.now }
    {
        records::after_words(self.file, self.term_record(t), 1)
    }

    #[inline(always)]
    fn term_record(&self, t: u32) -> u32
        requires { t < term_count self.now }
        ensures place { result ≡ term_record self.now t }
        ensures within { HoldsRow self.now 1 result }
        ensures fits { length self.now < 2 ^ 32 }
    {
        u32_at(self.file, 16) + 8 * t
    }

    #[inline(always)]
    fn thm_record(&self, i: u32) -> u32
        requires { i < thm_count self.now }
        ensures place { result ≡ thm_record self.now i }
        ensures within { HoldsRow self.now 0 result }
        ensures fits { length self.now < 2 ^ 32 }
    {
        u32_at(self.file, 20) + 8 * i
    }
}

#[tactic(auto, using(crate::proofs::TableLists::row_facts))]
impl<'a> Terms for Mmb<'a> {
    ghost use Rattle.mz_layout_tables.specs.Tables.{tables_of, term_words, mods_of, sort_count};
    ghost use Rattle.mz_logic_theory.specs.Words.{term_at};

    ghost all_sorts = { λ file. (tables_of file).sorts };

    ghost all_terms = { term_words };

    fn sorts(&self) -> u32
        ensures all { result ≡ length (tables_of self.now).sorts }
        ensures count { result ≡ sort_count self.now }
    {
        u32::from(self.file[5])
    }

    fn mods(&self, s: u32) -> SortMods
        requires { s < length (tables_of self.now).sorts }
        ensures all { slice_get (tables_of self.now).sorts s ≡ Some result }
        ensures byte { result ≡ mods_of self.now s }
    {
        SortMods(self.file[40 + s as usize] % 16)
    }

    fn terms(&self) -> u32
        ensures all { result ≡ length (term_words self.now) }
        ensures count { result ≡ term_count self.now }
    {
        u32_at(self.file, 8)
    }

    #[inline(always)]
    fn arity(&self, t: u32) -> u32
        requires { t < length (term_words self.now) }
        ensures all { result ≡ length (term_at (term_words self.now) t).params }
        ensures row { result ≡ length (term_row self.now t).words.params }
    {
        records::arity(self.file, self.term_record(t))
    }

    #[inline(always)]
    fn param(&self, t: u32, i: u32) -> Word
        requires term { t < length (term_words self.now) }
        requires place { i < length (term_at (term_words self.now) t).params }
        ensures all { slice_get (term_at (term_words self.now) t).params i ≡ Some result }
        ensures row { slice_get (term_row self.now t).words.params i ≡ Some result }
    {
        records::word(self.file, self.term_record(t), 1, i)
    }

    #[inline(always)]
    fn result(&self, t: u32) -> Word
        requires { t < length (term_words self.now) }
        ensures all { result ≡ (term_at (term_words self.now) t).result }
        ensures row { result ≡ (term_row self.now t).words.result }
    {
        let row = self.term_record(t);
        records::word(self.file, row, 1, records::arity(self.file, row))
    }

    fn has_body(&self, t: u32) -> bool
        requires { t < length (term_words self.now) }
        ensures all { result ≡ (term_at (term_words self.now) t).has_body }
        ensures row { result ≡ (term_row self.now t).words.has_body }
    {
        self.file[self.term_record(t) as usize + 2] / 128 == 1
    }
}
