//! The sorts and terms of a text, as words.
ghost use Rattle.std.specs.Prelude.{◌≡◌, ◌<◌, ◌+◌, ◌^◌, ◌++◌, ◌∷◌, [], OnOk, length, map};

use mz_cmd::Mem;
use mz_logic_theory::{SortMods, Terms, Word};
use std::alloc::Global;

/// A term's words.
#[derive(Drop)]
pub struct TermEntry {
    /// Those of its parameters.
    pub params: Vec<Word>,
    /// That of its result.
    pub result_word: Word,
    /// Whether it is a definition.
    pub has_body: bool,
    ghost few: { length params.items < 2 ^ 32 },
}

/// The sorts and terms of the statements so far.
#[derive(Drop)]
pub struct TermTable {
    /// The sorts' modifiers.
    pub sorts: Vec<SortMods>,
    /// The terms' words.
    pub terms: Vec<TermEntry>,
    ghost few_sorts: { length sorts.items < 2 ^ 32 },
    ghost few_terms: { length terms.items < 2 ^ 32 },
}

impl TermTable {
    ghost use Rattle.mz_emit_bodies.specs.Rows.{words_of_row};

    /// No sorts and no terms.
    pub fn new(alloc: Global) -> TermTable
        ensures sorts { result.sorts.items ≡ [] }
        ensures terms { result.terms.items ≡ [] }
    {
        TermTable {
            sorts: Vec::new(alloc),
            terms: Vec::new(alloc),
        }
    }

    /// Appends a sort.
    ///
    /// # Errors
    ///
    /// Where there is no memory.
    pub fn add_sort(&mut self, mods: SortMods) -> Result<(), Mem>
        requires room { length self.old.sorts.items + 1 < 2 ^ 32 }
        ensures sorts { OnOk result (self.new.sorts.items ≡ self.old.sorts.items ++ mods ∷ []) }
        ensures terms { OnOk result (self.new.terms.items ≡ self.old.terms.items) }
    {
        self.sorts.push(mods)?;
        Ok(())
    }

    /// Appends a term: the words of its parameters and of its result.
    ///
    /// # Errors
    ///
    /// Where there is no memory.
    pub fn add_term(
        &mut self,
        params: Vec<Word>,
        result_word: Word,
        has_body: bool,
    ) -> Result<(), Mem>
        requires room { length self.old.terms.items + 1 < 2 ^ 32 }
        requires few { length params.items < 2 ^ 32 }
        ensures sorts { OnOk result (self.new.sorts.items ≡ self.old.sorts.items) }
        ensures terms { OnOk result (map (words_of_row) self.new.terms.items ≡ map (words_of_row) self.old.terms.items ++ record { params = params.items; result = result_word; has_body = has_body } ∷ []) }
    {
        self.terms.push(TermEntry {
            params,
            result_word,
            has_body,
        })?;
        Ok(())
    }
}

impl Terms for TermTable {
    ghost use Rattle.std.specs.Prelude.{map};
    ghost use Rattle.mz_emit_bodies.specs.Rows.{words_of_row};

    ghost all_sorts = { λ t. t.sorts.items };

    ghost all_terms = { λ t. map (words_of_row) t.terms.items };

    fn sorts(&self) -> u32 {
        self.sorts.len() as u32
    }

    fn mods(&self, s: u32) -> SortMods {
        self.sorts[s as usize]
    }

    fn terms(&self) -> u32 {
        self.terms.len() as u32
    }

    fn arity(&self, t: u32) -> u32 {
        self.terms[t as usize].params.len() as u32
    }

    fn param(&self, t: u32, i: u32) -> Word {
        self.terms[t as usize].params[i as usize]
    }

    fn result(&self, t: u32) -> Word {
        self.terms[t as usize].result_word
    }

    fn has_body(&self, t: u32) -> bool {
        self.terms[t as usize].has_body
    }
}
