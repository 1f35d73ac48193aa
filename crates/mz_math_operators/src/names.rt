// The names of terms, found by their bytes.
ghost use Rattle.std.specs.Prelude.{◌≡◌, ◌++◌, ◌∷◌, [], MatchOption, OnOk, OnErr, Contains, length};
ghost use Rattle.mz_math_operators.specs.Names.{IsFoundAs};
ghost use Rattle.mz_math_theory.specs.Notation.{TermName};

use indexmap::IndexMap;
use mz_base::Hashing;
use std::alloc::{AllocError, Global};
use std::marker::Model;

/// The names of terms in the order in which they were given, each kept once, beside its term.
#[derive(Drop)]
pub struct TermNames {
    terms: IndexMap<Vec<u8>, u32, Hashing>,
}

impl Model for TermNames {
    ghost use Rattle.std.specs.Prelude.{List};
    ghost use Rattle.mz_math_theory.specs.Notation.{TermName};
    ghost use Rattle.mz_math_operators.specs.Names.{AreOnce, all_named};

    ghost Value = { List TermName };

    ghost view = { λ a. all_named (λ k. k.items) a.terms.entries };

    ghost invariant = { λ a. AreOnce (all_named (λ k. k.items) a.terms.entries) };
}

impl TermNames {
    /// No names.
    pub fn new(alloc: Global, hashing: Hashing) -> TermNames
        ensures { result ≡ [] }
    {
        TermNames {
            terms: IndexMap::with_hasher(alloc, hashing),
        }
    }

    /// How many there are.
    pub fn len(&self) -> usize
        ensures { result ≡ length self.now }
    {
        self.terms.len()
    }

    /// The term of this name, if there is one.
    pub fn get(&self, name: &[u8]) -> Option<u32>
        ensures { MatchOption result ((n : TermName) → Contains self.now n → n.name ≡ name.now → ⊥) (λ t. (n : TermName) × IsFoundAs self.now name.now n × (n.term ≡ t)) }
    {
        self.terms.get(name).copied()
    }

    /// Adds the name of a term, which isn't there.
    ///
    /// # Errors
    ///
    /// Where there is no memory. The names are unchanged then.
    pub fn push(&mut self, alloc: Global, name: &[u8], term: u32) -> Result<(), AllocError>
        requires { (n : TermName) → Contains self.old n → n.name ≡ name.now → ⊥ }
        ensures ok { OnOk result (self.new ≡ self.old ++ record { name = name.now; term = term } ∷ []) }
        ensures err { OnErr result (self.new ≡ self.old) }
    {
        let name = name.to_vec(alloc)?;
        self.terms.insert(name, term)?;
        Ok(())
    }
}
