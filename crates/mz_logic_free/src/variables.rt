// Sets of variables, for what goes over expressions.
ghost use Rattle.std.specs.Prelude.{◌≡◌, ◌==◌, ◌↔◌, ◌⊎◌, ◌++◌, ◌∷◌, [], ℕ, List, IsTrue, OnOk, Contains, length, position, take};

use indexmap::IndexSet;
use std::alloc::{AllocError, Global};
use std::marker::Model;

/// Variables by their places, each once, the last ones added last.
#[derive(Drop)]
pub struct VariableSet {
    places: IndexSet<u32>,
}

impl Model for VariableSet {
    ghost use Rattle.std.specs.Prelude.{List, ℕ};

    ghost Value = { List ℕ };

    ghost view = { λ a. a.places.keys };
}

impl VariableSet {
    /// No variables.
    pub fn new(alloc: Global) -> VariableSet
        ensures { result ≡ [] }
    {
        VariableSet {
            places: IndexSet::new(alloc),
        }
    }

    /// How many there are.
    pub(crate) fn len(&self) -> usize
        ensures { result ≡ length self.now }
    {
        self.places.len()
    }

    /// Whether there are none.
    pub fn is_empty(&self) -> bool
        ensures { IsTrue result ↔ (length self.now ≡ 0) }
    {
        self.len() == 0
    }

    /// Whether the variable is one of them.
    pub fn has(&self, x: u32) -> bool
        ensures { IsTrue result ↔ Contains self.now x }
    {
        self.places.contains(&x)
    }

    /// Which of them in order the variable is, if it is one.
    pub(crate) fn place_of(&self, x: u32) -> Option<usize>
        ensures { result ≡ position (λ y. x == y) self.now }
    {
        self.places.get_index_of(&x)
    }

    /// The variables in order.
    pub(crate) fn as_slice(&self) -> &[u32]
        ensures { result.now ≡ self.now }
    {
        self.places.as_slice()
    }

    /// Adds a variable, if it isn't one of them.
    ///
    /// # Errors
    ///
    /// Where there is no memory.
    pub fn add(&mut self, x: u32) -> Result<(), AllocError>
        ensures grows { OnOk result ((more : List ℕ) × (self.new ≡ self.old ++ more)) }
        ensures has { OnOk result ((y : ℕ) → Contains self.new y ↔ (Contains self.old y ⊎ (y ≡ x))) }
        ensures last { OnOk result ((Contains self.old x → ⊥) → self.new ≡ self.old ++ x ∷ []) }
    {
        self.places.insert(x)?;
        Ok(())
    }

    /// Keeps the first ones.
    #[inline]
    pub(crate) fn truncate(&mut self, len: usize)
        ensures { self.new ≡ take len self.old }
    {
        if len < self.places.len() {
            self.places.truncate(len);
        }
    }
}
