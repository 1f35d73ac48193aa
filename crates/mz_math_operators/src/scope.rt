// The variables of a statement.
ghost use Rattle.std.specs.Prelude.{◌≡◌, ◌≢◌, ◌↔◌, ◌⊎◌, ◌<◌, ◌-◌, ◌++◌, ◌∷◌, [], IsTrue, Contains, MatchOption, OnOk, OnErr, length, slice_get};
ghost use Rattle.mz_base.specs.Identifiers.{is_name};
ghost use Rattle.mz_logic_theory.specs.Alike.{deps_at};
ghost use Rattle.mz_math_theory.specs.Notation.{with_variable};
ghost use Rattle.mz_math_theory.specs.Kept.{AreVariables};

use mz_base::Hashing;
use mz_lex::VariableNames;
use mz_logic_theory::{Binder, Binders};
use std::alloc::{AllocError, Global};
use std::marker::Model;

/// The variables of a statement: their names with their binders, parameters first. A name is empty
/// where there is none.
#[derive(Drop)]
pub struct Scope {
    alloc: Global,
    names: VariableNames,
    binders: Binders,
}

impl Model for Scope {
    ghost use Rattle.std.specs.Prelude.{◌≡◌, ◌<◌, ◌^◌, length};
    ghost use Rattle.mz_math_theory.specs.Notation.{Variables};
    ghost use Rattle.mz_math_theory.specs.Kept.{AreVariables};

    ghost Value = { Variables };

    ghost invariant = { λ a. AreVariables a.names × (length a.names < 2 ^ 32) × (length a.binders ≡ length a.names) };

    ghost view = { λ a. record { names = a.names; binders = a.binders } };
}

impl Scope {
    /// No variables.
    pub fn new(alloc: Global, hashing: Hashing) -> Scope
        ensures { result ≡ record { names = []; binders = [] } }
    {
        Scope {
            alloc,
            names: VariableNames::new(alloc, hashing),
            binders: Binders::new(alloc),
        }
    }

    /// Adds a variable, whose name is empty or an identifier that isn't here yet. There are at most
    /// 4,294,967,295.
    ///
    /// # Errors
    ///
    /// Where there is no memory. The variables are unchanged then, and the binder is dropped.
    pub fn push(&mut self, name: &[u8], binder: Binder) -> Result<(), AllocError>
        requires name { (name.now ≡ []) ⊎ IsTrue (is_name name.now) }
        requires other { name.now ≢ [] → Contains self.old.names name.now → ⊥ }
        requires room { length self.old.names < 4294967295 }
        ensures ok { OnOk result (self.new ≡ with_variable self.old name.now binder) }
        ensures err { OnErr result (self.new ≡ self.old) }
    {
        self.names.push(self.alloc, name)?;
        match self.binders.push(binder) {
            Ok(()) => Ok(()),
            Err(failed) => {
                self.names.pop();
                Err(failed.into())
            }
        }
    }

    /// Adds a variable that depends on what the last one does, and on nothing where there is none. Its name
    /// is as for `push`.
    ///
    /// # Errors
    ///
    /// Where there is no memory, or more share the places than can be counted. The variables are unchanged
    /// then.
    pub fn push_alike(&mut self, name: &[u8], sort: u32, bound: bool) -> Result<(), AllocError>
        requires name { (name.now ≡ []) ⊎ IsTrue (is_name name.now) }
        requires other { name.now ≢ [] → Contains self.old.names name.now → ⊥ }
        requires room { length self.old.names < 4294967295 }
        ensures ok { OnOk result (self.new ≡ with_variable self.old name.now (record { sort = sort; bound = bound; deps = deps_at self.old.binders (length self.old.binders - 1) })) }
        ensures err { OnErr result (self.new ≡ self.old) }
    {
        self.names.push(self.alloc, name)?;
        match self.binders.push_alike(sort, bound) {
            Ok(()) => Ok(()),
            Err(failed) => {
                self.names.pop();
                Err(failed)
            }
        }
    }

    /// The place of the variable of this name, if there is one.
    pub fn place_of(&self, name: &[u8]) -> Option<u32>
        ensures { MatchOption result (name.now ≢ [] → Contains self.now.names name.now → ⊥) (λ x. (name.now ≢ []) × (slice_get self.now.names x ≡ Some name.now)) }
    {
        if name.is_empty() {
            return None;
        }
        match self.names.place_of(name) {
            None => None,
            Some(place) => Some(place as u32),
        }
    }

    /// Whether a variable has this name.
    pub fn names_variable(&self, name: &[u8]) -> bool
        ensures { IsTrue result ↔ ((name.now ≢ []) × Contains self.now.names name.now) }
    {
        self.place_of(name).is_some()
    }

    /// The binders in order.
    pub fn binders(&self) -> &Binders
        ensures binders { result.now ≡ self.now.binders }
        ensures names { AreVariables self.now.names }
    {
        &self.binders
    }

    /// How many variables there are.
    pub fn len(&self) -> usize
        ensures { result ≡ length self.now.names }
    {
        self.names.len()
    }

    /// Whether there are no variables.
    pub fn is_empty(&self) -> bool
        ensures { IsTrue result ↔ (self.now.names ≡ []) }
    {
        self.names.len() == 0
    }
}
