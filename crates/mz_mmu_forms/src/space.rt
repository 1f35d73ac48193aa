//! The names of one space, by their numbers.
ghost use Rattle.std.specs.Prelude.{◌≡◌, ◌++◌, ◌⊎◌, ◌∷◌, [], ◌<◌, ◌+◌, ◌^◌, ℕ, List, false, length, OnOk};
ghost use Rattle.mz_base.specs.Names.{number_of, IsNew};
ghost use Rattle.mz_base.specs.Identifiers.{is_name};
ghost use Rattle.mz_mmu_theory.specs.Name.{hidden, IsName};

use crate::name::HIDDEN;
use indexmap::IndexSet;
use mz_base::Hashing;
use std::alloc::{AllocError, Global};
use std::marker::Model;

/// The names of a space, numbered in the order in which they were first seen and borrowed from the
/// text. A place may also hold an atom that is no name, which can't be asked for.
#[derive(Drop)]
pub struct Space<'a> {
    // a name beside 0, and another atom beside its place and 1, since it may come again
    keys: IndexSet<(&'a [u8], u32), Hashing>,
}

impl<'a> Model for Space<'a> {
    ghost use Rattle.std.specs.Prelude.{List, ℕ, map, length, ◌<◌, ◌^◌};
    ghost use Rattle.mz_mmu_forms.specs.SpaceView.{word_of_key, AreKeysFrom};

    ghost Value = { List (List ℕ) };

    ghost view = { λ a. map word_of_key a.keys.keys };

    ghost invariant = { λ a. AreKeysFrom 0 a.keys.keys × (length a.keys.keys < 2 ^ 32) };
}

impl<'a> Space<'a> {
    /// No names.
    pub fn new(alloc: Global, hashing: Hashing) -> Space<'a>
        ensures { result ≡ [] }
    {
        Space {
            keys: IndexSet::with_hasher(alloc, hashing),
        }
    }

    /// The number of the name, if it is one of them.
    pub fn number_of(&self, name: &[u8]) -> Option<u32>
        requires { IsName name.now }
        ensures { result ≡ number_of self.now name.now }
    {
        match self.keys.get_index_of(&(name, 0)) {
            Some(i) => Some(i as u32),
            None => None,
        }
    }

    /// Appends a name that isn't there.
    ///
    /// # Errors
    ///
    /// Where there is no memory.
    pub fn push(&mut self, name: &'a [u8]) -> Result<(), AllocError>
        requires name { IsName name.now }
        requires new { IsNew self.old name.now }
        requires few { length self.old + 1 < 2 ^ 32 }
        ensures { OnOk result (self.new ≡ self.old ++ name.now ∷ []) }
    {
        self.keys.insert((name, 0))?;
        Ok(())
    }

    /// Appends an atom that is no name.
    ///
    /// # Errors
    ///
    /// Where there is no memory.
    pub fn push_other(&mut self, word: &'a [u8]) -> Result<(), AllocError>
        requires other { is_name word.now ≡ false }
        requires few { length self.old + 1 < 2 ^ 32 }
        ensures { OnOk result (self.new ≡ self.old ++ word.now ∷ []) }
    {
        let place = self.keys.len() as u32;
        self.keys.insert((word, place + 1))?;
        Ok(())
    }

    /// Appends a parameter's name, or `_`.
    ///
    /// # Errors
    ///
    /// Where there is no memory.
    pub fn push_param(&mut self, word: &'a [u8]) -> Result<(), AllocError>
        requires word { (word.now ≡ hidden) ⊎ (IsName word.now × IsNew self.old word.now) }
        requires few { length self.old + 1 < 2 ^ 32 }
        ensures { OnOk result (self.new ≡ self.old ++ word.now ∷ []) }
    {
        if word == HIDDEN {
            self.push_other(word)
        } else {
            self.push(word)
        }
    }

    /// Takes the last one away.
    pub fn pop(&mut self)
        ensures { (front : List (List ℕ)) (last : List ℕ) → self.old ≡ front ++ last ∷ [] → self.new ≡ front }
    {
        self.keys.pop();
    }
}
