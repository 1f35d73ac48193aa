// The places of variables by their names.
ghost use Rattle.std.specs.Prelude.{◌≡◌, List, ℕ, None, Some, [], IfOk, bytes_eq, true, if◌then◌else◌};
ghost use Rattle.mz_lex.specs.Places.{place_of};

use indexmap::IndexMap;
use mz_base::Hashing;
use std::alloc::{AllocError, Global};
use std::marker::Model;

/// Names of variables, borrowed from the text, with a place each.
#[derive(Drop)]
pub struct NameIndex<'a> {
    places: IndexMap<&'a [u8], u32, Hashing>,
}

impl<'a> Model for NameIndex<'a> {
    ghost use Rattle.std.specs.Prelude.{List, ℕ, map};

    ghost Value = { List (List ℕ × ℕ) };

    ghost view = { λ a. map (λ e. (e.0.now, e.1)) a.places.entries };
}

impl<'a> NameIndex<'a> {
    /// No names.
    pub fn new(alloc: Global, hashing: Hashing) -> NameIndex<'a>
        ensures { result ≡ [] }
    {
        NameIndex {
            places: IndexMap::with_hasher(alloc, hashing),
        }
    }

    /// The place of the name, if it has one.
    pub fn get(&self, name: &'a [u8]) -> Option<u32>
        ensures { result ≡ place_of self.now name.now }
    {
        self.places.get(&name).copied()
    }

    /// Gives the name this place; whether it had none.
    ///
    /// # Errors
    ///
    /// Where there is no memory.
    pub fn insert(&mut self, name: &'a [u8], place: u32) -> Result<bool, AllocError>
        ensures { IfOk result (λ is_new. (is_new ≡ true → place_of self.old name.now ≡ None)
            × ((w : List ℕ) → place_of self.new w ≡ (if bytes_eq name.now w then Some place else place_of self.old w))) }
    {
        Ok(self.places.insert(name, place)?.is_none())
    }
}
