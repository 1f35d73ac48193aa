// The names of a space.
ghost use Rattle.std.specs.Prelude.{◌≡◌, ◌<◌, ◌++◌, ◌∷◌, [], length, map, IfOk, IfSome, MatchBool, OnOk};
ghost use Rattle.mz_base.specs.Names.{IsKnown, IsNew, number_of as number_lem};
ghost use Rattle.mz_spec_variables.specs.NewNames.{AreNew};

use indexmap::IndexSet;
use mz_base::Hashing;
use std::alloc::{AllocError, Global};
use std::marker::Model;

/// So many names are gone through faster than they are hashed.
const FEW: usize = 8;

/// Names in the order in which they were declared, borrowed from the text.
#[derive(Drop)]
pub struct NameMap<'a> {
    // all of them while they are few, none later
    first: Vec<&'a [u8]>,
    // all of them once they are more
    others: IndexSet<&'a [u8], Hashing>,
}

impl<'a> Model for NameMap<'a> {
    ghost use Rattle.std.specs.Prelude.{List, [], ℕ, map, ◌++◌};
    ghost use Rattle.mz_spec_variables.specs.NewNames.{AreNew};

    ghost Value = { List (List ℕ) };

    ghost view = { λ a. map (λ name. name.now) a.first.items ++ map (λ name. name.now) a.others.keys };

    ghost invariant = { λ a. AreNew [] (map (λ name. name.now) a.first.items) };
}

impl<'a> NameMap<'a> {
    /// No names.
    pub fn new(alloc: Global, hashing: Hashing) -> NameMap<'a>
        ensures { result ≡ [] }
    {
        NameMap {
            first: Vec::new(alloc),
            others: IndexSet::with_hasher(alloc, hashing),
        }
    }

    /// How many names there are.
    pub fn len(&self) -> usize
        ensures { result ≡ length self.now }
    {
        self.first.len() + self.others.len()
    }

    /// The number of the name, if it is one of them.
    pub fn number_of(&self, name: &'a [u8]) -> Option<usize>
        ensures number { result ≡ number_lem self.now name.now }
        ensures within { IfSome result (λ n. n < length self.now) }
    {
        match number_among(&self.first, name) {
            Some(number) => Some(number),
            None => match self.others.get_index_of(&name) {
                Some(number) => {
                    let before = self.first.len();
                    // Called for its clause that the length is small, by which the sum fits.
                    let _many = self.others.len();
                    Some(before + number)
                }
                None => None,
            },
        }
    }

    /// Adds a name, unless it is one of them; whether it was added.
    ///
    /// # Errors
    ///
    /// Where there is no memory.
    pub fn insert(&mut self, name: &'a [u8]) -> Result<bool, AllocError>
        ensures { IfOk result (λ added. MatchBool added
            (IsNew self.old name.now × (self.new ≡ self.old ++ name.now ∷ []))
            (IsKnown self.old name.now × (self.new ≡ self.old))) }
    {
        if number_among(&self.first, name).is_some() {
            return Ok(false);
        }
        if self.others.is_empty() {
            if self.first.len() < FEW {
                self.first.push(name)?;
                return Ok(true);
            }
            // From now on a look-up compares with none before it hashes.
            insert_all(&mut self.others, &self.first)?;
            self.first.clear();
        }
        Ok(self.others.insert(name)?)
    }

    /// Adds a name that is new.
    ///
    /// # Errors
    ///
    /// Where there is no memory.
    pub fn push(&mut self, name: &'a [u8]) -> Result<(), AllocError>
        requires { IsNew self.old name.now }
        ensures { OnOk result (self.new ≡ self.old ++ name.now ∷ []) }
    {
        self.insert(name)?;
        Ok(())
    }
}

/// Puts names that differ into a set that has none.
fn insert_all<'a>(
    set: &mut IndexSet<&'a [u8], Hashing>,
    names: &[&'a [u8]],
) -> Result<(), AllocError>
    requires empty { set.old.keys ≡ [] }
    requires new { AreNew [] (map (λ name. name.now) names.now) }
    ensures { OnOk result (set.new.keys ≡ names.now) }
{
    for name in names {
        set.insert(*name)?;
    }
    Ok(())
}

/// The number of the name among these, if it is one of them.
fn number_among(names: &[&[u8]], name: &[u8]) -> Option<usize>
    ensures number { result ≡ number_lem (map (λ other. other.now) names.now) name.now }
    ensures within { IfSome result (λ n. n < length names.now) }
{
    for (i, other) in names.iter().enumerate() {
        if name == *other {
            return Some(i);
        }
    }
    None
}
