// The names of variables, found by their bytes.
ghost use Rattle.std.specs.Prelude.{◌≡◌, ◌≢◌, ◌++◌, ◌∷◌, ◌<◌, ◌≤◌, [], List, ℕ, MatchOption, OnOk, OnErr, Contains, length, slice_get, Some};
ghost use Rattle.mz_lex.specs.Names.{AreFoundBeyond};

use crate::byte_string::Bytes;
use crate::places::{FEW, Places};
use mz_base::Hashing;
use std::alloc::{AllocError, Global};
use std::marker::Model;

/// Names by place. A name is empty where there is none.
#[derive(Drop)]
pub struct VariableNames {
    items: Vec<Bytes>,
    // where each name stands, where there are more than a few
    places: Places<usize>,
}

impl Model for VariableNames {
    ghost use Rattle.std.specs.Prelude.{List, ℕ};
    ghost use Rattle.mz_lex.specs.Names.{AreFoundBeyond};

    ghost Value = { List (List ℕ) };

    ghost view = { λ a. a.items.items };

    ghost invariant = { λ a. AreFoundBeyond 8 a.places a.items.items };
}

impl VariableNames {
    /// No names.
    pub fn new(alloc: Global, hashing: Hashing) -> VariableNames
        ensures { result ≡ [] }
    {
        VariableNames {
            items: Vec::new(alloc),
            places: Places::new(alloc, hashing),
        }
    }

    /// How many places there are.
    pub fn len(&self) -> usize
        ensures { result ≡ length self.now }
    {
        self.items.len()
    }

    /// The place of a name, if it is there.
    pub fn place_of(&self, name: &[u8]) -> Option<usize>
        ensures { MatchOption result (name.now ≢ [] → Contains self.now name.now → ⊥) (λ x. (x < length self.now) × (slice_get self.now x ≡ Some name.now)) }
    {
        if self.items.len() <= FEW {
            return place_among(&self.items, name);
        }
        let place = self.places.get(name)?;
        let found = self.items.get(place)?;
        if found.is(name) { Some(place) } else { None }
    }

    /// Adds a name, which is empty or isn't there.
    ///
    /// # Errors
    ///
    /// Where there is no memory. The names are unchanged then.
    pub fn push(&mut self, alloc: Global, name: &[u8]) -> Result<(), AllocError>
        requires { name.now ≢ [] → Contains self.old name.now → ⊥ }
        ensures ok { OnOk result (self.new ≡ self.old ++ name.now ∷ []) }
        ensures err { OnErr result (self.new ≡ self.old) }
    {
        let copy = Bytes::copy_of(alloc, name)?;
        note(&mut self.places, alloc, &self.items, name)?;
        self.items.push(copy)?;
        Ok(())
    }

    /// Takes the last one away.
    pub fn pop(&mut self)
        ensures { (front : List (List ℕ)) (last : List ℕ) → self.old ≡ front ++ last ∷ [] → self.new ≡ front }
    {
        self.items.pop();
    }
}

/// Notes the place of one more name, where there are more than a few with it.
fn note(
    places: &mut Places<usize>,
    alloc: Global,
    names: &[Bytes],
    name: &[u8],
) -> Result<(), AllocError>
    ensures ok { OnOk result ((name.now ≢ [] → Contains names.now name.now → ⊥) → AreFoundBeyond 8 places.old names.now → AreFoundBeyond 8 places.new (names.now ++ name.now ∷ [])) }
    ensures err { OnErr result (AreFoundBeyond 8 places.old names.now → AreFoundBeyond 8 places.new names.now) }
{
    if names.len() < FEW {
        return Ok(());
    }
    note_first(places, alloc, names)?;
    places.insert(alloc, name, names.len())
}

/// Notes the places of the first few names, where there are no more yet.
fn note_first(places: &mut Places<usize>, alloc: Global, names: &[Bytes]) -> Result<(), AllocError>
    ensures ok { OnOk result (AreFoundBeyond 8 places.old names.now → AreFoundBeyond 0 places.new names.now) }
    ensures err { OnErr result (length names.now ≤ 8) }
{
    if names.len() > FEW {
        return Ok(());
    }
    'names: for i in 0..names.len() {
        places.insert(alloc, names[i].as_slice(), i)?;
    }
    Ok(())
}

/// The place of a name among these.
#[inline]
fn place_among(names: &[Bytes], name: &[u8]) -> Option<usize>
    ensures { MatchOption result ((i : ℕ) → slice_get names.now i ≡ Some name.now → ⊥) (λ i. slice_get names.now i ≡ Some name.now) }
{
    for i in 0..names.len() {
        if names[i].is(name) {
            return Some(i);
        }
    }
    None
}
