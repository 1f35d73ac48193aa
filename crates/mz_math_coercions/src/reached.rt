// The sorts that a walk along coercions has reached.
ghost use Rattle.std.specs.Prelude.{◌≡◌, ◌<◌, ◌≤◌, ◌↔◌, ◌⊎◌, ◌++◌, ◌∷◌, [], ◌^◌, ℕ, List, Contains, IsTrue, OnErr, OnOk, MatchOption, Some, length, slice_get};
ghost use Rattle.mz_math_coercions.specs.Reached.{AreFoundIn, Has};

use indexmap::IndexMap;
use std::alloc::{AllocError, Global};
use std::marker::Model;

/// So many sorts are gone through faster than they are found by their hashes.
const FEW: usize = 32;

/// Sorts, each once and in the order in which a walk has come to them, with the place of a coercion
/// that leads to it.
#[derive(Drop)]
pub struct Reached {
    steps: Vec<(u32, usize)>,
    // all of them, where there are more than a few
    places: IndexMap<u32, usize>,
}

impl Model for Reached {
    ghost use Rattle.std.specs.Prelude.{◌<◌, List, ℕ, length};
    ghost use Rattle.mz_math_coercions.specs.Reached.{AreFoundIn};

    ghost Value = { List (ℕ × ℕ) };

    ghost view = { λ a. a.steps.items };

    ghost invariant = { λ a. 32 < length a.steps.items → AreFoundIn a.places.entries a.steps.items };
}

impl Reached {
    /// No sorts.
    pub fn new(alloc: Global) -> Reached
        ensures { result ≡ [] }
    {
        Reached {
            steps: Vec::new(alloc),
            places: IndexMap::new(alloc),
        }
    }

    /// How many there are.
    pub fn len(&self) -> usize
        ensures many { result ≡ length self.now }
        ensures small { result < 2 ^ 63 }
    {
        self.steps.len()
    }

    /// The i-th of them.
    pub fn sort_at(&self, i: usize) -> Option<u32>
        ensures { MatchOption result (length self.now ≤ i) (λ s. (p : ℕ) × (slice_get self.now i ≡ Some (s, p))) }
    {
        match self.step_at(i) {
            None => None,
            Some((sort, _)) => Some(sort),
        }
    }

    /// The i-th of them with its place.
    pub fn step_at(&self, i: usize) -> Option<(u32, usize)>
        ensures { result ≡ slice_get self.now i }
    {
        self.steps.get(i).copied()
    }

    /// The place that stands beside a sort, if it is one of them.
    pub fn place_to(&self, sort: u32) -> Option<usize>
        ensures { MatchOption result (Has self.now sort → ⊥) (λ p. Contains self.now (sort, p)) }
    {
        if self.steps.len() <= FEW {
            return place_in(&self.steps, sort);
        }
        self.places.get(&sort).copied()
    }

    /// Whether a sort is one of them.
    pub fn has(&self, sort: u32) -> bool
        ensures { IsTrue result ↔ Has self.now sort }
    {
        self.place_to(sort).is_some()
    }

    /// Adds a sort and a place, where the sort isn't one of them yet.
    ///
    /// # Errors
    ///
    /// Where there is no memory.
    pub fn add(&mut self, sort: u32, place: usize) -> Result<(), AllocError>
        ensures kept { (more : List (ℕ × ℕ)) × (self.new ≡ self.old ++ more) }
        ensures only { (t p : ℕ) → Contains self.new (t, p) → Contains self.old (t, p) ⊎ ((t ≡ sort) × (p ≡ place)) }
        ensures first { OnOk result (self.old ≡ [] → self.new ≡ (sort, place) ∷ []) }
        ensures ok { OnOk result (Has self.new sort) }
    {
        if self.has(sort) {
            return Ok(());
        }
        self.push(sort, place)?;
        Ok(())
    }

    /// Adds a sort that isn't one of them yet, and a place.
    fn push(&mut self, sort: u32, place: usize) -> Result<(), AllocError>
        requires { Has self.old sort → ⊥ }
        ensures ok { OnOk result (self.new ≡ self.old ++ (sort, place) ∷ []) }
        ensures err { OnErr result (self.new ≡ self.old) }
    {
        self.steps.push((sort, place))?;
        if self.steps.len() <= FEW {
            return Ok(());
        }
        let Ok(()) = note(&mut self.places, &self.steps, sort, place) else {
            drop_last(&mut self.steps);
            return Err(AllocError);
        };
        Ok(())
    }
}

/// Notes the place beside the last of these steps; where there were no more than a few before it,
/// those beside all of them.
fn note(
    places: &mut IndexMap<u32, usize>,
    steps: &[(u32, usize)],
    sort: u32,
    place: usize,
) -> Result<(), AllocError>
    ensures ok { OnOk result ((front : List (ℕ × ℕ)) → steps.now ≡ front ++ (sort, place) ∷ [] → (32 < length front → AreFoundIn places.old.entries front) → AreFoundIn places.new.entries steps.now) }
    ensures err { OnErr result (33 < length steps.now → places.new.entries ≡ places.old.entries) }
{
    if steps.len() > FEW + 1 {
        places.insert(sort, place)?;
        return Ok(());
    }
    places.clear();
    'steps: for i in 0..steps.len() {
        let (other, beside) = steps[i];
        places.insert(other, beside)?;
    }
    Ok(())
}

/// Takes the last item away.
pub fn drop_last<T: Copy>(items: &mut Vec<T>)
    ensures { (front : List T) (last : T) → items.old.items ≡ front ++ last ∷ [] → items.new.items ≡ front }
{
    items.pop();
}

/// The place that stands beside a sort, if it is one of these.
fn place_in(steps: &[(u32, usize)], sort: u32) -> Option<usize>
    ensures { MatchOption result (Has steps.now sort → ⊥) (λ p. Contains steps.now (sort, p)) }
{
    'steps: for i in 0..steps.len() {
        let (other, place) = steps[i];
        if other == sort {
            return Some(place);
        }
    }
    None
}
