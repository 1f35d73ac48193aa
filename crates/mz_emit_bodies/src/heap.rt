//! Where the expressions stand in a heap.
ghost use Rattle.std.specs.Prelude.{ℕ, ◌≡◌, ◌<◌, ◌+◌, ◌^◌, OnOk, IfOk, Some, None, length};
ghost use Rattle.mz_emit_bodies.specs.Places.{place_of};

use mz_cmd::Mem;
use mz_store::Id;
use std::alloc::Global;

/// The heap of a body or of a unify stream: how long it is, and where expressions stand in it.
#[derive(Drop)]
pub struct Heap {
    /// The place of each expression, by the number of its id; those behind its end have no place.
    pub places: Vec<Option<u32>>,
    /// How much stands in it.
    pub len: u32,
}

/// Where the expression stands, if it stands there.
fn place_at(places: &[Option<u32>], i: usize) -> Option<u32>
    ensures { result ≡ place_of places.now i }
{
    match places.get(i) {
        Some(place) => *place,
        None => None,
    }
}

#[tactic(auto, using(crate::proofs::NoMore::no_more))]
/// Puts places of nothing behind the others, until this one is there.
fn reach(places: &mut Vec<Option<u32>>, i: usize) -> Result<(), Mem>
    ensures there { OnOk result (i < length places.new.items) }
    ensures same { OnOk result ((j : ℕ) → place_of places.new.items j ≡ place_of places.old.items j) }
{
    while places.len() <= i {
        places.push(None)?;
    }
    Ok(())
}

impl Heap {
    /// The heap of the parameters, whose ids are the numbers below.
    ///
    /// # Errors
    ///
    /// Where there is no memory.
    pub fn new(alloc: Global, params: u32) -> Result<Heap, Mem>
        ensures len { IfOk result (λ h. h.len ≡ params) }
        ensures places { IfOk result (λ h. (i p : ℕ) → place_of h.places.items i ≡ Some p → (i ≡ p) × (p < params)) }
        ensures all { IfOk result (λ h. (i : ℕ) → i < params → place_of h.places.items i ≡ Some i) }
    {
        let mut places = Vec::new(alloc);
        let mut i = 0;
        while i < params {
            places.push(Some(i))?;
            i += 1;
        }
        Ok(Heap {
            places,
            len: params,
        })
    }

    /// Where the expression stands, if it stands there.
    pub fn place(&self, id: Id) -> Option<u32>
        ensures { result ≡ place_of self.now.places.items id.0 }
    {
        place_at(&self.places, id.0 as usize)
    }

    /// Appends something that isn't an expression, and says where it stands. No memory is taken.
    pub fn push(&mut self) -> u32
        requires room { self.old.len + 1 < 2 ^ 32 }
        ensures at { result ≡ self.old.len }
        ensures places { self.new.places.items ≡ self.old.places.items }
        ensures more { self.new.len ≡ self.old.len + 1 }
    {
        let place = self.len;
        self.len = place + 1;
        place
    }

    /// Appends an expression.
    ///
    /// # Errors
    ///
    /// Where there is no memory.
    pub fn push_expr(&mut self, id: Id) -> Result<(), Mem>
        requires room { self.old.len + 1 < 2 ^ 32 }
        ensures at { OnOk result (place_of self.new.places.items id.0 ≡ Some self.old.len) }
        ensures others { OnOk result ((j : ℕ) → (j ≡ id.0 → ⊥) → place_of self.new.places.items j ≡ place_of self.old.places.items j) }
        ensures more { OnOk result (self.new.len ≡ self.old.len + 1) }
    {
        let i = id.0 as usize;
        reach(&mut self.places, i)?;
        let place = self.push();
        self.places[i] = Some(place);
        Ok(())
    }
}
