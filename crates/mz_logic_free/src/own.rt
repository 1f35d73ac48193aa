// What an operand may name of the variables that are the operands of bound parameters.
ghost use Rattle.std.specs.Prelude.{◌≡◌, ◌↔◌, ◌⊎◌, ℕ, IsTrue, Contains, filter};
ghost use Rattle.mz_logic_free.specs.Own.{is_own, owner_beside};

use crate::variables::VariableSet;
use mz_logic_theory::Deps;
use std::marker::Model;

/// Of variables beside each of which stands the place of its owner, those whose owner is at one place or at
/// one of others. The set is borrowed, and not made anew for each place.
#[derive(Drop)]
pub struct Own<'a> {
    owned: &'a VariableSet,
    owners: &'a [u32],
    place: usize,
    others: &'a Deps,
}

impl<'a> Model for Own<'a> {
    ghost use Rattle.std.specs.Prelude.{List, ℕ, filter};
    ghost use Rattle.mz_logic_free.specs.Own.{is_own};

    ghost Value = { List ℕ };

    ghost view = { λ a. filter (is_own a.owned.now a.owners.now a.place a.others.now) a.owned.now };
}

impl<'a> Own<'a> {
    /// Those whose owner is at the place, or at one of the others.
    pub fn new(owned: &'a VariableSet, owners: &'a [u32], place: usize, others: &'a Deps) -> Own<'a>
        ensures { result ≡ filter (is_own owned.now owners.now place others.now) owned.now }
    {
        Own {
            owned,
            owners,
            place,
            others,
        }
    }

    /// Whether the variable is one of them.
    pub(crate) fn has(&self, x: u32) -> bool
        ensures { IsTrue result ↔ Contains self.now x }
    {
        match owner_of(x, self.owned, self.owners) {
            None => false,
            Some(owner) => is_place(owner, self.place, self.others),
        }
    }
}

/// The owner that stands beside the variable, if it is one of these.
fn owner_of(x: u32, owned: &VariableSet, owners: &[u32]) -> Option<u32>
    ensures { result ≡ owner_beside owned.now owners.now x }
{
    let i = owned.place_of(x)?;
    owners.get(i).copied()
}

/// Whether it is the place, or one of the others.
fn is_place(owner: u32, place: usize, others: &Deps) -> bool
    ensures { IsTrue result ↔ ((owner ≡ place) ⊎ Contains others.now owner) }
{
    owner as usize == place || others.has(owner)
}
