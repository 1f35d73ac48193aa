// What regular variables depend on, narrowed to variables that are sought.
ghost use Rattle.std.specs.Prelude.{◌≡◌, ◌↔◌, ◌⊎◌, [], ℕ, List, IsTrue, IfOk, OnOk, Contains};

use crate::variables::VariableSet;
use indexmap::IndexMap;
use mz_logic_theory::{Binder, Deps};
use std::alloc::{AllocError, Global};
use std::marker::Model;

/// Beside regular variables of a context, those of the sought variables on which they depend, so that what a
/// variable depends on is gone through once, and not in each operand that mentions it.
#[derive(Drop)]
pub struct Narrowed {
    alloc: Global,
    few: IndexMap<u32, Deps>,
}

impl Model for Narrowed {
    ghost use Rattle.std.specs.Prelude.{List, ℕ};

    ghost Value = { List (ℕ × List ℕ) };

    ghost view = { λ a. a.few.entries };
}

impl Narrowed {
    /// For no variables yet.
    pub fn new(alloc: Global) -> Narrowed
        ensures { result ≡ [] }
    {
        Narrowed {
            alloc,
            few: IndexMap::new(alloc),
        }
    }

    /// What stands beside the variable, if it is one of them, in place of all on which it depends.
    pub(crate) fn places<'a>(&'a self, y: u32, places: &'a Deps) -> &'a Deps
        ensures { (result.now ≡ places.now) ⊎ Contains self.now (y, result.now) }
    {
        match self.few.get(&y) {
            None => places,
            Some(few) => few,
        }
    }

    /// Narrows what the variable `y` with this binder depends on, where it is met for the first time. Where
    /// few are sought, these are found as quickly without it, and where there is no memory, all is gone
    /// through anew.
    pub(crate) fn learn(&mut self, y: u32, binder: &Binder, variables: &VariableSet)
        ensures { (z : ℕ) (ws : List ℕ) → Contains self.new (z, ws)
            → Contains self.old (z, ws) ⊎ ((z ≡ y) × ((x : ℕ) → Contains variables.now x → Contains ws x ↔ Contains binder.now.deps x)) }
    {
        if is_quick(binder) || variables.len() < 16 || self.few.contains_key(&y) {
            return;
        }
        if let Ok(few) = few_of(self.alloc, &binder.deps, variables) {
            self.add(y, few);
        }
    }

    /// Puts places beside the variable, if there is memory.
    fn add(&mut self, y: u32, few: Deps)
        ensures { (z : ℕ) (ws : List ℕ) → Contains self.new (z, ws) → Contains self.old (z, ws) ⊎ ((z ≡ y) × (ws ≡ few)) }
    {
        let _ = self.few.insert(y, few);
    }
}

/// Whether to look at what the variable depends on takes no longer than to remember it.
pub(crate) fn is_quick(binder: &Binder) -> bool {
    binder.bound || binder.deps.as_slice().len() < 8
}

/// Those of the variables that are at one of the places.
fn few_of(alloc: Global, places: &Deps, variables: &VariableSet) -> Result<Deps, AllocError>
    ensures { IfOk result (λ few. (x : ℕ) → Contains variables.now x → Contains few x ↔ Contains places.now x) }
{
    let mut few = Vec::new(alloc);
    let sought = fewer(places, variables);
    push_common(sought, places, variables, &mut few)?;
    Deps::from_vec(few)
}

/// The variables, where they are much fewer, or the places.
fn fewer<'a>(places: &'a Deps, variables: &'a VariableSet) -> &'a [u32]
    ensures { (result.now ≡ variables.now) ⊎ (result.now ≡ places.now) }
{
    if variables.len() < places.as_slice().len() / 8 {
        variables.as_slice()
    } else {
        places.as_slice()
    }
}

/// Appends those of the numbers that are one of the variables and at one of the places.
fn push_common(
    sought: &[u32],
    places: &Deps,
    variables: &VariableSet,
    few: &mut Vec<u32>,
) -> Result<(), AllocError>
    ensures { OnOk result ((x : ℕ) → Contains few.new.items x ↔ (Contains few.old.items x ⊎ (Contains sought.now x × (Contains variables.now x × Contains places.now x)))) }
{
    for x in sought {
        if is_common(*x, places, variables) {
            few.push(*x)?;
        }
    }
    Ok(())
}

/// Whether this is one of the variables and at one of the places.
fn is_common(x: u32, places: &Deps, variables: &VariableSet) -> bool
    ensures { IsTrue result ↔ (Contains variables.now x × Contains places.now x) }
{
    variables.has(x) && places.has(x)
}
