ghost use Rattle.std.specs.Prelude.{◌≡◌, ◌↔◌, ◌++◌, IsTrue, length, option_map, slice_get};
ghost use Rattle.mz_logic_theory.specs.Variables.{IsBoundAt};

use crate::binder::{Binder, Binders};
use std::marker::Model;

/// A context: the parameters, and after them the dummies.
#[derive(Drop)]
pub struct Context<'a> {
    params: &'a [Binder],
    dummies: &'a [Binder],
}

impl<'a> Model for Context<'a> {
    ghost use Rattle.std.specs.Prelude.{List, ◌++◌};
    ghost use Rattle.mz_logic_theory.specs.declared.binder.Binder.{Binder};

    ghost Value = { List Binder };

    ghost view = { λ a. a.params.now ++ a.dummies.now };
}

impl<'a> Context<'a> {
    pub fn new(params: &'a [Binder], dummies: &'a [Binder]) -> Context<'a>
        ensures { result ≡ params.now ++ dummies.now }
    {
        Context { params, dummies }
    }

    /// The context of these binders alone.
    pub fn of(binders: &'a Binders) -> Context<'a>
        ensures { result ≡ binders.now }
    {
        Context::new(binders.as_slice(), &[])
    }

    /// How many variables there are.
    pub fn len(&self) -> usize
        ensures { result ≡ length self.now }
    {
        self.params.len() + self.dummies.len()
    }

    /// Whether a bound variable is at the place.
    pub fn is_bound(&self, place: usize) -> bool
        ensures { IsTrue result ↔ IsBoundAt self.now place }
    {
        match self.at(place) {
            None => false,
            Some(binder) => binder.bound,
        }
    }

    /// The variable with this number, if it is there.
    pub fn get(&self, number: u32) -> Option<&'a Binder>
        ensures { option_map (λ b. b.now) result ≡ slice_get self.now number }
    {
        self.at(number as usize)
    }

    fn at(&self, place: usize) -> Option<&'a Binder>
        ensures { option_map (λ b. b.now) result ≡ slice_get self.now place }
    {
        if place < self.params.len() {
            self.params.get(place)
        } else {
            self.dummies.get(place - self.params.len())
        }
    }
}
