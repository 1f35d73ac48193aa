// Notations.
ghost use Rattle.std.specs.Prelude.{◌≡◌, ◌<◌, ◌≤◌, ◌+◌, ◌^◌, ◌↔◌, ◌⊎◌, ◌∷◌, [], ⊤, ℕ, List, IfOk, IsTrue, MatchOption, Contains, drop, length};
ghost use Rattle.mz_math_theory.specs.Clear.{HasConstant, JoinedBy, LedBy};
ghost use Rattle.mz_math_theory.specs.Listed.{AreListed, element, slots as slots_from};
ghost use Rattle.mz_math_theory.specs.Notation.{begins_with_slot as with_slot, fixed, level_of};
ghost use Rattle.mz_math_theory.specs.declared.notation.Notation.{Notation};

use mz_lex::Bytes;
use std::alloc::{AllocError, Global};
use std::marker::Model;

/// The precedence above all precedences that are numbers.
pub const MAX: u32 = u32::MAX;

/// A constant with its precedence, or the place of a parameter.
#[derive(Drop)]
pub enum Element {
    Fixed(Bytes, u32),
    Slot(usize),
}

impl Element {
    /// Its precedence, where it is this constant.
    pub fn level_of(&self, token: &[u8]) -> Option<u32>
        ensures { MatchOption result ((q : ℕ) → self.now ≡ fixed token.now q → ⊥) (λ q. self.now ≡ fixed token.now q) }
    {
        match self {
            Element::Fixed(constant, level) => {
                if constant.is(token) {
                    Some(*level)
                } else {
                    None
                }
            }
            Element::Slot(_) => None,
        }
    }
}

/// What stands at a place of a notation: a constant with its precedence, or the place of a
/// parameter.
#[derive(Clone, Copy)]
pub enum ElementRef<'w> {
    Fixed(&'w Bytes, u32),
    Slot(usize),
}

/// The elements of a notation in order.
#[derive(Drop)]
pub struct Elements {
    // those of `prefix` are a constant and so many parameters, which aren't written out
    listed: Vec<Element>,
    slots: usize,
}

impl Model for Elements {
    ghost use Rattle.std.specs.Prelude.{◌++◌, List};
    ghost use Rattle.mz_math_theory.specs.Listed.{IsBehind, slots as slots_from};
    ghost use Rattle.mz_math_theory.specs.declared.notation.Element.{Element};

    ghost Value = { List Element };

    ghost view = { λ a. a.listed.items ++ slots_from 0 a.slots };

    ghost invariant = { λ a. IsBehind a.listed.items a.slots };
}

impl Elements {
    /// These elements.
    pub fn from_vec(items: Vec<Element>) -> Elements
        ensures { result ≡ items.items }
    {
        Elements {
            listed: items,
            slots: 0,
        }
    }

    /// A constant before the places of so many parameters.
    pub fn of_prefix(
        alloc: Global,
        constant: Bytes,
        level: u32,
        slots: usize,
    ) -> Result<Elements, AllocError>
        requires { slots < 2 ^ 63 }
        ensures { IfOk result (λ all. all ≡ fixed constant level ∷ slots_from 0 slots) }
    {
        let mut listed = Vec::new(alloc);
        listed.push(Element::Fixed(constant, level))?;
        Ok(Elements { listed, slots })
    }

    /// What stands at a place.
    pub fn get(&self, at: usize) -> Option<ElementRef<'_>>
        ensures element { MatchOption result (drop at self.now ≡ []) (λ e. drop at self.now ≡ element e ∷ drop (at + 1) self.now) }
        ensures within { MatchOption result (length self.now ≤ at) (λ e. at < length self.now) }
        ensures next { MatchOption result ⊤ (λ e. at + 1 < 2 ^ 64) }
    {
        match self.listed.get(at) {
            Some(Element::Fixed(constant, level)) => Some(ElementRef::Fixed(constant, *level)),
            Some(Element::Slot(place)) => Some(ElementRef::Slot(*place)),
            None => {
                let place = at - self.listed.len();
                if place < self.slots {
                    Some(ElementRef::Slot(place))
                } else {
                    None
                }
            }
        }
    }

    /// The elements that are written out: all the constants, and the first ones in order.
    pub fn listed(&self) -> &[Element]
        ensures { AreListed self.now result.now }
    {
        &self.listed
    }
}

/// A notation of a term, at a precedence. Where it begins with a parameter, it groups to the right
/// or to the left.
#[derive(Drop)]
pub struct Notation {
    pub term: u32,
    pub level: u32,
    pub is_right: bool,
    pub elements: Elements,
}

impl Notation {
    /// Whether it begins with a parameter.
    pub fn begins_with_slot(&self) -> bool
        ensures { result ≡ with_slot self.now.elements }
    {
        matches!(self.elements.listed(), [Element::Slot(_), ..])
    }

    /// The constant with which it begins, if it begins with one.
    pub fn leading_constant(&self) -> Option<&[u8]>
        ensures { MatchOption result ((w : List ℕ) → LedBy self.now w → ⊥) (λ w. LedBy self.now w.now) }
    {
        match self.elements.listed() {
            [Element::Fixed(constant, level), ..] if *level == self.level => Some(
                constant.as_slice(),
            ),
            _ => None,
        }
    }

    /// The constant with which it begins, or else the one behind its first parameter.
    pub fn head_constant(&self) -> Option<&[u8]>
        ensures { MatchOption result ((w : List ℕ) → LedBy self.now w ⊎ JoinedBy self.now w → ⊥) (λ w. LedBy self.now w.now ⊎ JoinedBy self.now w.now) }
    {
        match self.leading_constant() {
            Some(constant) => Some(constant),
            None => match self.joining_constant() {
                Some(constant) => Some(constant),
                None => None,
            },
        }
    }

    /// The constant behind its first parameter, if it begins with one.
    pub fn joining_constant(&self) -> Option<&[u8]>
        ensures { MatchOption result ((w : List ℕ) → JoinedBy self.now w → ⊥) (λ w. JoinedBy self.now w.now) }
    {
        match self.elements.listed() {
            [Element::Slot(_), Element::Fixed(constant, level), ..] if *level == self.level => {
                Some(constant.as_slice())
            }
            _ => None,
        }
    }

    /// Whether it begins with this constant.
    pub fn is_led_by(&self, token: &[u8]) -> bool
        ensures { IsTrue result ↔ LedBy self.now token.now }
    {
        match self.elements.listed() {
            [Element::Fixed(constant, level), ..] => *level == self.level && constant.is(token),
            _ => false,
        }
    }

    /// Whether this constant stands behind its first parameter.
    pub fn is_joined_by(&self, token: &[u8]) -> bool
        ensures { IsTrue result ↔ JoinedBy self.now token.now }
    {
        match self.elements.listed() {
            [Element::Slot(_), Element::Fixed(constant, level), ..] => {
                *level == self.level && constant.is(token)
            }
            _ => false,
        }
    }
}

/// A precedence as it is written: a number, or none for max.
pub fn level_number(level: Option<u32>) -> u32
    ensures { result ≡ level_of level }
{
    match level {
        None => MAX,
        Some(number) => number,
    }
}
