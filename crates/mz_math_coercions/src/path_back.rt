// The path to a sort that a walk has reached, read off from its end.
ghost use Rattle.std.specs.Prelude.{◌≡◌, ◌∷◌, [], ℕ, IfOk, MatchOption, map, reverse};
ghost use Rattle.mz_math_theory.specs.Coercions.{IsPath, OnePath, coercion_term};
ghost use Rattle.mz_math_theory.specs.CoercionAnswers.{HasPath};
ghost use Rattle.mz_math_coercions.specs.Found.{AreTermsOf};
ghost use Rattle.mz_math_coercions.specs.Reached.{AreReached, Has};

use crate::graph::Graph;
use crate::next_hop::coercion_at;
use crate::reached::Reached;
use mz_math_theory::Coercion;
use std::alloc::{AllocError, Global};

/// The terms of the path from a sort to another in order, if there is one, found by a walk over all
/// that the first sort reaches.
///
/// # Errors
///
/// Where there is no memory.
pub fn terms_reached(
    alloc: Global,
    graph: &Graph,
    from: u32,
    to: u32,
    reached: &mut Reached,
) -> Result<Option<Vec<u32>>, AllocError>
    requires one { OnePath graph.now }
    requires fresh { reached.old ≡ [] }
    ensures { IfOk result (λ o. MatchOption o (HasPath graph.now from to → ⊥) (λ terms. AreTermsOf graph.now from to terms.items)) }
{
    graph.walk_from(from, 0, reached)?;
    if !reached.has(to) {
        return Ok(None);
    }
    let items = graph.as_slice();
    let places = path_back(alloc, items, reached, from, to)?;
    let terms = terms_back(alloc, items, places)?;
    Ok(Some(terms))
}

/// The places of the coercions of the path from the sort at which a walk began to one that it has
/// reached, the last one first.
///
/// # Errors
///
/// Where there is no memory.
fn path_back(
    alloc: Global,
    items: &[Coercion],
    reached: &Reached,
    from: u32,
    to: u32,
) -> Result<Vec<usize>, AllocError>
    requires one { OnePath items.now }
    requires reached { AreReached items.now ((from, 0) ∷ []) reached.now }
    requires there { Has reached.now to }
    ensures { IfOk result (λ places. IsPath items.now from (reverse places.items) to) }
{
    let mut places = Vec::new(alloc);
    let mut sort = to;
    'steps: while sort != from {
        let Some(place) = reached.place_to(sort) else {
            unreachable!()
        };
        let Some(coercion) = coercion_at(items, place) else {
            unreachable!()
        };
        places.push(place)?;
        sort = coercion.from;
    }
    Ok(places)
}

/// The terms of the coercions of a path in order, whose places are these, the last one first.
///
/// # Errors
///
/// Where there is no memory.
fn terms_back(alloc: Global, items: &[Coercion], places: Vec<usize>) -> Result<Vec<u32>, AllocError>
    requires { (from to : ℕ) × IsPath items.now from (reverse places.items) to }
    ensures { IfOk result (λ terms. terms.items ≡ map (coercion_term items.now) (reverse places.items)) }
{
    let mut left = places;
    let mut terms = Vec::with_capacity(alloc, left.len())?;
    'steps: while let Some(place) = left.pop() {
        let Some(coercion) = coercion_at(items, place) else {
            unreachable!()
        };
        terms.push(coercion.term)?;
    }
    Ok(terms)
}
