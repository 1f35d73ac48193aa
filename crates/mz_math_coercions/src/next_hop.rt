// The first coercion of each path, by the two sorts between which it leads.
ghost use Rattle.std.specs.Prelude.{◌≡◌, ◌++◌, ◌∷◌, [], ℕ, List, Contains, IfOk, MatchOption, Some, slice_get, true};
ghost use Rattle.mz_math_theory.specs.Coercions.{IsPath, OnePath};
ghost use Rattle.mz_math_theory.specs.CoercionAnswers.{HasPath, IsNext};
ghost use Rattle.mz_math_coercions.specs.Firsts.{AreLed, IsChanged, IsOfStart, IsOfStarts, first_of};
ghost use Rattle.mz_math_coercions.specs.Found.{AreTermsOf};
ghost use Rattle.mz_math_coercions.specs.Graph.{all_turned};
ghost use Rattle.mz_math_coercions.specs.Reached.{Has};
ghost use Rattle.mz_math_theory.specs.declared.coercion.Coercion.{Coercion};

use crate::graph::Graph;
use crate::hops::FirstSteps;
use crate::reached::Reached;
use mz_math_theory::Coercion;
use std::alloc::{AllocError, Global};

/// The coercion at a place, if there is one.
pub fn coercion_at(items: &[Coercion], place: usize) -> Option<Coercion>
    ensures { result ≡ slice_get items.now place }
{
    items.get(place).copied()
}

/// The coercion that begins the path from a sort to another one, if there is such a path.
pub fn next_coercion(
    items: &[Coercion],
    firsts: &FirstSteps,
    from: u32,
    to: u32,
) -> Option<Coercion>
    requires one { OnePath items.now }
    requires led { AreLed items.now firsts.now }
    ensures { MatchOption result ((p : ℕ) (path : List ℕ) → IsPath items.now from (p ∷ path) to → ⊥) (λ c. (p : ℕ) × IsNext items.now from to p c) }
{
    match firsts.get(from, to) {
        Some(place) => coercion_at(items, place),
        None => None,
    }
}

/// The terms of the path from a sort to another in order, if there is one.
///
/// # Errors
///
/// Where there is no memory.
pub fn terms_along(
    alloc: Global,
    items: &[Coercion],
    firsts: &FirstSteps,
    from: u32,
    to: u32,
) -> Result<Option<Vec<u32>>, AllocError>
    requires one { OnePath items.now }
    requires led { AreLed items.now firsts.now }
    ensures { IfOk result (λ o. MatchOption o (HasPath items.now from to → ⊥) (λ terms. AreTermsOf items.now from to terms.items)) }
{
    let mut terms = Vec::new(alloc);
    let mut sort = from;
    'steps: while sort != to {
        let Some(coercion) = next_coercion(items, firsts, sort, to) else {
            return Ok(None);
        };
        terms.push(coercion.term)?;
        sort = coercion.to;
    }
    Ok(Some(terms))
}

/// Keeps the first coercions of the paths that go by a new coercion, where its sorts and all that
/// reach it or are reached from it are such that a binary can have them, and says whether it did.
///
/// # Errors
///
/// Where there is no memory.
pub fn lead(
    alloc: Global,
    graph: &Graph,
    back: &Graph,
    firsts: &mut FirstSteps,
    coercion: Coercion,
) -> Result<bool, AllocError>
    requires led { AreLed graph.now firsts.old }
    requires one { OnePath (graph.now ++ coercion ∷ []) }
    requires turned { back.now ≡ all_turned graph.now }
    ensures { IfOk result (λ all. all ≡ true → AreLed (graph.now ++ coercion ∷ []) firsts.new) }
{
    let mut starts = Reached::new(alloc);
    let mut ends = Reached::new(alloc);
    lead_between(graph, back, firsts, coercion, &mut starts, &mut ends)
}

/// Does so for the sorts that reach the coercion and those that are reached from it.
fn lead_between(
    graph: &Graph,
    back: &Graph,
    firsts: &mut FirstSteps,
    coercion: Coercion,
    starts: &mut Reached,
    ends: &mut Reached,
) -> Result<bool, AllocError>
    requires led { AreLed graph.now firsts.old }
    requires one { OnePath (graph.now ++ coercion ∷ []) }
    requires turned { back.now ≡ all_turned graph.now }
    requires fresh { (starts.old ≡ []) × (ends.old ≡ []) }
    ensures { IfOk result (λ all. all ≡ true → AreLed (graph.now ++ coercion ∷ []) firsts.new) }
{
    back.walk_from(coercion.from, graph.as_slice().len(), starts)?;
    graph.walk_from(coercion.to, 0, ends)?;
    lead_all(firsts, starts, ends)
}

/// Keeps the places of the starts between them and the ends.
fn lead_all(firsts: &mut FirstSteps, starts: &Reached, ends: &Reached) -> Result<bool, AllocError>
    ensures { IfOk result (λ all. all ≡ true → IsChanged firsts.old firsts.new (IsOfStarts starts.now ends.now)
        × ((s t : ℕ) → Has starts.now s → Has ends.now t → IsOfStarts starts.now ends.now s t (first_of firsts.new s t))) }
{
    'starts: for i in 0..starts.len() {
        let Some((sort, place)) = starts.step_at(i) else {
            unreachable!()
        };
        if !lead_from(firsts, sort, place, ends)? {
            return Ok(false);
        }
    }
    Ok(true)
}

/// Keeps the place of a start between it and each end.
fn lead_from(
    firsts: &mut FirstSteps,
    from: u32,
    place: usize,
    ends: &Reached,
) -> Result<bool, AllocError>
    ensures { IfOk result (λ all. all ≡ true → IsChanged firsts.old firsts.new (IsOfStart from place ends.now)
        × ((t : ℕ) → Has ends.now t → first_of firsts.new from t ≡ Some place)) }
{
    'ends: for i in 0..ends.len() {
        let Some(end) = ends.sort_at(i) else {
            unreachable!()
        };
        if !firsts.insert(from, end, place)? {
            return Ok(false);
        }
    }
    Ok(true)
}
