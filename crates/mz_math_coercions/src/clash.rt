// Whether a new coercion makes a second path.
ghost use Rattle.std.specs.Prelude.{◌≡◌, ◌↔◌, ◌++◌, ◌∷◌, [], ℕ, IfOk, IsTrue, MatchBool};
ghost use Rattle.mz_math_coercions.specs.Graph.{all_turned};
ghost use Rattle.mz_math_coercions.specs.Groups.{AreGrouped};
ghost use Rattle.mz_math_coercions.specs.Reached.{Has};
ghost use Rattle.mz_math_theory.specs.Coercions.{OnePath};

use crate::graph::Graph;
use crate::groups::Groups;
use crate::reached::Reached;
use mz_math_theory::Coercion;
use std::alloc::{AllocError, Global};

/// Whether with the coercion there would be two paths between two sorts. Where its sorts are in
/// different groups there wouldn't.
///
/// # Errors
///
/// Where there is no memory.
pub fn is_clash(
    alloc: Global,
    graph: &Graph,
    back: &Graph,
    groups: &mut Groups,
    coercion: Coercion,
) -> Result<bool, AllocError>
    requires one { OnePath graph.now }
    requires turned { back.now ≡ all_turned graph.now }
    requires grouped { AreGrouped graph.now groups.old }
    ensures grouped { AreGrouped graph.now groups.new }
    ensures clash { IfOk result (λ clash. MatchBool clash (OnePath (graph.now ++ coercion ∷ []) → ⊥) (OnePath (graph.now ++ coercion ∷ []))) }
{
    if groups.are_apart(coercion.from, coercion.to) {
        return Ok(false);
    }
    is_second(alloc, graph, back, coercion)
}

/// Whether a sort that reaches the coercion reaches one that is reached from it. Only these are gone
/// through.
///
/// # Errors
///
/// Where there is no memory.
fn is_second(
    alloc: Global,
    graph: &Graph,
    back: &Graph,
    coercion: Coercion,
) -> Result<bool, AllocError>
    requires one { OnePath graph.now }
    requires turned { back.now ≡ all_turned graph.now }
    ensures { IfOk result (λ clash. MatchBool clash (OnePath (graph.now ++ coercion ∷ []) → ⊥) (OnePath (graph.now ++ coercion ∷ []))) }
{
    let mut front = Reached::new(alloc);
    let mut ends = Reached::new(alloc);
    is_met(graph, back, coercion, &mut front, &mut ends)
}

/// Whether it is so, by what is reached before and after the coercion.
fn is_met(
    graph: &Graph,
    back: &Graph,
    coercion: Coercion,
    front: &mut Reached,
    ends: &mut Reached,
) -> Result<bool, AllocError>
    requires one { OnePath graph.now }
    requires turned { back.now ≡ all_turned graph.now }
    requires fresh { (front.old ≡ []) × (ends.old ≡ []) }
    ensures { IfOk result (λ clash. MatchBool clash (OnePath (graph.now ++ coercion ∷ []) → ⊥) (OnePath (graph.now ++ coercion ∷ []))) }
{
    back.walk_from(coercion.from, 0, front)?;
    graph.walk(front)?;
    graph.walk_from(coercion.to, 0, ends)?;
    Ok(meet(front, ends))
}

/// Whether both have a sort.
fn meet(front: &Reached, ends: &Reached) -> bool
    ensures { IsTrue result ↔ ((t : ℕ) × Has front.now t × Has ends.now t) }
{
    'ends: for i in 0..ends.len() {
        let Some(sort) = ends.sort_at(i) else {
            unreachable!()
        };
        if front.has(sort) {
            return true;
        }
    }
    false
}
