//! What a proof behind lets proves: the proof without lets that proves the same.
ghost use Rattle.std.specs.Prelude.{◌≡◌, ◌<◌, ◌≤◌, ⊤, IfOk, List, MatchOption, length, slice_get};
ghost use Rattle.mz_logic_theory.specs.Declaration.{Declaration};
ghost use Rattle.mz_logic_theory.specs.Tree.{Trees, listed, operand};
ghost use Rattle.mz_mmu_theory.specs.ProofView.{proof_view};
ghost use Rattle.mz_mmu_theory.specs.Sides.{proved};
ghost use Rattle.mz_type_rules.specs.BehindLets.{visible_behind, proved_behind, steps_of, steps_behind};

use mz_mmu_theory::Proof;
use std::alloc::{AllocError, Global};

/// The first part of a let whose second is looked at.
#[derive(Clone, Copy)]
struct First<'p> {
    proof: &'p Proof,
}

/// The proof without lets that proves what the proof does, where so many lets are visible.
///
/// # Errors
///
/// Where there is no memory.
pub(crate) fn resolved<'p>(
    alloc: Global,
    visible: usize,
    proof: &'p Proof,
) -> Result<&'p Proof, AllocError>
    ensures { IfOk result (λ p. (env : List Declaration) (hyps lets : Trees) → length (listed lets) ≡ visible
        → proved env hyps lets (proof_view p.now) ≡ proved env hyps lets (proof_view proof.now)) }
{
    let mut firsts: Vec<First> = Vec::new(alloc);
    let mut left = proof;
    'lets: loop {
        match step(visible, &mut firsts, left)? {
            None => return Ok(left),
            Some(next) => left = next,
        }
    }
}

/// The proof that is to be looked at in place of this one, which stands behind lets with these first parts.
fn step<'p>(
    visible: usize,
    firsts: &mut Vec<First<'p>>,
    left: &'p Proof,
) -> Result<Option<&'p Proof>, AllocError>
    ensures same { IfOk result (λ next. (env : List Declaration) (hyps lets : Trees) → length (listed lets) ≡ visible → MatchOption next
        (proved env hyps lets (proof_view left.now) ≡ proved_behind env hyps lets firsts.old.items (proof_view left.now))
        (λ p. proved_behind env hyps lets firsts.new.items (proof_view p.now) ≡ proved_behind env hyps lets firsts.old.items (proof_view left.now))) }
    ensures less { IfOk result (λ next. MatchOption next ⊤ (λ p. steps_behind firsts.new.items (proof_view p.now) < steps_behind firsts.old.items (proof_view left.now))) }
{
    match left {
        Proof::Let(first, second) => {
            firsts.push(First { proof: first.get() })?;
            Ok(Some(second.get()))
        }
        Proof::Name(i) => Ok(first_named(visible, firsts, *i as usize)),
        _ => Ok(None),
    }
}

/// The first part of the let at the place, if it isn't one of those that are visible.
fn first_named<'p>(visible: usize, firsts: &mut Vec<First<'p>>, place: usize) -> Option<&'p Proof>
    ensures same { (env : List Declaration) (hyps lets : Trees) → length (listed lets) ≡ visible → MatchOption result
        (operand lets place ≡ operand (visible_behind env hyps lets firsts.old.items) place)
        (λ p. proved_behind env hyps lets firsts.new.items (proof_view p.now) ≡ operand (visible_behind env hyps lets firsts.old.items) place) }
    ensures less { MatchOption result ⊤ (λ p. steps_behind firsts.new.items (proof_view p.now) ≤ steps_of firsts.old.items) }
{
    if place < visible {
        return None;
    }
    let own = place - visible;
    match first_at(firsts, own) {
        None => None,
        Some(first) => {
            firsts.truncate(own);
            Some(first.proof)
        }
    }
}

/// The first part at the place.
fn first_at<'p>(firsts: &[First<'p>], place: usize) -> Option<First<'p>>
    ensures { result ≡ slice_get firsts.now place }
{
    firsts.get(place).copied()
}
