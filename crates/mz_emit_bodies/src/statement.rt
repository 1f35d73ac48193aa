//! The bodies of whole statements.
ghost use Rattle.std.specs.Prelude.{ℕ, Bool, ◌≡◌, ◌<◌, ◌≤◌, ◌+◌, ◌*◌, ◌^◌, ◌++◌, [], IfOk, List, length};
ghost use Rattle.mz_logic_theory.specs.Sorts.{AreProvable};
ghost use Rattle.mz_logic_theory.specs.Tree.{listed, size, trees_size};
ghost use Rattle.mz_logic_theory.specs.declared.binder.Binder.{Binder as BinderOf};
ghost use Rattle.mz_machine_theory.specs.Premises.{bound_count};
ghost use Rattle.mz_machine_theory.specs.MachineState.{is_axiom, is_definition, is_theorem};
ghost use Rattle.mz_mmu_theory.specs.ProofView.{proof_view};
ghost use Rattle.mz_emit_theory.specs.SharedBodies.{IsSharedBody};
ghost use Rattle.mz_store.specs.Sharing.{AreIn, IsIn, tree_of, trees_of};
ghost use Rattle.mz_emit_theory.specs.Claims.{IsSound, proved};
ghost use Rattle.mz_emit_bodies.specs.Going.{IsAfter};
ghost use Rattle.mz_emit_bodies.specs.Stages.{HasDummiesBehind};
ghost use Rattle.mz_emit_theory.specs.Weights.{proof_weight};
ghost use Rattle.mz_emit_theory.specs.Uses.{uses, IsBodyUsing};
ghost use Rattle.mz_emit_theory.specs.BodyWriting.{definition_written, axiom_written, theorem_written};
ghost use Rattle.mz_emit_theory.specs.Endings.{spelled_body};

use crate::Shared;
use crate::body::{Before, Body};
use mz_cmd::Mem;
use mz_mmu_theory::Proof;
use mz_store::Id;
use std::alloc::Global;

/// The body of a definition: the commands that make its expression, which has this id.
///
/// Of the variables of `shared` the first `params` are the parameters, and the others the dummies.
///
/// # Errors
///
/// Where there is no memory.
pub fn definition_body(
    alloc: Global,
    before: Before<'_>,
    shared: Shared,
    params: u32,
    body: Id,
) -> Result<Vec<u8>, Mem>
    requires before { IsAfter before }
    requires behind { HasDummiesBehind before.env.now params shared.store shared.variables.items }
    requires few { bound_count shared.store.context ≤ 55 }
    requires inside { IsIn shared.store body.0 }
    requires room { params + 6 * size (tree_of shared.store body.0) < 2 ^ 32 }
    ensures body { IfOk result (λ b. (gaps : Bool) (ps ds : List BinderOf) → shared.store.context ≡ ps ++ ds → length ps ≡ params
        → IsSharedBody gaps before.entry.env.now is_definition ps ds (tree_of shared.store body.0) [] b.items) }
    ensures written { IfOk result (λ b. (ps ds : List BinderOf) → shared.store.context ≡ ps ++ ds → length ps ≡ params
        → b.items ≡ spelled_body (definition_written ps ds (tree_of shared.store body.0)).commands) }
    ensures short { IfOk result (λ b. length b.items ≤ 6 * size (tree_of shared.store body.0) + 1) }
{
    let mut written = Body::new(alloc, before, shared, params)?;
    written.put_expr(body)?;
    written.end()
}

/// The body of an axiom: the commands that assume its hypotheses and make its conclusion.
///
/// # Errors
///
/// Where there is no memory.
pub fn axiom_body(
    alloc: Global,
    before: Before<'_>,
    shared: Shared,
    params: u32,
    hyps: &[Id],
    conclusion: Id,
) -> Result<Vec<u8>, Mem>
    requires before { IsAfter before }
    requires behind { HasDummiesBehind before.env.now params shared.store shared.variables.items }
    requires few { bound_count shared.store.context ≤ 55 }
    requires inside { IsIn shared.store conclusion.0 }
    requires hyps { AreIn shared.store hyps.now }
    requires provable { AreProvable before.env.now shared.store.context (trees_of shared.store hyps.now) }
    requires room { params + 6 * (trees_size (trees_of shared.store hyps.now) + size (tree_of shared.store conclusion.0)) < 2 ^ 32 }
    ensures body { IfOk result (λ b. (gaps : Bool) (ps ds : List BinderOf) → shared.store.context ≡ ps ++ ds → length ps ≡ params
        → IsSharedBody gaps before.entry.env.now is_axiom ps ds (tree_of shared.store conclusion.0) (listed (trees_of shared.store hyps.now)) b.items) }
    ensures written { IfOk result (λ b. (ps ds : List BinderOf) → shared.store.context ≡ ps ++ ds → length ps ≡ params
        → b.items ≡ spelled_body (axiom_written ps ds (listed (trees_of shared.store hyps.now)) (tree_of shared.store conclusion.0)).commands) }
    ensures short { IfOk result (λ b. length b.items ≤ 6 * (trees_size (trees_of shared.store hyps.now) + size (tree_of shared.store conclusion.0)) + 1) }
{
    let mut written = Body::new(alloc, before, shared, params)?;
    written.put_axiom(hyps, conclusion)?;
    written.end()
}

/// The body of a theorem: the commands that assume its hypotheses and make the proof's claim from them. A gap is
/// written as Sorry.
///
/// # Errors
///
/// Where there is no memory.
pub fn theorem_body(
    alloc: Global,
    before: Before<'_>,
    shared: Shared,
    params: u32,
    hyps: &[Id],
    proof: &Proof,
) -> Result<Vec<u8>, Mem>
    requires before { IsAfter before }
    requires behind { HasDummiesBehind before.env.now params shared.store shared.variables.items }
    requires few { bound_count shared.store.context ≤ 55 }
    requires hyps { AreIn shared.store hyps.now }
    requires provable { AreProvable before.env.now shared.store.context (trees_of shared.store hyps.now) }
    requires sound { (gaps : Bool) × IsSound gaps before.env.now shared.store.context (listed (trees_of shared.store hyps.now)) [] (proof_view proof.now) }
    requires room { params + 6 * (trees_size (trees_of shared.store hyps.now) + proof_weight before.env.now (proof_view proof.now)) < 2 ^ 32 }
    ensures body { IfOk result (λ b. (gaps : Bool) → IsSound gaps before.entry.env.now shared.store.context (listed (trees_of shared.store hyps.now)) [] (proof_view proof.now)
        → (ps ds : List BinderOf) → shared.store.context ≡ ps ++ ds → length ps ≡ params
        → IsSharedBody gaps before.entry.env.now is_theorem ps ds (proved before.entry.env.now (listed (trees_of shared.store hyps.now)) [] (proof_view proof.now))
        (listed (trees_of shared.store hyps.now)) b.items) }
    ensures uses { IfOk result (λ b. (gaps : Bool) → IsSound gaps before.entry.env.now shared.store.context (listed (trees_of shared.store hyps.now)) [] (proof_view proof.now)
        → (ps ds : List BinderOf) → shared.store.context ≡ ps ++ ds → length ps ≡ params
        → IsBodyUsing gaps before.entry.env.now is_theorem ps ds (proved before.entry.env.now (listed (trees_of shared.store hyps.now)) [] (proof_view proof.now))
        (listed (trees_of shared.store hyps.now)) b.items (λ u. uses u [] (proof_view proof.now))) }
    ensures written { IfOk result (λ b. (ps ds : List BinderOf) → shared.store.context ≡ ps ++ ds → length ps ≡ params
        → b.items ≡ spelled_body (theorem_written before.entry.env.now ps ds (listed (trees_of shared.store hyps.now)) (proof_view proof.now)).commands) }
    ensures short { IfOk result (λ b. length b.items ≤ 6 * (trees_size (trees_of shared.store hyps.now) + proof_weight before.entry.env.now (proof_view proof.now)) + 1) }
{
    let mut written = Body::new(alloc, before, shared, params)?;
    written.put_theorem(hyps, proof)?;
    written.end()
}
