//! The unify streams of statements.
ghost use Rattle.std.specs.Prelude.{ℕ, ◌≡◌, ◌<◌, ◌+◌, ◌^◌, ◌++◌, IfOk, List, length};
ghost use Rattle.mz_logic_theory.specs.Signature.{Signature};
ghost use Rattle.mz_logic_theory.specs.Tree.{size, trees_size};
ghost use Rattle.mz_logic_theory.specs.declared.binder.Binder.{Binder};
ghost use Rattle.mz_store.specs.Sharing.{AreIn, IsIn, tree_of, trees_of};
ghost use Rattle.mz_emit_theory.specs.StreamWriting.{assertion_written, definition_written, stream_of};
ghost use Rattle.mz_emit_theory.specs.InReach.{AllInReach, InReach};
ghost use Rattle.mz_emit_bodies.specs.Variables.{IsShared};
ghost use Rattle.mz_emit.specs.Params.{HasParams};

use crate::stream::Stream;
use mz_cmd::Mem;
use mz_emit_bodies::Shared;
use mz_store::Id;
use std::alloc::Global;

/// The unify stream of an axiom or theorem: its conclusion, then its hypotheses, the last one first (mm0.md and
/// the .mmb format, on unify streams).
///
/// The first `params` variables of the context are the parameters, the others dummies, none of which stands in
/// the conclusion or a hypothesis.
///
/// # Errors
///
/// Where there is no memory.
pub fn assertion_stream(
    alloc: Global,
    shared: &Shared,
    params: u32,
    conclusion: Id,
    hyps: &[Id],
) -> Result<Vec<u8>, Mem>
    requires shared { (sigs : List Signature) × IsShared sigs shared.now.store shared.now.variables.items }
    requires params { HasParams params shared.now.store.context }
    requires conclusion { IsIn shared.now.store conclusion.0 }
    requires hyps { AreIn shared.now.store hyps.now }
    requires conclusion_reach { InReach params (tree_of shared.now.store conclusion.0) }
    requires hyps_reach { AllInReach params (trees_of shared.now.store hyps.now) }
    requires room { params + (size (tree_of shared.now.store conclusion.0) + trees_size (trees_of shared.now.store hyps.now)) < 2 ^ 32 }
    ensures { IfOk result (λ bytes. (ps ds : List Binder) → shared.now.store.context ≡ ps ++ ds → length ps ≡ params
        → bytes.items ≡ stream_of (assertion_written ps (trees_of shared.now.store hyps.now) (tree_of shared.now.store conclusion.0)).commands) }
{
    let store = &shared.store;
    store.once();
    let mut stream = Stream::new(alloc, store, params)?;
    stream.spell(store, conclusion)?;
    stream.spell_hyps(store, hyps)?;
    let bytes = stream.end()?;
    Ok(bytes)
}

/// The unify stream of a definition: its body (mm0.md and the .mmb format, on unify streams).
///
/// The first `params` variables of the context are the parameters, the others the definition's dummies.
///
/// # Errors
///
/// Where there is no memory.
pub fn definition_stream(
    alloc: Global,
    shared: &Shared,
    params: u32,
    body: Id,
) -> Result<Vec<u8>, Mem>
    requires shared { (sigs : List Signature) × IsShared sigs shared.now.store shared.now.variables.items }
    requires params { HasParams params shared.now.store.context }
    requires body { IsIn shared.now.store body.0 }
    requires room { params + size (tree_of shared.now.store body.0) < 2 ^ 32 }
    ensures { IfOk result (λ bytes. (ps ds : List Binder) → shared.now.store.context ≡ ps ++ ds → length ps ≡ params
        → bytes.items ≡ stream_of (definition_written ps ds (tree_of shared.now.store body.0)).commands) }
{
    let store = &shared.store;
    store.once();
    let mut stream = Stream::new(alloc, store, params)?;
    stream.spell(store, body)?;
    let bytes = stream.end()?;
    Ok(bytes)
}
