//! A stream run against operands, on a target.
ghost use Rattle.std.specs.Prelude.{ℕ, ◌≡◌, ◌≤◌, ◌<◌, ◌^◌, ◌+◌, ◌++◌, List, length};
ghost use Rattle.mz_logic_theory.specs.Words.{signatures_of};
ghost use Rattle.mz_logic_theory.specs.Signature.{Signature};
ghost use Rattle.mz_logic_theory.specs.declared.binder.Binder.{Binder};
ghost use Rattle.mz_store.specs.Sharing.{IsIn, AreIn, IsOver};
ghost use Rattle.mz_machine_theory.specs.Profile.{strict};
ghost use Rattle.mz_machine_theory.specs.UnifyMachine.{unify, unify_from, unify_steps, unify_steps_from};
ghost use Rattle.mz_unify.specs.Stored.{mode_of, trees_at, items_at, AreItemsIn, TellsAllOf, matching_at, OnDone, UnlessMem, IsRun, AreLeft};
ghost use Rattle.mz_unify.specs.Patterns.{AreOperandsFor, IsExact};
ghost use Rattle.mz_unify.specs.Rows.{TellsFor, all_targets, state_at};

use crate::command::{Command, next_at};
use crate::rows::{kept_disjoint, step};
use crate::stop::Stop;
use crate::unified::{Unified, UnifyMode};
use mz_cmd::{K, Steps, cmd_at};
use mz_logic_theory::Terms;
use mz_store::{Id, Item, Store};
use std::sync::ledger::Ledger;

/// Runs a unify stream, which is read in place, from its first byte to its END: it takes the target
/// apart against the operands, which are the heap at first.
///
/// All ids are the store's, and `terms` has the meaning with which its expressions were made. The
/// store names all variables, or the operands are variables themselves. The stream has fewer than
/// 2^32 bytes. The top of `hyps` is its end.
///
/// After `Done` the heap holds the operands, and then what was saved and what was met for dummies, in
/// order; `hyps` has lost the top items that were taken. After `Refused` and `Mem` both hold what is
/// left, and are of no use. A step is counted for each command that is read, up to the END or the one
/// that is refused; never more than the stream has bytes.
pub fn unify<T: Terms, L: Ledger>(
    terms: &T,
    stream: &[u8],
    mode: UnifyMode,
    heap: &mut Vec<Id>,
    target: Id,
    hyps: &mut Vec<Item>,
    store: &Store,
    steps: &mut Steps<L>,
) -> Unified
    requires stream { length stream.now < 2 ^ 32 }
    requires over { IsOver (signatures_of (T.all_terms terms.now)) store.now }
    requires heap { AreIn store.now heap.old.items }
    requires target { IsIn store.now target.0 }
    requires hyps { AreItemsIn store.now hyps.old.items }
    requires told { TellsAllOf store.now heap.old.items }
    ensures run { IsRun (unify strict (signatures_of (T.all_terms terms.now)) store.now.context (matching_at store.now mode stream.now heap.old.items target hyps.old.items)) result (trees_at store.now heap.new.items) (items_at store.now hyps.new.items) }
    ensures exact { (params : List Binder) → AreOperandsFor mode params (matching_at store.now mode stream.now heap.old.items target hyps.old.items) → IsExact mode (signatures_of (T.all_terms terms.now)) store.now.context params (matching_at store.now mode stream.now heap.old.items target hyps.old.items) result (trees_at store.now heap.new.items) (items_at store.now hyps.new.items) }
    ensures taken { OnDone result (λ taken. AreLeft hyps.old.items hyps.new.items taken) }
    ensures ids { OnDone result (λ _. AreIn store.now heap.new.items × AreItemsIn store.now hyps.new.items) }
    ensures steps { UnlessMem result (steps.new ≡ steps.old + unify_steps strict (signatures_of (T.all_terms terms.now)) store.now.context (matching_at store.now mode stream.now heap.old.items target hyps.old.items)) }
    ensures most { steps.new ≤ steps.old + length stream.now }
{
    let alloc = *heap.allocator();
    let mut saved = Vec::new(alloc);
    let mut targets = Vec::new(alloc);
    let apart = kept_disjoint(store, mode, heap);
    let said = unify_in(
        terms,
        stream,
        mode,
        heap,
        apart,
        target,
        &mut saved,
        &mut targets,
        hyps,
        store,
        steps,
    );
    match heap.extend_from_slice(&saved) {
        Ok(()) => said,
        Err(_) => Unified::Mem,
    }
}

/// Runs a unify stream as `unify` does, with operands that are only borrowed. The word names the variables
/// of the operands, where the stream may have dummies. What is saved and met for dummies, and the
/// targets, stand in lists of the caller's, whatever these held.
///
/// After `Done` the heap is the operands, and then what was saved.
pub fn unify_in<T: Terms, L: Ledger>(
    terms: &T,
    stream: &[u8],
    mode: UnifyMode,
    operands: &[Id],
    apart: u64,
    target: Id,
    saved: &mut Vec<Id>,
    targets: &mut Vec<Id>,
    hyps: &mut Vec<Item>,
    store: &Store,
    steps: &mut Steps<L>,
) -> Unified
    requires stream { length stream.now < 2 ^ 32 }
    requires over { IsOver (signatures_of (T.all_terms terms.now)) store.now }
    requires operands { AreIn store.now operands.now }
    requires apart { TellsFor (mode_of mode) store.now.context apart (trees_at store.now operands.now) }
    requires target { IsIn store.now target.0 }
    requires hyps { AreItemsIn store.now hyps.old.items }
    ensures run { IsRun (unify strict (signatures_of (T.all_terms terms.now)) store.now.context (matching_at store.now mode stream.now operands.now target hyps.old.items)) result (trees_at store.now (operands.now ++ saved.new.items)) (items_at store.now hyps.new.items) }
    ensures exact { (params : List Binder) → AreOperandsFor mode params (matching_at store.now mode stream.now operands.now target hyps.old.items) → IsExact mode (signatures_of (T.all_terms terms.now)) store.now.context params (matching_at store.now mode stream.now operands.now target hyps.old.items) result (trees_at store.now (operands.now ++ saved.new.items)) (items_at store.now hyps.new.items) }
    ensures taken { OnDone result (λ taken. AreLeft hyps.old.items hyps.new.items taken) }
    ensures ids { OnDone result (λ _. AreIn store.now (operands.now ++ saved.new.items) × AreItemsIn store.now hyps.new.items) }
    ensures steps { UnlessMem result (steps.new ≡ steps.old + unify_steps strict (signatures_of (T.all_terms terms.now)) store.now.context (matching_at store.now mode stream.now operands.now target hyps.old.items)) }
    ensures most { steps.new ≤ steps.old + length stream.now }
{
    saved.clear();
    targets.clear();
    let front = [target];
    run(
        stream, mode, operands, apart, saved, &front, targets, hyps, store, steps,
    )
}

/// Runs a stream on these targets, those of the slice first, with a heap that holds the operands and what
/// was saved. The word names the variables of the operands. The slice is what is left of the operands of
/// the application that was opened last.
#[inline(always)]
fn run<'s, L: Ledger>(
    stream: &[u8],
    mode: UnifyMode,
    operands: &[Id],
    mut apart: u64,
    saved: &mut Vec<Id>,
    mut front: &'s [Id],
    targets: &mut Vec<Id>,
    hyps: &mut Vec<Item>,
    store: &'s Store,
    steps: &mut Steps<L>,
) -> Unified
    requires stream { length stream.now < 2 ^ 32 }
    requires heap { AreIn store.now (operands.now ++ saved.old.items) }
    requires apart { TellsFor (mode_of mode) store.now.context apart (trees_at store.now operands.now) }
    requires targets { AreIn store.now (all_targets front.now targets.old.items) }
    requires hyps { AreItemsIn store.now hyps.old.items }
    ensures run { (sigs : List Signature) → IsOver sigs store.now → IsRun (unify_from strict sigs store.now.context (mode_of mode) (length stream.now) 0 stream.now (state_at store.now (operands.now ++ saved.old.items) (trees_at store.now operands.now) (all_targets front.now targets.old.items) hyps.old.items)) result (trees_at store.now (operands.now ++ saved.new.items)) (items_at store.now hyps.new.items) }
    ensures taken { OnDone result (λ taken. AreLeft hyps.old.items hyps.new.items taken) }
    ensures ids { OnDone result (λ _. AreIn store.now (operands.now ++ saved.new.items) × AreItemsIn store.now hyps.new.items) }
    ensures steps { (sigs : List Signature) → IsOver sigs store.now → UnlessMem result (steps.new ≡ steps.old + unify_steps_from strict sigs store.now.context (mode_of mode) (length stream.now) stream.now (state_at store.now (operands.now ++ saved.old.items) (trees_at store.now operands.now) (all_targets front.now targets.old.items) hyps.old.items)) }
    ensures most { steps.new ≤ steps.old + length stream.now }
{
    let held = hyps.len();
    let mut at = 0;
    'commands: loop {
        let Some((next, len)) = next_at(mode, stream, at) else {
            let Ok(other) = cmd_at(stream, at) else {
                return Unified::stopped(at, Stop::Rule(K::Command));
            };
            steps.tick();
            return Unified::stopped(at, Stop::Rule(K::Command));
        };
        steps.tick();
        front = match step(
            store, mode, next, operands, saved, &mut apart, front, targets, hyps,
        ) {
            Ok(rest) => rest,
            Err(stop) => return Unified::stopped(at, stop),
        };
        if let Command::End = next {
            let taken = (held - hyps.len()) as u32;
            return Unified::Done { taken };
        }
        at += len;
    }
}
