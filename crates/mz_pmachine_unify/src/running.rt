//! A stream run against operands, on a target.
ghost use Rattle.std.specs.Prelude.{ℕ, ◌≡◌, ◌≤◌, ◌<◌, ◌^◌, ◌+◌, ◌++◌, List, length, map};
ghost use Rattle.mz_logic_theory.specs.Words.{signatures_of};
ghost use Rattle.mz_logic_theory.specs.Signature.{Signature};
ghost use Rattle.mz_pmachine_unify.specs.Numbering.{IsIn, AreIn, IsOver};
ghost use Rattle.mz_pmachine_theory.specs.NodeIdentity.{portable, tree_of};
ghost use Rattle.mz_machine_theory.specs.UnifyMachine.{unify, unify_from, unify_steps, unify_steps_from};
ghost use Rattle.mz_unify.specs.Rows.{TellsAny};
ghost use Rattle.mz_unify.specs.Stored.{mode_of, OnDone, UnlessMem, IsRun, AreLeft};
ghost use Rattle.mz_pmachine_unify.specs.Stored.{exprs_at, items_at, AreItemsIn, matching_at};
ghost use Rattle.mz_pmachine_unify.specs.Rows.{state_at};

use crate::Nodes;
use crate::rows::{kept_disjoint, step};
use mz_cmd::{K, Steps, cmd_at};
use mz_logic_theory::Terms;
use mz_store::{Id, Item};
use mz_unify::{Command, Stop, Unified, UnifyMode, decoded};
use std::sync::ledger::Ledger;

/// Runs a unify stream, which is read in place, from its first byte to its END: it takes the target
/// apart against the operands, which are the heap at first.
///
/// All ids are those of the nodes, and `terms` has the meaning with which their expressions were made.
/// The stream has fewer than 2^32 bytes. The top of `hyps` is its end.
///
/// After `Done` the heap holds the operands, and then what was saved and what was met for dummies, in
/// order; `hyps` has lost the top items that were taken. After `Refused` and `Mem` both hold what is
/// left, and are of no use. A step is counted for each command that is read, up to the END or the one
/// that is refused; never more than the stream has bytes.
pub fn unify<T: Terms, L: Ledger>(
    terms: &T,
    stream: &[u8],
    mode: UnifyMode,
    heap: &mut Vec<Id>,
    target: Id,
    hyps: &mut Vec<Item>,
    nodes: &Nodes,
    steps: &mut Steps<L>,
) -> Unified
    requires stream { length stream.now < 2 ^ 32 }
    requires over { IsOver (signatures_of (T.all_terms terms.now)) nodes.now }
    requires heap { AreIn nodes.now heap.old.items }
    requires target { IsIn nodes.now target.0 }
    requires hyps { AreItemsIn nodes.now hyps.old.items }
    ensures run { IsRun (unify portable (signatures_of (T.all_terms terms.now)) nodes.now.context (matching_at nodes.now mode stream.now heap.old.items target hyps.old.items)) result (exprs_at nodes.now heap.new.items) (items_at nodes.now hyps.new.items) }
    ensures taken { OnDone result (λ taken. AreLeft hyps.old.items hyps.new.items taken) }
    ensures ids { OnDone result (λ _. AreIn nodes.now heap.new.items × AreItemsIn nodes.now hyps.new.items) }
    ensures steps { UnlessMem result (steps.new ≡ steps.old + unify_steps portable (signatures_of (T.all_terms terms.now)) nodes.now.context (matching_at nodes.now mode stream.now heap.old.items target hyps.old.items)) }
    ensures most { steps.new ≤ steps.old + length stream.now }
{
    let alloc = *heap.allocator();
    let mut saved = Vec::new(alloc);
    let mut targets = Vec::new(alloc);
    let apart = kept_disjoint(nodes, heap);
    let said = unify_in(
        terms,
        stream,
        mode,
        heap,
        apart,
        target,
        &mut saved,
        &mut targets,
        hyps,
        nodes,
        steps,
    );
    match heap.extend_from_slice(&saved) {
        Ok(()) => said,
        Err(_) => Unified::Mem,
    }
}

/// Runs a unify stream as `unify` does, with operands that are only borrowed. The word names the variables
/// of the operands. What is saved and met for dummies, and the targets, stand in lists of the
/// caller's, whatever these held.
///
/// After `Done` the heap is the operands, and then what was saved.
pub fn unify_in<T: Terms, L: Ledger>(
    terms: &T,
    stream: &[u8],
    mode: UnifyMode,
    operands: &[Id],
    apart: u64,
    target: Id,
    saved: &mut Vec<Id>,
    targets: &mut Vec<Id>,
    hyps: &mut Vec<Item>,
    nodes: &Nodes,
    steps: &mut Steps<L>,
) -> Unified
    requires stream { length stream.now < 2 ^ 32 }
    requires over { IsOver (signatures_of (T.all_terms terms.now)) nodes.now }
    requires operands { AreIn nodes.now operands.now }
    requires apart { TellsAny nodes.now.context apart (map tree_of (exprs_at nodes.now operands.now)) }
    requires target { IsIn nodes.now target.0 }
    requires hyps { AreItemsIn nodes.now hyps.old.items }
    ensures run { IsRun (unify portable (signatures_of (T.all_terms terms.now)) nodes.now.context (matching_at nodes.now mode stream.now operands.now target hyps.old.items)) result (exprs_at nodes.now (operands.now ++ saved.new.items)) (items_at nodes.now hyps.new.items) }
    ensures taken { OnDone result (λ taken. AreLeft hyps.old.items hyps.new.items taken) }
    ensures ids { OnDone result (λ _. AreIn nodes.now (operands.now ++ saved.new.items) × AreItemsIn nodes.now hyps.new.items) }
    ensures steps { UnlessMem result (steps.new ≡ steps.old + unify_steps portable (signatures_of (T.all_terms terms.now)) nodes.now.context (matching_at nodes.now mode stream.now operands.now target hyps.old.items)) }
    ensures most { steps.new ≤ steps.old + length stream.now }
{
    saved.clear();
    targets.clear();
    let Ok(()) = targets.push(target) else {
        return Unified::Mem;
    };
    run(
        stream, mode, operands, apart, saved, targets, hyps, nodes, steps,
    )
}

/// Runs a stream on these targets, the top one last, with a heap that holds the operands and what was
/// saved. The word names the variables of the operands.
fn run<L: Ledger>(
    stream: &[u8],
    mode: UnifyMode,
    operands: &[Id],
    mut apart: u64,
    saved: &mut Vec<Id>,
    targets: &mut Vec<Id>,
    hyps: &mut Vec<Item>,
    nodes: &Nodes,
    steps: &mut Steps<L>,
) -> Unified
    requires stream { length stream.now < 2 ^ 32 }
    requires heap { AreIn nodes.now (operands.now ++ saved.old.items) }
    requires apart { TellsAny nodes.now.context apart (map tree_of (exprs_at nodes.now operands.now)) }
    requires targets { AreIn nodes.now targets.old.items }
    requires hyps { AreItemsIn nodes.now hyps.old.items }
    ensures run { (sigs : List Signature) → IsOver sigs nodes.now → IsRun (unify_from portable sigs nodes.now.context (mode_of mode) (length stream.now) 0 stream.now (state_at nodes.now (operands.now ++ saved.old.items) (exprs_at nodes.now operands.now) targets.old.items hyps.old.items)) result (exprs_at nodes.now (operands.now ++ saved.new.items)) (items_at nodes.now hyps.new.items) }
    ensures taken { OnDone result (λ taken. AreLeft hyps.old.items hyps.new.items taken) }
    ensures ids { OnDone result (λ _. AreIn nodes.now (operands.now ++ saved.new.items) × AreItemsIn nodes.now hyps.new.items) }
    ensures steps { (sigs : List Signature) → IsOver sigs nodes.now → UnlessMem result (steps.new ≡ steps.old + unify_steps_from portable sigs nodes.now.context (mode_of mode) (length stream.now) stream.now (state_at nodes.now (operands.now ++ saved.old.items) (exprs_at nodes.now operands.now) targets.old.items hyps.old.items)) }
    ensures most { steps.new ≤ steps.old + length stream.now }
{
    let held = hyps.len();
    let mut at = 0;
    'commands: loop {
        let Ok(cmd) = cmd_at(stream, at) else {
            return Unified::stopped(at, Stop::Rule(K::Command));
        };
        steps.tick();
        let Some(next) = decoded(mode, cmd) else {
            return Unified::stopped(at, Stop::Rule(K::Command));
        };
        if let Err(stop) = step(
            nodes, mode, next, operands, saved, &mut apart, targets, hyps,
        ) {
            return Unified::stopped(at, stop);
        }
        if let Command::End = next {
            let taken = (held - hyps.len()) as u32;
            return Unified::Done { taken };
        }
        at += u32::from(cmd.len);
    }
}
