//! What each command does: its premises in order, and what it leaves.
pub(crate) mod conversions;
pub(crate) mod gaps;
pub(crate) mod heap;
pub(crate) mod terms;

ghost use Rattle.std.specs.Prelude.{ℕ, ◌≡◌, ◌≤◌, ◌<◌, ◌+◌, ◌++◌, ◌∷◌, ◌^◌, ◌↔◌, ◌&&◌, [], ⊤, List, None, Some, Ok, Err, OnOk, IsTrue, MatchResult, length, vec_capacity};
ghost use Rattle.mz_base.specs.Gaps.{gaps_of};
ghost use Rattle.mz_store.specs.declared.item.Id.{Id};
ghost use Rattle.mz_store.specs.declared.item.Item.TheVariants.{Proof};
ghost use Rattle.mz_store.specs.declared.item.DepsMode.TheVariants.{All};
ghost use Rattle.mz_machine_theory.specs.Profile.{plain, strict};
ghost use Rattle.mz_machine_theory.specs.ProofMachine.{proof_step};
ghost use Rattle.mz_machine_theory.specs.Bodies.{body_command, row_steps};
ghost use Rattle.mz_machine_env.specs.Before.{tables_of, signatures_of};
ghost use Rattle.mz_machine_env.specs.CommandCodes.{code_of_making, code_of_converting};
ghost use Rattle.mz_machine_env.specs.OwnRow.{kind_of, mode_for};
ghost use Rattle.mz_machine_env.specs.declared.command.Converting.TheVariants.{Cong};
ghost use Rattle.mz_machine.specs.Steps.{is_sorry, row_by, steps_by, takes_none, TakesNone};
ghost use Rattle.mz_machine.specs.OverStore.{state_at, code_of, code_of_keeping, cites};
ghost use Rattle.mz_machine.specs.Executing.{AreHyps, Counts, Executes, IsReady};
ghost use Rattle.mz_unify.specs.Rows.{StopsBy};
ghost use Rattle.mz_unify.specs.declared.stop.Stop.TheVariants.{Rule};

use crate::command::{Command, Keeping, decoded};
use conversions::{cong, conv, conv_cut, conv_save, refl, symm, unfold};
use gaps::gap;
use heap::{conv_refer, dummy, hyp, refer, save};
use mz_base::Mode;
use mz_cmd::{Cmd, K, Steps};
use mz_machine_env::{BodyKind, CommandBuffers, Converting, Environment, Heap, Making};
use mz_store::{Id, Item, Store};
use mz_unify::{Stop, push};
use std::sync::ledger::Ledger;
use terms::{build, cite};

/// Executes a command that makes an expression or a proof.
#[inline(always)]
fn make<L: Ledger>(
    env: &Environment,
    command: Making,
    value: u32,
    store: &mut Store,
    heap: &mut Heap,
    stack: &mut Vec<Item>,
    spare: &mut CommandBuffers,
    steps: &mut Steps<L>,
) -> Result<(), Stop>
    requires ready { IsReady (signatures_of env.now) store.old heap.old.items stack.old.items }
    requires mode { IsTrue (cites command) → store.old.mode ≡ All }
    ensures done { (hyps : List Id) → AreHyps store.old hyps → Executes (signatures_of env.now) (λ at. proof_step strict (tables_of env.now) at (code_of_making command) value (state_at store.old heap.old.items stack.old.items hyps)) ⊥ store.old store.new heap.new.items stack.old.items stack.new.items hyps (vec_capacity stack.old) (vec_capacity stack.new) (λ _. None) result }
    ensures steps { (hyps : List Id) → Counts result steps.old steps.new (row_steps strict (tables_of env.now) (code_of_making command) value (state_at store.old heap.old.items stack.old.items hyps)) (length env.now.file) }
    ensures nodes { length store.new.entries ≤ length store.old.entries + 1 }
{
    match command {
        Making::Term => match build(env, value, store, stack, &mut spare.operands) {
            Ok(made) => push(stack, Item::Expr(made)),
            Err(stop) => Err(stop),
        },
        Making::TermSave => match build(env, value, store, stack, &mut spare.operands) {
            Ok(made) => push_both(heap, stack, Item::Expr(made)),
            Err(stop) => Err(stop),
        },
        Making::Thm => match cite(env, value, store, stack, spare, steps) {
            Ok(proved) => push(stack, Item::Proof(proved)),
            Err(stop) => Err(stop),
        },
        Making::ThmSave => match cite(env, value, store, stack, spare, steps) {
            Ok(proved) => push_both(heap, stack, Item::Proof(proved)),
            Err(stop) => Err(stop),
        },
    }
}

/// Puts an item in the heap.
#[inline(always)]
fn put(heap: &mut Heap, item: Item) -> Result<(), Stop>
    ensures ok { OnOk result (heap.new.items ≡ heap.old.items ++ item ∷ []) }
    ensures err { MatchResult result (λ _. ⊤) (λ stop. StopsBy stop (λ _. ⊥)) }
{
    match heap.push(item) {
        Ok(()) => Ok(()),
        Err(_) => Err(Stop::Mem),
    }
}

/// Puts an item on both lists.
#[inline(always)]
fn push_both(heap: &mut Heap, stack: &mut Vec<Item>, item: Item) -> Result<(), Stop>
    ensures { MatchResult result (λ _. (heap.new.items ≡ heap.old.items ++ item ∷ []) × (stack.new.items ≡ stack.old.items ++ item ∷ [])) (λ stop. StopsBy stop (λ _. ⊥)) }
{
    match put(heap, item) {
        Ok(()) => push(stack, item),
        Err(stop) => Err(stop),
    }
}

/// Executes a command over the heap.
#[inline(always)]
pub(crate) fn keep(
    env: &Environment,
    command: Keeping,
    value: u32,
    store: &mut Store,
    heap: &mut Heap,
    stack: &mut Vec<Item>,
    hyps: &mut Vec<Id>,
) -> Result<(), Stop>
    requires ready { IsReady (signatures_of env.now) store.old heap.old.items stack.old.items }
    requires hyps { AreHyps store.old hyps.old.items }
    ensures done { Executes (signatures_of env.now) (λ at. proof_step strict (tables_of env.now) at (code_of_keeping command) value (state_at store.old heap.old.items stack.old.items hyps.old.items)) (IsTrue (takes_none (code_of_keeping command) value (state_at store.old heap.old.items stack.old.items hyps.old.items))) store.old store.new heap.new.items stack.old.items stack.new.items hyps.new.items (vec_capacity stack.old) (vec_capacity stack.new) (λ _. None) result }
    ensures nodes { length store.new.entries ≤ length store.old.entries + 1 }
{
    match command {
        Keeping::Ref => refer(store, value, heap.as_slice(), stack),
        Keeping::ConvRef => by_rule(conv_refer(store, value, heap.as_slice(), stack)),
        Keeping::Dummy => match dummy(env, value, store) {
            Ok(made) => push_both(heap, stack, Item::Expr(made)),
            Err(stop) => Err(stop),
        },
        Keeping::Hyp => match hyp(env, store, stack) {
            Ok(claim) => take_hyp(claim, heap, hyps),
            Err(rule) => Err(Stop::Rule(rule)),
        },
        Keeping::Save => match save(store, stack) {
            Ok(item) => put(heap, item),
            Err(rule) => Err(Stop::Rule(rule)),
        },
    }
}

/// Keeps a hypothesis, and a proof of it in the heap. There is no place for 2^32 hypotheses.
///
/// # Errors
///
/// Where there is no memory or no place.
pub fn assume(claim: Id, heap: &mut Vec<Item>, hyps: &mut Vec<Id>) -> Result<(), Stop>
    requires few { length hyps.old.items < 2 ^ 32 }
    ensures heap { OnOk result (heap.new.items ≡ heap.old.items ++ Proof claim ∷ []) }
    ensures hyps { OnOk result (hyps.new.items ≡ hyps.old.items ++ claim ∷ []) }
    ensures few { OnOk result (length hyps.new.items < 2 ^ 32) }
    ensures err { MatchResult result (λ _. ⊤) (λ stop. StopsBy stop (λ _. ⊥)) }
{
    if hyps.len() >= u32::MAX as usize {
        return Err(Stop::Mem);
    }
    push(heap, Item::Proof(claim))?;
    push(hyps, claim)?;
    Ok(())
}

/// The same in the heap of a body over a store.
fn take_hyp(claim: Id, heap: &mut Heap, hyps: &mut Vec<Id>) -> Result<(), Stop>
    requires few { length hyps.old.items < 2 ^ 32 }
    ensures heap { OnOk result (heap.new.items ≡ heap.old.items ++ Proof claim ∷ []) }
    ensures hyps { OnOk result (hyps.new.items ≡ hyps.old.items ++ claim ∷ []) }
    ensures few { OnOk result (length hyps.new.items < 2 ^ 32) }
    ensures err { MatchResult result (λ _. ⊤) (λ stop. StopsBy stop (λ _. ⊥)) }
{
    if hyps.len() >= u32::MAX as usize {
        return Err(Stop::Mem);
    }
    put(heap, Item::Proof(claim))?;
    push(hyps, claim)?;
    Ok(())
}

/// The same answer of a command that takes no memory.
pub fn by_rule(answer: Result<(), K>) -> Result<(), Stop>
    ensures { MatchResult answer (λ done. result ≡ Ok done) (λ rule. result ≡ Err (Rule rule)) }
{
    match answer {
        Ok(()) => Ok(()),
        Err(rule) => Err(Stop::Rule(rule)),
    }
}

/// Executes a command on conversions other than Cong. A gap is refused.
fn convert<L: Ledger>(
    env: &Environment,
    command: Converting,
    store: &Store,
    heap: &mut Heap,
    stack: &mut Vec<Item>,
    spare: &mut CommandBuffers,
    steps: &mut Steps<L>,
) -> Result<(), Stop>
    requires ready { IsReady (signatures_of env.now) store.now heap.old.items stack.old.items }
    requires mode { store.now.mode ≡ All }
    requires other { command ≡ Cong → ⊥ }
    ensures done { (value : ℕ) (hyps : List Id) → AreHyps store.now hyps → Executes (signatures_of env.now) (λ at. proof_step strict (tables_of env.now) at (code_of_converting command) value (state_at store.now heap.old.items stack.old.items hyps)) (IsTrue (takes_none (code_of_converting command) value (state_at store.now heap.old.items stack.old.items hyps))) store.now store.now heap.new.items stack.old.items stack.new.items hyps (vec_capacity stack.old) (vec_capacity stack.new) (λ _. None) result }
    ensures steps { (value : ℕ) (hyps : List Id) → Counts result steps.old steps.new (row_steps strict (tables_of env.now) (code_of_converting command) value (state_at store.now heap.old.items stack.old.items hyps)) (length env.now.file) }
{
    match command {
        Converting::Conv => by_rule(conv(store, stack)),
        Converting::Refl => by_rule(refl(store, stack)),
        Converting::Symm => by_rule(symm(store, stack)),
        Converting::Cong => unreachable!(),
        Converting::Unfold => unfold(env, store, stack, spare, steps),
        Converting::ConvCut => conv_cut(store, stack),
        Converting::ConvSave => match conv_save(store, stack) {
            Ok(item) => put(heap, item),
            Err(rule) => Err(Stop::Rule(rule)),
        },
        Converting::Sorry => Err(Stop::Rule(K::Sorry)),
    }
}

/// Whether the command opens an equation.
#[inline(always)]
fn is_cong(command: Converting) -> bool
    ensures { IsTrue result ↔ (command ≡ Cong) }
{
    matches!(command, Converting::Cong)
}

/// The same answer of a command that opens no equation.
#[inline(always)]
pub(crate) fn opens_none(answer: Result<(), Stop>) -> Result<Option<(Id, Id)>, Stop>
    ensures { MatchResult answer (λ _. result ≡ Ok None) (λ stop. result ≡ Err stop) }
{
    match answer {
        Ok(()) => Ok(None),
        Err(stop) => Err(stop),
    }
}

/// The same answer of Cong, which takes no memory and opens this equation.
#[inline(always)]
fn opens(answer: Result<(Id, Id), K>) -> Result<Option<(Id, Id)>, Stop>
    ensures { MatchResult answer (λ sides. result ≡ Ok (Some sides)) (λ rule. result ≡ Err (Rule rule)) }
{
    match answer {
        Ok(sides) => Ok(Some(sides)),
        Err(rule) => Err(Stop::Rule(rule)),
    }
}

/// Executes a command other than END, if it stands in bodies of the kind, and counts its steps. A
/// draft's gap is let through. What it answers is the equation that the command opens, if it does: the
/// obligations between the operands are still to be put on the stack.
#[inline(always)]
pub(crate) fn obey<L: Ledger>(
    env: &Environment,
    mode: Mode,
    kind: BodyKind,
    cmd: Cmd,
    store: &mut Store,
    heap: &mut Heap,
    stack: &mut Vec<Item>,
    hyps: &mut Vec<Id>,
    spare: &mut CommandBuffers,
    steps: &mut Steps<L>,
) -> Result<Option<(Id, Id)>, Stop>
    requires code { cmd.code ≡ 0 → ⊥ }
    requires ready { IsReady (signatures_of env.now) store.old heap.old.items stack.old.items }
    requires told { store.old.mode ≡ mode_for (kind_of kind) }
    requires hyps { AreHyps store.old hyps.old.items }
    ensures done { Executes (signatures_of env.now) (λ at. row_by (gaps_of mode) (tables_of env.now) at (state_at store.old heap.old.items stack.old.items hyps.old.items) (body_command (plain (gaps_of mode)) (kind_of kind) cmd.code cmd.value)) (TakesNone (state_at store.old heap.old.items stack.old.items hyps.old.items) (body_command (plain (gaps_of mode)) (kind_of kind) cmd.code cmd.value)) store.old store.new heap.new.items stack.old.items stack.new.items hyps.new.items (vec_capacity stack.old) (vec_capacity stack.new) (λ opened. opened) result }
    ensures steps { Counts result steps.old steps.new (steps_by (gaps_of mode) (tables_of env.now) (state_at store.old heap.old.items stack.old.items hyps.old.items) (body_command (plain (gaps_of mode)) (kind_of kind) cmd.code cmd.value)) (1 + length env.now.file) }
    ensures nodes { length store.new.entries ≤ length store.old.entries + 1 }
{
    steps.tick();
    let Some(command) = decoded(kind, cmd.code) else {
        return Err(Stop::Rule(K::Command));
    };
    if leaves_gap(mode, command) {
        return opens_none(by_rule(gap(env, store, stack)));
    }
    let value = cmd.value;
    match command {
        Command::Makes(making) => opens_none(make(
            env, making, value, store, heap, stack, spare, steps,
        )),
        Command::Keeps(keeping) => {
            opens_none(keep(env, keeping, value, store, heap, stack, hyps))
        }
        Command::Converts(converting) => {
            if is_cong(converting) {
                return opens(cong(store, stack));
            }
            opens_none(convert(env, converting, store, heap, stack, spare, steps))
        }
    }
}

/// Whether the command is a gap that is let through.
#[inline(always)]
fn leaves_gap(mode: Mode, command: Command) -> bool
    ensures { result ≡ (gaps_of mode && is_sorry (Some (code_of command))) }
{
    match command {
        Command::Converts(Converting::Sorry) => mode.allows_gaps(),
        _ => false,
    }
}
