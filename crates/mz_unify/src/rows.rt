//! What each command does: its premises in order, and what it leaves.
ghost use Rattle.std.specs.Prelude.{ℕ, ◌≡◌, ◌≤◌, ◌+◌, ◌++◌, ◌∷◌, ◌⊎◌, [], List, Ok, Err, OnOk, IfOk, IfSome, IfNone, MatchResult, length, slice_get};
ghost use Rattle.mz_cmd.specs.declared.rule.K.{K};
ghost use Rattle.mz_logic_theory.specs.Tree.{Tree};
ghost use Rattle.mz_logic_theory.specs.Signature.{Signature};
ghost use Rattle.mz_store.specs.Sharing.{IsIn, AreIn, tree_of, IsOver};
ghost use Rattle.mz_machine_theory.specs.Profile.{strict};
ghost use Rattle.mz_machine_theory.specs.Streams.{UnifyCommand, u_term, u_term_save, u_ref, u_dummy, u_hyp, u_end};
ghost use Rattle.mz_machine_theory.specs.UnifyMachine.{UnifyMode as Mode, in_definition, UnifyState, unify_step, is_empty, is_fresh, next_hypothesis, nothing_left};
ghost use Rattle.mz_unify.specs.Stored.{mode_of, trees_at, stack_at, items_at, AreItemsIn, AreLeft, TellsAllOf};
ghost use Rattle.mz_unify.specs.declared.command.Command.TheVariants.{Dummy};
ghost use Rattle.mz_unify.specs.Rows.{command_of, StopsBy, TellsAny, TellsFor, all_targets, state_at, with_targets, IsRow};

use crate::command::Command;
use crate::stop::{Stop, push, push_operands};
use crate::unified::UnifyMode;
use mz_cmd::K;
use mz_store::{Id, Item, Store};

/// The word of the variables of all front.
fn variables(store: &Store, ids: &[Id]) -> u64
    requires ids { AreIn store.now ids.now }
    requires told { TellsAllOf store.now ids.now }
    ensures { (sigs : List Signature) → IsOver sigs store.now → TellsAny store.now.context result (trees_at store.now ids.now) }
{
    let mut word = 0;
    for id in ids {
        word |= store.deps(*id);
    }
    word
}

/// The word of the variables of the operands, from which a definition's dummies are kept disjoint. Other
/// streams have no dummies.
#[inline(always)]
pub fn kept_disjoint(store: &Store, mode: UnifyMode, operands: &[Id]) -> u64
    requires ids { AreIn store.now operands.now }
    requires told { TellsAllOf store.now operands.now }
    ensures { (sigs : List Signature) → IsOver sigs store.now → TellsFor (mode_of mode) store.now.context result (trees_at store.now operands.now) }
{
    match mode {
        UnifyMode::Body => variables(store, operands),
        UnifyMode::Use | UnifyMode::Final => 0,
    }
}

/// Takes the top target, and says which of an application's operands are left.
#[inline(always)]
fn take_top<'s>(store: &Store, front: &'s [Id], targets: &mut Vec<Id>) -> Option<(Id, &'s [Id])>
    requires { AreIn store.now (all_targets front.now targets.old.items) }
    ensures ids { IfSome result (λ top. IsIn store.now top.0.0 × AreIn store.now (all_targets top.1.now targets.new.items)) }
    ensures some { IfSome result (λ top. stack_at store.now (all_targets front.now targets.old.items) ≡ tree_of store.now top.0.0 ∷ stack_at store.now (all_targets top.1.now targets.new.items)) }
    ensures none { IfNone result (stack_at store.now (all_targets front.now targets.old.items) ≡ []) }
{
    if let Some((top, rest)) = front.split_first() {
        return Some((*top, rest));
    }
    match targets.pop() {
        Some(top) => Some((top, front)),
        None => None,
    }
}

/// Takes an application of the term from the top; its operands are what is left of it.
#[inline(always)]
fn open<'s>(
    store: &'s Store,
    term: u32,
    front: &'s [Id],
    targets: &mut Vec<Id>,
) -> Result<(Id, &'s [Id]), Stop>
    requires { AreIn store.now (all_targets front.now targets.old.items) }
    ensures ids { IfOk result (λ top. IsIn store.now top.0.0 × AreIn store.now (all_targets top.1.now targets.new.items)) }
    ensures plain { (sigs : List Signature) (mode : Mode) (st : UnifyState Tree) → st.targets ≡ stack_at store.now (all_targets front.now targets.old.items) → IsRow (unify_step strict sigs store.now.context mode (u_term term) st) result (λ top. with_targets st (stack_at store.now (all_targets top.1.now targets.new.items))) }
    ensures saved { (sigs : List Signature) (mode : Mode) (st : UnifyState Tree) → st.targets ≡ stack_at store.now (all_targets front.now targets.old.items) → IsRow (unify_step strict sigs store.now.context mode (u_term_save term) st) result (λ top. record (with_targets st (stack_at store.now (all_targets top.1.now targets.new.items))) { heap = st.heap ++ tree_of store.now top.0.0 ∷ [] }) }
{
    let Some((top, rest)) = take_top(store, front, targets) else {
        return Err(Stop::Rule(K::UnifyRest));
    };
    if store.head(top) != Some(term) {
        return Err(Stop::Rule(K::UnifyTerm));
    }
    push_operands(targets, rest)?;
    Ok((top, store.args(top)))
}

/// What stands at a place of the heap: the operands come first, and then what was saved.
#[inline(always)]
pub fn heap_at(operands: &[Id], saved: &[Id], place: u32) -> Option<Id>
    ensures { result ≡ slice_get (operands.now ++ saved.now) place }
{
    let place = place as usize;
    if place < operands.len() {
        return operands.get(place).copied();
    }
    saved.get(place - operands.len()).copied()
}

/// Takes the top, which is what stands at a place of the heap.
#[inline(always)]
fn refer<'s>(
    store: &Store,
    place: u32,
    operands: &[Id],
    saved: &[Id],
    front: &'s [Id],
    targets: &mut Vec<Id>,
) -> Result<&'s [Id], Stop>
    requires heap { AreIn store.now (operands.now ++ saved.now) }
    requires targets { AreIn store.now (all_targets front.now targets.old.items) }
    ensures ids { IfOk result (λ rest. AreIn store.now (all_targets rest.now targets.new.items)) }
    ensures row { (sigs : List Signature) (mode : Mode) (st : UnifyState Tree) → st.heap ≡ trees_at store.now (operands.now ++ saved.now) → st.targets ≡ stack_at store.now (all_targets front.now targets.old.items) → IsRow (unify_step strict sigs store.now.context mode (u_ref place) st) result (λ rest. with_targets st (stack_at store.now (all_targets rest.now targets.new.items))) }
{
    let Some((top, rest)) = take_top(store, front, targets) else {
        return Err(Stop::Rule(K::UnifyRest));
    };
    let Some(met) = heap_at(operands, saved, place) else {
        return Err(Stop::Rule(K::UnifyReference));
    };
    if !store.same(met, top) {
        return Err(Stop::Rule(K::UnifyReference));
    }
    Ok(rest)
}

/// Whether the expression is a bound variable of the sort, in V of nothing whose variables the word names.
#[inline(always)]
fn is_fresh(store: &Store, sort: u32, id: Id, apart: u64) -> bool
    requires { IsIn store.now id.0 }
    ensures { (sigs : List Signature) (es : List Tree) → IsOver sigs store.now → TellsAny store.now.context apart es → result ≡ is_fresh strict sigs store.now.context sort (tree_of store.now id.0) es }
{
    store.is_bound(id) && store.sort_of(id) == sort && store.deps(id) & apart == 0
}

/// Takes a fresh bound variable of the sort from the top; `apart` is then also kept disjoint from it.
fn dummy<'s>(
    store: &Store,
    sort: u32,
    front: &'s [Id],
    targets: &mut Vec<Id>,
    apart: &mut u64,
) -> Result<(Id, &'s [Id]), Stop>
    requires { AreIn store.now (all_targets front.now targets.old.items) }
    ensures ids { IfOk result (λ top. IsIn store.now top.0.0 × AreIn store.now (all_targets top.1.now targets.new.items)) }
    ensures told { (sigs : List Signature) (es : List Tree) → IsOver sigs store.now → TellsAny store.now.context apart.old es → IfOk result (λ top. TellsAny store.now.context apart.new (es ++ tree_of store.now top.0.0 ∷ [])) }
    ensures row { (sigs : List Signature) (mode : Mode) (st : UnifyState Tree) → IsOver sigs store.now → TellsAny store.now.context apart.old st.apart → st.targets ≡ stack_at store.now (all_targets front.now targets.old.items) → IsRow (unify_step strict sigs store.now.context mode (u_dummy sort) st) result (λ top. record (with_targets st (stack_at store.now (all_targets top.1.now targets.new.items))) { heap = st.heap ++ tree_of store.now top.0.0 ∷ []; apart = st.apart ++ tree_of store.now top.0.0 ∷ [] }) }
{
    let Some((top, rest)) = take_top(store, front, targets) else {
        return Err(Stop::Rule(K::UnifyRest));
    };
    if !is_fresh(store, sort, top, *apart) {
        return Err(Stop::Rule(K::UnifyDummy));
    }
    *apart |= store.deps(top);
    Ok((top, rest))
}

/// The rule that asks for a hypothesis where none is left.
fn no_hypothesis(mode: UnifyMode) -> K
    ensures { next_hypothesis {T = Tree} (mode_of mode) [] ≡ Err result }
{
    match mode {
        UnifyMode::Final => K::UnifyHypothesis,
        UnifyMode::Use | UnifyMode::Body => K::Underflow,
    }
}

/// Takes the next hypothesis, a proof.
#[inline(always)]
fn take_hypothesis(store: &Store, mode: UnifyMode, hyps: &mut Vec<Item>) -> Result<Id, K>
    requires { AreItemsIn store.now hyps.old.items }
    ensures ids { IfOk result (λ id. IsIn store.now id.0 × AreItemsIn store.now hyps.new.items) }
    ensures left { OnOk result (AreLeft hyps.old.items hyps.new.items 1) }
    ensures next { MatchResult result (λ id. next_hypothesis (mode_of mode) (items_at store.now hyps.old.items) ≡ Ok (tree_of store.now id.0, items_at store.now hyps.new.items)) (λ rule. next_hypothesis (mode_of mode) (items_at store.now hyps.old.items) ≡ Err rule) }
{
    let Some(item) = hyps.pop() else {
        return Err(no_hypothesis(mode));
    };
    let Item::Proof(proved) = item else {
        return Err(K::Kind);
    };
    Ok(proved)
}

/// Makes the next hypothesis the target.
#[inline(always)]
fn hypothesis(
    store: &Store,
    mode: UnifyMode,
    front: &[Id],
    targets: &mut Vec<Id>,
    hyps: &mut Vec<Item>,
) -> Result<(), Stop>
    requires { AreItemsIn store.now hyps.old.items }
    ensures ids { OnOk result (AreIn store.now (all_targets front.now targets.new.items) × AreItemsIn store.now hyps.new.items) }
    ensures left { OnOk result (AreLeft hyps.old.items hyps.new.items 1) }
    ensures row { (sigs : List Signature) (st : UnifyState Tree) → st.targets ≡ stack_at store.now (all_targets front.now targets.old.items) → st.items ≡ items_at store.now hyps.old.items → IsRow (unify_step strict sigs store.now.context (mode_of mode) u_hyp st) result (λ _. record (with_targets st (stack_at store.now (all_targets front.now targets.new.items))) { items = items_at store.now hyps.new.items }) }
{
    if !are_none(store, front, targets) {
        return Err(Stop::Rule(K::UnifyRest));
    }
    match take_hypothesis(store, mode, hyps) {
        Ok(proved) => {
            push(targets, proved)?;
            Ok(())
        }
        Err(rule) => Err(Stop::Rule(rule)),
    }
}

/// Whether no targets are left.
#[inline(always)]
fn are_none(store: &Store, front: &[Id], targets: &[Id]) -> bool
    ensures { result ≡ is_empty (stack_at store.now (all_targets front.now targets.now)) }
{
    front.is_empty() && targets.is_empty()
}

/// Whether no hypothesis is left that must be taken.
#[inline(always)]
fn nothing_left(store: &Store, mode: UnifyMode, hyps: &[Item]) -> bool
    ensures { result ≡ nothing_left (mode_of mode) (items_at store.now hyps.now) }
{
    match mode {
        UnifyMode::Final => hyps.is_empty(),
        UnifyMode::Use | UnifyMode::Body => true,
    }
}

/// Ends the stream: no targets are left, nor at an assertion's own end hypotheses.
#[inline(always)]
fn end(
    store: &Store,
    mode: UnifyMode,
    front: &[Id],
    targets: &[Id],
    hyps: &[Item],
) -> Result<(), Stop>
    ensures { (sigs : List Signature) (st : UnifyState Tree) → st.targets ≡ stack_at store.now (all_targets front.now targets.now) → st.items ≡ items_at store.now hyps.now → IsRow (unify_step strict sigs store.now.context (mode_of mode) u_end st) result (λ _. st) }
{
    if !are_none(store, front, targets) {
        return Err(Stop::Rule(K::UnifyRest));
    }
    if !nothing_left(store, mode, hyps) {
        return Err(Stop::Rule(K::UnifyRest));
    }
    Ok(())
}

/// Executes a command, which stands in streams of the mode. The targets are these of an application's
/// operands, the first one on top, and those of the list.
#[inline(always)]
pub(crate) fn step<'s>(
    store: &'s Store,
    mode: UnifyMode,
    command: Command,
    operands: &[Id],
    saved: &mut Vec<Id>,
    apart: &mut u64,
    front: &'s [Id],
    targets: &mut Vec<Id>,
    hyps: &mut Vec<Item>,
) -> Result<&'s [Id], Stop>
    requires stands { (sort : ℕ) → command ≡ Dummy sort → mode_of mode ≡ in_definition }
    requires heap { AreIn store.now (operands.now ++ saved.old.items) }
    requires targets { AreIn store.now (all_targets front.now targets.old.items) }
    requires hyps { AreItemsIn store.now hyps.old.items }
    ensures ids { IfOk result (λ rest. AreIn store.now (operands.now ++ saved.new.items) × AreIn store.now (all_targets rest.now targets.new.items) × AreItemsIn store.now hyps.new.items) }
    ensures left { OnOk result ((taken : ℕ) × (taken ≤ 1) × AreLeft hyps.old.items hyps.new.items taken) }
    ensures row { (sigs : List Signature) (es : List Tree) → IsOver sigs store.now → TellsFor (mode_of mode) store.now.context apart.old es → MatchResult result (λ rest. (fs : List Tree) × TellsFor (mode_of mode) store.now.context apart.new fs × (unify_step strict sigs store.now.context (mode_of mode) (command_of command) (state_at store.now (operands.now ++ saved.old.items) es (all_targets front.now targets.old.items) hyps.old.items) ≡ Ok (state_at store.now (operands.now ++ saved.new.items) fs (all_targets rest.now targets.new.items) hyps.new.items))) (λ stop. StopsBy stop (λ k. unify_step strict sigs store.now.context (mode_of mode) (command_of command) (state_at store.now (operands.now ++ saved.old.items) es (all_targets front.now targets.old.items) hyps.old.items) ≡ Err k)) }
{
    match command {
        Command::Term(term) => {
            let (_, rest) = open(store, term, front, targets)?;
            Ok(rest)
        }
        Command::TermSave(term) => {
            let (whole, rest) = open(store, term, front, targets)?;
            push(saved, whole)?;
            Ok(rest)
        }
        Command::Ref(place) => {
            let rest = refer(store, place, operands, saved, front, targets)?;
            Ok(rest)
        }
        Command::Dummy(sort) => {
            let (met, rest) = dummy(store, sort, front, targets, apart)?;
            push(saved, met)?;
            Ok(rest)
        }
        Command::Hyp => {
            hypothesis(store, mode, front, targets, hyps)?;
            Ok(front)
        }
        Command::End => {
            end(store, mode, front, targets, hyps)?;
            Ok(front)
        }
    }
}
