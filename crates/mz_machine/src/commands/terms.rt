//! Applications of terms, and citations of axioms and theorems.
ghost use Rattle.std.specs.Prelude.{ℕ, ◌≡◌, ◌≤◌, ◌<◌, ◌+◌, IfOk, OnOk, length, drop};
ghost use Rattle.mz_cmd.specs.declared.code.ProofCode.TheVariants as code;
ghost use Rattle.mz_logic_theory.specs.Tree.{Tree};
ghost use Rattle.mz_layout_tables.specs.Tables.{thm_row};
ghost use Rattle.mz_store.specs.Sharing.{AreIn, IsIn, IsOver, tree_of};
ghost use Rattle.mz_store.specs.declared.item.DepsMode.TheVariants.{All};
ghost use Rattle.mz_machine_theory.specs.Profile.{strict};
ghost use Rattle.mz_unify.specs.Stored.{items_at, matching_at, AreItemsIn};
ghost use Rattle.mz_unify.specs.declared.unified.UnifyMode.TheVariants.{Use};
ghost use Rattle.mz_machine_theory.specs.MachineState.{State};
ghost use Rattle.mz_machine_theory.specs.ProofMachine.{built, citation, cited};
ghost use Rattle.mz_machine_theory.specs.Bodies.{row_steps};
ghost use Rattle.mz_machine_env.specs.Before.{tables_of, signatures_of};
ghost use Rattle.mz_machine.specs.OverStore.{Gives, Grows};
ghost use Rattle.mz_machine.specs.Executing.{Counts};

use crate::arguments::{check_cited, check_operands, pop_operands};
use crate::disjoint::are_disjoint;
use crate::stack::pop_expr;
use mz_cmd::{K, Steps};
use mz_layout_tables::Row;
use mz_logic_theory::Terms;
use mz_machine_env::{CommandBuffers, Environment};
use mz_store::{Id, Item, Store};
use mz_unify::{Stop, UnifyMode, unify_in};
use std::sync::ledger::Ledger;

/// Makes the application of a term to the operands on top, which it takes.
pub(crate) fn build(
    env: &Environment,
    t: u32,
    store: &mut Store,
    stack: &mut Vec<Item>,
    operands: &mut Vec<Id>,
) -> Result<Id, Stop>
    requires over { IsOver (signatures_of env.now) store.old }
    requires stack { AreItemsIn store.old stack.old.items }
    ensures grows { OnOk result (Grows (signatures_of env.now) store.old store.new) }
    ensures context { store.new.context ≡ store.old.context }
    ensures nodes { length store.new.entries ≤ length store.old.entries + 1 }
    ensures ids { IfOk result (λ id. IsIn store.new id.0 × AreItemsIn store.new stack.new.items) }
    ensures built { (at : ℕ) (st : State Tree) → st.ctx ≡ store.old.context → st.stack ≡ items_at store.old stack.old.items → Gives (built strict (tables_of env.now) at t st) result (λ id. (tree_of store.new id.0, items_at store.new stack.new.items)) }
{
    if t >= env.terms() {
        return Err(Stop::Rule(K::TermIndex));
    }
    if let Err(stop) = pop_operands(store, env.arity_of(Row::Term(t)), stack, operands) {
        return Err(stop);
    }
    if let Err(rule) = check_operands(env, Row::Term(t), store, operands) {
        return Err(Stop::Rule(rule));
    }
    let Ok(made) = store.app(env, t, operands) else {
        return Err(Stop::Mem);
    };
    Ok(made)
}

/// Cites an axiom or theorem for the expression on top, with the operands below: its stream runs on
/// the expression, and takes the hypotheses.
pub(crate) fn cite<L: Ledger>(
    env: &Environment,
    t: u32,
    store: &Store,
    stack: &mut Vec<Item>,
    spare: &mut CommandBuffers,
    steps: &mut Steps<L>,
) -> Result<Id, Stop>
    requires over { IsOver (signatures_of env.now) store.now }
    requires mode { store.now.mode ≡ All }
    requires stack { AreItemsIn store.now stack.old.items }
    ensures ids { IfOk result (λ id. IsIn store.now id.0 × AreItemsIn store.now stack.new.items) }
    ensures cited { (st : State Tree) → st.ctx ≡ store.now.context → st.stack ≡ items_at store.now stack.old.items → Gives (cited strict (tables_of env.now) t st) result (λ id. (tree_of store.now id.0, items_at store.now stack.new.items)) }
    ensures steps { (st : State Tree) → st.ctx ≡ store.now.context → st.stack ≡ items_at store.now stack.old.items → Counts result steps.old steps.new (row_steps strict (tables_of env.now) code.Thm t st) (length env.now.file) }
{
    let target = match take_citation(env, t, store, stack, spare) {
        Ok(target) => target,
        Err(stop) => return Err(stop),
    };
    let stream = env.stream_of_thm(t);
    match unify_in(
        env,
        stream,
        UnifyMode::Use,
        &spare.operands,
        // An assertion's stream has no dummies.
        0,
        target,
        &mut spare.saved,
        &mut spare.targets,
        stack,
        store,
        steps,
    )
    .through()
    {
        Ok(()) => Ok(target),
        Err(stop) => Err(stop),
    }
}

/// What a citation takes: the expression on top, and for the list of operands those below it, which fit
/// their parameters and are disjoint.
#[inline(always)]
fn take_citation(
    env: &Environment,
    t: u32,
    store: &Store,
    stack: &mut Vec<Item>,
    spare: &mut CommandBuffers,
) -> Result<Id, Stop>
    requires over { IsOver (signatures_of env.now) store.now }
    requires mode { store.now.mode ≡ All }
    requires stack { AreItemsIn store.now stack.old.items }
    ensures ids { IfOk result (λ target. IsIn store.now target.0 × AreIn store.now spare.new.operands.items × AreItemsIn store.now stack.new.items × (t < env.now.rows.thms)) }
    ensures taken { (st : State Tree) → st.ctx ≡ store.now.context → st.stack ≡ items_at store.now stack.old.items → Gives (citation strict (tables_of env.now) t st) result (λ target. matching_at store.now Use (drop (thm_row env.now.file t).stream_at env.now.file) spare.new.operands.items target stack.new.items) }
{
    if t >= env.thms() {
        return Err(Stop::Rule(K::TheoremIndex));
    }
    let arity = env.arity_of(Row::Thm(t));
    if stack.len() <= arity as usize {
        return Err(Stop::Rule(K::Underflow));
    }
    let target = match pop_expr(store, stack) {
        Ok(target) => target,
        Err(rule) => return Err(Stop::Rule(rule)),
    };
    if let Err(stop) = pop_operands(store, arity, stack, &mut spare.operands) {
        return Err(stop);
    }
    let row = Row::Thm(t);
    if let Err(stop) = check_cited(env, row, store, &spare.operands, &mut spare.bound) {
        return Err(stop);
    }
    if !are_disjoint(env, Row::Thm(t), store, &spare.operands, &spare.bound) {
        return Err(Stop::Rule(K::Disjoint));
    }
    Ok(target)
}
