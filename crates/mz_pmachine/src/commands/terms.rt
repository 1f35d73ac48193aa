//! Applications of terms, and citations of axioms and theorems.
ghost use Rattle.std.specs.Prelude.{ℕ, ◌≡◌, ◌≤◌, ◌<◌, ◌+◌, ◌++◌, ◌∷◌, [], IfOk, OnOk, length, drop};
ghost use Rattle.mz_cmd.specs.declared.code.ProofCode.TheVariants as code;
ghost use Rattle.mz_layout_tables.specs.Tables.{thm_row};
ghost use Rattle.mz_pmachine_unify.specs.Numbering.{AreIn, IsIn, IsOver, expr_of};
ghost use Rattle.mz_machine_theory.specs.Profile.{expr, proof};
ghost use Rattle.mz_pmachine_unify.specs.Stored.{items_at, matching_at, AreItemsIn};
ghost use Rattle.mz_unify.specs.declared.unified.UnifyMode.TheVariants.{Use};
ghost use Rattle.mz_machine_theory.specs.MachineState.{State};
ghost use Rattle.mz_machine_theory.specs.ProofMachine.{proof_step, built, citation};
ghost use Rattle.mz_machine_theory.specs.Bodies.{row_steps};
ghost use Rattle.mz_machine_env.specs.Before.{tables_of, signatures_of};
ghost use Rattle.mz_pmachine.specs.OverNodes.{with_stack, Grows};
ghost use Rattle.mz_machine.specs.OverStore.{Gives, UnlessMem};
ghost use Rattle.mz_pmachine_theory.specs.NodeIdentity.{Numbered, portable};

use crate::arguments::{check_cited, check_operands, pop_operands};
use crate::disjoint::are_disjoint;
use crate::stack::pop_expr;
use mz_cmd::{K, Steps};
use mz_layout_tables::Row;
use mz_logic_theory::Terms;
use mz_machine_env::{CommandBuffers, Environment};
use mz_pmachine_unify::{Nodes, kept_disjoint, unify_in};
use mz_store::{Id, Item};
use mz_unify::{Stop, UnifyMode, push};
use std::sync::ledger::Ledger;

/// Makes the application of a term to the operands on top, which it takes, by the command at a place.
fn build(
    env: &Environment,
    at: u32,
    t: u32,
    nodes: &mut Nodes,
    stack: &mut Vec<Item>,
    operands: &mut Vec<Id>,
) -> Result<Id, Stop>
    requires number { nodes.old.next ≤ at }
    requires over { IsOver (signatures_of env.now) nodes.old }
    requires stack { AreItemsIn nodes.old stack.old.items }
    ensures grows { OnOk result (Grows (signatures_of env.now) nodes.old nodes.new) }
    ensures next { OnOk result (nodes.new.next ≤ at + 1) }
    ensures context { nodes.new.context ≡ nodes.old.context }
    ensures nodes { length nodes.new.entries ≤ length nodes.old.entries + 1 }
    ensures ids { IfOk result (λ id. IsIn nodes.new id.0 × AreItemsIn nodes.new stack.new.items) }
    ensures built { (st : State Numbered) → st.ctx ≡ nodes.old.context → st.stack ≡ items_at nodes.old stack.old.items → Gives (built portable (tables_of env.now) at t st) result (λ id. (expr_of nodes.new id.0, items_at nodes.new stack.new.items)) }
{
    if t >= env.terms() {
        return Err(Stop::Rule(K::TermIndex));
    }
    pop_operands(nodes, env.arity_of(Row::Term(t)), stack, operands)?;
    if let Err(rule) = check_operands(env, Row::Term(t), nodes, operands) {
        return Err(Stop::Rule(rule));
    }
    let Ok(made) = nodes.app(env, at, t, operands) else {
        return Err(Stop::Mem);
    };
    Ok(made)
}

/// Makes the application of a term to the operands on top, and puts it in their stead, by the command
/// at a place.
pub(crate) fn term(
    env: &Environment,
    at: u32,
    t: u32,
    nodes: &mut Nodes,
    stack: &mut Vec<Item>,
    operands: &mut Vec<Id>,
) -> Result<Id, Stop>
    requires number { nodes.old.next ≤ at }
    requires over { IsOver (signatures_of env.now) nodes.old }
    requires stack { AreItemsIn nodes.old stack.old.items }
    ensures grows { OnOk result (Grows (signatures_of env.now) nodes.old nodes.new) }
    ensures next { OnOk result (nodes.new.next ≤ at + 1) }
    ensures context { nodes.new.context ≡ nodes.old.context }
    ensures nodes { length nodes.new.entries ≤ length nodes.old.entries + 1 }
    ensures ids { IfOk result (λ id. IsIn nodes.new id.0 × AreItemsIn nodes.new stack.new.items) }
    ensures plain { (st : State Numbered) → st.ctx ≡ nodes.old.context → st.stack ≡ items_at nodes.old stack.old.items → Gives (proof_step portable (tables_of env.now) at code.Term t st) result (λ _. with_stack st (items_at nodes.new stack.new.items)) }
    ensures saved { (st : State Numbered) → st.ctx ≡ nodes.old.context → st.stack ≡ items_at nodes.old stack.old.items → Gives (proof_step portable (tables_of env.now) at code.TermSave t st) result (λ id. record (with_stack st (items_at nodes.new stack.new.items)) { heap = st.heap ++ expr (expr_of nodes.new id.0) ∷ [] }) }
{
    let made = build(env, at, t, nodes, stack, operands)?;
    push(stack, Item::Expr(made))?;
    Ok(made)
}

/// Cites an axiom or theorem for the expression on top, with the operands below: its stream runs on
/// the expression, of which a proof stands then in their place, and takes the hypotheses.
pub(crate) fn thm<L: Ledger>(
    env: &Environment,
    t: u32,
    nodes: &Nodes,
    stack: &mut Vec<Item>,
    spare: &mut CommandBuffers,
    steps: &mut Steps<L>,
) -> Result<Id, Stop>
    requires over { IsOver (signatures_of env.now) nodes.now }
    requires stack { AreItemsIn nodes.now stack.old.items }
    ensures ids { IfOk result (λ id. IsIn nodes.now id.0 × AreItemsIn nodes.now stack.new.items) }
    ensures plain { (at : ℕ) (st : State Numbered) → st.ctx ≡ nodes.now.context → st.stack ≡ items_at nodes.now stack.old.items → Gives (proof_step portable (tables_of env.now) at code.Thm t st) result (λ _. with_stack st (items_at nodes.now stack.new.items)) }
    ensures saved { (at : ℕ) (st : State Numbered) → st.ctx ≡ nodes.now.context → st.stack ≡ items_at nodes.now stack.old.items → Gives (proof_step portable (tables_of env.now) at code.ThmSave t st) result (λ id. record (with_stack st (items_at nodes.now stack.new.items)) { heap = st.heap ++ proof (expr_of nodes.now id.0) ∷ [] }) }
    ensures steps { (st : State Numbered) → st.ctx ≡ nodes.now.context → st.stack ≡ items_at nodes.now stack.old.items → UnlessMem result (steps.new ≡ steps.old + row_steps portable (tables_of env.now) code.Thm t st) }
    ensures most { steps.new ≤ steps.old + length env.now.file }
{
    let target = take_citation(env, t, nodes, stack, spare)?;
    let stream = env.stream_of_thm(t);
    let operands: &[Id] = &spare.operands;
    unify_in(
        env,
        stream,
        UnifyMode::Use,
        operands,
        kept_disjoint(nodes, operands),
        target,
        &mut spare.saved,
        &mut spare.targets,
        stack,
        nodes,
        steps,
    )
    .through()?;
    push(stack, Item::Proof(target))?;
    Ok(target)
}

/// What a citation takes: the expression on top, and for the list of operands those below it, which fit
/// their parameters and are disjoint.
fn take_citation(
    env: &Environment,
    t: u32,
    nodes: &Nodes,
    stack: &mut Vec<Item>,
    spare: &mut CommandBuffers,
) -> Result<Id, Stop>
    requires over { IsOver (signatures_of env.now) nodes.now }
    requires stack { AreItemsIn nodes.now stack.old.items }
    ensures there { OnOk result (t < env.now.rows.thms) }
    ensures ids { IfOk result (λ target. IsIn nodes.now target.0 × AreIn nodes.now spare.new.operands.items × AreItemsIn nodes.now stack.new.items) }
    ensures taken { (st : State Numbered) → st.ctx ≡ nodes.now.context → st.stack ≡ items_at nodes.now stack.old.items → Gives (citation portable (tables_of env.now) t st) result (λ target. matching_at nodes.now Use (drop (thm_row env.now.file t).stream_at env.now.file) spare.new.operands.items target stack.new.items) }
{
    if t >= env.thms() {
        return Err(Stop::Rule(K::TheoremIndex));
    }
    let arity = env.arity_of(Row::Thm(t));
    if stack.len() <= arity as usize {
        return Err(Stop::Rule(K::Underflow));
    }
    let target = match pop_expr(nodes, stack) {
        Ok(target) => target,
        Err(rule) => return Err(Stop::Rule(rule)),
    };
    pop_operands(nodes, arity, stack, &mut spare.operands)?;
    check_cited(env, Row::Thm(t), nodes, &spare.operands, &mut spare.bound)?;
    if !are_disjoint(env, Row::Thm(t), nodes, &spare.operands, &spare.bound) {
        return Err(Stop::Rule(K::Disjoint));
    }
    Ok(target)
}
