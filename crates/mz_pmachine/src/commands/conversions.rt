//! Conversions: obligations that two expressions are convertible, and how they are paid.
ghost use Rattle.std.specs.Prelude.{ℕ, ◌≡◌, ◌≤◌, ◌++◌, ◌∷◌, ◌+◌, [], Some, IfOk, OnOk, length};
ghost use Rattle.mz_cmd.specs.declared.code.ProofCode.TheVariants as code;
ghost use Rattle.mz_pmachine_unify.specs.Numbering.{IsIn, IsOver, expr_of};
ghost use Rattle.mz_pmachine_unify.specs.Stored.{items_at, item_at, AreItemsIn, IsItemIn};
ghost use Rattle.mz_machine_theory.specs.Premises.{pop_sides};
ghost use Rattle.mz_machine_theory.specs.MachineState.{RowsBefore, State};
ghost use Rattle.mz_machine_theory.specs.ProofMachine.{proof_step};
ghost use Rattle.mz_machine_theory.specs.Bodies.{row_steps};
ghost use Rattle.mz_machine_env.specs.Before.{tables_of, signatures_of};
ghost use Rattle.mz_machine.specs.OverStore.{GivesRule, Gives, UnlessMem};
ghost use Rattle.mz_pmachine.specs.OverNodes.{with_stack, pop_unfolding};
ghost use Rattle.mz_machine_theory.specs.Profile.{obligation};
ghost use Rattle.mz_machine.specs.OpenEquations.{opened_on};
ghost use Rattle.mz_pmachine.specs.OpenNodes.{of_nodes};
ghost use Rattle.mz_pmachine_theory.specs.NodeIdentity.{Numbered, portable};

use crate::stack::{pop_conversion, pop_expr, pop_obligation, pop_proof};
use mz_cmd::{K, Steps};
use mz_logic_theory::Terms;
use mz_machine_env::{CommandBuffers, Environment, put_back};
use mz_pmachine_unify::{Nodes, unify_in};
use mz_store::{Id, Item};
use mz_unify::{Stop, UnifyMode, push};
use std::sync::ledger::Ledger;

/// From an expression and a proof below to a proof of the expression, which the obligation above is
/// to pay.
#[tactic(auto, using(crate::proofs::Converting::put_in), unfolding(mz_machine_theory::specs::ProofMachine::proof_step))]
pub(crate) fn conv(nodes: &Nodes, stack: &mut Vec<Item>) -> Result<(), K>
    requires { AreItemsIn nodes.now stack.old.items }
    ensures ids { OnOk result (AreItemsIn nodes.now stack.new.items) }
    ensures row { (tables : RowsBefore) (at n : ℕ) (st : State Numbered) → st.stack ≡ items_at nodes.now stack.old.items → GivesRule (proof_step portable tables at code.Conv n st) result (λ _. with_stack st (items_at nodes.now stack.new.items)) }
{
    let proved = pop_proof(nodes, stack)?;
    let claimed = pop_expr(nodes, stack)?;
    put_back(stack, Item::Proof(claimed));
    put_back(stack, Item::Obligation(claimed, proved));
    Ok(())
}

/// Drops an obligation whose sides are the same.
#[tactic(auto, unfolding(mz_machine_theory::specs::ProofMachine::proof_step))]
pub(crate) fn refl(nodes: &Nodes, stack: &mut Vec<Item>) -> Result<(), K>
    requires { AreItemsIn nodes.now stack.old.items }
    ensures ids { OnOk result (AreItemsIn nodes.now stack.new.items) }
    ensures row { (tables : RowsBefore) (at n : ℕ) (st : State Numbered) → st.stack ≡ items_at nodes.now stack.old.items → GivesRule (proof_step portable tables at code.Refl n st) result (λ _. with_stack st (items_at nodes.now stack.new.items)) }
{
    let (left, right) = pop_obligation(nodes, stack)?;
    if nodes.same(left, right) {
        Ok(())
    } else {
        Err(K::Refl)
    }
}

/// Turns an obligation round.
#[tactic(auto, using(crate::proofs::Converting::put_in), unfolding(mz_machine_theory::specs::ProofMachine::proof_step))]
pub(crate) fn symm(nodes: &Nodes, stack: &mut Vec<Item>) -> Result<(), K>
    requires { AreItemsIn nodes.now stack.old.items }
    ensures ids { OnOk result (AreItemsIn nodes.now stack.new.items) }
    ensures row { (tables : RowsBefore) (at n : ℕ) (st : State Numbered) → st.stack ≡ items_at nodes.now stack.old.items → GivesRule (proof_step portable tables at code.Symm n st) result (λ _. with_stack st (items_at nodes.now stack.new.items)) }
{
    let (left, right) = pop_obligation(nodes, stack)?;
    put_back(stack, Item::Obligation(right, left));
    Ok(())
}

/// Takes an obligation between two applications of one term, in place of which those between their
/// operands are to come, the first on top.
#[tactic(auto, unfolding(mz_machine_theory::specs::ProofMachine::proof_step))]
pub(crate) fn cong(nodes: &Nodes, stack: &mut Vec<Item>) -> Result<(Id, Id), K>
    requires { AreItemsIn nodes.now stack.old.items }
    ensures ids { IfOk result (λ ids. IsIn nodes.now ids.0.0 × IsIn nodes.now ids.1.0 × AreItemsIn nodes.now stack.new.items) }
    ensures owed { IfOk result (λ ids. items_at nodes.now stack.old.items ≡ obligation (expr_of nodes.now ids.0.0) (expr_of nodes.now ids.1.0) ∷ items_at nodes.now stack.new.items) }
    ensures row { (tables : RowsBefore) (at n : ℕ) (st : State Numbered) → st.stack ≡ items_at nodes.now stack.old.items → GivesRule (proof_step portable tables at code.Cong n st) result (λ ids. with_stack st (opened_on (of_nodes nodes.now) (Some ids) (items_at nodes.now stack.new.items))) }
{
    let (left, right) = pop_obligation(nodes, stack)?;
    let Some(term) = nodes.head(left) else {
        return Err(K::Cong);
    };
    if nodes.head(right) != Some(term) {
        return Err(K::Cong);
    }
    Ok((left, right))
}

/// From an obligation whose left side is a definition's application, and what it unfolds to, to the
/// obligation between that and the right side. The definition's stream runs on what it unfolds to.
#[tactic(auto, unfolding(mz_machine_theory::specs::ProofMachine::proof_step))]
pub(crate) fn unfold<L: Ledger>(
    env: &Environment,
    nodes: &Nodes,
    stack: &mut Vec<Item>,
    spare: &mut CommandBuffers,
    steps: &mut Steps<L>,
) -> Result<(), Stop>
    requires over { IsOver (signatures_of env.now) nodes.now }
    requires stack { AreItemsIn nodes.now stack.old.items }
    ensures ids { OnOk result (AreItemsIn nodes.now stack.new.items) }
    ensures row { (at n : ℕ) (st : State Numbered) → st.ctx ≡ nodes.now.context → st.stack ≡ items_at nodes.now stack.old.items → Gives (proof_step portable (tables_of env.now) at code.Unfold n st) result (λ _. with_stack st (items_at nodes.now stack.new.items)) }
    ensures steps { (n : ℕ) (st : State Numbered) → st.ctx ≡ nodes.now.context → st.stack ≡ items_at nodes.now stack.old.items → UnlessMem result (steps.new ≡ steps.old + row_steps portable (tables_of env.now) code.Unfold n st) }
    ensures most { steps.new ≤ steps.old + length env.now.file }
{
    let (unfolded, left, right) = match pop_unfolding(nodes, stack) {
        Ok(items) => items,
        Err(rule) => return Err(Stop::Rule(rule)),
    };
    let Some(term) = nodes.head(left) else {
        return Err(Stop::Rule(K::Unfold));
    };
    if !env.has_body(term) {
        return Err(Stop::Rule(K::Unfold));
    }
    spare.hyps.clear();
    let stream = env.stream_of_term(term);
    unify_in(
        env,
        stream,
        UnifyMode::Body,
        nodes.args(left),
        nodes.vars(left),
        unfolded,
        &mut spare.saved,
        &mut spare.targets,
        &mut spare.hyps,
        nodes,
        steps,
    )
    .through()?;
    push(stack, Item::Obligation(unfolded, right))
}

/// What an unfolding takes: what is unfolded to, and below it the two sides of the obligation, with the
/// left one once more above them.
fn pop_unfolding(nodes: &Nodes, stack: &mut Vec<Item>) -> Result<(Id, Id, Id), K>
    requires { AreItemsIn nodes.now stack.old.items }
    ensures ids { IfOk result (λ ids. IsIn nodes.now ids.0.0 × IsIn nodes.now ids.1.0 × IsIn nodes.now ids.2.0 × AreItemsIn nodes.now stack.new.items) }
    ensures taken { GivesRule (pop_unfolding (items_at nodes.now stack.old.items)) result (λ ids. (expr_of nodes.now ids.0.0, expr_of nodes.now ids.1.0, expr_of nodes.now ids.2.0, items_at nodes.now stack.new.items)) }
{
    let unfolded = pop_expr(nodes, stack)?;
    let (left, right) = pop_sides(nodes, stack)?;
    Ok((unfolded, left, right))
}

/// The two sides of an obligation, with the left one once more above it.
fn pop_sides(nodes: &Nodes, stack: &mut Vec<Item>) -> Result<(Id, Id), K>
    requires { AreItemsIn nodes.now stack.old.items }
    ensures ids { IfOk result (λ ids. IsIn nodes.now ids.0.0 × IsIn nodes.now ids.1.0 × AreItemsIn nodes.now stack.new.items) }
    ensures taken { GivesRule (pop_sides portable (items_at nodes.now stack.old.items)) result (λ ids. (expr_of nodes.now ids.0.0, expr_of nodes.now ids.1.0, items_at nodes.now stack.new.items)) }
{
    let middle = pop_expr(nodes, stack)?;
    let (left, right) = pop_obligation(nodes, stack)?;
    if nodes.same(middle, left) {
        Ok((left, right))
    } else {
        Err(K::Unfold)
    }
}

/// Puts the conversion that an obligation asks for below the obligation.
#[tactic(auto, using(crate::proofs::Converting::put_in), unfolding(mz_machine_theory::specs::ProofMachine::proof_step))]
pub(crate) fn conv_cut(nodes: &Nodes, stack: &mut Vec<Item>) -> Result<(), Stop>
    requires { AreItemsIn nodes.now stack.old.items }
    ensures ids { OnOk result (AreItemsIn nodes.now stack.new.items) }
    ensures row { (tables : RowsBefore) (at n : ℕ) (st : State Numbered) → st.stack ≡ items_at nodes.now stack.old.items → Gives (proof_step portable tables at code.ConvCut n st) result (λ _. with_stack st (items_at nodes.now stack.new.items)) }
{
    let (left, right) = match pop_obligation(nodes, stack) {
        Ok(sides) => sides,
        Err(rule) => return Err(Stop::Rule(rule)),
    };
    put_back(stack, Item::Conversion(left, right));
    push(stack, Item::Obligation(left, right))
}

/// Takes a conversion from the stack, for the heap.
#[tactic(auto, unfolding(mz_machine_theory::specs::ProofMachine::proof_step))]
pub(crate) fn conv_save(nodes: &Nodes, stack: &mut Vec<Item>) -> Result<Item, K>
    requires { AreItemsIn nodes.now stack.old.items }
    ensures ids { IfOk result (λ item. IsItemIn nodes.now item × AreItemsIn nodes.now stack.new.items) }
    ensures row { (tables : RowsBefore) (at n : ℕ) (st : State Numbered) → st.stack ≡ items_at nodes.now stack.old.items → GivesRule (proof_step portable tables at code.ConvSave n st) result (λ item. record (with_stack st (items_at nodes.now stack.new.items)) { heap = st.heap ++ item_at nodes.now item ∷ [] }) }
{
    let (left, right) = pop_conversion(nodes, stack)?;
    Ok(Item::Conversion(left, right))
}
