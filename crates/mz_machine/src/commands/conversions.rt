//! Conversions: obligations that two expressions are convertible, and how they are paid.
ghost use Rattle.std.specs.Prelude.{ℕ, ◌≡◌, ◌≤◌, ◌<◌, ◌++◌, ◌∷◌, [], Some, IfOk, OnOk, drop, length, vec_capacity};
ghost use Rattle.mz_cmd.specs.declared.code.ProofCode.TheVariants as code;
ghost use Rattle.mz_logic_theory.specs.Tree.{Tree, listed};
ghost use Rattle.mz_layout_tables.specs.Tables.{term_row};
ghost use Rattle.mz_store.specs.Sharing.{IsIn, IsOver, head_of, operands_of, tree_of};
ghost use Rattle.mz_store.specs.declared.item.Item.TheVariants.{Obligation};
ghost use Rattle.mz_store.specs.declared.item.DepsMode.TheVariants.{All};
ghost use Rattle.mz_machine_theory.specs.Profile.{strict};
ghost use Rattle.mz_machine_theory.specs.UnifyMachine.{in_definition};
ghost use Rattle.mz_unify.specs.Stored.{items_at, item_at, AreItemsIn, IsItemIn};
ghost use Rattle.mz_machine_theory.specs.Premises.{pop_sides};
ghost use Rattle.mz_machine_theory.specs.MachineState.{RowsBefore, State};
ghost use Rattle.mz_machine_theory.specs.ProofMachine.{proof_step, unfolding_of};
ghost use Rattle.mz_machine_theory.specs.Bodies.{row_steps};
ghost use Rattle.mz_machine_env.specs.Before.{tables_of, signatures_of};
ghost use Rattle.mz_machine.specs.OverStore.{with_stack, pop_unfolding, Gives, GivesRule};
ghost use Rattle.mz_machine.specs.Executing.{Counts};
ghost use Rattle.mz_machine.specs.OpenEquations.{stored, opened_on};

use crate::stack::{pop, pop_conversion, pop_expr, pop_obligation, pop_proof};
use mz_cmd::{K, Steps};
use mz_logic_theory::Terms;
use mz_machine_env::{CommandBuffers, Environment, put_back};
use mz_store::{Id, Item, Store};
use mz_unify::{Stop, UnifyMode, push, unify_in};
use std::sync::ledger::Ledger;

/// From an expression and a proof below to a proof of the expression, which the obligation above is
/// to pay. It takes no memory.
#[tactic(auto, using(crate::proofs::Converting::put_in), unfolding(mz_machine_theory::specs::ProofMachine::proof_step))]
pub(crate) fn conv(store: &Store, stack: &mut Vec<Item>) -> Result<(), K>
    requires { AreItemsIn store.now stack.old.items }
    ensures ids { OnOk result (AreItemsIn store.now stack.new.items) }
    ensures row { (tables : RowsBefore) (at n : ℕ) (st : State Tree) → st.stack ≡ items_at store.now stack.old.items → GivesRule (proof_step strict tables at code.Conv n st) result (λ _. with_stack st (items_at store.now stack.new.items)) }
    ensures capacity { vec_capacity stack.old ≤ vec_capacity stack.new }
{
    let proved = pop_proof(store, stack)?;
    let claimed = pop_expr(store, stack)?;
    put_back(stack, Item::Proof(claimed));
    put_back(stack, Item::Obligation(claimed, proved));
    Ok(())
}

/// Drops an obligation whose sides are the same. It takes no memory.
#[tactic(auto, unfolding(mz_machine_theory::specs::ProofMachine::proof_step))]
pub(crate) fn refl(store: &Store, stack: &mut Vec<Item>) -> Result<(), K>
    requires { AreItemsIn store.now stack.old.items }
    ensures ids { OnOk result (AreItemsIn store.now stack.new.items) }
    ensures row { (tables : RowsBefore) (at n : ℕ) (st : State Tree) → st.stack ≡ items_at store.now stack.old.items → GivesRule (proof_step strict tables at code.Refl n st) result (λ _. with_stack st (items_at store.now stack.new.items)) }
    ensures capacity { vec_capacity stack.old ≤ vec_capacity stack.new }
{
    let (left, right) = pop_obligation(store, stack)?;
    if store.same(left, right) {
        Ok(())
    } else {
        Err(K::Refl)
    }
}

/// Turns an obligation round. It takes no memory.
#[tactic(auto, using(crate::proofs::Converting::put_in), unfolding(mz_machine_theory::specs::ProofMachine::proof_step))]
pub(crate) fn symm(store: &Store, stack: &mut Vec<Item>) -> Result<(), K>
    requires { AreItemsIn store.now stack.old.items }
    ensures ids { OnOk result (AreItemsIn store.now stack.new.items) }
    ensures row { (tables : RowsBefore) (at n : ℕ) (st : State Tree) → st.stack ≡ items_at store.now stack.old.items → GivesRule (proof_step strict tables at code.Symm n st) result (λ _. with_stack st (items_at store.now stack.new.items)) }
    ensures capacity { vec_capacity stack.old ≤ vec_capacity stack.new }
{
    let (left, right) = pop_obligation(store, stack)?;
    put_back(stack, Item::Obligation(right, left));
    Ok(())
}

/// Takes an obligation between two applications of one term, in place of which those between their
/// operands are to come, the first on top. It takes no memory.
#[tactic(auto, unfolding(mz_machine_theory::specs::ProofMachine::proof_step))]
pub(crate) fn cong(store: &Store, stack: &mut Vec<Item>) -> Result<(Id, Id), K>
    requires { AreItemsIn store.now stack.old.items }
    ensures ids { IfOk result (λ ids. IsIn store.now ids.0.0 × IsIn store.now ids.1.0 × AreItemsIn store.now stack.new.items) }
    ensures items { IfOk result (λ ids. stack.old.items ≡ stack.new.items ++ Obligation ids.0 ids.1 ∷ []) }
    ensures row { (tables : RowsBefore) (at n : ℕ) (st : State Tree) → st.stack ≡ items_at store.now stack.old.items → GivesRule (proof_step strict tables at code.Cong n st) result (λ ids. with_stack st (opened_on (stored store.now) (Some ids) (items_at store.now stack.new.items))) }
{
    let (left, right) = pop_obligation(store, stack)?;
    let Some(term) = store.head(left) else {
        return Err(K::Cong);
    };
    if store.head(right) != Some(term) {
        return Err(K::Cong);
    }
    Ok((left, right))
}

/// From an obligation whose left side is a definition's application, and what it unfolds to, to the
/// obligation between that and the right side. The definition's stream runs on what it unfolds to.
pub(crate) fn unfold<L: Ledger>(
    env: &Environment,
    store: &Store,
    stack: &mut Vec<Item>,
    spare: &mut CommandBuffers,
    steps: &mut Steps<L>,
) -> Result<(), Stop>
    requires over { IsOver (signatures_of env.now) store.now }
    requires mode { store.now.mode ≡ All }
    requires stack { AreItemsIn store.now stack.old.items }
    ensures ids { OnOk result (AreItemsIn store.now stack.new.items) }
    ensures row { (at n : ℕ) (st : State Tree) → st.ctx ≡ store.now.context → st.stack ≡ items_at store.now stack.old.items → Gives (proof_step strict (tables_of env.now) at code.Unfold n st) result (λ _. with_stack st (items_at store.now stack.new.items)) }
    ensures steps { (n : ℕ) (st : State Tree) → st.ctx ≡ store.now.context → st.stack ≡ items_at store.now stack.old.items → Counts result steps.old steps.new (row_steps strict (tables_of env.now) code.Unfold n st) (length env.now.file) }
{
    let (unfolded, left, right, term) = match take_unfolding(env, store, stack) {
        Ok(taken) => taken,
        Err(rule) => return Err(Stop::Rule(rule)),
    };
    let stream = env.stream_of_term(term);
    spare.hyps.clear();
    match unify_in(
        env,
        stream,
        UnifyMode::Body,
        store.args(left),
        store.deps(left),
        unfolded,
        &mut spare.saved,
        &mut spare.targets,
        &mut spare.hyps,
        store,
        steps,
    )
    .through()
    {
        Ok(()) => push(stack, Item::Obligation(unfolded, right)),
        Err(stop) => Err(stop),
    }
}

/// What an unfolding matches: what is unfolded to, the two sides of the obligation, and the definition
/// whose application the left side is, and whose operands it has. It takes no memory.
fn take_unfolding(
    env: &Environment,
    store: &Store,
    stack: &mut Vec<Item>,
) -> Result<(Id, Id, Id, u32), K>
    requires over { IsOver (signatures_of env.now) store.now }
    requires stack { AreItemsIn store.now stack.old.items }
    ensures ids { IfOk result (λ r. IsIn store.now r.0.0 × IsIn store.now r.1.0 × IsIn store.now r.2.0 × (r.3 < env.now.rows.terms) × AreItemsIn store.now stack.new.items) }
    ensures head { IfOk result (λ r. head_of (tree_of store.now r.1.0) ≡ Some r.3) }
    ensures taken { (st : State Tree) → st.stack ≡ items_at store.now stack.old.items → GivesRule (unfolding_of strict (tables_of env.now) st) result (λ r. (record { mode = in_definition; stream = drop (term_row env.now.file r.3).stream_at env.now.file; operands = listed (operands_of (tree_of store.now r.1.0)); target = tree_of store.now r.0.0; items = [] }, tree_of store.now r.2.0, items_at store.now stack.new.items)) }
{
    let (unfolded, left, right) = pop_unfolding(store, stack)?;
    let Some(term) = store.head(left) else {
        return Err(K::Unfold);
    };
    if !env.has_body(term) {
        return Err(K::Unfold);
    }
    Ok((unfolded, left, right, term))
}

/// What an unfolding takes: what is unfolded to, and below it the two sides of the obligation, perhaps
/// with the left one once more above them.
fn pop_unfolding(store: &Store, stack: &mut Vec<Item>) -> Result<(Id, Id, Id), K>
    requires { AreItemsIn store.now stack.old.items }
    ensures ids { IfOk result (λ ids. IsIn store.now ids.0.0 × IsIn store.now ids.1.0 × IsIn store.now ids.2.0 × AreItemsIn store.now stack.new.items) }
    ensures taken { GivesRule (pop_unfolding (items_at store.now stack.old.items)) result (λ ids. (tree_of store.now ids.0.0, tree_of store.now ids.1.0, tree_of store.now ids.2.0, items_at store.now stack.new.items)) }
{
    let unfolded = pop_expr(store, stack)?;
    let (left, right) = pop_sides(store, stack)?;
    Ok((unfolded, left, right))
}

/// The two sides of an obligation, perhaps with the left one once more above it.
fn pop_sides(store: &Store, stack: &mut Vec<Item>) -> Result<(Id, Id), K>
    requires { AreItemsIn store.now stack.old.items }
    ensures ids { IfOk result (λ ids. IsIn store.now ids.0.0 × IsIn store.now ids.1.0 × AreItemsIn store.now stack.new.items) }
    ensures taken { GivesRule (pop_sides strict (items_at store.now stack.old.items)) result (λ ids. (tree_of store.now ids.0.0, tree_of store.now ids.1.0, items_at store.now stack.new.items)) }
{
    match pop(store, stack)? {
        Item::Expr(middle) => {
            let (left, right) = pop_obligation(store, stack)?;
            if store.same(middle, left) {
                Ok((left, right))
            } else {
                Err(K::Unfold)
            }
        }
        Item::Obligation(left, right) => Ok((left, right)),
        Item::Proof(_) | Item::Conversion(_, _) => Err(K::Kind),
    }
}

/// Puts the conversion that an obligation asks for below the obligation.
#[tactic(auto, using(crate::proofs::Converting::put_in), unfolding(mz_machine_theory::specs::ProofMachine::proof_step))]
pub(crate) fn conv_cut(store: &Store, stack: &mut Vec<Item>) -> Result<(), Stop>
    requires { AreItemsIn store.now stack.old.items }
    ensures ids { OnOk result (AreItemsIn store.now stack.new.items) }
    ensures row { (tables : RowsBefore) (at n : ℕ) (st : State Tree) → st.stack ≡ items_at store.now stack.old.items → Gives (proof_step strict tables at code.ConvCut n st) result (λ _. with_stack st (items_at store.now stack.new.items)) }
{
    let (left, right) = match pop_obligation(store, stack) {
        Ok(sides) => sides,
        Err(rule) => return Err(Stop::Rule(rule)),
    };
    put_back(stack, Item::Conversion(left, right));
    push(stack, Item::Obligation(left, right))
}

/// Takes a conversion from the stack, for the heap.
#[tactic(auto, unfolding(mz_machine_theory::specs::ProofMachine::proof_step))]
pub(crate) fn conv_save(store: &Store, stack: &mut Vec<Item>) -> Result<Item, K>
    requires { AreItemsIn store.now stack.old.items }
    ensures ids { IfOk result (λ item. IsItemIn store.now item × AreItemsIn store.now stack.new.items) }
    ensures row { (tables : RowsBefore) (at n : ℕ) (st : State Tree) → st.stack ≡ items_at store.now stack.old.items → GivesRule (proof_step strict tables at code.ConvSave n st) result (λ item. record (with_stack st (items_at store.now stack.new.items)) { heap = st.heap ++ item_at store.now item ∷ [] }) }
{
    let (left, right) = pop_conversion(store, stack)?;
    Ok(Item::Conversion(left, right))
}
