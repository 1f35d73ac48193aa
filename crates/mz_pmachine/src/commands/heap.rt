//! The heap: references to it, and what is kept there.
ghost use Rattle.std.specs.Prelude.{ℕ, ◌≡◌, ◌≤◌, ◌<◌, ◌+◌, ◌++◌, ◌∷◌, [], IfOk, OnOk, length, slice_get, Some};
ghost use Rattle.mz_cmd.specs.declared.code.ProofCode.TheVariants as code;
ghost use Rattle.mz_pmachine_unify.specs.Numbering.{IsIn, IsOver, expr_of};
ghost use Rattle.mz_store.specs.declared.item.Item.TheVariants.{Conversion};
ghost use Rattle.mz_store.specs.declared.item.Id.{Id};
ghost use Rattle.mz_machine_theory.specs.Profile.{expr, proof, conversion};
ghost use Rattle.mz_pmachine_unify.specs.Stored.{items_at, item_at, AreItemsIn, IsItemIn};
ghost use Rattle.mz_machine_theory.specs.MachineState.{RowsBefore, State};
ghost use Rattle.mz_machine_theory.specs.Premises.{is_provable_sort, may_be_dummy_sort};
ghost use Rattle.mz_machine_theory.specs.ProofMachine.{proof_step, referred};
ghost use Rattle.mz_machine_env.specs.Before.{tables_of, signatures_of};
ghost use Rattle.mz_machine.specs.OverStore.{GivesRule, Gives};
ghost use Rattle.mz_pmachine.specs.OverNodes.{heap_at, with_stack, Grows};
ghost use Rattle.mz_pmachine_theory.specs.NodeIdentity.{Numbered, portable};

use crate::stack::{conversion_of, pop_expr, pop_obligation};
use mz_cmd::K;
use mz_logic_theory::Terms;
use mz_machine::by_rule;
use mz_machine_env::{Environment, is_obligation, kept_at, top};
use mz_pmachine_unify::Nodes;
use mz_store::{Id, Item};
use mz_unify::{Stop, push};

/// Pays the obligation on top by a conversion between the same sides.
fn pay(nodes: &Nodes, left: Id, right: Id, stack: &mut Vec<Item>) -> Result<(), K>
    requires left { IsIn nodes.now left.0 }
    requires right { IsIn nodes.now right.0 }
    requires stack { AreItemsIn nodes.now stack.old.items }
    ensures ids { OnOk result (AreItemsIn nodes.now stack.new.items) }
    ensures row { (st : State Numbered) → st.stack ≡ items_at nodes.now stack.old.items → GivesRule (referred portable (conversion (expr_of nodes.now left.0) (expr_of nodes.now right.0)) st) result (λ _. with_stack st (items_at nodes.now stack.new.items)) }
{
    let (owed_left, owed_right) = pop_obligation(nodes, stack)?;
    if nodes.same(left, owed_left) && nodes.same(right, owed_right) {
        Ok(())
    } else {
        Err(K::ConversionReference)
    }
}

/// Pushes an item of the heap; a conversion pays the obligation on top instead.
fn refer_to(nodes: &Nodes, item: Item, stack: &mut Vec<Item>) -> Result<(), Stop>
    requires item { IsItemIn nodes.now item }
    requires stack { AreItemsIn nodes.now stack.old.items }
    ensures ids { OnOk result (AreItemsIn nodes.now stack.new.items) }
    ensures row { (st : State Numbered) → st.stack ≡ items_at nodes.now stack.old.items → Gives (referred portable (item_at nodes.now item) st) result (λ _. with_stack st (items_at nodes.now stack.new.items)) }
{
    let Some((left, right)) = conversion_of(item) else {
        return push(stack, item);
    };
    by_rule(pay(nodes, left, right, stack))
}

/// Pushes what stands at a place of the heap; a conversion pays the obligation on top instead.
pub(crate) fn refer(
    nodes: &Nodes,
    place: u32,
    heap: &[Item],
    stack: &mut Vec<Item>,
) -> Result<(), Stop>
    requires heap { AreItemsIn nodes.now heap.now }
    requires stack { AreItemsIn nodes.now stack.old.items }
    ensures ids { OnOk result (AreItemsIn nodes.now stack.new.items) }
    ensures row { (tables : RowsBefore) (at : ℕ) (st : State Numbered) → st.heap ≡ heap_at nodes.now heap.now → st.stack ≡ items_at nodes.now stack.old.items → Gives (proof_step portable tables at code.Ref place st) result (λ _. with_stack st (items_at nodes.now stack.new.items)) }
{
    let Some(item) = kept_at(heap, place) else {
        return Err(Stop::Rule(K::HeapIndex));
    };
    refer_to(nodes, item, stack)
}

/// The item on top, for the heap too: no obligation.
pub(crate) fn save(nodes: &Nodes, stack: &[Item]) -> Result<Item, K>
    requires { AreItemsIn nodes.now stack.now }
    ensures ids { IfOk result (λ item. IsItemIn nodes.now item) }
    ensures row { (tables : RowsBefore) (at n : ℕ) (st : State Numbered) → st.stack ≡ items_at nodes.now stack.now → GivesRule (proof_step portable tables at code.Save n st) result (λ item. record st { heap = st.heap ++ item_at nodes.now item ∷ [] }) }
{
    let Some(item) = top(stack) else {
        return Err(K::Underflow);
    };
    if is_obligation(item) {
        return Err(K::SaveKind);
    }
    Ok(item)
}

/// Whether dummies may have the sort: it is declared, neither portable nor free.
fn may_be_dummy(env: &Environment, sort: u32) -> bool
    ensures { result ≡ may_be_dummy_sort (slice_get (tables_of env.now).sorts sort) }
{
    if sort >= env.sorts() {
        return false;
    }
    let mods = env.mods(sort);
    !mods.is_strict() && !mods.is_free()
}

/// A new bound variable of the sort, for the heap and the stack.
pub(crate) fn dummy(env: &Environment, sort: u32, nodes: &mut Nodes) -> Result<Id, Stop>
    requires over { IsOver (signatures_of env.now) nodes.old }
    ensures grows { OnOk result (Grows (signatures_of env.now) nodes.old nodes.new) }
    ensures nodes { length nodes.new.entries ≤ length nodes.old.entries + 1 }
    ensures next { OnOk result (nodes.new.next ≡ nodes.old.next) }
    ensures ids { IfOk result (λ id. IsIn nodes.new id.0) }
    ensures row { (at : ℕ) (st : State Numbered) → st.ctx ≡ nodes.old.context → Gives (proof_step portable (tables_of env.now) at code.Dummy sort st) result (λ id. record { ctx = nodes.new.context; heap = st.heap ++ expr (expr_of nodes.new id.0) ∷ []; stack = expr (expr_of nodes.new id.0) ∷ st.stack; hyps = st.hyps }) }
{
    if !may_be_dummy(env, sort) {
        return Err(Stop::Rule(K::DummySort));
    }
    if nodes.bound_count() >= 55 {
        return Err(Stop::Rule(K::DummyCount));
    }
    match nodes.dummy(sort) {
        Ok(id) => Ok(id),
        Err(_) => Err(Stop::Mem),
    }
}

/// Whether claims may have the sort: it is declared and provable.
pub(crate) fn is_provable(env: &Environment, sort: u32) -> bool
    ensures { result ≡ is_provable_sort (slice_get (tables_of env.now).sorts sort) }
{
    if sort >= env.sorts() {
        return false;
    }
    env.mods(sort).is_provable()
}

/// Takes an expression of a provable sort from the stack: a hypothesis, of which the heap has a
/// proof from then on.
pub(crate) fn hyp(env: &Environment, nodes: &Nodes, stack: &mut Vec<Item>) -> Result<Id, K>
    requires over { IsOver (signatures_of env.now) nodes.now }
    requires stack { AreItemsIn nodes.now stack.old.items }
    ensures ids { IfOk result (λ id. IsIn nodes.now id.0 × AreItemsIn nodes.now stack.new.items) }
    ensures row { (at n : ℕ) (st : State Numbered) → st.ctx ≡ nodes.now.context → st.stack ≡ items_at nodes.now stack.old.items → GivesRule (proof_step portable (tables_of env.now) at code.Hyp n st) result (λ id. record { ctx = st.ctx; heap = st.heap ++ proof (expr_of nodes.now id.0) ∷ []; stack = items_at nodes.now stack.new.items; hyps = st.hyps ++ expr_of nodes.now id.0 ∷ [] }) }
{
    let claim = pop_expr(nodes, stack)?;
    if is_provable(env, nodes.sort_of(claim)) {
        Ok(claim)
    } else {
        Err(K::NotProvable)
    }
}
