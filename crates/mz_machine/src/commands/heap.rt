//! The heap: references to it, and what is kept there.
ghost use Rattle.std.specs.Prelude.{ℕ, ◌≡◌, ◌≤◌, ◌<◌, ◌+◌, ◌++◌, ◌∷◌, [], IfOk, OnOk, length, slice_get, Some, vec_capacity};
ghost use Rattle.mz_cmd.specs.declared.code.ProofCode.TheVariants as code;
ghost use Rattle.mz_logic_theory.specs.Tree.{Tree};
ghost use Rattle.mz_store.specs.Sharing.{IsIn, IsOver, tree_of};
ghost use Rattle.mz_store.specs.declared.item.Item.TheVariants.{Conversion};
ghost use Rattle.mz_store.specs.declared.item.Id.{Id};
ghost use Rattle.mz_machine_theory.specs.Profile.{strict, expr, proof, conversion};
ghost use Rattle.mz_unify.specs.Stored.{items_at, item_at, AreItemsIn, IsItemIn};
ghost use Rattle.mz_machine_theory.specs.MachineState.{RowsBefore, State};
ghost use Rattle.mz_machine_theory.specs.Premises.{is_provable_sort, may_be_dummy_sort};
ghost use Rattle.mz_machine_theory.specs.ProofMachine.{proof_step, referred};
ghost use Rattle.mz_machine_env.specs.Before.{tables_of, signatures_of};
ghost use Rattle.mz_machine.specs.OverStore.{heap_at, with_stack, Gives, GivesRule, NeverWants, Grows};

use crate::commands::by_rule;
use crate::stack::{conversion_of, pop_expr, pop_obligation};
use mz_cmd::K;
use mz_logic_theory::Terms;
use mz_machine_env::{Environment, is_obligation, kept_at, top};
use mz_store::{Id, Item, Store};
use mz_unify::{Stop, push};

/// Pays the obligation on top by a conversion between the same sides. It takes no memory.
fn pay(store: &Store, left: Id, right: Id, stack: &mut Vec<Item>) -> Result<(), K>
    requires left { IsIn store.now left.0 }
    requires right { IsIn store.now right.0 }
    requires stack { AreItemsIn store.now stack.old.items }
    ensures ids { OnOk result (AreItemsIn store.now stack.new.items) }
    ensures row { (st : State Tree) → st.stack ≡ items_at store.now stack.old.items → GivesRule (referred strict (conversion (tree_of store.now left.0) (tree_of store.now right.0)) st) result (λ _. with_stack st (items_at store.now stack.new.items)) }
    ensures capacity { vec_capacity stack.new ≡ vec_capacity stack.old }
{
    let (owed_left, owed_right) = pop_obligation(store, stack)?;
    if store.same(left, owed_left) && store.same(right, owed_right) {
        Ok(())
    } else {
        Err(K::ConversionReference)
    }
}

/// Pushes an item of the heap; a conversion pays the obligation on top instead.
#[inline(always)]
fn refer_to(store: &Store, item: Item, stack: &mut Vec<Item>) -> Result<(), Stop>
    requires item { IsItemIn store.now item }
    requires stack { AreItemsIn store.now stack.old.items }
    ensures ids { OnOk result (AreItemsIn store.now stack.new.items) }
    ensures row { (st : State Tree) → st.stack ≡ items_at store.now stack.old.items → Gives (referred strict (item_at store.now item) st) result (λ _. with_stack st (items_at store.now stack.new.items)) }
    ensures never { (l r : Id) → item ≡ Conversion l r → NeverWants result }
    ensures capacity { (l r : Id) → item ≡ Conversion l r → vec_capacity stack.old ≤ vec_capacity stack.new }
{
    let Some((left, right)) = conversion_of(item) else {
        return push(stack, item);
    };
    by_rule(pay(store, left, right, stack))
}

/// Pushes what stands at a place of the heap; a conversion pays the obligation on top instead, and
/// takes no memory.
#[inline(always)]
pub(crate) fn refer(
    store: &Store,
    place: u32,
    heap: &[Item],
    stack: &mut Vec<Item>,
) -> Result<(), Stop>
    requires heap { AreItemsIn store.now heap.now }
    requires stack { AreItemsIn store.now stack.old.items }
    ensures ids { OnOk result (AreItemsIn store.now stack.new.items) }
    ensures row { (tables : RowsBefore) (at : ℕ) (st : State Tree) → st.heap ≡ heap_at store.now heap.now → st.stack ≡ items_at store.now stack.old.items → Gives (proof_step strict tables at code.Ref place st) result (λ _. with_stack st (items_at store.now stack.new.items)) }
    ensures never { (l r : Id) → slice_get heap.now place ≡ Some (Conversion l r) → NeverWants result }
    ensures capacity { (l r : Id) → slice_get heap.now place ≡ Some (Conversion l r) → vec_capacity stack.old ≤ vec_capacity stack.new }
{
    let Some(item) = kept_at(heap, place) else {
        return Err(Stop::Rule(K::HeapIndex));
    };
    refer_to(store, item, stack)
}

/// Pays the obligation on top with a conversion of the heap. It takes no memory.
pub(crate) fn conv_refer(
    store: &Store,
    place: u32,
    heap: &[Item],
    stack: &mut Vec<Item>,
) -> Result<(), K>
    requires heap { AreItemsIn store.now heap.now }
    requires stack { AreItemsIn store.now stack.old.items }
    ensures ids { OnOk result (AreItemsIn store.now stack.new.items) }
    ensures row { (tables : RowsBefore) (at : ℕ) (st : State Tree) → st.heap ≡ heap_at store.now heap.now → st.stack ≡ items_at store.now stack.old.items → GivesRule (proof_step strict tables at code.ConvRef place st) result (λ _. with_stack st (items_at store.now stack.new.items)) }
    ensures capacity { vec_capacity stack.new ≡ vec_capacity stack.old }
{
    let Some(item) = kept_at(heap, place) else {
        return Err(K::HeapIndex);
    };
    let Some((left, right)) = conversion_of(item) else {
        return Err(K::Kind);
    };
    pay(store, left, right, stack)
}

/// The item on top, for the heap too: no obligation.
pub(crate) fn save(store: &Store, stack: &[Item]) -> Result<Item, K>
    requires { AreItemsIn store.now stack.now }
    ensures ids { IfOk result (λ item. IsItemIn store.now item) }
    ensures row { (tables : RowsBefore) (at n : ℕ) (st : State Tree) → st.stack ≡ items_at store.now stack.now → GivesRule (proof_step strict tables at code.Save n st) result (λ item. record st { heap = st.heap ++ item_at store.now item ∷ [] }) }
{
    let Some(item) = top(stack) else {
        return Err(K::Underflow);
    };
    if is_obligation(item) {
        return Err(K::SaveKind);
    }
    Ok(item)
}

/// Whether dummies may have the sort: it is declared, neither strict nor free.
fn may_be_dummy(env: &Environment, sort: u32) -> bool
    ensures { result ≡ may_be_dummy_sort (slice_get (tables_of env.now).sorts sort) }
{
    if sort >= env.sorts() {
        return false;
    }
    let mods = env.mods(sort);
    !mods.is_strict() && !mods.is_free()
}

/// A new bound variable of the sort, for the heap and the stack.
pub(crate) fn dummy(env: &Environment, sort: u32, store: &mut Store) -> Result<Id, Stop>
    requires over { IsOver (signatures_of env.now) store.old }
    ensures grows { OnOk result (Grows (signatures_of env.now) store.old store.new) }
    ensures nodes { length store.new.entries ≤ length store.old.entries + 1 }
    ensures ids { IfOk result (λ id. IsIn store.new id.0) }
    ensures row { (at : ℕ) (st : State Tree) → st.ctx ≡ store.old.context → Gives (proof_step strict (tables_of env.now) at code.Dummy sort st) result (λ id. record { ctx = store.new.context; heap = st.heap ++ expr (tree_of store.new id.0) ∷ []; stack = expr (tree_of store.new id.0) ∷ st.stack; hyps = st.hyps }) }
{
    if !may_be_dummy(env, sort) {
        return Err(Stop::Rule(K::DummySort));
    }
    if store.bound_count() >= 55 {
        return Err(Stop::Rule(K::DummyCount));
    }
    match store.dummy(sort) {
        Ok(id) => Ok(id),
        Err(_) => Err(Stop::Mem),
    }
}

/// Whether claims may have the sort: it is declared and provable.
pub(crate) fn is_provable(env: &Environment, sort: u32) -> bool
    ensures { result ≡ is_provable_sort (slice_get (tables_of env.now).sorts sort) }
{
    if sort >= env.sorts() {
        return false;
    }
    env.mods(sort).is_provable()
}

/// Takes an expression of a provable sort from the stack: a hypothesis, of which the heap has a
/// proof from then on.
pub(crate) fn hyp(env: &Environment, store: &Store, stack: &mut Vec<Item>) -> Result<Id, K>
    requires over { IsOver (signatures_of env.now) store.now }
    requires stack { AreItemsIn store.now stack.old.items }
    ensures ids { IfOk result (λ id. IsIn store.now id.0 × AreItemsIn store.now stack.new.items) }
    ensures row { (at n : ℕ) (st : State Tree) → st.ctx ≡ store.now.context → st.stack ≡ items_at store.now stack.old.items → GivesRule (proof_step strict (tables_of env.now) at code.Hyp n st) result (λ id. record { ctx = st.ctx; heap = st.heap ++ proof (tree_of store.now id.0) ∷ []; stack = items_at store.now stack.new.items; hyps = st.hyps ++ tree_of store.now id.0 ∷ [] }) }
{
    let claim = pop_expr(store, stack)?;
    if is_provable(env, store.sort_of(claim)) {
        Ok(claim)
    } else {
        Err(K::NotProvable)
    }
}
