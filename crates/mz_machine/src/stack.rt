//! What a command takes from the stack, whose top is its last item.
ghost use Rattle.std.specs.Prelude.{◌≡◌, ◌≤◌, ◌<◌, ◌-◌, ◌+◌, ◌++◌, ◌∷◌, [], false, IfOk, OnOk, IfSome, IfNone, vec_len, vec_capacity};
ghost use Rattle.mz_store.specs.Sharing.{Sharing, IsIn, tree_of};
ghost use Rattle.mz_store.specs.declared.item.Item.TheVariants.{Obligation, Conversion};
ghost use Rattle.mz_unify.specs.Stored.{items_at, item_at, AreItemsIn, IsItemIn};
ghost use Rattle.mz_machine_theory.specs.Premises.{pop, pop_expr, pop_proof, pop_obligation, pop_conversion, is_conversion};
ghost use Rattle.mz_machine.specs.OverStore.{GivesRule};

use mz_cmd::K;
use mz_store::{Id, Item, Store};

/// Takes the top item.
pub(crate) fn pop(store: &Store, stack: &mut Vec<Item>) -> Result<Item, K>
    requires { AreItemsIn store.now stack.old.items }
    ensures ids { IfOk result (λ item. IsItemIn store.now item × AreItemsIn store.now stack.new.items) }
    ensures items { IfOk result (λ item. stack.old.items ≡ stack.new.items ++ item ∷ []) }
    ensures taken { GivesRule (pop (items_at store.now stack.old.items)) result (λ item. (item_at store.now item, items_at store.now stack.new.items)) }
    ensures scratch { OnOk result (vec_len stack.new + 1 ≤ vec_len stack.old) }
    ensures capacity { vec_capacity stack.new ≡ vec_capacity stack.old }
{
    match stack.pop() {
        Some(item) => Ok(item),
        None => Err(K::Underflow),
    }
}

/// Takes an expression from the top.
#[inline(always)]
pub(crate) fn pop_expr(store: &Store, stack: &mut Vec<Item>) -> Result<Id, K>
    requires { AreItemsIn store.now stack.old.items }
    ensures ids { IfOk result (λ id. IsIn store.now id.0 × AreItemsIn store.now stack.new.items) }
    ensures taken { GivesRule (pop_expr (items_at store.now stack.old.items)) result (λ id. (tree_of store.now id.0, items_at store.now stack.new.items)) }
    ensures scratch { OnOk result (vec_len stack.new + 1 ≤ vec_len stack.old) }
    ensures capacity { vec_capacity stack.new ≡ vec_capacity stack.old }
{
    match stack.pop() {
        Some(Item::Expr(id)) => Ok(id),
        Some(_) => Err(K::Kind),
        None => Err(K::Underflow),
    }
}

/// Takes a proof from the top.
#[inline(always)]
pub(crate) fn pop_proof(store: &Store, stack: &mut Vec<Item>) -> Result<Id, K>
    requires { AreItemsIn store.now stack.old.items }
    ensures ids { IfOk result (λ id. IsIn store.now id.0 × AreItemsIn store.now stack.new.items) }
    ensures taken { GivesRule (pop_proof (items_at store.now stack.old.items)) result (λ id. (tree_of store.now id.0, items_at store.now stack.new.items)) }
    ensures scratch { OnOk result (vec_len stack.new + 1 ≤ vec_len stack.old) }
    ensures capacity { vec_capacity stack.new ≡ vec_capacity stack.old }
{
    match stack.pop() {
        Some(Item::Proof(id)) => Ok(id),
        Some(_) => Err(K::Kind),
        None => Err(K::Underflow),
    }
}

/// Takes an obligation from the top: its left side and its right side.
pub(crate) fn pop_obligation(store: &Store, stack: &mut Vec<Item>) -> Result<(Id, Id), K>
    requires { AreItemsIn store.now stack.old.items }
    ensures ids { IfOk result (λ ids. IsIn store.now ids.0.0 × IsIn store.now ids.1.0 × AreItemsIn store.now stack.new.items) }
    ensures items { IfOk result (λ ids. stack.old.items ≡ stack.new.items ++ Obligation ids.0 ids.1 ∷ []) }
    ensures taken { GivesRule (pop_obligation (items_at store.now stack.old.items)) result (λ ids. (tree_of store.now ids.0.0, tree_of store.now ids.1.0, items_at store.now stack.new.items)) }
    ensures scratch { OnOk result (vec_len stack.new + 1 ≤ vec_len stack.old) }
    ensures capacity { vec_capacity stack.new ≡ vec_capacity stack.old }
{
    match stack.pop() {
        Some(Item::Obligation(left, right)) => Ok((left, right)),
        Some(_) => Err(K::Kind),
        None => Err(K::Underflow),
    }
}

/// Takes a conversion from the top: its left side and its right side.
pub(crate) fn pop_conversion(store: &Store, stack: &mut Vec<Item>) -> Result<(Id, Id), K>
    requires { AreItemsIn store.now stack.old.items }
    ensures ids { IfOk result (λ ids. IsIn store.now ids.0.0 × IsIn store.now ids.1.0 × AreItemsIn store.now stack.new.items) }
    ensures taken { GivesRule (pop_conversion (items_at store.now stack.old.items)) result (λ ids. (tree_of store.now ids.0.0, tree_of store.now ids.1.0, items_at store.now stack.new.items)) }
    ensures scratch { OnOk result (vec_len stack.new + 1 ≤ vec_len stack.old) }
    ensures capacity { vec_capacity stack.new ≡ vec_capacity stack.old }
{
    match stack.pop() {
        Some(Item::Conversion(left, right)) => Ok((left, right)),
        Some(_) => Err(K::Kind),
        None => Err(K::Underflow),
    }
}

/// The sides of a conversion.
#[inline(always)]
pub(crate) fn conversion_of(item: Item) -> Option<(Id, Id)>
    ensures some { IfSome result (λ sides. item ≡ Conversion sides.0 sides.1) }
    ensures none { IfNone result ((s : Sharing) → is_conversion (item_at s item) ≡ false) }
{
    match item {
        Item::Conversion(left, right) => Some((left, right)),
        Item::Expr(_) | Item::Proof(_) | Item::Obligation(_, _) => None,
    }
}
