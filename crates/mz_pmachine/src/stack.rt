//! What a command takes from the stack, whose top is its last item.
ghost use Rattle.std.specs.Prelude.{◌≡◌, ◌≤◌, ◌<◌, ◌-◌, ◌+◌, false, IfOk, OnOk, IfSome, IfNone, vec_len, vec_capacity};
ghost use Rattle.mz_pmachine_unify.specs.Numbering.{Numbering, IsIn, expr_of};
ghost use Rattle.mz_store.specs.declared.item.Item.TheVariants.{Conversion};
ghost use Rattle.mz_pmachine_unify.specs.Stored.{items_at, item_at, AreItemsIn, IsItemIn};
ghost use Rattle.mz_machine_theory.specs.Premises.{pop_expr, pop_proof, pop_obligation, pop_conversion, is_conversion};
ghost use Rattle.mz_machine.specs.OverStore.{GivesRule};

use mz_cmd::K;
use mz_pmachine_unify::Nodes;
use mz_store::{Id, Item};

/// Takes an expression from the top.
pub(crate) fn pop_expr(nodes: &Nodes, stack: &mut Vec<Item>) -> Result<Id, K>
    requires { AreItemsIn nodes.now stack.old.items }
    ensures ids { IfOk result (λ id. IsIn nodes.now id.0 × AreItemsIn nodes.now stack.new.items) }
    ensures taken { GivesRule (pop_expr (items_at nodes.now stack.old.items)) result (λ id. (expr_of nodes.now id.0, items_at nodes.now stack.new.items)) }
    ensures scratch { OnOk result (vec_len stack.new + 1 ≤ vec_len stack.old) }
    ensures capacity { vec_capacity stack.new ≡ vec_capacity stack.old }
{
    match stack.pop() {
        Some(Item::Expr(id)) => Ok(id),
        Some(_) => Err(K::Kind),
        None => Err(K::Underflow),
    }
}

/// Takes a proof from the top.
pub(crate) fn pop_proof(nodes: &Nodes, stack: &mut Vec<Item>) -> Result<Id, K>
    requires { AreItemsIn nodes.now stack.old.items }
    ensures ids { IfOk result (λ id. IsIn nodes.now id.0 × AreItemsIn nodes.now stack.new.items) }
    ensures taken { GivesRule (pop_proof (items_at nodes.now stack.old.items)) result (λ id. (expr_of nodes.now id.0, items_at nodes.now stack.new.items)) }
    ensures scratch { OnOk result (vec_len stack.new + 1 ≤ vec_len stack.old) }
    ensures capacity { vec_capacity stack.new ≡ vec_capacity stack.old }
{
    match stack.pop() {
        Some(Item::Proof(id)) => Ok(id),
        Some(_) => Err(K::Kind),
        None => Err(K::Underflow),
    }
}

/// Takes an obligation from the top: its left side and its right side.
pub(crate) fn pop_obligation(nodes: &Nodes, stack: &mut Vec<Item>) -> Result<(Id, Id), K>
    requires { AreItemsIn nodes.now stack.old.items }
    ensures ids { IfOk result (λ ids. IsIn nodes.now ids.0.0 × IsIn nodes.now ids.1.0 × AreItemsIn nodes.now stack.new.items) }
    ensures taken { GivesRule (pop_obligation (items_at nodes.now stack.old.items)) result (λ ids. (expr_of nodes.now ids.0.0, expr_of nodes.now ids.1.0, items_at nodes.now stack.new.items)) }
    ensures scratch { OnOk result (vec_len stack.new + 1 ≤ vec_len stack.old) }
    ensures capacity { vec_capacity stack.new ≡ vec_capacity stack.old }
{
    match stack.pop() {
        Some(Item::Obligation(left, right)) => Ok((left, right)),
        Some(_) => Err(K::Kind),
        None => Err(K::Underflow),
    }
}

/// Takes a conversion from the top: its left side and its right side.
pub(crate) fn pop_conversion(nodes: &Nodes, stack: &mut Vec<Item>) -> Result<(Id, Id), K>
    requires { AreItemsIn nodes.now stack.old.items }
    ensures ids { IfOk result (λ ids. IsIn nodes.now ids.0.0 × IsIn nodes.now ids.1.0 × AreItemsIn nodes.now stack.new.items) }
    ensures taken { GivesRule (pop_conversion (items_at nodes.now stack.old.items)) result (λ ids. (expr_of nodes.now ids.0.0, expr_of nodes.now ids.1.0, items_at nodes.now stack.new.items)) }
    ensures scratch { OnOk result (vec_len stack.new + 1 ≤ vec_len stack.old) }
    ensures capacity { vec_capacity stack.new ≡ vec_capacity stack.old }
{
    match stack.pop() {
        Some(Item::Conversion(left, right)) => Ok((left, right)),
        Some(_) => Err(K::Kind),
        None => Err(K::Underflow),
    }
}

/// The sides of a conversion.
pub(crate) fn conversion_of(item: Item) -> Option<(Id, Id)>
    ensures some { IfSome result (λ sides. item ≡ Conversion sides.0 sides.1) }
    ensures none { IfNone result ((s : Numbering) → is_conversion (item_at s item) ≡ false) }
{
    match item {
        Item::Conversion(left, right) => Some((left, right)),
        Item::Expr(_) | Item::Proof(_) | Item::Obligation(_, _) => None,
    }
}
