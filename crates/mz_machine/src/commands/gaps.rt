//! Gaps in proofs, where they are let through.
ghost use Rattle.std.specs.Prelude.{ℕ, ◌≡◌, ◌≤◌, OnOk, vec_capacity};
ghost use Rattle.mz_cmd.specs.declared.code.ProofCode.TheVariants as code;
ghost use Rattle.mz_logic_theory.specs.Tree.{Tree};
ghost use Rattle.mz_store.specs.Sharing.{IsOver};
ghost use Rattle.mz_machine_theory.specs.Profile.{draft};
ghost use Rattle.mz_unify.specs.Stored.{items_at, AreItemsIn};
ghost use Rattle.mz_machine_theory.specs.MachineState.{State};
ghost use Rattle.mz_machine_theory.specs.ProofMachine.{proof_step};
ghost use Rattle.mz_machine_env.specs.Before.{tables_of, signatures_of};
ghost use Rattle.mz_machine.specs.OverStore.{with_stack, GivesRule};

use crate::commands::heap::is_provable;
use crate::stack::pop;
use mz_cmd::K;
use mz_logic_theory::Terms;
use mz_machine_env::{Environment, put_back};
use mz_store::{Item, Store};

/// Leaves a gap: the expression on top becomes a proof of it, or the obligation on top is dropped. It
/// takes no memory.
pub(crate) fn gap(env: &Environment, store: &Store, stack: &mut Vec<Item>) -> Result<(), K>
    requires over { IsOver (signatures_of env.now) store.now }
    requires stack { AreItemsIn store.now stack.old.items }
    ensures ids { OnOk result (AreItemsIn store.now stack.new.items) }
    ensures row { (at n : ℕ) (st : State Tree) → st.ctx ≡ store.now.context → st.stack ≡ items_at store.now stack.old.items → GivesRule (proof_step draft (tables_of env.now) at code.Sorry n st) result (λ _. with_stack st (items_at store.now stack.new.items)) }
    ensures capacity { vec_capacity stack.old ≤ vec_capacity stack.new }
{
    match pop(store, stack)? {
        Item::Expr(claim) => {
            if !is_provable(env, store.sort_of(claim)) {
                return Err(K::NotProvable);
            }
            put_back(stack, Item::Proof(claim));
            Ok(())
        }
        Item::Obligation(left, right) => {
            if store.sort_of(left) == store.sort_of(right) {
                Ok(())
            } else {
                Err(K::Sorry)
            }
        }
        Item::Proof(_) | Item::Conversion(_, _) => Err(K::Kind),
    }
}
