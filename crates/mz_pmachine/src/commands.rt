//! What each command does: its premises in order, and what it leaves.
pub(crate) mod conversions;
pub(crate) mod heap;
pub(crate) mod terms;

ghost use Rattle.std.specs.Prelude.{ℕ, ◌≡◌, ◌<◌, ◌≤◌, ◌+◌, ◌^◌, List, OnOk, length};
ghost use Rattle.mz_pmachine_unify.specs.Numbering.{AreIn, IsOver};
ghost use Rattle.mz_store.specs.declared.item.Id.{Id};
ghost use Rattle.mz_pmachine_unify.specs.Stored.{AreItemsIn};
ghost use Rattle.mz_machine_theory.specs.ProofMachine.{proof_step};
ghost use Rattle.mz_machine_theory.specs.Bodies.{row_steps};
ghost use Rattle.mz_machine_env.specs.Before.{tables_of, signatures_of};
ghost use Rattle.mz_pmachine.specs.OverNodes.{state_at, code_of, code_of_keeping, Grows};
ghost use Rattle.mz_machine_env.specs.CommandCodes.{code_of_making, code_of_converting};
ghost use Rattle.mz_machine_env.specs.declared.command.Converting.TheVariants.{Cong};
ghost use Rattle.mz_pmachine.specs.declared.command.Command.TheVariants.{Converts};
ghost use Rattle.mz_machine.specs.OverStore.{Gives, UnlessMem};
ghost use Rattle.mz_pmachine_theory.specs.NodeIdentity.{portable};

use crate::command::{Command, Keeping};
use conversions::{conv, conv_cut, conv_save, refl, symm, unfold};
use heap::{dummy, hyp, refer, save};
use mz_cmd::{K, Steps};
use mz_machine::{assume, by_rule};
use mz_machine_env::{CommandBuffers, Converting, Environment, Making};
use mz_pmachine_unify::Nodes;
use mz_store::{Id, Item};
use mz_unify::{Stop, push};
use std::sync::ledger::Ledger;
use terms::{term, thm};

/// Executes a command that makes an expression or a proof.
fn make<L: Ledger>(
    env: &Environment,
    at: u32,
    command: Making,
    value: u32,
    nodes: &mut Nodes,
    heap: &mut Vec<Item>,
    stack: &mut Vec<Item>,
    spare: &mut CommandBuffers,
    steps: &mut Steps<L>,
) -> Result<(), Stop>
    requires number { nodes.old.next ≤ at }
    requires over { IsOver (signatures_of env.now) nodes.old }
    requires heap { AreItemsIn nodes.old heap.old.items }
    requires stack { AreItemsIn nodes.old stack.old.items }
    ensures grows { OnOk result (Grows (signatures_of env.now) nodes.old nodes.new) }
    ensures nodes { length nodes.new.entries ≤ length nodes.old.entries + 1 }
    ensures ids { OnOk result (AreItemsIn nodes.new heap.new.items × AreItemsIn nodes.new stack.new.items) }
    ensures next { OnOk result (nodes.new.next ≤ at + 1) }
    ensures row { (hyps : List Id) → AreIn nodes.old hyps → Gives (proof_step portable (tables_of env.now) at (code_of_making command) value (state_at nodes.old heap.old.items stack.old.items hyps)) result (λ _. state_at nodes.new heap.new.items stack.new.items hyps) }
    ensures steps { (hyps : List Id) → UnlessMem result (steps.new ≡ steps.old + row_steps portable (tables_of env.now) (code_of_making command) value (state_at nodes.old heap.old.items stack.old.items hyps)) }
    ensures most { steps.new ≤ steps.old + length env.now.file }
{
    match command {
        Making::Term => {
            term(env, at, value, nodes, stack, &mut spare.operands)?;
            Ok(())
        }
        Making::TermSave => {
            let made = term(env, at, value, nodes, stack, &mut spare.operands)?;
            push(heap, Item::Expr(made))
        }
        Making::Thm => {
            thm(env, value, nodes, stack, spare, steps)?;
            Ok(())
        }
        Making::ThmSave => {
            let proved = thm(env, value, nodes, stack, spare, steps)?;
            push(heap, Item::Proof(proved))
        }
    }
}

/// Executes a command over the heap.
fn keep(
    env: &Environment,
    command: Keeping,
    value: u32,
    nodes: &mut Nodes,
    heap: &mut Vec<Item>,
    stack: &mut Vec<Item>,
    hyps: &mut Vec<Id>,
) -> Result<(), Stop>
    requires over { IsOver (signatures_of env.now) nodes.old }
    requires heap { AreItemsIn nodes.old heap.old.items }
    requires stack { AreItemsIn nodes.old stack.old.items }
    requires hyps { AreIn nodes.old hyps.old.items }
    requires few { length hyps.old.items < 2 ^ 32 }
    ensures grows { OnOk result (Grows (signatures_of env.now) nodes.old nodes.new) }
    ensures nodes { length nodes.new.entries ≤ length nodes.old.entries + 1 }
    ensures ids { OnOk result (AreItemsIn nodes.new heap.new.items × AreItemsIn nodes.new stack.new.items × AreIn nodes.new hyps.new.items) }
    ensures few { OnOk result (length hyps.new.items < 2 ^ 32) }
    ensures next { OnOk result (nodes.new.next ≡ nodes.old.next) }
    ensures row { (at : ℕ) → Gives (proof_step portable (tables_of env.now) at (code_of_keeping command) value (state_at nodes.old heap.old.items stack.old.items hyps.old.items)) result (λ _. state_at nodes.new heap.new.items stack.new.items hyps.new.items) }
{
    match command {
        Keeping::Ref => refer(nodes, value, heap, stack),
        Keeping::Dummy => {
            let made = dummy(env, value, nodes)?;
            push(heap, Item::Expr(made))?;
            push(stack, Item::Expr(made))?;
            Ok(())
        }
        Keeping::Hyp => match hyp(env, nodes, stack) {
            Ok(claim) => assume(claim, heap, hyps),
            Err(rule) => Err(Stop::Rule(rule)),
        },
        Keeping::Save => match save(nodes, stack) {
            Ok(item) => push(heap, item),
            Err(rule) => Err(Stop::Rule(rule)),
        },
    }
}

/// Executes a command on conversions other than Cong. A gap is refused.
fn convert<L: Ledger>(
    env: &Environment,
    command: Converting,
    nodes: &Nodes,
    heap: &mut Vec<Item>,
    stack: &mut Vec<Item>,
    spare: &mut CommandBuffers,
    steps: &mut Steps<L>,
) -> Result<(), Stop>
    requires over { IsOver (signatures_of env.now) nodes.now }
    requires heap { AreItemsIn nodes.now heap.old.items }
    requires stack { AreItemsIn nodes.now stack.old.items }
    requires other { command ≡ Cong → ⊥ }
    ensures ids { OnOk result (AreItemsIn nodes.now heap.new.items × AreItemsIn nodes.now stack.new.items) }
    ensures row { (at value : ℕ) (hyps : List Id) → Gives (proof_step portable (tables_of env.now) at (code_of_converting command) value (state_at nodes.now heap.old.items stack.old.items hyps)) result (λ _. state_at nodes.now heap.new.items stack.new.items hyps) }
    ensures steps { (value : ℕ) (hyps : List Id) → UnlessMem result (steps.new ≡ steps.old + row_steps portable (tables_of env.now) (code_of_converting command) value (state_at nodes.now heap.old.items stack.old.items hyps)) }
    ensures most { steps.new ≤ steps.old + length env.now.file }
{
    match command {
        Converting::Conv => by_rule(conv(nodes, stack)),
        Converting::Refl => by_rule(refl(nodes, stack)),
        Converting::Symm => by_rule(symm(nodes, stack)),
        Converting::Cong => unreachable!(),
        Converting::Unfold => unfold(env, nodes, stack, spare, steps),
        Converting::ConvCut => conv_cut(nodes, stack),
        Converting::ConvSave => match conv_save(nodes, stack) {
            Ok(item) => push(heap, item),
            Err(rule) => Err(Stop::Rule(rule)),
        },
        Converting::Sorry => Err(Stop::Rule(K::Sorry)),
    }
}

/// Executes the command at a place, which is not Cong.
pub(crate) fn execute<L: Ledger>(
    env: &Environment,
    at: u32,
    command: Command,
    value: u32,
    nodes: &mut Nodes,
    heap: &mut Vec<Item>,
    stack: &mut Vec<Item>,
    hyps: &mut Vec<Id>,
    spare: &mut CommandBuffers,
    steps: &mut Steps<L>,
) -> Result<(), Stop>
    requires number { nodes.old.next ≤ at }
    requires over { IsOver (signatures_of env.now) nodes.old }
    requires heap { AreItemsIn nodes.old heap.old.items }
    requires stack { AreItemsIn nodes.old stack.old.items }
    requires hyps { AreIn nodes.old hyps.old.items }
    requires few { length hyps.old.items < 2 ^ 32 }
    requires other { command ≡ Converts Cong → ⊥ }
    ensures grows { OnOk result (Grows (signatures_of env.now) nodes.old nodes.new) }
    ensures nodes { length nodes.new.entries ≤ length nodes.old.entries + 1 }
    ensures ids { OnOk result (AreItemsIn nodes.new heap.new.items × AreItemsIn nodes.new stack.new.items × AreIn nodes.new hyps.new.items) }
    ensures few { OnOk result (length hyps.new.items < 2 ^ 32) }
    ensures next { OnOk result (nodes.new.next ≤ at + 1) }
    ensures row { Gives (proof_step portable (tables_of env.now) at (code_of command) value (state_at nodes.old heap.old.items stack.old.items hyps.old.items)) result (λ _. state_at nodes.new heap.new.items stack.new.items hyps.new.items) }
    ensures steps { UnlessMem result (steps.new ≡ steps.old + row_steps portable (tables_of env.now) (code_of command) value (state_at nodes.old heap.old.items stack.old.items hyps.old.items)) }
    ensures most { steps.new ≤ steps.old + length env.now.file }
{
    match command {
        Command::Makes(making) => make(env, at, making, value, nodes, heap, stack, spare, steps),
        Command::Keeps(keeping) => keep(env, keeping, value, nodes, heap, stack, hyps),
        Command::Converts(converting) => convert(env, converting, nodes, heap, stack, spare, steps),
    }
}
