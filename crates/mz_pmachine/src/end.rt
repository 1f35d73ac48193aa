//! The END of a body: the one item that is left, and the row's own stream on it.
ghost use Rattle.std.specs.Prelude.{◌≡◌, ◌≤◌, ◌<◌, ◌^◌, ◌+◌, ◌∷◌, [], List, IfOk, length};
ghost use Rattle.mz_layout_tables.specs.Tables.{term_row};
ghost use Rattle.mz_pmachine_unify.specs.Numbering.{AreIn, IsIn, IsOver, expr_of, tree_of};
ghost use Rattle.mz_store.specs.declared.item.Item.{Item as Kept};
ghost use Rattle.mz_store.specs.declared.item.DepsMode.TheVariants.{Free};
ghost use Rattle.mz_machine_theory.specs.UnifyMachine.{unify, unify_steps};
ghost use Rattle.mz_pmachine_unify.specs.Stored.{items_at, item_at, matching_at, AreItemsIn, IsItemIn};
ghost use Rattle.mz_machine_theory.specs.MachineState.{State, is_axiom, is_definition};
ghost use Rattle.mz_machine_theory.specs.FreeVars.{free_within};
ghost use Rattle.mz_machine_theory.specs.ProofMachine.{proof_end, ends_with, ending, last_item};
ghost use Rattle.mz_machine_theory.specs.Bodies.{match_steps};
ghost use Rattle.mz_machine_env.specs.Before.{tables_of, signatures_of};
ghost use Rattle.mz_machine_env.specs.OwnRow.{IsNextRow, mode_for, kind_of};
ghost use Rattle.mz_machine_theory.specs.Headings.{heading_by};
ghost use Rattle.mz_machine.specs.OverStore.{IsContextOf, Gives, GivesRule, UnlessMem};
ghost use Rattle.mz_pmachine.specs.OverNodes.{state_at, AreFirst};
ghost use Rattle.mz_machine.specs.Endings.{mode_at, IsOwnRun};
ghost use Rattle.mz_pmachine.specs.Endings.{ended};
ghost use Rattle.mz_pmachine_theory.specs.NodeIdentity.{Numbered, portable};

use crate::commands::heap::is_provable;
use mz_cmd::{K, Steps};
use mz_logic_theory::Word;
use mz_machine::mode_of;
use mz_machine_env::{
    BodyKind, CommandBuffers, Environment, first_ids, own_arity, own_proofs, own_stream,
};
use mz_pmachine_unify::{Nodes, kept_disjoint, unify_in};
use mz_store::{Id, Item};
use mz_unify::Stop;
use std::sync::ledger::Ledger;

/// Ends the body of the next row of its kind: the stack is one item, for a theorem a proof and else
/// an expression, and what the row's own stream spells.
pub(crate) fn end<L: Ledger>(
    env: &Environment,
    kind: BodyKind,
    row: u32,
    nodes: &Nodes,
    stack: &[Item],
    hyps: &[Id],
    spare: &mut CommandBuffers,
    steps: &mut Steps<L>,
) -> Result<(), Stop>
    requires row { IsNextRow env.now.file env.now.rows row (kind_of kind) }
    requires over { IsOver (signatures_of env.now) nodes.now }
    requires mode { nodes.now.mode ≡ mode_for (kind_of kind) }
    requires context { IsContextOf (heading_by env.now.file row (kind_of kind)).params nodes.now.context }
    requires params { AreFirst nodes.now (length (heading_by env.now.file row (kind_of kind)).params) }
    requires stack { AreItemsIn nodes.now stack.now }
    requires hyps { AreIn nodes.now hyps.now }
    ensures row { (heap : List Kept) → Gives (proof_end portable (tables_of env.now) (heading_by env.now.file row (kind_of kind)) (state_at nodes.now heap stack.now hyps.now)) result (λ _. state_at nodes.now heap stack.now hyps.now) }
    ensures most { steps.new ≤ steps.old + length env.now.file }
    ensures steps { (heap : List Kept) → UnlessMem result (steps.new ≡ steps.old + match_steps portable (tables_of env.now) (state_at nodes.now heap stack.now hyps.now) (ends_with portable (tables_of env.now) (heading_by env.now.file row (kind_of kind)) (state_at nodes.now heap stack.now hyps.now))) }
{
    let target = match last_item(kind, nodes, stack) {
        Ok(target) => target,
        Err(rule) => return Err(Stop::Rule(rule)),
    };
    if let Err(rule) = check_target(env, kind, row, nodes, target) {
        return Err(Stop::Rule(rule));
    }
    let Ok(()) = first_ids(&mut spare.operands, own_arity(env, kind, row)) else {
        return Err(Stop::Mem);
    };
    let Ok(()) = own_proofs(&mut spare.hyps, kind, hyps) else {
        return Err(Stop::Mem);
    };
    let stream = own_stream(env, kind, row);
    run_own(env, kind, stream, target, nodes, spare, steps)
}

/// Runs the row's own stream on the operands and the hypotheses of these lists: at an assertion's end
/// its hypotheses are taken too.
fn run_own<L: Ledger>(
    env: &Environment,
    kind: BodyKind,
    stream: &[u8],
    target: Id,
    nodes: &Nodes,
    spare: &mut CommandBuffers,
    steps: &mut Steps<L>,
) -> Result<(), Stop>
    requires stream { length stream.now < 2 ^ 32 }
    requires over { IsOver (signatures_of env.now) nodes.now }
    requires operands { AreIn nodes.now spare.old.operands.items }
    requires target { IsIn nodes.now target.0 }
    requires proofs { AreItemsIn nodes.now spare.old.hyps.items }
    ensures run { IsOwnRun (unify portable (signatures_of env.now) nodes.now.context (matching_at nodes.now (mode_at (kind_of kind)) stream.now spare.old.operands.items target spare.old.hyps.items)) result }
    ensures steps { UnlessMem result (steps.new ≡ steps.old + unify_steps portable (signatures_of env.now) nodes.now.context (matching_at nodes.now (mode_at (kind_of kind)) stream.now spare.old.operands.items target spare.old.hyps.items)) }
    ensures most { steps.new ≤ steps.old + length stream.now }
{
    let mode = mode_of(kind);
    let operands: &[Id] = &spare.operands;
    unify_in(
        env,
        stream,
        mode,
        operands,
        kept_disjoint(nodes, operands),
        target,
        &mut spare.saved,
        &mut spare.targets,
        &mut spare.hyps,
        nodes,
        steps,
    )
    .through()
}

/// The one item that is left: for a theorem a proof, else an expression.
fn last_item(kind: BodyKind, nodes: &Nodes, stack: &[Item]) -> Result<Id, K>
    requires { AreItemsIn nodes.now stack.now }
    ensures ids { IfOk result (λ id. IsIn nodes.now id.0) }
    ensures last { GivesRule (last_item (kind_of kind) (items_at nodes.now stack.now)) result (λ id. expr_of nodes.now id.0) }
{
    match stack {
        [item] => only_item(kind, nodes, *item),
        _ => Err(K::FinalStack),
    }
}

/// What the item that is left proves or is.
fn only_item(kind: BodyKind, nodes: &Nodes, item: Item) -> Result<Id, K>
    requires { IsItemIn nodes.now item }
    ensures ids { IfOk result (λ id. IsIn nodes.now id.0) }
    ensures last { GivesRule (last_item (kind_of kind) (item_at nodes.now item ∷ [])) result (λ id. expr_of nodes.now id.0) }
{
    match (kind, item) {
        (BodyKind::Theorem, Item::Proof(id)) => Ok(id),
        (BodyKind::Axiom, Item::Expr(id)) => Ok(id),
        (BodyKind::Definition, Item::Expr(id)) => Ok(id),
        _ => Err(K::FinalStack),
    }
}

/// What is asked of the expression before the row's own stream runs on it.
fn check_target(
    env: &Environment,
    kind: BodyKind,
    row: u32,
    nodes: &Nodes,
    target: Id,
) -> Result<(), K>
    requires row { IsNextRow env.now.file env.now.rows row (kind_of kind) }
    requires over { IsOver (signatures_of env.now) nodes.now }
    requires mode { nodes.now.mode ≡ mode_for (kind_of kind) }
    requires context { IsContextOf (heading_by env.now.file row (kind_of kind)).params nodes.now.context }
    requires target { IsIn nodes.now target.0 }
    ensures { (st : State Numbered) → st.ctx ≡ nodes.now.context → GivesRule (ending portable (tables_of env.now) (heading_by env.now.file row (kind_of kind)) st (kind_of kind) (expr_of nodes.now target.0)) result (λ _. ended (heading_by env.now.file row (kind_of kind)) st (kind_of kind) (expr_of nodes.now target.0)) }
{
    match kind {
        BodyKind::Theorem => Ok(()),
        BodyKind::Axiom => check_claim(env, row, nodes, target),
        BodyKind::Definition => check_body(env, row, nodes, target),
    }
}

/// An axiom's expression has a provable sort.
fn check_claim(env: &Environment, row: u32, nodes: &Nodes, target: Id) -> Result<(), K>
    requires over { IsOver (signatures_of env.now) nodes.now }
    requires target { IsIn nodes.now target.0 }
    ensures { (st : State Numbered) → st.ctx ≡ nodes.now.context → GivesRule (ending portable (tables_of env.now) (heading_by env.now.file row is_axiom) st is_axiom (expr_of nodes.now target.0)) result (λ _. ended (heading_by env.now.file row is_axiom) st is_axiom (expr_of nodes.now target.0)) }
{
    if is_provable(env, nodes.sort_of(target)) {
        Ok(())
    } else {
        Err(K::NotProvable)
    }
}

/// A definition's body has the result's sort, and no free variables but those on which the result
/// depends.
fn check_body(env: &Environment, row: u32, nodes: &Nodes, target: Id) -> Result<(), K>
    requires row { IsNextRow env.now.file env.now.rows row is_definition }
    requires over { IsOver (signatures_of env.now) nodes.now }
    requires mode { nodes.now.mode ≡ Free }
    requires context { IsContextOf (heading_by env.now.file row is_definition).params nodes.now.context }
    requires target { IsIn nodes.now target.0 }
    ensures { (st : State Numbered) → st.ctx ≡ nodes.now.context → GivesRule (ending portable (tables_of env.now) (heading_by env.now.file row is_definition) st is_definition (expr_of nodes.now target.0)) result (λ _. ended (heading_by env.now.file row is_definition) st is_definition (expr_of nodes.now target.0)) }
{
    let result = env.own_result(row);
    if nodes.sort_of(target) != result.sort() {
        return Err(K::DefinitionSort);
    }
    if !are_free_within(env, row, nodes, target, result) {
        return Err(K::DefinitionDependencies);
    }
    Ok(())
}

/// Whether the expression has no free variables but those whose bits the result's word has.
fn are_free_within(env: &Environment, row: u32, nodes: &Nodes, target: Id, word: Word) -> bool
    requires row { IsNextRow env.now.file env.now.rows row is_definition }
    requires over { IsOver (signatures_of env.now) nodes.now }
    requires mode { nodes.now.mode ≡ Free }
    requires context { IsContextOf (heading_by env.now.file row is_definition).params nodes.now.context }
    requires target { IsIn nodes.now target.0 }
    requires word { word ≡ (term_row env.now.file row).words.result }
    ensures { result ≡ free_within (signatures_of env.now) nodes.now.context (heading_by env.now.file row is_definition).result.deps (tree_of nodes.now target.0) (length nodes.now.context) }
{
    let told = nodes.deps(target);
    told & word.deps() == told
}
