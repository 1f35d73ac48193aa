//! The END of a body: the one item that is left, and the row's own stream on it.
ghost use Rattle.std.specs.Prelude.{◌≡◌, ◌≤◌, ◌<◌, ◌^◌, ◌+◌, ◌∷◌, [], List, IfOk, length};
ghost use Rattle.mz_logic_theory.specs.Tree.{Tree};
ghost use Rattle.mz_layout_tables.specs.Tables.{term_row};
ghost use Rattle.mz_store.specs.Sharing.{AreIn, IsIn, IsOver, tree_of};
ghost use Rattle.mz_store.specs.declared.item.Item.{Item as Kept};
ghost use Rattle.mz_store.specs.declared.item.DepsMode.TheVariants.{Free};
ghost use Rattle.mz_machine_theory.specs.Profile.{strict};
ghost use Rattle.mz_machine_theory.specs.UnifyMachine.{unify, unify_steps};
ghost use Rattle.mz_unify.specs.Stored.{items_at, item_at, matching_at, AreItemsIn, IsItemIn, AreVariables};
ghost use Rattle.mz_machine_theory.specs.MachineState.{State, is_axiom, is_definition};
ghost use Rattle.mz_machine_theory.specs.FreeVars.{free_within};
ghost use Rattle.mz_machine_theory.specs.ProofMachine.{proof_end, ends_with, ending, last_item};
ghost use Rattle.mz_machine_theory.specs.Bodies.{match_steps};
ghost use Rattle.mz_machine_env.specs.Before.{tables_of, signatures_of};
ghost use Rattle.mz_machine_env.specs.OwnRow.{IsNextRow, first_ids, kind_of, mode_for};
ghost use Rattle.mz_machine_theory.specs.Headings.{heading_by};
ghost use Rattle.mz_machine.specs.OverStore.{state_at, AreFirst, IsContextOf, Gives, GivesRule, UnlessMem};
ghost use Rattle.mz_machine.specs.Endings.{mode_at, ended, IsOwnRun};

use crate::commands::heap::is_provable;
use mz_cmd::{K, Steps};
use mz_logic_theory::Word;
use mz_machine_env::{BodyKind, CommandBuffers, Environment, own_proofs, own_stream};
use mz_store::{Id, Item, Store};
use mz_unify::{Stop, UnifyMode, kept_disjoint, unify_in};
use std::sync::ledger::Ledger;

/// Ends the body of the next row of its kind, which has so many parameters: the stack is one item, for a theorem a proof and else
/// an expression, and what the row's own stream spells.
pub(crate) fn end<L: Ledger>(
    env: &Environment,
    kind: BodyKind,
    row: u32,
    params: u32,
    store: &Store,
    stack: &[Item],
    hyps: &[Id],
    spare: &mut CommandBuffers,
    steps: &mut Steps<L>,
) -> Result<(), Stop>
    requires row { IsNextRow env.now.file env.now.rows row (kind_of kind) }
    requires over { IsOver (signatures_of env.now) store.now }
    requires mode { store.now.mode ≡ mode_for (kind_of kind) }
    requires context { IsContextOf (heading_by env.now.file row (kind_of kind)).params store.now.context }
    requires many { params ≡ length (heading_by env.now.file row (kind_of kind)).params }
    requires params { AreFirst store.now (length (heading_by env.now.file row (kind_of kind)).params) }
    requires stack { AreItemsIn store.now stack.now }
    requires hyps { AreIn store.now hyps.now }
    ensures row { (heap : List Kept) → Gives (proof_end strict (tables_of env.now) (heading_by env.now.file row (kind_of kind)) (state_at store.now heap stack.now hyps.now)) result (λ _. state_at store.now heap stack.now hyps.now) }
    ensures most { steps.new ≤ steps.old + length env.now.file }
    ensures steps { (heap : List Kept) → UnlessMem result (steps.new ≡ steps.old + match_steps strict (tables_of env.now) (state_at store.now heap stack.now hyps.now) (ends_with strict (tables_of env.now) (heading_by env.now.file row (kind_of kind)) (state_at store.now heap stack.now hyps.now))) }
{
    let target = match last_item(kind, store, stack) {
        Ok(target) => target,
        Err(rule) => return Err(Stop::Rule(rule)),
    };
    if let Err(rule) = check_target(env, kind, row, store, target) {
        return Err(Stop::Rule(rule));
    }
    let Ok(()) = spare.ids.reach(params) else {
        return Err(Stop::Mem);
    };
    let Ok(()) = own_proofs(&mut spare.hyps, kind, hyps) else {
        return Err(Stop::Mem);
    };
    let stream = own_stream(env, kind, row);
    run_own(env, kind, stream, params, target, store, spare, steps)
}

/// Runs the row's own stream on its parameters and on the hypotheses of the list: at an assertion's end
/// its hypotheses are taken too.
fn run_own<L: Ledger>(
    env: &Environment,
    kind: BodyKind,
    stream: &[u8],
    params: u32,
    target: Id,
    store: &Store,
    spare: &mut CommandBuffers,
    steps: &mut Steps<L>,
) -> Result<(), Stop>
    requires stream { length stream.now < 2 ^ 32 }
    requires over { IsOver (signatures_of env.now) store.now }
    requires ids { params ≤ spare.old.ids }
    requires operands { AreIn store.now (first_ids params) }
    requires variables { AreVariables store.now (first_ids params) }
    requires target { IsIn store.now target.0 }
    requires proofs { AreItemsIn store.now spare.old.hyps.items }
    ensures run { IsOwnRun (unify strict (signatures_of env.now) store.now.context (matching_at store.now (mode_at (kind_of kind)) stream.now (first_ids params) target spare.old.hyps.items)) result }
    ensures steps { UnlessMem result (steps.new ≡ steps.old + unify_steps strict (signatures_of env.now) store.now.context (matching_at store.now (mode_at (kind_of kind)) stream.now (first_ids params) target spare.old.hyps.items)) }
    ensures most { steps.new ≤ steps.old + length stream.now }
{
    let mode = mode_of(kind);
    let operands = spare.ids.first(params);
    let apart = kept_disjoint(store, mode, operands);
    unify_in(
        env,
        stream,
        mode,
        operands,
        apart,
        target,
        &mut spare.saved,
        &mut spare.targets,
        &mut spare.hyps,
        store,
        steps,
    )
    .through()
}

/// Where the own stream of a row of the kind runs, at its END.
pub fn mode_of(kind: BodyKind) -> UnifyMode
    ensures { result ≡ mode_at (kind_of kind) }
{
    match kind {
        BodyKind::Axiom | BodyKind::Theorem => UnifyMode::Final,
        BodyKind::Definition => UnifyMode::Body,
    }
}

/// The one item that is left: for a theorem a proof, else an expression.
fn last_item(kind: BodyKind, store: &Store, stack: &[Item]) -> Result<Id, K>
    requires { AreItemsIn store.now stack.now }
    ensures ids { IfOk result (λ id. IsIn store.now id.0) }
    ensures last { GivesRule (last_item (kind_of kind) (items_at store.now stack.now)) result (λ id. tree_of store.now id.0) }
{
    match stack {
        [item] => only_item(kind, store, *item),
        _ => Err(K::FinalStack),
    }
}

/// What the item that is left proves or is.
fn only_item(kind: BodyKind, store: &Store, item: Item) -> Result<Id, K>
    requires { IsItemIn store.now item }
    ensures ids { IfOk result (λ id. IsIn store.now id.0) }
    ensures last { GivesRule (last_item (kind_of kind) (item_at store.now item ∷ [])) result (λ id. tree_of store.now id.0) }
{
    match (kind, item) {
        (BodyKind::Theorem, Item::Proof(id)) => Ok(id),
        (BodyKind::Axiom, Item::Expr(id)) => Ok(id),
        (BodyKind::Definition, Item::Expr(id)) => Ok(id),
        _ => Err(K::FinalStack),
    }
}

/// What is asked of the expression before the row's own stream runs on it.
fn check_target(
    env: &Environment,
    kind: BodyKind,
    row: u32,
    store: &Store,
    target: Id,
) -> Result<(), K>
    requires row { IsNextRow env.now.file env.now.rows row (kind_of kind) }
    requires over { IsOver (signatures_of env.now) store.now }
    requires mode { store.now.mode ≡ mode_for (kind_of kind) }
    requires context { IsContextOf (heading_by env.now.file row (kind_of kind)).params store.now.context }
    requires target { IsIn store.now target.0 }
    ensures { (st : State Tree) → st.ctx ≡ store.now.context → GivesRule (ending strict (tables_of env.now) (heading_by env.now.file row (kind_of kind)) st (kind_of kind) (tree_of store.now target.0)) result (λ _. ended (heading_by env.now.file row (kind_of kind)) st (kind_of kind) (tree_of store.now target.0)) }
{
    match kind {
        BodyKind::Theorem => Ok(()),
        BodyKind::Axiom => check_claim(env, row, store, target),
        BodyKind::Definition => check_body(env, row, store, target),
    }
}

/// An axiom's expression has a provable sort.
fn check_claim(env: &Environment, row: u32, store: &Store, target: Id) -> Result<(), K>
    requires over { IsOver (signatures_of env.now) store.now }
    requires target { IsIn store.now target.0 }
    ensures { (st : State Tree) → st.ctx ≡ store.now.context → GivesRule (ending strict (tables_of env.now) (heading_by env.now.file row is_axiom) st is_axiom (tree_of store.now target.0)) result (λ _. ended (heading_by env.now.file row is_axiom) st is_axiom (tree_of store.now target.0)) }
{
    if is_provable(env, store.sort_of(target)) {
        Ok(())
    } else {
        Err(K::NotProvable)
    }
}

/// A definition's body has the result's sort, and no free variables but those on which the result
/// depends.
fn check_body(env: &Environment, row: u32, store: &Store, target: Id) -> Result<(), K>
    requires row { IsNextRow env.now.file env.now.rows row is_definition }
    requires over { IsOver (signatures_of env.now) store.now }
    requires mode { store.now.mode ≡ Free }
    requires context { IsContextOf (heading_by env.now.file row is_definition).params store.now.context }
    requires target { IsIn store.now target.0 }
    ensures { (st : State Tree) → st.ctx ≡ store.now.context → GivesRule (ending strict (tables_of env.now) (heading_by env.now.file row is_definition) st is_definition (tree_of store.now target.0)) result (λ _. ended (heading_by env.now.file row is_definition) st is_definition (tree_of store.now target.0)) }
{
    let result = env.own_result(row);
    if store.sort_of(target) != result.sort() {
        return Err(K::DefinitionSort);
    }
    if !are_free_within(env, row, store, target, result) {
        return Err(K::DefinitionDependencies);
    }
    Ok(())
}

/// Whether the expression has no free variables but those whose bits the result's word has.
fn are_free_within(env: &Environment, row: u32, store: &Store, target: Id, word: Word) -> bool
    requires row { IsNextRow env.now.file env.now.rows row is_definition }
    requires over { IsOver (signatures_of env.now) store.now }
    requires mode { store.now.mode ≡ Free }
    requires context { IsContextOf (heading_by env.now.file row is_definition).params store.now.context }
    requires target { IsIn store.now target.0 }
    requires word { word ≡ (term_row env.now.file row).words.result }
    ensures { result ≡ free_within (signatures_of env.now) store.now.context (heading_by env.now.file row is_definition).result.deps (tree_of store.now target.0) (length store.now.context) }
{
    let told = store.deps(target);
    told & word.deps() == told
}
