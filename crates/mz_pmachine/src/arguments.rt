//! The operands of a row: taken from the stack, and compared with its parameters.
ghost use Rattle.std.specs.Prelude.{ℕ, ◌≡◌, List, [], ◌∷◌, OnOk, length};
ghost use Rattle.mz_logic_theory.specs.Signature.{Signature};
ghost use Rattle.mz_logic_theory.specs.Words.{binders_of, bound_places, word_bound, word_sort};
ghost use Rattle.mz_logic_theory.specs.declared.binder.Binder.{Binder};
ghost use Rattle.mz_layout_tables.specs.Rows.{params_of};
ghost use Rattle.mz_pmachine_unify.specs.Numbering.{IsIn, AreIn, IsOver, tree_of};
ghost use Rattle.mz_pmachine_unify.specs.Stored.{items_at, exprs_at, trees_at, AreItemsIn};
ghost use Rattle.mz_machine_theory.specs.Premises.{pop_operands, operands_fit};
ghost use Rattle.mz_machine_env.specs.Before.{signatures_of};
ghost use Rattle.mz_machine_env.specs.OperandRows.{IsBefore};
ghost use Rattle.mz_machine.specs.OverStore.{GivesRule, Gives};

use mz_cmd::K;
use mz_layout_tables::Row;
use mz_logic_theory::Word;
use mz_machine::read_exprs;
use mz_machine_env::Environment;
use mz_pmachine_unify::Nodes;
use mz_store::{Id, Item};
use mz_unify::{Stop, push};

/// Takes so many expressions from the stack, of which the last is on top; the list becomes these.
pub(crate) fn pop_operands(
    nodes: &Nodes,
    count: u32,
    stack: &mut Vec<Item>,
    operands: &mut Vec<Id>,
) -> Result<(), Stop>
    requires { AreItemsIn nodes.now stack.old.items }
    ensures ids { OnOk result (AreIn nodes.now operands.new.items × AreItemsIn nodes.now stack.new.items) }
    ensures many { OnOk result (length operands.new.items ≡ count) }
    ensures taken { Gives (pop_operands count (items_at nodes.now stack.old.items)) result (λ _. (exprs_at nodes.now operands.new.items, items_at nodes.now stack.new.items)) }
{
    if stack.len() < count as usize {
        return Err(Stop::Rule(K::Underflow));
    }
    let below = stack.len() - count as usize;
    read_exprs(&stack[below..], operands)?;
    stack.truncate(below);
    Ok(())
}

/// Whether an operand has its parameter's sort, and for a bound parameter is a bound variable.
fn check_operand(nodes: &Nodes, word: Word, id: Id) -> Result<(), K>
    requires { IsIn nodes.now id.0 }
    ensures { (sigs : List Signature) (p : Binder) → IsOver sigs nodes.now → p.sort ≡ word_sort word → p.bound ≡ word_bound word → GivesRule (operands_fit sigs nodes.now.context (tree_of nodes.now id.0 ∷ []) (p ∷ [])) result (λ _. tt) }
{
    if nodes.sort_of(id) != word.sort() {
        return Err(K::OperandSort);
    }
    if word.bound() && !nodes.is_bound(id) {
        return Err(K::OperandBound);
    }
    Ok(())
}

/// Whether each operand fits its parameter.
pub(crate) fn check_operands(
    env: &Environment,
    row: Row,
    nodes: &Nodes,
    operands: &[Id],
) -> Result<(), K>
    requires row { IsBefore env.now row }
    requires over { IsOver (signatures_of env.now) nodes.now }
    requires ids { AreIn nodes.now operands.now }
    requires many { length operands.now ≡ length (params_of env.now.file row) }
    ensures { GivesRule (operands_fit (signatures_of env.now) nodes.now.context (trees_at nodes.now operands.now) (binders_of (params_of env.now.file row))) result (λ _. tt) }
{
    'operands: for j in 0..env.arity_of(row) {
        check_operand(nodes, env.word_of(row, j), operands[j as usize])?;
    }
    Ok(())
}

/// Whether each operand fits its parameter; the list becomes the places of the bound parameters.
pub(crate) fn check_cited(
    env: &Environment,
    row: Row,
    nodes: &Nodes,
    operands: &[Id],
    places: &mut Vec<u32>,
) -> Result<(), Stop>
    requires row { IsBefore env.now row }
    requires over { IsOver (signatures_of env.now) nodes.now }
    requires ids { AreIn nodes.now operands.now }
    requires many { length operands.now ≡ length (params_of env.now.file row) }
    ensures fit { Gives (operands_fit (signatures_of env.now) nodes.now.context (trees_at nodes.now operands.now) (binders_of (params_of env.now.file row))) result (λ _. tt) }
    ensures places { OnOk result (places.new.items ≡ bound_places 0 (params_of env.now.file row)) }
{
    places.clear();
    'operands: for j in 0..env.arity_of(row) {
        let word = env.word_of(row, j);
        if let Err(rule) = check_operand(nodes, word, operands[j as usize]) {
            return Err(Stop::Rule(rule));
        }
        if word.bound() {
            push(places, j)?;
        }
    }
    Ok(())
}
