//! The operands of a row: taken from the stack, and compared with its parameters.
ghost use Rattle.std.specs.Prelude.{ℕ, ◌≡◌, List, [], ◌∷◌, OnOk, length};
ghost use Rattle.mz_logic_theory.specs.Tree.{Tree};
ghost use Rattle.mz_logic_theory.specs.Signature.{Signature};
ghost use Rattle.mz_logic_theory.specs.Words.{binders_of, bound_places, word_bound, word_sort};
ghost use Rattle.mz_logic_theory.specs.declared.binder.Binder.{Binder};
ghost use Rattle.mz_layout_tables.specs.Rows.{params_of};
ghost use Rattle.mz_store.specs.Sharing.{IsIn, AreIn, IsOver, tree_of};
ghost use Rattle.mz_unify.specs.Stored.{items_at, trees_at, AreItemsIn};
ghost use Rattle.mz_machine_theory.specs.Premises.{pop_operands, operands_fit};
ghost use Rattle.mz_machine_env.specs.Before.{signatures_of};
ghost use Rattle.mz_machine_env.specs.OperandRows.{IsBefore};
ghost use Rattle.mz_machine.specs.OverStore.{exprs_of, Gives, GivesRule};

use mz_cmd::K;
use mz_layout_tables::Row;
use mz_logic_theory::Word;
use mz_machine_env::Environment;
use mz_store::{Id, Item, Store};
use mz_unify::{Stop, push};

/// Takes so many expressions from the stack, of which the last is on top; the list becomes these.
#[inline(always)]
pub(crate) fn pop_operands(
    store: &Store,
    count: u32,
    stack: &mut Vec<Item>,
    operands: &mut Vec<Id>,
) -> Result<(), Stop>
    requires { AreItemsIn store.now stack.old.items }
    ensures ids { OnOk result (AreIn store.now operands.new.items × AreItemsIn store.now stack.new.items) }
    ensures many { OnOk result (length operands.new.items ≡ count) }
    ensures taken { Gives (pop_operands count (items_at store.now stack.old.items)) result (λ _. (trees_at store.now operands.new.items, items_at store.now stack.new.items)) }
{
    if stack.len() < count as usize {
        return Err(Stop::Rule(K::Underflow));
    }
    let below = stack.len() - count as usize;
    read_exprs(&stack[below..], operands)?;
    stack.truncate(below);
    Ok(())
}

/// Reads items as expressions, whose ids the list becomes.
///
/// # Errors
///
/// Where an item is no expression, or there is no memory.
#[inline(always)]
pub fn read_exprs(items: &[Item], ids: &mut Vec<Id>) -> Result<(), Stop>
    ensures { Gives (exprs_of items.now) result (λ _. ids.new.items) }
{
    ids.clear();
    'items: for item in items {
        let Item::Expr(id) = *item else {
            return Err(Stop::Rule(K::Kind));
        };
        push(ids, id)?;
    }
    Ok(())
}

/// Whether an operand has its parameter's sort, and for a bound parameter is a bound variable.
#[inline(always)]
fn check_operand(store: &Store, word: Word, id: Id) -> Result<(), K>
    requires { IsIn store.now id.0 }
    ensures { (sigs : List Signature) (p : Binder) → IsOver sigs store.now → p.sort ≡ word_sort word → p.bound ≡ word_bound word → GivesRule (operands_fit sigs store.now.context (tree_of store.now id.0 ∷ []) (p ∷ [])) result (λ _. tt) }
{
    if store.sort_of(id) != word.sort() {
        return Err(K::OperandSort);
    }
    if word.bound() && !store.is_bound(id) {
        return Err(K::OperandBound);
    }
    Ok(())
}

/// Whether each operand fits its parameter.
#[inline(always)]
pub(crate) fn check_operands(
    env: &Environment,
    row: Row,
    store: &Store,
    operands: &[Id],
) -> Result<(), K>
    requires row { IsBefore env.now row }
    requires over { IsOver (signatures_of env.now) store.now }
    requires ids { AreIn store.now operands.now }
    requires many { length operands.now ≡ length (params_of env.now.file row) }
    ensures { GivesRule (operands_fit (signatures_of env.now) store.now.context (trees_at store.now operands.now) (binders_of (params_of env.now.file row))) result (λ _. tt) }
{
    let first = env.words_at(row);
    'operands: for j in 0..env.arity_of(row) {
        let word = env.word_from(row, first, j);
        check_operand(store, word, operands[j as usize])?;
    }
    Ok(())
}

/// Whether each operand fits its parameter; the list becomes the places of the bound parameters.
#[inline(always)]
pub(crate) fn check_cited(
    env: &Environment,
    row: Row,
    store: &Store,
    operands: &[Id],
    places: &mut Vec<u32>,
) -> Result<(), Stop>
    requires row { IsBefore env.now row }
    requires over { IsOver (signatures_of env.now) store.now }
    requires ids { AreIn store.now operands.now }
    requires many { length operands.now ≡ length (params_of env.now.file row) }
    ensures fit { Gives (operands_fit (signatures_of env.now) store.now.context (trees_at store.now operands.now) (binders_of (params_of env.now.file row))) result (λ _. tt) }
    ensures places { OnOk result (places.new.items ≡ bound_places 0 (params_of env.now.file row)) }
{
    places.clear();
    let first = env.words_at(row);
    'operands: for j in 0..env.arity_of(row) {
        let word = env.word_from(row, first, j);
        if let Err(rule) = check_operand(store, word, operands[j as usize]) {
            return Err(Stop::Rule(rule));
        }
        if word.bound() {
            push(places, j)?;
        }
    }
    Ok(())
}
