//! Operands that are disjoint: none holds the variable of a bound parameter, but of its own and of those
//! on which its parameter depends.
ghost use Rattle.std.specs.Prelude.{ℕ, ◌≡◌, ◌<◌, ◌||◌, true, List, Ok, Some, length, not, slice_get};
ghost use Rattle.mz_logic_theory.specs.Tree.{Tree};
ghost use Rattle.mz_logic_theory.specs.Signature.{Signature};
ghost use Rattle.mz_logic_theory.specs.Words.{binders_of, bound_places};
ghost use Rattle.mz_logic_theory.specs.declared.binder.Binder.{Binder};
ghost use Rattle.mz_layout_tables.specs.Rows.{params_of};
ghost use Rattle.mz_store.specs.Sharing.{IsIn, AreIn, IsOver, tree_of, deps_of};
ghost use Rattle.mz_store.specs.declared.item.DepsMode.TheVariants.{All};
ghost use Rattle.mz_unify.specs.Stored.{trees_at};
ghost use Rattle.mz_machine_theory.specs.Tests.{is_bound_var, var_within};
ghost use Rattle.mz_machine_theory.specs.Premises.{operands_fit, disjoint_from, are_disjoint};
ghost use Rattle.mz_machine_env.specs.Before.{signatures_of};
ghost use Rattle.mz_machine_env.specs.OperandRows.{AreAmong, IsBefore};

use mz_layout_tables::Row;
use mz_machine_env::{Environment, dependencies, may_meet};
use mz_store::{Id, Store};

/// Whether each two operands of a row are disjoint, whichever of them comes first. They fit, and the bound
/// parameters stand at these places.
///
/// Each is compared with those of the bound parameters alone, of which a row has few.
#[inline(always)]
pub(crate) fn are_disjoint(
    env: &Environment,
    row: Row,
    store: &Store,
    operands: &[Id],
    bound: &[u32],
) -> bool
    requires row { IsBefore env.now row }
    requires over { IsOver (signatures_of env.now) store.now }
    requires mode { store.now.mode ≡ All }
    requires ids { AreIn store.now operands.now }
    requires many { length operands.now ≡ length (params_of env.now.file row) }
    requires fit { operands_fit (signatures_of env.now) store.now.context (trees_at store.now operands.now) (binders_of (params_of env.now.file row)) ≡ Ok tt }
    requires bound { bound.now ≡ bound_places 0 (params_of env.now.file row) }
    ensures { result ≡ are_disjoint store.now.context (trees_at store.now operands.now) (binders_of (params_of env.now.file row)) }
{
    let all = variables_at(store, operands, bound);
    if all == 0 {
        // no bound parameter, as of most rows
        return true;
    }
    'operands: for i in 0..env.arity_of(row) {
        if !is_apart(env, row, store, operands, bound, all, i) {
            return false;
        }
    }
    true
}

/// The word of the variables of the operands at these places.
#[inline(always)]
fn variables_at(store: &Store, operands: &[Id], places: &[u32]) -> u64
    requires ids { AreIn store.now operands.now }
    requires within { (k p : ℕ) → slice_get places.now k ≡ Some p → p < length operands.now }
    ensures { AreAmong (λ id. deps_of store.now id.0) operands.now places.now result }
{
    let mut word = 0;
    'places: for place in places {
        word |= store.deps(operands[*place as usize]);
    }
    word
}

/// Whether the operand at a place is disjoint from all others. The bound parameters stand at these places,
/// and the word names the variables of their operands: where it shares none with it, none is met.
fn is_apart(
    env: &Environment,
    row: Row,
    store: &Store,
    operands: &[Id],
    bound: &[u32],
    all: u64,
    i: u32,
) -> bool
    requires row { IsBefore env.now row }
    requires over { IsOver (signatures_of env.now) store.now }
    requires mode { store.now.mode ≡ All }
    requires ids { AreIn store.now operands.now }
    requires many { length operands.now ≡ length (params_of env.now.file row) }
    requires fit { operands_fit (signatures_of env.now) store.now.context (trees_at store.now operands.now) (binders_of (params_of env.now.file row)) ≡ Ok tt }
    requires bound { bound.now ≡ bound_places 0 (params_of env.now.file row) }
    requires all { AreAmong (λ id. deps_of store.now id.0) operands.now bound.now all }
    requires place { i < length (params_of env.now.file row) }
    ensures { (e : Tree) (p : Binder) → slice_get (trees_at store.now operands.now) i ≡ Some e → slice_get (binders_of (params_of env.now.file row)) i ≡ Some p → result ≡ disjoint_from store.now.context i p.deps e 0 (trees_at store.now operands.now) (binders_of (params_of env.now.file row)) }
{
    let id = operands[i as usize];
    if store.deps(id) & all == 0 {
        return true;
    }
    let word = env.word_of(row, i);
    let mut bits = dependencies(word);
    'places: for place in bound {
        let exempt = may_meet(i, *place, bits);
        if !stands_beside(store, id, operands[*place as usize], exempt) {
            return false;
        }
        bits /= 2;
    }
    true
}

/// Whether an operand may stand beside a bound variable: it doesn't hold that, or is exempt.
fn stands_beside(store: &Store, id: Id, bound: Id, exempt: bool) -> bool
    requires id { IsIn store.now id.0 }
    requires bound { IsIn store.now bound.0 }
    ensures { (sigs : List Signature) → IsOver sigs store.now → store.now.mode ≡ All → is_bound_var store.now.context (tree_of store.now bound.0) ≡ true → result ≡ (exempt || not (var_within store.now.context (tree_of store.now bound.0) (tree_of store.now id.0))) }
{
    exempt || store.deps(id) & store.deps(bound) == 0
}
