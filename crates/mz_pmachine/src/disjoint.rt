//! Operands that are disjoint: none holds the variable of a bound parameter, but of its own and of those
//! on which its parameter depends.
ghost use Rattle.std.specs.Prelude.{ℕ, ◌≡◌, ◌<◌, ◌||◌, true, List, Ok, Some, length, not, slice_get};
ghost use Rattle.mz_logic_theory.specs.Tree.{Tree};
ghost use Rattle.mz_logic_theory.specs.Signature.{Signature};
ghost use Rattle.mz_logic_theory.specs.Words.{binders_of, bound_places};
ghost use Rattle.mz_logic_theory.specs.declared.binder.Binder.{Binder};
ghost use Rattle.mz_layout_tables.specs.Rows.{params_of};
ghost use Rattle.mz_pmachine_unify.specs.Numbering.{IsIn, AreIn, IsOver, tree_of, vars_of};
ghost use Rattle.mz_pmachine_unify.specs.Stored.{trees_at};
ghost use Rattle.mz_machine_theory.specs.Tests.{is_bound_var, var_within};
ghost use Rattle.mz_machine_theory.specs.Premises.{operands_fit, disjoint_from, are_disjoint};
ghost use Rattle.mz_machine_env.specs.Before.{signatures_of};
ghost use Rattle.mz_machine_env.specs.OperandRows.{IsBefore, AreAmong};

use mz_layout_tables::Row;
use mz_machine_env::{Environment, dependencies, may_meet};
use mz_pmachine_unify::Nodes;
use mz_store::Id;

/// Whether each two operands of a row are disjoint, whichever of them comes first. They fit, and the bound
/// parameters stand at these places.
///
/// Each is compared with those of the bound parameters alone, of which a row has few.
pub(crate) fn are_disjoint(
    env: &Environment,
    row: Row,
    nodes: &Nodes,
    operands: &[Id],
    bound: &[u32],
) -> bool
    requires row { IsBefore env.now row }
    requires over { IsOver (signatures_of env.now) nodes.now }
    requires ids { AreIn nodes.now operands.now }
    requires many { length operands.now ≡ length (params_of env.now.file row) }
    requires fit { operands_fit (signatures_of env.now) nodes.now.context (trees_at nodes.now operands.now) (binders_of (params_of env.now.file row)) ≡ Ok tt }
    requires bound { bound.now ≡ bound_places 0 (params_of env.now.file row) }
    ensures { result ≡ are_disjoint nodes.now.context (trees_at nodes.now operands.now) (binders_of (params_of env.now.file row)) }
{
    let all = variables_at(nodes, operands, bound);
    'operands: for i in 0..env.arity_of(row) {
        if !is_apart(env, row, nodes, operands, bound, all, i) {
            return false;
        }
    }
    true
}

/// The word of the variables of the operands at these places.
fn variables_at(nodes: &Nodes, operands: &[Id], places: &[u32]) -> u64
    requires ids { AreIn nodes.now operands.now }
    requires within { (k p : ℕ) → slice_get places.now k ≡ Some p → p < length operands.now }
    ensures { AreAmong (λ id. vars_of nodes.now id.0) operands.now places.now result }
{
    let mut word = 0;
    'places: for place in places {
        word |= nodes.vars(operands[*place as usize]);
    }
    word
}

/// Whether the operand at a place is disjoint from all others. The bound parameters stand at these places,
/// and the word names the variables of their operands: where it shares none with it, none is met.
fn is_apart(
    env: &Environment,
    row: Row,
    nodes: &Nodes,
    operands: &[Id],
    bound: &[u32],
    all: u64,
    i: u32,
) -> bool
    requires row { IsBefore env.now row }
    requires over { IsOver (signatures_of env.now) nodes.now }
    requires ids { AreIn nodes.now operands.now }
    requires many { length operands.now ≡ length (params_of env.now.file row) }
    requires fit { operands_fit (signatures_of env.now) nodes.now.context (trees_at nodes.now operands.now) (binders_of (params_of env.now.file row)) ≡ Ok tt }
    requires bound { bound.now ≡ bound_places 0 (params_of env.now.file row) }
    requires all { AreAmong (λ id. vars_of nodes.now id.0) operands.now bound.now all }
    requires place { i < length (params_of env.now.file row) }
    ensures { (e : Tree) (p : Binder) → slice_get (trees_at nodes.now operands.now) i ≡ Some e → slice_get (binders_of (params_of env.now.file row)) i ≡ Some p → result ≡ disjoint_from nodes.now.context i p.deps e 0 (trees_at nodes.now operands.now) (binders_of (params_of env.now.file row)) }
{
    let id = operands[i as usize];
    if nodes.vars(id) & all == 0 {
        return true;
    }
    let word = env.word_of(row, i);
    let mut bits = dependencies(word);
    'places: for place in bound {
        let exempt = may_meet(i, *place, bits);
        if !stands_beside(nodes, id, operands[*place as usize], exempt) {
            return false;
        }
        bits /= 2;
    }
    true
}

/// Whether an operand may stand beside a bound variable: it doesn't hold that, or is exempt.
fn stands_beside(nodes: &Nodes, id: Id, bound: Id, exempt: bool) -> bool
    requires id { IsIn nodes.now id.0 }
    requires bound { IsIn nodes.now bound.0 }
    ensures { (sigs : List Signature) → IsOver sigs nodes.now → is_bound_var nodes.now.context (tree_of nodes.now bound.0) ≡ true → result ≡ (exempt || not (var_within nodes.now.context (tree_of nodes.now bound.0) (tree_of nodes.now id.0))) }
{
    exempt || nodes.vars(id) & nodes.vars(bound) == 0
}
