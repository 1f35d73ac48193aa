// Whether expressions name one of many variables, in one walk over them.
ghost use Rattle.std.specs.Prelude.{◌≡◌, ◌↔◌, ◌⊎◌, [], ℕ, List, IsTrue, Contains, true, false};
ghost use Rattle.mz_logic_theory.specs.Tree.{var};
ghost use Rattle.mz_logic_theory.specs.Variables.{InV, InSomeV};
ghost use Rattle.mz_logic_theory.specs.View.{tree};
ghost use Rattle.mz_logic_free.specs.Narrowed.{AreNarrowed};

use crate::narrowed::Narrowed;
use crate::own::Own;
use crate::variables::VariableSet;
use mz_logic_theory::{Binder, Context, Deps, Expr, ExprKind, Exprs};
use std::alloc::Global;

/// Whether one of the variables is in V of one of the expressions.
pub fn some_name_any(alloc: Global, ctx: &Context, es: &Exprs, variables: &VariableSet) -> bool
    ensures { IsTrue result ↔ ((x : ℕ) × Contains variables.now x × InSomeV ctx.now x es.now) }
{
    if variables.is_empty() {
        return false;
    }
    let mut narrowed = Narrowed::new(alloc);
    some_name_sought(ctx, es, variables, &mut narrowed)
}

/// The same, with room for what is narrowed.
fn some_name_sought(
    ctx: &Context,
    es: &Exprs,
    variables: &VariableSet,
    narrowed: &mut Narrowed,
) -> bool
    requires { narrowed.old ≡ [] }
    ensures { IsTrue result ↔ ((x : ℕ) × Contains variables.now x × InSomeV ctx.now x es.now) }
{
    let others = Deps::new();
    let own = Own::new(variables, &[], 0, &others);
    some_name_other(ctx, es, variables, &own, narrowed)
}

/// Whether one of the variables, but for those that are `own`, is in V of one of the expressions.
#[cycle(names_other)]
fn some_name_other(
    ctx: &Context,
    es: &Exprs,
    variables: &VariableSet,
    own: &Own<'_>,
    narrowed: &mut Narrowed,
) -> bool
    requires { AreNarrowed ctx.now variables.now narrowed.old }
    ensures answer { IsTrue result ↔ ((x : ℕ) × (Contains variables.now x × (Contains own.now x → ⊥)) × InSomeV ctx.now x es.now) }
    ensures kept { AreNarrowed ctx.now variables.now narrowed.new }
{
    for e in es.as_slice() {
        if names_other(ctx, e, variables, own, narrowed) {
            return true;
        }
    }
    false
}

/// The same of one expression.
#[cycle(names_other)]
pub fn names_other(
    ctx: &Context,
    expr: &Expr,
    variables: &VariableSet,
    own: &Own<'_>,
    narrowed: &mut Narrowed,
) -> bool
    requires { AreNarrowed ctx.now variables.now narrowed.old }
    ensures answer { IsTrue result ↔ ((x : ℕ) × (Contains variables.now x × (Contains own.now x → ⊥)) × InV ctx.now x (tree expr.now)) }
    ensures kept { AreNarrowed ctx.now variables.now narrowed.new }
{
    match expr.kind() {
        ExprKind::Var(y) => variable_names_other(ctx, *y, variables, own, narrowed),
        ExprKind::App(_, es) => some_name_other(ctx, es, variables, own, narrowed),
        ExprKind::Under(_, e) => names_other(ctx, e, variables, own, narrowed),
    }
}

/// The same of the variable `y`.
fn variable_names_other(
    ctx: &Context,
    y: u32,
    variables: &VariableSet,
    own: &Own<'_>,
    narrowed: &mut Narrowed,
) -> bool
    requires { AreNarrowed ctx.now variables.now narrowed.old }
    ensures answer { IsTrue result ↔ ((x : ℕ) × (Contains variables.now x × (Contains own.now x → ⊥)) × InV ctx.now x (var y)) }
    ensures kept { AreNarrowed ctx.now variables.now narrowed.new }
{
    match ctx.get(y) {
        None => false,
        Some(binder) => {
            narrowed.learn(y, binder, variables);
            binder_names_other(binder, y, variables, own, narrowed)
        }
    }
}

/// The same of the variable `y` with this binder.
fn binder_names_other(
    binder: &Binder,
    y: u32,
    variables: &VariableSet,
    own: &Own<'_>,
    narrowed: &Narrowed,
) -> bool
    requires { (few : List ℕ) → Contains narrowed.now (y, few) → (x : ℕ) → Contains variables.now x → Contains few x ↔ Contains binder.now.deps x }
    ensures { IsTrue result
        ↔ ((x : ℕ) × (Contains variables.now x × (Contains own.now x → ⊥)) × (((binder.now.bound ≡ true) × (x ≡ y)) ⊎ ((binder.now.bound ≡ false) × Contains binder.now.deps x))) }
{
    if binder.bound {
        is_other(y, variables, own)
    } else {
        has_other(narrowed.places(y, &binder.deps), variables, own)
    }
}

/// Whether one of the variables, but for those that are `own`, is at one of the places. The places are gone
/// through, each looked up in a set, or the variables, each searched for, where they are much fewer.
fn has_other(places: &Deps, variables: &VariableSet, own: &Own<'_>) -> bool
    ensures { IsTrue result ↔ ((x : ℕ) × (Contains variables.now x × (Contains own.now x → ⊥)) × Contains places.now x) }
{
    if variables.len() < places.as_slice().len() / 8 {
        return has_one_of(places, variables.as_slice(), own);
    }
    for place in places.as_slice() {
        if is_other(*place, variables, own) {
            return true;
        }
    }
    false
}

/// Whether one of the variables, but for those that are `own`, is at one of the places.
fn has_one_of(places: &Deps, variables: &[u32], own: &Own<'_>) -> bool
    ensures { IsTrue result ↔ ((x : ℕ) × ((Contains own.now x → ⊥) × Contains places.now x) × Contains variables.now x) }
{
    for x in variables {
        if is_at_other(*x, places, own) {
            return true;
        }
    }
    false
}

/// Whether the variable is at one of the places and none that is `own`.
fn is_at_other(x: u32, places: &Deps, own: &Own<'_>) -> bool
    ensures { IsTrue result ↔ ((Contains own.now x → ⊥) × Contains places.now x) }
{
    places.has(x) && !own.has(x)
}

/// Whether this is one of the variables, and none that is `own`.
fn is_other(x: u32, variables: &VariableSet, own: &Own<'_>) -> bool
    ensures { IsTrue result ↔ (Contains variables.now x × (Contains own.now x → ⊥)) }
{
    variables.has(x) && !own.has(x)
}
