ghost use Rattle.std.specs.Prelude.{ℕ, ◌≡◌, ◌↔◌, ◌<◌, IsTrue, length};
ghost use Rattle.mz_logic_theory.specs.Declaration.{signatures};
ghost use Rattle.mz_logic_theory.specs.Legality.{AllInRange};
ghost use Rattle.mz_logic_theory.specs.Sorts.{Fits};
ghost use Rattle.mz_logic_theory.specs.Variables.{AreDisjoint, AreDisjointAt, InV};
ghost use Rattle.mz_logic_theory.specs.Tree.{listed, operand};

use crate::vars::{has_place, in_tree};
use mz_logic_theory::{Binder, Context, Env, Exprs, Shape};

/// Whether operands that fit the parameters are disjoint: where the operand of a bound parameter is in
/// V of another operand, the other one's parameter depends on it. Each pair of operands is looked at.
pub fn are_disjoint_by_pairs(env: &Env, ctx: &Context, es: &Exprs, params: &[Binder]) -> bool
    requires { Fits (signatures env.now) ctx.now es.now params.now }
    ensures { IsTrue result ↔ AreDisjoint ctx.now es.now params.now }
{
    for j in 0..params.len() {
        if params[j].bound && !are_disjoint_from(env, ctx, es, params, j) {
            return false;
        }
    }
    true
}

/// Whether each operand is disjoint from the j-th.
fn are_disjoint_from(env: &Env, ctx: &Context, es: &Exprs, params: &[Binder], j: usize) -> bool
    requires there { AllInRange (signatures env.now) (length ctx.now) es.now }
    requires many { length (listed es.now) ≡ length params.now }
    requires within { j < length params.now }
    ensures { IsTrue result ↔ ((i : ℕ) → AreDisjointAt ctx.now es.now params.now i j) }
{
    for i in 0..params.len() {
        if !is_disjoint_from(env, ctx, es, params, i, j) {
            return false;
        }
    }
    true
}

/// Whether the j-th operand, if its parameter is bound, may be in V of the i-th one or isn't.
fn is_disjoint_from(
    env: &Env,
    ctx: &Context,
    es: &Exprs,
    params: &[Binder],
    i: usize,
    j: usize,
) -> bool
    requires there { AllInRange (signatures env.now) (length ctx.now) es.now }
    requires many { length (listed es.now) ≡ length params.now }
    requires within { i < length params.now }
    requires within_too { j < length params.now }
    ensures { IsTrue result ↔ AreDisjointAt ctx.now es.now params.now i j }
{
    if !params[j].bound || i == j || has_place(&params[i].deps, j) {
        return true;
    }
    let Some(operand) = es.get(j) else {
        return true;
    };
    match operand.shape() {
        Shape::Var(x) => !is_in_operand(env, ctx, es, i, x),
        Shape::App(_, _) => true,
    }
}

/// Whether the variable `x` is in V of the i-th operand.
fn is_in_operand(env: &Env, ctx: &Context, es: &Exprs, i: usize, x: u32) -> bool
    requires there { AllInRange (signatures env.now) (length ctx.now) es.now }
    requires within { i < length (listed es.now) }
    ensures { IsTrue result ↔ InV ctx.now x (operand es.now i) }
{
    match es.get(i) {
        None => false,
        Some(e) => in_tree(env, ctx, e, x as usize),
    }
}
