ghost use Rattle.std.specs.Prelude.{◌≡◌, ◌↔◌, ℕ, ◌<◌, length, Contains, IsTrue, true, false, ◌⊎◌};
ghost use Rattle.mz_logic_theory.specs.DeclView.{term_of};
ghost use Rattle.mz_logic_theory.specs.Declaration.{signatures};
ghost use Rattle.mz_logic_theory.specs.Legality.{InRange, AllInRange, DependOnBound, NamesThere, BindersRight, SortsRight, BoundRight, DepsRight};
ghost use Rattle.mz_logic_theory.specs.Sorts.{HasSort};
ghost use Rattle.mz_logic_theory.specs.Variables.{InV, InSomeV, InFV, InSomeFV, IsOperandAt, IsFreeOperand};
ghost use Rattle.mz_logic_theory.specs.Tree.{var, operand, listed};
ghost use Rattle.mz_logic_theory.specs.View.{tree};

use mz_logic_theory::{
    Binder, Binders, Context, Deps, Env, Expr, ExprKind, ExprRef, Exprs, Operands, Shape, TermDecl,
    is_bound_at,
};

/// Whether the bound variable `x` of the context is in V, the variables of the expression.
pub fn in_all_vars(env: &Env, ctx: &Binders, expr: &Expr, x: u32) -> bool
    requires { (s : ℕ) × HasSort (signatures env.now) ctx.now (tree expr.now) s }
    ensures { IsTrue result ↔ InV ctx.now x (tree expr.now) }
{
    in_tree(env, &Context::of(ctx), expr, x as usize)
}

/// The same over a context of parameters and dummies.
#[cycle(in_tree)]
pub(crate) fn in_tree(env: &Env, ctx: &Context, expr: &Expr, x: usize) -> bool
    requires { InRange (signatures env.now) (length ctx.now) (tree expr.now) }
    ensures { IsTrue result ↔ InV ctx.now x (tree expr.now) }
{
    match expr.kind() {
        ExprKind::Var(y) => in_variable(ctx, *y, x),
        ExprKind::App(_, es) => in_some_tree(env, ctx, es, x),
        ExprKind::Under(_, e) => in_tree(env, ctx, e, x),
    }
}

#[cycle(in_tree)]
fn in_some_tree(env: &Env, ctx: &Context, es: &Exprs, x: usize) -> bool
    requires { AllInRange (signatures env.now) (length ctx.now) es.now }
    ensures { IsTrue result ↔ InSomeV ctx.now x es.now }
{
    for e in es.as_slice() {
        if in_tree(env, ctx, e, x) {
            return true;
        }
    }
    false
}

/// Whether `x` is in V of the variable `y`.
fn in_variable(ctx: &Context, y: u32, x: usize) -> bool
    requires { y < length ctx.now }
    ensures { IsTrue result ↔ InV ctx.now x (var y) }
{
    match ctx.get(y) {
        None => unreachable!(),
        Some(binder) => {
            if binder.bound {
                x == y as usize
            } else {
                has_place(&binder.deps, x)
            }
        }
    }
}

/// Whether `x` is one of the places.
pub(crate) fn has_place(places: &Deps, x: usize) -> bool
    ensures { IsTrue result ↔ Contains places.now x }
{
    for place in places.as_slice() {
        if *place as usize == x {
            return true;
        }
    }
    false
}

/// Whether the bound variable `x` of the context is in FV, the free variables of the expression.
pub fn in_free_vars(env: &Env, ctx: &Binders, expr: &Expr, x: u32) -> bool
    requires { (s : ℕ) × HasSort (signatures env.now) ctx.now (tree expr.now) s }
    ensures { IsTrue result ↔ InFV (signatures env.now) ctx.now x (tree expr.now) }
{
    in_free_tree(env, &Context::of(ctx), &expr.borrowed(), x as usize)
}

/// The same over a context of parameters and dummies.
#[cycle(in_free_tree)]
fn in_free_tree(env: &Env, ctx: &Context, expr: &ExprRef, x: usize) -> bool
    requires { InRange (signatures env.now) (length ctx.now) expr.now }
    ensures { IsTrue result ↔ InFV (signatures env.now) ctx.now x expr.now }
{
    match expr.shape() {
        Shape::Var(y) => in_variable(ctx, y, x),
        Shape::App(t, es) => match env.term(t) {
            None => unreachable!(),
            Some(term) => {
                let params = term.params.as_slice();
                in_some_free_tree(env, ctx, &es, params, x)
                    || is_operand_at(params, &es, &term.result.deps, x)
            }
        },
    }
}

#[cycle(in_free_tree)]
fn in_some_free_tree(env: &Env, ctx: &Context, es: &Operands, params: &[Binder], x: usize) -> bool
    requires there { AllInRange (signatures env.now) (length ctx.now) es.now }
    requires many { length (listed es.now) ≡ length params.now }
    ensures { IsTrue result ↔ InSomeFV (signatures env.now) ctx.now x params.now es.now params.now es.now }
{
    for i in 0..es.len() {
        if is_free_operand(env, ctx, es, params, &params[i], &es.at(i), x) {
            return true;
        }
    }
    false
}

/// Whether `x` is free in the operand of this parameter, a regular one that does not bind it.
#[cycle(in_free_tree)]
fn is_free_operand(
    env: &Env,
    ctx: &Context,
    es: &Operands,
    params: &[Binder],
    param: &Binder,
    operand: &ExprRef,
    x: usize,
) -> bool
    requires { InRange (signatures env.now) (length ctx.now) operand.now }
    ensures { IsTrue result ↔ IsFreeOperand (signatures env.now) ctx.now x params.now es.now param.now operand.now }
{
    !param.bound && !is_operand_at(params, es, &param.deps, x) && in_free_tree(env, ctx, operand, x)
}

/// Whether the variable `x` is the operand of a bound parameter at one of the places.
fn is_operand_at(params: &[Binder], es: &Operands, places: &Deps, x: usize) -> bool
    ensures { IsTrue result ↔ IsOperandAt params.now es.now places.now x }
{
    for place in places.as_slice() {
        if is_bound_at(params, *place as usize) && is_variable_at(es, *place as usize, x) {
            return true;
        }
    }
    false
}

/// Whether the variable `x` is the operand at the place.
fn is_variable_at(es: &Operands, place: usize, x: usize) -> bool
    ensures { IsTrue result ↔ (operand es.now place ≡ var x) }
{
    match es.get(place) {
        None => false,
        Some(e) => match e.shape() {
            Shape::Var(y) => y as usize == x,
            Shape::App(_, _) => false,
        },
    }
}

/// Whether the result depends on each variable of FV of the body.
pub fn body_deps_are_right(env: &Env, term: &TermDecl) -> bool
    requires names { NamesThere env.now (term_of term.now) }
    requires binders { BindersRight env.now (term_of term.now) }
    requires sorts { SortsRight env.now (term_of term.now) }
    requires bound { BoundRight env.now (term_of term.now) }
    ensures { IsTrue result ↔ DepsRight env.now (term_of term.now) }
{
    match term.form.body() {
        None => true,
        Some(e) => free_vars_are_in(env, &term.context(), e, &term.result.deps),
    }
}

/// Whether the places hold all variables of FV of the expression.
fn free_vars_are_in(env: &Env, ctx: &Context, expr: &Expr, places: &Deps) -> bool
    requires sorted { (s : ℕ) × HasSort (signatures env.now) ctx.now (tree expr.now) s }
    requires deps { DependOnBound ctx.now }
    ensures { IsTrue result ↔ ((x : ℕ) → InFV (signatures env.now) ctx.now x (tree expr.now) → Contains places.now x) }
{
    for x in 0..ctx.len() {
        if is_free(env, ctx, expr, x) && !has_place(places, x) {
            return false;
        }
    }
    true
}

/// Whether `x` is in FV of the expression. Only bound variables can be, so no other is looked for.
fn is_free(env: &Env, ctx: &Context, expr: &Expr, x: usize) -> bool
    requires sorted { (s : ℕ) × HasSort (signatures env.now) ctx.now (tree expr.now) s }
    requires deps { DependOnBound ctx.now }
    ensures { IsTrue result ↔ InFV (signatures env.now) ctx.now x (tree expr.now) }
{
    if !ctx.is_bound(x) {
        return false;
    }
    in_free_tree(env, ctx, &expr.borrowed(), x)
}
