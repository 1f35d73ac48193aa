ghost use Rattle.std.specs.Prelude.{◌≡◌, ◌↔◌, ◌<◌, ◌≤◌, ℕ, length, drop, IsTrue};
ghost use Rattle.mz_logic_theory.specs.Declaration.{signatures};
ghost use Rattle.mz_logic_theory.specs.Legality;
ghost use Rattle.mz_logic_theory.specs.Legality.{InRange, AllInRange, HasOperandSorts, OperandsOf, HasBoundOperands, SortsFit, BoundFit, binder_at, signature_at, EachTree, IsClaim};
ghost use Rattle.mz_logic_theory.specs.Tree.{listed};
ghost use Rattle.mz_logic_theory.specs.Sorts.{IsBoundVar};
ghost use Rattle.mz_logic_theory.specs.View.{tree};

use mz_logic_theory::{Binder, Context, Env, Expr, ExprRef, Hyps, Operands, Shape};

/// Whether all terms of the expression are there, with as many operands as parameters, and its
/// variables are places below `end`.
#[cycle(in_range)]
pub fn in_range(env: &Env, end: usize, expr: &ExprRef) -> bool
    ensures { IsTrue result ↔ InRange (signatures env.now) end expr.now }
{
    match expr.shape() {
        Shape::Var(x) => (x as usize) < end,
        Shape::App(t, es) => match env.term(t) {
            None => false,
            Some(term) => es.len() == term.params.len() && all_in_range(env, end, &es),
        },
    }
}

/// The same of each expression.
#[cycle(in_range)]
fn all_in_range(env: &Env, end: usize, es: &Operands) -> bool
    ensures { IsTrue result ↔ AllInRange (signatures env.now) end es.now }
{
    for i in 0..es.len() {
        if !in_range(env, end, &es.at(i)) {
            return false;
        }
    }
    true
}

/// The same of each hypothesis.
pub fn hyps_are_in_range(env: &Env, end: usize, hyps: &Hyps) -> bool
    ensures { IsTrue result ↔ AllInRange (signatures env.now) end hyps.now }
{
    all_in_range(env, end, &hyps.formulas().borrowed())
}

/// The sort of a variable, 0 where it isn't there.
fn sort_of_variable(ctx: &Context, place: u32) -> u32
    ensures { result ≡ (binder_at ctx.now place).sort }
{
    match ctx.get(place) {
        None => 0,
        Some(binder) => binder.sort,
    }
}

/// The sort of a term's applications, 0 where the term isn't there.
pub fn sort_of_term(env: &Env, term: u32) -> u32
    ensures { result ≡ (signature_at (signatures env.now) term).result.sort }
{
    match env.term(term) {
        None => 0,
        Some(term) => term.result.sort,
    }
}

/// The sort of an expression, 0 where its name isn't there.
pub fn sort_of(env: &Env, ctx: &Context, expr: &Expr) -> u32
    ensures { result ≡ Legality.sort_of (signatures env.now) ctx.now (tree expr.now) }
{
    borrowed_sort_of(env, ctx, &expr.borrowed())
}

/// The same of an expression that is borrowed.
pub fn borrowed_sort_of(env: &Env, ctx: &Context, expr: &ExprRef) -> u32
    ensures { result ≡ Legality.sort_of (signatures env.now) ctx.now expr.now }
{
    match expr.shape() {
        Shape::Var(x) => sort_of_variable(ctx, x),
        Shape::App(t, _) => sort_of_term(env, t),
    }
}

/// Whether each operand in the expression has its parameter's sort.
#[cycle(have_operand_sorts)]
pub fn has_operand_sorts(env: &Env, ctx: &Context, expr: &ExprRef) -> bool
    requires { InRange (signatures env.now) (length ctx.now) expr.now }
    ensures { IsTrue result ↔ HasOperandSorts (signatures env.now) ctx.now expr.now }
{
    match expr.shape() {
        Shape::Var(_) => true,
        Shape::App(t, es) => match env.term(t) {
            None => unreachable!(),
            Some(term) => have_operand_sorts(env, ctx, &es, term.params.as_slice()),
        },
    }
}

/// Whether each of these operands has its parameter's sort, and each operand in them too.
#[cycle(have_operand_sorts)]
fn have_operand_sorts(env: &Env, ctx: &Context, es: &Operands, params: &[Binder]) -> bool
    requires there { AllInRange (signatures env.now) (length ctx.now) es.now }
    requires many { length (listed es.now) ≡ length params.now }
    ensures { IsTrue result ↔ OperandsOf (signatures env.now) (SortsFit (signatures env.now) ctx.now) es.now params.now }
{
    for i in 0..es.len() {
        let e = es.at(i);
        if !(borrowed_sort_of(env, ctx, &e) == params[i].sort && has_operand_sorts(env, ctx, &e)) {
            return false;
        }
    }
    true
}

/// Whether each operand of a bound parameter in the expression is a bound variable.
#[cycle(have_bound_operands)]
pub fn has_bound_operands(env: &Env, ctx: &Context, expr: &ExprRef) -> bool
    requires { InRange (signatures env.now) (length ctx.now) expr.now }
    ensures { IsTrue result ↔ HasBoundOperands (signatures env.now) ctx.now expr.now }
{
    match expr.shape() {
        Shape::Var(_) => true,
        Shape::App(t, es) => match env.term(t) {
            None => unreachable!(),
            Some(term) => have_bound_operands(env, ctx, &es, term.params.as_slice()),
        },
    }
}

/// Whether each of these operands is a bound variable where its parameter is bound, and each in
/// them too.
#[cycle(have_bound_operands)]
fn have_bound_operands(env: &Env, ctx: &Context, es: &Operands, params: &[Binder]) -> bool
    requires there { AllInRange (signatures env.now) (length ctx.now) es.now }
    requires many { length (listed es.now) ≡ length params.now }
    ensures { IsTrue result ↔ OperandsOf (signatures env.now) (BoundFit ctx.now) es.now params.now }
{
    for i in 0..es.len() {
        let e = es.at(i);
        if !(fits_bound(ctx, &e, &params[i]) && has_bound_operands(env, ctx, &e)) {
            return false;
        }
    }
    true
}

/// Whether the operand is a bound variable if the parameter is bound.
fn fits_bound(ctx: &Context, operand: &ExprRef, param: &Binder) -> bool
    ensures { IsTrue result ↔ BoundFit ctx.now operand.now param.now }
{
    !param.bound || borrowed_is_bound_var(ctx, operand)
}

/// Whether the expression is a bound variable.
pub fn is_bound_var(ctx: &Context, expr: &Expr) -> bool
    ensures { IsTrue result ↔ IsBoundVar ctx.now (tree expr.now) }
{
    borrowed_is_bound_var(ctx, &expr.borrowed())
}

/// The same of an expression that is borrowed.
pub fn borrowed_is_bound_var(ctx: &Context, expr: &ExprRef) -> bool
    ensures { IsTrue result ↔ IsBoundVar ctx.now expr.now }
{
    match expr.shape() {
        Shape::App(_, _) => false,
        Shape::Var(x) => match ctx.get(x) {
            None => false,
            Some(binder) => binder.bound,
        },
    }
}

/// The rule on operands' sorts for each hypothesis.
pub fn all_have_operand_sorts(env: &Env, ctx: &Context, hyps: &Hyps) -> bool
    requires { AllInRange (signatures env.now) (length ctx.now) hyps.now }
    ensures { IsTrue result ↔ EachTree (HasOperandSorts (signatures env.now) ctx.now) hyps.now }
{
    for e in hyps.formulas().as_slice() {
        if !has_operand_sorts(env, ctx, &e.borrowed()) {
            return false;
        }
    }
    true
}

/// The rule on bound operands for each hypothesis.
pub fn all_have_bound_operands(env: &Env, ctx: &Context, hyps: &Hyps) -> bool
    requires { AllInRange (signatures env.now) (length ctx.now) hyps.now }
    ensures { IsTrue result ↔ EachTree (HasBoundOperands (signatures env.now) ctx.now) hyps.now }
{
    for e in hyps.formulas().as_slice() {
        if !has_bound_operands(env, ctx, &e.borrowed()) {
            return false;
        }
    }
    true
}

/// Whether each hypothesis has a provable sort.
pub fn all_are_claims(env: &Env, ctx: &Context, hyps: &Hyps) -> bool
    ensures { IsTrue result ↔ EachTree (IsClaim env.now ctx.now) hyps.now }
{
    for e in hyps.formulas().as_slice() {
        if !is_claim(env, ctx, e) {
            return false;
        }
    }
    true
}

/// Whether the expression has a provable sort.
pub fn is_claim(env: &Env, ctx: &Context, expr: &Expr) -> bool
    ensures { IsTrue result ↔ IsClaim env.now ctx.now (tree expr.now) }
{
    env.mods(sort_of(env, ctx, expr))
        .is_some_and(|mods| mods.is_provable())
}
