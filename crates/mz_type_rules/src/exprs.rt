//! What is asked of expressions.
ghost use Rattle.std.specs.Prelude.{◌≡◌, drop};
ghost use Rattle.mz_base.specs.Checks.{Judges, AllHold};
ghost use Rattle.mz_sexpr.specs.Node.{parts};
ghost use Rattle.mz_sexpr.specs.Number.{first, rest};
ghost use Rattle.mz_logic_theory.specs.Declaration.{signatures};
ghost use Rattle.mz_logic_theory.specs.Legality.{signature_at};
ghost use Rattle.mz_logic_theory.specs.Tree.{app};
ghost use Rattle.mz_logic_theory.specs.View.{tree};
ghost use Rattle.mz_mmu_theory.specs.Rules.{expr_rules, exprs_rules, operand_rules, own_operand_rules, claim_rules};

use crate::cursor::Cursor;
use mz_logic::{borrowed_is_bound_var, borrowed_sort_of, is_claim};
use mz_logic_theory::{Binder, Context, Env, Expr, ExprRef, Exprs, Operands, Shape};
use mz_mmu_theory::Fault;
use mz_sexpr::U;

/// The parameters of a term, none where it isn't there.
pub(crate) fn params_of<'e>(env: &'e Env, term: u32) -> &'e [Binder]
    ensures { result.now ≡ (signature_at (signatures env.now) term).params }
{
    match env.term(term) {
        None => &[],
        Some(term) => term.params.as_slice(),
    }
}

/// The rules of an expression, at the first node.
pub(crate) fn check_expr(env: &Env, ctx: &Context, expr: &Expr, nodes: &Cursor) -> Result<(), Fault>
    ensures { Judges result (expr_rules (signatures env.now) ctx.now (tree expr.now) (first nodes.now)) }
{
    check_borrowed_expr(env, ctx, &expr.borrowed(), nodes)
}

/// The same of an expression that is borrowed.
fn check_borrowed_expr(
    env: &Env,
    ctx: &Context,
    expr: &ExprRef,
    nodes: &Cursor,
) -> Result<(), Fault>
    ensures { Judges result (expr_rules (signatures env.now) ctx.now expr.now (first nodes.now)) }
{
    match expr.shape() {
        Shape::Var(_) => Ok(()),
        Shape::App(t, es) => check_app(env, ctx, t, &es, nodes),
    }
}

/// The rules of a term's application, at the first node.
#[cycle(check_app)]
fn check_app(
    env: &Env,
    ctx: &Context,
    term: u32,
    es: &Operands,
    nodes: &Cursor,
) -> Result<(), Fault>
    ensures { Judges result (expr_rules (signatures env.now) ctx.now (app term es.now) (first nodes.now)) }
{
    check_borrowed_exprs(env, ctx, es, &nodes.parts_after(1))?;
    check_app_operands(env, ctx, term, es, nodes)
}

/// The own rules of a term's application, after those of its operands. It isn't inlined: what it needs
/// would stand on the stack once a level.
#[inline(never)]
fn check_app_operands(
    env: &Env,
    ctx: &Context,
    term: u32,
    es: &Operands,
    nodes: &Cursor,
) -> Result<(), Fault>
    requires { AllHold (exprs_rules (signatures env.now) ctx.now es.now (rest (parts (first nodes.now)))) }
    ensures { Judges result (expr_rules (signatures env.now) ctx.now (app term es.now) (first nodes.now)) }
{
    let params = params_of(env, term);
    if es.len() != params.len() {
        return Err(nodes.fault(U::Arity));
    }
    check_borrowed_operands(env, ctx, es, &nodes.parts_after(1), params)
}

/// The rules of each expression, at its node.
pub(crate) fn check_exprs(env: &Env, ctx: &Context, es: &Exprs, nodes: &Cursor) -> Result<(), Fault>
    ensures { Judges result (exprs_rules (signatures env.now) ctx.now es.now nodes.now) }
{
    check_borrowed_exprs(env, ctx, &es.borrowed(), nodes)
}

/// The same of expressions that are borrowed.
#[cycle(check_app)]
fn check_borrowed_exprs(
    env: &Env,
    ctx: &Context,
    es: &Operands,
    nodes: &Cursor,
) -> Result<(), Fault>
    ensures { Judges result (exprs_rules (signatures env.now) ctx.now es.now nodes.now) }
{
    let mut left = nodes.after(0);
    for i in 0..es.len() {
        match es.at(i).shape() {
            Shape::Var(_) => (),
            Shape::App(t, operands) => check_app(env, ctx, t, &operands, &left)?,
        }
        left = left.rest();
    }
    Ok(())
}

/// Whether each operand has its parameter's sort, and is a bound variable where that is bound.
pub(crate) fn check_operands(
    env: &Env,
    ctx: &Context,
    es: &Exprs,
    nodes: &Cursor,
    params: &[Binder],
) -> Result<(), Fault>
    ensures { Judges result (operand_rules (signatures env.now) ctx.now es.now nodes.now params.now) }
{
    check_borrowed_operands(env, ctx, &es.borrowed(), nodes, params)
}

/// The same of operands that are borrowed.
fn check_borrowed_operands(
    env: &Env,
    ctx: &Context,
    es: &Operands,
    nodes: &Cursor,
    params: &[Binder],
) -> Result<(), Fault>
    ensures { Judges result (operand_rules (signatures env.now) ctx.now es.now nodes.now params.now) }
{
    let mut left = nodes.after(0);
    for i in 0..es.len() {
        if i == params.len() {
            return Ok(());
        }
        check_operand(env, ctx, &es.at(i), &left, &params[i])?;
        left = left.rest();
    }
    Ok(())
}

fn check_operand(
    env: &Env,
    ctx: &Context,
    expr: &ExprRef,
    nodes: &Cursor,
    param: &Binder,
) -> Result<(), Fault>
    ensures { Judges result (own_operand_rules (signatures env.now) ctx.now expr.now (first nodes.now) param.now) }
{
    if borrowed_sort_of(env, ctx, expr) != param.sort {
        return Err(nodes.fault(U::Sort));
    }
    if param.bound && !borrowed_is_bound_var(ctx, expr) {
        return Err(nodes.fault(U::Bound));
    }
    Ok(())
}

/// The rules of an expression whose sort is provable, at the first node.
pub(crate) fn check_claim(
    env: &Env,
    ctx: &Context,
    expr: &Expr,
    nodes: &Cursor,
) -> Result<(), Fault>
    ensures { Judges result (claim_rules env.now ctx.now (tree expr.now) (first nodes.now)) }
{
    check_expr(env, ctx, expr, nodes)?;
    if is_claim(env, ctx, expr) {
        Ok(())
    } else {
        Err(nodes.fault(U::Declaration))
    }
}
