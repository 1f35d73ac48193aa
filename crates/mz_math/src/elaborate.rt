// The expression that a tree of the notation grammar stands for.
ghost use Rattle.std.specs.Prelude.{◌≡◌, ◌↔◌, [], ℕ, List, IfOk, IsTrue, MatchOption, length};
ghost use Rattle.mz_logic_theory.specs.declared.binder.Binder.{Binder as Param};
ghost use Rattle.mz_logic_theory.specs.Declaration.{signatures};
ghost use Rattle.mz_logic_theory.specs.Signature.{Signature};
ghost use Rattle.mz_logic_theory.specs.Sorts.{IsBoundVar};
ghost use Rattle.mz_logic_theory.specs.Tree.{Tree, Trees, none, var};
ghost use Rattle.mz_logic_theory.specs.View.{tree as tree_lem};
ghost use Rattle.mz_math_theory.specs.FormulaAnswers.{FitsParam, IsBuilt, IsAdded, AreAdded, AddsWrapped};
ghost use Rattle.mz_math_theory.specs.Coercions.{OnePath, Reaches};
ghost use Rattle.mz_math_theory.specs.Meaning.{Coerced, CoercedAll};
ghost use Rattle.mz_math_coercions.specs.Found.{AreFound};

use crate::height::is_low;
use mz_logic_theory::{Binder, Context, Env, Expr, ExprRef, Exprs, Operands, Shape};
use mz_math_coercions::{Coercions, Paths, distance, reaches, wrap};
use mz_math_theory::{Added, Built};
use std::alloc::{AllocError, Global};

/// The sort of a tree whose operands can be wrapped to their parameters' sorts.
///
/// # Errors
///
/// Where there is no memory.
#[cycle(sort_of)]
pub fn sort_of(
    alloc: Global,
    env: &Env,
    coercions: &Coercions,
    paths: &mut Paths,
    ctx: &Context<'_>,
    tree: &ExprRef<'_>,
) -> Result<Option<u32>, AllocError>
    requires one { OnePath coercions.now }
    requires found { AreFound coercions.now paths.old }
    ensures found { AreFound coercions.now paths.new }
    ensures sort { IfOk result (λ found. MatchOption found ((e : Tree) (s : ℕ) → Coerced (signatures env.now) coercions.now ctx.now tree.now e s → ⊥)
        (λ s. (e : Tree) × Coerced (signatures env.now) coercions.now ctx.now tree.now e s)) }
{
    match tree.shape() {
        Shape::Var(x) => match ctx.get(x) {
            None => Ok(None),
            Some(binder) => Ok(Some(binder.sort)),
        },
        Shape::App(t, operands) => match env.term(t) {
            None => Ok(None),
            Some(term) => {
                if all_fit(
                    alloc,
                    env,
                    coercions,
                    paths,
                    ctx,
                    &operands,
                    term.params.as_slice(),
                )? {
                    Ok(Some(term.result.sort))
                } else {
                    Ok(None)
                }
            }
        },
    }
}

/// Whether the operands can be wrapped to their parameters' sorts.
///
/// # Errors
///
/// Where there is no memory.
#[cycle(sort_of)]
fn all_fit(
    alloc: Global,
    env: &Env,
    coercions: &Coercions,
    paths: &mut Paths,
    ctx: &Context<'_>,
    operands: &Operands<'_>,
    params: &[Binder],
) -> Result<bool, AllocError>
    requires one { OnePath coercions.now }
    requires found { AreFound coercions.now paths.old }
    ensures found { AreFound coercions.now paths.new }
    ensures fit { IfOk result (λ fit. IsTrue fit ↔ ((fs : Trees) × CoercedAll (signatures env.now) coercions.now ctx.now operands.now params.now fs)) }
{
    if operands.len() != params.len() {
        return Ok(false);
    }
    for i in 0..operands.len() {
        if !fits(
            alloc,
            env,
            coercions,
            paths,
            ctx,
            &operands.at(i),
            &params[i],
        )? {
            return Ok(false);
        }
    }
    Ok(true)
}

/// Whether an operand can be wrapped to its parameter's sort.
///
/// # Errors
///
/// Where there is no memory.
#[cycle(sort_of)]
fn fits(
    alloc: Global,
    env: &Env,
    coercions: &Coercions,
    paths: &mut Paths,
    ctx: &Context<'_>,
    operand: &ExprRef<'_>,
    param: &Binder,
) -> Result<bool, AllocError>
    requires one { OnePath coercions.now }
    requires found { AreFound coercions.now paths.old }
    ensures found { AreFound coercions.now paths.new }
    ensures fit { IfOk result (λ fit. IsTrue fit ↔ ((f : Tree) × FitsParam (signatures env.now) coercions.now ctx.now operand.now param.now f)) }
{
    match operand.shape() {
        Shape::Var(x) => match ctx.get(x) {
            None => Ok(false),
            Some(binder) => sort_fits(alloc, coercions, paths, binder.sort, binder.bound, param),
        },
        Shape::App(_, _) => match sort_of(alloc, env, coercions, paths, ctx, operand)? {
            None => Ok(false),
            Some(sort) => sort_fits(alloc, coercions, paths, sort, false, param),
        },
    }
}

/// Whether an operand of this sort, a bound variable or not, can be wrapped to its parameter's sort.
///
/// # Errors
///
/// Where there is no memory.
fn sort_fits(
    alloc: Global,
    coercions: &Coercions,
    paths: &mut Paths,
    sort: u32,
    is_bound: bool,
    param: &Binder,
) -> Result<bool, AllocError>
    requires found { AreFound coercions.now paths.old }
    ensures found { AreFound coercions.now paths.new }
    ensures fit { (sigs : List Signature) (ctx : List Param) (e f : Tree) → OnePath coercions.now → Coerced sigs coercions.now ctx e f sort → (IsTrue is_bound ↔ IsBoundVar ctx e)
        → IfOk result (λ fit. IsTrue fit ↔ ((g : Tree) × FitsParam sigs coercions.now ctx e param.now g)) }
{
    // Most sorts are the same, and then no path is looked for.
    if sort == param.sort {
        return Ok(!param.bound || is_bound);
    }
    if param.bound {
        return Ok(false);
    }
    reaches(alloc, coercions, paths, sort, param.sort)
}

/// The tree with its operands wrapped, where it is at most so high. Without coercions it is the tree
/// itself, and no other is built.
pub fn coerced(
    alloc: Global,
    env: &Env,
    coercions: &Coercions,
    paths: &mut Paths,
    ctx: &Context<'_>,
    tree: Expr,
    most: usize,
) -> Built
    requires one { OnePath coercions.now }
    requires found { AreFound coercions.now paths.old }
    requires there { (e : Tree) × (s : ℕ) × Coerced (signatures env.now) coercions.now ctx.now (tree_lem tree) e s }
    ensures found { AreFound coercions.now paths.new }
    ensures built { IsBuilt (signatures env.now) coercions.now ctx.now (tree_lem tree) most result }
{
    if !are_none(coercions) {
        return build(alloc, env, coercions, paths, ctx, &tree.borrowed(), most);
    }
    if is_low(&tree, most) {
        return Built::Tree(tree);
    }
    Built::High
}

fn are_none(coercions: &Coercions) -> bool
    ensures { IsTrue result ↔ (coercions.now ≡ []) }
{
    coercions.as_slice().is_empty()
}

/// The tree with its operands wrapped, where it is at most so high.
fn build(
    alloc: Global,
    env: &Env,
    coercions: &Coercions,
    paths: &mut Paths,
    ctx: &Context<'_>,
    tree: &ExprRef<'_>,
    most: usize,
) -> Built
    requires one { OnePath coercions.now }
    requires found { AreFound coercions.now paths.old }
    requires there { (e : Tree) × (s : ℕ) × Coerced (signatures env.now) coercions.now ctx.now tree.now e s }
    ensures found { AreFound coercions.now paths.new }
    ensures built { IsBuilt (signatures env.now) coercions.now ctx.now tree.now most result }
{
    if most == 0 {
        return Built::High;
    }
    match tree.shape() {
        Shape::Var(x) => Built::Tree(Expr::var(x)),
        Shape::App(t, operands) => match env.term(t) {
            None => unreachable!(),
            Some(term) => {
                let Ok(mut all) = Exprs::with_capacity(alloc, operands.len()) else {
                    return Built::Mem;
                };
                match add_operands(
                    alloc,
                    env,
                    coercions,
                    paths,
                    ctx,
                    &operands,
                    term.params.as_slice(),
                    most - 1,
                    &mut all,
                ) {
                    Added::Done => Built::Tree(Expr::app(t, all)),
                    Added::High => Built::High,
                    Added::Mem => Built::Mem,
                }
            }
        },
    }
}

/// Adds the operands to an empty list, wrapped to their parameters' sorts, where none is too high.
#[cycle(add_operands)]
fn add_operands(
    alloc: Global,
    env: &Env,
    coercions: &Coercions,
    paths: &mut Paths,
    ctx: &Context<'_>,
    operands: &Operands<'_>,
    params: &[Binder],
    most: usize,
    all: &mut Exprs,
) -> Added
    requires one { OnePath coercions.now }
    requires found { AreFound coercions.now paths.old }
    requires there { (fs : Trees) × CoercedAll (signatures env.now) coercions.now ctx.now operands.now params.now fs }
    requires empty { all.old ≡ none }
    ensures found { AreFound coercions.now paths.new }
    ensures added { AreAdded (signatures env.now) coercions.now ctx.now operands.now params.now most all.new result }
{
    for i in 0..operands.len() {
        match add_operand(
            alloc,
            env,
            coercions,
            paths,
            ctx,
            &operands.at(i),
            &params[i],
            most,
            all,
        ) {
            Added::Done => {}
            Added::High => return Added::High,
            Added::Mem => return Added::Mem,
        }
    }
    Added::Done
}

/// Adds an operand, wrapped to its parameter's sort, where that is at most so high.
#[cycle(add_operands)]
fn add_operand(
    alloc: Global,
    env: &Env,
    coercions: &Coercions,
    paths: &mut Paths,
    ctx: &Context<'_>,
    operand: &ExprRef<'_>,
    param: &Binder,
    most: usize,
    all: &mut Exprs,
) -> Added
    requires one { OnePath coercions.now }
    requires found { AreFound coercions.now paths.old }
    requires there { (f : Tree) × FitsParam (signatures env.now) coercions.now ctx.now operand.now param.now f }
    ensures found { AreFound coercions.now paths.new }
    ensures added { IsAdded (signatures env.now) coercions.now ctx.now operand.now param.now most all.old all.new result }
{
    let sort = head_sort(env, coercions, ctx, operand);
    let Ok(path) = distance(alloc, coercions, paths, sort, param.sort) else {
        return Added::Mem;
    };
    let Some(many) = path else { unreachable!() };
    if many >= most {
        return Added::High;
    }
    match operand.shape() {
        Shape::Var(x) => add_variable(alloc, coercions, paths, sort, param.sort, x, all),
        Shape::App(t, operands) => match env.term(t) {
            None => unreachable!(),
            Some(term) => {
                let Ok(mut own) = Exprs::with_capacity(alloc, operands.len()) else {
                    return Added::Mem;
                };
                match add_operands(
                    alloc,
                    env,
                    coercions,
                    paths,
                    ctx,
                    &operands,
                    term.params.as_slice(),
                    most - many - 1,
                    &mut own,
                ) {
                    Added::High => Added::High,
                    Added::Mem => Added::Mem,
                    Added::Done => {
                        add_wrapped(
                            alloc,
                            coercions,
                            paths,
                            sort,
                            param.sort,
                            Expr::app(t, own),
                            all,
                        )
                    }
                }
            }
        },
    }
}

/// Adds a variable of a sort, wrapped to another, where there is memory.
#[inline(never)]
fn add_variable(
    alloc: Global,
    coercions: &Coercions,
    paths: &mut Paths,
    from: u32,
    to: u32,
    x: u32,
    all: &mut Exprs,
) -> Added
    requires found { AreFound coercions.now paths.old }
    requires there { Reaches coercions.now (length coercions.now) from to }
    ensures found { AreFound coercions.now paths.new }
    ensures added { AddsWrapped coercions.now from to (var x) all.old all.new result }
{
    add_wrapped(alloc, coercions, paths, from, to, Expr::var(x), all)
}

/// Adds an expression of a sort, wrapped to another, where there is memory.
///
/// Neither it nor what is above is inlined: operands stand deep in one another, and what is only
/// needed here would take stack for each of them.
#[inline(never)]
fn add_wrapped(
    alloc: Global,
    coercions: &Coercions,
    paths: &mut Paths,
    from: u32,
    to: u32,
    expr: Expr,
    all: &mut Exprs,
) -> Added
    requires found { AreFound coercions.now paths.old }
    requires there { Reaches coercions.now (length coercions.now) from to }
    ensures found { AreFound coercions.now paths.new }
    ensures added { AddsWrapped coercions.now from to (tree_lem expr) all.old all.new result }
{
    match wrap(alloc, coercions, paths, from, to, expr) {
        Err(_) => Added::Mem,
        Ok(expr) => match all.push(expr) {
            Err(_) => Added::Mem,
            Ok(()) => Added::Done,
        },
    }
}

/// The sort of a tree that has one.
///
/// It isn't inlined, for the reason that `add_wrapped` isn't.
#[inline(never)]
fn head_sort(env: &Env, coercions: &Coercions, ctx: &Context<'_>, tree: &ExprRef<'_>) -> u32
    requires { (e : Tree) × (s : ℕ) × Coerced (signatures env.now) coercions.now ctx.now tree.now e s }
    ensures { (e : Tree) (s : ℕ) → Coerced (signatures env.now) coercions.now ctx.now tree.now e s → result ≡ s }
{
    match tree.shape() {
        Shape::Var(x) => match ctx.get(x) {
            None => unreachable!(),
            Some(binder) => binder.sort,
        },
        Shape::App(t, _) => match env.term(t) {
            None => unreachable!(),
            Some(term) => term.result.sort,
        },
    }
}
