// The free variables of an expression, in one walk over it.
ghost use Rattle.std.specs.Prelude.{◌≡◌, ◌↔◌, ◌⊎◌, ◌<◌, ◌++◌, ℕ, List, true, IsTrue, IfOk, OnOk, All, Contains, MatchOption, [], false, length, take};
ghost use Rattle.mz_logic_theory.specs.Alike.{deps_at};
ghost use Rattle.mz_logic_theory.specs.Declaration.{signatures};
ghost use Rattle.mz_logic_theory.specs.Legality.{InRange, AllInRange};
ghost use Rattle.mz_logic_theory.specs.Sorts.{HasSort};
ghost use Rattle.mz_logic_theory.specs.Tree.{listed, operand, var};
ghost use Rattle.mz_logic_theory.specs.Variables.{InV, InFV, InSomeFV, IsBoundAt, IsFreeOperand, IsOperandAt};
ghost use Rattle.mz_logic_theory.specs.View.{tree};
ghost use Rattle.mz_logic_free.specs.Known.{AreKnown, BindsAnew, IsBoundBefore, LearntMore};

use crate::narrowed::is_quick;
use crate::variables::VariableSet;
use mz_logic_theory::{
    Binder, Binders, Context, Deps, Env, Expr, ExprRef, Exprs, Operands, Shape, is_bound_at,
};
use std::alloc::{AllocError, Global};

/// Whether the places hold all variables of FV of the expression.
///
/// # Errors
///
/// Where there is no memory.
pub fn free_vars_are_among(
    alloc: Global,
    env: &Env,
    ctx: &Context,
    expr: &Expr,
    places: &Deps,
) -> Result<bool, AllocError>
    requires { (s : ℕ) × HasSort (signatures env.now) ctx.now (tree expr.now) s }
    ensures { IfOk result (λ are. IsTrue are ↔ ((x : ℕ) → InFV (signatures env.now) ctx.now x (tree expr.now) → Contains places.now x)) }
{
    let mut covered = Covered {
        variables: VariableSet::new(alloc),
        known: VariableSet::new(alloc),
    };
    free_vars_are_covered(env, ctx, expr, places, &mut covered)
}

/// The same, with room for what is covered.
fn free_vars_are_covered(
    env: &Env,
    ctx: &Context,
    expr: &Expr,
    places: &Deps,
    covered: &mut Covered,
) -> Result<bool, AllocError>
    requires sorted { (s : ℕ) × HasSort (signatures env.now) ctx.now (tree expr.now) s }
    requires empty { covered.old.variables ≡ [] }
    requires known { covered.old.known ≡ [] }
    ensures { IfOk result (λ are. IsTrue are ↔ ((x : ℕ) → InFV (signatures env.now) ctx.now x (tree expr.now) → Contains places.now x)) }
{
    cover_places(places, &mut covered.variables)?;
    covers(env, ctx, &expr.borrowed(), covered)
}

/// Adds the variables at these places.
fn cover_places(places: &Deps, variables: &mut VariableSet) -> Result<(), AllocError>
    ensures { OnOk result ((x : ℕ) → Contains variables.new x ↔ (Contains variables.old x ⊎ Contains places.now x)) }
{
    for place in places.as_slice() {
        variables.add(*place)?;
    }
    Ok(())
}

/// The variables that are covered, and of the regular ones those that were looked at: all on which these
/// depend is covered.
#[derive(Drop)]
struct Covered {
    variables: VariableSet,
    known: VariableSet,
}

impl Covered {
    /// Keeps the first ones.
    #[inline]
    fn truncate(&mut self, variables: usize, known: usize)
        ensures variables { self.new.variables ≡ take variables self.old.variables }
        ensures known { self.new.known ≡ take known self.old.known }
    {
        self.variables.truncate(variables);
        self.known.truncate(known);
    }
}

/// Whether all free variables of the expression are covered. Where they are, the same ones are covered
/// afterwards, and more may be known.
#[cycle(covers)]
fn covers(
    env: &Env,
    ctx: &Context,
    expr: &ExprRef,
    covered: &mut Covered,
) -> Result<bool, AllocError>
    requires there { InRange (signatures env.now) (length ctx.now) expr.now }
    requires known { AreKnown ctx.now covered.old.variables covered.old.known }
    ensures answer { IfOk result (λ b. IsTrue b ↔ ((x : ℕ) → InFV (signatures env.now) ctx.now x expr.now → Contains covered.old.variables x)) }
    ensures same { IfOk result (λ b. b ≡ true → covered.new.variables ≡ covered.old.variables) }
    ensures known { IfOk result (λ b. b ≡ true → LearntMore ctx.now covered.old.variables covered.old.known covered.new.known) }
{
    match expr.shape() {
        Shape::Var(y) => covers_variable(ctx, y, covered),
        Shape::App(t, es) => match env.term(t) {
            None => unreachable!(),
            Some(term) => {
                let params = term.params.as_slice();
                if !covers_bound_operands(params, &es, &term.result.deps, &covered.variables) {
                    return Ok(false);
                }
                covers_operands(env, ctx, &es, &term.params, covered)
            }
        },
    }
}

/// Whether all free variables of the operands are covered but for those that their parameters bind. What a
/// parameter binds is covered while its operand is looked at, and for the next ones that bind the same.
#[cycle(covers)]
fn covers_operands(
    env: &Env,
    ctx: &Context,
    es: &Operands,
    params: &Binders,
    covered: &mut Covered,
) -> Result<bool, AllocError>
    requires there { AllInRange (signatures env.now) (length ctx.now) es.now }
    requires many { length (listed es.now) ≡ length params.now }
    requires known { AreKnown ctx.now covered.old.variables covered.old.known }
    ensures answer { IfOk result (λ b. IsTrue b ↔ ((x : ℕ) → InSomeFV (signatures env.now) ctx.now x params.now es.now params.now es.now → Contains covered.old.variables x)) }
    ensures same { IfOk result (λ b. b ≡ true → covered.new.variables ≡ covered.old.variables) }
    ensures known { IfOk result (λ b. b ≡ true → LearntMore ctx.now covered.old.variables covered.old.known covered.new.known) }
{
    let outside = covered.variables.len();
    let mut known = covered.known.len();
    let mut bound: &[u32] = &[];
    let binders = params.as_slice();
    for i in 0..es.len() {
        let param = &binders[i];
        let operand = es.at(i);
        if !param.bound {
            let alike = binds_as_before(params, i, bound, &param.deps);
            bind(binders, es, alike, &param.deps, outside, known, covered)?;
            bound = param.deps.as_slice();
            let holds = covers(env, ctx, &operand, covered)?;
            if !holds {
                return Ok(false);
            }
            known = known_outside(bound, known, &covered.known);
        }
    }
    covered.truncate(outside, known);
    Ok(true)
}

/// Whether the i-th parameter, which depends on these places, binds what is bound before. Those that share
/// them aren't compared.
fn binds_as_before(params: &Binders, i: usize, before: &[u32], places: &Deps) -> bool
    requires within { i < length params.now }
    requires before { IsBoundBefore params.now i before.now }
    requires places { deps_at params.now i ≡ places.now }
    ensures { IsTrue result → before.now ≡ places.now }
{
    if shares_with_regular(params, i) {
        return true;
    }
    before == places.as_slice()
}

/// Whether the i-th parameter shares what it depends on with the one before it, which is a regular one.
fn shares_with_regular(params: &Binders, i: usize) -> bool
    requires { i < length params.now }
    ensures { IsTrue result → (before : List ℕ) → IsBoundBefore params.now i before → before ≡ deps_at params.now i }
{
    if i == 0 {
        return false;
    }
    let previous = &params.as_slice()[i - 1];
    !previous.bound && params.shares_with_previous(i)
}

/// Covers the operands of the bound parameters at these places in place of those of others, unless they
/// are alike.
fn bind(
    params: &[Binder],
    es: &Operands,
    alike: bool,
    places: &Deps,
    outside: usize,
    known: usize,
    covered: &mut Covered,
) -> Result<(), AllocError>
    ensures { OnOk result (((alike ≡ true) × (covered.new.variables ≡ covered.old.variables) × (covered.new.known ≡ covered.old.known))
        ⊎ BindsAnew params.now es.now places.now (take outside covered.old.variables) (take known covered.old.known) covered.new.variables covered.new.known) }
{
    if alike {
        return Ok(());
    }
    covered.truncate(outside, known);
    add_bound_operands(params, es, places, &mut covered.variables)?;
    Ok(())
}

/// How many variables are known without what is bound at these places.
#[inline]
fn known_outside(bound: &[u32], before: usize, known: &VariableSet) -> usize
    ensures { ((bound.now ≡ []) × (result ≡ length known.now)) ⊎ (result ≡ before) }
{
    if bound.is_empty() {
        known.len()
    } else {
        before
    }
}

/// Whether the variable is covered, or all that it depends on, where it is a regular one.
fn covers_variable(ctx: &Context, y: u32, covered: &mut Covered) -> Result<bool, AllocError>
    requires there { y < length ctx.now }
    requires known { AreKnown ctx.now covered.old.variables covered.old.known }
    ensures answer { IfOk result (λ b. IsTrue b ↔ ((x : ℕ) → InV ctx.now x (var y) → Contains covered.old.variables x)) }
    ensures same { covered.new.variables ≡ covered.old.variables }
    ensures known { IfOk result (λ b. b ≡ true → LearntMore ctx.now covered.old.variables covered.old.known covered.new.known) }
{
    match ctx.get(y) {
        None => unreachable!(),
        Some(binder) => {
            if is_quick(binder) {
                return Ok(covers_binder(binder, y, &covered.variables));
            }
            if covered.known.has(y) {
                return Ok(true);
            }
            let holds = covers_binder(binder, y, &covered.variables);
            if holds {
                covered.known.add(y)?;
            }
            Ok(holds)
        }
    }
}

/// Whether a variable with this binder is covered, or all that it depends on.
fn covers_binder(binder: &Binder, y: u32, covered: &VariableSet) -> bool
    ensures { IsTrue result ↔ ((x : ℕ) → (((binder.now.bound ≡ true) × (x ≡ y)) ⊎ ((binder.now.bound ≡ false) × Contains binder.now.deps x)) → Contains covered.now x) }
{
    if binder.bound {
        covered.has(y)
    } else {
        covers_places(&binder.deps, covered)
    }
}

/// Whether the variables at these places are covered.
fn covers_places(places: &Deps, covered: &VariableSet) -> bool
    ensures { IsTrue result ↔ All (Contains covered.now) places.now }
{
    for place in places.as_slice() {
        if !covered.has(*place) {
            return false;
        }
    }
    true
}

/// Whether the operands of the bound parameters at these places are covered.
fn covers_bound_operands(
    params: &[Binder],
    es: &Operands,
    places: &Deps,
    covered: &VariableSet,
) -> bool
    ensures { IsTrue result ↔ All (λ j. (x : ℕ) → IsBoundAt params.now j → operand es.now j ≡ var x → Contains covered.now x) places.now }
{
    for place in places.as_slice() {
        if !covers_bound_operand(params, es, *place as usize, covered) {
            return false;
        }
    }
    true
}

/// The same at one place.
fn covers_bound_operand(
    params: &[Binder],
    es: &Operands,
    place: usize,
    covered: &VariableSet,
) -> bool
    ensures { IsTrue result ↔ ((x : ℕ) → IsBoundAt params.now place → operand es.now place ≡ var x → Contains covered.now x) }
{
    match borrowed_bound_operand(params, es, place) {
        Some(x) => covered.has(x),
        None => true,
    }
}

/// Adds the operands of the bound parameters at these places.
fn add_bound_operands(
    params: &[Binder],
    es: &Operands,
    places: &Deps,
    variables: &mut VariableSet,
) -> Result<(), AllocError>
    ensures grows { OnOk result ((more : List ℕ) × (variables.new ≡ variables.old ++ more)) }
    ensures has { OnOk result ((x : ℕ) → Contains variables.new x ↔ (Contains variables.old x ⊎ IsOperandAt params.now es.now places.now x)) }
{
    for place in places.as_slice() {
        if let Some(x) = borrowed_bound_operand(params, es, *place as usize) {
            variables.add(x)?;
        }
    }
    Ok(())
}

/// The variable that is the operand of a bound parameter at the place, if there is one.
pub fn bound_operand(params: &[Binder], es: &Exprs, place: usize) -> Option<u32>
    ensures { MatchOption result ((x : ℕ) → IsBoundAt params.now place → operand es.now place ≡ var x → ⊥) (λ x. IsBoundAt params.now place × (operand es.now place ≡ var x)) }
{
    borrowed_bound_operand(params, &es.borrowed(), place)
}

/// The same of operands that are borrowed.
#[inline]
fn borrowed_bound_operand(params: &[Binder], es: &Operands, place: usize) -> Option<u32>
    ensures { MatchOption result ((x : ℕ) → IsBoundAt params.now place → operand es.now place ≡ var x → ⊥) (λ x. IsBoundAt params.now place × (operand es.now place ≡ var x)) }
{
    if !is_bound_at(params, place) {
        return None;
    }
    variable_at(es, place)
}

/// The variable that the operand at the place is, if it is one.
fn variable_at(es: &Operands, place: usize) -> Option<u32>
    ensures { MatchOption result ((x : ℕ) → operand es.now place ≡ var x → ⊥) (λ x. operand es.now place ≡ var x) }
{
    match es.get(place) {
        None => None,
        Some(e) => match e.shape() {
            Shape::Var(y) => Some(y),
            Shape::App(_, _) => None,
        },
    }
}
