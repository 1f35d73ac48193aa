// Whether operands are disjoint, in one walk over each of them.
ghost use Rattle.std.specs.Prelude.{◌≡◌, ◌↔◌, ◌⊎◌, ◌<◌, ◌++◌, ◌∷◌, [], ℕ, IsTrue, IfOk, OnOk, All, Contains, Some, slice_get, true, length};
ghost use Rattle.mz_logic_free.specs.Narrowed.{AreNarrowed};
ghost use Rattle.mz_logic_free.specs.Own.{HaveOwners};
ghost use Rattle.mz_logic_theory.specs.Declaration.{signatures};
ghost use Rattle.mz_logic_theory.specs.Sorts.{Fits};
ghost use Rattle.mz_logic_theory.specs.Tree.{operand, var};
ghost use Rattle.mz_logic_theory.specs.Variables.{AreDisjoint, InV, IsBoundAt, IsOperandAt};
ghost use Rattle.mz_logic_theory.specs.declared.binder.Binder.{Binder as Param};

use crate::disjoint::are_disjoint_by_pairs;
use mz_logic_free::{Narrowed, Own, VariableSet, bound_operand, names_other};
use mz_logic_theory::{Binder, Context, Env, Exprs};
use std::alloc::{AllocError, Global};

/// Whether operands that fit the parameters are disjoint: where the operand of a bound parameter is in
/// V of another operand, the other one's parameter depends on it.
///
/// # Errors
///
/// Where there is no memory.
pub fn are_disjoint(
    alloc: Global,
    env: &Env,
    ctx: &Context,
    es: &Exprs,
    params: &[Binder],
) -> Result<bool, AllocError>
    requires { Fits (signatures env.now) ctx.now es.now params.now }
    ensures { IfOk result (λ apart. IsTrue apart ↔ AreDisjoint ctx.now es.now params.now) }
{
    let mut owned = VariableSet::new(alloc);
    let mut owners = Vec::new(alloc);
    let mut narrowed = Narrowed::new(alloc);
    are_disjoint_with(env, ctx, es, params, &mut owned, &mut owners, &mut narrowed)
}

/// The same, with room for the operands of the bound parameters, the places of these and what is narrowed.
fn are_disjoint_with(
    env: &Env,
    ctx: &Context,
    es: &Exprs,
    params: &[Binder],
    owned: &mut VariableSet,
    owners: &mut Vec<u32>,
    narrowed: &mut Narrowed,
) -> Result<bool, AllocError>
    requires fits { Fits (signatures env.now) ctx.now es.now params.now }
    requires empty { owned.old ≡ [] }
    requires none { owners.old.items ≡ [] }
    requires narrowed { narrowed.old ≡ [] }
    ensures { IfOk result (λ apart. IsTrue apart ↔ AreDisjoint ctx.now es.now params.now) }
{
    let single = gather_owned(params, es, owned, owners)?;
    if single {
        return Ok(all_name_own(ctx, es, params, owned, owners.as_slice(), narrowed));
    }
    if all_stand_alone(params) {
        return Ok(false);
    }
    Ok(are_disjoint_by_pairs(env, ctx, es, params))
}

/// Gathers the operands of the bound parameters, and beside each the place of its parameter. Whether no two
/// of these have the same one.
fn gather_owned(
    params: &[Binder],
    es: &Exprs,
    owned: &mut VariableSet,
    owners: &mut Vec<u32>,
) -> Result<bool, AllocError>
    requires empty { owned.old ≡ [] }
    requires none { owners.old.items ≡ [] }
    ensures has { IfOk result (λ single. single ≡ true → (x : ℕ) → Contains owned.new x ↔ ((j : ℕ) × IsBoundAt params.now j × (operand es.now j ≡ var x))) }
    ensures single { IfOk result (λ single. IsTrue single
        ↔ ((j k x : ℕ) → IsBoundAt params.now j → operand es.now j ≡ var x → IsBoundAt params.now k → operand es.now k ≡ var x → j ≡ k)) }
    ensures owners { OnOk result (HaveOwners params.now es.now owned.new owners.new.items) }
{
    for j in 0..params.len() {
        let fresh = add_owned(params, es, j, owned, owners)?;
        if !fresh {
            return Ok(false);
        }
    }
    Ok(true)
}

/// Adds the operand of the j-th parameter, if this one is bound and it isn't there. Whether it wasn't there.
fn add_owned(
    params: &[Binder],
    es: &Exprs,
    j: usize,
    owned: &mut VariableSet,
    owners: &mut Vec<u32>,
) -> Result<bool, AllocError>
    requires { HaveOwners params.now es.now owned.old owners.old.items }
    ensures has { OnOk result ((x : ℕ) → Contains owned.new x ↔ (Contains owned.old x ⊎ (IsBoundAt params.now j × (operand es.now j ≡ var x)))) }
    ensures fresh { IfOk result (λ fresh. IsTrue fresh ↔ ((x : ℕ) → IsBoundAt params.now j → operand es.now j ≡ var x → Contains owned.old x → ⊥)) }
    ensures owners { OnOk result (HaveOwners params.now es.now owned.new owners.new.items) }
{
    match bound_operand(params, es, j) {
        None => Ok(true),
        Some(x) => {
            let fresh = !owned.has(x);
            if !fresh {
                return Ok(false);
            }
            add_last(x, j, owned, owners)?;
            Ok(true)
        }
    }
}

/// Adds a variable that isn't there, and beside it the place of its owner.
///
/// # Errors
///
/// Where there is no memory, as there is none for 2^32 parameters.
fn add_last(
    x: u32,
    owner: usize,
    owned: &mut VariableSet,
    owners: &mut Vec<u32>,
) -> Result<(), AllocError>
    requires { Contains owned.old x → ⊥ }
    ensures has { OnOk result ((y : ℕ) → Contains owned.new y ↔ (Contains owned.old y ⊎ (y ≡ x))) }
    ensures owned { OnOk result (owned.new ≡ owned.old ++ x ∷ []) }
    ensures owners { OnOk result (owners.new.items ≡ owners.old.items ++ owner ∷ []) }
{
    let Ok(owner) = u32::try_from(owner) else {
        return Err(AllocError);
    };
    owners.push(owner)?;
    owned.add(x)
}

/// Whether no bound parameter depends on others, as in each legal statement.
fn all_stand_alone(params: &[Binder]) -> bool
    ensures { IsTrue result ↔ All (λ (p : Param). p.bound ≡ true → p.deps ≡ []) params.now }
{
    for param in params {
        if param.bound && !param.deps.as_slice().is_empty() {
            return false;
        }
    }
    true
}

/// Whether each operand names, of the variables that bound parameters have as operands, its own
/// alone: what it is itself, and the operands of those on which its parameter depends.
fn all_name_own(
    ctx: &Context,
    es: &Exprs,
    params: &[Binder],
    owned: &VariableSet,
    owners: &[u32],
    narrowed: &mut Narrowed,
) -> bool
    requires narrowed { AreNarrowed ctx.now owned.now narrowed.old }
    requires owners { HaveOwners params.now es.now owned.now owners.now }
    requires single { (j k x : ℕ) → IsBoundAt params.now j → operand es.now j ≡ var x → IsBoundAt params.now k → operand es.now k ≡ var x → j ≡ k }
    ensures { IsTrue result
        ↔ ((i x : ℕ) (p : Param) → slice_get params.now i ≡ Some p → InV ctx.now x (operand es.now i) → Contains owned.now x
        → IsOperandAt params.now es.now p.deps x ⊎ (IsBoundAt params.now i × (operand es.now i ≡ var x))) }
{
    if owned.is_empty() {
        return true;
    }
    for i in 0..params.len() {
        if !names_own(ctx, es, params, i, owned, owners, narrowed) {
            return false;
        }
    }
    true
}

/// The same of the i-th operand.
fn names_own(
    ctx: &Context,
    es: &Exprs,
    params: &[Binder],
    i: usize,
    owned: &VariableSet,
    owners: &[u32],
    narrowed: &mut Narrowed,
) -> bool
    requires within { i < length params.now }
    requires narrowed { AreNarrowed ctx.now owned.now narrowed.old }
    requires owners { HaveOwners params.now es.now owned.now owners.now }
    requires single { (j k x : ℕ) → IsBoundAt params.now j → operand es.now j ≡ var x → IsBoundAt params.now k → operand es.now k ≡ var x → j ≡ k }
    ensures answer { IsTrue result
        ↔ ((x : ℕ) (p : Param) → slice_get params.now i ≡ Some p → InV ctx.now x (operand es.now i) → Contains owned.now x
        → IsOperandAt params.now es.now p.deps x ⊎ (IsBoundAt params.now i × (operand es.now i ≡ var x))) }
    ensures kept { AreNarrowed ctx.now owned.now narrowed.new }
{
    let own = Own::new(owned, owners, i, &params[i].deps);
    !operand_names_other(ctx, es, i, owned, &own, narrowed)
}

/// Whether one of the variables, but for its own ones, is in V of the i-th operand.
fn operand_names_other(
    ctx: &Context,
    es: &Exprs,
    i: usize,
    variables: &VariableSet,
    own: &Own<'_>,
    narrowed: &mut Narrowed,
) -> bool
    requires { AreNarrowed ctx.now variables.now narrowed.old }
    ensures answer { IsTrue result ↔ ((x : ℕ) × (Contains variables.now x × (Contains own.now x → ⊥)) × InV ctx.now x (operand es.now i)) }
    ensures kept { AreNarrowed ctx.now variables.now narrowed.new }
{
    match es.get(i) {
        None => false,
        Some(e) => names_other(ctx, e, variables, own, narrowed),
    }
}
