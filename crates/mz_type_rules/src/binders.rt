//! What is asked of parameters, dummies and results.
ghost use Rattle.std.specs.Prelude.{◌≡◌, ◌↔◌, ◌<◌, IsTrue, All, drop, length};
ghost use Rattle.mz_base.specs.Checks.{Judges};
ghost use Rattle.mz_logic_theory.specs.Declaration.{sorts};
ghost use Rattle.mz_logic_theory.specs.Legality.{IsParam};
ghost use Rattle.mz_logic_theory.specs.Variables.{IsBoundAt};
ghost use Rattle.mz_mmu_theory.specs.Rules.{param_rules, dummy_rules};

use crate::cursor::Cursor;
use mz_logic::{are_bound_before, may_be_bound_sort, may_be_dummy_sort};
use mz_logic_theory::{Binder, Deps, Env};
use mz_mmu_theory::Fault;
use mz_sexpr::U;

/// Whether all places are those of bound parameters.
pub(crate) fn are_bound(params: &[Binder], places: &Deps) -> bool
    ensures { IsTrue result ↔ All (IsBoundAt params.now) places.now }
{
    are_bound_before(params, params.len(), places)
}

/// Whether a parameter is right: a bound one has no dependencies and no strict sort, and a regular
/// one depends on earlier bound ones.
fn is_param(env: &Env, params: &[Binder], i: usize, param: &Binder) -> bool
    ensures { IsTrue result ↔ IsParam (sorts env.now) params.now i param.now }
{
    if param.bound {
        param.deps.as_slice().is_empty() && may_be_bound_sort(env, param.sort)
    } else {
        are_bound_before(params, i, &param.deps)
    }
}

/// The rules of parameters, each at its node.
pub(crate) fn check_params(env: &Env, params: &[Binder], nodes: &Cursor) -> Result<(), Fault>
    ensures { Judges result (param_rules env.now params.now 0 params.now nodes.now) }
{
    let mut left = nodes.after(0);
    for i in 0..params.len() {
        if !is_param(env, params, i, &params[i]) {
            return Err(left.fault(U::Declaration));
        }
        left = left.rest();
    }
    Ok(())
}

/// The rules of dummies, each at its node.
pub(crate) fn check_dummies(env: &Env, dummies: &[Binder], nodes: &Cursor) -> Result<(), Fault>
    ensures { Judges result (dummy_rules env.now dummies.now nodes.now) }
{
    let mut left = nodes.after(0);
    for i in 0..dummies.len() {
        if !may_be_dummy_sort(env, dummies[i].sort) {
            return Err(left.fault(U::DummySort));
        }
        left = left.rest();
    }
    Ok(())
}
