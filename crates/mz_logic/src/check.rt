ghost use Rattle.std.specs.Prelude.{◌≡◌, ◌↔◌, ◌<◌, ◌≤◌, length, All, IsTrue};
ghost use Rattle.mz_base.specs.Checks.{Judges};
ghost use Rattle.mz_logic_theory.specs.Declaration.{signatures, sorts, context_of, body_of};
ghost use Rattle.mz_logic_theory.specs.Modifiers.{MayBeResultSort, MayBeBoundSort, MayBeDummySort};
ghost use Rattle.mz_logic_theory.specs.Variables.{IsBoundAt};
ghost use Rattle.mz_logic_theory.specs.Legality.{IsParam, AreParams, IsDummy, AreBindersThere, AllInRange, NamesThere, BindersRight, SortsRight, BoundRight, ClaimsProvable, decl_checks};
ghost use Rattle.mz_logic_theory.specs.DeclView.{declaration, form, term_of, term_view, assertion_of};

use crate::sorts::{
    all_are_claims, all_have_bound_operands, all_have_operand_sorts, has_bound_operands,
    has_operand_sorts, hyps_are_in_range, in_range, is_claim, sort_of,
};
use crate::vars::body_deps_are_right;
use mz_logic_theory::{
    Binder, Binders, Context, Decl, DeclFault, Deps, Env, TermDecl, ThmDecl, is_bound_at,
};

/// Checks a declaration over an environment: every one has an answer.
///
/// # Errors
///
/// The first fault in the order of [`DeclFault`], where the declaration isn't legal.
pub fn check_decl(env: &Env, decl: &Decl) -> Result<(), DeclFault>
    ensures { Judges result (decl_checks env.now (declaration decl.now)) }
{
    match decl {
        Decl::Sort(_) => Ok(()),
        Decl::Term(term) => check_term(env, term),
        Decl::Thm(thm) => check_thm(env, thm),
    }
}

fn check_term(env: &Env, term: &TermDecl) -> Result<(), DeclFault>
    ensures { Judges result (decl_checks env.now (term_of term.now)) }
{
    if !term_names_are_there(env, term) {
        return Err(DeclFault::Index);
    }
    if !term_binders_are_right(env, term) {
        return Err(DeclFault::Binder);
    }
    if !may_be_result_sort(env, term.result.sort) {
        return Err(DeclFault::Pure);
    }
    if !body_sorts_are_right(env, term) {
        return Err(DeclFault::Sort);
    }
    if !body_has_bound_operands(env, term) {
        return Err(DeclFault::BoundOperand);
    }
    if !dummy_sorts_are_right(env, term.form.dummies()) {
        return Err(DeclFault::DummySort);
    }
    if !body_deps_are_right(env, term) {
        return Err(DeclFault::DefDeps);
    }
    Ok(())
}

fn check_thm(env: &Env, thm: &ThmDecl) -> Result<(), DeclFault>
    ensures { Judges result (decl_checks env.now (assertion_of thm.now)) }
{
    if !thm_names_are_there(env, thm) {
        return Err(DeclFault::Index);
    }
    if !are_params(env, &thm.params) {
        return Err(DeclFault::Binder);
    }
    if !claim_sorts_are_right(env, thm) {
        return Err(DeclFault::Sort);
    }
    if !claims_have_bound_operands(env, thm) {
        return Err(DeclFault::BoundOperand);
    }
    if !claims_are_provable(env, thm) {
        return Err(DeclFault::NotProvable);
    }
    Ok(())
}

// ---- 1: names

/// Whether all names of a term are there.
fn term_names_are_there(env: &Env, term: &TermDecl) -> bool
    ensures { IsTrue result ↔ NamesThere env.now (term_of term.now) }
{
    let end = term.context().len();
    binders_are_there(env, end, term.params.as_slice())
        && binders_are_there(env, end, term.form.dummies())
        && is_sort(env, term.result.sort)
        && places_are_below(end, &term.result.deps)
        && body_is_in_range(env, term)
}

fn body_is_in_range(env: &Env, term: &TermDecl) -> bool
    ensures { IsTrue result ↔ AllInRange (signatures env.now) (length (context_of (term_view term.now))) (body_of (form term.now.form)) }
{
    match term.form.body() {
        None => true,
        Some(e) => in_range(env, term.context().len(), &e.borrowed()),
    }
}

/// Whether all names of an axiom or theorem are there.
fn thm_names_are_there(env: &Env, thm: &ThmDecl) -> bool
    ensures { IsTrue result ↔ NamesThere env.now (assertion_of thm.now) }
{
    let end = thm.params.len();
    binders_are_there(env, end, thm.params.as_slice())
        && hyps_are_in_range(env, end, &thm.hyps)
        && in_range(env, end, &thm.conclusion.borrowed())
}

/// Whether each binder's sort is there, and its dependencies are places below `end`.
fn binders_are_there(env: &Env, end: usize, binders: &[Binder]) -> bool
    ensures { IsTrue result ↔ AreBindersThere (sorts env.now) end binders.now }
{
    for b in binders {
        if !is_sort(env, b.sort) || !places_are_below(end, &b.deps) {
            return false;
        }
    }
    true
}

/// Whether the sort is there.
fn is_sort(env: &Env, sort: u32) -> bool
    ensures { IsTrue result ↔ (sort < length (sorts env.now)) }
{
    (sort as usize) < env.sorts().len()
}

fn places_are_below(end: usize, places: &Deps) -> bool
    ensures { IsTrue result ↔ All (λ j. j < end) places.now }
{
    for j in places.as_slice() {
        if *j as usize >= end {
            return false;
        }
    }
    true
}

// ---- 2: binders

/// Whether the binders, the dummies and the result's dependencies are right.
fn term_binders_are_right(env: &Env, term: &TermDecl) -> bool
    ensures { IsTrue result ↔ BindersRight env.now (term_of term.now) }
{
    if !are_params(env, &term.params) {
        return false;
    }
    are_dummies(term.form.dummies())
        && are_bound_before(term.params.as_slice(), term.params.len(), &term.result.deps)
}

/// Whether each binder may be the parameter at its place.
fn are_params(env: &Env, params: &Binders) -> bool
    ensures { IsTrue result ↔ AreParams (sorts env.now) params.now }
{
    params_are_right(env, params.as_slice())
}

fn params_are_right(env: &Env, params: &[Binder]) -> bool
    ensures { IsTrue result ↔ AreParams (sorts env.now) params.now }
{
    for i in 0..params.len() {
        if !is_param(env, params, i, &params[i]) {
            return false;
        }
    }
    true
}

/// Whether the binder may be the parameter at `place`.
fn is_param(env: &Env, params: &[Binder], place: usize, binder: &Binder) -> bool
    ensures { IsTrue result ↔ IsParam (sorts env.now) params.now place binder.now }
{
    if binder.bound {
        binder.deps.as_slice().is_empty() && may_be_bound_sort(env, binder.sort)
    } else {
        are_bound_before(params, place, &binder.deps)
    }
}

/// Whether the places are those of bound parameters before `end`.
pub fn are_bound_before(params: &[Binder], end: usize, places: &Deps) -> bool
    ensures { IsTrue result ↔ All (λ j. (j < end) × IsBoundAt params.now j) places.now }
{
    for j in places.as_slice() {
        if !is_bound_before(params, end, *j as usize) {
            return false;
        }
    }
    true
}

/// Whether a bound parameter stands at `place`, before `end`.
fn is_bound_before(params: &[Binder], end: usize, place: usize) -> bool
    ensures { IsTrue result ↔ ((place < end) × IsBoundAt params.now place) }
{
    place < end && is_bound_at(params, place)
}

/// Whether each is bound and has no dependencies.
fn are_dummies(dummies: &[Binder]) -> bool
    ensures { IsTrue result ↔ All IsDummy dummies.now }
{
    for b in dummies {
        if !b.bound || !b.deps.as_slice().is_empty() {
            return false;
        }
    }
    true
}

// ---- 2, 3 and 7: what a sort may be used for

/// Whether the sort is there and a bound parameter may have it.
pub fn may_be_bound_sort(env: &Env, sort: u32) -> bool
    ensures { IsTrue result ↔ MayBeBoundSort (sorts env.now) sort }
{
    match env.mods(sort) {
        None => false,
        Some(mods) => !mods.is_strict(),
    }
}

/// Whether the sort is there and a term may have results of it.
pub fn may_be_result_sort(env: &Env, sort: u32) -> bool
    ensures { IsTrue result ↔ MayBeResultSort (sorts env.now) sort }
{
    match env.mods(sort) {
        None => false,
        Some(mods) => !mods.is_pure(),
    }
}

/// Whether the sort is there and a dummy may have it.
pub fn may_be_dummy_sort(env: &Env, sort: u32) -> bool
    ensures { IsTrue result ↔ MayBeDummySort (sorts env.now) sort }
{
    match env.mods(sort) {
        None => false,
        Some(mods) => !mods.is_strict() && !mods.is_free(),
    }
}

/// Whether no dummy's sort is strict or free.
fn dummy_sorts_are_right(env: &Env, dummies: &[Binder]) -> bool
    ensures { IsTrue result ↔ All (λ b. MayBeDummySort (sorts env.now) b.sort) dummies.now }
{
    for b in dummies {
        if !may_be_dummy_sort(env, b.sort) {
            return false;
        }
    }
    true
}

// ---- 4 to 6: sorts of expressions

fn body_sorts_are_right(env: &Env, term: &TermDecl) -> bool
    requires { NamesThere env.now (term_of term.now) }
    ensures { IsTrue result ↔ SortsRight env.now (term_of term.now) }
{
    match term.form.body() {
        None => true,
        Some(e) => {
            let ctx = term.context();
            has_operand_sorts(env, &ctx, &e.borrowed()) && sort_of(env, &ctx, e) == term.result.sort
        }
    }
}

fn body_has_bound_operands(env: &Env, term: &TermDecl) -> bool
    requires { NamesThere env.now (term_of term.now) }
    ensures { IsTrue result ↔ BoundRight env.now (term_of term.now) }
{
    match term.form.body() {
        None => true,
        Some(e) => has_bound_operands(env, &term.context(), &e.borrowed()),
    }
}

fn claim_sorts_are_right(env: &Env, thm: &ThmDecl) -> bool
    requires { NamesThere env.now (assertion_of thm.now) }
    ensures { IsTrue result ↔ SortsRight env.now (assertion_of thm.now) }
{
    let ctx = Context::of(&thm.params);
    all_have_operand_sorts(env, &ctx, &thm.hyps)
        && has_operand_sorts(env, &ctx, &thm.conclusion.borrowed())
}

fn claims_have_bound_operands(env: &Env, thm: &ThmDecl) -> bool
    requires { NamesThere env.now (assertion_of thm.now) }
    ensures { IsTrue result ↔ BoundRight env.now (assertion_of thm.now) }
{
    let ctx = Context::of(&thm.params);
    all_have_bound_operands(env, &ctx, &thm.hyps)
        && has_bound_operands(env, &ctx, &thm.conclusion.borrowed())
}

fn claims_are_provable(env: &Env, thm: &ThmDecl) -> bool
    requires { NamesThere env.now (assertion_of thm.now) }
    ensures { IsTrue result ↔ ClaimsProvable env.now (assertion_of thm.now) }
{
    let ctx = Context::of(&thm.params);
    all_are_claims(env, &ctx, &thm.hyps) && is_claim(env, &ctx, &thm.conclusion)
}
