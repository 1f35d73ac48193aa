// The limits of a compiled file.
ghost use Rattle.std.specs.Prelude.{◌≡◌, ◌+◌, ◌*◌, ◌<◌, ◌^◌, ◌≤◌, ◌∷◌, [], length, count_by, option_map};
ghost use Rattle.mz_base.specs.Checks.{Answers};
ghost use Rattle.mz_logic_theory.specs.DeclView.{declaration};
ghost use Rattle.mz_logic_theory.specs.Declaration.{sorts};
ghost use Rattle.mz_type.specs.TypedText.{statement_at};
ghost use Rattle.mz_mmu_theory.specs.Weight;
ghost use Rattle.mz_mmu_theory.specs.Weight.{limit_checks, each_within};
ghost use Rattle.mz_emit_theory.specs.Limits.{passed, over};

use mz_emit_theory::{L, Passed};
use mz_logic_theory::{Binder, Decl};
use mz_type::{Typed, weight};

const MOST_SORTS: u32 = 128;

const MOST_PARAMETERS: usize = 65_535;

const MOST_BOUND: usize = 55;

const MOST_BYTES: u128 = 4_294_967_295;

/// The parameters of a declaration.
fn params_of(decl: &Decl) -> &[Binder]
    ensures { result.now ≡ Weight.params_of (declaration decl.now) }
{
    match decl {
        Decl::Sort(_) => &[],
        Decl::Term(term) => term.params.as_slice(),
        Decl::Thm(thm) => thm.params.as_slice(),
    }
}

/// How many dummies the body of a declaration has.
fn dummy_count(decl: &Decl) -> usize
    ensures { result ≡ Weight.dummy_count (declaration decl.now) }
{
    match decl {
        Decl::Term(term) => term.form.dummies().len(),
        _ => 0,
    }
}

/// How many of the binders are bound.
fn bound_among(binders: &[Binder]) -> usize
    ensures count { result ≡ count_by (λ b. b.bound) binders.now }
    ensures most { result ≤ length binders.now }
{
    let mut n: usize = 0;
    for binder in binders {
        if binder.bound {
            n += 1;
        }
    }
    n
}

/// How many sorts the declaration is: one, or none.
fn sorts_in(decl: &Decl) -> u32
    ensures count { result ≡ length (sorts (declaration decl.now ∷ [])) }
    ensures most { result ≤ 1 }
{
    match decl {
        Decl::Sort(_) => 1,
        _ => 0,
    }
}

/// How many sorts the text declares.
fn sort_count(text: &Typed) -> u32
    ensures { result ≡ Weight.sort_count text.now.statements }
{
    let mut n: u32 = 0;
    for i in 0..text.len() {
        n += sorts_in(text.decl(i));
    }
    n
}

/// How many parameters the i-th statement has.
fn parameter_count(text: &Typed, i: u32) -> usize
    requires { i < length text.now.statements }
    ensures { result ≡ Weight.parameter_count (statement_at text.now.statements i) }
{
    params_of(text.decl(i)).len()
}

/// How many bound variables the i-th statement has, dummies included.
fn bound_count(text: &Typed, i: u32) -> u128
    requires { i < length text.now.statements }
    ensures { result ≡ Weight.bound_count (statement_at text.now.statements i) }
{
    let decl = text.decl(i);
    bound_among(params_of(decl)) as u128 + dummy_count(decl) as u128 + text.dummies(i).len() as u128
}

/// The first number of parameters that is too great.
fn many_parameters(text: &Typed) -> Option<u128>
    ensures { Answers (option_map (over Weight.parameter_limit) result) (each_within Weight.parameter_limit Weight.parameter_count 65535 text.now.statements) }
{
    for i in 0..text.len() {
        let n = parameter_count(text, i);
        if n > MOST_PARAMETERS {
            return Some(n as u128);
        }
    }
    None
}

/// The first number of bound variables that is too great.
fn many_bound(text: &Typed) -> Option<u128>
    ensures { Answers (option_map (over Weight.bound_limit) result) (each_within Weight.bound_limit Weight.bound_count 55 text.now.statements) }
{
    for i in 0..text.len() {
        let n = bound_count(text, i);
        if n > MOST_BOUND as u128 {
            return Some(n);
        }
    }
    None
}

/// The greatest number of bytes that a text of this weight is compiled to.
fn most_bytes(weight: u128) -> u128
    requires { weight < 2 ^ 64 }
    ensures { result ≡ 64 + 32 * weight }
{
    64 + 32 * weight
}

/// The first limit that a well-typed text passes, and by which count.
pub(crate) fn limit_of(typed: &Typed) -> Option<Passed>
    ensures { Answers (option_map passed result) (limit_checks typed.now.statements) }
{
    let sorts = sort_count(typed);
    if sorts > MOST_SORTS {
        return Some(Passed {
            rule: L::Sorts,
            count: u128::from(sorts),
        });
    }
    if let Some(count) = many_parameters(typed) {
        return Some(Passed {
            rule: L::Parameters,
            count,
        });
    }
    if let Some(count) = many_bound(typed) {
        return Some(Passed {
            rule: L::BoundVariables,
            count,
        });
    }
    let count = most_bytes(weight(typed));
    if count > MOST_BYTES {
        return Some(Passed {
            rule: L::Bytes,
            count,
        });
    }
    None
}
