//! The word of an application's variables, from those of its operands.
ghost use Rattle.std.specs.Prelude.{ℕ, ◌≡◌, ◌<◌, ◌%◌, ◌==◌, if◌then◌else◌, Contains, IfOk, List, length};
ghost use Rattle.mz_logic_theory.specs.Signature.{Signature};
ghost use Rattle.mz_logic_theory.specs.Tree.{app};
ghost use Rattle.mz_logic_theory.specs.Sorts.{Fits};
ghost use Rattle.mz_logic_theory.specs.Variables.{InSomeV, IsBoundAt, IsOperandAt};
ghost use Rattle.mz_logic_theory.specs.Words.{signatures_of, places_set};
ghost use Rattle.mz_logic_theory.specs.declared.binder.Binder.{Binder};
ghost use Rattle.mz_store.specs.Bits.{Tells, bound_vars};
ghost use Rattle.mz_store.specs.Sharing.{IsIn, AreIn, deps_of, trees_of, IsOver, DependsOn, CanTake};
ghost use Rattle.mz_store.specs.Kept.{shared_by, AreKept};
ghost use Rattle.mz_store.specs.declared.item.DepsMode.TheVariants.{All, Free};

use crate::expressions::Expressions;
use crate::item::{DepsMode, Id};
use mz_logic_theory::Terms;
use std::alloc::{AllocError, Global};

/// The word of the term `t` over these operands.
///
/// # Errors
///
/// Where there is no memory.
#[inline(always)]
pub fn deps_of_term<T: Terms>(
    alloc: Global,
    store: &Expressions,
    terms: &T,
    t: u32,
    args: &[Id],
) -> Result<u64, AllocError>
    requires kept { AreKept store.now }
    requires over { IsOver (signatures_of (T.all_terms terms.now)) (shared_by store.now) }
    requires ids { AreIn (shared_by store.now) args.now }
    requires fit { CanTake (T.all_terms terms.now) (shared_by store.now).context t (trees_of (shared_by store.now) args.now) }
    ensures { IfOk result (λ word. Tells (bound_vars (shared_by store.now).context) word (DependsOn (shared_by store.now).mode (signatures_of (T.all_terms terms.now)) (shared_by store.now).context (app t (trees_of (shared_by store.now) args.now)))) }
{
    match store.mode {
        DepsMode::All => Ok(all_deps(store, args)),
        DepsMode::Free => free_deps(alloc, store, terms, t, args),
    }
}

/// The variables of all operands.
#[inline(always)]
fn all_deps(store: &Expressions, args: &[Id]) -> u64
    requires kept { AreKept store.now }
    requires ids { AreIn (shared_by store.now) args.now }
    requires mode { store.now.mode ≡ All }
    ensures { (sigs : List Signature) → IsOver sigs (shared_by store.now) → Tells (bound_vars (shared_by store.now).context) result (λ x. InSomeV (shared_by store.now).context x (trees_of (shared_by store.now) args.now)) }
{
    let mut word = 0;
    for arg in args {
        word |= store.deps(*arg);
    }
    word
}

/// The free variables: those of each regular operand without what binds them, and the operands of
/// bound parameters on which the result depends.
fn free_deps<T: Terms>(
    alloc: Global,
    store: &Expressions,
    terms: &T,
    t: u32,
    args: &[Id],
) -> Result<u64, AllocError>
    requires mode { store.now.mode ≡ Free }
    requires kept { AreKept store.now }
    requires over { IsOver (signatures_of (T.all_terms terms.now)) (shared_by store.now) }
    requires ids { AreIn (shared_by store.now) args.now }
    requires fit { CanTake (T.all_terms terms.now) (shared_by store.now).context t (trees_of (shared_by store.now) args.now) }
    ensures { IfOk result (λ word. Tells (bound_vars (shared_by store.now).context) word (DependsOn Free (signatures_of (T.all_terms terms.now)) (shared_by store.now).context (app t (trees_of (shared_by store.now) args.now)))) }
{
    // the places of the bound parameters so far: only they can bind
    let mut bound = Vec::new(alloc);
    let mut word = 0;
    for i in 0..terms.arity(t) {
        let param = terms.param(t, i);
        if param.bound() {
            bound.push(i)?;
        } else {
            word |= store.deps(args[i as usize]) & !named(store, &bound, param.deps(), args);
        }
    }
    Ok(word | named(store, &bound, terms.result(t).deps(), args))
}

/// The operands at those of the places whose bits are set. They are variables, where bound parameters
/// stand at the places.
fn named(store: &Expressions, places: &[u32], bits: u64, args: &[Id]) -> u64
    requires kept { AreKept store.now }
    requires ids { AreIn (shared_by store.now) args.now }
    requires within { (j : ℕ) → Contains places.now j → j < length args.now }
    ensures { (sigs : List Signature) (params : List Binder) → IsOver sigs (shared_by store.now) → Fits sigs (shared_by store.now).context (trees_of (shared_by store.now) args.now) params
        → ((j : ℕ) → Contains places.now j → IsBoundAt params j)
        → Tells (bound_vars (shared_by store.now).context) result (IsOperandAt params (trees_of (shared_by store.now) args.now) (places_set bits places.now)) }
{
    let mut word = 0;
    let mut left = bits;
    for place in places {
        if left == 0 {
            return word;
        }
        word |= chosen(store, left, args[*place as usize]);
        left >>= 1;
    }
    word
}

/// The word of the expression if the lowest of the bits is set, and else no variables.
fn chosen(store: &Expressions, bits: u64, arg: Id) -> u64
    requires kept { AreKept store.now }
    requires inside { IsIn (shared_by store.now) arg.0 }
    ensures { result ≡ (if bits % 2 == 1 then deps_of (shared_by store.now) arg.0 else 0) }
{
    if bits & 1 == 1 { store.deps(arg) } else { 0 }
}
