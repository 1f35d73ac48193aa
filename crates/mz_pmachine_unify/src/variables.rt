//! The words of an application's variables, from those of its operands.
ghost use Rattle.std.specs.Prelude.{ℕ, ◌≡◌, ◌<◌, ◌%◌, ◌==◌, if◌then◌else◌, Contains, IfOk, List, length};
ghost use Rattle.mz_logic_theory.specs.Signature.{Signature};
ghost use Rattle.mz_logic_theory.specs.Tree.{app};
ghost use Rattle.mz_logic_theory.specs.Sorts.{Fits};
ghost use Rattle.mz_logic_theory.specs.Variables.{InSomeV, IsBoundAt, IsOperandAt};
ghost use Rattle.mz_logic_theory.specs.Words.{signatures_of, places_set};
ghost use Rattle.mz_logic_theory.specs.declared.binder.Binder.{Binder};
ghost use Rattle.mz_store.specs.Bits.{Tells, bound_vars};
ghost use Rattle.mz_store.specs.Sharing.{DependsOn, CanTake};
ghost use Rattle.mz_store.specs.declared.item.DepsMode.TheVariants.{Free};
ghost use Rattle.mz_pmachine_unify.specs.Numbering.{IsIn, AreIn, deps_of, trees_of, IsOver};

use crate::nodes::Nodes;
use mz_logic_theory::Terms;
use mz_store::{DepsMode, Id};
use std::alloc::{AllocError, Global};

/// All variables of these operands.
pub(crate) fn all_vars(nodes: &Nodes, args: &[Id]) -> u64
    requires ids { AreIn nodes.now args.now }
    ensures { (sigs : List Signature) → IsOver sigs nodes.now → Tells (bound_vars nodes.now.context) result (λ x. InSomeV nodes.now.context x (trees_of nodes.now args.now)) }
{
    let mut word = 0;
    for arg in args {
        word |= nodes.vars(*arg);
    }
    word
}

/// The variables that are reported of the term `t` over these operands, whose variables are `vars`.
///
/// # Errors
///
/// Where there is no memory.
pub(crate) fn told_vars<T: Terms>(
    alloc: Global,
    nodes: &Nodes,
    terms: &T,
    t: u32,
    args: &[Id],
    vars: u64,
) -> Result<u64, AllocError>
    requires over { IsOver (signatures_of (T.all_terms terms.now)) nodes.now }
    requires ids { AreIn nodes.now args.now }
    requires fit { CanTake (T.all_terms terms.now) nodes.now.context t (trees_of nodes.now args.now) }
    requires vars { Tells (bound_vars nodes.now.context) vars (λ x. InSomeV nodes.now.context x (trees_of nodes.now args.now)) }
    ensures { IfOk result (λ word. Tells (bound_vars nodes.now.context) word (DependsOn nodes.now.mode (signatures_of (T.all_terms terms.now)) nodes.now.context (app t (trees_of nodes.now args.now)))) }
{
    match nodes.mode() {
        DepsMode::All => Ok(vars),
        DepsMode::Free => free_deps(alloc, nodes, terms, t, args),
    }
}

/// The free variables: those of each regular operand without what binds them, and the operands of
/// bound parameters on which the result depends.
fn free_deps<T: Terms>(
    alloc: Global,
    nodes: &Nodes,
    terms: &T,
    t: u32,
    args: &[Id],
) -> Result<u64, AllocError>
    requires mode { nodes.now.mode ≡ Free }
    requires over { IsOver (signatures_of (T.all_terms terms.now)) nodes.now }
    requires ids { AreIn nodes.now args.now }
    requires fit { CanTake (T.all_terms terms.now) nodes.now.context t (trees_of nodes.now args.now) }
    ensures { IfOk result (λ word. Tells (bound_vars nodes.now.context) word (DependsOn Free (signatures_of (T.all_terms terms.now)) nodes.now.context (app t (trees_of nodes.now args.now)))) }
{
    // the places of the bound parameters so far: only they can bind
    let mut bound = Vec::new(alloc);
    let mut word = 0;
    for i in 0..terms.arity(t) {
        let param = terms.param(t, i);
        if param.bound() {
            bound.push(i)?;
        } else {
            word |= nodes.deps(args[i as usize]) & !named(nodes, &bound, param.deps(), args);
        }
    }
    Ok(word | named(nodes, &bound, terms.result(t).deps(), args))
}

/// The operands at those of the places whose bits are set. They are variables, where bound parameters
/// stand at the places.
fn named(nodes: &Nodes, places: &[u32], bits: u64, args: &[Id]) -> u64
    requires ids { AreIn nodes.now args.now }
    requires within { (j : ℕ) → Contains places.now j → j < length args.now }
    ensures { (sigs : List Signature) (params : List Binder) → IsOver sigs nodes.now → Fits sigs nodes.now.context (trees_of nodes.now args.now) params
        → ((j : ℕ) → Contains places.now j → IsBoundAt params j)
        → Tells (bound_vars nodes.now.context) result (IsOperandAt params (trees_of nodes.now args.now) (places_set bits places.now)) }
{
    let mut word = 0;
    let mut left = bits;
    for place in places {
        if left == 0 {
            return word;
        }
        word |= chosen(nodes, left, args[*place as usize]);
        left >>= 1;
    }
    word
}

/// The word of the expression if the lowest of the bits is set, and else no variables.
fn chosen(nodes: &Nodes, bits: u64, arg: Id) -> u64
    requires { IsIn nodes.now arg.0 }
    ensures { result ≡ (if bits % 2 == 1 then deps_of nodes.now arg.0 else 0) }
{
    if bits & 1 == 1 { nodes.deps(arg) } else { 0 }
}
