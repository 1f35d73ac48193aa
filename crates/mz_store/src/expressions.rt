//! The expressions of a store, without the table by which they are found.
ghost use Rattle.std.specs.Prelude.{ℕ, ◌≡◌, ◌++◌, IfOk, OnOk, OnErr, List, length};
ghost use Rattle.mz_store.specs.declared.item.Id.{Id};
ghost use Rattle.mz_logic_theory.specs.Signature.{Signature};
ghost use Rattle.mz_logic_theory.specs.Words.{signatures_of};
ghost use Rattle.mz_store.specs.Bits.{Tells, bound_vars};
ghost use Rattle.mz_store.specs.Sharing.{IsIn, AreIn, tree_of, trees_of, deps_of, IsOver, DependsOn, CanTake};
ghost use Rattle.mz_store.specs.Kept.{shared_by, AreKept, IsAdded, HasMore};

use crate::deps::deps_of_term;
use crate::item::{DepsMode, Id, number};
use crate::node::{Application, Form, Node};
use mz_logic_theory::Terms;
use std::alloc::{AllocError, Global};

/// Expressions over the variables of one context. The id of each is its place.
#[derive(Drop)]
pub struct Expressions {
    pub mode: DepsMode,
    pub bound_count: u32,
    pub nodes: Vec<Node>,
    // of all terms, one after another
    pub operands: Vec<Id>,
}

impl Expressions {
    /// The word of the expression's variables.
    #[inline(always)]
    pub fn deps(&self, id: Id) -> u64
        requires kept { AreKept self.now }
        requires inside { IsIn (shared_by self.now) id.0 }
        ensures kept { result ≡ deps_of (shared_by self.now) id.0 }
        ensures variables { (sigs : List Signature) → IsOver sigs (shared_by self.now) → Tells (bound_vars (shared_by self.now).context) result (DependsOn (shared_by self.now).mode sigs (shared_by self.now).context (tree_of (shared_by self.now) id.0)) }
    {
        self.nodes[id.0 as usize].deps
    }

    /// Adds the term `t` over these expressions, which isn't there. `earlier` is the last one of its bucket.
    ///
    /// # Errors
    ///
    /// Where there is no memory, or no place for 2^32 expressions or operands. The same expressions are
    /// there then.
    #[inline(always)]
    pub fn add<T: Terms>(
        &mut self,
        alloc: Global,
        terms: &T,
        t: u32,
        args: &[Id],
        earlier: Option<Id>,
    ) -> Result<Id, AllocError>
        requires kept { AreKept self.old }
        requires over { IsOver (signatures_of (T.all_terms terms.now)) (shared_by self.old) }
        requires ids { AreIn (shared_by self.old) args.now }
        requires fit { CanTake (T.all_terms terms.now) (shared_by self.old).context t (trees_of (shared_by self.old) args.now) }
        ensures id { IfOk result (λ id. id.0 ≡ length self.old.nodes.items) }
        ensures ok { OnOk result (IsAdded (T.all_terms terms.now) self.old t args.now earlier self.new) }
        ensures err { OnErr result (HasMore self.old self.new) }
    {
        let deps = deps_of_term(alloc, self, terms, t, args)?;
        let id = Id::at(self.nodes.len())?;
        let from = number(self.operands.len())?;
        put_all(&mut self.operands, args)?;
        let to = number(self.operands.len())?;
        let made = Application {
            head: t,
            from,
            to,
            earlier: earlier.unwrap_or(id),
        };
        self.nodes.push(Node {
            deps,
            sort: terms.result(t).sort(),
            form: Form::Application(made),
        })?;
        Ok(id)
    }
}

/// Puts these at the end, one after another: of the few operands of a term that takes less than a copy
/// of a slice, which is a call.
///
/// # Errors
///
/// Where there is no memory. Some of them may be there then.
#[inline(always)]
fn put_all(ids: &mut Vec<Id>, more: &[Id]) -> Result<(), AllocError>
    ensures ok { OnOk result (ids.new.items ≡ ids.old.items ++ more.now) }
    ensures err { OnErr result ((some : List Id) × (ids.new.items ≡ ids.old.items ++ some)) }
{
    'more: for id in more {
        ids.push(*id)?;
    }
    Ok(())
}
