//! The expressions of one statement, each kept once.
ghost use Rattle.std.specs.Prelude.{ℕ, ◌≡◌, ◌<◌, ◌≤◌, ◌+◌, ◌++◌, OnOk, IfOk, List, length, map, All};
ghost use Rattle.mz_logic_theory.specs.Legality.{Each, IsDummy};
ghost use Rattle.mz_logic_theory.specs.Signature.{Signature};
ghost use Rattle.mz_logic_theory.specs.Sorts.{HasSort};
ghost use Rattle.mz_logic_theory.specs.Tree.{app, instance, instances, followed_by, variables};
ghost use Rattle.mz_logic_theory.specs.View.{tree, trees};
ghost use Rattle.mz_logic_theory.specs.Words.{BitsRight, binders_of, signatures_of};
ghost use Rattle.mz_store.specs.Bits.{bound_vars};
ghost use Rattle.mz_store.specs.Sharing.{AreIn, Holds, IsOver, trees_of};
ghost use Rattle.mz_emit_bodies.specs.Instances.{Grows};
ghost use Rattle.mz_emit_theory.specs.InReach.{InReach, AllInReach, AreSorted};
ghost use Rattle.mz_emit_bodies.specs.Rows.{words_of_row};
ghost use Rattle.mz_emit_bodies.specs.Variables.{IsShared};

use crate::table::TermTable;
use mz_cmd::Mem;
use mz_logic_theory::{Binder, Expr, ExprRef, Exprs, Hyps, Operands, Shape, Terms, Word};
use mz_mmu_theory::Vars;
use mz_store::{DepsMode, Id, Seed, Store};
use std::alloc::Global;

/// The expressions of one statement, over its parameters and dummies.
#[derive(Drop)]
pub struct Shared {
    /// What takes the memory.
    pub alloc: Global,
    /// The expressions.
    pub store: Store,
    /// The variables of the context, in order.
    pub variables: Vec<Id>,
}

/// The first ids.
fn first_ids(alloc: Global, many: usize) -> Result<Vec<Id>, Mem>
    ensures many { IfOk result (λ ids. length ids.items ≡ many) }
    ensures numbers { IfOk result (λ ids. Each ids.items (λ i id. id.0 ≡ i)) }
{
    let mut ids = Vec::new(alloc);
    for i in 0..many {
        let id = Id::at(i)?;
        ids.push(id)?;
    }
    Ok(ids)
}

/// Adds dummies behind the variables.
fn add_dummies(store: &mut Store, variables: &mut Vec<Id>, dummies: &[Binder]) -> Result<(), Mem>
    requires shared { (sigs : List Signature) → IsShared sigs store.old variables.old.items }
    requires alone { length store.old.entries ≡ length variables.old.items }
    requires dummies { All IsDummy dummies.now }
    requires few { length (bound_vars store.old.context) + length dummies.now ≤ 55 }
    ensures context { OnOk result (store.new.context ≡ store.old.context ++ dummies.now) }
    ensures shared { OnOk result ((sigs : List Signature) → IsShared sigs store.new variables.new.items) }
{
    for dummy in dummies {
        let id = store.dummy(dummy.sort)?;
        variables.push(id)?;
    }
    Ok(())
}

/// The id of the expression with these operands in place of its variables.
#[cycle(instance_id)]
fn instance_id<T: Terms>(
    alloc: Global,
    store: &mut Store,
    terms: &T,
    operands: &[Id],
    expr: &ExprRef,
) -> Result<Id, Mem>
    requires over { IsOver (signatures_of (T.all_terms terms.now)) store.old }
    requires ids { AreIn store.old operands.now }
    requires there { InReach (length operands.now) expr.now }
    requires sorted { (s : ℕ) × HasSort (signatures_of (T.all_terms terms.now)) store.old.context (instance (trees_of store.old operands.now) expr.now) s }
    ensures holds { IfOk result (λ id. Holds store.new id.0 (instance (trees_of store.old operands.now) expr.now)) }
    ensures grows { OnOk result (Grows store.old store.new) }
    ensures over { OnOk result (IsOver (signatures_of (T.all_terms terms.now)) store.new) }
{
    match expr.shape() {
        Shape::Var(x) => Ok(operands[x as usize]),
        Shape::App(t, es) => {
            let args = instance_ids(alloc, store, terms, operands, &es)?;
            store.app(terms, t, &args)
        }
    }
}

/// The same of each expression.
#[cycle(instance_id)]
fn instance_ids<T: Terms>(
    alloc: Global,
    store: &mut Store,
    terms: &T,
    operands: &[Id],
    es: &Operands,
) -> Result<Vec<Id>, Mem>
    requires over { IsOver (signatures_of (T.all_terms terms.now)) store.old }
    requires ids { AreIn store.old operands.now }
    requires there { AllInReach (length operands.now) es.now }
    requires sorted { AreSorted (signatures_of (T.all_terms terms.now)) store.old.context (instances (trees_of store.old operands.now) es.now) }
    ensures ids { IfOk result (λ ids. AreIn store.new ids.items) }
    ensures trees { IfOk result (λ ids. trees_of store.new ids.items ≡ instances (trees_of store.old operands.now) es.now) }
    ensures grows { OnOk result (Grows store.old store.new) }
    ensures over { OnOk result (IsOver (signatures_of (T.all_terms terms.now)) store.new) }
{
    let mut ids = Vec::new(alloc);
    for i in 0..es.len() {
        let id = instance_id(alloc, store, terms, operands, &es.at(i))?;
        ids.push(id)?;
    }
    Ok(ids)
}

/// The same of each hypothesis.
fn instance_hyps<T: Terms>(
    alloc: Global,
    store: &mut Store,
    terms: &T,
    operands: &[Id],
    hyps: &Hyps,
) -> Result<Vec<Id>, Mem>
    requires over { IsOver (signatures_of (T.all_terms terms.now)) store.old }
    requires ids { AreIn store.old operands.now }
    requires there { AllInReach (length operands.now) hyps.now }
    requires sorted { AreSorted (signatures_of (T.all_terms terms.now)) store.old.context (instances (trees_of store.old operands.now) hyps.now) }
    ensures ids { IfOk result (λ ids. AreIn store.new ids.items) }
    ensures trees { IfOk result (λ ids. trees_of store.new ids.items ≡ instances (trees_of store.old operands.now) hyps.now) }
    ensures grows { OnOk result (Grows store.old store.new) }
    ensures over { OnOk result (IsOver (signatures_of (T.all_terms terms.now)) store.new) }
{
    let mut ids = Vec::new(alloc);
    for i in 0..hyps.len() {
        let id = instance_id(alloc, store, terms, operands, &hyps.at(i).borrowed())?;
        ids.push(id)?;
    }
    Ok(ids)
}

impl Shared {
    /// No expressions but the variables: the parameters that the words say, and the dummies behind them,
    /// at most 55 of them bound. Terms are looked up by numbers that the seed makes.
    ///
    /// # Errors
    ///
    /// Where there is no memory.
    pub fn new(
        alloc: Global,
        seed: Seed,
        params: &[Word],
        dummies: &[Binder],
    ) -> Result<Shared, Mem>
        requires params { BitsRight params.now }
        requires dummies { All IsDummy dummies.now }
        requires few { length (bound_vars (binders_of params.now)) + length dummies.now ≤ 55 }
        ensures context { IfOk result (λ s. s.store.context ≡ binders_of params.now ++ dummies.now) }
        ensures shared { IfOk result (λ s. (sigs : List Signature) → IsShared sigs s.store s.variables.items) }
    {
        let mut store = Store::seeded(alloc, seed);
        store.begin(params, DepsMode::All)?;
        let mut variables = first_ids(alloc, params.len())?;
        add_dummies(&mut store, &mut variables, dummies)?;
        Ok(Shared {
            alloc,
            store,
            variables,
        })
    }

    /// The id of the expression.
    ///
    /// # Errors
    ///
    /// Where there is no memory.
    pub fn id(&mut self, table: &TermTable, expr: &Expr) -> Result<Id, Mem>
        requires shared { IsShared (signatures_of (map words_of_row table.now.terms.items)) self.old.store self.old.variables.items }
        requires sorted { (s : ℕ) × HasSort (signatures_of (map words_of_row table.now.terms.items)) self.old.store.context (tree expr.now) s }
        ensures holds { IfOk result (λ id. Holds self.new.store id.0 (tree expr.now)) }
        ensures grows { OnOk result (Grows self.old.store self.new.store) }
        ensures variables { OnOk result (self.new.variables.items ≡ self.old.variables.items) }
        ensures shared { OnOk result (IsShared (signatures_of (map words_of_row table.now.terms.items)) self.new.store self.new.variables.items) }
    {
        let id = instance_id(
            self.alloc,
            &mut self.store,
            table,
            &self.variables,
            &expr.borrowed(),
        )?;
        Ok(id)
    }

    /// The ids of the expressions.
    ///
    /// # Errors
    ///
    /// Where there is no memory.
    pub fn ids(&mut self, table: &TermTable, es: &Exprs) -> Result<Vec<Id>, Mem>
        requires shared { IsShared (signatures_of (map words_of_row table.now.terms.items)) self.old.store self.old.variables.items }
        requires sorted { AreSorted (signatures_of (map words_of_row table.now.terms.items)) self.old.store.context es.now }
        ensures ids { IfOk result (λ ids. AreIn self.new.store ids.items) }
        ensures trees { IfOk result (λ ids. trees_of self.new.store ids.items ≡ es.now) }
        ensures grows { OnOk result (Grows self.old.store self.new.store) }
        ensures variables { OnOk result (self.new.variables.items ≡ self.old.variables.items) }
        ensures shared { OnOk result (IsShared (signatures_of (map words_of_row table.now.terms.items)) self.new.store self.new.variables.items) }
    {
        let ids = instance_ids(
            self.alloc,
            &mut self.store,
            table,
            &self.variables,
            &es.borrowed(),
        )?;
        Ok(ids)
    }

    /// The ids of the hypotheses.
    ///
    /// # Errors
    ///
    /// Where there is no memory.
    pub fn hyp_ids(&mut self, table: &TermTable, hyps: &Hyps) -> Result<Vec<Id>, Mem>
        requires shared { IsShared (signatures_of (map words_of_row table.now.terms.items)) self.old.store self.old.variables.items }
        requires sorted { AreSorted (signatures_of (map words_of_row table.now.terms.items)) self.old.store.context hyps.now }
        ensures ids { IfOk result (λ ids. AreIn self.new.store ids.items) }
        ensures trees { IfOk result (λ ids. trees_of self.new.store ids.items ≡ hyps.now) }
        ensures grows { OnOk result (Grows self.old.store self.new.store) }
        ensures variables { OnOk result (self.new.variables.items ≡ self.old.variables.items) }
        ensures shared { OnOk result (IsShared (signatures_of (map words_of_row table.now.terms.items)) self.new.store self.new.variables.items) }
    {
        let ids = instance_hyps(self.alloc, &mut self.store, table, &self.variables, hyps)?;
        Ok(ids)
    }

    /// The id of the expression with the operands in place of its variables.
    ///
    /// # Errors
    ///
    /// Where there is no memory.
    pub fn instance(&mut self, table: &TermTable, operands: &[Id], expr: &Expr) -> Result<Id, Mem>
        requires shared { IsShared (signatures_of (map words_of_row table.now.terms.items)) self.old.store self.old.variables.items }
        requires ids { AreIn self.old.store operands.now }
        requires there { InReach (length operands.now) (tree expr.now) }
        requires sorted { (s : ℕ) × HasSort (signatures_of (map words_of_row table.now.terms.items)) self.old.store.context (instance (trees_of self.old.store operands.now) (tree expr.now)) s }
        ensures holds { IfOk result (λ id. Holds self.new.store id.0 (instance (trees_of self.old.store operands.now) (tree expr.now))) }
        ensures grows { OnOk result (Grows self.old.store self.new.store) }
        ensures variables { OnOk result (self.new.variables.items ≡ self.old.variables.items) }
        ensures shared { OnOk result (IsShared (signatures_of (map words_of_row table.now.terms.items)) self.new.store self.new.variables.items) }
    {
        let id = instance_id(
            self.alloc,
            &mut self.store,
            table,
            operands,
            &expr.borrowed(),
        )?;
        Ok(id)
    }

    /// The id of the term over the operands.
    ///
    /// # Errors
    ///
    /// Where there is no memory.
    pub fn app(&mut self, table: &TermTable, term: u32, operands: &[Id]) -> Result<Id, Mem>
        requires shared { IsShared (signatures_of (map words_of_row table.now.terms.items)) self.old.store self.old.variables.items }
        requires ids { AreIn self.old.store operands.now }
        requires sorted { (s : ℕ) × HasSort (signatures_of (map words_of_row table.now.terms.items)) self.old.store.context (app term (trees_of self.old.store operands.now)) s }
        ensures holds { IfOk result (λ id. Holds self.new.store id.0 (app term (trees_of self.old.store operands.now))) }
        ensures grows { OnOk result (Grows self.old.store self.new.store) }
        ensures variables { OnOk result (self.new.variables.items ≡ self.old.variables.items) }
        ensures shared { OnOk result (IsShared (signatures_of (map words_of_row table.now.terms.items)) self.new.store self.new.variables.items) }
    {
        let id = self.store.app(table, term, operands)?;
        Ok(id)
    }

    /// Appends the ids of the variables at these places.
    ///
    /// # Errors
    ///
    /// Where there is no memory.
    pub fn push_variables(&self, ids: &mut Vec<Id>, vars: &Vars) -> Result<(), Mem>
        requires sigs { (sigs : List Signature) × IsShared sigs self.now.store self.now.variables.items }
        requires ids { AreIn self.now.store ids.old.items }
        requires there { All (λ y. y < length self.now.store.context) vars.now }
        ensures ids { OnOk result (AreIn self.now.store ids.new.items) }
        ensures trees { OnOk result (trees_of self.now.store ids.new.items ≡ followed_by (trees_of self.now.store ids.old.items) (variables vars.now)) }
        ensures many { OnOk result (length ids.new.items ≡ length ids.old.items + length vars.now) }
    {
        for place in vars.as_slice() {
            ids.push(self.variables[*place as usize])?;
        }
        Ok(())
    }
}
