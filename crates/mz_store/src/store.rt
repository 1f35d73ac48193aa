//! The store.
ghost use Rattle.std.specs.Prelude.{ℕ, ◌≡◌, ◌↔◌, ◌<◌, ◌≤◌, ◌+◌, ◌∷◌, [], ◌++◌, List, map, OnOk, OnErr, IfOk, IsTrue, length, take};
ghost use Rattle.mz_logic_theory.specs.Sorts.{HasSort, IsBoundVar};
ghost use Rattle.mz_logic_theory.specs.Signature.{Signature};
ghost use Rattle.mz_logic_theory.specs.Tree.{var, app};
ghost use Rattle.mz_logic_theory.specs.Words.{BitsRight, BitsRightAfter, binders_of, signatures_of};
ghost use Rattle.mz_store.specs.Bits.{Tells, bound_vars};
ghost use Rattle.mz_store.specs.Sharing.{IsIn, AreIn, Holds, tree_of, trees_of, sort_of, deps_of, head_of, operands_of, IsOver, DependsOn, CanTake, KeepsIds, IsEmpty, dummy_binder};
ghost use Rattle.mz_store.specs.Nodes.{IsVariableWord, variable, variable_node, entered, entered_all};
ghost use Rattle.mz_store.specs.Placed.{IsPlaced};

use crate::buckets::find;
use crate::expressions::Expressions;
use crate::item::{DepsMode, Id};
use crate::node::{Form, Node};
use crate::seed::Seed;
use crate::table::Table;
use mz_logic_theory::{Terms, Word};
use std::alloc::{AllocError, Global};
use std::marker::Model;

/// Expressions over the variables of one context, each kept once: two ids are equal exactly where
/// their trees are.
///
/// The trees are nowhere written out, so that an expression of very many parts takes only as much
/// memory as it has different ones.
#[derive(Drop)]
pub struct Store {
    alloc: Global,
    expressions: Expressions,
    table: Table,
}

impl Model for Store {
    ghost use Rattle.mz_store.specs.Sharing.{Sharing};
    ghost use Rattle.mz_store.specs.Codes.{sharing_code};

    ghost Value = { Sharing };

    ghost coded = { sharing_code };

    ghost use Rattle.mz_store.specs.Kept.{shared_by, AreKept};
    ghost use Rattle.mz_store.specs.Tables.{IsTable};

    ghost view = { λ s. shared_by s.expressions };

    ghost invariant = { λ s. AreKept s.expressions × IsTable s.table s.expressions.operands.items s.expressions.nodes.items };
}

impl Store {
    /// A store of nothing, for those who draw no seed.
    pub fn new(alloc: Global) -> Store
        ensures { IsEmpty result }
    {
        Store::seeded(alloc, Seed::FIXED)
    }

    /// A store of nothing, whose terms are looked up by numbers that the seed makes.
    pub fn seeded(alloc: Global, seed: Seed) -> Store
        ensures { IsEmpty result }
    {
        Store {
            alloc,
            expressions: Expressions {
                mode: DepsMode::All,
                bound_count: 0,
                nodes: Vec::new(alloc),
                operands: Vec::new(alloc),
            },
            table: Table::new(alloc, seed.0 | 1),
        }
    }

    /// Takes all expressions out, and enters the parameters that the words say, the i-th with the
    /// id i. The bits of the words must say exactly a list of binders.
    ///
    /// # Errors
    ///
    /// Where there is no memory. The store is empty then.
    pub fn begin(&mut self, params: &[Word], mode: DepsMode) -> Result<(), AllocError>
        requires { BitsRight params.now }
        ensures mode { OnOk result (self.new.mode ≡ mode) }
        ensures context { OnOk result (self.new.context ≡ binders_of params.now) }
        ensures many { OnOk result (length self.new.entries ≡ length params.now) }
        ensures trees { OnOk result ((i : ℕ) → i < length params.now → tree_of self.new i ≡ var i) }
        ensures over { OnOk result ((sigs : List Signature) → IsOver sigs self.new) }
        ensures err { OnErr result (IsEmpty self.new) }
    {
        self.clear(mode);
        match self.enter_all(params) {
            Ok(()) => Ok(()),
            Err(failed) => {
                self.clear(mode);
                Err(failed)
            }
        }
    }

    /// Takes all expressions out but the first ones, which are so many variables; of these so many are
    /// bound. They stand as if `begin` had entered them alone.
    pub fn restart(&mut self, params: u32, bound: u32)
        requires there { params ≤ length self.old.entries }
        requires first { (i : ℕ) → i < params → tree_of self.old i ≡ var i }
        requires bound { bound ≡ length (bound_vars (take params self.old.context)) }
        ensures mode { self.new.mode ≡ self.old.mode }
        ensures context { self.new.context ≡ take params self.old.context }
        ensures many { length self.new.entries ≡ params }
        ensures trees { (i : ℕ) → i < params → tree_of self.new i ≡ var i }
        ensures over { (sigs others : List Signature) → IsOver sigs self.old → IsOver others self.new }
    {
        self.expressions.bound_count = bound;
        self.expressions.nodes.truncate(params as usize);
        self.expressions.operands.clear();
        self.table.forget();
    }

    fn clear(&mut self, mode: DepsMode)
        ensures empty { IsEmpty self.new }
        ensures mode { self.new.mode ≡ mode }
    {
        self.expressions.mode = mode;
        self.expressions.bound_count = 0;
        self.expressions.nodes.clear();
        self.expressions.operands.clear();
        self.table.forget();
    }

    /// Enters the variables that the words say.
    fn enter_all(&mut self, params: &[Word]) -> Result<(), AllocError>
        requires { BitsRightAfter (length (bound_vars self.old.context)) params.now }
        ensures ok { OnOk result (self.new ≡ entered_all self.old (map variable_node params.now)) }
        ensures over { OnOk result ((sigs : List Signature) → IsOver sigs self.old → IsOver sigs self.new) }
    {
        for param in params {
            self.enter(param.sort(), param.deps(), param.bound())?;
        }
        Ok(())
    }

    /// Adds a variable, whose word must say exactly what a variable after the present ones is.
    #[inline(always)]
    fn enter(&mut self, sort: u32, deps: u64, bound: bool) -> Result<(), AllocError>
        requires { IsVariableWord (length (bound_vars self.old.context)) deps bound }
        ensures ok { OnOk result (self.new ≡ entered self.old (record { sort = sort; deps = deps; form = variable bound })) }
        ensures over { OnOk result ((sigs : List Signature) → IsOver sigs self.old → IsOver sigs self.new) }
        ensures err { OnErr result (self.new ≡ self.old) }
    {
        self.expressions.nodes.push(Node {
            deps,
            sort,
            form: Form::Variable(bound),
        })?;
        self.expressions.bound_count += u32::from(bound);
        Ok(())
    }

    /// Adds a bound variable without dependencies. There must be fewer than 55 bound ones.
    ///
    /// # Errors
    ///
    /// Where there is no memory. The store is unchanged then.
    pub fn dummy(&mut self, sort: u32) -> Result<Id, AllocError>
        requires { length (bound_vars self.old.context) < 55 }
        ensures id { IfOk result (λ id. id.0 ≡ length self.old.entries) }
        ensures holds { IfOk result (λ id. Holds self.new id.0 (var (length self.old.context))) }
        ensures many { OnOk result (length self.new.entries ≡ length self.old.entries + 1) }
        ensures context { OnOk result (self.new.context ≡ self.old.context ++ dummy_binder sort ∷ []) }
        ensures mode { OnOk result (self.new.mode ≡ self.old.mode) }
        ensures kept { OnOk result (KeepsIds self.old self.new) }
        ensures over { OnOk result ((sigs : List Signature) → IsOver sigs self.old → IsOver sigs self.new) }
        ensures err { OnErr result (self.new ≡ self.old) }
    {
        let id = Id::at(self.expressions.nodes.len())?;
        self.enter(sort, 1 << self.expressions.bound_count, true)?;
        Ok(id)
    }

    /// The term `t` over these expressions: the id that it has already, or a new one.
    ///
    /// The terms are those over which the store's expressions were made since `begin`; `t` is one of
    /// them, and the operands have the sorts of its parameters, a bound variable for each bound one.
    ///
    /// # Errors
    ///
    /// Where there is no memory. The store is unchanged then.
    #[inline(always)]
    pub fn app<T: Terms>(&mut self, terms: &T, t: u32, args: &[Id]) -> Result<Id, AllocError>
        requires over { IsOver (signatures_of (T.all_terms terms.now)) self.old }
        requires ids { AreIn self.old args.now }
        requires fit { CanTake (T.all_terms terms.now) self.old.context t (trees_of self.old args.now) }
        ensures holds { IfOk result (λ id. Holds self.new id.0 (app t (trees_of self.old args.now))) }
        ensures context { self.new.context ≡ self.old.context }
        ensures mode { self.new.mode ≡ self.old.mode }
        ensures kept { OnOk result (KeepsIds self.old self.new) }
        ensures over { OnOk result (IsOver (signatures_of (T.all_terms terms.now)) self.new) }
        ensures err { OnErr result (self.new ≡ self.old) }
    {
        self.find_or_add(terms, t, args)
    }

    /// The id of the term `t` over these expressions. The table is asked once, whether it is there or not.
    #[inline(always)]
    fn find_or_add<T: Terms>(&mut self, terms: &T, t: u32, args: &[Id]) -> Result<Id, AllocError>
        requires over { IsOver (signatures_of (T.all_terms terms.now)) self.old }
        requires ids { AreIn self.old args.now }
        requires fit { CanTake (T.all_terms terms.now) self.old.context t (trees_of self.old args.now) }
        ensures ok { IfOk result (λ id. IsPlaced (T.all_terms terms.now) self.old t args.now id self.new) }
        ensures err { OnErr result (self.new ≡ self.old) }
    {
        self.table.make_room(self.alloc, &mut self.expressions)?;
        let bucket = self.table.bucket_of(t, args);
        let newest = self.table.newest(bucket);
        let there = find(
            &self.expressions.nodes,
            &self.expressions.operands,
            newest,
            t,
            args,
        );
        if let Some(id) = there {
            return Ok(id);
        }
        let id = self.expressions.add(self.alloc, terms, t, args, newest)?;
        self.table.put(bucket, id);
        Ok(id)
    }

    /// How many expressions there are: their ids are the numbers below.
    pub fn len(&self) -> usize
        ensures { result ≡ length self.now.entries }
    {
        self.expressions.nodes.len()
    }

    /// Different ids have different trees: it does nothing, and its contract is the law.
    pub fn once(&self)
        ensures { (i j : ℕ) → IsIn self.now i → IsIn self.now j → tree_of self.now i ≡ tree_of self.now j → i ≡ j }
    {
        let _ = &self.table;
    }

    /// Whether two expressions are the same.
    #[inline(always)]
    pub fn same(&self, a: Id, b: Id) -> bool
        requires left { IsIn self.now a.0 }
        requires right { IsIn self.now b.0 }
        ensures trees { IsTrue result ↔ (tree_of self.now a.0 ≡ tree_of self.now b.0) }
        ensures ids { IsTrue result ↔ (a ≡ b) }
    {
        // Different ids have different trees: the store's invariant.
        let _ = &self.table;
        a == b
    }

    /// The expression's sort.
    #[inline(always)]
    pub fn sort_of(&self, id: Id) -> u32
        requires { IsIn self.now id.0 }
        ensures kept { result ≡ sort_of self.now id.0 }
        ensures sort { (sigs : List Signature) → IsOver sigs self.now → HasSort sigs self.now.context (tree_of self.now id.0) result }
    {
        self.expressions.nodes[id.0 as usize].sort
    }

    /// The word of the expression's variables: bit k is set exactly where the k-th bound variable is
    /// among all its variables, or among the free ones, as `begin` was asked.
    #[inline(always)]
    pub fn deps(&self, id: Id) -> u64
        requires { IsIn self.now id.0 }
        ensures kept { result ≡ deps_of self.now id.0 }
        ensures variables { (sigs : List Signature) → IsOver sigs self.now → Tells (bound_vars self.now.context) result (DependsOn self.now.mode sigs self.now.context (tree_of self.now id.0)) }
    {
        self.expressions.deps(id)
    }

    /// Whether the expression is a bound variable.
    #[inline(always)]
    pub fn is_bound(&self, id: Id) -> bool
        requires { IsIn self.now id.0 }
        ensures { IsTrue result ↔ IsBoundVar self.now.context (tree_of self.now id.0) }
    {
        match self.expressions.nodes[id.0 as usize].form {
            Form::Variable(bound) => bound,
            Form::Application(_) => false,
        }
    }

    /// The number of the term that the expression is an application of, and `None` for a variable.
    #[inline(always)]
    pub fn head(&self, id: Id) -> Option<u32>
        requires { IsIn self.now id.0 }
        ensures { result ≡ head_of (tree_of self.now id.0) }
    {
        match &self.expressions.nodes[id.0 as usize].form {
            Form::Variable(_) => None,
            Form::Application(made) => Some(made.head),
        }
    }

    /// The operands of the expression, none for a variable.
    #[inline(always)]
    pub fn args(&self, id: Id) -> &[Id]
        requires { IsIn self.now id.0 }
        ensures ids { AreIn self.now result.now }
        ensures trees { trees_of self.now result.now ≡ operands_of (tree_of self.now id.0) }
    {
        match &self.expressions.nodes[id.0 as usize].form {
            Form::Variable(_) => &[],
            Form::Application(made) => &self
                .expressions
                .operands[made.from as usize..made.to as usize],
        }
    }

    /// How many bound variables there are, at most 55.
    pub fn bound_count(&self) -> u32
        ensures many { result ≡ length (bound_vars self.now.context) }
        ensures small { result ≤ 55 }
    {
        self.expressions.bound_count
    }
}
