//! The nodes of a body.
ghost use Rattle.std.specs.Prelude.{ℕ, ◌≡◌, ◌↔◌, ◌<◌, ◌≤◌, ◌+◌, ◌∷◌, [], ◌++◌, List, map, OnOk, OnErr, IfOk, IsTrue, length};
ghost use Rattle.mz_logic_theory.specs.Sorts.{HasSort, IsBoundVar};
ghost use Rattle.mz_logic_theory.specs.Signature.{Signature};
ghost use Rattle.mz_logic_theory.specs.Variables.{InV};
ghost use Rattle.mz_logic_theory.specs.Words.{BitsRight, BitsRightAfter, binders_of, signatures_of};
ghost use Rattle.mz_store.specs.Bits.{Tells, bound_vars};
ghost use Rattle.mz_store.specs.Nodes.{IsVariableWord};
ghost use Rattle.mz_store.specs.Sharing.{DependsOn, CanTake, dummy_binder};
ghost use Rattle.mz_pmachine_theory.specs.NodeIdentity.{a_variable, an_application};
ghost use Rattle.mz_pmachine_unify.specs.Numbering.{IsIn, AreIn, Holds, expr_of, exprs_of, tree_of, trees_of, sort_of, vars_of, deps_of, head_of, operands_of, IsOver, KeepsIds, IsEmpty};
ghost use Rattle.mz_pmachine_unify.specs.Entering.{variable, application, variable_node, entered, entered_all, IsNewIn};

use crate::node::{Application, Form, Node, four_bytes};
use crate::variables::{all_vars, told_vars};
use mz_logic_theory::{Terms, Word};
use mz_store::{DepsMode, Id};
use std::alloc::{AllocError, Global};
use std::marker::Model;

/// The expressions of a body: the variables of its context, and one node for each command that made
/// one. Two ids are equal exactly where the expressions are, numbers and all.
///
/// No node is looked for: what two commands made has two ids, and what one command made has one.
#[derive(Drop)]
pub struct Nodes {
    alloc: Global,
    mode: DepsMode,
    bound_count: u32,
    nodes: Vec<Node>,
    // of all applications, one after another
    operands: Vec<Id>,
}

impl Model for Nodes {
    ghost use Rattle.mz_pmachine_unify.specs.Numbering.{Numbering};
    ghost use Rattle.mz_pmachine_unify.specs.Codes.{numbering_code};

    ghost Value = { Numbering };

    ghost coded = { numbering_code };

    ghost use Rattle.mz_pmachine_unify.specs.Entering.{all_made, numbering_of};
    ghost use Rattle.mz_pmachine_unify.specs.Kept.{Keeps};

    ghost view = { λ s. numbering_of s.mode (all_made s.operands.items s.nodes.items) };

    ghost invariant = { λ s. Keeps s.mode s.bound_count s.operands.items s.nodes.items };
}

impl Nodes {
    /// No expressions.
    pub fn new(alloc: Global) -> Nodes
        ensures { IsEmpty result }
    {
        Nodes {
            alloc,
            mode: DepsMode::All,
            bound_count: 0,
            nodes: Vec::new(alloc),
            operands: Vec::new(alloc),
        }
    }

    /// Takes all expressions out, and enters the parameters that the words say, the i-th with the
    /// id i. The bits of the words must say exactly a list of binders.
    ///
    /// # Errors
    ///
    /// Where there is no memory. There are no expressions then.
    pub fn begin(&mut self, params: &[Word], mode: DepsMode) -> Result<(), AllocError>
        requires { BitsRight params.now }
        ensures mode { OnOk result (self.new.mode ≡ mode) }
        ensures context { OnOk result (self.new.context ≡ binders_of params.now) }
        ensures many { OnOk result (length self.new.entries ≡ length params.now) }
        ensures next { OnOk result (self.new.next ≡ 0) }
        ensures exprs { OnOk result ((i : ℕ) → i < length params.now → expr_of self.new i ≡ a_variable i) }
        ensures over { OnOk result ((sigs : List Signature) → IsOver sigs self.new) }
        ensures err { OnErr result (IsEmpty self.new) }
    {
        self.clear(mode);
        match self.enter_all(params) {
            Ok(()) => Ok(()),
            Err(failed) => {
                self.clear(mode);
                Err(failed)
            }
        }
    }

    fn clear(&mut self, mode: DepsMode)
        ensures empty { IsEmpty self.new }
        ensures mode { self.new.mode ≡ mode }
    {
        self.mode = mode;
        self.bound_count = 0;
        self.nodes.clear();
        self.operands.clear();
    }

    /// Enters the variables that the words say.
    fn enter_all(&mut self, params: &[Word]) -> Result<(), AllocError>
        requires { BitsRightAfter (length (bound_vars self.old.context)) params.now }
        ensures ok { OnOk result (self.new ≡ entered_all self.old (map variable_node params.now)) }
        ensures over { OnOk result ((sigs : List Signature) → IsOver sigs self.old → IsOver sigs self.new) }
    {
        for param in params {
            self.enter(param.sort(), param.deps(), param.bound())?;
        }
        Ok(())
    }

    /// Adds a variable, whose word must say exactly what a variable after the present ones is.
    fn enter(&mut self, sort: u32, deps: u64, bound: bool) -> Result<(), AllocError>
        requires { IsVariableWord (length (bound_vars self.old.context)) deps bound }
        ensures ok { OnOk result (self.new ≡ entered self.old (record { sort = sort; vars = deps; deps = deps; form = variable bound })) }
        ensures over { OnOk result ((sigs : List Signature) → IsOver sigs self.old → IsOver sigs self.new) }
        ensures err { OnErr result (self.new ≡ self.old) }
    {
        self.nodes.push(Node {
            vars: deps,
            deps,
            sort,
            form: Form::Variable(bound),
        })?;
        self.bound_count += u32::from(bound);
        Ok(())
    }

    /// Adds a bound variable without dependencies. There must be fewer than 55 bound ones.
    ///
    /// # Errors
    ///
    /// Where there is no memory. Nothing is changed then.
    pub fn dummy(&mut self, sort: u32) -> Result<Id, AllocError>
        requires { length (bound_vars self.old.context) < 55 }
        ensures id { IfOk result (λ id. id.0 ≡ length self.old.entries) }
        ensures holds { IfOk result (λ id. Holds self.new id.0 (a_variable (length self.old.context))) }
        ensures next { OnOk result (self.new.next ≡ self.old.next) }
        ensures context { OnOk result (self.new.context ≡ self.old.context ++ dummy_binder sort ∷ []) }
        ensures mode { OnOk result (self.new.mode ≡ self.old.mode) }
        ensures kept { OnOk result (KeepsIds self.old self.new) }
        ensures over { OnOk result ((sigs : List Signature) → IsOver sigs self.old → IsOver sigs self.new) }
        ensures err { OnErr result (self.new ≡ self.old) }
    {
        let id = Id::at(self.nodes.len())?;
        self.enter(sort, 1 << self.bound_count, true)?;
        Ok(id)
    }

    /// The term `t` over these expressions, as the command with this number makes it: always a new id.
    /// No command with this number or a higher one has made an expression.
    ///
    /// The terms are those over which the expressions were made since `begin`; `t` is one of them, and
    /// the operands have the sorts of its parameters, a bound variable for each bound one.
    ///
    /// # Errors
    ///
    /// Where there is no memory. Nothing is changed then.
    pub fn app<T: Terms>(
        &mut self,
        terms: &T,
        number: u32,
        t: u32,
        args: &[Id],
    ) -> Result<Id, AllocError>
        requires over { IsOver (signatures_of (T.all_terms terms.now)) self.old }
        requires ids { AreIn self.old args.now }
        requires fit { CanTake (T.all_terms terms.now) self.old.context t (trees_of self.old args.now) }
        requires number { self.old.next ≤ number }
        ensures holds { IfOk result (λ id. Holds self.new id.0 (an_application number t (exprs_of self.old args.now))) }
        ensures next { OnOk result (self.new.next ≡ number + 1) }
        ensures context { self.new.context ≡ self.old.context }
        ensures mode { self.new.mode ≡ self.old.mode }
        ensures kept { OnOk result (KeepsIds self.old self.new) }
        ensures over { OnOk result (IsOver (signatures_of (T.all_terms terms.now)) self.new) }
        ensures err { OnErr result (self.new ≡ self.old) }
    {
        let vars = all_vars(self, args);
        let deps = told_vars(self.alloc, self, terms, t, args, vars)?;
        self.add(number, t, args, terms.result(t).sort(), vars, deps)
    }

    /// Adds an application of a term to expressions that are there.
    fn add(
        &mut self,
        number: u32,
        head: u32,
        args: &[Id],
        sort: u32,
        vars: u64,
        deps: u64,
    ) -> Result<Id, AllocError>
        requires { IsNewIn self.old (application number head args.now) }
        ensures id { IfOk result (λ id. id.0 ≡ length self.old.entries) }
        ensures ok { OnOk result (self.new ≡ entered self.old (record { sort = sort; vars = vars; deps = deps; form = application number head args.now })) }
        ensures err { OnErr result (self.new ≡ self.old) }
    {
        let id = Id::at(self.nodes.len())?;
        let from = four_bytes(self.operands.len())?;
        let many = four_bytes(args.len())?;
        self.operands.extend_from_slice(args)?;
        let made = Application {
            number,
            head,
            from,
            many,
        };
        self.nodes.push(Node {
            vars,
            deps,
            sort,
            form: Form::Application(made),
        })?;
        Ok(id)
    }

    /// Which variables the second words name.
    pub(crate) fn mode(&self) -> DepsMode
        ensures { result ≡ self.now.mode }
    {
        self.mode
    }

    /// Whether two expressions are the same: made by the same commands throughout.
    pub fn same(&self, a: Id, b: Id) -> bool
        requires left { IsIn self.now a.0 }
        requires right { IsIn self.now b.0 }
        ensures { IsTrue result ↔ (expr_of self.now a.0 ≡ expr_of self.now b.0) }
    {
        // Different ids have different expressions: the invariant.
        let _ = &self.nodes;
        a == b
    }

    /// The expression's sort.
    pub fn sort_of(&self, id: Id) -> u32
        requires { IsIn self.now id.0 }
        ensures kept { result ≡ sort_of self.now id.0 }
        ensures sort { (sigs : List Signature) → IsOver sigs self.now → HasSort sigs self.now.context (tree_of self.now id.0) result }
    {
        self.nodes[id.0 as usize].sort
    }

    /// The word of all the expression's variables: bit k is set exactly where the k-th bound variable
    /// is among them.
    pub fn vars(&self, id: Id) -> u64
        requires { IsIn self.now id.0 }
        ensures kept { result ≡ vars_of self.now id.0 }
        ensures variables { (sigs : List Signature) → IsOver sigs self.now → Tells (bound_vars self.now.context) result (λ x. InV self.now.context x (tree_of self.now id.0)) }
    {
        self.nodes[id.0 as usize].vars
    }

    /// The same of the variables that are reported: all of them, or the free ones, as `begin` was asked.
    pub fn deps(&self, id: Id) -> u64
        requires { IsIn self.now id.0 }
        ensures kept { result ≡ deps_of self.now id.0 }
        ensures variables { (sigs : List Signature) → IsOver sigs self.now → Tells (bound_vars self.now.context) result (DependsOn self.now.mode sigs self.now.context (tree_of self.now id.0)) }
    {
        self.nodes[id.0 as usize].deps
    }

    /// Whether the expression is a bound variable.
    pub fn is_bound(&self, id: Id) -> bool
        requires { IsIn self.now id.0 }
        ensures { IsTrue result ↔ IsBoundVar self.now.context (tree_of self.now id.0) }
    {
        match &self.nodes[id.0 as usize].form {
            Form::Variable(bound) => *bound,
            Form::Application(_) => false,
        }
    }

    /// The number of the term that the expression is an application of, and `None` for a variable.
    pub fn head(&self, id: Id) -> Option<u32>
        requires { IsIn self.now id.0 }
        ensures { result ≡ head_of (expr_of self.now id.0) }
    {
        match &self.nodes[id.0 as usize].form {
            Form::Variable(_) => None,
            Form::Application(made) => Some(made.head),
        }
    }

    /// The operands of the expression, none for a variable.
    pub fn args(&self, id: Id) -> &[Id]
        requires { IsIn self.now id.0 }
        ensures ids { AreIn self.now result.now }
        ensures exprs { exprs_of self.now result.now ≡ operands_of (expr_of self.now id.0) }
    {
        match &self.nodes[id.0 as usize].form {
            Form::Variable(_) => &[],
            Form::Application(made) => {
                let from = made.from as usize;
                &self.operands[from..from + made.many as usize]
            }
        }
    }

    /// How many bound variables there are, at most 55.
    pub fn bound_count(&self) -> u32
        ensures many { result ≡ length (bound_vars self.now.context) }
        ensures small { result ≤ 55 }
    {
        self.bound_count
    }
}
