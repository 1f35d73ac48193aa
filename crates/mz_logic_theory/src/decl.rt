ghost use Rattle.std.specs.Prelude.{◌≡◌, MatchOption};
ghost use Rattle.mz_logic_theory.specs.Declaration.{body_of, context_of, dummies_of};
ghost use Rattle.mz_logic_theory.specs.DeclView.{form, term_view};
ghost use Rattle.mz_logic_theory.specs.Tree.{more, none};
ghost use Rattle.mz_logic_theory.specs.View.{tree};

use crate::binder::{Binder, Binders, ResultType, SortMods};
use crate::context::Context;
use crate::expr::Expr;
use crate::hyps::Hyps;

/// Whether a term is declared alone, or is a definition.
#[derive(Drop)]
pub enum TermForm {
    /// A term without a body.
    Plain,
    /// A definition whose body is left open.
    Abstract,
    /// A definition with dummies and a body over the parameters and these.
    Body { dummies: Binders, body: Expr },
}

impl TermForm {
    /// The dummies, none where there is no body.
    pub fn dummies(&self) -> &[Binder]
        ensures { result.now ≡ dummies_of (form self.now) }
    {
        match self {
            TermForm::Plain => &[],
            TermForm::Abstract => &[],
            TermForm::Body { dummies, .. } => dummies.as_slice(),
        }
    }

    /// The body, if there is one.
    pub fn body(&self) -> Option<&Expr>
        ensures { MatchOption result (body_of (form self.now) ≡ none) (λ e. body_of (form self.now) ≡ more (tree e.now) none) }
    {
        match self {
            TermForm::Plain => None,
            TermForm::Abstract => None,
            TermForm::Body { body, .. } => Some(body),
        }
    }
}

/// A term or a definition.
#[derive(Drop)]
pub struct TermDecl {
    pub params: Binders,
    pub result: ResultType,
    pub form: TermForm,
}

impl TermDecl {
    /// The context of the body.
    pub fn context(&self) -> Context<'_>
        ensures { result ≡ context_of (term_view self.now) }
    {
        Context::new(self.params.as_slice(), self.form.dummies())
    }
}

/// Whether an assertion is taken for granted, or proved.
#[derive(Clone, Copy, PartialEq, Eq)]
pub enum ThmForm {
    Axiom,
    Theorem,
}

/// An axiom or a theorem: from the hypotheses follows the conclusion.
#[derive(Drop)]
pub struct ThmDecl {
    pub form: ThmForm,
    pub params: Binders,
    pub hyps: Hyps,
    pub conclusion: Expr,
}

/// A declaration.
#[derive(Drop)]
pub enum Decl {
    Sort(SortMods),
    Term(TermDecl),
    Thm(ThmDecl),
}

/// What a declaration fails in, in the order in which it is looked for.
#[derive(Clone, Copy, PartialEq, Eq)]
pub enum DeclFault {
    /// A sort, term or variable that is not there, dependencies included, or a wrong number of
    /// operands.
    Index,
    /// A bound parameter with dependencies or of a strict sort, a dummy with dependencies,
    /// or a dependency that is no earlier bound parameter.
    Binder,
    /// A result of a pure sort.
    Pure,
    /// An operand or a body of another sort.
    Sort,
    /// An operand of a bound parameter that is no bound variable.
    BoundOperand,
    /// A hypothesis or a conclusion whose sort is not provable.
    NotProvable,
    /// A dummy of a strict or free sort.
    DummySort,
    /// A body that depends on more than its result.
    DefDeps,
}
