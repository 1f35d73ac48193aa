// What can't be written, or isn't.
ghost use Rattle.std.specs.Prelude.{◌≡◌, ◌↔◌, IsTrue};
ghost use Rattle.mz_logic_theory.specs.DeclView.{declaration};
ghost use Rattle.mz_logic_theory.specs.View.{tree};
ghost use Rattle.mz_prefix.specs.PublicPart.{any_mentions_local, IsSayable, mentions_local};
ghost use Rattle.mz_prefix.specs.NamedDeclarations.{AreShort, Vocabulary};
ghost use Rattle.mz_prefix.specs.Wording;
ghost use Rattle.mz_prefix.specs.Wording.{IsBrief};
ghost use Rattle.mz_prefix.specs.Names.{spoken};

use crate::measure::is_short;
use crate::names::Names;
use mz_logic_theory::{Decl, Expr, ExprRef, Hyps, Operands, Shape};

impl<'a> Names<'a> {
    /// Whether a local term stands in the expression.
    ///
    /// It calls itself no deeper than an expression is nested, which is at most as deep as a text
    /// may be.
    #[cycle(mentions_local)]
    fn mentions_local(&self, expr: &ExprRef) -> bool
        ensures { result ≡ mentions_local self.now.locals.items expr.now }
    {
        match expr.shape() {
            Shape::Var(_) => false,
            Shape::App(t, es) => self.is_local(t) || self.any_mentions_local(&es),
        }
    }

    /// Whether a local term stands in one of the expressions.
    #[cycle(mentions_local)]
    fn any_mentions_local(&self, es: &Operands) -> bool
        ensures { result ≡ any_mentions_local self.now.locals.items es.now }
    {
        for i in 0..es.len() {
            if self.mentions_local(&es.at(i)) {
                return true;
            }
        }
        false
    }

    /// Whether a local term stands in one of the hypotheses.
    fn any_hyp_mentions_local(&self, hyps: &Hyps) -> bool
        ensures { result ≡ any_mentions_local self.now.locals.items hyps.now }
    {
        self.any_mentions_local(&hyps.formulas().borrowed())
    }

    /// Whether a definition's body isn't written.
    pub(crate) fn is_hidden(&self, body: &Expr) -> bool
        ensures { result ≡ Wording.is_hidden self.now.locals.items (spoken self.now) (tree body.now) }
    {
        let body = body.borrowed();
        self.mentions_local(&body) || !is_short(&body)
    }

    /// Whether no claim of the declaration mentions a local term.
    pub(crate) fn is_sayable(&self, decl: &Decl) -> bool
        ensures { IsTrue result ↔ IsSayable self.now.locals.items (declaration decl.now) }
    {
        match decl {
            Decl::Thm(thm) => {
                !self.any_hyp_mentions_local(&thm.hyps)
                    && !self.mentions_local(&thm.conclusion.borrowed())
            }
            _ => true,
        }
    }
}

/// Whether the prefix form of each hypothesis is within the limits.
fn are_short(hyps: &Hyps) -> bool
    ensures { (v : Vocabulary) → IsTrue result ↔ AreShort v hyps.now }
{
    let formulas = hyps.formulas().borrowed();
    for i in 0..formulas.len() {
        if !is_short(&formulas.at(i)) {
            return false;
        }
    }
    true
}

/// Whether that of each claim of the declaration is.
pub(crate) fn is_brief(decl: &Decl) -> bool
    ensures { (v : Vocabulary) → IsTrue result ↔ IsBrief v (declaration decl.now) }
{
    match decl {
        Decl::Thm(thm) => are_short(&thm.hyps) && is_short(&thm.conclusion.borrowed()),
        _ => true,
    }
}
