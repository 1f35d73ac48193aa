//! Reading an expression.
ghost use Rattle.std.specs.Prelude.{◌≡◌, ◌<◌, ◌+◌, ◌*◌, true, IfOk, IfErr};
ghost use Rattle.mz_logic_theory.specs.Tree.{none, more, followed_by};
ghost use Rattle.mz_logic_theory.specs.View.{tree};
ghost use Rattle.mz_sexpr.specs.Node.{is_atom};
ghost use Rattle.mz_sexpr.specs.Number.{node_count, node_at};
ghost use Rattle.mz_mmu_theory.specs.Cursor.{nodes_from, IsThere, node_size};
ghost use Rattle.mz_mmu_theory.specs.Expressions.{IsExpr, AreExprs, IsExprList};
ghost use Rattle.mz_mmu_theory.specs.FormOrder.{expr_asked, exprs_asked, expr_list_asked};
ghost use Rattle.mz_mmu_forms.specs.ScopeView.{scope};
ghost use Rattle.mz_mmu_forms.specs.Steps.{Says, turns};
ghost use Rattle.mz_mmu_theory.specs.Stops.{Stops};

use crate::reader::Reader;
use crate::scope::Scope;
use mz_logic_theory::{Expr, Exprs};
use mz_mmu_theory::Stop;
use mz_sexpr::U;
use std::alloc::AllocFailed;

/// A term over expressions that are being read.
#[derive(Drop)]
pub struct Application {
    term: u32,
    /// Those that have been read.
    operands: Exprs,
    /// The node of the next one, if there is one.
    left: Option<u32>,
}

/// How far an expression has been read.
#[derive(Drop)]
pub enum Step {
    /// Up to an operand, or to the end of the operands.
    Operands(Application),
    /// The whole.
    Whole(Expr),
}

/// The application with one more operand.
fn with_operand(outer: Application, operand: Expr) -> Result<Application, AllocFailed<Expr>>
    ensures { IfOk result (λ o. o ≡ record { term = outer.term; operands = followed_by outer.operands (more (tree operand) none); left = outer.left }) }
{
    let mut operands = outer.operands;
    operands.push(operand)?;
    Ok(Application {
        term: outer.term,
        operands,
        left: outer.left,
    })
}

impl<'r, 'a> Reader<'r, 'a> {
    /// The expression that an atom is.
    fn atom_expr(&self, sc: &Scope<'_, 'a>, n: u32) -> Result<Expr, Stop>
        requires within { n < node_count self.now.nodes.now }
        requires atom { is_atom (node_at self.now.nodes.now n) ≡ true }
        ensures read { IfOk result (λ e. IsExpr (scope sc.now) (node_at self.now.nodes.now n) (tree e)) }
        ensures stops { IfErr result (λ stop. Stops stop (expr_asked (scope sc.now) (node_at self.now.nodes.now n))) }
    {
        let name = self.name(n)?;
        if let Some(x) = sc.vars.number_of(name) {
            return Ok(Expr::var(x));
        }
        match sc.names.constants.number_of(name) {
            Some(t) => Ok(Expr::app(t, Exprs::new(self.alloc))),
            None => Err(self.wrong(n, U::UnknownName)),
        }
    }

    /// What is read first of an expression: an atom is the whole of it, a list begins with its term.
    fn begun(&self, sc: &Scope<'_, 'a>, n: u32) -> Result<Step, Stop>
        requires { n < node_count self.now.nodes.now }
        ensures says { IfOk result (λ step. Says (scope sc.now) self.now.nodes.now (node_at self.now.nodes.now n) step) }
        ensures less { IfOk result (λ step. turns self.now.nodes.now step + 1 < 2 * node_size (node_at self.now.nodes.now n)) }
        ensures stops { IfErr result (λ stop. Stops stop (expr_asked (scope sc.now) (node_at self.now.nodes.now n))) }
    {
        if self.nodes.is_atom(n) {
            let expr = self.atom_expr(sc, n)?;
            return Ok(Step::Whole(expr));
        }
        let Some(head) = self.nodes.first(n) else {
            return Err(self.wrong(n, U::Form));
        };
        let term = self.number(&sc.names.terms, head)?;
        let left = self.nodes.next(head);
        let operands = Exprs::new(self.alloc);
        Ok(Step::Operands(Application {
            term,
            operands,
            left,
        }))
    }

    /// The expression that the node is.
    ///
    /// Expressions may stand deep in one another. Those around the one that is being read are kept
    /// in a list, and not on the stack.
    ///
    /// # Errors
    ///
    /// The first of the rules on forms and names that the node breaks, at its place; or where there is no
    /// memory.
    pub fn expr(&self, sc: &Scope<'_, 'a>, n: u32) -> Result<Expr, Stop>
        requires { n < node_count self.now.nodes.now }
        ensures read { IfOk result (λ e. IsExpr (scope sc.now) (node_at self.now.nodes.now n) (tree e)) }
        ensures stops { IfErr result (λ stop. Stops stop (expr_asked (scope sc.now) (node_at self.now.nodes.now n))) }
    {
        let mut outers: Vec<Application> = Vec::new(self.alloc);
        let mut step = self.begun(sc, n)?;
        'reading: loop {
            match step {
                Step::Operands(outer) => match outer.left {
                    None => step = Step::Whole(Expr::app(outer.term, outer.operands)),
                    Some(inner) => {
                        let left = self.nodes.next(inner);
                        let outer = Application { left, ..outer };
                        if self.nodes.is_atom(inner) {
                            let operand = self.atom_expr(sc, inner)?;
                            let outer = with_operand(outer, operand)?;
                            step = Step::Operands(outer);
                        } else {
                            outers.push(outer)?;
                            step = self.begun(sc, inner)?;
                        }
                    }
                },
                Step::Whole(expr) => match outers.pop() {
                    None => return Ok(expr),
                    Some(outer) => {
                        let outer = with_operand(outer, expr)?;
                        step = Step::Operands(outer);
                    }
                },
            }
        }
    }

    /// The expressions that the nodes are, from the first on.
    pub(crate) fn exprs(&self, sc: &Scope<'_, 'a>, first: Option<u32>) -> Result<Exprs, Stop>
        requires { IsThere self.now.nodes.now first }
        ensures read { IfOk result (AreExprs (scope sc.now) (nodes_from self.now.nodes.now first)) }
        ensures stops { IfErr result (λ stop. Stops stop (exprs_asked (scope sc.now) (nodes_from self.now.nodes.now first))) }
    {
        let mut exprs = Exprs::new(self.alloc);
        let mut left = first;
        while let Some(n) = left {
            let expr = self.expr(sc, n)?;
            exprs.push(expr)?;
            left = self.nodes.next(n);
        }
        Ok(exprs)
    }

    /// The expressions of a list.
    ///
    /// # Errors
    ///
    /// The first of the rules on forms and names that the node breaks, at its place; or where there is no
    /// memory.
    pub fn expr_list(&self, sc: &Scope<'_, 'a>, n: u32) -> Result<Exprs, Stop>
        requires { n < node_count self.now.nodes.now }
        ensures read { IfOk result (IsExprList (scope sc.now) (node_at self.now.nodes.now n)) }
        ensures stops { IfErr result (λ stop. Stops stop (expr_list_asked (scope sc.now) (node_at self.now.nodes.now n))) }
    {
        let first = self.list(n)?;
        self.exprs(sc, first)
    }
}
