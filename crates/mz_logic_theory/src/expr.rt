//! Expressions, owned and borrowed.
ghost use Rattle.std.specs.Prelude.{◌≡◌, ◌<◌, ◌≤◌, ◌+◌, length, map, slice_get, option_map, IfOk, IfErr, OnOk, OnErr, MatchOption};
ghost use Rattle.mz_logic_theory.specs.Tree.{listed, operand, app, var, none, more, followed_by, past, under, size, trees_size};
ghost use Rattle.mz_logic_theory.specs.Kinds.{kind_tree, HasSmaller};
ghost use Rattle.mz_logic_theory.specs.Shapes.{shape_tree};
ghost use Rattle.mz_logic_theory.specs.View.{tree, trees};

use crate::room::push_tightly;
use std::alloc::{AllocError, AllocFailed, Global};
use std::marker::Model;
use std::rc::RcSlice;
use std::slice::from_ref;

/// A variable, by its place in the context, or a term over expressions. Who walks over one asks for its shape.
#[derive(Drop)]
#[cycle(expr)]
pub struct Expr {
    kind: ExprKind,
}

/// How an expression is kept.
#[derive(Drop)]
#[cycle(expr)]
pub enum ExprKind {
    Var(u32),
    App(u32, Exprs),
    /// The terms of a path, which isn't empty, over an expression.
    Under(TermPath, Box<Expr>),
}

/// A list of expressions.
#[derive(Drop)]
#[cycle(expr)]
pub struct Exprs {
    items: Vec<Expr>,
}

impl Model for Expr {
    ghost use Rattle.mz_logic_theory.specs.Tree.{Tree};
    ghost use Rattle.mz_logic_theory.specs.TreeCode.{tree_code};

    ghost Value = { Tree };

    ghost coded = { tree_code };

    ghost use Rattle.mz_logic_theory.specs.Kinds.{kind_tree, IsKept};

    ghost view = { λ a. kind_tree a.kind };

    ghost invariant = { λ a. IsKept a.kind };

    ghost use Rattle.mz_logic_theory.specs.Extent.{extent};

    ghost size = { extent };

    ghost use Rattle.mz_logic_theory.specs.Falls.{child_le_extent};

    ghost size_decreases = { λ a h. child_le_extent a.kind h };
}

impl Model for Exprs {
    ghost use Rattle.mz_logic_theory.specs.Tree.{Trees};
    ghost use Rattle.mz_logic_theory.specs.TreeCode.{trees_code};

    ghost Value = { Trees };

    ghost coded = { trees_code };

    ghost use Rattle.mz_logic_theory.specs.View.{trees};

    ghost view = { λ a. trees a.items.items };

    ghost use Rattle.mz_logic_theory.specs.Extent.{extents};

    ghost size = { extents };

    ghost use Rattle.mz_logic_theory.specs.Falls.{most_le_extents};

    ghost size_decreases = { λ a h. most_le_extents a.items.items };
}

/// Terms of one parameter, one over another, the innermost first. Expressions that have the same ones may
/// share them.
#[derive(Drop)]
pub struct TermPath {
    terms: RcSlice<u32>,
}

impl Model for TermPath {
    ghost use Rattle.std.specs.Prelude.{List, ℕ};
    ghost use Rattle.std.specs.Rc.{rc_slice_items};

    ghost Value = { List ℕ };

    ghost view = { λ a. rc_slice_items a.terms };
}

impl TermPath {
    /// The path of these terms.
    ///
    /// # Errors
    ///
    /// Where there is no memory.
    pub fn from_vec(terms: Vec<u32>) -> Result<TermPath, AllocError>
        ensures { IfOk result (λ path. path ≡ terms.items) }
    {
        let terms = RcSlice::from_vec(terms)?;
        Ok(TermPath { terms })
    }

    /// The same terms, which are kept once for both.
    ///
    /// # Errors
    ///
    /// Where more share them than can be counted.
    pub fn share(&self) -> Result<TermPath, AllocError>
        ensures { IfOk result (λ path. path ≡ self.now) }
    {
        let terms = self.terms.clone()?;
        Ok(TermPath { terms })
    }

    /// The terms in order.
    pub fn as_slice(&self) -> &[u32]
        ensures { result.now ≡ self.now }
    {
        self.terms.as_slice()
    }
}

/// An expression that is borrowed.
#[derive(Drop)]
pub struct ExprRef<'a> {
    // terms that stand over it, the innermost first
    path: &'a [u32],
    expr: &'a Expr,
}

impl<'a> Model for ExprRef<'a> {
    ghost use Rattle.mz_logic_theory.specs.Tree.{Tree, under};
    ghost use Rattle.mz_logic_theory.specs.TreeCode.{tree_code};

    ghost Value = { Tree };

    ghost coded = { tree_code };

    ghost view = { λ a. under a.path.now a.expr.now };
}

/// Expressions that are borrowed.
#[derive(Drop)]
pub struct Operands<'a> {
    // terms that stand over each of them, the innermost first
    path: &'a [u32],
    exprs: &'a [Expr],
}

impl<'a> Model for Operands<'a> {
    ghost use Rattle.std.specs.Prelude.{map};
    ghost use Rattle.mz_logic_theory.specs.Tree.{Trees, under};
    ghost use Rattle.mz_logic_theory.specs.TreeCode.{trees_code};
    ghost use Rattle.mz_logic_theory.specs.View.{trees};

    ghost Value = { Trees };

    ghost coded = { trees_code };

    ghost view = { λ a. trees (map (under a.path.now) a.exprs.now) };
}

/// What an expression is: a variable, or a term over operands.
#[derive(Drop)]
pub enum Shape<'a> {
    Var(u32),
    App(u32, Operands<'a>),
}

impl Expr {
    /// A variable.
    pub fn var(place: u32) -> Expr
        ensures { result ≡ var place }
    {
        Expr {
            kind: ExprKind::Var(place),
        }
    }

    /// A term over operands.
    pub fn app(term: u32, operands: Exprs) -> Expr
        ensures { result ≡ app term operands }
    {
        Expr {
            kind: ExprKind::App(term, operands),
        }
    }

    /// The terms of a path over an expression.
    ///
    /// # Errors
    ///
    /// Where there is no memory.
    pub fn under(alloc: Global, path: TermPath, expr: Expr) -> Result<Expr, AllocError>
        ensures { IfOk result (λ e. e ≡ under path expr) }
    {
        if path.as_slice().is_empty() {
            return Ok(expr);
        }
        let expr = Box::new(alloc, expr)?;
        Ok(Expr {
            kind: ExprKind::Under(path, expr),
        })
    }

    /// How it is kept.
    pub fn kind(&self) -> &ExprKind
        ensures tree { kind_tree result.now ≡ self.now }
        ensures smaller { HasSmaller self.now result.now }
    {
        &self.kind
    }

    /// The expression, borrowed.
    pub fn borrowed(&self) -> ExprRef<'_>
        ensures { result ≡ self.now }
    {
        ExprRef {
            path: &[],
            expr: self,
        }
    }

    /// What it is.
    pub fn shape(&self) -> Shape<'_>
        ensures { shape_tree result ≡ self.now }
    {
        match &self.kind {
            ExprKind::Var(x) => Shape::Var(*x),
            ExprKind::App(t, es) => Shape::App(*t, es.borrowed()),
            ExprKind::Under(path, expr) => shape_under(path.as_slice(), expr),
        }
    }
}

/// What a path of one term or more over an expression is: the last of them over all that it stands over.
fn shape_under<'a>(path: &'a [u32], expr: &'a Expr) -> Shape<'a>
    requires { 0 < length path.now }
    ensures { shape_tree result ≡ under path.now expr.now }
{
    match path.split_last() {
        None => unreachable!(),
        Some((term, path)) => Shape::App(
            *term,
            Operands {
                path,
                exprs: from_ref(expr),
            },
        ),
    }
}

impl<'a> ExprRef<'a> {
    /// What it is.
    pub fn shape(&self) -> Shape<'a>
        ensures { shape_tree result ≡ self.now }
    {
        if self.path.is_empty() {
            self.expr.shape()
        } else {
            shape_under(self.path, self.expr)
        }
    }
}

impl<'a> Operands<'a> {
    /// How many there are.
    pub fn len(&self) -> usize
        ensures { result ≡ length (listed self.now) }
    {
        self.exprs.len()
    }

    /// The i-th of at least so many.
    pub fn at(&self, i: usize) -> ExprRef<'a>
        requires { i < length (listed self.now) }
        ensures left { past i self.now ≡ more result (past (i + 1) self.now) }
        ensures within { size result ≤ trees_size self.now }
    {
        ExprRef {
            path: self.path,
            expr: &self.exprs[i],
        }
    }

    /// The i-th one, if there are so many.
    pub fn get(&self, i: usize) -> Option<ExprRef<'a>>
        ensures at { result ≡ slice_get (listed self.now) i }
        ensures operand { MatchOption result (operand self.now i ≡ app 0 none) (λ e. operand self.now i ≡ e) }
    {
        if i < self.len() {
            Some(self.at(i))
        } else {
            None
        }
    }

    /// A path, and the expressions over each of which its terms stand.
    pub fn parts(&self) -> (&'a [u32], &'a [Expr])
        ensures { trees (map (under result.0.now) result.1.now) ≡ self.now }
    {
        (self.path, self.exprs)
    }

    /// The terms of a path over each of the expressions.
    pub fn over(path: &'a [u32], exprs: &'a [Expr]) -> Operands<'a>
        ensures { result ≡ trees (map (under path.now) exprs.now) }
    {
        Operands { path, exprs }
    }

    /// The first one and the others, if there is one.
    pub fn split_first(&self) -> Option<(ExprRef<'a>, Operands<'a>)>
        ensures { MatchOption result (self.now ≡ none) (λ (e, es). self.now ≡ more e es) }
    {
        match self.exprs.split_first() {
            None => None,
            Some((expr, exprs)) => Some((
                ExprRef {
                    path: self.path,
                    expr,
                },
                Operands {
                    path: self.path,
                    exprs,
                },
            )),
        }
    }
}

impl Exprs {
    /// How many there are.
    pub fn len(&self) -> usize
        ensures { result ≡ length (listed self.now) }
    {
        self.items.len()
    }

    /// The i-th expression, if there are so many.
    pub fn get(&self, i: usize) -> Option<&Expr>
        ensures at { option_map (λ e. tree e.now) result ≡ slice_get (listed self.now) i }
        ensures operand { MatchOption result (operand self.now i ≡ app 0 none) (λ e. operand self.now i ≡ tree e.now) }
    {
        self.items.get(i)
    }

    /// The expressions in order.
    pub fn as_slice(&self) -> &[Expr]
        ensures items { trees result.now ≡ self.now }
        ensures many { length result.now ≡ length (listed self.now) }
    {
        &self.items
    }

    /// The expressions, borrowed.
    pub fn borrowed(&self) -> Operands<'_>
        ensures { result ≡ self.now }
    {
        Operands {
            path: &[],
            exprs: &self.items,
        }
    }

    /// No expressions.
    pub fn new(alloc: Global) -> Exprs
        ensures { result ≡ none }
    {
        Exprs {
            items: Vec::new(alloc),
        }
    }

    /// No expressions, with room for so many.
    ///
    /// # Errors
    ///
    /// Where there is no memory.
    pub fn with_capacity(alloc: Global, capacity: usize) -> Result<Exprs, AllocError>
        ensures { IfOk result (λ es. es ≡ none) }
    {
        let items = Vec::with_capacity(alloc, capacity)?;
        Ok(Exprs { items })
    }

    /// The list of these expressions.
    pub fn from_vec(items: Vec<Expr>) -> Exprs
        ensures { result ≡ trees items.items }
    {
        Exprs { items }
    }

    /// The expressions in order, given away.
    pub fn into_vec(self) -> Vec<Expr>
        ensures { trees result.items ≡ self }
    {
        self.items
    }

    /// Appends an expression.
    ///
    /// # Errors
    ///
    /// Where there is no memory. The list is unchanged then, and the expression is given back.
    pub fn push(&mut self, expr: Expr) -> Result<(), AllocFailed<Expr>>
        ensures ok { OnOk result (self.new ≡ followed_by self.old (more (tree expr) none)) }
        ensures err { IfErr result (λ e. e.value ≡ expr) }
        ensures same { OnErr result (self.new ≡ self.old) }
    {
        push_tightly(&mut self.items, expr)
    }
}
