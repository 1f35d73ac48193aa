//! How many variables and terms stand in expressions.
ghost use Rattle.std.specs.Prelude.{◌≡◌, ◌<◌, ◌^◌, ◌+◌};
ghost use Rattle.mz_logic_theory.specs.Tree.{size, trees_size};
ghost use Rattle.mz_logic_theory.specs.View.{tree};

use mz_logic_theory::{Expr, ExprKind, Exprs, Hyps};

/// How many variables and terms stand in the expression.
#[cycle(size_of)]
pub(crate) fn size_of(expr: &Expr) -> u128
    requires { size (tree expr.now) < 2 ^ 128 }
    ensures { result ≡ size (tree expr.now) }
{
    match expr.kind() {
        ExprKind::Var(_) => 1,
        ExprKind::App(_, es) => 1 + sizes_of(es),
        ExprKind::Under(path, e) => path.as_slice().len() as u128 + size_of(e),
    }
}

/// How many stand in the expressions.
#[cycle(size_of)]
pub(crate) fn sizes_of(es: &Exprs) -> u128
    requires { trees_size es.now < 2 ^ 128 }
    ensures { result ≡ trees_size es.now }
{
    let mut total: u128 = 0;
    for e in es.as_slice() {
        total += size_of(e);
    }
    total
}

/// How many stand in the hypotheses.
pub(crate) fn sizes_of_hyps(hyps: &Hyps) -> u128
    requires { trees_size hyps.now < 2 ^ 128 }
    ensures { result ≡ trees_size hyps.now }
{
    let mut total: u128 = 0;
    for i in 0..hyps.len() {
        total += size_of(hyps.at(i));
    }
    total
}
