// How high an expression is.
ghost use Rattle.std.specs.Prelude.{◌≤◌, ◌↔◌, IsTrue};
ghost use Rattle.mz_logic_theory.specs.View.{tree};
ghost use Rattle.mz_math_theory.specs.Meaning.{height, trees_height};

use mz_logic_theory::{Expr, ExprKind, Exprs};

/// Whether the expression is at most so high.
#[cycle(is_low)]
pub fn is_low(expr: &Expr, most: usize) -> bool
    ensures { IsTrue result ↔ (height (tree expr.now) ≤ most) }
{
    match expr.kind() {
        ExprKind::Var(_) => most > 0,
        ExprKind::App(_, es) => most > 0 && are_low(es, most - 1),
        ExprKind::Under(path, e) => {
            let many = path.as_slice().len();
            if many >= most {
                return false;
            }
            is_low(e, most - many)
        }
    }
}

/// Whether each of the expressions is.
#[cycle(is_low)]
fn are_low(es: &Exprs, most: usize) -> bool
    ensures { IsTrue result ↔ (trees_height es.now ≤ most) }
{
    for e in es.as_slice() {
        if !is_low(e, most) {
            return false;
        }
    }
    true
}
