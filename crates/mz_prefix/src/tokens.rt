// The prefix form of expressions.
//
// What calls itself here goes no deeper than an expression is nested, which is at most as deep as a
// text may be.
ghost use Rattle.std.specs.Prelude.{◌≡◌, ◌++◌, OnOk, codes};
ghost use Rattle.mz_prefix.specs.Lines.{spaced};
ghost use Rattle.mz_prefix.specs.Prefix.{enclosed, operand_tokens};
ghost use Rattle.mz_prefix.specs.NamedDeclarations.{formula_of};
ghost use Rattle.mz_prefix.specs.Measures;
ghost use Rattle.mz_prefix.specs.Names.{spoken};

use crate::names::Names;
use mz_logic_theory::{ExprRef, Operands, Shape};
use std::alloc::AllocError;

/// Whether it is a term over operands.
pub(crate) fn has_operands(expr: &ExprRef) -> bool
    ensures { result ≡ Measures.has_operands expr.now }
{
    match expr.shape() {
        Shape::Var(_) => false,
        Shape::App(_, es) => es.len() > 0,
    }
}

/// Appends a token and a space.
fn put_token(token: &[u8], out: &mut Vec<u8>) -> Result<(), AllocError>
    ensures { OnOk result (out.new.items ≡ out.old.items ++ (token.now ++ codes " ")) }
{
    out.extend_from_slice(token)?;
    out.push(b' ')?;
    Ok(())
}

impl<'a> Names<'a> {
    /// Appends the tokens of an expression, each with a space behind it.
    #[cycle(put_expr)]
    pub(crate) fn put_expr(&self, expr: &ExprRef, out: &mut Vec<u8>) -> Result<(), AllocError>
        ensures { OnOk result (out.new.items ≡ out.old.items ++ spaced (formula_of (spoken self.now) expr.now)) }
    {
        match expr.shape() {
            Shape::Var(x) => {
                self.put_variable(x as usize, out)?;
                out.push(b' ')?;
                Ok(())
            }
            Shape::App(t, es) => {
                put_token(self.term(t), out)?;
                self.put_operands(&es, out)
            }
        }
    }

    /// The same of operands.
    #[cycle(put_expr)]
    fn put_operands(&self, es: &Operands, out: &mut Vec<u8>) -> Result<(), AllocError>
        ensures { OnOk result (out.new.items ≡ out.old.items ++ spaced (operand_tokens (spoken self.now).term (spoken self.now).variable es.now)) }
    {
        for i in 0..es.len() {
            self.put_operand(&es.at(i), out)?;
        }
        Ok(())
    }

    /// The same of an operand, in parentheses where it has operands itself.
    #[cycle(put_expr)]
    fn put_operand(&self, expr: &ExprRef, out: &mut Vec<u8>) -> Result<(), AllocError>
        ensures { OnOk result (out.new.items ≡ out.old.items ++ spaced (enclosed (spoken self.now).term (spoken self.now).variable expr.now)) }
    {
        if !has_operands(expr) {
            return self.put_expr(expr, out);
        }
        put_token(b"(", out)?;
        self.put_expr(expr, out)?;
        put_token(b")", out)?;
        Ok(())
    }
}
