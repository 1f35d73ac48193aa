// The parts of lines.
ghost use Rattle.std.specs.Prelude.{◌≡◌, ◌<◌, ◌+◌, ◌^◌, ◌++◌, ◌∷◌, [], length, map, OnOk};
ghost use Rattle.mz_logic_theory.specs.View.{tree};
ghost use Rattle.mz_prefix.specs.Lines.{binder_words, binders_words, dep_words, hyps_words, math_word, type_words};
ghost use Rattle.mz_prefix.specs.Tokens.{written};
ghost use Rattle.mz_spec_theory.specs.Statement.{closing_of, opening_of};
ghost use Rattle.mz_prefix.specs.NamedDeclarations.{formula_of, formulas_of, plain_binders, plain_dummies, plain_dummy, plain_param, plain_type};
ghost use Rattle.mz_prefix.specs.Names.{spoken};

use crate::names::Names;
use mz_logic_theory::{Binder, Expr, Hyps};
use std::alloc::AllocError;

/// Appends bytes.
pub(crate) fn put(bytes: &[u8], out: &mut Vec<u8>) -> Result<(), AllocError>
    ensures { OnOk result (out.new.items ≡ out.old.items ++ bytes.now) }
{
    out.extend_from_slice(bytes)
}

/// What stands before a parameter: a brace before a bound one.
fn opening(is_bound: bool) -> u8
    ensures { result ∷ [] ≡ opening_of is_bound }
{
    if is_bound { b'{' } else { b'(' }
}

/// What stands behind it.
fn closing(is_bound: bool) -> u8
    ensures { result ∷ [] ≡ closing_of is_bound }
{
    if is_bound { b'}' } else { b')' }
}

impl<'a> Names<'a> {
    /// Appends the variables on which something depends, each behind a space.
    fn put_deps(&self, deps: &[u32], out: &mut Vec<u8>) -> Result<(), AllocError>
        ensures { OnOk result (out.new.items ≡ out.old.items ++ written (dep_words (map (spoken self.now).variable deps.now))) }
    {
        for x in deps {
            out.push(b' ')?;
            self.put_variable(*x as usize, out)?;
        }
        Ok(())
    }

    /// Appends a type: a sort, and the variables on which something depends.
    pub(crate) fn put_type(
        &self,
        sort: u32,
        deps: &[u32],
        out: &mut Vec<u8>,
    ) -> Result<(), AllocError>
        ensures { OnOk result (out.new.items ≡ out.old.items ++ written (type_words (plain_type (spoken self.now) sort deps.now))) }
    {
        out.push(b' ')?;
        out.extend_from_slice(self.sort(sort))?;
        self.put_deps(deps, out)?;
        Ok(())
    }

    /// Appends a parameter.
    fn put_param(&self, x: usize, param: &Binder, out: &mut Vec<u8>) -> Result<(), AllocError>
        ensures { OnOk result (out.new.items ≡ out.old.items ++ written (binder_words (plain_param (spoken self.now) x param.now))) }
    {
        out.push(b' ')?;
        out.push(opening(param.bound))?;
        self.put_variable(x, out)?;
        out.push(b':')?;
        self.put_type(param.sort, param.deps.as_slice(), out)?;
        out.push(closing(param.bound))?;
        Ok(())
    }

    /// Appends a dummy.
    fn put_dummy(&self, x: usize, dummy: &Binder, out: &mut Vec<u8>) -> Result<(), AllocError>
        ensures { OnOk result (out.new.items ≡ out.old.items ++ written (binder_words (plain_dummy (spoken self.now) x dummy.now))) }
    {
        out.extend_from_slice(b" {.")?;
        self.put_variable(x, out)?;
        out.push(b':')?;
        self.put_type(dummy.sort, &[], out)?;
        out.push(b'}')?;
        Ok(())
    }

    /// Appends parameters, the first of which is variable 0.
    fn put_params(&self, params: &[Binder], out: &mut Vec<u8>) -> Result<(), AllocError>
        ensures { OnOk result (out.new.items ≡ out.old.items ++ written (binders_words (plain_binders (spoken self.now) 0 params.now []))) }
    {
        for x in 0..params.len() {
            self.put_param(x, &params[x], out)?;
        }
        Ok(())
    }

    /// Appends dummies, the first of which is the variable of this number.
    fn put_dummies(
        &self,
        first: usize,
        dummies: &[Binder],
        out: &mut Vec<u8>,
    ) -> Result<(), AllocError>
        requires { first + length dummies.now < 2 ^ 64 }
        ensures { OnOk result (out.new.items ≡ out.old.items ++ written (binders_words (plain_dummies (spoken self.now) first dummies.now))) }
    {
        for i in 0..dummies.len() {
            self.put_dummy(first + i, &dummies[i], out)?;
        }
        Ok(())
    }

    /// Appends parameters, and dummies behind them.
    pub(crate) fn put_binders(
        &self,
        params: &[Binder],
        dummies: &[Binder],
        out: &mut Vec<u8>,
    ) -> Result<(), AllocError>
        ensures { OnOk result (out.new.items ≡ out.old.items ++ written (binders_words (plain_binders (spoken self.now) 0 params.now dummies.now))) }
    {
        self.put_params(params, out)?;
        self.put_dummies(params.len(), dummies, out)?;
        Ok(())
    }

    /// Appends a math string behind a space.
    pub(crate) fn put_formula(&self, expr: &Expr, out: &mut Vec<u8>) -> Result<(), AllocError>
        ensures { OnOk result (out.new.items ≡ out.old.items ++ written (math_word (formula_of (spoken self.now) (tree expr.now)) ∷ [])) }
    {
        out.extend_from_slice(b" $ ")?;
        self.put_expr(&expr.borrowed(), out)?;
        out.push(b'$')?;
        Ok(())
    }

    /// Appends hypotheses, each with a `>` behind it.
    pub(crate) fn put_hyps(&self, hyps: &Hyps, out: &mut Vec<u8>) -> Result<(), AllocError>
        ensures { OnOk result (out.new.items ≡ out.old.items ++ written (hyps_words (formulas_of (spoken self.now) hyps.now))) }
    {
        for i in 0..hyps.len() {
            self.put_formula(hyps.at(i), out)?;
            out.extend_from_slice(b" >")?;
        }
        Ok(())
    }
}
