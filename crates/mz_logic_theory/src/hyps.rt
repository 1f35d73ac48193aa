ghost use Rattle.std.specs.Prelude.{◌≡◌, ◌<◌, ◌-◌, IsTrue, length, option_map, slice_get, MatchOption, Some, IfOk, OnOk, OnErr};
ghost use Rattle.mz_logic_theory.specs.Tree.{listed, operand, app, none, followed_by, copies};
ghost use Rattle.mz_logic_theory.specs.Groups.{up_to, AreEnds, Repeats};
ghost use Rattle.mz_logic_theory.specs.View.{tree};

use crate::expr::{Expr, Exprs};
use crate::room::push_tightly;
use std::alloc::{AllocError, Global};
use std::marker::Model;

/// The hypotheses of an axiom or a theorem in order: a formula that several share is kept once.
#[derive(Drop)]
pub struct Hyps {
    formulas: Exprs,
    // one past each formula's last hypothesis
    ends: Vec<usize>,
}

impl Model for Hyps {
    ghost use Rattle.mz_logic_theory.specs.Tree.{Trees};
    ghost use Rattle.mz_logic_theory.specs.TreeCode.{trees_code};
    ghost use Rattle.mz_logic_theory.specs.Groups.{up_to, AreEnds};

    ghost Value = { Trees };

    ghost coded = { trees_code };

    ghost view = { λ a. up_to 0 a.formulas a.ends.items };

    ghost invariant = { λ a. AreEnds a.formulas a.ends.items };
}

impl Hyps {
    /// No hypotheses.
    pub fn new(alloc: Global) -> Hyps
        ensures { result ≡ none }
    {
        Hyps {
            formulas: Exprs::new(alloc),
            ends: Vec::new(alloc),
        }
    }

    /// One hypothesis of each formula.
    ///
    /// # Errors
    ///
    /// Where there is no memory.
    pub fn of_each(alloc: Global, formulas: Exprs) -> Result<Hyps, AllocError>
        ensures { IfOk result (λ hyps. hyps ≡ formulas) }
    {
        let many = formulas.len();
        let mut ends = Vec::with_capacity(alloc, many)?;
        for i in 0..many {
            ends.push(i + 1)?;
        }
        Ok(Hyps { formulas, ends })
    }

    /// The hypotheses of these formulas, each up to its end.
    pub fn from_groups(formulas: Exprs, ends: Vec<usize>) -> Hyps
        requires { AreEnds formulas ends.items }
        ensures { result ≡ up_to 0 formulas ends.items }
    {
        Hyps { formulas, ends }
    }

    /// Appends so many hypotheses of one formula.
    ///
    /// # Errors
    ///
    /// Where there is no memory, or there would be 2^64 of them. They are unchanged then.
    pub fn push(&mut self, formula: Expr, times: usize) -> Result<(), AllocError>
        ensures ok { OnOk result (self.new ≡ followed_by self.old (copies times (tree formula))) }
        ensures err { OnErr result (self.new ≡ self.old) }
    {
        if times == 0 {
            return Ok(());
        }
        let Some(end) = self.len().checked_add(times) else {
            return Err(AllocError);
        };
        push_tightly(&mut self.ends, end)?;
        match self.formulas.push(formula) {
            Ok(()) => Ok(()),
            Err(failed) => {
                self.ends.pop();
                Err(failed.into())
            }
        }
    }

    /// How many hypotheses there are.
    pub fn len(&self) -> usize
        ensures { result ≡ length (listed self.now) }
    {
        match self.ends.last() {
            None => 0,
            Some(end) => *end,
        }
    }

    /// The i-th hypothesis, if there are so many.
    pub fn get(&self, i: usize) -> Option<&Expr>
        ensures at { option_map (λ e. tree e.now) result ≡ slice_get (listed self.now) i }
        ensures operand { MatchOption result (operand self.now i ≡ app 0 none) (λ e. operand self.now i ≡ tree e.now) }
    {
        let group = self.ends.partition_point(|end| *end <= i);
        self.formulas.get(group)
    }

    /// The i-th hypothesis of at least so many.
    pub fn at(&self, i: usize) -> &Expr
        requires { i < length (listed self.now) }
        ensures { slice_get (listed self.now) i ≡ Some (tree result.now) }
    {
        match self.get(i) {
            None => unreachable!(),
            Some(hyp) => hyp,
        }
    }

    /// Whether the i-th hypothesis and the one before it are of one formula, kept once for both. No
    /// clause says that it is reported where it is so, since how formulas are kept isn't to be seen.
    pub fn shares_with_previous(&self, i: usize) -> bool
        requires { 0 < i }
        ensures { IsTrue result → slice_get (listed self.now) (i - 1) ≡ slice_get (listed self.now) i }
    {
        self.ends.binary_search(&i).is_err()
    }

    /// The formulas in order, each of which is one hypothesis or more.
    pub fn formulas(&self) -> &Exprs
        ensures { Repeats result.now self.now }
    {
        &self.formulas
    }

    /// The formulas, and before which hypothesis each ends.
    pub fn groups(&self) -> (&Exprs, &[usize])
        ensures ends { AreEnds result.0.now result.1.now }
        ensures hyps { self.now ≡ up_to 0 result.0.now result.1.now }
    {
        (&self.formulas, self.ends.as_slice())
    }
}
