// The kinds of statements that share a form.
ghost use Rattle.std.specs.Prelude.{◌≡◌};
ghost use Rattle.mz_spec_theory.specs.Statement.{takes_dummies as takes_dummies_lem, takes_formulas as takes_formulas_lem};

/// An axiom or a theorem.
#[derive(Clone, Copy, Debug, PartialEq, Eq)]
pub enum AssertKind {
    Axiom,
    Theorem,
}

/// The kinds of statements in which groups stand behind the name.
#[derive(Clone, Copy, Debug, PartialEq, Eq)]
pub enum Kind {
    Term,
    Assert(AssertKind),
    Definition,
    Notation,
}

/// How a constant with one or two operands is written.
#[derive(Clone, Copy, Debug, PartialEq, Eq)]
pub enum Fixity {
    /// `infixl`: between its operands, grouping to the left.
    InfixLeft,
    /// `infixr`: between its operands, grouping to the right.
    InfixRight,
    /// `prefix`: before its operands.
    Prefix,
}

impl Kind {
    /// Only definitions have dummies.
    pub fn takes_dummies(self) -> bool
        ensures { result ≡ takes_dummies_lem self }
    {
        matches!(self, Kind::Definition)
    }

    /// Hypotheses stand in axioms and theorems, in round brackets.
    pub fn takes_formulas(self, is_bound: bool) -> bool
        ensures { result ≡ takes_formulas_lem self is_bound }
    {
        match self {
            Kind::Assert(_) => !is_bound,
            _ => false,
        }
    }
}
