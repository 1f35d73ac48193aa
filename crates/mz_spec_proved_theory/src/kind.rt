// The kinds of declarations.
ghost use Rattle.std.specs.Prelude.{◌≡◌};
ghost use Rattle.mz_logic_theory.specs.DeclView.{declaration};
ghost use Rattle.mz_spec_proved_theory.specs.Match.{is_kind, kind_of as kind_lem, number_of};

use mz_logic_theory::{Decl, TermForm, ThmForm};

/// What is declared.
#[derive(Clone, Copy, Debug, PartialEq, Eq)]
pub enum Kind {
    Sort,
    Term,
    Axiom,
    Definition,
    Theorem,
}

impl Kind {
    /// Whether it is that kind.
    pub fn is(self, other: Kind) -> bool
        ensures { result ≡ is_kind self other }
    {
        self.number() == other.number()
    }

    fn number(self) -> u8
        ensures { result ≡ number_of self }
    {
        match self {
            Kind::Sort => 0,
            Kind::Term => 1,
            Kind::Axiom => 2,
            Kind::Definition => 3,
            Kind::Theorem => 4,
        }
    }
}

/// The kind of a declaration of a specification.
pub fn kind_of(decl: &Decl) -> Kind
    ensures { result ≡ kind_lem (declaration decl.now) }
{
    match decl {
        Decl::Sort(_) => Kind::Sort,
        Decl::Term(term) => match term.form {
            TermForm::Plain => Kind::Term,
            _ => Kind::Definition,
        },
        Decl::Thm(thm) => match thm.form {
            ThmForm::Axiom => Kind::Axiom,
            ThmForm::Theorem => Kind::Theorem,
        },
    }
}
