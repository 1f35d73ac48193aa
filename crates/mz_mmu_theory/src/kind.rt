//! The keywords with which statements begin.
ghost use Rattle.std.specs.Prelude.{◌≡◌};
ghost use Rattle.mz_mmu_theory.specs.Statements.{kind_of_word};

use crate::keyword::is;

/// The keywords with which statements begin.
#[derive(Clone, Copy)]
pub enum Kind {
    /// `sort`
    Sort,
    /// `term`
    Term,
    /// `axiom`
    Axiom,
    /// `def`
    Def,
    /// `theorem`
    Theorem,
    /// Any other atom.
    Other,
}

impl Kind {
    /// The kind of statement that the atom begins.
    pub fn of(word: &[u8]) -> Kind
        ensures { result ≡ kind_of_word word.now }
    {
        if is(word, b"sort") {
            Kind::Sort
        } else if is(word, b"term") {
            Kind::Term
        } else if is(word, b"axiom") {
            Kind::Axiom
        } else if is(word, b"def") {
            Kind::Def
        } else if is(word, b"theorem") {
            Kind::Theorem
        } else {
            Kind::Other
        }
    }
}
