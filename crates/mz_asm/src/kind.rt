// The kinds of statements that a listing says apart.
ghost use Rattle.std.specs.Prelude.{◌≡◌};
ghost use Rattle.mz_asm.specs.Reading.{kind_of_word, local_kind_of_word};
ghost use Rattle.mz_asm.specs.Statements.{code_of, has_result, has_streams};

use crate::bytes::is;
use mz_cmd::StatementCode;

/// The kind of a statement, as a listing names it.
#[derive(Clone, Copy, PartialEq, Eq)]
pub enum Kind {
    Sort,
    Term,
    Definition,
    LocalDefinition,
    Axiom,
    Theorem,
    LocalTheorem,
}

impl Kind {
    /// The kind that a token names.
    pub fn of_word(word: &[u8]) -> Option<Kind>
        ensures { result ≡ kind_of_word word.now }
    {
        if is(word, b"sort") {
            Some(Kind::Sort)
        } else if is(word, b"term") {
            Some(Kind::Term)
        } else if is(word, b"def") {
            Some(Kind::Definition)
        } else if is(word, b"axiom") {
            Some(Kind::Axiom)
        } else if is(word, b"theorem") {
            Some(Kind::Theorem)
        } else {
            None
        }
    }

    /// The kind that a token names behind `local`.
    pub fn of_local_word(word: &[u8]) -> Option<Kind>
        ensures { result ≡ local_kind_of_word word.now }
    {
        if is(word, b"def") {
            Some(Kind::LocalDefinition)
        } else if is(word, b"theorem") {
            Some(Kind::LocalTheorem)
        } else {
            None
        }
    }

    /// Whether the row has a result.
    pub fn has_result(self) -> bool
        ensures { result ≡ has_result self }
    {
        matches!(self, Kind::Term | Kind::Definition | Kind::LocalDefinition)
    }

    /// Whether it has a unify stream and a body with commands.
    pub fn has_streams(self) -> bool
        ensures { result ≡ has_streams self }
    {
        !matches!(self, Kind::Sort | Kind::Term)
    }

    /// The code of its command in a binary's list.
    pub fn code(self) -> StatementCode
        ensures { result ≡ code_of self }
    {
        match self {
            Kind::Sort => StatementCode::Sort,
            Kind::Term | Kind::Definition => StatementCode::Term,
            Kind::LocalDefinition => StatementCode::LocalDefinition,
            Kind::Axiom => StatementCode::Axiom,
            Kind::Theorem => StatementCode::Theorem,
            Kind::LocalTheorem => StatementCode::LocalTheorem,
        }
    }
}
