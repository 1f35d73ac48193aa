//! Specifications as definitions: the grammar of statements, their rules, and what a text declares (mm0.md, the
//! grammar, and the sections on all kinds of statements).
//!
//! `specs/Statement.antt` is the grammar: a function from a statement to the signs that spell it. `specs/View.antt`
//! says what the rules see of a statement, `specs/Rules.antt` has the rules in order, `specs/Declaring.antt` what a
//! good one declares. `specs/Spec.antt` puts these together: what a text declares, or its first fault.
//!
//! `specs/Progress.antt` is the reader's machine over lexemes. It is shown to be the grammar (`proofs/Adding.antt`,
//! `proofs/Leading.antt`). A new kind of statement is a constructor, its signs, its rows there, and a case of each
//! proof.
//!
//! The laws: each text is a specification or has one first fault, and what it declares is legal. Nothing here reads a
//! text: the crates `mz_spec*` do.
#![tactic(auto)]

mod kind;
mod lexeme;
mod read;
mod refusal;
mod spec;
mod spec_refusal;
mod stated;
mod statement;

pub use kind::{AssertKind, Fixity, Kind};
pub use lexeme::Lexeme;
pub use read::StatementRead;
pub use refusal::{Fault, Halt};
pub use spec::{NameSpan, Spec};
pub use spec_refusal::SpecRefusal;
pub use stated::Stated;
pub use statement::{
    AssertText, CoercionText, DefinitionText, DelimiterText, Group, Head, Level, LiteralText,
    Modifiers, NameText, NotationText, OperatorText, Source, SyntaxStatement, TailText, TermText,
    TypeText,
};
