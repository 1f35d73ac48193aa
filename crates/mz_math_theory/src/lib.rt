//! Math strings as definitions: notations, coercions, the tree that tokens have by them, and the expression it stands
//! for (mm0.md, the sections on math strings, notations and coercions).
//!
//! `specs/Notation.antt` says what a table of notations is, `specs/Forms.antt` what each statement adds to it and
//! which rules it breaks, `specs/Coercions.antt` what a path of coercions is. `specs/Grammar.antt` and
//! `specs/Meaning.antt` say what a string stands for, and `specs/Formula.antt` which of its rules fails first.
//!
//! The laws: a clear table stays clear. A list of tokens has one tree at most. Each string has a meaning or a first
//! rule that it breaks. That a tree is unique is one of the five proofs that PROOFS goes through. Nothing here reads
//! a string: the crates `mz_math*` do.
#![tactic(auto)]

mod built;
mod coercion;
mod fault;
mod literal;
mod notation;
mod syntax;
mod wanted;

pub use built::{Added, Built};
pub use coercion::Coercion;
pub use fault::NoteFault;
pub use literal::{Literal, Tail};
pub use notation::{Element, ElementRef, Elements, MAX, Notation, level_number};
pub use syntax::Syntax;
pub use wanted::{Parsed, Wanted};
