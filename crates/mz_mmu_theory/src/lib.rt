//! Proof texts as definitions: statements and proofs, what they mean, their type rules and their weight, with the
//! laws.
//!
//! `specs/Expressions.antt`, `specs/Proofs.antt` and `specs/Statements.antt` say which nodes are what, as relations
//! without an order. `specs/FormOrder.antt` and `specs/StatementOrder.antt` carry the order in which a text is
//! refused. `specs/Rules.antt` has the type rules U6 to U14, `specs/Weight.antt` the limits of a compiled file.
//! `specs/Meaning.antt` says what a stated proof means: a derivation in which each let's name stands for its first
//! part.
//!
//! The laws, which `mz_mmu` and `mz_type` prove: the type rules hold exactly where statements are legal as stated, and
//! each text is well typed or has one first fault. The weight of a text is less than 2^64.
//!
//! The compiler's theory and the writers of texts rest on this, and on no reader. Nothing here reads a text.
#![tactic(auto)]

mod conv;
mod fault;
mod keyword;
mod kind;
mod modifiers;
mod proof;
mod statement;

pub use conv::{Conv, ConvBox, Convs, Vars};
pub use fault::{Fault, Stop};
pub use keyword::{Keyword, is};
pub use kind::Kind;
pub use modifiers::Modifiers;
pub use proof::{Proof, ProofBox, Proofs};
pub use statement::Declared;
