//! The grammar of specifications: the next statement of a `.mm0` text, or where its lexemes begin none (mm0.md,
//! section on the grammar).
//!
//! `read_statement` gives exactly one of four: a statement with its place, that only blanks and comments are left, a
//! fault (S1, S2, S3, S16) at its byte, or out of memory. Each lexeme is tried against the grammar before the next is
//! read. Laws say that lexemes spell one statement at most, and that there is exactly one answer.
//!
//! The code reads like the grammar: a `Reader` has one lexeme at hand, and each form has a function of its own
//! (`src/statements.rt`, `src/groups.rt`, `src/notations.rt`). `specs/Standing.antt` says where a reader stands in the
//! steps of `mz_spec_theory`, and what a call reads. Start with `src/statements.rt`.
#![tactic(auto)]

mod groups;
mod laws;
mod notations;
mod reader;
mod statements;
mod steps;
mod test;

pub use laws::{answers_are_one, statements_are_one, statements_take_bytes, stops_are_one};
pub use statements::read_statement;
