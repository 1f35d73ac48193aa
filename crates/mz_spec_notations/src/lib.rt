//! Statements that say how formulas are written: operators, coercions, delimiters and notations of a specification
//! (mm0.md, the sections on notations and coercions).
//!
//! `add_operator`, `add_coercion`, `add_delimiter` and `add_notation` each take the state of the statements before.
//! They say that all rules of the statement hold and leave the state with it, or give its first fault, exactly as
//! `mz_spec_theory` has it. The literals of a general notation are copied into one text, where they are spans.
//!
//! It stands beside `mz_spec_declarations`, so that both are proved at one time. Start with `src/notations.rt`.
#![tactic(auto)]

mod literals;
mod notations;

pub use notations::{add_coercion, add_delimiter, add_notation, add_operator};
