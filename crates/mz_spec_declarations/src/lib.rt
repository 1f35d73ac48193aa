//! Statements that declare: sorts, terms, definitions, axioms and theorems of a specification, with their formulas
//! (mm0.md, the sections on these).
//!
//! `add_sort`, `add_term`, `add_definition` and `add_assertion` each take the state of the statements before. They
//! say that all rules of the statement hold and leave the state with it, or give its first fault, exactly as
//! `mz_spec_theory` has it. Formulas are read by `mz_math` after the rules on names and types (S9, S17, S10, S11, S8,
//! then S18 of a body).
//!
//! A definition's body is gone through once for its free variables, however many there are. Start with
//! `src/declare.rt`, then `src/formulas.rt`.
#![tactic(auto)]

mod declare;
mod formulas;

pub use declare::{add_assertion, add_definition, add_sort, add_term};
