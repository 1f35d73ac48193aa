//! Specifications read: the declarations of a `.mm0` text, or the first rule that it breaks (mm0.md).
//!
//! `read_spec` answers exactly one of three: what the text declares, with the places of names; its first fault, with
//! statement, byte and rule; or out of memory. `readings_are_one` says that each text has just one of the first two,
//! and `specifications_are_legal` that what a specification declares is a legal environment.
//!
//! Statements come from `mz_spec_grammar`, and `mz_spec_declarations` and `mz_spec_notations` add them to the state.
//! `input` and `output` are refused (S16). What all of it means is said in `mz_spec_theory`. Start with
//! `specs/Reading.antt`, then `src/reader.rt`.
#![tactic(auto)]

mod laws;
mod names;
mod reader;
mod statements;

pub use laws::{readings_are_one, specifications_are_legal};
pub use mz_base::Hashing;
pub use mz_spec_theory::{Spec, SpecRefusal};
pub use names::{NamedSpec, bytes_between};
pub use reader::{SpecRead, read_spec};
