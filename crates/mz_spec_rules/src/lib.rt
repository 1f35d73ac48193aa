//! What the rules ask of the statements before: names, types, binders and precedences; and the state these make.
//!
//! A [`State`] has what the statements so far declare. `check_new`, `check_known`, `State::check_parts` and
//! `State::check_notation` say exactly whether a statement's names, types and binders are right, or give the first
//! fault (S4, S5, S6, S19, S7). `level_of` reads a precedence (S15). `State::binders_of` and `State::result_of` give
//! what the statement declares.
//!
//! The rules and their order are defined in `mz_spec_theory`. This crate reads no math string, so it stands beside
//! `mz_math` and both are proved at one time. Start with `specs/Entries.antt`, then `src/parts.rt` and
//! `src/rules.rt`.
#![tactic(auto)]

mod levels;
mod math_string;
mod parts;
mod rules;
mod scope;
mod state;

pub use levels::{level_of, tail_of};
pub use math_string::inner;
pub use rules::{check_known, check_new, index_of};
pub use state::State;
