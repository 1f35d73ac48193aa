//! The parts of a table of notations: one notation from its statement, names of terms, and whether a table stays
//! clear.
//!
//! `infix_of`, `prefix_of`, `general_of` and `declared` give what a statement makes, or the rule of form that it
//! breaks. `is_clear_with_leading` and `is_clear_with_infix` say whether one more notation can be mistaken for
//! another. A `NotationList` finds a notation by its constant, `TermNames` a term by its name, a [`Scope`] a
//! statement's variable. All answers are exact, as `mz_math_theory` has them.
//!
//! `mz_math_notation` puts these together. They stand apart so that both this and the coercions are proved at one
//! time. Start with `src/form.rt` and `src/ambiguity.rt`.
#![tactic(auto)]

mod ambiguity;
mod delimiter;
mod form;
mod names;
mod notations;
mod parameters;
mod scope;

pub use ambiguity::{is_clear_with_infix, is_clear_with_leading};
pub use delimiter::declared;
pub use form::{Statement, general_of, infix_of, is_coercion, prefix_of};
pub use names::TermNames;
pub use notations::{NotationList, Spot};
pub use scope::Scope;
