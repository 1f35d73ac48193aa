//! The variables of a specification's statement: names by number, parameters and dummies, and what a type depends on
//! (mm0.md, the sections on terms, definitions, axioms and theorems).
//!
//! A `Parts` is what the rules see of a statement's variables, whatever its kind. `NameMap` numbers names,
//! `places_among` gives the places on which a type depends, in order, each once. All are exact, as `mz_spec_theory`
//! and `mz_base` have them.
//!
//! Few names are searched one by one; many are found by hash or by an index that is made once for the statement. So a
//! statement with very many variables isn't slow. Start with `src/parts.rt`, then `src/by_name.rt`.
#![tactic(auto)]

mod by_name;
mod index;
mod names;
mod parts;
mod variables;

pub use by_name::{are_bound_before, places_among, places_of};
pub use index::NameIndex;
pub use names::NameMap;
pub use parts::{Parts, TypeAt};
pub use variables::Variable;
