//! Which variables an expression names: decided in one walk over it, however many they are.
//!
//! `free_vars_are_among` says whether all free variables of an expression are among given ones. `names_other` and
//! `some_name_any` say the like of all its variables. Each answer is exact, as V and FV of `mz_logic_theory` have it
//! (Carneiro, the section on variables and dependencies). Only out of memory is free.
//!
//! A walk for each variable would take time in proportion to the square of a hostile file. Start with `src/free.rt`.
#![tactic(auto)]

mod free;
mod named;
mod narrowed;
mod own;
mod variables;

pub use free::{bound_operand, free_vars_are_among};
pub use named::{names_other, some_name_any};
pub use narrowed::Narrowed;
pub use own::Own;
pub use variables::VariableSet;
