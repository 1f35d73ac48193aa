//! The table of what is declared for math strings: delimiters, notations, names of terms and coercions.
//!
//! A [`Notations`] takes one statement after another (`add_infix`, `add_prefix`, `add_general`, `add_coercion`,
//! `add_delimiter`). Each call says exactly whether the statement has its form and whether it clashes with the table.
//! After a refusal, out of memory too, the table is unchanged. What is looked up (`led_by`, `joined_by`,
//! `has_constant`, `named`) is found just where it is there.
//!
//! What a table is, and which rules statements break, is said in `mz_math_theory` (`Forms.antt`, `Clear.antt`). All
//! readers of math strings share this one table. Start with `src/table.rt`.
#![tactic(auto)]

mod table;

pub use mz_math_coercions::Coercions;
pub use mz_math_operators::Scope;
pub use mz_math_theory::Coercion;
pub use table::Notations;
