//! The unify machine by identity, as it runs: expressions are named by the commands of a body that made them.
//!
//! [`Nodes`] has one entry for each variable and each Term command of a body, and looks for no equal one. An id is
//! its index, and two expressions are the same exactly where their ids are. Two words are kept for each: all its
//! variables, which dummies need, and those that the END of a definition asks for.
//!
//! `unify` says exactly whether a stream runs by the profile `portable`, or the first command that fails, as that of
//! `mz_unify` does over a store. The two share commands, stops and lemmas.
//!
//! Start with `specs/Numbering.antt`, which says what ids stand for, then `src/nodes.rt` and `src/rows.rt`.
#![tactic(auto)]

mod node;
mod nodes;
mod rows;
mod running;
mod variables;

pub use nodes::Nodes;
pub use rows::kept_disjoint;
pub use running::{unify, unify_in};
